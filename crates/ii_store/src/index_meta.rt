//! The list of segments of an index, and how it is encoded as a `meta` file of version 3 (docs/FORMATS).
ghost use Rattle.std.specs.Prelude.{true, ◌≡◌, ◌<◌, ◌^◌, ◌++◌, IfOk, Ok, OnOk, length, map};
ghost use Rattle.std.specs.List.{AllByRecursion, flat_map};
ghost use Rattle.ii_store.specs.IndexMeta.{IsValidMeta, MetaFits, MetaState, SegmentFits, body_bytes, digest_bytes, file_bytes, file_head, file_meta, has_only_sha256, list_bytes, list_file, list_head, list_numbers, meta_bytes, meta_of, meta_view, segment_bytes, segment_head, segment_view};

use crate::file_digest::FileDigest;
use crate::meta::FORMAT;
use ii_directory::{Generation, SegmentComponent, SegmentId};
use sha2::{Digest, Sha256};
use std::alloc::{AllocError, Global};

/// The version of a `meta` file that lists segments, as it is written.
pub const SEGMENTS_VERSION: u32 = 3;

/// The version that earlier programs wrote, in which each digest is a SHA-256.
pub const SHA256_VERSION: u32 = 2;

/// A file of a segment, as `meta` lists it.
#[derive(Clone, Copy, Debug, PartialEq, Eq)]
pub struct FileMeta {
    pub component: SegmentComponent,
    /// Its length in bytes.
    pub len: u64,
    /// Tells whether its bytes were changed.
    pub digest: FileDigest,
}

/// A segment, as `meta` lists it.
#[derive(Debug, Drop)]
pub struct SegmentMeta {
    pub id: SegmentId,
    /// The number of its documents, below 2^31.
    pub num_docs: u32,
    /// How many of its documents are alive.
    pub num_living: u32,
    /// Its files, in the order of the numbers of their components.
    pub files: Vec<FileMeta>,
}

/// The segments of an index, in the order of their documents.
#[derive(Debug, Drop)]
pub struct IndexMeta {
    /// One higher than that of the list before it.
    pub generation: Generation,
    /// Greater than the id of any segment that this list or an earlier one had.
    pub next_segment_id: SegmentId,
    /// The schema, as encoded by the calling program. It isn't read.
    pub schema: Vec<u8>,
    pub segments: Vec<SegmentMeta>,
}

impl FileMeta {
    /// Returns what `meta` says of a file with these bytes.
    pub fn new(component: SegmentComponent, bytes: &[u8]) -> FileMeta
        ensures { result ≡ file_meta component bytes.now }
    {
        FileMeta {
            component,
            len: bytes.len() as u64,
            digest: FileDigest::new(bytes),
        }
    }
}

/// Encodes a list of segments as a `meta` file.
#[tactic(auto, unfolding(crate::specs::IndexMeta::list_file))]
pub fn encode(alloc: Global, meta: &IndexMeta) -> Result<Vec<u8>, AllocError>
    requires { MetaFits (meta_view meta.now) }
    ensures { IfOk result (λ v. v.items ≡ meta_bytes (meta_view meta.now)) }
{
    let mut bytes = encode_body(alloc, meta)?;
    let checksum = Sha256::digest(bytes.as_slice());
    bytes.extend_from_slice(&checksum)?;
    Ok(bytes)
}

// Encodes a `meta` file without its checksum.
#[tactic(auto, unfolding(crate::specs::IndexMeta::body_bytes, crate::specs::IndexMeta::list_bytes, crate::specs::Index::format))]
fn encode_body(alloc: Global, meta: &IndexMeta) -> Result<Vec<u8>, AllocError>
    requires { MetaFits (meta_view meta.now) }
    ensures { IfOk result (λ v. v.items ≡ body_bytes 3 (meta_view meta.now)) }
{
    let mut bytes = Vec::new(alloc);
    bytes.extend_from_slice(FORMAT)?;
    bytes.extend_from_slice(&SEGMENTS_VERSION.to_le_bytes())?;
    push_list_head(&mut bytes, meta)?;
    push_segments(&mut bytes, meta.segments.as_slice())?;
    Ok(bytes)
}

// Appends everything between the version and the segments.
#[tactic(auto, unfolding(crate::specs::IndexMeta::list_head))]
fn push_list_head(bytes: &mut Vec<u8>, meta: &IndexMeta) -> Result<(), AllocError>
    requires { MetaFits (meta_view meta.now) }
    ensures { OnOk result (bytes.new.items ≡ bytes.old.items ++ list_head (meta_view meta.now)) }
{
    push_numbers(bytes, meta)?;
    bytes.extend_from_slice(&meta.schema)?;
    bytes.extend_from_slice(&(meta.segments.len() as u16).to_le_bytes())
}

// Appends the generation, the next segment id and the length of the schema.
#[tactic(auto, unfolding(crate::specs::IndexMeta::list_numbers))]
fn push_numbers(bytes: &mut Vec<u8>, meta: &IndexMeta) -> Result<(), AllocError>
    requires { MetaFits (meta_view meta.now) }
    ensures { OnOk result (bytes.new.items ≡ bytes.old.items ++ list_numbers (meta_view meta.now)) }
{
    bytes.extend_from_slice(&meta.generation.to_le_bytes())?;
    bytes.extend_from_slice(&meta.next_segment_id.to_le_bytes())?;
    bytes.extend_from_slice(&(meta.schema.len() as u32).to_le_bytes())
}

// Appends segments with their files.
fn push_segments(bytes: &mut Vec<u8>, segments: &[SegmentMeta]) -> Result<(), AllocError>
    requires { AllByRecursion SegmentFits (map segment_view segments.now) }
    ensures { OnOk result (bytes.new.items ≡ bytes.old.items ++ flat_map (segment_bytes 3) (map segment_view segments.now)) }
{
    for segment in segments {
        push_segment(bytes, segment)?;
    }
    Ok(())
}

// Appends a segment with its files.
#[tactic(auto, unfolding(crate::specs::IndexMeta::segment_bytes))]
fn push_segment(bytes: &mut Vec<u8>, segment: &SegmentMeta) -> Result<(), AllocError>
    requires { SegmentFits (segment_view segment.now) }
    ensures { OnOk result (bytes.new.items ≡ bytes.old.items ++ segment_bytes 3 (segment_view segment.now)) }
{
    push_segment_head(bytes, segment)?;
    push_files(bytes, segment.files.as_slice())
}

// Appends a segment without its files.
#[tactic(auto, unfolding(crate::specs::IndexMeta::segment_head))]
fn push_segment_head(bytes: &mut Vec<u8>, segment: &SegmentMeta) -> Result<(), AllocError>
    requires { SegmentFits (segment_view segment.now) }
    ensures { OnOk result (bytes.new.items ≡ bytes.old.items ++ segment_head (segment_view segment.now)) }
{
    bytes.extend_from_slice(&segment.id.to_le_bytes())?;
    bytes.extend_from_slice(&segment.num_docs.to_le_bytes())?;
    bytes.extend_from_slice(&segment.num_living.to_le_bytes())?;
    bytes.extend_from_slice(&(segment.files.len() as u16).to_le_bytes())
}

// Appends files.
fn push_files(bytes: &mut Vec<u8>, files: &[FileMeta]) -> Result<(), AllocError>
    ensures { OnOk result (bytes.new.items ≡ bytes.old.items ++ flat_map (file_bytes 3) files.now) }
{
    for file in files {
        push_file(bytes, file)?;
    }
    Ok(())
}

// Appends a file.
#[tactic(auto, unfolding(crate::specs::IndexMeta::file_bytes))]
fn push_file(bytes: &mut Vec<u8>, file: &FileMeta) -> Result<(), AllocError>
    ensures { OnOk result (bytes.new.items ≡ bytes.old.items ++ file_bytes 3 file.now) }
{
    push_file_head(bytes, file)?;
    push_digest(bytes, file.digest)
}

// Appends a file without its digest.
#[tactic(auto, unfolding(crate::specs::IndexMeta::file_head))]
fn push_file_head(bytes: &mut Vec<u8>, file: &FileMeta) -> Result<(), AllocError>
    ensures { OnOk result (bytes.new.items ≡ bytes.old.items ++ file_head file.now) }
{
    bytes.extend_from_slice(&u16::from(file.component.number()).to_le_bytes())?;
    bytes.extend_from_slice(&file.component.generation().to_le_bytes())?;
    bytes.extend_from_slice(&file.len.to_le_bytes())
}

// Appends the kind and the bytes of a digest.
#[tactic(auto, unfolding(crate::specs::IndexMeta::digest_bytes))]
fn push_digest(bytes: &mut Vec<u8>, digest: FileDigest) -> Result<(), AllocError>
    ensures { OnOk result (bytes.new.items ≡ bytes.old.items ++ digest_bytes 3 digest) }
{
    bytes.push(digest.kind())?;
    bytes.extend_from_slice(&digest.to_bytes())
}

/// Law: a list of segments is read back from its `meta` file, and from one of version 2 if it has such digests.
pub fn list_is_read_back()
    ensures written { (m : MetaState) → IsValidMeta m → meta_of (meta_bytes m) ≡ Ok m }
    ensures earlier { (m : MetaState) → IsValidMeta m → has_only_sha256 m ≡ true → meta_of (list_file 2 m) ≡ Ok m }
{}
