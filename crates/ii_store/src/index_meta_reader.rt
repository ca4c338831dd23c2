//! Reading of a `meta` file of version 2 or 3 (docs/FORMATS).
ghost use Rattle.std.specs.Prelude.{◌≡◌, List, length, map, nat_lt, ◌==◌};
ghost use Rattle.std.specs.List.{list_all, list_any};
ghost use Rattle.std.specs.Int.{w16, w32, w64};
ghost use Rattle.ii_directory.specs.Directory.{is_obeyed};
ghost use Rattle.ii_store.specs.Faults.{IsRefused};
ghost use Rattle.ii_store.specs.Index.{AnswersFromFiles};
ghost use Rattle.ii_store.specs.IndexMeta.{SegmentState, ascend_from, byte_at, bytes_at, checked_list, component_of, digest_at, digest_of, file_at, ids_differ, is_consistent, is_list_version, is_segment, items_at, digest_kind_at, list_at, meta_of, meta_view, number_at, segment_at, segment_view, total_living};

use crate::faults::{IndexFault, StoreFault};
use crate::file_digest::FileDigest;
use crate::index_meta::{FileMeta, IndexMeta, SEGMENTS_VERSION, SHA256_VERSION, SegmentMeta};
use crate::meta::{is_checksum, version_of};
use ii_directory::{Generation, SegmentComponent};
use std::alloc::Global;

// The limit of the number of documents of a segment, and of living documents of an index.
const MAX_DOCS: u64 = 2_147_483_647;

/// Reads the list of segments of a `meta` file of version 2 or 3.
///
/// Returns `OtherVersion` for a `meta` of another version, and `DamagedMeta` for bytes that are no `meta` or
/// were changed, and for a list that isn't consistent: ids occur twice or aren't below the next one, more
/// documents are alive than there are, or there are 2^31 or more. No call of the system is made.
#[tactic(auto, unfolding(crate::specs::IndexMeta::meta_of))]
pub fn decode(alloc: Global, bytes: &[u8]) -> Result<IndexMeta, StoreFault>
    ensures answers { AnswersFromFiles meta_view result (meta_of bytes.now) }
    ensures memory { is_obeyed IsRefused ⊥ result }
{
    let version = version_of(bytes)?;
    if !is_version_of_list(version) {
        return Err(StoreFault::Index(IndexFault::OtherVersion(version)));
    }
    checked(alloc, version, bytes)
}

// Returns whether a `meta` file of a version lists segments.
fn is_version_of_list(version: u32) -> bool
    ensures { result ≡ is_list_version version }
{
    version == SHA256_VERSION || version == SEGMENTS_VERSION
}

// Returns the fault of a `meta` file that isn't valid.
fn damaged() -> StoreFault
    ensures { result ≡ StoreFault.Index IndexFault.DamagedMeta }
{
    StoreFault::Index(IndexFault::DamagedMeta)
}

// Reads the list of segments of a file of a version.
#[tactic(auto, unfolding(crate::specs::IndexMeta::checked_list))]
fn checked(alloc: Global, version: u32, bytes: &[u8]) -> Result<IndexMeta, StoreFault>
    ensures answers { AnswersFromFiles meta_view result (checked_list version bytes.now) }
    ensures memory { is_obeyed IsRefused ⊥ result }
{
    if bytes.len() < 44 {
        return Err(damaged());
    }
    let (body, checksum) = bytes.split_at(bytes.len() - 32);
    if !is_checksum(checksum, body) {
        return Err(damaged());
    }
    let (_, list) = body.split_at(12);
    let meta = list_of(alloc, version, list)?;
    if !is_consistent_list(&meta) {
        return Err(damaged());
    }
    Ok(meta)
}

// Reads a number of two bytes.
#[tactic(auto, unfolding(crate::specs::IndexMeta::number_at))]
fn u16_at(bytes: &[u8]) -> Result<(u16, &[u8]), StoreFault>
    ensures answers { AnswersFromFiles (λ x. (x.0, x.1.now)) result (number_at w16 bytes.now) }
    ensures memory { is_obeyed IsRefused ⊥ result }
{
    if bytes.len() < 2 {
        return Err(damaged());
    }
    let (front, rest) = bytes.split_at(2);
    let number = u16::from_le_bytes([front[0], front[1]]);
    Ok((number, rest))
}

// Reads a number of four bytes.
#[tactic(auto, unfolding(crate::specs::IndexMeta::number_at))]
fn u32_at(bytes: &[u8]) -> Result<(u32, &[u8]), StoreFault>
    ensures answers { AnswersFromFiles (λ x. (x.0, x.1.now)) result (number_at w32 bytes.now) }
    ensures memory { is_obeyed IsRefused ⊥ result }
{
    if bytes.len() < 4 {
        return Err(damaged());
    }
    let (front, rest) = bytes.split_at(4);
    let number = u32::from_le_bytes([front[0], front[1], front[2], front[3]]);
    Ok((number, rest))
}

// Reads a number of eight bytes.
#[tactic(auto, unfolding(crate::specs::IndexMeta::number_at))]
fn u64_at(bytes: &[u8]) -> Result<(u64, &[u8]), StoreFault>
    ensures answers { AnswersFromFiles (λ x. (x.0, x.1.now)) result (number_at w64 bytes.now) }
    ensures memory { is_obeyed IsRefused ⊥ result }
{
    if bytes.len() < 8 {
        return Err(damaged());
    }
    let (front, rest) = bytes.split_at(8);
    let number = u64::from_le_bytes([
        front[0], front[1], front[2], front[3], front[4], front[5], front[6], front[7],
    ]);
    Ok((number, rest))
}

// Reads a byte.
fn u8_at(bytes: &[u8]) -> Result<(u8, &[u8]), StoreFault>
    ensures answers { AnswersFromFiles (λ x. (x.0, x.1.now)) result (byte_at bytes.now) }
    ensures memory { is_obeyed IsRefused ⊥ result }
{
    let Some((byte, rest)) = bytes.split_first() else {
        return Err(damaged());
    };
    Ok((*byte, rest))
}

// Reads 32 bytes.
#[tactic(auto, unfolding(crate::specs::IndexMeta::bytes_at))]
fn array_at(bytes: &[u8]) -> Result<([u8; 32], &[u8]), StoreFault>
    ensures answers { AnswersFromFiles (λ x. (x.0, x.1.now)) result (bytes_at 32 bytes.now) }
    ensures memory { is_obeyed IsRefused ⊥ result }
{
    let Some((digest, rest)) = bytes.split_first_chunk::<32>() else {
        return Err(damaged());
    };
    Ok((*digest, rest))
}

// Returns the digest of a kind with these bytes.
#[tactic(auto, unfolding(crate::specs::IndexMeta::digest_of))]
fn digest_of_kind(kind: u8, digest: [u8; 32]) -> Result<FileDigest, StoreFault>
    ensures answers { AnswersFromFiles (λ x. x) result (digest_of kind digest) }
    ensures memory { is_obeyed IsRefused ⊥ result }
{
    match kind {
        0 => Ok(FileDigest::Sha256(digest)),
        1 => Ok(FileDigest::LongBlocks(digest)),
        2 => Ok(FileDigest::Blocks(digest)),
        _ => Err(damaged()),
    }
}

// Reads the kind of a digest, which is a SHA-256 in a list of version 2.
#[tactic(auto, unfolding(crate::specs::IndexMeta::digest_kind_at))]
fn kind_of(version: u32, bytes: &[u8]) -> Result<(u8, &[u8]), StoreFault>
    ensures answers { AnswersFromFiles (λ x. (x.0, x.1.now)) result (digest_kind_at version bytes.now) }
    ensures memory { is_obeyed IsRefused ⊥ result }
{
    if version == SHA256_VERSION {
        return Ok((0, bytes));
    }
    u8_at(bytes)
}

// Reads a digest.
#[tactic(auto, unfolding(crate::specs::IndexMeta::digest_at))]
fn file_digest_at(version: u32, bytes: &[u8]) -> Result<(FileDigest, &[u8]), StoreFault>
    ensures answers { AnswersFromFiles (λ x. (x.0, x.1.now)) result (digest_at version bytes.now) }
    ensures memory { is_obeyed IsRefused ⊥ result }
{
    let (kind, rest) = kind_of(version, bytes)?;
    let (digest, rest) = array_at(rest)?;
    let digest = digest_of_kind(kind, digest)?;
    Ok((digest, rest))
}

// Copies bytes.
#[tactic(auto, unfolding(crate::specs::IndexMeta::bytes_at))]
fn schema_at(alloc: Global, len: u32, bytes: &[u8]) -> Result<(Vec<u8>, &[u8]), StoreFault>
    ensures answers { AnswersFromFiles (λ x. (x.0.items, x.1.now)) result (bytes_at len bytes.now) }
    ensures memory { is_obeyed IsRefused ⊥ result }
{
    let len = len as usize;
    if bytes.len() < len {
        return Err(damaged());
    }
    let (schema, rest) = bytes.split_at(len);
    Ok((Vec::from_slice(alloc, schema)?, rest))
}

// Returns the component with a number.
#[tactic(auto, unfolding(crate::specs::IndexMeta::component_of))]
fn component_at(number: u16, generation: Generation) -> Result<SegmentComponent, StoreFault>
    ensures answers { AnswersFromFiles (λ x. x) result (component_of number generation) }
    ensures memory { is_obeyed IsRefused ⊥ result }
{
    if number == 5 {
        return Ok(SegmentComponent::Alive(generation));
    }
    if generation != 0 {
        return Err(damaged());
    }
    match number {
        0 => Ok(SegmentComponent::Terms),
        1 => Ok(SegmentComponent::Postings),
        2 => Ok(SegmentComponent::Positions),
        3 => Ok(SegmentComponent::FieldNorms),
        4 => Ok(SegmentComponent::Counts),
        6 => Ok(SegmentComponent::Store),
        7 => Ok(SegmentComponent::BlockTables),
        _ => Err(damaged()),
    }
}

// Reads a file.
#[tactic(auto, unfolding(crate::specs::IndexMeta::file_at))]
fn file_of(version: u32, bytes: &[u8]) -> Result<(FileMeta, &[u8]), StoreFault>
    ensures answers { AnswersFromFiles (λ x. (x.0, x.1.now)) result (file_at version bytes.now) }
    ensures memory { is_obeyed IsRefused ⊥ result }
{
    let (number, rest) = u16_at(bytes)?;
    let (generation, rest) = u64_at(rest)?;
    let (len, rest) = u64_at(rest)?;
    let (digest, rest) = file_digest_at(version, rest)?;
    let component = component_at(number, generation)?;
    Ok((
        FileMeta {
            component,
            len,
            digest,
        },
        rest,
    ))
}

// Reads a number of files.
fn files_of(
    alloc: Global,
    version: u32,
    count: u16,
    bytes: &[u8],
) -> Result<(Vec<FileMeta>, &[u8]), StoreFault>
    ensures answers { AnswersFromFiles (λ x. (x.0.items, x.1.now)) result (items_at (file_at version) count bytes.now) }
    ensures memory { is_obeyed IsRefused ⊥ result }
{
    let mut files = Vec::new(alloc);
    let mut rest = bytes;
    for _ in 0..count {
        let (file, after) = file_of(version, rest)?;
        files.push(file)?;
        rest = after;
    }
    Ok((files, rest))
}

// Reads a segment with its files.
#[tactic(auto, unfolding(crate::specs::IndexMeta::segment_at))]
fn segment_of(alloc: Global, version: u32, bytes: &[u8]) -> Result<(SegmentMeta, &[u8]), StoreFault>
    ensures answers { AnswersFromFiles (λ x. (segment_view x.0, x.1.now)) result (segment_at version bytes.now) }
    ensures memory { is_obeyed IsRefused ⊥ result }
{
    let (id, rest) = u64_at(bytes)?;
    let (num_docs, rest) = u32_at(rest)?;
    let (num_living, rest) = u32_at(rest)?;
    let (count, rest) = u16_at(rest)?;
    let (files, rest) = files_of(alloc, version, count, rest)?;
    Ok((
        SegmentMeta {
            id,
            num_docs,
            num_living,
            files,
        },
        rest,
    ))
}

// Reads a number of segments.
fn segments_of(
    alloc: Global,
    version: u32,
    count: u16,
    bytes: &[u8],
) -> Result<(Vec<SegmentMeta>, &[u8]), StoreFault>
    ensures answers { AnswersFromFiles (λ x. (map segment_view x.0.items, x.1.now)) result (items_at (segment_at version) count bytes.now) }
    ensures memory { is_obeyed IsRefused ⊥ result }
{
    let mut segments = Vec::new(alloc);
    let mut rest = bytes;
    for _ in 0..count {
        let (segment, after) = segment_of(alloc, version, rest)?;
        segments.push(segment)?;
        rest = after;
    }
    Ok((segments, rest))
}

// Reads everything between the version and the checksum.
#[tactic(auto, unfolding(crate::specs::IndexMeta::list_at))]
fn list_of(alloc: Global, version: u32, bytes: &[u8]) -> Result<IndexMeta, StoreFault>
    ensures answers { AnswersFromFiles meta_view result (list_at version bytes.now) }
    ensures memory { is_obeyed IsRefused ⊥ result }
{
    let (generation, rest) = u64_at(bytes)?;
    let (next_segment_id, rest) = u64_at(rest)?;
    let (len, rest) = u32_at(rest)?;
    let (schema, rest) = schema_at(alloc, len, rest)?;
    let (count, rest) = u16_at(rest)?;
    let (segments, rest) = segments_of(alloc, version, count, rest)?;
    if !rest.is_empty() {
        return Err(damaged());
    }
    Ok(IndexMeta {
        generation,
        next_segment_id,
        schema,
        segments,
    })
}

// Returns whether a list is consistent.
#[tactic(auto, unfolding(crate::specs::IndexMeta::is_consistent))]
pub(crate) fn is_consistent_list(meta: &IndexMeta) -> bool
    ensures { result ≡ is_consistent (meta_view meta.now) }
{
    are_segments(meta.next_segment_id, meta.segments.as_slice())
        && have_ids(meta.segments.as_slice())
        && have_few_living(meta.segments.as_slice())
}

// Returns whether each segment is consistent.
fn are_segments(next: u64, segments: &[SegmentMeta]) -> bool
    ensures { result ≡ list_all (is_segment next) (map segment_view segments.now) }
{
    for segment in segments {
        if !is_one(next, segment) {
            return false;
        }
    }
    true
}

// Returns whether a segment is consistent.
#[tactic(auto, unfolding(crate::specs::IndexMeta::is_segment))]
fn is_one(next: u64, segment: &SegmentMeta) -> bool
    ensures { result ≡ is_segment next (segment_view segment.now) }
{
    segment.id < next
        && segment.num_living <= segment.num_docs
        && segment.num_docs < 0x8000_0000
        && ascend(0, segment.files.as_slice())
}

// Returns whether the components of files ascend from the least one.
fn ascend(least: u8, files: &[FileMeta]) -> bool
    ensures { result ≡ ascend_from least files.now }
{
    let Some((file, others)) = files.split_first() else {
        return true;
    };
    let number = file.component.number();
    if number < least {
        return false;
    }
    ascend(number + 1, others)
}

// Returns whether no two segments have the same id.
fn have_ids(segments: &[SegmentMeta]) -> bool
    ensures { result ≡ ids_differ (map segment_view segments.now) }
{
    let mut rest = segments;
    while let Some((segment, others)) = rest.split_first() {
        if has_id(segment.id, others) {
            return false;
        }
        rest = others;
    }
    true
}

// Returns whether a segment has an id.
fn has_id(id: u64, segments: &[SegmentMeta]) -> bool
    ensures { result ≡ list_any (λ (s : SegmentState). s.id == id) (map segment_view segments.now) }
{
    for segment in segments {
        if segment.id == id {
            return true;
        }
    }
    false
}

// Returns whether fewer than 2^31 documents are alive.
fn have_few_living(segments: &[SegmentMeta]) -> bool
    ensures { result ≡ nat_lt (total_living (map segment_view segments.now)) 2147483648 }
{
    let mut living: u64 = 0;
    for segment in segments {
        living += u64::from(segment.num_living);
        if living > MAX_DOCS {
            return false;
        }
    }
    true
}
