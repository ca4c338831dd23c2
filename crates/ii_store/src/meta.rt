//! The `meta` file of an index: 249 bytes, as described in docs/FORMATS.
ghost use Rattle.std.specs.Prelude.{◌≡◌, ◌≤◌, ◌<◌, ◌^◌, ◌++◌, bytes_eq, length, Err, IfErr, IfOk, MatchOption, Ok, OnOk, Some};
ghost use Rattle.std.specs.Int.{w64, to_le_bytes};
ghost use Rattle.ii_directory.specs.declared.faults.DirectoryFault.TheVariants.{OutOfMemory};
ghost use Rattle.sha2.specs.Sha256.{sha256};
ghost use Rattle.ii_store.specs.Index.{Index, entry, file_in, meta_file, meta_body, head, index_at, num_docs_in, slot_in, version_in, view, whole_num_docs_in};

use crate::faults::IndexFault;
use crate::stored_index::StoredIndex;
use ii_directory::{DirectoryFault, Kind, Slot};
use sha2::{Digest, Sha256};
use std::alloc::{AllocError, Global};

/// The version of the format that is written and read.
pub const VERSION: u32 = 1;

// The first bytes of a `meta` file.
pub(crate) const FORMAT: &[u8] = b"nequllpa";

// The offsets in a `meta` file: slot, number of documents, the entry of each file, and its own checksum.
const SLOT_AT: usize = 12;

const NUM_DOCS_AT: usize = 13;

pub(crate) const SCHEMA_AT: usize = 17;

pub(crate) const TERMS_AT: usize = 57;

pub(crate) const POSTINGS_AT: usize = 97;

pub(crate) const POSITIONS_AT: usize = 137;

pub(crate) const FIELDNORMS_AT: usize = 177;

const CHECKSUM_AT: usize = 217;

// The length of a `meta` file, and of an entry in it.
const META_LEN: usize = 249;

const ENTRY_LEN: usize = 40;

// Returns whether `bytes` is the checksum of a file.
pub(crate) fn is_checksum(bytes: &[u8], file: &[u8]) -> bool
    ensures { result ≡ bytes_eq bytes.now (sha256 file.now) }
{
    bytes == Sha256::digest(file).as_slice()
}

// Returns whether `bytes` is the encoded length of a file.
fn is_len(bytes: &[u8], len: usize) -> bool
    ensures { result ≡ bytes_eq bytes.now (to_le_bytes w64 len) }
{
    bytes == (len as u64).to_le_bytes().as_slice()
}

// Returns why a file doesn't match its entry, if it doesn't. The length is checked before the checksum.
#[tactic(auto, unfolding(crate::specs::Index::file_in))]
pub(crate) fn fault_by(kind: Kind, entry: &[u8], bytes: &[u8]) -> Option<IndexFault>
    requires { 40 ≤ length entry.now }
    ensures { MatchOption result (file_in kind entry.now (Some bytes.now) ≡ Ok bytes.now) (λ fault. file_in kind entry.now (Some bytes.now) ≡ Err fault) }
{
    if !is_len(&entry[..8], bytes.len()) {
        return Some(IndexFault::WrongLength(kind));
    }
    if !is_checksum(&entry[8..ENTRY_LEN], bytes) {
        return Some(IndexFault::WrongChecksum(kind));
    }
    None
}

// Returns the slot that a `meta` file names.
#[tactic(auto, unfolding(crate::specs::Index::slot_in))]
pub(crate) fn slot_named(meta: &[u8]) -> Slot
    ensures { result ≡ slot_in meta.now }
{
    if meta.len() <= SLOT_AT {
        return Slot::First;
    }
    if meta[SLOT_AT] == 1 {
        return Slot::Second;
    }
    Slot::First
}

// Returns the number of documents, if the `meta` file is valid.
#[tactic(auto, unfolding(crate::specs::Index::num_docs_in))]
pub(crate) fn checked_num_docs(meta: &[u8]) -> Result<u32, IndexFault>
    ensures number { result ≡ num_docs_in meta.now }
    ensures len { IfOk result (λ _. length meta.now ≡ 249) }
{
    let version = version_of(meta)?;
    if version != VERSION {
        return Err(IndexFault::OtherVersion(version));
    }
    whole_num_docs(meta)
}

/// Returns the version of a `meta` file, of any version. Returns `DamagedMeta` for bytes that are no `meta`.
#[tactic(auto, unfolding(crate::specs::Index::version_in, crate::specs::Index::format))]
pub fn version_of(meta: &[u8]) -> Result<u32, IndexFault>
    ensures { result ≡ version_in meta.now }
{
    if meta.len() < SLOT_AT {
        return Err(IndexFault::DamagedMeta);
    }
    let (front, rest) = meta.split_at(8);
    if front != FORMAT {
        return Err(IndexFault::DamagedMeta);
    }
    Ok(u32::from_le_bytes([rest[0], rest[1], rest[2], rest[3]]))
}

// Returns the number of documents, if the `meta` file is a complete one of this version.
#[tactic(auto, unfolding(crate::specs::Index::whole_num_docs_in))]
fn whole_num_docs(meta: &[u8]) -> Result<u32, IndexFault>
    ensures number { result ≡ whole_num_docs_in meta.now }
    ensures len { IfOk result (λ _. length meta.now ≡ 249) }
{
    if meta.len() != META_LEN {
        return Err(IndexFault::DamagedMeta);
    }
    let (body, checksum) = meta.split_at(CHECKSUM_AT);
    if !is_checksum(checksum, body) {
        return Err(IndexFault::DamagedMeta);
    }
    let (_, rest) = meta.split_at(NUM_DOCS_AT);
    Ok(u32::from_le_bytes([rest[0], rest[1], rest[2], rest[3]]))
}

// Encodes the `meta` file of an index in a slot.
#[tactic(auto, unfolding(crate::specs::Index::meta_file))]
pub(crate) fn meta_of(
    alloc: Global,
    slot: Slot,
    index: &StoredIndex,
) -> Result<Vec<u8>, DirectoryFault>
    ensures only { IfErr result (λ e. e ≡ OutOfMemory) }
    ensures bytes { IfOk result (λ v. v.items ≡ meta_file slot (view index.now)) }
    ensures small { OnOk result (index.now.num_docs < 2 ^ 32) }
{
    let mut meta = meta_body_of(alloc, slot, index)?;
    let checksum = Sha256::digest(meta.as_slice());
    meta.extend_from_slice(&checksum)?;
    Ok(meta)
}

// Encodes a `meta` file without its checksum.
#[tactic(auto, unfolding(crate::specs::Index::meta_body))]
fn meta_body_of(alloc: Global, slot: Slot, index: &StoredIndex) -> Result<Vec<u8>, AllocError>
    ensures bytes { IfOk result (λ v. v.items ≡ meta_body slot (view index.now)) }
    ensures small { OnOk result (index.now.num_docs < 2 ^ 32) }
{
    let mut meta = Vec::new(alloc);
    push_head(&mut meta, slot, index.num_docs)?;
    push_entry(&mut meta, &index.schema)?;
    push_entry(&mut meta, &index.terms)?;
    push_entry(&mut meta, &index.postings)?;
    push_entry(&mut meta, &index.positions)?;
    push_entry(&mut meta, &index.fieldnorms)?;
    Ok(meta)
}

// Appends everything before the entries.
#[tactic(auto, unfolding(crate::specs::Index::head, crate::specs::Index::format))]
fn push_head(meta: &mut Vec<u8>, slot: Slot, num_docs: u32) -> Result<(), AllocError>
    ensures { OnOk result (meta.new.items ≡ meta.old.items ++ head slot num_docs) }
{
    meta.extend_from_slice(FORMAT)?;
    meta.extend_from_slice(&VERSION.to_le_bytes())?;
    meta.push(slot.to_code())?;
    meta.extend_from_slice(&num_docs.to_le_bytes())
}

// Appends the entry of a file.
#[tactic(auto, unfolding(crate::specs::Index::entry))]
fn push_entry(meta: &mut Vec<u8>, file: &[u8]) -> Result<(), AllocError>
    ensures { OnOk result (meta.new.items ≡ meta.old.items ++ entry file.now) }
{
    meta.extend_from_slice(&(file.len() as u64).to_le_bytes())?;
    meta.extend_from_slice(&Sha256::digest(file))
}

/// Law: `meta` and the files of an index are read back as that index, and `meta` names its slot.
pub fn meta_is_read_back()
    ensures slot { (slot : Slot) (i : Index) → slot_in (meta_file slot i) ≡ slot }
    ensures index { (slot : Slot) (i : Index) → i.num_docs < 2 ^ 32 → index_at (meta_file slot i) (Some i.schema) (Some i.terms) (Some i.postings) (Some i.positions) (Some i.fieldnorms) ≡ Ok i }
{}
