//! What describes a term, read of the store of a dictionary by ranges.
ghost use Rattle.std.specs.Prelude.{◌≡◌, ◌+◌, ◌<◌, ◌≤◌, IfSome, Some, drop, slice_get, take};
ghost use Rattle.std.specs.Option.{option_map};
ghost use Rattle.ii_termstore.specs.TermStore.{bits_len, block_count, block_terms, meta_at, term_store};
ghost use Rattle.ii_termdict_slice.specs.Reading.{Reads};
ghost use Rattle.ii_termdict_slice.specs.Slices.{HasBits, HasMeta, HasStoreAt};

use crate::reading::read_bytes;
use bytes::Bytes;
use ii_file_slice::{BlockCache, FileFault, FileHandle};
use ii_io::{BinarySerializable, Fault, FixedSize, Part};
use ii_termstore::term_info_store::BLOCK_LEN;
use ii_termstore::{TermInfo, TermInfoBlockMeta, TermOrdinal};
use std::alloc::Global;

// The number of terms of a block.
const BLOCK_TERMS: u64 = BLOCK_LEN as u64;

// The number of bytes before the metas of a store: the length of these, and the number of terms.
const HEADER_SIZE: u64 = 16;

// The number of bytes of a block's meta.
const META_SIZE: u64 = TermInfoBlockMeta::SIZE_IN_BYTES as u64;

// Returns the term at an ordinal of the store that begins at `store` in a file, and has `num_terms` terms. Reads the meta
// of its block, and the bits of the block.
pub(crate) fn read_term_info<H: FileHandle>(
    alloc: Global,
    file: &mut BlockCache<'_, H>,
    store: u64,
    num_terms: u64,
    ord: TermOrdinal,
) -> Result<TermInfo, FileFault>
    requires { ord < num_terms }
    ensures file { file.new ≡ file.old }
    ensures reads { Reads (H.bytes file.old) (H.is_sound file.old) (HasStoreAt store num_terms) (λ bs info. IfSome (term_store (drop store bs)) (λ infos. slice_get infos ord ≡ Some info)) result }
{
    let metas_len = HEADER_SIZE + META_SIZE * count_blocks(num_terms);
    let room = file.len().saturating_sub(store);
    if metas_len > room {
        return Err(FileFault::Index(Fault::Damaged(Part::TermStore)));
    }
    let b = ord / BLOCK_TERMS;
    let meta = match read_meta(alloc, file, store + HEADER_SIZE + META_SIZE * b) {
        Ok(meta) => meta,
        Err(fault) => return Err(fault),
    };
    let k = (ord % BLOCK_TERMS) as usize;
    if k == 0 {
        return Ok(meta.ref_term_info);
    }
    let terms = count_terms(num_terms, b);
    let bits = match read_bits(alloc, file, store + metas_len, &meta, terms) {
        Ok(bits) => bits,
        Err(fault) => return Err(fault),
    };
    match meta.term_info(bits.as_slice(), terms, k) {
        Some(info) => Ok(info),
        None => Err(FileFault::Index(Fault::Damaged(Part::TermStore))),
    }
}

// Returns the number of blocks of `terms` terms.
fn count_blocks(terms: u64) -> u64
    ensures { result ≡ block_count terms }
{
    terms.div_ceil(BLOCK_TERMS)
}

// Returns how many of `terms` terms are in block `b`.
fn count_terms(terms: u64, b: u64) -> usize
    requires { b < block_count terms }
    ensures value { result ≡ block_terms terms b }
    ensures few { result ≤ BLOCK_LEN }
{
    (terms - BLOCK_TERMS * b).min(BLOCK_TERMS) as usize
}

// Reads the meta of a block, which begins at `from`.
fn read_meta<H: FileHandle>(
    alloc: Global,
    file: &mut BlockCache<'_, H>,
    from: u64,
) -> Result<TermInfoBlockMeta, FileFault>
    ensures file { file.new ≡ file.old }
    ensures reads { Reads (H.bytes file.old) (H.is_sound file.old) (HasMeta from) (λ bs meta. option_map (λ found. found.0) (meta_at (drop from bs)) ≡ Some meta) result }
{
    let bytes = match read_bytes(alloc, file, from, TermInfoBlockMeta::SIZE_IN_BYTES) {
        Ok(bytes) => bytes,
        Err(fault) => return Err(fault),
    };
    let mut rest = bytes.as_slice();
    match TermInfoBlockMeta::deserialize(&mut rest) {
        Some(meta) => Ok(meta),
        None => Err(FileFault::Index(Fault::Damaged(Part::TermStore))),
    }
}

// Reads the bits of a block of `terms` terms, where the bits of the store begin at `start`.
fn read_bits<H: FileHandle>(
    alloc: Global,
    file: &mut BlockCache<'_, H>,
    start: u64,
    meta: &TermInfoBlockMeta,
    terms: usize,
) -> Result<Bytes, FileFault>
    requires { terms ≤ BLOCK_LEN }
    ensures file { file.new ≡ file.old }
    ensures reads { Reads (H.bytes file.old) (H.is_sound file.old) (HasBits start meta.now terms) (λ bs bits. bits ≡ take (bits_len meta.now terms) (drop (start + meta.now.offset) bs)) result }
{
    let len = meta.bits_len(terms);
    if len == 0 {
        return Ok(Bytes::new());
    }
    let all = file.len();
    if all < start || meta.offset > all - start {
        return Err(FileFault::Index(Fault::Damaged(Part::TermStore)));
    }
    read_bytes(alloc, file, start + meta.offset, len)
}
