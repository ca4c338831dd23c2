ghost use Rattle.std.specs.Prelude.{◌≡◌, ◌+◌, ◌-◌, ◌*◌, ◌/◌, ◌<◌, ◌≤◌, true, length, map, Some, IfSome, slice_get, IsSome};
ghost use Rattle.std.specs.List.{range_with_len};
ghost use Rattle.std.specs.Option.{option_map};
ghost use Rattle.ii_termstore.specs.TermStore.{block_count, block_terms, meta_size, has_block, are_blocks, block_meta_at, term_info_at, store_parts, term_store};

use super::BLOCK_LEN;
use super::block::{is_block, sound_info};
use super::block_meta::TermInfoBlockMeta;
use crate::TermOrdinal;
use crate::term_info::TermInfo;
use ii_io::{BinarySerializable, FixedSize};
use std::marker::Model;

// The sizes of a block and of its meta, as 64-bit numbers.
const BLOCK_TERMS: u64 = BLOCK_LEN as u64;

pub(super) const META_SIZE: u64 = TermInfoBlockMeta::SIZE_IN_BYTES as u64;

/// A list of term infos over borrowed bytes that were validated completely. The model is the list.
#[derive(Drop)]
pub struct TermInfoStoreView<'a> {
    parts: Parts<'a>,
}

impl<'a> Model for TermInfoStoreView<'a> {
    ghost use Rattle.std.specs.Prelude.{◌≡◌, ◌≤◌, ◌*◌, List, true, length, map};
    ghost use Rattle.std.specs.List.{range_with_len};
    ghost use Rattle.ii_termstore.specs.declared.term_info.TermInfo.{TermInfo};
    ghost use Rattle.ii_termstore.specs.TermStore.{block_count, meta_size, are_blocks, term_info_at};

    ghost Value = { List TermInfo };

    ghost view = { λ s. map (term_info_at s.parts.metas.now s.parts.bits.now) (range_with_len 0 s.parts.num_terms) };

    ghost invariant = { λ s. (are_blocks s.parts.num_terms s.parts.metas.now s.parts.bits.now ≡ true)
        × (meta_size * block_count s.parts.num_terms ≤ length s.parts.metas.now) };
}

impl<'a> TermInfoStoreView<'a> {
    /// Opens the store in bytes, or returns `None` if they hold none. Never allocates.
    ///
    /// The bytes are the length of the metas and the number of terms, 8 bytes each and little-endian. A
    /// `TermInfoBlockMeta` for each block of 256 terms follows, then the bits of the blocks.
    ///
    /// Reads each term once. There are at most 256 terms per 39 bytes of metas; several metas may refer to
    /// the same bits.
    pub fn open(bytes: &'a [u8]) -> Option<TermInfoStoreView<'a>>
        ensures { result ≡ term_store bytes.now }
    {
        let Some(parts) = parts_of(bytes) else {
            return None;
        };
        if !are_blocks_valid(parts.num_terms, parts.metas, parts.bits) {
            return None;
        }
        Some(TermInfoStoreView { parts })
    }

    /// Opens the store in bytes that were validated before, without validation.
    pub fn over(bytes: &'a [u8]) -> TermInfoStoreView<'a>
        requires { IsSome (term_store bytes.now) }
        ensures { term_store bytes.now ≡ Some result }
    {
        match parts_of(bytes) {
            Some(parts) => TermInfoStoreView { parts },
            None => unreachable!(),
        }
    }

    /// Returns the term at an ordinal. Never allocates.
    pub fn get(&self, term_ord: TermOrdinal) -> TermInfo
        requires { term_ord < length self.now }
        ensures { slice_get self.now term_ord ≡ Some result }
    {
        term_info_at(&self.parts, term_ord)
    }

    /// Returns the number of terms.
    pub fn num_terms(&self) -> u64
        ensures { result ≡ length self.now }
    {
        self.parts.num_terms
    }
}

// The parts of a store's bytes: the number of terms, the bytes from the metas on, and the bits.
#[derive(Clone, Copy)]
struct Parts<'a> {
    num_terms: u64,
    metas: &'a [u8],
    bits: &'a [u8],
}

// Splits bytes into the parts, or returns `None` if they don't hold them.
#[tactic(auto, unfolding(crate::specs::TermStore::store_parts))]
fn parts_of(bytes: &[u8]) -> Option<Parts<'_>>
    ensures value { option_map (λ p. (p.num_terms, p.metas.now, p.bits.now)) result ≡ store_parts bytes.now }
    ensures metas { IfSome result (λ p. meta_size * block_count p.num_terms ≤ length p.metas.now) }
{
    let mut rest = bytes;
    let Some(metas_len) = u64::deserialize(&mut rest) else {
        return None;
    };
    let Some(num_terms) = u64::deserialize(&mut rest) else {
        return None;
    };
    if metas_len != META_SIZE * count_blocks(num_terms) {
        return None;
    }
    if metas_len > rest.len() as u64 {
        return None;
    }
    Some(Parts {
        num_terms,
        metas: rest,
        bits: &rest[metas_len as usize..],
    })
}

// Returns the number of blocks of `terms` terms.
pub(super) fn count_blocks(terms: u64) -> u64
    ensures { result ≡ block_count terms }
{
    terms / BLOCK_TERMS + if terms % BLOCK_TERMS == 0 { 0 } else { 1 }
}

// Reads the meta of block `b`.
#[tactic(auto, unfolding(crate::specs::TermStore::block_meta_at))]
fn read_meta(metas: &[u8], b: u64) -> Option<TermInfoBlockMeta>
    requires { meta_size * b ≤ length metas.now }
    ensures { result ≡ block_meta_at metas.now b }
{
    let mut rest = &metas[TermInfoBlockMeta::SIZE_IN_BYTES * b as usize..];
    TermInfoBlockMeta::deserialize(&mut rest)
}

// Returns how many of `terms` terms are in block `b`.
fn count_terms(terms: u64, b: u64) -> usize
    requires { b < block_count terms }
    ensures value { result ≡ block_terms terms b }
    ensures few { result ≤ BLOCK_LEN }
{
    (terms - BLOCK_TERMS * b).min(BLOCK_TERMS) as usize
}

// Returns whether block `b` is valid.
fn is_block_valid(metas: &[u8], bits: &[u8], terms: u64, b: u64) -> bool
    requires within { b < block_count terms }
    requires there { meta_size * b ≤ length metas.now }
    ensures { result ≡ has_block metas.now bits.now terms b }
{
    match read_meta(metas, b) {
        Some(meta) => is_block(&meta, count_terms(terms, b), bits),
        None => false,
    }
}

// Returns whether all blocks are valid.
fn are_blocks_valid(terms: u64, metas: &[u8], bits: &[u8]) -> bool
    requires { meta_size * block_count terms ≤ length metas.now }
    ensures { result ≡ are_blocks terms metas.now bits.now }
{
    for b in 0..count_blocks(terms) {
        if !is_block_valid(metas, bits, terms, b) {
            return false;
        }
    }
    true
}

// Returns the term at an ordinal of valid blocks.
fn term_info_at(parts: &Parts<'_>, term_ord: u64) -> TermInfo
    requires valid { are_blocks parts.now.num_terms parts.now.metas.now parts.now.bits.now ≡ true }
    requires there { meta_size * block_count parts.now.num_terms ≤ length parts.now.metas.now }
    requires within { term_ord < parts.now.num_terms }
    ensures { result ≡ term_info_at parts.now.metas.now parts.now.bits.now term_ord }
{
    let b = term_ord / BLOCK_TERMS;
    let Some(meta) = read_meta(parts.metas, b) else {
        unreachable!();
    };
    let terms = count_terms(parts.num_terms, b);
    match sound_info(&meta, parts.bits, terms, (term_ord % BLOCK_TERMS) as usize) {
        Some(info) => info,
        None => unreachable!(),
    }
}
