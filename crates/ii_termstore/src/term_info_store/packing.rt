ghost use Rattle.std.specs.Prelude.{◌≡◌, ℕ, ◌+◌, ◌-◌, ◌*◌, ◌^◌, ◌<◌, ◌≤◌, List, ◌++◌, length, map, max, take};
ghost use Rattle.ii_codes.specs.Bits.{low_bits, bits_bytes};
ghost use Rattle.ii_codes.specs.Packed.{num_bits};
ghost use Rattle.ii_termstore.specs.declared.term_info.TermInfo.{TermInfo};
ghost use Rattle.ii_termstore.specs.Written.{IsPacking, largest, postings_after, positions_after, postings_end, positions_end, last_of, meta_for, term_row, block_row, AreNarrow, FitsWidths, EndsFit, FitsBlock, info_in};

use super::BLOCK_LEN;
use super::block_meta::TermInfoBlockMeta;
use crate::term_info::TermInfo;
use ii_codes::bitpacker::writes_one_row;
use ii_codes::{BitPacker, compute_num_bits};

// The greatest sizes in bytes: of a number of at most 64 bits, of a term of three numbers, and of the bits of
// a block.
const MAX_NUMBER_BYTES: usize = 8;

const MAX_TERM_BYTES: usize = 3 * MAX_NUMBER_BYTES;

pub(super) const MAX_BLOCK_BYTES: usize = MAX_TERM_BYTES * BLOCK_LEN;

// Packs a number into a buffer that holds `count` bytes, and returns how many bytes it holds then.
fn pack(packer: &mut BitPacker, val: u64, width: u8, buffer: &mut [u8], count: usize) -> usize
    requires narrow { width ≤ 64 }
    requires fits { val < 2 ^ width }
    requires room { count + MAX_NUMBER_BYTES ≤ length buffer.old }
    ensures row { (row : List ℕ) → IsPacking buffer.old count packer.old row → IsPacking buffer.new result packer.new (row ++ low_bits width val) }
    ensures few { result ≤ count + MAX_NUMBER_BYTES }
    ensures size { length buffer.new ≡ length buffer.old }
{
    writes_one_row();
    count + packer.push(val, width, &mut buffer[count..])
}

// Returns the largest document frequency of the terms.
fn largest_doc_freq(others: &[TermInfo]) -> u64
    ensures { result ≡ largest (map (λ (i : TermInfo). i.doc_freq) others.now) }
{
    let mut most = 0u64;
    for info in others {
        most = most.max(u64::from(info.doc_freq));
    }
    most
}

// Returns the largest start of the terms' postings, relative to the first of their block.
fn largest_postings(first: &TermInfo, others: &[TermInfo]) -> u64
    ensures { result ≡ largest (map (postings_after first.now) others.now) }
{
    let mut most = 0u64;
    for info in others {
        most = most.max(postings_of(first, info));
    }
    most
}

// Returns the largest start of their positions, in the same way.
fn largest_positions(first: &TermInfo, others: &[TermInfo]) -> u64
    ensures { result ≡ largest (map (positions_after first.now) others.now) }
{
    let mut most = 0u64;
    for info in others {
        most = most.max(positions_of(first, info));
    }
    most
}

// Returns where the postings of a term begin, relative to the first of its block.
fn postings_of(first: &TermInfo, info: &TermInfo) -> u64
    ensures { result ≡ postings_after first.now info.now }
{
    info.postings_range
        .start
        .saturating_sub(first.postings_range.start) as u64
}

// Returns where its positions begin, in the same way.
fn positions_of(first: &TermInfo, info: &TermInfo) -> u64
    ensures { result ≡ positions_after first.now info.now }
{
    info.positions_range
        .start
        .saturating_sub(first.positions_range.start) as u64
}

// Returns the last term of a block.
fn last_term<'a>(first: &'a TermInfo, others: &'a [TermInfo]) -> &'a TermInfo
    ensures { result.now ≡ last_of first.now others.now }
{
    match others {
        [] => first,
        [.., last] => last,
    }
}

// Returns where the postings of a block end, relative to the start of its first term's.
fn end_of_postings(first: &TermInfo, others: &[TermInfo]) -> u64
    ensures { result ≡ postings_end first.now others.now }
{
    last_term(first, others)
        .postings_range
        .end
        .saturating_sub(first.postings_range.start) as u64
}

// Returns where its positions end, in the same way.
fn end_of_positions(first: &TermInfo, others: &[TermInfo]) -> u64
    ensures { result ≡ positions_end first.now others.now }
{
    last_term(first, others)
        .positions_range
        .end
        .saturating_sub(first.positions_range.start) as u64
}

/// Returns the meta of a block whose bits begin at `offset`.
#[tactic(auto, unfolding(crate::specs::Written::meta_for))]
pub(super) fn meta_for(offset: u64, first: &TermInfo, others: &[TermInfo]) -> TermInfoBlockMeta
    ensures value { result ≡ meta_for offset first.now others.now }
    ensures narrow { AreNarrow result }
    ensures fits { FitsBlock result others.now }
{
    let postings = largest_postings(first, others).max(end_of_postings(first, others));
    let positions = largest_positions(first, others).max(end_of_positions(first, others));
    TermInfoBlockMeta {
        offset,
        ref_term_info: first.copied(),
        doc_freq_nbits: compute_num_bits(largest_doc_freq(others)),
        postings_offset_nbits: compute_num_bits(postings),
        positions_offset_nbits: compute_num_bits(positions),
    }
}

// Packs the numbers of a term after the first of its block.
fn pack_term(
    packer: &mut BitPacker,
    meta: &TermInfoBlockMeta,
    info: &TermInfo,
    buffer: &mut [u8],
    count: usize,
) -> usize
    requires narrow { AreNarrow meta.now }
    requires fits { FitsWidths meta.now info.now }
    requires room { count + MAX_TERM_BYTES ≤ length buffer.old }
    ensures row { (row : List ℕ) → IsPacking buffer.old count packer.old row → IsPacking buffer.new result packer.new (row ++ term_row meta.now info.now) }
    ensures few { result ≤ count + MAX_TERM_BYTES }
    ensures size { length buffer.new ≡ length buffer.old }
{
    let first = &meta.ref_term_info;
    let (postings, positions) = (postings_of(first, info), positions_of(first, info));
    let count = pack(packer, postings, meta.postings_offset_nbits, buffer, count);
    let count = pack(
        packer,
        positions,
        meta.positions_offset_nbits,
        buffer,
        count,
    );
    pack(
        packer,
        u64::from(info.doc_freq),
        meta.doc_freq_nbits,
        buffer,
        count,
    )
}

/// Writes the bits of a block to the front of a buffer, and returns how many bytes they take.
pub(super) fn pack_block(meta: &TermInfoBlockMeta, others: &[TermInfo], buffer: &mut [u8]) -> usize
    requires narrow { AreNarrow meta.now }
    requires fits { (k : ℕ) → k < length others.now → FitsWidths meta.now (info_in others.now k) }
    requires ends { EndsFit meta.now others.now }
    requires few { length others.now < BLOCK_LEN }
    requires room { MAX_BLOCK_BYTES ≤ length buffer.old }
    ensures bytes { take result buffer.new ≡ bits_bytes (block_row meta.now others.now) }
    ensures within { result ≤ MAX_BLOCK_BYTES }
    ensures size { length buffer.new ≡ length buffer.old }
{
    writes_one_row();
    let mut packer = BitPacker::new();
    let mut count = 0;
    for info in others {
        count = pack_term(&mut packer, meta, info, buffer, count);
    }
    let first = &meta.ref_term_info;
    let (postings, positions) = (
        end_of_postings(first, others),
        end_of_positions(first, others),
    );
    let count = pack(
        &mut packer,
        postings,
        meta.postings_offset_nbits,
        buffer,
        count,
    );
    let count = pack(
        &mut packer,
        positions,
        meta.positions_offset_nbits,
        buffer,
        count,
    );
    count + packer.finish(&mut buffer[count..])
}
