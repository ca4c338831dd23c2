ghost use Rattle.std.specs.Prelude.{◌≡◌, ◌+◌, ◌-◌, ◌*◌, ◌^◌, ◌<◌, ◌≤◌, ◌&&◌, true, nat_le, nat_lt, length, drop, Some, None, if◌then◌else◌};
ghost use Rattle.ii_codes.specs.Packed.{bits_in};
ghost use Rattle.ii_termstore.specs.TermInfos.{is_short, is_sound};
ghost use Rattle.ii_termstore.specs.TermStore.{at_start, bits_len, block_info, bits_lie, doc_freq_at, is_block, positions_number, postings_number, sound_term, term_bits, widths_fit};

use super::BLOCK_LEN;
use super::block_meta::{MAX_DOC_FREQ_NBITS, MAX_OFFSET_NBITS, TermInfoBlockMeta};
use crate::term_info::TermInfo;
use ii_codes::extract_bits;
use std::ops::Range;

// Returns the `width` bits at bit `place` after a byte offset. Reads no bit if the width is 0.
#[inline(always)]
fn number_after(bits: &[u8], offset: u64, place: usize, width: u8) -> u64
    requires narrow { width ≤ MAX_OFFSET_NBITS }
    requires near { place < 65536 }
    requires lies { 0 < width → 8 * offset + place + width ≤ 8 * length bits.now }
    ensures value { result ≡ bits_in 8 (drop offset bits.now) place width }
    ensures fits { result < 2 ^ width }
{
    if width == 0 {
        return 0;
    }
    extract_bits(&bits[offset as usize..], place, width)
}

// Returns the range between two distances from `first`. Returns `None` if it ends before it begins, has 2^32
// bytes or more, or ends above `u64::MAX`.
#[inline(always)]
fn range_after(first: usize, start: u64, end: u64) -> Option<Range<usize>>
    ensures { result ≡ (if nat_le start end && nat_lt (end - start) (2 ^ 32) && nat_lt (first + end) (2 ^ 64)
        then Some (record { start = first + start; end = first + end }) else None) }
{
    if start > end || end - start > u64::from(u32::MAX) {
        return None;
    }
    let Some(end) = first.checked_add(end as usize) else {
        return None;
    };
    Some(first + start as usize..end)
}

impl TermInfoBlockMeta {
    /// Returns the number of bytes of the bits of a block of `terms` terms, at most 256. One term has no bits.
    pub fn bits_len(&self, terms: usize) -> usize
        requires { terms ≤ BLOCK_LEN }
        ensures { result ≡ bits_len self.now terms }
    {
        (terms.saturating_sub(1) * term_bits(self) + places_bits(self)).div_ceil(8)
    }

    /// Returns term `k` of a block of `terms` terms, given the bytes of its bits alone, wherever these begin in the
    /// store. Never allocates.
    ///
    /// Returns `None` if:
    /// * `terms` is above 256, or `k` isn't less than `terms`;
    /// * bits are missing, or a width is above 56, or above 32 for `doc_freq`;
    /// * a range of the term ends before it begins, has 2^32 bytes or more, or ends above `u64::MAX`.
    pub fn term_info(&self, bits: &[u8], terms: usize, k: usize) -> Option<TermInfo>
        ensures { result ≡ sound_term (at_start self.now) terms bits.now k }
    {
        let meta = self.at_start();
        if terms > BLOCK_LEN || k >= terms || !do_widths_fit(&meta) {
            return None;
        }
        if !do_bits_lie(&meta, terms, bits.len()) {
            return None;
        }
        sound_info(&meta, bits, terms, k)
    }

    // Returns the meta whose bits begin at the first byte.
    fn at_start(&self) -> TermInfoBlockMeta
        ensures { result ≡ at_start self.now }
    {
        TermInfoBlockMeta {
            offset: 0,
            ref_term_info: self.ref_term_info.copied(),
            doc_freq_nbits: self.doc_freq_nbits,
            postings_offset_nbits: self.postings_offset_nbits,
            positions_offset_nbits: self.positions_offset_nbits,
        }
    }
}

// Returns the number of bits of the two offsets of a term after the first.
#[inline(always)]
fn places_bits(meta: &TermInfoBlockMeta) -> usize
    ensures { result ≡ meta.now.postings_offset_nbits + meta.now.positions_offset_nbits }
{
    usize::from(meta.postings_offset_nbits) + usize::from(meta.positions_offset_nbits)
}

// Returns the number of bits of a term after the first.
#[inline(always)]
fn term_bits(meta: &TermInfoBlockMeta) -> usize
    ensures { result ≡ term_bits meta.now }
{
    places_bits(meta) + usize::from(meta.doc_freq_nbits)
}

// Returns where the postings of term `k` begin, relative to the first term's. The number after the last term
// is where its postings end.
#[inline(always)]
fn postings_number(meta: &TermInfoBlockMeta, bits: &[u8], terms: usize, k: usize) -> u64
    requires widths { widths_fit meta.now ≡ true }
    requires lie { bits_lie meta.now terms (length bits.now) ≡ true }
    requires later { (0 < k) × (1 < terms) }
    requires within { (k ≤ terms) × (terms ≤ BLOCK_LEN) }
    ensures { result ≡ postings_number meta.now bits.now k }
{
    let place = (k - 1) * term_bits(meta);
    number_after(bits, meta.offset, place, meta.postings_offset_nbits)
}

// Returns where its positions begin, in the same way.
#[inline(always)]
fn positions_number(meta: &TermInfoBlockMeta, bits: &[u8], terms: usize, k: usize) -> u64
    requires widths { widths_fit meta.now ≡ true }
    requires lie { bits_lie meta.now terms (length bits.now) ≡ true }
    requires later { (0 < k) × (1 < terms) }
    requires within { (k ≤ terms) × (terms ≤ BLOCK_LEN) }
    ensures { result ≡ positions_number meta.now bits.now k }
{
    let place = (k - 1) * term_bits(meta) + usize::from(meta.postings_offset_nbits);
    number_after(bits, meta.offset, place, meta.positions_offset_nbits)
}

// Returns the document frequency of term `k`.
#[inline(always)]
fn doc_freq_number(meta: &TermInfoBlockMeta, bits: &[u8], terms: usize, k: usize) -> u32
    requires widths { widths_fit meta.now ≡ true }
    requires lie { bits_lie meta.now terms (length bits.now) ≡ true }
    requires later { 0 < k }
    requires within { (k < terms) × (terms ≤ BLOCK_LEN) }
    ensures { result ≡ doc_freq_at meta.now bits.now k }
{
    let place = (k - 1) * term_bits(meta) + places_bits(meta);
    number_after(bits, meta.offset, place, meta.doc_freq_nbits) as u32
}

// Returns term `k` of a block of `terms` terms, or `None` if it isn't valid.
#[inline(always)]
pub(super) fn sound_info(
    meta: &TermInfoBlockMeta,
    bits: &[u8],
    terms: usize,
    k: usize,
) -> Option<TermInfo>
    requires widths { widths_fit meta.now ≡ true }
    requires lie { bits_lie meta.now terms (length bits.now) ≡ true }
    requires within { k < terms }
    requires few { terms ≤ BLOCK_LEN }
    ensures { result ≡ (if is_sound (block_info meta.now bits.now k) then Some (block_info meta.now bits.now k) else None) }
{
    let first = &meta.ref_term_info;
    if k == 0 {
        return sound_first(first);
    }
    let Some(postings_range) = range_after(
        first.postings_range.start,
        postings_number(meta, bits, terms, k),
        postings_number(meta, bits, terms, k + 1),
    ) else {
        return None;
    };
    let Some(positions_range) = range_after(
        first.positions_range.start,
        positions_number(meta, bits, terms, k),
        positions_number(meta, bits, terms, k + 1),
    ) else {
        return None;
    };
    Some(TermInfo {
        doc_freq: doc_freq_number(meta, bits, terms, k),
        postings_range,
        positions_range,
    })
}

// Returns the first term of a block, if it is valid.
fn sound_first(info: &TermInfo) -> Option<TermInfo>
    ensures { result ≡ (if is_sound info.now then Some info.now else None) }
{
    if is_short(&info.postings_range) && is_short(&info.positions_range) {
        return Some(info.copied());
    }
    None
}

// Returns whether a range ends at or after its start and has fewer than 2^32 bytes.
fn is_short(range: &Range<usize>) -> bool
    ensures { result ≡ is_short range.now }
{
    let (start, end) = (range.start, range.end);
    start <= end && end - start <= u32::MAX as usize
}

// Returns whether no width is too large for its number.
fn do_widths_fit(meta: &TermInfoBlockMeta) -> bool
    ensures { result ≡ widths_fit meta.now }
{
    meta.doc_freq_nbits <= MAX_DOC_FREQ_NBITS
        && meta.postings_offset_nbits <= MAX_OFFSET_NBITS
        && meta.positions_offset_nbits <= MAX_OFFSET_NBITS
}

// Returns whether the bits of a block of `terms` terms lie within `size` bytes.
fn do_bits_lie(meta: &TermInfoBlockMeta, terms: usize, size: usize) -> bool
    requires widths { widths_fit meta.now ≡ true }
    requires few { terms ≤ BLOCK_LEN }
    ensures { result ≡ bits_lie meta.now terms size }
{
    if terms <= 1 {
        return true;
    }
    let bits = (terms - 1) * term_bits(meta) + places_bits(meta);
    if bits == 0 {
        return true;
    }
    let Some(room) = (size as u64).checked_sub(meta.offset) else {
        return false;
    };
    bits.div_ceil(8) as u64 <= room
}

/// Returns whether a block of `terms` terms is valid.
pub(super) fn is_block(meta: &TermInfoBlockMeta, terms: usize, bits: &[u8]) -> bool
    requires few { terms ≤ BLOCK_LEN }
    ensures { result ≡ is_block meta.now terms bits.now }
{
    if !do_widths_fit(meta) {
        return false;
    }
    if !do_bits_lie(meta, terms, bits.len()) {
        return false;
    }
    for k in 0..terms {
        if sound_info(meta, bits, terms, k).is_none() {
            return false;
        }
    }
    true
}
