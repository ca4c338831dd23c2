ghost use Rattle.std.specs.Prelude.{◌≡◌, ℕ, ◌+◌, ◌*◌, ◌^◌, ◌<◌, ◌≤◌, ◌∷◌, [], ◌++◌, length, take, slice_index};
ghost use Rattle.std.specs.Int.{bytes_low_first};
ghost use Rattle.ii_codes.specs.Packed.{bits_in, packed};

use std::simd::prelude::*;

/// Returns four entries from an index on.
#[inline(always)]
fn four_at(entries: &[u32], place: usize) -> u32x4
    requires { place + 4 ≤ length entries.now }
    ensures { result ≡ slice_index entries.now place ∷ slice_index entries.now (place + 1) ∷ slice_index entries.now (place + 2) ∷ slice_index entries.now (place + 3) ∷ [] }
{
    u32x4::from_slice(&entries[place..place + 4])
}

/// Combines each two neighbors of eight `width`-bit numbers into one number, with the first in its low
/// bits.
#[inline(always)]
fn pairs(low: u32x4, high: u32x4, width: u32) -> u32x4
    requires narrow { width ≤ 16 }
    requires low { length low ≡ 4 }
    requires high { length high ≡ 4 }
    requires low_fits { (k : ℕ) → k < 4 → slice_index low k < 2 ^ width }
    requires high_fits { (k : ℕ) → k < 4 → slice_index high k < 2 ^ width }
    ensures { result ≡ (slice_index low 0 + 2 ^ width * slice_index low 1) ∷ (slice_index low 2 + 2 ^ width * slice_index low 3) ∷ (slice_index high 0 + 2 ^ width * slice_index high 1) ∷ (slice_index high 2 + 2 ^ width * slice_index high 3) ∷ [] }
{
    let even = low.shuffle(high, [0, 2, 4, 6]);
    let odd = low.shuffle(high, [1, 3, 5, 7]);
    even + odd * u32x4::splat(1 << width)
}

/// Returns sixteen entries of `W` bits from an index on, combined by four.
#[inline(always)]
fn quads<const W: usize>(entries: &[u32], first: usize) -> u32x4
    requires many { length entries.now ≡ 128 }
    requires narrow { W ≤ 8 }
    requires fits { (k : ℕ) → k < 128 → slice_index entries.now k < 2 ^ W }
    requires within { first + 16 ≤ 128 }
    ensures { result ≡ bits_in W entries.now (first * W) (4 * W) ∷ bits_in W entries.now ((first + 4) * W) (4 * W) ∷ bits_in W entries.now ((first + 8) * W) (4 * W) ∷ bits_in W entries.now ((first + 12) * W) (4 * W) ∷ [] }
{
    let width = W as u32;
    let low = pairs(four_at(entries, first), four_at(entries, first + 4), width);
    let high = pairs(
        four_at(entries, first + 8),
        four_at(entries, first + 12),
        width,
    );
    pairs(low, high, 2 * width)
}

/// Writes a 64-bit word at byte `end`, little-endian.
#[inline(always)]
fn put_long(output: &mut [u8], end: usize, word: u64)
    requires { end + 8 ≤ length output.old }
    ensures { take (end + 8) output.new ≡ take end output.old ++ bytes_low_first 0 8 word }
{
    let (_, room) = output.split_at_mut(end);
    room[..8].copy_from_slice(&word.to_le_bytes());
}

/// Writes two numbers of `4 * W` bits in eight bytes at byte `end`, the first one lowest.
#[inline(always)]
fn put_quads<const W: usize>(output: &mut [u8], end: usize, low: u32, high: u32)
    requires narrow { W ≤ 8 }
    requires fits { (low < 2 ^ (4 * W)) × (high < 2 ^ (4 * W)) }
    requires room { end + 8 ≤ length output.old }
    ensures { take (end + 8) output.new ≡ take end output.old ++ bytes_low_first 0 8 (low + 2 ^ (4 * W) * high) }
{
    put_long(output, end, u64::from(low) + (u64::from(high) << (4 * W)));
}

/// Packs entries that fit in `W` bits, at most 8, sixteen at a time. Writes up to eight bytes past the end
/// of the block.
#[inline(never)]
pub(crate) fn pack_narrow<const W: usize>(entries: &[u32], output: &mut [u8])
    requires many { length entries.now ≡ 128 }
    requires narrow { W ≤ 8 }
    requires fits { (k : ℕ) → k < 128 → slice_index entries.now k < 2 ^ W }
    requires room { 16 * W + 8 ≤ length output.old }
    ensures { take (16 * W) output.new ≡ packed W entries.now }
{
    for group in 0..8usize {
        let quads = quads::<W>(entries, 16 * group).to_array();
        put_quads::<W>(output, 2 * group * W, quads[0], quads[1]);
        put_quads::<W>(output, (2 * group + 1) * W, quads[2], quads[3]);
    }
}
