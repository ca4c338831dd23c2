ghost use Rattle.std.specs.Prelude.{◌≡◌, ℕ, ◌+◌, ◌*◌, ◌/◌, ◌%◌, ◌^◌, map, replicate, ◌<◌, ◌≤◌, ◌∷◌, [], ◌++◌, length, take, slice_index};
ghost use Rattle.std.specs.Bool.{OnTrue};
ghost use Rattle.std.specs.List.{sum};
ghost use Rattle.ii_codes.specs.Packed.{bits_in, unpacked};
ghost use Rattle.ii_codes.specs.Blocks.{values_from, raised};
ghost use Rattle.ii_codes.specs.Sums.{fit_u32};

use std::simd::prelude::*;

/// Loads eight 16-bit numbers, each from the byte in which its entry of `W` bits starts, from byte `at` on.
#[inline(always)]
fn halves<const W: usize>(bytes: &[u8], at: usize) -> u16x8
    requires narrow { W ≤ 9 }
    requires enough { at + 16 ≤ length bytes.now }
    ensures { result ≡ bits_in 8 bytes.now (at * 8) 16 ∷ bits_in 8 bytes.now ((at + 1 * W / 8) * 8) 16 ∷ bits_in 8 bytes.now ((at + 2 * W / 8) * 8) 16 ∷ bits_in 8 bytes.now ((at + 3 * W / 8) * 8) 16 ∷ bits_in 8 bytes.now ((at + 4 * W / 8) * 8) 16 ∷ bits_in 8 bytes.now ((at + 5 * W / 8) * 8) 16 ∷ bits_in 8 bytes.now ((at + 6 * W / 8) * 8) 16 ∷ bits_in 8 bytes.now ((at + 7 * W / 8) * 8) 16 ∷ [] }
{
    let places = u8x16::from_array([
        0,
        1,
        (1 * W / 8) as u8,
        (1 * W / 8) as u8 + 1,
        (2 * W / 8) as u8,
        (2 * W / 8) as u8 + 1,
        (3 * W / 8) as u8,
        (3 * W / 8) as u8 + 1,
        (4 * W / 8) as u8,
        (4 * W / 8) as u8 + 1,
        (5 * W / 8) as u8,
        (5 * W / 8) as u8 + 1,
        (6 * W / 8) as u8,
        (6 * W / 8) as u8 + 1,
        (7 * W / 8) as u8,
        (7 * W / 8) as u8 + 1,
    ]);
    u16x8::from_le_bytes(u8x16::from_slice(&bytes[at..at + 16]).swizzle_dyn_within::<16>(places))
}

/// Loads eight entries of `W` bits from byte `at` on.
#[inline(always)]
fn eight<const W: usize>(bytes: &[u8], at: usize) -> u16x8
    requires some { 1 ≤ W }
    requires narrow { W ≤ 9 }
    requires enough { at + 16 ≤ length bytes.now }
    ensures { result ≡ bits_in 8 bytes.now (at * 8 + 0 * W) W ∷ bits_in 8 bytes.now (at * 8 + 1 * W) W ∷ bits_in 8 bytes.now (at * 8 + 2 * W) W ∷ bits_in 8 bytes.now (at * 8 + 3 * W) W ∷ bits_in 8 bytes.now (at * 8 + 4 * W) W ∷ bits_in 8 bytes.now (at * 8 + 5 * W) W ∷ bits_in 8 bytes.now (at * 8 + 6 * W) W ∷ bits_in 8 bytes.now (at * 8 + 7 * W) W ∷ [] }
{
    let factors = u16x8::from_array([
        1 << (16 - W),
        1 << (16 - W - 1 * W % 8),
        1 << (16 - W - 2 * W % 8),
        1 << (16 - W - 3 * W % 8),
        1 << (16 - W - 4 * W % 8),
        1 << (16 - W - 5 * W % 8),
        1 << (16 - W - 6 * W % 8),
        1 << (16 - W - 7 * W % 8),
    ]);
    (halves::<W>(bytes, at) * factors) >> u16x8::splat((16 - W) as u16)
}

/// Returns the prefix sums of eight small numbers, with `gap` added to each number.
#[inline(always)]
fn running(entries: u16x8, gap: u16) -> u16x8
    requires many { length entries ≡ 8 }
    requires small { (k : ℕ) → k < 8 → slice_index entries k < 512 }
    requires gap { gap ≤ 1 }
    ensures { result ≡ values_from gap gap entries }
{
    let zero = u16x8::splat(0);
    let twos = entries + zero.shuffle(entries, [0, 8, 9, 10, 11, 12, 13, 14]);
    let fours = twos + zero.shuffle(twos, [0, 1, 8, 9, 10, 11, 12, 13]);
    let all = fours + zero.shuffle(fours, [0, 1, 2, 3, 8, 9, 10, 11]);
    all + u16x8::from_array([1, 2, 3, 4, 5, 6, 7, 8]) * u16x8::splat(gap)
}

/// Writes eight values at an index.
#[inline(always)]
fn put_eight(output: &mut [u32], place: usize, values: u32x8)
    requires room { place + 8 ≤ length output.old }
    requires many { length values ≡ 8 }
    ensures { take (place + 8) output.new ≡ take place output.old ++ values }
{
    values.copy_to_slice(&mut output[place..]);
}

/// Unpacks values as `sorted_width` does, eight at a time, from entries of at most 9 bits.
#[inline(never)]
pub(crate) fn sorted_narrow<const W: usize>(
    bytes: &[u8],
    gap: u64,
    least: u64,
    output: &mut [u32],
) -> bool
    requires some { 1 ≤ W }
    requires narrow { W ≤ 9 }
    requires enough { 16 * W + 16 ≤ length bytes.now }
    requires room { length output.old ≡ 128 }
    requires gap { gap ≤ 1 }
    requires least { least < 2 ^ 32 + gap }

    // Whether all values fit, and the values in that case.
    ensures fits { result ≡ fit_u32 (values_from gap least (unpacked W bytes.now)) }
    ensures values { OnTrue result (output.new ≡ values_from gap least (unpacked W bytes.now)) }
{
    let mut before = u32x8::splat((((1 << 32) + least - gap) % (1 << 32)) as u32);
    for group in 0..16usize {
        let sums = running(eight::<W>(bytes, group * W), gap as u16);
        let values = before + sums.cast::<u32>();
        put_eight(output, 8 * group, values);
        before = values.swizzle([7, 7, 7, 7, 7, 7, 7, 7]);
    }
    u64::from(output[127]) >= least
}

/// Loads four 32-bit numbers, each from the byte in which its entry of `W` bits starts. The first entry
/// starts at bit `first` of byte `at`.
#[inline(always)]
fn words<const W: usize>(bytes: &[u8], at: usize, first: usize) -> u32x4
    requires narrow { W ≤ 25 }
    requires first { first ≤ 4 }
    requires enough { at + 16 ≤ length bytes.now }
    ensures { result ≡ bits_in 8 bytes.now (at * 8) 32 ∷ bits_in 8 bytes.now ((at + (first + 1 * W) / 8) * 8) 32 ∷ bits_in 8 bytes.now ((at + (first + 2 * W) / 8) * 8) 32 ∷ bits_in 8 bytes.now ((at + (first + 3 * W) / 8) * 8) 32 ∷ [] }
{
    let places = u8x16::from_array([
        0,
        1,
        2,
        3,
        ((first + 1 * W) / 8) as u8,
        ((first + 1 * W) / 8) as u8 + 1,
        ((first + 1 * W) / 8) as u8 + 2,
        ((first + 1 * W) / 8) as u8 + 3,
        ((first + 2 * W) / 8) as u8,
        ((first + 2 * W) / 8) as u8 + 1,
        ((first + 2 * W) / 8) as u8 + 2,
        ((first + 2 * W) / 8) as u8 + 3,
        ((first + 3 * W) / 8) as u8,
        ((first + 3 * W) / 8) as u8 + 1,
        ((first + 3 * W) / 8) as u8 + 2,
        ((first + 3 * W) / 8) as u8 + 3,
    ]);
    u32x4::from_le_bytes(u8x16::from_slice(&bytes[at..at + 16]).swizzle_dyn_within::<16>(places))
}

/// Loads four entries of `W` bits, the first of which starts at bit `first` of byte `at`.
#[inline(always)]
fn four<const W: usize>(bytes: &[u8], at: usize, first: usize) -> u32x4
    requires some { 1 ≤ W }
    requires narrow { W ≤ 25 }
    requires first { first ≤ 4 }
    requires enough { at + 16 ≤ length bytes.now }
    ensures { result ≡ bits_in 8 bytes.now (at * 8 + (first + 0 * W)) W ∷ bits_in 8 bytes.now (at * 8 + (first + 1 * W)) W ∷ bits_in 8 bytes.now (at * 8 + (first + 2 * W)) W ∷ bits_in 8 bytes.now (at * 8 + (first + 3 * W)) W ∷ [] }
{
    let factors = u32x4::from_array([
        1 << (32 - W - first),
        1 << (32 - W - (first + 1 * W) % 8),
        1 << (32 - W - (first + 2 * W) % 8),
        1 << (32 - W - (first + 3 * W) % 8),
    ]);
    (words::<W>(bytes, at, first) * factors) >> u32x4::splat((32 - W) as u32)
}

/// Returns the prefix sums of four numbers, with `gap` added to each number.
#[inline(always)]
fn running_four(entries: u32x4, gap: u32) -> u32x4
    requires many { length entries ≡ 4 }
    requires small { (k : ℕ) → k < 4 → slice_index entries k ≤ 33554431 }
    requires gap { gap ≤ 1 }
    ensures { result ≡ values_from gap gap entries }
{
    let zero = u32x4::splat(0);
    let twos = entries + zero.shuffle(entries, [0, 4, 5, 6]);
    let all = twos + zero.shuffle(twos, [0, 1, 4, 5]);
    all + u32x4::from_array([1, 2, 3, 4]) * u32x4::splat(gap)
}

/// Writes four values at an index.
#[inline(always)]
fn put_four(output: &mut [u32], place: usize, values: u32x4)
    requires room { place + 4 ≤ length output.old }
    requires many { length values ≡ 4 }
    ensures { take (place + 4) output.new ≡ take place output.old ++ values }
{
    values.copy_to_slice(&mut output[place..]);
}

/// Writes four values of a sorted block at an index. Each lane of `before` is the value before them.
/// Returns the last of them in each lane.
#[inline(always)]
fn put_sorted_four<const W: usize>(
    bytes: &[u8],
    at: usize,
    first: usize,
    gap: u32,
    before: u32x4,
    output: &mut [u32],
    place: usize,
) -> u32x4
    requires some { 1 ≤ W }
    requires narrow { W ≤ 25 }
    requires first { first ≤ 4 }
    requires enough { at + 16 ≤ length bytes.now }
    requires gap { gap ≤ 1 }
    requires before { before ≡ replicate 4 (slice_index before 0) }
    requires room { place + 4 ≤ length output.old }

    // Four more values, and the last of them.
    ensures written { take (place + 4) output.new ≡ take place output.old ++ map (λ (s : ℕ). (slice_index before 0 + s) % 2 ^ 32) (values_from gap gap (bits_in 8 bytes.now (at * 8 + (first + 0 * W)) W ∷ bits_in 8 bytes.now (at * 8 + (first + 1 * W)) W ∷ bits_in 8 bytes.now (at * 8 + (first + 2 * W)) W ∷ bits_in 8 bytes.now (at * 8 + (first + 3 * W)) W ∷ [])) }
    ensures last { result ≡ replicate 4 (slice_index (map (λ (s : ℕ). (slice_index before 0 + s) % 2 ^ 32) (values_from gap gap (bits_in 8 bytes.now (at * 8 + (first + 0 * W)) W ∷ bits_in 8 bytes.now (at * 8 + (first + 1 * W)) W ∷ bits_in 8 bytes.now (at * 8 + (first + 2 * W)) W ∷ bits_in 8 bytes.now (at * 8 + (first + 3 * W)) W ∷ []))) 3) }
{
    let sums = running_four(four::<W>(bytes, at, first), gap);
    let values = before + sums;
    put_four(output, place, values);
    values.swizzle([3, 3, 3, 3])
}

/// Unpacks values as `sorted_width` does, four at a time, from entries of at most 25 bits.
#[inline(never)]
pub(crate) fn sorted_wide<const W: usize>(
    bytes: &[u8],
    gap: u64,
    least: u64,
    output: &mut [u32],
) -> bool
    requires some { 1 ≤ W }
    requires narrow { W ≤ 25 }
    requires enough { 16 * W + 16 ≤ length bytes.now }
    requires room { length output.old ≡ 128 }
    requires gap { gap ≤ 1 }
    requires least { least < 2 ^ 32 + gap }

    // Whether all values fit, and the values in that case.
    ensures fits { result ≡ fit_u32 (values_from gap least (unpacked W bytes.now)) }
    ensures values { OnTrue result (output.new ≡ values_from gap least (unpacked W bytes.now)) }
{
    let each = gap as u32;
    let mut before = u32x4::splat((((1 << 32) + least - gap) % (1 << 32)) as u32);
    for group in 0..16usize {
        let (at, place) = (group * W, 8 * group);
        let low = put_sorted_four::<W>(bytes, at, 0, each, before, output, place);
        let (at, first) = (at + W / 2, W % 2 * 4);
        before = put_sorted_four::<W>(bytes, at, first, each, low, output, place + 4);
    }
    u64::from(output[127]) >= least
}

/// Unpacks entries of at most 9 bits as `unpack_width` does, eight at a time.
#[inline(never)]
pub(crate) fn unpack_narrow<const W: usize>(bytes: &[u8], more: u32, output: &mut [u32])
    requires some { 1 ≤ W }
    requires narrow { W ≤ 9 }
    requires enough { 16 * W + 16 ≤ length bytes.now }
    requires room { length output.old ≡ 128 }
    requires more { more ≤ 1 }
    ensures { output.new ≡ raised more (unpacked W bytes.now) }
{
    for group in 0..16usize {
        let entries = eight::<W>(bytes, group * W);
        let values = entries.cast::<u32>() + u32x8::splat(more);
        put_eight(output, 8 * group, values);
    }
}

/// Unpacks entries of at most 25 bits as `unpack_width` does, four at a time.
#[inline(never)]
pub(crate) fn unpack_wide<const W: usize>(bytes: &[u8], more: u32, output: &mut [u32])
    requires some { 1 ≤ W }
    requires narrow { W ≤ 25 }
    requires enough { 16 * W + 16 ≤ length bytes.now }
    requires room { length output.old ≡ 128 }
    requires more { more ≤ 1 }
    ensures { output.new ≡ raised more (unpacked W bytes.now) }
{
    for group in 0..16usize {
        let at = group * W;
        let low = four::<W>(bytes, at, 0);
        put_four(output, 8 * group, low + u32x4::splat(more));
        let high = four::<W>(bytes, at + W / 2, W % 2 * 4);
        put_four(output, 8 * group + 4, high + u32x4::splat(more));
    }
}

/// Sums entries of at most 9 bits, eight at a time.
#[inline(never)]
pub(crate) fn sum_narrow<const W: usize>(bytes: &[u8]) -> u64
    requires some { 1 ≤ W }
    requires narrow { W ≤ 9 }
    requires enough { 16 * W + 16 ≤ length bytes.now }
    ensures value { result ≡ sum (unpacked W bytes.now) }
    ensures fits { result < 2 ^ 32 }
{
    let mut sums = u16x8::splat(0);
    for group in 0..16usize {
        sums = sums.strict_add(eight::<W>(bytes, group * W));
    }
    u64::from(sums.strict_reduce_sum())
}

/// Sums entries of at most 25 bits, four at a time.
#[inline(never)]
pub(crate) fn sum_wide<const W: usize>(bytes: &[u8]) -> u64
    requires some { 1 ≤ W }
    requires narrow { W ≤ 25 }
    requires enough { 16 * W + 16 ≤ length bytes.now }
    ensures value { result ≡ sum (unpacked W bytes.now) }
    ensures fits { result < 2 ^ 32 }
{
    let mut sums = u32x4::splat(0);
    for group in 0..16usize {
        let at = group * W;
        let low = sums.strict_add(four::<W>(bytes, at, 0));
        sums = low.strict_add(four::<W>(bytes, at + W / 2, W % 2 * 4));
    }
    u64::from(sums.strict_reduce_sum())
}
