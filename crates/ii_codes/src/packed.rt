ghost use Rattle.std.specs.Prelude.{◌≡◌, ℕ, ◌+◌, ◌*◌, ◌-◌, ◌^◌, ◌<◌, ◌≤◌, ◌++◌, true, length, take, drop, replicate, slice_index, IfSome};
ghost use Rattle.std.specs.Bool.{OnTrue};
ghost use Rattle.std.specs.List.{sum};
ghost use Rattle.std.specs.List.Sorted.{IsStrictlyIncreasing};
ghost use Rattle.std.specs.Option.{option_map};
ghost use Rattle.std.specs.Int.{bytes_low_first};
ghost use Rattle.ii_codes.specs.Packed.{bits_in, unpacked, packed, least_width, IsPackedUpTo, HoldsWhatIsUnpacked, HoldsWhatIsPacked, HoldsFromLeastWidth};
ghost use Rattle.ii_codes.specs.Blocks.{gap_of, least_first, raised, values_from, sorted_entries, unsorted_values, unsorted_entries, sorted_block_at, unsorted_block_at, sorted_width, sorted_bytes, unsorted_width, unsorted_bytes, ReadsSortedBlocks, ReadsUnsortedBlocks};
ghost use Rattle.ii_codes.specs.BlockDecoder.{decodes_made};
ghost use Rattle.ii_codes.specs.Sums.{fit_u32};

use super::{COMPRESSION_BLOCK_SIZE, compressed_block_size};
use byteorder::{ByteOrder, LittleEndian};
use ii_io::GhostCounter;
use lanes::{sorted_narrow, sorted_wide, sum_narrow, sum_wide, unpack_narrow, unpack_wide};
use pairs::pack_narrow;

mod lanes;
mod pairs;

/// The size of a block of 32-bit entries and sixteen more bytes.
const PADDED_BLOCK_SIZE: usize = 528;

/// Returns the first 64 bits as a little-endian number.
#[inline(always)]
fn window(bytes: &[u8]) -> u64
    requires { 8 ≤ length bytes.now }
    ensures { result ≡ bits_in 8 bytes.now 0 64 }
{
    LittleEndian::read_u64(bytes)
}

/// Pads fewer than eight bytes with zeros.
#[cold]
#[inline(never)]
fn padded(bytes: &[u8]) -> [u8; 8]
    requires { length bytes.now < 8 }
    ensures { result ≡ bytes.now ++ replicate (8 - length bytes.now) 0 }
{
    let mut window = [0u8; 8];
    window[..bytes.len()].copy_from_slice(bytes);
    window
}

/// Returns the first 64 bits as a number, padded with zeros at the end of the bytes.
#[inline(always)]
fn window_or_less(bytes: &[u8]) -> u64
    ensures { result ≡ bits_in 8 bytes.now 0 64 }
{
    if bytes.len() >= 8 {
        return window(bytes);
    }
    window(&padded(bytes))
}

/// Returns the number in `width` bits of `bytes`, from bit `place` on, the lowest first.
#[inline(always)]
pub(crate) fn read_bits(bytes: &[u8], place: usize, width: u8) -> u64
    requires narrow { width ≤ 56 }
    requires within { place + width ≤ 8 * length bytes.now }
    ensures { result ≡ bits_in 8 bytes.now place width }
{
    let window = window_or_less(&bytes[place / 8..]);
    (window >> (place % 8)) % (1 << width)
}

/// Returns entry `i` of the eight that start at byte `group * width`.
#[inline(always)]
fn entry_of(bytes: &[u8], width: usize, group: usize, i: usize) -> u32
    requires narrow { width ≤ 32 }
    requires enough { 16 * width + 8 ≤ length bytes.now }
    requires group { group < 16 }
    requires near { i < 8 }
    ensures { result ≡ bits_in 8 bytes.now ((8 * group + i) * width) width }
{
    let bit = i * width;
    let window = window(&bytes[group * width + bit / 8..]);
    ((window >> (bit % 8)) % (1 << width)) as u32
}

/// Unpacks entries, each plus `more`. The width is known at compile time, so shifts are constants. `bytes`
/// must have eight bytes more than the block.
#[inline(never)]
fn unpack_width<const W: usize>(bytes: &[u8], more: u32, output: &mut [u32])
    requires narrow { W ≤ 32 }
    requires enough { 16 * W + 8 ≤ length bytes.now }
    requires room { length output.old ≡ 128 }
    requires fits { 2 ^ W + more ≤ 2 ^ 32 }
    ensures { output.new ≡ raised more (unpacked W bytes.now) }
{
    for group in 0..16usize {
        for i in 0..8usize {
            output[8 * group + i] = entry_of(bytes, W, group, i) + more;
        }
    }
}

/// Unpacks entries, each plus `more`. `bytes` must have sixteen bytes more than the block.
fn unpack_from(bytes: &[u8], width: u8, more: u32, output: &mut [u32])
    requires narrow { width ≤ 32 }
    requires enough { 16 * width + 16 ≤ length bytes.now }
    requires room { length output.old ≡ 128 }
    requires more { more ≤ 1 }
    requires fits { width ≡ 32 → more ≡ 0 }
    ensures { output.new ≡ raised more (unpacked width bytes.now) }
{
    match width {
        0 => unpack_width::<0>(bytes, more, output),
        1 => unpack_narrow::<1>(bytes, more, output),
        2 => unpack_narrow::<2>(bytes, more, output),
        3 => unpack_narrow::<3>(bytes, more, output),
        4 => unpack_narrow::<4>(bytes, more, output),
        5 => unpack_narrow::<5>(bytes, more, output),
        6 => unpack_narrow::<6>(bytes, more, output),
        7 => unpack_narrow::<7>(bytes, more, output),
        8 => unpack_narrow::<8>(bytes, more, output),
        9 => unpack_narrow::<9>(bytes, more, output),
        10 => unpack_wide::<10>(bytes, more, output),
        11 => unpack_wide::<11>(bytes, more, output),
        12 => unpack_wide::<12>(bytes, more, output),
        13 => unpack_wide::<13>(bytes, more, output),
        14 => unpack_wide::<14>(bytes, more, output),
        15 => unpack_wide::<15>(bytes, more, output),
        16 => unpack_wide::<16>(bytes, more, output),
        17 => unpack_wide::<17>(bytes, more, output),
        18 => unpack_wide::<18>(bytes, more, output),
        19 => unpack_wide::<19>(bytes, more, output),
        20 => unpack_wide::<20>(bytes, more, output),
        21 => unpack_wide::<21>(bytes, more, output),
        22 => unpack_wide::<22>(bytes, more, output),
        23 => unpack_wide::<23>(bytes, more, output),
        24 => unpack_wide::<24>(bytes, more, output),
        25 => unpack_wide::<25>(bytes, more, output),
        26 => unpack_width::<26>(bytes, more, output),
        27 => unpack_width::<27>(bytes, more, output),
        28 => unpack_width::<28>(bytes, more, output),
        29 => unpack_width::<29>(bytes, more, output),
        30 => unpack_width::<30>(bytes, more, output),
        31 => unpack_width::<31>(bytes, more, output),
        _ => unpack_width::<32>(bytes, more, output),
    }
}

/// Pads a block with zeros.
fn padded_block(bytes: &[u8]) -> [u8; PADDED_BLOCK_SIZE]
    requires { length bytes.now ≤ 512 }
    ensures { result ≡ bytes.now ++ replicate (528 - length bytes.now) 0 }
{
    let mut block = [0u8; PADDED_BLOCK_SIZE];
    block[..bytes.len()].copy_from_slice(bytes);
    block
}

/// Unpacks the 128 entries of `width` bits at the start of `bytes`, each plus `more`.
pub(crate) fn unpack(bytes: &[u8], width: u8, more: u32, output: &mut [u32])
    requires narrow { width ≤ 32 }
    requires enough { 16 * width ≤ length bytes.now }
    requires room { length output.old ≡ 128 }
    requires more { more ≤ 1 }
    requires fits { width ≡ 32 → more ≡ 0 }
    ensures { output.new ≡ raised more (unpacked width bytes.now) }
{
    let size = compressed_block_size(width);
    if bytes.len() - size >= 16 {
        unpack_from(bytes, width, more, output);
        return;
    }
    unpack_from(&padded_block(&bytes[..size]), width, more, output);
}

/// Writes a 32-bit word at byte `end`, little-endian.
#[inline(always)]
fn put_word(output: &mut [u8], end: usize, word: u32)
    requires { end + 4 ≤ length output.old }
    ensures { take (end + 4) output.new ≡ take end output.old ++ bytes_low_first 0 4 word }
{
    LittleEndian::write_u32(&mut output[end..], word);
}

/// Packs eight of the 32 entries of a group, whose bytes start at `4 * group * W`. `left` holds the bits
/// after the last complete word. Writes the words that are complete, and returns the bits after them.
#[inline(always)]
fn pack_eight<const W: usize>(
    entries: &[u32],
    group: usize,
    first: usize,
    left: u64,
    output: &mut [u8],
) -> u64
    requires many { length entries.now ≡ 128 }
    requires narrow { W ≤ 32 }
    requires group { group < 4 }
    requires near { first ≤ 24 }
    requires room { 16 * W ≤ length output.old }
    requires before { IsPackedUpTo W (32 * group + first) left entries.now output.old }
    ensures { IsPackedUpTo W (32 * group + (first + 8)) result entries.now output.new }
{
    let mut word = left;
    for i in first..first + 8 {
        let bits = i * W % 32;
        word += (u64::from(entries[32 * group + i]) % (1 << W)) << bits;
        if bits + W < 32 {
            continue;
        }
        let end = 4 * (group * W + i * W / 32);
        put_word(output, end, (word % (1 << 32)) as u32);
        word >>= 32;
    }
    word
}

/// Packs entries of a width that is known at compile time, so that shifts are constants: 32 entries fill
/// `W` words of 32 bits.
#[inline(never)]
fn pack_width<const W: usize>(entries: &[u32], output: &mut [u8])
    requires many { length entries.now ≡ 128 }
    requires narrow { W ≤ 32 }
    requires room { 16 * W ≤ length output.old }
    ensures { take (16 * W) output.new ≡ packed W entries.now }
{
    for group in 0..4usize {
        let word = pack_eight::<W>(entries, group, 0, 0, output);
        let word = pack_eight::<W>(entries, group, 8, word, output);
        let word = pack_eight::<W>(entries, group, 16, word, output);
        pack_eight::<W>(entries, group, 24, word, output);
    }
}

/// Packs 128 entries of `width` bits into the start of `output`. The bytes after them may change.
fn pack(entries: &[u32], width: u8, output: &mut [u8])
    requires many { length entries.now ≡ 128 }
    requires narrow { width ≤ 32 }
    requires fits { (k : ℕ) → k < 128 → slice_index entries.now k < 2 ^ width }
    requires room { 512 ≤ length output.old }
    ensures { take (16 * width) output.new ≡ packed width entries.now }
{
    match width {
        0 => pack_width::<0>(entries, output),
        1 => pack_narrow::<1>(entries, output),
        2 => pack_narrow::<2>(entries, output),
        3 => pack_narrow::<3>(entries, output),
        4 => pack_narrow::<4>(entries, output),
        5 => pack_narrow::<5>(entries, output),
        6 => pack_narrow::<6>(entries, output),
        7 => pack_narrow::<7>(entries, output),
        8 => pack_narrow::<8>(entries, output),
        9 => pack_width::<9>(entries, output),
        10 => pack_width::<10>(entries, output),
        11 => pack_width::<11>(entries, output),
        12 => pack_width::<12>(entries, output),
        13 => pack_width::<13>(entries, output),
        14 => pack_width::<14>(entries, output),
        15 => pack_width::<15>(entries, output),
        16 => pack_width::<16>(entries, output),
        17 => pack_width::<17>(entries, output),
        18 => pack_width::<18>(entries, output),
        19 => pack_width::<19>(entries, output),
        20 => pack_width::<20>(entries, output),
        21 => pack_width::<21>(entries, output),
        22 => pack_width::<22>(entries, output),
        23 => pack_width::<23>(entries, output),
        24 => pack_width::<24>(entries, output),
        25 => pack_width::<25>(entries, output),
        26 => pack_width::<26>(entries, output),
        27 => pack_width::<27>(entries, output),
        28 => pack_width::<28>(entries, output),
        29 => pack_width::<29>(entries, output),
        30 => pack_width::<30>(entries, output),
        31 => pack_width::<31>(entries, output),
        _ => pack_width::<32>(entries, output),
    }
}

/// Returns the least width that holds each entry, at most 32.
pub(crate) fn least_width_of(entries: &[u32]) -> u8
    ensures value { result ≡ least_width entries.now }
    ensures narrow { result ≤ 32 }
    ensures fits { (k : ℕ) → k < length entries.now → slice_index entries.now k < 2 ^ result }
{
    let mut all = 0u32;
    for entry in entries {
        all |= *entry;
    }
    (u32::BITS - all.leading_zeros()) as u8
}

/// Returns the minimum difference between neighbors in a sorted block.
fn gap_of(strict: bool) -> u64
    ensures { result ≡ gap_of strict }
{
    if strict { 1 } else { 0 }
}

/// Returns the minimum first value of a sorted block after `offset`.
fn least_first(strict: bool, offset: u32) -> u64
    ensures { result ≡ least_first strict offset }
{
    if offset == 0 {
        0
    } else {
        u64::from(offset) + gap_of(strict)
    }
}

/// Unpacks the values of a sorted block. The first is at least `least`, and each other is at least `gap`
/// more than the one before it. Returns false if a value exceeds `u32::MAX`. Only the last one is tested,
/// because values don't decrease.
#[inline(never)]
fn sorted_width<const W: usize>(bytes: &[u8], gap: u64, least: u64, output: &mut [u32]) -> bool
    requires narrow { W ≤ 32 }
    requires enough { 16 * W + 8 ≤ length bytes.now }
    requires room { length output.old ≡ 128 }
    requires gap { gap ≤ 1 }
    requires least { least < 2 ^ 32 + gap }
    ensures fits { result ≡ fit_u32 (values_from gap least (unpacked W bytes.now)) }
    ensures values { OnTrue result (output.new ≡ values_from gap least (unpacked W bytes.now)) }
{
    let mut next = least;
    for group in 0..16usize {
        for i in 0..8usize {
            let entry = u64::from(entry_of(bytes, W, group, i));
            output[8 * group + i] = ((next + entry) % (1 << 32)) as u32;
            next += entry + gap;
        }
    }
    next < (1 << 32) + gap
}

/// Unpacks the values of a sorted block. `bytes` must have sixteen bytes more than the block.
fn sorted_from(bytes: &[u8], width: u8, gap: u64, least: u64, output: &mut [u32]) -> bool
    requires narrow { width ≤ 32 }
    requires enough { 16 * width + 16 ≤ length bytes.now }
    requires room { length output.old ≡ 128 }
    requires gap { gap ≤ 1 }
    requires least { least < 2 ^ 32 + gap }
    ensures fits { result ≡ fit_u32 (values_from gap least (unpacked width bytes.now)) }
    ensures values { OnTrue result (output.new ≡ values_from gap least (unpacked width bytes.now)) }
{
    match width {
        0 => sorted_width::<0>(bytes, gap, least, output),
        1 => sorted_narrow::<1>(bytes, gap, least, output),
        2 => sorted_narrow::<2>(bytes, gap, least, output),
        3 => sorted_narrow::<3>(bytes, gap, least, output),
        4 => sorted_narrow::<4>(bytes, gap, least, output),
        5 => sorted_narrow::<5>(bytes, gap, least, output),
        6 => sorted_narrow::<6>(bytes, gap, least, output),
        7 => sorted_narrow::<7>(bytes, gap, least, output),
        8 => sorted_narrow::<8>(bytes, gap, least, output),
        9 => sorted_narrow::<9>(bytes, gap, least, output),
        10 => sorted_wide::<10>(bytes, gap, least, output),
        11 => sorted_wide::<11>(bytes, gap, least, output),
        12 => sorted_wide::<12>(bytes, gap, least, output),
        13 => sorted_wide::<13>(bytes, gap, least, output),
        14 => sorted_wide::<14>(bytes, gap, least, output),
        15 => sorted_wide::<15>(bytes, gap, least, output),
        16 => sorted_wide::<16>(bytes, gap, least, output),
        17 => sorted_wide::<17>(bytes, gap, least, output),
        18 => sorted_wide::<18>(bytes, gap, least, output),
        19 => sorted_wide::<19>(bytes, gap, least, output),
        20 => sorted_wide::<20>(bytes, gap, least, output),
        21 => sorted_wide::<21>(bytes, gap, least, output),
        22 => sorted_wide::<22>(bytes, gap, least, output),
        23 => sorted_wide::<23>(bytes, gap, least, output),
        24 => sorted_wide::<24>(bytes, gap, least, output),
        25 => sorted_wide::<25>(bytes, gap, least, output),
        26 => sorted_width::<26>(bytes, gap, least, output),
        27 => sorted_width::<27>(bytes, gap, least, output),
        28 => sorted_width::<28>(bytes, gap, least, output),
        29 => sorted_width::<29>(bytes, gap, least, output),
        30 => sorted_width::<30>(bytes, gap, least, output),
        31 => sorted_width::<31>(bytes, gap, least, output),
        _ => sorted_width::<32>(bytes, gap, least, output),
    }
}

/// Unpacks the values of the sorted block of `width` bits at the start of `bytes`.
fn sorted_values(bytes: &[u8], width: u8, gap: u64, least: u64, output: &mut [u32]) -> bool
    requires narrow { width ≤ 32 }
    requires enough { 16 * width ≤ length bytes.now }
    requires room { length output.old ≡ 128 }
    requires gap { gap ≤ 1 }
    requires least { least < 2 ^ 32 + gap }
    ensures fits { result ≡ fit_u32 (values_from gap least (unpacked width bytes.now)) }
    ensures values { OnTrue result (output.new ≡ values_from gap least (unpacked width bytes.now)) }
{
    let size = compressed_block_size(width);
    if bytes.len() - size >= 16 {
        return sorted_from(bytes, width, gap, least, output);
    }
    sorted_from(&padded_block(&bytes[..size]), width, gap, least, output)
}

/// Returns the sum of the 128 entries of `width` bits at the start of `bytes`. Uses SIMD lanes if the
/// entries are narrow and there are sixteen more bytes.
fn sum_of(bytes: &[u8], width: u8) -> u64
    requires narrow { width ≤ 32 }
    requires enough { 16 * width ≤ length bytes.now }
    ensures value { result ≡ sum (unpacked width bytes.now) }
    ensures fits { result ≤ 128 * 2 ^ 32 }
{
    if width == 0 {
        return 0;
    }
    if bytes.len() - compressed_block_size(width) >= 16 {
        match width {
            1 => return sum_narrow::<1>(bytes),
            2 => return sum_narrow::<2>(bytes),
            3 => return sum_narrow::<3>(bytes),
            4 => return sum_narrow::<4>(bytes),
            5 => return sum_narrow::<5>(bytes),
            6 => return sum_narrow::<6>(bytes),
            7 => return sum_narrow::<7>(bytes),
            8 => return sum_narrow::<8>(bytes),
            9 => return sum_narrow::<9>(bytes),
            10 => return sum_wide::<10>(bytes),
            11 => return sum_wide::<11>(bytes),
            12 => return sum_wide::<12>(bytes),
            13 => return sum_wide::<13>(bytes),
            14 => return sum_wide::<14>(bytes),
            15 => return sum_wide::<15>(bytes),
            16 => return sum_wide::<16>(bytes),
            17 => return sum_wide::<17>(bytes),
            18 => return sum_wide::<18>(bytes),
            19 => return sum_wide::<19>(bytes),
            20 => return sum_wide::<20>(bytes),
            21 => return sum_wide::<21>(bytes),
            22 => return sum_wide::<22>(bytes),
            23 => return sum_wide::<23>(bytes),
            24 => return sum_wide::<24>(bytes),
            25 => return sum_wide::<25>(bytes),
            _ => {}
        }
    }
    let mut entries = [0u32; COMPRESSION_BLOCK_SIZE];
    unpack(bytes, width, 0, &mut entries);
    let mut sum = 0u64;
    for entry in &entries {
        sum += u64::from(*entry);
    }
    sum
}

/// Returns the last value of the block of 128 values of `num_bits` bits at the start of the bytes. It is
/// computed from the sum of the entries, without decoding. Returns `None` if
/// `BlockDecoder::try_uncompress_block_sorted` would fail.
pub fn last_of_sorted_block(
    compressed_data: &[u8],
    offset: u32,
    num_bits: u8,
    strict_delta: bool,
) -> Option<u32>
    ensures { result ≡ option_map (λ block. slice_index block.0 127) (sorted_block_at strict_delta offset num_bits compressed_data.now) }
{
    if num_bits > 32 {
        return None;
    }
    if compressed_data.len() < compressed_block_size(num_bits) {
        return None;
    }
    let gap = gap_of(strict_delta);
    let last = least_first(strict_delta, offset) + sum_of(compressed_data, num_bits) + 127 * gap;
    if last > u64::from(u32::MAX) {
        return None;
    }
    Some(last as u32)
}

/// Adds one to each entry. Returns false if one is `u32::MAX`.
fn add_one(output: &mut [u32]) -> bool
    ensures fits { result ≡ fit_u32 (unsorted_values true output.old) }
    ensures values { OnTrue result (output.new ≡ unsorted_values true output.old) }
{
    let mut fits = true;
    for k in 0..output.len() {
        fits &= output[k] < u32::MAX;
        output[k] = output[k].wrapping_add(1);
    }
    fits
}

/// Returns the strict deltas of values that ascend strictly after `offset`.
fn strict_deltas(block: &[u32], offset: u32) -> [u32; COMPRESSION_BLOCK_SIZE]
    requires many { length block.now ≡ 128 }
    requires ascending { IsStrictlyIncreasing block.now }
    requires after { 0 < offset → offset < slice_index block.now 0 }
    ensures { result ≡ sorted_entries true offset block.now }
{
    let mut entries = [0u32; COMPRESSION_BLOCK_SIZE];
    entries[0] = (u64::from(block[0]) - least_first(true, offset)) as u32;
    for k in 1..COMPRESSION_BLOCK_SIZE {
        entries[k] = block[k] - block[k - 1] - 1;
    }
    entries
}

/// Returns the values, each minus one.
fn less_one(block: &[u32]) -> [u32; COMPRESSION_BLOCK_SIZE]
    requires many { length block.now ≡ 128 }
    requires positive { (k : ℕ) → k < 128 → 0 < slice_index block.now k }
    ensures { result ≡ unsorted_entries true block.now }
{
    let mut entries = [0u32; COMPRESSION_BLOCK_SIZE];
    for k in 0..COMPRESSION_BLOCK_SIZE {
        entries[k] = block[k] - 1;
    }
    entries
}

/// Packs 128 values that ascend strictly after `offset` into the start of `output`, by strict deltas in the
/// least width. Returns the width, from 0 to 32, and the number of bytes.
pub(crate) fn pack_sorted(block: &[u32], offset: u32, output: &mut [u8]) -> (u8, usize)
    requires many { length block.now ≡ 128 }
    requires ascending { IsStrictlyIncreasing block.now }
    requires after { 0 < offset → offset < slice_index block.now 0 }
    requires room { 512 ≤ length output.old }

    // The least width, and the bytes of the block.
    ensures width { result.0 ≡ sorted_width offset block.now }
    ensures narrow { result.0 ≤ 32 }
    ensures length { result.1 ≡ 16 * result.0 }
    ensures bytes { take result.1 output.new ≡ sorted_bytes offset block.now }
{
    let entries = strict_deltas(block, offset);
    let width = least_width_of(&entries);
    pack(&entries, width, output);
    (width, compressed_block_size(width))
}

/// Packs 128 values into the start of `output` in the least width, each minus one if `minus_one`. Returns
/// the width, from 0 to 32, and the number of bytes.
pub(crate) fn pack_unsorted(block: &[u32], minus_one: bool, output: &mut [u8]) -> (u8, usize)
    requires many { length block.now ≡ 128 }
    requires positive { OnTrue minus_one ((k : ℕ) → k < 128 → 0 < slice_index block.now k) }
    requires room { 512 ≤ length output.old }
    ensures width { result.0 ≡ unsorted_width minus_one block.now }
    ensures narrow { result.0 ≤ 32 }
    ensures length { result.1 ≡ 16 * result.0 }
    ensures bytes { take result.1 output.new ≡ unsorted_bytes minus_one block.now }
{
    if minus_one {
        let entries = less_one(block);
        let width = least_width_of(&entries);
        pack(&entries, width, output);
        return (width, compressed_block_size(width));
    }
    let width = least_width_of(block);
    pack(block, width, output);
    (width, compressed_block_size(width))
}

/// Unpacks the values of the sorted block of `width` bits at the start of `bytes`, and returns its length
/// in bytes. Counts a successful decode.
///
/// Returns `None` if the width exceeds 32, bytes are missing or a value exceeds `u32::MAX`. The contents of
/// `output` are then unspecified.
pub(crate) fn unpack_sorted(
    bytes: &[u8],
    offset: u32,
    width: u8,
    strict: bool,
    output: &mut [u32],
    decodes: &mut GhostCounter,
) -> Option<usize>
    requires { length output.old ≡ 128 }
    ensures value { option_map (λ used. (output.new, drop used bytes.now)) result ≡ sorted_block_at strict offset width bytes.now }
    ensures used { IfSome result (λ used. used ≡ 16 * width) }
    ensures within { IfSome result (λ used. used ≤ length bytes.now) }
    ensures counted { decodes.new.value ≡ decodes.old.value + decodes_made 128 result }
{
    if width > 32 {
        return None;
    }
    let size = compressed_block_size(width);
    if bytes.len() < size {
        return None;
    }
    let least = least_first(strict, offset);
    if sorted_values(bytes, width, gap_of(strict), least, output) {
        *decodes = decodes.next();
        Some(size)
    } else {
        None
    }
}

/// Unpacks the values of the unsorted block of `width` bits at the start of `bytes`, and returns its length
/// in bytes. If `minus_one`, each value is one more than its entry. Counts a successful decode.
///
/// Returns `None` if the width exceeds 32, bytes are missing or a value exceeds `u32::MAX`. The contents of
/// `output` are then unspecified.
pub(crate) fn unpack_unsorted(
    bytes: &[u8],
    width: u8,
    minus_one: bool,
    output: &mut [u32],
    decodes: &mut GhostCounter,
) -> Option<usize>
    requires { length output.old ≡ 128 }
    ensures value { option_map (λ used. (output.new, drop used bytes.now)) result ≡ unsorted_block_at minus_one width bytes.now }
    ensures used { IfSome result (λ used. used ≡ 16 * width) }
    ensures within { IfSome result (λ used. used ≤ length bytes.now) }
    ensures counted { decodes.new.value ≡ decodes.old.value + decodes_made 128 result }
{
    if width > 32 {
        return None;
    }
    let size = compressed_block_size(width);
    if bytes.len() < size {
        return None;
    }
    if !minus_one {
        unpack(bytes, width, 0, output);
        *decodes = decodes.next();
        return Some(size);
    }
    if width < 32 {
        unpack(bytes, width, 1, output);
        *decodes = decodes.next();
        return Some(size);
    }
    unpack(bytes, width, 0, output);
    if add_one(output) {
        *decodes = decodes.next();
        Some(size)
    } else {
        None
    }
}

/// Law of packing: bytes hold exactly the entries that are unpacked from them, and packed bytes hold the
/// entries that were packed, if these fit.
pub fn holds_what_is_packed()
    ensures unpacked { HoldsWhatIsUnpacked }
    ensures packed { HoldsWhatIsPacked }
{}

/// Law of widths: the least width holds all entries, and no lesser one does.
pub fn holds_from_least_width()
    ensures { HoldsFromLeastWidth }
{}

/// Law of blocks: a written block is read back from its width, and its offset if it is sorted, whatever
/// follows.
pub fn reads_what_is_packed()
    ensures sorted { ReadsSortedBlocks }
    ensures unsorted { ReadsUnsortedBlocks }
{}
