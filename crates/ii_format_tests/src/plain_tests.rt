// Compares the packed codes with a plain bit-by-bit reading at each width.
ghost use Rattle.std.specs.Prelude.{◌≤◌};

use crate::packed_tests::{Read, sorted_values, unsorted_values, with_others};
use ii_codes::{BlockEncoder, last_of_sorted_block};

// Unpacks entries of `width` bits, bit by bit.
fn plain_unpack(bytes: &[u8], width: u8) -> [u32; 128]
    requires { width ≤ 32 }
{
    let mut entries = [0u32; 128];
    let mut place = 0usize;
    for k in 0..128usize {
        for i in 0..width {
            let byte = bytes.get(place / 8).copied().unwrap_or(0);
            entries[k] |= u32::from((byte >> (place % 8)) % 2) << i;
            place = place.wrapping_add(1);
        }
    }
    entries
}

// Returns the sorted values by strict deltas, each entry plus one, and the last value by plain deltas. Each
// is `None` if it doesn't fit in 32 bits.
fn plain_values(entries: &[u32; 128]) -> (Option<[u32; 128]>, Option<[u32; 128]>, Option<u32>) {
    let mut values = Some([0u32; 128]);
    let mut raised = Some([0u32; 128]);
    let (mut next, mut sum) = (0u64, 0u64);
    for k in 0..128usize {
        let entry = u64::from(entries[k]);
        let value = next.wrapping_add(entry);
        values = with_value(values, k, value);
        raised = with_value(raised, k, entry.wrapping_add(1));
        next = value.wrapping_add(1);
        sum = sum.wrapping_add(entry);
    }
    (values, raised, u32::try_from(sum).ok())
}

// Sets the value at a place, or returns `None` if it doesn't fit in 32 bits.
fn with_value(values: Option<[u32; 128]>, place: usize, value: u64) -> Option<[u32; 128]> {
    let mut values = values?;
    let number = u32::try_from(value).ok()?;
    if place < 128 {
        values[place] = number;
    }
    Some(values)
}

// Returns whether the decoders agree with the plain reading: unsorted, sorted, plus one, and last value.
fn are_read(bytes: &[u8], entries: &[u32; 128], width: u8, size: usize) -> bool {
    let (sorted, raised, last) = plain_values(entries);
    let mut all = read_of(unsorted_values(bytes, width, false), size) == Some(*entries);
    all &= read_of(sorted_values(bytes, 0, width, true), size) == sorted;
    all &= read_of(unsorted_values(bytes, width, true), size) == raised;
    all && last_of_sorted_block(bytes, 0, width, false) == last
}

// Returns the values if the read succeeded and used `size` bytes.
fn read_of(read: Read, size: usize) -> Option<[u32; 128]> {
    let Ok(read) = read else {
        return None;
    };
    let values = read.1;
    if read.0 == size { Some(values) } else { None }
}

// Returns whether entries of a width pack and read as bit by bit, with and without bytes after the block.
// Their largest entry comes last.
fn agree(entries: &[u32; 128], width: u8) -> bool
    requires { width ≤ 32 }
{
    let mut encoder = BlockEncoder::new();
    let (num_bits, bytes) = encoder.compress_block_unsorted(entries, false);
    let size = bytes.len();
    if num_bits != width || size != 16 * usize::from(width) {
        return false;
    }
    if plain_unpack(bytes, width) != *entries {
        return false;
    }
    are_read(bytes, entries, width, size) && are_read(&with_others(bytes), entries, width, size)
}

#[test]
fn agrees_with_bit_by_bit_at_each_width(rt: HostRuntime) {
    for width in 0..=32u8 {
        let most = ((1u64 << width) - 1) as u32;
        let mut counted = [most; 128];
        for k in 0..127u32 {
            counted[k as usize] = k & most;
        }
        assert!(rt; agree(&[most; 128], width));
        assert!(rt; agree(&counted, width));
    }
}
