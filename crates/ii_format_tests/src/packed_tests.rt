ghost use Rattle.std.specs.Prelude.{ℕ, ◌≡◌, ◌+◌, ◌*◌, ◌<◌, ◌≤◌, slice_index};
ghost use Rattle.std.specs.List.Sorted.{IsStrictlyIncreasing};

use ii_codes::{BlockDecoder, BlockEncoder, last_of_sorted_block};
use ii_io::{LayoutFault, Part};

// Returns 128 values, each `step` above the previous one.
fn stepped(first: u32, step: u32) -> [u32; 128]
    requires low { first ≤ 100 }
    requires forward { 0 < step }
    requires short { step ≤ 100 }
    ensures ascending { IsStrictlyIncreasing result }
    ensures first { slice_index result 0 ≡ first }
{
    let mut block = [0u32; 128];
    for k in 0..128u8 {
        block[usize::from(k)] = first + step * u32::from(k);
    }
    block
}

// Returns the bytes of a block with other bytes after them.
pub(crate) fn with_others(bytes: &[u8]) -> [u8; 640] {
    let mut long = [0xAD; 640];
    for (place, byte) in bytes.iter().enumerate() {
        if place < long.len() {
            long[place] = *byte;
        }
    }
    long
}

// Returns the values of a decoder, with 0 after them.
fn held(decoder: &BlockDecoder) -> [u32; 128] {
    let mut values = [0; 128];
    for (place, value) in decoder.output_array().iter().enumerate() {
        if place < values.len() {
            values[place] = *value;
        }
    }
    values
}

// The result of a read: the number of bytes and all values, or the fault and the number of values held.
pub(crate) type Read = Result<(usize, [u32; 128]), (LayoutFault, usize)>;

// Reads bytes as a sorted block.
pub(crate) fn sorted_values(bytes: &[u8], offset: u32, width: u8, strict_delta: bool) -> Read {
    let mut decoder = BlockDecoder::with_val(7);
    match decoder.try_uncompress_block_sorted(bytes, offset, width, strict_delta) {
        Ok(used) => Ok((used, held(&decoder))),
        Err(fault) => Err((fault, decoder.output_len())),
    }
}

// Reads bytes as an unsorted block.
pub(crate) fn unsorted_values(bytes: &[u8], width: u8, minus_one: bool) -> Read {
    let mut decoder = BlockDecoder::with_val(7);
    match decoder.try_uncompress_block_unsorted(bytes, width, minus_one) {
        Ok(used) => Ok((used, held(&decoder))),
        Err(fault) => Err((fault, decoder.output_len())),
    }
}

// Packs a block. Returns the width, the number of bytes, and whether it reads back with and without bytes
// after it.
fn packed(block: &[u32; 128], offset: u32) -> (u8, usize, bool)
    requires ascending { IsStrictlyIncreasing block.now }
    requires after { 0 < offset → offset < slice_index block.now 0 }
{
    let mut encoder = BlockEncoder::new();
    let (width, bytes) = encoder.compress_block_sorted(block, offset);
    let read = Ok((bytes.len(), *block));
    let mut same = sorted_values(bytes, offset, width, true) == read;
    same &= sorted_values(&with_others(bytes), offset, width, true) == read;
    (width, bytes.len(), same)
}

// Returns a block whose values follow no order, from 11 to 22.
fn cycled() -> [u32; 128]
    ensures { (k : ℕ) → k < 128 → 0 < slice_index result k }
{
    let mut block = [0u32; 128];
    for k in 0..128u8 {
        block[usize::from(k)] = 11 + 7 * u32::from(k) % 12;
    }
    block
}

// Packs this block as it is or minus one. Returns the width, and whether it reads back with other bytes after
// it.
fn cycled_are_read_back(minus_one: bool) -> (u8, bool) {
    let block = cycled();
    let mut encoder = BlockEncoder::new();
    let (width, bytes) = encoder.compress_block_unsorted(&block, minus_one);
    let read = unsorted_values(&with_others(bytes), width, minus_one);
    (width, read == Ok((bytes.len(), block)))
}

// Returns whether 128 threes pack minus one in two bits, and read back with other bytes after them.
fn threes_are_read_back() -> bool {
    let threes = [3; 128];
    let mut encoder = BlockEncoder::default();
    let (num_bits, bytes) = encoder.compress_block_unsorted(&threes, true);
    let are_packed = num_bits == 2 && bytes == [0xAA; 32].as_slice();
    let long = with_others(bytes);
    let as_they_stand = unsorted_values(&long, 2, false) == Ok((32, [2; 128]));
    are_packed && as_they_stand && unsorted_values(&long, 2, true) == Ok((32, threes))
}

#[test]
fn blocks_are_read_back(rt: HostRuntime) {
    let blocks = [
        packed(&stepped(0, 1), 0),
        packed(&stepped(1, 1), 0),
        packed(&stepped(0, 2), 0),
        packed(&stepped(0, 7), 0),
        packed(&stepped(11, 7), 10),
    ];
    let want = [
        (0, 0, true),
        (1, 16, true),
        (1, 16, true),
        (3, 48, true),
        (3, 48, true),
    ];
    assert!(rt; (blocks, threes_are_read_back()) == (want, true));
    let unsorted = [cycled_are_read_back(false), cycled_are_read_back(true)];
    assert!(rt; unsorted == [(5, true); 2]);
}

// Even numbers from 0 and all numbers from 1, by strict deltas; the former also by plain deltas.
static STRICT: [[u8; 16]; 2] = [
    [
        0xFE, 0xFF, 0xFF, 0xFF, 0xFF, 0xFF, 0xFF, 0xFF, 0xFF, 0xFF, 0xFF, 0xFF, 0xFF, 0xFF, 0xFF,
        0xFF,
    ],
    [1, 0, 0, 0, 0, 0, 0, 0, 0, 0, 0, 0, 0, 0, 0, 0],
];

#[test]
fn blocks_are_read(rt: HostRuntime) {
    let mut plain = [0xAAu8; 33];
    plain[0] = 0xA8;
    let full = [0xFFu8; 528];
    let documents = Err((LayoutFault::Damaged(Part::Documents), 0));
    let sorted = [
        sorted_values(&STRICT[0], 0, 1, true),
        sorted_values(&STRICT[1], 0, 1, true),
        sorted_values(&plain, 0, 2, false),
        sorted_values(&full, u32::MAX, 0, false),
        // too few bytes, and values above 32 bits
        sorted_values(&plain[..31], 0, 2, false),
        sorted_values(&[0; 15], 0, 1, true),
        sorted_values(&full, u32::MAX, 1, false),
    ];
    let even = Ok((16, stepped(0, 2)));
    let most = [u32::MAX; 128];
    assert!(rt; [sorted[0], sorted[1]] == [even, Ok((16, stepped(1, 1)))]);
    assert!(rt; [sorted[2], sorted[3]] == [Ok((32, stepped(0, 2))), Ok((0, most))]);
    assert!(rt; [sorted[4], sorted[5], sorted[6]] == [documents; 3]);
    let frequencies = Err((LayoutFault::Damaged(Part::Frequencies), 0));
    assert!(rt; unsorted_values(&full, 32, false) == Ok((512, most)));
    let refused = [
        unsorted_values(&full, 32, true),
        unsorted_values(&full, 33, false),
        unsorted_values(&full[..511], 32, false),
    ];
    assert!(rt; refused == [frequencies; 3]);
}

// Reads a sorted and an unsorted block again with the unchecked calls, if the checked ones accept them.
fn read_again(sorted: &[u8], unsorted: &[u8]) -> Option<[(usize, [u32; 128]); 2]> {
    let mut decoder = BlockDecoder::default();
    let Ok(_) = decoder.try_uncompress_block_sorted(sorted, 0, 0, true) else {
        return None;
    };
    let used = decoder.uncompress_block_sorted(sorted, 0, 0, true);
    let first = (used, held(&decoder));
    let Ok(_) = decoder.try_uncompress_block_unsorted(unsorted, 2, true) else {
        return None;
    };
    let used = decoder.uncompress_block_unsorted(unsorted, 2, true);
    Some([first, (used, held(&decoder))])
}

#[test]
fn blocks_are_read_again(rt: HostRuntime) {
    let read = [(0, stepped(0, 1)), (32, [3; 128])];
    assert!(rt; read_again(&[], &[0xAA; 32]) == Some(read));
}

#[test]
fn tells_the_last_value_by_the_sum(rt: HostRuntime) {
    let mut bytes = [0u8; 16];
    bytes[0] = 1;
    let mut plain = [0xAAu8; 40];
    plain[0] = 0xA8;
    let found = [
        last_of_sorted_block(&[], 0, 0, true),
        last_of_sorted_block(&[], 5, 0, true),
        last_of_sorted_block(&[], 5, 0, false),
        last_of_sorted_block(&bytes, 0, 1, true),
        last_of_sorted_block(&bytes, u32::MAX - 1, 1, false),
        last_of_sorted_block(&plain, 0, 2, false),
        last_of_sorted_block(&bytes, u32::MAX, 1, false),
        last_of_sorted_block(&bytes[..15], 0, 1, true),
        last_of_sorted_block(&[0; 600], 0, 33, true),
    ];
    let last = [
        Some(127),
        Some(133),
        Some(5),
        Some(128),
        Some(u32::MAX),
        Some(254),
        None,
        None,
        None,
    ];
    assert!(rt; found == last);
}
