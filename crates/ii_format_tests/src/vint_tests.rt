ghost use Rattle.std.specs.Prelude.{ℕ, ◌≡◌, ◌≤◌, drop, take, Some, IsSome};
ghost use Rattle.ii_codes.specs.Sums.{DoNotFall};
ghost use Rattle.ii_codes.specs.UnsortedVints.{u32s_until_end};
ghost use Rattle.ii_io.specs.Vints.{u32s_at};

use ii_codes::vint::{
    compress_sorted, uncompress_sorted, uncompress_unsorted, uncompress_unsorted_until_end,
};
use ii_codes::{BlockDecoder, BlockEncoder, VIntDecoder, VIntEncoder};
use ii_io::{LayoutFault, Part};

// Returns the first four outputs of a decoder, including padding, and the last one.
fn first_four(decoder: &BlockDecoder) -> ([u32; 4], u32) {
    let first = [
        decoder.output(0),
        decoder.output(1),
        decoder.output(2),
        decoder.output(3),
    ];
    (first, decoder.output(127))
}

#[test]
fn encodes_sorted_vints(rt: HostRuntime) {
    let written = [0x80, 0x82, 0x88];
    let mut buffer = [0u8; 15];
    assert!(rt; compress_sorted(&[0, 2, 10], &mut buffer, 0) == written.as_slice());
    let mut encoder = BlockEncoder::new();
    let bytes = encoder.compress_vint_sorted(&[0, 2, 10], 0);
    assert!(rt; bytes == written.as_slice());
    let mut decoder = BlockDecoder::default();
    let used = decoder.try_uncompress_vint_sorted(bytes, 1, 3, 234_234_345);
    let padding = 234_234_345;
    assert!(rt; (used, decoder.output_len()) == (Ok(3), 3));
    assert!(rt; first_four(&decoder) == ([1, 3, 11, padding], padding));
    let halves = [
        halves_are_read_back(0),
        halves_are_read_back(1),
        halves_are_read_back(2),
    ];
    assert!(rt; halves == [true; 3]);
}

// Returns 4, 7, 11, 14, ..: `4 + k * 7 / 2` in whole numbers.
fn halves() -> [u32; 123]
    ensures { (offset : ℕ) → offset ≤ 4 → DoNotFall offset result }
{
    let mut values = [0u32; 123];
    for k in 0..123u8 {
        values[usize::from(k)] = 4 + u32::from(k) * 7 / 2;
    }
    values
}

// Returns whether these values after an offset take at most 154 bytes and read back with their padding.
fn halves_are_read_back(offset: u32) -> bool
    requires { offset ≤ 4 }
{
    let values = halves();
    let mut encoder = BlockEncoder::new();
    let bytes = encoder.compress_vint_sorted(&values, offset);
    let mut decoder = BlockDecoder::default();
    let used = decoder.try_uncompress_vint_sorted(bytes, offset, 123, 234_234_345);
    let mut all = bytes.len() <= 154 && used == Ok(bytes.len());
    all &= decoder.output_array() == values.as_slice();
    for k in 123..128 {
        all &= decoder.output(k) == 234_234_345;
    }
    all
}

// Differences of each vint length, and their sums below.
static DIFFERENCES: [u32; 8] = [
    127,
    128,
    16_383,
    16_384,
    2_097_151,
    2_097_152,
    268_435_455,
    268_435_456,
];

static SUMS: [u32; 8] = [
    127,
    255,
    16_638,
    33_022,
    2_130_173,
    4_227_325,
    272_662_780,
    541_098_236,
];

#[test]
fn sums_up_vints_of_each_length(rt: HostRuntime) {
    let mut encoder = BlockEncoder::new();
    let bytes = encoder.compress_vint_unsorted(&DIFFERENCES);
    let mut decoder = BlockDecoder::default();
    let used = decoder.try_uncompress_vint_sorted(bytes, 0, 8, 0);
    assert!(rt; (used, bytes.len()) == (Ok(24), 24));
    assert!(rt; decoder.output_array() == SUMS.as_slice());
    // up to the largest number, and above it
    let most = decoder.try_uncompress_vint_sorted(bytes, u32::MAX - 541_098_236, 8, 0);
    assert!(rt; (most, decoder.output(7)) == (Ok(24), u32::MAX));
    let past = decoder.try_uncompress_vint_sorted(bytes, u32::MAX - 541_098_235, 8, 0);
    assert!(rt; past == Err(LayoutFault::Damaged(Part::Documents)));
}

#[test]
fn encodes_unsorted_vints(rt: HostRuntime) {
    let mut encoder = BlockEncoder::new();
    assert!(rt; encoder.compress_vint_unsorted(&[1, 2, 3]) == [0x81, 0x82, 0x83].as_slice());
    let bytes = encoder.compress_vint_unsorted(&[u32::MAX; 128]);
    let mut decoder = BlockDecoder::default();
    let used = decoder.try_uncompress_vint_unsorted(bytes, 128, 0);
    assert!(rt; (used, bytes.len()) == (Ok(640), 640));
    assert!(rt; decoder.output_array() == [u32::MAX; 128].as_slice());
    let cut = decoder.try_uncompress_vint_unsorted(&[0x81, 0x7F], 2, 0);
    let refused = Err(LayoutFault::Damaged(Part::Frequencies));
    assert!(rt; (cut, decoder.output_len()) == (refused, 0));
    let first = decoder.try_uncompress_vint_unsorted(&[0x81, 0x7F], 1, 9);
    assert!(rt; (first, first_four(&decoder)) == (Ok(1), ([1, 9, 9, 9], 9)));
}

// Bytes, the result of decoding up to 128 vints until their end, and the values.
static UNTIL_END: [(&[u8], Result<(), LayoutFault>, &[u32]); 4] = [
    (&[0x83, 0x00, 0x82, 0x80], Ok(()), &[3, 256, 0]),
    (
        &[0x83, 0x00],
        Err(LayoutFault::Damaged(Part::Positions)),
        &[],
    ),
    (&[0x81; 200], Ok(()), &[1; 128]),
    (&[], Ok(()), &[]),
];

#[test]
fn decodes_unsorted_vints_until_the_end(rt: HostRuntime) {
    let mut decoder = BlockDecoder::with_val(5);
    for (i, (bytes, want, values)) in UNTIL_END.iter().enumerate() {
        let answer = decoder.try_uncompress_vint_unsorted_until_end(bytes);
        assert!(rt;
            answer == *want && decoder.output_array() == *values,
            "row {i}"
        );
    }
}

// Reads vints with any decoder type. Returns the number of bytes read.
fn read_by<D: VIntDecoder>(decoder: &mut D, bytes: &[u8], num_els: usize, padding: u32) -> usize
    requires few { num_els ≤ 128 }
    requires valid { IsSome (u32s_at num_els bytes.now) }
    ensures { Some (take num_els (D.state decoder.new).output, drop result bytes.now) ≡ u32s_at num_els bytes.now }
{
    decoder.uncompress_vint_unsorted(bytes, num_els, padding)
}

// Reads all vints with any decoder type.
fn read_all_by<D: VIntDecoder>(decoder: &mut D, bytes: &[u8])
    requires { IsSome (u32s_until_end 128 bytes.now) }
    ensures { Some (take (D.state decoder.new).output_len (D.state decoder.new).output) ≡ u32s_until_end 128 bytes.now }
{
    decoder.uncompress_vint_unsorted_until_end(bytes);
}

// 1, 300 and 16384: 300 is 2 * 128 + 44, and 16384 is 128 * 128.
static THREE_VINTS: [u8; 6] = [0x81, 0x2C, 0x82, 0x00, 0x00, 0x81];

// For two sorted vints after 5, two unsorted ones, and all: the bytes read (for all, the number of vints) and
// the array.
type Filled = ((usize, [u32; 2]), (usize, [u32; 2]), (usize, [u32; 4]));

fn filled(bytes: &[u8]) -> Option<Filled> {
    let mut decoder = BlockDecoder::default();
    let Ok(_) = decoder.try_uncompress_vint_sorted(bytes, 5, 2, 0) else {
        return None;
    };
    let mut sorted = [0; 2];
    let sorted_used = uncompress_sorted(bytes, &mut sorted, 5);
    let Ok(_) = decoder.try_uncompress_vint_unsorted(bytes, 2, 0) else {
        return None;
    };
    let mut unsorted = [0; 2];
    let unsorted_used = uncompress_unsorted(bytes, &mut unsorted);
    let Ok(()) = decoder.try_uncompress_vint_unsorted_until_end(bytes) else {
        return None;
    };
    let mut all = [9; 128];
    let many = uncompress_unsorted_until_end(bytes, &mut all);
    let first = [all[0], all[1], all[2], all[3]];
    Some((
        (sorted_used, sorted),
        (unsorted_used, unsorted),
        (many, first),
    ))
}

#[test]
fn arrays_are_filled_with_vints(rt: HostRuntime) {
    let want = ((3, [6, 306]), (3, [1, 300]), (3, [1, 300, 16384, 9]));
    assert!(rt; filled(&THREE_VINTS) == Some(want));
}

// Decodes the same with any decoder type: two vints with the bytes read, and all of them.
fn decoded(bytes: &[u8]) -> Option<((usize, [u32; 4], u32), [u32; 4])> {
    let mut decoder = BlockDecoder::default();
    let Ok(_) = decoder.try_uncompress_vint_unsorted(bytes, 2, 9) else {
        return None;
    };
    let used = read_by(&mut decoder, bytes, 2, 7);
    let (two, padding) = first_four(&decoder);
    let Ok(()) = decoder.try_uncompress_vint_unsorted_until_end(bytes) else {
        return None;
    };
    let mut other = BlockDecoder::default();
    read_all_by(&mut other, bytes);
    let (all, _) = first_four(&other);
    Some(((used, two, padding), all))
}

#[test]
fn decodes_unsorted_vints_by_the_bound(rt: HostRuntime) {
    let two = (3, [1, 300, 7, 7], 7);
    assert!(rt; decoded(&THREE_VINTS) == Some((two, [1, 300, 16384, 0])));
}
