use crate::table::{ROUNDS, print_row};
use anyhow::Result;
use ii_codes::{BlockDecoder, BlockEncoder, VIntEncoder};
use std::time::{Duration, Instant};

/// The number of blocks packed or unpacked in a round.
const BLOCKS: u32 = 20_000;

/// The number of vints in a row: the most that can end a list.
const ROW: usize = 127;

static WIDTHS: [(u32, &str); 6] = [
    (1, "1"),
    (4, "4"),
    (7, "7"),
    (12, "12"),
    (20, "20"),
    (32, "32"),
];

/// Measures blocks of six widths, and rows of vints of one and two bytes.
pub fn measure(rt: &HostRuntime) -> Result<()> {
    for (width, name) in WIDTHS {
        measure_width(rt, width, name)?;
    }
    measure_vints(rt, "one byte", 100)?;
    measure_vints(rt, "two bytes", 10_000)
}

// Returns entries of a width that only the first one needs, so that sorted values fit in 32 bits at each
// width.
fn entries(width: u32) -> [u32; 128] {
    let mut entries = [0u32; 128];
    let most = u32::MAX >> (32 - width.clamp(1, 32));
    for k in 0..128u32 {
        entries[k as usize] = k.wrapping_mul(2_654_435_761) % (most / 128).max(2).min(most);
    }
    entries[0] = most - most / 2;
    entries
}

// Measures packing a block, and unpacking it with other bytes after it, as in a list.
fn measure_width(rt: &HostRuntime, width: u32, name: &str) -> Result<()> {
    let block = entries(width);
    let mut encoder = BlockEncoder::new();
    let mut least = Duration::MAX;
    for _ in 0..ROUNDS {
        let start = Instant::now(rt)?;
        for _ in 0..BLOCKS {
            let _packed = encoder.compress_block_unsorted(&block, false);
        }
        least = least.min(start.elapsed(rt)?);
    }
    print_block(rt, "packing, width ", name, least)?;
    let mut bytes = [0u8; 640];
    let (num_bits, packed) = encoder.compress_block_unsorted(&block, false);
    for (byte, from) in bytes.iter_mut().zip(packed.iter()) {
        *byte = *from;
    }
    measure_unpacking(rt, name, &bytes, num_bits)
}

// Measures unpacking the block, as entries and as sorted values.
fn measure_unpacking(rt: &HostRuntime, name: &str, bytes: &[u8], num_bits: u8) -> Result<()> {
    let mut decoder = BlockDecoder::with_val(0);
    let (mut unsorted, mut sorted) = (Duration::MAX, Duration::MAX);
    for _ in 0..ROUNDS {
        let start = Instant::now(rt)?;
        for _ in 0..BLOCKS {
            let _size = decoder.try_uncompress_block_unsorted(bytes, num_bits, false);
        }
        unsorted = unsorted.min(start.elapsed(rt)?);
        let start = Instant::now(rt)?;
        for _ in 0..BLOCKS {
            let _size = decoder.try_uncompress_block_sorted(bytes, 1000, num_bits, true);
        }
        sorted = sorted.min(start.elapsed(rt)?);
    }
    print_block(rt, "unpacking, width ", name, unsorted)?;
    print_block(rt, "unpacking sorted values, width ", name, sorted)
}

fn print_block(rt: &HostRuntime, what: &str, width: &str, took: Duration) -> Result<()> {
    let blocks = u64::from(BLOCKS);
    Ok(print_row(rt, [what, width, ": a block"], took, blocks, 512 * blocks)?)
}

// Measures reading a row of equal vints as the differences of sorted values.
fn measure_vints(rt: &HostRuntime, name: &str, difference: u32) -> Result<()> {
    let differences = [difference; ROW];
    let mut encoder = BlockEncoder::new();
    let bytes = encoder.compress_vint_unsorted(&differences);
    let mut decoder = BlockDecoder::with_val(0);
    let mut least = Duration::MAX;
    for _ in 0..ROUNDS {
        let start = Instant::now(rt)?;
        for _ in 0..BLOCKS {
            let _size = decoder.try_uncompress_vint_sorted(bytes, 0, ROW, 0);
        }
        least = least.min(start.elapsed(rt)?);
    }
    let items = ROW as u64 * u64::from(BLOCKS);
    Ok(print_row(
        rt,
        ["sorted vints of ", name, ": a value"],
        least,
        items,
        4 * items,
    )?)
}
