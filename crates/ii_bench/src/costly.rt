use crate::table::{ROUNDS, print_row};
use anyhow::Result;
use bytes::Bytes;
use ii_base::{CompositeFile, Fault, IndexRecordOption, write_u32_vint};
use ii_reader::SegmentPostings;
use ii_termstore::TermInfoStore;
use std::alloc::Global;
use std::time::{Duration, Instant};

/// The number of entries in the smaller and in the larger input.
const COUNTS: [(u32, &str); 2] = [(5_000, "5,000"), (40_000, "40,000")];

/// The formats, each with the bytes that cost most for their length.
#[derive(Clone, Copy)]
enum Format {
    /// Blocks of documents of width 0: 128 documents in 5 bytes.
    Documents,
    /// The same with counts of width 0.
    Counts,
    /// The same with positions of width 0.
    Positions,
    /// Fields that share one body.
    Composite,
    /// Blocks of 256 terms that all refer to the same bits.
    Store,
}

const FORMATS: [(Format, &str); 5] = [
    (Format::Documents, " blocks of documents of width 0: a byte"),
    (Format::Counts, " blocks of counts of width 0: a byte"),
    (Format::Positions, " blocks of positions of width 0: a byte"),
    (Format::Composite, " fields of one body: a byte"),
    (Format::Store, " blocks of terms of the same bits: a byte"),
];

/// Measures opening the bytes that cost most for their length, and eight times as many.
pub fn measure(rt: &HostRuntime) -> Result<()> {
    for (format, name) in FORMATS {
        for (count, number) in COUNTS {
            measure_count(rt, format, count, ["opening ", number, name])?;
        }
    }
    Ok(())
}

fn measure_count(rt: &HostRuntime, format: Format, count: u32, name: [&str; 3]) -> Result<()> {
    let (bytes, positions) = subject(rt.alloc(), format, count)?;
    let least = least_of(rt, format, count, &bytes, &positions);
    let mut len = bytes.len() as u64;
    if matches!(format, Format::Positions) {
        len = len.saturating_add(positions.len() as u64);
    }
    drop(bytes);
    drop(positions);
    Ok(print_row(rt, name, least?, len, len)?)
}

// Builds the bytes of a format, and those of positions.
fn subject(alloc: Global, format: Format, count: u32) -> Result<(Bytes, Bytes), Fault> {
    let bytes = bytes_of(alloc, format, count)?;
    match widths(alloc, count) {
        Ok(positions) => Ok((bytes, positions)),
        Err(fault) => {
            drop(bytes);
            Err(fault)
        }
    }
}

// Returns the least time of all rounds.
fn least_of(
    rt: &HostRuntime,
    format: Format,
    count: u32,
    bytes: &Bytes,
    positions: &Bytes,
) -> Result<Duration> {
    let mut least = Duration::MAX;
    for _ in 0..ROUNDS {
        let start = Instant::now(rt)?;
        open_once(rt.alloc(), format, count, bytes, positions)?;
        least = least.min(start.elapsed(rt)?);
    }
    Ok(least)
}

fn bytes_of(alloc: Global, format: Format, count: u32) -> Result<Bytes, Fault> {
    let mut bytes = Vec::new(alloc);
    match format {
        Format::Documents => push_blocks(&mut bytes, count, 5, &[])?,
        Format::Counts => push_blocks(&mut bytes, count, 8, &[0; 3])?,
        Format::Positions => push_blocks(&mut bytes, count, 12, &[0, 128, 0, 0, 0, 0, 0])?,
        Format::Composite => push_fields(&mut bytes, count)?,
        Format::Store => push_metas(&mut bytes, count)?,
    }
    Ok(Bytes::from_vec(bytes)?)
}

// Appends skip entries of `size` bytes for full blocks without gaps; `rest` follows the width of each.
fn push_blocks(bytes: &mut Vec<u8>, count: u32, size: u32, rest: &[u8]) -> Result<(), Fault> {
    write_u32_vint(count.saturating_mul(size), bytes)?;
    let mut last = 127u32;
    for _ in 0..count {
        bytes.extend_from_slice(&last.to_le_bytes())?;
        bytes.push(0x40)?;
        bytes.extend_from_slice(rest)?;
        last = last.saturating_add(128);
    }
    Ok(())
}

// Appends a table of fields with empty bodies.
fn push_fields(bytes: &mut Vec<u8>, count: u32) -> Result<(), Fault> {
    for id in 0..count {
        bytes.extend_from_slice(&id.to_le_bytes())?;
        bytes.extend_from_slice(&[0; 16])?;
    }
    Ok(bytes.extend_from_slice(&count.to_le_bytes())?)
}

// Appends metas of blocks of 256 terms with numbers of 7 bits, and the bits of one block, all 0.
fn push_metas(bytes: &mut Vec<u8>, count: u32) -> Result<(), Fault> {
    bytes.extend_from_slice(&(39 * u64::from(count)).to_le_bytes())?;
    bytes.extend_from_slice(&(256 * u64::from(count)).to_le_bytes())?;
    for _ in 0..count {
        bytes.extend_from_slice(&[0; 36])?;
        bytes.extend_from_slice(&[7; 3])?;
    }
    Ok(bytes.extend_from_slice(&[0; 672])?)
}

// Returns the bytes of blocks of positions of width 0.
fn widths(alloc: Global, count: u32) -> Result<Bytes, Fault> {
    let mut widths = Vec::new(alloc);
    write_u32_vint(count, &mut widths)?;
    for _ in 0..count {
        widths.push(0)?;
    }
    Ok(Bytes::from_vec(widths)?)
}

fn open_once(
    alloc: Global,
    format: Format,
    count: u32,
    bytes: &Bytes,
    positions: &Bytes,
) -> Result<(), Fault> {
    let option = match format {
        Format::Composite => return open_fields(alloc, bytes.clone()?),
        Format::Store => return open_store(bytes.clone()?),
        Format::Documents => IndexRecordOption::Basic,
        Format::Counts => IndexRecordOption::WithFreqs,
        Format::Positions => IndexRecordOption::WithFreqsAndPositions,
    };
    open_list(count.saturating_mul(128), option, bytes.clone()?, positions)
}

fn open_list(
    docs: u32,
    option: IndexRecordOption,
    bytes: Bytes,
    positions: &Bytes,
) -> Result<(), Fault> {
    match positions.clone() {
        Ok(positions) => {
            let cursor = SegmentPostings::open(docs, bytes, Some(positions), option, option)?;
            drop(cursor);
            Ok(())
        }
        Err(refused) => {
            drop(bytes);
            Err(refused.into())
        }
    }
}

fn open_fields(alloc: Global, bytes: Bytes) -> Result<(), Fault> {
    drop(CompositeFile::open(alloc, bytes)?);
    Ok(())
}

fn open_store(bytes: Bytes) -> Result<(), Fault> {
    drop(TermInfoStore::open(bytes)?);
    Ok(())
}
