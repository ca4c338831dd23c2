use crate::lists::{documents, written};
use crate::table::{ROUNDS, print_row};
use anyhow::Result;
use bytes::Bytes;
use ii_base::{CountingWriter, Fault, IndexRecordOption};
use ii_docset::DocId;
use ii_layout::PositionWriter;
use ii_reader::SegmentPostings;
use std::alloc::Global;
use std::time::{Duration, Instant};

const POSITIONS: IndexRecordOption = IndexRecordOption::WithFreqsAndPositions;

// A list with one position in each document.
#[derive(Drop)]
struct KnownList {
    doc_freq: u32,
    postings: Bytes,
    positions: Bytes,
}

/// Measures opening lists of 1, 1,000 and 1,000,000 documents with validation and without, each without
/// positions and with them.
pub fn measure(rt: &HostRuntime) -> Result<()> {
    let docs = documents(rt.alloc(), 29, 1_000_000)?;
    measure_first(rt, &docs, 1, "1")?;
    measure_first(rt, &docs, 1_000, "1,000")?;
    measure_first(rt, &docs, 1_000_000, "1,000,000")
}

// Measures a list of the first `doc_freq` documents.
fn measure_first(rt: &HostRuntime, docs: &[DocId], doc_freq: u32, name: &str) -> Result<()> {
    let docs = docs.get(..doc_freq as usize).unwrap_or(docs);
    let list = KnownList {
        doc_freq,
        postings: written(rt.alloc(), docs, POSITIONS)?,
        positions: positions(rt.alloc(), doc_freq)?,
    };
    measure_list(rt, &list, IndexRecordOption::Basic, [name, " documents"])?;
    measure_list(rt, &list, POSITIONS, [name, " documents with positions"])
}

// Writes one position for each of `count` documents.
fn positions(alloc: Global, count: u32) -> Result<Bytes, Fault> {
    let mut output = CountingWriter::wrap(Vec::new(alloc));
    let mut writer = PositionWriter::new(alloc);
    for _ in 0..count {
        writer.write_positions_delta(&[0])?;
    }
    writer.close_term(&mut output)?;
    Ok(Bytes::from_vec(output.finish())?)
}

fn measure_list(
    rt: &HostRuntime,
    list: &KnownList,
    option: IndexRecordOption,
    name: [&str; 2],
) -> Result<()> {
    let (mut checking, mut opening) = (Duration::MAX, Duration::MAX);
    for _ in 0..ROUNDS {
        let (checked, opened) = open_twice(rt, list, option)?;
        checking = checking.min(checked);
        opening = opening.min(opened);
    }
    let bytes = (list.postings.len() as u64).saturating_add(list.positions.len() as u64);
    let [count, read] = name;
    print_row(
        rt,
        ["checking: a list of ", count, read],
        checking,
        1,
        bytes,
    )?;
    Ok(print_row(
        rt,
        ["opening: a known list of ", count, read],
        opening,
        1,
        bytes,
    )?)
}

// Returns the times to open a list with validation, and then without.
fn open_twice(
    rt: &HostRuntime,
    list: &KnownList,
    option: IndexRecordOption,
) -> Result<(Duration, Duration)> {
    let (postings, positions) = (list.postings.clone()?, Some(list.positions.clone()?));
    let (again, again_positions) = (list.postings.clone()?, Some(list.positions.clone()?));
    let start = Instant::now(rt)?;
    let _cursor = SegmentPostings::open(list.doc_freq, postings, positions, POSITIONS, option)?;
    let checking = start.elapsed(rt)?;
    let start = Instant::now(rt)?;
    let _cursor = SegmentPostings::open_known(
        list.doc_freq,
        again,
        again_positions,
        POSITIONS,
        option,
    );
    Ok((checking, start.elapsed(rt)?))
}
