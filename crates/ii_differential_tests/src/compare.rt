use bytes::Bytes;
use ii_base::{Fault, IndexRecordOption, Part};
use ii_docset::{DocSet, Postings, TERMINATED};
use ii_reader::{BlockSegmentPostings, SegmentPostings};
use ii_slow_reader::{Damage, Listed, Mode, read_list};
use std::alloc::Global;

/// The number of cases, and in how many of them the two readers differ.
#[derive(Clone, Copy)]
pub struct DifferenceCounts {
    /// How many cases were opened.
    pub cases: u64,
    /// In how many of them the answers differ.
    pub differences: u64,
}

impl DifferenceCounts {
    /// Counts a case.
    pub fn add(&mut self, agrees: bool) {
        self.cases = self.cases.saturating_add(1);
        self.differences = self.differences.saturating_add(u64::from(!agrees));
    }
}

/// What a field may record, or a reader request.
pub const MODES: [Mode; 3] = [Mode::Documents, Mode::Counts, Mode::Positions];

/// Returns the option for a mode.
pub fn option_of(mode: Mode) -> IndexRecordOption {
    match mode {
        Mode::Documents => IndexRecordOption::Basic,
        Mode::Counts => IndexRecordOption::WithFreqs,
        Mode::Positions => IndexRecordOption::WithFreqsAndPositions,
    }
}

/// Returns whether a fault names the part that the slow reader names.
pub fn names(fault: Fault, damage: Damage) -> bool {
    let want = match damage {
        Damage::Skip => Part::Skip,
        Damage::Documents => Part::Documents,
        Damage::Frequencies => Part::Frequencies,
        Damage::Positions => Part::Positions,
        Damage::Composite => Part::Composite,
        Damage::Dictionary => Part::Dictionary,
        Damage::TermStore => Part::TermStore,
        Damage::TokenCount => Part::TokenCount,
        Damage::Range => Part::Range,
    };
    fault == Fault::Damaged(want)
}

/// Opens a list with each pair of options and counts the results.
pub fn judge_list(
    alloc: Global,
    doc_freq: u32,
    postings: &[u8],
    positions: &[u8],
    counts: &mut DifferenceCounts,
) -> Result<(), Fault> {
    for recorded in MODES {
        for requested in MODES {
            let agrees = same_cursor(alloc, doc_freq, postings, positions, recorded, requested)?
                && same_blocks(alloc, doc_freq, postings, recorded, requested)?;
            counts.add(agrees);
        }
    }
    Ok(())
}

/// Copies bytes into shared ones.
pub fn shared(alloc: Global, bytes: &[u8]) -> Result<Bytes, Fault> {
    Ok(Bytes::from_vec(Vec::from_slice(alloc, bytes)?)?)
}

// Returns whether a cursor gives the documents, counts and positions that the slow reader reads.
fn same_cursor(
    alloc: Global,
    doc_freq: u32,
    postings: &[u8],
    positions: &[u8],
    recorded: Mode,
    requested: Mode,
) -> Result<bool, Fault> {
    let list = read_list(
        alloc,
        doc_freq,
        postings,
        Some(positions),
        recorded,
        requested,
    )?;
    let located = Some(shared(alloc, positions)?);
    let bytes = shared(alloc, postings)?;
    let (record, request) = (option_of(recorded), option_of(requested));
    match (
        SegmentPostings::open(doc_freq, bytes, located, record, request),
        list,
    ) {
        (Ok(mut cursor), Ok(list)) => goes_over(alloc, &mut cursor, &list),
        (Err(fault), Err(damage)) => Ok(names(Fault::from(fault), damage)),
        _ => Ok(false),
    }
}

// Returns the same for a block cursor, which has no positions.
fn same_blocks(
    alloc: Global,
    doc_freq: u32,
    postings: &[u8],
    recorded: Mode,
    requested: Mode,
) -> Result<bool, Fault> {
    let list = read_list(alloc, doc_freq, postings, None, recorded, requested)?;
    let bytes = shared(alloc, postings)?;
    let (record, request) = (option_of(recorded), option_of(requested));
    match (
        BlockSegmentPostings::open(doc_freq, bytes, record, request),
        list,
    ) {
        (Ok(mut blocks), Ok(list)) => Ok(goes_over_blocks(&mut blocks, &list)),
        (Err(fault), Err(damage)) => Ok(names(Fault::from(fault), damage)),
        _ => Ok(false),
    }
}

/// Returns whether a cursor gives exactly these documents, counts and positions.
pub fn goes_over(
    alloc: Global,
    cursor: &mut SegmentPostings,
    list: &Listed,
) -> Result<bool, Fault> {
    let mut used = 0usize;
    let mut found = Vec::new(alloc);
    for (place, doc) in list.docs.as_slice().iter().enumerate() {
        if u64::from(cursor.doc()) != *doc || cursor.doc() >= TERMINATED {
            return Ok(false);
        }
        if u64::from(cursor.term_freq()) != count_of(list, place) {
            return Ok(false);
        }
        cursor.positions(&mut found)?;
        if !are_next(found.as_slice(), list, &mut used) {
            return Ok(false);
        }
        cursor.advance();
    }
    Ok(cursor.doc() == TERMINATED && list.positions.len() == used)
}

// Returns whether these are the next positions of a list.
fn are_next(found: &[u32], list: &Listed, used: &mut usize) -> bool {
    for position in found {
        if list.positions.as_slice().get(*used).copied() != Some(u64::from(*position)) {
            return false;
        }
        *used = used.saturating_add(1);
    }
    true
}

// Returns whether a block cursor gives exactly these documents and counts.
fn goes_over_blocks(blocks: &mut BlockSegmentPostings, list: &Listed) -> bool {
    let docs = list.docs.as_slice();
    for (block, chunk) in docs.chunks(128).enumerate() {
        if blocks.block_len() != chunk.len() {
            return false;
        }
        for (place, doc) in chunk.iter().enumerate() {
            let at = block.saturating_mul(128).saturating_add(place);
            if !has_entry(blocks, place, *doc, count_of(list, at)) {
                return false;
            }
        }
        blocks.advance();
    }
    blocks.block_len() == 0
}

// Returns the count of a document of a list.
fn count_of(list: &Listed, place: usize) -> u64 {
    if !list.has_counts {
        return 1;
    }
    list.counts.as_slice().get(place).copied().unwrap_or(0)
}

// Returns whether a block has this document and count at a place.
fn has_entry(blocks: &BlockSegmentPostings, place: usize, doc: u64, count: u64) -> bool {
    if place >= blocks.block_len() || place >= 128 {
        return false;
    }
    u64::from(blocks.doc(place)) == doc && u64::from(blocks.freq(place)) == count
}
