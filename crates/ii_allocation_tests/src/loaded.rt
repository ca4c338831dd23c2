use crate::index::push_doc;
use crate::walked::three;
use bytes::Bytes;
use ii_base::{Fault, IndexRecordOption};
use ii_docset::{DocId, DocSet, TERMINATED};
use ii_reader::{LoadedPostings, SegmentPostings};
use std::alloc::Global;

const FULL: IndexRecordOption = IndexRecordOption::WithFreqsAndPositions;

/// Copies a cursor over three documents, and loads it into memory. If the copy fails, the cursor must not
/// move; if loading fails, it must be at one of the documents or at the end.
pub fn read_back(alloc: Global) -> Result<String, Fault> {
    let mut cursor = three()?;
    let copied = match cursor.clone() {
        Ok(copied) => Ok(copied.doc_freq()),
        Err(refused) => Err(refused),
    };
    let stays = cursor.doc() == 0;
    let loaded = first_two(LoadedPostings::load(alloc, &mut cursor));
    if !stays || loaded.is_err() && ![0, 2, 10, TERMINATED].contains(&cursor.doc()) {
        return Ok(String::from_str(alloc, " stands elsewhere")?);
    }
    let (doc_freq, (first, second)) = (copied?, loaded?);
    Ok(format!(in alloc; " {doc_freq} to come {first} then {second}")?)
}

// Returns the first two loaded documents.
fn first_two(loaded: Result<LoadedPostings, Fault>) -> Result<(DocId, DocId), Fault> {
    let mut loaded = loaded?;
    Ok((loaded.doc(), loaded.advance()))
}

// The documents of a list.
const DOCS: [DocId; 6] = [0, 3, 4, 5, 6, 7];

// Their deltas, and the counts 3, 1, 2, 1, 1 and 1.
static POSTINGS: [u8; 12] = [
    0x80, 0x83, 0x81, 0x81, 0x81, 0x81, 0x83, 0x81, 0x82, 0x81, 0x81, 0x81,
];

// The positions 1, 2, 3; 30; 0, 5; 7; 8; 2.
static POSITIONS: [u8; 10] = [0x80, 0x81, 0x81, 0x81, 0x9E, 0x80, 0x85, 0x87, 0x88, 0x82];

/// Loads six documents with positions into memory. If that fails, the cursor must be at one of the documents or
/// at the end.
pub fn read_back_positions(alloc: Global) -> Result<String, Fault> {
    let (postings, positions) = (
        Bytes::from_static(&POSTINGS),
        Some(Bytes::from_static(&POSITIONS)),
    );
    let mut cursor = SegmentPostings::open(6, postings, positions, FULL, FULL)?;
    let loaded = LoadedPostings::load(alloc, &mut cursor);
    let is_there = cursor.doc() == TERMINATED || DOCS.contains(&cursor.doc());
    if loaded.is_err() && !is_there {
        return Ok(String::from_str(alloc, " stands elsewhere")?);
    }
    let mut loaded = loaded?;
    let mut text = String::new(alloc);
    for _ in 0..DOCS.len() {
        push_doc(alloc, &mut text, &mut loaded)?;
        let _next = loaded.advance();
    }
    Ok(text)
}
