// Bounds of blocks, and seeks by term frequency.
use crate::list_tests::sought;
use bytes::Bytes;
use ii_base::{Fault, IndexRecordOption, LayoutFault};
use ii_docset::{DocId, DocSet, Postings, TERMINATED};
use ii_reader::{BlockSegmentPostings, SegmentPostings};
use std::alloc::Global;
use std::test::Fail;

const FREQS: IndexRecordOption = IndexRecordOption::WithFreqs;

const BASIC: IndexRecordOption = IndexRecordOption::Basic;

// Entries of three full blocks of documents 0 to 383. The counts are 1, 5 and 1 by block, but document 300
// has 9. Each norm has the id 20.
static BOUNDED: [u8; 25] = [
    0x98, 0x7F, 0, 0, 0, 0x40, 0, 20, 1, 0xFF, 0, 0, 0, 0x40, 3, 20, 5, 0x7F, 1, 0, 0, 0x40, 4, 20,
    9,
];

// The same where no norms and counts are known.
static UNKNOWN: [u8; 25] = [
    0x98, 0x7F, 0, 0, 0, 0x40, 0, 0, 0, 0xFF, 0, 0, 0, 0x40, 3, 0, 0, 0x7F, 1, 0, 0, 0x40, 4, 0, 0,
];

// The same with 255 as each largest count, which bounds nothing.
static ANY: [u8; 25] = [
    0x98, 0x7F, 0, 0, 0, 0x40, 0, 0, 0xFF, 0xFF, 0, 0, 0, 0x40, 3, 0, 0xFF, 0x7F, 1, 0, 0, 0x40, 4,
    0, 0xFF,
];

// Their counts: 128 times 5 - 1 in three bits, then 128 entries of four bits. All of these are 0 except that
// of document 300, the 45th of its block.
static COUNTS: [u8; 112] = [
    0x24, 0x49, 0x92, 0x24, 0x49, 0x92, 0x24, 0x49, 0x92, 0x24, 0x49, 0x92, 0x24, 0x49, 0x92, 0x24,
    0x49, 0x92, 0x24, 0x49, 0x92, 0x24, 0x49, 0x92, 0x24, 0x49, 0x92, 0x24, 0x49, 0x92, 0x24, 0x49,
    0x92, 0x24, 0x49, 0x92, 0x24, 0x49, 0x92, 0x24, 0x49, 0x92, 0x24, 0x49, 0x92, 0x24, 0x49, 0x92,
    0, 0, 0, 0, 0, 0, 0, 0, 0, 0, 0, 0, 0, 0, 0, 0, 0, 0, 0, 0, 0, 0, 0x08, 0, 0, 0, 0, 0, 0, 0, 0,
    0, 0, 0, 0, 0, 0, 0, 0, 0, 0, 0, 0, 0, 0, 0, 0, 0, 0, 0, 0, 0, 0, 0, 0, 0, 0, 0, 0, 0, 0, 0, 0,
    0,
];

// Builds a list with such entries.
fn three_blocks(alloc: Global, entries: &'static [u8]) -> Result<Bytes, Fault> {
    let mut bytes = Vec::new(alloc);
    bytes.extend_from_slice(entries)?;
    bytes.extend_from_slice(&COUNTS)?;
    Ok(Bytes::from_vec(bytes)?)
}

// Returns the bounds of its three blocks, and twice the bounds after the end.
fn bounds_of(
    alloc: Global,
    requested_option: IndexRecordOption,
) -> Result<[Option<(u8, u8)>; 5], Fault> {
    let bytes = three_blocks(alloc, &BOUNDED)?;
    let mut blocks = BlockSegmentPostings::open(384, bytes, FREQS, requested_option)?;
    let mut found = [None; 5];
    for bounds in &mut found {
        *bounds = blocks.block_bounds();
        blocks.advance();
    }
    Ok(found)
}

// A block of documents alone.
static DOCUMENTS: [u8; 6] = [0x85, 0x7F, 0, 0, 0, 0x40];

// Returns the bounds of that block.
fn bounds_without_counts() -> Result<Option<(u8, u8)>, LayoutFault> {
    let documents = Bytes::from_static(&DOCUMENTS);
    Ok(BlockSegmentPostings::open(128, documents, FREQS, FREQS)?.block_bounds())
}

#[test]
fn full_blocks_with_counts_have_bounds(rt: HostRuntime) -> Result<(), Fail> {
    let bounds = [Some((20, 1)), Some((20, 5)), Some((20, 9)), None, None];
    // bounds don't need counts to be read
    for option in [FREQS, BASIC] {
        assert!(rt; bounds_of(rt.alloc(), option)? == bounds);
    }
    assert!(rt; bounds_without_counts()? == None);
    Ok(())
}

// Seeks by term frequency if that is allowed. Returns the document and its term frequency.
fn sought_with_freq(cursor: &mut SegmentPostings, target: DocId, least: u32) -> (DocId, u32) {
    if target > TERMINATED || cursor.doc() > target {
        return (cursor.doc(), 0);
    }
    let doc = cursor.seek_with_freq(target, least);
    if cursor.doc() < TERMINATED {
        (doc, cursor.term_freq())
    } else {
        (doc, 0)
    }
}

// Seeks the first document, then runs three seeks by term frequency.
fn sought_by_count(
    doc_freq: u32,
    bytes: Bytes,
    requested_option: IndexRecordOption,
    seeks: [(DocId, u32); 3],
) -> Result<[(DocId, u32); 3], LayoutFault> {
    let mut cursor = SegmentPostings::open(doc_freq, bytes, None, FREQS, requested_option)?;
    let _first = sought(&mut cursor, seeks[0].0);
    let [first, second, third] = seeks;
    Ok([
        sought_with_freq(&mut cursor, first.0, first.1),
        sought_with_freq(&mut cursor, second.0, second.1),
        sought_with_freq(&mut cursor, third.0, third.1),
    ])
}

// Seeks by term frequency over the three blocks, and where they end.
static SEEKS: [([(DocId, u32); 3], [(DocId, u32); 3]); 3] = [
    (
        [(0, 6), (300, 9), (300, 10)],
        [(300, 9), (300, 9), (TERMINATED, 0)],
    ),
    (
        [(130, 0), (130, 5), (256, 2)],
        [(130, 5), (130, 5), (300, 9)],
    ),
    (
        [(200, 6), (300, 0), (301, 1)],
        [(300, 9), (300, 9), (301, 1)],
    ),
];

#[test]
fn seeks_by_count_pass_blocks(rt: HostRuntime) -> Result<(), Fail> {
    for entries in [&BOUNDED, &UNKNOWN, &ANY] {
        for (seeks, want) in SEEKS {
            let bytes = three_blocks(rt.alloc(), entries)?;
            assert!(rt; sought_by_count(384, bytes, FREQS, seeks)? == want);
        }
    }
    Ok(())
}

#[test]
fn seeks_by_count_go_by_one_where_counts_are_not_read(rt: HostRuntime) -> Result<(), Fail> {
    let bytes = three_blocks(rt.alloc(), &BOUNDED)?;
    let by_one = sought_by_count(384, bytes, BASIC, [(5, 1), (5, 2), (TERMINATED, 0)])?;
    assert!(rt; by_one == [(5, 1), (TERMINATED, 0), (TERMINATED, 0)]);
    Ok(())
}

// Documents 0 to 127 with a count of 300; the largest count is stored as 255, which bounds nothing. The
// counts are 128 times 300 - 1 in nine bits, and their bytes repeat after nine.
static OFTEN: [u8; 153] = [
    0x88, 0x7F, 0, 0, 0, 0x40, 0x09, 0x48, 0xFF, 0x2B, 0x57, 0xAE, 0x5C, 0xB9, 0x72, 0xE5, 0xCA,
    0x95, 0x2B, 0x57, 0xAE, 0x5C, 0xB9, 0x72, 0xE5, 0xCA, 0x95, 0x2B, 0x57, 0xAE, 0x5C, 0xB9, 0x72,
    0xE5, 0xCA, 0x95, 0x2B, 0x57, 0xAE, 0x5C, 0xB9, 0x72, 0xE5, 0xCA, 0x95, 0x2B, 0x57, 0xAE, 0x5C,
    0xB9, 0x72, 0xE5, 0xCA, 0x95, 0x2B, 0x57, 0xAE, 0x5C, 0xB9, 0x72, 0xE5, 0xCA, 0x95, 0x2B, 0x57,
    0xAE, 0x5C, 0xB9, 0x72, 0xE5, 0xCA, 0x95, 0x2B, 0x57, 0xAE, 0x5C, 0xB9, 0x72, 0xE5, 0xCA, 0x95,
    0x2B, 0x57, 0xAE, 0x5C, 0xB9, 0x72, 0xE5, 0xCA, 0x95, 0x2B, 0x57, 0xAE, 0x5C, 0xB9, 0x72, 0xE5,
    0xCA, 0x95, 0x2B, 0x57, 0xAE, 0x5C, 0xB9, 0x72, 0xE5, 0xCA, 0x95, 0x2B, 0x57, 0xAE, 0x5C, 0xB9,
    0x72, 0xE5, 0xCA, 0x95, 0x2B, 0x57, 0xAE, 0x5C, 0xB9, 0x72, 0xE5, 0xCA, 0x95, 0x2B, 0x57, 0xAE,
    0x5C, 0xB9, 0x72, 0xE5, 0xCA, 0x95, 0x2B, 0x57, 0xAE, 0x5C, 0xB9, 0x72, 0xE5, 0xCA, 0x95, 0x2B,
    0x57, 0xAE, 0x5C, 0xB9, 0x72, 0xE5, 0xCA, 0x95,
];

#[test]
fn great_counts_have_no_known_bound(rt: HostRuntime) -> Result<(), Fail> {
    let seeks = [(0, 300), (0, 301), (TERMINATED, 0)];
    let sought = sought_by_count(128, Bytes::from_static(&OFTEN), FREQS, seeks)?;
    assert!(rt; sought == [(0, 300), (TERMINATED, 0), (TERMINATED, 0)]);
    Ok(())
}
