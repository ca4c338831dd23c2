// Lists read through block cursors.
use bytes::Bytes;
use ii_base::{Fault, IndexRecordOption, LayoutFault, Part};
use ii_check::FreqReadingOption;
use ii_docset::{DocId, TERMINATED};
use ii_reader::BlockSegmentPostings;
use std::test::Fail;

const BASIC: IndexRecordOption = IndexRecordOption::Basic;

const FREQS: IndexRecordOption = IndexRecordOption::WithFreqs;

const FULL: IndexRecordOption = IndexRecordOption::WithFreqsAndPositions;

// A call of a block cursor and its expected answer.
#[derive(Clone, Copy)]
enum Step {
    // the documents of the block
    Docs(&'static [DocId]),
    // the number of these
    Len(usize),
    // the document at an index
    Doc(usize, DocId),
    // the term frequency at an index, and how many frequencies the block has
    Freq(usize, u32, usize),
    // how frequencies are read
    Reading(FreqReadingOption),
    // advance to the next block
    Next,
    // a target to seek, and how many documents of its block are below it
    Sought(DocId, usize),
    // a reset to a list with this many documents, and the part that it reports as corrupt
    Reset(u32, &'static [u8], Option<Part>),
}

// Returns the term frequency at an index of a block, 0 after its end.
fn freq_at(blocks: &BlockSegmentPostings, idx: usize) -> u32 {
    if idx < blocks.block_len() {
        blocks.freq(idx)
    } else {
        0
    }
}

// Resets a block cursor to a list. Returns the corrupt part, if there is one.
fn reset(blocks: &mut BlockSegmentPostings, doc_freq: u32, bytes: &'static [u8]) -> Option<Part> {
    match blocks.reset(doc_freq, Bytes::from_static(bytes)) {
        Ok(()) => None,
        Err(LayoutFault::Damaged(part)) => Some(part),
    }
}

// Returns whether a block cursor gives the expected answer.
fn is_so(blocks: &mut BlockSegmentPostings, step: Step) -> bool {
    match step {
        Step::Docs(docs) => blocks.docs() == docs,
        Step::Len(len) => blocks.block_len() == len,
        Step::Doc(idx, doc) => idx < 128 && blocks.doc(idx) == doc,
        Step::Freq(idx, freq, len) => freq_at(blocks, idx) == freq && blocks.freqs().len() == len,
        Step::Reading(option) => blocks.freq_reading_option() == option,
        Step::Next => {
            blocks.advance();
            true
        }
        Step::Sought(target, below) => target <= TERMINATED && blocks.seek(target) == below,
        Step::Reset(doc_freq, bytes, part) => reset(blocks, doc_freq, bytes) == part,
    }
}

// Returns how many steps pass before the first unexpected answer.
fn answered(blocks: &mut BlockSegmentPostings, steps: &[Step]) -> usize {
    for (i, step) in steps.iter().enumerate() {
        if !is_so(blocks, *step) {
            return i;
        }
    }
    steps.len()
}

// A list, the recorded and the requested option, and the expected answers of a block cursor.
struct List {
    doc_freq: u32,
    bytes: &'static [u8],
    options: (IndexRecordOption, IndexRecordOption),
    steps: &'static [Step],
}

static LISTS: [List; 8] = [
    // documents 0 to 127, then 129 and 130
    List {
        doc_freq: 130,
        bytes: &[0x85, 0x7F, 0, 0, 0, 0x40, 0x82, 0x81],
        options: (BASIC, BASIC),
        steps: &[
            Step::Len(128),
            Step::Doc(1, 1),
            Step::Doc(127, 127),
            Step::Next,
            Step::Docs(&[129, 130]),
            Step::Doc(0, 129),
            Step::Doc(2, TERMINATED),
            Step::Doc(127, TERMINATED),
            Step::Next,
            Step::Docs(&[]),
            Step::Doc(0, TERMINATED),
            Step::Next,
            Step::Len(0),
            Step::Sought(0, 0),
        ],
    },
    List {
        doc_freq: 130,
        bytes: &[0x85, 0x7F, 0, 0, 0, 0x40, 0x82, 0x81],
        options: (BASIC, BASIC),
        steps: &[
            Step::Sought(5, 5),
            Step::Len(128),
            Step::Sought(129, 0),
            Step::Docs(&[129, 130]),
            Step::Sought(131, 2),
        ],
    },
    // documents 0, 2 and 10 with a count each, read or not
    List {
        doc_freq: 3,
        bytes: &[0x80, 0x82, 0x88, 0x81, 0x82, 0x83],
        options: (FREQS, FREQS),
        steps: &[
            Step::Reading(FreqReadingOption::ReadFreq),
            Step::Docs(&[0, 2, 10]),
            Step::Freq(0, 1, 3),
            Step::Freq(1, 2, 3),
            Step::Freq(2, 3, 3),
        ],
    },
    List {
        doc_freq: 3,
        bytes: &[0x80, 0x82, 0x88, 0x81, 0x82, 0x83],
        options: (FREQS, BASIC),
        steps: &[
            Step::Reading(FreqReadingOption::SkipFreq),
            Step::Docs(&[0, 2, 10]),
            Step::Freq(2, 1, 0),
        ],
    },
    // a term without counts in a field that records them
    List {
        doc_freq: 3,
        bytes: &[0x80, 0x82, 0x88],
        options: (FREQS, FREQS),
        steps: &[
            Step::Reading(FreqReadingOption::NoFreq),
            Step::Freq(0, 1, 0),
            Step::Freq(2, 1, 0),
        ],
    },
    // documents 0 to 127 with count 3, then document 128 with count 4
    List {
        doc_freq: 129,
        bytes: &[
            0x88, 0x7F, 0, 0, 0, 0x40, 2, 0, 0, 0xAA, 0xAA, 0xAA, 0xAA, 0xAA, 0xAA, 0xAA, 0xAA,
            0xAA, 0xAA, 0xAA, 0xAA, 0xAA, 0xAA, 0xAA, 0xAA, 0xAA, 0xAA, 0xAA, 0xAA, 0xAA, 0xAA,
            0xAA, 0xAA, 0xAA, 0xAA, 0xAA, 0xAA, 0xAA, 0xAA, 0xAA, 0xAA, 0x81, 0x84,
        ],
        options: (FREQS, FREQS),
        steps: &[
            Step::Freq(127, 3, 128),
            Step::Next,
            Step::Docs(&[128]),
            Step::Freq(0, 4, 1),
        ],
    },
    // a text with two positions, then a reset to a number
    List {
        doc_freq: 1,
        bytes: &[0x80, 0x82],
        options: (FULL, FULL),
        steps: &[
            Step::Freq(0, 2, 1),
            Step::Reset(1, &[0x80], None),
            Step::Freq(0, 1, 0),
            Step::Reading(FreqReadingOption::NoFreq),
        ],
    },
    // resets from even to odd documents, to a repeated document, and to document 7
    List {
        doc_freq: 3,
        bytes: &[0x80, 0x82, 0x82],
        options: (BASIC, BASIC),
        steps: &[
            Step::Docs(&[0, 2, 4]),
            Step::Reset(3, &[0x81, 0x82, 0x82], None),
            Step::Docs(&[1, 3, 5]),
            Step::Reset(2, &[0x80, 0x80], Some(Part::Documents)),
            Step::Docs(&[]),
            Step::Reset(1, &[0x87], None),
            Step::Docs(&[7]),
        ],
    },
];

// Returns the number of documents, and how many steps pass for a block cursor and for its copy.
fn answered_by_copy(list: &List) -> Result<(u32, [usize; 2]), Fault> {
    let bytes = Bytes::from_static(list.bytes);
    let mut blocks = BlockSegmentPostings::open(
        list.doc_freq,
        bytes,
        list.options.0,
        list.options.1,
    )?;
    let doc_freq = blocks.doc_freq();
    let mut copy = blocks.clone()?;
    let first = answered(&mut blocks, list.steps);
    Ok((doc_freq, [first, answered(&mut copy, list.steps)]))
}

#[test]
fn lists_are_walked_block_by_block(rt: HostRuntime) -> Result<(), Fail> {
    for (i, list) in LISTS.iter().enumerate() {
        let answered = answered_by_copy(list)?;
        assert!(rt;
            answered == (list.doc_freq, [list.steps.len(); 2]),
            "list {i}"
        );
    }
    Ok(())
}

// Steps over an empty list.
static NOTHING: [Step; 4] = [
    Step::Docs(&[]),
    Step::Next,
    Step::Docs(&[]),
    Step::Sought(TERMINATED, 0),
];

#[test]
fn empty_block_cursors_have_nothing(rt: HostRuntime) {
    assert!(rt; answered(&mut BlockSegmentPostings::empty(), &NOTHING) == 4);
}
