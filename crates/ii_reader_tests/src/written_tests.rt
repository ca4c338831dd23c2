// Lists of documents that a formula gives: written, and read by each kind of cursor.
ghost use Rattle.std.specs.Prelude.{◌≡◌};
ghost use Rattle.ii_base.specs.Entries.{are_documents};

use crate::list_tests::{Step, answered, sought};
use bytes::Bytes;
use ii_base::{CountingWriter, Fault, IndexRecordOption, Part};
use ii_docset::{CursorAnswer, CursorCall, DocId, DocSet, Postings, TERMINATED, walk};
use ii_layout::PostingsSerializer;
use ii_reader::{BlockSegmentPostings, LoadedPostings, SegmentPostings};
use std::alloc::Global;
use std::test::Fail;

const BASIC: IndexRecordOption = IndexRecordOption::Basic;

// A list whose document i is `step * i`, plus `squares` times a hundredth of `i * i`, plus `jump` for each full
// block before it, and the expected answers of a cursor.
struct Row {
    len: u32,
    step: u32,
    squares: u32,
    jump: u32,
    steps: &'static [Step],
}

static ROWS: [Row; 6] = [
    // all documents below 300
    Row {
        len: 300,
        step: 1,
        squares: 0,
        jump: 0,
        steps: &[
            Step::At(0),
            Step::Sought(1, 1),
            Step::Sought(1, 1),
            Step::Sought(3, 3),
            Step::Sought(5, 5),
            Step::Sought(8, 8),
            Step::Sought(13, 13),
            Step::Sought(144, 144),
            Step::Sought(233, 233),
            Step::Sought(377, TERMINATED),
        ],
    },
    // even ones
    Row {
        len: 150,
        step: 2,
        squares: 0,
        jump: 0,
        steps: &[Step::Sought(297, 298), Step::Sought(299, TERMINATED)],
    },
    // growing gaps
    Row {
        len: 1300,
        step: 1,
        squares: 1,
        jump: 0,
        steps: &[
            Step::At(0),
            Step::Sought(424, 424),
            Step::Sought(10_000, 10_015),
            Step::Sought(100_000, TERMINATED),
        ],
    },
    // multiples of 3
    Row {
        len: 1024,
        step: 3,
        squares: 0,
        jump: 0,
        steps: &[
            Step::At(0),
            Step::Next(3),
            Step::Sought(14, 15),
            Step::Sought(300, 300),
            Step::Sought(6000, TERMINATED),
        ],
    },
    // documents 0 to 127, 129 and 130
    Row {
        len: 130,
        step: 1,
        squares: 0,
        jump: 1,
        steps: &[
            Step::Sought(128, 129),
            Step::Next(130),
            Step::Sought(131, TERMINATED),
        ],
    },
    // many blocks
    Row {
        len: 100_000,
        step: 1,
        squares: 0,
        jump: 0,
        steps: &[
            Step::At(0),
            Step::Sought(99_999, 99_999),
            Step::Next(TERMINATED),
        ],
    },
];

// Returns the documents of a row.
fn docs_of(alloc: Global, row: &Row) -> Result<Vec<DocId>, Fault> {
    let mut docs = Vec::new(alloc);
    for i in 0..row.len {
        let square = i.saturating_mul(i) / 100;
        let more = square.saturating_mul(row.squares);
        let jumps = (i / 128).saturating_mul(row.jump);
        let doc = i.saturating_mul(row.step);
        docs.push(doc.saturating_add(more).saturating_add(jumps))?;
    }
    Ok(docs)
}

// Returns whether documents ascend and are less than `TERMINATED`.
fn ascend(docs: &[DocId]) -> bool
    ensures { result ≡ are_documents docs.now }
{
    let mut next = 0;
    for doc in docs {
        if *doc < next || *doc >= TERMINATED {
            return false;
        }
        next = *doc + 1;
    }
    true
}

// Writes a list. Returns `Damaged(Documents)` if it doesn't ascend.
fn written(alloc: Global, docs: &[DocId]) -> Result<Bytes, Fault> {
    if !ascend(docs) {
        return Err(Fault::Damaged(Part::Documents));
    }
    let Ok(doc_freq) = u32::try_from(docs.len()) else {
        return Err(Fault::Damaged(Part::Documents));
    };
    let mut output = CountingWriter::wrap(Vec::new(alloc));
    let mut serializer = PostingsSerializer::new(alloc, BASIC, None);
    for doc in docs {
        serializer.write_doc(*doc, 1)?;
    }
    serializer.close_term(doc_freq, &mut output)?;
    Ok(Bytes::from_vec(output.finish())?)
}

// Opens a cursor over the list of a row.
fn cursor_over(alloc: Global, row: &Row, docs: &[DocId]) -> Result<SegmentPostings, Fault> {
    let bytes = written(alloc, docs)?;
    Ok(SegmentPostings::open(row.len, bytes, None, BASIC, BASIC)?)
}

// Opens a block cursor over it.
fn blocks_over(alloc: Global, row: &Row, docs: &[DocId]) -> Result<BlockSegmentPostings, Fault> {
    let bytes = written(alloc, docs)?;
    Ok(BlockSegmentPostings::open(row.len, bytes, BASIC, BASIC)?)
}

// Returns whether a block cursor has these documents, 128 in each block but the last, and then none.
fn has_blocks(blocks: &mut BlockSegmentPostings, docs: &[DocId]) -> bool {
    for block in docs.chunks(128) {
        if blocks.docs() != block {
            return false;
        }
        blocks.advance();
    }
    blocks.block_len() == 0
}

// Returns whether a cursor is walked over these documents, and is then at its end.
fn has_docs<P: Postings>(alloc: Global, cursor: &mut P, docs: &[DocId]) -> bool {
    let calls = [CursorCall::Doc, CursorCall::Advance];
    for doc in docs {
        let walked = walk(alloc, cursor, &calls);
        let first = walked.answers.first() == Some(&CursorAnswer::Doc(*doc));
        if !(walked.complete && first) {
            return false;
        }
    }
    cursor.doc() == TERMINATED
}

// Returns whether a cursor gives the answers that a row expects.
fn has_steps<P: Postings>(alloc: Global, cursor: &mut P, row: &Row) -> bool {
    let steps = answered(alloc, cursor, row.steps);
    cursor.size_hint() == row.len && steps == row.steps.len()
}

// Loads the documents of a cursor.
fn loaded(alloc: Global, cursor: &SegmentPostings) -> Result<LoadedPostings, Fault> {
    LoadedPostings::load(alloc, &mut cursor.clone()?)
}

// Returns whether copies of a cursor, and what they are loaded into, are as a row says.
fn are_as_row(
    alloc: Global,
    cursor: &SegmentPostings,
    row: &Row,
    docs: &[DocId],
) -> Result<[bool; 4], Fault> {
    let steps = has_steps(alloc, &mut cursor.clone()?, row);
    let walked = has_docs(alloc, &mut cursor.clone()?, docs);
    let loaded_steps = has_steps(alloc, &mut loaded(alloc, cursor)?, row);
    let loaded_walked = has_docs(alloc, &mut loaded(alloc, cursor)?, docs);
    Ok([steps, walked, loaded_steps, loaded_walked])
}

// Returns the same for a new cursor.
fn told_of_cursor(alloc: Global, row: &Row, docs: &[DocId]) -> Result<[bool; 4], Fault> {
    let cursor = cursor_over(alloc, row, docs)?;
    are_as_row(alloc, &cursor, row, docs)
}

// Returns the same for a row, and whether a block cursor has its blocks.
fn told_of_row(alloc: Global, row: &Row) -> Result<([bool; 4], bool), Fault> {
    let docs = docs_of(alloc, row)?;
    let told = told_of_cursor(alloc, row, docs.as_slice())?;
    let mut blocks = blocks_over(alloc, row, docs.as_slice())?;
    Ok((told, has_blocks(&mut blocks, docs.as_slice())))
}

#[test]
fn written_lists_are_walked_and_loaded(rt: HostRuntime) -> Result<(), Fail> {
    for (i, row) in ROWS.iter().enumerate() {
        assert!(rt;
            told_of_row(rt.alloc(), row)? == ([true; 4], true),
            "row {i}"
        );
    }
    Ok(())
}

// Returns whether a seek leaves a block cursor at a block around a target.
fn finds_block(blocks: &mut BlockSegmentPostings, target: DocId) -> bool {
    if target > TERMINATED || blocks.seek(target) >= blocks.block_len() {
        return false;
    }
    blocks.doc(0) <= target && target <= blocks.doc(127)
}

// Returns whether seeks do for three targets among growing gaps, and the last entry after one to a target behind
// all documents.
fn found_blocks(alloc: Global) -> Result<([bool; 3], DocId), Fault> {
    let docs = docs_of(alloc, &ROWS[2])?;
    let mut blocks = blocks_over(alloc, &ROWS[2], docs.as_slice())?;
    let found = [
        finds_block(&mut blocks, 0),
        finds_block(&mut blocks, 424),
        finds_block(&mut blocks, 10_000),
    ];
    let _below = blocks.seek(100_000);
    Ok((found, blocks.doc(127)))
}

#[test]
fn seeks_find_blocks_around_targets(rt: HostRuntime) -> Result<(), Fail> {
    assert!(rt; found_blocks(rt.alloc())? == ([true; 3], TERMINATED));
    Ok(())
}

// Returns the first of some documents that is at least a target.
fn first_from(docs: &[DocId], target: DocId) -> DocId {
    for doc in docs {
        if *doc >= target {
            return *doc;
        }
    }
    TERMINATED
}

// Returns whether each seek from a target up to 300 finds the first document that is at least the new target.
fn later_are_found(cursor: &SegmentPostings, docs: &[DocId], target: DocId) -> Result<bool, Fault> {
    for later in target..301 {
        if sought(&mut cursor.clone()?, later) != first_from(docs, later) {
            return Ok(false);
        }
    }
    Ok(true)
}

// Returns whether each seek from the first document finds its document, and so does each seek after it.
fn pairs_are_found(cursor: &SegmentPostings, docs: &[DocId]) -> Result<bool, Fault> {
    for target in 0..301 {
        let mut once = cursor.clone()?;
        if sought(&mut once, target) != first_from(docs, target) {
            return Ok(false);
        }
        if !later_are_found(&once, docs, target)? {
            return Ok(false);
        }
    }
    Ok(true)
}

// Returns the same for a row.
fn pairs_of_row(alloc: Global, row: &Row) -> Result<bool, Fault> {
    let docs = docs_of(alloc, row)?;
    let cursor = cursor_over(alloc, row, docs.as_slice())?;
    pairs_are_found(&cursor, docs.as_slice())
}

#[test]
fn two_seeks_find_their_documents(rt: HostRuntime) -> Result<(), Fail> {
    for row in &ROWS[..2] {
        assert!(rt; pairs_of_row(rt.alloc(), row)?);
    }
    Ok(())
}
