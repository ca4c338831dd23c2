ghost use Rattle.std.specs.Prelude.{◌≡◌, [], ◌∷◌, IfSome};
ghost use Rattle.ii_base.specs.Entries.{document};

use bytes::Bytes;
use ii_base::{AliveBitSet, Fault, HasLen, IndexRecordOption, LayoutFault};
use ii_docset::{
    CursorAnswer, CursorCall, DocId, DocSet, Lent, Postings, SeekDangerResult, SeekOnce,
    TERMINATED, walk,
};
use ii_reader::{BlockSegmentPostings, LoadedPostings, SegmentPostings};
use std::alloc::Global;
use std::test::Fail;

const BASIC: IndexRecordOption = IndexRecordOption::Basic;

const FREQS: IndexRecordOption = IndexRecordOption::WithFreqs;

const FULL: IndexRecordOption = IndexRecordOption::WithFreqsAndPositions;

// A call of a cursor and its expected answer.
#[derive(Clone, Copy)]
pub(crate) enum Step {
    // the current document
    At(DocId),
    // the document after `advance`
    Next(DocId),
    // a target, and the document after a seek to it
    Sought(DocId, DocId),
    // a target, and the answer of `seek_danger`
    Asked(DocId, SeekDangerResult),
    // the term frequency, 0 at the end
    Count(u32),
    // the positions, none at the end
    Positions(&'static [u32]),
}

// Seeks a target if that is allowed. Returns the current document.
pub(crate) fn sought<P: Postings>(cursor: &mut P, target: DocId) -> DocId {
    let doc = cursor.doc();
    if target > TERMINATED {
        return doc;
    }
    if doc >= TERMINATED {
        return cursor.seek(target);
    }
    if doc > target {
        return doc;
    }
    cursor.seek(target)
}

// Returns the term frequency of the current document, 0 at the end.
fn counted<P: Postings>(cursor: &P) -> u32 {
    if cursor.doc() < TERMINATED {
        cursor.term_freq()
    } else {
        0
    }
}

// Returns whether the current document has these positions; at the end it has none.
fn has_positions<P: Postings>(alloc: Global, cursor: &mut P, want: &[u32]) -> bool {
    let mut output = Vec::new(alloc);
    if cursor.doc() < TERMINATED && cursor.positions(&mut output).is_err() {
        return false;
    }
    output.as_slice() == want
}

// Returns whether a cursor gives the expected answer.
fn is_so<P: Postings>(alloc: Global, cursor: &mut P, step: Step) -> bool {
    match step {
        Step::At(doc) => cursor.doc() == doc,
        Step::Next(doc) => cursor.advance() == doc,
        Step::Sought(target, doc) => sought(cursor, target) == doc,
        Step::Asked(target, answer) => {
            target <= TERMINATED && cursor.seek_danger(target) == answer
        }
        Step::Count(count) => counted(cursor) == count,
        Step::Positions(want) => has_positions(alloc, cursor, want),
    }
}

// Returns how many steps pass before the first unexpected answer.
pub(crate) fn answered<P: Postings>(alloc: Global, cursor: &mut P, steps: &[Step]) -> usize {
    for (i, step) in steps.iter().enumerate() {
        if !is_so(alloc, cursor, *step) {
            return i;
        }
    }
    steps.len()
}

// A list, the recorded and the requested option, and the expected answers of a cursor.
struct List {
    doc_freq: u32,
    postings: &'static [u8],
    positions: &'static [u8],
    options: (IndexRecordOption, IndexRecordOption),
    steps: &'static [Step],
}

// Documents 0 to 127, then 129 and 130.
static LONG: [u8; 8] = [0x85, 0x7F, 0, 0, 0, 0x40, 0x82, 0x81];

static LISTS: [List; 9] = [
    List {
        doc_freq: 3,
        postings: &[0x80, 0x82, 0x88],
        positions: &[],
        options: (BASIC, BASIC),
        steps: &[
            Step::At(0),
            Step::Next(2),
            Step::Count(1),
            Step::Next(10),
            Step::Next(TERMINATED),
            Step::Next(TERMINATED),
            Step::Sought(0, TERMINATED),
        ],
    },
    List {
        doc_freq: 3,
        postings: &[0x80, 0x82, 0x88],
        positions: &[],
        options: (BASIC, BASIC),
        steps: &[
            Step::Asked(1, SeekDangerResult::SeekLowerBound(2)),
            Step::Asked(2, SeekDangerResult::Found),
            Step::Asked(TERMINATED, SeekDangerResult::SeekLowerBound(TERMINATED)),
            Step::At(2),
        ],
    },
    List {
        doc_freq: 3,
        postings: &[0x80, 0x82, 0x88, 0x81, 0x82, 0x83],
        positions: &[],
        options: (FREQS, FREQS),
        steps: &[Step::Count(1), Step::Sought(3, 10), Step::Count(3)],
    },
    List {
        doc_freq: 130,
        postings: &[0x85, 0x7F, 0, 0, 0, 0x40, 0x82, 0x81],
        positions: &[],
        options: (BASIC, BASIC),
        steps: &[
            Step::Sought(0, 0),
            Step::Sought(100, 100),
            Step::Sought(127, 127),
            Step::Next(129),
            Step::Next(130),
            Step::Next(TERMINATED),
        ],
    },
    List {
        doc_freq: 130,
        postings: &[0x85, 0x7F, 0, 0, 0, 0x40, 0x82, 0x81],
        positions: &[],
        options: (BASIC, BASIC),
        steps: &[
            Step::Sought(128, 129),
            Step::Next(130),
            Step::Sought(131, TERMINATED),
            Step::Sought(TERMINATED, TERMINATED),
        ],
    },
    List {
        doc_freq: 129,
        postings: &[
            0x88, 0x7F, 0, 0, 0, 0x40, 2, 0, 0, 0xAA, 0xAA, 0xAA, 0xAA, 0xAA, 0xAA, 0xAA, 0xAA,
            0xAA, 0xAA, 0xAA, 0xAA, 0xAA, 0xAA, 0xAA, 0xAA, 0xAA, 0xAA, 0xAA, 0xAA, 0xAA, 0xAA,
            0xAA, 0xAA, 0xAA, 0xAA, 0xAA, 0xAA, 0xAA, 0xAA, 0xAA, 0xAA, 0x81, 0x84,
        ],
        positions: &[],
        options: (FREQS, FREQS),
        steps: &[
            Step::Count(3),
            Step::Sought(127, 127),
            Step::Count(3),
            Step::Next(128),
            Step::Count(4),
            Step::Next(TERMINATED),
        ],
    },
    List {
        doc_freq: 128,
        postings: &[
            0x8C, 0x7F, 0, 0, 0, 0x40, 2, 0x80, 1, 0, 0, 0, 0, 0xAA, 0xAA, 0xAA, 0xAA, 0xAA, 0xAA,
            0xAA, 0xAA, 0xAA, 0xAA, 0xAA, 0xAA, 0xAA, 0xAA, 0xAA, 0xAA, 0xAA, 0xAA, 0xAA, 0xAA,
            0xAA, 0xAA, 0xAA, 0xAA, 0xAA, 0xAA, 0xAA, 0xAA, 0xAA, 0xAA, 0xAA, 0xAA,
        ],
        positions: &[
            0x83, 1, 1, 1, 0xB6, 0x6D, 0xDB, 0xB6, 0x6D, 0xDB, 0xB6, 0x6D, 0xDB, 0xB6, 0x6D, 0xDB,
            0xB6, 0x6D, 0xDB, 0xB6, 0x6D, 0xDB, 0xB6, 0x6D, 0xDB, 0xB6, 0x6D, 0xDB, 0xB6, 0x6D,
            0xDB, 0xB6, 0x6D, 0xDB, 0xB6, 0x6D, 0xDB, 0xB6, 0x6D, 0xDB, 0xB6, 0x6D, 0xDB, 0xB6,
            0x6D, 0xDB, 0xB6, 0x6D, 0xDB, 0xB6, 0x6D, 0xDB,
        ],
        options: (FULL, FULL),
        steps: &[
            Step::Positions(&[0, 1, 2]),
            Step::Sought(42, 42),
            Step::Count(3),
            Step::Positions(&[0, 1, 2]),
            Step::Sought(127, 127),
            Step::Positions(&[0, 1, 2]),
        ],
    },
    // the same without data that isn't requested
    List {
        doc_freq: 128,
        postings: &[
            0x8C, 0x7F, 0, 0, 0, 0x40, 2, 0x80, 1, 0, 0, 0, 0, 0xAA, 0xAA, 0xAA, 0xAA, 0xAA, 0xAA,
            0xAA, 0xAA, 0xAA, 0xAA, 0xAA, 0xAA, 0xAA, 0xAA, 0xAA, 0xAA, 0xAA, 0xAA, 0xAA, 0xAA,
            0xAA, 0xAA, 0xAA, 0xAA, 0xAA, 0xAA, 0xAA, 0xAA, 0xAA, 0xAA, 0xAA, 0xAA,
        ],
        positions: &[
            0x83, 1, 1, 1, 0xB6, 0x6D, 0xDB, 0xB6, 0x6D, 0xDB, 0xB6, 0x6D, 0xDB, 0xB6, 0x6D, 0xDB,
            0xB6, 0x6D, 0xDB, 0xB6, 0x6D, 0xDB, 0xB6, 0x6D, 0xDB, 0xB6, 0x6D, 0xDB, 0xB6, 0x6D,
            0xDB, 0xB6, 0x6D, 0xDB, 0xB6, 0x6D, 0xDB, 0xB6, 0x6D, 0xDB, 0xB6, 0x6D, 0xDB, 0xB6,
            0x6D, 0xDB, 0xB6, 0x6D, 0xDB, 0xB6, 0x6D, 0xDB,
        ],
        options: (FULL, BASIC),
        steps: &[
            Step::At(0),
            Step::Count(1),
            Step::Sought(127, 127),
            Step::Positions(&[]),
        ],
    },
    List {
        doc_freq: 2,
        postings: &[0x80, 0x83, 0x83, 0x81],
        positions: &[0x80, 0x81, 0x81, 0x81, 0x9E],
        options: (FULL, FULL),
        steps: &[
            Step::Positions(&[1, 2, 3]),
            Step::Next(3),
            Step::Count(1),
            Step::Positions(&[30]),
            Step::Next(TERMINATED),
        ],
    },
];

// Opens a cursor over a list.
fn opened(list: &List) -> Result<SegmentPostings, LayoutFault> {
    let postings = Bytes::from_static(list.postings);
    let positions = Some(Bytes::from_static(list.positions));
    let (record_option, requested_option) = list.options;
    SegmentPostings::open(
        list.doc_freq,
        postings,
        positions,
        record_option,
        requested_option,
    )
}

// Returns whether a cursor reports this length.
fn is_so_long(cursor: &SegmentPostings, len: u32) -> bool {
    let mut same = cursor.doc_freq() == len;
    same &= cursor.size_hint() == len;
    same &= cursor.cost() == u64::from(len);
    same & (u64::from(len) == cursor.len() as u64)
}

// Returns how many steps pass for a cursor and for its copy, and whether the cursor reports the list's
// length.
fn answered_by_copy(alloc: Global, list: &List) -> Result<([usize; 2], bool), Fault> {
    let mut cursor = opened(list)?;
    let mut copy = cursor.clone()?;
    let first = answered(alloc, &mut cursor, list.steps);
    let other = answered(alloc, &mut copy, list.steps);
    Ok(([first, other], is_so_long(&cursor, list.doc_freq)))
}

// Validates the list, then returns how many steps pass for a cursor opened without validation.
fn answered_known(alloc: Global, list: &List) -> usize {
    let (recorded, requested) = list.options;
    let postings = Bytes::from_static(list.postings);
    let positions = Some(Bytes::from_static(list.positions));
    let Ok(_) = SegmentPostings::open(list.doc_freq, postings, positions, recorded, requested)
    else {
        return 0;
    };
    let postings = Bytes::from_static(list.postings);
    let positions = Some(Bytes::from_static(list.positions));
    let mut known = SegmentPostings::open_known(
        list.doc_freq,
        postings,
        positions,
        recorded,
        requested,
    );
    answered(alloc, &mut known, list.steps)
}

#[test]
fn lists_are_walked(rt: HostRuntime) -> Result<(), Fail> {
    for (i, list) in LISTS.iter().enumerate() {
        let len = list.steps.len();
        assert!(rt;
            answered_by_copy(rt.alloc(), list)? == ([len; 2], true),
            "list {i}"
        );
        assert!(rt; answered_known(rt.alloc(), list) == len, "known list {i}");
    }
    Ok(())
}

// Starts a cursor at the second block of the long list. Returns whether it reports the list's length, its
// document, and the number of remaining documents.
fn from_second_block() -> Result<(bool, DocId, u32), LayoutFault> {
    let mut blocks = BlockSegmentPostings::open(130, Bytes::from_static(&LONG), BASIC, BASIC)?;
    blocks.advance();
    let mut cursor = SegmentPostings::from_block_postings(blocks, None);
    let (is_long, doc) = (is_so_long(&cursor, 130), cursor.doc());
    Ok((is_long, doc, cursor.count_including_deleted()))
}

// Returns the term frequency of an empty cursor, whether it reports being empty, and its next document.
fn of_nothing() -> (u32, [bool; 2], DocId) {
    let mut cursor = SegmentPostings::empty();
    let count = cursor.term_freq();
    let has_nothing = [is_so_long(&cursor, 0), cursor.is_empty()];
    (count, has_nothing, cursor.advance())
}

#[test]
fn cursors_begin_behind_documents(rt: HostRuntime) {
    assert!(rt; from_second_block() == Ok((true, 129, 2)));
    assert!(rt; of_nothing() == (1, [true; 2], TERMINATED));
}

// A target to seek before loading, the number of documents loaded, and the list with expected answers.
static LOADED: [(DocId, u32, List); 3] = [
    (
        0,
        130,
        List {
            doc_freq: 130,
            postings: &[0x85, 0x7F, 0, 0, 0, 0x40, 0x82, 0x81],
            positions: &[],
            options: (BASIC, BASIC),
            steps: &[
                Step::At(0),
                Step::Next(1),
                Step::Sought(14, 14),
                Step::Sought(128, 129),
                Step::Sought(6000, TERMINATED),
                Step::Next(TERMINATED),
            ],
        },
    ),
    (
        128,
        2,
        List {
            doc_freq: 130,
            postings: &[0x85, 0x7F, 0, 0, 0, 0x40, 0x82, 0x81],
            positions: &[],
            options: (BASIC, BASIC),
            steps: &[
                Step::At(129),
                Step::Next(130),
                Step::Next(TERMINATED),
                Step::Next(TERMINATED),
            ],
        },
    ),
    (
        0,
        2,
        List {
            doc_freq: 2,
            postings: &[0x80, 0x83, 0x83, 0x81],
            positions: &[0x80, 0x81, 0x81, 0x81, 0x9E],
            options: (FULL, FULL),
            steps: &[
                Step::Count(3),
                Step::Positions(&[1, 2, 3]),
                Step::Next(3),
                Step::Count(1),
                Step::Positions(&[30]),
                Step::Next(TERMINATED),
            ],
        },
    ),
];

// Loads the remaining documents. Returns the source's document, the number loaded, and how many steps pass.
fn answered_loaded(alloc: Global, from: DocId, list: &List) -> Result<(DocId, u32, usize), Fault> {
    let mut source = opened(list)?;
    let _first = sought(&mut source, from);
    let mut loaded = LoadedPostings::load(alloc, &mut source)?;
    let count = answered(alloc, &mut loaded, list.steps);
    Ok((source.doc(), loaded.size_hint(), count))
}

#[test]
fn what_is_left_is_loaded(rt: HostRuntime) -> Result<(), Fail> {
    for (from, len, list) in &LOADED {
        let answered = answered_loaded(rt.alloc(), *from, list)?;
        assert!(rt;
            answered == (TERMINATED, *len, list.steps.len()),
            "from {from}"
        );
    }
    Ok(())
}

// Returns how many steps pass for a `dyn Postings`.
fn answered_in_box(alloc: Global, list: &List) -> Result<usize, Fault> {
    let cursor = opened(list)?;
    let mut erased: Box<dyn Postings> = Box::new(alloc, cursor)?;
    Ok(answered(alloc, &mut erased, list.steps))
}

// Seeks once if that is allowed. Returns the current document.
fn sought_once<C: SeekOnce>(cursor: &mut C, target: DocId) -> DocId {
    if target <= TERMINATED && cursor.doc() <= target {
        cursor.seek_once(target)
    } else {
        cursor.doc()
    }
}

// Returns the documents after single seeks of a borrowed, a plain and a boxed cursor.
fn sought_thrice(alloc: Global, list: &List) -> Result<[DocId; 3], Fault> {
    let mut cursor = opened(list)?;
    let first = sought_once(&mut Lent { inner: &mut cursor }, 1);
    let second = sought_once(&mut cursor, 3);
    let mut boxed = Box::new(alloc, cursor)?;
    Ok([first, second, sought_once(&mut boxed, 11)])
}

#[test]
fn cursors_are_lent_and_boxed(rt: HostRuntime) -> Result<(), Fail> {
    let list = &LISTS[0];
    assert!(rt; answered_in_box(rt.alloc(), list)? == list.steps.len());
    assert!(rt; sought_thrice(rt.alloc(), list)? == [2, 10, TERMINATED]);
    Ok(())
}

// Documents 0, 2 and 10.
static THREE: [u8; 3] = [0x80, 0x82, 0x88];

// Opens a cursor over them.
fn three() -> Option<SegmentPostings>
    ensures { IfSome result (λ cursor. cursor.rest ≡ document 0 ∷ document 2 ∷ document 10 ∷ []) }
{
    let bytes = Bytes::from_static(&THREE);
    match SegmentPostings::open(3, bytes, None, BASIC, BASIC) {
        Ok(cursor) => Some(cursor),
        Err(_) => None,
    }
}

// Returns whether five calls of a cursor over them have these answers.
fn is_walked<P: Postings>(alloc: Global, cursor: &mut P) -> bool
    requires { P.rest cursor.old ≡ document 0 ∷ document 2 ∷ document 10 ∷ [] }
{
    let calls = [
        CursorCall::Seek(1),
        CursorCall::TermFreq,
        CursorCall::Advance,
        CursorCall::Advance,
        CursorCall::Seek(0),
    ];
    let answers = [
        CursorAnswer::Doc(2),
        CursorAnswer::Freq(1),
        CursorAnswer::Doc(10),
        CursorAnswer::Doc(TERMINATED),
        CursorAnswer::Doc(TERMINATED),
    ];
    let walked = walk(alloc, cursor, &calls);
    walked.complete && walked.answers.as_slice() == answers.as_slice()
}

// Returns the same for a new cursor.
fn three_are_walked(alloc: Global) -> bool {
    match three() {
        Some(mut cursor) => is_walked(alloc, &mut cursor),
        None => false,
    }
}

// Returns the same for a `dyn Postings`.
fn boxed_are_walked(alloc: Global) -> Result<bool, Fault> {
    let Some(cursor) = three() else {
        return Ok(false);
    };
    let mut erased: Box<dyn Postings> = Box::new(alloc, cursor)?;
    Ok(is_walked(alloc, &mut erased))
}

#[test]
fn calls_are_walked(rt: HostRuntime) -> Result<(), Fail> {
    assert!(rt; three_are_walked(rt.alloc()));
    assert!(rt; boxed_are_walked(rt.alloc())?);
    Ok(())
}

static ALL_DELETED: [DocId; 12] = [0, 1, 2, 3, 4, 5, 6, 7, 8, 9, 10, 11];

// Returns how many of them are alive where document 2 of 12 is deleted, and where all are.
fn alive_counts(alloc: Global, cursor: &SegmentPostings) -> Result<[u32; 2], Fault>
    requires { cursor.now.rest ≡ document 0 ∷ document 2 ∷ document 10 ∷ [] }
{
    let without_one = AliveBitSet::from_deleted_docs(alloc, &[2], 12)?;
    let first = cursor.doc_freq_given_deletes(&without_one)?;
    let without_any = AliveBitSet::from_deleted_docs(alloc, &ALL_DELETED, 12)?;
    Ok([first, cursor.doc_freq_given_deletes(&without_any)?])
}

// Returns the same for a new cursor.
fn alive_of_three(alloc: Global) -> Result<[u32; 2], Fault> {
    match three() {
        Some(cursor) => alive_counts(alloc, &cursor),
        None => Ok([0; 2]),
    }
}

#[test]
fn deletes_are_counted(rt: HostRuntime) -> Result<(), Fail> {
    assert!(rt; alive_of_three(rt.alloc())? == [2, 0]);
    Ok(())
}

// Document 0, with a term at positions 0 and 4.
static TWO_POSTINGS: [u8; 2] = [0x80, 0x82];

static TWO_POSITIONS: [u8; 3] = [0x80, 0x80, 0x84];

// Opens a cursor over it.
fn two_positions() -> Option<SegmentPostings>
    ensures { IfSome result (λ cursor. cursor.rest ≡ record { doc = 0; term_freq = 2; positions = 0 ∷ 4 ∷ [] } ∷ []) }
{
    let postings = Bytes::from_static(&TWO_POSTINGS);
    let positions = Some(Bytes::from_static(&TWO_POSITIONS));
    match SegmentPostings::open(1, postings, positions, FULL, FULL) {
        Ok(cursor) => Some(cursor),
        Err(_) => None,
    }
}

static SEVEN_AND_TEN_MORE: [u32; 3] = [7, 10, 14];

static ONE_MORE: [u32; 2] = [1, 5];

// Returns whether the positions plus 10 are appended.
fn are_appended(cursor: &mut SegmentPostings, output: &mut Vec<u32>) -> bool
    requires { cursor.old.rest ≡ record { doc = 0; term_freq = 2; positions = 0 ∷ 4 ∷ [] } ∷ [] }
    ensures { cursor.new.rest ≡ cursor.old.rest }
{
    let appended = cursor.append_positions_with_offset(10, output);
    appended.is_ok() && output.as_slice() == SEVEN_AND_TEN_MORE.as_slice()
}

// Returns whether the positions plus 1 replace the contents.
fn are_put(cursor: &mut SegmentPostings, output: &mut Vec<u32>) -> bool
    requires { cursor.old.rest ≡ record { doc = 0; term_freq = 2; positions = 0 ∷ 4 ∷ [] } ∷ [] }
    ensures { cursor.new.rest ≡ cursor.old.rest }
{
    let put = cursor.positions_with_offset(1, output);
    put.is_ok() && output.as_slice() == ONE_MORE.as_slice()
}

// Returns whether both hold for an output that starts with 7, and the current document.
fn asked(cursor: &mut SegmentPostings, output: &mut Vec<u32>) -> ([bool; 2], DocId)
    requires { cursor.old.rest ≡ record { doc = 0; term_freq = 2; positions = 0 ∷ 4 ∷ [] } ∷ [] }
{
    let are_told = [are_appended(cursor, output), are_put(cursor, output)];
    (are_told, cursor.doc())
}

// Returns the same for a new cursor, if it opens.
fn asked_of_two(output: &mut Vec<u32>) -> Option<([bool; 2], DocId)> {
    match two_positions() {
        Some(mut cursor) => Some(asked(&mut cursor, output)),
        None => None,
    }
}

#[test]
fn positions_are_appended(rt: HostRuntime) -> Result<(), Fail> {
    let mut output = Vec::from_slice(rt.alloc(), &[7])?;
    assert!(rt; asked_of_two(&mut output) == Some(([true; 2], 0)));
    Ok(())
}
