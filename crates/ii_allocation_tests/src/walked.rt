ghost use Rattle.std.specs.Prelude.{◌≡◌, ◌∷◌, [], IfOk};
ghost use Rattle.ii_base.specs.Entries.{document};

use bytes::Bytes;
use ii_base::{Fault, IndexRecordOption};
use ii_docset::{CursorAnswer, CursorCall, DocId, DocSet, TERMINATED, walk};
use ii_reader::SegmentPostings;
use std::alloc::Global;

const BASIC: IndexRecordOption = IndexRecordOption::Basic;

// Documents 0, 2 and 10.
static THREE: [u8; 3] = [0x80, 0x82, 0x88];

// The document of a cursor over them, by the number of calls made.
const PLACES: [DocId; 7] = [0, 0, 2, 2, 10, 10, TERMINATED];

/// Opens a cursor over them.
pub fn three() -> Result<SegmentPostings, Fault>
    ensures { IfOk result (λ cursor. cursor.rest ≡ document 0 ∷ document 2 ∷ document 10 ∷ []) }
{
    let bytes = Bytes::from_static(&THREE);
    match SegmentPostings::open(3, bytes, None, BASIC, BASIC) {
        Ok(cursor) => Ok(cursor),
        Err(fault) => Err(Fault::from(fault)),
    }
}

/// Walks to the end of three documents. After an allocation failure, the answers and the current document
/// must be those of the calls made before it.
pub fn read_back(alloc: Global) -> Result<String, Fault> {
    let mut cursor = three()?;
    let calls = [
        CursorCall::Doc,
        CursorCall::Advance,
        CursorCall::Doc,
        CursorCall::Advance,
        CursorCall::Doc,
        CursorCall::Advance,
    ];
    let walked = walk(alloc, &mut cursor, &calls);
    let answers = walked.answers.as_slice();
    let place = PLACES.get(answers.len());
    if !are_of_first(answers) || place != Some(&cursor.doc()) {
        return Ok(String::from_str(alloc, " stands elsewhere")?);
    }
    if !walked.complete {
        return Ok(String::from_str(alloc, " out of memory")?);
    }
    Ok(format!(in alloc; " {} calls to the end", answers.len())?)
}

// Returns whether these are the answers to the first calls.
fn are_of_first(answers: &[CursorAnswer]) -> bool {
    let want = [
        CursorAnswer::Doc(0),
        CursorAnswer::Doc(2),
        CursorAnswer::Doc(2),
        CursorAnswer::Doc(10),
        CursorAnswer::Doc(10),
        CursorAnswer::Doc(TERMINATED),
    ];
    want.as_slice().starts_with(answers)
}
