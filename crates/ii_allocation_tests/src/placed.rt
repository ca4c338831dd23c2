ghost use Rattle.std.specs.Prelude.{◌≡◌, ◌∷◌, [], IfOk};

use bytes::Bytes;
use ii_base::{Fault, IndexRecordOption};
use ii_docset::{DocSet, Postings};
use ii_reader::SegmentPostings;
use std::alloc::Global;

const FULL: IndexRecordOption = IndexRecordOption::WithFreqsAndPositions;

// Document 0, with a term at positions 0 and 4.
static POSTINGS: [u8; 2] = [0x80, 0x82];

static POSITIONS: [u8; 3] = [0x80, 0x80, 0x84];

// Opens a cursor over it.
fn two_positions() -> Result<SegmentPostings, Fault>
    ensures { IfOk result (λ cursor. cursor.rest ≡ record { doc = 0; term_freq = 2; positions = 0 ∷ 4 ∷ [] } ∷ []) }
{
    let postings = Bytes::from_static(&POSTINGS);
    let positions = Some(Bytes::from_static(&POSITIONS));
    match SegmentPostings::open(1, postings, positions, FULL, FULL) {
        Ok(cursor) => Ok(cursor),
        Err(fault) => Err(Fault::from(fault)),
    }
}

/// Appends positions to a list, then replaces another list with them. After an allocation failure the first
/// list must be unchanged, the second one empty, and the cursor at the same document.
pub fn read_back(alloc: Global) -> Result<String, Fault> {
    let mut cursor = two_positions()?;
    let mut added = Vec::with_capacity(alloc, 1)?;
    added.push(7)?;
    let step = cursor.append_positions_with_offset(10, &mut added);
    if step.is_err() && (added.as_slice() != [7].as_slice() || cursor.doc() != 0) {
        return Ok(String::from_str(alloc, " changed")?);
    }
    step?;
    let mut filled = Vec::with_capacity(alloc, 1)?;
    filled.push(7)?;
    let step = cursor.positions(&mut filled);
    if step.is_err() && (!filled.is_empty() || cursor.doc() != 0) {
        return Ok(String::from_str(alloc, " changed")?);
    }
    step?;
    Ok(format!(in alloc; " {added:?} {filled:?}")?)
}

/// Replaces a list with positions, each plus an offset. After an allocation failure the list must be empty, and a
/// second call must read the positions of the same document.
pub fn read_back_with_offset(alloc: Global) -> Result<String, Fault> {
    let mut cursor = two_positions()?;
    let mut filled = Vec::with_capacity(alloc, 1)?;
    filled.push(7)?;
    let step = cursor.positions_with_offset(10, &mut filled);
    if step.is_err() {
        let stays = filled.is_empty() && cursor.doc() == 0 && cursor.term_freq() == 2;
        cursor.positions_with_offset(10, &mut filled)?;
        if !stays || filled.as_slice() != [10, 14].as_slice() {
            return Ok(String::from_str(alloc, " changed")?);
        }
    }
    step?;
    Ok(format!(in alloc; " {filled:?}")?)
}
