ghost use Rattle.std.specs.Prelude.{◌≡◌, ◌∷◌, []};
ghost use Rattle.ii_docset.specs.Calls.{IsLawful};
ghost use Rattle.ii_docset.specs.Cursor.{IsSound, IsTarget};

mod combined;
mod list_postings;
mod reads;
mod sloppy;

use ii_base::{AliveBitSet, Fault};
use ii_docset::{
    COLLECT_BLOCK_BUFFER_LEN, CursorAnswer, CursorCall, DocId, DocSet, Lent, Postings, TERMINATED,
    Walk, intersect, walk,
};
use list_postings::{ListPostings, Place};
use std::alloc::{AllocError, Global};
use std::marker::Model;
use std::test::Fail;

// A cursor over the documents from `next` to below `end`: a minimal implementation with the default bodies.
#[derive(Drop)]
struct Below {
    next: DocId,
    end: DocId,
}

impl Model for Below {
    ghost use Rattle.std.specs.Prelude.{List, ◌-◌, ◌≤◌, map};
    ghost use Rattle.std.specs.List.{range_with_len};
    ghost use Rattle.ii_base.specs.Entries.{Entry, document};

    ghost Value = { List Entry };

    ghost view = { λ s. map document (range_with_len s.next (s.end - s.next)) };

    ghost invariant = { λ s. (s.next ≤ s.end) × (s.end ≤ 2147483647) };
}

impl DocSet for Below {
    ghost rest = { λ s. s };

    ghost went_nowhere = { λ s. tt };

    ghost went_on = { λ a b c before after. tt };

    fn advance(&mut self) -> DocId {
        if self.next < self.end {
            self.next += 1;
        }
        self.doc()
    }

    fn doc(&self) -> DocId {
        if self.next < self.end {
            self.next
        } else {
            TERMINATED
        }
    }

    fn size_hint(&self) -> u32 {
        self.end
    }
}

// Returns what the default bodies answer: the cost, the first document, a seek to 7, the next document, a
// count, the current document, and another count.
fn default_answers<D: DocSet>(cursor: &mut D) -> (u64, [u32; 6])
    requires { IsTarget 7 (D.rest cursor.old) }
{
    let cost = cursor.cost();
    let first = cursor.doc();
    let seventh = cursor.seek(7);
    let next = cursor.advance();
    let rest = cursor.count_including_deleted();
    let end = cursor.doc();
    let left = cursor.count_including_deleted();
    (cost, [first, seventh, next, rest, end, left])
}

// Advances a borrowed cursor of any type.
fn next_of(cursor: &mut dyn DocSet) -> DocId {
    cursor.advance()
}

#[test]
fn default_bodies_are_called(rt: HostRuntime) {
    let mut cursor = Below { next: 0, end: 12 };
    let answers = default_answers(&mut cursor);
    assert!(rt; answers == (12, [0, 7, 8, 4, TERMINATED, 0]));
    let mut two = Below { next: 0, end: 2 };
    let next = next_of(&mut two);
    let docs = [next, next_of(&mut two), two.doc()];
    assert!(rt; docs == [1, TERMINATED, TERMINATED]);
}

// Returns how many documents are written to a buffer, and the current document after that.
fn fill<D: DocSet>(
    cursor: &mut D,
    buffer: &mut [DocId; COLLECT_BLOCK_BUFFER_LEN],
) -> (usize, DocId) {
    let count = cursor.fill_buffer(buffer);
    (count, cursor.doc())
}

#[test]
fn buffers_are_filled(rt: HostRuntime) -> Result<(), Fail> {
    let mut cursor: Box<dyn DocSet> = Box::new(rt.alloc(), Below { next: 0, end: 100 })?;
    let mut buffer = [7; COLLECT_BLOCK_BUFFER_LEN];
    let first = fill(&mut cursor, &mut buffer);
    assert!(rt; (first, buffer[0], buffer[63]) == ((64, 64), 0, 63));
    let (count, _) = fill(&mut Lent { inner: &mut cursor }, &mut buffer);
    assert!(rt; (count, buffer[35], buffer[36]) == (36, 99, 36));
    let last = fill(&mut cursor, &mut buffer);
    assert!(rt; (last, buffer[35]) == ((0, TERMINATED), 99));
    Ok(())
}

// Documents 0, 2 and 10, with one, one and two positions.
static PLACES: [Place; 3] = [
    Place {
        doc: 0,
        positions: &[3],
    },
    Place {
        doc: 2,
        positions: &[1],
    },
    Place {
        doc: 10,
        positions: &[4, 9],
    },
];

fn three() -> ListPostings
    ensures { result ≡ record { doc = 0; term_freq = 1; positions = 3 ∷ [] } ∷ record { doc = 2; term_freq = 1; positions = 1 ∷ [] } ∷ record { doc = 10; term_freq = 2; positions = 4 ∷ 9 ∷ [] } ∷ [] }
{
    ListPostings::new(&PLACES)
}

// Runs seven calls on a cursor over these documents.
fn row<P: Postings>(alloc: Global, cursor: &mut P) -> Walk
    requires { P.rest cursor.old ≡ record { doc = 0; term_freq = 1; positions = 3 ∷ [] } ∷ record { doc = 2; term_freq = 1; positions = 1 ∷ [] } ∷ record { doc = 10; term_freq = 2; positions = 4 ∷ 9 ∷ [] } ∷ [] }
{
    let calls = [
        CursorCall::Seek(1),
        CursorCall::TermFreq,
        CursorCall::Advance,
        CursorCall::Positions(5),
        CursorCall::Advance,
        CursorCall::Seek(0),
        CursorCall::Doc,
    ];
    walk(alloc, cursor, &calls)
}

// Runs these calls on a boxed cursor.
fn row_boxed(alloc: Global) -> Result<Walk, AllocError> {
    let mut boxed = Box::new(alloc, three())?;
    Ok(row(alloc, &mut boxed))
}

// Runs them on a `dyn Postings`.
fn row_erased(alloc: Global) -> Result<Walk, AllocError> {
    let mut erased: Box<dyn Postings> = Box::new(alloc, three())?;
    Ok(row(alloc, &mut erased))
}

// Returns whether the walk is complete and has the expected answers.
fn is_wanted(alloc: Global, walked: &Walk) -> Result<(bool, bool), AllocError> {
    let want = [
        CursorAnswer::Doc(2),
        CursorAnswer::Freq(1),
        CursorAnswer::Doc(10),
        CursorAnswer::Positions(vec![in alloc; 9, 14]?),
        CursorAnswer::Doc(TERMINATED),
        CursorAnswer::Doc(TERMINATED),
        CursorAnswer::Doc(TERMINATED),
    ];
    Ok((
        walked.complete,
        walked.answers.as_slice() == want.as_slice(),
    ))
}

#[test]
fn cursors_are_walked(rt: HostRuntime) -> Result<(), Fail> {
    let plain = is_wanted(rt.alloc(), &row(rt.alloc(), &mut three()))?;
    let boxed = is_wanted(rt.alloc(), &row_boxed(rt.alloc())?)?;
    let erased = is_wanted(rt.alloc(), &row_erased(rt.alloc())?)?;
    assert!(rt; [plain, boxed, erased] == [(true, true); 3]);
    Ok(())
}

static ADDED: [u32; 2] = [8, 103];

static FOUR_NINE: [u32; 2] = [4, 9];

// Appends the positions of document 0, each plus 100, to `added`; replaces `output` with those of document
// 10. Returns the document, then for reads from its second and first position their number and the buffer.
fn tell_positions(
    added: &mut Vec<u32>,
    output: &mut Vec<u32>,
) -> Result<(DocId, [(usize, [u32; 3]); 2]), Fault> {
    let mut cursor = three();
    cursor.append_positions_with_offset(100, added)?;
    let doc = cursor.seek(10);
    cursor.positions(output)?;
    let mut some = [7; 3];
    let second = (cursor.read_positions(1, 4, &mut some), some);
    let first = (cursor.read_positions(0, 0, &mut some), some);
    Ok((doc, [second, first]))
}

#[test]
fn positions_are_told(rt: HostRuntime) -> Result<(), Fail> {
    let mut added = vec![in rt.alloc(); 8]?;
    let mut output = vec![in rt.alloc(); 8, 103]?;
    let told = tell_positions(&mut added, &mut output)?;
    assert!(rt; told == (10, [(1, [9, 7, 7]), (2, [4, 9, 7])]));
    assert!(rt; (added.as_slice(), output.as_slice()) == (ADDED.as_slice(), FOUR_NINE.as_slice()));
    Ok(())
}

static TWO_TEN: [DocId; 2] = [2, 10];

#[test]
fn documents_are_common(rt: HostRuntime) -> Result<(), Fail> {
    let mut below = Below { next: 1, end: 12 };
    let common = intersect(rt.alloc(), &mut three(), &mut below)?;
    assert!(rt; common.as_slice() == TWO_TEN.as_slice());
    Ok(())
}

static DELETED: [DocId; 3] = [10, 4, 10];

static ALL_DELETED: [DocId; 12] = [0, 1, 2, 3, 4, 5, 6, 7, 8, 9, 10, 11];

// Counts alive documents with a set that has deletions, with one of no alive documents, and with one that has
// no deletions.
#[test]
fn living_documents_are_counted(rt: HostRuntime) -> Result<(), Fail> {
    let alive = AliveBitSet::from_deleted_docs(rt.alloc(), &DELETED, 12)?;
    let mut cursor = three();
    let two = [alive.is_alive(0), alive.is_alive(10)];
    let some = (two, cursor.count(&alive), cursor.doc());
    assert!(rt; some == ([true, false], 2, TERMINATED));
    let none_alive = AliveBitSet::from_deleted_docs(rt.alloc(), &ALL_DELETED, 12)?;
    assert!(rt; three().count(&none_alive) == 0);
    let all = three().count(&AliveBitSet::full(rt.alloc(), 11)?);
    assert!(rt; all == 3);
    Ok(())
}
