use super::list_postings::{ListPostings, Place};
use super::{Below, three};
use ii_base::Fault;
use ii_docset::{DocId, DocSet, SeekDangerResult, TERMINATED};
use ii_query::{Exclude, Intersection, PhraseMatch, PhrasePart, Union};
use std::alloc::Global;

// Returns four documents of a cursor, starting at the current one.
fn next_four<D: DocSet>(cursor: &mut D) -> [DocId; 4] {
    let first = cursor.doc();
    let second = cursor.advance();
    let third = cursor.advance();
    [first, second, third, cursor.advance()]
}

#[test]
fn cursors_are_combined(rt: HostRuntime) {
    let (below_4, below_12) = (Below { next: 1, end: 4 }, Below { next: 1, end: 12 });
    let common = next_four(&mut Intersection::new(three(), below_12));
    let without = next_four(&mut Exclude::new(three(), below_4));
    assert!(rt; common == [2, 10, TERMINATED, TERMINATED]);
    assert!(rt; without == [0, 10, TERMINATED, TERMINATED]);
    let either = next_four(&mut Union::new(three(), Below { next: 1, end: 4 }));
    assert!(rt; either == [0, 1, 2, 3]);
    let first = Union::new(three(), Below { next: 1, end: 4 });
    let of_three = next_four(&mut Intersection::new(first, Below { next: 3, end: 11 }));
    assert!(rt; of_three == [3, 10, TERMINATED, TERMINATED]);
}

// Calls `seek_danger` for two documents. Returns the answers and the current document.
fn asked<D: DocSet>(cursor: &mut D, docs: [DocId; 2]) -> ([SeekDangerResult; 2], DocId) {
    let mut answers = [SeekDangerResult::Found; 2];
    for k in 0..2 {
        let doc = docs[k];
        if doc <= TERMINATED {
            answers[k] = cursor.seek_danger(doc);
        }
    }
    (answers, cursor.doc())
}

#[test]
fn cursors_are_asked(rt: HostRuntime) {
    let (found, ten) = (
        SeekDangerResult::Found,
        SeekDangerResult::SeekLowerBound(10),
    );
    let none = SeekDangerResult::SeekLowerBound(TERMINATED);
    let two = SeekDangerResult::SeekLowerBound(2);
    let mut plain = three();
    assert!(rt; asked(&mut plain, [1, 2]) == ([two, found], 2));
    assert!(rt; asked(&mut plain, [TERMINATED, TERMINATED]) == ([none; 2], 2));
    let mut either = Union::new(three(), Below { next: 1, end: 4 });
    assert!(rt; asked(&mut either, [3, 4]).0 == [found, ten]);
    let mut both = Intersection::new(three(), Below { next: 1, end: 4 });
    assert!(rt; asked(&mut both, [3, 3]).0 == [none; 2]);
    let mut without = Exclude::new(three(), Below { next: 1, end: 4 });
    assert!(rt; asked(&mut without, [1, 1]).0 == [ten; 2]);
}

// Documents 0, 2 and 10 with the positions of another term.
static OTHER_PLACES: [Place; 3] = [
    Place {
        doc: 0,
        positions: &[3],
    },
    Place {
        doc: 2,
        positions: &[2],
    },
    Place {
        doc: 10,
        positions: &[6, 10],
    },
];

fn other() -> ListPostings {
    ListPostings::new(&OTHER_PLACES)
}

// Returns the documents where `other` occurs `distance` positions after `first`.
fn phrase(
    alloc: Global,
    first: ListPostings,
    other: ListPostings,
    distance: u32,
) -> Result<[DocId; 4], Fault> {
    let mut others = Vec::new(alloc);
    others.push(PhrasePart::new(distance, other))?;
    Ok(next_four(&mut PhraseMatch::new(first, others)))
}

#[test]
fn phrases_are_found(rt: HostRuntime) {
    let (alloc, end) = (rt.alloc(), TERMINATED);
    let found = [
        phrase(alloc, three(), other(), 1),
        phrase(alloc, other(), three(), 1),
        phrase(alloc, three(), other(), 0),
        phrase(alloc, three(), other(), 2),
        phrase(alloc, three(), three(), u32::MAX),
    ];
    assert!(rt;
        found
            == [
                Ok([2, 10, end, end]),
                Ok([end; 4]),
                Ok([0, end, end, end]),
                Ok([10, end, end, end]),
                Ok([end; 4])
            ]
    );
}
