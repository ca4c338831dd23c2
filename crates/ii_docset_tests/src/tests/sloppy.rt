use super::list_postings::{ListPostings, Place};
use super::three;
use ii_base::Fault;
use ii_docset::{DocId, DocSet, TERMINATED};
use ii_query::{PhrasePart, SloppyPhraseMatch, count_starts};
use std::alloc::Global;

// `old wide sea` and `sea old`.
static OLD: [Place; 2] = [
    Place {
        doc: 0,
        positions: &[0],
    },
    Place {
        doc: 1,
        positions: &[1],
    },
];

static SEA: [Place; 2] = [
    Place {
        doc: 0,
        positions: &[2],
    },
    Place {
        doc: 1,
        positions: &[0],
    },
];

fn old() -> ListPostings {
    ListPostings::new(&OLD)
}

fn sea() -> ListPostings {
    ListPostings::new(&SEA)
}

// `a x b y c`
static A: [Place; 1] = [Place {
    doc: 0,
    positions: &[0],
}];

static B: [Place; 1] = [Place {
    doc: 0,
    positions: &[2],
}];

static C: [Place; 1] = [Place {
    doc: 0,
    positions: &[4],
}];

// Two terms of which a window of the first positions, of the middle ones and of the last ones is the narrowest.
static LEADING: [Place; 3] = [
    Place {
        doc: 3,
        positions: &[5, 40, 90],
    },
    Place {
        doc: 7,
        positions: &[5, 40, 90],
    },
    Place {
        doc: 9,
        positions: &[5, 40, 90],
    },
];

static FOLLOWING: [Place; 3] = [
    Place {
        doc: 3,
        positions: &[8, 60, 61],
    },
    Place {
        doc: 7,
        positions: &[20, 39, 70],
    },
    Place {
        doc: 9,
        positions: &[0, 20, 95],
    },
];

fn leading() -> ListPostings {
    ListPostings::new(&LEADING)
}

fn following() -> ListPostings {
    ListPostings::new(&FOLLOWING)
}

// Returns the documents where `other` occurs within `slop` of `distance` positions after `first`.
fn near(
    alloc: Global,
    first: ListPostings,
    other: ListPostings,
    distance: u32,
    slop: u32,
) -> Result<[DocId; 4], Fault> {
    let mut others = Vec::new(alloc);
    others.push(PhrasePart::new(distance, other))?;
    let mut found = SloppyPhraseMatch::new(first, others, slop);
    let first = found.doc();
    let second = found.advance();
    let third = found.advance();
    Ok([first, second, third, found.advance()])
}

// Whether `old sea` is found in `old wide sea` and `sea old`: an exchange of two words costs 2.
#[test]
fn words_are_near(rt: HostRuntime) {
    let (alloc, end) = (rt.alloc(), TERMINATED);
    let found = [
        near(alloc, old(), sea(), 1, 0),
        near(alloc, old(), sea(), 1, 1),
        near(alloc, old(), sea(), 1, 2),
        near(alloc, sea(), old(), 1, 0),
        near(alloc, sea(), old(), 1, 2),
        near(alloc, sea(), old(), 1, 3),
    ];
    assert!(rt;
        found
            == [
                Ok([end; 4]),
                Ok([0, end, end, end]),
                Ok([0, 1, end, end]),
                Ok([1, end, end, end]),
                Ok([1, end, end, end]),
                Ok([0, 1, end, end])
            ]
    );
}

// The first positions need a slop of 2 in document 3, the middle ones of 2 in document 7, and the last ones of
// 4 in document 9. The greatest distance and the greatest slop don't overflow.
#[test]
fn each_window_is_tried(rt: HostRuntime) {
    let (alloc, end) = (rt.alloc(), TERMINATED);
    let found = [
        near(alloc, leading(), following(), 1, 1),
        near(alloc, leading(), following(), 1, 2),
        near(alloc, leading(), following(), 1, 3),
        near(alloc, leading(), following(), 1, 4),
        near(alloc, three(), three(), u32::MAX, u32::MAX - 1),
        near(alloc, three(), three(), u32::MAX, u32::MAX),
    ];
    assert!(rt;
        found
            == [
                Ok([end; 4]),
                Ok([3, 7, end, end]),
                Ok([3, 7, end, end]),
                Ok([3, 7, 9, end]),
                Ok([10, end, end, end]),
                Ok([0, 2, 10, end])
            ]
    );
}

// Returns the first document of `a b c` within a slop, and the document after a seek to 1.
fn three_words(alloc: Global, slop: u32) -> Result<(DocId, DocId), Fault> {
    let mut others = Vec::new(alloc);
    others.push(PhrasePart::new(1, ListPostings::new(&B)))?;
    others.push(PhrasePart::new(2, ListPostings::new(&C)))?;
    let mut found = SloppyPhraseMatch::new(ListPostings::new(&A), others, slop);
    let first = found.doc();
    Ok((first, found.seek(TERMINATED)))
}

#[test]
fn a_slop_is_shared_by_all_words(rt: HostRuntime) {
    let (alloc, end) = (rt.alloc(), TERMINATED);
    let found = [
        three_words(alloc, 0),
        three_words(alloc, 1),
        three_words(alloc, 2),
    ];
    assert!(rt; found == [Ok((end, end)), Ok((end, end)), Ok((0, end))]);
}

// Returns how many positions of the leading term in a document have the other one next to them within a slop.
fn starts_in(alloc: Global, doc: DocId, slop: u32) -> Result<u32, Fault> {
    let mut first = leading();
    if doc >= TERMINATED || first.doc() > doc || first.seek(doc) != doc {
        return Ok(0);
    }
    let mut first = PhrasePart::new(0, first);
    let mut others = Vec::new(alloc);
    others.push(PhrasePart::new(1, following()))?;
    Ok(count_starts(&mut first, &mut others, slop))
}

fn starts(alloc: Global, slop: u32) -> Result<[u32; 3], Fault> {
    let third = starts_in(alloc, 3, slop)?;
    let seventh = starts_in(alloc, 7, slop)?;
    Ok([third, seventh, starts_in(alloc, 9, slop)?])
}

// The distances of the positions 5, 40 and 90 from the nearest one of the other term, moved back by 1, are 2, 19
// and 30 in document 3, 14, 2 and 21 in document 7, and 6, 21 and 4 in document 9.
#[test]
fn starts_are_counted(rt: HostRuntime) {
    let alloc = rt.alloc();
    let few = [starts(alloc, 0), starts(alloc, 2), starts(alloc, 5)];
    let more = [starts(alloc, 6), starts(alloc, 19), starts(alloc, 21)];
    assert!(rt; few == [Ok([0, 0, 0]), Ok([1, 1, 0]), Ok([1, 1, 1])]);
    assert!(rt; more == [Ok([1, 1, 2]), Ok([2, 2, 2]), Ok([2, 3, 3])]);
    assert!(rt; starts(alloc, u32::MAX) == Ok([3, 3, 3]));
}

// Returns how often `a b c` begins in `a x b y c` within a slop.
fn three_starts(alloc: Global, slop: u32) -> Result<u32, Fault> {
    let first = ListPostings::new(&A);
    if first.doc() == TERMINATED {
        return Ok(0);
    }
    let mut first = PhrasePart::new(0, first);
    let mut others = Vec::new(alloc);
    others.push(PhrasePart::new(1, ListPostings::new(&B)))?;
    others.push(PhrasePart::new(2, ListPostings::new(&C)))?;
    Ok(count_starts(&mut first, &mut others, slop))
}

#[test]
fn starts_share_a_slop(rt: HostRuntime) {
    let alloc = rt.alloc();
    let counts = [three_starts(alloc, 1), three_starts(alloc, 2)];
    assert!(rt; counts == [Ok(0), Ok(1)]);
}
