use super::list_postings::{ListPostings, Place};
use ii_base::Fault;
use ii_docset::{DocId, DocSet, Lent, TERMINATED};
use ii_query::{PhraseMatch, PhrasePart};
use std::alloc::Global;
use std::test::Fail;

static LONG: [Place; 1] = [Place {
    doc: 0,
    positions: &[3; 1000],
}];

// Opens a cursor over one document with a thousand equal positions.
fn long() -> ListPostings {
    ListPostings::new(&LONG)
}

// Returns the first document where `other` follows `first`.
fn follow(
    alloc: Global,
    first: &mut ListPostings,
    other: &mut ListPostings,
) -> Result<DocId, Fault> {
    let mut others = Vec::new(alloc);
    others.push(PhrasePart::new(1, Lent { inner: other }))?;
    let found = PhraseMatch::new(Lent { inner: first }, others);
    Ok(found.doc())
}

// Each of a thousand positions of both terms is read once, 64 in a call, although no position of the first one
// is followed.
#[test]
fn positions_are_read_once(rt: HostRuntime) -> Result<(), Fail> {
    let mut first = long();
    let mut other = long();
    assert!(rt; follow(rt.alloc(), &mut first, &mut other)? == TERMINATED);
    assert!(rt; (first.reads(), other.reads()) == (16, 16));
    Ok(())
}
