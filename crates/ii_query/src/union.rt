ghost use Rattle.std.specs.Prelude.{◌≡◌, ◌≤◌, ◌<◌, ◌+◌};
ghost use Rattle.ii_docset.specs.Cursor.{doc_at, from_doc, IsSound};
ghost use Rattle.ii_query.specs.Combined.{either};

use ii_docset::{DocId, DocSet, TERMINATED};

/// A cursor over the remaining documents of two cursors, each once, in ascending order.
#[derive(Drop)]
pub struct Union<A: DocSet, B: DocSet> {
    first: A,
    other: B,
}

impl<A: DocSet, B: DocSet> Union<A, B> {
    /// Returns a cursor over the documents that at least one of the cursors has.
    pub fn new(first: A, other: B) -> Union<A, B>
        ensures first { result.first ≡ first }
        ensures other { result.other ≡ other }
    {
        Union { first, other }
    }
}

// Returns the lesser of two current documents, or `TERMINATED` if both cursors are at the end.
fn least<A: DocSet, B: DocSet>(first: &A, other: &B) -> DocId
    ensures doc { result ≡ doc_at (either (A.rest first.now) (B.rest other.now)) }
    ensures sound { IsSound (either (A.rest first.now) (B.rest other.now)) }
    ensures first { (result ≤ doc_at (A.rest first.now)) × IsSound (A.rest first.now) }
    ensures other { (result ≤ doc_at (B.rest other.now)) × IsSound (B.rest other.now) }
{
    let one = first.doc();
    let two = other.doc();
    if one <= two { one } else { two }
}

// Drops a document, if it is the current one. No remaining document is below it.
fn pass<A: DocSet>(cursor: &mut A, doc: DocId)
    requires low { doc < TERMINATED }
    requires least { doc ≤ doc_at (A.rest cursor.old) }
    ensures rest { A.rest cursor.new ≡ from_doc (doc + 1) (A.rest cursor.old) }
    ensures work { A.went cursor.old cursor.new }
{
    if cursor.doc() == doc {
        cursor.advance();
    }
}

// Drops the documents below a target, which may be below the current document.
fn go_on<A: DocSet>(cursor: &mut A, target: DocId)
    requires { target ≤ TERMINATED }
    ensures rest { A.rest cursor.new ≡ from_doc target (A.rest cursor.old) }
    ensures work { A.went cursor.old cursor.new }
{
    if cursor.doc() < target {
        cursor.seek(target);
    }
}

impl<A: DocSet, B: DocSet> DocSet for Union<A, B> {
    ghost use Rattle.ii_query.specs.Combined.{either};

    ghost rest = { λ s. either (A.rest s.first) (B.rest s.other) };

    ghost went = { λ a b. A.went a.first b.first × B.went a.other b.other };

    ghost went_nowhere = { λ s. (A.went_nowhere s.first, B.went_nowhere s.other) };

    ghost went_on = { λ a b c first second. (A.went_on a.first b.first c.first first.0 second.0, B.went_on a.other b.other c.other first.1 second.1) };

    fn advance(&mut self) -> DocId {
        let doc = least(&self.first, &self.other);
        if doc >= TERMINATED {
            return doc;
        }
        pass(&mut self.first, doc);
        pass(&mut self.other, doc);
        least(&self.first, &self.other)
    }

    fn doc(&self) -> DocId {
        least(&self.first, &self.other)
    }

    fn size_hint(&self) -> u32 {
        // the invariant that documents ascend, for the proof
        let _doc = self.doc();
        self.first
            .size_hint()
            .saturating_add(self.other.size_hint())
    }

    fn seek(&mut self, target: DocId) -> DocId {
        go_on(&mut self.first, target);
        go_on(&mut self.other, target);
        least(&self.first, &self.other)
    }
}
