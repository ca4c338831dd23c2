ghost use Rattle.std.specs.Prelude.{◌≡◌};
ghost use Rattle.ii_docset.specs.Cursor.{doc_at, IsSound};
ghost use Rattle.ii_query.specs.Combined.{IsAtFirst, Parts, common};

use ii_docset::{DocId, DocSet, SeekDangerResult, TERMINATED};
use std::marker::Model;

/// A cursor over the remaining documents that two cursors share, in ascending order. The first cursor leads,
/// so pass the one over fewer documents first.
#[derive(Drop)]
pub struct Intersection<A: DocSet, B: DocSet> {
    first: A,
    other: B,
}

impl<A: DocSet, B: DocSet> Model for Intersection<A, B> {
    ghost use Rattle.ii_query.specs.Combined.{IsAtFirst, Parts, common};

    ghost Value = { Parts A B };

    ghost view = { λ s. record { first = s.first; other = s.other } };

    ghost invariant = { λ s. IsAtFirst (A.rest s.first) (common (A.rest s.first) (B.rest s.other)) };
}

impl<A: DocSet, B: DocSet> Intersection<A, B> {
    /// Returns a cursor over the documents that both cursors have.
    pub fn new(first: A, other: B) -> Intersection<A, B>
        ensures rest { common (A.rest result.first) (B.rest result.other) ≡ common (A.rest first) (B.rest other) }
        ensures first_work { A.went first result.first }
        ensures other_work { B.went other result.other }
    {
        let mut first = first;
        let mut other = other;
        meet(&mut first, &mut other);
        Intersection { first, other }
    }
}

// Moves to the next document that both cursors have, which may be the current one.
fn meet<A: DocSet, B: DocSet>(first: &mut A, other: &mut B) -> DocId
    ensures doc { result ≡ doc_at (A.rest first.new) }
    ensures at { IsAtFirst (A.rest first.new) (common (A.rest first.new) (B.rest other.new)) }
    ensures rest { common (A.rest first.new) (B.rest other.new) ≡ common (A.rest first.old) (B.rest other.old) }
    ensures first_work { A.went first.old first.new }
    ensures other_work { B.went other.old other.new }
{
    let mut doc = first.doc();
    while doc < TERMINATED {
        match other.seek_danger(doc) {
            SeekDangerResult::Found => return doc,
            SeekDangerResult::SeekLowerBound(bound) => doc = first.seek(bound),
        }
    }
    doc
}

impl<A: DocSet, B: DocSet> DocSet for Intersection<A, B> {
    ghost use Rattle.ii_query.specs.Combined.{common};

    ghost rest = { λ s. common (A.rest s.first) (B.rest s.other) };

    ghost hints = { λ s n. A.hints s.first n };

    ghost went = { λ a b. A.went a.first b.first × B.went a.other b.other };

    ghost went_nowhere = { λ s. (A.went_nowhere s.first, B.went_nowhere s.other) };

    ghost went_on = { λ a b c first second. (A.went_on a.first b.first c.first first.0 second.0, B.went_on a.other b.other c.other first.1 second.1) };

    fn advance(&mut self) -> DocId {
        self.first.advance();
        meet(&mut self.first, &mut self.other)
    }

    fn doc(&self) -> DocId {
        self.first.doc()
    }

    fn size_hint(&self) -> u32 {
        self.first.size_hint()
    }

    fn seek(&mut self, target: DocId) -> DocId {
        self.first.seek(target);
        meet(&mut self.first, &mut self.other)
    }

    fn cost(&self) -> u64 {
        self.first.cost()
    }
}
