ghost use Rattle.std.specs.Prelude.{◌≡◌};
ghost use Rattle.ii_docset.specs.Cursor.{doc_at, IsSound};
ghost use Rattle.ii_query.specs.Combined.{IsAtFirst, Parts, without};

use ii_docset::{DocId, DocSet, SeekDangerResult, TERMINATED};
use std::marker::Model;

/// A cursor over the remaining documents of one cursor that another cursor doesn't have, in ascending order.
#[derive(Drop)]
pub struct Exclude<A: DocSet, B: DocSet> {
    first: A,
    other: B,
}

impl<A: DocSet, B: DocSet> Model for Exclude<A, B> {
    ghost use Rattle.ii_query.specs.Combined.{IsAtFirst, Parts, without};

    ghost Value = { Parts A B };

    ghost view = { λ s. record { first = s.first; other = s.other } };

    ghost invariant = { λ s. IsAtFirst (A.rest s.first) (without (A.rest s.first) (B.rest s.other)) };
}

impl<A: DocSet, B: DocSet> Exclude<A, B> {
    /// Returns a cursor over the documents of `first` that `other` doesn't have.
    pub fn new(first: A, other: B) -> Exclude<A, B>
        ensures rest { without (A.rest result.first) (B.rest result.other) ≡ without (A.rest first) (B.rest other) }
        ensures first_work { A.went first result.first }
        ensures other_work { B.went other result.other }
    {
        let mut first = first;
        let mut other = other;
        pass(&mut first, &mut other);
        Exclude { first, other }
    }
}

// Moves to the next document that the other cursor doesn't have, which may be the current one.
fn pass<A: DocSet, B: DocSet>(first: &mut A, other: &mut B) -> DocId
    ensures doc { result ≡ doc_at (A.rest first.new) }
    ensures at { IsAtFirst (A.rest first.new) (without (A.rest first.new) (B.rest other.new)) }
    ensures rest { without (A.rest first.new) (B.rest other.new) ≡ without (A.rest first.old) (B.rest other.old) }
    ensures first_work { A.went first.old first.new }
    ensures other_work { B.went other.old other.new }
{
    let mut doc = first.doc();
    while doc < TERMINATED {
        match other.seek_danger(doc) {
            SeekDangerResult::Found => doc = first.advance(),
            SeekDangerResult::SeekLowerBound(_) => return doc,
        }
    }
    doc
}

impl<A: DocSet, B: DocSet> DocSet for Exclude<A, B> {
    ghost use Rattle.ii_query.specs.Combined.{without};

    ghost rest = { λ s. without (A.rest s.first) (B.rest s.other) };

    ghost hints = { λ s n. A.hints s.first n };

    ghost went = { λ a b. A.went a.first b.first × B.went a.other b.other };

    ghost went_nowhere = { λ s. (A.went_nowhere s.first, B.went_nowhere s.other) };

    ghost went_on = { λ a b c first second. (A.went_on a.first b.first c.first first.0 second.0, B.went_on a.other b.other c.other first.1 second.1) };

    fn advance(&mut self) -> DocId {
        self.first.advance();
        pass(&mut self.first, &mut self.other)
    }

    fn doc(&self) -> DocId {
        self.first.doc()
    }

    fn size_hint(&self) -> u32 {
        self.first.size_hint()
    }

    fn seek(&mut self, target: DocId) -> DocId {
        self.first.seek(target);
        pass(&mut self.first, &mut self.other)
    }

    fn cost(&self) -> u64 {
        self.first.cost()
    }
}
