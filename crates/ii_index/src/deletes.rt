//! Deletes of documents that have a term.
ghost use Rattle.std.specs.Prelude.{◌≡◌};
ghost use Rattle.ii_index.specs.Deletes.{limit_in};

use ii_base::Term;
use ii_docset::{DocId, TERMINATED};
use std::marker::Model;

// A delete of the documents that have a term, of those that were added before.
pub(crate) struct Delete {
    term: Term,
    num_pending: DocId,
}

// Makes each drop a call.
impl Drop for Delete {
    fn drop(self) {
        let Delete {
            term: _,
            num_pending: _,
        } = self;
    }
}

impl Model for Delete {
    ghost use Rattle.ii_index.specs.Deletes.{DeleteState};

    ghost Value = { DeleteState };

    ghost view = { λ d. record { term = d.term; num_pending = d.num_pending } };
}

// Which documents a segment has: committed ones, or those that were pending, of which so many are in earlier segments.
#[derive(Clone, Copy, Debug, PartialEq, Eq)]
pub(crate) enum Scope {
    Committed,
    Pending(DocId),
}

impl Delete {
    // Returns a delete of a term, when so many documents were pending.
    pub(crate) fn new(term: Term, num_pending: DocId) -> Delete
        ensures { result ≡ record { term = term; num_pending = num_pending } }
    {
        Delete { term, num_pending }
    }

    // Returns the term.
    pub(crate) fn term(&self) -> &Term
        ensures { result.now ≡ self.now.term }
    {
        &self.term
    }

    // Returns the number below which documents of a segment are deleted.
    pub(crate) fn limit_in(&self, scope: Scope) -> DocId
        ensures { result ≡ limit_in scope self.now }
    {
        match scope {
            Scope::Committed => TERMINATED,
            Scope::Pending(base) => self.num_pending.saturating_sub(base),
        }
    }
}
