ghost use Rattle.std.specs.Prelude.{◌≡◌, ◌≤◌, min};
ghost use Rattle.ii_base.specs.declared.doc_id.TheConstants.{TERMINATED};

use ii_docset::{DocId, DocSet, TERMINATED};

/// A cursor over all documents below a number.
#[derive(Drop)]
pub struct AllDocs {
    next: DocId,
    end: DocId,
    ghost up_to: { end ≤ TERMINATED },
}

impl AllDocs {
    /// Returns a cursor over all documents below `num_docs`. No document is `TERMINATED` or above.
    pub fn new(num_docs: DocId) -> AllDocs
        ensures next { result.next ≡ 0 }
        ensures end { result.end ≡ min num_docs TERMINATED }
    {
        AllDocs {
            next: 0,
            end: num_docs.min(TERMINATED),
        }
    }
}

impl DocSet for AllDocs {
    ghost use Rattle.std.specs.Prelude.{◌≡◌, ◌-◌};
    ghost use Rattle.ii_query.specs.Combined.{all_from};

    ghost rest = { λ s. all_from s.next (s.end - s.next) };

    ghost hints = { λ s n. n ≡ s.end - s.next };

    ghost went_nowhere = { λ s. tt };

    ghost went_on = { λ a b c first second. tt };

    fn advance(&mut self) -> DocId {
        if self.next < self.end {
            self.next += 1;
        }
        self.doc()
    }

    fn doc(&self) -> DocId {
        if self.next < self.end {
            self.next
        } else {
            TERMINATED
        }
    }

    fn size_hint(&self) -> u32 {
        self.end.saturating_sub(self.next)
    }

    fn seek(&mut self, target: DocId) -> DocId {
        if self.next < target {
            self.next = target;
        }
        self.doc()
    }
}
