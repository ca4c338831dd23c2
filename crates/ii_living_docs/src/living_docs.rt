ghost use Rattle.std.specs.Prelude.{◌≡◌, ◌≤◌, ℕ, length};
ghost use Rattle.ii_base.specs.declared.doc_id.TheConstants.{TERMINATED};
ghost use Rattle.ii_living_docs.specs.LivingDocs.{AreNumbered, IsAtLiving, IsDocumentOf};
ghost use Rattle.ii_segments.specs.Segments.{living_entries};

use ii_alive::AliveBits;
use ii_docset::{DocId, DocSet, Postings, TERMINATED};
use std::marker::Model;

/// A cursor over the living documents of a segment, in ascending order. The number of a document is `base`
/// plus the number of living documents before it.
#[derive(Drop)]
pub struct LivingDocs<'a, D: DocSet> {
    inner: D,
    alive: &'a AliveBits,
    base: DocId,
}

impl<'a, D: DocSet> Model for LivingDocs<'a, D> {
    ghost use Rattle.ii_living_docs.specs.LivingDocs.{AreNumbered, IsAtLiving, LivingParts};

    ghost Value = { LivingParts D };

    ghost view = { λ s. record { inner = s.inner; alive = s.alive.now; base = s.base } };

    ghost invariant = { λ s. AreNumbered s.base s.alive.now × IsAtLiving s.alive.now (D.rest s.inner) };
}

impl<'a, D: DocSet> LivingDocs<'a, D> {
    /// Returns a cursor over the remaining documents of `inner` that are alive. `base` plus the number of
    /// living documents, and the number of documents, must be at most `TERMINATED`. Documents of `inner` that
    /// the flags don't cover are not alive.
    pub fn new(inner: D, alive: &'a AliveBits, base: DocId) -> LivingDocs<'a, D>
        requires { AreNumbered base alive.now }
        ensures rest { living_entries result.base result.alive (D.rest result.inner) ≡ living_entries base alive.entry.now (D.rest inner) }
        ensures alive { result.alive ≡ alive.entry.now }
        ensures base { result.base ≡ base }
        ensures work { D.went inner result.inner }
    {
        let mut inner = inner;
        pass(&mut inner, alive);
        LivingDocs { inner, alive, base }
    }
}

// Moves to the next living document, which may be the current one, or to the first document that the flags
// don't cover.
fn pass<D: DocSet>(inner: &mut D, alive: &AliveBits)
    requires short { length alive.now ≤ TERMINATED }
    ensures at { IsAtLiving alive.now (D.rest inner.new) }
    ensures rest { (base : ℕ) → living_entries base alive.now (D.rest inner.new) ≡ living_entries base alive.now (D.rest inner.old) }
    ensures kind { D.always_one inner.new ≡ D.always_one inner.old }
    ensures work { D.went inner.old inner.new }
{
    let mut doc = inner.doc();
    while doc < TERMINATED {
        if doc >= alive.num_docs() || alive.is_alive(doc) {
            return;
        }
        doc = inner.advance();
    }
}

// Returns the document before which `number` documents are alive, or the number of documents if fewer are.
fn document_of(alive: &AliveBits, number: u32) -> DocId
    ensures { IsDocumentOf alive.now number result }
{
    if number < alive.num_living() {
        alive.select(number)
    } else {
        alive.num_docs()
    }
}

impl<'a, D: DocSet> DocSet for LivingDocs<'a, D> {
    ghost use Rattle.ii_segments.specs.Segments.{living_entries};

    ghost rest = { λ s. living_entries s.base s.alive (D.rest s.inner) };

    ghost always_one = { λ s. D.always_one s.inner };

    ghost hints = { λ s n. D.hints s.inner n };

    ghost went = { λ a b. D.went a.inner b.inner };

    ghost went_nowhere = { λ s. D.went_nowhere s.inner };

    ghost went_on = { λ a b c first second. D.went_on a.inner b.inner c.inner first second };

    fn advance(&mut self) -> DocId {
        if self.inner.doc() >= self.alive.num_docs() {
            return TERMINATED;
        }
        self.inner.advance();
        pass(&mut self.inner, self.alive);
        self.doc()
    }

    fn doc(&self) -> DocId {
        let doc = self.inner.doc();
        if doc < self.alive.num_docs() {
            self.base + self.alive.rank(doc)
        } else {
            TERMINATED
        }
    }

    fn seek(&mut self, target: DocId) -> DocId {
        let doc = self.doc();
        if doc >= target {
            return doc;
        }
        let document = document_of(self.alive, target - self.base);
        self.inner.seek(document);
        pass(&mut self.inner, self.alive);
        self.doc()
    }

    fn size_hint(&self) -> u32 {
        self.inner.size_hint()
    }

    fn cost(&self) -> u64 {
        self.inner.cost()
    }
}

impl<'a, D: Postings> Postings for LivingDocs<'a, D> {
    ghost spent = { λ asked counts a b. D.spent asked counts a.inner b.inner };

    ghost spent_moving = { λ a b moved. D.spent_moving a.inner b.inner moved };

    ghost spent_more = { λ k m l n a b few low did. D.spent_more k m l n a.inner b.inner few low did };

    ghost spent_on = { λ k m l n a b c first second. D.spent_on k m l n a.inner b.inner c.inner first second };

    fn term_freq(&self) -> u32 {
        self.inner.term_freq()
    }

    fn read_positions(&mut self, from: usize, before: u32, output: &mut [u32]) -> usize {
        self.inner.read_positions(from, before, output)
    }
}
