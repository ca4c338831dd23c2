ghost use Rattle.std.specs.Prelude.{◌≡◌, ◌≤◌, ◌<◌, ◌++◌, ℕ, Bool, false, ⊤, List, [], drop, length, take, min};
ghost use Rattle.ii_base.specs.Entries.{Entry, docs_of};
ghost use Rattle.ii_docset.specs.Cursor.{doc_at, from_doc, IsDangerAnswer, IsSound, IsTarget};
ghost use Rattle.ii_docset.specs.Alive.{IsCovered, alive_in};

use ii_base::{AliveBitSet, DocId, TERMINATED};

/// The maximum number of documents that `DocSet::fill_buffer` writes.
pub const COLLECT_BLOCK_BUFFER_LEN: usize = 64;

/// The result of `DocSet::seek_danger`.
#[derive(Clone, Copy, Debug, PartialEq, Eq)]
pub enum SeekDangerResult {
    /// The target is the current document.
    Found,
    /// The target isn't a document of the list. Holds the first greater document, or `TERMINATED`.
    SeekLowerBound(DocId),
}

/// A cursor over a list of documents, in strictly ascending order.
///
/// Its model is the list of the remaining documents with their entries, the current one first.
#[tactic(auto, using(crate::proofs::CursorLemmas::cursor_steps))]
pub trait DocSet: Drop {
    ghost rest: { Self → List Entry };

    // Whether term frequencies aren't read, so that each is 1, also at the end.
    ghost always_one: { Self → Bool } = { λ _. false };

    // A bound on what was decoded by calls that moved the cursor from one state to another. It is reflexive
    // and transitive, by the laws below.
    ghost went: { Self → Self → Type 0 } = { λ _ _. ⊤ };

    // The possible results of `size_hint` and `cost`.
    ghost hints: { Self → ℕ → Type 0 } = { λ _ _. ⊤ };

    /// Advances to the next document, and returns it, or `TERMINATED` after the last.
    fn advance(&mut self) -> DocId
        ensures doc { result ≡ doc_at (rest self.new) }
        ensures rest { rest self.new ≡ drop 1 (rest self.old) }
        ensures sound { IsSound (rest self.new) }
        ensures kind { always_one self.new ≡ always_one self.old }
        ensures work { went self.old self.new };

    /// Returns the current document, or `TERMINATED` after the last.
    fn doc(&self) -> DocId
        ensures doc { result ≡ doc_at (rest self.now) }
        ensures sound { IsSound (rest self.now) };

    /// Returns an estimate of the number of documents: at least the number of remaining ones.
    fn size_hint(&self) -> u32
        ensures hint { hints self.now result }
        ensures enough { length (rest self.now) ≤ result };

    /// Advances to the first document that is at least `target`, and returns it, or `TERMINATED`. The
    /// target must be at most `TERMINATED`, and at least the current document, if there is one.
    fn seek(&mut self, target: DocId) -> DocId
        requires { IsTarget target (rest self.old) }
        ensures doc { result ≡ doc_at (rest self.new) }
        ensures rest { rest self.new ≡ from_doc target (rest self.old) }
        ensures sound { IsSound (rest self.new) }
        ensures kind { always_one self.new ≡ always_one self.old }
        ensures work { went self.old self.new }
    {
        let mut doc = self.doc();
        while doc < target {
            doc = self.advance();
        }
        doc
    }

    /// Drops the documents less than `target`, and returns whether `target` is the first remaining one. If
    /// not, returns the first remaining one, or `TERMINATED`. The target may be less than the current
    /// document. At `TERMINATED`, it returns `TERMINATED` and drops nothing.
    fn seek_danger(&mut self, target: DocId) -> SeekDangerResult
        requires { target ≤ TERMINATED }
        ensures answer { IsDangerAnswer result target (rest self.new) }
        ensures rest { target < TERMINATED → rest self.new ≡ from_doc target (rest self.old) }
        ensures at_end { target ≡ TERMINATED → rest self.new ≡ rest self.old }
        ensures sound { target < TERMINATED → IsSound (rest self.new) }
        ensures kind { always_one self.new ≡ always_one self.old }
        ensures work { went self.old self.new }
    {
        if target >= TERMINATED {
            return SeekDangerResult::SeekLowerBound(target);
        }
        let mut doc = self.doc();
        if doc < target {
            doc = self.seek(target);
        }
        if doc == target {
            SeekDangerResult::Found
        } else {
            SeekDangerResult::SeekLowerBound(doc)
        }
    }

    /// Copies up to 64 remaining documents to the start of `buffer`, drops them, and returns how many. The
    /// entries after them are unchanged.
    fn fill_buffer(&mut self, buffer: &mut [DocId; COLLECT_BLOCK_BUFFER_LEN]) -> usize
        ensures count { result ≡ min COLLECT_BLOCK_BUFFER_LEN (length (rest self.old)) }
        ensures filled { buffer.new ≡ docs_of (take COLLECT_BLOCK_BUFFER_LEN (rest self.old)) ++ drop (length (rest self.old)) buffer.old }
        ensures rest { rest self.new ≡ drop COLLECT_BLOCK_BUFFER_LEN (rest self.old) }
        ensures sound { IsSound (rest self.new) }
        ensures kind { always_one self.new ≡ always_one self.old }
        ensures work { went self.old self.new }
    {
        if self.doc() == TERMINATED {
            return 0;
        }
        for (i, place) in buffer.iter_mut().enumerate() {
            *place = self.doc();
            if self.advance() == TERMINATED {
                return i + 1;
            }
        }
        buffer.len()
    }

    /// Returns an estimate of the cost of iterating over all documents: at least the number of remaining ones.
    fn cost(&self) -> u64
        ensures hint { hints self.now result }
        ensures enough { length (rest self.now) ≤ result }
    {
        u64::from(self.size_hint())
    }

    /// Counts the remaining documents that are alive, and drops all. The set must cover each of them.
    fn count(&mut self, alive_bitset: &AliveBitSet) -> u32
        requires { IsCovered alive_bitset.now (rest self.old) }
        ensures count { result ≡ alive_in alive_bitset.now (rest self.old) }
        ensures rest { rest self.new ≡ [] }
        ensures kind { always_one self.new ≡ always_one self.old }
        ensures work { went self.old self.new }
    {
        let mut count = 0;
        let mut doc = self.doc();
        while doc != TERMINATED {
            count += u32::from(alive_bitset.is_alive(doc));
            doc = self.advance();
        }
        count
    }

    /// Counts the remaining documents, and drops them.
    fn count_including_deleted(&mut self) -> u32
        ensures count { result ≡ length (rest self.old) }
        ensures rest { rest self.new ≡ [] }
        ensures kind { always_one self.new ≡ always_one self.old }
        ensures work { went self.old self.new }
    {
        let mut count = 0;
        let mut doc = self.doc();
        while doc != TERMINATED {
            count += 1;
            doc = self.advance();
        }
        count
    }

    ghost went_nowhere: { (s : Self) → went s s };

    ghost went_on: { (a b c : Self) → went a b → went b c → went a c };
}
