ghost use Rattle.std.specs.Prelude.{◌≡◌, ◌<◌, ◌≤◌, ◌⊎◌, ℕ, [], false};
ghost use Rattle.ii_base.specs.declared.doc_id.TheConstants.{TERMINATED};
ghost use Rattle.ii_scorer.specs.BlockLists.{ReadsOnly};
ghost use Rattle.ii_scorer.specs.Scorers.{IsBoundUntil, IsBounded, IsNext, KeepsFrom, MayScore, ScorerState, doc_bound, if_at_least, score_of};

use ii_base::{DocId, TERMINATED};
use ii_bm25::Score;

/// A score that no document of a run exceeds, and the document that ends the run and isn't one of it.
#[derive(Clone, Copy)]
pub struct ScoreBound {
    pub most: Score,
    pub end: DocId,
}

/// Gives the scores of documents, which are asked for in ascending order.
///
/// Its model is what each document scores that wasn't passed, a score that none exceeds, a bound of each document, and the
/// lists that it reads.
pub trait Scorer: Drop {
    ghost state: { Self → ScorerState };

    /// Returns a score that no document exceeds.
    fn max_score(&self) -> Score
        ensures most { result ≡ (state self.now).most }
        ensures bounded { IsBounded (state self.now) };

    /// Returns a document from `target` on, such that those before it score less than `least`; or `TERMINATED`, if
    /// all from `target` on do. Passes at most the documents below `target`, and decodes at most the block of a list that
    /// has the first document from `target` on. The target must be at most `TERMINATED`.
    fn seek_with_score(&mut self, target: DocId, least: Score) -> DocId
        requires { target ≤ TERMINATED }
        ensures next { IsNext target least (score_of (state self.old)) result }
        ensures kept { KeepsFrom target (state self.old) (state self.new) }
        ensures work { ReadsOnly (λ from. from ≡ target) (state self.old).lists (state self.new).lists };

    /// Returns such a document as `seek_with_score` does, and may pass those before it, since they score less than
    /// `least`. Decodes blocks only for documents whose bound reaches `least`; so does that of the document that it
    /// returns, if there are lists. The target must be at most `TERMINATED`.
    fn skip_to_score(&mut self, target: DocId, least: Score) -> DocId
        requires { target ≤ TERMINATED }
        ensures next { IsNext target least (score_of (state self.old)) result }
        ensures kept { KeepsFrom result (state self.old) (state self.new) }
        ensures reached { result < TERMINATED → ((state self.old).lists ≡ []) ⊎ (least ≤ doc_bound (state self.old) result) }
        ensures work { ReadsOnly (MayScore target least result (doc_bound (state self.old))) (state self.old).lists (state self.new).lists };

    /// Returns a score that no document from `target` on exceeds, up to the end that comes with it; nor does it exceed the
    /// bounds of these documents. Passes at most the documents below `target`, which must be below `TERMINATED`, and
    /// decodes nothing.
    fn max_score_until(&mut self, target: DocId) -> ScoreBound
        requires { target < TERMINATED }
        ensures bound { IsBoundUntil target (score_of (state self.old)) result }
        ensures kept { KeepsFrom target (state self.old) (state self.new) }
        ensures within { (doc : ℕ) → target ≤ doc → doc < result.end → result.most ≤ doc_bound (state self.old) doc }
        ensures work { ReadsOnly (λ _. ⊥) (state self.old).lists (state self.new).lists };

    /// Returns whether `max_score_until` may give runs that end before `TERMINATED`, so that it pays to ask for them. If
    /// it doesn't, there are no lists.
    fn has_runs(&self) -> bool
        ensures lists { result ≡ false → (state self.now).lists ≡ [] };

    /// Returns what a document scores, if that is at least `least`. Passes at most the documents below it, and decodes at
    /// most the block of a list that has the first document from it on.
    fn score_at(&mut self, doc: DocId, least: Score) -> Option<Score>
        requires { doc < TERMINATED }
        ensures score { result ≡ if_at_least least (score_of (state self.old) doc) }
        ensures kept { KeepsFrom doc (state self.old) (state self.new) }
        ensures work { ReadsOnly (λ from. from ≡ doc) (state self.old).lists (state self.new).lists };
}
