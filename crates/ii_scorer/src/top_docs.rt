//! The best of the documents that match.
ghost use Rattle.std.specs.Prelude.{◌≡◌, ◌+◌, ◌-◌, ◌^◌, [], ℕ, List, IfOk, min};
ghost use Rattle.std.specs.List.{All};
ghost use Rattle.ii_io.specs.Faults.{OnlyMemory};
ghost use Rattle.ii_scorer.specs.TopDocs.{AreBest, AreRanked, Fits, rank_key};
ghost use Rattle.ii_scorer.specs.TopNComputer.{KeepsBest};

use crate::top_n_computer::TopNComputer;
use ii_base::{DocId, Fault};
use ii_bm25::Score;
use std::alloc::Global;

/// How many of the best documents a search returns, and how many better ones it passes.
#[derive(Clone, Copy, Debug)]
pub struct TopDocs {
    pub limit: usize,
    pub offset: usize,
}

impl TopDocs {
    /// Returns the best documents, at most so many.
    pub fn with_limit(limit: usize) -> TopDocs
        ensures { result ≡ record { limit = limit; offset = 0 } }
    {
        TopDocs { limit, offset: 0 }
    }

    /// Returns as many documents, without so many of the best.
    pub fn and_offset(self, offset: usize) -> TopDocs
        ensures { result ≡ record self { offset = offset } }
    {
        TopDocs {
            limit: self.limit,
            offset,
        }
    }

    /// Returns what keeps as many of the best documents as are returned and passed.
    pub fn computer(&self, alloc: Global) -> TopNComputer
        ensures wanted { result.top_n ≡ min (2 ^ 64 - 1) (self.now.offset + self.now.limit) }
        ensures none { KeepsBest [] result }
    {
        TopNComputer::new(alloc, self.offset.saturating_add(self.limit))
    }

    /// Returns the best of the documents of which the best were kept, each with its score: the greatest score first, and
    /// of equal ones the smaller document. Fails only with `OutOfMemory`.
    pub fn best_of(&self, computer: TopNComputer) -> Result<Vec<(Score, DocId)>, Fault>
        requires { computer.top_n ≡ min (2 ^ 64 - 1) (self.now.offset + self.now.limit) }
        ensures best { (scored : List (ℕ × ℕ)) → KeepsBest scored computer → IfOk result (λ best. AreBest self.now scored best.items) }
        ensures only { OnlyMemory result }
    {
        self.best(computer.into_vec())
    }

    // Returns the best of documents, each with its score: the greatest score first, and of equal ones the smaller
    // document.
    fn best(&self, scored: Vec<(Score, DocId)>) -> Result<Vec<(Score, DocId)>, Fault>
        requires { All Fits scored.items }
        ensures best { IfOk result (λ best. AreBest self.now scored.items best.items) }
        ensures only { OnlyMemory result }
    {
        let mut ranked = scored;
        rank(&mut ranked);
        ranked.truncate(self.offset.saturating_add(self.limit));
        let passed = self.offset.min(ranked.len());
        let best = ranked.split_off(passed)?;
        Ok(best)
    }
}

// Ranks documents with their scores, the best first.
pub(crate) fn rank(scored: &mut Vec<(Score, DocId)>)
    requires { All Fits scored.old.items }
    ensures { AreRanked scored.old.items scored.new.items }
{
    scored.sort_unstable_by_key(|pair| rank_key(pair.0, pair.1));
}

// Returns a number that is smaller for a greater score, and for the smaller document of equal ones.
pub(crate) fn rank_key(score: Score, doc: DocId) -> u128
    ensures { result ≡ rank_key (score, doc) }
{
    u128::from(u64::MAX - score) * 4_294_967_296 + u128::from(doc)
}
