//! Keeps the best of documents that come one by one.
ghost use Rattle.std.specs.Prelude.{◌≡◌, ◌≤◌, ◌<◌, ◌^◌, ◌++◌, ◌∷◌, [], ℕ, List, IfSome, MatchOption, OnOk, drop, map};
ghost use Rattle.std.specs.BinaryHeap.{IsHeap, heap_items, heap_len};
ghost use Rattle.std.specs.List.{All};
ghost use Rattle.std.specs.List.Sorted.{IsPermutation};
ghost use Rattle.ii_io.specs.Faults.{OnlyMemory};
ghost use Rattle.ii_scorer.specs.TopDocs.{Fits, rank_key, with_score};
ghost use Rattle.ii_scorer.specs.TopNComputer.{IsTooLow, IsWorst, KeepsBest, MayBePassed, distance_cmp, num_reaching, with_distance};

use crate::top_docs::rank_key;
use ii_base::{DocId, Fault};
use ii_bm25::Score;
use std::alloc::Global;
use std::collections::BinaryHeap;
use std::marker::Model;

/// Keeps the best of documents that are added one by one, at most as many as are wanted. Once so many are kept, a
/// document that comes after the worst of them is passed, and one that comes before it takes its place.
///
/// Its model is how many are wanted, and the documents that it keeps.
pub struct TopNComputer {
    top_n: usize,
    // Each with what its score is below the greatest one, so that the worst document is the greatest of the heap.
    heap: BinaryHeap<(Score, DocId)>,
}

// Makes each drop a call.
impl Drop for TopNComputer {
    fn drop(self) {
        let TopNComputer { top_n: _, heap: _ } = self;
    }
}

impl Model for TopNComputer {
    ghost use Rattle.std.specs.Prelude.{◌≤◌, length, map};
    ghost use Rattle.std.specs.BinaryHeap.{IsHeap, heap_items};
    ghost use Rattle.std.specs.List.{All};
    ghost use Rattle.ii_scorer.specs.TopDocs.{Fits};
    ghost use Rattle.ii_scorer.specs.TopNComputer.{TopNState, distance_cmp, with_distance};

    ghost Value = { TopNState };

    ghost view = { λ s. record { top_n = s.top_n; kept = map with_distance (heap_items s.heap) } };

    ghost invariant = { λ s. All Fits (heap_items s.heap) × IsHeap distance_cmp (heap_items s.heap) × (length (heap_items s.heap) ≤ s.top_n) };
}

impl TopNComputer {
    /// Returns one without documents, of which so many are wanted.
    pub fn new(alloc: Global, top_n: usize) -> TopNComputer
        ensures { result ≡ record { top_n = top_n; kept = [] } }
    {
        TopNComputer {
            top_n,
            heap: BinaryHeap::new(alloc),
        }
    }

    /// Adds a document with its score. Fails only with `OutOfMemory`.
    pub fn push(&mut self, score: Score, doc: DocId) -> Result<(), Fault>
        ensures kept { (scored : List (ℕ × ℕ)) → KeepsBest scored self.old → OnOk result (KeepsBest (scored ++ (score, doc) ∷ []) self.new) }
        ensures wanted { self.new.top_n ≡ self.old.top_n }
        ensures only { OnlyMemory result }
    {
        if self.heap.len() < self.top_n {
            self.heap.push(with_distance((score, doc)))?;
            return Ok(());
        }
        let Some(worst) = worst_of(&self.heap) else {
            return Ok(());
        };
        if rank_key(score, doc) >= rank_key(worst.0, worst.1) {
            return Ok(());
        }
        replace_worst(&mut self.heap, with_distance((score, doc)));
        Ok(())
    }

    /// Adds a document with its score, if it has one. Fails only with `OutOfMemory`.
    pub fn push_scored(&mut self, score: Option<Score>, doc: DocId) -> Result<(), Fault>
        ensures kept { (scored : List (ℕ × ℕ)) → KeepsBest scored self.old → OnOk result (KeepsBest (scored ++ with_score score doc) self.new) }
        ensures wanted { self.new.top_n ≡ self.old.top_n }
        ensures only { OnlyMemory result }
    {
        match score {
            Some(score) => self.push(score, doc),
            None => Ok(()),
        }
    }

    /// Returns the least score that a document from `doc` on must have to be kept: with less it may be passed. `None`
    /// means that each may be passed, whatever it scores.
    pub fn least_score(&self, doc: DocId) -> Option<Score>
        ensures passed { (score later : ℕ) → score < 2 ^ 64 → doc ≤ later → IsTooLow result score → MayBePassed self.now (score, later) }
        ensures needed { (scored : List (ℕ × ℕ)) → KeepsBest scored self.now → All (λ (a : ℕ × ℕ). a.1 < doc) scored → IfSome result (λ least. (score : ℕ) → least ≤ score → num_reaching score scored < self.now.top_n) }
    {
        if self.heap.len() < self.top_n {
            return Some(0);
        }
        let worst = worst_of(&self.heap)?;
        if worst.1 < doc {
            worst.0.checked_add(1)
        } else {
            Some(worst.0)
        }
    }

    /// Returns the documents that are kept, in any order.
    pub fn into_vec(self) -> Vec<(Score, DocId)>
        ensures kept { result.items ≡ self.kept }
        ensures fits { All Fits result.items }
    {
        let TopNComputer { top_n: _, heap } = self;
        let mut kept = heap.into_vec();
        exchange(kept.as_mut_slice());
        kept
    }
}

// Returns the worst of documents with their distances, with its score.
fn worst_of(heap: &BinaryHeap<(Score, DocId)>) -> Option<(Score, DocId)>
    requires order { IsHeap distance_cmp (heap_items heap.now) }
    requires fits { All Fits (heap_items heap.now) }
    ensures { MatchOption result (heap_items heap.now ≡ []) (λ (worst : ℕ × ℕ). IsWorst worst (map with_distance (heap_items heap.now))) }
{
    match heap.peek() {
        Some(worst) => Some(with_distance(*worst)),
        None => None,
    }
}

// Replaces the worst of documents with their distances.
fn replace_worst(heap: &mut BinaryHeap<(Score, DocId)>, document: (Score, DocId))
    requires order { IsHeap distance_cmp (heap_items heap.old) }
    requires some { 0 < heap_len heap.old }
    ensures order { IsHeap distance_cmp (heap_items heap.new) }
    ensures items { IsPermutation (document ∷ drop 1 (heap_items heap.old)) (heap_items heap.new) }
{
    let mut worst = heap.peek_mut().unwrap();
    *worst = document;
}

// Exchanges scores and their distances.
fn exchange(scored: &mut [(Score, DocId)])
    ensures { scored.new ≡ map with_distance scored.old }
{
    for document in scored.iter_mut() {
        *document = with_distance(*document);
    }
}

// Returns a document with what its score is below the greatest one in place of the score.
fn with_distance(document: (Score, DocId)) -> (Score, DocId)
    ensures { result ≡ with_distance document }
{
    (u64::MAX - document.0, document.1)
}
