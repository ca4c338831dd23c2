//! Scorers of two parts, the best documents of any scorer, and which blocks are decoded for them.
ghost use Rattle.std.specs.Prelude.{◌≡◌, ◌+◌, ◌-◌, ◌/◌, ◌^◌, ◌<◌, ◌≤◌, ◌⊎◌, ℕ, IfOk, IfSome, Some, filter, get_or, is_some, length, min, nat_le, nat_lt};
ghost use Rattle.std.specs.List.{All, AllZip, Contains, count_by, range_with_len};
ghost use Rattle.ii_io.specs.Faults.{OnlyMemory};
ghost use Rattle.ii_base.specs.declared.doc_id.TheConstants.{TERMINATED};
ghost use Rattle.ii_scorer.specs.BlockLists.{BlockList};
ghost use Rattle.ii_scorer.specs.Scorers.{doc_bound, score_of};
ghost use Rattle.ii_scorer.specs.TopDocs.{scored_docs};

use ii_base::{DocId, Fault};
use ii_bm25::Score;
use ii_prepared_term::{PreparedLeaf, PreparedQuery};
use ii_scorer::{DocNumbers, QueryScorer, Scorer, TopDocs, push_best};
use std::alloc::Global;
use std::marker::Model;

/// Returns the first document that may score `least` by two scorers together: a document before it that both match
/// scores less by them in sum.
pub fn unions_pass_what_scores_less<T: Scorer>(
    alloc: Global,
    first: QueryScorer<T>,
    other: QueryScorer<T>,
    least: Score,
) -> Result<DocId, Fault>
    ensures { IfOk result (λ next. (doc a b : ℕ) → doc < next → score_of first doc ≡ Some a → score_of other doc ≡ Some b → min (2 ^ 64 - 1) (a + b) < least) }
{
    let mut both = Vec::new(alloc);
    both.push(first)?;
    both.push(other)?;
    let mut union = match QueryScorer::any(alloc, both) {
        Ok(union) => union,
        Err(fault) => return Err(fault),
    };
    Ok(union.seek_with_score(0, least))
}

/// No document of a run scores more than the bound that any scorer gives for it, which passes none of them.
pub fn documents_of_a_run_keep_its_bound<T: Scorer>(
    scorer: &mut T,
    target: DocId,
    doc: DocId,
) -> Option<Score>
    requires { (target ≤ doc) × (doc < TERMINATED) }
    ensures { (score : ℕ) → score_of (T.state scorer.old) doc ≡ Some score → IfSome result (λ most. score ≤ most) }
{
    let bound = scorer.max_score_until(target);
    if doc < bound.end {
        return Some(bound.most);
    }
    scorer.score_at(doc, 0)
}

// The first documents, all of which count, each by its own number.
#[derive(Clone, Copy)]
struct FirstDocs {
    num_docs: DocId,
}

impl DocNumbers for FirstDocs {
    ghost use Rattle.std.specs.Prelude.{true};

    ghost numbering = { λ docs. record { num_docs = docs.num_docs; counts = λ _. true; number = λ doc. doc } };

    fn num_docs(&self) -> DocId {
        self.num_docs
    }

    fn number(&self, doc: DocId) -> DocId {
        doc
    }

    fn counts(&self, _doc: DocId) -> bool {
        true
    }
}

/// Of any scorer the best of the first documents are returned, though those that score too little are passed: each
/// with its score, as many as have a score but at most `limit`, and no other document scores more than one of them.
/// This fails only with `OutOfMemory`.
pub fn the_best_of_a_scorer_are_kept<T: Scorer>(
    alloc: Global,
    scorer: &mut T,
    num_docs: DocId,
    limit: usize,
) -> Result<Vec<(Score, DocId)>, Fault>
    ensures scores { IfOk result (λ best. All (λ (b : ℕ × ℕ). (b.1 < num_docs) × (score_of (T.state scorer.old) b.1 ≡ Some b.0)) best.items) }
    ensures many { IfOk result (λ best. length best.items ≡ min limit (length (filter (λ (doc : ℕ). is_some (score_of (T.state scorer.old) doc)) (range_with_len 0 num_docs)))) }
    ensures greatest { IfOk result (λ best. (doc score : ℕ) → doc < num_docs → score_of (T.state scorer.old) doc ≡ Some score → Contains best.items (score, doc) ⊎ All (λ (b : ℕ × ℕ). score ≤ b.0) best.items) }
    ensures only { OnlyMemory result }
{
    let docs = TopDocs::with_limit(limit);
    let mut computer = docs.computer(alloc);
    match push_best(scorer, &FirstDocs { num_docs }, &mut computer) {
        Ok(()) => docs.best_of(computer),
        Err(fault) => Err(fault),
    }
}

/// A search by any scorer decodes a block of a list at most once, and only where that may pay: the block has the first
/// document of the list from a document on, before which fewer than `limit` documents score as much as the bound of that
/// one. This holds of the blocks of documents and of those of term frequencies, also where the search fails.
pub fn blocks_are_decoded_where_that_may_pay<T: Scorer>(
    alloc: Global,
    scorer: &mut T,
    num_docs: DocId,
    limit: usize,
) -> Result<Vec<(Score, DocId)>, Fault>
    ensures documents { AllZip (λ (old new : BlockList). (block : ℕ) → Contains new.doc_blocks block → Contains old.doc_blocks block
        ⊎ ((doc : ℕ) × (count_by (λ (d : ℕ). nat_lt d doc) old.docs < length old.docs) × (block ≡ count_by (λ (d : ℕ). nat_lt d doc) old.docs / 128)
        × (count_by (λ (b : ℕ × ℕ). nat_le (doc_bound (T.state scorer.old) doc) b.0) (scored_docs doc (score_of (T.state scorer.old))) < limit))) (T.state scorer.old).lists (T.state scorer.new).lists }
    ensures frequencies { AllZip (λ (old new : BlockList). (block : ℕ) → Contains new.freq_blocks block → Contains old.freq_blocks block
        ⊎ ((doc : ℕ) × (count_by (λ (d : ℕ). nat_lt d doc) old.docs < length old.docs) × (block ≡ count_by (λ (d : ℕ). nat_lt d doc) old.docs / 128)
        × (count_by (λ (b : ℕ × ℕ). nat_le (doc_bound (T.state scorer.old) doc) b.0) (scored_docs doc (score_of (T.state scorer.old))) < limit))) (T.state scorer.old).lists (T.state scorer.new).lists }
    ensures once { AllZip (λ (old new : BlockList). (length new.doc_blocks + old.block ≤ length old.doc_blocks + new.block) × (length new.freq_blocks + old.block ≤ length old.freq_blocks + new.block)) (T.state scorer.old).lists (T.state scorer.new).lists }
    ensures only { OnlyMemory result }
{
    let docs = TopDocs::with_limit(limit);
    let mut computer = docs.computer(alloc);
    match push_best(scorer, &FirstDocs { num_docs }, &mut computer) {
        Ok(()) => docs.best_of(computer),
        Err(fault) => Err(fault),
    }
}

/// A search by a prepared query starts with lists of which no block was decoded but the first, and with the bounds of the
/// query.
pub fn nothing_is_decoded_at_the_start<'a>(
    alloc: Global,
    query: &'a PreparedQuery,
) -> Result<QueryScorer<PreparedLeaf<'a>>, Fault>
    ensures documents { IfOk result (λ scorer. All (λ (list : BlockList). (block : ℕ) → Contains list.doc_blocks block → block ≡ 0) scorer.lists) }
    ensures frequencies { IfOk result (λ scorer. All (λ (list : BlockList). (block : ℕ) → Contains list.freq_blocks block → block ≡ 0) scorer.lists) }
    ensures bounds { IfOk result (λ scorer. (doc : ℕ) → doc < 2147483647 → get_or scorer.bounds doc 0 ≡ get_or query.now.bounds doc 0) }
    ensures only { OnlyMemory result }
{
    match query.scorer(alloc) {
        Ok(scorer) => Ok(scorer),
        Err(fault) => Err(fault),
    }
}
