//! A query that is searched many times.
ghost use Rattle.std.specs.Prelude.{◌≡◌, ◌+◌, ◌<◌, ◌^◌, ◌++◌, ◌∷◌, [], ℕ, IfOk, List, None, OnOk, Some, if◌then◌else◌, min, nat_lt};
ghost use Rattle.std.specs.List.{AllByRecursion};
ghost use Rattle.ii_io.specs.Faults.{OnlyMemory};
ghost use Rattle.ii_alive.specs.Alive.{num_living};
ghost use Rattle.ii_base.specs.declared.doc_id.TheConstants.{TERMINATED};
ghost use Rattle.ii_bm25.specs.declared.bm25.TheConstants.{SCORE_ONE};
ghost use Rattle.ii_scorer.specs.BlockLists.{BlockList};
ghost use Rattle.ii_scorer.specs.Combinations.{any_of, each_of, unless};
ghost use Rattle.ii_scorer.specs.Scorers.{bound_over, doc_bound, lists_of, score_of, scores_at};
ghost use Rattle.ii_scorer.specs.TopDocs.{AreBest, scored_docs};
ghost use Rattle.ii_scorer.specs.TopNComputer.{KeepsBest};
ghost use Rattle.ii_ranking.specs.Segments.{segment_scored};
ghost use Rattle.ii_prepared_term.specs.PreparedParts.{prepared_parts_bound, prepared_parts_lists, prepared_parts_score};
ghost use Rattle.ii_prepared_term.specs.PreparedQueries.{ScoresEnd, bound_under, lists_under, prepared_query_bound, prepared_query_score, scores_by};
ghost use Rattle.ii_prepared_term.specs.PreparedScorers.{AreUnread, term_block_list};
ghost use Rattle.ii_prepared_term.specs.PreparedTerms.{prepared_bound, prepared_score};
ghost use Rattle.ii_prepared_term.specs.ScoredLists.{listed_score};

use crate::prepared_leaf::PreparedLeaf;
use crate::prepared_term::PreparedTerm;
use crate::scored_list::ScoredList;
use ii_alive::AliveBits;
use ii_base::{DocId, Fault};
use ii_bm25::Score;
use ii_ranking::numbers::{AllNumbers, LivingNumbers};
use ii_scorer::{QueryScorer, Scorer, TopDocs, TopNComputer, push_best};
use std::alloc::Global;
use std::marker::Model;

/// A query of which each term's list was opened, with bounds of what its documents score. The documents of each phrase
/// and of each range were listed with their scores. It holds all that a search needs, so it is searched without the
/// index, as often as wanted.
///
/// Its model is what each document scores, a bound of that, and the lists of its terms.
#[cycle(prepared_query)]
#[derive(Drop)]
pub struct PreparedQuery {
    parts: PreparedParts,
}

#[cycle(prepared_query)]
#[derive(Drop)]
enum PreparedParts {
    Nothing,
    All(DocId),
    Term(PreparedTerm),
    Listed(ScoredList),
    Each(Vec<PreparedQuery>),
    Any(Vec<PreparedQuery>),
    Without(Box<PreparedQuery>, Box<PreparedQuery>),
}

impl Model for PreparedQuery {
    ghost use Rattle.ii_base.specs.declared.doc_id.TheConstants.{TERMINATED};
    ghost use Rattle.ii_scorer.specs.Scorers.{bounds_below, scores_below};
    ghost use Rattle.ii_prepared_term.specs.PreparedQueries.{PreparedQueryState};

    ghost Value = { PreparedQueryState };

    ghost use Rattle.ii_prepared_term.specs.PreparedParts.{prepared_parts_bound, prepared_parts_depth, prepared_parts_lists, prepared_parts_score};

    ghost view = { λ s. record { scores = scores_below TERMINATED (prepared_parts_score s.parts); bounds = bounds_below TERMINATED (prepared_parts_bound s.parts); depth = prepared_parts_depth s.parts; lists = prepared_parts_lists s.parts } };

    ghost size = { λ s. s.depth };

    ghost use Rattle.ii_prepared_term.specs.PreparedDepths.{part_depth};
    ghost use Rattle.std.proofs.Common.{arith};

    ghost size_decreases = { λ s h. Prim.grind (arith, part_depth) };
}

impl PreparedQuery {
    // Returns a query that matches nothing.
    pub(crate) fn nothing() -> PreparedQuery
        ensures scores { (doc : ℕ) → prepared_query_score result doc ≡ None }
        ensures bounds { (doc : ℕ) → doc < TERMINATED → prepared_query_bound result doc ≡ 0 }
        ensures lists { result.lists ≡ [] }
        ensures ends { ScoresEnd (prepared_query_score result) }
    {
        PreparedQuery {
            parts: PreparedParts::Nothing,
        }
    }

    // Returns one that matches all documents below `limit`, each of which scores 1.0.
    pub(crate) fn all(limit: DocId) -> PreparedQuery
        ensures scores { (doc : ℕ) → prepared_query_score result doc ≡ (if nat_lt doc (min limit TERMINATED) then Some SCORE_ONE else None) }
        ensures bounds { (doc : ℕ) → doc < TERMINATED → prepared_query_bound result doc ≡ SCORE_ONE }
        ensures lists { result.lists ≡ [] }
        ensures ends { ScoresEnd (prepared_query_score result) }
    {
        PreparedQuery {
            parts: PreparedParts::All(limit),
        }
    }

    // Returns one that matches the documents of a prepared term.
    pub(crate) fn of_term(term: PreparedTerm) -> PreparedQuery
        requires { ScoresEnd (prepared_score term) }
        ensures scores { (doc : ℕ) → prepared_query_score result doc ≡ prepared_score term doc }
        ensures bounds { (doc : ℕ) → doc < TERMINATED → prepared_query_bound result doc ≡ prepared_bound term doc }
        ensures lists { result.lists ≡ term_block_list term ∷ [] }
        ensures ends { ScoresEnd (prepared_query_score result) }
    {
        PreparedQuery {
            parts: PreparedParts::Term(term),
        }
    }

    // Returns one that matches the documents of a list.
    pub(crate) fn of_list(list: ScoredList) -> PreparedQuery
        requires { ScoresEnd (listed_score list) }
        ensures scores { (doc : ℕ) → prepared_query_score result doc ≡ listed_score list doc }
        ensures bounds { (doc : ℕ) → doc < TERMINATED → prepared_query_bound result doc ≡ list.most }
        ensures lists { result.lists ≡ [] }
        ensures ends { ScoresEnd (prepared_query_score result) }
    {
        PreparedQuery {
            parts: PreparedParts::Listed(list),
        }
    }

    // Returns one that matches the documents that each of some queries matches.
    pub(crate) fn each(parts: Vec<PreparedQuery>) -> PreparedQuery
        requires { AllByRecursion (λ s. ScoresEnd (prepared_query_score s)) parts.items }
        ensures scores { (doc : ℕ) → prepared_query_score result doc ≡ each_of (scores_by parts.items doc) }
        ensures bounds { (doc : ℕ) → doc < TERMINATED → prepared_query_bound result doc ≡ bound_under parts.items doc }
        ensures lists { result.lists ≡ lists_under parts.items }
        ensures ends { ScoresEnd (prepared_query_score result) }
    {
        PreparedQuery {
            parts: PreparedParts::Each(parts),
        }
    }

    // Returns one that matches the documents that at least one of some queries matches.
    pub(crate) fn any(parts: Vec<PreparedQuery>) -> PreparedQuery
        requires { AllByRecursion (λ s. ScoresEnd (prepared_query_score s)) parts.items }
        ensures scores { (doc : ℕ) → prepared_query_score result doc ≡ any_of (scores_by parts.items doc) }
        ensures bounds { (doc : ℕ) → doc < TERMINATED → prepared_query_bound result doc ≡ bound_under parts.items doc }
        ensures lists { result.lists ≡ lists_under parts.items }
        ensures ends { ScoresEnd (prepared_query_score result) }
    {
        PreparedQuery {
            parts: PreparedParts::Any(parts),
        }
    }

    // Returns one that matches the documents that `first` matches and `other` doesn't.
    pub(crate) fn without(
        alloc: Global,
        first: PreparedQuery,
        other: PreparedQuery,
    ) -> Result<PreparedQuery, Fault>
        requires { ScoresEnd (prepared_query_score first) }
        ensures scores { IfOk result (λ query. (doc : ℕ) → prepared_query_score query doc ≡ unless (prepared_query_score first doc) (prepared_query_score other doc)) }
        ensures bounds { IfOk result (λ query. (doc : ℕ) → doc < TERMINATED → prepared_query_bound query doc ≡ prepared_query_bound first doc) }
        ensures lists { IfOk result (λ query. query.lists ≡ first.lists ++ other.lists) }
        ensures ends { IfOk result (λ query. ScoresEnd (prepared_query_score query)) }
        ensures only { OnlyMemory result }
    {
        let first = Box::new(alloc, first)?;
        let other = Box::new(alloc, other)?;
        Ok(PreparedQuery {
            parts: PreparedParts::Without(first, other),
        })
    }

    /// Returns the best of the documents below a number that match the query, each with its score: the greatest score
    /// first, and of equal ones the smaller document. Fails only with `OutOfMemory`.
    pub fn search(
        &self,
        alloc: Global,
        num_docs: DocId,
        docs: &TopDocs,
    ) -> Result<Vec<(Score, DocId)>, Fault>
        ensures best { IfOk result (λ best. AreBest docs.now (scored_docs num_docs (prepared_query_score self.now)) best.items) }
        ensures only { OnlyMemory result }
    {
        let mut computer = docs.computer(alloc);
        match self.push_all(alloc, num_docs, &mut computer) {
            Ok(()) => docs.best_of(computer),
            Err(fault) => Err(fault),
        }
    }

    /// Adds the living documents of a segment that match the query, each with its score, to those of which the best are
    /// kept. They are numbered from `base` on, and their numbers must have 32 bits. Fails only with `OutOfMemory`.
    pub fn push_living(
        &self,
        alloc: Global,
        alive: &AliveBits,
        base: DocId,
        computer: &mut TopNComputer,
    ) -> Result<(), Fault>
        requires few { base + num_living alive.now < 2 ^ 32 }
        ensures kept { (scored : List (ℕ × ℕ)) → KeepsBest scored computer.old → OnOk result (KeepsBest (scored ++ segment_scored base alive.now (prepared_query_score self.now)) computer.new) }
        ensures wanted { computer.new.top_n ≡ computer.old.top_n }
        ensures only { OnlyMemory result }
    {
        let mut scorer = self.scorer(alloc)?;
        let numbers = LivingNumbers { base, alive };
        push_best(&mut scorer, &numbers, computer)
    }

    // Adds the documents below a number that match the query, each with its score.
    fn push_all(
        &self,
        alloc: Global,
        num_docs: DocId,
        computer: &mut TopNComputer,
    ) -> Result<(), Fault>
        ensures kept { (scored : List (ℕ × ℕ)) → KeepsBest scored computer.old → OnOk result (KeepsBest (scored ++ scored_docs num_docs (prepared_query_score self.now)) computer.new) }
        ensures wanted { computer.new.top_n ≡ computer.old.top_n }
        ensures only { OnlyMemory result }
    {
        let mut scorer = self.scorer(alloc)?;
        let numbers = AllNumbers { num_docs };
        push_best(&mut scorer, &numbers, computer)
    }

    /// Returns a scorer of all documents that match the query, of whose lists no block was decoded but the first. Its
    /// bounds are those of the query: of a term that of the document's run, of and and or the sum, at most `u64::MAX`. It
    /// recurses once for each level of nesting. Fails only with `OutOfMemory`.
    #[cycle(scorer)]
    pub fn scorer(&self, alloc: Global) -> Result<QueryScorer<PreparedLeaf<'_>>, Fault>
        ensures scores { IfOk result (λ scorer. (doc : ℕ) → score_of scorer doc ≡ prepared_query_score self.now doc) }
        ensures bounds { IfOk result (λ scorer. (doc : ℕ) → doc < TERMINATED → doc_bound scorer doc ≡ prepared_query_bound self.now doc) }
        ensures lists { IfOk result (λ scorer. AreUnread self.now.lists scorer.lists) }
        ensures only { OnlyMemory result }
    {
        let scorer = match scorer_of(alloc, &self.parts) {
            Ok(scorer) => scorer,
            Err(fault) => return Err(fault),
        };
        // that no document from `TERMINATED` on has a score, for the proof
        let _most = scorer.max_score();
        Ok(scorer)
    }
}

// Returns a scorer of the documents that match the parts of a query.
#[cycle(scorer)]
fn scorer_of(alloc: Global, parts: &PreparedParts) -> Result<QueryScorer<PreparedLeaf<'_>>, Fault>
    ensures scores { IfOk result (λ scorer. (doc : ℕ) → score_of scorer doc ≡ prepared_parts_score parts.now doc) }
    ensures bounds { IfOk result (λ scorer. (doc : ℕ) → doc < TERMINATED → doc_bound scorer doc ≡ prepared_parts_bound parts.now doc) }
    ensures lists { IfOk result (λ scorer. AreUnread (prepared_parts_lists parts.now) scorer.lists) }
    ensures only { OnlyMemory result }
{
    match parts {
        PreparedParts::Nothing => Ok(QueryScorer::nothing()),
        PreparedParts::All(limit) => Ok(QueryScorer::all(*limit)),
        PreparedParts::Term(term) => scorer_of_term(term),
        PreparedParts::Listed(list) => Ok(scorer_of_list(list)),
        PreparedParts::Each(parts) => match scorers_of(alloc, parts) {
            Ok(scorers) => Ok(QueryScorer::each(scorers)),
            Err(fault) => Err(fault),
        },
        PreparedParts::Any(parts) => match scorers_of(alloc, parts) {
            Ok(scorers) => QueryScorer::any(alloc, scorers),
            Err(fault) => Err(fault),
        },
        PreparedParts::Without(first, other) => match first.scorer(alloc) {
            Ok(first) => scorer_without(alloc, first, other),
            Err(fault) => Err(fault),
        },
    }
}

// Returns the scorers of some queries.
#[cycle(scorer)]
#[inline(never)]
fn scorers_of(
    alloc: Global,
    parts: &Vec<PreparedQuery>,
) -> Result<Vec<QueryScorer<PreparedLeaf<'_>>>, Fault>
    ensures scores { IfOk result (λ scorers. (doc : ℕ) → scores_at scorers.items doc ≡ scores_by parts.now.items doc) }
    ensures bounds { IfOk result (λ scorers. (doc : ℕ) → doc < TERMINATED → bound_over scorers.items doc ≡ bound_under parts.now.items doc) }
    ensures lists { IfOk result (λ scorers. AreUnread (lists_under parts.now.items) (lists_of scorers.items)) }
    ensures only { OnlyMemory result }
{
    let mut scorers = Vec::new(alloc);
    for part in parts {
        let scorer = match part.scorer(alloc) {
            Ok(scorer) => scorer,
            Err(fault) => return Err(fault),
        };
        scorers.push(scorer)?;
    }
    Ok(scorers)
}

// Returns the scorer of the documents of `first` that don't match a query.
#[cycle(scorer)]
#[inline(never)]
fn scorer_without<'a>(
    alloc: Global,
    first: QueryScorer<PreparedLeaf<'a>>,
    other: &'a PreparedQuery,
) -> Result<QueryScorer<PreparedLeaf<'a>>, Fault>
    ensures scores { IfOk result (λ scorer. (doc : ℕ) → score_of scorer doc ≡ unless (score_of first.entry doc) (prepared_query_score other.now doc)) }
    ensures bounds { IfOk result (λ scorer. (doc : ℕ) → doc < TERMINATED → doc_bound scorer doc ≡ doc_bound first.entry doc) }
    ensures lists { IfOk result (λ scorer. (all : List BlockList) → AreUnread all first.entry.lists → AreUnread (all ++ other.now.lists) scorer.lists) }
    ensures only { OnlyMemory result }
{
    match other.scorer(alloc) {
        Ok(other) => QueryScorer::without(alloc, first, other),
        Err(fault) => {
            drop(first);
            Err(fault)
        }
    }
}

// Returns the scorer of a prepared term.
fn scorer_of_term(term: &PreparedTerm) -> Result<QueryScorer<PreparedLeaf<'_>>, Fault>
    ensures scores { IfOk result (λ scorer. (doc : ℕ) → score_of scorer doc ≡ prepared_score term.now doc) }
    ensures bounds { IfOk result (λ scorer. (doc : ℕ) → doc < TERMINATED → doc_bound scorer doc ≡ prepared_bound term.now doc) }
    ensures lists { IfOk result (λ scorer. AreUnread (term_block_list term.now ∷ []) scorer.lists) }
    ensures only { OnlyMemory result }
{
    let scorer = term.scorer()?;
    Ok(QueryScorer::one(PreparedLeaf::Term(scorer)))
}

// Returns the scorer of a list.
fn scorer_of_list(list: &ScoredList) -> QueryScorer<PreparedLeaf<'_>>
    ensures scores { (doc : ℕ) → score_of result doc ≡ listed_score list.now doc }
    ensures bounds { (doc : ℕ) → doc < TERMINATED → doc_bound result doc ≡ list.now.most }
    ensures lists { result.lists ≡ [] }
{
    QueryScorer::one(PreparedLeaf::Listed(list.scorer()))
}
