//! The scorer of a query.
ghost use Rattle.std.specs.Prelude.{◌≡◌, ◌<◌, ℕ, None, Some, IfErr, IfOk, OnOk, if◌then◌else◌, length, nat_lt, true};
ghost use Rattle.std.specs.List.{list_all};
ghost use Rattle.ii_bm25.specs.declared.bm25.TheConstants.{SCORE_ONE};
ghost use Rattle.ii_docset.specs.Intersection.{has_doc};
ghost use Rattle.ii_query_parser.specs.Queries.{has_fields, trees_of};
ghost use Rattle.ii_search.specs.Found.{found_in};
ghost use Rattle.ii_scorer.specs.Combinations.{unless};
ghost use Rattle.ii_scorer.specs.Scorers.{score_of, scores_at};
ghost use Rattle.ii_ranking.specs.Scores.{IsScoreFault, damage_of, opened_or_none, phrase_damage, phrase_score, query_damage, query_score, scored_in, term_damage, term_score, tree_scores, trees_damage};

use crate::found_scorer::FoundScorer;
use crate::leaf_scorer::LeafScorer;
use crate::phrase_scorer::PhraseScorer;
use crate::term_scorer::TermScorer;
use ii_base::{Fault, Term};
use ii_bm25::Bm25StatisticsProvider;
use ii_query_parser::{PhraseTerm, Query};
use ii_reader::OpenIndex;
use ii_scorer::QueryScorer;
use std::alloc::Global;

// Returns the scorer of a query. It recurses once for each level of nesting.
#[cycle(open_scorer)]
#[tactic(auto, using(ii_query_parser::proofs::QueryLemmas::term_fields, ii_query_parser::proofs::QueryLemmas::phrase_fields, ii_query_parser::proofs::QueryLemmas::and_not_fields))]
pub(crate) fn open_scorer<S: Bm25StatisticsProvider>(
    alloc: Global,
    index: &OpenIndex,
    statistics: &S,
    query: &Query,
) -> Result<QueryScorer<LeafScorer>, Fault>
    requires fields { has_fields (length index.now.readers) query.now ≡ true }
    ensures scores { IfOk result (λ scorer. (doc : ℕ) → score_of scorer doc ≡ query_score (scored_in index.now (S.statistics statistics.now)) query.now doc) }
    ensures sound { OnOk result (query_damage index.now query.now ≡ None) }
    ensures fault { IfErr result (IsScoreFault (query_damage index.now query.now)) }
{
    match query {
        Query::Empty => Ok(QueryScorer::nothing()),
        Query::All(limit) => Ok(QueryScorer::all(*limit)),
        Query::Term(term) => open_term(alloc, index, statistics, term),
        Query::Phrase(first, others, slop) => {
            open_phrase(alloc, index, statistics, first, others, *slop)
        }
        Query::PhrasePrefix(_) | Query::Range(_) => open_found(alloc, index, query),
        Query::And(queries) => match open_each(alloc, index, statistics, queries) {
            Ok(scorers) => Ok(QueryScorer::each(scorers)),
            Err(fault) => Err(fault),
        },
        Query::Or(queries) => match open_each(alloc, index, statistics, queries) {
            Ok(scorers) => QueryScorer::any(alloc, scorers),
            Err(fault) => Err(fault),
        },
        Query::AndNot(first, other) => match open_scorer(alloc, index, statistics, first) {
            Ok(first) => open_without(alloc, index, statistics, first, other),
            Err(fault) => Err(fault),
        },
    }
}

// Returns the scorers of some queries.
#[cycle(open_scorer)]
#[inline(never)]
fn open_each<S: Bm25StatisticsProvider>(
    alloc: Global,
    index: &OpenIndex,
    statistics: &S,
    queries: &Vec<Query>,
) -> Result<Vec<QueryScorer<LeafScorer>>, Fault>
    requires fields { list_all (has_fields (length index.now.readers)) queries.now.items ≡ true }
    ensures scores { IfOk result (λ scorers. (doc : ℕ) → scores_at scorers.items doc ≡ tree_scores (scored_in index.now (S.statistics statistics.now)) (trees_of queries.now.items) doc) }
    ensures sound { OnOk result (trees_damage index.now (trees_of queries.now.items) ≡ None) }
    ensures fault { IfErr result (IsScoreFault (trees_damage index.now (trees_of queries.now.items))) }
{
    let mut scorers = Vec::new(alloc);
    for query in queries {
        let scorer = match open_scorer(alloc, index, statistics, query) {
            Ok(scorer) => scorer,
            Err(fault) => return Err(fault),
        };
        scorers.push(scorer)?;
    }
    Ok(scorers)
}

// Returns the scorer of the documents of `first` that don't match a query.
#[cycle(open_scorer)]
#[inline(never)]
fn open_without<S: Bm25StatisticsProvider>(
    alloc: Global,
    index: &OpenIndex,
    statistics: &S,
    first: QueryScorer<LeafScorer>,
    other: &Query,
) -> Result<QueryScorer<LeafScorer>, Fault>
    requires fields { has_fields (length index.now.readers) other.now ≡ true }
    ensures scores { IfOk result (λ scorer. (doc : ℕ) → score_of scorer doc ≡ unless (score_of first doc) (query_score (scored_in index.now (S.statistics statistics.now)) other.now doc)) }
    ensures sound { OnOk result (query_damage index.now other.now ≡ None) }
    ensures fault { IfErr result (IsScoreFault (query_damage index.now other.now)) }
{
    match open_scorer(alloc, index, statistics, other) {
        Ok(other) => QueryScorer::without(alloc, first, other),
        Err(fault) => {
            drop(first);
            Err(fault)
        }
    }
}

// Returns the scorer of a term.
#[inline(never)]
fn open_term<S: Bm25StatisticsProvider>(
    alloc: Global,
    index: &OpenIndex,
    statistics: &S,
    term: &Term,
) -> Result<QueryScorer<LeafScorer>, Fault>
    requires field { term.now.field < length index.now.readers }
    ensures scores { IfOk result (λ scorer. (doc : ℕ) → score_of scorer doc ≡ term_score (scored_in index.now (S.statistics statistics.now)) term.now doc) }
    ensures sound { OnOk result (term_damage index.now term.now ≡ None) }
    ensures fault { IfErr result (IsScoreFault (term_damage index.now term.now)) }
{
    match TermScorer::open(alloc, index, statistics, term) {
        Ok(scorer) => Ok(QueryScorer::one(LeafScorer::Term(scorer))),
        Err(fault) => Err(fault),
    }
}

// Returns the scorer of a phrase within a slop.
#[inline(never)]
fn open_phrase<S: Bm25StatisticsProvider>(
    alloc: Global,
    index: &OpenIndex,
    statistics: &S,
    first: &Term,
    others: &[PhraseTerm],
    slop: u32,
) -> Result<QueryScorer<LeafScorer>, Fault>
    requires first { first.now.field < length index.now.readers }
    requires others { list_all (λ o. nat_lt o.term.field (length index.now.readers)) others.now ≡ true }
    ensures scores { IfOk result (λ scorer. (doc : ℕ) → score_of scorer doc ≡ phrase_score (scored_in index.now (S.statistics statistics.now)) first.now others.now slop doc) }
    ensures sound { OnOk result (phrase_damage index.now first.now others.now ≡ None) }
    ensures fault { IfErr result (IsScoreFault (phrase_damage index.now first.now others.now)) }
{
    match PhraseScorer::open(alloc, index, statistics, first, others, slop) {
        Ok(scorer) => Ok(QueryScorer::one(LeafScorer::Phrase(scorer))),
        Err(fault) => Err(fault),
    }
}

// Returns the scorer of documents that each score 1.0.
#[inline(never)]
fn open_found(
    alloc: Global,
    index: &OpenIndex,
    query: &Query,
) -> Result<QueryScorer<LeafScorer>, Fault>
    requires fields { has_fields (length index.now.readers) query.now ≡ true }
    ensures scores { IfOk result (λ scorer. (doc : ℕ) → score_of scorer doc ≡ (if has_doc (opened_or_none (found_in index.now query.now)) doc then Some SCORE_ONE else None)) }
    ensures sound { OnOk result (damage_of (found_in index.now query.now) ≡ None) }
    ensures fault { IfErr result (IsScoreFault (damage_of (found_in index.now query.now))) }
{
    match FoundScorer::open(alloc, index, query) {
        Ok(scorer) => Ok(QueryScorer::one(LeafScorer::Found(scorer))),
        Err(fault) => Err(fault),
    }
}
