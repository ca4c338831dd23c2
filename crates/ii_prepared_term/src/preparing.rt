//! How queries are prepared.
ghost use Rattle.std.specs.Prelude.{◌≡◌, ◌<◌, ◌++◌, ◌∷◌, [], ℕ, IfErr, IfOk, None, OnOk, length, true};
ghost use Rattle.std.specs.List.{AllByRecursion, list_all};
ghost use Rattle.ii_base.specs.declared.doc_id.TheConstants.{TERMINATED};
ghost use Rattle.ii_query_parser.specs.Queries.{has_fields, trees_of};
ghost use Rattle.ii_ranking.specs.Scores.{IsScoreFault, query_damage, query_score, scored_in, term_damage, term_score, tree_scores, trees_damage};
ghost use Rattle.ii_scorer.specs.Combinations.{unless};
ghost use Rattle.ii_prepared_term.specs.PreparedQueries.{ScoresEnd, bound_under, lists_under, prepared_query_bound, prepared_query_score, scores_by};
ghost use Rattle.ii_prepared_term.specs.QueryBounds.{greatest_score, query_bound, term_bound, trees_bound};
ghost use Rattle.ii_prepared_term.specs.QueryDocs.{lists_docs, query_docs, term_docs, trees_docs};

use crate::prepared_query::PreparedQuery;
use crate::prepared_term::PreparedTerm;
use crate::scored_list::ScoredList;
use ii_base::{Fault, Term};
use ii_bm25::Bm25StatisticsProvider;
use ii_query_parser::Query;
use ii_reader::OpenIndex;
use std::alloc::Global;

impl PreparedQuery {
    /// Opens the list of each term of a query, which is validated, and makes its bounds in one pass over it. Lists the
    /// documents of each phrase and of each range with their scores. The bound of a document by a term is that of its run
    /// of 128 documents in the list, by a phrase or a range the greatest score, by and and or the sum. The statistics say
    /// how many documents and tokens count, as for `ii_ranking::search`. All fields of the query must be fields of the
    /// index. It recurses once for each level of nesting.
    ///
    /// # Errors
    ///
    /// `Damaged` with the first corrupt part of a list, or with `FieldNorms` if a field has more than `u32::MAX` norms,
    /// in the order of the query's parts; `OutOfMemory` if an allocation fails.
    pub fn open<S: Bm25StatisticsProvider>(
        alloc: Global,
        index: &OpenIndex,
        statistics: &S,
        query: &Query,
    ) -> Result<PreparedQuery, Fault>
        requires fields { has_fields (length index.now.readers) query.now ≡ true }
        ensures scores { IfOk result (λ prepared. (doc : ℕ) → prepared_query_score prepared doc ≡ query_score (scored_in index.now (S.statistics statistics.now)) query.now doc) }
        ensures bounds { IfOk result (λ prepared. (doc : ℕ) → doc < TERMINATED → prepared_query_bound prepared doc ≡ query_bound (scored_in index.now (S.statistics statistics.now)) query.now doc) }
        ensures lists { IfOk result (λ prepared. lists_docs prepared.lists ≡ query_docs index.now query.now) }
        ensures sound { OnOk result (query_damage index.now query.now ≡ None) }
        ensures fault { IfErr result (IsScoreFault (query_damage index.now query.now)) }
    {
        prepare(alloc, index, statistics, query)
    }
}

// Prepares a query.
#[cycle(prepare)]
#[tactic(auto, using(ii_query_parser::proofs::QueryLemmas::term_fields, ii_query_parser::proofs::QueryLemmas::and_not_fields))]
fn prepare<S: Bm25StatisticsProvider>(
    alloc: Global,
    index: &OpenIndex,
    statistics: &S,
    query: &Query,
) -> Result<PreparedQuery, Fault>
    requires fields { has_fields (length index.now.readers) query.now ≡ true }
    ensures scores { IfOk result (λ prepared. (doc : ℕ) → prepared_query_score prepared doc ≡ query_score (scored_in index.now (S.statistics statistics.now)) query.now doc) }
    ensures bounds { IfOk result (λ prepared. (doc : ℕ) → doc < TERMINATED → prepared_query_bound prepared doc ≡ query_bound (scored_in index.now (S.statistics statistics.now)) query.now doc) }
    ensures lists { IfOk result (λ prepared. lists_docs prepared.lists ≡ query_docs index.now query.now) }
    ensures ends { IfOk result (λ prepared. ScoresEnd (prepared_query_score prepared)) }
    ensures sound { OnOk result (query_damage index.now query.now ≡ None) }
    ensures fault { IfErr result (IsScoreFault (query_damage index.now query.now)) }
{
    match query {
        Query::Empty => Ok(PreparedQuery::nothing()),
        Query::All(limit) => Ok(PreparedQuery::all(*limit)),
        Query::Term(term) => prepare_term(alloc, index, statistics, term),
        Query::Phrase(_, _, _) => prepare_list(alloc, index, statistics, query),
        Query::PhrasePrefix(_) => prepare_list(alloc, index, statistics, query),
        Query::Range(_) => prepare_list(alloc, index, statistics, query),
        Query::And(queries) => match prepare_each(alloc, index, statistics, queries) {
            Ok(parts) => Ok(PreparedQuery::each(parts)),
            Err(fault) => Err(fault),
        },
        Query::Or(queries) => match prepare_each(alloc, index, statistics, queries) {
            Ok(parts) => Ok(PreparedQuery::any(parts)),
            Err(fault) => Err(fault),
        },
        Query::AndNot(first, other) => match prepare(alloc, index, statistics, first) {
            Ok(first) => prepare_without(alloc, index, statistics, other, first),
            Err(fault) => Err(fault),
        },
    }
}

// Prepares some queries.
#[cycle(prepare)]
#[inline(never)]
fn prepare_each<S: Bm25StatisticsProvider>(
    alloc: Global,
    index: &OpenIndex,
    statistics: &S,
    queries: &Vec<Query>,
) -> Result<Vec<PreparedQuery>, Fault>
    requires fields { list_all (has_fields (length index.now.readers)) queries.now.items ≡ true }
    ensures scores { IfOk result (λ parts. (doc : ℕ) → scores_by parts.items doc ≡ tree_scores (scored_in index.now (S.statistics statistics.now)) (trees_of queries.now.items) doc) }
    ensures bounds { IfOk result (λ parts. (doc : ℕ) → doc < TERMINATED → bound_under parts.items doc ≡ trees_bound (scored_in index.now (S.statistics statistics.now)) (trees_of queries.now.items) doc) }
    ensures lists { IfOk result (λ parts. lists_docs (lists_under parts.items) ≡ trees_docs index.now (trees_of queries.now.items)) }
    ensures ends { IfOk result (λ parts. AllByRecursion (λ s. ScoresEnd (prepared_query_score s)) parts.items) }
    ensures sound { OnOk result (trees_damage index.now (trees_of queries.now.items) ≡ None) }
    ensures fault { IfErr result (IsScoreFault (trees_damage index.now (trees_of queries.now.items))) }
{
    let mut parts = Vec::new(alloc);
    for query in queries {
        let part = match prepare(alloc, index, statistics, query) {
            Ok(part) => part,
            Err(fault) => return Err(fault),
        };
        parts.push(part)?;
    }
    Ok(parts)
}

// Prepares a query that matches the documents of `first` that don't match another one.
#[cycle(prepare)]
#[inline(never)]
fn prepare_without<S: Bm25StatisticsProvider>(
    alloc: Global,
    index: &OpenIndex,
    statistics: &S,
    other: &Query,
    first: PreparedQuery,
) -> Result<PreparedQuery, Fault>
    requires fields { has_fields (length index.now.readers) other.now ≡ true }
    requires ends { ScoresEnd (prepared_query_score first) }
    ensures scores { IfOk result (λ prepared. (doc : ℕ) → prepared_query_score prepared doc ≡ unless (prepared_query_score first doc) (query_score (scored_in index.now (S.statistics statistics.now)) other.now doc)) }
    ensures bounds { IfOk result (λ prepared. (doc : ℕ) → doc < TERMINATED → prepared_query_bound prepared doc ≡ prepared_query_bound first doc) }
    ensures lists { IfOk result (λ prepared. lists_docs prepared.lists ≡ lists_docs first.lists ++ query_docs index.now other.now) }
    ensures ends { IfOk result (λ prepared. ScoresEnd (prepared_query_score prepared)) }
    ensures sound { OnOk result (query_damage index.now other.now ≡ None) }
    ensures fault { IfErr result (IsScoreFault (query_damage index.now other.now)) }
{
    match prepare(alloc, index, statistics, other) {
        Ok(other) => PreparedQuery::without(alloc, first, other),
        Err(fault) => {
            drop(first);
            Err(fault)
        }
    }
}

// Prepares a term.
#[inline(never)]
fn prepare_term<S: Bm25StatisticsProvider>(
    alloc: Global,
    index: &OpenIndex,
    statistics: &S,
    term: &Term,
) -> Result<PreparedQuery, Fault>
    requires field { term.now.field < length index.now.readers }
    ensures scores { IfOk result (λ prepared. (doc : ℕ) → prepared_query_score prepared doc ≡ term_score (scored_in index.now (S.statistics statistics.now)) term.now doc) }
    ensures bounds { IfOk result (λ prepared. (doc : ℕ) → doc < TERMINATED → prepared_query_bound prepared doc ≡ term_bound (scored_in index.now (S.statistics statistics.now)) term.now doc) }
    ensures lists { IfOk result (λ prepared. lists_docs prepared.lists ≡ term_docs index.now term.now ∷ []) }
    ensures ends { IfOk result (λ prepared. ScoresEnd (prepared_query_score prepared)) }
    ensures sound { OnOk result (term_damage index.now term.now ≡ None) }
    ensures fault { IfErr result (IsScoreFault (term_damage index.now term.now)) }
{
    match PreparedTerm::open(alloc, index, statistics, term) {
        Ok(term) => Ok(PreparedQuery::of_term(term)),
        Err(fault) => Err(fault),
    }
}

// Prepares a query by listing the documents that match it.
#[inline(never)]
fn prepare_list<S: Bm25StatisticsProvider>(
    alloc: Global,
    index: &OpenIndex,
    statistics: &S,
    query: &Query,
) -> Result<PreparedQuery, Fault>
    requires fields { has_fields (length index.now.readers) query.now ≡ true }
    ensures scores { IfOk result (λ prepared. (doc : ℕ) → prepared_query_score prepared doc ≡ query_score (scored_in index.now (S.statistics statistics.now)) query.now doc) }
    ensures bounds { IfOk result (λ prepared. (doc : ℕ) → doc < TERMINATED → prepared_query_bound prepared doc ≡ greatest_score (query_score (scored_in index.now (S.statistics statistics.now)) query.now)) }
    ensures lists { IfOk result (λ prepared. prepared.lists ≡ []) }
    ensures ends { IfOk result (λ prepared. ScoresEnd (prepared_query_score prepared)) }
    ensures sound { OnOk result (query_damage index.now query.now ≡ None) }
    ensures fault { IfErr result (IsScoreFault (query_damage index.now query.now)) }
{
    match ScoredList::open(alloc, index, statistics, query) {
        Ok(list) => Ok(PreparedQuery::of_list(list)),
        Err(fault) => Err(fault),
    }
}
