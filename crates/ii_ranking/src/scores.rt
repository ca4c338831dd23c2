//! The scores of the documents that match a query.
ghost use Rattle.std.specs.Prelude.{◌≡◌, ◌<◌, ◌≤◌, ◌^◌, ℕ, IfErr, IfOk, List, None, OnOk, get_or, if◌then◌else◌, length, map, true};
ghost use Rattle.std.specs.List.{list_all, range_with_len};
ghost use Rattle.ii_base.specs.Schema.{SchemaEntry};
ghost use Rattle.ii_definitions.specs.Tokens.{IndexToken};
ghost use Rattle.ii_query_parser.specs.Queries.{has_fields, trees_of};
ghost use Rattle.ii_reader.specs.OpenIndex.{IndexHolds};
ghost use Rattle.ii_ranking.specs.Combinations.{AddsToEach, AreCombined};
ghost use Rattle.ii_scorer.specs.Combinations.{any_of, each_of, unless};
ghost use Rattle.ii_ranking.specs.Scores.{IsScoreFault, query_damage, query_score, scored_in, tree_scores, trees_damage};
ghost use Rattle.ii_ranking.specs.TokenScores.{GivesScores, token_score};

use crate::combination::{Combination, add_all, combine, no_scores};
use crate::phrase_scores::add_phrase;
use crate::range_scores::add_found;
use crate::term_scores::add_term;
use ii_base::{DocId, Fault};
use ii_bm25::{Bm25StatisticsProvider, Score};
use ii_query_parser::Query;
use ii_reader::OpenIndex;
use std::alloc::Global;

/// Returns the score of each document below a number, `None` where it doesn't match the query: BM25 for a term or a
/// phrase, 1.0 for all documents, a range, or a phrase whose last term is one of a range, and the sum of the parts that
/// match else. A phrase counts as often as it begins in a document. Where a field keeps no counts each is 1, and so is each norm where it keeps no norms. Each term's
/// field must be a field of the index.
///
/// It takes 16 bytes for each document and each level of nesting.
///
/// # Errors
///
/// `Damaged` with the first corrupt part of a term's list, of the terms in the order of the query, or
/// `Damaged(FieldNorms)` if a field has 2^32 norms or more; `OutOfMemory` if an allocation fails, or the files' buffer
/// can't be shared once more.
pub fn score_docs<S: Bm25StatisticsProvider>(
    alloc: Global,
    index: &OpenIndex,
    num_docs: DocId,
    statistics: &S,
    query: &Query,
) -> Result<Vec<Option<Score>>, Fault>
    requires fields { has_fields (length index.now.readers) query.now ≡ true }
    ensures scored { IfOk result (λ scores. scores.items ≡ map (query_score (scored_in index.now (S.statistics statistics.now)) query.now) (range_with_len 0 num_docs)) }
    ensures sound { OnOk result (query_damage index.now query.now ≡ None) }
    ensures fault { IfErr result (IsScoreFault (query_damage index.now query.now)) }
    // where the index holds tokens of at least so many documents
    ensures holds { (schema : List SchemaEntry) (held : ℕ) (tokens : List IndexToken) → IndexHolds schema held index.now tokens → num_docs ≤ held → held < 2 ^ 32
        → has_fields (length schema) query.now ≡ true → GivesScores num_docs (token_score schema tokens (S.statistics statistics.now) query.now) result }
{
    scores_of(alloc, index, statistics, query, num_docs as usize)
}

// Returns what documents score by a query.
#[cycle(add_scores)]
#[inline(never)]
fn scores_of<S: Bm25StatisticsProvider>(
    alloc: Global,
    index: &OpenIndex,
    statistics: &S,
    query: &Query,
    num_docs: usize,
) -> Result<Vec<Option<Score>>, Fault>
    requires fields { has_fields (length index.now.readers) query.now ≡ true }
    ensures scored { IfOk result (λ scores. scores.items ≡ map (query_score (scored_in index.now (S.statistics statistics.now)) query.now) (range_with_len 0 num_docs)) }
    ensures sound { OnOk result (query_damage index.now query.now ≡ None) }
    ensures fault { IfErr result (IsScoreFault (query_damage index.now query.now)) }
{
    let mut scores = no_scores(alloc, num_docs)?;
    match add_scores(alloc, index, statistics, query, &mut scores) {
        Ok(()) => Ok(scores),
        Err(fault) => Err(fault),
    }
}

// Adds what documents score by a query. It recurses once for each level of nesting.
#[cycle(add_scores)]
#[tactic(auto, using(ii_query_parser::proofs::QueryLemmas::term_fields, ii_query_parser::proofs::QueryLemmas::phrase_fields, ii_query_parser::proofs::QueryLemmas::and_not_fields))]
fn add_scores<S: Bm25StatisticsProvider>(
    alloc: Global,
    index: &OpenIndex,
    statistics: &S,
    query: &Query,
    scores: &mut Vec<Option<Score>>,
) -> Result<(), Fault>
    requires fields { has_fields (length index.now.readers) query.now ≡ true }
    ensures added { OnOk result (AddsToEach (query_score (scored_in index.now (S.statistics statistics.now)) query.now) scores.old.items scores.new.items) }
    ensures sound { OnOk result (query_damage index.now query.now ≡ None) }
    ensures fault { IfErr result (IsScoreFault (query_damage index.now query.now)) }
{
    match query {
        Query::Empty => Ok(()),
        Query::All(limit) => {
            add_all(*limit, scores);
            Ok(())
        }
        Query::Term(term) => add_term(alloc, index, statistics, term, scores),
        Query::Phrase(first, others, slop) => {
            add_phrase(alloc, index, statistics, first, others, *slop, scores)
        }
        Query::PhrasePrefix(_) | Query::Range(_) => add_found(alloc, index, query, scores),
        Query::And(queries) => add_each(alloc, index, statistics, queries, scores),
        Query::Or(queries) => add_any(alloc, index, statistics, queries, scores),
        Query::AndNot(first, other) => {
            let part = scores_of(alloc, index, statistics, first, scores.len())?;
            add_unless(alloc, index, statistics, part, other, scores)
        }
    }
}

// Adds what documents score by queries of which one has to match.
#[cycle(add_scores)]
#[inline(never)]
fn add_any<S: Bm25StatisticsProvider>(
    alloc: Global,
    index: &OpenIndex,
    statistics: &S,
    queries: &Vec<Query>,
    scores: &mut Vec<Option<Score>>,
) -> Result<(), Fault>
    requires fields { list_all (has_fields (length index.now.readers)) queries.now.items ≡ true }
    ensures added { OnOk result (AddsToEach (λ doc. any_of (tree_scores (scored_in index.now (S.statistics statistics.now)) (trees_of queries.now.items) doc)) scores.old.items scores.new.items) }
    ensures sound { OnOk result (trees_damage index.now (trees_of queries.now.items) ≡ None) }
    ensures fault { IfErr result (IsScoreFault (trees_damage index.now (trees_of queries.now.items))) }
{
    for query in queries {
        add_scores(alloc, index, statistics, query, scores)?;
    }
    Ok(())
}

// Adds what documents score by queries of which each has to match.
#[cycle(add_scores)]
#[inline(never)]
fn add_each<S: Bm25StatisticsProvider>(
    alloc: Global,
    index: &OpenIndex,
    statistics: &S,
    queries: &Vec<Query>,
    scores: &mut Vec<Option<Score>>,
) -> Result<(), Fault>
    requires fields { list_all (has_fields (length index.now.readers)) queries.now.items ≡ true }
    ensures added { OnOk result (AddsToEach (λ doc. each_of (tree_scores (scored_in index.now (S.statistics statistics.now)) (trees_of queries.now.items) doc)) scores.old.items scores.new.items) }
    ensures sound { OnOk result (trees_damage index.now (trees_of queries.now.items) ≡ None) }
    ensures fault { IfErr result (IsScoreFault (trees_damage index.now (trees_of queries.now.items))) }
{
    let mut all = no_scores(alloc, scores.len())?;
    let mut is_first = true;
    for query in queries {
        let by = next_part(is_first);
        match add_part(alloc, index, statistics, query, by, &mut all) {
            Ok(()) => (),
            Err(fault) => return Err(fault),
        }
        is_first = false;
    }
    combine(Combination::Either, scores, &all);
    Ok(())
}

// Returns how the next of the queries that have to match is combined with those before it.
fn next_part(is_first: bool) -> Combination
    ensures { result ≡ (if is_first then Combination.Either else Combination.Both) }
{
    if is_first {
        return Combination::Either;
    }
    Combination::Both
}

// Combines the scores of documents with what they score by a query.
#[cycle(add_scores)]
#[inline(never)]
fn add_part<S: Bm25StatisticsProvider>(
    alloc: Global,
    index: &OpenIndex,
    statistics: &S,
    query: &Query,
    by: Combination,
    scores: &mut Vec<Option<Score>>,
) -> Result<(), Fault>
    requires fields { has_fields (length index.now.readers) query.now ≡ true }
    ensures added { OnOk result (AreCombined by (query_score (scored_in index.now (S.statistics statistics.now)) query.now) scores.old.items scores.new.items) }
    ensures sound { OnOk result (query_damage index.now query.now ≡ None) }
    ensures fault { IfErr result (IsScoreFault (query_damage index.now query.now)) }
{
    let part = scores_of(alloc, index, statistics, query, scores.len())?;
    combine(by, scores, &part);
    Ok(())
}

// Adds what documents score by a part, unless they match a query.
#[cycle(add_scores)]
#[inline(never)]
fn add_unless<S: Bm25StatisticsProvider>(
    alloc: Global,
    index: &OpenIndex,
    statistics: &S,
    part: Vec<Option<Score>>,
    other: &Query,
    scores: &mut Vec<Option<Score>>,
) -> Result<(), Fault>
    requires fields { has_fields (length index.now.readers) other.now ≡ true }
    requires many { length part.items ≡ length scores.old.items }
    ensures added { OnOk result (AddsToEach (λ doc. unless (get_or part.items doc None) (query_score (scored_in index.now (S.statistics statistics.now)) other.now doc)) scores.old.items scores.new.items) }
    ensures sound { OnOk result (query_damage index.now other.now ≡ None) }
    ensures fault { IfErr result (IsScoreFault (query_damage index.now other.now)) }
{
    let mut rest = part;
    match add_part(
        alloc,
        index,
        statistics,
        other,
        Combination::Unless,
        &mut rest,
    ) {
        Ok(()) => {
            combine(Combination::Either, scores, &rest);
            Ok(())
        }
        Err(fault) => Err(fault),
    }
}
