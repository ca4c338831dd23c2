//! The best documents of a query.
ghost use Rattle.std.specs.Prelude.{◌≡◌, ◌<◌, ◌≤◌, ◌^◌, ◌++◌, ℕ, IfErr, IfOk, List, None, OnOk, get_or, length, true};
ghost use Rattle.ii_io.specs.Faults.{OnlyMemory};
ghost use Rattle.ii_base.specs.Schema.{SchemaEntry};
ghost use Rattle.ii_definitions.specs.Tokens.{IndexToken};
ghost use Rattle.ii_query_parser.specs.Queries.{has_fields};
ghost use Rattle.ii_reader.specs.OpenIndex.{IndexHolds};
ghost use Rattle.ii_ranking.specs.Scores.{IsScoreFault, query_damage, query_score, scored_in};
ghost use Rattle.ii_ranking.specs.TokenScores.{GivesBest, token_score};
ghost use Rattle.ii_scorer.specs.TopDocs.{AreBest, scored_docs};
ghost use Rattle.ii_scorer.specs.TopNComputer.{KeepsBest};

use crate::clauses::goes_by_document;
use crate::numbers::AllNumbers;
use crate::opening::open_scorer;
use crate::scores::score_docs;
use ii_base::{DocId, Fault};
use ii_bm25::{Bm25StatisticsProvider, Score};
use ii_query_parser::Query;
use ii_reader::OpenIndex;
use ii_scorer::{TopDocs, TopNComputer, push_best};
use std::alloc::Global;

/// Returns the best of the documents below a number that match a query, each with its score: the greatest score
/// first, and of equal ones the smaller document. See `score_docs` for scores, requirements and errors.
pub fn search<S: Bm25StatisticsProvider>(
    alloc: Global,
    index: &OpenIndex,
    num_docs: DocId,
    statistics: &S,
    query: &Query,
    docs: &TopDocs,
) -> Result<Vec<(Score, DocId)>, Fault>
    requires fields { has_fields (length index.now.readers) query.now ≡ true }
    ensures best { IfOk result (λ best. AreBest docs.now (scored_docs num_docs (query_score (scored_in index.now (S.statistics statistics.now)) query.now)) best.items) }
    ensures sound { OnOk result (query_damage index.now query.now ≡ None) }
    ensures fault { IfErr result (IsScoreFault (query_damage index.now query.now)) }
    // where the index holds tokens of at least so many documents
    ensures holds { (schema : List SchemaEntry) (held : ℕ) (tokens : List IndexToken) → IndexHolds schema held index.now tokens → num_docs ≤ held → held < 2 ^ 32
        → has_fields (length schema) query.now ≡ true → GivesBest docs.now (scored_docs num_docs (token_score schema tokens (S.statistics statistics.now) query.now)) result }
{
    let mut computer = docs.computer(alloc);
    match push_docs(alloc, index, num_docs, statistics, query, &mut computer) {
        Ok(()) => docs.best_of(computer),
        Err(fault) => Err(fault),
    }
}

// Adds the documents below a number that match a query, each with its score.
fn push_docs<S: Bm25StatisticsProvider>(
    alloc: Global,
    index: &OpenIndex,
    num_docs: DocId,
    statistics: &S,
    query: &Query,
    computer: &mut TopNComputer,
) -> Result<(), Fault>
    requires fields { has_fields (length index.now.readers) query.now ≡ true }
    ensures kept { (scored : List (ℕ × ℕ)) → KeepsBest scored computer.old → OnOk result (KeepsBest (scored ++ scored_docs num_docs (query_score (scored_in index.now (S.statistics statistics.now)) query.now)) computer.new) }
    ensures wanted { computer.new.top_n ≡ computer.old.top_n }
    ensures sound { OnOk result (query_damage index.now query.now ≡ None) }
    ensures fault { IfErr result (IsScoreFault (query_damage index.now query.now)) }
{
    if goes_by_document(statistics, query) {
        return push_one_by_one(alloc, index, num_docs, statistics, query, computer);
    }
    let scores = score_docs(alloc, index, num_docs, statistics, query)?;
    push_scores(&scores, computer)?;
    Ok(())
}

// Adds them one after the other, and passes those that score too little.
fn push_one_by_one<S: Bm25StatisticsProvider>(
    alloc: Global,
    index: &OpenIndex,
    num_docs: DocId,
    statistics: &S,
    query: &Query,
    computer: &mut TopNComputer,
) -> Result<(), Fault>
    requires fields { has_fields (length index.now.readers) query.now ≡ true }
    ensures kept { (scored : List (ℕ × ℕ)) → KeepsBest scored computer.old → OnOk result (KeepsBest (scored ++ scored_docs num_docs (query_score (scored_in index.now (S.statistics statistics.now)) query.now)) computer.new) }
    ensures wanted { computer.new.top_n ≡ computer.old.top_n }
    ensures sound { OnOk result (query_damage index.now query.now ≡ None) }
    ensures fault { IfErr result (IsScoreFault (query_damage index.now query.now)) }
{
    let mut scorer = open_scorer(alloc, index, statistics, query)?;
    let numbers = AllNumbers { num_docs };
    push_best(&mut scorer, &numbers, computer)?;
    Ok(())
}

// Adds the documents that have a score, each with it.
fn push_scores(scores: &Vec<Option<Score>>, computer: &mut TopNComputer) -> Result<(), Fault>
    requires { length scores.now.items < 2 ^ 32 }
    ensures kept { (scored : List (ℕ × ℕ)) → KeepsBest scored computer.old → OnOk result (KeepsBest (scored ++ scored_docs (length scores.now.items) (λ doc. get_or scores.now.items doc None)) computer.new) }
    ensures wanted { computer.new.top_n ≡ computer.old.top_n }
    ensures only { OnlyMemory result }
{
    for place in 0..scores.len() {
        computer.push_scored(scores[place], place as DocId)?;
    }
    Ok(())
}
