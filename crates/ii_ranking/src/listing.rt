//! All documents that match a query, with their scores.
ghost use Rattle.std.specs.Prelude.{◌≡◌, ◌≤◌, ◌++◌, ℕ, IfErr, IfOk, None, OnOk, length, true};
ghost use Rattle.ii_io.specs.Faults.{OnlyMemory};
ghost use Rattle.ii_base.specs.declared.doc_id.TheConstants.{TERMINATED};
ghost use Rattle.ii_query_parser.specs.Queries.{has_fields};
ghost use Rattle.ii_ranking.specs.Listing.{scored_below};
ghost use Rattle.ii_ranking.specs.Scores.{IsScoreFault, query_damage, query_score, scored_in};
ghost use Rattle.ii_scorer.specs.Scorers.{score_of};
ghost use Rattle.ii_scorer.specs.TopDocs.{with_score};

use crate::opening::open_scorer;
use ii_base::{DocId, Fault, TERMINATED};
use ii_bm25::{Bm25StatisticsProvider, Score};
use ii_query_parser::Query;
use ii_reader::OpenIndex;
use ii_scorer::Scorer;
use std::alloc::Global;

/// Returns all documents that match a query, each with its score, in ascending order. See `score_docs` for scores,
/// requirements and errors.
pub fn list_scores<S: Bm25StatisticsProvider>(
    alloc: Global,
    index: &OpenIndex,
    statistics: &S,
    query: &Query,
) -> Result<Vec<(Score, DocId)>, Fault>
    requires fields { has_fields (length index.now.readers) query.now ≡ true }
    ensures listed { IfOk result (λ listed. listed.items ≡ scored_below TERMINATED (query_score (scored_in index.now (S.statistics statistics.now)) query.now)) }
    ensures ends { IfOk result (λ _. (doc : ℕ) → TERMINATED ≤ doc → query_score (scored_in index.now (S.statistics statistics.now)) query.now doc ≡ None) }
    ensures sound { OnOk result (query_damage index.now query.now ≡ None) }
    ensures fault { IfErr result (IsScoreFault (query_damage index.now query.now)) }
{
    let mut scorer = open_scorer(alloc, index, statistics, query)?;
    let listed = list_docs(alloc, &mut scorer)?;
    Ok(listed)
}

// Returns all documents that a scorer gives, each with its score, in ascending order.
fn list_docs<T: Scorer>(alloc: Global, scorer: &mut T) -> Result<Vec<(Score, DocId)>, Fault>
    ensures listed { IfOk result (λ listed. listed.items ≡ scored_below TERMINATED (score_of (T.state scorer.old))) }
    ensures ends { IfOk result (λ _. (doc : ℕ) → TERMINATED ≤ doc → score_of (T.state scorer.old) doc ≡ None) }
    ensures only { OnlyMemory result }
{
    // that no document from `TERMINATED` on has a score, for the proof
    let _most = scorer.max_score();
    let mut listed = Vec::new(alloc);
    let mut doc = 0;
    while doc < TERMINATED {
        let next = scorer.seek_with_score(doc, 0);
        if next >= TERMINATED {
            return Ok(listed);
        }
        let score = scorer.score_at(next, 0);
        push_listed(score, next, &mut listed)?;
        doc = next + 1;
    }
    Ok(listed)
}

// Adds a document with its score, if it has one.
fn push_listed(
    score: Option<Score>,
    doc: DocId,
    listed: &mut Vec<(Score, DocId)>,
) -> Result<(), Fault>
    ensures added { OnOk result (listed.new.items ≡ listed.old.items ++ with_score score doc) }
    ensures only { OnlyMemory result }
{
    if let Some(score) = score {
        listed.push((score, doc))?;
    }
    Ok(())
}
