//! How the scores of a query's parts become its score.
ghost use Rattle.std.specs.Prelude.{◌≡◌, ◌<◌, ℕ, IfOk, None, get_or, length, min, nat_lt, if◌then◌else◌, Some, replicate};
ghost use Rattle.ii_io.specs.Faults.{OnlyMemory};
ghost use Rattle.ii_base.specs.declared.doc_id.TheConstants.{TERMINATED};
ghost use Rattle.ii_bm25.specs.declared.bm25.TheConstants.{SCORE_ONE};
ghost use Rattle.ii_ranking.specs.Combinations.{AddsToEach, AreCombined, added_at, combined};

use ii_base::{DocId, Fault, TERMINATED};
use ii_bm25::{SCORE_ONE, Score};
use ii_scorer::{both, either};
use std::alloc::Global;

/// How two scores of a document become one.
#[derive(Clone, Copy)]
pub enum Combination {
    /// One of two parts has to match.
    Either,
    /// Both have to match.
    Both,
    /// The first has to match, and the other one mustn't.
    Unless,
}

// Returns what a document scores by two parts.
fn combined(by: Combination, first: Option<Score>, other: Option<Score>) -> Option<Score>
    ensures { result ≡ combined by first other }
{
    match by {
        Combination::Either => either(first, other),
        Combination::Both => both(first, other),
        Combination::Unless => match other {
            None => first,
            Some(_) => None,
        },
    }
}

// Combines the scores of documents with others.
pub(crate) fn combine(by: Combination, scores: &mut Vec<Option<Score>>, others: &Vec<Option<Score>>)
    requires { length others.now.items ≡ length scores.old.items }
    ensures { AreCombined by (λ doc. get_or others.now.items doc None) scores.old.items scores.new.items }
{
    for doc in 0..scores.len() {
        scores[doc] = combined(by, scores[doc], others[doc]);
    }
}

// Adds the score of each document below a number.
pub(crate) fn add_all(limit: DocId, scores: &mut Vec<Option<Score>>)
    ensures { AddsToEach (λ doc. if nat_lt doc (min limit TERMINATED) then Some SCORE_ONE else None) scores.old.items scores.new.items }
{
    let limit = limit.min(TERMINATED) as usize;
    for doc in 0..scores.len() {
        if doc < limit {
            scores[doc] = either(scores[doc], Some(SCORE_ONE));
        }
    }
}

// Adds what a document scores to its score, if there is a place for it.
pub(crate) fn add_at(scores: &mut Vec<Option<Score>>, doc: DocId, score: Option<Score>)
    ensures { scores.new.items ≡ added_at score doc scores.old.items }
{
    let place = doc as usize;
    if place < scores.len() {
        scores[place] = either(scores[place], score);
    }
}

// Returns scores of so many documents, none of which matches.
pub(crate) fn no_scores(alloc: Global, num_docs: usize) -> Result<Vec<Option<Score>>, Fault>
    ensures made { IfOk result (λ scores. scores.items ≡ replicate num_docs None) }
    ensures only { OnlyMemory result }
{
    let mut scores = Vec::new(alloc);
    scores.resize(num_docs, None)?;
    Ok(scores)
}
