//! How the scores of two parts become one.
ghost use Rattle.std.specs.Prelude.{◌≡◌};
ghost use Rattle.ii_scorer.specs.Combinations.{both, either};
ghost use Rattle.ii_scorer.specs.Scorers.{if_at_least};

use ii_bm25::Score;

/// Returns what a document scores by two parts, of which one has to match: their sum, at most `u64::MAX`, if both do.
pub fn either(first: Option<Score>, other: Option<Score>) -> Option<Score>
    ensures { result ≡ either first other }
{
    match (first, other) {
        (None, other) => other,
        (first, None) => first,
        (Some(first), Some(other)) => Some(first.saturating_add(other)),
    }
}

/// Returns what a document scores by two parts, of which both have to match.
pub fn both(first: Option<Score>, other: Option<Score>) -> Option<Score>
    ensures { result ≡ both first other }
{
    match (first, other) {
        (Some(first), Some(other)) => Some(first.saturating_add(other)),
        _ => None,
    }
}

/// Returns a score, if it is at least `least`.
pub fn if_at_least(least: Score, score: Option<Score>) -> Option<Score>
    ensures { result ≡ if_at_least least score }
{
    match score {
        Some(score) => { if score >= least { Some(score) } else { None } }
        None => None,
    }
}
