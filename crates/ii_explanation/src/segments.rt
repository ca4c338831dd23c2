//! What the score of a document of several segments is made of.
ghost use Rattle.std.specs.Prelude.{◌≡◌, ℕ, List, None, IfErr, IfOk, OnOk, Some, length, map};
ghost use Rattle.std.specs.List.{Contains};
ghost use Rattle.ii_io.specs.Faults.{OnlyMemory};
ghost use Rattle.ii_query_parser.specs.Queries.{tree_of};
ghost use Rattle.ii_segment_search.specs.Searcher.{HaveFields};
ghost use Rattle.ii_ranking.specs.Scores.{IsScoreFault};
ghost use Rattle.ii_ranking.specs.Segments.{segment_of, segments_damage, segments_scored};
ghost use Rattle.ii_ranking.specs.Shares.{share_of, total};
ghost use Rattle.ii_explanation.specs.Explanations.{AreSharesAt, number_damage};

use ii_base::{DocId, Fault};
use ii_query_parser::Query;
use ii_ranking::{Bm25StatisticsProvider, RankedSegment, Share, explain};
use std::alloc::Global;

/// Returns what the score of a document of segments is made of, given its number, by which `search_segments` returns
/// it: a share for each part of the query that the document matches, in the order of the query; nothing for what is
/// excluded, and nothing at all if no document has the number or the document doesn't match the query. The shares add
/// up to the document's score.
///
/// # Errors
///
/// Those of `explain` for the segment that has the document. Where `search_segments` returned documents, it fails only
/// with `OutOfMemory`.
pub fn explain_segments<'q, S: Bm25StatisticsProvider>(
    alloc: Global,
    segments: &[RankedSegment<'_>],
    statistics: &S,
    query: &'q Query,
    number: DocId,
) -> Result<Vec<Share<'q>>, Fault>
    requires fields { HaveFields query.now (map segment_of segments.now) }
    ensures shares { IfOk result (λ shares. AreSharesAt (S.statistics statistics.now) (tree_of query.now) (map segment_of segments.now) number (map share_of shares.items)) }
    ensures sum { (score : ℕ) → Contains (segments_scored (S.statistics statistics.now) query.now 0 (map segment_of segments.now)) (score, number) → IfOk result (λ shares. total (map share_of shares.items) ≡ Some score) }
    ensures sound { OnOk result (number_damage query.now number (map segment_of segments.now) ≡ None) }
    ensures fault { IfErr result (IsScoreFault (number_damage query.now number (map segment_of segments.now))) }
    ensures only { segments_damage query.now (map segment_of segments.now) ≡ None → OnlyMemory result }
{
    let mut left = number;
    for place in 0..segments.len() {
        let segment = segments[place];
        let living = segment.alive.num_living();
        if left < living {
            let doc = segment.alive.select(left);
            return explain(alloc, segment.index, statistics, query, doc);
        }
        left -= living;
    }
    Ok(Vec::new(alloc))
}
