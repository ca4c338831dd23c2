//! The best documents of open segments, and what their scores are made of.
ghost use Rattle.std.specs.Prelude.{◌≡◌, ℕ, IfErr, IfOk, List, None, OnOk, Some, length, map, true};
ghost use Rattle.std.specs.List.{AllByRecursion, Contains};
ghost use Rattle.ii_base.specs.Schema.{SchemaEntry};
ghost use Rattle.ii_explanation.specs.Explanations.{AreSharesAt, number_damage};
ghost use Rattle.ii_index.specs.Statistics.{searcher_tokens};
ghost use Rattle.ii_io.specs.Faults.{OnlyMemory};
ghost use Rattle.ii_query_parser.specs.Queries.{has_fields, tree_of};
ghost use Rattle.ii_ranking.specs.Scores.{IsScoreFault, first_of};
ghost use Rattle.ii_ranking.specs.Segments.{segment_of, segments_scored};
ghost use Rattle.ii_ranking.specs.Shares.{share_of, total};
ghost use Rattle.ii_ranking.specs.TokenScores.{GivesBest, tokens_scored};
ghost use Rattle.ii_scorer.specs.TopDocs.{AreBest};
ghost use Rattle.ii_segment_search.specs.Searcher.{AreFew, HaveFields, SegmentsHold};
ghost use Rattle.ii_segments.specs.Segments.{Segment};
ghost use Rattle.ii_statistics.specs.Listed.{IsListedInEach};
ghost use Rattle.ii_statistics.specs.Statistics.{query_terms, ranking_damage, segments_statistics, terms_damage};

use crate::index_reader::Searcher;
use ii_base::{DocId, Fault};
use ii_explanation::explain_segments;
use ii_query_parser::Query;
use ii_ranking::{RankedSegment, Score, Share, TopDocs, search_segments};
use ii_segment_search::OpenSegment;
use ii_statistics::statistics_of;
use std::alloc::Global;

// Returns the best documents of segments, by their exact numbers, given those of their tokens.
pub(crate) fn best_by(
    alloc: Global,
    segments: &[OpenSegment],
    tokens: &Searcher,
    query: &Query,
    docs: &TopDocs,
) -> Result<Vec<(Score, DocId)>, Fault>
    requires fields { HaveFields query.now segments.now }
    requires few { AreFew segments.now }
    ensures best { IfOk result (λ best. AreBest docs.now (segments_scored (segments_statistics (searcher_tokens tokens.now) segments.now) query.now 0 segments.now) best.items) }
    ensures listed { OnOk result (AllByRecursion (IsListedInEach segments.now) (query_terms query.now)) }
    ensures sound { OnOk result (ranking_damage segments.now query.now ≡ None) }
    ensures fault { IfErr result (IsScoreFault (ranking_damage segments.now query.now)) }
    // where the segments hold tokens
    ensures holds { (entries : List SchemaEntry) (ss : List Segment) → SegmentsHold entries segments.now ss → has_fields (length entries) query.now ≡ true
        → GivesBest docs.now (tokens_scored entries (segments_statistics (searcher_tokens tokens.now) segments.now) query.now 0 ss) result }
{
    let ranked = match ranked_segments(alloc, segments) {
        Ok(ranked) => ranked,
        Err(fault) => return Err(fault),
    };
    match best_of_ranked(alloc, ranked.as_slice(), tokens, query, docs) {
        Ok(best) => Ok(best),
        Err(fault) => Err(fault),
    }
}

// Returns the best documents of segments that are ranked. See `best_by`.
fn best_of_ranked(
    alloc: Global,
    segments: &[RankedSegment<'_>],
    tokens: &Searcher,
    query: &Query,
    docs: &TopDocs,
) -> Result<Vec<(Score, DocId)>, Fault>
    requires fields { HaveFields query.now (map segment_of segments.now) }
    requires few { AreFew (map segment_of segments.now) }
    ensures best { IfOk result (λ best. AreBest docs.now (segments_scored (segments_statistics (searcher_tokens tokens.now) (map segment_of segments.now)) query.now 0 (map segment_of segments.now)) best.items) }
    ensures listed { OnOk result (AllByRecursion (IsListedInEach (map segment_of segments.now)) (query_terms query.now)) }
    ensures sound { OnOk result (ranking_damage (map segment_of segments.now) query.now ≡ None) }
    ensures fault { IfErr result (IsScoreFault (ranking_damage (map segment_of segments.now) query.now)) }
    // where the segments hold tokens
    ensures holds { (entries : List SchemaEntry) (ss : List Segment) → SegmentsHold entries (map segment_of segments.now) ss → has_fields (length entries) query.now ≡ true
        → GivesBest docs.now (tokens_scored entries (segments_statistics (searcher_tokens tokens.now) (map segment_of segments.now)) query.now 0 ss) result }
{
    let statistics = match statistics_of(alloc, segments, tokens, query) {
        Ok(statistics) => statistics,
        Err(fault) => return Err(fault),
    };
    match search_segments(alloc, segments, &statistics, query, docs) {
        Ok(best) => Ok(best),
        Err(fault) => Err(fault),
    }
}

// Returns what the score of a document of segments is made of, by the exact numbers of the segments, given those of
// their tokens.
pub(crate) fn shares_by<'q>(
    alloc: Global,
    segments: &[OpenSegment],
    tokens: &Searcher,
    query: &'q Query,
    doc: DocId,
) -> Result<Vec<Share<'q>>, Fault>
    requires fields { HaveFields query.now segments.now }
    requires few { AreFew segments.now }
    ensures shares { IfOk result (λ shares. AreSharesAt (segments_statistics (searcher_tokens tokens.now) segments.now) (tree_of query.now) segments.now doc (map share_of shares.items)) }
    ensures sum { (score : ℕ) → Contains (segments_scored (segments_statistics (searcher_tokens tokens.now) segments.now) query.now 0 segments.now) (score, doc) → IfOk result (λ shares. total (map share_of shares.items) ≡ Some score) }
    ensures listed { OnOk result (AllByRecursion (IsListedInEach segments.now) (query_terms query.now)) }
    ensures sound { OnOk result (first_of (terms_damage segments.now (query_terms query.now)) (number_damage query.now doc segments.now) ≡ None) }
    ensures fault { IfErr result (IsScoreFault (first_of (terms_damage segments.now (query_terms query.now)) (number_damage query.now doc segments.now))) }
{
    let ranked = match ranked_segments(alloc, segments) {
        Ok(ranked) => ranked,
        Err(fault) => return Err(fault),
    };
    match shares_of_ranked(alloc, ranked.as_slice(), tokens, query, doc) {
        Ok(shares) => Ok(shares),
        Err(fault) => Err(fault),
    }
}

// Returns what the score of a document of segments that are ranked is made of. See `shares_by`.
fn shares_of_ranked<'q>(
    alloc: Global,
    segments: &[RankedSegment<'_>],
    tokens: &Searcher,
    query: &'q Query,
    doc: DocId,
) -> Result<Vec<Share<'q>>, Fault>
    requires fields { HaveFields query.now (map segment_of segments.now) }
    requires few { AreFew (map segment_of segments.now) }
    ensures shares { IfOk result (λ shares. AreSharesAt (segments_statistics (searcher_tokens tokens.now) (map segment_of segments.now)) (tree_of query.now) (map segment_of segments.now) doc (map share_of shares.items)) }
    ensures sum { (score : ℕ) → Contains (segments_scored (segments_statistics (searcher_tokens tokens.now) (map segment_of segments.now)) query.now 0 (map segment_of segments.now)) (score, doc)
        → IfOk result (λ shares. total (map share_of shares.items) ≡ Some score) }
    ensures listed { OnOk result (AllByRecursion (IsListedInEach (map segment_of segments.now)) (query_terms query.now)) }
    ensures sound { OnOk result (first_of (terms_damage (map segment_of segments.now) (query_terms query.now)) (number_damage query.now doc (map segment_of segments.now)) ≡ None) }
    ensures fault { IfErr result (IsScoreFault (first_of (terms_damage (map segment_of segments.now) (query_terms query.now)) (number_damage query.now doc (map segment_of segments.now)))) }
{
    let statistics = match statistics_of(alloc, segments, tokens, query) {
        Ok(statistics) => statistics,
        Err(fault) => return Err(fault),
    };
    match explain_segments(alloc, segments, &statistics, query, doc) {
        Ok(shares) => Ok(shares),
        Err(fault) => Err(fault),
    }
}

// Returns segments to rank.
pub(crate) fn ranked_segments<'a>(
    alloc: Global,
    segments: &'a [OpenSegment],
) -> Result<Vec<RankedSegment<'a>>, Fault>
    ensures same { IfOk result (λ ranked. map segment_of ranked.items ≡ segments.now) }
    ensures only { OnlyMemory result }
{
    let mut ranked = Vec::new(alloc);
    for place in 0..segments.len() {
        ranked.push(ranked_segment(&segments[place]))?;
    }
    Ok(ranked)
}

// Returns a segment to rank.
fn ranked_segment(segment: &OpenSegment) -> RankedSegment<'_>
    ensures { segment_of result ≡ segment.now }
{
    RankedSegment {
        index: segment.index(),
        alive: segment.alive(),
    }
}
