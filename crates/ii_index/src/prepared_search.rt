//! A query of an index that is prepared once, and searched many times.
ghost use Rattle.std.specs.Prelude.{◌≡◌, IfErr, IfOk, None, OnOk, map};
ghost use Rattle.std.specs.List.{AllByRecursion};
ghost use Rattle.ii_index.specs.Statistics.{searcher_tokens};
ghost use Rattle.ii_io.specs.Faults.{OnlyMemory};
ghost use Rattle.ii_ranking.specs.Scores.{IsScoreFault};
ghost use Rattle.ii_ranking.specs.Segments.{segment_of, segments_scored};
ghost use Rattle.ii_scorer.specs.TopDocs.{AreBest};
ghost use Rattle.ii_segment_search.specs.Searcher.{AreFew, HaveFields};
ghost use Rattle.ii_statistics.specs.Listed.{IsListedInEach};
ghost use Rattle.ii_statistics.specs.Statistics.{query_terms, ranking_damage, segments_statistics};

use crate::index_reader::Searcher;
use crate::ranking::ranked_segments;
use ii_base::{DocId, Fault};
use ii_prepared_term::PreparedSegments;
use ii_query_parser::Query;
use ii_ranking::{RankedSegment, Score, TopDocs};
use ii_segment_search::OpenSegment;
use ii_statistics::statistics_of;
use std::alloc::Global;
use std::marker::Model;

/// A query that is prepared in the open segments of an index (`Searcher::prepare`), and searched as often as wanted. Its
/// model is the list of the documents that match the query, each with its score.
pub struct PreparedSearch<'s> {
    segments: PreparedSegments<'s>,
}

// Makes each drop a call.
impl<'s> Drop for PreparedSearch<'s> {
    fn drop(self) {
        let PreparedSearch { segments: _ } = self;
    }
}

impl<'s> Model for PreparedSearch<'s> {
    ghost use Rattle.std.specs.Prelude.{ℕ, List};
    ghost use Rattle.ii_prepared_term.specs.PreparedSegments.{prepared_scored};

    ghost Value = { List (ℕ × ℕ) };

    ghost view = { λ s. prepared_scored 0 s.segments };
}

impl<'s> PreparedSearch<'s> {
    /// Returns the best documents that match the query, each with its score: exactly those that `Searcher::top_docs`
    /// returns. `docs` says how many are wanted, and how many better ones are passed. Fails only with `OutOfMemory`.
    pub fn top_docs(&self, alloc: Global, docs: &TopDocs) -> Result<Vec<(Score, DocId)>, Fault>
        ensures best { IfOk result (λ best. AreBest docs.now self.now best.items) }
        ensures only { OnlyMemory result }
    {
        self.segments.search(alloc, docs)
    }
}

// Prepares a query in segments, by their exact numbers, given those of their tokens.
pub(crate) fn prepare_by<'s>(
    alloc: Global,
    segments: &'s [OpenSegment],
    tokens: &Searcher,
    query: &Query,
) -> Result<PreparedSearch<'s>, Fault>
    requires fields { HaveFields query.now segments.now }
    requires few { AreFew segments.now }
    ensures scores { IfOk result (λ prepared. prepared ≡ segments_scored (segments_statistics (searcher_tokens tokens.now) segments.now) query.now 0 segments.now) }
    ensures listed { OnOk result (AllByRecursion (IsListedInEach segments.now) (query_terms query.now)) }
    ensures sound { OnOk result (ranking_damage segments.now query.now ≡ None) }
    ensures fault { IfErr result (IsScoreFault (ranking_damage segments.now query.now)) }
{
    let ranked = match ranked_segments(alloc, segments) {
        Ok(ranked) => ranked,
        Err(fault) => return Err(fault),
    };
    prepare_ranked(alloc, ranked.as_slice(), tokens, query)
}

// Prepares a query in segments that are ranked. See `prepare_by`.
fn prepare_ranked<'s>(
    alloc: Global,
    segments: &[RankedSegment<'s>],
    tokens: &Searcher,
    query: &Query,
) -> Result<PreparedSearch<'s>, Fault>
    requires fields { HaveFields query.now (map segment_of segments.now) }
    requires few { AreFew (map segment_of segments.now) }
    ensures scores { IfOk result (λ prepared. prepared ≡ segments_scored (segments_statistics (searcher_tokens tokens.now) (map segment_of segments.now)) query.now 0 (map segment_of segments.now)) }
    ensures listed { OnOk result (AllByRecursion (IsListedInEach (map segment_of segments.now)) (query_terms query.now)) }
    ensures sound { OnOk result (ranking_damage (map segment_of segments.now) query.now ≡ None) }
    ensures fault { IfErr result (IsScoreFault (ranking_damage (map segment_of segments.now) query.now)) }
{
    let statistics = match statistics_of(alloc, segments, tokens, query) {
        Ok(statistics) => statistics,
        Err(fault) => return Err(fault),
    };
    match PreparedSegments::open(alloc, segments, &statistics, query) {
        Ok(segments) => Ok(PreparedSearch { segments }),
        Err(fault) => Err(fault),
    }
}
