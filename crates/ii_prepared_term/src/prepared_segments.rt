//! A query that is searched many times in several segments.
ghost use Rattle.std.specs.Prelude.{◌≡◌, ◌<◌, ◌^◌, ◌++◌, ℕ, IfErr, IfOk, List, None, OnOk, length, map, true};
ghost use Rattle.ii_io.specs.Faults.{OnlyMemory};
ghost use Rattle.ii_query_parser.specs.Queries.{has_fields};
ghost use Rattle.ii_segment_search.specs.Searcher.{HaveFields, total_living};
ghost use Rattle.ii_scorer.specs.TopDocs.{AreBest};
ghost use Rattle.ii_scorer.specs.TopNComputer.{KeepsBest};
ghost use Rattle.ii_ranking.specs.Scores.{IsScoreFault, query_damage, query_score, scored_in};
ghost use Rattle.ii_ranking.specs.Segments.{segment_of, segments_damage, segments_scored};
ghost use Rattle.ii_prepared_term.specs.PreparedSegments.{prepared_scored};
ghost use Rattle.ii_prepared_term.specs.PreparedQueries.{prepared_query_score};

use crate::prepared_query::PreparedQuery;
use ii_alive::AliveBits;
use ii_base::{DocId, Fault};
use ii_bm25::{Bm25StatisticsProvider, Score};
use ii_query_parser::Query;
use ii_ranking::RankedSegment;
use ii_reader::OpenIndex;
use ii_scorer::{TopDocs, TopNComputer};
use std::alloc::Global;
use std::marker::Model;

// A query that is prepared in a segment, and which of the segment's documents are alive.
#[derive(Drop)]
pub(crate) struct PreparedSegment<'a> {
    query: PreparedQuery,
    alive: &'a AliveBits,
}

impl<'a> Model for PreparedSegment<'a> {
    ghost use Rattle.ii_prepared_term.specs.PreparedSegments.{PreparedSegmentState};

    ghost Value = { PreparedSegmentState };

    ghost view = { λ s. record { query = s.query; alive = s.alive.now } };
}

impl<'a> PreparedSegment<'a> {
    // Prepares a query in a segment. See `PreparedQuery::open`.
    fn open<S: Bm25StatisticsProvider>(
        alloc: Global,
        index: &OpenIndex,
        alive: &'a AliveBits,
        statistics: &S,
        query: &Query,
    ) -> Result<PreparedSegment<'a>, Fault>
        requires fields { has_fields (length index.now.readers) query.now ≡ true }
        ensures scores { IfOk result (λ prepared. (doc : ℕ) → prepared_query_score prepared.query doc ≡ query_score (scored_in index.now (S.statistics statistics.now)) query.now doc) }
        ensures same { IfOk result (λ prepared. prepared.alive ≡ alive.now) }
        ensures sound { OnOk result (query_damage index.now query.now ≡ None) }
        ensures fault { IfErr result (IsScoreFault (query_damage index.now query.now)) }
    {
        match PreparedQuery::open(alloc, index, statistics, query) {
            Ok(query) => Ok(PreparedSegment { query, alive }),
            Err(fault) => Err(fault),
        }
    }
}

/// A query that is prepared in each of several segments (see `PreparedQuery`). It is searched without the segments'
/// indexes, as often as wanted.
///
/// Its model is the list of the segments: the query that is prepared in each, and which of its documents are alive.
#[derive(Drop)]
pub struct PreparedSegments<'a> {
    segments: Vec<PreparedSegment<'a>>,
}

impl<'a> Model for PreparedSegments<'a> {
    ghost use Rattle.std.specs.Prelude.{◌<◌, ◌^◌, List};
    ghost use Rattle.ii_prepared_term.specs.PreparedSegments.{PreparedSegmentState, prepared_living};

    ghost Value = { List PreparedSegmentState };

    ghost view = { λ s. s.segments.items };

    ghost invariant = { λ s. prepared_living s.segments.items < 2 ^ 32 };
}

impl<'a> PreparedSegments<'a> {
    /// Prepares a query in each segment. The statistics say how many documents and tokens count, as for
    /// `ii_ranking::search_segments`. All fields of the query must be fields of each segment, and there must be fewer
    /// than 2^32 living documents.
    ///
    /// # Errors
    ///
    /// Those of `PreparedQuery::open`, segment by segment.
    pub fn open<S: Bm25StatisticsProvider>(
        alloc: Global,
        segments: &[RankedSegment<'a>],
        statistics: &S,
        query: &Query,
    ) -> Result<PreparedSegments<'a>, Fault>
        requires fields { HaveFields query.now (map segment_of segments.now) }
        requires few { total_living (map segment_of segments.now) < 2 ^ 32 }
        ensures scores { IfOk result (λ prepared. prepared_scored 0 prepared ≡ segments_scored (S.statistics statistics.now) query.now 0 (map segment_of segments.now)) }
        ensures sound { OnOk result (segments_damage query.now (map segment_of segments.now) ≡ None) }
        ensures fault { IfErr result (IsScoreFault (segments_damage query.now (map segment_of segments.now))) }
    {
        let mut prepared = Vec::new(alloc);
        for place in 0..segments.len() {
            let segment = segments[place];
            match PreparedSegment::open(alloc, segment.index, segment.alive, statistics, query) {
                Ok(one) => prepared.push(one)?,
                Err(fault) => return Err(fault),
            }
        }
        Ok(PreparedSegments { segments: prepared })
    }

    /// Returns the best of the living documents that match the query, each with its score: the greatest score first, and
    /// of equal ones the smaller document. The living documents of the first segment are numbered from 0, then those of
    /// the next one. Fails only with `OutOfMemory`.
    pub fn search(&self, alloc: Global, docs: &TopDocs) -> Result<Vec<(Score, DocId)>, Fault>
        ensures best { IfOk result (λ best. AreBest docs.now (prepared_scored 0 self.now) best.items) }
        ensures only { OnlyMemory result }
    {
        let mut computer = docs.computer(alloc);
        match self.push_all(alloc, &mut computer) {
            Ok(()) => docs.best_of(computer),
            Err(fault) => Err(fault),
        }
    }

    // Adds the living documents of all segments that match the query, each with its score.
    fn push_all(&self, alloc: Global, computer: &mut TopNComputer) -> Result<(), Fault>
        ensures kept { (scored : List (ℕ × ℕ)) → KeepsBest scored computer.old → OnOk result (KeepsBest (scored ++ prepared_scored 0 self.now) computer.new) }
        ensures wanted { computer.new.top_n ≡ computer.old.top_n }
        ensures only { OnlyMemory result }
    {
        let mut base = 0;
        for place in 0..self.segments.len() {
            let segment = &self.segments[place];
            segment
                .query
                .push_living(alloc, segment.alive, base, computer)?;
            base += segment.alive.num_living();
        }
        Ok(())
    }
}
