//! The best documents of several segments.
ghost use Rattle.std.specs.Prelude.{◌≡◌, ◌+◌, ◌<◌, ◌≤◌, ◌^◌, ◌++◌, ℕ, IfErr, IfOk, List, None, OnOk, get_or, if◌then◌else◌, length, map, true};
ghost use Rattle.ii_io.specs.Faults.{OnlyMemory};
ghost use Rattle.ii_base.specs.Schema.{SchemaEntry};
ghost use Rattle.ii_alive.specs.Alive.{num_living};
ghost use Rattle.ii_segments.specs.Segments.{Segment, is_living};
ghost use Rattle.ii_segment_search.specs.Searcher.{HaveFields, SegmentsHold, total_living};
ghost use Rattle.ii_query_parser.specs.Queries.{has_fields};
ghost use Rattle.ii_ranking.specs.Scores.{IsScoreFault, query_damage, query_score, scored_in};
ghost use Rattle.ii_ranking.specs.Segments.{living_row, segment_of, segment_scored, segments_damage, segments_scored};
ghost use Rattle.ii_ranking.specs.TokenScores.{GivesBest, ScoringFailsForMemory, tokens_scored};
ghost use Rattle.ii_scorer.specs.TopDocs.{AreBest};
ghost use Rattle.ii_scorer.specs.TopNComputer.{KeepsBest};

use crate::clauses::goes_by_document;
use crate::numbers::LivingNumbers;
use crate::opening::open_scorer;
use crate::scores::score_docs;
use ii_alive::AliveBits;
use ii_base::{DocId, Fault};
use ii_bm25::{Bm25StatisticsProvider, Score};
use ii_query_parser::Query;
use ii_reader::OpenIndex;
use ii_scorer::{TopDocs, TopNComputer, push_best};
use std::alloc::Global;

/// An open segment whose documents are ranked: its index, and which of its documents are alive.
#[derive(Clone, Copy)]
pub struct RankedSegment<'a> {
    pub index: &'a OpenIndex,
    pub alive: &'a AliveBits,
}

/// Returns the best of the living documents of segments that match a query, each with its score: the greatest score
/// first, and of equal ones the smaller document. The living documents of the first segment are numbered from 0,
/// then those of the next one. There must be fewer than 2^32 of them. See `score_docs` for scores, requirements and
/// errors, which come segment by segment.
pub fn search_segments<S: Bm25StatisticsProvider>(
    alloc: Global,
    segments: &[RankedSegment<'_>],
    statistics: &S,
    query: &Query,
    docs: &TopDocs,
) -> Result<Vec<(Score, DocId)>, Fault>
    requires fields { HaveFields query.now (map segment_of segments.now) }
    requires few { total_living (map segment_of segments.now) < 2 ^ 32 }
    ensures best { IfOk result (λ best. AreBest docs.now (segments_scored (S.statistics statistics.now) query.now 0 (map segment_of segments.now)) best.items) }
    ensures sound { OnOk result (segments_damage query.now (map segment_of segments.now) ≡ None) }
    ensures fault { IfErr result (IsScoreFault (segments_damage query.now (map segment_of segments.now))) }
    // where the segments hold tokens
    ensures holds { (schema : List SchemaEntry) (ss : List Segment) → SegmentsHold schema (map segment_of segments.now) ss
        → has_fields (length schema) query.now ≡ true → GivesBest docs.now (tokens_scored schema (S.statistics statistics.now) query.now 0 ss) result }
{
    let mut computer = docs.computer(alloc);
    let mut base = 0;
    for place in 0..segments.len() {
        let segment = segments[place];
        match add_segment(
            alloc,
            segment.index,
            segment.alive,
            base,
            statistics,
            query,
            &mut computer,
        ) {
            Ok(()) => (),
            Err(fault) => return Err(fault),
        }
        base += segment.alive.num_living();
    }
    docs.best_of(computer)
}

// Adds the living documents of a segment that match a query, each with its score.
fn add_segment<S: Bm25StatisticsProvider>(
    alloc: Global,
    index: &OpenIndex,
    alive: &AliveBits,
    base: DocId,
    statistics: &S,
    query: &Query,
    computer: &mut TopNComputer,
) -> Result<(), Fault>
    requires fields { has_fields (length index.now.readers) query.now ≡ true }
    requires few { base + num_living alive.now < 2 ^ 32 }
    ensures kept { (scored : List (ℕ × ℕ)) → KeepsBest scored computer.old → OnOk result (KeepsBest (scored ++ segment_scored base alive.now (query_score (scored_in index.now (S.statistics statistics.now)) query.now)) computer.new) }
    ensures wanted { computer.new.top_n ≡ computer.old.top_n }
    ensures sound { OnOk result (query_damage index.now query.now ≡ None) }
    ensures fault { IfErr result (IsScoreFault (query_damage index.now query.now)) }
    ensures memory { IfErr result (ScoringFailsForMemory query.now (length alive.now) index.now) }
{
    let num_docs = alive.num_docs();
    if goes_by_document(statistics, query) {
        return add_one_by_one(alloc, index, alive, base, statistics, query, computer);
    }
    let scores = score_docs(alloc, index, num_docs, statistics, query)?;
    push_living(alive, base, &scores, computer)?;
    Ok(())
}

// Adds them one after the other, and passes those that score too little.
fn add_one_by_one<S: Bm25StatisticsProvider>(
    alloc: Global,
    index: &OpenIndex,
    alive: &AliveBits,
    base: DocId,
    statistics: &S,
    query: &Query,
    computer: &mut TopNComputer,
) -> Result<(), Fault>
    requires fields { has_fields (length index.now.readers) query.now ≡ true }
    requires few { base + num_living alive.now < 2 ^ 32 }
    ensures kept { (scored : List (ℕ × ℕ)) → KeepsBest scored computer.old → OnOk result (KeepsBest (scored ++ segment_scored base alive.now (query_score (scored_in index.now (S.statistics statistics.now)) query.now)) computer.new) }
    ensures wanted { computer.new.top_n ≡ computer.old.top_n }
    ensures sound { OnOk result (query_damage index.now query.now ≡ None) }
    ensures fault { IfErr result (IsScoreFault (query_damage index.now query.now)) }
{
    let mut scorer = open_scorer(alloc, index, statistics, query)?;
    let numbers = LivingNumbers { base, alive };
    push_best(&mut scorer, &numbers, computer)?;
    Ok(())
}

// Adds the living documents that have a score, each with it.
fn push_living(
    alive: &AliveBits,
    base: DocId,
    scores: &Vec<Option<Score>>,
    computer: &mut TopNComputer,
) -> Result<(), Fault>
    requires many { length scores.now.items ≡ length alive.now }
    requires few { base + num_living alive.now < 2 ^ 32 }
    ensures kept { (scored : List (ℕ × ℕ)) → KeepsBest scored computer.old → OnOk result (KeepsBest (scored ++ living_row base alive.now (length alive.now) scores.now.items) computer.new) }
    ensures wanted { computer.new.top_n ≡ computer.old.top_n }
    ensures only { OnlyMemory result }
{
    for doc in 0..alive.num_docs() {
        let number = base + alive.rank(doc);
        let score = score_if_living(alive, doc, scores[doc as usize]);
        computer.push_scored(score, number)?;
    }
    Ok(())
}

// Returns what a document scores, if it is alive.
fn score_if_living(alive: &AliveBits, doc: DocId, score: Option<Score>) -> Option<Score>
    requires { doc < length alive.now }
    ensures { result ≡ (if is_living alive.now doc then score else None) }
{
    if alive.is_alive(doc) {
        return score;
    }
    None
}
