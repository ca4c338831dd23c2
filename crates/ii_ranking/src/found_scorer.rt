//! Scorers of documents that each score 1.0.
ghost use Rattle.std.specs.Prelude.{◌≡◌, ◌≤◌, ℕ, None, IfErr, IfOk, OnOk, Some, if◌then◌else◌, length, true};
ghost use Rattle.ii_base.specs.declared.doc_id.TheConstants.{TERMINATED};
ghost use Rattle.ii_bm25.specs.declared.bm25.TheConstants.{SCORE_ONE};
ghost use Rattle.ii_docset.specs.Intersection.{has_doc};
ghost use Rattle.ii_query_parser.specs.Queries.{has_fields};
ghost use Rattle.ii_search.specs.Found.{found_in};
ghost use Rattle.ii_ranking.specs.LeafScorers.{found_state, score_by_found};
ghost use Rattle.ii_ranking.specs.Scores.{IsScoreFault, damage_of, opened_or_none};

use crate::term_scorer::go_on;
use ii_base::{DocId, Fault, TERMINATED};
use ii_bm25::{SCORE_ONE, Score};
use ii_query_parser::Query;
use ii_reader::{OpenIndex, SegmentPostings};
use ii_scorer::{ScoreBound, Scorer, if_at_least};
use ii_search::{QueryCursor, TermOrPhrase, search};
use std::alloc::Global;

// Gives the score 1.0 to each document of a cursor.
#[derive(Drop)]
pub(crate) struct FoundScorer {
    cursor: QueryCursor<TermOrPhrase<SegmentPostings>>,
}

impl FoundScorer {
    // Opens a cursor over the documents that match a query.
    pub(crate) fn open(
        alloc: Global,
        index: &OpenIndex,
        query: &Query,
    ) -> Result<FoundScorer, Fault>
        requires fields { has_fields (length index.now.readers) query.now ≡ true }
        ensures scores { IfOk result (λ scorer. (doc : ℕ) → score_by_found scorer doc ≡ (if has_doc (opened_or_none (found_in index.now query.now)) doc then Some SCORE_ONE else None)) }
        ensures ends { IfOk result (λ scorer. (doc : ℕ) → TERMINATED ≤ doc → score_by_found scorer doc ≡ None) }
        ensures sound { OnOk result (damage_of (found_in index.now query.now) ≡ None) }
        ensures fault { IfErr result (IsScoreFault (damage_of (found_in index.now query.now))) }
    {
        let cursor = search(alloc, index, query)?;
        Ok(FoundScorer { cursor })
    }
}

impl Scorer for FoundScorer {
    ghost state = { found_state };

    fn max_score(&self) -> Score {
        SCORE_ONE
    }

    fn seek_with_score(&mut self, target: DocId, _least: Score) -> DocId {
        go_on(&mut self.cursor, target)
    }

    fn skip_to_score(&mut self, target: DocId, least: Score) -> DocId {
        self.seek_with_score(target, least)
    }

    fn max_score_until(&mut self, _target: DocId) -> ScoreBound {
        ScoreBound {
            most: self.max_score(),
            end: TERMINATED,
        }
    }

    fn has_runs(&self) -> bool {
        false
    }

    fn score_at(&mut self, doc: DocId, least: Score) -> Option<Score> {
        if go_on(&mut self.cursor, doc) != doc {
            return None;
        }
        if_at_least(least, Some(SCORE_ONE))
    }
}
