//! Scorers of phrases.
ghost use Rattle.std.specs.Prelude.{◌≡◌, ◌<◌, ◌≤◌, ℕ, None, IfErr, IfOk, OnOk, length, nat_lt, true};
ghost use Rattle.std.specs.List.{list_all};
ghost use Rattle.ii_base.specs.declared.doc_id.TheConstants.{TERMINATED};
ghost use Rattle.ii_ranking.specs.LeafScorers.{phrase_state, score_by_phrase};
ghost use Rattle.ii_ranking.specs.Scores.{IsScoreFault, phrase_damage, phrase_score, scored_in};

use crate::phrase_scores::{phrase_norms, phrase_parts, score_of};
use ii_base::{DocId, Fault, IndexRecordOption, TERMINATED, Term};
use ii_bm25::{Bm25StatisticsProvider, Bm25Weight, Score};
use ii_fieldnorm::FieldNormReader;
use ii_query::{PhrasePart, clear_all, count_starts};
use ii_query_parser::PhraseTerm;
use ii_reader::{OpenIndex, SegmentPostings};
use ii_scorer::{ScoreBound, Scorer, if_at_least};
use ii_search::postings_of;
use std::alloc::Global;

// Gives what documents score by a phrase within a slop.
#[derive(Drop)]
pub(crate) struct PhraseScorer {
    first: PhrasePart<SegmentPostings>,
    others: Vec<PhrasePart<SegmentPostings>>,
    slop: u32,
    norms: Option<FieldNormReader>,
    weight: Bm25Weight,
}

impl PhraseScorer {
    // Opens the postings of a phrase's terms.
    pub(crate) fn open<S: Bm25StatisticsProvider>(
        alloc: Global,
        index: &OpenIndex,
        statistics: &S,
        first: &Term,
        others: &[PhraseTerm],
        slop: u32,
    ) -> Result<PhraseScorer, Fault>
        requires first { first.now.field < length index.now.readers }
        requires others { list_all (λ o. nat_lt o.term.field (length index.now.readers)) others.now ≡ true }
        ensures scores { IfOk result (λ scorer. (doc : ℕ) → score_by_phrase scorer doc ≡ phrase_score (scored_in index.now (S.statistics statistics.now)) first.now others.now slop doc) }
        ensures ends { IfOk result (λ scorer. (doc : ℕ) → TERMINATED ≤ doc → score_by_phrase scorer doc ≡ None) }
        ensures sound { OnOk result (phrase_damage index.now first.now others.now ≡ None) }
        ensures fault { IfErr result (IsScoreFault (phrase_damage index.now first.now others.now)) }
    {
        let cursor = postings_of(index, first, IndexRecordOption::WithFreqsAndPositions)?;
        let parts = phrase_parts(alloc, index, others)?;
        let (norms, weight) = phrase_norms(alloc, index, statistics, first, others)?;
        let first = PhrasePart::new(0, cursor);
        // that documents ascend, for the proof
        let _doc = first.doc();
        Ok(PhraseScorer {
            first,
            others: parts,
            slop,
            norms,
            weight,
        })
    }
}

impl Scorer for PhraseScorer {
    ghost state = { phrase_state };

    fn max_score(&self) -> Score {
        self.weight.max_score()
    }

    fn seek_with_score(&mut self, target: DocId, _least: Score) -> DocId {
        self.first.clear();
        self.first.go_to(target)
    }

    fn skip_to_score(&mut self, target: DocId, least: Score) -> DocId {
        self.seek_with_score(target, least)
    }

    fn max_score_until(&mut self, _target: DocId) -> ScoreBound {
        ScoreBound {
            most: self.max_score(),
            end: TERMINATED,
        }
    }

    fn has_runs(&self) -> bool {
        false
    }

    fn score_at(&mut self, doc: DocId, least: Score) -> Option<Score> {
        self.first.clear();
        if self.first.go_to(doc) != doc {
            return None;
        }
        clear_all(&mut self.others);
        let count = count_starts(&mut self.first, &mut self.others, self.slop);
        if_at_least(least, score_of(&self.weight, &self.norms, doc, count))
    }
}
