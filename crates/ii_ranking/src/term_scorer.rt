//! Scorers of terms.
ghost use Rattle.std.specs.Prelude.{◌≡◌, ◌<◌, ◌≤◌, ℕ, None, IfErr, IfOk, OnOk, length};
ghost use Rattle.ii_base.specs.declared.doc_id.TheConstants.{TERMINATED};
ghost use Rattle.ii_bm25.specs.Statistics.{Statistics};
ghost use Rattle.ii_docset.specs.Cursor.{IsSound, doc_at, from_doc};
ghost use Rattle.ii_ranking.specs.LeafScorers.{score_by_term, term_state};
ghost use Rattle.ii_ranking.specs.TermWeights.{IsFreqFor, SkipsFewer, SkipsLess, score_by_entry};
ghost use Rattle.ii_ranking.specs.Scores.{IsScoreFault, scored_in, term_damage, term_score};

use crate::term_scores::{norms_of, weight_of};
use crate::term_weight::TermWeight;
use ii_base::{DocId, Fault, IndexRecordOption, TERMINATED, Term};
use ii_bm25::{Bm25StatisticsProvider, Score};
use ii_docset::{DocSet, Postings};
use ii_reader::{OpenIndex, SegmentPostings};
use ii_scorer::{ScoreBound, Scorer, if_at_least};
use ii_search::postings_of;
use std::alloc::Global;

// Gives what documents score by a term.
#[derive(Drop)]
pub(crate) struct TermScorer {
    cursor: SegmentPostings,
    by: TermWeight,
}

impl TermScorer {
    // Opens the postings of a term.
    pub(crate) fn open<S: Bm25StatisticsProvider>(
        alloc: Global,
        index: &OpenIndex,
        statistics: &S,
        term: &Term,
    ) -> Result<TermScorer, Fault>
        requires field { term.now.field < length index.now.readers }
        ensures scores { IfOk result (λ scorer. (doc : ℕ) → score_by_term scorer doc ≡ term_score (scored_in index.now (S.statistics statistics.now)) term.now doc) }
        ensures ends { IfOk result (λ scorer. (doc : ℕ) → TERMINATED ≤ doc → score_by_term scorer doc ≡ None) }
        ensures sound { OnOk result (term_damage index.now term.now ≡ None) }
        ensures fault { IfErr result (IsScoreFault (term_damage index.now term.now)) }
    {
        let cursor = postings_of(index, term, IndexRecordOption::WithFreqs)?;
        let norms = norms_of(index, term.field())?;
        let weight = weight_of(alloc, statistics, term)?;
        // that documents ascend, for the proof
        let _first = cursor.doc();
        let by = TermWeight::new(weight, norms, cursor.doc_freq());
        Ok(TermScorer { cursor, by })
    }
}

impl Scorer for TermScorer {
    ghost state = { term_state };

    fn max_score(&self) -> Score {
        self.by.max_score()
    }

    fn seek_with_score(&mut self, target: DocId, _least: Score) -> DocId {
        go_on(&mut self.cursor, target)
    }

    fn skip_to_score(&mut self, target: DocId, least: Score) -> DocId {
        let freq = self.by.least_term_freq(least);
        go_to_score(&mut self.cursor, &self.by, freq, target, least)
    }

    fn max_score_until(&mut self, _target: DocId) -> ScoreBound {
        ScoreBound {
            most: self.max_score(),
            end: TERMINATED,
        }
    }

    fn has_runs(&self) -> bool {
        false
    }

    fn score_at(&mut self, doc: DocId, least: Score) -> Option<Score> {
        if go_on(&mut self.cursor, doc) != doc {
            return None;
        }
        let score = self.by.score(doc, self.cursor.term_freq());
        if_at_least(least, Some(score))
    }
}

// Goes to the first document from a target on that scores at least `least`, and returns it, or `TERMINATED`. Each document
// with a count below `freq` must score less.
fn go_to_score(
    cursor: &mut SegmentPostings,
    by: &TermWeight,
    freq: u32,
    target: DocId,
    least: Score,
) -> DocId
    requires up_to { target ≤ TERMINATED }
    requires freq { IsFreqFor by.now least freq }
    ensures { SkipsLess (score_by_entry by.now) target least result cursor.old.rest cursor.new.rest }
{
    let mut doc = go_to_freq(cursor, target, freq);
    while doc < TERMINATED {
        if by.score(doc, cursor.term_freq()) >= least {
            return doc;
        }
        doc = go_to_freq(cursor, doc + 1, freq);
    }
    doc
}

// Goes to a document from a target on, and returns it. Those that it passes have a count below `freq`.
fn go_to_freq(cursor: &mut SegmentPostings, target: DocId, freq: u32) -> DocId
    requires { target ≤ TERMINATED }
    ensures { SkipsFewer target freq result cursor.old.rest cursor.new.rest }
{
    if freq <= 1 {
        return go_on(cursor, target);
    }
    let doc = cursor.doc();
    cursor.seek_with_freq(target.max(doc), freq)
}

/// Drops the documents below a target, which may be below the current document, and returns the current document, or
/// `TERMINATED`. The target must be at most `TERMINATED`.
pub fn go_on<D: DocSet>(cursor: &mut D, target: DocId) -> DocId
    requires { target ≤ TERMINATED }
    ensures doc { result ≡ doc_at (D.rest cursor.new) }
    ensures rest { D.rest cursor.new ≡ from_doc target (D.rest cursor.old) }
    ensures sound { IsSound (D.rest cursor.new) }
{
    let doc = cursor.doc();
    if doc >= target {
        return doc;
    }
    cursor.seek(target)
}
