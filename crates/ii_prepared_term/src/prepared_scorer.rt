//! The scorer of a prepared term.
ghost use Rattle.std.specs.Prelude.{◌≡◌, ◌≤◌, ◌<◌};
ghost use Rattle.ii_base.specs.declared.doc_id.TheConstants.{TERMINATED};
ghost use Rattle.ii_block_shares.specs.BlockShares.{IsFirstReaching};
ghost use Rattle.ii_scorer.specs.Scorers.{MayScore};
ghost use Rattle.ii_ranking.specs.TermWeights.{score_by_entry};
ghost use Rattle.ii_prepared_term.specs.PreparedScorers.{IsScorer, ReadsRest, prepared_state};
ghost use Rattle.ii_prepared_term.specs.PreparedTerms.{GoesTo, GoesToScore, IsPrepared, prepared_bound};

use crate::prepared_term::PreparedTerm;
use ii_base::{DocId, TERMINATED};
use ii_block_shares::ShareReader;
use ii_bm25::Score;
use ii_docset::{DocSet, Postings};
use ii_reader::SegmentPostings;
use ii_scorer::{ScoreBound, Scorer, if_at_least};
use std::marker::Model;

/// Gives what documents score by a prepared term.
///
/// Its model is the prepared term, and a cursor over the rest of its list.
#[derive(Drop)]
pub struct PreparedScorer<'a> {
    term: &'a PreparedTerm,
    cursor: SegmentPostings,
    shares: ShareReader<'a>,
}

impl<'a> Model for PreparedScorer<'a> {
    ghost use Rattle.std.specs.Prelude.{◌≡◌};
    ghost use Rattle.ii_prepared_term.specs.PreparedScorers.{IsScorer, PreparedScorerState};

    ghost Value = { PreparedScorerState };

    ghost view = { λ s. record { term = s.term.now; cursor = s.cursor } };

    ghost invariant = { λ s. (s.shares ≡ s.term.now.shares) × IsScorer (record { term = s.term.now; cursor = s.cursor }) };
}

impl<'a> PreparedScorer<'a> {
    // Creates a scorer of the remaining documents of a cursor.
    pub(crate) fn new(term: &'a PreparedTerm, cursor: SegmentPostings) -> PreparedScorer<'a>
        requires { IsScorer (record { term = term.now; cursor = cursor }) }
        ensures { result ≡ record { term = term.now; cursor = cursor } }
    {
        PreparedScorer {
            term,
            cursor,
            shares: ShareReader::new(term.shares()),
        }
    }
}

impl<'a> Scorer for PreparedScorer<'a> {
    ghost state = { prepared_state };

    fn max_score(&self) -> Score {
        self.term.weight().max_score()
    }

    fn seek_with_score(&mut self, target: DocId, least: Score) -> DocId {
        let first = first_reaching(&mut self.shares, self.term, target, least);
        if first > target {
            return first;
        }
        go_to(&mut self.cursor, self.term, target)
    }

    fn skip_to_score(&mut self, target: DocId, least: Score) -> DocId {
        go_to_score(&mut self.cursor, &mut self.shares, self.term, target, least)
    }

    fn max_score_until(&mut self, target: DocId) -> ScoreBound {
        let bound = self.shares.bound_from(self.term.weight(), target);
        ScoreBound {
            most: bound.most,
            end: bound.end,
        }
    }

    fn has_runs(&self) -> bool {
        true
    }

    fn score_at(&mut self, doc: DocId, least: Score) -> Option<Score> {
        if go_to(&mut self.cursor, self.term, doc) != doc {
            return None;
        }
        let score = self.term.score(doc, self.cursor.term_freq());
        if_at_least(least, Some(score))
    }
}

// Goes to the first document from a target on that scores at least `least`, and returns it, or `TERMINATED`. Decodes only
// blocks that have the first document from one on whose bound reaches that score.
fn go_to_score(
    cursor: &mut SegmentPostings,
    shares: &mut ShareReader<'_>,
    term: &PreparedTerm,
    target: DocId,
    least: Score,
) -> DocId
    requires up_to { target ≤ TERMINATED }
    requires prepared { IsPrepared (record term.now { cursor = cursor.old }) }
    requires shares { shares.old ≡ term.now.shares }
    ensures went { GoesToScore (score_by_entry term.now.by) target least result cursor.old.rest cursor.new.rest }
    ensures same { shares.new ≡ shares.old }
    ensures reached { result < TERMINATED → least ≤ prepared_bound term.now result }
    ensures work { ReadsRest (MayScore target least result (prepared_bound term.now)) cursor.old cursor.new }
{
    let mut doc = go_to_bound(cursor, shares, term, target, least);
    while doc < TERMINATED {
        if term.score(doc, cursor.term_freq()) >= least {
            return doc;
        }
        doc = go_to_bound(cursor, shares, term, doc + 1, least);
    }
    doc
}

// Goes to the first document from a target on that may score at least `least` by the bound of its run, and returns it.
// Returns `TERMINATED`, and stays, if none may. Decodes only the block of that document.
fn go_to_bound(
    cursor: &mut SegmentPostings,
    shares: &mut ShareReader<'_>,
    term: &PreparedTerm,
    target: DocId,
    least: Score,
) -> DocId
    requires up_to { target ≤ TERMINATED }
    requires prepared { IsPrepared (record term.now { cursor = cursor.old }) }
    requires shares { shares.old ≡ term.now.shares }
    ensures went { GoesToScore (score_by_entry term.now.by) target least result cursor.old.rest cursor.new.rest }
    ensures same { shares.new ≡ shares.old }
    ensures work { ReadsRest (MayScore target least result (prepared_bound term.now)) cursor.old cursor.new }
{
    let first = first_reaching(shares, term, target, least);
    if first >= TERMINATED {
        return first;
    }
    go_to(cursor, term, first)
}

// Returns the first document from a target on that may score at least `least` by the bound of its run, or `TERMINATED`.
fn first_reaching(
    shares: &mut ShareReader<'_>,
    term: &PreparedTerm,
    target: DocId,
    least: Score,
) -> DocId
    requires up_to { target ≤ TERMINATED }
    requires shares { shares.old ≡ term.now.shares }
    ensures first { IsFirstReaching term.now.shares term.now.by.weight.weight least target result }
    ensures reaches { result < TERMINATED → least ≤ prepared_bound term.now result }
    ensures up_to { result ≤ TERMINATED }
    ensures same { shares.new ≡ shares.old }
{
    shares.first_reaching(term.weight(), target, least)
}

// Goes to the first document from a target on, and returns it. Returns `TERMINATED`, and stays, if there is none. Decodes
// only the block of that document.
fn go_to(cursor: &mut SegmentPostings, term: &PreparedTerm, target: DocId) -> DocId
    requires up_to { target ≤ TERMINATED }
    requires prepared { IsPrepared (record term.now { cursor = cursor.old }) }
    ensures went { GoesTo target result cursor.old.rest cursor.new.rest }
    ensures work { ReadsRest (λ from. from ≡ target) cursor.old cursor.new }
{
    let doc = cursor.doc();
    if doc >= target {
        return doc;
    }
    if target >= term.end() {
        return TERMINATED;
    }
    cursor.seek(target)
}
