//! Scorers of the parts of a prepared query that aren't made of others.
ghost use Rattle.ii_prepared_term.specs.PreparedLeaves.{prepared_leaf_state};

use crate::prepared_scorer::PreparedScorer;
use crate::scored_list::ListedScorer;
use ii_base::DocId;
use ii_bm25::Score;
use ii_scorer::{ScoreBound, Scorer};

/// Gives what documents score by a prepared term, or by a list of documents with their scores.
#[derive(Drop)]
pub enum PreparedLeaf<'a> {
    Term(PreparedScorer<'a>),
    Listed(ListedScorer<'a>),
}

impl<'a> Scorer for PreparedLeaf<'a> {
    ghost state = { prepared_leaf_state };

    fn max_score(&self) -> Score {
        match self {
            PreparedLeaf::Term(scorer) => scorer.max_score(),
            PreparedLeaf::Listed(scorer) => scorer.max_score(),
        }
    }

    fn seek_with_score(&mut self, target: DocId, least: Score) -> DocId {
        match self {
            PreparedLeaf::Term(scorer) => scorer.seek_with_score(target, least),
            PreparedLeaf::Listed(scorer) => scorer.seek_with_score(target, least),
        }
    }

    fn skip_to_score(&mut self, target: DocId, least: Score) -> DocId {
        match self {
            PreparedLeaf::Term(scorer) => scorer.skip_to_score(target, least),
            PreparedLeaf::Listed(scorer) => scorer.skip_to_score(target, least),
        }
    }

    fn max_score_until(&mut self, target: DocId) -> ScoreBound {
        match self {
            PreparedLeaf::Term(scorer) => scorer.max_score_until(target),
            PreparedLeaf::Listed(scorer) => scorer.max_score_until(target),
        }
    }

    fn has_runs(&self) -> bool {
        match self {
            PreparedLeaf::Term(scorer) => scorer.has_runs(),
            PreparedLeaf::Listed(scorer) => scorer.has_runs(),
        }
    }

    fn score_at(&mut self, doc: DocId, least: Score) -> Option<Score> {
        match self {
            PreparedLeaf::Term(scorer) => scorer.score_at(doc, least),
            PreparedLeaf::Listed(scorer) => scorer.score_at(doc, least),
        }
    }
}
