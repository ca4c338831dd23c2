//! Scorers that aren't made of others.
ghost use Rattle.ii_ranking.specs.LeafScorers.{leaf_state};

use crate::found_scorer::FoundScorer;
use crate::phrase_scorer::PhraseScorer;
use crate::term_scorer::TermScorer;
use ii_base::DocId;
use ii_bm25::Score;
use ii_scorer::{ScoreBound, Scorer};

// Gives what documents score by a term, a phrase, or documents that each score 1.0.
#[derive(Drop)]
pub(crate) enum LeafScorer {
    Term(TermScorer),
    Phrase(PhraseScorer),
    Found(FoundScorer),
}

impl Scorer for LeafScorer {
    ghost state = { leaf_state };

    fn max_score(&self) -> Score {
        match self {
            LeafScorer::Term(scorer) => scorer.max_score(),
            LeafScorer::Phrase(scorer) => scorer.max_score(),
            LeafScorer::Found(scorer) => scorer.max_score(),
        }
    }

    fn seek_with_score(&mut self, target: DocId, least: Score) -> DocId {
        match self {
            LeafScorer::Term(scorer) => scorer.seek_with_score(target, least),
            LeafScorer::Phrase(scorer) => scorer.seek_with_score(target, least),
            LeafScorer::Found(scorer) => scorer.seek_with_score(target, least),
        }
    }

    fn skip_to_score(&mut self, target: DocId, least: Score) -> DocId {
        match self {
            LeafScorer::Term(scorer) => scorer.skip_to_score(target, least),
            LeafScorer::Phrase(scorer) => scorer.skip_to_score(target, least),
            LeafScorer::Found(scorer) => scorer.skip_to_score(target, least),
        }
    }

    fn max_score_until(&mut self, target: DocId) -> ScoreBound {
        match self {
            LeafScorer::Term(scorer) => scorer.max_score_until(target),
            LeafScorer::Phrase(scorer) => scorer.max_score_until(target),
            LeafScorer::Found(scorer) => scorer.max_score_until(target),
        }
    }

    fn has_runs(&self) -> bool {
        match self {
            LeafScorer::Term(scorer) => scorer.has_runs(),
            LeafScorer::Phrase(scorer) => scorer.has_runs(),
            LeafScorer::Found(scorer) => scorer.has_runs(),
        }
    }

    fn score_at(&mut self, doc: DocId, least: Score) -> Option<Score> {
        match self {
            LeafScorer::Term(scorer) => scorer.score_at(doc, least),
            LeafScorer::Phrase(scorer) => scorer.score_at(doc, least),
            LeafScorer::Found(scorer) => scorer.score_at(doc, least),
        }
    }
}
