use crate::sloppy_phrase::SloppyPhraseMatch;
use ii_docset::{DocId, DocSet, Postings};

/// A cursor over the documents of a term, or of a phrase.
#[derive(Drop)]
pub enum TermOrPhrase<P: Postings> {
    /// The documents of a term.
    Term(P),
    /// The documents of a phrase within a slop.
    Phrase(SloppyPhraseMatch<P>),
}

impl<P: Postings> DocSet for TermOrPhrase<P> {
    ghost use Rattle.ii_query.specs.TermOrPhrase.{WentOn, rest_of};
    ghost use Rattle.ii_query.specs.TermOrPhraseLaws.{went_nowhere, went_on};
    ghost use Rattle.ii_query.specs.WorkLaws.{reads_in_turn, reads_nothing, spent_in_turn, spent_nothing};

    ghost rest = { λ s. rest_of P.rest s };

    ghost went = { λ a b. WentOn P.went P.spent a b };

    ghost went_nowhere = { λ s. went_nowhere P.went P.spent P.went_nowhere (λ t. spent_nothing P.spent (P.spent_moving t t (P.went_nowhere t))) (λ t. reads_nothing P.spent t (P.spent_moving t.cursor t.cursor (P.went_nowhere t.cursor))) s };

    ghost went_on = { λ a b c first second. went_on P.went P.spent P.went_on (spent_in_turn P.spent P.spent_on) (reads_in_turn P.spent P.spent_on) a b c first second };

    fn advance(&mut self) -> DocId {
        match self {
            TermOrPhrase::Term(cursor) => {
                return cursor.advance();
            }
            TermOrPhrase::Phrase(cursor) => {
                return cursor.advance();
            }
        }
    }

    fn doc(&self) -> DocId {
        match self {
            TermOrPhrase::Term(cursor) => cursor.doc(),
            TermOrPhrase::Phrase(cursor) => cursor.doc(),
        }
    }

    fn size_hint(&self) -> u32 {
        match self {
            TermOrPhrase::Term(cursor) => cursor.size_hint(),
            TermOrPhrase::Phrase(cursor) => cursor.size_hint(),
        }
    }

    fn seek(&mut self, target: DocId) -> DocId {
        match self {
            TermOrPhrase::Term(cursor) => {
                return cursor.seek(target);
            }
            TermOrPhrase::Phrase(cursor) => {
                return cursor.seek(target);
            }
        }
    }
}
