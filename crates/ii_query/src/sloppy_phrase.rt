ghost use Rattle.std.specs.Prelude.{◌≡◌, ◌<◌, ◌≤◌, ◌*◌, ◌∷◌, ℕ, IfSome};
ghost use Rattle.std.specs.List.{AllByRecursion, AllZip, list_any};
ghost use Rattle.ii_docset.specs.Cursor.{IsCurrent, positions_at};
ghost use Rattle.ii_query.specs.Phrase.{IsUnread, ReadsOnce, Spent, cursors_in, parts_in, phrase_docs, unread_term};
ghost use Rattle.ii_query.specs.SloppyPhrase.{IsRaised, are_in_window, sloppy_docs, stand_near_here};

use crate::phrase::{BEFORE_TEXT, PhrasePart, clear_all, go_to_phrase, is_phrase};
use ii_docset::{DocId, DocSet, Postings};
use std::marker::Model;

// Raises the start of a window until each of these terms in turn has a position in it. The result is the same
// start if all of them have one in the first window. If a term has none from there on, returns `None`.
pub(crate) fn raise_window<P: Postings>(
    terms: &mut Vec<PhrasePart<P>>,
    low: u64,
    slop: u32,
) -> Option<u64>
    requires current { AllByRecursion (λ part. IsCurrent part.rest) (parts_in terms.old.items) }
    requires up_to { low < 2 * BEFORE_TEXT }
    ensures raised { IsRaised (are_in_window slop terms.old.items) low result }
    ensures up_to { IfSome result (λ w. w < 2 * BEFORE_TEXT) }
    ensures later { IfSome result (λ next. (w : ℕ) → next ≤ w → are_in_window slop terms.new.items w ≡ are_in_window slop terms.old.items w) }
    ensures same { parts_in terms.new.items ≡ parts_in terms.old.items }
    ensures work { AllZip (ReadsOnce P.spent) terms.old.items terms.new.items }
{
    let mut window = low;
    for i in 0..terms.len() {
        let Some(next) = terms[i].next_window(window, slop) else {
            return None;
        };
        window = next;
    }
    Some(window)
}

// Does the same for the first term and the others.
fn raise_all<P: Postings>(
    first: &mut PhrasePart<P>,
    others: &mut Vec<PhrasePart<P>>,
    low: u64,
    slop: u32,
) -> Option<u64>
    requires first { IsCurrent first.old.part.rest }
    requires others { AllByRecursion (λ part. IsCurrent part.rest) (parts_in others.old.items) }
    requires up_to { low < 2 * BEFORE_TEXT }
    ensures raised { IsRaised (are_in_window slop (first.old ∷ others.old.items)) low result }
    ensures up_to { IfSome result (λ w. w < 2 * BEFORE_TEXT) }
    ensures later { IfSome result (λ next. (w : ℕ) → next ≤ w → are_in_window slop (first.new ∷ others.new.items) w ≡ are_in_window slop (first.old ∷ others.old.items) w) }

    // what stays, and the cost
    ensures first_same { first.new.part ≡ first.old.part }
    ensures others_same { parts_in others.new.items ≡ parts_in others.old.items }
    ensures first_work { ReadsOnce P.spent first.old first.new }
    ensures other_work { AllZip (ReadsOnce P.spent) others.old.items others.new.items }
{
    match first.next_window(low, slop) {
        Some(window) => raise_window(others, window, slop),
        None => None,
    }
}

// Returns whether all terms have a position in one window. All terms are at the current document of the first
// one. Positions are read in pieces, and only forward.
fn share_window<P: Postings>(
    first: &mut PhrasePart<P>,
    others: &mut Vec<PhrasePart<P>>,
    slop: u32,
) -> bool
    requires first { IsCurrent first.old.part.rest }
    requires others { AllByRecursion (λ part. IsCurrent part.rest) (parts_in others.old.items) }
    requires leads { first.old.part.distance ≡ 0 }
    requires first_unread { IsUnread first.old }
    requires others_unread { AllByRecursion IsUnread others.old.items }
    ensures phrase { result ≡ list_any (stand_near_here slop (parts_in others.old.items)) (positions_at first.old.part.rest) }

    // what stays, and the cost
    ensures first_same { first.new.part ≡ first.old.part }
    ensures others_same { parts_in others.new.items ≡ parts_in others.old.items }
    ensures first_work { ReadsOnce P.spent first.old first.new }
    ensures other_work { AllZip (ReadsOnce P.spent) others.old.items others.new.items }
{
    let mut low = 0;
    while let Some(window) = raise_all(first, others, low, slop) {
        if window == low {
            return true;
        }
        low = window;
    }
    false
}

// Returns whether the other terms occur near their distances from a position of the first term. All terms are
// at its current document.
pub(crate) fn is_phrase_within<P: Postings>(
    first: &mut PhrasePart<P>,
    others: &mut Vec<PhrasePart<P>>,
    slop: u32,
) -> bool
    requires first { IsCurrent first.old.part.rest }
    requires others { AllByRecursion (λ part. IsCurrent part.rest) (parts_in others.old.items) }
    requires leads { first.old.part.distance ≡ 0 }
    requires first_unread { IsUnread first.old }
    requires others_unread { AllByRecursion IsUnread others.old.items }
    ensures phrase { result ≡ list_any (stand_near_here slop (parts_in others.old.items)) (positions_at first.old.part.rest) }

    // what stays, and the cost
    ensures first_same { first.new.part ≡ first.old.part }
    ensures others_same { parts_in others.new.items ≡ parts_in others.old.items }
    ensures first_work { ReadsOnce P.spent first.old first.new }
    ensures other_work { AllZip (ReadsOnce P.spent) others.old.items others.new.items }
{
    if slop == 0 {
        is_phrase(first, others)
    } else {
        share_window(first, others, slop)
    }
}

/// A cursor over the documents that have a phrase within a slop, in ascending order: all terms have a position
/// such that these positions, each moved back by the term's distance, differ by at most the slop. With slop 0
/// it finds the documents of `PhraseMatch`. Two neighbours that are exchanged need a slop of 2.
///
/// Terms must differ: one position serves both of two equal terms. The first term leads, so pass the rarest
/// term first. Positions are read in pieces of `POSITIONS_READ`, without allocations, and each one at most once.
#[derive(Drop)]
pub struct SloppyPhraseMatch<P: Postings> {
    first: PhrasePart<P>,
    others: Vec<PhrasePart<P>>,
    slop: u32,
}

impl<P: Postings> Model for SloppyPhraseMatch<P> {
    ghost use Rattle.std.specs.Prelude.{◌≡◌, ◌∷◌, ◌+◌};
    ghost use Rattle.std.specs.List.{AllByRecursion};
    ghost use Rattle.ii_docset.specs.Cursor.{IsCurrent, doc_at};
    ghost use Rattle.ii_query.specs.Combined.{IsAtFirst};
    ghost use Rattle.ii_query.specs.Phrase.{IsUnreadFrom, cursors_in, parts_in};
    ghost use Rattle.ii_query.specs.SloppyPhrase.{SloppyPhraseMatchState, sloppy_docs};

    ghost Value = { SloppyPhraseMatchState P };

    ghost view = { λ s. record { slop = s.slop; phrase = record { first = s.first.part.rest; others = parts_in s.others.items; cursors = cursors_in (s.first ∷ s.others.items); terms = s.first ∷ s.others.items } } };

    ghost invariant = { λ s. IsAtFirst s.first.part.rest (sloppy_docs s.slop s.first.part.rest (parts_in s.others.items))
        × (IsCurrent s.first.part.rest → AllByRecursion (IsUnreadFrom (doc_at s.first.part.rest + 1)) s.others.items)
        × (s.first.part.distance ≡ 0) };
}

impl<P: Postings> SloppyPhraseMatch<P> {
    /// Returns a cursor over the documents that have the phrase of these terms within `slop`.
    pub fn new(first: P, others: Vec<PhrasePart<P>>, slop: u32) -> SloppyPhraseMatch<P>
        ensures slop { result.slop ≡ slop }
        ensures rest { sloppy_docs slop result.phrase.first result.phrase.others ≡ sloppy_docs slop (P.rest first) (parts_in others.items) }
        ensures exact { slop ≡ 0 → sloppy_docs slop result.phrase.first result.phrase.others ≡ phrase_docs (P.rest first) (parts_in others.items) }
        ensures work { AllZip (Spent P.spent) (first ∷ cursors_in others.items) result.phrase.cursors }
        ensures reads { AllByRecursion IsUnread others.items → AllZip (ReadsOnce P.spent) (unread_term 0 (P.rest first) first ∷ others.items) result.phrase.terms }
    {
        let mut first = PhrasePart::new(0, first);
        let mut others = others;
        clear_all(&mut others);
        go_to_phrase(&mut first, &mut others, slop);
        SloppyPhraseMatch {
            first,
            others,
            slop,
        }
    }
}

impl<P: Postings> DocSet for SloppyPhraseMatch<P> {
    ghost use Rattle.std.specs.List.{AllZip};
    ghost use Rattle.ii_query.specs.Phrase.{ReadsOnce, Spent};
    ghost use Rattle.ii_query.specs.SloppyPhrase.{sloppy_docs};
    ghost use Rattle.ii_query.specs.WorkLaws.{all_went_on, none_went, reads_in_turn, reads_nothing, spent_in_turn, spent_nothing};

    ghost rest = { λ s. sloppy_docs s.slop s.phrase.first s.phrase.others };

    // Its cursors advanced, and read positions, each one at most once.
    ghost went = { λ a b. AllZip (Spent P.spent) a.phrase.cursors b.phrase.cursors × AllZip (ReadsOnce P.spent) a.phrase.terms b.phrase.terms };

    ghost went_nowhere = { λ s. (none_went (Spent P.spent) (λ t. spent_nothing P.spent (P.spent_moving t t (P.went_nowhere t))) s.phrase.cursors, none_went (ReadsOnce P.spent) (λ t. reads_nothing P.spent t (P.spent_moving t.cursor t.cursor (P.went_nowhere t.cursor))) s.phrase.terms) };

    ghost went_on = { λ a b c first second. (all_went_on (Spent P.spent) (spent_in_turn P.spent P.spent_on) a.phrase.cursors b.phrase.cursors c.phrase.cursors first.0 second.0, all_went_on (ReadsOnce P.spent) (reads_in_turn P.spent P.spent_on) a.phrase.terms b.phrase.terms c.phrase.terms first.1 second.1) };

    fn advance(&mut self) -> DocId {
        self.first.advance();
        go_to_phrase(&mut self.first, &mut self.others, self.slop)
    }

    fn doc(&self) -> DocId {
        self.first.doc()
    }

    fn size_hint(&self) -> u32 {
        self.first.size_hint()
    }

    fn seek(&mut self, target: DocId) -> DocId {
        let doc = self.first.doc();
        if doc >= target {
            return doc;
        }
        self.first.go_to(target);
        go_to_phrase(&mut self.first, &mut self.others, self.slop)
    }
}
