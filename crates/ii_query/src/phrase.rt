ghost use Rattle.std.specs.Prelude.{◌≡◌, ◌<◌, ◌≤◌, ◌+◌, ◌*◌, ◌∷◌, ℕ, drop, length, map, slice_get, IfSome, IsSome};
ghost use Rattle.std.specs.List.{AllByRecursion, AllZip, list_any};
ghost use Rattle.ii_docset.specs.Cursor.{IsCurrent, IsSound, doc_at, from_doc, positions_at};
ghost use Rattle.ii_query.specs.Combined.{IsAtFirst};
ghost use Rattle.ii_query.specs.Phrase.{IsAtDoc, IsCandidate, IsUnread, IsUnreadFrom, MeetsAt, PhrasePartState, ReadsOnce, Spent, cursors_in, is_left, parts_in, phrase_docs, stand_here, stand_left, unread, unread_term};
ghost use Rattle.ii_query.specs.SloppyPhrase.{IsRaised, is_in_window, sloppy_docs};

use crate::position_piece::PositionPiece;
use crate::sloppy_phrase::is_phrase_within;
use ii_docset::{DocId, DocSet, Postings, TERMINATED};
use std::marker::Model;

// How far before the text the windows of phrases with slop begin, so that their starts aren't negative.
pub(crate) const BEFORE_TEXT: u64 = 1 << 32;

/// A term of a phrase: a cursor over its postings, and how many positions after the first term it occurs.
#[derive(Drop)]
pub struct PhrasePart<P: Postings> {
    distance: u32,
    postings: P,
    piece: PositionPiece,
}

impl<P: Postings> Model for PhrasePart<P> {
    ghost use Rattle.ii_docset.specs.Cursor.{positions_at};
    ghost use Rattle.ii_query.specs.Phrase.{PhraseTermState};
    ghost use Rattle.ii_query.specs.PositionPiece.{IsPieceOf, term_with};

    ghost Value = { PhraseTermState P };

    ghost view = { λ s. term_with s.distance (P.rest s.postings) s.postings s.piece };

    ghost invariant = { λ s. IsPieceOf (positions_at (P.rest s.postings)) s.piece };
}

impl<P: Postings> PhrasePart<P> {
    /// Returns a term that occurs `distance` positions after the first one.
    pub fn new(distance: u32, postings: P) -> PhrasePart<P>
        ensures distance { result.part.distance ≡ distance }
        ensures rest { result.part.rest ≡ P.rest postings }
        ensures cursor { result.cursor ≡ postings }
        ensures unread { IsUnread result }
    {
        PhrasePart {
            distance,
            postings,
            piece: PositionPiece::new(),
        }
    }

    // Returns at least the number of remaining documents.
    pub(crate) fn size_hint(&self) -> u32
        ensures { length self.now.part.rest ≤ result }
    {
        let hint = self.postings.size_hint();
        hint
    }

    /// Forgets what was read of the current document's positions, which are then read anew.
    pub fn clear(&mut self)
        ensures { self.new ≡ unread self.old }
    {
        self.piece.clear();
    }

    /// Returns the current document of the term, or `TERMINATED`.
    pub fn doc(&self) -> DocId
        ensures doc { result ≡ doc_at self.now.part.rest }
        ensures sound { IsSound self.now.part.rest }
    {
        self.postings.doc()
    }

    /// Advances to the next document of the term, and returns it.
    pub fn advance(&mut self) -> DocId
        ensures doc { result ≡ doc_at self.new.part.rest }
        ensures rest { self.new.part.rest ≡ drop 1 self.old.part.rest }
        ensures sound { IsSound self.new.part.rest }
        ensures unread { IsUnread self.new }
        ensures distance { self.new.part.distance ≡ self.old.part.distance }
        ensures work { ReadsOnce P.spent self.old self.new }
    {
        let doc = self.postings.advance();
        self.piece.clear();
        doc
    }

    // Returns at least the number of positions of the current document.
    pub(crate) fn most_positions(&self) -> u32
        requires { IsCurrent self.now.part.rest }
        ensures { length (positions_at self.now.part.rest) ≤ result }
    {
        self.postings.term_freq()
    }

    /// Drops the documents of the term below `target`, which may be below the current document, and returns the
    /// current document. Of the current document no position may have been read, if it isn't dropped.
    #[tactic(auto, using(ii_docset::proofs::CursorLemmas::doc_below))]
    pub fn go_to(&mut self, target: DocId) -> DocId
        requires up_to { target ≤ TERMINATED }
        requires unread { IsUnreadFrom target self.old }
        ensures doc { result ≡ doc_at self.new.part.rest }
        ensures rest { self.new.part.rest ≡ from_doc target self.old.part.rest }
        ensures sound { IsSound self.new.part.rest }
        ensures up_to { result ≤ TERMINATED }
        ensures unread { IsUnread self.new }
        ensures distance { self.new.part.distance ≡ self.old.part.distance }
        ensures work { ReadsOnce P.spent self.old self.new }
    {
        let doc = self.postings.doc();
        if doc >= target {
            return doc;
        }
        let doc = self.postings.seek(target);
        self.piece.clear();
        doc
    }

    // Returns the next position of the current document, and passes it.
    pub(crate) fn next_position(&mut self) -> Option<u32>
        requires { IsCurrent self.old.part.rest }
        ensures position { result ≡ slice_get (positions_at self.old.part.rest) self.old.passed }
        ensures passed { IsSome result → self.new.passed ≡ self.old.passed + 1 }
        ensures same { self.new.part ≡ self.old.part }
        ensures work { ReadsOnce P.spent self.old self.new }
    {
        self.piece.pass(&mut self.postings)
    }

    // Returns whether the term occurs in the current document at its distance from a position. This must be
    // at least each position that it was called with before in this document.
    fn stands_from(&mut self, start: u32) -> bool
        requires { IsCurrent self.old.part.rest }
        ensures stands { result ≡ is_left self.old start }
        ensures later { (s : ℕ) → start ≤ s → is_left self.new s ≡ is_left self.old s }
        ensures same { self.new.part ≡ self.old.part }
        ensures work { ReadsOnce P.spent self.old self.new }
    {
        // that positions have 32 bits and don't decrease, for the proof
        let _doc = self.postings.doc();
        match start.checked_add(self.distance) {
            Some(position) => self.piece.pass_below(&mut self.postings, position),
            None => false,
        }
    }

    // Returns the least start of a window, from `low` on, that has a position of the term in the current
    // document. Passes the positions that no window from `low` on has.
    pub(crate) fn next_window(&mut self, low: u64, slop: u32) -> Option<u64>
        requires current { IsCurrent self.old.part.rest }
        requires up_to { low < 2 * BEFORE_TEXT }
        ensures raised { IsRaised (λ w. is_in_window slop w self.old) low result }
        ensures up_to { IfSome result (λ w. w < 2 * BEFORE_TEXT) }
        ensures later { (w : ℕ) → low ≤ w → is_in_window slop w self.new ≡ is_in_window slop w self.old }
        ensures same { self.new.part ≡ self.old.part }
        ensures work { ReadsOnce P.spent self.old self.new }
    {
        // that positions have 32 bits and don't decrease, for the proof
        let _doc = self.postings.doc();
        let distance = u64::from(self.distance);
        let least = (low + distance).saturating_sub(BEFORE_TEXT);
        let Some(position) = self.piece.next_from(&mut self.postings, least) else {
            return None;
        };
        let end = u64::from(position) + BEFORE_TEXT;
        Some(low.max(end.saturating_sub(distance + u64::from(slop))))
    }
}

// Moves the other terms to a document. Returns it if all of them have it, else a greater document; the
// phrase occurs in no document between.
pub(crate) fn meet_others<P: Postings>(others: &mut Vec<PhrasePart<P>>, doc: DocId) -> DocId
    requires low { doc < TERMINATED }
    requires unread { AllByRecursion (IsUnreadFrom doc) others.old.items }
    ensures meets { MeetsAt doc (parts_in others.old.items) (parts_in others.new.items) result }
    ensures unread { AllByRecursion (IsUnreadFrom doc) others.new.items }
    ensures work { AllZip (ReadsOnce P.spent) others.old.items others.new.items }
{
    for i in 0..others.len() {
        let bound = others[i].go_to(doc);
        if bound != doc {
            return bound;
        }
    }
    doc
}

// Returns whether the other terms occur in their current documents at their distances from a position. Passes
// positions that aren't needed for this one and greater ones.
fn stand_from<P: Postings>(others: &mut Vec<PhrasePart<P>>, start: u32) -> bool
    requires { AllByRecursion (λ part. IsCurrent part.rest) (parts_in others.old.items) }
    ensures stand { result ≡ stand_left others.old.items start }
    ensures later { (s : ℕ) → start ≤ s → stand_left others.new.items s ≡ stand_left others.old.items s }
    ensures same { parts_in others.new.items ≡ parts_in others.old.items }
    ensures work { AllZip (ReadsOnce P.spent) others.old.items others.new.items }
{
    for i in 0..others.len() {
        if !others[i].stands_from(start) {
            return false;
        }
    }
    true
}

// Returns whether they do for a position of the first term. All terms are at its current document. Positions
// are read in pieces, and only forward.
pub(crate) fn is_phrase<P: Postings>(
    first: &mut PhrasePart<P>,
    others: &mut Vec<PhrasePart<P>>,
) -> bool
    requires first { IsCurrent first.old.part.rest }
    requires others { AllByRecursion (λ part. IsCurrent part.rest) (parts_in others.old.items) }
    requires first_unread { IsUnread first.old }
    requires others_unread { AllByRecursion IsUnread others.old.items }
    ensures phrase { result ≡ list_any (stand_here (parts_in others.old.items)) (positions_at first.old.part.rest) }
    ensures first_same { first.new.part ≡ first.old.part }
    ensures others_same { parts_in others.new.items ≡ parts_in others.old.items }
    ensures first_work { ReadsOnce P.spent first.old first.new }
    ensures other_work { AllZip (ReadsOnce P.spent) others.old.items others.new.items }
{
    // that positions don't decrease, for the proof
    let _doc = first.doc();
    while let Some(start) = first.next_position() {
        if stand_from(others, start) {
            return true;
        }
    }
    false
}

// Returns the current document of the first term if it has the phrase within the slop, else a greater
// document; the phrase occurs in no document between.
fn candidate<P: Postings>(
    first: &mut PhrasePart<P>,
    others: &mut Vec<PhrasePart<P>>,
    slop: u32,
    doc: DocId,
) -> DocId
    requires low { doc < TERMINATED }
    requires here { doc ≡ doc_at first.old.part.rest }
    requires leads { first.old.part.distance ≡ 0 }
    requires first_unread { IsUnread first.old }
    requires others_unread { AllByRecursion (IsUnreadFrom doc) others.old.items }
    ensures first { first.new.part ≡ first.old.part }
    ensures same { sloppy_docs slop first.old.part.rest (parts_in others.new.items) ≡ sloppy_docs slop first.old.part.rest (parts_in others.old.items) }
    ensures candidate { IsCandidate doc (sloppy_docs slop first.old.part.rest (parts_in others.new.items)) result }

    // the cost, and what was read
    ensures unread { AllByRecursion (IsUnreadFrom (doc + 1)) others.new.items }
    ensures first_work { ReadsOnce P.spent first.old first.new }
    ensures other_work { AllZip (ReadsOnce P.spent) others.old.items others.new.items }
{
    // the invariant that documents ascend, for the proof
    let _doc = first.doc();
    let bound = meet_others(others, doc);
    if bound != doc {
        return bound;
    }
    if is_phrase_within(first, others, slop) {
        doc
    } else {
        doc + 1
    }
}

// Moves to the next document that has the phrase within the slop, which may be the current one.
pub(crate) fn go_to_phrase<P: Postings>(
    first: &mut PhrasePart<P>,
    others: &mut Vec<PhrasePart<P>>,
    slop: u32,
) -> DocId
    requires leads { first.old.part.distance ≡ 0 }
    requires first_unread { IsUnread first.old }
    requires others_unread { IsCurrent first.old.part.rest → AllByRecursion (IsUnreadFrom (doc_at first.old.part.rest)) others.old.items }
    ensures doc { result ≡ doc_at first.new.part.rest }
    ensures at { IsAtFirst first.new.part.rest (sloppy_docs slop first.new.part.rest (parts_in others.new.items)) }
    ensures rest { sloppy_docs slop first.new.part.rest (parts_in others.new.items) ≡ sloppy_docs slop first.old.part.rest (parts_in others.old.items) }

    // the first term's distance, the cost, and what was read
    ensures leads { first.new.part.distance ≡ 0 }
    ensures unread { IsCurrent first.new.part.rest → AllByRecursion (IsUnreadFrom (doc_at first.new.part.rest + 1)) others.new.items }
    ensures first_work { ReadsOnce P.spent first.old first.new }
    ensures other_work { AllZip (ReadsOnce P.spent) others.old.items others.new.items }
{
    let mut doc = first.doc();
    while doc < TERMINATED {
        let bound = candidate(first, others, slop, doc);
        if bound == doc {
            return doc;
        }
        doc = first.go_to(bound);
    }
    doc
}

/// Forgets what was read of the other terms' current documents.
pub fn clear_all<P: Postings>(others: &mut Vec<PhrasePart<P>>)
    ensures { others.new.items ≡ map unread others.old.items }
{
    for i in 0..others.len() {
        others[i].clear();
    }
}

/// A cursor over the documents that have a phrase, in ascending order: each other term occurs at its
/// distance from a position of the first term. The first term leads, so pass the rarest term first.
/// Positions are read in pieces of `POSITIONS_READ`, without allocations, and each one at most once.
#[derive(Drop)]
pub struct PhraseMatch<P: Postings> {
    first: PhrasePart<P>,
    others: Vec<PhrasePart<P>>,
}

impl<P: Postings> Model for PhraseMatch<P> {
    ghost use Rattle.std.specs.Prelude.{◌≡◌, ◌∷◌, ◌+◌};
    ghost use Rattle.std.specs.List.{AllByRecursion};
    ghost use Rattle.ii_docset.specs.Cursor.{IsCurrent, doc_at};
    ghost use Rattle.ii_query.specs.Combined.{IsAtFirst};
    ghost use Rattle.ii_query.specs.Phrase.{IsUnreadFrom, PhraseMatchState, cursors_in, parts_in, phrase_docs};

    ghost Value = { PhraseMatchState P };

    ghost view = { λ s. record { first = s.first.part.rest; others = parts_in s.others.items; cursors = cursors_in (s.first ∷ s.others.items); terms = s.first ∷ s.others.items } };

    ghost invariant = { λ s. IsAtFirst s.first.part.rest (phrase_docs s.first.part.rest (parts_in s.others.items))
        × (IsCurrent s.first.part.rest → AllByRecursion (IsUnreadFrom (doc_at s.first.part.rest + 1)) s.others.items)
        × (s.first.part.distance ≡ 0) };
}

impl<P: Postings> PhraseMatch<P> {
    /// Returns a cursor over the documents that have the phrase of these terms.
    pub fn new(first: P, others: Vec<PhrasePart<P>>) -> PhraseMatch<P>
        ensures rest { phrase_docs result.first result.others ≡ phrase_docs (P.rest first) (parts_in others.items) }
        ensures work { AllZip (Spent P.spent) (first ∷ cursors_in others.items) result.cursors }
        ensures reads { AllByRecursion IsUnread others.items → AllZip (ReadsOnce P.spent) (unread_term 0 (P.rest first) first ∷ others.items) result.terms }
    {
        let mut first = PhrasePart::new(0, first);
        let mut others = others;
        clear_all(&mut others);
        go_to_phrase(&mut first, &mut others, 0);
        PhraseMatch { first, others }
    }
}

impl<P: Postings> DocSet for PhraseMatch<P> {
    ghost use Rattle.std.specs.List.{AllZip};
    ghost use Rattle.ii_query.specs.Phrase.{ReadsOnce, Spent, phrase_docs};
    ghost use Rattle.ii_query.specs.WorkLaws.{all_went_on, none_went, reads_in_turn, reads_nothing, spent_in_turn, spent_nothing};

    ghost rest = { λ s. phrase_docs s.first s.others };

    // Its cursors advanced, and read positions, each one at most once.
    ghost went = { λ a b. AllZip (Spent P.spent) a.cursors b.cursors × AllZip (ReadsOnce P.spent) a.terms b.terms };

    ghost went_nowhere = { λ s. (none_went (Spent P.spent) (λ t. spent_nothing P.spent (P.spent_moving t t (P.went_nowhere t))) s.cursors, none_went (ReadsOnce P.spent) (λ t. reads_nothing P.spent t (P.spent_moving t.cursor t.cursor (P.went_nowhere t.cursor))) s.terms) };

    ghost went_on = { λ a b c first second. (all_went_on (Spent P.spent) (spent_in_turn P.spent P.spent_on) a.cursors b.cursors c.cursors first.0 second.0, all_went_on (ReadsOnce P.spent) (reads_in_turn P.spent P.spent_on) a.terms b.terms c.terms first.1 second.1) };

    fn advance(&mut self) -> DocId {
        self.first.advance();
        go_to_phrase(&mut self.first, &mut self.others, 0)
    }

    fn doc(&self) -> DocId {
        self.first.doc()
    }

    fn size_hint(&self) -> u32 {
        self.first.postings.size_hint()
    }

    fn seek(&mut self, target: DocId) -> DocId {
        let doc = self.first.doc();
        if doc >= target {
            return doc;
        }
        self.first.go_to(target);
        go_to_phrase(&mut self.first, &mut self.others, 0)
    }
}
