ghost use Rattle.std.specs.Prelude.{◌≡◌, ◌<◌, ◌≤◌, ◌+◌, ◌*◌, ℕ, Bool, List, filter, length, IfSome};
ghost use Rattle.std.specs.List.{AllByRecursion, AllZip};
ghost use Rattle.ii_docset.specs.Cursor.{IsCurrent, doc_at, positions_at};
ghost use Rattle.ii_query.specs.Phrase.{IsUnread, IsUnreadFrom, ReadsOnce, parts_have, parts_in};
ghost use Rattle.ii_query.specs.SloppyPhrase.{IsRaisedTo, are_in_window, stand_near, stand_near_here};

use crate::phrase::{BEFORE_TEXT, PhrasePart, meet_others};
use crate::sloppy_phrase::raise_window;
use ii_docset::Postings;

// Raises the start of a window until each of these terms has a position in it, or it is above `end`. Returns
// `None` if a term has no position from there on.
fn raise_to<P: Postings>(
    others: &mut Vec<PhrasePart<P>>,
    low: u64,
    end: u64,
    slop: u32,
) -> Option<u64>
    requires current { AllByRecursion (λ part. IsCurrent part.rest) (parts_in others.old.items) }
    requires low_up_to { low < 2 * BEFORE_TEXT }
    ensures raised { IsRaisedTo (are_in_window slop others.old.items) low end result }
    ensures up_to { IfSome result (λ w. w < 2 * BEFORE_TEXT) }
    ensures later { IfSome result (λ next. (w : ℕ) → next ≤ w → are_in_window slop others.new.items w ≡ are_in_window slop others.old.items w) }
    ensures same { parts_in others.new.items ≡ parts_in others.old.items }
    ensures work { AllZip (ReadsOnce P.spent) others.old.items others.new.items }
{
    let mut window = low;
    while window <= end {
        let Some(next) = raise_window(others, window, slop) else {
            return None;
        };
        if next == window {
            return Some(window);
        }
        window = next;
    }
    Some(window)
}

// Returns how many positions of the first term begin the phrase. All terms are at its current document. The
// windows of each position begin at most `slop` before it, and are raised only forward.
fn count_here<P: Postings>(
    first: &mut PhrasePart<P>,
    others: &mut Vec<PhrasePart<P>>,
    slop: u32,
) -> u32
    requires first { IsCurrent first.old.part.rest }
    requires others { AllByRecursion (λ part. IsCurrent part.rest) (parts_in others.old.items) }
    requires first_unread { IsUnread first.old }
    requires others_unread { AllByRecursion IsUnread others.old.items }
    ensures count { result ≡ length (filter (stand_near_here slop (parts_in others.old.items)) (positions_at first.old.part.rest)) }

    // what stays, and the cost
    ensures first_same { first.new.part ≡ first.old.part }
    ensures others_same { parts_in others.new.items ≡ parts_in others.old.items }
    ensures first_work { ReadsOnce P.spent first.old first.new }
    ensures other_work { AllZip (ReadsOnce P.spent) others.old.items others.new.items }
{
    // that positions have 32 bits and don't decrease, and how many these are at most, for the proof
    let _doc = first.doc();
    let _most = first.most_positions();
    let mut count = 0;
    let mut low: u64 = 0;
    while let Some(start) = first.next_position() {
        let end = u64::from(start) + BEFORE_TEXT;
        let least = low.max(end - u64::from(slop));
        let Some(window) = raise_to(others, least, end, slop) else {
            return count;
        };
        if window <= end {
            count += 1;
        }
        low = window;
    }
    count
}

/// Returns how many positions of a phrase's first term, in its current document, begin the phrase within a slop:
/// all terms have a position such that these positions, each moved back by the term's distance, are at most the
/// slop apart, and that of the first term is this one. With slop 0 each other term occurs at its distance.
///
/// Moves the other terms to this document. Positions are read in pieces, without allocations, and each one at most
/// once.
pub fn count_starts<P: Postings>(
    first: &mut PhrasePart<P>,
    others: &mut Vec<PhrasePart<P>>,
    slop: u32,
) -> u32
    requires current { IsCurrent first.old.part.rest }
    requires first_unread { IsUnread first.old }
    requires others_unread { AllByRecursion (IsUnreadFrom (doc_at first.old.part.rest)) others.old.items }
    ensures count { result ≡ length (filter (stand_near slop (parts_in others.old.items) (doc_at first.old.part.rest)) (positions_at first.old.part.rest)) }

    // what stays
    ensures first_same { first.new.part ≡ first.old.part }
    ensures others_alike { (test : ℕ → List ℕ → Bool) (doc : ℕ) → doc_at first.old.part.rest ≤ doc → parts_have test (parts_in others.new.items) doc ≡ parts_have test (parts_in others.old.items) doc }

    // the cost, and what was read
    ensures unread { AllByRecursion (IsUnreadFrom (doc_at first.old.part.rest + 1)) others.new.items }
    ensures first_work { ReadsOnce P.spent first.old first.new }
    ensures other_work { AllZip (ReadsOnce P.spent) others.old.items others.new.items }
{
    let doc = first.doc();
    if meet_others(others, doc) != doc {
        return 0;
    }
    count_here(first, others, slop)
}
