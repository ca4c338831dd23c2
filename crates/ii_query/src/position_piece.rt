ghost use Rattle.std.specs.Prelude.{◌≡◌, ◌+◌, ◌<◌, ◌≤◌, ℕ, false, drop, length, replicate, slice_get, IfSome, IsSome};
ghost use Rattle.std.specs.List.Sorted.{IsNonDecreasing};
ghost use Rattle.ii_docset.specs.Cursor.{IsCurrent, positions_at};
ghost use Rattle.ii_query.specs.Phrase.{ReadsOnce, is_among};
ghost use Rattle.ii_query.specs.PositionPiece.{IsPieceOf, PassesBelow, num_passed, term_with};

use ii_docset::Postings;

/// The number of positions that a phrase reads at once.
pub const POSITIONS_READ: usize = 64;

// The positions of a document that were read last. It only moves forward.
#[derive(Drop)]
pub(crate) struct PositionPiece {
    positions: [u32; POSITIONS_READ],
    // How many these are, and the index of the first one that wasn't passed.
    count: usize,
    next: usize,
    // How many positions of the document were read, and whether these are known to be all.
    read: usize,
    ended: bool,
}

impl PositionPiece {
    // Returns a piece of a document of which nothing was read.
    pub(crate) fn new() -> PositionPiece
        ensures { result ≡ record { positions = replicate POSITIONS_READ 0; count = 0; next = 0; read = 0; ended = false } }
    {
        PositionPiece {
            positions: [0; POSITIONS_READ],
            count: 0,
            next: 0,
            read: 0,
            ended: false,
        }
    }

    // Starts anew, with another document.
    pub(crate) fn clear(&mut self)
        ensures { self.new ≡ record self.old { count = 0; next = 0; read = 0; ended = false } }
    {
        self.count = 0;
        self.next = 0;
        self.read = 0;
        self.ended = false;
    }

    // Reads the next piece, unless all positions were read. The piece must have been passed.
    fn read_next<P: Postings>(&mut self, postings: &mut P)
        requires current { IsCurrent (P.rest postings.old) }
        requires piece { IsPieceOf (positions_at (P.rest postings.old)) self.old }
        requires passed { self.old.next ≡ self.old.count }
        ensures passed { num_passed self.new ≡ num_passed self.old }
        ensures all { self.new.next ≡ self.new.count → num_passed self.new ≡ length (positions_at (P.rest postings.old)) }
        ensures piece { IsPieceOf (positions_at (P.rest postings.old)) self.new }
        ensures rest { P.rest postings.new ≡ P.rest postings.old }
        ensures work { (n : ℕ) → ReadsOnce P.spent (term_with n (P.rest postings.old) postings.old self.old) (term_with n (P.rest postings.new) postings.new self.new) }
    {
        if self.ended {
            return;
        }
        let before = if self.count == 0 {
            0
        } else {
            self.positions[self.count - 1]
        };
        let count = postings.read_positions(self.read, before, &mut self.positions);
        self.count = count;
        self.next = 0;
        self.read += count;
        self.ended = count < POSITIONS_READ;
    }

    // Returns the first position that wasn't passed.
    fn peek<P: Postings>(&mut self, postings: &mut P) -> Option<u32>
        requires current { IsCurrent (P.rest postings.old) }
        requires piece { IsPieceOf (positions_at (P.rest postings.old)) self.old }
        ensures position { result ≡ slice_get (positions_at (P.rest postings.old)) (num_passed self.old) }
        ensures passed { num_passed self.new ≡ num_passed self.old }
        ensures inside { IsSome result → self.new.next < self.new.count }
        ensures piece { IsPieceOf (positions_at (P.rest postings.old)) self.new }
        ensures rest { P.rest postings.new ≡ P.rest postings.old }
        ensures work { (n : ℕ) → ReadsOnce P.spent (term_with n (P.rest postings.old) postings.old self.old) (term_with n (P.rest postings.new) postings.new self.new) }
    {
        if self.next == self.count {
            self.read_next(postings);
        }
        if self.next < self.count {
            Some(self.positions[self.next])
        } else {
            None
        }
    }

    // Returns the first position that wasn't passed, and passes it.
    pub(crate) fn pass<P: Postings>(&mut self, postings: &mut P) -> Option<u32>
        requires current { IsCurrent (P.rest postings.old) }
        requires piece { IsPieceOf (positions_at (P.rest postings.old)) self.old }
        ensures position { result ≡ slice_get (positions_at (P.rest postings.old)) (num_passed self.old) }
        ensures passed { IsSome result → num_passed self.new ≡ num_passed self.old + 1 }
        ensures piece { IsPieceOf (positions_at (P.rest postings.old)) self.new }
        ensures rest { P.rest postings.new ≡ P.rest postings.old }
        ensures work { (n : ℕ) → ReadsOnce P.spent (term_with n (P.rest postings.old) postings.old self.old) (term_with n (P.rest postings.new) postings.new self.new) }
    {
        let position = self.peek(postings)?;
        self.next += 1;
        Some(position)
    }

    // Passes the positions below a number, and returns the one that follows.
    pub(crate) fn next_from<P: Postings>(&mut self, postings: &mut P, least: u64) -> Option<u32>
        requires current { IsCurrent (P.rest postings.old) }
        requires piece { IsPieceOf (positions_at (P.rest postings.old)) self.old }
        ensures position { result ≡ slice_get (positions_at (P.rest postings.old)) (num_passed self.new) }
        ensures from { IfSome result (λ p. least ≤ p) }
        ensures later { PassesBelow (positions_at (P.rest postings.old)) least (num_passed self.old) (num_passed self.new) }
        ensures piece { IsPieceOf (positions_at (P.rest postings.old)) self.new }
        ensures rest { P.rest postings.new ≡ P.rest postings.old }
        ensures work { (n : ℕ) → ReadsOnce P.spent (term_with n (P.rest postings.old) postings.old self.old) (term_with n (P.rest postings.new) postings.new self.new) }
    {
        while let Some(next) = self.peek(postings) {
            if u64::from(next) >= least {
                return Some(next);
            }
            self.next += 1;
        }
        None
    }

    // Passes the positions below one, and returns whether it follows.
    pub(crate) fn pass_below<P: Postings>(&mut self, postings: &mut P, position: u32) -> bool
        requires current { IsCurrent (P.rest postings.old) }
        requires order { IsNonDecreasing (positions_at (P.rest postings.old)) }
        requires piece { IsPieceOf (positions_at (P.rest postings.old)) self.old }
        ensures found { result ≡ is_among (drop (num_passed self.old) (positions_at (P.rest postings.old))) position }
        ensures later { (p : ℕ) → position ≤ p → is_among (drop (num_passed self.new) (positions_at (P.rest postings.old))) p ≡ is_among (drop (num_passed self.old) (positions_at (P.rest postings.old))) p }
        ensures piece { IsPieceOf (positions_at (P.rest postings.old)) self.new }
        ensures rest { P.rest postings.new ≡ P.rest postings.old }
        ensures work { (n : ℕ) → ReadsOnce P.spent (term_with n (P.rest postings.old) postings.old self.old) (term_with n (P.rest postings.new) postings.new self.new) }
    {
        match self.next_from(postings, u64::from(position)) {
            Some(next) => next == position,
            None => false,
        }
    }
}
