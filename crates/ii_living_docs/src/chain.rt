ghost use Rattle.std.specs.Prelude.{◌≡◌, ◌≤◌, drop, length};
ghost use Rattle.std.specs.List.{flat_map};
ghost use Rattle.ii_docset.specs.Cursor.{IsSound};
ghost use Rattle.ii_living_docs.specs.Chain.{IsAtCurrent, IsSumOfHints, chained};

use ii_docset::{DocId, DocSet, TERMINATED};
use std::marker::Model;

/// Cursors one after the other. The documents of each are greater than those of the cursors before it.
#[derive(Drop)]
pub struct Chain<D: DocSet> {
    cursors: Vec<D>,
    current: usize,
}

impl<D: DocSet> Model for Chain<D> {
    ghost use Rattle.ii_docset.specs.Cursor.{IsSound};
    ghost use Rattle.ii_living_docs.specs.Chain.{ChainState, IsAtCurrent, chained};

    ghost Value = { ChainState D };

    ghost view = { λ s. record { cursors = s.cursors.items; current = s.current } };

    ghost invariant = { λ s. IsSound (chained D.rest s.cursors.items s.current) × IsAtCurrent D.rest s.cursors.items s.current };
}

impl<D: DocSet> Chain<D> {
    /// Returns a cursor over the remaining documents of all cursors, which must ascend from each cursor to the
    /// next one.
    pub fn new(cursors: Vec<D>) -> Chain<D>
        requires { IsSound (flat_map D.rest cursors.items) }
        ensures rest { chained D.rest result.cursors result.current ≡ flat_map D.rest cursors.items }
        ensures cursors { result.cursors ≡ cursors.items }
    {
        let current = next_place(&cursors, 0);
        Chain { cursors, current }
    }
}

// Returns the place of the first cursor from a place on that has a current document, or the number of cursors.
fn next_place<D: DocSet>(cursors: &Vec<D>, from: usize) -> usize
    requires { from ≤ length cursors.now.items }
    ensures at { IsAtCurrent D.rest cursors.now.items result }
    ensures rest { chained D.rest cursors.now.items result ≡ chained D.rest cursors.now.items from }
{
    for place in from..cursors.len() {
        if cursors[place].doc() < TERMINATED {
            return place;
        }
    }
    cursors.len()
}

// Returns the sum of the hints of the cursors from a place on, or `u32::MAX` if it is greater.
fn sum_of_hints<D: DocSet>(cursors: &Vec<D>, from: usize) -> u32
    ensures { IsSumOfHints (λ cursor hint. D.hints cursor hint × (length (D.rest cursor) ≤ hint)) (drop from cursors.now.items) result }
{
    let mut sum = 0_u32;
    for place in from..cursors.len() {
        sum = sum.saturating_add(cursors[place].size_hint());
    }
    sum
}

impl<D: DocSet> DocSet for Chain<D> {
    ghost use Rattle.std.specs.Prelude.{drop};
    ghost use Rattle.ii_living_docs.specs.Chain.{IsSumOfHints, chained};

    ghost rest = { λ s. chained D.rest s.cursors s.current };

    ghost hints = { λ s n. IsSumOfHints D.hints (drop s.current s.cursors) n };

    ghost went_nowhere = { λ s. tt };

    ghost went_on = { λ a b c first second. tt };

    fn advance(&mut self) -> DocId {
        if self.current >= self.cursors.len() {
            return TERMINATED;
        }
        self.cursors[self.current].advance();
        self.current = next_place(&self.cursors, self.current);
        self.doc()
    }

    fn doc(&self) -> DocId {
        if self.current < self.cursors.len() {
            self.cursors[self.current].doc()
        } else {
            TERMINATED
        }
    }

    fn size_hint(&self) -> u32 {
        sum_of_hints(&self.cursors, self.current)
    }
}
