ghost use Rattle.std.specs.Prelude.{◌≡◌, length, map};
ghost use Rattle.ii_base.specs.Entries.{Entry};
ghost use Rattle.ii_docset.specs.Cursor.{IsSound};

use ii_docset::{DocId, DocSet, Postings, TERMINATED, copy_positions};
use std::marker::Model;

// A document and the positions of a term in it.
#[derive(Clone, Copy)]
pub struct Place {
    pub doc: DocId,
    pub positions: &'static [u32],
}

// A cursor over a list of places, which counts the calls that read positions.
#[derive(Drop)]
pub struct ListPostings {
    left: &'static [Place],
    reads: usize,
}

impl Model for ListPostings {
    ghost use Rattle.std.specs.Prelude.{List, length, map};
    ghost use Rattle.ii_docset_tests.specs.declared.tests.list_postings.Place.{Place};
    ghost use Rattle.ii_docset.specs.Cursor.{IsSound};
    ghost use Rattle.ii_base.specs.Entries.{Entry};

    ghost Value = { List Entry };

    ghost view = { λ s. let entry : Place → Entry = λ p. record { doc = p.doc; term_freq = length p.positions.now; positions = p.positions.now } in map entry s.left.now };

    ghost invariant = { λ s. let entry : Place → Entry = λ p. record { doc = p.doc; term_freq = length p.positions.now; positions = p.positions.now } in IsSound (map entry s.left.now) };
}

impl DocSet for ListPostings {
    ghost rest = { λ s. s };

    ghost went_nowhere = { λ s. tt };

    ghost went_on = { λ a b c before after. tt };

    fn advance(&mut self) -> DocId {
        if let Some((_, rest)) = self.left.split_first() {
            self.left = rest;
        }
        self.doc()
    }

    fn doc(&self) -> DocId {
        let Some((first, _)) = self.left.split_first() else {
            return TERMINATED;
        };
        first.doc
    }

    fn size_hint(&self) -> u32 {
        self.left.len() as u32
    }
}

impl Postings for ListPostings {
    ghost spent_moving = { λ a b moved. tt };

    ghost spent_more = { λ k m l n a b few low did. tt };

    ghost spent_on = { λ k m l n a b c first second. tt };

    fn term_freq(&self) -> u32 {
        let Some((first, _)) = self.left.split_first() else {
            return 1;
        };
        first.positions.len() as u32
    }

    fn read_positions(&mut self, from: usize, _before: u32, output: &mut [u32]) -> usize {
        let Some((first, _)) = self.left.split_first() else {
            return 0;
        };
        self.reads = self.reads.saturating_add(1);
        copy_positions(first.positions, from, output)
    }
}

impl ListPostings {
    // Opens a cursor at the first place.
    pub fn new(left: &'static [Place]) -> ListPostings
        requires { let entry : Place → Entry = λ p. record { doc = p.doc; term_freq = length p.positions.now; positions = p.positions.now } in IsSound (map entry left.now) }
        ensures { let entry : Place → Entry = λ p. record { doc = p.doc; term_freq = length p.positions.now; positions = p.positions.now } in result ≡ map entry left.entry.now }
    {
        ListPostings { left, reads: 0 }
    }

    // Returns how many calls read positions.
    pub fn reads(&self) -> usize {
        self.reads
    }
}
