//! Where the terms of a query are in dictionaries.
ghost use Rattle.std.specs.Prelude.{◌≤◌, length};

use crate::terms::QueryTerm;
use ii_base::Field;
use ii_termdict_slice::SearchHint;
use std::alloc::Global;

/// Where the terms of a query were in the dictionaries of the last segment that was warmed up, so that the next one is
/// searched from about there. It changes what is read, and no result.
#[derive(Drop)]
pub struct SearchHints {
    // those of the first terms of the query
    hints: Vec<SearchHint>,
}

impl SearchHints {
    /// Returns the hints of a query of which nothing was warmed up yet.
    pub fn new(alloc: Global) -> SearchHints {
        SearchHints {
            hints: Vec::new(alloc),
        }
    }

    // Returns the hint of the term at a place, if there is one.
    pub(crate) fn at(&self, place: usize) -> SearchHint {
        match self.hints.get(place) {
            Some(hint) => *hint,
            None => SearchHint::none(),
        }
    }

    // Replaces the hint of the term at a place. It is dropped if there is no memory for it.
    pub(crate) fn put(&mut self, place: usize, hint: SearchHint) {
        for _i in self.hints.len()..place.saturating_add(1) {
            if self.hints.push(SearchHint::none()).is_err() {
                return;
            }
        }
        if place < self.hints.len() {
            self.hints[place] = hint;
        }
    }
}

// Returns the place of the first of some terms that has a key in a field, or how many they are.
pub(crate) fn place_of_key(field: Field, key: &[u8], terms: &[QueryTerm<'_>]) -> usize
    ensures { result ≤ length terms.now }
{
    for place in 0..terms.len() {
        let term = &terms[place].term;
        if term.field() == field && term.serialized_value_bytes() == key {
            return place;
        }
    }
    terms.len()
}
