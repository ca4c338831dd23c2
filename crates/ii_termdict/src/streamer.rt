ghost use Rattle.std.specs.Prelude.{◌≡◌, ◌<◌, ◌+◌, ◌-◌, false, length, Ok, IsOk, Some, IfOk, nat_lt, slice_get, if◌then◌else◌};
ghost use Rattle.std.specs.Option.{option_map};
ghost use Rattle.ii_termdict.specs.Dictionary.{dictionary, entry_keys, entry_infos};

use crate::key_parts::{count_terms, key_at, value_at};
use ii_termstore::TermInfo;
use std::marker::Model;

/// Iterates over the terms of a dictionary in order. The model is all entries, and how many were passed.
#[derive(Drop)]
pub struct TermStreamer<'a> {
    bytes: &'a [u8],
    passed: u64,
}

impl<'a> Model for TermStreamer<'a> {
    ghost use Rattle.std.specs.Prelude.{◌≤◌, [], IsOk, length};
    ghost use Rattle.std.specs.Result.{result_unwrap_or};
    ghost use Rattle.ii_termdict.specs.Dictionary.{dictionary};
    ghost use Rattle.ii_termdict.specs.TermStreamer.{TermStreamerState};

    ghost Value = { TermStreamerState };

    ghost view = { λ s. record { entries = result_unwrap_or (dictionary s.bytes.now) []; passed = s.passed } };

    ghost invariant = { λ s. IsOk (dictionary s.bytes.now) × (s.passed ≤ length (result_unwrap_or (dictionary s.bytes.now) [])) };
}

impl<'a> TermStreamer<'a> {
    // Creates a streamer before the first term of a dictionary.
    pub(crate) fn new(bytes: &'a [u8]) -> TermStreamer<'a>
        requires { IsOk (dictionary bytes.now) }
        ensures passed { result.passed ≡ 0 }
        ensures entries { IfOk (dictionary bytes.now) (λ entries. result.entries ≡ entries) }
    {
        TermStreamer { bytes, passed: 0 }
    }

    /// Moves to the next term and returns whether there is one; if not, nothing changes.
    pub fn advance(&mut self) -> bool
        ensures found { result ≡ nat_lt self.old.passed (length self.old.entries) }
        ensures passed { self.new ≡ record self.old { passed = if result then self.old.passed + 1 else self.old.passed } }
        ensures end { result ≡ false → self.new ≡ self.old }
    {
        if self.passed >= count_terms(self.bytes) {
            return false;
        }
        self.passed += 1;
        true
    }

    /// Returns the key of the term that was passed last. An earlier `advance` must have returned true. After
    /// the end it is the last key.
    pub fn key(&self) -> &'a [u8]
        requires { 0 < self.now.passed }
        ensures { slice_get (entry_keys self.now.entries) (self.now.passed - 1) ≡ Some result.now }
    {
        key_at(self.bytes, self.passed - 1)
    }

    /// Returns the term info of the term that was passed last. An earlier `advance` must have returned true.
    pub fn value(&self) -> TermInfo
        requires { 0 < self.now.passed }
        ensures { slice_get (entry_infos self.now.entries) (self.now.passed - 1) ≡ Some result }
    {
        value_at(self.bytes, self.passed - 1)
    }

    /// Returns the key and the term info of the next term, if there is one.
    pub fn next(&mut self) -> Option<(&'a [u8], TermInfo)>
        ensures key { option_map (λ term. term.0.now) result ≡ slice_get (entry_keys self.old.entries) self.old.passed }
        ensures value { option_map (λ term. term.1) result ≡ slice_get (entry_infos self.old.entries) self.old.passed }
        ensures passed { self.new ≡ record self.old {
          passed =
              if nat_lt self.old.passed (length self.old.entries) then self.old.passed + 1 else self.old.passed;
        } }
    {
        if self.advance() {
            return Some((self.key(), self.value()));
        }
        None
    }
}
