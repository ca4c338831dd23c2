//! The filter of stop words.
ghost use Rattle.std.specs.Prelude.{◌≡◌, [], OnErr, OnOk, length, slice_get};
ghost use Rattle.std.specs.Option.{option_copied};
ghost use Rattle.ii_io.specs.Faults.{OnlyMemory};
ghost use Rattle.ii_tokenizers.specs.Analyzers.{is_stop_word, with_stop_word};

use caseless::default_case_fold_str;
use ii_io::Fault;
use indexmap::IndexSet;
use std::alloc::Global;
use std::marker::Model;

/// Removes stop words from tokens: common words, as `the`, which are in most texts.
///
/// Its model is the list of the stop words, in folded case, each once.
#[derive(Drop)]
pub struct StopWordFilter {
    words: IndexSet<String>,
}

impl Model for StopWordFilter {
    ghost use Rattle.std.specs.Prelude.{ℕ, List, map, string_bytes};

    ghost Value = { List (List ℕ) };

    ghost view = { λ s. map string_bytes s.words.keys };
}

impl StopWordFilter {
    /// Creates a filter without stop words.
    pub fn new(alloc: Global) -> StopWordFilter
        ensures { result ≡ [] }
    {
        StopWordFilter {
            words: IndexSet::new(alloc),
        }
    }

    /// Adds a stop word in folded case, so that `The` stands for `the`. A word that it has changes nothing.
    ///
    /// Returns `OutOfMemory` if an allocation fails; the stop words are then unchanged.
    pub fn insert(&mut self, alloc: Global, word: &str) -> Result<(), Fault>
        ensures inserted { OnOk result (self.new ≡ with_stop_word self.old word.now) }
        ensures err { OnErr result (self.new ≡ self.old) }
        ensures only { OnlyMemory result }
    {
        self.words.insert(default_case_fold_str(alloc, word)?)?;
        Ok(())
    }

    /// Returns whether a text is one of the stop words.
    pub fn contains(&self, text: &str) -> bool
        ensures { result ≡ is_stop_word self.now text.now }
    {
        self.words.contains(text)
    }

    /// Returns the number of stop words.
    pub fn len(&self) -> usize
        ensures { result ≡ length self.now }
    {
        self.words.len()
    }

    /// Returns the stop word at an index, in the order in which they were added, in folded case.
    pub fn get(&self, index: usize) -> Option<&str>
        ensures { option_copied result ≡ slice_get self.now index }
    {
        match self.words.get_index(index) {
            Some(word) => Some(word.as_str()),
            None => None,
        }
    }
}
