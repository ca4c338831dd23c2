ghost use Rattle.std.specs.Prelude.{◌≡◌, ◌++◌, ◌∷◌, [], map, IfOk, IfSome, OnOk};
ghost use Rattle.std.specs.Option.{option_map};
ghost use Rattle.ii_io.specs.Faults.{OnlyMemory};
ghost use Rattle.ii_termdict.specs.TermMerger.{FirstInfosAreAll, behind_key, first_info, first_key, least_key, less_key};

use crate::streamer::TermStreamer;
use crate::termdict::TermDictionary;
use ii_io::Fault;
use ii_termstore::TermInfo;
use std::cmp::Ordering;
use std::marker::Model;

/// The terms of a dictionary that are still to come. Its model is the list of their keys and infos.
#[derive(Drop)]
pub struct ComingTerms<'a> {
    // The first of them.
    first: Option<(&'a [u8], TermInfo)>,
    // Those after it.
    others: TermStreamer<'a>,
}

impl<'a> Model for ComingTerms<'a> {
    ghost use Rattle.std.specs.Prelude.{List, ◌++◌, ◌≤◌, drop, length, IfNone};
    ghost use Rattle.std.specs.Option.{option_map, option_to_list};
    ghost use Rattle.ii_termdict.specs.Dictionary.{TermEntry};

    ghost Value = { List TermEntry };

    ghost view = { λ t. option_to_list (option_map (λ e. (e.0.now, e.1)) t.first) ++ drop t.others.passed t.others.entries };

    ghost invariant = { λ t. IfNone t.first (length t.others.entries ≤ t.others.passed) };
}

impl<'a> ComingTerms<'a> {
    /// Returns all terms of a dictionary.
    pub fn new(dictionary: &'a TermDictionary) -> ComingTerms<'a>
        ensures { result ≡ dictionary.now }
    {
        let mut others = dictionary.stream();
        let first = others.next();
        ComingTerms { first, others }
    }

    /// Returns the key of the first term, if there is one.
    pub fn first_key(&self) -> Option<&'a [u8]>
        ensures { option_map (λ key. key.now) result ≡ first_key self.now }
    {
        match &self.first {
            Some((key, _info)) => Some(key),
            None => None,
        }
    }

    /// Removes the first term if it has this key, and returns its info.
    pub fn take(&mut self, key: &[u8]) -> Option<TermInfo>
        ensures info { result ≡ first_info key.now self.old }
        ensures rest { self.new ≡ behind_key key.now self.old }
    {
        let Some((first, info)) = self.first.take() else {
            return None;
        };
        if first != key {
            self.first = Some((first, info));
            return None;
        }
        self.first = self.others.next();
        Some(info)
    }
}

/// The terms of several dictionaries that are still to come, in the order of their keys.
#[derive(Drop)]
pub struct TermMerger<'a> {
    dictionaries: Vec<ComingTerms<'a>>,
}

impl<'a> Model for TermMerger<'a> {
    ghost use Rattle.std.specs.Prelude.{List};
    ghost use Rattle.ii_termdict.specs.Dictionary.{TermEntry};

    ghost Value = { List (List TermEntry) };

    ghost view = { λ t. t.dictionaries.items };
}

impl<'a> TermMerger<'a> {
    /// Returns the terms of these dictionaries.
    pub fn new(dictionaries: Vec<ComingTerms<'a>>) -> TermMerger<'a>
        ensures { result ≡ dictionaries.entry.items }
    {
        TermMerger { dictionaries }
    }

    /// Returns the least key that is still to come, if there is one.
    pub fn least_key(&self) -> Option<&'a [u8]>
        ensures { option_map (λ key. key.now) result ≡ least_key self.now }
    {
        let mut least = None;
        let mut place = self.dictionaries.len();
        while place > 0 {
            place -= 1;
            least = less_key(self.dictionaries[place].first_key(), least);
        }
        least
    }

    /// Removes a key that isn't greater than any that is still to come, and replaces the contents of `infos`
    /// with its info in each dictionary that has it.
    ///
    /// Returns `OutOfMemory` if `infos` can't grow; the key is then removed from some dictionaries.
    pub fn take(&mut self, key: &[u8], infos: &mut Vec<Option<TermInfo>>) -> Result<(), Fault>
        ensures infos { OnOk result (infos.new.items ≡ map (first_info key.now) self.old) }
        ensures rest { OnOk result (self.new ≡ map (behind_key key.now) self.old) }
        ensures only { OnlyMemory result }
    {
        infos.clear();
        for place in 0..self.dictionaries.len() {
            infos.push(self.dictionaries[place].take(key))?;
        }
        Ok(())
    }
}

// Returns the less of two keys, or the one that is there.
fn less_key<'a>(key: Option<&'a [u8]>, other: Option<&'a [u8]>) -> Option<&'a [u8]>
    ensures { option_map (λ k. k.now) result ≡ less_key (option_map (λ k. k.now) key.entry) (option_map (λ k. k.now) other.entry) }
{
    match (key, other) {
        (Some(k), Some(o)) => {
            if o.cmp(k) == Ordering::Less {
                Some(o)
            } else {
                Some(k)
            }
        }
        (Some(k), None) => Some(k),
        (None, other) => other,
    }
}

/// Law of merged terms: the least key of ascending dictionaries has in each of them the info that it is first
/// with, or none.
pub fn first_infos_are_all()
    ensures { FirstInfosAreAll }
{}
