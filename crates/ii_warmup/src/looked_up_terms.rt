//! The wanted terms of a field, of a dictionary that is read by ranges.
ghost use Rattle.std.specs.Prelude.{◌≡◌, ◌==◌, ◌&&◌, ◌++◌, IfOk, IfSome, IsOk, List, Ok, OnOk, bytes_eq, false, map, true, ℕ};
ghost use Rattle.std.specs.List.{list_any};
ghost use Rattle.std.specs.Option.{option_map};
ghost use Rattle.ii_io.specs.Faults.{OnlyMemory};
ghost use Rattle.ii_file_slice.specs.FileSlice.{slice_if};
ghost use Rattle.ii_termdict.specs.Dictionary.{dictionary};
ghost use Rattle.ii_termdict.specs.ReadBack.{AreAscending};
ghost use Rattle.ii_termdict_slice.specs.Reading.{Reads};
ghost use Rattle.ii_warmup.specs.LookedUp.{found_terms, key_items, wanted_under};
ghost use Rattle.ii_warmup.specs.QueryTerms.{range_view, requests_of, term_view};
ghost use Rattle.ii_warmup.specs.Warmup.{wanted_entries, wanted_keys, wanted_view};

use crate::copying::new_cache;
use crate::search_hints::{SearchHints, place_of_key};
use crate::terms::{QueryRange, QueryTerm};
use crate::wanted_terms::{WantedTerm, has_range, names_field, requested_of, wanted_terms};
use ii_base::{Fault, Field};
use ii_file_slice::{FileFault, FileHandle, FileSlice};
use ii_termdict::TermDictionary;
use ii_termdict_slice::TermDictionarySlice;
use std::alloc::Global;
use std::collections::BTreeSet;

// The number of blocks of a dictionary that are kept, 4 KiB each.
const CACHED_BLOCKS: usize = 256;

// Returns the terms of a field's dictionary that terms and ranges of a query have, each with what they request of it, in
// ascending order of the bytes of their keys. Each term is looked up, from where the hints say; if a range is of the field,
// the whole dictionary is read, and if no term and no range is, none of it.
pub(crate) fn read_wanted_terms<H: FileHandle>(
    alloc: Global,
    field: Field,
    body: &FileSlice<'_, H>,
    terms: &[QueryTerm<'_>],
    ranges: &[QueryRange<'_>],
    hints: &mut SearchHints,
) -> Result<Vec<WantedTerm>, FileFault>
    ensures ascending { IfOk result (λ wanted. AreAscending (wanted_keys wanted.items)) }
    ensures reads { Reads (slice_if body.now.start body.now.len (H.bytes body.now.file.now)) (H.is_sound body.now.file.now) (λ bs. IsOk (dictionary bs))
        (λ bs wanted. IfOk (dictionary bs) (λ entries. map wanted_view wanted.items ≡ wanted_entries (requests_of terms.now ranges.now field) entries)) result }
{
    if !names_field(field, terms, ranges) {
        return Ok(Vec::new(alloc));
    }
    if !has_range(field, ranges) {
        return look_up_terms(alloc, field, body, terms, ranges, hints);
    }
    let dictionary = match read_dictionary(alloc, body) {
        Ok(dictionary) => dictionary,
        Err(fault) => return Err(fault),
    };
    match wanted_terms(alloc, &dictionary, field, terms, ranges) {
        Ok(wanted) => Ok(wanted),
        Err(fault) => Err(FileFault::Index(fault)),
    }
}

// Reads and opens a whole dictionary.
fn read_dictionary<H: FileHandle>(
    alloc: Global,
    body: &FileSlice<'_, H>,
) -> Result<TermDictionary, FileFault>
    ensures reads { Reads (slice_if body.now.start body.now.len (H.bytes body.now.file.now)) (H.is_sound body.now.file.now) (λ bs. IsOk (dictionary bs)) (λ bs terms. dictionary bs ≡ Ok terms) result }
{
    let bytes = match body.read_bytes(alloc, 0, body.len() as usize) {
        Ok(bytes) => bytes,
        Err(fault) => return Err(FileFault::from(fault)),
    };
    match TermDictionary::open(bytes) {
        Ok(dictionary) => Ok(dictionary),
        Err(fault) => Err(FileFault::Index(fault)),
    }
}

// Looks up the terms of a field, of which no range is.
fn look_up_terms<H: FileHandle>(
    alloc: Global,
    field: Field,
    body: &FileSlice<'_, H>,
    terms: &[QueryTerm<'_>],
    ranges: &[QueryRange<'_>],
    hints: &mut SearchHints,
) -> Result<Vec<WantedTerm>, FileFault>
    requires { list_any (λ r. r.range.prefix.field == field) (map range_view ranges.now) ≡ false }
    ensures ascending { IfOk result (λ wanted. AreAscending (wanted_keys wanted.items)) }
    ensures reads { Reads (slice_if body.now.start body.now.len (H.bytes body.now.file.now)) (H.is_sound body.now.file.now) (λ bs. IsOk (dictionary bs))
        (λ bs wanted. IfOk (dictionary bs) (λ entries. map wanted_view wanted.items ≡ wanted_entries (requests_of terms.now ranges.now field) entries)) result }
{
    let mut keys = match keys_of_field(alloc, field, terms) {
        Ok(keys) => keys,
        Err(fault) => return Err(FileFault::Index(fault)),
    };
    let cache = match new_cache(alloc, body, body.start(), CACHED_BLOCKS) {
        Ok(cache) => cache,
        Err(fault) => return Err(FileFault::Index(fault)),
    };
    let mut slice = match TermDictionarySlice::open(alloc, cache) {
        Ok(slice) => slice,
        Err(fault) => return Err(fault),
    };
    let mut wanted = Vec::new(alloc);
    while let Some(key) = keys.pop_first() {
        let found = match look_up(alloc, &mut slice, key, field, terms, ranges, hints) {
            Ok(found) => found,
            Err(fault) => return Err(fault),
        };
        match push_found(found, &mut wanted) {
            Ok(()) => {}
            Err(fault) => return Err(FileFault::Index(fault)),
        }
    }
    Ok(wanted)
}

// Looks up a key, if terms or ranges have it, from where the hints say.
fn look_up<H: FileHandle>(
    alloc: Global,
    slice: &mut TermDictionarySlice<'_, H>,
    key: Vec<u8>,
    field: Field,
    terms: &[QueryTerm<'_>],
    ranges: &[QueryRange<'_>],
    hints: &mut SearchHints,
) -> Result<Option<WantedTerm>, FileFault>
    ensures file { slice.new ≡ slice.old }
    ensures key { IfOk result (λ found. IfSome found (λ t. t.key.items ≡ key.items)) }
    ensures reads { Reads (H.bytes slice.old) (H.is_sound slice.old) (λ bs. IsOk (dictionary bs))
        (λ bs found. IfOk (dictionary bs) (λ entries. option_map wanted_view found ≡ wanted_under (requests_of terms.now ranges.now field) entries key.items)) result }
{
    let option = match requested_of(field, &key, terms, ranges) {
        Some(option) => option,
        None => return Ok(None),
    };
    let place = place_of_key(field, &key, terms);
    let mut hint = hints.at(place);
    let found = match slice.get_near(alloc, &key, &mut hint) {
        Ok(found) => found,
        Err(fault) => return Err(fault),
    };
    hints.put(place, hint);
    match found {
        Some(info) => Ok(Some(WantedTerm { key, info, option })),
        None => Ok(None),
    }
}

// Appends a term, if it was found.
fn push_found(found: Option<WantedTerm>, wanted: &mut Vec<WantedTerm>) -> Result<(), Fault>
    ensures pushed { OnOk result (wanted.new.items ≡ wanted.old.items ++ found_terms found) }
    ensures only { OnlyMemory result }
{
    match found {
        Some(term) => Ok(wanted.push(term)?),
        None => Ok(()),
    }
}

// Returns the keys of the terms of a field.
fn keys_of_field(
    alloc: Global,
    field: Field,
    terms: &[QueryTerm<'_>],
) -> Result<BTreeSet<Vec<u8>>, Fault>
    ensures has { IfOk result (λ keys. (key : List ℕ) → list_any (λ t. (t.term.field == field) && bytes_eq t.term.value key) (map term_view terms.now) ≡ true → list_any (bytes_eq key) (key_items keys.keys) ≡ true) }
    ensures sorted { IfOk result (λ keys. AreAscending (key_items keys.keys)) }
    ensures only { OnlyMemory result }
{
    let mut keys = BTreeSet::new(alloc);
    for term in terms {
        if term.term.field() != field {
            continue;
        }
        let mut key = Vec::new(alloc);
        key.extend_from_slice(term.term.serialized_value_bytes())?;
        keys.insert(key)?;
    }
    Ok(keys)
}
