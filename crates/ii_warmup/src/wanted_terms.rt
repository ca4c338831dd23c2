//! The terms of a field that are wanted.
ghost use Rattle.std.specs.Prelude.{◌≡◌, ◌==◌, ◌&&◌, ◌∷◌, ◌++◌, [], IfOk, OnOk, bytes_eq, map};
ghost use Rattle.std.specs.List.{list_any};
ghost use Rattle.ii_io.specs.Faults.{OnlyMemory};
ghost use Rattle.ii_query_parser.specs.Ranges.{in_range};
ghost use Rattle.ii_termdict.specs.ReadBack.{AreAscending};
ghost use Rattle.ii_warmup.specs.QueryTerms.{names_field, names_key, range_view, requested_of, serves, term_view};
ghost use Rattle.ii_warmup.specs.Warmup.{wanted_entries, wanted_keys, wanted_view};

use crate::terms::{QueryRange, QueryTerm};
use ii_base::{Fault, Field, IndexRecordOption};
use ii_termdict::{TermDictionary, TermInfo};
use std::alloc::Global;

/// A term whose postings are wanted.
#[derive(Drop)]
pub struct WantedTerm {
    /// The key.
    pub key: Vec<u8>,
    /// Where the postings and positions are.
    pub info: TermInfo,
    /// What is requested of the postings.
    pub option: IndexRecordOption,
}

/// Returns the terms of a field's dictionary that terms and ranges of a query have, each with what they request of it,
/// in ascending order of the bytes of their keys. Fails only with `OutOfMemory`.
pub fn wanted_terms(
    alloc: Global,
    dictionary: &TermDictionary,
    field: Field,
    terms: &[QueryTerm<'_>],
    ranges: &[QueryRange<'_>],
) -> Result<Vec<WantedTerm>, Fault>
    ensures wanted { IfOk result (λ wanted. map wanted_view wanted.items ≡ wanted_entries (requested_of (map term_view terms.now) (map range_view ranges.now) field) dictionary.now) }
    ensures ascending { IfOk result (λ wanted. AreAscending (wanted_keys wanted.items)) }
    ensures only { OnlyMemory result }
{
    let mut wanted = Vec::new(alloc);
    let mut stream = dictionary.stream();
    for _ in 0..dictionary.num_terms() {
        stream.advance();
        push_if_wanted(
            alloc,
            stream.key(),
            stream.value(),
            field,
            terms,
            ranges,
            &mut wanted,
        )?;
    }
    Ok(wanted)
}

// Appends a term, if terms or ranges have it.
fn push_if_wanted(
    alloc: Global,
    key: &[u8],
    info: TermInfo,
    field: Field,
    terms: &[QueryTerm<'_>],
    ranges: &[QueryRange<'_>],
    wanted: &mut Vec<WantedTerm>,
) -> Result<(), Fault>
    ensures pushed { OnOk result (map wanted_view wanted.new.items ≡ map wanted_view wanted.old.items ++ wanted_entries (requested_of (map term_view terms.now) (map range_view ranges.now) field) ((key.now, info) ∷ [])) }
    ensures only { OnlyMemory result }
{
    let Some(option) = requested_of(field, key, terms, ranges) else {
        return Ok(());
    };
    let mut owned = Vec::new(alloc);
    owned.extend_from_slice(key)?;
    Ok(wanted.push(WantedTerm {
        key: owned,
        info,
        option,
    })?)
}

// Returns what terms and ranges request of a key's postings.
pub(crate) fn requested_of(
    field: Field,
    key: &[u8],
    terms: &[QueryTerm<'_>],
    ranges: &[QueryRange<'_>],
) -> Option<IndexRecordOption>
    ensures { result ≡ requested_of (map term_view terms.now) (map range_view ranges.now) field key.now }
{
    let all = IndexRecordOption::WithFreqsAndPositions;
    if names_key(all, field, key, terms, ranges) {
        return Some(all);
    }
    if names_key(IndexRecordOption::Basic, field, key, terms, ranges) {
        return Some(IndexRecordOption::Basic);
    }
    None
}

// Returns whether a term or a range has a key of a field, and requests what an option reads.
fn names_key(
    option: IndexRecordOption,
    field: Field,
    key: &[u8],
    terms: &[QueryTerm<'_>],
    ranges: &[QueryRange<'_>],
) -> bool
    ensures { result ≡ names_key option (map term_view terms.now) (map range_view ranges.now) field key.now }
{
    is_term(option, field, key, terms) || is_in_range(option, field, key, ranges)
}

// Returns whether a key of a field is one of these terms, and the term requests what an option reads.
fn is_term(option: IndexRecordOption, field: Field, key: &[u8], terms: &[QueryTerm<'_>]) -> bool
    ensures { result ≡ list_any (λ t. serves option t.option && (t.term.field == field) && bytes_eq t.term.value key.now) (map term_view terms.now) }
{
    for term in terms {
        if serves(option, term.option)
            && term.term.field() == field
            && term.term.serialized_value_bytes() == key
        {
            return true;
        }
    }
    false
}

// Returns whether a key of a field is in one of these ranges, and the range requests what an option reads.
fn is_in_range(
    option: IndexRecordOption,
    field: Field,
    key: &[u8],
    ranges: &[QueryRange<'_>],
) -> bool
    ensures { result ≡ list_any (λ r. serves option r.option && (r.range.prefix.field == field) && in_range r.range key.now) (map range_view ranges.now) }
{
    for range in ranges {
        if serves(option, range.option)
            && range.range.prefix.field() == field
            && range.range.contains(key)
        {
            return true;
        }
    }
    false
}

// Returns whether a term or a range is of a field.
pub(crate) fn names_field(field: Field, terms: &[QueryTerm<'_>], ranges: &[QueryRange<'_>]) -> bool
    ensures { result ≡ names_field (map term_view terms.now) (map range_view ranges.now) field }
{
    has_term(field, terms) || has_range(field, ranges)
}

// Returns whether one of these terms is of a field.
fn has_term(field: Field, terms: &[QueryTerm<'_>]) -> bool
    ensures { result ≡ list_any (λ t. t.term.field == field) (map term_view terms.now) }
{
    for term in terms {
        if term.term.field() == field {
            return true;
        }
    }
    false
}

// Returns whether one of these ranges is of a field.
pub(crate) fn has_range(field: Field, ranges: &[QueryRange<'_>]) -> bool
    ensures { result ≡ list_any (λ r. r.range.prefix.field == field) (map range_view ranges.now) }
{
    for range in ranges {
        if range.range.prefix.field() == field {
            return true;
        }
    }
    false
}

// Returns whether what is requested of a list has what an option reads of it.
fn serves(option: IndexRecordOption, requested: IndexRecordOption) -> bool
    ensures { result ≡ serves option requested }
{
    !option.has_positions() || requested.has_positions()
}
