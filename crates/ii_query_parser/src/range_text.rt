ghost use Rattle.std.specs.Prelude.{◌≡◌, ◌<◌, ◌++◌, ◌∷◌, [], ℕ, Ok, None, Some, length, slice_get, true, IfOk};
ghost use Rattle.std.specs.Option.{option_copied, option_map};
ghost use Rattle.ii_io.specs.Faults.{OnlyMemory};
ghost use Rattle.ii_base.specs.Options.{has_positions};
ghost use Rattle.ii_base.specs.ValueTypes.{code_of};
ghost use Rattle.ii_base.specs.Values.{u64_bytes};
ghost use Rattle.ii_query_grammar.specs.Trees.{bound_of, range_of};
ghost use Rattle.ii_query_parser.specs.QuerySteps.{AreInside, AreRangesOf, IsBound, IsInside, IsKey, IsStart};
ghost use Rattle.ii_query_parser.specs.QueryTexts.{bound_keys, bounds_integers, dotted_keys, entry_keys, integer_bound, integer_in, integer_keys, integer_type, is_integer, is_unbounded, json_keys, keys_in_field, keys_start, lower_beyond, named_keys, only_key, path_or_empty, range_keys, text_bound_key, text_terms, typed_keys, upper_beyond, value_keys, words_phrase};
ghost use Rattle.ii_query_parser.specs.Ranges.{key_bound, keys_of};

use crate::literal::{Place, cut_at_dot, field_named, has_json};
use crate::phrase_words::{PhraseWords, words_phrase};
use crate::query_parser_error::QueryParserError;
use crate::term_range::{KeyBound, TermRange};
use ii_base::{FastValue, Fault, Field, IndexRecordOption, Schema, Term, TextAnalyzer, ValueType};
use ii_json::{i64_in, u64_in};
use ii_query_grammar::{UserInputBound, UserInputRange};
use ii_tokenizers::FieldAnalyzers;
use std::alloc::Global;

/// The terms of a range of values: those of one range, or of two for the integers of JSON values.
#[derive(Drop)]
pub(crate) struct TermRanges {
    pub(crate) first: Option<TermRange>,
    pub(crate) other: Option<TermRange>,
}

/// The integers of JSON values: those below 2^63 are signed, and the others unsigned.
#[derive(Clone, Copy)]
enum Integers {
    Signed,
    Unsigned,
}

impl Integers {
    // Their type.
    fn value_type(self) -> ValueType
        ensures { result ≡ integer_type self }
    {
        match self {
            Integers::Signed => ValueType::I64,
            Integers::Unsigned => ValueType::U64,
        }
    }

    // The number that a text denotes, as it is in a key.
    fn number_in(self, text: &str) -> Option<u64>
        ensures { result ≡ integer_in self text.now }
    {
        match self {
            Integers::Signed => Some(i64_in(text)?.to_u64()),
            Integers::Unsigned => u64_in(text),
        }
    }

    // What a lower bound is where its number is not one of them.
    fn lower_beyond(self) -> Option<KeyBound>
        ensures { option_map key_bound result ≡ lower_beyond self }
    {
        match self {
            Integers::Signed => None,
            Integers::Unsigned => Some(KeyBound::Unbounded),
        }
    }

    // What an upper bound is then.
    fn upper_beyond(self) -> Option<KeyBound>
        ensures { option_map key_bound result ≡ upper_beyond self }
    {
        match self {
            Integers::Signed => Some(KeyBound::Unbounded),
            Integers::Unsigned => None,
        }
    }
}

/// Returns the terms of a range: those of a field, or those at a path in one of JSON values.
pub(crate) fn range_keys<F: FieldAnalyzers>(
    alloc: Global,
    schema: &Schema,
    analyzers: &F,
    range: &UserInputRange,
) -> Result<TermRanges, QueryParserError>
    ensures ranges { AreRangesOf (range_keys (record { analyze = F.prefix_words analyzers.now; entries = schema.now }) (range_of range.now)) result }
    ensures inside { IfOk result (AreInside (length schema.now)) }
{
    let name = range.field_name.as_str();
    if let Some(field) = field_named(schema, name) {
        return keys_in_field(alloc, schema, analyzers, field, None, range);
    }
    let Some((name, path)) = cut_at_dot(name) else {
        return Err(QueryParserError::FieldDoesNotExist);
    };
    let Some(field) = field_named(schema, name) else {
        return Err(QueryParserError::FieldDoesNotExist);
    };
    if !has_json(schema, field) {
        return Err(QueryParserError::FieldDoesNotExist);
    }
    keys_in_field(alloc, schema, analyzers, field, Some(path), range)
}

// The terms of a range in a field, by the field's analyzer of bounds, at a path if there is one.
fn keys_in_field<F: FieldAnalyzers>(
    alloc: Global,
    schema: &Schema,
    analyzers: &F,
    field: Field,
    path: Option<&str>,
    range: &UserInputRange,
) -> Result<TermRanges, QueryParserError>
    ensures ranges { AreRangesOf (keys_in_field (record { analyze = F.prefix_words analyzers.now; entries = schema.now }) field (option_copied path.entry) (range_of range.now)) result }
    ensures inside { IfOk result (AreInside (length schema.now)) }
{
    let analyzer = analyzers.prefix_analyzer(field);
    entry_keys(alloc, schema, analyzer, field, path, range)
}

// The terms of a range in a field, if it is indexed.
fn entry_keys<A: TextAnalyzer>(
    alloc: Global,
    schema: &Schema,
    analyzer: &A,
    field: Field,
    path: Option<&str>,
    range: &UserInputRange,
) -> Result<TermRanges, QueryParserError>
    ensures ranges { AreRangesOf (entry_keys (A.words analyzer.now) field (option_copied path.entry) (range_of range.now) (slice_get schema.now field)) result }
    ensures inside { IfOk result (AreInside (length schema.now)) }
{
    if field.field_id() as usize >= schema.num_fields() {
        return Err(QueryParserError::FieldDoesNotExist);
    }
    let entry = schema.get_field_entry(field);
    if !entry.is_indexed() {
        return Err(QueryParserError::FieldNotIndexed(field));
    }
    typed_keys(
        alloc,
        analyzer,
        field,
        entry.value_type(),
        entry.expands_dots(),
        path,
        range,
    )
}

// The terms of a range in a field; bounds in a field of JSON values are at a path.
fn typed_keys<A: TextAnalyzer>(
    alloc: Global,
    analyzer: &A,
    field: Field,
    value_type: ValueType,
    expand_dots: bool,
    path: Option<&str>,
    range: &UserInputRange,
) -> Result<TermRanges, QueryParserError>
    ensures ranges { AreRangesOf (typed_keys (A.words analyzer.now) field expand_dots (option_copied path.entry) (range_of range.now) value_type) result }
    ensures inside { (n : ℕ) → field < n → IfOk result (AreInside n) }
{
    let has_bound = !(is_unbounded(&range.lower) && is_unbounded(&range.upper));
    if value_type == ValueType::Json && has_bound {
        let start = keys_start(alloc, field, expand_dots, Some(path_or_empty(path)))?;
        return json_keys(alloc, analyzer, start, range);
    }
    let start = keys_start(alloc, field, expand_dots, path)?;
    value_keys(alloc, analyzer, start, value_type, range)
}

fn is_unbounded(bound: &UserInputBound) -> bool
    ensures { result ≡ is_unbounded (bound_of bound.now) }
{
    match bound {
        UserInputBound::Unbounded => true,
        UserInputBound::Inclusive(_) => false,
        UserInputBound::Exclusive(_) => false,
    }
}

fn path_or_empty<'a>(path: Option<&'a str>) -> &'a str
    ensures { result.now ≡ path_or_empty (option_copied path.entry) }
{
    match path {
        Some(path) => path,
        None => "",
    }
}

// The terms of a range at a path of JSON values: of integers, if each bound is one, otherwise of words.
fn json_keys<A: TextAnalyzer>(
    alloc: Global,
    analyzer: &A,
    start: Term,
    range: &UserInputRange,
) -> Result<TermRanges, QueryParserError>
    ensures ranges { AreRangesOf (json_keys (A.words analyzer.now) (range_of range.now) (Ok start)) result }
    ensures inside { (n : ℕ) → start.field < n → IfOk result (AreInside n) }
{
    if bounds_integers(&range.lower) && bounds_integers(&range.upper) {
        let first = integer_keys(alloc, &start, range, Integers::Signed)?;
        let other = integer_keys(alloc, &start, range, Integers::Unsigned)?;
        return Ok(TermRanges { first, other });
    }
    let mut prefix = start;
    prefix.append_type_and_str("")?;
    value_keys(alloc, analyzer, prefix, ValueType::Json, range)
}

// Whether a bound is an integer, or there is none.
fn bounds_integers(bound: &UserInputBound) -> bool
    ensures { result ≡ bounds_integers (bound_of bound.now) }
{
    match bound {
        UserInputBound::Unbounded => true,
        UserInputBound::Inclusive(text) => is_integer(text.as_str()),
        UserInputBound::Exclusive(text) => is_integer(text.as_str()),
    }
}

fn is_integer(text: &str) -> bool
    ensures { result ≡ is_integer text.now }
{
    i64_in(text).is_some() || u64_in(text).is_some()
}

// The terms of a range of integers, after what they start with, if a bound does not exclude them all.
fn integer_keys(
    alloc: Global,
    start: &Term,
    range: &UserInputRange,
    integers: Integers,
) -> Result<Option<TermRange>, Fault>
    ensures range { IfOk result (λ found. option_map keys_of found ≡ integer_keys start.now (range_of range.now) integers) }
    ensures inside { (n : ℕ) → start.now.field < n → IfOk result (IsInside n) }
    ensures only { OnlyMemory result }
{
    let prefix = integer_prefix(alloc, start, integers)?;
    let lower = integer_bound(
        alloc,
        integers,
        &prefix,
        integers.lower_beyond(),
        &range.lower,
    )?;
    let upper = integer_bound(
        alloc,
        integers,
        &prefix,
        integers.upper_beyond(),
        &range.upper,
    )?;
    let Some(lower) = lower else {
        return Ok(None);
    };
    let Some(upper) = upper else {
        return Ok(None);
    };
    Ok(Some(TermRange {
        prefix,
        lower,
        upper,
    }))
}

// What the keys of integers of a type start with.
fn integer_prefix(alloc: Global, start: &Term, integers: Integers) -> Result<Term, Fault>
    ensures ok { IfOk result (λ term. term ≡ record { field = start.now.field; value = start.now.value ++ code_of (integer_type integers) ∷ [] }) }
    ensures only { OnlyMemory result }
{
    let mut value = Vec::from_slice(alloc, start.serialized_value_bytes())?;
    value.push(integers.value_type().to_code())?;
    Term::from_field_bytes(alloc, start.field(), value.as_slice())
}

// The bound of keys of a bound that is a number; `beyond` where the number is not of the type.
fn integer_bound(
    alloc: Global,
    integers: Integers,
    prefix: &Term,
    beyond: Option<KeyBound>,
    bound: &UserInputBound,
) -> Result<Option<KeyBound>, Fault>
    ensures ok { IfOk result (λ found. option_map key_bound found ≡ integer_bound integers prefix.now.value (option_map key_bound beyond) (bound_of bound.now)) }
    ensures only { OnlyMemory result }
{
    match bound {
        UserInputBound::Unbounded => Ok(Some(KeyBound::Unbounded)),
        UserInputBound::Inclusive(text) => match integers.number_in(text.as_str()) {
            Some(number) => Ok(Some(KeyBound::Included(number_key(alloc, prefix, number)?))),
            None => Ok(beyond),
        },
        UserInputBound::Exclusive(text) => match integers.number_in(text.as_str()) {
            Some(number) => Ok(Some(KeyBound::Excluded(number_key(alloc, prefix, number)?))),
            None => Ok(beyond),
        },
    }
}

// The key of a number after a prefix.
fn number_key(alloc: Global, prefix: &Term, number: u64) -> Result<Vec<u8>, Fault>
    ensures ok { IfOk result (λ key. key.items ≡ prefix.now.value ++ u64_bytes number) }
    ensures only { OnlyMemory result }
{
    let mut key = Vec::from_slice(alloc, prefix.serialized_value_bytes())?;
    key.extend_from_slice(&number.to_be_bytes())?;
    Ok(key)
}

// The terms of a range of values of a type, each after a prefix.
fn value_keys<A: TextAnalyzer>(
    alloc: Global,
    analyzer: &A,
    prefix: Term,
    value_type: ValueType,
    range: &UserInputRange,
) -> Result<TermRanges, QueryParserError>
    ensures ranges { AreRangesOf (value_keys (A.words analyzer.now) prefix value_type (range_of range.now)) result }
    ensures inside { (n : ℕ) → prefix.field < n → IfOk result (AreInside n) }
{
    let lower = bound_keys(alloc, analyzer, &prefix, value_type, &range.lower)?;
    let upper = bound_keys(alloc, analyzer, &prefix, value_type, &range.upper)?;
    let range = TermRange {
        prefix,
        lower,
        upper,
    };
    Ok(TermRanges {
        first: Some(range),
        other: None,
    })
}

// What the keys of a field start with: those of a path, if there is one.
fn keys_start(
    alloc: Global,
    field: Field,
    expand_dots: bool,
    path: Option<&str>,
) -> Result<Term, QueryParserError>
    ensures start { IsStart (keys_start field expand_dots (option_copied path.entry)) result }
    ensures field { IfOk result (λ start. start.field ≡ field) }
{
    let Some(path) = path else {
        return Ok(Term::from_field_bytes(alloc, field, &[])?);
    };
    if path.as_bytes().contains(&0) {
        return Err(QueryParserError::UnsupportedPath(field));
    }
    Ok(Term::from_field_json_path(alloc, field, path, expand_dots)?)
}

// The bound of keys of a bound.
fn bound_keys<A: TextAnalyzer>(
    alloc: Global,
    analyzer: &A,
    prefix: &Term,
    value_type: ValueType,
    bound: &UserInputBound,
) -> Result<KeyBound, QueryParserError>
    ensures { IsBound (bound_keys (A.words analyzer.now) prefix.now value_type (bound_of bound.now)) result }
{
    match bound {
        UserInputBound::Unbounded => Ok(KeyBound::Unbounded),
        UserInputBound::Inclusive(text) => {
            let key = text_bound_key(alloc, analyzer, prefix, value_type, text.as_str())?;
            Ok(KeyBound::Included(key))
        }
        UserInputBound::Exclusive(text) => {
            let key = text_bound_key(alloc, analyzer, prefix, value_type, text.as_str())?;
            Ok(KeyBound::Excluded(key))
        }
    }
}

// The key of the text of a bound: that of the only term of the text, after a prefix in a field of JSON values.
fn text_bound_key<A: TextAnalyzer>(
    alloc: Global,
    analyzer: &A,
    prefix: &Term,
    value_type: ValueType,
    text: &str,
) -> Result<Vec<u8>, QueryParserError>
    ensures { IsKey (text_bound_key (A.words analyzer.now) prefix.now text.now value_type) result }
{
    if value_type == ValueType::Json {
        return word_key(alloc, analyzer, prefix, text);
    }
    let field = prefix.field();
    let place = Place {
        field,
        value_type,
        option: IndexRecordOption::WithFreqsAndPositions,
        expand_dots: false,
    };
    let mut terms = Vec::new(alloc);
    match place.push_terms(alloc, analyzer, "", text, &mut terms) {
        Ok(()) => only_key(alloc, field, &terms),
        Err(error) => Err(error),
    }
}

// The key of the only word of a text, after a prefix.
fn word_key<A: TextAnalyzer>(
    alloc: Global,
    analyzer: &A,
    prefix: &Term,
    text: &str,
) -> Result<Vec<u8>, QueryParserError>
    ensures { IsKey (only_key prefix.now.field (text_terms prefix.now.field true None (A.words analyzer.now text.now) (words_phrase prefix.now (A.words analyzer.now text.now)))) result }
{
    let field = prefix.field();
    let place = Place {
        field,
        value_type: ValueType::Json,
        option: IndexRecordOption::WithFreqsAndPositions,
        expand_dots: false,
    };
    let words = words_phrase(alloc, analyzer, prefix, text)?;
    let mut terms = Vec::new(alloc);
    match place.push_words(alloc, analyzer, text, None, words, &mut terms) {
        Ok(()) => only_key(alloc, field, &terms),
        Err(error) => Err(error),
    }
}

// The key of the only term of some.
fn only_key(alloc: Global, field: Field, terms: &[PhraseWords]) -> Result<Vec<u8>, QueryParserError>
    ensures { IsKey (only_key field (Ok terms.now)) result }
{
    if terms.len() != 1 {
        return Err(QueryParserError::UnsupportedBound(field));
    }
    let words = &terms[0];
    if !words.is_alone() {
        return Err(QueryParserError::UnsupportedBound(field));
    }
    Ok(Vec::from_slice(alloc, words.key())?)
}
