//! The text of a part of a query.
ghost use Rattle.std.specs.Prelude.{◌≡◌, ◌==◌, ◌<◌, ◌≤◌, ◌++◌, ◌-◌, ◌∷◌, [], IfOk, IfSome, OnOk, codes, length, position, slice_get, string_bytes};
ghost use Rattle.std.specs.List.{repeat};
ghost use Rattle.std.specs.Option.{option_map};
ghost use Rattle.ii_explanation.specs.PartTexts.{bound_text, closing, in_field, json_start, key_start, last_distance, later_terms, lettered_start, opening, part_text, path_len, phrase_text, range_text, slop_text, typed_start};
ghost use Rattle.ii_query_parser.specs.Queries.{others_with, tree_of};
ghost use Rattle.ii_query_parser.specs.QueryTexts.{is_unbounded};
ghost use Rattle.ii_query_parser.specs.Ranges.{key_bound, keys_of};
ghost use Rattle.ii_term_text.specs.KeyTexts.{text_of_key, type_of_letter};

use ii_base::{Field, FieldEntry, Schema, Term, ValueType};
use ii_query_parser::{KeyBound, PhrasePrefix, PhraseTerm, Query, TermRange};
use ii_term_text::{push_key, push_path_bytes};
use std::alloc::{AllocError, Global};

/// Appends the text of a part of a query that has no parts, as a query is written: the name of the field, a colon, and
/// the term as the command `terms` prints it (`push_key`); for a phrase its terms in quotes, with `?` for each position
/// between two of them that has none, and `~` and its slop if it isn't 0; for a phrase whose last term is one of a range
/// the prefix of this as the last term, and `*` after the quotes, without bounds of the range; for a range its bounds in
/// brackets, or the beginning of its keys and `*`; for all documents `*`. Of any other query, and of a field that the
/// schema doesn't have, it appends nothing.
#[tactic(auto, using(ii_query_parser::proofs::QueryLemmas::nothing_tree, ii_query_parser::proofs::QueryLemmas::all_tree, ii_query_parser::proofs::QueryLemmas::term_tree, ii_query_parser::proofs::QueryLemmas::phrase_tree, ii_query_parser::proofs::QueryLemmas::phrase_prefix_tree, ii_query_parser::proofs::QueryLemmas::range_tree, ii_query_parser::proofs::QueryLemmas::and_tree, ii_query_parser::proofs::QueryLemmas::or_tree, ii_query_parser::proofs::QueryLemmas::and_not_tree))]
pub fn push_part(
    alloc: Global,
    text: &mut String,
    schema: &Schema,
    part: &Query,
) -> Result<(), AllocError>
    ensures { OnOk result (string_bytes text.new ≡ string_bytes text.old ++ part_text schema.now (tree_of part.now)) }
{
    match part {
        Query::All(_) => text.push_str("*"),
        Query::Term(term) => push_term(alloc, text, schema, term),
        Query::Phrase(first, others, slop) => {
            push_phrase(alloc, text, schema, first, others, *slop)
        }
        Query::PhrasePrefix(phrase) => push_phrase_prefix(alloc, text, schema, phrase),
        Query::Range(range) => push_range(alloc, text, schema, range),
        Query::Empty | Query::And(_) | Query::Or(_) | Query::AndNot(_, _) => Ok(()),
    }
}

// Returns the entry of a field, if the schema has it.
fn entry_of(schema: &Schema, field: Field) -> Option<&FieldEntry>
    ensures { option_map (λ e. e.now) result ≡ slice_get schema.now field }
{
    if field.field_id() as usize >= schema.num_fields() {
        return None;
    }
    Some(schema.get_field_entry(field))
}

// Appends the name of a field and a colon.
fn push_name(text: &mut String, entry: &FieldEntry) -> Result<(), AllocError>
    ensures { OnOk result (string_bytes text.new ≡ string_bytes text.old ++ entry.now.name ++ 58 ∷ []) }
{
    text.push_str(entry.name())?;
    text.push_str(":")
}

// Appends the text of a term.
fn push_term(
    alloc: Global,
    text: &mut String,
    schema: &Schema,
    term: &Term,
) -> Result<(), AllocError>
    ensures { OnOk result (string_bytes text.new ≡ string_bytes text.old ++ in_field schema.now term.now.field (λ t. text_of_key t term.now.value)) }
{
    let Some(entry) = entry_of(schema, term.field()) else {
        return Ok(());
    };
    push_name(text, entry)?;
    push_key(
        alloc,
        text,
        entry.value_type(),
        term.serialized_value_bytes(),
    )
}

// Appends the text of a phrase, and its slop.
fn push_phrase(
    alloc: Global,
    text: &mut String,
    schema: &Schema,
    first: &Term,
    others: &[PhraseTerm],
    slop: u32,
) -> Result<(), AllocError>
    ensures { OnOk result (string_bytes text.new ≡ string_bytes text.old ++ in_field schema.now first.now.field (λ t. phrase_text first.now others.now t ++ slop_text slop)) }
{
    let Some(entry) = entry_of(schema, first.field()) else {
        return Ok(());
    };
    push_name(text, entry)?;
    push_terms(alloc, text, entry.value_type(), first, others)?;
    push_slop(text, slop)
}

// Appends the slop of a phrase, if it isn't 0.
fn push_slop(text: &mut String, slop: u32) -> Result<(), AllocError>
    ensures { OnOk result (string_bytes text.new ≡ string_bytes text.old ++ slop_text slop) }
{
    if slop == 0 {
        return Ok(());
    }
    write!(text, "~{slop}")
}

// Appends the terms of a phrase, in quotes.
fn push_terms(
    alloc: Global,
    text: &mut String,
    value_type: ValueType,
    first: &Term,
    others: &[PhraseTerm],
) -> Result<(), AllocError>
    ensures { OnOk result (string_bytes text.new ≡ string_bytes text.old ++ phrase_text first.now others.now value_type) }
{
    push_first_terms(alloc, text, value_type, first, others)?;
    text.push_str("\"")
}

// Appends the text of a phrase whose last term is one of a range.
fn push_phrase_prefix(
    alloc: Global,
    text: &mut String,
    schema: &Schema,
    phrase: &PhrasePrefix,
) -> Result<(), AllocError>
    ensures { OnOk result (string_bytes text.new ≡ string_bytes text.old ++ in_field schema.now phrase.now.first.field (λ t. phrase_text phrase.now.first (others_with phrase.now phrase.now.last.prefix.value) t ++ codes "*")) }
{
    let Some(entry) = entry_of(schema, phrase.first.field()) else {
        return Ok(());
    };
    push_name(text, entry)?;
    push_terms_of_prefix(alloc, text, entry.value_type(), phrase)
}

// Appends the terms of a phrase whose last term is one of a range, in quotes, the prefix of this as the last one, and
// `*`.
fn push_terms_of_prefix(
    alloc: Global,
    text: &mut String,
    value_type: ValueType,
    phrase: &PhrasePrefix,
) -> Result<(), AllocError>
    ensures { OnOk result (string_bytes text.new ≡ string_bytes text.old ++ phrase_text phrase.now.first (others_with phrase.now phrase.now.last.prefix.value) value_type ++ codes "*") }
{
    let last = push_first_terms(alloc, text, value_type, &phrase.first, &phrase.others)?;
    push_later_term(
        alloc,
        text,
        value_type,
        last,
        phrase.distance,
        phrase.last.prefix.serialized_value_bytes(),
    )?;
    text.push_str("\"*")
}

// Appends a quote and the first terms of a phrase, and returns the distance of the last one of these.
fn push_first_terms(
    alloc: Global,
    text: &mut String,
    value_type: ValueType,
    first: &Term,
    others: &[PhraseTerm],
) -> Result<u32, AllocError>
    ensures pushed { OnOk result (string_bytes text.new ≡ string_bytes text.old ++ 34 ∷ (text_of_key value_type first.now.value ++ later_terms value_type 0 others.now)) }
    ensures last { IfOk result (λ last. last ≡ last_distance 0 others.now) }
{
    text.push_str("\"")?;
    push_key(alloc, text, value_type, first.serialized_value_bytes())?;
    push_later_terms(alloc, text, value_type, others)
}

// Appends the terms of a phrase after the first one, and returns the distance of the last one.
fn push_later_terms(
    alloc: Global,
    text: &mut String,
    value_type: ValueType,
    others: &[PhraseTerm],
) -> Result<u32, AllocError>
    ensures pushed { OnOk result (string_bytes text.new ≡ string_bytes text.old ++ later_terms value_type 0 others.now) }
    ensures last { IfOk result (λ last. last ≡ last_distance 0 others.now) }
{
    let mut last = 0;
    for other in others {
        let key = other.term.serialized_value_bytes();
        push_later_term(alloc, text, value_type, last, other.distance, key)?;
        last = other.distance;
    }
    Ok(last)
}

// Appends a term of a phrase, given its distance, its key, and the distance of the term before it.
fn push_later_term(
    alloc: Global,
    text: &mut String,
    value_type: ValueType,
    last: u32,
    distance: u32,
    key: &[u8],
) -> Result<(), AllocError>
    ensures { OnOk result (string_bytes text.new ≡ string_bytes text.old ++ repeat (distance - last - 1) (codes " ?") ++ 32 ∷ text_of_key value_type key.now) }
{
    push_gap(text, distance.saturating_sub(last).saturating_sub(1))?;
    text.push_str(" ")?;
    push_key(alloc, text, value_type, key)
}

// Appends ` ?` for each of so many positions.
fn push_gap(text: &mut String, positions: u32) -> Result<(), AllocError>
    ensures { OnOk result (string_bytes text.new ≡ string_bytes text.old ++ repeat positions (codes " ?")) }
{
    for _ in 0..positions {
        text.push_str(" ?")?;
    }
    Ok(())
}

// Appends the text of a range.
fn push_range(
    alloc: Global,
    text: &mut String,
    schema: &Schema,
    range: &TermRange,
) -> Result<(), AllocError>
    ensures { OnOk result (string_bytes text.new ≡ string_bytes text.old ++ in_field schema.now range.now.prefix.field (range_text (keys_of range.now))) }
{
    let Some(entry) = entry_of(schema, range.prefix.field()) else {
        return Ok(());
    };
    push_name(text, entry)?;
    push_keys(alloc, text, entry.value_type(), range)
}

// Appends the keys of a range.
fn push_keys(
    alloc: Global,
    text: &mut String,
    value_type: ValueType,
    range: &TermRange,
) -> Result<(), AllocError>
    ensures { OnOk result (string_bytes text.new ≡ string_bytes text.old ++ range_text (keys_of range.now) value_type) }
{
    if is_unbounded(&range.lower) && is_unbounded(&range.upper) {
        push_start(
            alloc,
            text,
            value_type,
            range.prefix.serialized_value_bytes(),
        )?;
        return text.push_str("*");
    }
    text.push_str(opening(&range.lower))?;
    push_bound(alloc, text, value_type, &range.lower)?;
    text.push_str(" TO ")?;
    push_bound(alloc, text, value_type, &range.upper)?;
    text.push_str(closing(&range.upper))
}

// Returns whether there is no bound.
fn is_unbounded(bound: &KeyBound) -> bool
    ensures { result ≡ is_unbounded (key_bound bound.now) }
{
    match bound {
        KeyBound::Unbounded => true,
        KeyBound::Included(_) | KeyBound::Excluded(_) => false,
    }
}

// Returns the bracket before a range.
fn opening(bound: &KeyBound) -> &'static str
    ensures { result.now ≡ opening (key_bound bound.now) }
{
    match bound {
        KeyBound::Unbounded | KeyBound::Included(_) => "[",
        KeyBound::Excluded(_) => "{",
    }
}

// Returns the bracket after a range.
fn closing(bound: &KeyBound) -> &'static str
    ensures { result.now ≡ closing (key_bound bound.now) }
{
    match bound {
        KeyBound::Unbounded | KeyBound::Included(_) => "]",
        KeyBound::Excluded(_) => "}",
    }
}

// Appends a bound of a range.
fn push_bound(
    alloc: Global,
    text: &mut String,
    value_type: ValueType,
    bound: &KeyBound,
) -> Result<(), AllocError>
    ensures { OnOk result (string_bytes text.new ≡ string_bytes text.old ++ bound_text value_type (key_bound bound.now)) }
{
    match bound {
        KeyBound::Unbounded => text.push_str("*"),
        KeyBound::Included(key) | KeyBound::Excluded(key) => {
            push_key(alloc, text, value_type, key.as_slice())
        }
    }
}

// Appends the beginning of keys.
fn push_start(
    alloc: Global,
    text: &mut String,
    value_type: ValueType,
    start: &[u8],
) -> Result<(), AllocError>
    ensures { OnOk result (string_bytes text.new ≡ string_bytes text.old ++ key_start value_type start.now) }
{
    if start.is_empty() {
        return Ok(());
    }
    if value_type == ValueType::Json {
        return push_json_start(alloc, text, start);
    }
    push_key(alloc, text, value_type, start)
}

// Appends the beginning of keys of a JSON field.
fn push_json_start(alloc: Global, text: &mut String, key: &[u8]) -> Result<(), AllocError>
    ensures { OnOk result (string_bytes text.new ≡ string_bytes text.old ++ json_start key.now) }
{
    let end = path_len(key);
    let (path, rest) = key.split_at(end);
    push_path_bytes(alloc, text, path)?;
    text.push_str(" ")?;
    push_typed_start(alloc, text, rest)
}

// Returns how many bytes the path has that a key of a JSON field begins with.
fn path_len(key: &[u8]) -> usize
    ensures is { result ≡ path_len key.now }
    ensures within { result ≤ length key.now }
{
    match zero_in(key) {
        Some(place) => place,
        None => key.len(),
    }
}

// Returns where the first byte 0 is.
fn zero_in(key: &[u8]) -> Option<usize>
    ensures is { result ≡ position (λ b. b == 0) key.now }
    ensures within { IfSome result (λ place. place < length key.now) }
{
    key.iter().position(|b| *b == 0)
}

// Appends what there is of a key of a JSON field after its path.
fn push_typed_start(alloc: Global, text: &mut String, rest: &[u8]) -> Result<(), AllocError>
    ensures { OnOk result (string_bytes text.new ≡ string_bytes text.old ++ typed_start rest.now) }
{
    if rest.len() < 2 {
        return Ok(());
    }
    let (_, value) = rest.split_at(2);
    push_lettered_start(alloc, text, type_of(rest[1]), value)
}

// Returns the type with a letter, if there is one.
fn type_of(letter: u8) -> Option<ValueType>
    ensures { result ≡ type_of_letter letter }
{
    ValueType::from_code(letter)
}

// Appends the letter of a type and the beginning of a value, if there is a type.
fn push_lettered_start(
    alloc: Global,
    text: &mut String,
    value_type: Option<ValueType>,
    value: &[u8],
) -> Result<(), AllocError>
    ensures { OnOk result (string_bytes text.new ≡ string_bytes text.old ++ lettered_start value_type value.now) }
{
    let Some(value_type) = value_type else {
        return Ok(());
    };
    text.push(char::from(value_type.to_code()))?;
    text.push_str(" ")?;
    if value.is_empty() {
        return Ok(());
    }
    push_key(alloc, text, value_type, value)
}
