//! Finds the texts of a JSON object in which a query wants words.
ghost use Rattle.std.specs.Prelude.{◌≡◌, ◌++◌, IfOk, OnOk, map};
ghost use Rattle.std.specs.List.{list_any};
ghost use Rattle.std.specs.Option.{option_map};
ghost use Rattle.serde_json.specs.Find.{as_str};
ghost use Rattle.serde_json.specs.View.{items_view, view};
ghost use Rattle.ii_io.specs.Faults.{OnlyMemory};
ghost use Rattle.ii_snippet.specs.FieldTexts.{field_text, field_texts, in_field, is_of_field, is_text, list_of, texts_among, texts_of, wanted_texts};
ghost use Rattle.ii_snippet.specs.Wanted.{wanted_of};

use crate::wanted::WantedWord;
use ii_base::{Fault, Field, FieldEntry, Schema, ValueType};
use serde_json::Value;
use std::alloc::Global;

/// A text of a field.
#[derive(Clone, Copy, Debug, PartialEq, Eq)]
pub struct FieldText<'t> {
    /// The id of the field.
    pub field_id: u32,
    /// The text.
    pub text: &'t str,
}

/// Returns the texts of a JSON object in which a query wants words: those of each text field of which it wants some,
/// in the order of the schema. The texts of an array come one after the other. Fails only with `OutOfMemory`.
pub fn wanted_texts<'v>(
    alloc: Global,
    schema: &Schema,
    words: &[WantedWord<'_>],
    value: &'v Value,
) -> Result<Vec<FieldText<'v>>, Fault>
    ensures texts { IfOk result (λ texts. map field_text texts.items ≡ wanted_texts (map wanted_of words.now) schema.now (view value.now)) }
    ensures only { OnlyMemory result }
{
    let mut texts = Vec::new(alloc);
    for id in 0..schema.num_fields() {
        let field = Field::from_field_id(id as u32);
        push_field(
            words,
            field,
            schema.get_field_entry(field),
            value,
            &mut texts,
        )?;
    }
    Ok(texts)
}

// Adds the texts of a field, if it is a text field of which words are wanted.
fn push_field<'v>(
    words: &[WantedWord<'_>],
    field: Field,
    entry: &FieldEntry,
    value: &'v Value,
    texts: &mut Vec<FieldText<'v>>,
) -> Result<(), Fault>
    ensures texts { OnOk result (map field_text texts.new.items ≡ map field_text texts.old.items ++ field_texts (map wanted_of words.now) (view value.now) field entry.now) }
    ensures only { OnlyMemory result }
{
    if !is_text(entry.value_type()) {
        return Ok(());
    }
    if !wants_field(words, field) {
        return Ok(());
    }
    push_texts(field, value.get(entry.name()), texts)
}

// Returns whether the fields of a type have texts.
fn is_text(value_type: ValueType) -> bool
    ensures { result ≡ is_text value_type }
{
    match value_type {
        ValueType::Str => true,
        ValueType::U64
        | ValueType::I64
        | ValueType::Bool
        | ValueType::Date
        | ValueType::Bytes
        | ValueType::IpAddr
        | ValueType::Json => false,
    }
}

// Returns whether one of some wanted words is of a field.
fn wants_field(words: &[WantedWord<'_>], field: Field) -> bool
    ensures { result ≡ list_any (is_of_field field) (map wanted_of words.now) }
{
    for word in words {
        if is_of_field(*word, field) {
            return true;
        }
    }
    false
}

// Returns whether a wanted word is of a field.
fn is_of_field(word: WantedWord<'_>, field: Field) -> bool
    ensures { result ≡ is_of_field field (wanted_of word.entry) }
{
    match word {
        WantedWord::Term(term) => term.field() == field,
        WantedWord::Range(range) => range.prefix.field() == field,
    }
}

// Adds the texts of the value under the name of a field, if there is one.
fn push_texts<'v>(
    field: Field,
    value: Option<&'v Value>,
    texts: &mut Vec<FieldText<'v>>,
) -> Result<(), Fault>
    ensures texts { OnOk result (map field_text texts.new.items ≡ map field_text texts.old.items ++ map (in_field field) (texts_of (option_map (λ v. view v.now) value.entry))) }
    ensures only { OnlyMemory result }
{
    let Some(value) = value else {
        return Ok(());
    };
    match value.as_array() {
        Some(values) => push_all(field, values, texts),
        None => push_text(field, value, texts),
    }
}

// Adds the texts among some values.
fn push_all<'v>(
    field: Field,
    values: &'v [Value],
    texts: &mut Vec<FieldText<'v>>,
) -> Result<(), Fault>
    ensures texts { OnOk result (map field_text texts.new.items ≡ map field_text texts.old.items ++ map (in_field field) (texts_among (items_view values.now))) }
    ensures only { OnlyMemory result }
{
    for value in values {
        push_text(field, value, texts)?;
    }
    Ok(())
}

// Adds a value, if it is a text.
fn push_text<'v>(
    field: Field,
    value: &'v Value,
    texts: &mut Vec<FieldText<'v>>,
) -> Result<(), Fault>
    ensures texts { OnOk result (map field_text texts.new.items ≡ map field_text texts.old.items ++ map (in_field field) (list_of (as_str (view value.now)))) }
    ensures only { OnlyMemory result }
{
    let Some(text) = value.as_str() else {
        return Ok(());
    };
    let field_id = field.field_id();
    Ok(texts.push(FieldText { field_id, text })?)
}
