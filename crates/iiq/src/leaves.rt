ghost use Rattle.std.specs.Prelude.{◌≡◌, ◌++◌, IfOk, OnOk, codes, false, is_none, string_bytes};
ghost use Rattle.std.specs.Option.{option_map};
ghost use Rattle.std.specs.Str.{IsUtf8};
ghost use Rattle.ii_io.specs.Faults.{OnlyMemory};
ghost use Rattle.ii_base.specs.Json.{json_leaves, json_of, u64_leaf};
ghost use Rattle.ii_base.specs.Paths.{joined_segments, segments_of};
ghost use Rattle.iiq.specs.Commands.{leaf_key, leaf_of_word, leaf_of_words, leaf_term, null_of_words, optional, path_leaves};
ghost use Rattle.iiq.specs.Known.{json_alone, key_of_leaf, leaf_or_none, leaves_of};
ghost use Rattle.iiq.specs.Words.{AreTexts};

use crate::commands::{last_word, next_word};
use crate::parts::Parts;
use crate::words::{number, signed_number, truth_of};
use ii_base::{Fault, Field, JsonPathWriter, JsonValue, Term, split_json_path};
use std::alloc::{AllocError, Global};

/// A JSON value without members or elements, as a line writes it.
#[derive(Drop)]
pub enum LeafValue<'a> {
    Null,
    Text(&'a str),
    Signed(i64),
    Unsigned(u64),
    Truth(bool),
}

/// A path, as a line writes it, and its value.
#[derive(Drop)]
pub struct PathValue<'a> {
    pub path: &'a str,
    pub value: LeafValue<'a>,
}

/// Parses a path and a value.
pub fn path_value<'a>(words: &mut Parts<'a>) -> Option<PathValue<'a>>
    requires { AreTexts words.old }
    ensures { option_map leaves_of result ≡ path_leaves words.old }
{
    let Some(path) = next_word(words) else {
        return None;
    };
    let Some(value) = value_of(words) else {
        return None;
    };
    match std::str::from_utf8(path) {
        Ok(path) => Some(PathValue { path, value }),
        Err(_) => None,
    }
}

// Parses a value of a kind and a word. A null has no word.
fn value_of<'a>(words: &mut Parts<'a>) -> Option<LeafValue<'a>>
    requires { AreTexts words.old }
    ensures { option_map leaf_or_none result ≡ leaf_of_words words.old }
{
    let Some(kind) = words.next() else {
        return None;
    };
    if kind == b"n".as_slice() {
        return null_of(words);
    }
    let Some(word) = last_word(words) else {
        return None;
    };
    leaf_value(kind, word)
}

// Returns a null, if no word remains.
fn null_of<'a>(words: &mut Parts<'_>) -> Option<LeafValue<'a>>
    ensures { option_map leaf_or_none result ≡ null_of_words words.old }
{
    match words.next() {
        Some(_) => None,
        None => Some(LeafValue::Null),
    }
}

// Parses a word as a value of its kind.
fn leaf_value<'a>(kind: &[u8], word: &'a [u8]) -> Option<LeafValue<'a>>
    requires { IsUtf8 word.now }
    ensures { option_map leaf_or_none result ≡ option_map optional (leaf_of_word kind.now word.now) }
{
    if kind == b"s".as_slice() {
        return text_value(word);
    }
    if kind == b"i".as_slice() {
        let Some(number) = signed_number(word) else {
            return None;
        };
        return Some(LeafValue::Signed(number));
    }
    if kind == b"u".as_slice() {
        let Some(number) = number(word) else {
            return None;
        };
        return Some(LeafValue::Unsigned(number));
    }
    if kind == b"o".as_slice() {
        let Some(truth) = truth_of(word) else {
            return None;
        };
        return Some(LeafValue::Truth(truth));
    }
    None
}

// Parses a text that isn't empty.
fn text_value<'a>(word: &'a [u8]) -> Option<LeafValue<'a>>
    requires { IsUtf8 word.now }
    ensures { option_map leaf_or_none result ≡ option_map optional (leaf_of_word (codes "s") word.now) }
{
    if word.is_empty() {
        return None;
    }
    match std::str::from_utf8(word) {
        Ok(text) => Some(LeafValue::Text(text)),
        Err(_) => None,
    }
}

impl<'a> PathValue<'a> {
    /// Returns a JSON value with this value at the path: an object with the complete path as its only
    /// key. Byte 1 in a key means the same in a path as it does between two keys. So a path of many
    /// segments isn't a deep value.
    pub fn json_value(self, alloc: Global) -> Result<JsonValue, AllocError>
        ensures { IfOk result (λ value. json_leaves false (json_of value) ≡ leaves_of self.entry) }
    {
        let path = joined_path(alloc, self.path)?;
        let value = self.value.json_value(alloc)?;
        let mut members = Vec::new(alloc);
        members.push((path, value))?;
        Ok(JsonValue::Object(members))
    }

    /// Returns the term of the value at the path. A null has no term, and neither has a path with
    /// byte 0.
    pub fn term(&self, alloc: Global) -> Result<Option<Term>, AllocError>
        ensures { IfOk result (λ term. term ≡ leaf_term (leaves_of self.now)) }
    {
        if self.path.as_bytes().contains(&0) {
            return Ok(None);
        }
        if self.value.is_null() {
            return Ok(None);
        }
        let field = Field::from_field_id(2);
        let Ok(mut term) = Term::from_field_json_path(alloc, field, self.path, false) else {
            return Err(AllocError);
        };
        match self.value.append_to(&mut term) {
            Ok(()) => Ok(Some(term)),
            Err(_) => Err(AllocError),
        }
    }
}

impl<'a> LeafValue<'a> {
    // Returns the JSON value without a path.
    fn json_value(self, alloc: Global) -> Result<JsonValue, AllocError>
        ensures { IfOk result (λ value. json_of value ≡ json_alone (leaf_or_none self.entry)) }
    {
        match self {
            LeafValue::Null => Ok(JsonValue::Null),
            LeafValue::Text(text) => Ok(JsonValue::Str(String::from_str(alloc, text)?)),
            LeafValue::Signed(number) => Ok(JsonValue::I64(number)),
            LeafValue::Unsigned(number) => Ok(JsonValue::U64(number)),
            LeafValue::Truth(truth) => Ok(JsonValue::Bool(truth)),
        }
    }

    fn is_null(&self) -> bool
        ensures { result ≡ is_none (leaf_or_none self.now) }
    {
        match self {
            LeafValue::Null => true,
            _ => false,
        }
    }

    // Appends the value to the term of its path.
    fn append_to(&self, term: &mut Term) -> Result<(), Fault>
        ensures ok { OnOk result (term.new ≡ record term.old { value = term.old.value ++ key_of_leaf self.now }) }
        ensures only { OnlyMemory result }
    {
        match self {
            LeafValue::Null => Ok(()),
            LeafValue::Text(text) => term.append_type_and_str(text),
            LeafValue::Signed(number) => term.append_type_and_fast_value(*number),
            LeafValue::Unsigned(number) => append_unsigned(term, *number),
            LeafValue::Truth(truth) => term.append_type_and_fast_value(*truth),
        }
    }
}

// Appends an unsigned number, as a signed one if it fits.
fn append_unsigned(term: &mut Term, number: u64) -> Result<(), Fault>
    ensures ok { OnOk result (term.new ≡ record term.old { value = term.old.value ++ leaf_key (u64_leaf number) }) }
    ensures only { OnlyMemory result }
{
    if number < 1 << 63 {
        return term.append_type_and_fast_value(number as i64);
    }
    term.append_type_and_fast_value(number)
}

// Returns the bytes of a path: its segments, separated by byte 1.
fn joined_path(alloc: Global, path: &str) -> Result<String, AllocError>
    ensures { IfOk result (λ joined. string_bytes joined ≡ joined_segments (segments_of path.now)) }
{
    let Ok(segments) = split_json_path(alloc, path) else {
        return Err(AllocError);
    };
    let mut writer = JsonPathWriter::new(alloc);
    for segment in &segments {
        if writer.push(segment.as_str()).is_err() {
            return Err(AllocError);
        }
    }
    Ok(writer.into_string())
}
