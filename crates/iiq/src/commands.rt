ghost use Rattle.std.specs.Prelude.{◌≡◌, ◌^◌, ◌<◌, ◌≤◌, length, string_bytes, IfOk, IfSome, MatchOption, None, Some};
ghost use Rattle.std.specs.Option.{option_copied, option_map};
ghost use Rattle.std.specs.List.{join_with_byte};
ghost use Rattle.std.specs.Str.{IsUtf8};
ghost use Rattle.iiq.specs.Words.{AreTexts, number_below, bytes_of_word, parts_left};
ghost use Rattle.iiq.specs.Commands.{documents_of_words, key_of_word, last_by, leaf_command, leaf_query, look_up_command, next_by, num_command, num_query, open_command, option_of_word, positions_of_words, text_command, text_query};
ghost use Rattle.iiq.specs.Known.{IsCall, call_command, opening_command, query_look_up};
ghost use Rattle.iiq.specs.Session.{fields};

use crate::leaves::path_value;
use crate::parts::{Parts, cut};
use crate::words::{bytes_of, number, number_up_to, option_of};
use bytes::Bytes;
use ii_base::{Field, IndexRecordOption, Term};
use ii_docset::TERMINATED;
use ii_indexing::IndexCall;
use std::alloc::{AllocError, Global};

/// The commands that are known.
#[derive(Clone, Copy)]
pub enum CommandSet {
    /// All commands, including `? query`.
    WithQueries,
    /// All commands except `? query`.
    Strict,
}

/// The arguments of a line that opens a list.
#[derive(Drop)]
pub struct Opening {
    pub record_option: IndexRecordOption,
    pub requested_option: IndexRecordOption,
    pub doc_freq: u32,
    pub postings: Bytes,
    pub positions: Option<Bytes>,
}

/// The arguments of a lookup: the requested option, and the term, if there is one.
#[derive(Drop)]
pub struct Query {
    pub requested: IndexRecordOption,
    pub term: Option<Term>,
}

/// Parses documents: strictly ascending, below `TERMINATED`.
pub fn documents(alloc: Global, words: &mut Parts<'_>) -> Result<Option<Vec<u32>>, AllocError>
    ensures { IfOk result (λ docs. option_map (λ v. v.items) docs ≡ documents_of_words words.old) }
{
    let mut docs = Vec::new(alloc);
    let mut least = 0;
    while let Some(word) = words.next() {
        let Some(doc) = number_up_to(word, u64::from(TERMINATED)) else {
            return Ok(None);
        };
        if doc < least {
            return Ok(None);
        }
        docs.push(doc)?;
        least = doc + 1;
    }
    Ok(Some(docs))
}

/// Parses the words after `open`, if they are well formed.
pub fn list_to_open(alloc: Global, words: &mut Parts<'_>) -> Result<Option<Opening>, AllocError>
    ensures { IfOk result (λ opening. option_map opening_command opening ≡ open_command words.old) }
{
    let Some(record_option) = next_option(words) else {
        return Ok(None);
    };
    let Some(requested_option) = next_option(words) else {
        return Ok(None);
    };
    let Some(doc_freq) = next_number(words, 1 << 32) else {
        return Ok(None);
    };
    let Some(postings) = next_bytes(alloc, words)? else {
        return Ok(None);
    };
    let Some(positions) = last_bytes(alloc, words)? else {
        return Ok(None);
    };
    Ok(Some(Opening {
        record_option,
        requested_option,
        doc_freq,
        postings,
        positions,
    }))
}

fn next_option(words: &mut Parts<'_>) -> Option<IndexRecordOption>
    ensures { MatchOption result (next_by option_of_word words.old ≡ None)
        (λ option. next_by option_of_word words.old ≡ Some (option, words.new)) }
{
    let Some(word) = words.next() else {
        return None;
    };
    option_of(word)
}

fn next_number(words: &mut Parts<'_>, limit: u64) -> Option<u32>
    requires { limit ≤ 2 ^ 32 }
    ensures value { MatchOption result (next_by (number_below limit) words.old ≡ None)
        (λ number. next_by (number_below limit) words.old ≡ Some (number, words.new)) }
    ensures below { IfSome result (λ n. n < limit) }
{
    let Some(word) = words.next() else {
        return None;
    };
    number_up_to(word, limit)
}

fn next_bytes(alloc: Global, words: &mut Parts<'_>) -> Result<Option<Bytes>, AllocError>
    ensures { IfOk result (λ found. MatchOption found (next_by bytes_of_word words.old ≡ None)
        (λ bytes. next_by bytes_of_word words.old ≡ Some (bytes, words.new))) }
{
    let Some(word) = words.next() else {
        return Ok(None);
    };
    shared_bytes(alloc, word)
}

// Parses the bytes of the last word, if there is a word.
fn last_bytes(alloc: Global, words: &mut Parts<'_>) -> Result<Option<Option<Bytes>>, AllocError>
    ensures { IfOk result (λ found. found ≡ positions_of_words words.old) }
{
    let Some(word) = words.next() else {
        return Ok(Some(None));
    };
    if words.next().is_some() {
        return Ok(None);
    }
    match shared_bytes(alloc, word)? {
        Some(bytes) => Ok(Some(Some(bytes))),
        None => Ok(None),
    }
}

fn shared_bytes(alloc: Global, word: &[u8]) -> Result<Option<Bytes>, AllocError>
    ensures { IfOk result (λ found. found ≡ bytes_of_word word.now) }
{
    match bytes_of(alloc, word)? {
        Some(bytes) => Ok(Some(Bytes::from_vec(bytes)?)),
        None => Ok(None),
    }
}

/// Parses the document and the text after `text`, if the document is valid.
pub fn text_call(alloc: Global, rest: Option<&[u8]>) -> Result<Option<IndexCall>, AllocError>
    requires { IfSome rest (λ text. IsUtf8 text.now) }
    ensures call { IfOk result (λ call. option_map call_command call ≡ text_command (parts_left 32 (option_copied rest.entry))) }
    ensures lawful { IfOk result (λ call. IfSome call IsCall) }
{
    let Some(rest) = rest else {
        return Ok(None);
    };
    let (word, text) = cut(rest, b' ');
    let Some(doc) = number_up_to(word, u64::from(TERMINATED)) else {
        return Ok(None);
    };
    let text = text_of(alloc, text)?;
    Ok(Some(IndexCall::Text(doc, Field::from_field_id(0), text)))
}

/// Copies a text. A missing text gives an empty one.
pub fn text_of(alloc: Global, text: Option<&[u8]>) -> Result<String, AllocError>
    requires { IfSome text (λ t. IsUtf8 t.now) }
    ensures { IfOk result (λ string. string_bytes string ≡ join_with_byte 32 (parts_left 32 (option_copied text.entry))) }
{
    let Some(bytes) = text else {
        return Ok(String::new(alloc));
    };
    match std::str::from_utf8(bytes) {
        Ok(text) => String::from_str(alloc, text),
        Err(_) => Ok(String::new(alloc)),
    }
}

/// Parses the document and the number after `num`.
pub fn num_call(words: &mut Parts<'_>) -> Option<IndexCall>
    ensures call { option_map call_command result ≡ num_command words.old }
    ensures lawful { IfSome result IsCall }
{
    let Some(doc) = next_number(words, u64::from(TERMINATED)) else {
        return None;
    };
    let Some(number) = last_number(words) else {
        return None;
    };
    Some(IndexCall::U64(doc, Field::from_field_id(1), number))
}

/// Parses the document and the JSON value after `leaf`.
pub fn leaf_call(alloc: Global, words: &mut Parts<'_>) -> Result<Option<IndexCall>, AllocError>
    requires { AreTexts words.old }
    ensures call { IfOk result (λ call. option_map call_command call ≡ leaf_command words.old) }
    ensures lawful { IfOk result (λ call. IfSome call IsCall) }
{
    let Some(doc) = next_number(words, u64::from(TERMINATED)) else {
        return Ok(None);
    };
    let Some(found) = path_value(words) else {
        return Ok(None);
    };
    let value = found.json_value(alloc)?;
    Ok(Some(IndexCall::Json(doc, Field::from_field_id(2), value)))
}

/// Parses the words of a lookup after the question mark.
pub fn term_to_look_up(alloc: Global, words: &mut Parts<'_>) -> Result<Option<Query>, AllocError>
    requires { AreTexts words.old }
    ensures query { IfOk result (λ query. option_map query_look_up query ≡ look_up_command words.old) }
    ensures field { IfOk result (λ query. IfSome query (λ q. IfSome q.term (λ t. t.field < length fields))) }
{
    let Some(word) = words.next() else {
        return Ok(None);
    };
    if word == b"text".as_slice() {
        return text_query(alloc, words);
    }
    if word == b"num".as_slice() {
        return num_query(alloc, words);
    }
    if word == b"leaf".as_slice() {
        return leaf_query(alloc, words);
    }
    Ok(None)
}

// Parses an option, and a text as it is.
fn text_query(alloc: Global, words: &mut Parts<'_>) -> Result<Option<Query>, AllocError>
    ensures query { IfOk result (λ query. option_map query_look_up query ≡ text_query words.old) }
    ensures field { IfOk result (λ query. IfSome query (λ q. IfSome q.term (λ t. t.field < length fields))) }
{
    let Some(requested) = next_option(words) else {
        return Ok(None);
    };
    let Some(word) = last_word(words) else {
        return Ok(None);
    };
    if word.is_empty() {
        return Ok(None);
    }
    let field = Field::from_field_id(0);
    let Ok(term) = Term::from_field_bytes(alloc, field, word) else {
        return Err(AllocError);
    };
    let term = Some(term);
    Ok(Some(Query { requested, term }))
}

// Parses a number.
fn num_query(alloc: Global, words: &mut Parts<'_>) -> Result<Option<Query>, AllocError>
    ensures query { IfOk result (λ query. option_map query_look_up query ≡ num_query words.old) }
    ensures field { IfOk result (λ query. IfSome query (λ q. IfSome q.term (λ t. t.field < length fields))) }
{
    let Some(number) = last_number(words) else {
        return Ok(None);
    };
    let field = Field::from_field_id(1);
    let Ok(term) = Term::from_field_u64(alloc, field, number) else {
        return Err(AllocError);
    };
    let requested = IndexRecordOption::Basic;
    let term = Some(term);
    Ok(Some(Query { requested, term }))
}

// Parses an option, and a value at a path of the JSON field.
fn leaf_query(alloc: Global, words: &mut Parts<'_>) -> Result<Option<Query>, AllocError>
    requires { AreTexts words.old }
    ensures query { IfOk result (λ query. option_map query_look_up query ≡ leaf_query words.old) }
    ensures field { IfOk result (λ query. IfSome query (λ q. IfSome q.term (λ t. t.field < length fields))) }
{
    let Some(requested) = next_option(words) else {
        return Ok(None);
    };
    let Some(found) = path_value(words) else {
        return Ok(None);
    };
    let term = found.term(alloc)?;
    Ok(Some(Query { requested, term }))
}

// Returns the next word, if it isn't empty.
pub fn next_word<'a>(words: &mut Parts<'a>) -> Option<&'a [u8]>
    ensures word { MatchOption result (next_by key_of_word words.old ≡ None)
        (λ word. next_by key_of_word words.old ≡ Some (word.now, words.new)) }
{
    let Some(word) = words.next() else {
        return None;
    };
    if word.is_empty() {
        return None;
    }
    Some(word)
}

// Returns the only remaining word.
pub fn last_word<'a>(words: &mut Parts<'a>) -> Option<&'a [u8]>
    ensures { option_copied result ≡ last_by (λ word. Some word) words.old }
{
    let Some(word) = words.next() else {
        return None;
    };
    match words.next() {
        Some(_) => None,
        None => Some(word),
    }
}

fn last_number(words: &mut Parts<'_>) -> Option<u64>
    ensures { result ≡ last_by (number_below (2 ^ 64)) words.old }
{
    let Some(word) = last_word(words) else {
        return None;
    };
    number(word)
}
