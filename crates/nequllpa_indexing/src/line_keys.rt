//! The key of a line: the one value of its document in a field.
ghost use Rattle.std.specs.Prelude.{◌≡◌, ◌==◌, Bool, IfOk, List, Some, filter, map};
ghost use Rattle.std.specs.Option.{option_and_then, option_copied, option_map};
ghost use Rattle.ii_io.specs.Faults.{OnlyMemory};
ghost use Rattle.ii_base.specs.Schema.{SchemaEntry};
ghost use Rattle.ii_definitions.specs.IndexCalls.{call_of, content_of, field_of};
ghost use Rattle.ii_definitions.specs.declared.index_call.IndexCall.{IndexCall};
ghost use Rattle.ii_documents.specs.declared.faults.LineFault.TheVariants.{OutOfMemory};
ghost use Rattle.nequllpa_indexing.specs.KeyedLines.{AnswersWithKey, content_key, key_of_calls, line_key, only_of, short_word};
ghost use Rattle.nequllpa_indexing.specs.declared.faults.InputFault.TheVariants.{Line};
ghost use Rattle.nequllpa_indexing.specs.declared.faults.LineRefusal.TheVariants.{Input};

use crate::documents::Documents;
use crate::faults::{InputFault, LineRefusal};
use ii_base::{Fault, Field, TextAnalyzer, TokenStream};
use ii_documents::{LineFault, line_calls_by};
use ii_indexing::IndexCall;
use ii_postings_writer::postings_writer::MAX_TOKEN_LEN;
use ii_tokenizers::FieldAnalyzers;
use std::alloc::Global;

// Returns the key of a line in a field. The line is read as `documents` read lines.
pub(crate) fn line_key<F: FieldAnalyzers>(
    alloc: Global,
    documents: &Documents,
    analyzers: &F,
    field: Field,
    line: &str,
) -> Result<Vec<u8>, LineRefusal>
    ensures { AnswersWithKey (λ key. key.items) result (line_key (F.words analyzers.now) documents.now field line.now) }
{
    let unknown = documents.unknown_keys();
    let floats = documents.floats();
    let read = match line_calls_by(alloc, documents.schema(), unknown, floats, 0, line) {
        Ok(read) => read,
        Err(fault) => return Err(LineRefusal::Input(InputFault::Line(fault))),
    };
    match key_of_calls(alloc, analyzers, field, read.calls.as_slice()) {
        Ok(Some(key)) => Ok(key),
        Ok(None) => Err(LineRefusal::NoKey),
        Err(_) => Err(no_memory()),
    }
}

// Returns the refusal for an allocation that failed.
pub(crate) fn no_memory() -> LineRefusal
    ensures { result ≡ Input (Line OutOfMemory) }
{
    LineRefusal::Input(InputFault::Line(LineFault::OutOfMemory))
}

// Returns the key of a document in a field, given its index calls.
fn key_of_calls<F: FieldAnalyzers>(
    alloc: Global,
    analyzers: &F,
    field: Field,
    calls: &[IndexCall],
) -> Result<Option<Vec<u8>>, Fault>
    ensures key { IfOk result (λ key. (entries : List SchemaEntry) → option_map (λ v. v.items) key ≡ key_of_calls (F.words analyzers.now) field (map (call_of entries) calls.now)) }
    ensures only { OnlyMemory result }
{
    match only_call(field, calls) {
        Some(call) => key_of_call(alloc, analyzers.analyzer(call.field()), call),
        None => Ok(None),
    }
}

// Returns the only call in a field.
fn only_call(field: Field, calls: &[IndexCall]) -> Option<&IndexCall>
    ensures { option_copied result ≡ only_of (filter (λ (c : IndexCall). field_of c == field) calls.now) }
{
    let mut found = None;
    for call in calls {
        if call.field() != field {
            continue;
        }
        if found.is_some() {
            return None;
        }
        found = Some(call);
    }
    found
}

// Returns the key of what a call indexes.
fn key_of_call<A: TextAnalyzer>(
    alloc: Global,
    analyzer: &A,
    call: &IndexCall,
) -> Result<Option<Vec<u8>>, Fault>
    ensures key { IfOk result (λ key. (expand_dots : Bool) → option_map (λ v. v.items) key ≡ content_key (A.words analyzer.now) (content_of expand_dots call.now)) }
    ensures only { OnlyMemory result }
{
    let number = call.number();
    match call {
        IndexCall::Text(_, _, text) => only_word(alloc, analyzer, text.as_str()),
        IndexCall::U64(_, _, _) => copied(alloc, &number.to_be_bytes()),
        IndexCall::I64(_, _, _) => copied(alloc, &number.to_be_bytes()),
        IndexCall::Bool(_, _, _) => copied(alloc, &number.to_be_bytes()),
        IndexCall::Date(_, _, _) => copied(alloc, &number.to_be_bytes()),
        IndexCall::Bytes(_, _, bytes) => copied(alloc, bytes.as_slice()),
        IndexCall::Ip(_, _, address) => copied(alloc, &(*address).to_be_bytes()),
        IndexCall::Tokens(_, _, _) => Ok(None),
        IndexCall::Json(_, _, _) => Ok(None),
    }
}

// Copies a key.
fn copied(alloc: Global, key: &[u8]) -> Result<Option<Vec<u8>>, Fault>
    ensures key { IfOk result (λ k. option_map (λ v. v.items) k ≡ Some key.now) }
    ensures only { OnlyMemory result }
{
    Ok(Some(Vec::from_slice(alloc, key)?))
}

// Returns the only word of a text, if it has exactly one, which is indexed.
fn only_word<A: TextAnalyzer>(
    alloc: Global,
    analyzer: &A,
    text: &str,
) -> Result<Option<Vec<u8>>, Fault>
    ensures key { IfOk result (λ key. option_map (λ v. v.items) key ≡ option_and_then short_word (only_of (A.words analyzer.now text.now))) }
    ensures only { OnlyMemory result }
{
    let mut words = analyzer.token_stream(alloc, text)?;
    let key = only_of_stream(alloc, &mut words);
    drop(words);
    key
}

// Returns the only remaining word, if there is exactly one, which is indexed.
fn only_of_stream<S: TokenStream>(alloc: Global, words: &mut S) -> Result<Option<Vec<u8>>, Fault>
    ensures key { IfOk result (λ key. option_map (λ v. v.items) key ≡ option_and_then short_word (only_of (S.to_come words.old))) }
    ensures only { OnlyMemory result }
{
    if !words.advance() {
        return Ok(None);
    }
    let word = words.token().text.as_bytes();
    if word.len() > MAX_TOKEN_LEN {
        return Ok(None);
    }
    let word = Vec::from_slice(alloc, word)?;
    if words.advance() {
        return Ok(None);
    }
    Ok(Some(word))
}
