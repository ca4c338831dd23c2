ghost use Rattle.std.specs.Prelude.{◌≡◌, List, length, IfOk};
ghost use Rattle.ii_base.specs.Schema.{SchemaEntry};
ghost use Rattle.ii_base.specs.declared.schema.value_type.ValueType.TheVariants as types;
ghost use Rattle.ii_definitions.specs.IndexCalls.{MayAllBeIndexed, Takes, doc_of, field_of, type_of};

use ii_base::{
    AsciiTokenizer, Fault, Field, FieldEntry, IndexRecordOption, JsonValue, Schema, Term, ValueType,
};
use ii_docset::{DocSet, Postings, TERMINATED};
use ii_indexing::{IndexCall, JsonTermSerializer};
use ii_ram::index_in_ram;
use ii_reader::{InvertedIndexReader, OpenIndex};
use std::alloc::Global;

const FULL: IndexRecordOption = IndexRecordOption::WithFreqsAndPositions;

/// Indexes texts, numbers, bytes and a JSON value in two documents and opens the index. Then looks up one of
/// each, a missing word, and the paths of the JSON field.
pub fn read_back(alloc: Global) -> Result<String, Fault> {
    let index = opened(alloc)?;
    let mut text = String::new(alloc);
    push_found(alloc, &mut text, &index)?;
    Ok(text)
}

// Appends what is found in each of four fields, and the paths of the last one with their number of terms.
fn push_found(alloc: Global, text: &mut String, index: &OpenIndex) -> Result<(), Fault>
    requires { length index.now.readers ≡ 4 }
{
    let (number, bytes) = (Field::from_field_id(1), Field::from_field_id(2));
    let words = index.reader(Field::from_field_id(0));
    push_postings(alloc, text, words, word(alloc, "be"))?;
    let seven = Term::from_field_u64(alloc, number, 7);
    push_postings(alloc, text, index.reader(number), seven)?;
    let tag = Term::from_field_bytes(alloc, bytes, b"ab");
    push_postings(alloc, text, index.reader(bytes), tag)?;
    push_postings(alloc, text, words, word(alloc, "question"))?;
    let values = index.reader(Field::from_field_id(3));
    push_postings(alloc, text, values, word_at_path(alloc))?;
    for space in values.list_encoded_json_fields(alloc)?.as_slice() {
        let (len, number) = (space.field_name.len(), space.num_terms);
        write!(text, " {number} at a path of {len}")?;
    }
    Ok(())
}

// Builds the term of the word at the path of the JSON value.
fn word_at_path(alloc: Global) -> Result<Term, Fault> {
    let mut serializer = JsonTermSerializer::new(alloc);
    serializer.append_term("a\u{1}b", ValueType::Str, b"be")?;
    Term::from_field_bytes(alloc, Field::from_field_id(3), serializer.as_bytes())
}

/// Builds and opens the index of all calls.
pub fn opened(alloc: Global) -> Result<OpenIndex, Fault>
    ensures { IfOk result (λ index. length index.readers ≡ 4) }
{
    let (schema, calls) = (fields(alloc)?, calls(alloc)?);
    index_in_ram(alloc, schema, 2, calls, &AsciiTokenizer)
}

// Builds a schema: text with positions and norms, numbers with norms, bytes without norms, and JSON.
fn fields(alloc: Global) -> Result<Schema, Fault>
    ensures four { IfOk result (λ schema. length schema ≡ 4) }
    ensures texts { IfOk result (λ schema. Takes schema 0 types.Str) }
    ensures numbers { IfOk result (λ schema. Takes schema 1 types.U64) }
    ensures bytes { IfOk result (λ schema. Takes schema 2 types.Bytes) }
    ensures values { IfOk result (λ schema. Takes schema 3 types.Json) }
{
    let mut entries = Vec::new(alloc);
    let name = String::from_str(alloc, "text")?;
    entries.push(FieldEntry::text(name, FULL, true))?;
    let name = String::from_str(alloc, "number")?;
    entries.push(FieldEntry::value(name, ValueType::U64, true))?;
    let name = String::from_str(alloc, "bytes")?;
    entries.push(FieldEntry::value(name, ValueType::Bytes, false))?;
    let name = String::from_str(alloc, "json")?;
    entries.push(FieldEntry::json(name, FULL, false))?;
    Ok(Schema::new(entries))
}

// Builds the calls, ordered by document.
fn calls(alloc: Global) -> Result<Vec<IndexCall>, Fault>
    ensures { IfOk result (λ calls. (schema : List SchemaEntry) → Takes schema 0 types.Str → Takes schema 1 types.U64 → Takes schema 2 types.Bytes → Takes schema 3 types.Json → MayAllBeIndexed schema 2 calls.items) }
{
    let (number, bytes) = (Field::from_field_id(1), Field::from_field_id(2));
    let mut calls = Vec::new(alloc);
    calls.push(text(alloc, 0, "to be or not to be")?)?;
    calls.push(IndexCall::U64(0, number, 7))?;
    calls.push(text(alloc, 1, "be")?)?;
    calls.push(IndexCall::U64(1, number, 7))?;
    calls.push(IndexCall::Bytes(1, bytes, vec![in alloc; 97, 98]?))?;
    let value = nested(alloc)?;
    calls.push(IndexCall::Json(1, Field::from_field_id(3), value))?;
    Ok(calls)
}

// Builds a value with a text and a number at two paths.
fn nested(alloc: Global) -> Result<JsonValue, Fault> {
    let text = String::from_str(alloc, "to be")?;
    let mut below = Vec::new(alloc);
    below.push((String::from_str(alloc, "b")?, JsonValue::Str(text)))?;
    let mut members = Vec::new(alloc);
    members.push((String::from_str(alloc, "a")?, JsonValue::Object(below)))?;
    members.push((String::from_str(alloc, "n")?, JsonValue::U64(5)))?;
    Ok(JsonValue::Object(members))
}

// Builds a call with a text.
fn text(alloc: Global, doc: u32, text: &str) -> Result<IndexCall, Fault>
    ensures doc { IfOk result (λ call. doc_of call ≡ doc) }
    ensures field { IfOk result (λ call. (field_of call ≡ 0) × (type_of call ≡ types.Str)) }
{
    let text = String::from_str(alloc, text)?;
    Ok(IndexCall::Text(doc, Field::from_field_id(0), text))
}

/// Builds the term of a word.
pub fn word(alloc: Global, word: &str) -> Result<Term, Fault> {
    Term::from_field_text(alloc, Field::from_field_id(0), word)
}

/// Appends each document of a term with its count and positions.
pub fn push_postings(
    alloc: Global,
    text: &mut String,
    reader: &InvertedIndexReader,
    term: Result<Term, Fault>,
) -> Result<(), Fault> {
    let term = term?;
    let Some(mut cursor) = reader.read_postings(&term, FULL)? else {
        return Ok(text.push_str(" not there")?);
    };
    for _ in 0..cursor.doc_freq() {
        push_doc(alloc, text, &mut cursor)?;
        let _next = cursor.advance();
    }
    Ok(text.push_str(" ends")?)
}

/// Appends the current document with its count and positions. If the positions can't be read, there must be
/// none, and the cursor must be at the same document.
pub fn push_doc<P: Postings>(
    alloc: Global,
    text: &mut String,
    cursor: &mut P,
) -> Result<(), Fault> {
    let doc = cursor.doc();
    if doc >= TERMINATED {
        return Ok(());
    }
    let count = cursor.term_freq();
    write!(text, " {count} in {doc}")?;
    let mut positions = Vec::new(alloc);
    let step = cursor.positions(&mut positions);
    if step.is_err() && (!positions.is_empty() || cursor.doc() != doc) {
        return Err(Fault::SerializerClosed);
    }
    step?;
    for position in positions.as_slice() {
        write!(text, " at {position}")?;
    }
    Ok(())
}
