// In-memory indexes built from tables of calls, and their postings as text.
ghost use Rattle.std.specs.Prelude.{◌≡◌, ◌<◌, ◌≤◌, true, length, IfOk};
ghost use Rattle.ii_base.specs.declared.doc_id.TheConstants.{TERMINATED};
ghost use Rattle.ii_definitions.specs.IndexCalls.{MayAllBeIndexed, MayBeIndexed, type_of};

use ii_base::{
    AsciiTokenizer, DateTime, Fault, Field, FieldEntry, IndexRecordOption, JsonValue, Schema, Term,
    Token, TokenList, ValueType,
};
use ii_docset::{DocId, DocSet, Postings, TERMINATED};
use ii_indexing::{IndexCall, IndexWriters, write_index};
use ii_ram::index_in_ram;
use ii_reader::{OpenIndex, SegmentPostings};
use std::alloc::Global;

/// Records counts and positions.
pub const FULL: IndexRecordOption = IndexRecordOption::WithFreqsAndPositions;

/// Kinds of fields.
pub enum Kind {
    /// Text with positions; the flag says whether it has norms.
    Text(bool),
    /// Text with counts only.
    Counted,
    /// JSON with positions; the flag says whether dots in keys are expanded.
    Json(bool),
    /// Numbers without norms.
    U64,
    I64,
    Bool,
    Date,
    Bytes,
    Ip,
}

/// A leaf of a JSON object.
pub enum Leaf {
    Text(&'static str),
    Number(u64),
    Date(i64),
    Float(u64),
    /// An object with one number.
    Under(&'static str, u64),
    /// An array of objects with one text each, all under the same key.
    Each(&'static str, &'static [&'static str]),
}

/// A token: its position, its position length, and its number of letters `a`.
pub type Place = (usize, usize, usize);

/// The value of a call.
pub enum Said {
    Text(&'static str),
    Tokens(&'static [Place]),
    U64(u64),
    I64(i64),
    Bool(bool),
    /// A date, in nanoseconds.
    Date(i64),
    Bytes(&'static [u8]),
    Ip(u128),
    /// A JSON object of leaves.
    Object(&'static [(&'static str, Leaf)]),
    /// Null inside this many nested arrays.
    Arrays(usize),
}

/// A document, a field, and a value.
pub type Call = (DocId, u32, Said);

/// A field and a key.
pub type Key = (u32, &'static [u8]);

// Builds a field.
fn entry_of(alloc: Global, kind: &Kind) -> Result<FieldEntry, Fault> {
    let name = String::from_str(alloc, "field")?;
    Ok(match kind {
        Kind::Text(norms) => FieldEntry::text(name, FULL, *norms),
        Kind::Counted => FieldEntry::text(name, IndexRecordOption::WithFreqs, false),
        Kind::Json(expand_dots) => FieldEntry::json(name, FULL, *expand_dots),
        Kind::U64 => FieldEntry::value(name, ValueType::U64, false),
        Kind::I64 => FieldEntry::value(name, ValueType::I64, false),
        Kind::Bool => FieldEntry::value(name, ValueType::Bool, false),
        Kind::Date => FieldEntry::value(name, ValueType::Date, false),
        Kind::Bytes => FieldEntry::value(name, ValueType::Bytes, false),
        Kind::Ip => FieldEntry::value(name, ValueType::IpAddr, false),
    })
}

/// Builds a schema of fields, each named `field`. Returns `IndexerFailed` above 100 fields.
pub fn schema_of(alloc: Global, kinds: &[Kind]) -> Result<Schema, Fault> {
    let mut entries = Vec::new(alloc);
    for kind in kinds {
        entries.push(entry_of(alloc, kind)?)?;
    }
    if entries.len() > 100 {
        return Err(Fault::IndexerFailed);
    }
    Ok(Schema::new(entries))
}

/// Repeats a text and appends an `a`.
pub fn repeated(alloc: Global, text: &str, times: usize) -> Result<String, Fault> {
    let mut repeated = String::new(alloc);
    for _ in 0..times {
        repeated.push_str(text)?;
    }
    repeated.push('a')?;
    Ok(repeated)
}

// Builds a token.
fn token_at(alloc: Global, place: &Place) -> Result<Token, Fault> {
    let (position, position_length, len) = *place;
    Ok(Token {
        offset_from: 0,
        offset_to: len,
        position,
        text: repeated(alloc, "a", len.saturating_sub(1))?,
        position_length,
    })
}

/// Builds a list of tokens.
pub fn tokens_at(alloc: Global, places: &[Place]) -> Result<TokenList, Fault> {
    let mut tokens = Vec::new(alloc);
    for place in places {
        tokens.push(token_at(alloc, place)?)?;
    }
    Ok(TokenList::new(tokens))
}

// Builds an object with one member.
fn object(alloc: Global, key: &str, value: JsonValue) -> Result<JsonValue, Fault> {
    let mut members = Vec::new(alloc);
    members.push((String::from_str(alloc, key)?, value))?;
    Ok(JsonValue::Object(members))
}

// Builds an array of objects with one text each.
fn objects(alloc: Global, key: &str, texts: &[&'static str]) -> Result<JsonValue, Fault> {
    let mut items = Vec::new(alloc);
    for text in texts {
        let text = JsonValue::Str(String::from_str(alloc, text)?);
        items.push(object(alloc, key, text)?)?;
    }
    Ok(JsonValue::Array(items))
}

// Builds a member with a leaf.
fn member_of(alloc: Global, key: &str, leaf: &Leaf) -> Result<(String, JsonValue), Fault> {
    let key = String::from_str(alloc, key)?;
    let value = match leaf {
        Leaf::Text(text) => JsonValue::Str(String::from_str(alloc, text)?),
        Leaf::Number(number) => JsonValue::U64(*number),
        Leaf::Date(date) => JsonValue::Date(*date),
        Leaf::Float(bits) => JsonValue::F64Bits(*bits),
        Leaf::Under(below, number) => object(alloc, below, JsonValue::U64(*number))?,
        Leaf::Each(below, texts) => objects(alloc, below, texts)?,
    };
    Ok((key, value))
}

// Builds an object of leaves.
fn object_of(alloc: Global, leaves: &[(&'static str, Leaf)]) -> Result<JsonValue, Fault> {
    let mut members = Vec::new(alloc);
    for (key, leaf) in leaves {
        members.push(member_of(alloc, key, leaf)?)?;
    }
    Ok(JsonValue::Object(members))
}

// Builds null inside this many nested arrays.
fn arrays_of(alloc: Global, number: usize) -> Result<JsonValue, Fault> {
    let mut value = JsonValue::Null;
    for _ in 0..number {
        let mut items = Vec::new(alloc);
        items.push(value)?;
        value = JsonValue::Array(items);
    }
    Ok(value)
}

/// Builds a call.
pub fn call_of(alloc: Global, call: &Call) -> Result<IndexCall, Fault> {
    let (doc, field, said) = call;
    let (doc, field) = (*doc, Field::from_field_id(*field));
    Ok(match said {
        Said::Text(text) => IndexCall::Text(doc, field, String::from_str(alloc, text)?),
        Said::Tokens(places) => IndexCall::Tokens(doc, field, tokens_at(alloc, places)?),
        Said::U64(number) => IndexCall::U64(doc, field, *number),
        Said::I64(number) => IndexCall::I64(doc, field, *number),
        Said::Bool(truth) => IndexCall::Bool(doc, field, *truth),
        Said::Date(nanoseconds) => IndexCall::Date(doc, field, DateTime(*nanoseconds)),
        Said::Bytes(bytes) => IndexCall::Bytes(doc, field, Vec::from_slice(alloc, bytes)?),
        Said::Ip(address) => IndexCall::Ip(doc, field, *address),
        Said::Object(leaves) => IndexCall::Json(doc, field, object_of(alloc, leaves)?),
        Said::Arrays(number) => IndexCall::Json(doc, field, arrays_of(alloc, *number)?),
    })
}

/// Builds the calls of a table.
pub fn calls_of(alloc: Global, table: &[Call]) -> Result<Vec<IndexCall>, Fault> {
    let mut calls = Vec::new(alloc);
    for call in table {
        calls.push(call_of(alloc, call)?)?;
    }
    Ok(calls)
}

fn type_in(call: &IndexCall) -> ValueType
    ensures { result ≡ type_of call.now }
{
    match call {
        IndexCall::Text(_, _, _) => ValueType::Str,
        IndexCall::Tokens(_, _, _) => ValueType::Str,
        IndexCall::U64(_, _, _) => ValueType::U64,
        IndexCall::I64(_, _, _) => ValueType::I64,
        IndexCall::Bool(_, _, _) => ValueType::Bool,
        IndexCall::Date(_, _, _) => ValueType::Date,
        IndexCall::Bytes(_, _, _) => ValueType::Bytes,
        IndexCall::Ip(_, _, _) => ValueType::IpAddr,
        IndexCall::Json(_, _, _) => ValueType::Json,
    }
}

/// Returns whether a call may be made.
pub fn may_be_indexed(schema: &Schema, num_docs: DocId, call: &IndexCall) -> bool
    ensures { result ≡ true → MayBeIndexed schema.now num_docs call.now }
{
    let field = call.field();
    if call.doc() >= num_docs {
        return false;
    }
    if field.field_id() as usize >= schema.num_fields() {
        return false;
    }
    let entry = schema.get_field_entry(field);
    if !entry.is_indexed() {
        return false;
    }
    entry.value_type() == type_in(call)
}

// Returns these calls if they may be made in this order, `IndexerFailed` otherwise.
fn checked(
    alloc: Global,
    schema: &Schema,
    num_docs: DocId,
    calls: Vec<IndexCall>,
) -> Result<Vec<IndexCall>, Fault>
    ensures { IfOk result (λ checked. MayAllBeIndexed schema.now num_docs checked.items) }
{
    let mut checked = Vec::new(alloc);
    let mut last = 0;
    for call in calls {
        let doc = call.doc();
        if doc < last {
            return Err(Fault::IndexerFailed);
        }
        if !may_be_indexed(schema, num_docs, &call) {
            return Err(Fault::IndexerFailed);
        }
        checked.push(call)?;
        last = doc;
    }
    Ok(checked)
}

/// Builds a schema and checks the calls.
pub fn ready(
    alloc: Global,
    kinds: &[Kind],
    num_docs: DocId,
    calls: Vec<IndexCall>,
) -> Result<(Schema, Vec<IndexCall>), Fault>
    ensures docs { IfOk result (λ both. num_docs ≤ TERMINATED) }
    ensures calls { IfOk result (λ both. MayAllBeIndexed both.0 num_docs both.1.items) }
{
    if num_docs > TERMINATED {
        return Err(Fault::IndexerFailed);
    }
    let schema = schema_of(alloc, kinds)?;
    let calls = checked(alloc, &schema, num_docs, calls)?;
    Ok((schema, calls))
}

/// Does the same for the calls of a table.
pub fn ready_of(
    alloc: Global,
    kinds: &[Kind],
    num_docs: DocId,
    table: &[Call],
) -> Result<(Schema, Vec<IndexCall>), Fault>
    ensures docs { IfOk result (λ both. num_docs ≤ TERMINATED) }
    ensures calls { IfOk result (λ both. MayAllBeIndexed both.0 num_docs both.1.items) }
{
    let calls = calls_of(alloc, table)?;
    ready(alloc, kinds, num_docs, calls)
}

/// Indexes the calls of a table. Returns the files and the result of writing.
pub fn files_of(
    alloc: Global,
    kinds: &[Kind],
    num_docs: DocId,
    table: &[Call],
) -> Result<(IndexWriters<Vec<u8>>, Result<(), Fault>), Fault> {
    let calls = calls_of(alloc, table)?;
    files_of_calls(alloc, kinds, num_docs, calls)
}

/// Does the same for calls.
pub fn files_of_calls(
    alloc: Global,
    kinds: &[Kind],
    num_docs: DocId,
    calls: Vec<IndexCall>,
) -> Result<(IndexWriters<Vec<u8>>, Result<(), Fault>), Fault> {
    let (schema, calls) = ready(alloc, kinds, num_docs, calls)?;
    let files = IndexWriters::in_memory(alloc);
    Ok(write_index(alloc, schema, num_docs, calls, &AsciiTokenizer, files))
}

/// Indexes calls in memory. Returns the number of fields and the index.
pub fn indexed(
    alloc: Global,
    kinds: &[Kind],
    num_docs: DocId,
    calls: Vec<IndexCall>,
) -> Result<(usize, OpenIndex), Fault>
    ensures { IfOk result (λ both. both.0 ≡ length both.1.readers) }
{
    let (schema, calls) = ready(alloc, kinds, num_docs, calls)?;
    let num_fields = schema.num_fields();
    let index = index_in_ram(alloc, schema, num_docs, calls, &AsciiTokenizer)?;
    Ok((num_fields, index))
}

/// Opens a cursor over the postings of a key, if its field has it.
pub fn cursor_of(
    alloc: Global,
    num_fields: usize,
    index: &OpenIndex,
    key: &Key,
) -> Result<Option<SegmentPostings>, Fault>
    requires { num_fields ≡ length index.now.readers }
{
    let (field, bytes) = *key;
    if field as usize >= num_fields {
        return Ok(None);
    }
    let field = Field::from_field_id(field);
    let term = Term::from_field_bytes(alloc, field, bytes)?;
    let cursor = index.reader(field).read_postings(&term, FULL);
    drop(term);
    cursor
}

/// Appends the current document of a cursor with its count and positions, and a space.
pub fn push_doc(
    alloc: Global,
    text: &mut String,
    cursor: &mut SegmentPostings,
) -> Result<(), Fault> {
    let doc = cursor.doc();
    if doc >= TERMINATED {
        return Ok(());
    }
    let count = cursor.term_freq();
    write!(text, "{doc}:{count}:")?;
    let mut positions = Vec::new(alloc);
    cursor.positions(&mut positions)?;
    for position in positions.as_slice() {
        write!(text, "{position},")?;
    }
    Ok(text.push(' ')?)
}

// Appends each document of a cursor.
fn push_walked(
    alloc: Global,
    text: &mut String,
    cursor: &mut SegmentPostings,
) -> Result<(), Fault> {
    for _ in 0..cursor.doc_freq() {
        push_doc(alloc, text, cursor)?;
        let _next = cursor.advance();
    }
    Ok(())
}

// Appends the postings of a key, `DOC:COUNT:POS,POS, ` for each document, and a semicolon.
fn push_key(
    alloc: Global,
    text: &mut String,
    num_fields: usize,
    index: &OpenIndex,
    key: &Key,
) -> Result<(), Fault>
    requires { num_fields ≡ length index.now.readers }
{
    if let Some(mut cursor) = cursor_of(alloc, num_fields, index, key)? {
        let walked = push_walked(alloc, text, &mut cursor);
        drop(cursor);
        walked?;
    }
    Ok(text.push_str("; ")?)
}

// Appends the number of tokens and terms of the first field.
fn push_counts(text: &mut String, num_fields: usize, index: &OpenIndex) -> Result<(), Fault>
    requires { num_fields ≡ length index.now.readers }
{
    if num_fields == 0 {
        return Ok(());
    }
    let reader = index.reader(Field::from_field_id(0));
    let (tokens, terms) = (reader.total_num_tokens(), reader.terms().num_terms());
    Ok(write!(text, "{tokens} tokens of {terms} terms")?)
}

/// Lists the postings of keys, and the number of tokens and terms of the first field.
pub fn told(
    alloc: Global,
    num_fields: usize,
    index: &OpenIndex,
    keys: &[Key],
) -> Result<String, Fault>
    requires { num_fields ≡ length index.now.readers }
{
    let mut text = String::new(alloc);
    for key in keys {
        push_key(alloc, &mut text, num_fields, index, key)?;
    }
    push_counts(&mut text, num_fields, index)?;
    Ok(text)
}
