//! Builds schemas, calls and indexes from tables.
ghost use Rattle.std.specs.Prelude.{◌≡◌, ◌≤◌, true, length, IfOk};
ghost use Rattle.ii_base.specs.declared.doc_id.TheConstants.{TERMINATED};
ghost use Rattle.ii_definitions.specs.IndexCalls.{MayAllBeIndexed, MayBeIndexed, type_of};

use ii_base::{
    AsciiTokenizer, DateTime, Fault, Field, FieldEntry, IndexRecordOption, JsonValue, Schema,
    Token, TokenList, ValueType,
};
use ii_docset::{DocId, TERMINATED};
use ii_indexing::IndexCall;
use ii_ram::index_in_ram;
use ii_reader::OpenIndex;
use std::alloc::Global;

/// A kind of a field.
pub enum Kind {
    /// Texts with norms.
    Text(IndexRecordOption),
    /// JSON values with positions. Dots in keys are expanded.
    Json,
    /// Unsigned numbers without norms.
    U64,
    /// Signed numbers without norms.
    I64,
    /// Booleans without norms.
    Bool,
    /// Dates without norms.
    Date,
    /// Bytes without norms.
    Bytes,
    /// Addresses without norms.
    Ip,
}

/// A value of a JSON object.
pub enum Leaf {
    /// A text.
    Text(&'static str),
    /// A number.
    Number(u64),
    /// A date, in nanoseconds.
    Date(i64),
    /// An object with one number.
    Under(&'static str, u64),
    /// An array of objects with one text each, all under the same key.
    Each(&'static str, &'static [&'static str]),
}

/// The value of a call.
pub enum Said {
    /// A text.
    Text(&'static str),
    /// Tokens `a` at these positions.
    Tokens(&'static [usize]),
    /// An unsigned number.
    U64(u64),
    /// A signed number.
    I64(i64),
    /// A boolean.
    Bool(bool),
    /// A date, in nanoseconds.
    Date(i64),
    /// Bytes.
    Bytes(&'static [u8]),
    /// An address.
    Ip(u128),
    /// A JSON object.
    Object(&'static [(&'static str, Leaf)]),
}

/// A document, a field, and a value.
pub type Call = (DocId, u32, Said);

// Builds a field.
fn entry_of(alloc: Global, kind: &Kind) -> Result<FieldEntry, Fault> {
    let name = String::from_str(alloc, "field")?;
    Ok(match kind {
        Kind::Text(option) => FieldEntry::text(name, *option, true),
        Kind::Json => FieldEntry::json(name, IndexRecordOption::WithFreqsAndPositions, true),
        Kind::U64 => FieldEntry::value(name, ValueType::U64, false),
        Kind::I64 => FieldEntry::value(name, ValueType::I64, false),
        Kind::Bool => FieldEntry::value(name, ValueType::Bool, false),
        Kind::Date => FieldEntry::value(name, ValueType::Date, false),
        Kind::Bytes => FieldEntry::value(name, ValueType::Bytes, false),
        Kind::Ip => FieldEntry::value(name, ValueType::IpAddr, false),
    })
}

// Builds a schema of fields, each named `field`. Returns `IndexerFailed` above 100 fields.
fn schema_of(alloc: Global, kinds: &[Kind]) -> Result<Schema, Fault> {
    let mut entries = Vec::new(alloc);
    for kind in kinds {
        entries.push(entry_of(alloc, kind)?)?;
    }
    if entries.len() > 100 {
        return Err(Fault::IndexerFailed);
    }
    Ok(Schema::new(entries))
}

// Builds a list of tokens at these positions.
fn tokens_at(alloc: Global, positions: &[usize]) -> Result<TokenList, Fault> {
    let mut tokens = Vec::new(alloc);
    for position in positions {
        tokens.push(Token {
            offset_from: 0,
            offset_to: 1,
            position: *position,
            text: String::from_str(alloc, "a")?,
            position_length: 1,
        })?;
    }
    Ok(TokenList::new(tokens))
}

// Builds an object with one member.
fn object(alloc: Global, key: &str, value: JsonValue) -> Result<JsonValue, Fault> {
    let mut members = Vec::new(alloc);
    members.push((String::from_str(alloc, key)?, value))?;
    Ok(JsonValue::Object(members))
}

// Builds an array of objects with one text each.
fn objects(alloc: Global, key: &str, texts: &[&'static str]) -> Result<JsonValue, Fault> {
    let mut items = Vec::new(alloc);
    for text in texts {
        let text = JsonValue::Str(String::from_str(alloc, text)?);
        items.push(object(alloc, key, text)?)?;
    }
    Ok(JsonValue::Array(items))
}

// Builds a member with a leaf.
fn member_of(alloc: Global, key: &str, leaf: &Leaf) -> Result<(String, JsonValue), Fault> {
    let key = String::from_str(alloc, key)?;
    let value = match leaf {
        Leaf::Text(text) => JsonValue::Str(String::from_str(alloc, text)?),
        Leaf::Number(number) => JsonValue::U64(*number),
        Leaf::Date(date) => JsonValue::Date(*date),
        Leaf::Under(below, number) => object(alloc, below, JsonValue::U64(*number))?,
        Leaf::Each(below, texts) => objects(alloc, below, texts)?,
    };
    Ok((key, value))
}

// Builds an object of leaves.
fn object_of(alloc: Global, leaves: &[(&'static str, Leaf)]) -> Result<JsonValue, Fault> {
    let mut members = Vec::new(alloc);
    for (key, leaf) in leaves {
        members.push(member_of(alloc, key, leaf)?)?;
    }
    Ok(JsonValue::Object(members))
}

// Builds a call.
fn call_of(alloc: Global, call: &Call) -> Result<IndexCall, Fault> {
    let (doc, field, said) = call;
    let (doc, field) = (*doc, Field::from_field_id(*field));
    Ok(match said {
        Said::Text(text) => IndexCall::Text(doc, field, String::from_str(alloc, text)?),
        Said::Tokens(positions) => IndexCall::Tokens(doc, field, tokens_at(alloc, positions)?),
        Said::U64(number) => IndexCall::U64(doc, field, *number),
        Said::I64(number) => IndexCall::I64(doc, field, *number),
        Said::Bool(truth) => IndexCall::Bool(doc, field, *truth),
        Said::Date(nanoseconds) => IndexCall::Date(doc, field, DateTime(*nanoseconds)),
        Said::Bytes(bytes) => IndexCall::Bytes(doc, field, Vec::from_slice(alloc, bytes)?),
        Said::Ip(address) => IndexCall::Ip(doc, field, *address),
        Said::Object(leaves) => IndexCall::Json(doc, field, object_of(alloc, leaves)?),
    })
}

// Builds the calls of a table.
fn calls_of(alloc: Global, table: &[Call]) -> Result<Vec<IndexCall>, Fault> {
    let mut calls = Vec::new(alloc);
    for call in table {
        calls.push(call_of(alloc, call)?)?;
    }
    Ok(calls)
}

fn type_in(call: &IndexCall) -> ValueType
    ensures { result ≡ type_of call.now }
{
    match call {
        IndexCall::Text(_, _, _) => ValueType::Str,
        IndexCall::Tokens(_, _, _) => ValueType::Str,
        IndexCall::U64(_, _, _) => ValueType::U64,
        IndexCall::I64(_, _, _) => ValueType::I64,
        IndexCall::Bool(_, _, _) => ValueType::Bool,
        IndexCall::Date(_, _, _) => ValueType::Date,
        IndexCall::Bytes(_, _, _) => ValueType::Bytes,
        IndexCall::Ip(_, _, _) => ValueType::IpAddr,
        IndexCall::Json(_, _, _) => ValueType::Json,
    }
}

// Returns whether a call may be made.
fn may_be_indexed(schema: &Schema, num_docs: DocId, call: &IndexCall) -> bool
    ensures { result ≡ true → MayBeIndexed schema.now num_docs call.now }
{
    let field = call.field();
    if call.doc() >= num_docs {
        return false;
    }
    if field.field_id() as usize >= schema.num_fields() {
        return false;
    }
    let entry = schema.get_field_entry(field);
    if !entry.is_indexed() {
        return false;
    }
    entry.value_type() == type_in(call)
}

// Returns these calls if they may be made in this order, `IndexerFailed` otherwise.
fn checked(
    alloc: Global,
    schema: &Schema,
    num_docs: DocId,
    calls: Vec<IndexCall>,
) -> Result<Vec<IndexCall>, Fault>
    ensures { IfOk result (λ checked. MayAllBeIndexed schema.now num_docs checked.items) }
{
    let mut checked = Vec::new(alloc);
    let mut last = 0;
    for call in calls {
        let doc = call.doc();
        if doc < last {
            return Err(Fault::IndexerFailed);
        }
        if !may_be_indexed(schema, num_docs, &call) {
            return Err(Fault::IndexerFailed);
        }
        checked.push(call)?;
        last = doc;
    }
    Ok(checked)
}

// Builds a schema and checks the calls of a table.
fn ready(
    alloc: Global,
    kinds: &[Kind],
    num_docs: DocId,
    table: &[Call],
) -> Result<(Schema, Vec<IndexCall>), Fault>
    ensures docs { IfOk result (λ both. num_docs ≤ TERMINATED) }
    ensures calls { IfOk result (λ both. MayAllBeIndexed both.0 num_docs both.1.items) }
{
    if num_docs > TERMINATED {
        return Err(Fault::IndexerFailed);
    }
    let calls = calls_of(alloc, table)?;
    let schema = schema_of(alloc, kinds)?;
    let calls = checked(alloc, &schema, num_docs, calls)?;
    Ok((schema, calls))
}

/// Indexes the calls of a table in memory. Returns the number of fields and the index.
pub fn indexed(
    alloc: Global,
    kinds: &[Kind],
    num_docs: DocId,
    table: &[Call],
) -> Result<(usize, OpenIndex), Fault>
    ensures { IfOk result (λ both. both.0 ≡ length both.1.readers) }
{
    let (schema, calls) = ready(alloc, kinds, num_docs, table)?;
    let num_fields = schema.num_fields();
    let index = index_in_ram(alloc, schema, num_docs, calls, &AsciiTokenizer)?;
    Ok((num_fields, index))
}
