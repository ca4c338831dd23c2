//! Converts lines of JSON to index calls.
ghost use Rattle.std.specs.Prelude.{◌≡◌, ◌<◌, IfOk, Some, bytes_eq, length, map, option_map, slice_get, true};
ghost use Rattle.std.specs.List.{AllByRecursion, list_any};
ghost use Rattle.serde_json.specs.Data.{item, no_items};
ghost use Rattle.serde_json.specs.View.{items_view, members_view, view};
ghost use Rattle.ii_base.specs.Schema.{SchemaEntry};
ghost use Rattle.ii_definitions.specs.JsonKeys.{is_json};
ghost use Rattle.ii_definitions.specs.IndexCalls.{call_of};
ghost use Rattle.ii_documents.specs.Floats.{counted, skipped_in_line, skipped_in_members};
ghost use Rattle.ii_documents.specs.JsonLines.{AddsAs, AnswersFromLine, IsOf, field_calls, fields_calls, items_calls, line_calls, line_calls_by, members_calls, read_members, unknown_name_in};

use crate::faults::LineFault;
use crate::floats::{FloatNumbers, skipped_floats};
use crate::values::value_call;
use ii_base::{Field, Schema, ValueType};
use ii_definitions::IndexCall;
use ii_docset::DocId;
use ii_schema_text::UnknownKeys;
use serde_json::{Map, Value};
use std::alloc::Global;

/// Converts a line to the index calls of a document. The line must be an object whose keys are names of
/// fields.
///
/// # Errors
///
/// Those of `line_calls_by`.
#[tactic(auto, unfolding(crate::specs::JsonLines::line_calls, crate::specs::JsonLines::line_calls_by))]
pub fn line_calls(
    alloc: Global,
    schema: &Schema,
    doc: DocId,
    line: &str,
) -> Result<Vec<IndexCall>, LineFault>
    ensures gives { AnswersFromLine (λ v. map (call_of schema.now) v.items) result (line_calls schema.now doc line.now) }
    ensures each { IfOk result (λ v. AllByRecursion (IsOf schema.now doc) v.items) }
{
    let refused = FloatNumbers::Refuse;
    let line = line_calls_by(alloc, schema, UnknownKeys::Refuse, refused, doc, line)?;
    Ok(line.calls)
}

/// The index calls of a line.
#[derive(Drop)]
pub struct LineCalls {
    /// The calls.
    pub calls: Vec<IndexCall>,
    /// How many floating-point numbers were left out, at most 2^64 - 1.
    pub skipped_floats: u64,
}

/// Converts a line to the index calls of a document. The line must be an object. Members whose keys are no names of
/// fields are refused or ignored: of `Ignore` the calls are those of the line without these members.
///
/// Floating-point numbers in the values of JSON fields are refused or left out: of `Skip` the calls are those of the
/// line with `null` in their place. In a field of another type they are always refused.
///
/// Fields are taken in the order of the schema. `null` is no value. An array holds several values of its
/// field, one after the other, but is one value of a JSON field. A field that isn't indexed takes any value,
/// and ignores it.
///
/// Values of text fields are texts, of byte fields texts of hexadecimal digits, of address fields texts of IPv4 or
/// IPv6 addresses, and of date fields texts that `date_of` of `ii_dates` reads. Those of number and boolean fields
/// are numbers and booleans.
///
/// # Errors
///
/// * `NotJson` or `NotAnObject` for the line.
/// * `UnknownKey` with the first unknown key in the order of their bytes, unless these are ignored.
/// * `WrongValue` for the first invalid value, in the order of fields.
/// * `OutOfMemory` if an allocation fails.
#[tactic(auto, unfolding(crate::specs::JsonLines::line_calls_by, crate::specs::Floats::skipped_in_line))]
pub fn line_calls_by(
    alloc: Global,
    schema: &Schema,
    unknown: UnknownKeys,
    floats: FloatNumbers,
    doc: DocId,
    line: &str,
) -> Result<LineCalls, LineFault>
    ensures gives { AnswersFromLine (λ l. map (call_of schema.now) l.calls.items) result (line_calls_by unknown floats schema.now doc line.now) }
    ensures each { IfOk result (λ l. AllByRecursion (IsOf schema.now doc) l.calls.items) }
    ensures skipped { IfOk result (λ l. l.skipped_floats ≡ counted (skipped_in_line floats schema.now line.now)) }
{
    let value = match Value::from_str(alloc, line) {
        Ok(value) => value,
        Err(error) => return Err(LineFault::of_json(error)),
    };
    match value.as_object() {
        Some(members) => object_calls(alloc, schema, unknown, floats, doc, members),
        None => Err(LineFault::NotAnObject),
    }
}

// Converts the members of a document that are read, and counts the floating-point numbers that are left out.
fn object_calls(
    alloc: Global,
    schema: &Schema,
    unknown: UnknownKeys,
    floats: FloatNumbers,
    doc: DocId,
    members: &Map<String, Value>,
) -> Result<LineCalls, LineFault>
    ensures gives { AnswersFromLine (λ l. map (call_of schema.now) l.calls.items) result (members_calls floats schema.now doc (read_members unknown schema.now (members_view members.now.entries))) }
    ensures each { IfOk result (λ l. AllByRecursion (IsOf schema.now doc) l.calls.items) }
    ensures skipped { IfOk result (λ l. l.skipped_floats ≡ counted (skipped_in_members floats schema.now (members_view members.now.entries))) }
{
    let calls = read_calls(alloc, schema, unknown, floats, doc, members)?;
    Ok(LineCalls {
        calls,
        skipped_floats: skipped_floats(schema, floats, members),
    })
}

// Converts the members of a document that are read to its calls.
fn read_calls(
    alloc: Global,
    schema: &Schema,
    unknown: UnknownKeys,
    floats: FloatNumbers,
    doc: DocId,
    members: &Map<String, Value>,
) -> Result<Vec<IndexCall>, LineFault>
    ensures gives { AnswersFromLine (λ v. map (call_of schema.now) v.items) result (members_calls floats schema.now doc (read_members unknown schema.now (members_view members.now.entries))) }
    ensures each { IfOk result (λ v. AllByRecursion (IsOf schema.now doc) v.items) }
{
    match unknown {
        UnknownKeys::Refuse => members_calls(alloc, schema, floats, doc, members),
        UnknownKeys::Ignore => fields_calls(alloc, schema, floats, doc, members),
    }
}

// Converts the members of a document to its calls.
#[tactic(auto, unfolding(crate::specs::JsonLines::members_calls))]
fn members_calls(
    alloc: Global,
    schema: &Schema,
    floats: FloatNumbers,
    doc: DocId,
    members: &Map<String, Value>,
) -> Result<Vec<IndexCall>, LineFault>
    ensures gives { AnswersFromLine (λ v. map (call_of schema.now) v.items) result (members_calls floats schema.now doc (members_view members.now.entries)) }
    ensures each { IfOk result (λ v. AllByRecursion (IsOf schema.now doc) v.items) }
{
    if let Some(key) = unknown_key(schema, members) {
        let key = String::from_str(alloc, key)?;
        return Err(LineFault::UnknownKey(key));
    }
    fields_calls(alloc, schema, floats, doc, members)
}

// Converts the members of a document whose keys are names of fields to its calls.
fn fields_calls(
    alloc: Global,
    schema: &Schema,
    floats: FloatNumbers,
    doc: DocId,
    members: &Map<String, Value>,
) -> Result<Vec<IndexCall>, LineFault>
    ensures gives { AnswersFromLine (λ v. map (call_of schema.now) v.items) result (fields_calls floats doc (members_view members.now.entries) 0 schema.now) }
    ensures each { IfOk result (λ v. AllByRecursion (IsOf schema.now doc) v.items) }
{
    let mut calls = Vec::new(alloc);
    push_fields(&mut calls, alloc, schema, floats, doc, members)?;
    Ok(calls)
}

// Returns the first key that is no field's name.
fn unknown_key<'a>(schema: &Schema, members: &'a Map<String, Value>) -> Option<&'a str>
    ensures { option_map (λ key. key.now) result ≡ unknown_name_in schema.now (members_view members.now.entries) }
{
    for (key, _) in members.iter() {
        if !has_name(schema, key.as_str()) {
            return Some(key.as_str());
        }
    }
    None
}

// Returns whether a field has this name.
fn has_name(schema: &Schema, name: &str) -> bool
    ensures { result ≡ list_any (λ (e : SchemaEntry). bytes_eq e.name name.now) schema.now }
{
    for id in 0..schema.num_fields() {
        let entry = schema.get_field_entry(Field::from_field_id(id as u32));
        if entry.name() == name {
            return true;
        }
    }
    false
}

// Adds the calls of a document for its members, field after field.
fn push_fields(
    calls: &mut Vec<IndexCall>,
    alloc: Global,
    schema: &Schema,
    floats: FloatNumbers,
    doc: DocId,
    members: &Map<String, Value>,
) -> Result<(), LineFault>
    ensures { AddsAs schema.now doc calls.old.items calls.new.items result (fields_calls floats doc (members_view members.now.entries) 0 schema.now) }
{
    for id in 0..schema.num_fields() {
        let field = Field::from_field_id(id as u32);
        let value = members.get(schema.get_field_entry(field).name());
        push_field(calls, alloc, schema, floats, doc, field, value)?;
    }
    Ok(())
}

// Adds the calls of a document for the value under the name of a field.
fn push_field(
    calls: &mut Vec<IndexCall>,
    alloc: Global,
    schema: &Schema,
    floats: FloatNumbers,
    doc: DocId,
    field: Field,
    value: Option<&Value>,
) -> Result<(), LineFault>
    requires { field < length schema.now }
    ensures { (e : SchemaEntry) → slice_get schema.now field ≡ Some e
        → AddsAs schema.now doc calls.old.items calls.new.items result (field_calls floats doc field e (option_map (λ v. view v.now) value.entry)) }
{
    let entry = schema.get_field_entry(field);
    let Some(value) = value else {
        return Ok(());
    };
    if !entry.is_indexed() {
        return Ok(());
    }
    match value {
        Value::Null => Ok(()),
        Value::Array(items) => {
            if is_json(entry.value_type()) {
                return push_value(calls, alloc, schema, floats, doc, field, value);
            }
            push_items(calls, alloc, schema, floats, doc, field, items)
        }
        _ => push_value(calls, alloc, schema, floats, doc, field, value),
    }
}

// Returns whether a type is JSON.
pub(crate) fn is_json(value_type: ValueType) -> bool
    ensures { result ≡ is_json value_type }
{
    match value_type {
        ValueType::Json => true,
        ValueType::Str
        | ValueType::U64
        | ValueType::I64
        | ValueType::Bool
        | ValueType::Date
        | ValueType::Bytes
        | ValueType::IpAddr => false,
    }
}

// Adds the calls of a document for the values of an indexed field.
fn push_items(
    calls: &mut Vec<IndexCall>,
    alloc: Global,
    schema: &Schema,
    floats: FloatNumbers,
    doc: DocId,
    field: Field,
    items: &Vec<Value>,
) -> Result<(), LineFault>
    requires { field < length schema.now }
    ensures { (e : SchemaEntry) → slice_get schema.now field ≡ Some e → e.is_indexed ≡ true
        → AddsAs schema.now doc calls.old.items calls.new.items result (items_calls floats doc field e (items_view items.now.items)) }
{
    for item in items {
        push_value(calls, alloc, schema, floats, doc, field, item)?;
    }
    Ok(())
}

// Adds the call of a document for a value of an indexed field.
fn push_value(
    calls: &mut Vec<IndexCall>,
    alloc: Global,
    schema: &Schema,
    floats: FloatNumbers,
    doc: DocId,
    field: Field,
    value: &Value,
) -> Result<(), LineFault>
    requires { field < length schema.now }
    ensures { (e : SchemaEntry) → slice_get schema.now field ≡ Some e → e.is_indexed ≡ true
        → AddsAs schema.now doc calls.old.items calls.new.items result (items_calls floats doc field e (item (view value.now) no_items)) }
{
    let call = value_call(
        alloc,
        floats,
        doc,
        field,
        schema.get_field_entry(field),
        value,
    )?;
    calls.push(call)?;
    Ok(())
}
