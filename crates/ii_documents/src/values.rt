//! Converts values of a line to index calls.
ghost use Rattle.std.specs.Prelude.{◌≡◌, ◌&&◌, IfOk, Bool};
ghost use Rattle.serde_json.specs.View.{view};
ghost use Rattle.serde_json.specs.Written.{has_float};
ghost use Rattle.ii_base.specs.Schema.{SchemaEntry};
ghost use Rattle.ii_base.specs.declared.schema.value_type.ValueType.TheVariants as types;
ghost use Rattle.ii_documents.specs.declared.floats.FloatNumbers.{FloatNumbers};
ghost use Rattle.ii_documents.specs.Floats.{refuses};
ghost use Rattle.ii_documents.specs.JsonLines.{AnswersFromLine, call_with_content, content_in, value_call};
ghost use Rattle.ii_definitions.specs.IndexCalls.{call_with, type_of};

use crate::faults::{LineFault, ValueFault};
use crate::floats::FloatNumbers;
use crate::json_values::{has_float, json_value};
use ii_base::{DateTime, Field, FieldEntry, ValueType};
use ii_dates::date_of;
use ii_definitions::IndexCall;
use ii_docset::DocId;
use ii_term_text::address_of;
use serde_json::Value;
use std::alloc::Global;

// Converts a value of a field, which is an entry of a schema, to the call of a document.
pub(crate) fn value_call(
    alloc: Global,
    floats: FloatNumbers,
    doc: DocId,
    field: Field,
    entry: &FieldEntry,
    value: &Value,
) -> Result<IndexCall, LineFault>
    ensures gives { AnswersFromLine (λ c. call_with entry.now.expands_dots c) result (value_call floats doc field entry.now (view value.now)) }
    ensures typed { IfOk result (λ c. type_of c ≡ entry.now.value_type) }
{
    match entry.value_type() {
        ValueType::Str => text_call(alloc, doc, field, value),
        ValueType::U64 => u64_call(doc, field, value),
        ValueType::I64 => i64_call(doc, field, value),
        ValueType::Bool => bool_call(doc, field, value),
        ValueType::Bytes => bytes_call(alloc, doc, field, value),
        ValueType::IpAddr => address_call(doc, field, value),
        ValueType::Json => json_call(alloc, floats, doc, field, value),
        ValueType::Date => date_call(doc, field, value),
    }
}

// Converts a text.
fn text_call(alloc: Global, doc: DocId, field: Field, value: &Value) -> Result<IndexCall, LineFault>
    ensures gives { (floats : FloatNumbers) (dots : Bool) → AnswersFromLine (λ c. call_with dots c) result (call_with_content doc field (content_in floats types.Str dots (view value.now))) }
    ensures typed { IfOk result (λ c. type_of c ≡ types.Str) }
{
    let Some(text) = value.as_str() else {
        return Err(LineFault::WrongValue(field, ValueFault::WrongType));
    };
    let text = String::from_str(alloc, text)?;
    Ok(IndexCall::Text(doc, field, text))
}

// Converts an unsigned number.
fn u64_call(doc: DocId, field: Field, value: &Value) -> Result<IndexCall, LineFault>
    ensures gives { (floats : FloatNumbers) (dots : Bool) → AnswersFromLine (λ c. call_with dots c) result (call_with_content doc field (content_in floats types.U64 dots (view value.now))) }
    ensures typed { IfOk result (λ c. type_of c ≡ types.U64) }
{
    let Some(number) = value.as_number() else {
        return Err(LineFault::WrongValue(field, ValueFault::WrongType));
    };
    match number.as_u64() {
        Some(number) => Ok(IndexCall::U64(doc, field, number)),
        None => Err(LineFault::WrongValue(field, ValueFault::OutOfRange)),
    }
}

// Converts a signed number.
fn i64_call(doc: DocId, field: Field, value: &Value) -> Result<IndexCall, LineFault>
    ensures gives { (floats : FloatNumbers) (dots : Bool) → AnswersFromLine (λ c. call_with dots c) result (call_with_content doc field (content_in floats types.I64 dots (view value.now))) }
    ensures typed { IfOk result (λ c. type_of c ≡ types.I64) }
{
    let Some(number) = value.as_number() else {
        return Err(LineFault::WrongValue(field, ValueFault::WrongType));
    };
    match number.as_i64() {
        Some(number) => Ok(IndexCall::I64(doc, field, number)),
        None => Err(LineFault::WrongValue(field, ValueFault::OutOfRange)),
    }
}

// Converts a boolean.
fn bool_call(doc: DocId, field: Field, value: &Value) -> Result<IndexCall, LineFault>
    ensures gives { (floats : FloatNumbers) (dots : Bool) → AnswersFromLine (λ c. call_with dots c) result (call_with_content doc field (content_in floats types.Bool dots (view value.now))) }
    ensures typed { IfOk result (λ c. type_of c ≡ types.Bool) }
{
    match value.as_bool() {
        Some(truth) => Ok(IndexCall::Bool(doc, field, truth)),
        None => Err(LineFault::WrongValue(field, ValueFault::WrongType)),
    }
}

// Converts a text of hexadecimal digits to bytes.
fn bytes_call(
    alloc: Global,
    doc: DocId,
    field: Field,
    value: &Value,
) -> Result<IndexCall, LineFault>
    ensures gives { (floats : FloatNumbers) (dots : Bool) → AnswersFromLine (λ c. call_with dots c) result (call_with_content doc field (content_in floats types.Bytes dots (view value.now))) }
    ensures typed { IfOk result (λ c. type_of c ≡ types.Bytes) }
{
    let Some(text) = value.as_str() else {
        return Err(LineFault::WrongValue(field, ValueFault::WrongType));
    };
    match hex::decode(alloc, text) {
        Ok(bytes) => Ok(IndexCall::Bytes(doc, field, bytes)),
        Err(error) => Err(LineFault::of_hex(field, error)),
    }
}

// Converts a text to an address.
fn address_call(doc: DocId, field: Field, value: &Value) -> Result<IndexCall, LineFault>
    ensures gives { (floats : FloatNumbers) (dots : Bool) → AnswersFromLine (λ c. call_with dots c) result (call_with_content doc field (content_in floats types.IpAddr dots (view value.now))) }
    ensures typed { IfOk result (λ c. type_of c ≡ types.IpAddr) }
{
    let Some(text) = value.as_str() else {
        return Err(LineFault::WrongValue(field, ValueFault::WrongType));
    };
    match address_of(text) {
        Some(address) => Ok(IndexCall::Ip(doc, field, address)),
        None => Err(LineFault::WrongValue(field, ValueFault::NotAnAddress)),
    }
}

// Converts a text to a date.
fn date_call(doc: DocId, field: Field, value: &Value) -> Result<IndexCall, LineFault>
    ensures gives { (floats : FloatNumbers) (dots : Bool) → AnswersFromLine (λ c. call_with dots c) result (call_with_content doc field (content_in floats types.Date dots (view value.now))) }
    ensures typed { IfOk result (λ c. type_of c ≡ types.Date) }
{
    let Some(text) = value.as_str() else {
        return Err(LineFault::WrongValue(field, ValueFault::WrongType));
    };
    match date_of(text) {
        Some(nanoseconds) => Ok(IndexCall::Date(doc, field, DateTime(nanoseconds))),
        None => Err(LineFault::WrongValue(field, ValueFault::NotADate)),
    }
}

// Converts a JSON value. Floating-point numbers are refused or left out.
fn json_call(
    alloc: Global,
    floats: FloatNumbers,
    doc: DocId,
    field: Field,
    value: &Value,
) -> Result<IndexCall, LineFault>
    ensures gives { (dots : Bool) → AnswersFromLine (λ c. call_with dots c) result (call_with_content doc field (content_in floats types.Json dots (view value.now))) }
    ensures typed { IfOk result (λ c. type_of c ≡ types.Json) }
{
    if is_refused(floats, value) {
        return Err(LineFault::WrongValue(field, ValueFault::Float));
    }
    let value = json_value(alloc, value)?;
    Ok(IndexCall::Json(doc, field, value))
}

// Returns whether a JSON value has a floating-point number, if these are refused.
fn is_refused(floats: FloatNumbers, value: &Value) -> bool
    ensures { result ≡ (refuses floats && has_float (view value.now)) }
{
    match floats {
        FloatNumbers::Refuse => has_float(value),
        FloatNumbers::Skip => false,
    }
}
