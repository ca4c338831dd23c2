//! Converts JSON values of a line to those that an index takes.
ghost use Rattle.std.specs.Prelude.{◌≡◌, IfOk, map};
ghost use Rattle.serde_json.specs.Data as Data;
ghost use Rattle.serde_json.specs.View.{items_view, members_view, number_view, view};
ghost use Rattle.serde_json.specs.Written.{has_float, items_have_float, members_have_float};
ghost use Rattle.ii_base.specs.Json.{items_from as items_made, json_of, members_from as members_made};
ghost use Rattle.ii_documents.specs.Floats.{items_without_floats, members_without_floats, without_floats};
ghost use Rattle.ii_documents.specs.JsonValues.{items_from, json_from, members_from, number_leaf};

use ii_base::JsonValue;
use serde_json::{Map, Number, Value};
use std::alloc::{AllocError, Global};

// Converts a value to one that an index takes, without its floating-point numbers.
#[cycle(json)]
pub(crate) fn json_value(alloc: Global, value: &Value) -> Result<JsonValue, AllocError>
    ensures { IfOk result (λ v. json_of v ≡ json_from (without_floats (view value.now))) }
{
    match value {
        Value::Null => Ok(JsonValue::Null),
        Value::Bool(truth) => Ok(JsonValue::Bool(*truth)),
        Value::Number(number) => Ok(json_number(number)),
        Value::String(text) => Ok(JsonValue::Str(text.clone()?)),
        Value::Array(items) => Ok(JsonValue::Array(json_items(alloc, items)?)),
        Value::Object(members) => Ok(JsonValue::Object(json_members(alloc, members)?)),
    }
}

#[cycle(json)]
fn json_items(alloc: Global, items: &Vec<Value>) -> Result<Vec<JsonValue>, AllocError>
    ensures { IfOk result (λ v. items_made (map json_of v.items) ≡ items_from (items_without_floats (items_view items.now.items))) }
{
    let mut values = Vec::with_capacity(alloc, items.len())?;
    for item in items {
        values.push(json_value(alloc, item)?)?;
    }
    Ok(values)
}

#[cycle(json)]
fn json_members(
    alloc: Global,
    members: &Map<String, Value>,
) -> Result<Vec<(String, JsonValue)>, AllocError>
    ensures { IfOk result (λ v. members_made (map (λ m. (m.0, json_of m.1)) v.items) ≡ members_from (members_without_floats (members_view members.now.entries))) }
{
    let mut values = Vec::with_capacity(alloc, members.len())?;
    for (key, member) in members.iter() {
        let key = key.clone()?;
        values.push((key, json_value(alloc, member)?))?;
    }
    Ok(values)
}

// Converts a number; a floating-point number to `null`.
fn json_number(number: &Number) -> JsonValue
    ensures { json_of result ≡ json_from (without_floats (Data.number (number_view number.now))) }
{
    if let Some(number) = number.as_u64() {
        return JsonValue::U64(number);
    }
    if let Some(number) = number.as_i64() {
        return JsonValue::I64(number);
    }
    JsonValue::Null
}

// Returns whether a value contains a floating-point number.
#[cycle(float)]
pub(crate) fn has_float(value: &Value) -> bool
    ensures { result ≡ has_float (view value.now) }
{
    match value {
        Value::Null | Value::Bool(_) | Value::String(_) => false,
        Value::Number(number) => number.is_f64(),
        Value::Array(items) => items_have_float(items),
        Value::Object(members) => members_have_float(members),
    }
}

#[cycle(float)]
fn items_have_float(items: &Vec<Value>) -> bool
    ensures { result ≡ items_have_float (items_view items.now.items) }
{
    for item in items {
        if has_float(item) {
            return true;
        }
    }
    false
}

#[cycle(float)]
fn members_have_float(members: &Map<String, Value>) -> bool
    ensures { result ≡ members_have_float (members_view members.now.entries) }
{
    for (_key, member) in members.iter() {
        if has_float(member) {
            return true;
        }
    }
    false
}
