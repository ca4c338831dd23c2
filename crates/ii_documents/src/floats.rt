//! Floating-point numbers in the JSON values of a document, which no index holds.
ghost use Rattle.std.specs.Prelude.{◌≡◌, ◌+◌, option_map};
ghost use Rattle.serde_json.specs.View.{items_view, members_view, view};
ghost use Rattle.ii_base.specs.Schema.{SchemaEntry};
ghost use Rattle.ii_documents.specs.Floats.{counted, field_floats, floats_in, items_floats, members_floats, skipped_in_members};

use crate::json_lines::is_json;
use ii_base::{Field, FieldEntry, Schema};
use serde_json::{Map, Value};

/// What happens to a document with a floating-point number in a value of a JSON field.
#[derive(Clone, Copy, Debug, PartialEq, Eq)]
pub enum FloatNumbers {
    /// The document is refused.
    Refuse,
    /// The number is left out, as `null` is.
    Skip,
}

// Returns how many floating-point numbers are left out of the members of a document, at most 2^64 - 1.
pub(crate) fn skipped_floats(
    schema: &Schema,
    floats: FloatNumbers,
    members: &Map<String, Value>,
) -> u64
    ensures { result ≡ counted (skipped_in_members floats schema.now (members_view members.now.entries)) }
{
    match floats {
        FloatNumbers::Refuse => 0,
        FloatNumbers::Skip => fields_floats(schema, members),
    }
}

// Counts the floating-point numbers in the values of JSON fields.
fn fields_floats(schema: &Schema, members: &Map<String, Value>) -> u64
    ensures { result ≡ counted (skipped_in_members FloatNumbers.Skip schema.now (members_view members.now.entries)) }
{
    let mut count = 0;
    for id in 0..schema.num_fields() {
        let entry = schema.get_field_entry(Field::from_field_id(id as u32));
        count = count_field(entry, members.get(entry.name()), count);
    }
    count
}

// Adds the number of those in the value of a field.
fn count_field(entry: &FieldEntry, value: Option<&Value>, count: u64) -> u64
    ensures { result ≡ counted (count + field_floats entry.now (option_map (λ v. view v.now) value.entry)) }
{
    let Some(value) = value else {
        return count;
    };
    if !entry.is_indexed() {
        return count;
    }
    if !is_json(entry.value_type()) {
        return count;
    }
    count_floats(value, count)
}

// Adds the number of those in a value.
#[cycle(count)]
fn count_floats(value: &Value, count: u64) -> u64
    ensures { result ≡ counted (count + floats_in (view value.now)) }
{
    match value {
        Value::Null | Value::Bool(_) | Value::String(_) => count,
        Value::Number(number) => {
            if number.is_f64() {
                return count.saturating_add(1);
            }
            count
        }
        Value::Array(items) => count_in_items(items, count),
        Value::Object(members) => count_in_members(members, count),
    }
}

#[cycle(count)]
fn count_in_items(items: &Vec<Value>, count: u64) -> u64
    ensures { result ≡ counted (count + items_floats (items_view items.now.items)) }
{
    let mut total = count;
    for item in items {
        total = count_floats(item, total);
    }
    total
}

#[cycle(count)]
fn count_in_members(members: &Map<String, Value>, count: u64) -> u64
    ensures { result ≡ counted (count + members_floats (members_view members.now.entries)) }
{
    let mut total = count;
    for (_key, member) in members.iter() {
        total = count_floats(member, total);
    }
    total
}
