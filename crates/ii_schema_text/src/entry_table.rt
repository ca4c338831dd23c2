ghost use Rattle.std.specs.Prelude.{◌≡◌, ◌&&◌, not, bytes_eq, option_map, string_bytes};
ghost use Rattle.std.specs.List.{list_any};
ghost use Rattle.ii_base.specs.Schema.{SchemaEntry};
ghost use Rattle.toml.specs.View.{view};
ghost use Rattle.ii_schema_text.specs.SchemaText.{AnswersFromText, entry_in, entry_with, field_with, members_in, name_in, read_field, unknown_key_in};
ghost use Rattle.ii_schema_text.specs.declared.keys.KnownKeys.TheVariants.{OfField};

use crate::faults::{FieldKey, SchemaFault};
use crate::field_type::FieldType;
use crate::keys::KnownKeys;
use crate::settings::{Settings, settings_of};
use ii_base::{FieldEntry, ValueType};
use std::alloc::Global;
use toml::Value;

// Returns whether an entry has this name.
fn has_name(entries: &[FieldEntry], name: &str) -> bool
    ensures { result ≡ list_any (λ (e : SchemaEntry). bytes_eq e.name name.now) entries.now }
{
    for entry in entries {
        if entry.name() == name {
            return true;
        }
    }
    false
}

// Returns the name of a field after others, if it is valid.
fn name_of<'a>(before: &[FieldEntry], value: Option<&'a Value>) -> Option<&'a str>
    ensures { option_map (λ name. name.now) result ≡ name_in before.now (option_map (λ v. view v.now) value.entry) }
{
    let Some(value) = value else {
        return None;
    };
    let Some(name) = value.as_str() else {
        return None;
    };
    if has_name(before, name) {
        return None;
    }
    if name.is_empty() {
        return None;
    }
    Some(name)
}

// Returns the first unknown key of a field's table.
fn unknown_key(field: &Value) -> Option<&str>
    ensures { option_map (λ key. key.now) result ≡ unknown_key_in OfField (members_in (view field.now)) }
{
    match field.as_table() {
        Some(table) => KnownKeys::OfField.unknown(table),
        None => None,
    }
}

// Creates the entry of a field.
fn entry_with(name: String, settings: Settings) -> FieldEntry
    ensures { result ≡ entry_with (string_bytes name) settings }
{
    if !settings.is_indexed {
        return FieldEntry::unindexed(name, settings.value_type.value_type());
    }
    let norms = settings.has_fieldnorms;
    match settings.value_type {
        FieldType::Text => FieldEntry::text(name, settings.option, norms),
        FieldType::U64 => FieldEntry::value(name, ValueType::U64, norms),
        FieldType::I64 => FieldEntry::value(name, ValueType::I64, norms),
        FieldType::Bool => FieldEntry::value(name, ValueType::Bool, norms),
        FieldType::Date => FieldEntry::value(name, ValueType::Date, norms),
        FieldType::Bytes => FieldEntry::value(name, ValueType::Bytes, norms),
        FieldType::IpAddr => FieldEntry::value(name, ValueType::IpAddr, norms),
        FieldType::Json => FieldEntry::json(name, settings.option, settings.expands_dots),
    }
}

// A field of a schema's text.
#[derive(Drop)]
pub(crate) struct ReadField {
    // its entry in the schema
    pub(crate) entry: FieldEntry,
    // whether its member of a document is stored
    pub(crate) is_stored: bool,
}

// Creates a field.
fn field_with(name: String, settings: Settings) -> ReadField
    ensures { read_field result ≡ field_with (string_bytes name) settings }
{
    ReadField {
        entry: entry_with(name, settings),
        is_stored: settings.is_stored,
    }
}

// Reads a field after others from its table.
#[tactic(auto, unfolding(crate::specs::SchemaText::entry_in))]
pub(crate) fn entry_of(
    alloc: Global,
    before: &[FieldEntry],
    field: &Value,
) -> Result<ReadField, SchemaFault>
    ensures { AnswersFromText read_field result (entry_in before.now (view field.now)) }
{
    let place = before.len();
    if let Some(key) = unknown_key(field) {
        let key = String::from_str(alloc, key)?;
        return Err(SchemaFault::UnknownFieldKey(place, key));
    }
    let Some(name) = name_of(before, field.get("name")) else {
        return Err(SchemaFault::WrongKey(place, FieldKey::Name));
    };
    let settings = match settings_of(field) {
        Ok(settings) => settings,
        Err(key) => return Err(SchemaFault::WrongKey(place, key)),
    };
    let name = String::from_str(alloc, name)?;
    Ok(field_with(name, settings))
}
