ghost use Rattle.std.specs.Prelude.{◌≡◌, ◌&&◌, not, option_map};
ghost use Rattle.toml.specs.View.{view};
ghost use Rattle.ii_schema_text.specs.Settings.{flag_in, has_texts, is_json_type, option_in, option_named, settings_in};

use crate::faults::FieldKey;
use crate::field_type::{FieldType, type_of};
use ii_base::IndexRecordOption;
use toml::Value;

/// The settings in the table of a field, apart from its name.
#[derive(Clone, Copy, Debug, PartialEq, Eq)]
pub struct Settings {
    pub value_type: FieldType,
    pub is_indexed: bool,
    pub option: IndexRecordOption,
    pub has_fieldnorms: bool,
    pub expands_dots: bool,
    pub is_stored: bool,
}

// Returns the boolean at a key. If it is missing, returns `default` if allowed, else false. Returns `None`
// if it is invalid, or present but not allowed.
fn flag_of(value: Option<&Value>, allowed: bool, default: bool) -> Option<bool>
    ensures { result ≡ flag_in allowed default (option_map (λ v. view v.now) value.entry) }
{
    let Some(value) = value else {
        return Some(allowed && default);
    };
    if !allowed {
        return None;
    }
    value.as_bool()
}

// Returns the option with this name.
#[tactic(auto, unfolding(crate::specs::Settings::option_named))]
fn option_named(name: &str) -> Option<IndexRecordOption>
    ensures { result ≡ option_named name.now }
{
    if name == "basic" {
        return Some(IndexRecordOption::Basic);
    }
    if name == "freq" {
        return Some(IndexRecordOption::WithFreqs);
    }
    if name == "position" {
        return Some(IndexRecordOption::WithFreqsAndPositions);
    }
    None
}

// Returns the option at a key. If it is missing, it is `position` if allowed, else `basic`.
fn option_of(value: Option<&Value>, allowed: bool) -> Option<IndexRecordOption>
    ensures { result ≡ option_in allowed (option_map (λ v. view v.now) value.entry) }
{
    let Some(value) = value else {
        if allowed {
            return Some(IndexRecordOption::WithFreqsAndPositions);
        }
        return Some(IndexRecordOption::Basic);
    };
    if !allowed {
        return None;
    }
    let Some(name) = value.as_str() else {
        return None;
    };
    option_named(name)
}

// Returns whether a field is indexed and has texts.
fn allows_record(is_indexed: bool, value_type: FieldType) -> bool
    ensures { result ≡ (is_indexed && has_texts value_type) }
{
    if !is_indexed {
        return false;
    }
    value_type.has_texts()
}

// Returns whether a field is indexed and may have field norms.
fn allows_norms(is_indexed: bool, value_type: FieldType) -> bool
    ensures { result ≡ (is_indexed && not (is_json_type value_type)) }
{
    if !is_indexed {
        return false;
    }
    !value_type.is_json()
}

// Returns whether a field is indexed and has JSON values.
fn allows_dots(is_indexed: bool, value_type: FieldType) -> bool
    ensures { result ≡ (is_indexed && is_json_type value_type) }
{
    if !is_indexed {
        return false;
    }
    value_type.is_json()
}

// Returns the settings in a field's table, or its first key with a missing or invalid value.
#[tactic(auto, unfolding(crate::specs::Settings::settings_in))]
pub(crate) fn settings_of(field: &Value) -> Result<Settings, FieldKey>
    ensures { result ≡ settings_in (view field.now) }
{
    let Some(value_type) = type_of(field.get("type")) else {
        return Err(FieldKey::Type);
    };
    let Some(is_indexed) = flag_of(field.get("indexed"), true, true) else {
        return Err(FieldKey::Indexed);
    };
    let allowed = allows_record(is_indexed, value_type);
    let Some(option) = option_of(field.get("record"), allowed) else {
        return Err(FieldKey::Record);
    };
    let allowed = allows_norms(is_indexed, value_type);
    let is_text = value_type.is_text();
    let Some(has_fieldnorms) = flag_of(field.get("fieldnorms"), allowed, is_text) else {
        return Err(FieldKey::FieldNorms);
    };
    let allowed = allows_dots(is_indexed, value_type);
    let Some(expands_dots) = flag_of(field.get("expand_dots"), allowed, false) else {
        return Err(FieldKey::ExpandDots);
    };
    let Some(is_stored) = flag_of(field.get("stored"), true, false) else {
        return Err(FieldKey::Stored);
    };
    Ok(Settings {
        value_type,
        is_indexed,
        option,
        has_fieldnorms,
        expands_dots,
        is_stored,
    })
}
