ghost use Rattle.std.specs.Prelude.{◌≡◌, Some, option_map};
ghost use Rattle.toml.specs.View.{view};
ghost use Rattle.ii_schema_text.specs.SchemaText.{value_type_of};
ghost use Rattle.ii_schema_text.specs.Settings.{field_type_in, has_texts, is_json_type, is_text, type_name, type_named};
ghost use Rattle.ii_schema_text.specs.declared.field_type.FieldType.{FieldType};

use ii_base::ValueType;
use toml::Value;

/// The type of a field's values.
#[derive(Clone, Copy, Debug, PartialEq, Eq)]
pub enum FieldType {
    Text,
    U64,
    I64,
    Bool,
    Date,
    Bytes,
    IpAddr,
    Json,
}

impl FieldType {
    // Returns the type in a schema.
    pub(crate) fn value_type(self) -> ValueType
        ensures { result ≡ value_type_of self }
    {
        match self {
            FieldType::Text => ValueType::Str,
            FieldType::U64 => ValueType::U64,
            FieldType::I64 => ValueType::I64,
            FieldType::Bool => ValueType::Bool,
            FieldType::Date => ValueType::Date,
            FieldType::Bytes => ValueType::Bytes,
            FieldType::IpAddr => ValueType::IpAddr,
            FieldType::Json => ValueType::Json,
        }
    }

    // Returns whether its values are or contain texts.
    pub(crate) fn has_texts(self) -> bool
        ensures { result ≡ has_texts self }
    {
        match self {
            FieldType::Text | FieldType::Json => true,
            FieldType::U64
            | FieldType::I64
            | FieldType::Bool
            | FieldType::Date
            | FieldType::Bytes
            | FieldType::IpAddr => false,
        }
    }

    // Returns whether its values are texts.
    pub(crate) fn is_text(self) -> bool
        ensures { result ≡ is_text self }
    {
        match self {
            FieldType::Text => true,
            FieldType::U64
            | FieldType::I64
            | FieldType::Bool
            | FieldType::Date
            | FieldType::Bytes
            | FieldType::IpAddr
            | FieldType::Json => false,
        }
    }

    // Returns whether its values are JSON values.
    pub(crate) fn is_json(self) -> bool
        ensures { result ≡ is_json_type self }
    {
        match self {
            FieldType::Json => true,
            FieldType::U64
            | FieldType::I64
            | FieldType::Bool
            | FieldType::Date
            | FieldType::Bytes
            | FieldType::IpAddr
            | FieldType::Text => false,
        }
    }
}

/// Returns the name of a type of values, which is its name in a schema.
pub fn type_name(value_type: ValueType) -> &'static str
    ensures name { result.now ≡ type_name value_type }
    ensures read { (t : FieldType) → value_type ≡ value_type_of t → type_named result.now ≡ Some t }
{
    match value_type {
        ValueType::Str => "text",
        ValueType::U64 => "u64",
        ValueType::I64 => "i64",
        ValueType::Bool => "bool",
        ValueType::Date => "date",
        ValueType::Bytes => "bytes",
        ValueType::IpAddr => "ip_addr",
        ValueType::Json => "json",
    }
}

// Returns the type with this name.
#[tactic(auto, unfolding(crate::specs::Settings::type_named))]
fn type_named(name: &str) -> Option<FieldType>
    ensures { result ≡ type_named name.now }
{
    if name == "text" {
        return Some(FieldType::Text);
    }
    if name == "u64" {
        return Some(FieldType::U64);
    }
    if name == "i64" {
        return Some(FieldType::I64);
    }
    if name == "bool" {
        return Some(FieldType::Bool);
    }
    if name == "date" {
        return Some(FieldType::Date);
    }
    if name == "bytes" {
        return Some(FieldType::Bytes);
    }
    if name == "ip_addr" {
        return Some(FieldType::IpAddr);
    }
    if name == "json" {
        return Some(FieldType::Json);
    }
    None
}

// Returns the type that a TOML value names.
pub(crate) fn type_of(value: Option<&Value>) -> Option<FieldType>
    ensures { result ≡ field_type_in (option_map (λ v. view v.now) value.entry) }
{
    let Some(value) = value else {
        return None;
    };
    let Some(name) = value.as_str() else {
        return None;
    };
    type_named(name)
}
