//! What a schema's text says about keys of documents that are no names of fields.
ghost use Rattle.std.specs.Prelude.{◌≡◌, option_map};
ghost use Rattle.toml.specs.View.{view};
ghost use Rattle.ii_schema_text.specs.declared.unknown_keys.UnknownKeys.{UnknownKeys};
ghost use Rattle.ii_schema_text.specs.SchemaText.{AnswersFromText, unknown_keys_in, unknown_keys_named};

use crate::faults::SchemaFault;
use toml::Value;

/// What happens to a member of a document whose key is no field's name.
#[derive(Clone, Copy, Debug, PartialEq, Eq)]
pub enum UnknownKeys {
    /// The document is refused.
    Refuse,
    /// The member is ignored.
    Ignore,
}

// Returns what a text names.
#[tactic(auto, unfolding(crate::specs::SchemaText::unknown_keys_named))]
fn unknown_keys_named(name: &str) -> Option<UnknownKeys>
    ensures { result ≡ unknown_keys_named name.now }
{
    if name == "refuse" {
        return Some(UnknownKeys::Refuse);
    }
    if name == "ignore" {
        return Some(UnknownKeys::Ignore);
    }
    None
}

// Returns what happens to unknown keys, given the value of the key of the text.
pub(crate) fn unknown_keys_of(value: Option<&Value>) -> Result<UnknownKeys, SchemaFault>
    ensures { AnswersFromText (λ (unknown : UnknownKeys). unknown) result (unknown_keys_in (option_map (λ v. view v.now) value.entry)) }
{
    let Some(value) = value else {
        return Ok(UnknownKeys::Refuse);
    };
    let Some(name) = value.as_str() else {
        return Err(SchemaFault::WrongUnknown);
    };
    match unknown_keys_named(name) {
        Some(unknown) => Ok(unknown),
        None => Err(SchemaFault::WrongUnknown),
    }
}
