//! The tokenizers that a schema's text names.
ghost use Rattle.std.specs.Prelude.{◌≡◌, option_map};
ghost use Rattle.std.specs.List.{list_any};
ghost use Rattle.toml.specs.View.{view};
ghost use Rattle.ii_tokenizers.specs.declared.analyzer.Analyzer.{Analyzer};
ghost use Rattle.ii_tokenizers.specs.declared.field_tokenizer.FieldTokenizer.{FieldTokenizer};
ghost use Rattle.ii_tokenizers.specs.Tokenizers.{uses_unicode};
ghost use Rattle.ii_schema_text.specs.SchemaText.{AnswersFromText, are_or_have_texts, default_in, takes_texts, tokenizer_in, unicode_in};

use crate::faults::{FieldKey, SchemaFault};
use ii_base::{FieldEntry, ValueType};
use ii_tokenizers::{Analyzer, FieldTokenizer, unicode_version};
use std::alloc::Global;
use toml::Value;

// Returns whether a field is indexed and has texts.
pub(crate) fn takes_texts(entry: &FieldEntry) -> bool
    ensures { result ≡ takes_texts entry.now }
{
    if !entry.is_indexed() {
        return false;
    }
    have_texts(entry.value_type())
}

// Returns whether values of a type are or contain texts.
fn have_texts(value_type: ValueType) -> bool
    ensures { result ≡ are_or_have_texts value_type }
{
    match value_type {
        ValueType::Str | ValueType::Json => true,
        ValueType::U64
        | ValueType::I64
        | ValueType::Bool
        | ValueType::Date
        | ValueType::Bytes
        | ValueType::IpAddr => false,
    }
}

// Returns the tokenizer of a field, given the value of its key, whether it is allowed, and that of fields that name
// none.
pub(crate) fn tokenizer_of(
    alloc: Global,
    place: usize,
    default: Analyzer,
    allowed: bool,
    value: Option<&Value>,
) -> Result<Analyzer, SchemaFault>
    ensures { AnswersFromText (λ (tokenizer : Analyzer). tokenizer) result (tokenizer_in place default allowed (option_map (λ v. view v.now) value.entry)) }
{
    let Some(value) = value else {
        if allowed {
            return Ok(default);
        }
        return Ok(Analyzer::Ascii);
    };
    if !allowed {
        return Err(SchemaFault::WrongKey(place, FieldKey::Tokenizer));
    }
    let Some(name) = value.as_str() else {
        return Err(SchemaFault::WrongKey(place, FieldKey::Tokenizer));
    };
    match Analyzer::named(name) {
        Some(tokenizer) => Ok(tokenizer),
        None => {
            let name = String::from_str(alloc, name)?;
            Err(SchemaFault::UnknownFieldTokenizer(place, name))
        }
    }
}

// Returns the tokenizer of fields that name none, given the value of the key of the text.
pub(crate) fn default_of(alloc: Global, value: Option<&Value>) -> Result<Analyzer, SchemaFault>
    ensures { AnswersFromText (λ (tokenizer : Analyzer). tokenizer) result (default_in (option_map (λ v. view v.now) value.entry)) }
{
    let Some(value) = value else {
        return Ok(Analyzer::Ascii);
    };
    let Some(name) = value.as_str() else {
        return Err(SchemaFault::WrongTokenizer);
    };
    match Analyzer::named(name) {
        Some(tokenizer) => Ok(tokenizer),
        None => {
            let name = String::from_str(alloc, name)?;
            Err(SchemaFault::UnknownTokenizer(name))
        }
    }
}

// Fails if a tokenizer follows another version of Unicode than the one that the text names, if it names one.
pub(crate) fn check_unicode(
    alloc: Global,
    tokenizers: &[FieldTokenizer],
    value: Option<&Value>,
) -> Result<(), SchemaFault>
    ensures { AnswersFromText (λ (done : Unit {0}). done) result (unicode_in tokenizers.now (option_map (λ v. view v.now) value.entry)) }
{
    let Some(value) = value else {
        return Ok(());
    };
    let Some(version) = value.as_str() else {
        return Err(SchemaFault::WrongUnicode);
    };
    if !use_unicode(tokenizers) {
        return Ok(());
    }
    if version == unicode_version() {
        return Ok(());
    }
    let version = String::from_str(alloc, version)?;
    Err(SchemaFault::OtherUnicode(version))
}

// Returns whether the words of a tokenizer depend on the version of Unicode.
fn use_unicode(tokenizers: &[FieldTokenizer]) -> bool
    ensures { result ≡ list_any (λ (t : FieldTokenizer). uses_unicode t.analyzer) tokenizers.now }
{
    tokenizers
        .iter()
        .any(|tokenizer| tokenizer.analyzer.uses_unicode())
}
