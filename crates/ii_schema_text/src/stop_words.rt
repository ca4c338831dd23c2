//! The stop words that a schema's text lists.
ghost use Rattle.std.specs.Prelude.{◌≡◌, [], List, ℕ, ok_or, option_map};
ghost use Rattle.toml.specs.View.{items_view, view};
ghost use Rattle.ii_schema_text.specs.declared.faults.FieldKey.TheVariants as keys;
ghost use Rattle.ii_schema_text.specs.SchemaText.{AnswersFromText, stop_words_from, stop_words_in, takes_stop_words, wrong_key};

use crate::faults::{FieldKey, SchemaFault};
use ii_tokenizers::{Analyzer, StopWordFilter};
use std::alloc::Global;
use toml::Value;

// Returns the stop words of a field with a tokenizer, given the value of their key.
pub(crate) fn stop_words_of(
    alloc: Global,
    place: usize,
    tokenizer: Analyzer,
    value: Option<&Value>,
) -> Result<StopWordFilter, SchemaFault>
    ensures { AnswersFromText (λ (stops : List (List ℕ)). stops) result (ok_or (stop_words_in tokenizer (option_map (λ v. view v.now) value.entry)) (wrong_key place keys.StopWords)) }
{
    let Some(value) = value else {
        return Ok(StopWordFilter::new(alloc));
    };
    if !takes_stop_words(tokenizer) {
        return Err(SchemaFault::WrongKey(place, FieldKey::StopWords));
    }
    match value.as_array() {
        Some(words) => stop_words_from(alloc, place, words),
        None => Err(SchemaFault::WrongKey(place, FieldKey::StopWords)),
    }
}

// Returns whether a tokenizer may have stop words.
fn takes_stop_words(tokenizer: Analyzer) -> bool
    ensures { result ≡ takes_stop_words tokenizer }
{
    match tokenizer {
        Analyzer::English => true,
        Analyzer::Ascii | Analyzer::Raw | Analyzer::Whitespace | Analyzer::Default => false,
    }
}

// Reads stop words from a list of texts.
fn stop_words_from(
    alloc: Global,
    place: usize,
    words: &Vec<Value>,
) -> Result<StopWordFilter, SchemaFault>
    ensures { AnswersFromText (λ (stops : List (List ℕ)). stops) result (ok_or (stop_words_from [] (items_view words.now.items)) (wrong_key place keys.StopWords)) }
{
    let mut stop_words = StopWordFilter::new(alloc);
    for word in words {
        let Some(word) = word.as_str() else {
            return Err(SchemaFault::WrongKey(place, FieldKey::StopWords));
        };
        stop_words.insert(alloc, word)?;
    }
    Ok(stop_words)
}
