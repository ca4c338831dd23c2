//! Writes the snippets of the texts of a JSON object.
ghost use Rattle.std.specs.Prelude.{◌≡◌, ◌∷◌, [], IfOk, OnOk, map, string_bytes};
ghost use Rattle.serde_json.specs.View.{view};
ghost use Rattle.ii_io.specs.Faults.{OnlyMemory};
ghost use Rattle.ii_snippet.specs.FieldTexts.{field_text};
ghost use Rattle.ii_snippet.specs.ObjectSnippets.{AddsSnippets, AreSnippets, IsObjectSnippet, has_wanted, rules_of, tokens_of};

use crate::field_texts::{FieldText, wanted_texts};
use crate::fragments::Snippet;
use crate::marks::MarkStyle;
use crate::wanted::{WantedWord, snippet_tokens};
use crate::windows::SnippetToken;
use ii_base::{Fault, Field, Schema, TextAnalyzer};
use ii_tokenizers::{FieldAnalyzers, FieldTokenizers};
use serde_json::Value;
use std::alloc::Global;

// What is written between the snippets of two texts.
const GAP: &str = " \u{2026} ";

/// How the snippets of JSON objects are chosen and written.
#[derive(Clone, Copy)]
pub struct SnippetRules<'a> {
    /// The fields of the objects.
    pub schema: &'a Schema,
    /// The tokenizers of the fields.
    pub tokenizers: &'a FieldTokenizers,
    /// What a query wants (`wanted_words`).
    pub words: &'a [WantedWord<'a>],
    /// The maximum number of tokens of a text.
    pub limit: u32,
    /// How a snippet is written.
    pub style: MarkStyle,
}

/// Returns what is shown of a JSON object: of each of its texts that has a wanted word the snippet, as it is written
/// (`Snippet::to_text`). The texts are those of text fields, in the order of the schema, and in an array one after the
/// other; the snippets of two texts have ` … ` between them. Without wanted words the result is empty.
///
/// Fails only with `OutOfMemory`.
pub fn snippet_of_object(
    alloc: Global,
    rules: &SnippetRules<'_>,
    object: &Value,
) -> Result<String, Fault>
    ensures shown { IfOk result (λ text. IsObjectSnippet (rules_of rules.now) (view object.now) (string_bytes text)) }
    ensures only { OnlyMemory result }
{
    let texts = wanted_texts(alloc, rules.schema, rules.words, object)?;
    let snippets = snippets_of(alloc, rules, &texts)?;
    Ok(snippets.as_slice().join(alloc, GAP)?)
}

// Returns the snippets of the texts that have a wanted word.
fn snippets_of(
    alloc: Global,
    rules: &SnippetRules<'_>,
    texts: &[FieldText<'_>],
) -> Result<Vec<String>, Fault>
    ensures shown { IfOk result (λ snippets. AreSnippets (rules_of rules.now) (map field_text texts.now) (map string_bytes snippets.items)) }
    ensures only { OnlyMemory result }
{
    let mut snippets = Vec::new(alloc);
    for text in texts {
        push_snippet(alloc, rules, *text, &mut snippets)?;
    }
    Ok(snippets)
}

// Adds the snippet of a text, if it has a wanted word.
fn push_snippet(
    alloc: Global,
    rules: &SnippetRules<'_>,
    text: FieldText<'_>,
    snippets: &mut Vec<String>,
) -> Result<(), Fault>
    ensures shown { OnOk result (AddsSnippets (rules_of rules.now) (field_text text.entry ∷ []) (map string_bytes snippets.old.items) (map string_bytes snippets.new.items)) }
    ensures only { OnlyMemory result }
{
    let tokens = tokens_of(alloc, rules, text)?;
    if !has_wanted(&tokens) {
        return Ok(());
    }
    let snippet = Snippet::new(alloc, text.text, &tokens, rules.limit)?;
    let shown = snippet.to_text(alloc, rules.style)?;
    snippets.push(shown)?;
    Ok(())
}

// Returns the tokens of a text, each with the wanted word that it is.
fn tokens_of(
    alloc: Global,
    rules: &SnippetRules<'_>,
    text: FieldText<'_>,
) -> Result<Vec<SnippetToken>, Fault>
    ensures tokens { IfOk result (λ tokens. tokens.items ≡ tokens_of (rules_of rules.now) (field_text text.entry)) }
    ensures only { OnlyMemory result }
{
    let field = Field::from_field_id(text.field_id);
    let analyzer = rules.tokenizers.analyzer(field);
    let mut stream = analyzer.token_list(alloc, text.text)?;
    snippet_tokens(alloc, rules.words, field, &mut stream)
}

// Returns whether a token is a wanted word.
fn has_wanted(tokens: &[SnippetToken]) -> bool
    ensures { result ≡ has_wanted tokens.now }
{
    for token in tokens {
        if token.wanted.is_some() {
            return true;
        }
    }
    false
}
