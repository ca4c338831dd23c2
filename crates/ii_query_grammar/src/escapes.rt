ghost use Rattle.std.specs.Prelude.{◌≡◌, ◌<◌, ◌++◌, ◌∷◌, [], length, IfOk, IfSome, MatchOption, OnOk, false, string_bytes};
ghost use Rattle.std.specs.Str.{IsUtf8};
ghost use Rattle.ii_query_grammar.specs.Lexemes.{unescaped};
ghost use Rattle.ii_query_grammar.specs.Spelling.{escaped, is_writable_word, word_text};

use crate::cut::Stop;
use std::alloc::{AllocError, Global};

/// Returns the text of a word or a phrase, without each backslash that makes the next character literal.
pub(crate) fn unescape(alloc: Global, text: &str) -> Result<String, AllocError>
    ensures { IfOk result (λ plain. string_bytes plain ≡ unescaped text.now) }
{
    let mut plain = String::new(alloc);
    let mut rest = text;
    while let Some((before, after)) = cut_at_escape(rest) {
        plain.push_str(before)?;
        rest = after;
    }
    plain.push_str(rest)?;
    Ok(plain)
}

// Returns the text before and after the first escaping backslash, if there is one.
fn cut_at_escape(text: &str) -> Option<(&str, &str)>
    ensures cases { MatchOption result (unescaped text.now ≡ text.now) (λ parts. unescaped text.now ≡ parts.0.now ++ unescaped parts.1.now) }
    ensures shorter { IfSome result (λ parts. length parts.1.now < length text.now) }
    ensures text { IfSome result (λ parts. IsUtf8 parts.1.now) }
{
    let place = Stop::Escaped.place_in(text.as_bytes(), false);
    if place == text.len() {
        return None;
    }
    if place == 0 {
        return None;
    }
    Some((text.split_at(place - 1).0, text.split_at(place).1))
}

/// Appends a text, with a backslash before each character that must be escaped. If `after_backslash`, a
/// special first character is always escaped: the text follows a backslash, or is a word.
pub(crate) fn push_escaped(
    stop: Stop,
    after_backslash: bool,
    text: &str,
    query: &mut String,
) -> Result<(), AllocError>
    ensures { OnOk result (string_bytes query.new ≡ string_bytes query.old ++ escaped stop after_backslash text.now) }
{
    let mut rest = text;
    let mut after_backslash = after_backslash;
    while let Some((before, special, after)) = cut_at_special(stop, after_backslash, rest) {
        query.push_str(before)?;
        query.push_str("\\")?;
        query.push_str(special)?;
        rest = after;
        after_backslash = false;
    }
    query.push_str(rest)
}

// Returns the first character that must be escaped, and the text before and after it.
fn cut_at_special(stop: Stop, after_backslash: bool, text: &str) -> Option<(&str, &str, &str)>
    ensures cases { MatchOption result (escaped stop after_backslash text.now ≡ text.now) (λ parts. escaped stop after_backslash text.now ≡ parts.0.now ++ 92 ∷ (parts.1.now ++ escaped stop false parts.2.now)) }
    ensures shorter { IfSome result (λ parts. length parts.2.now < length text.now) }
    ensures text { IfSome result (λ parts. IsUtf8 parts.2.now) }
{
    let place = stop.place_in(text.as_bytes(), after_backslash);
    if place == text.len() {
        return None;
    }
    let (front, after) = text.split_at(place + 1);
    let (before, special) = front.split_at(place);
    Some((before, special, after))
}

/// Returns whether a query can name a field: any name except the empty one and those that end in a
/// backslash. Special characters are escaped by `spell_name`.
pub fn can_name(name: &str) -> bool
    ensures { result ≡ is_writable_word name.now }
{
    if name.is_empty() {
        return false;
    }
    name.as_bytes()[name.len() - 1] != b'\\'
}

/// Returns the name of a field as written before a colon in a query. The name must satisfy `can_name`.
pub fn spell_name(alloc: Global, name: &str) -> Result<String, AllocError>
    ensures { IfOk result (λ text. string_bytes text ≡ word_text name.now) }
{
    let mut text = String::new(alloc);
    push_escaped(Stop::WordEscape, true, name, &mut text)?;
    Ok(text)
}
