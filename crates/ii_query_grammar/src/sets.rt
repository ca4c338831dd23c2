ghost use Rattle.std.specs.Prelude.{◌≡◌, ◌≤◌, ◌<◌, false, is_some, true, length, IfOk, IfSome, MatchOption};
ghost use Rattle.ii_query_grammar.specs.Lexemes.{IsLimit, IsRest, IsValue, after_spaces, is_set, next_value, set_rest, after_bracket, set_values};
ghost use Rattle.ii_query_grammar.specs.Parsed.{AreValues};

use crate::cut::{Stop, after_spaces, strip};
use crate::escapes::unescape;
use crate::parse_error::{Expected, ParseError};
use crate::ranges::text_limit;
use std::alloc::Global;

/// The maximum number of values of a set.
pub const MAX_SET_VALUES: usize = 65536;

// The message of `Expected::FewerValues` mentions this number.
const _: () = prove!(MAX_SET_VALUES == 65536);

/// Returns the text after the `[` of a set, given a word and the text after it, if they begin one.
pub(crate) fn after_bracket<'a>(word: &str, rest: &'a str) -> Option<&'a str>
    ensures cases { MatchOption result (is_set word.now rest.now ≡ false) (λ text. (is_set word.now rest.now ≡ true) × (text.now ≡ after_bracket rest.now)) }
    ensures shorter { IfSome result (λ text. length text.now ≤ length rest.now) }
{
    if word != "IN" {
        return None;
    }
    strip(after_spaces(rest), b'[')
}

/// Returns the text after a set, given the text after its `[`, which is the end of one with `size` bytes.
pub(crate) fn after_set(size: usize, text: &str) -> Result<&str, ParseError>
    ensures rest { IsRest (set_rest (set_values MAX_SET_VALUES size text.now)) result }
    ensures shorter { IfOk result (λ rest. length rest.now ≤ length text.now) }
{
    let mut values = SetValues::new(size, text);
    while values.next()?.is_some() {}
    Ok(values.rest)
}

/// Returns the values of a set, given the text after its `[`, which is the end of one with `size` bytes.
pub(crate) fn values_of(alloc: Global, size: usize, text: &str) -> Result<Vec<String>, ParseError>
    ensures { AreValues (set_values MAX_SET_VALUES size text.now) result }
{
    let mut texts = Vec::new(alloc);
    let mut values = SetValues::new(size, text);
    while let Some(value) = values.next()? {
        texts.push(unescape(alloc, value)?)?;
    }
    Ok(texts)
}

// Reads the values of a set one by one. It holds how many may be left, the length of the complete text, and the
// remaining text.
#[derive(Drop)]
struct SetValues<'a> {
    left: usize,
    size: usize,
    rest: &'a str,
}

impl<'a> SetValues<'a> {
    // Starts after the `[` of a set.
    fn new(size: usize, text: &'a str) -> SetValues<'a>
        ensures left { result.left ≡ MAX_SET_VALUES }
        ensures size { result.size ≡ size }
        ensures rest { result.rest.now ≡ text.now }
    {
        SetValues {
            left: MAX_SET_VALUES,
            size,
            rest: text,
        }
    }

    // Returns the next value, or `None` after the `]`.
    fn next(&mut self) -> Result<Option<&'a str>, ParseError>
        ensures value { IsValue self.old.left self.old.size self.old.rest.now self.new.left self.new.rest.now result }
        ensures size { self.new.size ≡ self.old.size }
        ensures shorter { length self.new.rest.now ≤ length self.old.rest.now }
    {
        match next_value(self.left, self.size, self.rest) {
            Ok((Some(value), rest)) => {
                self.left -= 1;
                self.rest = rest;
                Ok(Some(value))
            }
            Ok((None, rest)) => {
                self.rest = rest;
                Ok(None)
            }
            Err(error) => Err(error),
        }
    }
}

// Reads the next value of a set, of which `left` may be left, or `None` for its `]`.
fn next_value(left: usize, size: usize, text: &str) -> Result<(Option<&str>, &str), ParseError>
    ensures limit { IsLimit (next_value left size (after_spaces text.now)) result }
    ensures left { IfOk result (λ parts. is_some parts.0 ≡ true → 0 < left) }
    ensures shorter { IfOk result (λ parts. length parts.1.now ≤ length text.now) }
{
    let text = after_spaces(text);
    if let Some(rest) = strip(text, b']') {
        return Ok((None, rest));
    }
    if left == 0 {
        return Err(ParseError::Syntax(Expected::FewerValues, size.saturating_sub(text.len())));
    }
    text_limit(Expected::SetValue, Stop::BoundEnd, size, text)
}
