ghost use Rattle.std.specs.Prelude.{◌≡◌, ◌≤◌, None, Option, Result, Some, length, IfOk, IfSome, MatchOption, option_map};
ghost use Rattle.std.specs.Option.{option_copied};
ghost use Rattle.ii_query_grammar.specs.Lexemes.{IsLimit, IsRange, IsRangeAt, IsRest, after_to, bound_seen, bound_with, greater, less, limit_at, quoted_limit, range_at, range_between, range_seen, text_limit, unescaped, word_limit, ended_range};

use crate::cut::{Stop, after_spaces, cut_at, is_nothing, strip};
use crate::lexeme::{BoundView, Edge, RangeView};
use crate::parse_error::{Expected, ParseError};

/// Reads a range or a comparison after a field name and its colon, if there is one. The text is the end of one
/// with `size` bytes.
pub(crate) fn range_at<'a>(
    size: usize,
    name: &'a str,
    text: &'a str,
) -> Option<Result<(RangeView<'a>, &'a str), ParseError>>
    requires { length text.now ≤ size }
    ensures cases { MatchOption result (range_at size name.now text.now ≡ None) (IsRangeAt (range_at size name.now text.now)) }
    ensures shorter { IfSome result (λ read. IfOk read (λ parts. length parts.1.now ≤ size)) }
{
    if let Some(rest) = strip(text, b'[') {
        return Some(range_between(size, name, Edge::Inclusive, rest));
    }
    if let Some(rest) = strip(text, b'{') {
        return Some(range_between(size, name, Edge::Exclusive, rest));
    }
    if let Some(rest) = strip(text, b'>') {
        return Some(greater(size, name, rest));
    }
    if let Some(rest) = strip(text, b'<') {
        return Some(less(size, name, rest));
    }
    None
}

// Reads a range, given the text after its first bracket.
fn range_between<'a>(
    size: usize,
    name: &'a str,
    edge: Edge,
    text: &'a str,
) -> Result<(RangeView<'a>, &'a str), ParseError>
    requires { length text.now ≤ size }
    ensures range { IsRange (range_between size name.now edge text.now) result }
    ensures shorter { IfOk result (λ parts. length parts.1.now ≤ size) }
{
    let (lower, rest) = limit_at(size, after_spaces(text))?;
    let rest = after_to(size, after_spaces(rest))?;
    let (upper, rest) = limit_at(size, after_spaces(rest))?;
    ended_range(
        size,
        name,
        bound_with(edge, lower),
        upper,
        after_spaces(rest),
    )
}

// Ends a range, given its lower bound, the text of its upper one and the text after that.
fn ended_range<'a>(
    size: usize,
    name: &'a str,
    lower: BoundView<'a>,
    upper: Option<&'a str>,
    text: &'a str,
) -> Result<(RangeView<'a>, &'a str), ParseError>
    requires { length text.now ≤ size }
    ensures range { IsRange (ended_range size name.now (bound_seen lower.entry) (option_map unescaped (option_copied upper.entry)) text.now) result }
    ensures shorter { IfOk result (λ parts. length parts.1.now ≤ size) }
{
    if let Some(rest) = strip(text, b']') {
        let upper = bound_with(Edge::Inclusive, upper);
        return Ok((range(name, lower, upper), rest));
    }
    if let Some(rest) = strip(text, b'}') {
        let upper = bound_with(Edge::Exclusive, upper);
        return Ok((range(name, lower, upper), rest));
    }
    Err(ParseError::Syntax(Expected::RangeEnd, size - text.len()))
}

// Reads a comparison, given the text after its `>`.
fn greater<'a>(
    size: usize,
    name: &'a str,
    text: &'a str,
) -> Result<(RangeView<'a>, &'a str), ParseError>
    requires { length text.now ≤ size }
    ensures range { IsRange (greater size name.now text.now) result }
    ensures shorter { IfOk result (λ parts. length parts.1.now ≤ size) }
{
    if let Some(text) = strip(text, b'=') {
        let (lower, rest) = text_limit(Expected::Bound, Stop::WordEnd, size, text)?;
        let lower = bound_with(Edge::Inclusive, lower);
        return Ok((range(name, lower, BoundView::Unbounded), rest));
    }
    let (lower, rest) = text_limit(Expected::Bound, Stop::WordEnd, size, text)?;
    let lower = bound_with(Edge::Exclusive, lower);
    Ok((range(name, lower, BoundView::Unbounded), rest))
}

// Reads a comparison, given the text after its `<`.
fn less<'a>(
    size: usize,
    name: &'a str,
    text: &'a str,
) -> Result<(RangeView<'a>, &'a str), ParseError>
    requires { length text.now ≤ size }
    ensures range { IsRange (less size name.now text.now) result }
    ensures shorter { IfOk result (λ parts. length parts.1.now ≤ size) }
{
    if let Some(text) = strip(text, b'=') {
        let (upper, rest) = text_limit(Expected::Bound, Stop::WordEnd, size, text)?;
        let upper = bound_with(Edge::Inclusive, upper);
        return Ok((range(name, BoundView::Unbounded, upper), rest));
    }
    let (upper, rest) = text_limit(Expected::Bound, Stop::WordEnd, size, text)?;
    let upper = bound_with(Edge::Exclusive, upper);
    Ok((range(name, BoundView::Unbounded, upper), rest))
}

fn range<'a>(name: &'a str, lower: BoundView<'a>, upper: BoundView<'a>) -> RangeView<'a>
    ensures { range_seen result ≡ record { field_name = unescaped name.now; lower = bound_seen lower.entry; upper = bound_seen upper.entry } }
{
    RangeView {
        field_name: name,
        lower,
        upper,
    }
}

// Reads a bound: a text in quotes, a word, or `*` for none.
fn limit_at(size: usize, text: &str) -> Result<(Option<&str>, &str), ParseError>
    requires { length text.now ≤ size }
    ensures limit { IsLimit (limit_at size text.now) result }
    ensures shorter { IfOk result (λ parts. length parts.1.now ≤ size) }
{
    if let Some(rest) = strip(text, b'*') {
        return Ok((None, rest));
    }
    text_limit(Expected::Bound, Stop::BoundEnd, size, text)
}

/// Reads a text in quotes, or a word that ends at this stop, or returns that this is expected.
pub(crate) fn text_limit(
    wanted: Expected,
    stop: Stop,
    size: usize,
    text: &str,
) -> Result<(Option<&str>, &str), ParseError>
    ensures limit { IsLimit (text_limit wanted stop size text.now) result }
    ensures shorter { IfOk result (λ parts. length parts.1.now ≤ length text.now) }
{
    if let Some(text) = strip(text, b'"') {
        let (phrase, rest) = cut_at(text, Stop::PhraseEnd);
        return quoted_limit(size, phrase, rest);
    }
    let (word, rest) = cut_at(text, stop);
    word_limit(wanted, size, word, rest)
}

// Returns a text in quotes as a bound, given the text at its end.
fn quoted_limit<'a>(
    size: usize,
    text: &'a str,
    rest: &'a str,
) -> Result<(Option<&'a str>, &'a str), ParseError>
    ensures limit { IsLimit (quoted_limit size text.now rest.now) result }
    ensures shorter { IfOk result (λ parts. length parts.1.now ≤ length rest.now) }
{
    if let Some(rest) = strip(rest, b'"') {
        return Ok((Some(text), rest));
    }
    Err(ParseError::Syntax(Expected::Quote, size))
}

// Returns a word as a bound, given the text after it.
fn word_limit<'a>(
    wanted: Expected,
    size: usize,
    word: &'a str,
    rest: &'a str,
) -> Result<(Option<&'a str>, &'a str), ParseError>
    ensures limit { IsLimit (word_limit wanted size word.now rest.now) result }
    ensures shorter { IfOk result (λ parts. length parts.1.now ≤ length rest.now) }
{
    if is_nothing(word) {
        return Err(ParseError::Syntax(wanted, size.saturating_sub(rest.len())));
    }
    Ok((Some(word), rest))
}

// Returns the text after the word `TO`.
fn after_to(size: usize, text: &str) -> Result<&str, ParseError>
    requires { length text.now ≤ size }
    ensures rest { IsRest (after_to size text.now) result }
    ensures shorter { IfOk result (λ rest. length rest.now ≤ size) }
{
    let (word, rest) = cut_at(text, Stop::BoundEnd);
    if word == "TO" {
        return Ok(rest);
    }
    Err(ParseError::Syntax(Expected::To, size - text.len()))
}

// Returns the bound of a text, by its side of a bracket.
fn bound_with<'a>(edge: Edge, text: Option<&'a str>) -> BoundView<'a>
    ensures { bound_seen result ≡ bound_with edge (option_map unescaped (option_copied text.entry)) }
{
    let Some(text) = text else {
        return BoundView::Unbounded;
    };
    match edge {
        Edge::Inclusive => BoundView::Inclusive(text),
        Edge::Exclusive => BoundView::Exclusive(text),
    }
}
