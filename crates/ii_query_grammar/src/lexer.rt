ghost use Rattle.std.specs.Prelude.{◌≡◌, ◌∷◌, ◌<◌, ◌≤◌, [], ℕ, Result, length, drop, false, true, IfOk, IfSome, MatchOption};
ghost use Rattle.std.specs.Option.{option_copied};
ghost use Rattle.ii_query_grammar.specs.declared.parse_error.ParseError.{ParseError};
ghost use Rattle.ii_query_grammar.specs.declared.parse_error.ParseError.TheVariants.{Syntax, Unsupported};
ghost use Rattle.ii_query_grammar.specs.Lexemes.{IsFront, IsRange, RangeFront, broken, closed_phrase, feature_after, feature_in_front, feature_of, first_feature_of, front, front_at, lexeme_seen, lexemes, literal_with, has_star, is_prefix, phrase_front, range_front, set_front, set_values, star_lexeme, starred_phrase, token_seen, unless_feature, unless_range, value_front, value_or_prefix, value_word, word_front, word_lexeme, word_or_name, word_or_prefix, is_empty};

use crate::cut::{Stop, after_spaces, cut_at, is_nothing, strip, strip_star};
use crate::lexeme::{BoundView, Lexeme, LiteralView, RangeView, SetView, Token};
use crate::parse_error::{Expected, Feature, ParseError};
use crate::ranges::range_at;
use crate::sets::{MAX_SET_VALUES, after_bracket, after_set};
use crate::slop::slop_of;
use crate::user_input_ast::Delimiter;
use std::marker::Model;

/// Splits a text into words, phrases, ranges, sets, signs and parentheses. It holds the length of the complete text, and
/// the remaining text.
#[derive(Drop)]
pub(crate) struct Lexer<'a> {
    size: usize,
    rest: &'a str,
}

impl<'a> Model for Lexer<'a> {
    ghost use Rattle.std.specs.Prelude.{List, ◌≤◌, length};
    ghost use Rattle.ii_query_grammar.specs.Lexemes.{Token as TokenState, lexemes};

    ghost Value = { List TokenState };

    ghost view = { λ l. lexemes l.size l.rest.now };

    ghost invariant = { λ l. length l.rest.now ≤ l.size };
}

impl<'a> Lexer<'a> {
    /// Creates a lexer of a text.
    pub(crate) fn new(text: &'a str) -> Lexer<'a>
        ensures { result ≡ lexemes (length text.now) text.now }
    {
        Lexer {
            size: text.len(),
            rest: text,
        }
    }

    /// Returns the next lexeme, if there is one.
    pub(crate) fn next(&mut self) -> Option<Token<'a>>
        ensures { MatchOption result (self.old ≡ []) (λ token. self.old ≡ token_seen token ∷ self.new) }
    {
        let text = after_spaces(self.rest);
        if is_nothing(text) {
            return None;
        }
        let (token, rest) = front(self.size, text);
        self.rest = rest;
        Some(token)
    }
}

// Returns the first lexeme of a text, and the text after it. The text is the end of one with `size` bytes.
fn front(size: usize, text: &str) -> (Token<'_>, &str)
    requires { length text.now ≤ size }
    ensures front { IsFront (front size text.now) (token_seen result.0) result.1.now }
    ensures shorter { length result.1.now ≤ size }
{
    let at = size - text.len();
    if let Some(rest) = strip(text, b'(') {
        return (sign(at, Lexeme::Opening), rest);
    }
    if let Some(rest) = strip(text, b')') {
        return (sign(at, Lexeme::Closing), rest);
    }
    if let Some(rest) = strip(text, b'-') {
        return (sign(at, Lexeme::Minus), rest);
    }
    if strip(text, b'+').is_some() {
        return (unsupported(at, Feature::RequiredClauses), "");
    }
    if let Some(rest) = strip(text, b'"') {
        return phrase(size, at, None, rest);
    }
    if let Some(rest) = strip_star(text) {
        return (sign(at, Lexeme::All), rest);
    }
    word(size, at, text)
}

// Returns the lexeme of a word at the start, and the text after it.
fn word(size: usize, at: usize, text: &str) -> (Token<'_>, &str)
    requires { length text.now ≤ size }
    ensures front { IsFront (word_front size at text.now) (token_seen result.0) result.1.now }
    ensures shorter { length result.1.now ≤ size }
{
    if let Some(feature) = feature_in_front(text.as_bytes()) {
        return (unsupported(at, feature), "");
    }
    let (word, rest) = cut_at(text, Stop::WordEnd);
    word_or_prefix(size, at, word, rest)
}

// Returns the lexeme of a word, given the text after it: a prefix if a star follows, or a field name if a colon
// does.
fn word_or_prefix<'a>(size: usize, at: usize, word: &'a str, rest: &'a str) -> (Token<'a>, &'a str)
    requires { length rest.now ≤ size }
    ensures front { IsFront (word_or_prefix size at word.now rest.now) (token_seen result.0) result.1.now }
    ensures shorter { length result.1.now ≤ size }
{
    if after_bracket(word, rest).is_some() {
        return (unsupported(at, Feature::Sets), "");
    }
    if let Some(after) = star_after(word, rest) {
        return (literal(at, None, word, Delimiter::Star), after);
    }
    if let Some(feature) = feature_after(rest.as_bytes()) {
        return (unsupported(size - rest.len(), feature), "");
    }
    word_or_name(size, at, word, rest)
}

// Returns the text after the star of a prefix.
fn star_after<'a>(word: &str, rest: &'a str) -> Option<&'a str>
    ensures cases { MatchOption result (is_prefix word.now rest.now ≡ false) (λ after. (is_prefix word.now rest.now ≡ true) × (after.now ≡ drop 1 rest.now)) }
    ensures shorter { IfSome result (λ after. length after.now ≤ length rest.now) }
{
    if is_nothing(word) {
        return None;
    }
    strip_star(rest)
}

// Returns the lexeme of a word, given the text after it. The word is a field name if a colon follows.
fn word_or_name<'a>(size: usize, at: usize, word: &'a str, rest: &'a str) -> (Token<'a>, &'a str)
    requires { length rest.now ≤ size }
    ensures front { IsFront (word_or_name size at word.now rest.now) (token_seen result.0) result.1.now }
    ensures shorter { length result.1.now ≤ size }
{
    if is_nothing(word) {
        return (syntax_error(at, Expected::Operand), "");
    }
    if let Some(text) = strip(rest, b':') {
        return value(size, at, word, text);
    }
    (sign(at, word_lexeme(word)), rest)
}

// Reads a phrase, a range, a set, a word or a prefix after a field name and its colon.
fn value<'a>(size: usize, at: usize, name: &'a str, text: &'a str) -> (Token<'a>, &'a str)
    requires { length text.now ≤ size }
    ensures front { IsFront (value_front size at name.now text.now) (token_seen result.0) result.1.now }
    ensures shorter { length result.1.now ≤ size }
{
    if let Some(rest) = strip(text, b'"') {
        return phrase(size, at, Some(name), rest);
    }
    if let Some(range) = range_at(size, name, text) {
        return range_token(at, range);
    }
    if let Some(feature) = feature_in_front(text.as_bytes()) {
        return (unsupported(size - text.len(), feature), "");
    }
    let (word, rest) = cut_at(text, Stop::WordEnd);
    value_or_prefix(size, at, name, word, rest)
}

// Reads a set, a word or a prefix after a field name.
fn value_or_prefix<'a>(
    size: usize,
    at: usize,
    name: &'a str,
    word: &'a str,
    rest: &'a str,
) -> (Token<'a>, &'a str)
    requires { length rest.now ≤ size }
    ensures front { IsFront (value_or_prefix size at name.now word.now rest.now) (token_seen result.0) result.1.now }
    ensures shorter { length result.1.now ≤ size }
{
    if let Some(text) = after_bracket(word, rest) {
        return set(size, at, name, text);
    }
    if let Some(after) = strip_star(rest) {
        return (sign(at, star_lexeme(name, word)), after);
    }
    if let Some(feature) = feature_after(rest.as_bytes()) {
        return (unsupported(size - rest.len(), feature), "");
    }
    value_word(size, at, name, word, rest)
}

// Returns the token of a range and the text after it, or that of its error.
fn range_token<'a>(
    at: usize,
    read: Result<(RangeView<'a>, &'a str), ParseError>,
) -> (Token<'a>, &'a str)
    ensures front { (found : Result RangeFront ParseError) → IsRange found read.entry → IsFront (range_front at found) (token_seen result.0) result.1.now }
    ensures shorter { (size : ℕ) → IfOk read.entry (λ parts. length parts.1.now ≤ size) → length result.1.now ≤ size }
{
    match read {
        Ok((range, rest)) => (sign(at, Lexeme::Range(range)), rest),
        Err(error) => (sign(at, Lexeme::Broken(error)), ""),
    }
}

// Reads a set, given the text after its bracket.
fn set<'a>(size: usize, at: usize, name: &'a str, text: &'a str) -> (Token<'a>, &'a str)
    requires { length text.now ≤ size }
    ensures front { IsFront (set_front at name.now (set_values MAX_SET_VALUES size text.now)) (token_seen result.0) result.1.now }
    ensures shorter { length result.1.now ≤ size }
{
    match after_set(size, text) {
        Ok(rest) => {
            let set = SetView {
                field_name: name,
                size,
                text,
            };
            (sign(at, Lexeme::Set(set)), rest)
        }
        Err(error) => (sign(at, Lexeme::Broken(error)), ""),
    }
}

// Returns a prefix after a field name, or the range without bounds if the prefix is empty.
fn star_lexeme<'a>(name: &'a str, word: &'a str) -> Lexeme<'a>
    ensures { lexeme_seen result ≡ star_lexeme name.now word.now }
{
    if is_nothing(word) {
        return Lexeme::Range(RangeView {
            field_name: name,
            lower: BoundView::Unbounded,
            upper: BoundView::Unbounded,
        });
    }
    Lexeme::Literal(LiteralView {
        field_name: Some(name),
        phrase: word,
        delimiter: Delimiter::Star,
    })
}

// Reads a word after a field name.
fn value_word<'a>(
    size: usize,
    at: usize,
    name: &'a str,
    word: &'a str,
    rest: &'a str,
) -> (Token<'a>, &'a str)
    requires { length rest.now ≤ size }
    ensures front { IsFront (value_word size at name.now word.now rest.now) (token_seen result.0) result.1.now }
    ensures shorter { length result.1.now ≤ size }
{
    if is_nothing(word) {
        return (syntax_error(size - rest.len(), Expected::Value), "");
    }
    (literal(at, Some(name), word, Delimiter::None), rest)
}

// Reads a phrase, given the text after its first quote.
fn phrase<'a>(
    size: usize,
    at: usize,
    field_name: Option<&'a str>,
    text: &'a str,
) -> (Token<'a>, &'a str)
    requires { length text.now ≤ size }
    ensures front { IsFront (phrase_front size at (option_copied field_name.entry) text.now) (token_seen result.0) result.1.now }
    ensures shorter { length result.1.now ≤ size }
{
    let (phrase, rest) = cut_at(text, Stop::PhraseEnd);
    if let Some(rest) = strip(rest, b'"') {
        return closed_phrase(size, at, field_name, phrase, rest);
    }
    (syntax_error(size, Expected::Quote), "")
}

// Reads the slop or the star of a phrase, if it has one, given the text after its last quote.
fn closed_phrase<'a>(
    size: usize,
    at: usize,
    field_name: Option<&'a str>,
    phrase: &'a str,
    rest: &'a str,
) -> (Token<'a>, &'a str)
    requires { length rest.now ≤ size }
    ensures front { IsFront (closed_phrase size at (option_copied field_name.entry) phrase.now rest.now) (token_seen result.0) result.1.now }
    ensures shorter { length result.1.now ≤ size }
{
    let Some(text) = strip(rest, b'~') else {
        return starred_phrase(at, field_name, phrase, rest);
    };
    let (digits, rest) = cut_at(text, Stop::WordEnd);
    let Some(slop) = slop_of(digits) else {
        return (syntax_error(size - text.len(), Expected::Slop), "");
    };
    if let Some(feature) = feature_after(rest.as_bytes()) {
        return (unsupported(size - rest.len(), feature), "");
    }
    (literal(at, field_name, phrase, Delimiter::Slop(slop)), rest)
}

// Returns the lexeme of a phrase without a slop, given the text after its last quote: its last word is a prefix if a star
// follows.
fn starred_phrase<'a>(
    at: usize,
    field_name: Option<&'a str>,
    phrase: &'a str,
    rest: &'a str,
) -> (Token<'a>, &'a str)
    ensures front { IsFront (starred_phrase at (option_copied field_name.entry) phrase.now rest.now) (token_seen result.0) result.1.now }
    ensures shorter { length result.1.now ≤ length rest.now }
{
    if let Some(after) = strip_star(rest) {
        return (literal(at, field_name, phrase, Delimiter::Prefix), after);
    }
    (
        literal(at, field_name, phrase, Delimiter::DoubleQuotes),
        rest,
    )
}

// Classifies a word: an operator, or a word to search for.
fn word_lexeme(word: &str) -> Lexeme<'_>
    ensures { lexeme_seen result ≡ word_lexeme word.now }
{
    if word == "AND" {
        return Lexeme::And;
    }
    if word == "OR" {
        return Lexeme::Or;
    }
    if word == "NOT" {
        return Lexeme::Minus;
    }
    Lexeme::Literal(LiteralView {
        field_name: None,
        phrase: word,
        delimiter: Delimiter::None,
    })
}

// Returns the unsupported feature at the start of a word.
fn feature_in_front(text: &[u8]) -> Option<Feature>
    ensures { result ≡ feature_in_front text.now }
{
    first_feature_of(*text.first()?)
}

// Returns the unsupported feature at the byte after a word.
fn feature_after(text: &[u8]) -> Option<Feature>
    ensures { result ≡ feature_after text.now }
{
    feature_of(*text.first()?)
}

fn first_feature_of(byte: u8) -> Option<Feature>
    ensures { result ≡ first_feature_of byte }
{
    match byte {
        b'/' => Some(Feature::RegularExpressions),
        b'<' | b'>' => Some(Feature::Comparisons),
        _ => None,
    }
}

fn feature_of(byte: u8) -> Option<Feature>
    ensures { result ≡ feature_of byte }
{
    match byte {
        b'*' | b'?' => Some(Feature::Wildcards),
        b'~' => Some(Feature::Fuzzy),
        b'^' => Some(Feature::Boosts),
        b'[' | b'{' => Some(Feature::Ranges),
        _ => None,
    }
}

// Creates the token of a word or a phrase at a byte.
fn literal<'a>(
    at: usize,
    field_name: Option<&'a str>,
    phrase: &'a str,
    delimiter: Delimiter,
) -> Token<'a>
    ensures { token_seen result ≡ record { at = at; lexeme = literal_with (option_copied field_name.entry) phrase.now delimiter } }
{
    let lexeme = Lexeme::Literal(LiteralView {
        field_name,
        phrase,
        delimiter,
    });
    Token { at, lexeme }
}

// Creates the token of another lexeme at a byte.
fn sign<'a>(at: usize, lexeme: Lexeme<'a>) -> Token<'a>
    ensures { token_seen result ≡ record { at = at; lexeme = lexeme_seen lexeme.entry } }
{
    Token { at, lexeme }
}

// Creates the token of a syntax error at a byte.
fn syntax_error<'a>(at: usize, expected: Expected) -> Token<'a>
    ensures { token_seen result ≡ record { at = at; lexeme = broken (Syntax expected at) } }
{
    let lexeme = Lexeme::Broken(ParseError::Syntax(expected, at));
    Token { at, lexeme }
}

// Creates the token of an unsupported feature at a byte.
fn unsupported<'a>(at: usize, feature: Feature) -> Token<'a>
    ensures { token_seen result ≡ record { at = at; lexeme = broken (Unsupported feature at) } }
{
    let lexeme = Lexeme::Broken(ParseError::Unsupported(feature, at));
    Token { at, lexeme }
}
