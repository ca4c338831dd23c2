use crate::parse_error::ParseError;
use crate::user_input_ast::Delimiter;

// A word or a phrase as written in the text, with its escapes.
#[derive(Clone, Copy)]
pub(crate) struct LiteralView<'a> {
    pub(crate) field_name: Option<&'a str>,
    pub(crate) phrase: &'a str,
    pub(crate) delimiter: Delimiter,
}

// Whether a bound belongs to a range.
#[derive(Clone, Copy)]
pub(crate) enum Edge {
    Inclusive,
    Exclusive,
}

// A bound of a range as written in the text, with its escapes.
#[derive(Clone, Copy)]
pub(crate) enum BoundView<'a> {
    Unbounded,
    Inclusive(&'a str),
    Exclusive(&'a str),
}

// A range as written in the text, with its escapes.
#[derive(Clone, Copy)]
pub(crate) struct RangeView<'a> {
    pub(crate) field_name: &'a str,
    pub(crate) lower: BoundView<'a>,
    pub(crate) upper: BoundView<'a>,
}

// A set as written in the text: the name of its field, and the text after its bracket, which is the end of one with
// `size` bytes.
#[derive(Clone, Copy)]
pub(crate) struct SetView<'a> {
    pub(crate) field_name: &'a str,
    pub(crate) size: usize,
    pub(crate) text: &'a str,
}

// A lexeme of a text; a broken one holds its error.
#[derive(Clone, Copy)]
pub(crate) enum Lexeme<'a> {
    All,
    Literal(LiteralView<'a>),
    Range(RangeView<'a>),
    Set(SetView<'a>),
    Opening,
    Closing,
    Minus,
    And,
    Or,
    Broken(ParseError),
}

// A lexeme, and the byte at which it starts.
#[derive(Clone, Copy)]
pub(crate) struct Token<'a> {
    pub(crate) at: usize,
    pub(crate) lexeme: Lexeme<'a>,
}
