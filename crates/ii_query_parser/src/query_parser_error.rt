use ii_base::{Fault, Field};
use ii_query_grammar::{Expected, Feature, ParseError};
use std::alloc::{AllocError, AllocFailed};
use thiserror::Error;

/// Why a text is not a query.
///
/// An error about a field of the schema holds that field (`field`), so that a program can print its name.
#[derive(Clone, Copy, Debug, PartialEq, Eq, Error)]
pub enum QueryParserError {
    /// The grammar expects something else at this byte of the text.
    #[error("at byte {1}: {0}")]
    SyntaxError(Expected, usize),
    /// The text uses an unsupported feature at this byte.
    #[error("at byte {1}: {0}")]
    Unsupported(Feature, usize),
    /// The schema has no field with a name, or a name has a path but its field is not a JSON field.
    #[error("no field has this name")]
    FieldDoesNotExist,
    /// The field is not indexed.
    #[error("the field is not indexed")]
    FieldNotIndexed(Field),
    /// A word or a phrase names no field, and there is no default field.
    #[error("no field is named, and there is no default field")]
    NoDefaultFieldDeclared,
    /// No text has a word, so that nothing is left to search for; or a prefix has none.
    #[error("no word to search for")]
    NoWords,
    /// A text is not a number of the field's type.
    #[error("expected a number")]
    ExpectedInt(Field),
    /// A text in a boolean field is neither `true` nor `false`.
    #[error("expected true or false")]
    ExpectedBool(Field),
    /// A text in a field of dates is no date by RFC 3339 between 1677 and 2262.
    #[error("expected a date like 1990-01-01T00:00:00Z, between 1677 and 2262")]
    ExpectedDate(Field),
    /// A text in a field of bytes is not pairs of hexadecimal digits.
    #[error("expected pairs of hexadecimal digits")]
    ExpectedBytes(Field),
    /// A text in a field of addresses is no IPv4 or IPv6 address.
    #[error("expected an address like 10.0.0.1 or ::1")]
    ExpectedIpAddr(Field),
    /// A text with a token before its first, or 2^32 positions or more after it.
    #[error("the words of a text are out of order, or too far apart")]
    UnsupportedPhrase(Field),
    /// A phrase in a field that keeps no positions.
    #[error("the field keeps no positions, which a phrase needs")]
    FieldDoesNotHavePositionsIndexed(Field),
    /// A prefix that is not one word, or in a field without texts.
    #[error("a prefix must be the start of one word, in a field of texts")]
    UnsupportedPrefix(Field),
    /// A phrase with a slop above 0 in which a word occurs twice.
    #[error("a word stands twice in a phrase with slop, which is not supported")]
    UnsupportedSlop(Field),
    /// A bound of a range that is not one word, in a field of texts or of JSON values.
    #[error("a bound of a range must be one word")]
    UnsupportedBound(Field),
    /// A path that contains byte 0.
    #[error("a path with byte 0 is not supported")]
    UnsupportedPath(Field),
    /// An allocation failed.
    #[error("{0}")]
    Fault(Fault),
}

impl QueryParserError {
    ghost use Rattle.std.specs.Prelude.{◌≡◌};
    ghost use Rattle.ii_query_parser.specs.ParserErrors.{field_of_error};

    /// Returns the field of the schema that the error is about, if there is one.
    pub fn field(self) -> Option<Field>
        ensures { result ≡ field_of_error self }
    {
        match self {
            QueryParserError::FieldNotIndexed(field)
            | QueryParserError::ExpectedInt(field)
            | QueryParserError::ExpectedBool(field)
            | QueryParserError::ExpectedDate(field)
            | QueryParserError::ExpectedBytes(field)
            | QueryParserError::ExpectedIpAddr(field)
            | QueryParserError::UnsupportedPhrase(field)
            | QueryParserError::FieldDoesNotHavePositionsIndexed(field)
            | QueryParserError::UnsupportedPrefix(field)
            | QueryParserError::UnsupportedSlop(field)
            | QueryParserError::UnsupportedBound(field)
            | QueryParserError::UnsupportedPath(field) => Some(field),
            QueryParserError::SyntaxError(..)
            | QueryParserError::Unsupported(..)
            | QueryParserError::FieldDoesNotExist
            | QueryParserError::NoDefaultFieldDeclared
            | QueryParserError::NoWords
            | QueryParserError::Fault(_) => None,
        }
    }
}

impl From<Fault> for QueryParserError {
    ghost use Rattle.std.specs.Prelude.{◌≡◌};
    ghost use Rattle.ii_query_parser.specs.declared.query_parser_error.QueryParserError.TheVariants as errors;

    ghost from_gives = { λ fault e. e ≡ errors.Fault fault };

    fn from(fault: Fault) -> QueryParserError {
        QueryParserError::Fault(fault)
    }
}

impl From<AllocError> for QueryParserError {
    ghost use Rattle.std.specs.Prelude.{◌≡◌};
    ghost use Rattle.ii_io.specs.declared.faults.Fault.TheVariants.{OutOfMemory};
    ghost use Rattle.ii_query_parser.specs.declared.query_parser_error.QueryParserError.TheVariants as errors;

    ghost from_gives = { λ _ e. e ≡ errors.Fault OutOfMemory };

    fn from(refused: AllocError) -> QueryParserError {
        QueryParserError::Fault(Fault::from(refused))
    }
}

impl<T: Drop> From<AllocFailed<T>> for QueryParserError {
    ghost use Rattle.std.specs.Prelude.{◌≡◌};
    ghost use Rattle.ii_io.specs.declared.faults.Fault.TheVariants.{OutOfMemory};
    ghost use Rattle.ii_query_parser.specs.declared.query_parser_error.QueryParserError.TheVariants as errors;

    ghost from_gives = { λ _ e. e ≡ errors.Fault OutOfMemory };

    fn from(refused: AllocFailed<T>) -> QueryParserError {
        QueryParserError::Fault(Fault::from(refused))
    }
}

impl From<ParseError> for QueryParserError {
    ghost use Rattle.std.specs.Prelude.{◌≡◌};
    ghost use Rattle.ii_query_parser.specs.ParserErrors.{as_parser_error};

    ghost from_gives = { λ error e. e ≡ as_parser_error error };

    fn from(error: ParseError) -> QueryParserError {
        match error {
            ParseError::Syntax(expected, at) => QueryParserError::SyntaxError(expected, at),
            ParseError::Unsupported(feature, at) => QueryParserError::Unsupported(feature, at),
            ParseError::OutOfMemory => QueryParserError::from(AllocError),
        }
    }
}
