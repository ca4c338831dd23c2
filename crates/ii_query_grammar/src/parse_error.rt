use std::alloc::{AllocError, AllocFailed};
use std::fmt;
use thiserror::Error;

/// What the grammar expects at the byte of a syntax error.
#[derive(Clone, Copy, Debug, PartialEq, Eq)]
pub enum Expected {
    /// Something to search for: the query, or one in parentheses, is empty.
    Query,
    /// A part that is not excluded: a query of excluded parts alone matches nothing.
    Included,
    /// A word, a phrase or an opening parenthesis.
    Operand,
    /// The part to exclude, after a minus or `NOT`.
    Excluded,
    /// A word, a phrase, a range or a set, after the name of a field and a colon.
    Value,
    /// A bound: a word, a text in quotes, or `*`.
    Bound,
    /// The word `TO` between the bounds of a range.
    To,
    /// The `]` or `}` that ends a range.
    RangeEnd,
    /// A value of a set, which is a word or a text in quotes, or the `]` that ends the set.
    SetValue,
    /// The `]` that ends a set: it has `MAX_SET_VALUES` values.
    FewerValues,
    /// The quote that ends a phrase.
    Quote,
    /// The slop of a phrase, after its quotes and a `~`: decimal digits of a number up to 4294967295.
    Slop,
    /// The parenthesis that closes an open one.
    Closing,
    /// The end of the query, instead of a parenthesis that closes none.
    End,
    /// A part without parentheses: `MAX_NESTING` of them are open.
    LessNesting,
}

impl Expected {
    // Returns the message, without the byte offset.
    fn message(self) -> &'static str {
        match self {
            Expected::Query => "the query is empty: write a word to search for",
            Expected::Included => {
                "something must be searched for that is not excluded: add a word without a minus"
            }
            Expected::Operand => "expected a word, a phrase or an opening parenthesis",
            Expected::Excluded => {
                "expected a word, a phrase or an opening parenthesis to exclude; put NOT or the minus in quotes to search for it"
            }
            Expected::Value => "expected a word or a phrase after the colon",
            Expected::Bound => "expected a bound: a word, a text in quotes, or * within brackets",
            Expected::To => "expected the word TO between two bounds, as in year:[1 TO 2]",
            Expected::RangeEnd => "expected ] or } after the bounds of a range",
            Expected::SetValue => {
                "expected a value of the set, a word or a text in quotes, or the ] that ends it"
            }
            Expected::FewerValues => "expected at most 65536 values in a set",
            Expected::Quote => "expected a closing quote",
            Expected::Slop => "a slop is a number up to 4294967295",
            Expected::Closing => "expected a closing parenthesis",
            Expected::End => "expected the end of the query: this parenthesis closes none",
            Expected::LessNesting => "expected at most 128 open parentheses",
        }
    }
}

impl fmt::Display for Expected {
    fn fmt<W: fmt::Write>(&self, f: &mut fmt::Formatter<W>) -> fmt::Result {
        f.write_str(self.message())
    }
}

/// A feature of other query languages that this one does not support.
#[derive(Clone, Copy, Debug, PartialEq, Eq)]
pub enum Feature {
    /// `s*a`, `*a`, `s?a`.
    Wildcards,
    /// `sea~1`. A `~` after quotes is the slop of a phrase.
    Fuzzy,
    /// `sea^2`.
    Boosts,
    /// `[a TO b]`, `{a TO b}`, where no name of a field and colon come before it.
    Ranges,
    /// `>7`, `<=7`, where no name of a field and colon come before it.
    Comparisons,
    /// `IN [a b]`, where no name of a field and colon come before it.
    Sets,
    /// `/se.*/`.
    RegularExpressions,
    /// `+sea`.
    RequiredClauses,
}

impl Feature {
    // Returns the message, without the byte offset.
    fn message(self) -> &'static str {
        match self {
            Feature::Wildcards => {
                "wildcards (s*a, s?a) are not supported, but for a * that ends a word or comes after quotes; put the word in quotes to search for it as it is"
            }
            Feature::Fuzzy => {
                "fuzzy words (sea~1) are not supported; put the word in quotes to search for it as it is"
            }
            Feature::Boosts => {
                "boosts (sea^2) are not supported; put the word in quotes to search for it as it is"
            }
            Feature::Ranges => {
                "a range needs the name of a field before it, as in year:[1 TO 2]; put the word in quotes to search for it as it is"
            }
            Feature::Comparisons => {
                "a comparison needs the name of a field before it, as in year:>7; put the word in quotes to search for it as it is"
            }
            Feature::Sets => {
                "a set needs the name of a field before it, as in tag:IN [a b]; put the word IN in quotes to search for it as it is"
            }
            Feature::RegularExpressions => {
                "regular expressions (/se.*/) are not supported; put the word in quotes to search for it as it is"
            }
            Feature::RequiredClauses => {
                "required clauses (+sea) are not supported; join the words that must all match with AND"
            }
        }
    }
}

impl fmt::Display for Feature {
    fn fmt<W: fmt::Write>(&self, f: &mut fmt::Formatter<W>) -> fmt::Result {
        f.write_str(self.message())
    }
}

/// Why a text is not a valid query.
#[derive(Clone, Copy, Debug, PartialEq, Eq, Error)]
pub enum ParseError {
    /// The grammar expects something else at this byte. At an early end, it is the length of the text.
    #[error("at byte {1}: {0}")]
    Syntax(Expected, usize),
    /// The text uses an unsupported feature at this byte.
    #[error("at byte {1}: {0}")]
    Unsupported(Feature, usize),
    /// A memory allocation failed.
    #[error("out of memory")]
    OutOfMemory,
}

impl From<AllocError> for ParseError {
    ghost use Rattle.std.specs.Prelude.{◌≡◌};
    ghost use Rattle.ii_query_grammar.specs.declared.parse_error.ParseError.TheVariants.{OutOfMemory};

    ghost from_gives = { λ _ e. e ≡ OutOfMemory };

    fn from(_e: AllocError) -> ParseError {
        ParseError::OutOfMemory
    }
}

impl<T: Drop> From<AllocFailed<T>> for ParseError {
    ghost use Rattle.std.specs.Prelude.{◌≡◌};
    ghost use Rattle.ii_query_grammar.specs.declared.parse_error.ParseError.TheVariants.{OutOfMemory};

    ghost from_gives = { λ _ e. e ≡ OutOfMemory };

    fn from(_e: AllocFailed<T>) -> ParseError {
        ParseError::OutOfMemory
    }
}
