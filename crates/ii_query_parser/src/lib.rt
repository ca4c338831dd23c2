//! Queries over the fields of a schema, and the parser of query texts.
#![tactic(auto)]

pub mod laws;
pub mod literal;
mod literal_analyzers;
pub mod phrase_prefix;
mod phrase_words;
pub mod query;
pub mod query_parser;
pub mod query_parser_error;
mod range_text;
pub mod term_range;
mod unknown_field;

pub use ii_query_grammar::{
    Delimiter, Expected, Feature, MAX_NESTING, MAX_SET_VALUES, ParseError, UserInputAst,
    UserInputBound, UserInputLiteral, UserInputRange, UserInputSet, can_name, parse, spell_name,
};
pub use literal::field_named;
pub use phrase_prefix::PhrasePrefix;
pub use query::{PhraseTerm, Query};
pub use query_parser::{parse_query, parse_query_by, query_of, query_of_by};
pub use query_parser_error::QueryParserError;
pub use term_range::{KeyBound, TermRange};
pub use unknown_field::unknown_field_name;
