//! The grammar of queries: parses a text into a syntax tree, and writes a tree as text.
#![tactic(auto)]

mod cut;
mod escapes;
mod group;
pub mod laws;
mod lexeme;
mod lexer;
pub mod parse_error;
pub mod query_grammar;
mod ranges;
pub mod sets;
mod slop;
pub mod user_input_ast;

pub use escapes::{can_name, spell_name};
pub use parse_error::{Expected, Feature, ParseError};
pub use query_grammar::{MAX_NESTING, parse};
pub use sets::MAX_SET_VALUES;
pub use user_input_ast::{
    Delimiter, UserInputAst, UserInputBound, UserInputLiteral, UserInputRange, UserInputSet,
};
