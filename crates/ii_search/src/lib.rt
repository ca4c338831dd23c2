//! The documents of an index that match a query.
#![tactic(auto)]

pub mod most_frequent;
mod phrase_prefixes;
mod ranges;
pub mod searching;

pub use ii_query::{QueryCursor, TermOrPhrase};
pub use ii_query_parser::{KeyBound, PhrasePrefix, PhraseTerm, Query, TermRange};
pub use most_frequent::top_by_count;
pub use searching::{count, postings_of, search};
