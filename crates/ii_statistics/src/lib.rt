//! The numbers of open segments that the scores of a query need: how many living documents there are, how many of
//! them have each term of the query, and how many tokens they have in the terms' fields.
#![tactic(auto)]

mod doc_freqs;
pub mod field_tokens;
pub mod statistics;
pub mod terms;

pub use field_tokens::FieldTokens;
pub use statistics::{QueryStatistics, statistics_of};
pub use terms::query_terms;
