//! What a query reads of an index, and a small index in memory that has just this.
#![tactic(auto)]

mod copied_terms;
mod copying;
pub mod index_parts;
pub mod laws;
mod looked_up_terms;
mod norms;
pub mod scoring;
pub mod search_hints;
pub mod terms;
pub mod wanted_terms;
pub mod warm_field;

pub use index_parts::{IndexHandles, warm_up};
pub use scoring::EnableScoring;
pub use search_hints::SearchHints;
pub use terms::{QueryRange, QueryTerm, query_ranges, query_terms};
pub use wanted_terms::WantedTerm;
