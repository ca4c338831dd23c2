//! Terms and queries that are prepared for ranking: the list of a term is opened once, with bounds of what its documents
//! score, and searched many times. Each search goes by these bounds from run to run, and passes runs that score too
//! little.
#![tactic(auto)]

pub mod prepared_leaf;
pub mod prepared_query;
pub mod prepared_scorer;
pub mod prepared_segments;
pub mod prepared_term;
mod preparing;
pub mod scored_list;

pub use prepared_leaf::PreparedLeaf;
pub use prepared_query::PreparedQuery;
pub use prepared_scorer::PreparedScorer;
pub use prepared_segments::PreparedSegments;
pub use prepared_term::PreparedTerm;
pub use scored_list::ListedScorer;
