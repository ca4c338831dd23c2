//! Scorers: cursors that give the scores of documents, how they are combined, and the best documents of them.
#![tactic(auto)]

pub mod best_docs;
pub mod combination;
pub mod query_scorer;
pub mod scorer;
pub mod top_docs;
pub mod top_n_computer;

pub use best_docs::{DocNumbers, push_best};
pub use combination::{both, either, if_at_least};
pub use query_scorer::QueryScorer;
pub use scorer::{ScoreBound, Scorer};
pub use top_docs::TopDocs;
pub use top_n_computer::TopNComputer;
