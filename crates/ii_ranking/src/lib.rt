//! The best documents of a query: each document that matches has a score, and those with the greatest scores come
//! first. A score is that of BM25 for a term or a phrase, and the sum of the scores of the parts else.
#![tactic(auto)]

mod clauses;
pub mod combination;
mod found_scorer;
pub mod laws;
mod leaf_scorer;
pub mod listing;
pub mod numbers;
mod opening;
mod phrase_scorer;
pub mod phrase_scores;
pub mod range_scores;
pub mod ranking;
pub mod scores;
pub mod segments;
pub mod shares;
pub mod statistics;
pub mod term_scorer;
pub mod term_scores;
mod term_weight;

pub use ii_bm25::{Bm25StatisticsProvider, SCORE_ONE, Score};
pub use ii_scorer::TopDocs;
pub use laws::{scores_are_of_tokens, scores_count_tokens, shares_add_up};
pub use listing::list_scores;
pub use ranking::search;
pub use scores::score_docs;
pub use segments::{RankedSegment, search_segments};
pub use shares::{Share, explain};
pub use statistics::GatheredStatistics;
