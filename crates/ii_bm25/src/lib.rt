//! Scores of terms: BM25 in integers, the same on every machine.
#![tactic(auto)]

pub mod bm25;
pub mod log;
pub mod statistics;

pub use bm25::{Bm25Weight, SCORE_ONE, Score, idf, score, share};
pub use log::log2_fixed;
pub use statistics::Bm25StatisticsProvider;
