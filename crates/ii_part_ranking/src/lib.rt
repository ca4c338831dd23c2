//! Ranking in a small index that has what a query reads of another one. It has definitions and laws alone.
#![tactic(auto)]

pub mod laws;

pub use laws::{parts_count_the_same, parts_score_the_same};
