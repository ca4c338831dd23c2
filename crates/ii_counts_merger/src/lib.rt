//! Merges the files of counts of segments: one file with the number of tokens of each living document.
#![tactic(auto)]

pub mod counts_source;
pub mod merged_counts;
mod rows;

pub use counts_source::CountsSource;
pub use merged_counts::{MergedCounts, count_tokens, merge_counts};
