//! Stems of English words, by Porter's algorithm of 1980.
#![tactic(auto)]

mod letters;
mod rules;
pub mod stem;
mod steps;
mod tables;

pub use stem::stem_word;
