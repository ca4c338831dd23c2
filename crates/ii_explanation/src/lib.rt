//! What the scores of documents are made of, and the texts of the parts of queries and of scores.
#![tactic(auto)]

pub mod part_text;
pub mod score_text;
pub mod segments;

pub use part_text::push_part;
pub use score_text::{push_score, push_weight};
pub use segments::explain_segments;
