//! Searches an index of several segments, and states that this is a search in each of them.
#![tactic(auto)]

pub mod laws;
pub mod searcher;

pub use laws::{finds_in_segments, search_is_local};
pub use searcher::{OpenSegment, Searcher, SegmentsCursor};
