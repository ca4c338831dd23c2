//! Defines what an index of segments holds, and the laws of merging segments. It has definitions and laws alone.
#![tactic(auto)]

pub mod laws;

pub use laws::{
    counts_of_segments, keys_of_segments, merge_keeps, merged_is_segment, segments_are_one_index,
};
