//! Merges the segments of an index into one, and says which are to be merged.
#![tactic(auto)]

pub mod faults;
pub mod joining;
pub mod merge_policy;
pub mod merging;
mod new_files;
mod opening;
mod sources;
mod stores;
mod totals;

pub use faults::{JoinFault, MergeFault};
pub use joining::merge_last;
pub use merge_policy::{first_to_merge, first_within};
pub use merging::merge_segments;
pub use totals::count_living_tokens;
