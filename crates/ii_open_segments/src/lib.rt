//! The files of all segments of an index, open to read ranges of them.
#![tactic(auto)]

pub mod opened_segments;
pub mod opening;

pub use opened_segments::{OpenSegment, OpenSegments, open_latest, open_segments};
pub use opening::open_file;
