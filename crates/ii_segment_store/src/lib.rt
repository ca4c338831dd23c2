//! An index of several segments in a folder: what it holds, and how it is replaced or a segment is added, so that
//! a stop leaves the old index or the new one.
#![tactic(auto)]

pub mod block_tables;
pub mod clearing;
pub mod committing;
pub mod deleting;
pub mod faults;
pub mod joining;
pub mod loading;
pub mod new_segment;
pub mod pending;
pub mod replacing;
pub mod segment_source;
pub mod stored_segments;
pub mod wanted_files;

pub use clearing::{collect_garbage, remove_slots};
pub use committing::{append_segment, upgrade};
pub use deleting::commit_changes;
pub use faults::CommitFault;
pub use joining::{load_last, open_last, replace_last};
pub use loading::{load_latest, load_latest_with, load_segments, load_segments_with};
pub use new_segment::NewSegment;
pub use pending::PendingSegments;
pub use replacing::replace_index;
pub use segment_source::SegmentSource;
pub use stored_segments::{SegmentFiles, StoredSegment, StoredSegments};
pub use wanted_files::WantedFiles;
