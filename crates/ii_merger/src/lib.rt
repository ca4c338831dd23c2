//! Merges segments: writes the postings of their living documents as one field of an index.
#![tactic(auto)]

pub mod field_merge;
pub mod field_source;
mod index_merge;
mod key_kinds;
pub mod merge_source;
mod merging;
pub mod norms;
mod pushing;
pub mod segment_merge;

pub use field_merge::merge_field;
pub use field_source::FieldSource;
pub use ii_indexing::IndexWriters;
pub use merge_source::MergeSource;
pub use norms::merge_norms;
pub use segment_merge::merge;
