//! The byte layout of a term's postings: skip list, packed blocks of documents and term frequencies, and
//! positions.
#![tactic(auto)]

mod bounds;
mod doc_list;
pub mod positions;
pub mod serializer;
pub mod skip;
pub mod split;
pub mod written;

pub use positions::{PositionReader, PositionSerializer, PositionWriter};
pub use serializer::{OpenPostings, PostingsSerializer, sum_of};
pub use skip::{BlockInfo, SkipReader, SkipSerializer};
pub use split::{SkipPlaces, bytes_from, split_into_skips_and_postings};
