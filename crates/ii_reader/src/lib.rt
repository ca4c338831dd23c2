//! Cursors over the postings of a term, and lookups in the files of an index.
#![tactic(auto)]

pub mod block_segment_postings;
pub mod damage;
pub mod field_space;
pub mod index_files;
pub mod inverted_index_reader;
pub mod json_keys;
pub mod loaded_postings;
pub mod segment_postings;

pub use block_segment_postings::BlockSegmentPostings;
pub use damage::DamagedTerm;
pub use field_space::InvertedIndexFieldSpace;
pub use ii_check::FreqReadingOption;
pub use index_files::{OpenIndex, open_index, open_index_with_norms};
pub use inverted_index_reader::InvertedIndexReader;
pub use json_keys::is_key_of_text;
pub use loaded_postings::LoadedPostings;
pub use segment_postings::SegmentPostings;
