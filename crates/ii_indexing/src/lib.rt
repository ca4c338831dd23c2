//! From index calls to index files: the state of a document's texts, the indexer, and the writing of
//! its files. Re-exports `ii_postings_writer`, `ii_recorder`, `ii_json`, and what splits and names
//! JSON paths in `ii_base`.
#![tactic(auto)]

pub mod index_writers;
pub mod indexed_fields;
pub mod indexer;
pub mod indexing_positions_per_path;
mod json_keys;
pub mod json_utils;
pub mod last_tokens;
mod open_documents;
mod open_paths;

pub use ii_base::{encode_column_name, split_json_path};
pub use ii_definitions::IndexCall;
pub use ii_json::{
    JsonTermSerializer, OrderedPathId, PathToUnorderedId,
    convert_to_fast_value_and_append_to_json_term, json_path_sep_to_dot,
};
pub use ii_postings_writer::serialize_postings::serialize_postings;
pub use ii_postings_writer::{
    IndexingContext, IndexingPosition, IndexingTerm, IndexingTermRef, JsonPostingsWriter,
    PerFieldPostingsWriter, PostingsWriter, PostingsWriterKind, SpecializedPostingsWriter,
    TermOfField, TermRecorders,
};
pub use ii_recorder::{
    AnyRecorder, BufferLender, DocIdRecorder, FieldSerializer, InvertedIndexSerializer, Recorder,
    TermFrequencyRecorder, TfAndPositionRecorder, VInt32Reader,
};
pub use index_writers::{IndexWriters, write_index};
pub use indexed_fields::IndexedFields;
pub use indexer::Indexer;
pub use indexing_positions_per_path::IndexingPositionsPerPath;
pub use json_utils::index_json_value;
