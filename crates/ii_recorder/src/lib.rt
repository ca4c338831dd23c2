//! Gathers the postings of each term while documents are indexed, and writes the terms of a field: postings
//! and positions one after the other, and the dictionary.
#![tactic(auto)]

pub mod buffer_lender;
pub mod held_terms;
mod index_bodies;
pub mod recorder;
pub mod serializer;
mod term_places;

pub use buffer_lender::BufferLender;
pub use recorder::{
    AnyRecorder, DocIdRecorder, Recorder, TermFrequencyRecorder, TfAndPositionRecorder,
    VInt32Reader,
};
pub use serializer::{FieldSerializer, InvertedIndexSerializer};
