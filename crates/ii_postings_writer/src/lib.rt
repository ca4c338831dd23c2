//! Terms of documents during indexing: the recorder of each term, the indexing of texts and values,
//! and the writing of all fields' terms.
#![tactic(auto)]

pub mod indexing_context;
pub mod indexing_position;
pub mod indexing_term;
pub mod json_postings_writer;
pub mod per_field_postings_writer;
pub mod postings_writer;
pub mod sorted_terms;
mod term_key;

/// Re-exports `serialize_postings`.
pub mod serialize_postings {
    pub use crate::postings_writer::serialize_postings;
}

pub use indexing_context::IndexingContext;
pub use indexing_position::IndexingPosition;
pub use indexing_term::{IndexingTerm, IndexingTermRef};
pub use json_postings_writer::JsonPostingsWriter;
pub use per_field_postings_writer::PerFieldPostingsWriter;
pub use postings_writer::{
    PostingsWriter, PostingsWriterKind, SpecializedPostingsWriter, TermRecorders,
};
pub use sorted_terms::TermOfField;
