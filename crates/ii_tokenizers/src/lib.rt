//! Analyzers of texts: what cuts a text into tokens, and how these are changed.
#![tactic(auto)]

pub mod analyzer;
mod ascii_words;
pub mod field_analyzers;
pub mod field_tokenizer;
pub mod field_tokenizers;
pub mod filters;
pub mod names;
pub mod parts;
pub mod stop_words;

pub use analyzer::Analyzer;
pub use field_analyzers::{FieldAnalyzers, OneAnalyzer};
pub use field_tokenizer::FieldTokenizer;
pub use field_tokenizers::FieldTokenizers;
pub use names::unicode_version;
pub use stop_words::StopWordFilter;
