//! A dictionary of terms that is read by ranges of its file: a lookup reads the keys that a search compares, and
//! what describes the term that it finds.
#![tactic(auto)]

pub mod dictionary_slice;
mod reading;
pub mod search_hint;
mod store_slice;

pub use dictionary_slice::TermDictionarySlice;
pub use search_hint::SearchHint;
