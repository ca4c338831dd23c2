//! Tests `ii_doc_store` and `ii_doc_store_merger` through their public calls, and proves that a client can rely on them.
#![tactic(auto)]

pub mod client;
#[cfg(test)]
mod merge_tests;
#[cfg(test)]
mod tests;

pub use client::{document_comes_back, write_documents};
