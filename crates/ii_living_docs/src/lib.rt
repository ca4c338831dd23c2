//! Cursors over the documents of segments, each document by its number in the index.
#![tactic(auto)]

pub mod chain;
pub mod living_docs;

pub use chain::Chain;
pub use living_docs::LivingDocs;
