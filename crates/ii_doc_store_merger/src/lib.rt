//! Merges stores of documents: one store of the living documents of several.
#![tactic(auto)]

pub mod faults;
pub mod merged_store;
mod source;
pub mod store_source;

pub use faults::StoreMergeFault;
pub use merged_store::{merge_stores, merge_stores_to};
pub use store_source::StoreSource;
