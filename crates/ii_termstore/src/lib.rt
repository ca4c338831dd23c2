//! Stores term infos in blocks: writing, opening with complete validation, and lookup.
#![tactic(auto)]

pub mod term_info;
pub mod term_info_store;
pub mod written;

pub use term_info::TermInfo;
pub use term_info_store::{
    TermInfoBlockMeta, TermInfoStore, TermInfoStoreView, TermInfoStoreWriter,
};

/// The ordinal of a term in the order of the keys, from 0.
pub type TermOrdinal = u64;
