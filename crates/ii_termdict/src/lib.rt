//! Maps sorted keys to term infos: writing, opening with complete validation, and lookup.
#![tactic(auto)]

pub mod builder;
mod key_parts;
pub mod merger;
pub mod streamer;
pub mod termdict;
pub mod writer;
pub mod written;

pub use builder::TermDictionaryBuilder;
pub use ii_termstore::{
    TermInfo, TermInfoBlockMeta, TermInfoStore, TermInfoStoreWriter, TermOrdinal,
};
pub use merger::{ComingTerms, TermMerger};
pub use streamer::TermStreamer;
pub use termdict::TermDictionary;
pub use writer::TermDictionaryWriter;
