//! A store of documents: they are written in blocks, and read back by their numbers, from bytes in memory or from ranges
//! of a file.
#![tactic(auto)]

pub mod block;
pub mod checkpoint;
pub mod faults;
pub mod reader;
pub mod round_trip;
pub mod store_file;
pub mod writer;

pub use block::{FileBlock, StoreBlock};
pub use checkpoint::Checkpoint;
pub use faults::{StoreDamage, StoreFileFault, StoreOpenFault, StoreWriteFault};
pub use reader::StoreReader;
pub use store_file::StoreFile;
pub use writer::StoreWriter;

/// A block ends with the first document that brings it to this number of bytes or more.
pub const BLOCK_SIZE: usize = 16_384;

/// The greatest number of bytes of a document.
pub const MAX_DOCUMENT_LEN: usize = 2_147_483_647;

/// The greatest number of documents of a store.
pub const MAX_DOCS: u32 = 2_147_483_647;

/// The last bytes of a store.
pub const FORMAT: &[u8] = b"nqstore1";
