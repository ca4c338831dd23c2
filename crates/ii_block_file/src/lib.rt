//! A file that is read by ranges, of which each block is compared with its checksum before a byte of it is handed on.
#![tactic(auto)]

pub mod block_file;
pub mod block_table;
pub mod faults;
pub mod listed_file;

pub use block_file::BlockFile;
pub use block_table::BlockTable;
pub use faults::ReadFault;
pub use ii_directory::{MemoryFile, ReadAt, SystemFile};
pub use listed_file::open_listed;
