//! An index in a folder: its files, and a `meta` file with the length and checksum of each. A save that is
//! stopped at any point leaves either the old index or the new one.
#![tactic(auto)]

pub mod collect;
pub mod commit_check;
pub mod faults;
pub mod file_digest;
pub mod index_meta;
pub mod index_meta_reader;
pub mod meta;
pub mod salvaged_index;
pub mod save;
pub mod segments;
pub mod stored_index;

pub use faults::{IndexFault, StoreFault};
pub use file_digest::FileDigest;
pub use ii_directory::{
    Directory, DirectoryFault, Folder, FolderLock, Generation, Kind, MemoryDirectory, Name,
    SegmentComponent, SegmentId, Slot,
};
pub use index_meta::{FileMeta, IndexMeta, SegmentMeta};
pub use salvaged_index::{SalvagedFile, SalvagedIndex, salvage};
pub use stored_index::{StoredIndex, load};
