//! Files of an index that are read by ranges: a file in memory or with a table of its blocks, a range of one, the
//! bodies of a composite file, and a file of which the last read blocks are kept.
#![tactic(auto)]

pub mod block_cache;
pub mod composite_slices;
pub mod faults;
pub mod file_handle;
pub mod file_slice;

pub use block_cache::BlockCache;
pub use composite_slices::CompositeSlices;
pub use faults::FileFault;
pub use file_handle::FileHandle;
pub use file_slice::FileSlice;
pub use ii_block_file::{BlockFile, ReadFault};
