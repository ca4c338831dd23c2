//! The directory of an index: the names of its files, and what may be left of them if a program stops.
#![tactic(auto)]

pub mod directory;
pub mod faults;
pub mod file_system;
pub mod folder;
pub mod lock;
pub mod memory_files;
pub mod name;
pub mod new_file;
pub mod read_at;
pub mod system_files;

pub use directory::Directory;
pub use faults::DirectoryFault;
pub use file_system::FileSystem;
pub use folder::{FlushedDirectory, Folder, MemoryDirectory};
pub use lock::FolderLock;
pub use memory_files::MemoryFiles;
pub use name::{Generation, Kind, Name, SegmentComponent, SegmentId, Slot};
pub use new_file::{NewSystemFile, remove_unfinished};
pub use read_at::{MemoryFile, ReadAt, SystemFile};
pub use system_files::SystemFiles;
