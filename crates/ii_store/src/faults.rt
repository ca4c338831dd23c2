ghost use Rattle.std.specs.Prelude.{◌≡◌};
ghost use Rattle.ii_store.specs.Faults.{of_directory};
ghost use Rattle.ii_directory.specs.declared.faults.DirectoryFault.TheVariants as faults;

use ii_directory::{DirectoryFault, Kind, SegmentComponent, SegmentId};
use std::alloc::{AllocError, AllocFailed};
use std::io;
use thiserror::Error;

/// Why the files of a directory are not a valid index.
#[derive(Clone, Copy, Debug, PartialEq, Eq, Error)]
pub enum IndexFault {
    /// There is no `meta`.
    #[error("no index here")]
    NoIndex,
    /// `meta` has this other version of the format.
    #[error("an index of version {0}")]
    OtherVersion(u32),
    /// `meta` is not a `meta` file, is truncated or was changed.
    #[error("the file meta is damaged")]
    DamagedMeta,
    /// A file is missing.
    #[error("the file of {0} is missing")]
    Missing(Kind),
    /// The length of a file differs from its length in `meta`.
    #[error("the file of {0} has another length than meta says")]
    WrongLength(Kind),
    /// The checksum of a file differs from its checksum in `meta`.
    #[error("the file of {0} has another checksum than meta says")]
    WrongChecksum(Kind),
    /// A file of a segment is missing.
    #[error("the file of {1} of segment {0} is missing")]
    MissingFile(SegmentId, SegmentComponent),
    /// The length of a file of a segment differs from its length in `meta`.
    #[error("the file of {1} of segment {0} has another length than meta says")]
    WrongFileLength(SegmentId, SegmentComponent),
    /// The checksum of a file of a segment differs from its checksum in `meta`.
    #[error("the file of {1} of segment {0} has another checksum than meta says")]
    WrongFileChecksum(SegmentId, SegmentComponent),
    /// The flags of a segment's deleted documents are missing, aren't those of its documents, or have another
    /// number of living ones than `meta` says.
    #[error("the flags of the deleted documents of segment {0} are missing or damaged")]
    DeletedDocuments(SegmentId),
}

/// Why an index could not be loaded.
#[derive(Clone, Copy, Debug, PartialEq, Eq, Error)]
pub enum StoreFault {
    /// A directory call or an allocation failed. This says nothing about the files.
    #[error("{0}")]
    Directory(DirectoryFault),
    /// The files are not a valid index.
    #[error("{0}")]
    Index(IndexFault),
}

impl From<AllocError> for StoreFault {
    ghost from_gives = { λ _ e. e ≡ of_directory faults.OutOfMemory };

    fn from(_: AllocError) -> Self {
        StoreFault::Directory(DirectoryFault::OutOfMemory)
    }
}

impl<T: Drop> From<AllocFailed<T>> for StoreFault {
    ghost from_gives = { λ _ e. e ≡ of_directory faults.OutOfMemory };

    fn from(_: AllocFailed<T>) -> Self {
        StoreFault::Directory(DirectoryFault::OutOfMemory)
    }
}

impl From<DirectoryFault> for StoreFault {
    ghost from_gives = { λ fault e. e ≡ of_directory fault };

    fn from(fault: DirectoryFault) -> Self {
        StoreFault::Directory(fault)
    }
}

impl From<IndexFault> for StoreFault {
    ghost use Rattle.ii_store.specs.Faults.{of_index};

    ghost from_gives = { λ fault e. e ≡ of_index fault };

    fn from(fault: IndexFault) -> Self {
        StoreFault::Index(fault)
    }
}
