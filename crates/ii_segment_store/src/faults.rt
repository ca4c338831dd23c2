//! Why a segment can't be added.
ghost use Rattle.std.specs.Prelude.{◌≡◌};
ghost use Rattle.ii_store.specs.Faults.{of_directory, of_index};
ghost use Rattle.ii_directory.specs.declared.faults.DirectoryFault.TheVariants.{OutOfMemory};
ghost use Rattle.ii_segment_store.specs.declared.faults.CommitFault.TheVariants as faults;

use ii_alive::AliveFault;
use ii_base::Fault;
use ii_store::{DirectoryFault, IndexFault, SegmentId, StoreFault};
use std::alloc::{AllocError, AllocFailed};
use thiserror::Error;

/// Why a segment can't be added to an index.
#[derive(Clone, Copy, Debug, PartialEq, Eq, Error)]
pub enum CommitFault {
    /// The folder has no index to which a segment can be added, or it can't be read or written.
    #[error("{0}")]
    Store(StoreFault),
    /// The index would have 2^31 documents or more, 2^16 segments or more, or too high a generation.
    #[error("too many documents or segments for an index")]
    TooMany,
    /// A segment has no counts of tokens, which the numbers of an index with deleted documents need.
    #[error("segment {0} has no counts of tokens, so that none of its documents can be deleted: index them again")]
    NoCounts(SegmentId),
}

// An allocation that failed. Flags that are all alive, and a writer over memory, fail for nothing else.
pub(crate) fn memory_fault(_: Fault) -> DirectoryFault
    ensures { result ≡ OutOfMemory }
{
    DirectoryFault::OutOfMemory
}

// Why the flags of a segment don't open.
pub(crate) fn flags_fault(id: SegmentId, fault: AliveFault) -> StoreFault
    ensures memory { fault ≡ AliveFault.OutOfMemory → result ≡ of_directory OutOfMemory }
    ensures damaged { fault ≡ AliveFault.Damaged → result ≡ of_index (IndexFault.DeletedDocuments id) }
{
    match fault {
        AliveFault::OutOfMemory => StoreFault::Directory(DirectoryFault::OutOfMemory),
        AliveFault::Damaged => StoreFault::Index(IndexFault::DeletedDocuments(id)),
    }
}

impl From<StoreFault> for CommitFault {
    ghost from_gives = { λ fault e. e ≡ faults.Store fault };

    fn from(fault: StoreFault) -> Self {
        CommitFault::Store(fault)
    }
}

impl From<AllocError> for CommitFault {
    ghost from_gives = { λ _ e. e ≡ faults.Store (of_directory OutOfMemory) };

    fn from(_: AllocError) -> Self {
        CommitFault::Store(StoreFault::Directory(DirectoryFault::OutOfMemory))
    }
}

impl<T: Drop> From<AllocFailed<T>> for CommitFault {
    ghost from_gives = { λ _ e. e ≡ faults.Store (of_directory OutOfMemory) };

    fn from(_: AllocFailed<T>) -> Self {
        CommitFault::Store(StoreFault::Directory(DirectoryFault::OutOfMemory))
    }
}

impl From<DirectoryFault> for CommitFault {
    ghost from_gives = { λ fault e. e ≡ faults.Store (of_directory fault) };

    fn from(fault: DirectoryFault) -> Self {
        CommitFault::Store(StoreFault::Directory(fault))
    }
}
