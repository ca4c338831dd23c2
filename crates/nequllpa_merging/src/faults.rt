ghost use Rattle.std.specs.Prelude.{◌≡◌, ◌↔◌, IsTrue};
ghost use Rattle.ii_io.specs.declared.faults.Fault.TheVariants.{OutOfMemory};
ghost use Rattle.nequllpa_merging.specs.Faults.{IsDamage};
ghost use Rattle.nequllpa_merging.specs.declared.faults.MergeFault.TheVariants as faults;

use ii_base::{Fault, Part};
use ii_doc_store::StoreDamage;
use ii_file_slice::ReadFault;
use ii_segment_store::CommitFault;
use ii_store::{DirectoryFault, StoreFault};
use std::alloc::{AllocError, AllocFailed};
use thiserror::Error;

/// Why segments aren't merged.
#[derive(Clone, Copy, Debug, PartialEq, Eq, Error)]
pub enum MergeFault {
    /// The files of the segment at this place, from 0, can't be opened because of a damaged part. `TokenCount`
    /// also if it isn't known how many tokens its living documents have.
    #[error("segment {0}: damaged: {1}")]
    Segment(usize, Part),
    /// The stored documents of the segment at this place, from 0, are damaged: a block, or the index.
    #[error("segment {0}: {1}")]
    Store(usize, StoreDamage),
    /// The file of stored documents of the segment at this place, from 0, can't be read.
    #[error("segment {0}: stored documents: {1}")]
    Read(usize, ReadFault),
    /// A stored document of the segment at this place, from 0, has 2^31 bytes or more.
    #[error("segment {0}: limit passed: bytes of a document")]
    LongDocument(usize),
    /// The segments have 2^31 living documents or more.
    #[error("more than 2147483647 documents")]
    TooManyDocuments,
    /// The schema has 2^32 - 1 fields.
    #[error("too many fields")]
    TooManyFields,
    /// All segments are open, but their lists are damaged, a limit of the merged files is exceeded, or an
    /// allocation failed.
    #[error("{0}")]
    Merge(Fault),
}

/// Why the last segments of an index aren't merged.
#[derive(Clone, Copy, Debug, PartialEq, Eq, Error)]
pub enum JoinFault {
    /// The list of segments, or one of the last segments, can't be loaded.
    #[error("{0}")]
    Store(StoreFault),
    /// The last segments can't be merged.
    #[error("{0}")]
    Merge(MergeFault),
    /// The files of the merged segment can't be written.
    #[error("{0}")]
    Write(DirectoryFault),
    /// The merged segment can't be put in the place of the last ones.
    #[error("{0}")]
    Commit(CommitFault),
}

// Why files of segments aren't merged.
#[derive(Clone, Copy, Debug, PartialEq, Eq)]
pub(crate) enum FilesFault {
    // The merged files can't be written.
    Directory(DirectoryFault),
    // What is merged is damaged or passes a limit, or an allocation failed.
    Fault(Fault),
}

impl MergeFault {
    /// Returns whether a part of a segment is damaged, or its file of stored documents changed meanwhile.
    pub fn is_damage(&self) -> bool
        ensures { IsTrue result ↔ IsDamage self.now }
    {
        matches!(
            self,
            MergeFault::Segment(_, _)
                | MergeFault::Store(_, _)
                | MergeFault::Read(_, ReadFault::Damaged(_))
                | MergeFault::Merge(Fault::Damaged(_))
        )
    }
}

impl From<AllocError> for MergeFault {
    ghost from_gives = { λ _ e. e ≡ faults.Merge OutOfMemory };

    fn from(_: AllocError) -> MergeFault {
        MergeFault::Merge(Fault::OutOfMemory)
    }
}

impl<T: Drop> From<AllocFailed<T>> for MergeFault {
    ghost from_gives = { λ _ e. e ≡ faults.Merge OutOfMemory };

    fn from(_: AllocFailed<T>) -> MergeFault {
        MergeFault::Merge(Fault::OutOfMemory)
    }
}
