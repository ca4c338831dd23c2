//! Why a call of an index fails.
ghost use Rattle.std.specs.Prelude.{◌≡◌};
ghost use Rattle.ii_io.specs.declared.faults.Fault.TheVariants.{OutOfMemory};
ghost use Rattle.ii_index.specs.declared.faults.IndexError.TheVariants as faults;

use ii_base::Fault;
use ii_documents::LineFault;
use ii_schema_text::SchemaFault;
use ii_segment_store::CommitFault;
use ii_store::StoreFault;
use nequllpa_merging::JoinFault;
use std::alloc::AllocFailed;
use thiserror::Error;

/// Why an index can't be created, opened, read or changed.
#[derive(Debug, Drop, Error)]
pub enum IndexError {
    /// The directory has an index.
    #[error("the directory has an index already")]
    IndexAlreadyExists,
    /// The schema of the index isn't UTF-8.
    #[error("the schema is not UTF-8")]
    SchemaBytes,
    /// The text is no schema.
    #[error("the schema: {0}")]
    Schema(SchemaFault),
    /// The index can't be loaded.
    #[error("{0}")]
    Store(StoreFault),
    /// The index can't be changed.
    #[error("{0}")]
    Commit(CommitFault),
    /// Segments can't be merged.
    #[error("{0}")]
    Merge(JoinFault),
    /// The files of the segment at this place, from 0, can't be opened.
    #[error("segment {0}: {1}")]
    Segment(usize, Fault),
    /// The segment at this place, from 0, has no counts of its tokens, so its documents can't be deleted: it comes
    /// from an index of version 1.
    #[error("segment {0} has no counts of its tokens")]
    NoCounts(usize),
    /// The segments have 2^31 documents or more.
    #[error("more than 2147483647 documents")]
    TooManyDocuments,
    /// The documents can't be indexed, or an allocation failed.
    #[error("{0}")]
    Documents(Fault),
    /// The text is no document.
    #[error("{0}")]
    Document(LineFault),
    /// Segments were written that aren't committed: commit them, or roll back.
    #[error("segments that are written aren't committed")]
    Uncommitted,
}

impl<T: Drop> From<AllocFailed<T>> for IndexError {
    ghost from_gives = { λ _ e. e ≡ faults.Documents OutOfMemory };

    fn from(_: AllocFailed<T>) -> Self {
        IndexError::Documents(Fault::OutOfMemory)
    }
}
