ghost use Rattle.std.specs.Prelude.{◌↔◌, IsTrue};
ghost use Rattle.nequllpa_opening.specs.Faults.{LacksMemoryToAnswer, LacksMemoryToOpen};

use ii_base::Fault;
use ii_doc_store::StoreDamage;
use ii_schema_text::SchemaFault;
use std::alloc::{AllocError, AllocFailed};
use std::io;
use thiserror::Error;

/// Why a command has no answer.
#[derive(Clone, Copy, Debug, PartialEq, Eq, Error)]
pub enum AnswerFault {
    /// An error of the index: its bytes are corrupt, a limit was exceeded, or an allocation failed.
    #[error("{0}")]
    Index(Fault),
    /// Writing the output failed.
    #[error("the output failed: {0:?}")]
    Output(io::ErrorKind),
    /// A stored document can't be read.
    #[error("{0}")]
    Document(DocumentFault),
}

/// Why a stored document can't be read.
#[derive(Clone, Copy, Debug, PartialEq, Eq, Error)]
pub enum DocumentFault {
    /// The index has no document with the number.
    #[error("no such document")]
    NoDocument,
    /// The segment at this place, from 0, has no stored documents.
    #[error("segment {0}: its documents are not stored")]
    NotStored(usize),
    /// The stored documents of the segment at this place, from 0, are damaged.
    #[error("segment {0}: {1}")]
    Damaged(usize, StoreDamage),
}

/// Why the bytes of an index can't be opened, although they are those that were saved.
#[derive(Debug, Drop, Error)]
pub enum OpenFault {
    /// The schema isn't UTF-8.
    #[error("the schema is not UTF-8")]
    SchemaBytes,
    /// The text is no schema.
    #[error("the schema: {0}")]
    Schema(SchemaFault),
    /// The files don't open.
    #[error("{0}")]
    Files(Fault),
    /// The file of stored documents doesn't open.
    #[error("{0}")]
    Documents(StoreDamage),
}

impl AnswerFault {
    /// Returns whether an allocation failed.
    pub fn is_memory(&self) -> bool
        ensures { IsTrue result ↔ LacksMemoryToAnswer self.now }
    {
        match self {
            AnswerFault::Index(fault) => fault.is_memory(),
            AnswerFault::Output(_) | AnswerFault::Document(_) => false,
        }
    }
}

impl OpenFault {
    /// Returns whether an allocation failed.
    pub fn is_memory(&self) -> bool
        ensures { IsTrue result ↔ LacksMemoryToOpen self.now }
    {
        match self {
            OpenFault::SchemaBytes => false,
            OpenFault::Schema(fault) => matches!(fault, SchemaFault::OutOfMemory),
            OpenFault::Files(fault) => fault.is_memory(),
            OpenFault::Documents(_) => false,
        }
    }
}

impl From<AllocError> for OpenFault {
    fn from(_: AllocError) -> OpenFault {
        OpenFault::Files(Fault::OutOfMemory)
    }
}

impl<T: Drop> From<AllocFailed<T>> for OpenFault {
    fn from(_: AllocFailed<T>) -> Self {
        OpenFault::Files(Fault::OutOfMemory)
    }
}

impl From<Fault> for AnswerFault {
    fn from(fault: Fault) -> Self {
        AnswerFault::Index(fault)
    }
}

impl From<AllocError> for AnswerFault {
    fn from(_: AllocError) -> Self {
        AnswerFault::Index(Fault::OutOfMemory)
    }
}

impl<T: Drop> From<AllocFailed<T>> for AnswerFault {
    fn from(_: AllocFailed<T>) -> Self {
        AnswerFault::Index(Fault::OutOfMemory)
    }
}

impl From<io::Error> for AnswerFault {
    fn from(e: io::Error) -> Self {
        AnswerFault::Output(e.kind())
    }
}

impl From<DocumentFault> for AnswerFault {
    fn from(fault: DocumentFault) -> Self {
        AnswerFault::Document(fault)
    }
}
