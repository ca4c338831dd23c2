ghost use Rattle.std.specs.Prelude.{◌≡◌};
ghost use Rattle.ii_doc_store.specs.StoreFile.{store_file_fault};

use ii_file_slice::ReadFault;
use ii_io::Fault;
use std::alloc::{AllocError, AllocFailed};
use thiserror::Error;

/// Why a document can't be stored.
#[derive(Clone, Copy, Debug, PartialEq, Eq, Error)]
pub enum StoreWriteFault {
    /// An allocation or the writer failed, a number of bytes of the writer would exceed `u64::MAX`, or an
    /// earlier call failed.
    #[error("{0}")]
    Output(Fault),
    /// The document has more than `MAX_DOCUMENT_LEN` bytes.
    #[error("limit passed: bytes of a document")]
    DocumentLen,
    /// The store has `MAX_DOCS` documents.
    #[error("limit passed: number of documents")]
    NumDocs,
}

/// The part of a store that is damaged.
#[derive(Clone, Copy, Debug, PartialEq, Eq, Error)]
pub enum StoreDamage {
    /// The bytes don't end with a footer, or are fewer than the index that it describes.
    #[error("damaged: footer of the documents")]
    Footer,
    /// The index has another SHA-256 than the footer says, or its numbers decrease.
    #[error("damaged: index of the documents")]
    Index,
    /// The block with this number has another SHA-256 than the index says, or doesn't have its documents.
    #[error("damaged: block {0} of the documents")]
    Block(u64),
}

/// Why a store can't be opened.
#[derive(Clone, Copy, Debug, PartialEq, Eq, Error)]
pub enum StoreOpenFault {
    /// A memory allocation failed.
    #[error("out of memory")]
    OutOfMemory,
    /// The footer or the index is damaged.
    #[error("{0}")]
    Damaged(StoreDamage),
}

impl From<AllocError> for StoreOpenFault {
    ghost use Rattle.std.specs.Prelude.{◌≡◌};
    ghost use Rattle.ii_doc_store.specs.declared.faults.StoreOpenFault.TheVariants.{OutOfMemory};

    ghost from_gives = { λ _ f. f ≡ OutOfMemory };

    fn from(_e: AllocError) -> StoreOpenFault {
        StoreOpenFault::OutOfMemory
    }
}

impl<T: Drop> From<AllocFailed<T>> for StoreOpenFault {
    ghost use Rattle.std.specs.Prelude.{◌≡◌};
    ghost use Rattle.ii_doc_store.specs.declared.faults.StoreOpenFault.TheVariants.{OutOfMemory};

    ghost from_gives = { λ _ f. f ≡ OutOfMemory };

    fn from(_e: AllocFailed<T>) -> StoreOpenFault {
        StoreOpenFault::OutOfMemory
    }
}

/// Why a store, or a block of one, can't be read from its file.
#[derive(Clone, Copy, Debug, PartialEq, Eq, Error)]
pub enum StoreFileFault {
    /// A part of the store is damaged.
    #[error("{0}")]
    Damaged(StoreDamage),
    /// A range of the file can't be read, or an allocation failed.
    #[error("{0}")]
    Read(ReadFault),
}

impl StoreOpenFault {
    // Returns the fault of a store in a file.
    pub(crate) fn in_file(self) -> StoreFileFault
        ensures { result ≡ store_file_fault self }
    {
        match self {
            StoreOpenFault::OutOfMemory => StoreFileFault::Read(ReadFault::OutOfMemory),
            StoreOpenFault::Damaged(damage) => StoreFileFault::Damaged(damage),
        }
    }
}
