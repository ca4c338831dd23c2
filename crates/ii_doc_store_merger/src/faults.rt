ghost use Rattle.std.specs.Prelude.{◌≡◌};
ghost use Rattle.ii_doc_store_merger.specs.StoreSources.{block_fault, memory_merge_fault};

use ii_base::Fault;
use ii_doc_store::{StoreDamage, StoreFileFault};
use ii_file_slice::ReadFault;
use thiserror::Error;

/// Why stores can't be merged.
#[derive(Clone, Copy, Debug, PartialEq, Eq, Error)]
pub enum StoreMergeFault {
    /// An allocation or the writer failed, or the merged store would have 2^64 bytes or more.
    #[error("{0}")]
    Output(Fault),
    /// A range of the file of the store at this place, from 0, can't be read, or an allocation failed for that.
    #[error("store {0}: {1}")]
    Read(usize, ReadFault),
    /// A block of the store at this place, from 0, is damaged.
    #[error("store {0}: {1}")]
    Damaged(usize, StoreDamage),
    /// A document of the store at this place, from 0, has more than `MAX_DOCUMENT_LEN` bytes.
    #[error("store {0}: limit passed: bytes of a document")]
    DocumentLen(usize),
    /// More than `MAX_DOCS` documents are alive.
    #[error("limit passed: number of documents")]
    NumDocs,
}

impl StoreMergeFault {
    /// Maps a failed writer to a failed allocation, and any other fault to itself.
    pub fn in_memory(self) -> StoreMergeFault
        ensures { result ≡ memory_merge_fault self }
    {
        match self {
            StoreMergeFault::Output(fault) => StoreMergeFault::Output(fault.in_memory()),
            fault => fault,
        }
    }
}

// Returns why stores aren't merged, by why a block of the one at a place isn't read.
pub(crate) fn block_fault(place: usize, fault: StoreFileFault) -> StoreMergeFault
    ensures { result ≡ block_fault place fault }
{
    match fault {
        StoreFileFault::Damaged(damage) => StoreMergeFault::Damaged(place, damage),
        StoreFileFault::Read(fault) => StoreMergeFault::Read(place, fault),
    }
}
