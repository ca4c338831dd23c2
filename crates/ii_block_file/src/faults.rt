use std::alloc::{AllocError, AllocFailed};
use std::io::ErrorKind;
use thiserror::Error;

/// Why a range of a file can't be read.
#[derive(Clone, Copy, Debug, PartialEq, Eq, Error)]
pub enum ReadFault {
    /// A memory allocation failed.
    #[error("out of memory")]
    OutOfMemory,
    /// The range doesn't end within the file.
    #[error("a range that passes the end of its file")]
    Range,
    /// The system refused to read, or the file is shorter than its table says (`UnexpectedEof`).
    #[error("{0}")]
    Refused(ErrorKind),
    /// The block with this number has another checksum than its table says.
    #[error("damaged: block {0}")]
    Damaged(u64),
}

impl From<AllocError> for ReadFault {
    ghost use Rattle.std.specs.Prelude.{◌≡◌};
    ghost use Rattle.ii_block_file.specs.declared.faults.ReadFault.TheVariants.{OutOfMemory};

    ghost from_gives = { λ _ f. f ≡ OutOfMemory };

    fn from(_e: AllocError) -> ReadFault {
        ReadFault::OutOfMemory
    }
}

impl<T: Drop> From<AllocFailed<T>> for ReadFault {
    ghost use Rattle.std.specs.Prelude.{◌≡◌};
    ghost use Rattle.ii_block_file.specs.declared.faults.ReadFault.TheVariants.{OutOfMemory};

    ghost from_gives = { λ _ f. f ≡ OutOfMemory };

    fn from(e: AllocFailed<T>) -> ReadFault {
        drop(e);
        ReadFault::OutOfMemory
    }
}
