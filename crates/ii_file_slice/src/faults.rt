//! Why a part of an index can't be read from its file.
use ii_block_file::ReadFault;
use ii_io::Fault;
use thiserror::Error;

/// Why a part of an index can't be read from its file.
#[derive(Clone, Copy, Debug, PartialEq, Eq, Error)]
pub enum FileFault {
    /// The index is damaged, a limit was exceeded, or a memory allocation failed.
    #[error("{0}")]
    Index(Fault),
    /// A range of a file can't be read, for another reason than memory.
    #[error("{0}")]
    Read(ReadFault),
}

impl From<Fault> for FileFault {
    ghost use Rattle.std.specs.Prelude.{◌≡◌};
    ghost use Rattle.ii_file_slice.specs.declared.faults.FileFault.TheVariants.{Index};

    ghost from_gives = { λ e f. f ≡ Index e };

    fn from(e: Fault) -> FileFault {
        FileFault::Index(e)
    }
}

impl From<ReadFault> for FileFault {
    ghost use Rattle.std.specs.Prelude.{◌≡◌};
    ghost use Rattle.ii_file_slice.specs.Faults.{file_fault};

    ghost from_gives = { λ e f. f ≡ file_fault e };

    fn from(e: ReadFault) -> FileFault {
        match e {
            ReadFault::OutOfMemory => FileFault::Index(Fault::OutOfMemory),
            fault => FileFault::Read(fault),
        }
    }
}
