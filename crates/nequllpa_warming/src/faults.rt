ghost use Rattle.std.specs.Prelude.{◌↔◌, IsTrue};
ghost use Rattle.nequllpa_warming.specs.Faults.{LacksMemoryToWarmUp};

use ii_base::Fault;
use ii_file_slice::FileFault;
use nequllpa_opening::OpenFault;
use std::alloc::{AllocError, AllocFailed};
use thiserror::Error;

/// Why what a query reads of an index can't be opened.
#[derive(Debug, Drop, Error)]
pub enum WarmupFault {
    /// A segment has no tables of blocks.
    #[error("a segment has no tables of blocks")]
    NoTables,
    /// The schema can't be read.
    #[error("{0}")]
    Open(OpenFault),
    /// A file of a segment can't be read, or isn't one.
    #[error("{0}")]
    File(FileFault),
}

impl WarmupFault {
    /// Returns whether an allocation failed.
    pub fn is_memory(&self) -> bool
        ensures { IsTrue result ↔ LacksMemoryToWarmUp self.now }
    {
        match self {
            WarmupFault::NoTables => false,
            WarmupFault::Open(fault) => fault.is_memory(),
            WarmupFault::File(FileFault::Index(fault)) => fault.is_memory(),
            WarmupFault::File(FileFault::Read(_)) => false,
        }
    }
}

impl From<AllocError> for WarmupFault {
    ghost use Rattle.std.specs.Prelude.{◌≡◌};
    ghost use Rattle.nequllpa_warming.specs.Faults.{warmup_memory};

    ghost from_gives = { λ _ f. f ≡ warmup_memory };

    fn from(_: AllocError) -> WarmupFault {
        WarmupFault::File(FileFault::Index(Fault::OutOfMemory))
    }
}

impl<T: Drop> From<AllocFailed<T>> for WarmupFault {
    ghost use Rattle.std.specs.Prelude.{◌≡◌};
    ghost use Rattle.nequllpa_warming.specs.Faults.{warmup_memory};

    ghost from_gives = { λ _ f. f ≡ warmup_memory };

    fn from(_: AllocFailed<T>) -> Self {
        WarmupFault::File(FileFault::Index(Fault::OutOfMemory))
    }
}
