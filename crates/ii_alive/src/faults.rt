use std::alloc::{AllocError, AllocFailed};
use thiserror::Error;

/// Why the flags of documents can't be opened.
#[derive(Clone, Copy, Debug, PartialEq, Eq, Error)]
pub enum AliveFault {
    /// A memory allocation failed.
    #[error("out of memory")]
    OutOfMemory,
    /// The bytes are not the flags of that number of documents.
    #[error("damaged: alive documents")]
    Damaged,
}

impl From<AllocError> for AliveFault {
    ghost use Rattle.std.specs.Prelude.{◌≡◌};
    ghost use Rattle.ii_alive.specs.declared.faults.AliveFault.TheVariants.{OutOfMemory};

    ghost from_gives = { λ _ f. f ≡ OutOfMemory };

    fn from(_e: AllocError) -> AliveFault {
        AliveFault::OutOfMemory
    }
}

impl<T: Drop> From<AllocFailed<T>> for AliveFault {
    ghost use Rattle.std.specs.Prelude.{◌≡◌};
    ghost use Rattle.ii_alive.specs.declared.faults.AliveFault.TheVariants.{OutOfMemory};

    ghost from_gives = { λ _ f. f ≡ OutOfMemory };

    fn from(_e: AllocFailed<T>) -> AliveFault {
        AliveFault::OutOfMemory
    }
}
