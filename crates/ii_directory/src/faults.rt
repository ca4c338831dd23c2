ghost use Rattle.std.specs.Prelude.{◌≡◌};
ghost use Rattle.ii_directory.specs.declared.faults.DirectoryFault.TheVariants as faults;

use std::alloc::{AllocError, AllocFailed};
use std::io;
use thiserror::Error;

/// Why a directory call failed.
#[derive(Clone, Copy, Debug, PartialEq, Eq, Error)]
pub enum DirectoryFault {
    /// Memory could not be allocated.
    #[error("out of memory")]
    OutOfMemory,
    /// The operating system returned an error.
    #[error("the folder refused: {0:?}")]
    Refused(io::ErrorKind),
}

impl From<AllocError> for DirectoryFault {
    ghost from_gives = { λ _ e. e ≡ faults.OutOfMemory };

    fn from(_: AllocError) -> Self {
        DirectoryFault::OutOfMemory
    }
}

impl<T: Drop> From<AllocFailed<T>> for DirectoryFault {
    ghost from_gives = { λ _ e. e ≡ faults.OutOfMemory };

    fn from(_: AllocFailed<T>) -> Self {
        DirectoryFault::OutOfMemory
    }
}
