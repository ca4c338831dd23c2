//! The lock of a folder, which allows one writing program at a time.
use crate::faults::DirectoryFault;
use crate::new_file::remove_unfinished;
use std::fs::{File, Files, OpenOptions, TryLockError};
use std::io;

/// The name of the lock file in a folder. It is empty, and remains after the lock is released.
pub const LOCK_FILE: &str = "lock";

/// The lock of a folder. It is released when it is dropped or when its process ends.
///
/// Two concurrent writers would both write to the unused slot. A program that writes to a `Folder` must
/// hold its lock, because the guarantees of `save` assume a single writer. Readers take no lock.
#[derive(Drop)]
pub struct FolderLock {
    _file: File,
}

impl FolderLock {
    /// Locks the folder at a path, which must exist, and removes the files in it that an earlier program created and
    /// didn't finish. Returns `None` without waiting if another program holds the lock.
    ///
    /// # Errors
    ///
    /// `Refused` if the system can't create or lock the lock file, or can't list or remove such files; `OutOfMemory`.
    pub fn try_lock<R: Files<File = File> + AllocGlobal>(
        rt: &R,
        folder: &str,
    ) -> Result<Option<FolderLock>, DirectoryFault> {
        let path = format!(in rt.alloc(); "{folder}/{LOCK_FILE}")?;
        let file = match OpenOptions::new()
            .write(true)
            .create(true)
            .open(rt, path.as_str())
        {
            Ok(file) => file,
            Err(error) => return Err(DirectoryFault::Refused(error.kind())),
        };
        match file.try_lock() {
            Ok(()) => {
                remove_unfinished(rt, folder)?;
                Ok(Some(FolderLock { _file: file }))
            }
            Err(TryLockError::WouldBlock) => Ok(None),
            Err(TryLockError::Error(error)) => Err(DirectoryFault::Refused(error.kind())),
        }
    }
}
