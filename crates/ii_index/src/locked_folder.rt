//! Directories that one program at a time writes to.
use ii_directory::{
    Directory, DirectoryFault, FileSystem, FlushedDirectory, Folder, FolderLock, MemoryFile, Name,
};
use std::alloc::Global;
use std::fs::{File, Files};

/// A directory that no other program writes to meanwhile. An index can be created and written in these alone: a
/// `MemoryDirectory`, or a folder whose lock is held (`LockedFolder`). Any `Directory` can be read.
pub trait WritableDirectory: Directory {}

/// A directory over a folder, with the lock of this folder. The lock is released when this is dropped, or when the
/// process ends.
#[derive(Drop)]
pub struct Locked<D: Directory + Drop> {
    directory: D,
    _lock: FolderLock,
}

/// A folder of the system that this program alone writes to.
pub type LockedFolder<'a, R> = Locked<Folder<'a, R>>;

impl<'a, R: Files<File = File> + AllocGlobal> Locked<Folder<'a, R>> {
    /// Locks the folder at `path`, which must exist. Returns `None` without waiting if another program holds the lock.
    ///
    /// # Errors
    ///
    /// `Refused` if the system can't create or lock the lock file; `OutOfMemory`.
    pub fn try_lock(rt: &'a R, path: &'a str) -> Result<Option<Self>, DirectoryFault> {
        match FolderLock::try_lock(rt, path) {
            Ok(Some(lock)) => Ok(Some(Locked {
                directory: Folder::new(rt, path),
                _lock: lock,
            })),
            Ok(None) => Ok(None),
            Err(fault) => Err(fault),
        }
    }
}

impl<D: Directory + Drop> Directory for Locked<D> {
    type File = D::File;

    type NewFile = D::NewFile;

    ghost is_known = { λ d. D.is_known d.directory };

    ghost may_refuse = { λ d. D.may_refuse d.directory };

    ghost seen = { λ d. D.seen d.directory };

    ghost moment = { λ d. D.moment d.directory };

    ghost left_since = { λ d. D.left_since d.directory };

    ghost counts_now = { λ d t known le. D.counts_now d.directory t known le };

    ghost only_now = { λ d c known left. D.only_now d.directory c known left };

    fn read(&self, alloc: Global, name: Name) -> Result<Option<Vec<u8>>, DirectoryFault> {
        self.directory.read(alloc, name)
    }

    fn open(&self, alloc: Global, name: Name) -> Result<Option<D::File>, DirectoryFault> {
        self.directory.open(alloc, name)
    }

    fn list(&self, alloc: Global) -> Result<Vec<Name>, DirectoryFault> {
        self.directory.list(alloc)
    }

    fn write(&mut self, name: Name, bytes: &[u8]) -> Result<(), DirectoryFault> {
        self.directory.write(name, bytes)
    }

    fn create(&self, alloc: Global) -> Result<D::NewFile, DirectoryFault> {
        self.directory.create(alloc)
    }

    fn write_fault(&self, file: &D::NewFile) -> DirectoryFault {
        self.directory.write_fault(file)
    }

    fn finish(&mut self, name: Name, file: D::NewFile) -> Result<(), DirectoryFault> {
        self.directory.finish(name, file)
    }

    fn rename(&mut self, from: Name, to: Name) -> Result<(), DirectoryFault> {
        self.directory.rename(from, to)
    }

    fn remove(&mut self, name: Name) -> Result<(), DirectoryFault> {
        self.directory.remove(name)
    }
}

impl<D: Directory + Drop> WritableDirectory for Locked<D> {}

// `MemoryDirectory` is one.
impl<S: FileSystem<File = MemoryFile> + Drop> WritableDirectory for FlushedDirectory<S> {}
