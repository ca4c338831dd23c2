//! A folder, which flushes each change before the call that makes it returns.
ghost use Rattle.std.specs.Prelude.{◌≡◌, [], None, OnOk, Some};
ghost use Rattle.ii_directory.specs.Directory.{Elapses, Files, IsRefusal, Obeys, Same};
ghost use Rattle.ii_directory.specs.FileSystem.{HasFlushedNames, IsFlushed};

use crate::directory::Directory;
use crate::faults::DirectoryFault;
use crate::file_system::FileSystem;
use crate::memory_files::MemoryFiles;
use crate::name::{Kind, Name, Slot};
use crate::system_files::SystemFiles;
use std::alloc::Global;
use std::fs::{File, Files};

/// A directory over a file system. It flushes each file after writing it, and the names after each write,
/// rename and removal, so that a stop leaves the files of before a call or those after it.
#[derive(Drop)]
pub struct FlushedDirectory<S: FileSystem> {
    files: S,
}

/// A folder of the system.
pub type Folder<'a, R> = FlushedDirectory<SystemFiles<'a, R>>;

/// A directory in memory, for tests and for indexes without files.
pub type MemoryDirectory = FlushedDirectory<MemoryFiles>;

impl<S: FileSystem> FlushedDirectory<S> {
    /// Creates a directory over files of which nothing is unflushed.
    pub fn over(files: S) -> Self
        ensures { result.files ≡ files }
    {
        FlushedDirectory { files }
    }
}

impl<'a, R: Files<File = File> + AllocGlobal> FlushedDirectory<SystemFiles<'a, R>> {
    /// Creates a directory over the folder at `path`, which must exist.
    pub fn new(rt: &'a R, path: &'a str) -> Self {
        FlushedDirectory {
            files: SystemFiles::new(rt, path),
        }
    }

    /// Returns an index file in a folder that has neither `meta` nor `meta.new`. It remains from an index
    /// whose `meta` is missing, or belongs to another program. A stopped first save leaves `meta.new`
    /// (`begin_first_save`), so its files are not orphans.
    ///
    /// # Errors
    ///
    /// `Refused` if the system can't report whether a file exists; `OutOfMemory`.
    pub fn orphan(&self) -> Result<Option<Name>, DirectoryFault> {
        if self.files.has(Name::Meta)? || self.files.has(Name::NewMeta)? {
            return Ok(None);
        }
        for slot in [Slot::First, Slot::Second] {
            for number in 0..Kind::COUNT {
                let name = Name::File(slot, Kind::at(number));
                if self.files.has(name)? {
                    return Ok(Some(name));
                }
            }
        }
        Ok(None)
    }

    /// Writes an empty `meta.new` if there is no `meta`. It marks the files of a first save that is stopped
    /// (`orphan`). `save` replaces it.
    ///
    /// # Errors
    ///
    /// `Refused` if the system returns an error; `OutOfMemory`.
    pub fn begin_first_save(&mut self) -> Result<(), DirectoryFault> {
        if self.files.has(Name::Meta)? {
            return Ok(());
        }
        self.write(Name::NewMeta, &[])
    }
}

impl FlushedDirectory<MemoryFiles> {
    /// Creates an empty directory in memory, which refuses no call.
    pub fn create(alloc: Global) -> Self
        ensures empty { result.files.changes.items ≡ [] }
        ensures obeys { result.files.calls_left ≡ None }
    {
        FlushedDirectory {
            files: MemoryFiles::new(alloc),
        }
    }

    /// Allows `calls` further changes and flushes, and stops in the next one. Reads still succeed.
    pub fn stop_after(&mut self, calls: u64)
        ensures same { self.new.files.changes ≡ self.old.files.changes }
        ensures left { self.new.files.calls_left ≡ Some calls }
    {
        self.files.stop_after(calls);
    }
}

// Flushes the bytes of a file, then all names.
fn flush<S: FileSystem>(files: &mut S, name: Name) -> Result<(), DirectoryFault>
    ensures known { S.is_known files.old → OnOk result (S.is_known files.new) }
    ensures obeys { Obeys IsRefusal (S.may_refuse files.old) (S.may_refuse files.new) result }
    ensures same { S.is_known files.old → OnOk result (Same (S.seen files.old) (S.seen files.new)) }
    ensures left { S.is_known files.old → OnOk result ((c : Files) → S.left_since files.new (S.moment files.new) c → HasFlushedNames (S.seen files.old) (IsFlushed name (S.seen files.old) (S.left_since files.old (S.moment files.old))) c) }
    ensures time { S.is_known files.old → Elapses (S.moment files.old) (S.moment files.new) (S.left_since files.old) (S.left_since files.new) (S.left_since files.old (S.moment files.old)) }
{
    files.sync_file(name)?;
    files.sync_names()
}

impl<S: FileSystem> Directory for FlushedDirectory<S> {
    type File = S::File;

    type NewFile = S::NewFile;

    ghost use Rattle.ii_directory.specs.FileSystem.{LeavesOnly};

    ghost is_known = { λ d. S.is_known d.files × LeavesOnly (S.seen d.files) (S.left_since d.files (S.moment d.files)) };

    ghost may_refuse = { λ d. S.may_refuse d.files };

    ghost seen = { λ d. S.seen d.files };

    ghost moment = { λ d. S.moment d.files };

    ghost left_since = { λ d. S.left_since d.files };

    ghost counts_now = { λ d t known le. S.counts_now d.files t known.0 le };

    ghost only_now = { λ d c known left. known.1 c left };

    fn read(&self, alloc: Global, name: Name) -> Result<Option<Vec<u8>>, DirectoryFault> {
        self.files.read(alloc, name)
    }

    fn open(&self, alloc: Global, name: Name) -> Result<Option<S::File>, DirectoryFault> {
        self.files.open(alloc, name)
    }

    fn list(&self, alloc: Global) -> Result<Vec<Name>, DirectoryFault> {
        self.files.list(alloc)
    }

    fn write(&mut self, name: Name, bytes: &[u8]) -> Result<(), DirectoryFault> {
        self.files.put(name, bytes)?;
        flush(&mut self.files, name)
    }

    fn create(&self, alloc: Global) -> Result<S::NewFile, DirectoryFault> {
        self.files.create(alloc)
    }

    fn write_fault(&self, file: &S::NewFile) -> DirectoryFault {
        self.files.write_fault(file)
    }

    fn finish(&mut self, name: Name, file: S::NewFile) -> Result<(), DirectoryFault> {
        self.files.put_new(name, file)?;
        flush(&mut self.files, name)
    }

    fn rename(&mut self, from: Name, to: Name) -> Result<(), DirectoryFault> {
        self.files.rename(from, to)?;
        self.files.sync_names()
    }

    fn remove(&mut self, name: Name) -> Result<(), DirectoryFault> {
        if !self.files.remove(name)? {
            return Ok(());
        }
        self.files.sync_names()
    }
}
