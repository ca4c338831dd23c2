//! Files in memory, of which a stop may leave less than is read.
ghost use Rattle.std.specs.Prelude.{false, ◌≡◌, ◌++◌, [], ◌∷◌, IfErr, IfOk, IsSome, List, None, OnErr, OnOk, Some, length};
ghost use Rattle.std.specs.List.{list_any};
ghost use Rattle.ii_directory.specs.declared.faults.DirectoryFault.TheVariants.{OutOfMemory};
ghost use Rattle.ii_directory.specs.Directory.{IsListing, IsRefusal, Obeys, found_bytes};
ghost use Rattle.ii_directory.specs.MemoryFiles.{Lists, MayBePut, files_after, target};
ghost use Rattle.ii_directory.specs.Names.{same_name};
ghost use Rattle.ii_directory.specs.declared.name.Name.{Name};

use crate::faults::DirectoryFault;
use crate::file_system::FileSystem;
use crate::name::Name;
use crate::read_at::MemoryFile;
use bytes::Bytes;
use std::alloc::Global;
use std::io;

/// A change to the files, or a flush.
#[derive(Debug, Drop)]
pub enum Change {
    /// Writes these bytes to a file, replacing any old ones.
    Put(Name, Vec<u8>),
    /// Removes a file.
    Removed(Name),
    /// Renames the first file to the second name, replacing any file of that name.
    Renamed(Name, Name),
    /// Flushes the bytes of a file.
    Flushed(Name),
    /// Flushes all names.
    FlushedNames,
}

/// Files in memory, stored as the list of all changes made to them, flushes included: what a stop may leave is
/// defined over this list (`left_of`).
///
/// They can simulate a stop: a `put` then leaves half of its bytes, and any other call changes nothing. Later
/// changes fail.
#[derive(Debug, Drop)]
pub struct MemoryFiles {
    alloc: Global,
    changes: Vec<Change>,
    calls_left: Option<u64>,
    is_stopped: bool,
}

impl MemoryFiles {
    /// Returns no files.
    pub fn new(alloc: Global) -> MemoryFiles
        ensures empty { result.changes.items ≡ [] }
        ensures obeys { result.calls_left ≡ None }
    {
        MemoryFiles {
            alloc,
            changes: Vec::new(alloc),
            calls_left: None,
            is_stopped: false,
        }
    }

    /// Allows `calls` further changes, and stops in the next one. Reads still succeed.
    pub fn stop_after(&mut self, calls: u64)
        ensures { self.new ≡ record self.old { calls_left = Some calls; is_stopped = false } }
    {
        self.calls_left = Some(calls);
        self.is_stopped = false;
    }

    // Applies a change completely, or stops before it.
    fn change(&mut self, change: Change) -> Result<(), DirectoryFault>
        ensures obeys { Obeys IsRefusal (IsSome self.old.calls_left) (IsSome self.new.calls_left) result }
        ensures ok { OnOk result (self.new.changes.items ≡ self.old.changes.items ++ change ∷ []) }
        ensures err { OnErr result (self.new.changes.items ≡ self.old.changes.items) }
    {
        match self.calls_left {
            None => {}
            Some(0) => {
                self.is_stopped = true;
                return Err(DirectoryFault::Refused(io::ErrorKind::Other));
            }
            Some(calls) => self.calls_left = Some(calls - 1),
        }
        self.changes.push(change)?;
        Ok(())
    }

    // Simulates a stop during a write, or fails if the directory is stopped already.
    fn stop_in_put(&mut self, name: Name, bytes: &[u8]) -> DirectoryFault
        ensures same { self.new.calls_left ≡ self.old.calls_left }
        ensures put { MayBePut name self.old.changes.items self.new.changes.items }
    {
        if self.is_stopped {
            return DirectoryFault::Refused(io::ErrorKind::Other);
        }
        self.is_stopped = true;
        let Ok(half) = bytes[..bytes.len() / 2].to_vec(self.alloc) else {
            return DirectoryFault::OutOfMemory;
        };
        let Ok(()) = self.changes.push(Change::Put(name, half)) else {
            return DirectoryFault::OutOfMemory;
        };
        DirectoryFault::Refused(io::ErrorKind::Other)
    }
}

impl Change {
    // Returns a name that stands for the change: of the file that it may give bytes to, if there is one.
    fn target(&self) -> Name
        ensures { result ≡ target self.now }
    {
        match self {
            Change::Put(name, _) => *name,
            Change::Removed(name) => *name,
            Change::Renamed(_, to) => *to,
            Change::Flushed(name) => *name,
            Change::FlushedNames => Name::Meta,
        }
    }
}

// Returns the names of the files after these changes.
fn listing(alloc: Global, changes: &[Change]) -> Result<Vec<Name>, DirectoryFault>
    ensures only { IfErr result (λ e. e ≡ OutOfMemory) }
    ensures listed { IfOk result (λ names. IsListing names.items (files_after changes.now)) }
{
    let mut names = Vec::new(alloc);
    for change in changes {
        push_if_there(alloc, changes, change.target(), &mut names)?;
    }
    Ok(names)
}

// Appends a name that isn't listed yet, if a file has it.
fn push_if_there(
    alloc: Global,
    changes: &[Change],
    name: Name,
    names: &mut Vec<Name>,
) -> Result<(), DirectoryFault>
    ensures only { IfErr result (λ e. e ≡ OutOfMemory) }
    ensures lists { (targets : List Name) → Lists (files_after changes.now) targets names.old.items → OnOk result (Lists (files_after changes.now) (targets ++ name ∷ []) names.new.items) }
{
    if has_name(names.as_slice(), name) {
        return Ok(());
    }
    let Some(_) = bytes_after(alloc, changes, name)? else {
        return Ok(());
    };
    names.push(name)?;
    Ok(())
}

// Returns whether a name is listed.
fn has_name(names: &[Name], name: Name) -> bool
    ensures { result ≡ list_any (same_name name) names.now }
{
    for other in names {
        if name.is_same(*other) {
            return true;
        }
    }
    false
}

// Returns the bytes of a file after these changes.
fn bytes_after(
    alloc: Global,
    changes: &[Change],
    name: Name,
) -> Result<Option<Vec<u8>>, DirectoryFault>
    ensures only { IfErr result (λ e. e ≡ OutOfMemory) }
    ensures found { IfOk result (λ found. found_bytes found ≡ files_after changes.now name) }
{
    let Some((last, before)) = changes.split_last() else {
        return Ok(None);
    };
    match last {
        Change::Put(put, bytes) => {
            if put.is_same(name) {
                return Ok(Some(bytes.to_vec(alloc)?));
            }
            bytes_after(alloc, before, name)
        }
        Change::Removed(removed) => {
            if removed.is_same(name) {
                return Ok(None);
            }
            bytes_after(alloc, before, name)
        }
        Change::Renamed(from, to) => {
            if to.is_same(name) {
                return bytes_after(alloc, before, *from);
            }
            if from.is_same(name) {
                return Ok(None);
            }
            bytes_after(alloc, before, name)
        }
        Change::Flushed(_) => bytes_after(alloc, before, name),
        Change::FlushedNames => bytes_after(alloc, before, name),
    }
}

impl FileSystem for MemoryFiles {
    type File = MemoryFile;

    type NewFile = Vec<u8>;

    ghost use Rattle.std.specs.Prelude.{⊤, IsSome};
    ghost use Rattle.ii_directory.specs.MemoryFiles.{WereSince, counts_now, files_after};

    ghost is_known = { λ f. ⊤ };

    ghost may_refuse = { λ f. IsSome f.calls_left };

    ghost seen = { λ f. files_after f.changes.items };

    ghost moment = { λ f. length f.changes.items };

    ghost left_since = { λ f t c. WereSince f.changes.items t c };

    ghost counts_now = { λ f t known le. counts_now f.changes.items t le };

    fn read(&self, alloc: Global, name: Name) -> Result<Option<Vec<u8>>, DirectoryFault> {
        bytes_after(alloc, self.changes.as_slice(), name)
    }

    fn open(&self, alloc: Global, name: Name) -> Result<Option<MemoryFile>, DirectoryFault> {
        let Some(bytes) = bytes_after(alloc, self.changes.as_slice(), name)? else {
            return Ok(None);
        };
        Ok(Some(MemoryFile::new(Bytes::from_vec(bytes)?)))
    }

    fn list(&self, alloc: Global) -> Result<Vec<Name>, DirectoryFault> {
        listing(alloc, self.changes.as_slice())
    }

    fn put(&mut self, name: Name, bytes: &[u8]) -> Result<(), DirectoryFault> {
        let copy = bytes.to_vec(self.alloc)?;
        self.put_new(name, copy)
    }

    fn create(&self, alloc: Global) -> Result<Vec<u8>, DirectoryFault> {
        Ok(Vec::new(alloc))
    }

    fn write_fault(&self, file: &Vec<u8>) -> DirectoryFault {
        DirectoryFault::OutOfMemory
    }

    fn put_new(&mut self, name: Name, file: Vec<u8>) -> Result<(), DirectoryFault> {
        if let Some(0) = self.calls_left {
            return Err(self.stop_in_put(name, file.as_slice()));
        }
        self.change(Change::Put(name, file))
    }

    fn sync_file(&mut self, name: Name) -> Result<(), DirectoryFault> {
        self.change(Change::Flushed(name))
    }

    fn rename(&mut self, from: Name, to: Name) -> Result<(), DirectoryFault> {
        let Some(_) = bytes_after(self.alloc, self.changes.as_slice(), from)? else {
            return Err(DirectoryFault::Refused(io::ErrorKind::NotFound));
        };
        self.change(Change::Renamed(from, to))
    }

    fn remove(&mut self, name: Name) -> Result<bool, DirectoryFault> {
        let Some(_) = bytes_after(self.alloc, self.changes.as_slice(), name)? else {
            return Ok(false);
        };
        self.change(Change::Removed(name))?;
        Ok(true)
    }

    fn sync_names(&mut self) -> Result<(), DirectoryFault> {
        self.change(Change::FlushedNames)
    }
}
