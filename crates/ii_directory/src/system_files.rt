//! The files of a real folder, by the calls of the system.
use crate::faults::DirectoryFault;
use crate::file_system::FileSystem;
use crate::name::Name;
use crate::new_file::NewSystemFile;
use crate::read_at::SystemFile;
use std::alloc::Global;
use std::fs::{self, File, Files, OpenFile};
use std::io::{self, Read, Write};

/// The files of a folder of the system.
///
/// No clause can describe the contents of real files, so none does. That the system behaves as `FileSystem`
/// documents is trusted. `put` replaces the bytes of a file in place, so an open file keeps its bytes only if it isn't
/// written again. No file of a segment is. A file that is created has a name that no `Name` is until it is put under one.
#[derive(Drop)]
pub struct SystemFiles<'a, R: Files + AllocGlobal> {
    rt: &'a R,
    path: &'a str,
}

impl<'a, R: Files + AllocGlobal> SystemFiles<'a, R> {
    /// Returns the files of the folder at `path`, which must exist.
    pub fn new(rt: &'a R, path: &'a str) -> Self {
        SystemFiles { rt, path }
    }

    /// Returns whether the folder has a file.
    ///
    /// # Errors
    ///
    /// `Refused` if the system can't report it; `OutOfMemory`.
    pub fn has(&self, name: Name) -> Result<bool, DirectoryFault> {
        let path = self.path_of(name)?;
        told(fs::exists(self.rt, path.as_str()))
    }

    // Opens a file, if there is one.
    fn open_file(&self, name: Name) -> Result<Option<R::File>, DirectoryFault> {
        let path = self.path_of(name)?;
        match fs::open(self.rt, path.as_str()) {
            Ok(file) => Ok(Some(file)),
            Err(e) => {
                if e.kind() == io::ErrorKind::NotFound {
                    return Ok(None);
                }
                Err(DirectoryFault::Refused(e.kind()))
            }
        }
    }

    // Returns the path of a file.
    fn path_of(&self, name: Name) -> Result<String, DirectoryFault> {
        let name = name.text(self.rt.alloc())?;
        Ok(format!(in self.rt.alloc(); "{}/{name}", self.path)?)
    }
}

// Reads a file to its end. It has room for the file's length and one byte, so that it doesn't grow to find the end.
fn read_all(alloc: Global, file: File) -> Result<Vec<u8>, DirectoryFault> {
    let mut file = file;
    let len = told(file.metadata())?.len();
    let mut bytes = Vec::new(alloc);
    bytes.reserve_exact((len as usize).saturating_add(1))?;
    told(file.read_to_end(&mut bytes))?;
    Ok(bytes)
}

// Writes a file.
fn write_file<R: Files>(rt: &R, path: &str, bytes: &[u8]) -> io::Result<()> {
    let mut file = fs::create(rt, path)?;
    file.write_all(bytes)
}

// Flushes a file or a folder.
fn sync<R: Files>(rt: &R, path: &str) -> io::Result<()> {
    fs::open(rt, path)?.sync_all()
}

// Converts an I/O error to a `DirectoryFault`.
pub(crate) fn told<T>(answer: io::Result<T>) -> Result<T, DirectoryFault> {
    match answer {
        Ok(value) => Ok(value),
        Err(e) => Err(DirectoryFault::Refused(e.kind())),
    }
}

impl<R: Files<File = File> + AllocGlobal> FileSystem for SystemFiles<'_, R> {
    type File = SystemFile<File>;

    type NewFile = NewSystemFile;

    ghost use Rattle.std.specs.Prelude.{None, ⊤};

    ghost is_known = { λ _. ⊥ };

    ghost may_refuse = { λ _. ⊤ };

    ghost seen = { λ _ _. None };

    ghost moment = { λ _. 0 };

    ghost left_since = { λ _ _ _. ⊥ };

    ghost counts_now = { λ d t known le. absurd known };

    fn read(&self, alloc: Global, name: Name) -> Result<Option<Vec<u8>>, DirectoryFault> {
        match self.open_file(name)? {
            Some(file) => Ok(Some(read_all(alloc, file)?)),
            None => Ok(None),
        }
    }

    fn open(&self, alloc: Global, name: Name) -> Result<Option<SystemFile<File>>, DirectoryFault> {
        match self.open_file(name)? {
            Some(file) => Ok(Some(SystemFile::new(file))),
            None => Ok(None),
        }
    }

    fn list(&self, alloc: Global) -> Result<Vec<Name>, DirectoryFault> {
        let mut names = Vec::new(alloc);
        for entry in told(fs::read_dir(&self.rt, self.path))? {
            let entry = told(entry)?;
            if let Some(name) = Name::of_text(entry.file_name().as_bytes()) {
                names.push(name)?;
            }
        }
        Ok(names)
    }

    fn put(&mut self, name: Name, bytes: &[u8]) -> Result<(), DirectoryFault> {
        let path = self.path_of(name)?;
        told(write_file(self.rt, path.as_str(), bytes))
    }

    fn create(&self, alloc: Global) -> Result<NewSystemFile, DirectoryFault> {
        NewSystemFile::create(self.rt, alloc, self.path)
    }

    fn write_fault(&self, file: &NewSystemFile) -> DirectoryFault {
        DirectoryFault::Refused(file.kind_of_fault())
    }

    fn put_new(&mut self, name: Name, file: NewSystemFile) -> Result<(), DirectoryFault> {
        let path = self.path_of(name)?;
        told(file.rename_to(self.rt, path.as_str()))
    }

    fn sync_file(&mut self, name: Name) -> Result<(), DirectoryFault> {
        let path = self.path_of(name)?;
        told(sync(self.rt, path.as_str()))
    }

    fn rename(&mut self, from: Name, to: Name) -> Result<(), DirectoryFault> {
        let from = self.path_of(from)?;
        let to = self.path_of(to)?;
        told(fs::rename(self.rt, from.as_str(), to.as_str()))
    }

    fn remove(&mut self, name: Name) -> Result<bool, DirectoryFault> {
        let path = self.path_of(name)?;
        match fs::remove_file(self.rt, path.as_str()) {
            Ok(()) => Ok(true),
            Err(e) => {
                if e.kind() == io::ErrorKind::NotFound {
                    return Ok(false);
                }
                Err(DirectoryFault::Refused(e.kind()))
            }
        }
    }

    fn sync_names(&mut self) -> Result<(), DirectoryFault> {
        told(sync(self.rt, self.path))
    }
}
