//! Files of a real folder that are written piece by piece, before they have the name of an index's file.
use crate::faults::DirectoryFault;
use crate::system_files::told;
use std::alloc::Global;
use std::fs::{self, File, Files};
use std::io::{self, BufWriter, ErrorKind, Write};

// What the name of such a file begins with. A number comes after it.
const UNFINISHED: &str = "unfinished.";

/// A file of the system that is being written. If it is dropped before it is renamed, it stays until `remove_unfinished`.
///
/// No clause says what such a file holds.
#[derive(Drop)]
pub struct NewSystemFile {
    path: String,
    writer: BufWriter<File>,
    // The kind of the last error of the system.
    fault: ErrorKind,
}

impl NewSystemFile {
    /// Creates an empty file in a folder, under a name that no file has.
    ///
    /// # Errors
    ///
    /// `Refused` if the system can't create it; `OutOfMemory`.
    pub fn create<R: Files<File = File>>(
        rt: &R,
        alloc: Global,
        folder: &str,
    ) -> Result<NewSystemFile, DirectoryFault> {
        for number in 0..u32::MAX {
            let path = format!(in alloc; "{folder}/{UNFINISHED}{number}")?;
            match File::create_new(rt, path.as_str()) {
                Ok(file) => return NewSystemFile::over(alloc, path, file),
                Err(error) => {
                    if error.kind() != ErrorKind::AlreadyExists {
                        return Err(DirectoryFault::Refused(error.kind()));
                    }
                }
            }
        }
        Err(DirectoryFault::Refused(ErrorKind::AlreadyExists))
    }

    // Writes to a new file.
    fn over(alloc: Global, path: String, file: File) -> Result<NewSystemFile, DirectoryFault> {
        match BufWriter::new(alloc, file) {
            Ok(writer) => Ok(NewSystemFile {
                path,
                writer,
                fault: ErrorKind::Other,
            }),
            Err(_) => Err(DirectoryFault::OutOfMemory),
        }
    }

    /// Returns the kind of the last error of the system, or `Other` if there was none.
    pub fn kind_of_fault(&self) -> ErrorKind {
        self.fault
    }

    /// Writes what is buffered, and renames the file. It isn't flushed to the disk. Returns the errors of the system.
    pub fn rename_to<R: Files<File = File>>(self, rt: &R, path: &str) -> io::Result<()> {
        let mut file = self;
        file.writer.flush()?;
        fs::rename(rt, file.path.as_str(), path)
    }
}

/// Removes the files in a folder that a program created and didn't finish, since it was stopped or a call failed. No
/// other program may write to the folder meanwhile.
///
/// # Errors
///
/// `Refused` if the system can't list or remove them; `OutOfMemory`.
pub fn remove_unfinished<R: Files<File = File> + AllocGlobal>(
    rt: &R,
    folder: &str,
) -> Result<(), DirectoryFault> {
    for entry in told(fs::read_dir(&rt, folder))? {
        let entry = told(entry)?;
        if is_unfinished(entry.file_name()) {
            let path = format!(in rt.alloc(); "{folder}/{}", entry.file_name())?;
            told(fs::remove_file(rt, path.as_str()))?;
        }
    }
    Ok(())
}

// Returns whether a name is that of a file which is being written.
fn is_unfinished(name: &str) -> bool {
    match name.strip_prefix(UNFINISHED) {
        Some(number) => !number.is_empty() && number.bytes().all(|byte: u8| byte.is_ascii_digit()),
        None => false,
    }
}

impl Write for NewSystemFile {
    fn write(&mut self, buf: &[u8]) -> io::Result<usize> {
        match self.writer.write(buf) {
            Ok(count) => Ok(count),
            Err(error) => {
                self.fault = error.kind();
                Err(error)
            }
        }
    }

    fn flush(&mut self) -> io::Result<()> {
        match self.writer.flush() {
            Ok(()) => Ok(()),
            Err(error) => {
                self.fault = error.kind();
                Err(error)
            }
        }
    }
}
