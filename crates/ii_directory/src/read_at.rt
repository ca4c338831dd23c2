//! Sources of bytes that are read by ranges.
ghost use Rattle.std.specs.Prelude.{◌≡◌, ◌<◌, ◌≤◌, ◌+◌, Err, List, Ok, Some, ℕ, drop, length, take};
ghost use Rattle.std.specs.declared.io.ErrorKind.TheVariants.{UnexpectedEof};

use bytes::Bytes;
use std::io::ErrorKind;
use std::os::unix::fs::FileExt;

/// A file as it was when it was opened.
pub trait ReadAt {
    ghost use Rattle.std.specs.Prelude.{List, Option, ℕ};

    /// The bytes, where they are known. No clause can say what a file of the system holds.
    ghost bytes: { Self → Option (List ℕ) };

    /// Fills `buf` with the bytes from `offset` on. What `buf` holds after an error isn't said.
    ///
    /// # Errors
    ///
    /// `UnexpectedEof` if there are fewer bytes; another kind if the system refuses to read.
    fn read_exact_at(&self, buf: &mut [u8], offset: u64) -> Result<(), ErrorKind>
        ensures len { length buf.new ≡ length buf.old }
        ensures read { (bs : List ℕ) → bytes self.now ≡ Some bs → offset + length buf.old ≤ length bs → (result ≡ Ok tt) × (buf.new ≡ take (length buf.old) (drop offset bs)) }
        ensures short { (bs : List ℕ) → bytes self.now ≡ Some bs → length bs < offset + length buf.old → result ≡ Err UnexpectedEof };
}

/// A file of the system.
#[derive(Drop)]
pub struct SystemFile<F: FileExt> {
    file: F,
}

impl<F: FileExt> SystemFile<F> {
    /// Reads this open file.
    pub fn new(file: F) -> SystemFile<F> {
        SystemFile { file }
    }
}

impl<F: FileExt> ReadAt for SystemFile<F> {
    ghost use Rattle.std.specs.Prelude.{None};

    ghost bytes = { λ _. None };

    fn read_exact_at(&self, buf: &mut [u8], offset: u64) -> Result<(), ErrorKind> {
        match self.file.read_exact_at(buf, offset) {
            Ok(()) => Ok(()),
            Err(e) => Err(e.kind()),
        }
    }
}

/// Bytes in memory, read as a file.
#[derive(Drop)]
pub struct MemoryFile {
    bytes: Bytes,
}

impl MemoryFile {
    /// Reads these bytes.
    pub fn new(bytes: Bytes) -> MemoryFile
        ensures { result.bytes ≡ bytes }
    {
        MemoryFile { bytes }
    }
}

impl ReadAt for MemoryFile {
    ghost use Rattle.std.specs.Prelude.{Some};

    ghost bytes = { λ s. Some s.bytes };

    fn read_exact_at(&self, buf: &mut [u8], offset: u64) -> Result<(), ErrorKind> {
        let all = self.bytes.as_slice();
        if offset > all.len() as u64 || buf.len() > all.len() - offset as usize {
            return Err(ErrorKind::UnexpectedEof);
        }
        let from = offset as usize;
        buf.copy_from_slice(&all[from..from + buf.len()]);
        Ok(())
    }
}
