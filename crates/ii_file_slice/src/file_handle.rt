//! Files that are read by ranges.
ghost use Rattle.std.specs.Prelude.{◌≡◌, ◌<◌, ◌≤◌, ◌+◌, List, IfErr, IfOk, IsErrOf, Some, drop, length, take, ℕ};
ghost use Rattle.ii_block_file.specs.declared.faults.ReadFault.TheVariants as faults;

use bytes::Bytes;
use ii_block_file::{BlockFile, ReadAt, ReadFault};
use std::alloc::Global;

/// A file as it was when it was opened, or a range of one.
pub trait FileHandle {
    ghost use Rattle.std.specs.Prelude.{List, Option, ℕ};

    /// The bytes, where they are known.
    ghost bytes: { Self → Option (List ℕ) };

    /// The file's known bytes can always be read, if memory suffices.
    ghost is_sound: { Self → Type 0 };

    /// Returns the length, in bytes.
    fn len(&self) -> u64
        ensures { (bs : List ℕ) → bytes self.now ≡ Some bs → result ≡ length bs };

    /// Returns `len` bytes, from `from` on.
    ///
    /// # Errors
    ///
    /// `Range` if the range doesn't end within the file; `Refused` or `Damaged` if its bytes can't be read;
    /// `OutOfMemory`.
    fn read_bytes(&self, alloc: Global, from: u64, len: usize) -> Result<Bytes, ReadFault>
        ensures long { IfOk result (λ read. length read ≡ len) }
        ensures exact { (bs : List ℕ) → bytes self.now ≡ Some bs → IfOk result (λ read. read ≡ take len (drop from bs)) }
        ensures range { (bs : List ℕ) → bytes self.now ≡ Some bs → IsErrOf result faults.Range → length bs < from + len }
        ensures sound { (bs : List ℕ) → bytes self.now ≡ Some bs → is_sound self.now → from + len ≤ length bs → IfErr result (λ e. e ≡ faults.OutOfMemory) };
}

/// Bytes in memory. Reading copies nothing, and fails only with `OutOfMemory`, or with `Range` after the end.
impl FileHandle for Bytes {
    ghost use Rattle.std.specs.Prelude.{Some, ⊤};

    ghost bytes = { λ bs. Some bs };

    ghost is_sound = { λ bs. ⊤ };

    fn len(&self) -> u64 {
        self.as_slice().len() as u64
    }

    fn read_bytes(&self, _alloc: Global, from: u64, len: usize) -> Result<Bytes, ReadFault> {
        let all = self.as_slice().len() as u64;
        if from > all || len as u64 > all - from {
            return Err(ReadFault::Range);
        }
        let start = from as usize;
        Ok(self.slice(start..start + len)?)
    }
}

/// A file with a table of its blocks. Only the blocks that have a byte of the range are read, and compared with the
/// table.
impl<R: ReadAt> FileHandle for BlockFile<R> {
    ghost use Rattle.ii_file_slice.specs.FileSlice.{IsTableOf, bytes_if};

    ghost bytes = { λ f. bytes_if f.table (R.bytes f.source) };

    ghost is_sound = { λ f. IsTableOf f.table (R.bytes f.source) };

    fn len(&self) -> u64 {
        self.len()
    }

    fn read_bytes(&self, alloc: Global, from: u64, len: usize) -> Result<Bytes, ReadFault> {
        self.read(alloc, from, len)
    }
}
