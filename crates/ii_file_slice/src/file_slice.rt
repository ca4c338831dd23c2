//! A range of a file, read as a file.
ghost use Rattle.std.specs.Prelude.{◌≡◌};

use crate::file_handle::FileHandle;
use bytes::Bytes;
use ii_block_file::ReadFault;
use std::alloc::Global;

/// A range of a file, as the body of a field in a composite file. It should end within the file: else each read of a
/// byte fails with `Range`.
#[derive(Drop)]
pub struct FileSlice<'a, H: FileHandle> {
    file: &'a H,
    start: u64,
    len: u64,
}

impl<'a, H: FileHandle> FileSlice<'a, H> {
    /// Returns the `len` bytes of a file that begin at `start`.
    pub fn new(file: &'a H, start: u64, len: u64) -> FileSlice<'a, H>
        ensures file { result.file.now ≡ file.now }
        ensures start { result.start ≡ start }
        ensures len { result.len ≡ len }
    {
        FileSlice { file, start, len }
    }

    /// Returns where the range begins in its file.
    pub fn start(&self) -> u64
        ensures { result ≡ self.now.start }
    {
        self.start
    }
}

impl<'a, H: FileHandle> FileHandle for FileSlice<'a, H> {
    ghost use Rattle.ii_file_slice.specs.FileSlice.{slice_if};

    ghost bytes = { λ s. slice_if s.start s.len (H.bytes s.file.now) };

    ghost is_sound = { λ s. H.is_sound s.file.now };

    fn len(&self) -> u64 {
        self.len
    }

    fn read_bytes(&self, alloc: Global, from: u64, len: usize) -> Result<Bytes, ReadFault> {
        if from > self.len || len as u64 > self.len - from {
            return Err(ReadFault::Range);
        }
        let all = self.file.len();
        if self.start > all || self.len > all - self.start {
            return Err(ReadFault::Range);
        }
        self.file.read_bytes(alloc, self.start + from, len)
    }
}
