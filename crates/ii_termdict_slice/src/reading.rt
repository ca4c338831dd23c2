//! Reads of a cached file.
ghost use Rattle.std.specs.Prelude.{◌≡◌, ◌+◌, ◌≤◌, IfOk, drop, length, take};
ghost use Rattle.ii_io.specs.Numbers.{little_endian};
ghost use Rattle.ii_termdict_slice.specs.Reading.{Reads};

use bytes::Bytes;
use ii_file_slice::{BlockCache, FileFault, FileHandle};
use ii_io::{BinarySerializable, Fault, FixedSize, Part};
use std::alloc::Global;

// Returns `len` bytes of a file, from `from` on.
pub(crate) fn read_bytes<H: FileHandle>(
    alloc: Global,
    file: &mut BlockCache<'_, H>,
    from: u64,
    len: usize,
) -> Result<Bytes, FileFault>
    ensures file { file.new ≡ file.old }
    ensures long { IfOk result (λ read. length read ≡ len) }
    ensures reads { Reads (H.bytes file.old) (H.is_sound file.old) (λ bs. from + len ≤ length bs) (λ bs read. read ≡ take len (drop from bs)) result }
{
    match file.read_bytes(alloc, from, len) {
        Ok(bytes) => Ok(bytes),
        Err(fault) => Err(FileFault::from(fault)),
    }
}

// Returns the number in the 8 bytes of a file from `from` on.
pub(crate) fn read_u64<H: FileHandle>(
    alloc: Global,
    file: &mut BlockCache<'_, H>,
    from: u64,
) -> Result<u64, FileFault>
    ensures file { file.new ≡ file.old }
    ensures reads { Reads (H.bytes file.old) (H.is_sound file.old) (λ bs. from + 8 ≤ length bs) (λ bs n. n ≡ little_endian (take 8 (drop from bs))) result }
{
    let bytes = match read_bytes(alloc, file, from, u64::SIZE_IN_BYTES) {
        Ok(bytes) => bytes,
        Err(fault) => return Err(fault),
    };
    let mut rest = bytes.as_slice();
    match u64::deserialize(&mut rest) {
        Some(number) => Ok(number),
        None => Err(FileFault::Index(Fault::Damaged(Part::Dictionary))),
    }
}
