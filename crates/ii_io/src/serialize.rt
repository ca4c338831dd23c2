ghost use Rattle.std.specs.Prelude.{◌≡◌, ◌↔◌, ◌<◌, ◌^◌, ◌++◌, ◌⊎◌, ℕ, List, ◌∷◌, [], length, Option, Some, OnOk, OnErr, IfErr, IfNone, IsErrOf};
ghost use Rattle.std.specs.Option.{option_map};
ghost use Rattle.ii_io.specs.CountingWriter.{Writes, IsFull};
ghost use Rattle.ii_io.specs.Numbers.{le_bytes, number_at, ReadsWhatIsWritten, HasOneSpelling};

use super::counting_writer::CountingWriter;
use super::faults::{Fault, LimitName};
use super::field::Field;
use byteorder::{ByteOrder, LittleEndian};
use std::io::Write;

/// A value that can be encoded as bytes and decoded again.
pub trait BinarySerializable: Sized {
    // The encoding of a value.
    ghost bytes_of: { Self → List ℕ };

    // The value encoded at the start of the bytes, if there is one, and the bytes after it.
    ghost value_at: { List ℕ → Option (Self × List ℕ) };

    // The condition under which a value can be written.
    ghost can_serialize: { Self → Type 0 } = { λ _. Unit {0} };

    // A property of every value of the type, which `serialize` ensures.
    ghost in_range: { Self → Type 0 } = { λ _. Unit {0} };

    /// Writes the encoding of the value.
    ///
    /// # Errors
    ///
    /// `Write` if the writer fails; a prefix of the encoding may have been written. `Limit(Offset)` if a
    /// count of the writer would exceed `u64::MAX`.
    fn serialize<W: Write>(&self, writer: &mut CountingWriter<W>) -> Result<(), Fault>
        requires { can_serialize self.now }
        ensures written { Writes writer.old writer.new (bytes_of self.now) result }
        ensures limit { IsErrOf result (Fault.Limit LimitName.Offset)
            ↔ IsFull writer.old (length (bytes_of self.now)) }
        ensures value { in_range self.now };

    /// Reads a value from the start of the bytes, and advances past it. Returns `None`, without advancing,
    /// if there is no valid encoding.
    fn deserialize(reader: &mut &[u8]) -> Option<Self>
        ensures value { option_map (λ v. (v, reader.new.now)) result ≡ value_at reader.old.now }
        ensures stays { IfNone result (reader.new.now ≡ reader.old.now) };

    // A written value is read back, whatever follows it.
    ghost reads_back: { (v : Self) (rest : List ℕ) → in_range v → can_serialize v
        → value_at (bytes_of v ++ rest) ≡ Some (v, rest) };
}

/// A type whose encodings all have the same length.
pub trait FixedSize: BinarySerializable {
    ghost SIZE_IN_BYTES: { ℕ };

    /// The length of an encoding in bytes.
    const SIZE_IN_BYTES: usize;

    // Every encoding has this length.
    ghost has_size: { (v : Self) → length (Self.bytes_of v) ≡ SIZE_IN_BYTES };
}

/// Four bytes, little-endian.
impl BinarySerializable for u32 {
    ghost use Rattle.ii_io.specs.NumberLemmas.{reads_what_is_written};
    ghost use Rattle.std.specs.Prelude.{◌<◌, ◌^◌};
    ghost use Rattle.ii_io.specs.Numbers.{le_bytes, number_at};

    ghost bytes_of = { λ n. le_bytes 4 n };

    ghost value_at = { λ bytes. number_at 4 bytes };

    ghost in_range = { λ n. n < 256 ^ 4 };

    ghost reads_back = { λ n rest fits _. reads_what_is_written 4 n rest fits };

    fn serialize<W: Write>(&self, writer: &mut CountingWriter<W>) -> Result<(), Fault> {
        let mut bytes = [0; 4];
        LittleEndian::write_u32(&mut bytes, *self);
        writer.write_all(&bytes)
    }

    fn deserialize(reader: &mut &[u8]) -> Option<u32> {
        let bytes = *reader;
        if bytes.len() < 4 {
            return None;
        }
        *reader = &bytes[4..];
        Some(LittleEndian::read_u32(bytes))
    }
}

impl FixedSize for u32 {
    ghost use Rattle.ii_io.specs.NumberLemmas.{length_le_bytes};

    const SIZE_IN_BYTES: usize = 4;

    ghost SIZE_IN_BYTES = { 4 };

    ghost has_size = { λ n. length_le_bytes 4 n };
}

/// Eight bytes, little-endian.
impl BinarySerializable for u64 {
    ghost use Rattle.ii_io.specs.NumberLemmas.{reads_what_is_written};
    ghost use Rattle.std.specs.Prelude.{◌<◌, ◌^◌};
    ghost use Rattle.ii_io.specs.Numbers.{le_bytes, number_at};

    ghost bytes_of = { λ n. le_bytes 8 n };

    ghost value_at = { λ bytes. number_at 8 bytes };

    ghost in_range = { λ n. n < 256 ^ 8 };

    ghost reads_back = { λ n rest fits _. reads_what_is_written 8 n rest fits };

    fn serialize<W: Write>(&self, writer: &mut CountingWriter<W>) -> Result<(), Fault> {
        let mut bytes = [0; 8];
        LittleEndian::write_u64(&mut bytes, *self);
        writer.write_all(&bytes)
    }

    fn deserialize(reader: &mut &[u8]) -> Option<u64> {
        let bytes = *reader;
        if bytes.len() < 8 {
            return None;
        }
        *reader = &bytes[8..];
        Some(LittleEndian::read_u64(bytes))
    }
}

impl FixedSize for u64 {
    ghost use Rattle.ii_io.specs.NumberLemmas.{length_le_bytes};

    const SIZE_IN_BYTES: usize = 8;

    ghost SIZE_IN_BYTES = { 8 };

    ghost has_size = { λ n. length_le_bytes 8 n };
}

/// Law: a written number is read back, whatever follows it. No other bytes of the same length encode the
/// same number.
pub fn reads_numbers_back()
    ensures reads { ReadsWhatIsWritten }
    ensures one { HasOneSpelling }
{}
