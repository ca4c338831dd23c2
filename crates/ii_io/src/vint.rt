ghost use Rattle.std.specs.Prelude.{◌≡◌, ◌+◌, ◌^◌, ◌<◌, ◌≤◌, ◌++◌, length, take, drop, IfSome, IsSome, OnErr, OnOk, Some};
ghost use Rattle.std.specs.Option.{option_map};
ghost use Rattle.ii_io.specs.Faults.{OnlyMemory};
ghost use Rattle.ii_io.specs.Vints.{u32_at, u64_at, vint_at, vint_u32, vint_u64, ReadsWhatIsSpelled, SpellsInFewest};

use super::counting_writer::CountingWriter;
use super::faults::Fault;
use super::serialize::BinarySerializable;
use std::io::Write;
use std::marker::Model;

/// The maximum length of a 32-bit vint in bytes.
pub const MAX_VINT_SIZE: usize = 5;

/// The maximum length of a 64-bit vint in bytes.
pub const MAX_LONG_VINT_SIZE: usize = 10;

/// Reads a 32-bit vint from the start of `bytes`, and returns it with its length, 1 to 5 bytes. Each byte
/// holds seven bits, the lowest first; only the last byte is 128 or more. Returns `None` if there is no
/// vint, or the number exceeds `u32::MAX`.
pub fn read_u32(bytes: &[u8]) -> Option<(u32, usize)>
    ensures value { option_map (λ read. (read.0, drop read.1 bytes.now)) result ≡ u32_at bytes.now }
    ensures within { IfSome result (λ read. read.1 ≤ length bytes.now) }
{
    let Some((number, used)) = read_groups(bytes, MAX_VINT_SIZE) else {
        return None;
    };
    let Ok(number) = u32::try_from(number) else {
        return None;
    };
    Some((number, used))
}

/// Reads a 64-bit vint from the start of `bytes`, and returns it with its length, 1 to 10 bytes. See
/// `read_u32`.
pub fn read_u64(bytes: &[u8]) -> Option<(u64, usize)>
    ensures value { option_map (λ read. (read.0, drop read.1 bytes.now)) result ≡ u64_at bytes.now }
    ensures within { IfSome result (λ read. read.1 ≤ length bytes.now) }
{
    read_groups(bytes, MAX_LONG_VINT_SIZE)
}

// Reads a vint of at most `most` bytes, and returns it with its length.
fn read_groups(bytes: &[u8], most: usize) -> Option<(u64, usize)>
    requires { most ≤ 10 }
    ensures value { option_map (λ read. (read.0, drop read.1 bytes.now)) result ≡ vint_at most (2 ^ 64) bytes.now }
    ensures within { IfSome result (λ read. read.1 ≤ length bytes.now) }
{
    let mut value: u64 = 0;
    let mut place: u64 = 1;
    for (i, byte) in bytes.iter().enumerate() {
        if i == most {
            return None;
        }
        let Some(group) = u64::from(*byte % 128).checked_mul(place) else {
            return None;
        };
        value += group;
        if *byte >= 128 {
            return Some((value, i + 1));
        }
        let Some(next) = place.checked_mul(128) else {
            return None;
        };
        place = next;
    }
    None
}

/// Writes the shortest encoding of `value` to `output` at `start`, and returns the index after it.
pub fn write_u32(value: u32, output: &mut [u8], start: usize) -> usize
    requires { start + 5 ≤ length output.old }
    ensures written { take result output.new ≡ take start output.old ++ vint_u32 value }
    ensures after { drop result output.new ≡ drop result output.old }
    ensures within { result ≤ start + 5 }
{
    let mut end = start;
    let mut high = value;
    while high >= 128 {
        output[end] = (high % 128) as u8;
        end += 1;
        high /= 128;
    }
    output[end] = high as u8 + 128;
    end + 1
}

/// Writes the shortest encoding of `value`, 1 to 10 bytes, to `output` at `start`, and returns the index
/// after it.
pub fn write_u64(value: u64, output: &mut [u8], start: usize) -> usize
    requires { start + 10 ≤ length output.old }
    ensures written { take result output.new ≡ take start output.old ++ vint_u64 value }
    ensures after { drop result output.new ≡ drop result output.old }
    ensures within { result ≤ start + 10 }
{
    let mut end = start;
    let mut left = value;
    while left >= 128 {
        output[end] = (left % 128) as u8;
        end += 1;
        left /= 128;
    }
    output[end] = left as u8 + 128;
    end + 1
}

/// Appends the shortest encoding of `value`, 1 to 5 bytes. Returns `OutOfMemory`, and leaves `output` as it
/// is, if it can't grow.
pub fn write_u32_vint(value: u32, output: &mut Vec<u8>) -> Result<(), Fault>
    ensures ok { OnOk result (output.new.items ≡ output.old.items ++ vint_u32 value) }
    ensures err { OnErr result (output.new.items ≡ output.old.items) }
    ensures only { OnlyMemory result }
{
    if value < 128 {
        output.push(value as u8 + 128)?;
        return Ok(());
    }
    let mut bytes = [0; MAX_VINT_SIZE];
    let end = write_u32(value, &mut bytes, 0);
    output.extend_from_slice(&bytes[..end])?;
    Ok(())
}

/// Reads a 32-bit vint from the start of `bytes`, and advances past it. A valid vint must be there.
pub fn read_u32_vint(bytes: &mut &[u8]) -> u32
    requires { IsSome (u32_at bytes.old.now) }
    ensures { u32_at bytes.old.now ≡ Some (result, bytes.new.now) }
{
    let all = *bytes;
    let Some((number, used)) = read_u32(all) else {
        unreachable!();
    };
    *bytes = &all[used..];
    number
}

/// A 64-bit number that is written in its shortest encoding, 1 to 10 bytes. Any encoding of at most 10
/// bytes is read. Its model is the number.
#[derive(Clone, Copy, Debug, PartialEq, Eq)]
pub struct VInt(pub u64);

impl Model for VInt {
    ghost use Rattle.std.specs.Prelude.{ℕ};

    ghost Value = { ℕ };

    ghost view = { λ number. number.0 };

    ghost inverse = { λ number. record { 0 = number } };
}

impl BinarySerializable for VInt {
    ghost use Rattle.std.specs.Prelude.{◌<◌, ◌^◌};
    ghost use Rattle.ii_io.specs.Vints.{vint_u64, u64_at};
    ghost use Rattle.ii_io.specs.VintLemmas.{u64_at-vint_u64};

    ghost bytes_of = { λ number. vint_u64 number };

    ghost value_at = { λ bytes. u64_at bytes };

    ghost in_range = { λ number. number < 2 ^ 64 };

    ghost reads_back = { λ number rest fits _. u64_at-vint_u64 number rest fits };

    fn serialize<W: Write>(&self, writer: &mut CountingWriter<W>) -> Result<(), Fault> {
        let mut bytes = [0; MAX_LONG_VINT_SIZE];
        let end = write_u64(self.0, &mut bytes, 0);
        writer.write_all(&bytes[..end])
    }

    fn deserialize(reader: &mut &[u8]) -> Option<VInt> {
        let bytes = *reader;
        let Some((number, used)) = read_u64(bytes) else {
            return None;
        };
        *reader = &bytes[used..];
        Some(VInt(number))
    }
}

/// Law of reading: 32-bit and 64-bit vints are read exactly as encoded, whatever follows them.
pub fn reads_what_is_spelled()
    ensures u32 { ReadsWhatIsSpelled 5 (2 ^ 32) }
    ensures u64 { ReadsWhatIsSpelled 10 (2 ^ 64) }
{}

/// Law of writing: the bytes written encode the number, and no encoding is shorter.
pub fn spells_in_fewest()
    ensures u32 { SpellsInFewest 4 }
    ensures u64 { SpellsInFewest 9 }
{}
