ghost use Rattle.std.specs.Prelude.{◌≡◌, ◌+◌, ◌*◌, ◌/◌, ◌^◌, ◌<◌, ◌≤◌, ◌↔◌, [], ◌++◌, length, take, slice_index, IsErrOf};
ghost use Rattle.ii_io.specs.CountingWriter.{Writes, IsFull};
ghost use Rattle.ii_codes.specs.Packed.{bits_in, num_bits};
ghost use Rattle.ii_codes.specs.Bits.{low_bits, whole_bytes, bits_left, bits_bytes, WritesOneRow, ReadsFromItsPlace};

use ii_io::{CountingWriter, Fault, LimitName};
use std::io::Write;
use std::marker::Model;

/// Returns the number of significant bits of `n`, from 0 to 64.
pub fn compute_num_bits(n: u64) -> u8
    ensures value { result ≡ num_bits n }
    ensures most { result ≤ 64 }
    ensures fits { n < 2 ^ result }
{
    (u64::BITS - n.leading_zeros()) as u8
}

/// Returns the number in `num_bits` bits of `bytes`, at most 56, from bit `addr_bits` on, the lowest first.
/// Bit `j` is bit `j % 8` of byte `j / 8`.
#[inline(always)]
pub fn extract_bits(bytes: &[u8], addr_bits: usize, num_bits: u8) -> u64
    requires narrow { num_bits ≤ 56 }
    requires within { addr_bits + num_bits ≤ 8 * length bytes.now }
    ensures value { result ≡ bits_in 8 bytes.now addr_bits num_bits }
    ensures fits { result < 2 ^ num_bits }
{
    super::packed::read_bits(bytes, addr_bits, num_bits)
}

/// Writes numbers of any widths as consecutive bits, the lowest first. Complete bytes are written at once,
/// so fewer than eight bits are pending. Bytes that were lost to an error are not written again.
#[derive(Drop)]
pub struct BitPacker {
    mini_buffer: u8,
    mini_buffer_written: u8,
}

impl Model for BitPacker {
    ghost use Rattle.std.specs.Prelude.{ℕ, ◌^◌, ◌<◌, List};
    ghost use Rattle.ii_codes.specs.Bits.{low_bits};

    ghost Value = { List ℕ };

    ghost view = { λ p. low_bits p.mini_buffer_written p.mini_buffer };

    ghost invariant = { λ p. (p.mini_buffer_written < 8) × (p.mini_buffer < 2 ^ p.mini_buffer_written) };
}

impl BitPacker {
    /// Creates a packer without pending bits.
    pub fn new() -> BitPacker
        ensures { result ≡ [] }
    {
        BitPacker {
            mini_buffer: 0,
            mini_buffer_written: 0,
        }
    }

    /// Appends the `num_bits` lowest bits of `val`, at most 64; its other bits must be 0. Puts the complete
    /// bytes at the start of `whole`, which must have room for 8, and returns their number.
    pub fn push(&mut self, val: u64, num_bits: u8, whole: &mut [u8]) -> usize
        requires narrow { num_bits ≤ 64 }
        requires fits { val < 2 ^ num_bits }
        requires room { 8 ≤ length whole.old }

        // The complete bytes, and the pending bits.
        ensures bytes { take result whole.new ≡ whole_bytes (self.old ++ low_bits num_bits val) }
        ensures count { result ≡ (length self.old + num_bits) / 8 }
        ensures few { result ≤ 8 }
        ensures size { length whole.new ≡ length whole.old }
        ensures left { self.new ≡ bits_left (self.old ++ low_bits num_bits val) }
    {
        let (low, len) = (self.mini_buffer, self.mini_buffer_written);
        let end = len + num_bits;
        let count = end / 8;
        for j in 0..count {
            whole[usize::from(j)] = byte_of_bits(low, len, val, num_bits, j);
        }
        self.mini_buffer = byte_of_bits(low, len, val, num_bits, count);
        self.mini_buffer_written = end % 8;
        usize::from(count)
    }

    /// Puts the pending bits, padded with zeros, at the start of `last`. Returns the number of bytes, 0 or
    /// 1.
    pub fn finish(&mut self, last: &mut [u8]) -> usize
        requires room { 0 < length last.old }
        ensures bytes { take result last.new ≡ bits_bytes self.old }
        ensures count { result ≡ (length self.old + 7) / 8 }
        ensures few { result ≤ 1 }
        ensures size { length last.new ≡ length last.old }
        ensures left { self.new ≡ [] }
    {
        let count = usize::from(self.mini_buffer_written.min(1));
        last[0] = self.mini_buffer;
        self.mini_buffer = 0;
        self.mini_buffer_written = 0;
        count
    }

    /// Appends the `num_bits` lowest bits of `val`, at most 64, and writes the complete bytes. The other
    /// bits of `val` must be 0.
    ///
    /// Returns `Write` if the writer fails, and `Limit(Offset)` if one of its counts would exceed
    /// `u64::MAX`.
    pub fn write<W: Write>(
        &mut self,
        val: u64,
        num_bits: u8,
        output: &mut CountingWriter<W>,
    ) -> Result<(), Fault>
        requires narrow { num_bits ≤ 64 }
        requires fits { val < 2 ^ num_bits }
        ensures written { Writes output.old output.new (whole_bytes (self.old ++ low_bits num_bits val)) result }
        ensures left { self.new ≡ bits_left (self.old ++ low_bits num_bits val) }
        ensures limit { IsErrOf result (Fault.Limit LimitName.Offset) ↔ IsFull output.old ((length self.old + num_bits) / 8) }
    {
        let mut bytes = [0u8; 8];
        let count = self.push(val, num_bits, &mut bytes);
        output.write_all(&bytes[..count])
    }

    /// Writes the pending bits, padded with zeros. Returns the errors of `write`.
    pub fn flush<W: Write>(&mut self, output: &mut CountingWriter<W>) -> Result<(), Fault>
        ensures written { Writes output.old output.new (bits_bytes self.old) result }
        ensures left { self.new ≡ [] }
        ensures limit { IsErrOf result (Fault.Limit LimitName.Offset) ↔ IsFull output.old ((length self.old + 7) / 8) }
    {
        let mut byte = [0u8; 1];
        let count = self.finish(&mut byte);
        output.write_all(&byte[..count])
    }

    /// Writes the pending bits, as `flush` does.
    pub fn close<W: Write>(&mut self, output: &mut CountingWriter<W>) -> Result<(), Fault>
        ensures written { Writes output.old output.new (bits_bytes self.old) result }
        ensures left { self.new ≡ [] }
        ensures limit { IsErrOf result (Fault.Limit LimitName.Offset) ↔ IsFull output.old ((length self.old + 7) / 8) }
    {
        self.flush(output)
    }
}

impl Default for BitPacker {
    ghost use Rattle.std.specs.Prelude.{◌≡◌, []};

    ghost is_default = { λ p. p ≡ [] };

    fn default() -> BitPacker {
        BitPacker::new()
    }
}

// Returns bit `place` of the `len` bits of `low` followed by those of `val`, or 0 after all.
fn bit_of(low: u8, len: u8, val: u64, num_bits: u8, place: u8) -> u8
    requires short { len < 8 }
    requires narrow { num_bits ≤ 64 }
    ensures { result ≡ slice_index (low_bits len low ++ low_bits num_bits val) place }
{
    if place < len {
        return (low >> place) % 2;
    }
    if place - len < num_bits {
        return ((val >> (place - len)) % 2) as u8;
    }
    0
}

// Returns byte `j` of these bits.
fn byte_of_bits(low: u8, len: u8, val: u64, num_bits: u8, j: u8) -> u8
    requires short { len < 8 }
    requires narrow { num_bits ≤ 64 }
    requires near { j ≤ 8 }
    ensures { result ≡ bits_in 1 (low_bits len low ++ low_bits num_bits val) (j * 8) 8 }
{
    let mut byte = 0u8;
    for i in 0..8u8 {
        byte += bit_of(low, len, val, num_bits, j * 8 + i) << i;
    }
    byte
}

/// Law of writing: numbers written one by one give the same bytes as all bits at once.
pub fn writes_one_row()
    ensures { WritesOneRow }
{}

/// Law of reading: a number is extracted from its place, whatever is around it.
pub fn reads_from_its_place()
    ensures { ReadsFromItsPlace }
{}
