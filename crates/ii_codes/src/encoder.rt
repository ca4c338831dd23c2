ghost use Rattle.std.specs.Prelude.{◌≡◌, ℕ, ◌<◌, ◌≤◌, length, slice_index};
ghost use Rattle.std.specs.Bool.{OnTrue};
ghost use Rattle.std.specs.List.Sorted.{IsStrictlyIncreasing};
ghost use Rattle.ii_codes.specs.Blocks.{sorted_width, sorted_bytes, unsorted_width, unsorted_bytes};
ghost use Rattle.ii_codes.specs.Sums.{DoNotFall};
ghost use Rattle.ii_codes.specs.SortedVints.{sorted_vints};
ghost use Rattle.ii_codes.specs.UnsortedVints.{unsorted_vints};

use super::{COMPRESSION_BLOCK_SIZE, packed, vint};

const COMPRESSED_BLOCK_MAX_SIZE: usize = 640;

const _: () = prove!(
    COMPRESSED_BLOCK_MAX_SIZE == COMPRESSION_BLOCK_SIZE * ii_io::vint::MAX_VINT_SIZE
);

/// Encodes blocks into its buffer, and returns the encoded bytes borrowed from it.
#[derive(Drop)]
pub struct BlockEncoder {
    output: [u8; COMPRESSED_BLOCK_MAX_SIZE],
}

impl BlockEncoder {
    /// Creates an encoder with an empty buffer.
    pub fn new() -> BlockEncoder {
        BlockEncoder {
            output: [0; COMPRESSED_BLOCK_MAX_SIZE],
        }
    }

    /// Packs a block of 128 strictly ascending values, by strict deltas after `offset`, in the least width.
    /// Returns the width, from 0 to 32, and the bytes. An offset other than 0 must be less than the first
    /// value.
    pub fn compress_block_sorted(&mut self, block: &[u32], offset: u32) -> (u8, &[u8])
        requires many { length block.now ≡ 128 }
        requires ascending { IsStrictlyIncreasing block.now }
        requires after { 0 < offset → offset < slice_index block.now 0 }
        ensures width { result.0 ≡ sorted_width offset block.now }
        ensures narrow { result.0 ≤ 32 }
        ensures bytes { result.1.now ≡ sorted_bytes offset block.now }
    {
        let (num_bits, size) = packed::pack_sorted(block, offset, &mut self.output);
        (num_bits, &self.output[..size])
    }

    /// Packs a block of 128 values in the least width, each minus one if `minus_one_encoded`; none may be 0
    /// then. Returns the width, from 0 to 32, and the bytes.
    pub fn compress_block_unsorted(&mut self, block: &[u32], minus_one_encoded: bool) -> (u8, &[u8])
        requires many { length block.now ≡ 128 }
        requires positive { OnTrue minus_one_encoded ((k : ℕ) → k < 128 → 0 < slice_index block.now k) }
        ensures width { result.0 ≡ unsorted_width minus_one_encoded block.now }
        ensures narrow { result.0 ≤ 32 }
        ensures bytes { result.1.now ≡ unsorted_bytes minus_one_encoded block.now }
    {
        let (num_bits, size) = packed::pack_unsorted(block, minus_one_encoded, &mut self.output);
        (num_bits, &self.output[..size])
    }
}

impl Default for BlockEncoder {
    fn default() -> BlockEncoder {
        BlockEncoder::new()
    }
}

/// Encoding of at most 128 values as vints.
pub trait VIntEncoder {
    /// Encodes the difference of each value to the one before it, starting at `offset`, as shortest vints.
    /// The values must not decrease, and the first must be at least `offset`.
    fn compress_vint_sorted(&mut self, input: &[u32], offset: u32) -> &[u8]
        requires few { length input.now ≤ 128 }
        requires sorted { DoNotFall offset input.now }
        ensures { result.now ≡ sorted_vints offset input.now };

    /// Encodes the values as shortest vints.
    fn compress_vint_unsorted(&mut self, input: &[u32]) -> &[u8]
        requires few { length input.now ≤ 128 }
        ensures { result.now ≡ unsorted_vints input.now };
}

impl VIntEncoder for BlockEncoder {
    fn compress_vint_sorted(&mut self, input: &[u32], offset: u32) -> &[u8] {
        vint::compress_sorted(input, &mut self.output, offset)
    }

    fn compress_vint_unsorted(&mut self, input: &[u32]) -> &[u8] {
        vint::compress_unsorted(input, &mut self.output)
    }
}
