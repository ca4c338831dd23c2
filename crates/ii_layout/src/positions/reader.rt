ghost use Rattle.std.specs.Prelude.{◌≡◌, ◌+◌, ◌/◌, ◌^◌, ◌≤◌, length, take, drop, nat_lt, Some, None, IfOk, IfErr, OnErr};
ghost use Rattle.std.specs.List.{sum};
ghost use Rattle.ii_io.specs.Faults.{OnlyMemory};
ghost use Rattle.ii_layout.specs.PositionReader.{DecodesEachOnce, LieInBlock, block_kept};
ghost use Rattle.ii_layout.specs.Positions.{position_deltas};

use super::blocks::PositionBlocks;
use super::copy_into;
use bytes::Bytes;
use ii_codes::{BlockDecoder, COMPRESSION_BLOCK_SIZE};
use ii_io::{Fault, LayoutFault, Part};
use std::marker::Model;

/// Reads any range of the deltas of a term's positions, all documents one after the other. The model is these
/// deltas and the number of decodes.
///
/// It keeps the bytes, the places of up to 64 blocks, and the block that was decoded last. Reading within
/// that block decodes nothing.
pub struct PositionReader {
    blocks: PositionBlocks,
}

// A drop has to be a call.
impl Drop for PositionReader {
    fn drop(self) {
        let PositionReader { blocks: _ } = self;
    }
}

impl Model for PositionReader {
    ghost use Rattle.ii_layout.specs.PositionReader.{PositionReaderState};

    ghost Value = { PositionReaderState };

    ghost view = { λ r. record { deltas = r.blocks.deltas; block = r.blocks.block; decodes = r.blocks.decodes } };
}

impl PositionReader {
    /// Opens the deltas that `bytes` holds, and decodes the deltas after the full blocks. Validates each
    /// width, but decodes no other block.
    ///
    /// The bytes are:
    /// * the number of full blocks, a vint of up to 10 bytes;
    /// * the width of each, one byte from 0 to 32;
    /// * the blocks, each with 16 bytes per bit of its width;
    /// * fewer than 128 further deltas, each a vint of up to 5 bytes, to the end of the bytes.
    ///
    /// Returns `Damaged(Positions)` if `bytes` holds no such list. Never allocates.
    pub fn open(bytes: Bytes) -> Result<PositionReader, LayoutFault>
        ensures ok { IfOk result (λ reader. position_deltas bytes ≡ Some reader.deltas) }
        ensures block { IfOk result (λ reader. reader.block ≡ length reader.deltas / 128) }
        ensures decodes { IfOk result (λ reader. reader.decodes ≤ 1) }
        ensures refused { OnErr result (position_deltas bytes ≡ None) }
        ensures err { IfErr result (λ fault. fault ≡ LayoutFault.Damaged Part.Positions) }
    {
        let blocks = match PositionBlocks::open(bytes) {
            Ok(blocks) => blocks,
            Err(fault) => return Err(fault),
        };
        Ok(PositionReader { blocks })
    }

    /// Returns the number of deltas.
    pub fn len(&self) -> u128
        ensures { result ≡ length self.now.deltas }
    {
        self.blocks.len()
    }

    /// Returns whether the sum of all deltas fits in 32 bits. If so, each position does, however the deltas
    /// are divided among documents. Decodes each full block at most once, in `block_decoder`, and doesn't
    /// change the reader.
    pub fn has_small_sum(&self, block_decoder: &mut BlockDecoder) -> bool
        ensures small { result ≡ nat_lt (sum self.now.deltas) (2 ^ 32) }
        ensures decodes { self.now.block ≡ length self.now.deltas / 128 → block_decoder.new.decodes ≤ block_decoder.old.decodes + length self.now.deltas / 128 }
    {
        self.blocks.has_small_sum(block_decoder)
    }

    /// Fills `output` with the deltas from `offset` on, all of which must exist. Decodes only the blocks that
    /// hold them, except the block that is kept, and then keeps the last of these blocks.
    pub fn read(&mut self, offset: u64, output: &mut [u32])
        requires inside { offset + length output.old ≤ length self.old.deltas }
        ensures read { output.new ≡ take (length output.old) (drop offset self.old.deltas) }
        ensures deltas { self.new.deltas ≡ self.old.deltas }
        ensures decodes { self.new.decodes ≤ self.old.decodes + length output.old / 128 + 2 }
        ensures kept { self.old.decodes ≤ self.new.decodes }
        ensures once { DecodesEachOnce offset (length output.old) self.old self.new }
        // The block that the reader keeps.
        ensures held { LieInBlock self.old.block offset (length output.old) → self.new.decodes ≡ self.old.decodes }
        ensures block { self.new.block ≡ block_kept self.old.block offset (length output.old) }
    {
        let mut block = (offset / COMPRESSION_BLOCK_SIZE as u64) as usize;
        let mut start = (offset % COMPRESSION_BLOCK_SIZE as u64) as usize;
        let mut done = 0;
        while done < output.len() {
            self.blocks.load(block);
            done += copy_into(self.blocks.held(), start, output, done);
            block += 1;
            start = 0;
        }
    }

    /// Opens a reader of the same deltas that has decoded at most one block. Never allocates.
    pub fn anew(self) -> PositionReader
        ensures deltas { result.deltas ≡ self.deltas }
        ensures block { result.block ≡ length result.deltas / 128 }
        ensures decodes { result.decodes ≤ 1 }
    {
        let PositionReader { blocks } = self;
        PositionReader {
            blocks: blocks.anew(),
        }
    }

    /// Clones the reader with its block and its number of decodes. The bytes are shared. Returns
    /// `OutOfMemory` if an allocation fails.
    pub fn clone(&self) -> Result<PositionReader, Fault>
        ensures same { IfOk result (λ reader. reader ≡ self.now) }
        ensures only { OnlyMemory result }
    {
        let blocks = self.blocks.clone()?;
        Ok(PositionReader { blocks })
    }
}
