//! A file that is read by ranges, of which the last read blocks are kept in memory.
ghost use Rattle.std.specs.Prelude.{◌≡◌, ◌<◌, ◌≤◌, ◌+◌, [], List, IfErr, IfOk, IsErrOf, Some, drop, length, take, ℕ};
ghost use Rattle.ii_block_file.specs.declared.faults.ReadFault.TheVariants as faults;

use crate::file_handle::FileHandle;
use bytes::Bytes;
use ii_block_file::ReadFault;
use ii_store::file_digest::BLOCK_LEN;
use std::alloc::{AllocError, Global};
use std::marker::Model;

/// A file of which the last read blocks are kept in memory, so that a search that reads a block many times seldom reads it
/// from the file again. A block has `BLOCK_LEN` bytes, and begins at a multiple of that in the file whose blocks are checked.
/// Each is kept in one place, in which it replaces another one.
#[derive(Drop)]
pub struct BlockCache<'a, H: FileHandle> {
    file: &'a H,
    start: u64,
    blocks: Vec<CachedBlock>,
}

// A block of a file: where it begins, and its bytes.
#[derive(Drop)]
struct CachedBlock {
    start: u64,
    bytes: Bytes,
}

// The places of blocks are the high bits of multiples of this number, 2^64 divided by the golden ratio. So two parts of a
// file that are read in turns seldom share places, whatever is between them.
const SPREAD: u64 = 0x9E37_79B9_7F4A_7C15;

// Where a block lies in a file: the number that says in which place it is kept, its first byte and its length.
#[derive(Clone, Copy)]
struct BlockRange {
    number: u64,
    start: u64,
    len: usize,
}

impl<'a, H: FileHandle> Model for BlockCache<'a, H> {
    ghost use Rattle.std.specs.Prelude.{◌<◌, length};
    ghost use Rattle.ii_file_slice.specs.BlockCache.{AreBlocksOf};

    ghost Value = { H };

    ghost view = { λ s. s.file.now };

    ghost invariant = { λ s. (0 < length s.blocks.items) × AreBlocksOf (H.bytes s.file.now) s.blocks.items };
}

impl<'a, H: FileHandle> BlockCache<'a, H> {
    /// Returns a cache of `num_blocks` blocks, and of one if this is 0. It keeps no block yet. `start` is where `file`
    /// begins in the file whose blocks are checked: 0 for a complete file, `FileSlice::start` for a range of one.
    pub fn new(
        alloc: Global,
        file: &'a H,
        start: u64,
        num_blocks: usize,
    ) -> Result<BlockCache<'a, H>, AllocError>
        ensures { IfOk result (λ cache. cache ≡ file.now) }
    {
        let mut blocks = Vec::new(alloc);
        blocks.push(empty_block())?;
        for _i in 1..num_blocks {
            blocks.push(empty_block())?;
        }
        Ok(BlockCache {
            file,
            start,
            blocks,
        })
    }

    /// Returns the length of the file, in bytes.
    pub fn len(&self) -> u64
        ensures { (bytes : List ℕ) → H.bytes self.now ≡ Some bytes → result ≡ length bytes }
    {
        self.file.len()
    }

    /// Returns `len` bytes of the file, from `from` on. A range within one block is taken from the block, which is read
    /// if it isn't kept yet. A range of several blocks is read from the file, and not kept.
    ///
    /// # Errors
    ///
    /// `Range` if the range doesn't end within the file; `Refused` or `Damaged` if its bytes, or others of its block,
    /// can't be read; `OutOfMemory`.
    pub fn read_bytes(&mut self, alloc: Global, from: u64, len: usize) -> Result<Bytes, ReadFault>
        ensures long { IfOk result (λ read. length read ≡ len) }
        ensures exact { (bytes : List ℕ) → H.bytes self.old ≡ Some bytes → IfOk result (λ read. read ≡ take len (drop from bytes)) }
        ensures file { self.new ≡ self.old }
        ensures range { (bytes : List ℕ) → H.bytes self.old ≡ Some bytes → IsErrOf result faults.Range → length bytes < from + len }
        ensures sound { (bytes : List ℕ) → H.bytes self.old ≡ Some bytes → H.is_sound self.old → from + len ≤ length bytes → IfErr result (λ e. e ≡ faults.OutOfMemory) }
    {
        let all = self.file.len();
        if from > all || len as u64 > all - from {
            return Err(ReadFault::Range);
        }
        let block = block_around(self.start, all, from);
        let skipped = (from - block.start) as usize;
        if len > block.len - skipped {
            return self.file.read_bytes(alloc, from, len);
        }
        self.read_in_block(alloc, block, skipped, len)
    }

    // Returns `len` bytes of a block, after `skipped` of them. Reads the block if it isn't kept.
    fn read_in_block(
        &mut self,
        alloc: Global,
        block: BlockRange,
        skipped: usize,
        len: usize,
    ) -> Result<Bytes, ReadFault>
        requires { skipped + len ≤ block.len }
        ensures long { IfOk result (λ read. length read ≡ len) }
        ensures exact { (bytes : List ℕ) → H.bytes self.old ≡ Some bytes → IfOk result (λ read. read ≡ take len (drop (block.start + skipped) bytes)) }
        ensures file { self.new ≡ self.old }
        ensures range { (bytes : List ℕ) → H.bytes self.old ≡ Some bytes → IsErrOf result faults.Range → length bytes < block.start + block.len }
        ensures sound { (bytes : List ℕ) → H.bytes self.old ≡ Some bytes → H.is_sound self.old → block.start + block.len ≤ length bytes → IfErr result (λ e. e ≡ faults.OutOfMemory) }
    {
        let place = place_of(block.number, self.blocks.len());
        let kept = &self.blocks[place];
        if kept.start == block.start && kept.bytes.len() == block.len {
            return Ok(kept.bytes.slice(skipped..skipped + len)?);
        }
        let bytes = match self.file.read_bytes(alloc, block.start, block.len) {
            Ok(bytes) => bytes,
            Err(fault) => return Err(fault),
        };
        let read = bytes.slice(skipped..skipped + len)?;
        self.blocks[place] = CachedBlock {
            start: block.start,
            bytes,
        };
        Ok(read)
    }
}

// Returns the place of a block, one of `num_blocks`.
fn place_of(number: u64, num_blocks: usize) -> usize
    requires { 0 < num_blocks }
    ensures { result < num_blocks }
{
    let spread = number.wrapping_mul(SPREAD) >> 32;
    (spread % num_blocks as u64) as usize
}

// Returns a block without bytes.
fn empty_block() -> CachedBlock
    ensures { result ≡ record { start = 0; bytes = [] } }
{
    CachedBlock {
        start: 0,
        bytes: Bytes::new(),
    }
}

// Returns the block that has byte `from`, of a file of `all` bytes that begins at `file_start` in the file whose blocks
// are checked. Of the first and the last block, only the part within the file.
fn block_around(file_start: u64, all: u64, from: u64) -> BlockRange
    requires { from ≤ all }
    ensures start { result.start ≤ from }
    ensures end { from ≤ result.start + result.len }
    ensures within { result.start + result.len ≤ all }
    ensures short { result.len ≤ 4096 }
{
    let block_len = BLOCK_LEN as u64;
    let place = from % block_len + file_start % block_len;
    let before = place % block_len;
    let start = from.saturating_sub(before);
    let len = (all - start).min(from - start + (block_len - before));
    BlockRange {
        number: from / block_len + place / block_len,
        start,
        len: len as usize,
    }
}
