//! A file that is read by ranges, each of which is checked.
ghost use Rattle.std.specs.Prelude.{◌≡◌, ◌<◌, ◌≤◌, ◌+◌, ◌-◌, ◌*◌, List, IfErr, IfOk, Some, drop, length, min, take, ℕ};
ghost use Rattle.ii_block_file.specs.BlockTable.{AreListed, IsRange, IsReadFault, num_file_blocks, block_table_of};
ghost use Rattle.ii_block_file.specs.declared.faults.ReadFault.TheVariants as faults;

use crate::block_table::BlockTable;
use crate::faults::ReadFault;
use bytes::Bytes;
use ii_directory::ReadAt;
use ii_store::file_digest::BLOCK_LEN;
use std::alloc::Global;
use std::marker::Model;

/// A file with the table of its blocks. Whatever it holds, no byte of a block is handed on that has another checksum than
/// its table says.
#[derive(Drop)]
pub struct BlockFile<R: ReadAt> {
    source: R,
    table: BlockTable,
}

impl<R: ReadAt> BlockFile<R> {
    /// Reads a file by its table.
    pub fn new(source: R, table: BlockTable) -> BlockFile<R>
        ensures source { result.source ≡ source }
        ensures table { result.table ≡ table }
    {
        BlockFile { source, table }
    }

    /// Returns the length of the file, in bytes.
    pub fn len(&self) -> u64
        ensures { result ≡ self.now.table.len }
    {
        self.table.len()
    }

    /// Returns `len` bytes of the file, from `from` on. Reads the blocks that have one of them, by one call of
    /// `read_exact_at`, and nothing if there is none.
    ///
    /// # Errors
    ///
    /// `Range` if the range doesn't end within the file; `Damaged` with the first of these blocks that has another
    /// checksum than its table says; `Refused` if the source refuses to read; `OutOfMemory`.
    pub fn read(&self, alloc: Global, from: u64, len: usize) -> Result<Bytes, ReadFault>
        ensures checked { IfOk result (λ bytes. IsRange self.now.table from len bytes) }
        ensures exact { (file : List ℕ) → R.bytes self.now.source ≡ Some file → length file ≡ self.now.table.len → IfOk result (λ bytes. bytes ≡ take len (drop from file)) }
        ensures sound { (file : List ℕ) → R.bytes self.now.source ≡ Some file → self.now.table ≡ block_table_of file → from + len ≤ length file → IfErr result (λ e. e ≡ faults.OutOfMemory) }
        ensures fault { IfErr result (IsReadFault self.now.table (R.bytes self.now.source) from len) }
    {
        if from > self.table.len() || len as u64 > self.table.len() - from {
            return Err(ReadFault::Range);
        }
        if len == 0 {
            return Ok(Bytes::new());
        }
        let first = from / BLOCK_LEN as u64;
        let last = (from + (len as u64 - 1)) / BLOCK_LEN as u64;
        let blocks = match self.read_blocks(alloc, first, last) {
            Ok(blocks) => blocks,
            Err(fault) => return Err(fault),
        };
        let skipped = (from % BLOCK_LEN as u64) as usize;
        Ok(blocks.slice(skipped..skipped + len)?)
    }

    // Returns the blocks from `first` to `last`, if they have their checksums.
    fn read_blocks(&self, alloc: Global, first: u64, last: u64) -> Result<Bytes, ReadFault>
        requires order { first ≤ last }
        requires within { last < num_file_blocks self.now.table.len }
        ensures listed { IfOk result (λ bytes. AreListed self.now.table first bytes) }
        ensures long { IfOk result (λ bytes. length bytes ≡ min ((last + 1) * 4096) self.now.table.len - first * 4096) }
        ensures exact { (file : List ℕ) → R.bytes self.now.source ≡ Some file → length file ≡ self.now.table.len → IfOk result (λ bytes. bytes ≡ take (length bytes) (drop (first * 4096) file)) }
        ensures fault { IfErr result (IsReadFault self.now.table (R.bytes self.now.source) 0 0) }
    {
        let len = self.table.len();
        let start = first * BLOCK_LEN as u64;
        let rest = len - start;
        let most = (last - first + 1).saturating_mul(BLOCK_LEN as u64);
        let bytes = match self.fill(alloc, start, rest.min(most) as usize) {
            Ok(bytes) => bytes,
            Err(fault) => return Err(fault),
        };
        match self.table.first_damage(first, bytes.as_slice()) {
            Some(block) => Err(ReadFault::Damaged(block)),
            None => Ok(Bytes::from_vec(bytes)?),
        }
    }

    // Returns `len` bytes of the file, from `start` on, as they are.
    fn fill(&self, alloc: Global, start: u64, len: usize) -> Result<Vec<u8>, ReadFault>
        requires within { start + len ≤ self.now.table.len }
        ensures long { IfOk result (λ v. length v.items ≡ len) }
        ensures exact { (file : List ℕ) → R.bytes self.now.source ≡ Some file → length file ≡ self.now.table.len → IfOk result (λ v. v.items ≡ take len (drop start file)) }
        ensures fault { IfErr result (IsReadFault self.now.table (R.bytes self.now.source) 0 0) }
    {
        let mut bytes = Vec::new(alloc);
        bytes.resize(len, 0u8)?;
        match self.source.read_exact_at(bytes.as_mut_slice(), start) {
            Ok(()) => Ok(bytes),
            Err(kind) => Err(ReadFault::Refused(kind)),
        }
    }
}
