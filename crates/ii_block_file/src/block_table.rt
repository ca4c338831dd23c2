//! The checksums of a file's blocks, in a table that has the file's digest.
ghost use Rattle.std.specs.Prelude.{◌≡◌, ◌<◌, ◌≤◌, ◌+◌, ◌-◌, ◌*◌, ◌++◌, IfErr, IfOk, IfSome, List, None, OnOk, Some, drop, false, length, take, true, ℕ};
ghost use Rattle.sha2.specs.Sha256.{sha256};
ghost use Rattle.ii_store.specs.FileDigest.{blocks, checksum_bytes};
ghost use Rattle.ii_store.specs.IndexMeta.{file_meta};
ghost use Rattle.ii_block_file.specs.BlockTable.{AreListed, IsTableFault, file_block, is_digest_of, lists_checksum, is_table, num_file_blocks, block_table_of};
ghost use Rattle.ii_block_file.specs.declared.faults.ReadFault.TheVariants as faults;

use crate::faults::ReadFault;
use ii_directory::{ReadAt, SegmentComponent};
use ii_store::file_digest::{BLOCK_LEN, checksum_of};
use ii_store::{FileDigest, FileMeta};
use sha2::{Digest, Sha256};
use std::alloc::{AllocError, Global};
use std::marker::Model;

// How many bytes of a file are read at a time, to make its table: 64 blocks.
const READ_LEN: usize = 262_144;

/// The length of a file, and the checksum of each of its blocks of `BLOCK_LEN` bytes, the last of which may be shorter.
#[derive(Drop)]
pub struct BlockTable {
    len: u64,
    bytes: Vec<u8>,
}

impl Model for BlockTable {
    ghost use Rattle.std.specs.Prelude.{◌≡◌, ◌*◌, length};
    ghost use Rattle.ii_block_file.specs.BlockTable.{BlockTableState, num_file_blocks};

    ghost Value = { BlockTableState };

    ghost view = { λ t. record { len = t.len; bytes = t.bytes.items } };

    ghost invariant = { λ t. length t.bytes.items ≡ 8 * num_file_blocks t.len };
}

impl BlockTable {
    /// Returns the table of a file with these bytes.
    pub fn of(alloc: Global, file: &[u8]) -> Result<BlockTable, AllocError>
        ensures { IfOk result (λ t. t ≡ block_table_of file.now) }
    {
        let mut bytes = Vec::new(alloc);
        push_checksums(&mut bytes, file)?;
        Ok(BlockTable {
            len: file.len() as u64,
            bytes,
        })
    }

    /// Returns the table of a file of `len` bytes. Reads them once, in order, 256 KiB at a time, and holds no more than
    /// that in memory, besides the table.
    ///
    /// # Errors
    ///
    /// `Refused` if the source refuses to read, with `UnexpectedEof` if the file is shorter; `OutOfMemory`.
    pub fn read<R: ReadAt>(alloc: Global, file: &R, len: u64) -> Result<BlockTable, ReadFault>
        ensures exact { (bytes : List ℕ) → R.bytes file.now ≡ Some bytes → length bytes ≡ len → IfOk result (λ t. t ≡ block_table_of bytes) }
        ensures len { IfOk result (λ t. t.len ≡ len) }
        ensures within { (bytes : List ℕ) → R.bytes file.now ≡ Some bytes → OnOk result (len ≤ length bytes) }
        ensures sound { (bytes : List ℕ) → R.bytes file.now ≡ Some bytes → len ≤ length bytes → IfErr result (λ e. e ≡ faults.OutOfMemory) }
        ensures fault { IfErr result (IsTableFault (R.bytes file.now) len) }
    {
        let mut buffer = Vec::new(alloc);
        let mut bytes = Vec::new(alloc);
        for place in 0..len.div_ceil(READ_LEN as u64) {
            let from = place * READ_LEN as u64;
            let part = (len - from).min(READ_LEN as u64) as usize;
            match read_checksums(file, from, part, &mut buffer, &mut bytes) {
                Ok(()) => {}
                Err(fault) => return Err(fault),
            }
        }
        Ok(BlockTable { len, bytes })
    }

    /// Takes the table of a file, given the file's length and its digest in `meta`. Returns `None` if these bytes aren't
    /// the table of a file of this length with this digest, or the digest isn't one of blocks of `BLOCK_LEN` bytes: such
    /// a digest is the SHA-256 of the table.
    pub fn open(len: u64, digest: &FileDigest, bytes: Vec<u8>) -> Option<BlockTable>
        ensures table { IfSome result (λ t. t ≡ record { len = len; bytes = bytes.items }) }
        ensures some { IfSome result (λ t. is_table len digest.now bytes.items ≡ true) }
        ensures none { result ≡ None → is_table len digest.now bytes.items ≡ false }
    {
        if !is_table(len, digest, bytes.as_slice()) {
            return None;
        }
        Some(BlockTable { len, bytes })
    }

    /// Returns the length of the file, in bytes.
    pub fn len(&self) -> u64
        ensures { result ≡ self.now.len }
    {
        self.len
    }

    /// Returns the bytes of the table: eight for each checksum, the lowest first.
    pub fn as_bytes(&self) -> &[u8]
        ensures { result.now ≡ self.now.bytes }
    {
        self.bytes.as_slice()
    }

    /// Returns what `meta` says of the file, as this component of a segment.
    pub fn file_meta(&self, component: SegmentComponent) -> FileMeta
        ensures value { result ≡ record { component = component; len = self.now.len; digest = FileDigest.Blocks (sha256 self.now.bytes) } }
        ensures file { (bytes : List ℕ) → self.now ≡ block_table_of bytes → result ≡ file_meta component bytes }
    {
        FileMeta {
            component,
            len: self.len(),
            digest: FileDigest::Blocks(Sha256::digest(self.as_bytes())),
        }
    }

    // Returns the first block, of these from one on, that has another checksum than the table lists.
    pub(crate) fn first_damage(&self, first: u64, bytes: &[u8]) -> Option<u64>
        requires { first + num_file_blocks (length bytes.now) ≤ num_file_blocks self.now.len }
        ensures none { result ≡ None → AreListed self.now first bytes.now }
        ensures some { IfSome result (λ k. (first ≤ k) × (k < first + num_file_blocks (length bytes.now)) × (lists_checksum self.now k (file_block (k - first) bytes.now) ≡ false)) }
    {
        // that there are fewer than 2^64 blocks, for the proof
        let _table = self.bytes.len();
        for place in 0..bytes.len().div_ceil(BLOCK_LEN) {
            let block_id = first + place as u64;
            if !self.lists(block_id, file_block(bytes, place)) {
                return Some(block_id);
            }
        }
        None
    }

    // Returns whether the table lists the checksum of a block.
    fn lists(&self, block_id: u64, block: &[u8]) -> bool
        requires { block_id < num_file_blocks self.now.len }
        ensures { result ≡ lists_checksum self.now block_id block.now }
    {
        let table = self.bytes.as_slice();
        let from = 8 * block_id as usize;
        &table[from..from + 8] == checksum_of(block).to_le_bytes().as_slice()
    }
}

// Returns whether bytes are the table of a file with this length and this digest.
fn is_table(len: u64, digest: &FileDigest, bytes: &[u8]) -> bool
    ensures { result ≡ is_table len digest.now bytes.now }
{
    if !bytes.len().is_multiple_of(8)
        || (bytes.len() / 8) as u64 != len.div_ceil(BLOCK_LEN as u64)
    {
        return false;
    }
    is_digest_of(digest, bytes)
}

// Returns whether a digest is that of the blocks of a file with this table.
pub(crate) fn is_digest_of(digest: &FileDigest, bytes: &[u8]) -> bool
    ensures { result ≡ is_digest_of digest.now bytes.now }
{
    match digest {
        FileDigest::Sha256(_) | FileDigest::LongBlocks(_) => false,
        FileDigest::Blocks(digest) => digest.as_slice() == Sha256::digest(bytes).as_slice(),
    }
}

// Reads `len` bytes of a file, from `from` on, and appends the checksums of their blocks. `buffer` is for the bytes.
fn read_checksums<R: ReadAt>(
    file: &R,
    from: u64,
    len: usize,
    buffer: &mut Vec<u8>,
    checksums: &mut Vec<u8>,
) -> Result<(), ReadFault>
    ensures count { OnOk result (length checksums.new.items ≡ length checksums.old.items + 8 * num_file_blocks len) }
    ensures within { (bytes : List ℕ) → R.bytes file.now ≡ Some bytes → OnOk result (from + len ≤ length bytes) }
    ensures exact { (bytes : List ℕ) → R.bytes file.now ≡ Some bytes → OnOk result (checksums.new.items ≡ checksums.old.items ++ checksum_bytes (blocks 4096 (take len (drop from bytes)))) }
    ensures fault { IfErr result (IsTableFault (R.bytes file.now) (from + len)) }
{
    buffer.resize(len, 0u8)?;
    match file.read_exact_at(buffer.as_mut_slice(), from) {
        Ok(()) => {}
        Err(kind) => return Err(ReadFault::Refused(kind)),
    }
    push_checksums(checksums, buffer.as_slice())?;
    Ok(())
}

// Appends the checksums of the blocks of a part of a file.
fn push_checksums(checksums: &mut Vec<u8>, part: &[u8]) -> Result<(), AllocError>
    ensures { OnOk result (checksums.new.items ≡ checksums.old.items ++ checksum_bytes (blocks 4096 part.now)) }
{
    for place in 0..part.len().div_ceil(BLOCK_LEN) {
        let checksum = checksum_of(file_block(part, place)).to_le_bytes();
        checksums.extend_from_slice(&checksum)?;
    }
    Ok(())
}

// Returns a block of a file.
fn file_block(file: &[u8], place: usize) -> &[u8]
    requires { place < num_file_blocks (length file.now) }
    ensures { result.now ≡ file_block place file.now }
{
    let from = place * BLOCK_LEN;
    let len = BLOCK_LEN.min(file.len() - from);
    &file[from..from + len]
}
