//! The checkpoint of a block: where it ends, and its digest.
ghost use Rattle.std.specs.Prelude.{◌≡◌, ◌≤◌, ◌++◌, length, take, OnOk};
ghost use Rattle.std.specs.Int.{w32, w64, from_le_bytes};
ghost use Rattle.ii_doc_store.specs.StoreFormat.{checkpoint_bytes};
ghost use Rattle.ii_doc_store.specs.StoreReader.{checkpoint_in};

use std::alloc::AllocError;

/// The length of a checkpoint in the index, in bytes.
pub(crate) const CHECKPOINT_LEN: usize = 44;

/// The length of the footer in bytes.
pub(crate) const FOOTER_LEN: usize = 48;

/// What the index has of a block.
#[derive(Clone, Copy, Debug, PartialEq, Eq)]
pub struct Checkpoint {
    /// The number of documents up to the end of the block.
    pub doc_end: u32,
    /// The number of bytes of the store up to the end of the block.
    pub byte_end: u64,
    /// The SHA-256 of the block.
    pub digest: [u8; 32],
}

/// Where a block lies in a store.
#[derive(Clone, Copy, Debug, PartialEq, Eq)]
pub struct BlockPlace {
    /// The number of the block, from 0.
    pub number: u64,
    /// The number of its first document.
    pub first_doc: u32,
    /// The number of documents up to its end.
    pub doc_end: u32,
    /// The number of bytes of the store before the block.
    pub start: u64,
    /// The number of bytes of the store up to the end of the block.
    pub end: u64,
    /// The SHA-256 of the block.
    pub digest: [u8; 32],
}

// Appends a checkpoint to an index: `doc_end` (4), `byte_end` (8), digest (32).
#[tactic(auto, unfolding(crate::specs::StoreFormat::checkpoint_bytes))]
pub(crate) fn push_checkpoint(
    index: &mut Vec<u8>,
    checkpoint: &Checkpoint,
) -> Result<(), AllocError>
    ensures { OnOk result (index.new.items ≡ index.old.items ++ checkpoint_bytes checkpoint.now) }
{
    index.extend_from_slice(&checkpoint.doc_end.to_le_bytes())?;
    index.extend_from_slice(&checkpoint.byte_end.to_le_bytes())?;
    index.extend_from_slice(&checkpoint.digest)
}

// Reads the checkpoint in 44 bytes.
#[tactic(auto, unfolding(crate::specs::StoreReader::checkpoint_in))]
pub(crate) fn read_checkpoint(bytes: &[u8]) -> Checkpoint
    requires { length bytes.now ≡ 44 }
    ensures { result ≡ checkpoint_in bytes.now }
{
    let (_, rest) = bytes.split_at(4);
    let (_, after) = bytes.split_at(12);
    let mut digest = [0; 32];
    digest.copy_from_slice(after);
    Checkpoint {
        doc_end: read_u32(bytes),
        byte_end: read_u64(rest),
        digest,
    }
}

// Reads the number in the first 4 bytes, low byte first.
pub(crate) fn read_u32(bytes: &[u8]) -> u32
    requires { 4 ≤ length bytes.now }
    ensures { result ≡ from_le_bytes w32 (take 4 bytes.now) }
{
    let (front, _) = bytes.split_at(4);
    u32::from_le_bytes([front[0], front[1], front[2], front[3]])
}

// Reads the number in the first 8 bytes, low byte first.
pub(crate) fn read_u64(bytes: &[u8]) -> u64
    requires { 8 ≤ length bytes.now }
    ensures { result ≡ from_le_bytes w64 (take 8 bytes.now) }
{
    let (front, _) = bytes.split_at(8);
    u64::from_le_bytes([
        front[0], front[1], front[2], front[3], front[4], front[5], front[6], front[7],
    ])
}
