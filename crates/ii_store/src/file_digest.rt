//! The digest of a file of a segment, by which `meta` tells that the file was changed (docs/FORMATS).
ghost use Rattle.std.specs.Prelude.{◌≡◌, ◌<◌, bytes_eq};
ghost use Rattle.ii_store.specs.FileDigest.{block_checksum, blocks_digest, digest_items, digest_kind, has_digest};

use crate::meta::is_checksum;
use sha2::{Digest, Sha256};
use std::hash::{DefaultHasher, Hasher};

/// The number of bytes of a block, whose checksum a new digest takes. The last block of a file may be shorter.
pub const BLOCK_LEN: usize = 4_096;

// The number of bytes of a block in the digests that earlier programs wrote.
const LONG_BLOCK_LEN: usize = 65_536;

/// The digest of a file. It tells whether the file was changed by accident, not whether somebody forged it, who
/// can change `meta` too.
#[derive(Clone, Copy, Debug, PartialEq, Eq)]
pub enum FileDigest {
    /// The SHA-256 of the file, as lists of version 2 have it.
    Sha256([u8; 32]),
    /// The SHA-256 of the checksums of its blocks of 65,536 bytes, as earlier programs wrote it in version 3.
    LongBlocks([u8; 32]),
    /// The SHA-256 of the checksums of its blocks of `BLOCK_LEN` bytes, which are computed some twenty times as fast as the
    /// SHA-256 of the file.
    Blocks([u8; 32]),
}

impl FileDigest {
    /// Returns the digest that a new list has of a file with these bytes: that of its blocks.
    pub fn new(file: &[u8]) -> FileDigest
        ensures { result ≡ FileDigest.Blocks (blocks_digest 4096 file.now) }
    {
        FileDigest::Blocks(digest_of_blocks(file, BLOCK_LEN))
    }

    /// Returns whether it is the digest of a file with these bytes.
    #[tactic(auto, unfolding(crate::specs::FileDigest::has_digest))]
    pub fn is_of(&self, file: &[u8]) -> bool
        ensures { result ≡ has_digest self.now file.now }
    {
        match self {
            FileDigest::Sha256(digest) => is_checksum(digest, file),
            FileDigest::LongBlocks(digest) => is_digest_of_blocks(digest, file, LONG_BLOCK_LEN),
            FileDigest::Blocks(digest) => is_digest_of_blocks(digest, file, BLOCK_LEN),
        }
    }

    /// Returns the number of its kind in `meta`: 0 for a SHA-256, 1 for long blocks, 2 for blocks.
    pub fn kind(self) -> u8
        ensures { result ≡ digest_kind self }
    {
        match self {
            FileDigest::Sha256(_) => 0,
            FileDigest::LongBlocks(_) => 1,
            FileDigest::Blocks(_) => 2,
        }
    }

    // Returns its bytes.
    pub(crate) fn to_bytes(self) -> [u8; 32]
        ensures { result ≡ digest_items self }
    {
        match self {
            FileDigest::Sha256(digest) => digest,
            FileDigest::LongBlocks(digest) => digest,
            FileDigest::Blocks(digest) => digest,
        }
    }
}

// Returns whether `digest` is the digest of the blocks of a file.
fn is_digest_of_blocks(digest: &[u8], file: &[u8], block_len: usize) -> bool
    requires { 0 < block_len }
    ensures { result ≡ bytes_eq digest.now (blocks_digest block_len file.now) }
{
    digest == digest_of_blocks(file, block_len).as_slice()
}

// Returns the SHA-256 of the checksums of a file's blocks.
#[tactic(auto, unfolding(crate::specs::FileDigest::blocks_digest))]
fn digest_of_blocks(file: &[u8], block_len: usize) -> [u8; 32]
    requires { 0 < block_len }
    ensures { result ≡ blocks_digest block_len file.now }
{
    let mut checksums = Sha256::new();
    for block in file.chunks(block_len) {
        checksums.update(checksum_of(block).to_le_bytes());
    }
    checksums.finalize()
}

/// Returns the checksum of a block: its SipHash-1-3 with both keys 0.
#[tactic(auto, unfolding(crate::specs::FileDigest::block_checksum))]
pub fn checksum_of(block: &[u8]) -> u64
    ensures { result ≡ block_checksum block.now }
{
    let mut hasher = DefaultHasher::new();
    hasher.write(block);
    hasher.finish()
}
