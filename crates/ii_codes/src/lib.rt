//! Compression of blocks: vints, bit packing, the encoder and decoder of blocks, and the search in a block.
#![tactic(auto)]

ghost use Rattle.std.specs.Prelude.{◌≡◌, ◌*◌};

pub mod bitpacker;
pub mod block_search;
pub mod decoder;
pub mod encoder;
pub mod packed;
pub mod vint;

pub use bitpacker::{BitPacker, compute_num_bits, extract_bits};
pub use block_search::branchless_binary_search;
pub use decoder::{BlockDecoder, VIntDecoder};
pub use encoder::{BlockEncoder, VIntEncoder};
pub use packed::last_of_sorted_block;

/// The number of values in a block.
pub const COMPRESSION_BLOCK_SIZE: usize = 128;

/// Returns the number of bytes of a packed block with `num_bits` bits per entry.
pub fn compressed_block_size(num_bits: u8) -> usize
    ensures { result ≡ 16 * num_bits }
{
    usize::from(num_bits) * COMPRESSION_BLOCK_SIZE / 8
}
