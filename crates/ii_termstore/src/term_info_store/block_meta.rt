ghost use Rattle.std.specs.Prelude.{◌≡◌, ◌<◌, ◌^◌, ◌∷◌, [], length, Option, Some, IfNone};
ghost use Rattle.std.specs.Option.{option_map};
ghost use Rattle.ii_io.specs.Numbers.{number_at};

use crate::term_info::{TermInfo, put_info, put_u64};
use ii_io::{BinarySerializable, CountingWriter, Fault, FixedSize};
use std::io::Write;

/// The greatest bit width of a document frequency.
pub const MAX_DOC_FREQ_NBITS: u8 = 32;

/// The greatest bit width of an offset of postings or positions, relative to the first term's.
pub const MAX_OFFSET_NBITS: u8 = 56;

/// What a block of terms holds apart from its bits.
#[derive(Debug, PartialEq, Eq, Drop)]
pub struct TermInfoBlockMeta {
    /// The byte where the block's bits begin, relative to the first bits of the store.
    pub offset: u64,
    /// The first term of the block.
    pub ref_term_info: TermInfo,
    /// The bit width of a document frequency, at most `MAX_DOC_FREQ_NBITS` where it is read.
    pub doc_freq_nbits: u8,
    /// The bit width of the start of a term's postings, relative to the first term's.
    pub postings_offset_nbits: u8,
    /// The bit width of the start of a term's positions, relative to the first term's.
    pub positions_offset_nbits: u8,
}

impl Default for TermInfoBlockMeta {
    ghost use Rattle.std.specs.Prelude.{◌≡◌};
    ghost use Rattle.ii_termstore.specs.TermInfos.{term_info_from};

    ghost is_default = { λ m. m ≡ record { offset = 0; ref_term_info = term_info_from 0 0 0 0 0; doc_freq_nbits = 0; postings_offset_nbits = 0; positions_offset_nbits = 0 } };

    fn default() -> TermInfoBlockMeta {
        TermInfoBlockMeta {
            offset: 0,
            ref_term_info: TermInfo::default(),
            doc_freq_nbits: 0,
            postings_offset_nbits: 0,
            positions_offset_nbits: 0,
        }
    }
}

/// Takes 39 bytes: `offset` in 8, little-endian, the first term in 28, then the widths of `doc_freq`,
/// postings and positions in one each.
impl BinarySerializable for TermInfoBlockMeta {
    ghost use Rattle.std.specs.Prelude.{◌<◌, ◌^◌};
    ghost use Rattle.ii_termstore.specs.TermInfos.{HasLengths, IsInRange};
    ghost use Rattle.ii_termstore.specs.TermStore.{meta_bytes, meta_at};
    ghost use Rattle.ii_termstore.specs.TermStoreLemmas.{reads_meta_back};

    ghost bytes_of = { λ m. meta_bytes m };

    ghost value_at = { λ bytes. meta_at bytes };

    ghost can_serialize = { λ m. HasLengths m.ref_term_info };

    ghost in_range = { λ m. (m.offset < 256 ^ 8) × IsInRange m.ref_term_info };

    ghost reads_back = { λ m rest range lengths. reads_meta_back m rest range.0 range.1 lengths };

    fn serialize<W: Write>(&self, writer: &mut CountingWriter<W>) -> Result<(), Fault> {
        let mut bytes = [0; Self::SIZE_IN_BYTES];
        put_meta(&mut bytes, self);
        writer.write_all(&bytes)
    }

    #[tactic(auto, unfolding(crate::specs::TermStore::meta_at))]
    fn deserialize(reader: &mut &[u8]) -> Option<TermInfoBlockMeta> {
        let mut rest = *reader;
        let Some(offset) = u64::deserialize(&mut rest) else {
            return None;
        };
        let Some(ref_term_info) = TermInfo::deserialize(&mut rest) else {
            return None;
        };
        let Some(doc_freq_nbits) = take_byte(&mut rest) else {
            return None;
        };
        let Some(postings_offset_nbits) = take_byte(&mut rest) else {
            return None;
        };
        let Some(positions_offset_nbits) = take_byte(&mut rest) else {
            return None;
        };
        *reader = rest;
        Some(TermInfoBlockMeta {
            offset,
            ref_term_info,
            doc_freq_nbits,
            postings_offset_nbits,
            positions_offset_nbits,
        })
    }
}

impl FixedSize for TermInfoBlockMeta {
    ghost use Rattle.ii_termstore.specs.TermStore.{meta_size};
    ghost use Rattle.ii_termstore.specs.TermStoreLemmas.{length_meta_bytes};

    const SIZE_IN_BYTES: usize = 39;

    ghost SIZE_IN_BYTES = { meta_size };

    ghost has_size = { λ i. length_meta_bytes i };
}

ghost use Rattle.ii_termstore.specs.TermInfos.{HasLengths, IsInRange};
ghost use Rattle.ii_termstore.specs.TermStore.{meta_size, meta_bytes};

// Writes the bytes of a meta to a buffer of their size.
#[tactic(auto, unfolding(crate::specs::TermStore::meta_bytes))]
pub(super) fn put_meta(buf: &mut [u8], meta: &TermInfoBlockMeta)
    requires room { length buf.old ≡ meta_size }
    requires lengths { HasLengths meta.now.ref_term_info }
    ensures bytes { buf.new ≡ meta_bytes meta.now }
    ensures range { (meta.now.offset < 256 ^ 8) × IsInRange meta.now.ref_term_info }
{
    let (offset, rest) = buf.split_at_mut(8);
    let (info, widths) = rest.split_at_mut(TermInfo::SIZE_IN_BYTES);
    put_u64(offset, meta.offset);
    put_info(info, &meta.ref_term_info);
    put_widths(widths, meta);
}

fn put_widths(buf: &mut [u8], meta: &TermInfoBlockMeta)
    requires { length buf.old ≡ 3 }
    ensures { buf.new ≡ meta.now.doc_freq_nbits ∷ meta.now.postings_offset_nbits ∷ meta.now.positions_offset_nbits ∷ [] }
{
    let widths = [
        meta.doc_freq_nbits,
        meta.postings_offset_nbits,
        meta.positions_offset_nbits,
    ];
    buf.copy_from_slice(&widths);
}

// Reads a byte from the front.
fn take_byte(reader: &mut &[u8]) -> Option<u8>
    ensures value { option_map (λ b. (b, reader.new.now)) result ≡ number_at 1 reader.old.now }
    ensures stays { IfNone result (reader.new.now ≡ reader.old.now) }
{
    let bytes = *reader;
    if bytes.len() < 1 {
        return None;
    }
    *reader = &bytes[1..];
    Some(bytes[0])
}
