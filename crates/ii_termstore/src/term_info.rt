ghost use Rattle.std.specs.Prelude.{◌≡◌, ◌-◌, ◌^◌, ◌<◌, ◌≤◌, length, Option, Some};
ghost use Rattle.ii_io.specs.Numbers.{le_bytes};

use byteorder::{ByteOrder, LittleEndian};
use ii_io::{BinarySerializable, CountingWriter, Fault, FixedSize};
use std::alloc::AllocError;
use std::io::Write;
use std::ops::Range;

/// Describes a term: its document frequency, and where its postings and positions are.
#[derive(Debug, PartialEq, Eq, Drop)]
pub struct TermInfo {
    /// The number of documents that contain the term.
    pub doc_freq: u32,
    /// The byte range of its postings.
    pub postings_range: Range<usize>,
    /// The byte range of its positions.
    pub positions_range: Range<usize>,
}

impl TermInfo {
    /// Returns the number of bytes of its postings.
    pub fn posting_num_bytes(&self) -> u32
        requires forward { self.now.postings_range.start ≤ self.now.postings_range.end }
        requires short { self.now.postings_range.end - self.now.postings_range.start < 2 ^ 32 }
        ensures { result ≡ self.now.postings_range.end - self.now.postings_range.start }
    {
        (self.postings_range.end - self.postings_range.start) as u32
    }

    /// Returns the number of bytes of its positions.
    pub fn positions_num_bytes(&self) -> u32
        requires forward { self.now.positions_range.start ≤ self.now.positions_range.end }
        requires short { self.now.positions_range.end - self.now.positions_range.start < 2 ^ 32 }
        ensures { result ≡ self.now.positions_range.end - self.now.positions_range.start }
    {
        (self.positions_range.end - self.positions_range.start) as u32
    }

    /// Returns a copy. Never allocates.
    pub fn copied(&self) -> TermInfo
        ensures { result ≡ self.now }
    {
        TermInfo {
            doc_freq: self.doc_freq,
            postings_range: self.postings_range.start..self.postings_range.end,
            positions_range: self.positions_range.start..self.positions_range.end,
        }
    }
}

impl Default for TermInfo {
    ghost use Rattle.std.specs.Prelude.{◌≡◌};
    ghost use Rattle.ii_termstore.specs.TermInfos.{term_info_from};

    ghost is_default = { λ i. i ≡ term_info_from 0 0 0 0 0 };

    fn default() -> TermInfo {
        TermInfo {
            doc_freq: 0,
            postings_range: 0..0,
            positions_range: 0..0,
        }
    }
}

/// Never allocates.
impl Clone for TermInfo {
    ghost use Rattle.std.specs.Prelude.{◌≡◌, ⊤};

    ghost is_clone = { λ old new. new ≡ old };

    ghost is_infallible = { λ _. ⊤ };

    fn clone(&self) -> Result<TermInfo, AllocError> {
        Ok(self.copied())
    }
}

/// Takes 28 bytes, numbers little-endian: `doc_freq` in 4, the start of the postings in 8 and their length in
/// 4, the start of the positions in 8 and their length in 4.
impl BinarySerializable for TermInfo {
    ghost use Rattle.ii_termstore.specs.TermInfos.{info_bytes, info_at, HasLengths, IsInRange};
    ghost use Rattle.ii_termstore.specs.TermInfoLemmas.{reads_info_back};

    ghost bytes_of = { λ i. info_bytes i };

    ghost value_at = { λ bytes. info_at bytes };

    ghost can_serialize = { λ i. HasLengths i };

    ghost in_range = { λ i. IsInRange i };

    ghost reads_back = { λ i rest range lengths. reads_info_back i rest range lengths };

    fn serialize<W: Write>(&self, writer: &mut CountingWriter<W>) -> Result<(), Fault> {
        let mut bytes = [0; Self::SIZE_IN_BYTES];
        put_info(&mut bytes, self);
        writer.write_all(&bytes)
    }

    #[tactic(auto, unfolding(crate::specs::TermInfos::info_at))]
    fn deserialize(reader: &mut &[u8]) -> Option<TermInfo> {
        let mut rest = *reader;
        let Some(doc_freq) = u32::deserialize(&mut rest) else {
            return None;
        };
        let Some(postings) = u64::deserialize(&mut rest) else {
            return None;
        };
        let Some(postings_len) = u32::deserialize(&mut rest) else {
            return None;
        };
        let Some(positions) = u64::deserialize(&mut rest) else {
            return None;
        };
        let Some(positions_len) = u32::deserialize(&mut rest) else {
            return None;
        };
        let Some(postings_end) = postings.checked_add(u64::from(postings_len)) else {
            return None;
        };
        let Some(positions_end) = positions.checked_add(u64::from(positions_len)) else {
            return None;
        };
        *reader = rest;
        Some(TermInfo {
            doc_freq,
            postings_range: postings as usize..postings_end as usize,
            positions_range: positions as usize..positions_end as usize,
        })
    }
}

impl FixedSize for TermInfo {
    ghost use Rattle.ii_termstore.specs.TermInfos.{info_size};
    ghost use Rattle.ii_termstore.specs.TermInfoLemmas.{length_info_bytes};

    const SIZE_IN_BYTES: usize = 28;

    ghost SIZE_IN_BYTES = { info_size };

    ghost has_size = { λ i. length_info_bytes i };
}

ghost use Rattle.ii_termstore.specs.TermInfos.{info_size, info_bytes, HasLengths, IsInRange};

// Writes the bytes of a term to a buffer of their size.
#[tactic(auto, unfolding(crate::specs::TermInfos::info_bytes))]
pub(crate) fn put_info(buf: &mut [u8], info: &TermInfo)
    requires room { length buf.old ≡ info_size }
    requires lengths { HasLengths info.now }
    ensures bytes { buf.new ≡ info_bytes info.now }
    ensures range { IsInRange info.now }
{
    let (doc_freq, rest) = buf.split_at_mut(4);
    let (postings, rest) = rest.split_at_mut(8);
    let (postings_len, rest) = rest.split_at_mut(4);
    let (positions, positions_len) = rest.split_at_mut(8);
    let Range { start, end } = info.postings_range;
    put_u64(postings, start as u64);
    put_u32(postings_len, (end - start) as u32);
    let Range { start, end } = info.positions_range;
    put_u64(positions, start as u64);
    put_u32(positions_len, (end - start) as u32);
    put_u32(doc_freq, info.doc_freq);
}

// Writes the bytes of a number to a buffer of their size.
fn put_u32(buf: &mut [u8], n: u32)
    requires { length buf.old ≡ 4 }
    ensures { buf.new ≡ le_bytes 4 n }
{
    LittleEndian::write_u32(buf, n);
}

pub(crate) fn put_u64(buf: &mut [u8], n: u64)
    requires { length buf.old ≡ 8 }
    ensures { buf.new ≡ le_bytes 8 n }
{
    LittleEndian::write_u64(buf, n);
}
