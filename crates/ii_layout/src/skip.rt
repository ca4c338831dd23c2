ghost use Rattle.std.specs.Prelude.{◌≡◌, ◌+◌, ◌*◌, ◌/◌, ◌^◌, ◌<◌, ◌≤◌, min, [], ◌∷◌, ◌++◌, false, true, length, drop, nat_lt, if◌then◌else◌};
ghost use Rattle.ii_io.specs.Numbers.{le_bytes};
ghost use Rattle.ii_layout.specs.SkipList.{width_of_code, strict_of_code, entry_size, entry_at, entries_at};
ghost use Rattle.ii_base.specs.declared.doc_id.TheConstants.{TERMINATED};
ghost use Rattle.ii_layout.specs.SkipReader.{Seeks, max_tf_of_code, code_of_max_tf, block_info_of, packed_size_of, tf_sum_of, reader_at};
ghost use Rattle.ii_layout.specs.SkipSerializer.{Adds};
ghost use Rattle.ii_layout.specs.Written.{code_of_width};

use byteorder::{ByteOrder, LittleEndian};
use ii_base::{DocId, IndexRecordOption, TERMINATED};
use ii_codes::compressed_block_size;
use ii_io::{Fault, GhostCounter};
use std::alloc::{AllocError, Global};
use std::marker::Model;

/// Encodes a bit width below 32, plus 64 if the deltas are strict.
pub fn encode_bitwidth(bitwidth: u8, delta_1: bool) -> u8
    requires { bitwidth < 32 }
    ensures { result ≡ bitwidth + (if delta_1 then 64 else 0) }
{
    if delta_1 { bitwidth + 64 } else { bitwidth }
}

/// Decodes a bit width, which is below 32, and whether its deltas are strict.
pub fn decode_bitwidth(raw_bitwidth: u8) -> (u8, bool)
    ensures width { result.0 ≡ width_of_code raw_bitwidth }
    ensures strict_delta { result.1 ≡ strict_of_code raw_bitwidth }
{
    (raw_bitwidth % 32, raw_bitwidth / 64 % 2 == 1)
}

/// Writes the entries of a skip list, one for each full block.
///
/// After an error it is closed: each further call returns `SerializerClosed`.
#[derive(Drop)]
pub struct SkipSerializer {
    buffer: Vec<u8>,
    is_closed: bool,
}

impl Model for SkipSerializer {
    ghost use Rattle.ii_layout.specs.SkipSerializer.{SkipSerializerState};

    ghost Value = { SkipSerializerState };

    ghost view = { λ s. record { bytes = s.buffer.items; closed = s.is_closed } };
}

impl SkipSerializer {
    /// Creates a serializer with no entries.
    pub fn new(alloc: Global) -> SkipSerializer
        ensures { result ≡ record { bytes = []; closed = false } }
    {
        SkipSerializer {
            buffer: Vec::new(alloc),
            is_closed: false,
        }
    }

    /// Adds the last document of a block, in four bytes, little-endian, and the code of the width of its
    /// strict deltas, which is below 32.
    ///
    /// Returns `OutOfMemory` if an allocation fails, and adds nothing then; `SerializerClosed` after an
    /// earlier error. The calls for the other parts of an entry do the same.
    pub fn write_doc(&mut self, last_doc: DocId, doc_num_bits: u8) -> Result<(), Fault>
        requires { doc_num_bits < 32 }
        ensures { Adds self.old self.new (le_bytes 4 last_doc ++ code_of_width doc_num_bits ∷ []) result }
    {
        let mut bytes = [0; 5];
        LittleEndian::write_u32(&mut bytes, last_doc);
        bytes[4] = encode_bitwidth(doc_num_bits, true);
        self.add(&bytes)
    }

    /// Adds the width of a block's term frequencies, in one byte.
    pub fn write_term_freq(&mut self, tf_num_bits: u8) -> Result<(), Fault>
        ensures { Adds self.old self.new (tf_num_bits ∷ []) result }
    {
        self.add(&[tf_num_bits])
    }

    /// Adds the sum of a block's term frequencies, in four bytes, little-endian.
    pub fn write_total_term_freq(&mut self, tf_sum: u32) -> Result<(), Fault>
        ensures { Adds self.old self.new (le_bytes 4 tf_sum) result }
    {
        let mut bytes = [0; 4];
        LittleEndian::write_u32(&mut bytes, tf_sum);
        self.add(&bytes)
    }

    /// Adds the bounds of a block: the norm id in one byte, and the code of the term frequency.
    pub fn write_blockwand_max(&mut self, fieldnorm_id: u8, term_freq: u32) -> Result<(), Fault>
        ensures { Adds self.old self.new (fieldnorm_id ∷ code_of_max_tf term_freq ∷ []) result }
    {
        self.add(&[fieldnorm_id, encode_block_wand_max_tf(term_freq)])
    }

    // Adds all of the bytes or none.
    fn add(&mut self, bytes: &[u8]) -> Result<(), Fault>
        ensures { Adds self.old self.new bytes.now result }
    {
        if self.is_closed {
            return Err(Fault::SerializerClosed);
        }
        let added = self.buffer.extend_from_slice(bytes);
        self.is_closed = added.is_err();
        added?;
        Ok(())
    }

    /// Returns the bytes of the entries.
    pub fn data(&self) -> &[u8]
        ensures { result.now ≡ self.now.bytes }
    {
        self.buffer.as_slice()
    }

    /// Removes all entries.
    pub fn clear(&mut self)
        ensures { self.new ≡ record self.old { bytes = [] } }
    {
        self.buffer.clear();
    }
}

/// Encodes a term frequency in one byte, as at most 255.
pub fn encode_block_wand_max_tf(max_tf: u32) -> u8
    ensures { result ≡ code_of_max_tf max_tf }
{
    max_tf.min(255) as u8
}

/// Decodes a term frequency: the byte itself, or `u32::MAX` for 255.
pub fn decode_block_wand_max_tf(max_tf_code: u8) -> u32
    ensures { result ≡ max_tf_of_code max_tf_code }
{
    if max_tf_code == 255 {
        u32::MAX
    } else {
        u32::from(max_tf_code)
    }
}

/// What a skip list holds about a block.
#[derive(Clone, Copy, Debug, PartialEq, Eq)]
pub enum BlockInfo {
    /// A full block. A number that its entry doesn't have is 0.
    BitPacked {
        /// The bit width of the document deltas, below 32.
        doc_num_bits: u8,
        /// Whether the document deltas are strict.
        strict_delta_encoded: bool,
        /// The bit width of the term frequencies.
        tf_num_bits: u8,
        /// The sum of the term frequencies.
        tf_sum: u32,
        /// The norm id of the entry's bounds.
        block_wand_fieldnorm_id: u8,
        /// The term frequency of the entry's bounds.
        block_wand_term_freq: u32,
    },
    /// The documents after the full blocks.
    VInt {
        /// The number of documents, below 128.
        num_docs: u32,
    },
}

impl Default for BlockInfo {
    ghost use Rattle.std.specs.Prelude.{◌≡◌};
    ghost use Rattle.ii_layout.specs.declared.skip.BlockInfo.TheVariants.{VInt};

    ghost is_default = { λ i. i ≡ VInt 0 };

    fn default() -> BlockInfo {
        BlockInfo::VInt { num_docs: 0 }
    }
}

// Returns the size of an entry in bytes.
pub(crate) fn entry_size(skip_info: IndexRecordOption) -> usize
    ensures { result ≡ entry_size skip_info }
{
    match skip_info {
        IndexRecordOption::Basic => 5,
        IndexRecordOption::WithFreqs => 8,
        IndexRecordOption::WithFreqsAndPositions => 12,
    }
}

// Reads the entry at the front: the last document of its block, and what it holds about the block. Counts as
// a read.
fn read_entry(
    bytes: &[u8],
    skip_info: IndexRecordOption,
    entries_read: &mut GhostCounter,
) -> (DocId, BlockInfo)
    requires { entry_size skip_info ≤ length bytes.now }
    ensures last_doc { result.0 ≡ (entry_at skip_info bytes.now).last_doc }
    ensures info { result.1 ≡ block_info_of (entry_at skip_info bytes.now) }
    ensures counted { entries_read.new.value ≡ entries_read.old.value + 1 }
{
    *entries_read = entries_read.next();
    let last_doc = LittleEndian::read_u32(bytes);
    let (doc_num_bits, strict_delta_encoded) = decode_bitwidth(bytes[4]);
    match skip_info {
        IndexRecordOption::Basic => {
            let info = BlockInfo::BitPacked {
                doc_num_bits,
                strict_delta_encoded,
                tf_num_bits: 0,
                tf_sum: 0,
                block_wand_fieldnorm_id: 0,
                block_wand_term_freq: 0,
            };
            (last_doc, info)
        }
        IndexRecordOption::WithFreqs => {
            let info = BlockInfo::BitPacked {
                doc_num_bits,
                strict_delta_encoded,
                tf_num_bits: bytes[5],
                tf_sum: 0,
                block_wand_fieldnorm_id: bytes[6],
                block_wand_term_freq: decode_block_wand_max_tf(bytes[7]),
            };
            (last_doc, info)
        }
        IndexRecordOption::WithFreqsAndPositions => {
            let info = BlockInfo::BitPacked {
                doc_num_bits,
                strict_delta_encoded,
                tf_num_bits: bytes[5],
                tf_sum: LittleEndian::read_u32(&bytes[6..]),
                block_wand_fieldnorm_id: bytes[10],
                block_wand_term_freq: decode_block_wand_max_tf(bytes[11]),
            };
            (last_doc, info)
        }
    }
}

// Reads the entry of block `block`, as `read_entry` does.
pub(crate) fn read_entry_at(
    skip_data: &[u8],
    skip_info: IndexRecordOption,
    block: u32,
    entries_read: &mut GhostCounter,
) -> (DocId, BlockInfo)
    requires { entry_size skip_info * (block + 1) ≤ length skip_data.now }
    ensures last_doc { result.0 ≡ (entry_at skip_info (drop (entry_size skip_info * block) skip_data.now)).last_doc }
    ensures info { result.1 ≡ block_info_of (entry_at skip_info (drop (entry_size skip_info * block) skip_data.now)) }
    ensures counted { entries_read.new.value ≡ entries_read.old.value + 1 }
{
    let start = entry_size(skip_info) * block as usize;
    read_entry(&skip_data[start..], skip_info, entries_read)
}

// Returns the size of a full block in bytes.
fn packed_size(info: BlockInfo) -> usize
    ensures size { result ≡ packed_size_of info }
    ensures few { result ≤ 8160 }
{
    match info {
        BlockInfo::BitPacked {
            doc_num_bits,
            tf_num_bits,
            ..
        } => compressed_block_size(doc_num_bits) + compressed_block_size(tf_num_bits),
        BlockInfo::VInt { .. } => 0,
    }
}

// Returns the sum of a block's term frequencies.
fn tf_sum(info: BlockInfo) -> u64
    ensures sum { result ≡ tf_sum_of info }
    ensures small { result < 2 ^ 32 }
{
    match info {
        BlockInfo::BitPacked { tf_sum, .. } => u64::from(tf_sum),
        BlockInfo::VInt { .. } => 0,
    }
}

/// Reads a term's skip list. It keeps offsets only: each call that reads an entry borrows the bytes of the
/// list.
#[derive(Drop)]
pub struct SkipReader {
    skip_info: IndexRecordOption,
    doc_freq: u32,
    block: u32,
    last_doc_in_block: DocId,
    last_doc_in_previous_block: DocId,
    byte_offset: usize,
    position_offset: u64,
    block_info: BlockInfo,
    entries_read: GhostCounter,
}

impl Model for SkipReader {
    ghost use Rattle.std.specs.Prelude.{◌+◌, ◌-◌, ◌*◌, ◌/◌, ◌^◌, ◌≤◌};
    ghost use Rattle.ii_layout.specs.SkipReader.{SkipReaderState};

    ghost Value = { SkipReaderState };

    ghost view = { λ r. record {
      skip_info = r.skip_info;
      doc_freq = r.doc_freq;
      block = r.block;
      last_doc_in_block = r.last_doc_in_block;
      last_doc_in_previous_block = r.last_doc_in_previous_block;
      byte_offset = r.byte_offset;
      position_offset = r.position_offset;
      block_info = r.block_info;
      entries_read = r.entries_read.value;
    } };

    ghost invariant = { λ r. (r.block ≤ r.doc_freq / 128 + 1) × (r.block ≤ r.doc_freq / 128 → r.byte_offset ≤ 8160 * r.block)
        × (r.position_offset ≤ (2 ^ 32 - 1) * r.block) };
}

impl SkipReader {
    /// Opens a reader at the first block of a term in `doc_freq` documents, whose entries have the shape of
    /// `skip_info`. `skip_data` begins with an entry for each full block.
    pub fn new(skip_data: &[u8], doc_freq: u32, skip_info: IndexRecordOption) -> SkipReader
        requires { entry_size skip_info * (doc_freq / 128) ≤ length skip_data.now }
        ensures { result ≡ reader_at skip_info doc_freq (entries_at skip_info (doc_freq / 128) skip_data.now) 0 }
    {
        let mut reader = SkipReader {
            skip_info,
            doc_freq,
            block: 0,
            last_doc_in_block: TERMINATED,
            last_doc_in_previous_block: 0,
            byte_offset: 0,
            position_offset: 0,
            block_info: BlockInfo::VInt { num_docs: doc_freq },
            entries_read: GhostCounter::new(),
        };
        if doc_freq >= 128 {
            let (last_doc, info) = read_entry(skip_data, skip_info, &mut reader.entries_read);
            reader.last_doc_in_block = last_doc;
            reader.block_info = info;
        }
        reader
    }

    /// Restarts at the first block of another term, with entries of the same shape.
    pub fn reset(&mut self, skip_data: &[u8], doc_freq: u32)
        requires { entry_size self.old.skip_info * (doc_freq / 128) ≤ length skip_data.now }
        ensures { self.new ≡ reader_at self.old.skip_info doc_freq (entries_at self.old.skip_info (doc_freq / 128) skip_data.now) 0 }
    {
        *self = SkipReader::new(skip_data, doc_freq, self.skip_info);
    }

    /// Moves to the next block, and reads its entry if that block is full. After the last block it doesn't
    /// move.
    pub fn advance(&mut self, skip_data: &[u8])
        requires whole { entry_size self.old.skip_info * (self.old.doc_freq / 128) ≤ length skip_data.now }
        requires same { self.old ≡ reader_at self.old.skip_info self.old.doc_freq
            (entries_at self.old.skip_info (self.old.doc_freq / 128) skip_data.now) self.old.block }
        ensures { self.new ≡ reader_at self.old.skip_info self.old.doc_freq
            (entries_at self.old.skip_info (self.old.doc_freq / 128) skip_data.now)
            (min (self.old.block + 1) (self.old.doc_freq / 128 + 1)) }
    {
        let blocks = self.doc_freq / 128;
        self.last_doc_in_previous_block = self.last_doc_in_block;
        if self.block >= blocks {
            self.block = blocks + 1;
            self.last_doc_in_block = TERMINATED;
            self.byte_offset = usize::MAX;
            self.block_info = BlockInfo::VInt { num_docs: 0 };
            return;
        }
        self.block += 1;
        self.byte_offset += packed_size(self.block_info);
        self.position_offset += tf_sum(self.block_info);
        if self.block == blocks {
            self.last_doc_in_block = TERMINATED;
            self.block_info = BlockInfo::VInt {
                num_docs: self.doc_freq % 128,
            };
            return;
        }
        let (last_doc, info) = read_entry_at(
            skip_data,
            self.skip_info,
            self.block,
            &mut self.entries_read,
        );
        self.last_doc_in_block = last_doc;
        self.block_info = info;
    }

    /// Moves to the first block, from the current one on, whose last document is at least `target`. If there
    /// is none it moves to the documents after the full blocks. If it is already there, or after them, it
    /// doesn't move. Reads the entry of each full block that it moves to, once. Returns whether it moved.
    pub fn seek(&mut self, skip_data: &[u8], target: DocId) -> bool
        requires whole { entry_size self.old.skip_info * (self.old.doc_freq / 128) ≤ length skip_data.now }
        requires same { self.old ≡ reader_at self.old.skip_info self.old.doc_freq
            (entries_at self.old.skip_info (self.old.doc_freq / 128) skip_data.now) self.old.block }
        requires up_to { target ≤ TERMINATED }
        ensures at { self.new ≡ reader_at self.old.skip_info self.old.doc_freq
            (entries_at self.old.skip_info (self.old.doc_freq / 128) skip_data.now) self.new.block }
        ensures seeks { Seeks target (self.old.doc_freq / 128) (entries_at self.old.skip_info (self.old.doc_freq / 128) skip_data.now)
            self.old.block self.new.block }
        ensures moved { result ≡ nat_lt self.old.block self.new.block }
    {
        let mut moved = false;
        while self.last_doc_in_block() < target {
            self.advance(skip_data);
            moved = true;
        }
        moved
    }

    /// Returns the last document of the block, or `TERMINATED` if the block isn't full.
    pub fn last_doc_in_block(&self) -> DocId
        ensures { result ≡ self.now.last_doc_in_block }
    {
        self.last_doc_in_block
    }

    /// Returns the last document before the block, or 0 at the first block.
    pub fn last_doc_in_previous_block(&self) -> DocId
        ensures { result ≡ self.now.last_doc_in_previous_block }
    {
        self.last_doc_in_previous_block
    }

    /// Returns the offset of the block after the skip list, or `usize::MAX` after the last block.
    pub fn byte_offset(&self) -> usize
        ensures { result ≡ self.now.byte_offset }
    {
        self.byte_offset
    }

    /// Returns the number of positions before the block: the sum of the term frequencies of all earlier
    /// blocks if entries hold these sums, else 0.
    pub fn position_offset(&self) -> u64
        ensures { result ≡ self.now.position_offset }
    {
        self.position_offset
    }

    /// Returns what the skip list holds about the block.
    pub fn block_info(&self) -> BlockInfo
        ensures { result ≡ self.now.block_info }
    {
        self.block_info
    }
}

impl Clone for SkipReader {
    ghost use Rattle.std.specs.Prelude.{◌≡◌, ⊤};

    ghost is_clone = { λ x y. y ≡ x };

    ghost is_infallible = { λ _. ⊤ };

    fn clone(&self) -> Result<SkipReader, AllocError> {
        Ok(SkipReader {
            skip_info: self.skip_info,
            doc_freq: self.doc_freq,
            block: self.block,
            last_doc_in_block: self.last_doc_in_block,
            last_doc_in_previous_block: self.last_doc_in_previous_block,
            byte_offset: self.byte_offset,
            position_offset: self.position_offset,
            block_info: self.block_info,
            entries_read: self.entries_read.same(),
        })
    }
}
