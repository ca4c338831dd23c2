ghost use Rattle.std.specs.Prelude.{◌≡◌, ◌-◌, ◌^◌, ◌<◌, ◌≤◌, ◌==◌, ◌↔◌, ◌⊎◌, ◌&&◌, if◌then◌else◌, [], ◌∷◌, ◌++◌, length, nat_lt, slice_index, false, true, IsTrue, OnOk, OnErr, IfErr, IsErrOf};
ghost use Rattle.std.specs.List.{sum, AllByRecursion};
ghost use Rattle.ii_base.specs.declared.schema.index_record_option.IndexRecordOption.TheVariants.{Basic};
ghost use Rattle.ii_base.specs.Options.{has_freq, has_positions};
ghost use Rattle.ii_io.specs.CountingWriter.{Writes, WritesUnlessClosed, IsFull};
ghost use Rattle.ii_io.specs.Faults.{OnlyMemory};
ghost use Rattle.ii_codes.specs.Blocks.{sorted_bytes, unsorted_width};
ghost use Rattle.ii_codes.specs.Sums.{DoNotFall};
ghost use Rattle.ii_base.specs.Entries.{are_documents};
ghost use Rattle.ii_layout.specs.Bounds.{Covers};
ghost use Rattle.ii_layout.specs.PostingsSerializer.{AreWhole, AreBlockFreqs, IsFullBlock, IsOpenBlock, ArePositive, IsSumTooLarge, AddsDocs, no_docs, one_doc, joined, sized, written_docs};
ghost use Rattle.ii_layout.specs.Written.{entry_of_block, freq_part, packed_freqs, rest_bytes, written_postings};

use super::bounds::BlockBounds;
use super::doc_list::DocList;
use super::skip::SkipSerializer;
use ii_base::{CountingWriter, DocId, Fault, IndexRecordOption, LimitName};
use ii_codes::{BlockEncoder, COMPRESSION_BLOCK_SIZE, VIntEncoder};
use ii_fieldnorm::FieldNormReader;
use ii_io::vint::{self, MAX_LONG_VINT_SIZE};
use std::alloc::Global;
use std::io::Write;
use std::marker::Model;

/// Holds at most 128 documents with their term frequencies.
#[derive(Drop)]
pub(crate) struct Block {
    doc_ids: [DocId; COMPRESSION_BLOCK_SIZE],
    term_freqs: [u32; COMPRESSION_BLOCK_SIZE],
    len: usize,
}

impl Model for Block {
    ghost use Rattle.std.specs.Prelude.{take, ◌≤◌};
    ghost use Rattle.ii_layout.specs.PostingsSerializer.{CountedDocs};

    ghost Value = { CountedDocs };

    ghost view = { λ b. record { docs = take b.len b.doc_ids; freqs = take b.len b.term_freqs } };

    ghost invariant = { λ b. b.len ≤ 128 };
}

impl Block {
    /// Creates an empty block.
    pub(crate) fn new() -> Block
        ensures { result ≡ no_docs }
    {
        Block {
            doc_ids: [0; COMPRESSION_BLOCK_SIZE],
            term_freqs: [0; COMPRESSION_BLOCK_SIZE],
            len: 0,
        }
    }

    /// Returns the documents.
    pub(crate) fn doc_ids(&self) -> &[DocId]
        ensures { result.now ≡ self.now.docs }
    {
        &self.doc_ids[..self.len]
    }

    /// Returns the term frequencies of the documents.
    pub(crate) fn term_freqs(&self) -> &[u32]
        ensures { result.now ≡ self.now.freqs }
    {
        &self.term_freqs[..self.len]
    }

    /// Returns the sum of the term frequencies.
    pub(crate) fn term_freq_sum(&self) -> u64
        ensures { result ≡ sum self.now.freqs }
    {
        let mut total = 0;
        for i in 0..self.len {
            total += u64::from(self.term_freqs[i]);
        }
        total
    }

    /// Returns the last document of a full block.
    pub(crate) fn last_doc(&self) -> DocId
        requires { length self.now.docs ≡ 128 }
        ensures { result ≡ slice_index self.now.docs 127 }
    {
        self.doc_ids[COMPRESSION_BLOCK_SIZE - 1]
    }

    /// Returns whether the block holds 128 documents.
    pub(crate) fn is_full(&self) -> bool
        ensures full { result ≡ (length self.now.docs == 128) }
        ensures few { length self.now.docs ≤ 128 }
    {
        self.len == COMPRESSION_BLOCK_SIZE
    }

    /// Adds a document and its term frequency to a block that isn't full.
    pub(crate) fn append_doc(&mut self, doc_id: DocId, term_freq: u32)
        requires { length self.old.docs < 128 }
        ensures { self.new ≡ joined self.old (one_doc doc_id term_freq) }
    {
        let len = self.len;
        self.doc_ids[len] = doc_id;
        self.term_freqs[len] = term_freq;
        self.len = len + 1;
    }

    /// Removes all documents.
    pub(crate) fn clear(&mut self)
        ensures { self.new ≡ no_docs }
    {
        self.len = 0;
    }
}

/// Holds the packed full blocks of the open term and their skip list.
#[derive(Drop)]
struct PackedBlocks {
    block_encoder: BlockEncoder,
    skip_info: IndexRecordOption,
    skip_write: SkipSerializer,
    postings_write: Vec<u8>,
    last_doc_id_encoded: DocId,
    bounds: BlockBounds,
    docs: DocList,
    alloc: Global,
}

impl Model for PackedBlocks {
    ghost use Rattle.std.specs.Prelude.{◌≡◌, false};
    ghost use Rattle.ii_layout.specs.PostingsSerializer.{ArePacked, PackedBlocksState};

    ghost Value = { PackedBlocksState };

    ghost view = { λ b. record { norms = b.bounds; skip_info = b.skip_info; term = b.docs.term } };

    ghost invariant = { λ b. ArePacked b.bounds b.skip_info b.docs.term (record { last_doc = b.last_doc_id_encoded; skip = b.skip_write.bytes; postings = b.postings_write.items }) × (b.skip_write.closed ≡ false) };
}

impl PackedBlocks {
    fn new(
        alloc: Global,
        skip_info: IndexRecordOption,
        fieldnorm_reader: Option<FieldNormReader>,
    ) -> PackedBlocks
        ensures { result ≡ record { norms = fieldnorm_reader; skip_info = skip_info; term = no_docs } }
    {
        PackedBlocks {
            block_encoder: BlockEncoder::new(),
            skip_info,
            skip_write: SkipSerializer::new(alloc),
            postings_write: Vec::new(alloc),
            last_doc_id_encoded: 0,
            bounds: BlockBounds::new(fieldnorm_reader),
            docs: DocList::new(),
            alloc,
        }
    }

    // Drops all blocks, before a term whose skip entries have the shape of `skip_info`.
    fn begin(&mut self, skip_info: IndexRecordOption)
        ensures { self.new ≡ record self.old { skip_info = skip_info; term = no_docs } }
    {
        self.skip_info = skip_info;
        self.skip_write.clear();
        self.postings_write.clear();
        self.last_doc_id_encoded = 0;
        self.docs = DocList::new();
    }

    // Returns the option that gives the shape of the skip entries.
    fn skip_info(&self) -> IndexRecordOption
        ensures skip_info { result ≡ self.now.skip_info }
        ensures whole { AreWhole self.now.term }
    {
        self.skip_info
    }

    // Packs the open block, which is full, after the others, and starts an empty one. An error drops all
    // documents. It is apart from the code for each document, so that a call for a document saves few
    // registers.
    #[cold]
    #[inline(never)]
    fn push(&mut self, block: &mut Block) -> Result<(), Fault>
        requires full { length block.old.docs ≡ 128 }
        requires freqs { (length block.old.freqs ≡ 128) × ArePositive self.old.skip_info block.old.freqs }
        requires covered { AllByRecursion (Covers self.old.norms) block.old.docs }
        requires ascending { IsTrue (are_documents (self.old.term.docs ++ block.old.docs)) }
        ensures block { block.new ≡ no_docs }

        // What stays the same, and the outcomes.
        ensures same { (self.new.norms ≡ self.old.norms) × (self.new.skip_info ≡ self.old.skip_info) }
        ensures added { AddsDocs self.old.skip_info self.old.term self.new.term block.old result }
    {
        let skip_info = self.skip_info();
        if is_sum_too_large(skip_info, block) {
            self.begin(skip_info);
            block.clear();
            return Err(Fault::Limit(LimitName::BlockFrequencySum));
        }
        let packed = write_block(
            self.skip_info,
            block,
            self.last_doc_id_encoded,
            &self.bounds,
            &mut self.block_encoder,
            &mut self.skip_write,
            &mut self.postings_write,
        );
        match packed {
            Ok(()) => {
                self.last_doc_id_encoded = block.last_doc();
                self.docs = self.docs.and(block);
                block.clear();
                Ok(())
            }
            Err(fault) => {
                self.skip_write = SkipSerializer::new(self.alloc);
                self.postings_write.clear();
                self.last_doc_id_encoded = 0;
                self.docs = DocList::new();
                block.clear();
                Err(fault)
            }
        }
    }

    // Writes the skip list, the blocks, and then fewer than 128 documents.
    fn write_with<W: Write>(
        &mut self,
        rest: &Block,
        output_write: &mut CountingWriter<W>,
    ) -> Result<(), Fault>
        requires rest { IsOpenBlock self.old.skip_info rest.now }
        requires ascending { IsTrue (are_documents (self.old.term.docs ++ rest.now.docs)) }
        ensures same { self.new ≡ self.old }
        ensures written { Writes output_write.old output_write.new (written_docs self.old.norms self.old.skip_info (joined self.old.term rest.now)) result }
        ensures fits { OnOk result (¬ IsFull output_write.old (length (written_docs self.old.norms self.old.skip_info (joined self.old.term rest.now)))) }
    {
        let skip_list = write_skip_list(self.skip_write.data(), output_write);
        if skip_list.is_err() {
            return skip_list;
        }
        let blocks = output_write.write_all(&self.postings_write);
        if blocks.is_err() {
            return blocks;
        }
        write_rest(
            self.skip_info,
            rest,
            self.last_doc_id_encoded,
            &mut self.block_encoder,
            output_write,
        )
    }
}

// Packs a full block, and adds its skip entry: the last document and the width of the documents, and with term
// frequencies their width, their sum if the entry has it, and the block's bounds.
fn write_block(
    skip_info: IndexRecordOption,
    block: &Block,
    last_doc: DocId,
    bounds: &BlockBounds,
    block_encoder: &mut BlockEncoder,
    skip_write: &mut SkipSerializer,
    postings_write: &mut Vec<u8>,
) -> Result<(), Fault>
    requires docs { IsFullBlock last_doc block.now.docs }
    requires covered { AllByRecursion (Covers bounds.now) block.now.docs }
    requires freqs { AreBlockFreqs skip_info block.now.freqs }
    requires open { skip_write.old.closed ≡ false }
    ensures skip { OnOk result (skip_write.new ≡ record {
      bytes = skip_write.old.bytes ++ (entry_of_block last_doc block.now.docs ++ freq_part bounds.now skip_info block.now.docs block.now.freqs);
      closed = false;
    }) }
    ensures postings { OnOk result (postings_write.new.items
        ≡ postings_write.old.items ++ (sorted_bytes last_doc block.now.docs ++ packed_freqs skip_info block.now.freqs)) }
    ensures only { OnlyMemory result }
{
    let (num_bits, bytes) = block_encoder.compress_block_sorted(block.doc_ids(), last_doc);
    skip_write.write_doc(block.last_doc(), num_bits)?;
    postings_write.extend_from_slice(bytes)?;
    if !skip_info.has_freq() {
        return Ok(());
    }
    let (num_bits, bytes) = block_encoder.compress_block_unsorted(block.term_freqs(), true);
    postings_write.extend_from_slice(bytes)?;
    skip_write.write_term_freq(num_bits)?;
    if !skip_info.has_positions() {
        return skip_write.write_blockwand_max(bounds.fieldnorm_id(block), bounds.term_freq(block));
    }
    skip_write.write_total_term_freq(block.term_freq_sum() as u32)?;
    skip_write.write_blockwand_max(bounds.fieldnorm_id(block), bounds.term_freq(block))
}

// Writes the length of a skip list in bytes and then the list, or nothing if it has no entry.
fn write_skip_list<W: Write>(
    skip_data: &[u8],
    output_write: &mut CountingWriter<W>,
) -> Result<(), Fault>
    ensures { Writes output_write.old output_write.new (sized skip_data.now) result }
{
    if skip_data.is_empty() {
        return Ok(());
    }
    let mut size = [0; MAX_LONG_VINT_SIZE];
    let end = vint::write_u64(skip_data.len() as u64, &mut size, 0);
    let len = output_write.write_all(&size[..end]);
    if len.is_err() {
        return len;
    }
    output_write.write_all(skip_data)
}

// Writes the documents after the full blocks, and their term frequencies if there are any.
fn write_rest<W: Write>(
    skip_info: IndexRecordOption,
    rest: &Block,
    last_doc: DocId,
    block_encoder: &mut BlockEncoder,
    output_write: &mut CountingWriter<W>,
) -> Result<(), Fault>
    requires rest { IsOpenBlock skip_info rest.now }
    requires sorted { DoNotFall last_doc rest.now.docs }
    ensures written { Writes output_write.old output_write.new (rest_bytes skip_info last_doc rest.now.docs rest.now.freqs) result }
    ensures fits { OnOk result (¬ IsFull output_write.old (length (rest_bytes skip_info last_doc rest.now.docs rest.now.freqs))) }
{
    let bytes = block_encoder.compress_vint_sorted(rest.doc_ids(), last_doc);
    let docs = output_write.write_all(bytes);
    if docs.is_err() {
        return docs;
    }
    if !skip_info.has_freq() {
        return docs;
    }
    let bytes = block_encoder.compress_vint_unsorted(rest.term_freqs());
    output_write.write_all(bytes)
}

// Returns whether the sum of a block's term frequencies is kept and exceeds 32 bits.
fn is_sum_too_large(skip_info: IndexRecordOption, block: &Block) -> bool
    ensures { result ≡ (has_positions skip_info && nat_lt (2 ^ 32 - 1) (sum block.now.freqs)) }
{
    if !skip_info.has_positions() {
        return false;
    }
    block.term_freq_sum() > u64::from(u32::MAX)
}

/// Gathers the documents of one term after the other, and writes each term to a borrowed writer. Its model is
/// the open term.
pub struct OpenPostings {
    mode: IndexRecordOption,
    blocks: PackedBlocks,
    block: Block,
}

// A drop has to be a call.
impl Drop for OpenPostings {
    fn drop(self) {
        let OpenPostings {
            mode: _,
            blocks: _,
            block: _,
        } = self;
    }
}

impl Model for OpenPostings {
    ghost use Rattle.std.specs.Prelude.{◌++◌};
    ghost use Rattle.std.specs.List.{AllByRecursion};
    ghost use Rattle.ii_layout.specs.Bounds.{Covers};
    ghost use Rattle.ii_layout.specs.PostingsSerializer.{IsOpenBlock, OpenPostingsState};

    ghost Value = { OpenPostingsState };

    ghost view = { λ p. record {
      norms = p.blocks.norms;
      mode = p.mode;
      skip_info = p.blocks.skip_info;
      docs = p.blocks.term.docs ++ p.block.docs;
      freqs = p.blocks.term.freqs ++ p.block.freqs;
    } };

    ghost invariant = { λ p. IsOpenBlock p.blocks.skip_info p.block × AllByRecursion (Covers p.blocks.norms) p.block.docs };
}

impl OpenPostings {
    /// Starts the terms of a field, as the field records them, with the bounds that `PostingsSerializer::new`
    /// describes.
    pub fn new(
        alloc: Global,
        mode: IndexRecordOption,
        fieldnorm_reader: Option<FieldNormReader>,
    ) -> OpenPostings
        ensures { result ≡ record { norms = fieldnorm_reader; mode = mode; skip_info = mode; docs = []; freqs = [] } }
    {
        OpenPostings {
            mode,
            blocks: PackedBlocks::new(alloc, mode, fieldnorm_reader),
            block: Block::new(),
        }
    }

    /// Drops the documents and starts a new term, as the field records it, or without term frequencies if
    /// `record_term_freq` is not set.
    pub fn new_term(&mut self, record_term_freq: bool)
        ensures { self.new ≡ record self.old { skip_info = if record_term_freq then self.old.mode else Basic; docs = []; freqs = [] } }
    {
        let skip_info = if record_term_freq {
            self.mode
        } else {
            IndexRecordOption::Basic
        };
        self.begin(skip_info);
    }

    // Drops the documents of the open term, before a term whose skip entries have the shape of `skip_info`.
    fn begin(&mut self, skip_info: IndexRecordOption)
        ensures { self.new ≡ record self.old { skip_info = skip_info; docs = []; freqs = [] } }
    {
        self.blocks.begin(skip_info);
        self.block.clear();
    }

    /// Adds a document and its term frequency. The document must be greater than all earlier ones, less than
    /// `TERMINATED`, and covered by the norms if the field has some. The term frequency must be at least 1 if
    /// the term has frequencies.
    ///
    /// # Errors
    ///
    /// * `Limit(BlockFrequencySum)` if, in a term with positions, the document fills a block whose term
    ///   frequencies sum to more than `u32::MAX`; the documents are then dropped.
    /// * `OutOfMemory` if an allocation fails; the documents are then dropped.
    #[inline]
    pub fn write_doc(&mut self, doc_id: DocId, term_freq: u32) -> Result<(), Fault>
        requires ascending { IsTrue (are_documents (self.old.docs ++ doc_id ∷ [])) }
        requires counted { IsTrue (has_freq self.old.skip_info) → 0 < term_freq }
        requires covered { Covers self.old.norms doc_id }
        ensures ok { OnOk result (self.new ≡ record self.old { docs = self.old.docs ++ doc_id ∷ []; freqs = self.old.freqs ++ term_freq ∷ [] }) }
        ensures err { OnErr result (self.new ≡ record self.old { docs = []; freqs = [] }) }

        // Which error it returns, and when.
        ensures limit { IsErrOf result (Fault.Limit LimitName.BlockFrequencySum) ↔ IsSumTooLarge self.old.skip_info (self.old.freqs ++ term_freq ∷ []) }
        ensures only { IfErr result (λ e. (e ≡ Fault.OutOfMemory) ⊎ (e ≡ Fault.Limit LimitName.BlockFrequencySum)) }
    {
        // Shows the proof that complete blocks are packed.
        let _skip_info = self.blocks.skip_info();
        self.block.append_doc(doc_id, term_freq);
        if !self.block.is_full() {
            return Ok(());
        }
        self.blocks.push(&mut self.block)
    }

    /// Writes the postings of the term and ends it. Never allocates.
    ///
    /// # Errors
    ///
    /// * `Write` if the writer fails; a prefix of the postings is then written.
    /// * `Limit(Offset)` if a count of the writer would exceed `u64::MAX`; a prefix is then written.
    pub fn close_term<W: Write>(
        &mut self,
        output_write: &mut CountingWriter<W>,
    ) -> Result<(), Fault>
        requires { IsTrue (are_documents self.old.docs) }
        ensures written { Writes output_write.old output_write.new
            (written_postings self.old.norms self.old.skip_info self.old.docs self.old.freqs) result }
        ensures fits { OnOk result (¬ IsFull output_write.old (length (written_postings self.old.norms self.old.skip_info self.old.docs self.old.freqs))) }
        ensures ended { self.new ≡ record self.old { docs = []; freqs = [] } }
    {
        let written = self.blocks.write_with(&self.block, output_write);
        let skip_info = self.blocks.skip_info();
        self.begin(skip_info);
        written
    }
}

/// Writes the postings of one term after the other.
///
/// After an error it is closed: each further call returns `SerializerClosed`.
#[derive(Drop)]
pub struct PostingsSerializer {
    postings: OpenPostings,
    is_closed: bool,
}

impl Model for PostingsSerializer {
    ghost use Rattle.std.specs.Prelude.{◌≡◌, [], IsTrue};
    ghost use Rattle.ii_layout.specs.PostingsSerializer.{PostingsSerializerState};

    ghost Value = { PostingsSerializerState };

    ghost view = { λ s. record {
      norms = s.postings.norms;
      mode = s.postings.mode;
      skip_info = s.postings.skip_info;
      docs = s.postings.docs;
      freqs = s.postings.freqs;
      closed = s.is_closed;
    } };

    ghost invariant = { λ s. IsTrue s.is_closed → (s.postings.docs ≡ []) × (s.postings.freqs ≡ []) };
}

impl PostingsSerializer {
    /// Creates a serializer of postings as the field records them.
    ///
    /// With the norms of the field, the skip entry of each full block holds the least norm id of its
    /// documents and their greatest term frequency, at most 255. Without norms both are 0.
    pub fn new(
        alloc: Global,
        mode: IndexRecordOption,
        fieldnorm_reader: Option<FieldNormReader>,
    ) -> PostingsSerializer
        ensures { result ≡ record { norms = fieldnorm_reader; mode = mode; skip_info = mode; docs = []; freqs = []; closed = false } }
    {
        PostingsSerializer {
            postings: OpenPostings::new(alloc, mode, fieldnorm_reader),
            is_closed: false,
        }
    }

    /// Starts a new term, as the field records it, or without term frequencies if `record_term_freq` is not
    /// set. `write_doc` adds its documents; `close_term` writes them.
    pub fn new_term(&mut self, _term_doc_freq: u32, record_term_freq: bool)
        ensures { self.new ≡ record self.old { skip_info = if record_term_freq then self.old.mode else Basic; docs = []; freqs = [] } }
    {
        self.postings.new_term(record_term_freq);
    }

    /// Adds a document and its term frequency. The document must be greater than all earlier ones, less than
    /// `TERMINATED`, and covered by the norms if the field has some. The term frequency must be at least 1 if
    /// the term has frequencies.
    ///
    /// # Errors
    ///
    /// * `Limit(BlockFrequencySum)` if, in a term with positions, the document fills a block whose term
    ///   frequencies sum to more than `u32::MAX`; the documents are then dropped.
    /// * `OutOfMemory` if an allocation fails; the documents are then dropped.
    /// * `SerializerClosed` after an earlier error, whatever the document is.
    #[inline]
    pub fn write_doc(&mut self, doc_id: DocId, term_freq: u32) -> Result<(), Fault>
        requires ascending { self.old.closed ≡ false → IsTrue (are_documents (self.old.docs ++ doc_id ∷ [])) }
        requires counted { self.old.closed ≡ false → IsTrue (has_freq self.old.skip_info) → 0 < term_freq }
        requires covered { self.old.closed ≡ false → Covers self.old.norms doc_id }
        ensures ok { OnOk result (self.new ≡ record self.old { docs = self.old.docs ++ doc_id ∷ []; freqs = self.old.freqs ++ term_freq ∷ []; closed = false }) }
        ensures err { OnErr result (self.new ≡ record self.old { docs = []; freqs = []; closed = true }) }

        // Which error it returns, and when.
        ensures limit { IsErrOf result (Fault.Limit LimitName.BlockFrequencySum)
            ↔ (self.old.closed ≡ false) × IsSumTooLarge self.old.skip_info (self.old.freqs ++ term_freq ∷ []) }
        ensures closed { IsErrOf result Fault.SerializerClosed ↔ IsTrue self.old.closed }
        ensures only { IfErr result (λ e. (e ≡ Fault.OutOfMemory) ⊎ (e ≡ Fault.SerializerClosed) ⊎ (e ≡ Fault.Limit LimitName.BlockFrequencySum)) }
    {
        if self.is_closed {
            return Err(Fault::SerializerClosed);
        }
        let added = self.postings.write_doc(doc_id, term_freq);
        if added.is_err() {
            self.is_closed = true;
        }
        added
    }

    /// Writes the postings of the term, which has `doc_freq` documents, and ends it.
    ///
    /// # Errors
    ///
    /// * `Write` if the writer fails; a prefix of the postings is then written.
    /// * `Limit(Offset)` if a count of the writer would exceed `u64::MAX`; a prefix is then written.
    /// * `SerializerClosed` after an earlier error, whatever `doc_freq` is; nothing is then written.
    pub fn close_term<W: Write>(
        &mut self,
        doc_freq: u32,
        output_write: &mut CountingWriter<W>,
    ) -> Result<(), Fault>
        requires counted { self.old.closed ≡ false → doc_freq ≡ length self.old.docs }
        requires ascending { IsTrue (are_documents self.old.docs) }
        ensures written { WritesUnlessClosed self.old.closed output_write.old output_write.new
            (written_postings self.old.norms self.old.skip_info self.old.docs self.old.freqs) result }
        ensures fits { OnOk result (¬ IsFull output_write.old (length (written_postings self.old.norms self.old.skip_info self.old.docs self.old.freqs))) }
        ensures ok { OnOk result (self.new ≡ record self.old { docs = []; freqs = []; closed = false }) }
        ensures err { OnErr result (self.new ≡ record self.old { docs = []; freqs = []; closed = true }) }
    {
        if self.is_closed {
            return Err(Fault::SerializerClosed);
        }
        let written = self.postings.close_term(output_write);
        self.is_closed = written.is_err();
        written
    }
}

/// Returns the sum of at most 128 values.
pub fn sum_of(values: &[u32]) -> u64
    requires { length values.now ≤ 128 }
    ensures sum { result ≡ sum values.now }
    ensures small { result < 2 ^ 39 }
{
    let mut sum = 0;
    for value in values {
        sum += u64::from(*value);
    }
    sum
}
