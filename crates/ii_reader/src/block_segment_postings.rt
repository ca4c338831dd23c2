ghost use Rattle.std.specs.Prelude.{◌≡◌, ◌+◌, ◌*◌, ◌/◌, ◌<◌, ◌≤◌, ⊤, ℕ, List, [], length, min, option_map, slice_get, slice_index, true, false, is_some, None, Some, Ok, Err, IfOk, IfErr, IfSome, OnOk, OnErr, IsOk, IsSome, MatchOption};
ghost use Rattle.ii_io.specs.Faults.{OnlyMemory};
ghost use Rattle.ii_base.specs.declared.doc_id.TheConstants.{TERMINATED};
ghost use Rattle.ii_io.specs.Parts.{part_of};
ghost use Rattle.ii_base.specs.Options.{downgrade, has_positions};
ghost use Rattle.ii_layout.specs.TermList.{deltas_if, docs_and_freqs};
ghost use Rattle.ii_layout.specs.Written.{block_of};
ghost use Rattle.ii_layout.specs.Frequencies.{bounds_counts};
ghost use Rattle.ii_check.specs.CheckedPositions.{ChecksPositions};
ghost use Rattle.ii_check.specs.CheckedPostings.{SeeksBlock, excludes, is_read};
ghost use Rattle.ii_check.specs.FreqReading.{freq_reading};
ghost use Rattle.ii_check.specs.Positions.{deltas_read};
ghost use Rattle.ii_reader.specs.Bounds.{IsFirstWanted, IsPlaced, PassesBlocks, stored_bounds, bounds_read, freq_bound, is_wanted_at};
ghost use Rattle.ii_reader.specs.BlockSegmentPostings.{AreEntries, ComeBefore, GoesTo, IsBelow, IsLazy, IsSought, LooksFor, OpensDocs, cursor_of_none, doc_in_block, first_decodes, freq_in_block, freqs_of_block};
ghost use Rattle.ii_reader.specs.SegmentPostings.{decodes_read};

use bytes::Bytes;
use ii_base::{Fault, IndexRecordOption, LayoutFault, Part};
use ii_check::{
    CheckedBlocks, CheckedPositions, CheckedPostings, DecodedBlocks, FreqReadingOption, NO_FREQ,
    Validation,
};
use ii_codes::{BlockDecoder, COMPRESSION_BLOCK_SIZE};
use ii_docset::{DocId, TERMINATED};
use ii_layout::skip::encode_block_wand_max_tf;
use ii_layout::{BlockInfo, PositionReader, SkipReader};
use std::marker::Model;

/// A cursor over the blocks of a term's postings, one of them decoded.
///
/// Block `b` has the documents from number 128 * b on, at most 128, and their term frequencies if they are
/// read. After the last block, which has fewer than 128, there is an empty one.
pub struct BlockSegmentPostings {
    checked: CheckedPostings,
    skip: SkipReader,
    doc_decoder: BlockDecoder,
    freq_decoder: BlockDecoder,
    decoded_blocks: DecodedBlocks,
    checked_blocks: CheckedBlocks,
}

// A drop has to be a call.
impl Drop for BlockSegmentPostings {
    fn drop(self) {
        let BlockSegmentPostings {
            checked: _,
            skip: _,
            doc_decoder: _,
            freq_decoder: _,
            decoded_blocks: _,
            checked_blocks: _,
        } = self;
    }
}

impl Model for BlockSegmentPostings {
    ghost use Rattle.ii_reader.specs.BlockSegmentPostings.{BlockSegmentPostingsState, IsLoaded};
    ghost use Rattle.ii_reader.specs.Bounds.{bounds_of};

    ghost Value = { BlockSegmentPostingsState };

    ghost view = { λ c. record {
      recorded = c.checked.recorded;
      requested = c.checked.requested;
      docs = c.checked.postings.docs;
      freqs = c.checked.postings.freqs;
      freq_reading = c.checked.freq_reading;
      bounds = bounds_of c.checked.postings.skip;
      block = c.skip.block;
      doc_blocks = c.decoded_blocks.docs.blocks;
      freq_blocks = c.decoded_blocks.freqs.blocks;
      doc_decodes = c.doc_decoder.decodes;
      freq_decodes = c.freq_decoder.decodes;
      entries_read = c.skip.entries_read;
      checked = record { docs = c.checked_blocks.docs.value; freqs = c.checked_blocks.freqs.value };
    } };

    ghost invariant = { λ c. IsLoaded c.checked c.skip c.doc_decoder c.freq_decoder c.decoded_blocks.docs.blocks c.decoded_blocks.freqs.blocks };
}

impl BlockSegmentPostings {
    /// Validates the list of `doc_freq` documents at the front of `bytes`, by the recorded and the requested
    /// option, and opens a cursor at its first block. Returns the first corrupt part.
    ///
    /// Validates all documents and then, if they are read, all term frequencies. Each block is decoded once for
    /// that. Ignores the bytes after them. Never allocates.
    pub fn open(
        doc_freq: u32,
        bytes: Bytes,
        record_option: IndexRecordOption,
        requested_option: IndexRecordOption,
    ) -> Result<BlockSegmentPostings, LayoutFault>
        ensures opened { IfOk result (OpensDocs Validation.Complete record_option requested_option doc_freq bytes) }
        ensures err { IfErr result (λ fault. docs_and_freqs record_option requested_option doc_freq bytes ≡ Err (part_of fault)) }
    {
        let mut cursor = BlockSegmentPostings::empty_by(record_option, requested_option);
        if let Err(fault) = cursor.fill(doc_freq, bytes, Validation::Complete) {
            return Err(fault);
        }
        Ok(cursor)
    }

    /// Opens a cursor over no documents. Both options are `Basic`, and term frequencies aren't read.
    pub fn empty() -> BlockSegmentPostings
        ensures { result ≡ cursor_of_none IndexRecordOption.Basic IndexRecordOption.Basic }
    {
        BlockSegmentPostings::empty_by(IndexRecordOption::Basic, IndexRecordOption::Basic)
    }

    // Opens a cursor over no documents, by the recorded and the requested option.
    #[inline(always)]
    pub(crate) fn empty_by(
        record_option: IndexRecordOption,
        requested_option: IndexRecordOption,
    ) -> BlockSegmentPostings
        ensures { result ≡ cursor_of_none record_option requested_option }
    {
        let checked = CheckedPostings::empty(record_option, requested_option);
        let skip = checked.skip_reader();
        BlockSegmentPostings {
            checked,
            skip,
            doc_decoder: BlockDecoder::with_val(TERMINATED),
            freq_decoder: BlockDecoder::with_val(NO_FREQ),
            decoded_blocks: DecodedBlocks::none(),
            checked_blocks: CheckedBlocks::none(),
        }
    }

    /// Replaces the list, as `open` does with the same two options: by the list of `doc_freq` documents at
    /// the front of `bytes`. Returns the first corrupt part; the cursor is then over no documents, and can be
    /// reset again. Never allocates.
    pub fn reset(&mut self, doc_freq: u32, bytes: Bytes) -> Result<(), LayoutFault>
        ensures opened { OnOk result (OpensDocs Validation.Complete self.old.recorded self.old.requested doc_freq bytes self.new) }
        ensures err { IfErr result (λ fault. docs_and_freqs self.old.recorded self.old.requested doc_freq bytes ≡ Err (part_of fault)) }
        ensures emptied { OnErr result (self.new ≡ cursor_of_none self.old.recorded self.old.requested) }
    {
        self.clear();
        self.fill(doc_freq, bytes, Validation::Complete)
    }

    // Opens a list in a cursor over no documents, as `reset` does. It must be valid if validation is skipped.
    pub(crate) fn fill(
        &mut self,
        doc_freq: u32,
        bytes: Bytes,
        validation: Validation,
    ) -> Result<(), LayoutFault>
        requires none { self.old ≡ cursor_of_none self.old.recorded self.old.requested }
        requires known { validation ≡ Validation.Skipped → IsOk (docs_and_freqs self.old.recorded self.old.requested doc_freq bytes) }
        ensures opened { OnOk result (OpensDocs validation self.old.recorded self.old.requested doc_freq bytes self.new) }
        ensures err { IfErr result (λ fault. docs_and_freqs self.old.recorded self.old.requested doc_freq bytes ≡ Err (part_of fault)) }
        ensures emptied { OnErr result (self.new ≡ cursor_of_none self.old.recorded self.old.requested) }
    {
        let opened = CheckedPostings::open(
            doc_freq,
            bytes,
            self.checked.record_option(),
            self.checked.requested_option(),
            validation,
            &mut self.doc_decoder,
            &mut self.freq_decoder,
            &mut self.decoded_blocks,
            &mut self.checked_blocks,
        );
        match opened {
            Ok(checked) => {
                self.skip = checked.skip_reader();
                self.checked = checked;
                Ok(())
            }
            Err(fault) => {
                self.doc_decoder = BlockDecoder::with_val(TERMINATED);
                self.freq_decoder = BlockDecoder::with_val(NO_FREQ);
                self.decoded_blocks = DecodedBlocks::none();
                self.checked_blocks = CheckedBlocks::none();
                Err(fault)
            }
        }
    }

    /// Opens a cursor at the first block of the list of `doc_freq` documents that `bytes` are known to begin
    /// with, by the recorded and the requested option. Reads no other block. Never allocates.
    pub fn open_known(
        doc_freq: u32,
        bytes: Bytes,
        record_option: IndexRecordOption,
        requested_option: IndexRecordOption,
    ) -> BlockSegmentPostings
        requires { IsOk (docs_and_freqs record_option requested_option doc_freq bytes) }
        ensures { OpensDocs Validation.Skipped record_option requested_option doc_freq bytes result }
    {
        let mut cursor = BlockSegmentPostings::empty_by(record_option, requested_option);
        let Ok(()) = cursor.fill(doc_freq, bytes, Validation::Skipped) else {
            unreachable!()
        };
        cursor
    }

    // Removes the list, and keeps the two options.
    pub(crate) fn clear(&mut self)
        ensures { self.new ≡ cursor_of_none self.old.recorded self.old.requested }
    {
        let record_option = self.checked.record_option();
        let requested_option = self.checked.requested_option();
        self.clear_by(record_option, requested_option);
    }

    // Removes the list, and sets the two options.
    pub(crate) fn clear_by(
        &mut self,
        record_option: IndexRecordOption,
        requested_option: IndexRecordOption,
    )
        ensures { self.new ≡ cursor_of_none record_option requested_option }
    {
        self.checked = CheckedPostings::empty(record_option, requested_option);
        self.skip = self.checked.skip_reader();
        self.doc_decoder = BlockDecoder::with_val(TERMINATED);
        self.freq_decoder = BlockDecoder::with_val(NO_FREQ);
        self.decoded_blocks = DecodedBlocks::none();
        self.checked_blocks = CheckedBlocks::none();
    }

    /// Clones the cursor with its block, its decoded blocks and its numbers of decodes and reads. The bytes are shared. Returns
    /// `OutOfMemory` if an allocation fails.
    pub fn clone(&self) -> Result<BlockSegmentPostings, Fault>
        ensures same { IfOk result (λ cursor. cursor ≡ self.now) }
        ensures only { OnlyMemory result }
    {
        let checked = self.checked.clone()?;
        let skip = self.skip.clone()?;
        let doc_decoder = self.doc_decoder.clone()?;
        let freq_decoder = self.freq_decoder.clone()?;
        Ok(BlockSegmentPostings {
            checked,
            skip,
            doc_decoder,
            freq_decoder,
            decoded_blocks: self.decoded_blocks.same(),
            checked_blocks: self.checked_blocks.same(),
        })
    }

    /// Returns the number of documents of the term.
    pub fn doc_freq(&self) -> u32
        ensures { result ≡ length self.now.docs }
    {
        self.checked.doc_freq()
    }

    /// Returns whether term frequencies are read.
    pub fn freq_reading_option(&self) -> FreqReadingOption
        ensures option { result ≡ self.now.freq_reading }
        ensures read { is_some self.now.freqs ≡ is_read result }
    {
        self.checked.freq_reading_option()
    }

    /// Returns the documents of the block.
    pub fn docs(&self) -> &[DocId]
        ensures entries { AreEntries (length self.now.docs) self.now.docs self.now.freqs }
        ensures docs { result.now ≡ block_of self.now.docs self.now.block }
        ensures lazy { IsLazy self.now }
    {
        self.doc_decoder.output_array()
    }

    /// Returns the document at `idx` in the block, or `TERMINATED` after the block's documents. `idx` must be
    /// below 128.
    #[inline(always)]
    pub fn doc(&self, idx: usize) -> DocId
        requires { idx < 128 }
        ensures doc { result ≡ doc_in_block self.now.docs self.now.block idx }
        ensures lazy { IsLazy self.now }
    {
        self.doc_decoder.output(idx)
    }

    /// Returns the term frequencies of the block's documents, or none if they aren't read.
    pub fn freqs(&self) -> &[u32]
        ensures { result.now ≡ freqs_of_block self.now.freqs self.now.block }
    {
        self.freq_decoder.output_array()
    }

    /// Returns the term frequency of the document at `idx` in the block, or 1 for any `idx` if term
    /// frequencies aren't read.
    pub fn freq(&self, idx: usize) -> u32
        requires { IsSome self.now.freqs → idx < length (block_of self.now.docs self.now.block) }
        ensures { result ≡ freq_in_block self.now.freqs self.now.block idx }
    {
        if !self.checked.freq_reading_option().is_read() {
            return NO_FREQ;
        }
        self.freq_decoder.output(idx)
    }

    /// Returns the bounds of the current block, if it is full and the term has term frequencies: a norm id
    /// that is at most that of each document, and a term frequency that is at least that of each. A frequency
    /// of 0 or 255 means no bound.
    ///
    /// The frequency was validated if term frequencies are read. The norm id is not validated.
    pub fn block_bounds(&self) -> Option<(u8, u8)>
        ensures bounds { result ≡ option_map stored_bounds (slice_get self.now.bounds self.now.block) }
        ensures bounded { (freqs : List ℕ) → self.now.freqs ≡ Some freqs → bounds_counts (freq_bound self.now.bounds self.now.block) (block_of freqs self.now.block) ≡ true }
    {
        if !self.checked.has_freq() {
            return None;
        }
        match self.skip.block_info() {
            BlockInfo::BitPacked {
                block_wand_fieldnorm_id,
                block_wand_term_freq,
                ..
            } => Some((
                block_wand_fieldnorm_id,
                encode_block_wand_max_tf(block_wand_term_freq),
            )),
            BlockInfo::VInt { .. } => None,
        }
    }

    /// Returns the number of documents of the block.
    pub fn block_len(&self) -> usize
        ensures { result ≡ length (block_of self.now.docs self.now.block) }
    {
        self.docs().len()
    }

    // Returns the number of positions before those of the document at `idx` in the block. Term frequencies
    // must be read, and the field must record positions.
    pub(crate) fn position_offset(&self, idx: usize) -> u64
        requires recorded { has_positions self.now.recorded ≡ true }
        requires read { IsSome self.now.freqs }
        requires inside { idx < length (block_of self.now.docs self.now.block) }
        ensures { ComeBefore self.now.freqs (128 * self.now.block + idx) result }
    {
        let mut offset = self.skip.position_offset();
        for freq in &self.freq_decoder.output_array()[..idx] {
            offset += u64::from(*freq);
        }
        offset
    }

    // Opens the positions that bytes hold, if they are read, or returns `Positions`. They must be valid if
    // validation is skipped.
    pub(crate) fn open_positions(
        &self,
        bytes: Option<Bytes>,
        validation: Validation,
        checked_positions: &mut CheckedPositions,
    ) -> Result<Option<PositionReader>, LayoutFault>
        requires { validation ≡ Validation.Skipped → IsSome (deltas_if (has_positions (downgrade self.now.recorded self.now.requested)) self.now.freqs bytes) }
        ensures ok { IfOk result (λ opened. deltas_if (has_positions (downgrade self.now.recorded self.now.requested)) self.now.freqs bytes
            ≡ Some (deltas_read opened)) }
        ensures decodes { IfOk result (λ opened. decodes_read opened ≤ 1) }
        ensures checked { OnOk result (ChecksPositions validation (length self.now.docs) bytes checked_positions.old checked_positions.new) }
        ensures refused { OnErr result (deltas_if (has_positions (downgrade self.now.recorded self.now.requested)) self.now.freqs bytes ≡ None) }
        ensures err { IfErr result (λ fault. fault ≡ LayoutFault.Damaged Part.Positions) }
    {
        if let Validation::Complete = validation {
            let freqs = self.freq_decoder.output_array();
            if freqs.len() < COMPRESSION_BLOCK_SIZE {
                if freqs.len() == self.checked.doc_freq() as usize {
                    return self
                        .checked
                        .open_counted_positions(bytes, freqs, checked_positions);
                }
            }
        }
        self.checked
            .open_positions(bytes, validation, checked_positions)
    }

    /// Moves to the first block, from the current one on, whose last document is at least `target`, or else
    /// to the last block. If it is already there, or after it, it doesn't move. Decodes only the block that
    /// it moves to, once, and none if it stays. Returns how many documents of that block are below the target, which is at most
    /// `TERMINATED`.
    #[inline(never)]
    pub fn seek(&mut self, target: DocId) -> usize
        requires { target ≤ TERMINATED }
        ensures sought { IsSought target self.old.docs self.old.block self.new.block result }
        ensures goes { GoesTo self.old self.new self.new.block }
        ensures lazy { IsLazy self.new }
    {
        self.seek_block(target);
        self.seek_within_block(target)
    }

    // Returns how many documents of the block are below `target`. In a full block the target must not exceed
    // the last document.
    fn seek_within_block(&self, target: DocId) -> usize
        requires up_to { target ≤ TERMINATED }
        requires last { self.now.block < length self.now.docs / 128 → target ≤ slice_index self.now.docs (128 * self.now.block + 127) }
        ensures below { IsBelow target (block_of self.now.docs self.now.block) result }
        ensures lazy { IsLazy self.now }
    {
        self.doc_decoder.seek_within_block(target)
    }

    // Moves to the block that `seek` describes, and decodes it if it is another one.
    fn seek_block(&mut self, target: DocId)
        requires { target ≤ TERMINATED }
        ensures seeks { SeeksBlock target self.old.docs self.old.block self.new.block }
        ensures goes { GoesTo self.old self.new self.new.block }
        ensures entries { AreEntries (length self.new.docs) self.new.docs self.new.freqs }
    {
        if target <= self.doc(COMPRESSION_BLOCK_SIZE - 1) {
            return;
        }
        self.checked.seek(&mut self.skip, target);
        self.checked.load_block(
            &self.skip,
            &mut self.doc_decoder,
            &mut self.freq_decoder,
            &mut self.decoded_blocks,
        );
    }

    /// Moves to the next block; at the empty block after the last one it stays. Decodes at most one block.
    #[cold]
    #[inline(never)]
    pub fn advance(&mut self)
        ensures goes { GoesTo self.old self.new (min (self.old.block + 1) (length self.old.docs / 128 + 1)) }
        ensures lazy { IsLazy self.new }
    {
        self.checked.advance(&mut self.skip);
        self.checked.load_block(
            &self.skip,
            &mut self.doc_decoder,
            &mut self.freq_decoder,
            &mut self.decoded_blocks,
        );
    }

    /// Moves to the first document, from `from` in the block on, that is at least `target` and has a term
    /// frequency of at least `least`, or after all documents. Returns its place in the new block. Term
    /// frequencies must be read.
    ///
    /// Skips blocks that end below the target or, by their bounds, have no such frequency. Decodes each other
    /// block once.
    pub fn seek_with_freq(&mut self, from: usize, target: DocId, least: u32) -> usize
        requires read { IsSome self.old.freqs }
        requires from { from < 128 }
        requires up_to { target ≤ TERMINATED }
        ensures found { IfSome self.old.freqs (λ freqs. IsFirstWanted target least self.old.docs freqs (128 * self.old.block + from) (128 * self.new.block + result)) }
        ensures inside { result < 128 }
        ensures looks { LooksFor least self.old self.new }
        ensures lazy { IsLazy self.new }
    {
        let mut place = self.place_with_freq(from, target, least);
        while place >= COMPRESSION_BLOCK_SIZE {
            self.next_with_freq(target, least);
            place = self.place_with_freq(0, target, least);
        }
        place
    }

    // Returns the place of the first document in the block, from `from` on, that is at least `target` and has
    // a term frequency of at least `least`. If there is none, returns a place after the documents, which is
    // 128 in a full block.
    fn place_with_freq(&self, from: usize, target: DocId, least: u32) -> usize
        requires read { IsSome self.now.freqs }
        requires from { from < 128 }
        ensures found { IfSome self.now.freqs (λ freqs. IsPlaced target least self.now.docs freqs (128 * self.now.block + from) self.now.block result) }
        ensures lazy { IsLazy self.now }
    {
        let len = self.docs().len();
        for idx in from..len {
            if self.is_wanted(idx, target, least) {
                return idx;
            }
        }
        len.max(from)
    }

    // Returns whether a document of the block is at least `target`, and has a term frequency of at least
    // `least`.
    fn is_wanted(&self, idx: usize, target: DocId, least: u32) -> bool
        requires read { IsSome self.now.freqs }
        requires inside { idx < length (block_of self.now.docs self.now.block) }
        ensures { IfSome self.now.freqs (λ freqs. result ≡ is_wanted_at target least self.now.docs freqs (128 * self.now.block + idx)) }
    {
        if self.doc(idx) < target {
            return false;
        }
        self.freq(idx) >= least
    }

    // Moves from a full block to the next one that may match, and decodes it. That one ends at or above
    // `target`, and its bound allows a term frequency of at least `least`.
    fn next_with_freq(&mut self, target: DocId, least: u32)
        requires full { self.old.block < length self.old.docs / 128 }
        requires up_to { target ≤ TERMINATED }
        ensures passes { (freqs : List ℕ) → self.old.freqs ≡ Some freqs → PassesBlocks target least self.old.docs freqs self.old.block self.new.block }
        ensures goes { GoesTo self.old self.new self.new.block }
        ensures later { self.old.block < self.new.block }
        ensures lands { excludes least (freq_bound self.old.bounds self.new.block) ≡ false }
    {
        self.checked.seek_with_freq(&mut self.skip, target, least);
        self.checked.load_block(
            &self.skip,
            &mut self.doc_decoder,
            &mut self.freq_decoder,
            &mut self.decoded_blocks,
        );
    }
}
