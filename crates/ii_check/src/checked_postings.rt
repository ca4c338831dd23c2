ghost use Rattle.std.specs.Prelude.{◌≡◌, ◌+◌, ◌/◌, ◌<◌, ◌≤◌, ◌&&◌, ◌==◌, ⊤, [], length, min, nat_lt, true, is_some, None, Some, Ok, Err, IfOk, IfErr, OnErr, OnOk, IfSome, IsOk, IsSome, IsTrue, MatchOption};
ghost use Rattle.std.specs.List.{sum, list_all};
ghost use Rattle.ii_io.specs.Faults.{OnlyMemory};
ghost use Rattle.ii_io.specs.Parts.{part_of};
ghost use Rattle.ii_base.specs.declared.doc_id.TheConstants.{TERMINATED};
ghost use Rattle.ii_base.specs.Options.{downgrade, has_freq, has_positions};
ghost use Rattle.ii_codes.specs.Sums.{fit_u32};
ghost use Rattle.ii_layout.specs.Positions.{positions_of};
ghost use Rattle.ii_layout.specs.Postings.{postings};
ghost use Rattle.ii_layout.specs.TermList.{deltas_if};
ghost use Rattle.ii_check.specs.Positions.{deltas_read};
ghost use Rattle.ii_check.specs.CheckedBlocks.{blocks_checked, freqs_checked};
ghost use Rattle.ii_check.specs.CheckedPositions.{ChecksBytes, ChecksPositions};
ghost use Rattle.ii_check.specs.DecodedBlocks.{LogsBlock};
ghost use Rattle.ii_check.specs.CheckedPostings.{AreGiven, AreLastFreqs, HasDocuments, IsAtBlock, IsSkipData, LoadsBlock, SeeksBlock, SeeksFreq, new_decoder};
ghost use Rattle.ii_check.specs.FreqReading.{freq_reading_of, reading_of_none};

use super::check::freq_reading_option;
use super::checked_blocks::CheckedBlocks;
use super::checked_positions::CheckedPositions;
use super::decoded_blocks::DecodedBlocks;
use super::freq_reading_option::FreqReadingOption;
use super::load::{NO_FREQ, decode_docs, decode_freqs, is_passed};
use super::places::find_postings;
use super::positions::end_of_positions;
use super::validation::Validation;
use bytes::Bytes;
use ii_base::{DocId, Fault, IndexRecordOption, LayoutFault, Part, TERMINATED};
use ii_codes::{BlockDecoder, COMPRESSION_BLOCK_SIZE};
use ii_layout::{PositionReader, SkipPlaces, SkipReader, bytes_from, sum_of};
use std::marker::Model;

/// Holds the validated postings of a term, so that reading a block at its place can't fail. The model is the
/// number of documents, the content of the bytes, and whether term frequencies are read.
pub struct CheckedPostings {
    bytes: Bytes,
    record_option: IndexRecordOption,
    requested_option: IndexRecordOption,
    doc_freq: u32,
    places: SkipPlaces,
    freq_reading_option: FreqReadingOption,
}

// A drop has to be a call.
impl Drop for CheckedPostings {
    fn drop(self) {
        let CheckedPostings {
            bytes: _,
            record_option: _,
            requested_option: _,
            doc_freq: _,
            places: _,
            freq_reading_option: _,
        } = self;
    }
}

impl Model for CheckedPostings {
    ghost use Rattle.ii_check.specs.CheckedPostings.{CheckedPostingsState, IsChecked, given};

    ghost Value = { CheckedPostingsState };

    ghost view = { λ p. record {
      recorded = p.record_option;
      requested = p.requested_option;
      doc_freq = p.doc_freq;
      postings = given p.record_option p.requested_option p.doc_freq p.bytes;
      freq_reading = p.freq_reading_option;
    } };

    ghost invariant = { λ p. IsChecked p.record_option p.requested_option p.doc_freq p.bytes p.places.skip_info p.places.entries p.places.body p.freq_reading_option };
}

impl CheckedPostings {
    /// Opens the postings at the front of `bytes`, of a term in `doc_freq` documents, by the recorded and the
    /// requested option. Returns the first corrupt part.
    ///
    /// Validates the complete list, term frequencies only if they are read. If validation is skipped, the
    /// postings must be valid, and only the first block is decoded, however long the list is.
    ///
    /// Borrows two new decoders, which then hold the documents and the term frequencies of the first block.
    /// After an error they hold anything. The first block is added to `decoded_blocks`. Counts the blocks that
    /// were decoded to validate the list. Never allocates, and ignores the bytes after what is read.
    pub fn open(
        doc_freq: u32,
        bytes: Bytes,
        record_option: IndexRecordOption,
        requested_option: IndexRecordOption,
        validation: Validation,
        doc_decoder: &mut BlockDecoder,
        freq_decoder: &mut BlockDecoder,
        decoded_blocks: &mut DecodedBlocks,
        checked_blocks: &mut CheckedBlocks,
    ) -> Result<CheckedPostings, LayoutFault>
        requires known { validation ≡ Validation.Skipped → IsOk (postings record_option requested_option doc_freq bytes) }
        requires new_docs { doc_decoder.old ≡ new_decoder TERMINATED }
        requires new_freqs { freq_decoder.old ≡ new_decoder 1 }
        ensures ok { IfOk result (λ checked. postings record_option requested_option doc_freq bytes ≡ Ok checked.postings) }
        ensures options { IfOk result (λ checked. (checked.recorded ≡ record_option) × (checked.requested ≡ requested_option)) }
        ensures doc_freq { IfOk result (λ checked. checked.doc_freq ≡ doc_freq) }
        ensures reading { IfOk result (λ checked. checked.freq_reading ≡ freq_reading_of requested_option checked.postings) }

        // What the skip entries hold, and the first block, which is decoded.
        ensures documents { IfOk result (λ checked. HasDocuments checked) }
        ensures first { IfOk result (λ checked. LoadsBlock checked.postings 0 (new_decoder TERMINATED) doc_decoder.new (new_decoder 1) freq_decoder.new) }
        ensures first_logged { IfOk result (λ checked. LogsBlock checked.postings 0 decoded_blocks.old.docs.blocks decoded_blocks.new.docs.blocks decoded_blocks.old.freqs.blocks decoded_blocks.new.freqs.blocks) }
        // What was decoded to validate the list.
        ensures docs_checked { OnOk result (checked_blocks.new.docs.value ≡ checked_blocks.old.docs.value + blocks_checked validation doc_freq) }
        ensures freqs_checked { IfOk result (λ checked. checked_blocks.new.freqs.value ≡ checked_blocks.old.freqs.value + freqs_checked validation checked.freq_reading doc_freq) }
        ensures err { IfErr result (λ fault. postings record_option requested_option doc_freq bytes ≡ Err (part_of fault)) }
    {
        let (places, freq_reading_option) = match find_postings(
            doc_freq,
            bytes.as_slice(),
            record_option,
            requested_option,
            validation,
            doc_decoder,
            freq_decoder,
            checked_blocks,
        ) {
            Ok(found) => found,
            Err(fault) => return Err(fault),
        };
        let checked = CheckedPostings {
            bytes,
            record_option,
            requested_option,
            doc_freq,
            places,
            freq_reading_option,
        };
        checked.first_block(doc_decoder, freq_decoder, decoded_blocks);
        Ok(checked)
    }

    /// Creates the postings of a term in no documents, by the recorded and the requested option. It has no
    /// term frequencies.
    pub fn empty(
        record_option: IndexRecordOption,
        requested_option: IndexRecordOption,
    ) -> CheckedPostings
        ensures options { (result.recorded ≡ record_option) × (result.requested ≡ requested_option) }
        ensures doc_freq { result.doc_freq ≡ 0 }
        ensures documents { result.postings.docs ≡ [] }
        ensures freqs { result.postings.freqs ≡ None }
        ensures entries { result.postings.skip.entries ≡ [] }
        ensures reading { result.freq_reading ≡ reading_of_none record_option requested_option }
        ensures has { HasDocuments result }
    {
        CheckedPostings {
            bytes: Bytes::from_static(&[]),
            record_option,
            requested_option,
            doc_freq: 0,
            places: SkipPlaces {
                skip_info: record_option,
                entries: 0,
                body: 0,
            },
            freq_reading_option: freq_reading_option(record_option, requested_option, 0, &[]),
        }
    }

    // Makes the decoders hold the first block, as new ones would, and adds it to the decoded blocks. After the
    // check of a short list they already hold it.
    fn first_block(
        &self,
        doc_decoder: &mut BlockDecoder,
        freq_decoder: &mut BlockDecoder,
        decoded_blocks: &mut DecodedBlocks,
    )
        requires { self.now.doc_freq < 128 → LoadsBlock self.now.postings 0 (new_decoder TERMINATED) doc_decoder.old (new_decoder 1) freq_decoder.old }
        ensures loads { LoadsBlock self.now.postings 0 (new_decoder TERMINATED) doc_decoder.new (new_decoder 1) freq_decoder.new }
        ensures logs { LogsBlock self.now.postings 0 decoded_blocks.old.docs.blocks decoded_blocks.new.docs.blocks decoded_blocks.old.freqs.blocks decoded_blocks.new.freqs.blocks }
    {
        let skip = self.skip_reader();
        if self.doc_freq < COMPRESSION_BLOCK_SIZE as u32 {
            decoded_blocks.docs = decoded_blocks.docs.with_block(&skip, doc_decoder);
            decoded_blocks.freqs = decoded_blocks.freqs.with_block(&skip, freq_decoder);
            return;
        }
        *doc_decoder = BlockDecoder::with_val(TERMINATED);
        *freq_decoder = BlockDecoder::with_val(NO_FREQ);
        self.load_block(&skip, doc_decoder, freq_decoder, decoded_blocks);
    }

    /// Clones the postings. The bytes are shared. Returns `OutOfMemory` if an allocation fails.
    pub fn clone(&self) -> Result<CheckedPostings, Fault>
        ensures same { IfOk result (λ checked. checked ≡ self.now) }
        ensures only { OnlyMemory result }
    {
        let bytes = self.bytes.clone()?;
        Ok(CheckedPostings {
            bytes,
            record_option: self.record_option,
            requested_option: self.requested_option,
            doc_freq: self.doc_freq,
            places: self.places,
            freq_reading_option: self.freq_reading_option,
        })
    }

    /// Returns the option that the field of the term records.
    pub fn record_option(&self) -> IndexRecordOption
        ensures { result ≡ self.now.recorded }
    {
        self.record_option
    }

    /// Returns the requested option.
    pub fn requested_option(&self) -> IndexRecordOption
        ensures { result ≡ self.now.requested }
    {
        self.requested_option
    }

    /// Returns the number of documents of the term.
    pub fn doc_freq(&self) -> u32
        ensures { result ≡ self.now.doc_freq }
    {
        self.doc_freq
    }

    /// Returns whether term frequencies are read.
    pub fn freq_reading_option(&self) -> FreqReadingOption
        ensures { result ≡ self.now.freq_reading }
    {
        self.freq_reading_option
    }

    /// Returns whether the term has term frequencies, or would have them if it was in 128 documents.
    pub fn has_freq(&self) -> bool
        ensures { result ≡ has_freq self.now.postings.skip.skip_info }
    {
        self.places.skip_info.has_freq()
    }

    /// Opens a skip reader at the first block.
    pub fn skip_reader(&self) -> SkipReader
        ensures at { IsAtBlock self.now result }
        ensures first { result.block ≡ 0 }
    {
        SkipReader::new(self.skip_data(), self.doc_freq, self.places.skip_info)
    }

    /// Moves to the next block; after the last one there is an empty one, where it stays.
    pub fn advance(&self, skip: &mut SkipReader)
        requires { IsAtBlock self.now skip.old }
        ensures at { IsAtBlock self.now skip.new }
        ensures block { skip.new.block ≡ min (skip.old.block + 1) (self.now.doc_freq / 128 + 1) }
    {
        skip.advance(self.skip_data());
    }

    /// Moves to the first block, from the current one on, whose last document is at least `target`, or else
    /// to the last block. If it is already there, or after it, it doesn't move. Returns whether it moved.
    pub fn seek(&self, skip: &mut SkipReader, target: DocId) -> bool
        requires at { IsAtBlock self.now skip.old }
        requires up_to { target ≤ TERMINATED }
        ensures at { IsAtBlock self.now skip.new }
        ensures seeks { SeeksBlock target self.now.postings.docs skip.old.block skip.new.block }
        ensures moved { result ≡ nat_lt skip.old.block skip.new.block }
    {
        skip.seek(self.skip_data(), target)
    }

    /// Moves past the current block, which is full, to the first one that may match: it ends at or above
    /// `target`, and its bound allows a term frequency of at least `least`. If there is none it moves to the
    /// documents after the full blocks.
    pub fn seek_with_freq(&self, skip: &mut SkipReader, target: DocId, least: u32)
        requires at { IsAtBlock self.now skip.old }
        requires full { skip.old.block < self.now.doc_freq / 128 }
        requires up_to { target ≤ TERMINATED }
        ensures at { IsAtBlock self.now skip.new }
        ensures seeks { SeeksFreq target least self.now.postings skip.old.block skip.new.block }
    {
        // For the proof: what each entry holds about its block.
        let _entries = self.skip_data();
        self.advance(skip);
        while is_passed(skip, target, least) {
            self.advance(skip);
        }
    }

    /// Opens the positions in `bytes`, if both options have positions, term frequencies are read and bytes
    /// are given. Else the bytes are ignored. Never allocates.
    ///
    /// Validates all positions. Returns `Positions` if they are not as many as the term frequencies say, or
    /// one exceeds `u32::MAX`. If validation is skipped, the positions must be valid, and only the width of
    /// each block and the last positions are read. Counts the blocks that were decoded to validate them.
    pub fn open_positions(
        &self,
        bytes: Option<Bytes>,
        validation: Validation,
        checked_positions: &mut CheckedPositions,
    ) -> Result<Option<PositionReader>, LayoutFault>
        requires { validation ≡ Validation.Skipped → IsSome (deltas_if (has_positions (downgrade self.now.recorded self.now.requested)) self.now.postings.freqs bytes) }
        ensures ok { IfOk result (λ opened. deltas_if (has_positions (downgrade self.now.recorded self.now.requested)) self.now.postings.freqs bytes
            ≡ Some (deltas_read opened)) }
        ensures decodes { IfOk result (λ opened. MatchOption opened ⊤ (λ reader. reader.decodes ≤ 1)) }
        ensures checked { OnOk result (ChecksPositions validation self.now.doc_freq bytes checked_positions.old checked_positions.new) }
        ensures refused { OnErr result (deltas_if (has_positions (downgrade self.now.recorded self.now.requested)) self.now.postings.freqs bytes ≡ None) }
        ensures err { IfErr result (λ fault. fault ≡ LayoutFault.Damaged Part.Positions) }
    {
        match validation {
            Validation::Complete => self.validate_positions(bytes, checked_positions),
            Validation::Skipped => Ok(self.known_positions(bytes)),
        }
    }

    // Opens positions, and validates them.
    fn validate_positions(
        &self,
        bytes: Option<Bytes>,
        checked_positions: &mut CheckedPositions,
    ) -> Result<Option<PositionReader>, LayoutFault>
        ensures ok { IfOk result (λ opened. deltas_if (has_positions (downgrade self.now.recorded self.now.requested)) self.now.postings.freqs bytes
            ≡ Some (deltas_read opened)) }
        ensures decodes { IfOk result (λ opened. MatchOption opened ⊤ (λ reader. reader.decodes ≤ 1)) }
        ensures checked { OnOk result (ChecksBytes 1 self.now.doc_freq bytes checked_positions.old checked_positions.new) }
        ensures refused { OnErr result (deltas_if (has_positions (downgrade self.now.recorded self.now.requested)) self.now.postings.freqs bytes ≡ None) }
        ensures err { IfErr result (λ fault. fault ≡ LayoutFault.Damaged Part.Positions) }
    {
        if bytes.is_none() {
            return Ok(None);
        }
        if !self.reads_positions() {
            return Ok(None);
        }
        let mut skip = self.skip_reader();
        for _block in 0..self.doc_freq / COMPRESSION_BLOCK_SIZE as u32 {
            self.advance(&mut skip);
        }
        let mut doc_decoder = BlockDecoder::with_val(TERMINATED);
        let mut freq_decoder = BlockDecoder::with_val(NO_FREQ);
        let mut decoded_blocks = DecodedBlocks::none();
        self.load_block(
            &skip,
            &mut doc_decoder,
            &mut freq_decoder,
            &mut decoded_blocks,
        );
        checked_positions.add_lists(&doc_decoder, &freq_decoder);
        self.open_counted_positions(bytes, freq_decoder.output_array(), checked_positions)
    }

    /// Opens and validates the positions in `bytes` as `open_positions` does, given the term frequencies of
    /// the last block, which are fewer than 128.
    pub fn open_counted_positions(
        &self,
        bytes: Option<Bytes>,
        last_freqs: &[u32],
        checked_positions: &mut CheckedPositions,
    ) -> Result<Option<PositionReader>, LayoutFault>
        requires { AreLastFreqs self.now.postings.freqs (self.now.doc_freq / 128) last_freqs.now }
        ensures ok { IfOk result (λ opened. deltas_if (has_positions (downgrade self.now.recorded self.now.requested)) self.now.postings.freqs bytes
            ≡ Some (deltas_read opened)) }
        ensures decodes { IfOk result (λ opened. MatchOption opened ⊤ (λ reader. reader.decodes ≤ 1)) }
        ensures checked { OnOk result (ChecksBytes 0 self.now.doc_freq bytes checked_positions.old checked_positions.new) }
        ensures refused { OnErr result (deltas_if (has_positions (downgrade self.now.recorded self.now.requested)) self.now.postings.freqs bytes ≡ None) }
        ensures err { IfErr result (λ fault. fault ≡ LayoutFault.Damaged Part.Positions) }
    {
        let Some(bytes) = bytes else {
            return Ok(None);
        };
        if !self.reads_positions() {
            return Ok(None);
        }
        let mut reader = match PositionReader::open(bytes) {
            Ok(reader) => reader,
            Err(fault) => return Err(fault),
        };
        if reader.len() != u128::from(self.num_positions(last_freqs)) {
            return Err(LayoutFault::Damaged(Part::Positions));
        }
        // No position exceeds the sum of all deltas.
        let mut decoder = BlockDecoder::with_val(0);
        let is_small = reader.has_small_sum(&mut decoder);
        checked_positions.add_positions(&decoder);
        if is_small {
            return Ok(Some(reader));
        }
        if !self.are_positions(&mut reader, checked_positions) {
            return Err(LayoutFault::Damaged(Part::Positions));
        }
        checked_positions.add_reader(&reader);
        Ok(Some(reader.anew()))
    }

    // Opens positions that are known to be valid.
    fn known_positions(&self, bytes: Option<Bytes>) -> Option<PositionReader>
        requires { IsSome (deltas_if (has_positions (downgrade self.now.recorded self.now.requested)) self.now.postings.freqs bytes) }
        ensures ok { deltas_if (has_positions (downgrade self.now.recorded self.now.requested)) self.now.postings.freqs bytes
            ≡ Some (deltas_read result) }
        ensures decodes { MatchOption result ⊤ (λ reader. reader.decodes ≤ 1) }
    {
        let Some(bytes) = bytes else {
            return None;
        };
        if !self.reads_positions() {
            return None;
        }
        match PositionReader::open(bytes) {
            Ok(reader) => Some(reader),
            Err(_) => unreachable!(),
        }
    }

    // Returns the number of positions by the term frequencies: the sums in the skip entries, plus the
    // frequencies of the last block.
    fn num_positions(&self, last_freqs: &[u32]) -> u64
        requires recorded { has_positions self.now.recorded ≡ true }
        requires read { IsSome self.now.postings.freqs }
        requires last { AreLastFreqs self.now.postings.freqs (self.now.doc_freq / 128) last_freqs.now }
        ensures { IfSome self.now.postings.freqs (λ freqs. result ≡ sum freqs) }
    {
        let mut skip = self.skip_reader();
        for _block in 0..self.doc_freq / COMPRESSION_BLOCK_SIZE as u32 {
            self.advance(&mut skip);
        }
        skip.position_offset() + sum_of(last_freqs)
    }

    // Returns whether positions are read if they are given.
    fn reads_positions(&self) -> bool
        ensures { result ≡ (has_positions (downgrade self.now.recorded self.now.requested) && is_some self.now.postings.freqs) }
    {
        self.record_option
            .downgrade(self.requested_option)
            .has_positions()
            && self.freq_reading_option.is_read()
    }

    // Returns whether a reader has the positions of the term, as many as its term frequencies say.
    fn are_positions(
        &self,
        reader: &mut PositionReader,
        checked_positions: &mut CheckedPositions,
    ) -> bool
        requires { IsSome self.now.postings.freqs }
        ensures are { IfSome self.now.postings.freqs (λ freqs. result
            ≡ (length reader.old.deltas == sum freqs && list_all fit_u32 (positions_of freqs reader.old.deltas))) }
        ensures deltas { reader.new.deltas ≡ reader.old.deltas }
        ensures decodes { IsTrue result → reader.new.decodes ≤ reader.old.decodes + length reader.old.deltas / 128 + 1 }
        ensures docs_checked { IsTrue result → checked_positions.new.docs ≤ checked_positions.old.docs + self.now.doc_freq / 128 + 1 }
        ensures freqs_checked { IsTrue result → checked_positions.new.freqs ≤ checked_positions.old.freqs + self.now.doc_freq / 128 + 1 }
        ensures positions_checked { IsTrue result → checked_positions.new.positions ≡ checked_positions.old.positions }
    {
        let mut skip = self.skip_reader();
        let mut doc_decoder = BlockDecoder::with_val(TERMINATED);
        let mut freq_decoder = BlockDecoder::with_val(NO_FREQ);
        let mut decoded_blocks = DecodedBlocks::none();
        let mut end = 0;
        // The last block has fewer documents.
        let blocks = self.doc_freq / COMPRESSION_BLOCK_SIZE as u32 + 1;
        for _block in 0..blocks {
            self.load_block(
                &skip,
                &mut doc_decoder,
                &mut freq_decoder,
                &mut decoded_blocks,
            );
            let Some(next) = end_of_positions(reader, end, freq_decoder.output_array()) else {
                return false;
            };
            end = next;
            self.advance(&mut skip);
        }
        checked_positions.add_lists(&doc_decoder, &freq_decoder);
        u128::from(end) == reader.len()
    }

    /// Decodes the block of the skip reader: its documents, followed by `TERMINATED`, and its term
    /// frequencies if they are read, followed by 1. The block is added to the decoded blocks.
    pub fn load_block(
        &self,
        skip: &SkipReader,
        doc_decoder: &mut BlockDecoder,
        freq_decoder: &mut BlockDecoder,
        decoded_blocks: &mut DecodedBlocks,
    )
        requires { IsAtBlock self.now skip.now }
        ensures loads { LoadsBlock self.now.postings skip.now.block doc_decoder.old doc_decoder.new freq_decoder.old freq_decoder.new }
        ensures logs { LogsBlock self.now.postings skip.now.block decoded_blocks.old.docs.blocks decoded_blocks.new.docs.blocks decoded_blocks.old.freqs.blocks decoded_blocks.new.freqs.blocks }
    {
        let info = skip.block_info();
        let bytes = bytes_from(self.body(), skip.byte_offset());
        let used = decode_docs(doc_decoder, info, skip.last_doc_in_previous_block(), bytes);
        decoded_blocks.docs = decoded_blocks.docs.with_block(skip, doc_decoder);
        if !self.freq_reading_option.is_read() {
            return;
        }
        decode_freqs(freq_decoder, info, bytes_from(bytes, used));
        decoded_blocks.freqs = decoded_blocks.freqs.with_block(skip, freq_decoder);
    }

    // Returns the bytes from the skip entries on.
    fn skip_data(&self) -> &[u8]
        ensures entries { IsSkipData self.now result.now }
        ensures given { AreGiven self.now }
    {
        bytes_from(self.bytes.as_slice(), self.places.entries)
    }

    // Returns the bytes from the blocks on.
    fn body(&self) -> &[u8]
        ensures body { result.now ≡ self.now.postings.skip.body }
        ensures given { AreGiven self.now }
    {
        bytes_from(self.bytes.as_slice(), self.places.body)
    }
}
