ghost use Rattle.std.specs.Prelude.{◌≡◌, ◌+◌, ◌*◌, ◌/◌, ◌^◌, ◌<◌, ◌≤◌, ◌⊎◌, ◌++◌, ◌-◌, ◌∷◌, false, not, [], drop, get_or, take, length, map, min, Ok, Err, IfOk, IfErr, OnOk, OnErr, IsOk, IsSome, IsTrue};
ghost use Rattle.std.specs.List.{All};
ghost use Rattle.ii_io.specs.Faults.{OnlyMemory};
ghost use Rattle.ii_io.specs.Parts.{part_of};
ghost use Rattle.ii_codes.specs.Sums.{fit_u32, running_sums};
ghost use Rattle.ii_docset.specs.Alive.{IsCovered, alive_in};
ghost use Rattle.ii_docset.specs.Cursor.{doc_at, from_doc, position_before, positions_at, term_freq_at, IsCurrent, IsSound, IsTarget};
ghost use Rattle.ii_base.specs.Options.{downgrade, has_positions};
ghost use Rattle.ii_layout.specs.TermList.{deltas_if, list_of, term_list};
ghost use Rattle.ii_check.specs.CheckedBlocks.{no_blocks};
ghost use Rattle.ii_check.specs.CheckedPositions.{ChecksPositions, no_position_blocks};
ghost use Rattle.ii_check.specs.DecodedBlocks.{DecodesAllowed};
ghost use Rattle.ii_check.specs.CheckedPostings.{is_read};
ghost use Rattle.ii_check.specs.Positions.{deltas_read};
ghost use Rattle.ii_reader.specs.Bounds.{AllowsFreq, blocks_with_freq, sought_with_freq, trusted};
ghost use Rattle.ii_reader.specs.BlockSegmentPostings.{cursor_of_none};
ghost use Rattle.ii_reader.specs.SegmentPostings.{DecodesOnce, DecodesPositions, FitCursor, OpensList, OpensParts, SpentLazily, StandsInBlock, StaysLazy, WentLazily, decodes_read, postings_from, postings_of_none};

use super::block_segment_postings::BlockSegmentPostings;
use bytes::Bytes;
use ii_base::{AliveBitSet, Fault, HasLen, IndexRecordOption, LayoutFault, Part};
use ii_check::{CheckedPositions, FreqReadingOption, Validation};
use ii_codes::COMPRESSION_BLOCK_SIZE;
use ii_docset::{DocId, DocSet, Postings, SeekOnce, TERMINATED};
use ii_layout::PositionReader;
use std::marker::Model;

/// A cursor over the postings of a term, which holds one decoded block.
pub struct SegmentPostings {
    block_cursor: BlockSegmentPostings,
    cur: usize,
    position_reader: Option<PositionReader>,
    checked_positions: CheckedPositions,
}

// A drop has to be a call.
impl Drop for SegmentPostings {
    fn drop(self) {
        let SegmentPostings {
            block_cursor: _,
            cur: _,
            position_reader: _,
            checked_positions: _,
        } = self;
    }
}

impl Model for SegmentPostings {
    ghost use Rattle.std.specs.Prelude.{◌≡◌, ◌+◌, ◌*◌, ◌/◌, ◌<◌, ◌≤◌, drop, length, is_some};
    ghost use Rattle.ii_layout.specs.TermList.{list_of};
    ghost use Rattle.ii_check.specs.CheckedPostings.{is_read};
    ghost use Rattle.ii_check.specs.Positions.{deltas_read};
    ghost use Rattle.ii_reader.specs.BlockSegmentPostings.{AreEntries};
    ghost use Rattle.ii_reader.specs.Bounds.{trusted};
    ghost use Rattle.ii_reader.specs.SegmentPostings.{FitCursor, SegmentPostingsState, decodes_read};

    ghost Value = { SegmentPostingsState };

    ghost view = { λ s. record {
      rest = drop (128 * s.block_cursor.block + s.cur) (list_of s.block_cursor.docs s.block_cursor.freqs (deltas_read s.position_reader));
      doc_freq = length s.block_cursor.docs;
      freq_reading = s.block_cursor.freq_reading;
      bounds = trusted s.block_cursor.freq_reading s.block_cursor.bounds;
      block = s.block_cursor.block;
      doc_blocks = s.block_cursor.doc_blocks;
      freq_blocks = s.block_cursor.freq_blocks;
      doc_decodes = s.block_cursor.doc_decodes;
      freq_decodes = s.block_cursor.freq_decodes;
      entries_read = s.block_cursor.entries_read;
      position_decodes = decodes_read s.position_reader;
      checked = s.block_cursor.checked;
      positions_checked = s.checked_positions;
    } };

    ghost invariant = { λ s. (s.cur < 128)
        × AreEntries (length s.block_cursor.docs) s.block_cursor.docs s.block_cursor.freqs
        × (is_some s.block_cursor.freqs ≡ is_read s.block_cursor.freq_reading)
        × (s.block_cursor.block ≤ length s.block_cursor.docs / 128 + 1)
        × FitCursor s.block_cursor (deltas_read s.position_reader) };
}

impl SegmentPostings {
    /// Validates the list of `doc_freq` documents at the front of `postings`, by the recorded and the
    /// requested option, and opens a cursor over it. Returns the first corrupt part.
    ///
    /// Validates all documents, then all term frequencies if they are read, and then all positions. Each block
    /// of documents and of term frequencies is decoded once for the former. The positions need each of their
    /// blocks once more, and the last block of documents and of term frequencies; if the sum of all deltas
    /// exceeds 32 bits, all of these blocks again. Positions are ignored unless both options have them, term
    /// frequencies are read, and bytes of positions are given. Ignores the bytes after the list. Never
    /// allocates.
    pub fn open(
        doc_freq: u32,
        postings: Bytes,
        positions: Option<Bytes>,
        record_option: IndexRecordOption,
        requested_option: IndexRecordOption,
    ) -> Result<SegmentPostings, LayoutFault>
        ensures opened { IfOk result (OpensList Validation.Complete record_option requested_option doc_freq postings positions) }
        ensures err { IfErr result (λ fault. term_list record_option requested_option doc_freq postings positions ≡ Err (part_of fault)) }
    {
        let mut block_cursor = BlockSegmentPostings::empty_by(record_option, requested_option);
        let mut position_reader = None;
        let mut checked_positions = CheckedPositions::none();
        if let Err(fault) = fill(
            &mut block_cursor,
            &mut position_reader,
            &mut checked_positions,
            doc_freq,
            postings,
            positions,
            Validation::Complete,
        ) {
            return Err(fault);
        }
        Ok(SegmentPostings::from_parts(block_cursor, position_reader, checked_positions))
    }

    /// Opens a cursor over known postings and positions, by the recorded and the requested option. `postings`
    /// must begin with a valid list of `doc_freq` documents, and `positions` must hold its positions.
    ///
    /// Reads only the first block. Of positions it reads the width of each block, and the last ones. Never
    /// allocates.
    pub fn open_known(
        doc_freq: u32,
        postings: Bytes,
        positions: Option<Bytes>,
        record_option: IndexRecordOption,
        requested_option: IndexRecordOption,
    ) -> SegmentPostings
        requires { IsOk (term_list record_option requested_option doc_freq postings positions) }
        ensures { OpensList Validation.Skipped record_option requested_option doc_freq postings positions result }
    {
        let mut block_cursor = BlockSegmentPostings::empty_by(record_option, requested_option);
        let mut position_reader = None;
        let mut checked_positions = CheckedPositions::none();
        let Ok(()) = fill(
            &mut block_cursor,
            &mut position_reader,
            &mut checked_positions,
            doc_freq,
            postings,
            positions,
            Validation::Skipped,
        ) else {
            unreachable!()
        };
        SegmentPostings::from_parts(block_cursor, position_reader, checked_positions)
    }

    /// Replaces the list, as `open` does with the same arguments: by the list of `doc_freq` documents at the
    /// front of `postings`, at its first document. Returns the first corrupt part; the cursor is then over no
    /// documents, and can be reset again. Never allocates.
    pub fn reset(
        &mut self,
        doc_freq: u32,
        postings: Bytes,
        positions: Option<Bytes>,
        record_option: IndexRecordOption,
        requested_option: IndexRecordOption,
    ) -> Result<(), LayoutFault>
        ensures opened { OnOk result (OpensList Validation.Complete record_option requested_option doc_freq postings positions self.new) }
        ensures err { IfErr result (λ fault. term_list record_option requested_option doc_freq postings positions ≡ Err (part_of fault)) }
        ensures emptied { OnErr result (self.new ≡ postings_of_none record_option requested_option) }
    {
        self.cur = 0;
        self.position_reader = None;
        self.checked_positions = CheckedPositions::none();
        self.block_cursor.clear_by(record_option, requested_option);
        fill(
            &mut self.block_cursor,
            &mut self.position_reader,
            &mut self.checked_positions,
            doc_freq,
            postings,
            positions,
            Validation::Complete,
        )
    }

    // Removes the list, and sets the two options.
    pub(crate) fn clear_by(
        &mut self,
        record_option: IndexRecordOption,
        requested_option: IndexRecordOption,
    )
        ensures { self.new ≡ postings_of_none record_option requested_option }
    {
        self.cur = 0;
        self.position_reader = None;
        self.checked_positions = CheckedPositions::none();
        self.block_cursor.clear_by(record_option, requested_option);
    }

    /// Opens a cursor over no documents.
    pub fn empty() -> SegmentPostings
        ensures { result ≡ record { rest = []; doc_freq = 0; freq_reading = FreqReadingOption.NoFreq; bounds = []; block = 0; doc_blocks = []; freq_blocks = []; doc_decodes = 0; freq_decodes = 0; entries_read = 0; position_decodes = 0; checked = no_blocks; positions_checked = no_position_blocks } }
    {
        SegmentPostings::from_block_postings(BlockSegmentPostings::empty(), None)
    }

    /// Opens a cursor over the documents of a block cursor from its block on, with the positions of a reader.
    ///
    /// If a reader is given, both options of the block cursor must have positions, and its term frequencies
    /// must be read. The reader must have as many deltas as they say, and each position must fit in 32 bits.
    #[inline(always)]
    pub fn from_block_postings(
        segment_block_postings: BlockSegmentPostings,
        position_reader: Option<PositionReader>,
    ) -> SegmentPostings
        requires { FitCursor segment_block_postings (deltas_read position_reader) }
        ensures { result ≡ postings_from (128 * segment_block_postings.block) segment_block_postings position_reader no_position_blocks }
    {
        SegmentPostings::from_parts(
            segment_block_postings,
            position_reader,
            CheckedPositions::none(),
        )
    }

    // Opens a cursor as `from_block_postings` does, given what was decoded to validate the positions.
    #[inline(always)]
    fn from_parts(
        block_cursor: BlockSegmentPostings,
        position_reader: Option<PositionReader>,
        checked_positions: CheckedPositions,
    ) -> SegmentPostings
        requires { FitCursor block_cursor (deltas_read position_reader) }
        ensures { result ≡ postings_from (128 * block_cursor.block) block_cursor position_reader checked_positions }
    {
        // What the cursor gives about its list and its block.
        let _docs = block_cursor.docs();
        let _reading = block_cursor.freq_reading_option();
        SegmentPostings {
            block_cursor,
            cur: 0,
            position_reader,
            checked_positions,
        }
    }

    /// Clones the cursor with its current document and its numbers of decodes. The bytes are shared. Returns
    /// `OutOfMemory` if an allocation fails.
    pub fn clone(&self) -> Result<SegmentPostings, Fault>
        ensures same { IfOk result (λ cursor. cursor ≡ self.now) }
        ensures only { OnlyMemory result }
    {
        let block_cursor = self.block_cursor.clone()?;
        let position_reader = match &self.position_reader {
            Some(reader) => Some(reader.clone()?),
            None => None,
        };
        Ok(SegmentPostings {
            block_cursor,
            cur: self.cur,
            position_reader,
            checked_positions: self.checked_positions.same(),
        })
    }

    /// Returns the number of documents of the term.
    pub fn doc_freq(&self) -> u32
        ensures { result ≡ self.now.doc_freq }
    {
        self.block_cursor.doc_freq()
    }

    /// Moves to the first document that is at least `target` and has a term frequency of at least `least`,
    /// and returns it, or `TERMINATED`. Each frequency is 1 if term frequencies aren't read.
    ///
    /// Skips blocks that end below the target or, by their bounds, have no such frequency. Decodes each other
    /// block once.
    pub fn seek_with_freq(&mut self, target: DocId, least: u32) -> DocId
        requires { IsTarget target self.old.rest }
        ensures doc { result ≡ doc_at self.new.rest }
        ensures rest { self.new.rest ≡ sought_with_freq target least self.old.rest }
        ensures sound { IsSound self.new.rest }
        ensures lazy { StaysLazy self.new }
        ensures place { StandsInBlock self.new }
        ensures work { WentLazily self.old self.new }
        // Only blocks whose bound allows such a frequency, each at most once.
        ensures doc_blocks { DecodesAllowed (AllowsFreq least self.old.bounds) self.old.block self.new.block self.old.doc_blocks self.new.doc_blocks }
        ensures freq_blocks { DecodesAllowed (AllowsFreq least self.old.bounds) self.old.block self.new.block self.old.freq_blocks self.new.freq_blocks }
        ensures decodes { self.new.doc_decodes ≤ self.old.doc_decodes + blocks_with_freq least self.old.bounds self.old.block self.new.block }
        ensures freqs { self.new.freq_decodes ≤ self.old.freq_decodes + blocks_with_freq least self.old.bounds self.old.block self.new.block }
    {
        // For the proof: documents ascend.
        let _doc = self.doc();
        if self.block_cursor.freq_reading_option().is_read() {
            self.cur = self.block_cursor.seek_with_freq(self.cur, target, least);
            return self.doc();
        }
        if least <= 1 {
            return self.seek(target);
        }
        self.seek(TERMINATED)
    }

    /// Returns how many of the remaining documents are alive. The set must cover each of them. Iterates over
    /// a clone of the cursor, and returns `OutOfMemory` if that can't be allocated.
    pub fn doc_freq_given_deletes(&self, alive_bitset: &AliveBitSet) -> Result<u32, Fault>
        requires { IsCovered alive_bitset.now self.now.rest }
        ensures ok { IfOk result (λ count. count ≡ alive_in alive_bitset.now self.now.rest) }
        ensures only { OnlyMemory result }
    {
        let mut cursor = self.clone()?;
        Ok(cursor.count(alive_bitset))
    }
}

impl DocSet for SegmentPostings {
    ghost use Rattle.std.specs.Prelude.{◌≡◌, not};
    ghost use Rattle.ii_check.specs.CheckedPostings.{is_read};
    ghost use Rattle.ii_reader.specs.SegmentPostings.{WentLazily};
    ghost use Rattle.ii_reader.specs.SegmentPostingsLemmas.{went_nowhere, went_on};

    ghost rest = { λ s. s.rest };

    ghost always_one = { λ s. not (is_read s.freq_reading) };

    ghost hints = { λ s n. n ≡ s.doc_freq };

    ghost went = { λ a b. WentLazily a b };

    ghost went_nowhere = { λ s. went_nowhere s };

    ghost went_on = { λ a b c first second. went_on a b c first second };

    #[inline(always)]
    fn advance(&mut self) -> DocId
        ensures doc { result ≡ doc_at self.new.rest }
        ensures rest { self.new.rest ≡ drop 1 self.old.rest }

        // What stays the same, and the cost.
        ensures sound { IsSound self.new.rest }
        ensures kind { not (is_read self.new.freq_reading) ≡ not (is_read self.old.freq_reading) }
        ensures work { WentLazily self.old self.new }
        // What a caller learns beyond the trait.
        ensures once { DecodesOnce self.old self.new }
        ensures next { self.new.block ≤ self.old.block + 1 }
        ensures lazy { StaysLazy self.new }
        ensures place { StandsInBlock self.new }
    {
        if self.cur < COMPRESSION_BLOCK_SIZE - 1 {
            self.cur += 1;
            return self.doc();
        }
        self.cur = 0;
        self.block_cursor.advance();
        self.doc()
    }

    #[inline(always)]
    fn doc(&self) -> DocId
        ensures doc { result ≡ doc_at self.now.rest }
        ensures sound { IsSound self.now.rest }
        // What a caller learns beyond the trait.
        ensures lazy { StaysLazy self.now }
        ensures place { StandsInBlock self.now }
    {
        self.block_cursor.doc(self.cur)
    }

    /// Moves to the first document that is at least `target`, and returns it, or `TERMINATED`. Decodes at
    /// most one block, and none that it skips. Tests the next document before any search.
    #[inline(always)]
    fn seek(&mut self, target: DocId) -> DocId
        requires { IsTarget target self.old.rest }
        ensures doc { result ≡ doc_at self.new.rest }
        ensures rest { self.new.rest ≡ from_doc target self.old.rest }

        // What stays the same, and the cost.
        ensures sound { IsSound self.new.rest }
        ensures kind { not (is_read self.new.freq_reading) ≡ not (is_read self.old.freq_reading) }
        ensures work { WentLazily self.old self.new }
        // What a caller learns beyond the trait.
        ensures once { DecodesOnce self.old self.new }
        ensures lazy { StaysLazy self.new }
        ensures place { StandsInBlock self.new }
    {
        let doc = self.doc();
        if doc >= target {
            return doc;
        }
        self.cur = (self.cur + 1).min(COMPRESSION_BLOCK_SIZE - 1);
        let next = self.doc();
        if next >= target {
            return next;
        }
        self.cur = self.block_cursor.seek(target);
        self.doc()
    }

    fn size_hint(&self) -> u32
        ensures hint { result ≡ self.now.doc_freq }
        ensures enough { length self.now.rest ≤ result }
    {
        self.block_cursor.doc_freq()
    }
}

impl SeekOnce for SegmentPostings {
    ghost use Rattle.ii_reader.specs.SegmentPostings.{DecodesOnce};

    ghost sought = { λ a b. DecodesOnce a b };

    #[inline(always)]
    fn seek_once(&mut self, target: DocId) -> DocId {
        self.seek(target)
    }
}

impl Postings for SegmentPostings {
    ghost use Rattle.ii_reader.specs.SegmentPostings.{SpentLazily};
    ghost use Rattle.ii_reader.specs.SegmentPostingsLemmas.{spent_moving, spent_more, spent_on};

    ghost spent = { λ asked counts a b. SpentLazily asked counts a b };

    ghost spent_moving = { λ a b moved. spent_moving a b moved };

    ghost spent_more = { λ k m l n a b few low did. spent_more k m l n a b few low did };

    ghost spent_on = { λ k m l n a b c first second. spent_on k m l n a b c first second };

    fn term_freq(&self) -> u32
        requires { IsTrue (not (is_read self.now.freq_reading)) ⊎ IsCurrent self.now.rest }
        ensures freq { result ≡ term_freq_at (not (is_read self.now.freq_reading)) self.now.rest }
        ensures positions { length (positions_at self.now.rest) ≤ result }
        // What a caller learns beyond the trait.
        ensures entry { result ≡ term_freq_at false self.now.rest }
    {
        self.block_cursor.freq(self.cur)
    }

    /// Appends the positions of the current document, each plus `offset`, to `output`. Decodes the blocks of
    /// positions that hold them, and no documents or term frequencies.
    fn append_positions_with_offset(
        &mut self,
        offset: u32,
        output: &mut Vec<u32>,
    ) -> Result<(), Fault>
        requires current { IsCurrent self.old.rest }
        requires fits { All (λ p. p + offset < 2 ^ 32) (positions_at self.old.rest) }
        ensures ok { OnOk result (output.new.items ≡ output.old.items ++ map (λ p. p + offset) (positions_at self.old.rest)) }
        ensures err { OnErr result (output.new.items ≡ output.old.items) }
        ensures only { OnlyMemory result }

        // What stays the same, and the cost.
        ensures rest { self.new.rest ≡ self.old.rest }
        ensures kind { not (is_read self.new.freq_reading) ≡ not (is_read self.old.freq_reading) }
        ensures work { SpentLazily 1 (term_freq_at (not (is_read self.old.freq_reading)) self.old.rest) self.old self.new }
        // What a caller learns beyond the trait.
        ensures decodes { DecodesPositions (term_freq_at (not (is_read self.old.freq_reading)) self.old.rest) self.old self.new }
    {
        let Some(reader) = &mut self.position_reader else {
            return Ok(());
        };
        let start = self.block_cursor.position_offset(self.cur);
        let count = self.block_cursor.freq(self.cur);
        append_positions(reader, start, count, offset, output)
    }

    /// Writes the positions of the current document from number `from` on to the front of `output`. Decodes
    /// the blocks of positions that hold them, and no documents or term frequencies.
    fn read_positions(&mut self, from: usize, before: u32, output: &mut [u32]) -> usize
        requires current { IsCurrent self.old.rest }
        requires before { before ≡ position_before from (positions_at self.old.rest) }
        ensures count { result ≡ min (length output.old) (length (positions_at self.old.rest) - from) }
        ensures read { output.new ≡ take (length output.old) (drop from (positions_at self.old.rest)) ++ drop (length (positions_at self.old.rest) - from) output.old }
        ensures few { length (positions_at self.old.rest) < 2 ^ 32 }

        // What stays the same, and the cost.
        ensures rest { self.new.rest ≡ self.old.rest }
        ensures kind { not (is_read self.new.freq_reading) ≡ not (is_read self.old.freq_reading) }
        ensures work { SpentLazily 1 result self.old self.new }
        // What a caller learns beyond the trait.
        ensures decodes { DecodesPositions result self.old self.new }
    {
        // For the proof: positions have 32 bits.
        let _doc = self.doc();
        let Some(reader) = &mut self.position_reader else {
            return 0;
        };
        let start = self.block_cursor.position_offset(self.cur);
        let count = self.block_cursor.freq(self.cur);
        read_piece(reader, start, count, from, before, output)
    }
}

// Opens a list in a block cursor over no documents and, if they are read, its positions. The list must be
// valid if validation is skipped. After an error the cursor is over no documents.
#[inline(always)]
fn fill(
    block_cursor: &mut BlockSegmentPostings,
    position_reader: &mut Option<PositionReader>,
    checked_positions: &mut CheckedPositions,
    doc_freq: u32,
    postings: Bytes,
    positions: Option<Bytes>,
    validation: Validation,
) -> Result<(), LayoutFault>
    requires none { block_cursor.old ≡ cursor_of_none block_cursor.old.recorded block_cursor.old.requested }
    requires no_reader { position_reader.old ≡ None }
    requires unchecked { checked_positions.old ≡ no_position_blocks }
    requires known { validation ≡ Validation.Skipped → IsOk (term_list block_cursor.old.recorded block_cursor.old.requested doc_freq postings positions) }
    ensures opened { OnOk result (OpensParts validation block_cursor.old.recorded block_cursor.old.requested doc_freq postings positions block_cursor.new position_reader.new checked_positions.new) }
    ensures err { IfErr result (λ fault. term_list block_cursor.old.recorded block_cursor.old.requested doc_freq postings positions ≡ Err (part_of fault)) }
    ensures emptied { OnErr result ((block_cursor.new ≡ cursor_of_none block_cursor.old.recorded block_cursor.old.requested) × (position_reader.new ≡ None) × (checked_positions.new ≡ no_position_blocks)) }
{
    if let Err(fault) = block_cursor.fill(doc_freq, postings, validation) {
        return Err(fault);
    }
    if positions.is_none() {
        return Ok(());
    }
    fill_positions(
        block_cursor,
        position_reader,
        checked_positions,
        positions,
        validation,
    )
}

// Opens the positions of a block cursor's list, if they are read.
fn fill_positions(
    block_cursor: &mut BlockSegmentPostings,
    position_reader: &mut Option<PositionReader>,
    checked_positions: &mut CheckedPositions,
    positions: Option<Bytes>,
    validation: Validation,
) -> Result<(), LayoutFault>
    requires no_reader { position_reader.old ≡ None }
    requires unchecked { checked_positions.old ≡ no_position_blocks }
    requires known { validation ≡ Validation.Skipped → IsSome (deltas_if (has_positions (downgrade block_cursor.old.recorded block_cursor.old.requested)) block_cursor.old.freqs positions) }
    ensures same { OnOk result (block_cursor.new ≡ block_cursor.old) }
    ensures deltas { OnOk result (deltas_if (has_positions (downgrade block_cursor.old.recorded block_cursor.old.requested)) block_cursor.old.freqs positions ≡ Some (deltas_read position_reader.new)) }
    ensures decodes { OnOk result (decodes_read position_reader.new ≤ 1) }
    ensures checked { OnOk result (ChecksPositions validation (length block_cursor.old.docs) positions no_position_blocks checked_positions.new) }
    ensures refused { OnErr result (deltas_if (has_positions (downgrade block_cursor.old.recorded block_cursor.old.requested)) block_cursor.old.freqs positions ≡ None) }
    ensures err { IfErr result (λ fault. fault ≡ LayoutFault.Damaged Part.Positions) }
    ensures emptied { OnErr result ((block_cursor.new ≡ cursor_of_none block_cursor.old.recorded block_cursor.old.requested) × (position_reader.new ≡ None) × (checked_positions.new ≡ no_position_blocks)) }
{
    match block_cursor.open_positions(positions, validation, checked_positions) {
        Ok(opened) => {
            *position_reader = opened;
            Ok(())
        }
        Err(fault) => {
            block_cursor.clear();
            *checked_positions = CheckedPositions::none();
            Err(fault)
        }
    }
}

// Appends the `count` positions whose deltas begin at `start`, each plus an offset.
fn append_positions(
    reader: &mut PositionReader,
    start: u64,
    count: u32,
    offset: u32,
    output: &mut Vec<u32>,
) -> Result<(), Fault>
    requires inside { start + count ≤ length reader.old.deltas }
    requires fits { IsTrue (fit_u32 (running_sums offset (take count (drop start reader.old.deltas)))) }
    ensures ok { OnOk result (output.new.items ≡ output.old.items ++ running_sums offset (take count (drop start reader.old.deltas))) }
    ensures err { OnErr result (output.new.items ≡ output.old.items) }
    ensures only { OnlyMemory result }
    ensures deltas { reader.new.deltas ≡ reader.old.deltas }
    ensures decodes { reader.new.decodes ≤ reader.old.decodes + count / 128 + 2 }
{
    output.reserve(count as usize)?;
    let len = output.len();
    output.resize(len + count as usize, 0)?;
    let (_, added) = output.as_mut_slice().split_at_mut(len);
    read_positions(reader, start, offset, added);
    Ok(())
}

// Reads positions of a document, from number `from` on, to the front of `output`. Returns how many: as many
// as remain and fit. The deltas of all `count` positions of the document begin at `start`.
fn read_piece(
    reader: &mut PositionReader,
    start: u64,
    count: u32,
    from: usize,
    before: u32,
    output: &mut [u32],
) -> usize
    requires inside { start + count ≤ length reader.old.deltas }
    requires low { start + count < 2 ^ 64 }
    requires fits { IsTrue (fit_u32 (running_sums 0 (take count (drop start reader.old.deltas)))) }
    requires before { before ≡ position_before from (running_sums 0 (take count (drop start reader.old.deltas))) }
    // What is read.
    ensures count { result ≡ min (length output.old) (count - from) }
    ensures read { output.new ≡ take (length output.old) (drop from (running_sums 0 (take count (drop start reader.old.deltas)))) ++ drop (count - from) output.old }

    // What stays the same, and what it decodes.
    ensures deltas { reader.new.deltas ≡ reader.old.deltas }
    ensures decodes { reader.new.decodes ≤ reader.old.decodes + result / 128 + 2 }
{
    let count = count as usize;
    if from >= count {
        return 0;
    }
    let many = output.len().min(count - from);
    let (front, _) = output.split_at_mut(many);
    read_positions(reader, start + from as u64, before, front);
    many
}

// Fills `output` with the positions whose deltas begin at `start`, each plus an offset.
fn read_positions(reader: &mut PositionReader, start: u64, offset: u32, output: &mut [u32])
    requires inside { start + length output.old ≤ length reader.old.deltas }
    requires fits { IsTrue (fit_u32 (running_sums offset (take (length output.old) (drop start reader.old.deltas)))) }
    ensures read { output.new ≡ running_sums offset (take (length output.old) (drop start reader.old.deltas)) }
    ensures deltas { reader.new.deltas ≡ reader.old.deltas }
    ensures decodes { reader.new.decodes ≤ reader.old.decodes + length output.old / 128 + 2 }
{
    reader.read(start, output);
    prefix_sum(output, offset);
}

// Replaces each value with its sum with an offset and all values before it.
fn prefix_sum(values: &mut [u32], offset: u32)
    requires { IsTrue (fit_u32 (running_sums offset values.old)) }
    ensures { values.new ≡ running_sums offset values.old }
{
    let mut before = offset;
    for i in 0..values.len() {
        let sum = before + values[i];
        values[i] = sum;
        before = sum;
    }
}

impl HasLen for SegmentPostings {
    ghost length_of = { λ s. s.doc_freq };

    fn len(&self) -> usize {
        self.doc_freq() as usize
    }
}
