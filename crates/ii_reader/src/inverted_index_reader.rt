ghost use Rattle.std.specs.Prelude.{◌≡◌, ◌↔◌, ◌⊎◌, ◌≤◌, ℕ, List, false, true, length, drop, None, Some, Ok, Err, IfNone, IfOk, IfErr, IfSome, IsErrOf, IsOk, IsSomeAnd, MatchOption, OnOk, OnErr};
ghost use Rattle.std.specs.Option.{option_map, option_map_or};
ghost use Rattle.ii_io.specs.Faults.{OnlyMemory};
ghost use Rattle.ii_io.specs.Numbers.{number_at};
ghost use Rattle.ii_base.specs.declared.schema.index_record_option.IndexRecordOption.TheVariants.{Basic};
ghost use Rattle.ii_termdict.specs.Dictionary.{info_under};
ghost use Rattle.ii_definitions.specs.Tokens.{IndexToken};
ghost use Rattle.ii_definitions.specs.Postings.{field_count, key_postings, occurs};
ghost use Rattle.ii_definitions.specs.Files.{HoldsTerm, bytes_in};
ghost use Rattle.ii_reader.specs.BlockSegmentPostings.{cursor_of_none};
ghost use Rattle.ii_reader.specs.SegmentPostings.{postings_of_none};
ghost use Rattle.ii_reader.specs.InvertedIndexReader.{AllOpen, GivesList, GivesPostings, IsRefusal, OpensBlocks, OpensTerm, PutsList, ReaderHolds, docs_of_file, given_if, lies_in, ranges_lie, reader_of_none, reader_over, reads_positions, term_of_file, trusted_reader};

use super::block_segment_postings::BlockSegmentPostings;
use super::segment_postings::SegmentPostings;
use bytes::Bytes;
use ii_base::{BinarySerializable, Fault, FixedSize, IndexRecordOption, Part, Term};
use ii_check::Validation;
use ii_termdict::{TermDictionary, TermInfo};
use std::marker::Model;
use std::ops::Range;

/// Holds the terms of a field, and where their postings and positions are.
pub struct InvertedIndexReader {
    terms: TermDictionary,
    postings: Bytes,
    positions: Bytes,
    option: IndexRecordOption,
    num_tokens: u64,
    // Whether lookups validate postings; if not, each term is known to open.
    validation: Validation,
}

// A drop has to be a call.
impl Drop for InvertedIndexReader {
    fn drop(self) {
        let InvertedIndexReader {
            terms: _,
            postings: _,
            positions: _,
            option: _,
            num_tokens: _,
            validation: _,
        } = self;
    }
}

impl Model for InvertedIndexReader {
    ghost use Rattle.std.specs.Prelude.{◌≡◌};
    ghost use Rattle.ii_check.specs.declared.validation.Validation.TheVariants.{Skipped};
    ghost use Rattle.ii_reader.specs.InvertedIndexReader.{AllOpen, InvertedIndexReaderState};

    ghost Value = { InvertedIndexReaderState };

    ghost view = { λ r. record {
      terms = r.terms;
      postings = r.postings;
      positions = r.positions;
      option = r.option;
      num_tokens = r.num_tokens;
      validation = r.validation;
    } };

    ghost invariant = { λ r. r.validation ≡ Skipped → AllOpen (record {
      terms = r.terms;
      postings = r.postings;
      positions = r.positions;
      option = r.option;
      num_tokens = r.num_tokens;
      validation = r.validation;
    }) };
}

impl InvertedIndexReader {
    /// Opens a reader over the dictionary of a field, whose option is `option`, and its bodies in the files
    /// of postings and positions. Never allocates.
    ///
    /// `postings` begins with the field's number of tokens, 8 bytes, little-endian. Returns
    /// `Damaged(TokenCount)` if there are fewer bytes.
    pub fn new(
        terms: TermDictionary,
        postings: Bytes,
        positions: Bytes,
        option: IndexRecordOption,
    ) -> Result<InvertedIndexReader, Fault>
        ensures ok { IfOk result (λ reader. reader_over terms postings positions option ≡ Some reader) }
        ensures err { IfErr result (λ fault. (fault ≡ Fault.Damaged Part.TokenCount) × (reader_over terms postings positions option ≡ None)) }
    {
        let Some(num_tokens) = read_num_tokens(postings.as_slice()) else {
            return Err(Fault::Damaged(Part::TokenCount));
        };
        let mut postings = postings;
        postings.advance(u64::SIZE_IN_BYTES);
        Ok(InvertedIndexReader {
            terms,
            postings,
            positions,
            option,
            num_tokens,
            validation: Validation::Complete,
        })
    }

    /// Opens a reader over no terms. Never allocates.
    pub fn empty(option: IndexRecordOption) -> InvertedIndexReader
        ensures { result ≡ reader_of_none option }
    {
        InvertedIndexReader {
            terms: TermDictionary::empty(),
            postings: Bytes::new(),
            positions: Bytes::new(),
            option,
            num_tokens: 0,
            validation: Validation::Complete,
        }
    }

    /// Makes later lookups by `read_postings` and `read_block_postings` open cursors without validation. Each
    /// term must be known to open.
    pub fn trust(&mut self)
        requires { AllOpen self.old }
        ensures { self.new ≡ trusted_reader self.old }
    {
        self.validation = Validation::Skipped;
    }

    /// Returns the dictionary of the field.
    pub fn terms(&self) -> &TermDictionary
        ensures { result.now ≡ self.now.terms }
    {
        &self.terms
    }

    /// Returns what the field records.
    pub fn record_option(&self) -> IndexRecordOption
        ensures { result ≡ self.now.option }
    {
        self.option
    }

    /// Returns the number of tokens of the field.
    pub fn total_num_tokens(&self) -> u64
        ensures value { result ≡ self.now.num_tokens }
        ensures holds { (field : ℕ) (tokens : List IndexToken) → ReaderHolds field self.now tokens → result ≡ field_count field tokens }
    {
        self.num_tokens
    }

    /// Returns the info of a term, by the bytes of its value; its field is ignored. Never allocates.
    pub fn get_term_info(&self, term: &Term) -> Option<TermInfo>
        ensures value { result ≡ info_under term.now.value self.now.terms }
        ensures holds { (field : ℕ) (tokens : List IndexToken) → ReaderHolds field self.now tokens
            → MatchOption result (occurs field term.now.value tokens ≡ false)
            (HoldsTerm self.now.option field term.now.value self.now.postings self.now.positions tokens) }
    {
        self.terms.get(term.serialized_value_bytes())
    }

    /// Returns the number of documents that contain a term, or 0 if the field has no such term. Never
    /// allocates.
    #[tactic(auto, using(crate::proofs::ReaderLemmas::none_listed))]
    pub fn doc_freq(&self, term: &Term) -> u32
        ensures value { result ≡ option_map_or (λ info. info.doc_freq) (info_under term.now.value self.now.terms) 0 }
        ensures holds { (field : ℕ) (tokens : List IndexToken) → ReaderHolds field self.now tokens
            → result ≡ length (key_postings self.now.option field term.now.value Basic tokens) }
    {
        match self.get_term_info(term) {
            Some(term_info) => term_info.doc_freq,
            None => 0,
        }
    }

    /// Opens a cursor over the postings of a term, as far as they are requested. Returns `None` if the field
    /// has no such term.
    ///
    /// # Errors
    ///
    /// * `Damaged(Range)` if the range of its postings begins after its end or ends after the field's body.
    ///   The range of its positions too, if positions are recorded and requested.
    /// * Else `Damaged` with the first corrupt part that `SegmentPostings::open` finds.
    /// * `OutOfMemory` if the files' buffer can't be shared again.
    pub fn read_postings(
        &self,
        term: &Term,
        option: IndexRecordOption,
    ) -> Result<Option<SegmentPostings>, Fault>
        ensures none { IfNone (info_under term.now.value self.now.terms) (result ≡ Ok None) }
        ensures ok { IfSome (info_under term.now.value self.now.terms) (λ info. IfOk result (λ found. IsSomeAnd found (OpensTerm self.now.validation self.now option info))) }
        ensures err { IfSome (info_under term.now.value self.now.terms) (λ info. IfErr result (IsRefusal (term_of_file self.now option info))) }
        ensures range { IfSome (info_under term.now.value self.now.terms) (λ info. IsErrOf result (Fault.Damaged Part.Range) ↔ (ranges_lie self.now option info ≡ false)) }
        // If the files hold tokens.
        ensures holds { (field : ℕ) (tokens : List IndexToken) → ReaderHolds field self.now tokens
            → GivesPostings self.now.option field term.now.value option tokens result }
    {
        let Some(term_info) = self.get_term_info(term) else {
            return Ok(None);
        };
        match self.open_postings(&term_info, option, self.validation) {
            Ok(cursor) => Ok(Some(cursor)),
            Err(fault) => Err(fault),
        }
    }

    /// Opens a cursor over the postings that `term_info` describes, as far as they are requested. Returns the
    /// errors of `read_postings`.
    pub fn read_postings_from_terminfo(
        &self,
        term_info: &TermInfo,
        option: IndexRecordOption,
    ) -> Result<SegmentPostings, Fault>
        ensures ok { IfOk result (OpensTerm Validation.Complete self.now option term_info.now) }
        ensures err { IfErr result (IsRefusal (term_of_file self.now option term_info.now)) }
        ensures range { IsErrOf result (Fault.Damaged Part.Range) ↔ (ranges_lie self.now option term_info.now ≡ false) }
        // If the files hold tokens.
        ensures holds { (field : ℕ) (key : List ℕ) (tokens : List IndexToken) → HoldsTerm self.now.option field key self.now.postings self.now.positions tokens term_info.now
            → GivesList (key_postings self.now.option field key option tokens) result }
    {
        self.open_postings(term_info, option, Validation::Complete)
    }

    // Opens a cursor over the postings that `term_info` describes. They must open if validation is skipped.
    fn open_postings(
        &self,
        term_info: &TermInfo,
        option: IndexRecordOption,
        validation: Validation,
    ) -> Result<SegmentPostings, Fault>
        requires { validation ≡ Validation.Skipped → IsOk (term_of_file self.now option term_info.now) }
        ensures ok { IfOk result (OpensTerm validation self.now option term_info.now) }
        ensures err { IfErr result (IsRefusal (term_of_file self.now option term_info.now)) }
        ensures range { IsErrOf result (Fault.Damaged Part.Range) ↔ (ranges_lie self.now option term_info.now ≡ false) }
        // If the files hold tokens.
        ensures holds { (field : ℕ) (key : List ℕ) (tokens : List IndexToken) → HoldsTerm self.now.option field key self.now.postings self.now.positions tokens term_info.now
            → GivesList (key_postings self.now.option field key option tokens) result }
    {
        let record_option = self.record_option();
        let doc_freq = term_info.doc_freq;
        let (postings, positions) = match self.checked_bytes_of(term_info, option) {
            Ok(found) => found,
            Err(fault) => return Err(fault),
        };
        match validation {
            Validation::Skipped => Ok(SegmentPostings::open_known(
                doc_freq,
                postings,
                positions,
                record_option,
                option,
            )),
            Validation::Complete => {
                match SegmentPostings::open(doc_freq, postings, positions, record_option, option) {
                    Ok(cursor) => Ok(cursor),
                    Err(fault) => Err(Fault::from(fault)),
                }
            }
        }
    }

    /// Opens a block cursor over the postings of a term, as far as they are requested. Returns `None` if the
    /// field has no such term.
    ///
    /// # Errors
    ///
    /// * `Damaged(Range)` if the range of its postings begins after its end or ends after the field's body.
    /// * Else `Damaged` with the first corrupt part that `BlockSegmentPostings::open` finds.
    /// * `OutOfMemory` if the file's buffer can't be shared again.
    pub fn read_block_postings(
        &self,
        term: &Term,
        option: IndexRecordOption,
    ) -> Result<Option<BlockSegmentPostings>, Fault>
        ensures none { IfNone (info_under term.now.value self.now.terms) (result ≡ Ok None) }
        ensures ok { IfSome (info_under term.now.value self.now.terms) (λ info. IfOk result (λ found. IsSomeAnd found (OpensBlocks self.now.validation self.now.postings self.now.option option info))) }
        ensures err { IfSome (info_under term.now.value self.now.terms) (λ info. IfErr result (IsRefusal (docs_of_file self.now.postings self.now.option option info))) }
        ensures range { IfSome (info_under term.now.value self.now.terms) (λ info. IsErrOf result (Fault.Damaged Part.Range) ↔ (lies_in self.now.postings info.postings_range ≡ false)) }
    {
        let Some(term_info) = self.get_term_info(term) else {
            return Ok(None);
        };
        match self.open_block_postings(&term_info, option, self.validation) {
            Ok(cursor) => Ok(Some(cursor)),
            Err(fault) => Err(fault),
        }
    }

    /// Opens a block cursor over the postings that `term_info` describes, as far as they are requested.
    /// Returns the errors of `read_block_postings`.
    pub fn read_block_postings_from_terminfo(
        &self,
        term_info: &TermInfo,
        option: IndexRecordOption,
    ) -> Result<BlockSegmentPostings, Fault>
        ensures ok { IfOk result (OpensBlocks Validation.Complete self.now.postings self.now.option option term_info.now) }
        ensures err { IfErr result (IsRefusal (docs_of_file self.now.postings self.now.option option term_info.now)) }
        ensures range { IsErrOf result (Fault.Damaged Part.Range) ↔ (lies_in self.now.postings term_info.now.postings_range ≡ false) }
    {
        self.open_block_postings(term_info, option, Validation::Complete)
    }

    // Opens a block cursor over the postings that `term_info` describes. They must open if validation is
    // skipped.
    #[tactic(auto, using(crate::proofs::ReaderLemmas::docs_no_range, crate::proofs::ReaderLemmas::refused_by, crate::proofs::KnownLemmas::docs_lie))]
    fn open_block_postings(
        &self,
        term_info: &TermInfo,
        option: IndexRecordOption,
        validation: Validation,
    ) -> Result<BlockSegmentPostings, Fault>
        requires { validation ≡ Validation.Skipped → IsOk (docs_of_file self.now.postings self.now.option option term_info.now) }
        ensures ok { IfOk result (OpensBlocks validation self.now.postings self.now.option option term_info.now) }
        ensures err { IfErr result (IsRefusal (docs_of_file self.now.postings self.now.option option term_info.now)) }
        ensures range { IsErrOf result (Fault.Damaged Part.Range) ↔ (lies_in self.now.postings term_info.now.postings_range ≡ false) }
    {
        let postings = self.checked_postings_of(term_info)?;
        let record_option = self.record_option();
        let doc_freq = term_info.doc_freq;
        match validation {
            Validation::Skipped => {
                Ok(BlockSegmentPostings::open_known(doc_freq, postings, record_option, option))
            }
            Validation::Complete => {
                match BlockSegmentPostings::open(doc_freq, postings, record_option, option) {
                    Ok(cursor) => Ok(cursor),
                    Err(fault) => Err(Fault::from(fault)),
                }
            }
        }
    }

    /// Replaces the postings of a block cursor, which keeps its two options, with those that `term_info`
    /// describes. Returns the errors of `read_block_postings`; the cursor is then over no documents, and can
    /// be reset again.
    #[tactic(auto, using(crate::proofs::ReaderLemmas::docs_no_range, crate::proofs::ReaderLemmas::refused_by))]
    pub fn reset_block_postings_from_terminfo(
        &self,
        term_info: &TermInfo,
        block_postings: &mut BlockSegmentPostings,
    ) -> Result<(), Fault>
        ensures ok { OnOk result (OpensBlocks Validation.Complete self.now.postings block_postings.old.recorded block_postings.old.requested term_info.now block_postings.new) }
        ensures err { IfErr result (IsRefusal (docs_of_file self.now.postings block_postings.old.recorded block_postings.old.requested term_info.now)) }
        ensures range { IsErrOf result (Fault.Damaged Part.Range) ↔ (lies_in self.now.postings term_info.now.postings_range ≡ false) }
        ensures emptied { OnErr result (block_postings.new ≡ cursor_of_none block_postings.old.recorded block_postings.old.requested) }
    {
        match self.checked_postings_of(term_info) {
            Ok(postings) => match block_postings.reset(term_info.doc_freq, postings) {
                Ok(()) => Ok(()),
                Err(fault) => Err(Fault::from(fault)),
            },
            Err(fault) => {
                block_postings.clear();
                Err(fault)
            }
        }
    }

    /// Replaces the postings of a cursor with those that `term_info` describes, as far as they are requested.
    /// Returns the errors of `read_postings`; the cursor is then over no documents, and can be reset again.
    pub fn reset_postings_from_terminfo(
        &self,
        term_info: &TermInfo,
        option: IndexRecordOption,
        postings: &mut SegmentPostings,
    ) -> Result<(), Fault>
        ensures ok { OnOk result (OpensTerm Validation.Complete self.now option term_info.now postings.new) }
        ensures err { IfErr result (IsRefusal (term_of_file self.now option term_info.now)) }
        ensures range { IsErrOf result (Fault.Damaged Part.Range) ↔ (ranges_lie self.now option term_info.now ≡ false) }
        ensures emptied { OnErr result (postings.new ≡ postings_of_none self.now.option option) }
        // If the files hold tokens.
        ensures holds { (field : ℕ) (key : List ℕ) (tokens : List IndexToken) → HoldsTerm self.now.option field key self.now.postings self.now.positions tokens term_info.now
            → PutsList (key_postings self.now.option field key option tokens) result postings.new }
    {
        let record_option = self.record_option();
        let (bytes, positions) = match self.checked_bytes_of(term_info, option) {
            Ok(found) => found,
            Err(fault) => {
                postings.clear_by(record_option, option);
                return Err(fault);
            }
        };
        match postings.reset(term_info.doc_freq, bytes, positions, record_option, option) {
            Ok(()) => Ok(()),
            Err(fault) => Err(Fault::from(fault)),
        }
    }

    // Returns the bytes of a term's postings, and of its positions if they are read, or `Range` if either
    // aren't within the body.
    fn checked_bytes_of(
        &self,
        term_info: &TermInfo,
        option: IndexRecordOption,
    ) -> Result<(Bytes, Option<Bytes>), Fault>
        ensures postings { IfOk result (λ found. found.0 ≡ bytes_in self.now.postings term_info.now.postings_range) }
        ensures positions { IfOk result (λ found. found.1 ≡ given_if (reads_positions self.now option) (bytes_in self.now.positions term_info.now.positions_range)) }
        ensures lie { OnOk result (ranges_lie self.now option term_info.now ≡ true) }
        ensures only { IfErr result (λ fault. (fault ≡ Fault.OutOfMemory) ⊎ (fault ≡ Fault.Damaged Part.Range)) }
        ensures range { IsErrOf result (Fault.Damaged Part.Range) ↔ (ranges_lie self.now option term_info.now ≡ false) }
    {
        if !self.do_ranges_lie(term_info, option) {
            return Err(Fault::Damaged(Part::Range));
        }
        let postings = self.postings_of(term_info)?;
        let positions = self.positions_of(term_info, option)?;
        Ok((postings, positions))
    }

    // Returns whether the ranges of a term are within the bodies; that of its positions only counts if they
    // are read.
    fn do_ranges_lie(&self, term_info: &TermInfo, option: IndexRecordOption) -> bool
        ensures { result ≡ ranges_lie self.now option term_info.now }
    {
        if !does_lie_in(&self.postings, &term_info.postings_range) {
            return false;
        }
        if !self.reads_positions(option) {
            return true;
        }
        does_lie_in(&self.positions, &term_info.positions_range)
    }

    // Returns whether the positions of a term with term frequencies are read.
    fn reads_positions(&self, option: IndexRecordOption) -> bool
        ensures { result ≡ reads_positions self.now option }
    {
        self.option.downgrade(option).has_positions()
    }

    // Returns the bytes of a term's postings.
    fn postings_of(&self, term_info: &TermInfo) -> Result<Bytes, Fault>
        requires { lies_in self.now.postings term_info.now.postings_range ≡ true }
        ensures ok { IfOk result (λ found. found ≡ bytes_in self.now.postings term_info.now.postings_range) }
        ensures only { OnlyMemory result }
    {
        part_of(&self.postings, &term_info.postings_range)
    }

    // Returns the bytes of a term's postings, or `Range` if they aren't within the body.
    fn checked_postings_of(&self, term_info: &TermInfo) -> Result<Bytes, Fault>
        ensures ok { IfOk result (λ found. (lies_in self.now.postings term_info.now.postings_range ≡ true) × (found ≡ bytes_in self.now.postings term_info.now.postings_range)) }
        ensures only { IfErr result (λ fault. (fault ≡ Fault.OutOfMemory) ⊎ (fault ≡ Fault.Damaged Part.Range)) }
        ensures range { IsErrOf result (Fault.Damaged Part.Range) ↔ (lies_in self.now.postings term_info.now.postings_range ≡ false) }
    {
        if !does_lie_in(&self.postings, &term_info.postings_range) {
            return Err(Fault::Damaged(Part::Range));
        }
        self.postings_of(term_info)
    }

    // Returns the bytes of a term's positions, if they are read.
    fn positions_of(
        &self,
        term_info: &TermInfo,
        option: IndexRecordOption,
    ) -> Result<Option<Bytes>, Fault>
        requires { ranges_lie self.now option term_info.now ≡ true }
        ensures ok { IfOk result (λ found. found ≡ given_if (reads_positions self.now option) (bytes_in self.now.positions term_info.now.positions_range)) }
        ensures only { OnlyMemory result }
    {
        if !self.reads_positions(option) {
            return Ok(None);
        }
        let positions = part_of(&self.positions, &term_info.positions_range)?;
        Ok(Some(positions))
    }
}

// Reads the number at the front of bytes, if they are long enough.
#[tactic(auto, using(crate::proofs::ReaderLemmas::number_front))]
fn read_num_tokens(bytes: &[u8]) -> Option<u64>
    ensures value { option_map (λ n. (n, drop 8 bytes.now)) result ≡ number_at 8 bytes.now }
    ensures there { IfSome result (λ n. 8 ≤ length bytes.now) }
{
    let mut rest = bytes;
    u64::deserialize(&mut rest)
}

// Returns whether a range is within bytes.
fn does_lie_in(bytes: &Bytes, range: &Range<usize>) -> bool
    ensures { result ≡ lies_in bytes.now range.now }
{
    if range.start > range.end {
        return false;
    }
    range.end <= bytes.len()
}

// Returns the bytes of a range, which are shared.
fn part_of(bytes: &Bytes, range: &Range<usize>) -> Result<Bytes, Fault>
    requires { lies_in bytes.now range.now ≡ true }
    ensures ok { IfOk result (λ part. part ≡ bytes_in bytes.now range.now) }
    ensures only { OnlyMemory result }
{
    let part = bytes.slice(range.start..range.end)?;
    Ok(part)
}
