ghost use Rattle.std.specs.Prelude.{◌≡◌, ◌^◌, ◌<◌, ◌++◌, length, min, if◌then◌else◌, None, Some, Err, IfErr, IfSome, IsSome, IsTrue, MatchOption, OnErr, OnOk, [], ◌∷◌, false, drop, slice_get, unwrap_or, IfOk};
ghost use Rattle.ii_recorder.specs.VintRows.{AreVints, numbers};
ghost use Rattle.std.specs.List.{sum};
ghost use Rattle.ii_codes.specs.Sums.{running_sums, differences};
ghost use Rattle.std.specs.Option.{option_map, option_to_list};
ghost use Rattle.ii_io.specs.Faults.{OnlyMemory};
ghost use Rattle.ii_base.specs.Options.{has_freq, has_positions};
ghost use Rattle.ii_recorder.specs.Pushed.{HaveDeltas, MayPush, Pushes};
ghost use Rattle.ii_recorder.specs.Recorded.{RecorderState, begun, current_doc, entries_of_recorder, last_doc, position_fault, u32_max, with_position};
ghost use Rattle.ii_io.specs.Vints.{vint_u32};
ghost use Rattle.ii_base.specs.Entries.{document, counted};
ghost use Rattle.ii_base.specs.declared.schema.index_record_option.IndexRecordOption.TheVariants.{Basic, WithFreqs, WithFreqsAndPositions};
ghost use Rattle.ii_recorder.specs.Gathered.{behind_positions, first_positions, located_at};
ghost use Rattle.ii_recorder.specs.AnyRecorder.{any_state};

use crate::buffer_lender::BufferLender;
use crate::serializer::FieldSerializer;
use ii_base::{DocId, Fault, IndexRecordOption, LimitName, read_u32_vint, write_u32_vint};
use ii_io::vint::{MAX_VINT_SIZE, write_u32};
use smallvec::SmallVec;
use std::alloc::Global;
use std::io::Write;
use std::marker::Model;

/// Reads 32-bit numbers, each encoded as a vint, one by one. Its model is the remaining numbers.
#[derive(Drop)]
pub struct VInt32Reader<'a> {
    bytes: &'a [u8],
}

impl<'a> Model for VInt32Reader<'a> {
    ghost use Rattle.std.specs.Prelude.{ℕ, List};
    ghost use Rattle.ii_recorder.specs.VintRows.{AreVints, numbers};

    ghost Value = { List ℕ };

    ghost view = { λ r. numbers r.bytes.now };

    ghost invariant = { λ r. AreVints r.bytes.now };
}

impl<'a> VInt32Reader<'a> {
    /// Creates a reader of bytes that consist of 32-bit vints.
    pub fn new(bytes: &'a [u8]) -> VInt32Reader<'a>
        requires { AreVints bytes.now }
        ensures { result ≡ numbers bytes.entry.now }
    {
        VInt32Reader { bytes }
    }
}

impl<'a> Iterator for VInt32Reader<'a> {
    type Item = u32;

    ghost use Rattle.std.specs.Iterator.{YieldsFirst, item_count};

    ghost next_gives = { YieldsFirst (λ s. s) };

    ghost remaining = { item_count (λ s. s) };

    fn next(&mut self) -> Option<u32> {
        let mut rest = self.bytes;
        if rest.is_empty() {
            return None;
        }
        let number = read_u32_vint(&mut rest);
        self.bytes = rest;
        Some(number)
    }
}

// Reads documents from their deltas, the first from 0. Its model is the remaining documents.
#[derive(Drop)]
pub(crate) struct SumReader<'a> {
    deltas: VInt32Reader<'a>,
    last: u32,
}

impl<'a> Model for SumReader<'a> {
    ghost use Rattle.std.specs.Prelude.{ℕ, List, ◌+◌, ◌^◌, ◌<◌};
    ghost use Rattle.std.specs.List.{sum};
    ghost use Rattle.ii_codes.specs.Sums.{running_sums};

    ghost Value = { List ℕ };

    ghost view = { λ r. running_sums r.last r.deltas };

    ghost invariant = { λ r. r.last + sum r.deltas < 2 ^ 32 };
}

impl<'a> SumReader<'a> {
    // Creates a reader of deltas whose sum fits in 32 bits.
    pub(crate) fn new(deltas: VInt32Reader<'a>) -> SumReader<'a>
        requires { sum deltas < 2 ^ 32 }
        ensures { result ≡ running_sums 0 deltas.entry }
    {
        SumReader { deltas, last: 0 }
    }
}

impl<'a> Iterator for SumReader<'a> {
    type Item = u32;

    ghost use Rattle.std.specs.Iterator.{YieldsFirst, item_count};

    ghost next_gives = { YieldsFirst (λ s. s) };

    ghost remaining = { item_count (λ s. s) };

    fn next(&mut self) -> Option<u32> {
        let Some(delta) = self.deltas.next() else {
            return None;
        };
        self.last += delta;
        Some(self.last)
    }
}

/// Gathers the postings of one term: the documents that contain it, in ascending order, and as far as its
/// option has them, the term frequencies and positions.
///
/// Its model is the closed documents and the open one.
pub trait Recorder: Drop {
    ghost state: { Self → RecorderState };

    /// Returns the document that was started last, or `u32::MAX` if there is none.
    fn current_doc(&self) -> DocId
        ensures { result ≡ current_doc (state self.now) };

    /// Starts a document. It must be greater than the previous one, which must be closed.
    ///
    /// Returns `OutOfMemory` if an allocation fails; the recorder is then unchanged.
    fn new_doc(&mut self, doc: DocId) -> Result<(), Fault>
        requires closed { (state self.old).pending ≡ None }
        requires above { IfSome (last_doc (state self.old).closed) (λ last. last < doc) }
        ensures ok { OnOk result (state self.new ≡ record (state self.old) { pending = Some (begun (state self.old).option doc) }) }
        ensures err { OnErr result (state self.new ≡ state self.old) }
        ensures only { OnlyMemory result };

    /// Adds a position of the term in the open document. After an error the recorder is unchanged.
    ///
    /// # Errors
    ///
    /// Returns the first of these that applies:
    /// * `Limit(Position)` for the position `u32::MAX`, if positions are kept.
    /// * `DecreasingPosition` for a position below the last one, if positions are kept.
    /// * `Limit(Count)` for more than `u32::MAX` positions, if term frequencies are kept.
    ///
    /// Returns `OutOfMemory` if an allocation fails.
    fn record_position(&mut self, position: u32) -> Result<(), Fault>
        requires { IsSome (state self.old).pending }
        ensures ok { OnOk result (state self.new ≡ record (state self.old) { pending = option_map (with_position (state self.old).option position) (state self.old).pending }) }
        ensures err { OnErr result (state self.new ≡ state self.old) }
        ensures faults { IfSome (state self.old).pending (λ e. MatchOption (position_fault (state self.old).option position e) (IfErr result (λ f. f ≡ Fault.OutOfMemory)) (λ f. result ≡ Err f)) };

    /// Closes the open document.
    ///
    /// Returns `OutOfMemory` if an allocation fails; the recorder is then unchanged.
    fn close_doc(&mut self) -> Result<(), Fault>
        requires { IsSome (state self.old).pending }
        ensures ok { OnOk result (state self.new ≡ record (state self.old) { closed = entries_of_recorder (state self.old); pending = None }) }
        ensures err { OnErr result (state self.new ≡ state self.old) }
        ensures only { OnlyMemory result };

    /// Adds all documents, the open one last, to the open term of a field. Each has its term frequency, or 0
    /// if none are kept, and the position deltas that are kept.
    ///
    /// The documents must be greater than those of the term, have term frequencies if it has, and be covered
    /// by the field's norms if it has some.
    ///
    /// # Errors
    ///
    /// After an error the serializer is closed. The recorder is unchanged, and the buffers can be borrowed
    /// again.
    /// * `Limit(BlockFrequencySum)` if, in a term with positions, a document fills a block whose term
    ///   frequencies sum to more than `u32::MAX`.
    /// * `OutOfMemory` if an allocation fails.
    /// * `SerializerClosed` after an earlier error.
    fn serialize<W: Write>(
        &self,
        buffer_lender: &mut BufferLender,
        serializer: &mut FieldSerializer<'_, W>,
    ) -> Result<(), Fault>
        requires { MayPush (state self.now).option serializer.old.index.now (entries_of_recorder (state self.now)) }
        ensures same_reference { serializer.new.index.ghost_name ≡ serializer.old.index.ghost_name }
        ensures located { IsTrue (has_positions (state self.now).option) → HaveDeltas (entries_of_recorder (state self.now)) }
        ensures pushes { Pushes (state self.now).option serializer.old.index.now serializer.new.index.now (entries_of_recorder (state self.now)) result };

    /// Returns the number of documents, including the open one, or `u32::MAX` if there are more. Returns
    /// `None` if only documents are kept.
    fn term_doc_freq(&self) -> Option<u32>
        ensures { result ≡ (if has_freq (state self.now).option then Some (min (length (entries_of_recorder (state self.now))) u32_max) else None) };

    /// Returns whether term frequencies are kept.
    fn has_term_freq(&self) -> bool
        ensures { result ≡ has_freq (state self.now).option };
}

/// Keeps only documents.
#[derive(Drop)]
pub struct DocIdRecorder {
    // The distance of each document from the previous one, the first from 0, as vints. Most values have few
    // documents, so that 22 bytes are inline.
    deltas: SmallVec<u8, 22>,
    // The last document, or 0 if there is none.
    last: DocId,
    // Whether the last document is open.
    is_open: bool,
}

impl Model for DocIdRecorder {
    ghost use Rattle.ii_recorder.specs.Gathered.{docs_state};
    ghost use Rattle.ii_recorder.specs.Kept.{KeepsDocs};
    ghost use Rattle.ii_recorder.specs.Recorded.{RecorderState};

    ghost Value = { RecorderState };

    ghost view = { λ r. docs_state r.deltas.items r.is_open };

    ghost invariant = { λ r. KeepsDocs r.deltas.items r.last r.is_open };
}

impl DocIdRecorder {
    /// Creates an empty recorder.
    pub fn new(alloc: Global) -> DocIdRecorder
        ensures { result ≡ record { option = Basic; closed = []; pending = None } }
    {
        DocIdRecorder {
            deltas: SmallVec::new(alloc),
            last: 0,
            is_open: false,
        }
    }
}

// Appends the shortest encoding of a number.
fn push_vint(value: u32, output: &mut SmallVec<u8, 22>) -> Result<(), Fault>
    ensures ok { OnOk result (output.new.items ≡ output.old.items ++ vint_u32 value) }
    ensures err { OnErr result (output.new ≡ output.old) }
    ensures only { OnlyMemory result }
{
    let mut bytes = [0; MAX_VINT_SIZE];
    let end = write_u32(value, &mut bytes, 0);
    output.extend_from_slice(&bytes[..end])?;
    Ok(())
}

impl Recorder for DocIdRecorder {
    ghost state = { λ r. r };

    fn current_doc(&self) -> DocId {
        if self.deltas.as_slice().is_empty() {
            return u32::MAX;
        }
        self.last
    }

    fn new_doc(&mut self, doc: DocId) -> Result<(), Fault> {
        push_vint(doc.saturating_sub(self.last), &mut self.deltas)?;
        self.last = doc;
        self.is_open = true;
        Ok(())
    }

    fn record_position(&mut self, _position: u32) -> Result<(), Fault> {
        // For the proof, which sees what is held only if a field is read.
        let _deltas = &self.deltas;
        Ok(())
    }

    fn close_doc(&mut self) -> Result<(), Fault> {
        self.is_open = false;
        Ok(())
    }

    fn serialize<W: Write>(
        &self,
        _buffer_lender: &mut BufferLender,
        serializer: &mut FieldSerializer<'_, W>,
    ) -> Result<(), Fault> {
        let mut docs = SumReader::new(VInt32Reader::new(self.deltas.as_slice()));
        let checked = serializer.check_open();
        if checked.is_err() {
            return checked;
        }
        while let Some(doc) = docs.next() {
            let pushed = serializer.write_doc(doc, 0, &[]);
            if pushed.is_err() {
                return pushed;
            }
        }
        Ok(())
    }

    fn term_doc_freq(&self) -> Option<u32> {
        // For the proof, which sees what is held only if a field is read.
        let _deltas = &self.deltas;
        None
    }

    fn has_term_freq(&self) -> bool {
        // For the proof, which sees what is held only if a field is read.
        let _deltas = &self.deltas;
        false
    }
}

/// Keeps documents with their term frequencies.
#[derive(Drop)]
pub struct TermFrequencyRecorder {
    // For each document its distance from the previous one, the first from 0, and its term frequency, as
    // vints. The frequency of the open document is missing.
    counts: Vec<u8>,
    // The last document, or 0 if there is none.
    last: DocId,
    // The term frequency of the open document.
    term_freq: u32,
    // The number of documents, or `u32::MAX` if there are more.
    doc_freq: u32,
}

impl Model for TermFrequencyRecorder {
    ghost use Rattle.ii_recorder.specs.Gathered.{counts_state};
    ghost use Rattle.ii_recorder.specs.Kept.{KeepsCounts};
    ghost use Rattle.ii_recorder.specs.Recorded.{RecorderState};

    ghost Value = { RecorderState };

    ghost view = { λ r. counts_state r.counts.items r.term_freq };

    ghost invariant = { λ r. KeepsCounts r.counts.items r.last r.term_freq r.doc_freq };
}

impl TermFrequencyRecorder {
    /// Creates an empty recorder.
    pub fn new(alloc: Global) -> TermFrequencyRecorder
        ensures { result ≡ record { option = WithFreqs; closed = []; pending = None } }
    {
        TermFrequencyRecorder {
            counts: Vec::new(alloc),
            last: 0,
            term_freq: 0,
            doc_freq: 0,
        }
    }
}

// Returns the next number, or `other` at the end.
fn next_or(numbers: &mut VInt32Reader<'_>, other: u32) -> u32
    ensures number { result ≡ unwrap_or (slice_get numbers.old 0) other }
    ensures rest { numbers.new ≡ drop 1 numbers.old }
{
    match numbers.next() {
        Some(number) => number,
        None => other,
    }
}

impl Recorder for TermFrequencyRecorder {
    ghost state = { λ r. r };

    fn current_doc(&self) -> DocId {
        if self.doc_freq == 0 {
            return u32::MAX;
        }
        self.last
    }

    fn new_doc(&mut self, doc: DocId) -> Result<(), Fault> {
        write_u32_vint(doc.saturating_sub(self.last), &mut self.counts)?;
        self.last = doc;
        self.term_freq = 0;
        self.doc_freq = self.doc_freq.saturating_add(1);
        Ok(())
    }

    fn record_position(&mut self, _position: u32) -> Result<(), Fault> {
        if self.term_freq == u32::MAX {
            return Err(Fault::Limit(LimitName::Count));
        }
        self.term_freq += 1;
        Ok(())
    }

    fn close_doc(&mut self) -> Result<(), Fault> {
        write_u32_vint(self.term_freq, &mut self.counts)?;
        Ok(())
    }

    fn serialize<W: Write>(
        &self,
        _buffer_lender: &mut BufferLender,
        serializer: &mut FieldSerializer<'_, W>,
    ) -> Result<(), Fault> {
        let mut numbers = VInt32Reader::new(&self.counts);
        let checked = serializer.check_open();
        if checked.is_err() {
            return checked;
        }
        let mut last = 0;
        while let Some(delta) = numbers.next() {
            // The numbers end before the term frequency of the open document.
            let term_freq = next_or(&mut numbers, self.term_freq);
            let doc = last + delta;
            let pushed = serializer.write_doc(doc, term_freq, &[]);
            if pushed.is_err() {
                return pushed;
            }
            last = doc;
        }
        Ok(())
    }

    fn term_doc_freq(&self) -> Option<u32> {
        Some(self.doc_freq)
    }

    fn has_term_freq(&self) -> bool {
        // For the proof, which sees what is held only if a field is read.
        let _counts = &self.counts;
        true
    }
}

// The number after the last position of a document.
const END_OF_POSITIONS: u32 = 0;

/// Keeps documents with their term frequencies and positions.
#[derive(Drop)]
pub struct TfAndPositionRecorder {
    // For each document its distance from the previous one, the first from 0, each of its positions plus 1,
    // and 0, as vints. The 0 of the open document is missing.
    positions: Vec<u8>,
    // The last document, or 0 if there is none.
    last: DocId,
    // The term frequency of the open document.
    term_freq: u32,
    // The last position of the open document, or 0 if there is none.
    last_position: u32,
    // The number of documents, or `u32::MAX` if there are more.
    doc_freq: u32,
}

impl Model for TfAndPositionRecorder {
    ghost use Rattle.ii_recorder.specs.Gathered.{positions_state};
    ghost use Rattle.ii_recorder.specs.Kept.{KeepsPositions};
    ghost use Rattle.ii_recorder.specs.Recorded.{RecorderState};

    ghost Value = { RecorderState };

    ghost view = { λ r. positions_state r.positions.items };

    ghost invariant = { λ r. KeepsPositions r.positions.items r.last r.term_freq r.last_position r.doc_freq };
}

impl TfAndPositionRecorder {
    /// Creates an empty recorder.
    pub fn new(alloc: Global) -> TfAndPositionRecorder
        ensures { result ≡ record { option = WithFreqsAndPositions; closed = []; pending = None } }
    {
        TfAndPositionRecorder {
            positions: Vec::new(alloc),
            last: 0,
            term_freq: 0,
            last_position: 0,
            doc_freq: 0,
        }
    }
}

// Sets `deltas` to the distance of each position of a document from the previous one, the first from 0, and
// returns their number. The reader is then after its positions.
fn take_deltas(numbers: &mut VInt32Reader<'_>, deltas: &mut Vec<u32>) -> Result<u32, Fault>
    requires few { length (first_positions numbers.old) < 2 ^ 32 }
    ensures ok { OnOk result (deltas.new.items ≡ differences 0 (first_positions numbers.old)) }
    ensures count { IfOk result (λ n. n ≡ length (first_positions numbers.old)) }
    ensures rest { OnOk result (numbers.new ≡ behind_positions numbers.old) }
    ensures only { OnlyMemory result }
{
    deltas.clear();
    let mut last = 0;
    let mut count = 0;
    while let Some(number) = numbers.next() {
        if number == END_OF_POSITIONS {
            return Ok(count);
        }
        let position = number - 1;
        deltas.push(position.saturating_sub(last))?;
        last = position;
        count += 1;
    }
    Ok(count)
}

// Returns all bytes.
fn all_bytes(bytes: &[u8]) -> &[u8]
    ensures value { result.now ≡ bytes.now }
    ensures few { length bytes.now < 2 ^ 64 }
{
    bytes
}

impl Recorder for TfAndPositionRecorder {
    ghost state = { λ r. r };

    fn current_doc(&self) -> DocId {
        if self.doc_freq == 0 {
            return u32::MAX;
        }
        self.last
    }

    fn new_doc(&mut self, doc: DocId) -> Result<(), Fault> {
        write_u32_vint(doc.saturating_sub(self.last), &mut self.positions)?;
        self.last = doc;
        self.term_freq = 0;
        self.last_position = 0;
        self.doc_freq = self.doc_freq.saturating_add(1);
        Ok(())
    }

    fn record_position(&mut self, position: u32) -> Result<(), Fault> {
        let last_position = self.last_position;
        if position == u32::MAX {
            return Err(Fault::Limit(LimitName::Position));
        }
        if position < last_position {
            return Err(Fault::DecreasingPosition);
        }
        if self.term_freq == u32::MAX {
            return Err(Fault::Limit(LimitName::Count));
        }
        write_u32_vint(position + 1, &mut self.positions)?;
        self.last_position = position;
        self.term_freq += 1;
        Ok(())
    }

    fn close_doc(&mut self) -> Result<(), Fault> {
        write_u32_vint(END_OF_POSITIONS, &mut self.positions)?;
        Ok(())
    }

    fn serialize<W: Write>(
        &self,
        buffer_lender: &mut BufferLender,
        serializer: &mut FieldSerializer<'_, W>,
    ) -> Result<(), Fault> {
        let (_, deltas) = buffer_lender.lend_all();
        let mut numbers = VInt32Reader::new(all_bytes(&self.positions));
        let checked = serializer.check_open();
        if checked.is_err() {
            return checked;
        }
        let mut last = 0;
        while let Some(delta) = numbers.next() {
            let doc = last + delta;
            let count = match take_deltas(&mut numbers, deltas) {
                Ok(count) => count,
                Err(refused) => {
                    serializer.shut();
                    return Err(refused);
                }
            };
            let pushed = serializer.write_doc(doc, count, deltas);
            if pushed.is_err() {
                return pushed;
            }
            last = doc;
        }
        Ok(())
    }

    fn term_doc_freq(&self) -> Option<u32> {
        Some(self.doc_freq)
    }

    fn has_term_freq(&self) -> bool {
        // For the proof, which sees what is held only if a field is read.
        let _positions = &self.positions;
        true
    }
}

/// A recorder for any option.
#[derive(Drop)]
pub enum AnyRecorder {
    /// Keeps only documents.
    DocId(DocIdRecorder),
    /// Keeps documents with their term frequencies.
    TermFrequency(TermFrequencyRecorder),
    /// Keeps documents with their term frequencies and positions.
    TfAndPosition(TfAndPositionRecorder),
}

impl AnyRecorder {
    /// Creates an empty recorder, which keeps what `option` says.
    pub fn new(alloc: Global, option: IndexRecordOption) -> AnyRecorder
        ensures { any_state result ≡ record { option = option; closed = []; pending = None } }
    {
        match option {
            IndexRecordOption::Basic => AnyRecorder::DocId(DocIdRecorder::new(alloc)),
            IndexRecordOption::WithFreqs => {
                AnyRecorder::TermFrequency(TermFrequencyRecorder::new(alloc))
            }
            IndexRecordOption::WithFreqsAndPositions => {
                AnyRecorder::TfAndPosition(TfAndPositionRecorder::new(alloc))
            }
        }
    }
}

impl Recorder for AnyRecorder {
    ghost state = { any_state };

    fn current_doc(&self) -> DocId {
        match self {
            AnyRecorder::DocId(recorder) => recorder.current_doc(),
            AnyRecorder::TermFrequency(recorder) => recorder.current_doc(),
            AnyRecorder::TfAndPosition(recorder) => recorder.current_doc(),
        }
    }

    fn new_doc(&mut self, doc: DocId) -> Result<(), Fault> {
        match self {
            AnyRecorder::DocId(recorder) => recorder.new_doc(doc),
            AnyRecorder::TermFrequency(recorder) => recorder.new_doc(doc),
            AnyRecorder::TfAndPosition(recorder) => recorder.new_doc(doc),
        }
    }

    fn record_position(&mut self, position: u32) -> Result<(), Fault> {
        match self {
            AnyRecorder::DocId(recorder) => recorder.record_position(position),
            AnyRecorder::TermFrequency(recorder) => recorder.record_position(position),
            AnyRecorder::TfAndPosition(recorder) => recorder.record_position(position),
        }
    }

    fn close_doc(&mut self) -> Result<(), Fault> {
        match self {
            AnyRecorder::DocId(recorder) => recorder.close_doc(),
            AnyRecorder::TermFrequency(recorder) => recorder.close_doc(),
            AnyRecorder::TfAndPosition(recorder) => recorder.close_doc(),
        }
    }

    fn serialize<W: Write>(
        &self,
        buffer_lender: &mut BufferLender,
        serializer: &mut FieldSerializer<'_, W>,
    ) -> Result<(), Fault> {
        match self {
            AnyRecorder::DocId(recorder) => recorder.serialize(buffer_lender, serializer),
            AnyRecorder::TermFrequency(recorder) => recorder.serialize(buffer_lender, serializer),
            AnyRecorder::TfAndPosition(recorder) => recorder.serialize(buffer_lender, serializer),
        }
    }

    fn term_doc_freq(&self) -> Option<u32> {
        match self {
            AnyRecorder::DocId(recorder) => recorder.term_doc_freq(),
            AnyRecorder::TermFrequency(recorder) => recorder.term_doc_freq(),
            AnyRecorder::TfAndPosition(recorder) => recorder.term_doc_freq(),
        }
    }

    fn has_term_freq(&self) -> bool {
        match self {
            AnyRecorder::DocId(recorder) => recorder.has_term_freq(),
            AnyRecorder::TermFrequency(recorder) => recorder.has_term_freq(),
            AnyRecorder::TfAndPosition(recorder) => recorder.has_term_freq(),
        }
    }
}
