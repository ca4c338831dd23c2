// Recorders that grow. A call that fails must leave the recorder as it is: the same call then succeeds, and the
// documents that are written are complete.
ghost use Rattle.std.specs.Prelude.{◌<◌, ◌≡◌, [], None, Some, false, length, IfOk, IfSome, IsSome, IsTrue, OnOk};
ghost use Rattle.std.specs.Option.{option_map};
ghost use Rattle.std.specs.List.{AllByRecursion};
ghost use Rattle.ii_base.specs.Options.{has_freq};
ghost use Rattle.ii_base.specs.Entries.{are_documents, docs_of};
ghost use Rattle.ii_recorder.specs.IndexBodies.{LacksField};
ghost use Rattle.ii_recorder.specs.Pushed.{pushed_freqs};
ghost use Rattle.ii_recorder.specs.Recorded.{begun, entries_of_recorder, last_doc, with_position};

use crate::unchanged::judged;
use ii_base::{CountingWriter, DocId, Fault, Field, FieldEntry, IndexRecordOption, Schema};
use ii_indexing::{
    BufferLender, DocIdRecorder, InvertedIndexSerializer, Recorder, TermFrequencyRecorder,
    TfAndPositionRecorder,
};
use std::alloc::Global;
use std::io::Write;

// Returns what a recorder tells of its documents.
fn told<R: Recorder>(recorder: &R) -> (DocId, Option<u32>, bool) {
    (
        recorder.current_doc(),
        recorder.term_doc_freq(),
        recorder.has_term_freq(),
    )
}

// Starts a document. If that fails, starts it again.
fn new_doc<R: Recorder>(
    recorder: &mut R,
    doc: DocId,
    refused: &mut Option<Fault>,
) -> Result<(), Fault>
    requires closed { (R.state recorder.old).pending ≡ None }
    requires above { IfSome (last_doc (R.state recorder.old).closed) (λ last. last < doc) }
    ensures { OnOk result (R.state recorder.new ≡ record (R.state recorder.old) { pending = Some (begun (R.state recorder.old).option doc) }) }
{
    let before = told(recorder);
    match recorder.new_doc(doc) {
        Ok(()) => Ok(()),
        Err(fault) => {
            *refused = Some(fault);
            judged(Ok(()), told(recorder) == before)?;
            recorder.new_doc(doc)
        }
    }
}

// Adds a position. If that fails, adds it again.
fn record_position<R: Recorder>(
    recorder: &mut R,
    position: u32,
    refused: &mut Option<Fault>,
) -> Result<(), Fault>
    requires { IsSome (R.state recorder.old).pending }
    ensures { OnOk result (R.state recorder.new ≡ record (R.state recorder.old) { pending = option_map (with_position (R.state recorder.old).option position) (R.state recorder.old).pending }) }
{
    let before = told(recorder);
    match recorder.record_position(position) {
        Ok(()) => Ok(()),
        Err(fault) => {
            *refused = Some(fault);
            judged(Ok(()), told(recorder) == before)?;
            recorder.record_position(position)
        }
    }
}

// Closes a document. If that fails, closes it again.
fn close_doc<R: Recorder>(recorder: &mut R, refused: &mut Option<Fault>) -> Result<(), Fault>
    requires { IsSome (R.state recorder.old).pending }
    ensures { OnOk result (R.state recorder.new ≡ record (R.state recorder.old) { closed = entries_of_recorder (R.state recorder.old); pending = None }) }
{
    let before = told(recorder);
    match recorder.close_doc() {
        Ok(()) => Ok(()),
        Err(fault) => {
            *refused = Some(fault);
            judged(Ok(()), told(recorder) == before)?;
            recorder.close_doc()
        }
    }
}

// Records three documents with one, one and three positions. Each kind of call grows the recorder once.
fn located(alloc: Global, refused: &mut Option<Fault>) -> Result<TfAndPositionRecorder, Fault>
    ensures docs { IfOk result (λ r. IsTrue (are_documents (docs_of (entries_of_recorder r)))) }
    ensures counted { IfOk result (λ r. AllByRecursion (λ n. 0 < n) (pushed_freqs r.option (entries_of_recorder r))) }
{
    let mut recorder = TfAndPositionRecorder::new(alloc);
    new_doc(&mut recorder, 268_435_456, refused)?;
    record_position(&mut recorder, 0, refused)?;
    close_doc(&mut recorder, refused)?;
    new_doc(&mut recorder, 536_870_912, refused)?;
    record_position(&mut recorder, 2_097_152, refused)?;
    close_doc(&mut recorder, refused)?;
    new_doc(&mut recorder, 805_306_368, refused)?;
    record_position(&mut recorder, 268_435_456, refused)?;
    record_position(&mut recorder, 268_435_457, refused)?;
    record_position(&mut recorder, 268_435_458, refused)?;
    Ok(recorder)
}

// The number of tokens, the distances and the counts of these documents.
static LOCATED_POSTINGS: [u8; 26] = [
    3, 0, 0, 0, 0, 0, 0, 0, 0, 0, 0, 0, 0x81, 0, 0, 0, 0, 0x81, 0, 0, 0, 0, 0x81, 0x81, 0x81, 0x83,
];

// No full block, and the distances of the positions.
static LOCATED_POSITIONS: [u8; 13] = [0x80, 0x80, 0, 0, 0, 0x81, 0, 0, 0, 0, 0x81, 0x81, 0x81];

// Records four documents with their counts. A start and a close of a document grow the recorder.
fn counted(alloc: Global, refused: &mut Option<Fault>) -> Result<TermFrequencyRecorder, Fault>
    ensures docs { IfOk result (λ r. IsTrue (are_documents (docs_of (entries_of_recorder r)))) }
    ensures counted { IfOk result (λ r. AllByRecursion (λ n. 0 < n) (pushed_freqs r.option (entries_of_recorder r))) }
{
    let mut recorder = TermFrequencyRecorder::new(alloc);
    new_doc(&mut recorder, 2_097_152, refused)?;
    record_position(&mut recorder, 0, refused)?;
    close_doc(&mut recorder, refused)?;
    new_doc(&mut recorder, 2_113_536, refused)?;
    record_position(&mut recorder, 0, refused)?;
    record_position(&mut recorder, 4, refused)?;
    close_doc(&mut recorder, refused)?;
    new_doc(&mut recorder, 270_548_992, refused)?;
    record_position(&mut recorder, 0, refused)?;
    close_doc(&mut recorder, refused)?;
    new_doc(&mut recorder, 538_984_448, refused)?;
    record_position(&mut recorder, 0, refused)?;
    Ok(recorder)
}

// The number of tokens, the distances of these documents, of four, three, five and five bytes, and their counts.
static COUNTED_POSTINGS: [u8; 29] = [
    3, 0, 0, 0, 0, 0, 0, 0, 0, 0, 0, 0x81, 0, 0, 0x81, 0, 0, 0, 0, 0x81, 0, 0, 0, 0, 0x81, 0x81,
    0x82, 0x81, 0x81,
];

// Records two documents. Each grows the recorder.
fn documents(alloc: Global, refused: &mut Option<Fault>) -> Result<DocIdRecorder, Fault>
    ensures docs { IfOk result (λ r. IsTrue (are_documents (docs_of (entries_of_recorder r)))) }
    ensures counted { IfOk result (λ r. has_freq r.option ≡ false) }
{
    let mut recorder = DocIdRecorder::new(alloc);
    new_doc(&mut recorder, 268_435_456, refused)?;
    record_position(&mut recorder, 0, refused)?;
    close_doc(&mut recorder, refused)?;
    new_doc(&mut recorder, 536_870_912, refused)?;
    Ok(recorder)
}

// The number of tokens, and the distances of these documents.
static DOCUMENTS_POSTINGS: [u8; 18] = [3, 0, 0, 0, 0, 0, 0, 0, 0, 0, 0, 0, 0x81, 0, 0, 0, 0, 0x81];

// No full block and no positions.
static NO_POSITIONS: [u8; 1] = [0x80];

/// Records documents with each recorder and writes them. Returns the lengths of their postings and positions.
pub fn read_back(alloc: Global) -> Result<String, Fault> {
    let mut refused = None;
    let mut text = String::new(alloc);
    let recorder = located(alloc, &mut refused)?;
    let written = (LOCATED_POSTINGS.as_slice(), LOCATED_POSITIONS.as_slice());
    push_written(&mut text, written, is_written(alloc, &recorder, written)?)?;
    let recorder = counted(alloc, &mut refused)?;
    let written = (COUNTED_POSTINGS.as_slice(), NO_POSITIONS.as_slice());
    push_written(&mut text, written, is_written(alloc, &recorder, written)?)?;
    let recorder = documents(alloc, &mut refused)?;
    let written = (DOCUMENTS_POSTINGS.as_slice(), NO_POSITIONS.as_slice());
    push_written(&mut text, written, is_written(alloc, &recorder, written)?)?;
    match refused {
        Some(fault) => Err(fault),
        None => Ok(text),
    }
}

// Appends the lengths of postings and positions. Returns `SerializerClosed` if they aren't what was written.
fn push_written(text: &mut String, written: (&[u8], &[u8]), is_written: bool) -> Result<(), Fault> {
    judged(Ok(()), is_written)?;
    let (postings, positions) = (written.0.len(), written.1.len());
    write!(text, " {postings} and {positions}")?;
    Ok(())
}

// Builds a schema of one text field with positions.
fn texts(alloc: Global) -> Result<Schema, Fault>
    ensures { IfOk result (λ schema. 0 < length schema) }
{
    let mut entries = Vec::new(alloc);
    let name = String::from_str(alloc, "text")?;
    let option = IndexRecordOption::WithFreqsAndPositions;
    entries.push(FieldEntry::text(name, option, false))?;
    Ok(Schema::new(entries))
}

// Writes a field of three tokens whose only term has a recorder's documents.
fn write_recorder<R: Recorder, W: Write>(
    alloc: Global,
    recorder: &R,
    index: &mut InvertedIndexSerializer<W>,
) -> Result<(), Fault>
    requires known { 0 < length index.old.entries }
    requires lacks { index.old.closed ≡ false → LacksField 0 index.old.bodies }
    requires docs { IsTrue (are_documents (docs_of (entries_of_recorder (R.state recorder.now)))) }
    requires counted { IsTrue (has_freq (R.state recorder.now).option) → AllByRecursion (λ n. 0 < n) (pushed_freqs (R.state recorder.now).option (entries_of_recorder (R.state recorder.now))) }
{
    let mut field = index.new_field(Field::from_field_id(0), 3, None)?;
    field.new_term(b"a", 2, recorder.has_term_freq())?;
    recorder.serialize(&mut BufferLender::new(alloc), &mut field)?;
    field.close_term()?;
    field.close()
}

// The size of the table after one body.
const TABLE_SIZE: usize = 24;

// Returns whether the files of postings and positions of such a field have one body each, of these bytes.
fn is_written<R: Recorder>(
    alloc: Global,
    recorder: &R,
    wanted: (&[u8], &[u8]),
) -> Result<bool, Fault>
    requires docs { IsTrue (are_documents (docs_of (entries_of_recorder (R.state recorder.now)))) }
    requires counted { IsTrue (has_freq (R.state recorder.now).option) → AllByRecursion (λ n. 0 < n) (pushed_freqs (R.state recorder.now).option (entries_of_recorder (R.state recorder.now))) }
{
    let schema = texts(alloc)?;
    let mut index = InvertedIndexSerializer::open(
        alloc,
        CountingWriter::wrap(Vec::new(alloc)),
        CountingWriter::wrap(Vec::new(alloc)),
        CountingWriter::wrap(Vec::new(alloc)),
        schema,
    );
    write_recorder(alloc, recorder, &mut index)?;
    let (_, postings, positions, closed) = index.close();
    closed?;
    let (postings, positions) = (postings.finish(), positions.finish());
    let are_lengths = postings.len() == wanted.0.len().saturating_add(TABLE_SIZE)
        && positions.len() == wanted.1.len().saturating_add(TABLE_SIZE);
    Ok(are_lengths && postings.starts_with(wanted.0) && positions.starts_with(wanted.1))
}
