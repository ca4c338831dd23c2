ghost use Rattle.std.specs.Prelude.{◌<◌, ◌≡◌, [], ◌∷◌, true, false, length, IsTrue, IfOk, None, OnOk};
ghost use Rattle.std.specs.List.{AllByRecursion};
ghost use Rattle.ii_base.specs.Options.{has_freq};
ghost use Rattle.ii_base.specs.Entries.{are_documents, docs_of};
ghost use Rattle.ii_definitions.specs.Fields.{option_of};
ghost use Rattle.ii_recorder.specs.HeldTerms.{HoldsTerms};
ghost use Rattle.ii_recorder.specs.IndexBodies.{LacksField};
ghost use Rattle.ii_recorder.specs.Terms.{field_bodies};
ghost use Rattle.ii_reader_tests.specs.RecordedTerm.{recorded_term};
ghost use Rattle.ii_recorder.specs.Pushed.{pushed_freqs};
ghost use Rattle.ii_recorder.specs.Recorded.{entries_of_recorder};

use crate::serializer_tests::texts;
use ii_base::{CountingWriter, DocId, Fault, Field, IndexRecordOption, LimitName};
use ii_recorder::{
    AnyRecorder, BufferLender, DocIdRecorder, InvertedIndexSerializer, Recorder,
    TermFrequencyRecorder, TfAndPositionRecorder, VInt32Reader,
};
use std::alloc::Global;
use std::io::Write;
use std::test::Fail;

// Records document 0 with positions 0 and 4, and document 3 with position 1, which stays open.
fn two_documents(alloc: Global) -> Result<TfAndPositionRecorder, Fault>
    ensures docs { IfOk result (λ r. IsTrue (are_documents (docs_of (entries_of_recorder r)))) }
    ensures counted { IfOk result (λ r. AllByRecursion (λ n. 0 < n) (pushed_freqs r.option (entries_of_recorder r))) }
{
    let mut recorder = TfAndPositionRecorder::new(alloc);
    recorder.new_doc(0)?;
    recorder.record_position(0)?;
    recorder.record_position(4)?;
    recorder.close_doc()?;
    recorder.new_doc(3)?;
    recorder.record_position(1)?;
    Ok(recorder)
}

// Records the same without positions.
fn two_counts(alloc: Global) -> Result<TermFrequencyRecorder, Fault>
    ensures docs { IfOk result (λ r. IsTrue (are_documents (docs_of (entries_of_recorder r)))) }
    ensures counted { IfOk result (λ r. AllByRecursion (λ n. 0 < n) (pushed_freqs r.option (entries_of_recorder r))) }
{
    let mut recorder = TermFrequencyRecorder::new(alloc);
    recorder.new_doc(0)?;
    recorder.record_position(0)?;
    recorder.record_position(4)?;
    recorder.close_doc()?;
    recorder.new_doc(3)?;
    recorder.record_position(1)?;
    Ok(recorder)
}

// Records the same without term frequencies.
fn two_ids(alloc: Global) -> Result<DocIdRecorder, Fault>
    ensures docs { IfOk result (λ r. IsTrue (are_documents (docs_of (entries_of_recorder r)))) }
    ensures counted { IfOk result (λ r. has_freq r.option ≡ false) }
{
    let mut recorder = DocIdRecorder::new(alloc);
    recorder.new_doc(0)?;
    recorder.close_doc()?;
    recorder.new_doc(3)?;
    Ok(recorder)
}

// Writes a field of three tokens whose only term has a recorder's documents.
fn write_recorder<R: Recorder, W: Write>(
    alloc: Global,
    recorder: &R,
    index: &mut InvertedIndexSerializer<W>,
) -> Result<(), Fault>
    requires known { 0 < length index.old.entries }
    requires lacks { index.old.closed ≡ false → LacksField 0 index.old.bodies }
    requires docs { IsTrue (are_documents (docs_of (entries_of_recorder (R.state recorder.now)))) }
    requires counted { IsTrue (has_freq (R.state recorder.now).option) → AllByRecursion (λ n. 0 < n) (pushed_freqs (R.state recorder.now).option (entries_of_recorder (R.state recorder.now))) }
    ensures { OnOk result (HoldsTerms (option_of index.old.entries 0) 3 (field_bodies (option_of index.old.entries 0) 3 (recorded_term (option_of index.old.entries 0) (R.state recorder.now) ∷ []))
        (recorded_term (option_of index.old.entries 0) (R.state recorder.now) ∷ [])) }
{
    let mut field = index.new_field(Field::from_field_id(0), 3, None)?;
    field.new_term(b"a", 2, recorder.has_term_freq())?;
    recorder.serialize(&mut BufferLender::new(alloc), &mut field)?;
    field.close_term()?;
    field.close()
}

// Returns whether the postings and positions of a field with one term have these prefixes, and their lengths.
fn told_of<R: Recorder>(
    alloc: Global,
    recorder: &R,
    begins: (&[u8], &[u8]),
) -> Result<(bool, usize, usize), Fault>
    requires docs { IsTrue (are_documents (docs_of (entries_of_recorder (R.state recorder.now)))) }
    requires counted { IsTrue (has_freq (R.state recorder.now).option) → AllByRecursion (λ n. 0 < n) (pushed_freqs (R.state recorder.now).option (entries_of_recorder (R.state recorder.now))) }
{
    let schema = texts(alloc)?;
    let mut index = InvertedIndexSerializer::open(
        alloc,
        CountingWriter::wrap(Vec::new(alloc)),
        CountingWriter::wrap(Vec::new(alloc)),
        CountingWriter::wrap(Vec::new(alloc)),
        schema,
    );
    write_recorder(alloc, recorder, &mut index)?;
    let (_, postings, positions, closed) = index.close();
    closed?;
    let (postings, positions) = (postings.finish(), positions.finish());
    let both = postings.starts_with(begins.0) && positions.starts_with(begins.1);
    Ok((both, postings.len(), positions.len()))
}

#[test]
fn recorders_are_serialized(rt: HostRuntime) -> Result<(), Fail> {
    // postings: three tokens, document deltas and counts; positions: no full block, then deltas; both are
    // followed by a table of 24 bytes
    let postings = [3, 0, 0, 0, 0, 0, 0, 0, 0x80, 0x83, 0x82, 0x81];
    let positions = [0x80, 0x80, 0x84, 0x81];
    let located = two_documents(rt.alloc())?;
    let located = told_of(rt.alloc(), &located, (&postings, &positions))?;
    let counted = two_counts(rt.alloc())?;
    let counted = told_of(rt.alloc(), &counted, (&postings, &[]))?;
    let ids = two_ids(rt.alloc())?;
    let ids = told_of(rt.alloc(), &ids, (&postings[..10], &[]))?;
    let lens = [
        (true, 12 + 24, 4 + 24),
        (true, 12 + 24, 1 + 24),
        (true, 10 + 24, 1 + 24),
    ];
    assert!(rt; [located, counted, ids] == lens);
    Ok(())
}

// The results for a decreasing and a too large position in document 3; then the current document and the
// number of documents after document 7 is started.
type Answers = ([Result<(), Fault>; 2], DocId, Option<u32>);

fn go_on<R: Recorder>(recorder: &mut R) -> Result<Answers, Fault>
    requires closed { (R.state recorder.old).closed ≡ [] }
    requires pending { (R.state recorder.old).pending ≡ None }
{
    recorder.new_doc(3)?;
    recorder.record_position(5)?;
    let falling = recorder.record_position(4);
    let last = recorder.record_position(u32::MAX);
    recorder.record_position(5)?;
    recorder.close_doc()?;
    recorder.new_doc(7)?;
    let current = recorder.current_doc();
    Ok(([falling, last], current, recorder.term_doc_freq()))
}

// Returns the same for a new recorder, after what it answers before any document.
fn answers_of(alloc: Global, option: IndexRecordOption) -> Result<(DocId, bool, Answers), Fault> {
    let mut recorder = AnyRecorder::new(alloc, option);
    let (doc, has_term_freq) = (recorder.current_doc(), recorder.has_term_freq());
    Ok((doc, has_term_freq, go_on(&mut recorder)?))
}

#[test]
fn documents_are_recorded(rt: HostRuntime) -> Result<(), Fail> {
    let refused = [
        Err(Fault::DecreasingPosition),
        Err(Fault::Limit(LimitName::Position)),
    ];
    let rows = [
        (IndexRecordOption::Basic, [Ok(()); 2], None),
        (IndexRecordOption::WithFreqs, [Ok(()); 2], Some(2)),
        (IndexRecordOption::WithFreqsAndPositions, refused, Some(2)),
    ];
    for (option, refusals, count) in rows {
        let answers = answers_of(rt.alloc(), option)?;
        let want = (u32::MAX, option.has_freq(), (refusals, 7, count));
        assert!(rt; answers == want);
    }
    Ok(())
}

static SPELLED: [u8; 12] = [
    0x80, 0x81, 0x7A, 0x57, 0x4D, 0x1A, 0x81, 0x7F, 0x7F, 0x7F, 0x7F, 0x8F,
];

// Returns the next five numbers of a reader.
fn first_numbers(numbers: &mut VInt32Reader<'_>) -> [Option<u32>; 5] {
    [
        numbers.next(),
        numbers.next(),
        numbers.next(),
        numbers.next(),
        numbers.next(),
    ]
}

#[test]
fn vints_are_read_one_by_one(rt: HostRuntime) {
    let numbers = [Some(0), Some(1), Some(324_234_234), Some(u32::MAX), None];
    assert!(rt; first_numbers(&mut VInt32Reader::new(&SPELLED)) == numbers);
}

// Returns whether the byte buffer is empty when borrowed, and then both buffers; data is left in each.
fn are_lent_empty(lender: &mut BufferLender) -> Result<[bool; 2], Fault> {
    let bytes = lender.lend_u8();
    let is_empty = bytes.is_empty();
    bytes.push(1)?;
    let (bytes, numbers) = lender.lend_all();
    let are_empty = bytes.is_empty() && numbers.is_empty();
    bytes.push(1)?;
    numbers.push(2)?;
    Ok([is_empty, are_empty])
}

#[test]
fn buffers_are_lent(rt: HostRuntime) -> Result<(), Fail> {
    let mut lender = BufferLender::new(rt.alloc());
    let lent = [are_lent_empty(&mut lender), are_lent_empty(&mut lender)];
    assert!(rt; lent == [Ok([true; 2]); 2]);
    Ok(())
}
