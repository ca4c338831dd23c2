ghost use Rattle.std.specs.Prelude.{◌<◌, ◌≡◌, false, length, IsTrue, IfOk};
ghost use Rattle.ii_recorder.specs.IndexBodies.{LacksField};

use crate::index_tests::numbers;
use ii_base::{CountingWriter, FailingWriter, Fault, Field, FieldEntry, IndexRecordOption, Schema};
use ii_recorder::{AnyRecorder, BufferLender, FieldSerializer, InvertedIndexSerializer, Recorder};
use std::alloc::Global;
use std::io::Write;
use std::test::Fail;

// One body of 9 bytes for field 0: the number of tokens, and a document.
const POSTINGS: [u8; 33] = [
    1, 0, 0, 0, 0, 0, 0, 0, 0x80, 0, 0, 0, 0, 0, 0, 0, 0, 0, 0, 0, 0, 9, 0, 0, 0, 0, 0, 0, 0, 1, 0,
    0, 0,
];

// Writes the number 5 in document 0.
fn write_five<W: Write>(index: &mut InvertedIndexSerializer<W>) -> Result<(), Fault>
    requires known { 0 < length index.old.entries }
    requires lacks { index.old.closed ≡ false → LacksField 0 index.old.bodies }
{
    let mut field = index.new_field(Field::from_field_id(0), 1, None)?;
    field.new_term_without_freq(&[0, 0, 0, 0, 0, 0, 0, 5])?;
    field.write_doc(0, 0, &[])?;
    field.close()
}

// Builds a schema of one text field with positions.
pub(crate) fn texts(alloc: Global) -> Result<Schema, Fault>
    ensures { IfOk result (λ schema. 0 < length schema) }
{
    let mut entries = Vec::new(alloc);
    let name = String::from_str(alloc, "text")?;
    let option = IndexRecordOption::WithFreqsAndPositions;
    entries.push(FieldEntry::text(name, option, false))?;
    Ok(Schema::new(entries))
}

// Writes it to writers that fail at these calls. Returns the result, whether the postings are these, and the
// lengths of the files of terms and positions.
fn told_of_five(
    alloc: Global,
    failing_calls: (u64, u64, u64),
) -> Result<(Result<(), Fault>, bool, [usize; 2]), Fault> {
    let (terms, postings, positions) = failing_calls;
    let schema = numbers(alloc)?;
    let mut index = InvertedIndexSerializer::open(
        alloc,
        CountingWriter::wrap(FailingWriter::new(alloc, terms)),
        CountingWriter::wrap(FailingWriter::new(alloc, postings)),
        CountingWriter::wrap(FailingWriter::new(alloc, positions)),
        schema,
    );
    let written = write_five(&mut index);
    let (terms, postings, positions, closed) = index.close();
    let are_postings = postings.finish().bytes() == POSTINGS.as_slice();
    let lens = [
        terms.finish().bytes().len(),
        positions.finish().bytes().len(),
    ];
    Ok((written.and(closed), are_postings, lens))
}

// Returns the result when a call fails.
fn answer_at(alloc: Global, failing_calls: (u64, u64, u64)) -> Result<Result<(), Fault>, Fault> {
    let (answer, _, _) = told_of_five(alloc, failing_calls)?;
    Ok(answer)
}

#[test]
fn a_number_is_written(rt: HostRuntime) -> Result<(), Fail> {
    for calls in [(0, 0, 0), (20, 20, 20)] {
        assert!(rt; told_of_five(rt.alloc(), calls)? == (Ok(()), true, [104, 24]));
    }
    Ok(())
}

#[test]
fn a_failing_writer_is_told(rt: HostRuntime) -> Result<(), Fail> {
    // the writes of a body, its flush, its place, the number of bodies, and a flush
    let rows = [
        (1, 0, 0),
        (2, 0, 0),
        (3, 0, 0),
        (4, 0, 0),
        (5, 0, 0),
        (0, 1, 0),
        (0, 2, 0),
        (0, 3, 0),
        (0, 4, 0),
        (0, 0, 1),
        (0, 0, 2),
        (0, 0, 3),
        (0, 0, 4),
    ];
    for (i, calls) in rows.into_iter().enumerate() {
        assert!(rt;
            answer_at(rt.alloc(), calls)? == Err(Fault::Write),
            "row {i}"
        );
    }
    Ok(())
}

// Returns whether each call of a closed field fails with `SerializerClosed`.
fn is_closed<W: Write>(alloc: Global, field: &mut FieldSerializer<'_, W>) -> bool
    requires { IsTrue field.old.index.now.closed }
    ensures same_reference { field.new.index.ghost_name ≡ field.old.index.ghost_name }
    ensures stays { field.new.index.now ≡ field.old.index.now }
{
    let closed = Err(Fault::SerializerClosed);
    let mut all = field.new_term(b"b", 1, true) == closed;
    all &= field.new_term_without_freq(b"c") == closed;
    all &= field.write_doc(0, 0, &[1]) == closed;
    all &= field.close_term() == closed;
    let recorder = AnyRecorder::new(alloc, IndexRecordOption::Basic);
    all & (recorder.serialize(&mut BufferLender::new(alloc), field) == closed)
}

// Returns whether starting a field in a closed index fails with `SerializerClosed`.
fn begins_no_field<W: Write>(index: &mut InvertedIndexSerializer<W>) -> bool
    requires known { 0 < length index.old.entries }
    requires closed { IsTrue index.old.closed }
{
    match index.new_field(Field::from_field_id(0), 1, None) {
        Ok(_) => false,
        Err(fault) => fault == Fault::SerializerClosed,
    }
}

// Returns whether a term that fails to close also closes the field and the index.
fn term_closes<W: Write>(
    alloc: Global,
    index: &mut InvertedIndexSerializer<W>,
) -> Result<bool, Fault>
    requires known { 0 < length index.old.entries }
    requires lacks { index.old.closed ≡ false → LacksField 0 index.old.bodies }
{
    let mut field = index.new_field(Field::from_field_id(0), 1, None)?;
    field.new_term_without_freq(b"a")?;
    field.write_doc(0, 0, &[1])?;
    let Err(fault) = field.close_term() else {
        return Ok(false);
    };
    let mut all = fault == Fault::Write;
    all &= is_closed(alloc, &mut field);
    let Err(fault) = field.close() else {
        return Ok(false);
    };
    all &= fault == Fault::SerializerClosed;
    all &= begins_no_field(index);
    Ok(all)
}

// Returns whether a field that fails to start closes the index.
fn field_closes<W: Write>(index: &mut InvertedIndexSerializer<W>) -> bool
    requires known { 0 < length index.old.entries }
    requires lacks { index.old.closed ≡ false → LacksField 0 index.old.bodies }
{
    match index.new_field(Field::from_field_id(0), 1, None) {
        Ok(_) => return false,
        Err(fault) => {
            if fault != Fault::Write {
                return false;
            }
        }
    }
    begins_no_field(index)
}

// Opens an index of texts over writers that fail at these calls.
fn open_texts(
    alloc: Global,
    failing_calls: (u64, u64, u64),
) -> Result<InvertedIndexSerializer<FailingWriter>, Fault>
    ensures known { IfOk result (λ index. 0 < length index.entries) }
    ensures lacks { IfOk result (λ index. LacksField 0 index.bodies) }
{
    let (terms, postings, positions) = failing_calls;
    let schema = texts(alloc)?;
    Ok(InvertedIndexSerializer::open(
        alloc,
        CountingWriter::wrap(FailingWriter::new(alloc, terms)),
        CountingWriter::wrap(FailingWriter::new(alloc, postings)),
        CountingWriter::wrap(FailingWriter::new(alloc, positions)),
        schema,
    ))
}

#[test]
fn a_refused_term_closes(rt: HostRuntime) -> Result<(), Fail> {
    let alloc = rt.alloc();
    // The second write of postings and the first write of positions belong to a term.
    for failing_calls in [(0, 2, 0), (0, 0, 1)] {
        let mut index = open_texts(alloc, failing_calls)?;
        assert!(rt; term_closes(alloc, &mut index)?);
        let (_, _, _, closed) = index.close();
        assert!(rt; closed == Err(Fault::SerializerClosed));
    }
    Ok(())
}

#[test]
fn a_refused_field_closes(rt: HostRuntime) -> Result<(), Fail> {
    let mut index = open_texts(rt.alloc(), (0, 1, 0))?;
    assert!(rt; field_closes(&mut index));
    let (_, _, _, closed) = index.close();
    assert!(rt; closed == Err(Fault::SerializerClosed));
    Ok(())
}
