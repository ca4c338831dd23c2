ghost use Rattle.std.specs.Prelude.{◌≡◌, ◌<◌, ◌^◌, [], ◌∷◌, length, Some, None, IfOk};
ghost use Rattle.ii_fieldnorm.specs.Buffers.{empty_buffers, norm_bodies};

use bytes::Bytes;
use ii_base::{
    CompositeFile, CountingWriter, FailingWriter, Fault, Field, FieldEntry, IndexRecordOption,
    Part, Schema, ValueType,
};
use ii_fieldnorm::code::ids_approximate_from_below;
use ii_fieldnorm::{
    FIELD_NORMS_TABLE, FieldNormReader, FieldNormReaders, FieldNormsSerializer, FieldNormsWriter,
    fieldnorm_to_id, id_to_fieldnorm,
};
use std::alloc::{AllocError, Global};
use std::io::Write;
use std::test::Fail;

// Returns whether the id increases exactly at each norm of the table, from index 43.
fn rises_at(norms: &[u32]) -> bool {
    let mut all = true;
    for (id, norm) in norms.iter().enumerate().skip(43) {
        all &= usize::from(fieldnorm_to_id(norm.saturating_sub(1))) == id.saturating_sub(1);
        all &= usize::from(fieldnorm_to_id(norm.saturating_add(1))) == id;
    }
    all
}

#[test]
fn numbers_have_ids(rt: HostRuntime) {
    let rows = [
        (41, 40, 40),
        (42, 41, 42),
        (300, 72, 280),
        (1_000_000, 167, 983_064),
    ];
    for (fieldnorm, id, norm) in rows {
        assert!(rt; (fieldnorm_to_id(fieldnorm), id_to_fieldnorm(id)) == (id, norm));
    }
    assert!(rt; (fieldnorm_to_id(u32::MAX), id_to_fieldnorm(255)) == (255, 2_013_265_944));
    for fieldnorm in 0..41 {
        assert!(rt; id_to_fieldnorm(fieldnorm_to_id(fieldnorm)) == fieldnorm);
    }
    assert!(rt; rises_at(&FIELD_NORMS_TABLE));
    ids_approximate_from_below();
}

// Returns the number of documents of a constant reader's copy, the norm of `doc`, and the id of document 0.
fn told_of_constant(fieldnorm: u32, doc: u32) -> Result<(u32, u32, u8), Fault> {
    let reader = FieldNormReader::constant(1_000_000, fieldnorm).clone()?;
    let num_docs = reader.num_docs();
    let norm = reader.fieldnorm(doc);
    Ok((num_docs, norm, reader.fieldnorm_id(0)))
}

#[test]
fn constants_answer_for_any_document(rt: HostRuntime) {
    let told = [told_of_constant(300, 0), told_of_constant(10, u32::MAX)];
    assert!(rt; told == [Ok((1_000_000, 280, 72)), Ok((1_000_000, 10, 10))]);
    let id = FieldNormReader::fieldnorm_to_id(300);
    assert!(rt; (id, FieldNormReader::id_to_fieldnorm(72)) == (72, 280));
}

// Builds a schema of one text field with norms and one field without.
fn two_fields(alloc: Global) -> Result<Schema, AllocError>
    ensures { IfOk result (λ schema. empty_buffers schema ≡ Some [] ∷ None ∷ []) }
{
    let mut entries = Vec::new(alloc);
    let name = String::from_str(alloc, "text")?;
    entries.push(FieldEntry::text(name, IndexRecordOption::WithFreqs, true))?;
    let name = String::from_str(alloc, "number")?;
    entries.push(FieldEntry::value(name, ValueType::U64, false))?;
    Ok(Schema::new(entries))
}

static TWO_NORMS: [u8; 26] = [
    0x0D, 2, 0, 0, 0, 0, 0, 0, 0, 0, 0, 0, 0, 0, 2, 0, 0, 0, 0, 0, 0, 0, 1, 0, 0, 0,
];

// Returns whether the bytes written are a prefix of the file, whether they are the complete file, and the
// result. Field 0 has two documents, field 1 has no norms, and field 9 doesn't exist.
fn written(alloc: Global, failing_call: u64) -> Result<([bool; 2], Result<(), Fault>), Fault> {
    let mut norms = FieldNormsWriter::for_schema(alloc, &two_fields(alloc)?)?;
    norms.record(0, Field::from_field_id(0), 13)?;
    norms.record(1, Field::from_field_id(0), 2)?;
    norms.record(0, Field::from_field_id(1), 7)?;
    norms.record(5, Field::from_field_id(9), 7)?;
    let writer = CountingWriter::wrap(FailingWriter::new(alloc, failing_call));
    let (writer, answer) = norms.serialize(FieldNormsSerializer::from_write(alloc, writer));
    let writer = writer.finish();
    let (begins, len) = (TWO_NORMS.starts_with(writer.bytes()), writer.bytes().len());
    Ok(([begins, len == 26], answer))
}

#[test]
fn norms_are_written(rt: HostRuntime) {
    for k in 0..8 {
        let want = match k {
            0 | 6 | 7 => ([true, true], Ok(())),
            5 => ([true, true], Err(Fault::Write)),
            _ => ([true, false], Err(Fault::Write)),
        };
        assert!(rt; written(rt.alloc(), k) == Ok(want), "call {k}");
    }
}

// Returns a field's number of documents and the norms of the first and last one, if it has norms.
fn norms_of(readers: &FieldNormReaders, field: u32) -> Result<Option<(u32, u32, u32)>, Fault> {
    let Some(reader) = readers.get_field(Field::from_field_id(field))? else {
        return Ok(None);
    };
    let num_docs = reader.num_docs();
    if num_docs == 0 {
        return Ok(Some((0, 0, 0)));
    }
    let (first, last) = (reader.fieldnorm(0), reader.fieldnorm(num_docs - 1));
    Ok(Some((num_docs, first, last)))
}

// One field whose documents have the norms 1, 2, 3, 4 and 1,000,000.
static FIVE_NORMS: [u8; 29] = [
    1, 2, 3, 4, 167, 0, 0, 0, 0, 0, 0, 0, 0, 0, 0, 0, 0, 5, 0, 0, 0, 0, 0, 0, 0, 1, 0, 0, 0,
];

#[test]
fn norms_are_read(rt: HostRuntime) -> Result<(), Fail> {
    let bytes = Bytes::from_static(&TWO_NORMS);
    let readers = FieldNormReaders::open(rt.alloc(), bytes)?.clone()?;
    let found = [norms_of(&readers, 0), norms_of(&readers, 1)];
    assert!(rt; found == [Ok(Some((2, 13, 2))), Ok(None)]);
    let five = FieldNormReaders::open(rt.alloc(), Bytes::from_static(&FIVE_NORMS))?;
    assert!(rt; norms_of(&five, 0) == Ok(Some((5, 1, 983_064))));
    Ok(())
}

// Writes the norms and returns the norm ids of field 0.
fn ids_of(alloc: Global, norms: &FieldNormsWriter) -> Result<Bytes, Fault>
    requires { length (norm_bodies norms.now) < 2 ^ 32 }
{
    let writer = CountingWriter::wrap(Vec::new(alloc));
    let (writer, answer) = norms.serialize(FieldNormsSerializer::from_write(alloc, writer));
    answer?;
    let file = CompositeFile::open(alloc, Bytes::from_vec(writer.finish())?)?;
    match file.open_read(Field::from_field_id(0))? {
        Some(body) => Ok(body),
        None => Err(Fault::Damaged(Part::FieldNorms)),
    }
}

static FOUR_IDS: [u8; 4] = [13, 0, 0, 40];

static ONE_ID: [u8; 1] = [13];

static TWO_IDS: [u8; 2] = [13, 0];

// Returns whether the ids are right with two documents skipped, after a cut to one document, and after an
// empty document is added.
fn fill_and_cut(alloc: Global) -> Result<[bool; 3], Fault> {
    let mut norms = FieldNormsWriter::for_schema(alloc, &two_fields(alloc)?)?;
    norms.record(0, Field::from_field_id(0), 13)?;
    norms.record(3, Field::from_field_id(0), 41)?;
    let four = ids_of(alloc, &norms)?.as_slice() == FOUR_IDS.as_slice();
    norms.fill_up_to_max_doc(1)?;
    let one = ids_of(alloc, &norms)?.as_slice() == ONE_ID.as_slice();
    norms.fill_up_to_max_doc(2)?;
    let two = ids_of(alloc, &norms)?.as_slice() == TWO_IDS.as_slice();
    Ok([four, one, two])
}

#[test]
fn norms_are_filled_up_and_cut(rt: HostRuntime) -> Result<(), Fail> {
    assert!(rt; fill_and_cut(rt.alloc()) == Ok([true; 3]));
    let schema = two_fields(rt.alloc())?;
    let fields = FieldNormsWriter::fields_with_fieldnorm(rt.alloc(), &schema)?;
    assert!(rt; fields.as_slice() == [Field::from_field_id(0)].as_slice());
    Ok(())
}

// Opens a file of 1000 fields with one document each. Field `f` has the norm `f % 40` at byte `f`; the last
// field has the id `last`.
fn thousand_readers(alloc: Global, last: u32) -> Result<FieldNormReaders, Fault> {
    let mut bytes = Vec::new(alloc);
    for f in 0..1000u32 {
        bytes.push((f % 40) as u8)?;
    }
    for f in 0..1000u32 {
        let field = if f == 999 { last } else { f };
        bytes.extend_from_slice(&field.to_le_bytes())?;
        bytes.extend_from_slice(&u64::from(f).to_le_bytes())?;
        bytes.extend_from_slice(&u64::from(f + 1).to_le_bytes())?;
    }
    bytes.extend_from_slice(&1000u32.to_le_bytes())?;
    FieldNormReaders::open(alloc, Bytes::from_vec(bytes)?)
}

#[test]
fn each_of_a_thousand_fields_is_read(rt: HostRuntime) -> Result<(), Fail> {
    let readers = thousand_readers(rt.alloc(), u32::MAX)?;
    for f in 0..999u32 {
        assert!(rt;
            norms_of(&readers, f) == Ok(Some((1, f % 40, f % 40))),
            "field {f}"
        );
    }
    let found = [norms_of(&readers, 999), norms_of(&readers, u32::MAX)];
    assert!(rt; found == [Ok(None), Ok(Some((1, 39, 39)))]);
    for last in [0, 7, 998] {
        let fault = thousand_readers(rt.alloc(), last).err();
        assert!(rt;
            fault == Some(Fault::Damaged(Part::Composite)),
            "field {last} twice"
        );
    }
    Ok(())
}

static ONE: [u8; 1] = [1];

// Serializes a field. If that fails, serializes it again and then another field.
fn refusals<W: Write>(serializer: &mut FieldNormsSerializer<W>) -> [Result<(), Fault>; 3]
    requires { serializer.old.starts ≡ [] }
{
    let first = serializer.serialize_field(Field::from_field_id(0), &ONE);
    let Err(_) = first else {
        return [first; 3];
    };
    let again = serializer.serialize_field(Field::from_field_id(0), &ONE);
    let other = serializer.serialize_field(Field::from_field_id(1), &ONE);
    [first, again, other]
}

// Returns these results when a call of the writer fails, the result of closing, the number of failed calls,
// and whether nothing was written.
fn answers_at(
    alloc: Global,
    failing_call: u64,
) -> ([Result<(), Fault>; 3], Result<(), Fault>, u64, bool) {
    let writer = CountingWriter::wrap(FailingWriter::new(alloc, failing_call));
    let mut serializer = FieldNormsSerializer::from_write(alloc, writer);
    let answers = refusals(&mut serializer);
    let (writer, answer) = serializer.close();
    let failed = writer.failed_calls();
    (answers, answer, failed, writer.finish().bytes().is_empty())
}

// The field is a write and a flush. The end is two writes (place, number of places) and a flush.
#[test]
fn a_serializer_flushes_and_is_closed_by_a_fault(rt: HostRuntime) {
    let (fine, write, closed) = (Ok(()), Err(Fault::Write), Err(Fault::SerializerClosed));
    for k in 1..7 {
        let want = match k {
            1 | 2 => ([write, closed, closed], closed, 1, k == 1),
            6 => ([fine; 3], fine, 0, false),
            _ => ([fine; 3], write, 1, false),
        };
        assert!(rt; answers_at(rt.alloc(), k) == want, "call {k}");
    }
}
