// The writers of the fields of a schema, and their output without terms.
ghost use Rattle.std.specs.Prelude.{◌≡◌, [], IfOk, length};

use bytes::Bytes;
use ii_base::{CountingWriter, Fault, Field, FieldEntry, IndexRecordOption, Schema, ValueType};
use ii_fieldnorm::FieldNormReaders;
use ii_indexing::{
    IndexingContext, IndexingTerm, InvertedIndexSerializer, PerFieldPostingsWriter, PostingsWriter,
    serialize_postings,
};
use std::alloc::Global;
use std::test::Fail;

// A composite file without fields.
static NO_FIELDS: [u8; 4] = [0, 0, 0, 0];

// Opens norms of no field.
fn no_norms(alloc: Global) -> Result<FieldNormReaders, Fault>
    ensures { IfOk result (λ norms. norms ≡ []) }
{
    FieldNormReaders::open(alloc, Bytes::from_static(&NO_FIELDS))
}

// Builds a schema of a text field and a number field.
fn text_and_number(alloc: Global) -> Result<Schema, Fault>
    ensures { IfOk result (λ schema. length schema ≡ 2) }
{
    let mut entries = Vec::new(alloc);
    let name = String::from_str(alloc, "text")?;
    entries.push(FieldEntry::text(name, IndexRecordOption::WithFreqs, false))?;
    let name = String::from_str(alloc, "number")?;
    entries.push(FieldEntry::value(name, ValueType::U64, false))?;
    Ok(Schema::new(entries))
}

fn writer(alloc: Global) -> CountingWriter<Vec<u8>> {
    CountingWriter::wrap(Vec::new(alloc))
}

// Returns the bytes of the file of terms when there are no terms.
fn written(alloc: Global, schema: &Schema, copy: Schema) -> Result<Vec<u8>, Fault>
    requires { copy ≡ schema.now }
{
    let writers = PerFieldPostingsWriter::for_schema(alloc, schema)?;
    let norms = no_norms(alloc)?;
    let mut serializer = InvertedIndexSerializer::open(
        alloc,
        writer(alloc),
        writer(alloc),
        writer(alloc),
        copy,
    );
    let serialized = serialize_postings(
        alloc,
        IndexingContext::new(alloc),
        schema,
        &writers,
        &norms,
        &mut serializer,
    );
    drop(writers);
    drop(norms);
    let (terms, postings, positions, closed) = serializer.close();
    drop(postings);
    drop(positions);
    let terms = terms.finish();
    serialized?;
    closed?;
    Ok(terms)
}

fn written_of_fields(alloc: Global) -> Result<Vec<u8>, Fault> {
    let schema = text_and_number(alloc)?;
    let copy = schema.clone()?;
    written(alloc, &schema, copy)
}

#[test]
fn no_terms_are_serialized(rt: HostRuntime) -> Result<(), Fail> {
    let bytes = written_of_fields(rt.alloc())?;
    assert!(rt; bytes.as_slice() == NO_FIELDS.as_slice());
    Ok(())
}

// Returns the number of tokens of both fields' writers after a position was added to the second.
fn tokens_of_writers(alloc: Global) -> Result<(u64, u64), Fault> {
    let (text, number) = (Field::from_field_id(0), Field::from_field_id(1));
    let mut term = IndexingTerm::with_capacity(alloc, 8)?;
    term.set_field(number);
    term.set_u64(7)?;
    let schema = text_and_number(alloc)?;
    let mut writers = PerFieldPostingsWriter::for_schema(alloc, &schema)?;
    drop(schema);
    let mut ctx = IndexingContext::new(alloc);
    let added = writers
        .get_for_field_mut(number)
        .subscribe(3, 0, &term, &mut ctx);
    drop(ctx);
    drop(term);
    let of_text = writers.get_for_field(text).total_num_tokens();
    let of_number = writers.get_for_field(number).total_num_tokens();
    drop(writers);
    added?;
    Ok((of_text, of_number))
}

#[test]
fn fields_have_writers(rt: HostRuntime) -> Result<(), Fail> {
    assert!(rt; tokens_of_writers(rt.alloc())? == (0, 1));
    Ok(())
}
