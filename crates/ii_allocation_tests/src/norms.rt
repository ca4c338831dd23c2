use crate::schema::two_fields;
use bytes::Bytes;
use ii_base::{CountingWriter, Fault, Field, Part};
use ii_fieldnorm::{FieldNormReader, FieldNormReaders, FieldNormsSerializer, FieldNormsWriter};
use std::alloc::Global;

/// Records, writes and opens the norms of four documents.
pub fn read_back(alloc: Global) -> Result<String, Fault> {
    let reader = opened(alloc, written(alloc)?)?;
    let mut text = String::new(alloc);
    for doc in 0..reader.num_docs() {
        let norm = reader.fieldnorm(doc);
        write!(text, " {norm}")?;
    }
    Ok(text)
}

// Writes the norms of the one field that has them.
fn written(alloc: Global) -> Result<Bytes, Fault> {
    let mut norms = FieldNormsWriter::for_schema(alloc, &two_fields(alloc)?)?;
    norms.record(0, Field::from_field_id(0), 13)?;
    norms.record(2, Field::from_field_id(0), 41)?;
    norms.fill_up_to_max_doc(4)?;
    let writer = CountingWriter::wrap(Vec::new(alloc));
    let (writer, written) = norms.serialize(FieldNormsSerializer::from_write(alloc, writer));
    written?;
    Ok(Bytes::from_vec(writer.finish())?)
}

// Opens the norms of that field, copying the readers and its reader.
fn opened(alloc: Global, bytes: Bytes) -> Result<FieldNormReader, Fault> {
    let readers = FieldNormReaders::open(alloc, bytes)?.clone()?;
    let Some(reader) = readers.get_field(Field::from_field_id(0))? else {
        return Err(Fault::Damaged(Part::FieldNorms));
    };
    Ok(reader.clone()?)
}
