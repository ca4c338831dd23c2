ghost use Rattle.std.specs.Prelude.{◌≡◌, ◌<◌, length, map, slice_get, Some, IfOk};
ghost use Rattle.std.specs.Borrow.{sem};
ghost use Rattle.ii_io.specs.Faults.{OnlyMemory};
ghost use Rattle.ii_postings_writer.specs.LendingWriters.{LendsWriter};
ghost use Rattle.ii_postings_writer.specs.PostingsWriter.{writer_of, writers_of};
ghost use Rattle.ii_postings_writer.specs.PostingsWriterKind.{state_of_kind};

use crate::json_postings_writer::JsonPostingsWriter;
use crate::postings_writer::{PostingsWriterKind, SpecializedPostingsWriter};
use ii_base::{Fault, Field, FieldEntry, IndexRecordOption, Schema, ValueType};
use std::alloc::Global;
use std::marker::Model;

/// The postings writers of a schema, one for each field. Its model is the list of them.
#[derive(Drop)]
pub struct PerFieldPostingsWriter {
    writers: Vec<PostingsWriterKind>,
}

impl Model for PerFieldPostingsWriter {
    ghost use Rattle.std.specs.Prelude.{List, map};
    ghost use Rattle.ii_postings_writer.specs.PostingsWriter.{PostingsWriterState};
    ghost use Rattle.ii_postings_writer.specs.PostingsWriterKind.{state_of_kind};

    ghost Value = { List PostingsWriterState };

    ghost view = { λ w. map state_of_kind w.writers.items };
}

impl PerFieldPostingsWriter {
    /// Creates a writer without tokens for each field. Text and JSON fields keep what the field
    /// records, other fields only the documents. Returns `OutOfMemory` if the allocation fails.
    pub fn for_schema(alloc: Global, schema: &Schema) -> Result<PerFieldPostingsWriter, Fault>
        ensures ok { IfOk result (λ writers. writers ≡ writers_of schema.now) }
        ensures only { OnlyMemory result }
    {
        let mut writers = Vec::with_capacity(alloc, schema.num_fields())?;
        for (_field, entry) in schema.fields() {
            writers.push(writer_of(entry))?;
        }
        Ok(PerFieldPostingsWriter { writers })
    }

    /// Returns the writer of a field of this schema.
    pub fn get_for_field(&self, field: Field) -> &PostingsWriterKind
        requires { field < length self.now }
        ensures { slice_get self.now field ≡ Some (state_of_kind result.now) }
    {
        &self.writers[field.field_id() as usize]
    }

    /// Returns the writer of a field of this schema, mutably borrowed.
    pub fn get_for_field_mut(&mut self, field: Field) -> &mut PostingsWriterKind
        requires { field < length self.old }
        ensures* writes_back { sem 𝓛 (LendsWriter self.entry field result) }
        ensures value { slice_get self.old field ≡ Some (state_of_kind result.now) }
    {
        &mut self.writers[field.field_id() as usize]
    }
}

// Creates the writer of a field.
fn writer_of(entry: &FieldEntry) -> PostingsWriterKind
    ensures { state_of_kind result ≡ writer_of entry.now }
{
    let option = entry.index_record_option();
    match entry.value_type() {
        ValueType::Str => PostingsWriterKind::Specialized(SpecializedPostingsWriter::new(option)),
        ValueType::Json => PostingsWriterKind::Json(JsonPostingsWriter::new(option)),
        _ => PostingsWriterKind::Specialized(SpecializedPostingsWriter::new(
            IndexRecordOption::Basic,
        )),
    }
}
