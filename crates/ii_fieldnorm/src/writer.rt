ghost use Rattle.std.specs.Prelude.{◌≡◌, ◌<◌, ◌≤◌, ◌+◌, ◌-◌, ◌^◌, [], ◌∷◌, ◌++◌, List, length, replicate, vec_len, Some, None, true, false, if◌then◌else◌, IfSome, IfOk, OnOk, OnErr};
ghost use Rattle.std.specs.Option.{option_map, option_copied};
ghost use Rattle.ii_io.specs.CountingWriter.{CountingWriterState, WritesInMemory};
ghost use Rattle.ii_io.specs.Composite.{Body, bodies_bytes, fit_fields};
ghost use Rattle.ii_io.specs.CompositeWrite.{HasBodies, has_start};
ghost use Rattle.ii_io.specs.Faults.{OnlyMemory};
ghost use Rattle.ii_fieldnorm.specs.Buffers.{norm_fields, empty_buffers, filled, filled_buffers, buffer_of, recorded, recorded_buffers, IsFilledFront, norm_bodies, AreUnwritten, AddsBuffer, AddsNorms, WritesNorms, WroteNorms, rest_of_file, buffer_bytes};

use super::code::fieldnorm_to_id;
use super::serializer::FieldNormsSerializer;
use ii_base::{CountingWriter, DocId, Fault, Field, Schema};
use std::alloc::{AllocError, Global};
use std::io::Write;
use std::marker::Model;

/// Collects one byte per document for each field with field norms. Its model is, for each field of the
/// schema, the bytes so far, if it has field norms.
#[derive(Drop)]
pub struct FieldNormsWriter {
    buffers: Vec<NormBuffer>,
}

impl Model for FieldNormsWriter {
    ghost use Rattle.std.specs.Prelude.{◌≤◌, ◌^◌, length};
    ghost use Rattle.ii_fieldnorm.specs.Buffers.{Buffers};

    ghost Value = { Buffers };

    ghost view = { λ w. w.buffers.items };

    ghost invariant = { λ w. length w.buffers.items ≤ 2 ^ 32 };
}

impl FieldNormsWriter {
    /// Returns the fields of a schema that are indexed and have field norms, in order.
    pub fn fields_with_fieldnorm(alloc: Global, schema: &Schema) -> Result<Vec<Field>, Fault>
        ensures fields { IfOk result (λ fields. fields.items ≡ norm_fields schema.now) }
        ensures only { OnlyMemory result }
    {
        let mut fields = Vec::new(alloc);
        for (field, entry) in schema.fields() {
            if entry.is_indexed() && entry.has_fieldnorms() {
                fields.push(field)?;
            }
        }
        Ok(fields)
    }

    /// Creates a writer without documents.
    pub fn for_schema(alloc: Global, schema: &Schema) -> Result<FieldNormsWriter, Fault>
        ensures empty { IfOk result (λ writer. writer ≡ empty_buffers schema.now) }
        ensures only { OnlyMemory result }
    {
        let mut buffers = Vec::with_capacity(alloc, schema.num_fields())?;
        for (_field, entry) in schema.fields() {
            let keeps_norms = entry.is_indexed() && entry.has_fieldnorms();
            buffers.push(NormBuffer::new(alloc, keeps_norms))?;
        }
        Ok(FieldNormsWriter { buffers })
    }

    /// Resizes each field with field norms to exactly `max_doc` documents: missing ones get id 0, later
    /// ones are removed.
    ///
    /// Returns `OutOfMemory` if a buffer can't grow. The fields before it are resized, the others
    /// unchanged.
    pub fn fill_up_to_max_doc(&mut self, max_doc: DocId) -> Result<(), Fault>
        ensures ok { OnOk result (self.new ≡ filled_buffers max_doc self.old) }
        ensures err { OnErr result (IsFilledFront max_doc self.old self.new) }
        ensures only { OnlyMemory result }
    {
        for i in 0..self.buffers.len() {
            self.buffers[i].fill_up(max_doc)?;
        }
        Ok(())
    }

    /// Records the field norm of a document after those of the field so far. Documents in between get id 0.
    /// Does nothing for a field without field norms.
    ///
    /// Returns `OutOfMemory`, without a change, if the buffer can't grow.
    pub fn record(&mut self, doc: DocId, field: Field, fieldnorm: u32) -> Result<(), Fault>
        requires { IfSome (buffer_of field self.old) (λ ids. length ids ≤ doc) }
        ensures ok { OnOk result (self.new ≡ recorded_buffers field doc fieldnorm self.old) }
        ensures err { OnErr result (self.new ≡ self.old) }
        ensures only { OnlyMemory result }
    {
        let index = field.field_id() as usize;
        if index < self.buffers.len() {
            self.buffers[index].record(doc, fieldnorm)?;
        }
        Ok(())
    }

    /// Writes the bytes of each field with field norms, closes the serializer, and returns its writer. None
    /// of these fields may have been written before. There are at most `u32::MAX` fields in all.
    ///
    /// Returns the errors of the serializer. After an error a prefix of the bytes is written, and none
    /// after `SerializerClosed`.
    pub fn serialize<W: Write>(
        &self,
        serializer: FieldNormsSerializer<W>,
    ) -> (CountingWriter<W>, Result<(), Fault>)
        requires unwritten { serializer.closed ≡ false → AreUnwritten serializer self.now }
        requires few { serializer.closed ≡ false → length serializer.starts + length (norm_bodies self.now) < 2 ^ 32 }
        ensures written { (initial : CountingWriterState) (bodies : List Body) → HasBodies initial serializer bodies
            → WritesInMemory serializer.closed serializer.writer result.0 (rest_of_file bodies self.now) result.1 }
        ensures norms { (initial : CountingWriterState) (bodies : List Body) → HasBodies initial serializer bodies
            → fit_fields bodies ≡ true → OnOk result.1 (WroteNorms initial result.0 bodies self.now) }
    {
        let mut serializer = serializer;
        let written = write_buffers(&mut serializer, &self.buffers);
        let (writer, closed) = serializer.close();
        match written {
            Ok(()) => (writer, closed),
            Err(fault) => (writer, Err(fault)),
        }
    }
}

// Writes the bytes of each field with field norms. A closed serializer fails at the first one.
fn write_buffers<W: Write>(
    serializer: &mut FieldNormsSerializer<W>,
    buffers: &[NormBuffer],
) -> Result<(), Fault>
    requires unwritten { serializer.old.closed ≡ false → AreUnwritten serializer.old buffers.now }
    requires few { serializer.old.closed ≡ false
        → length serializer.old.starts + length (norm_bodies buffers.now) < 2 ^ 32 }
    requires fields { length buffers.now ≤ 2 ^ 32 }
    ensures written { WritesNorms serializer.old serializer.new (bodies_bytes (norm_bodies buffers.now)) result }
    ensures adds { OnOk result (AddsNorms serializer.old serializer.new buffers.now) }
{
    for i in 0..buffers.len() {
        let written = write_buffer(serializer, Field::from_field_id(i as u32), &buffers[i]);
        if written.is_err() {
            return written;
        }
    }
    Ok(())
}

// Writes the bytes of an unwritten field, if it has field norms.
fn write_buffer<W: Write>(
    serializer: &mut FieldNormsSerializer<W>,
    field: Field,
    buffer: &NormBuffer,
) -> Result<(), Fault>
    requires { serializer.old.closed ≡ false → IfSome buffer.now (λ _.
        (has_start field serializer.old.starts ≡ false) × length serializer.old.starts < 2 ^ 32 - 1) }
    ensures written { WritesNorms serializer.old serializer.new (buffer_bytes buffer.now) result }
    ensures adds { OnOk result (AddsBuffer serializer.old serializer.new field buffer.now) }
{
    match buffer.ids() {
        Some(ids) => serializer.serialize_field(field, ids),
        None => Ok(()),
    }
}

/// The bytes of a field, if it has field norms.
#[derive(Drop)]
struct NormBuffer {
    ids: Option<Vec<u8>>,
}

impl Model for NormBuffer {
    ghost use Rattle.std.specs.Prelude.{ℕ, List, Option};
    ghost use Rattle.std.specs.Option.{option_map};

    ghost Value = { Option (List ℕ) };

    ghost view = { λ b. option_map (λ v. v.items) b.ids };
}

impl NormBuffer {
    // Creates a buffer without documents.
    fn new(alloc: Global, keeps_norms: bool) -> NormBuffer
        ensures { result ≡ (if keeps_norms then Some [] else None) }
    {
        NormBuffer {
            ids: if keeps_norms {
                Some(Vec::new(alloc))
            } else {
                None
            },
        }
    }

    // Returns the bytes so far.
    fn ids(&self) -> Option<&[u8]>
        ensures { option_copied result ≡ self.now }
    {
        match &self.ids {
            Some(ids) => Some(ids.as_slice()),
            None => None,
        }
    }

    // Resizes to `docs` documents.
    fn fill_up(&mut self, docs: u32) -> Result<(), AllocError>
        ensures ok { OnOk result (self.new ≡ option_map (filled docs) self.old) }
        ensures err { OnErr result (self.new ≡ self.old) }
    {
        match &mut self.ids {
            Some(ids) => ids.resize(docs as usize, 0),
            None => Ok(()),
        }
    }

    // Appends one more document.
    fn record(&mut self, doc: DocId, fieldnorm: u32) -> Result<(), AllocError>
        requires { IfSome self.old (λ ids. length ids ≤ doc) }
        ensures ok { OnOk result (self.new ≡ option_map (recorded doc fieldnorm) self.old) }
        ensures err { OnErr result (self.new ≡ self.old) }
    {
        match &mut self.ids {
            Some(ids) => record_id(ids, doc as usize, fieldnorm_to_id(fieldnorm)),
            None => Ok(()),
        }
    }
}

// Puts a byte at an index after the others, and 0 in between.
fn record_id(ids: &mut Vec<u8>, place: usize, id: u8) -> Result<(), AllocError>
    requires after { vec_len ids.old ≤ place }
    requires room { place < 2 ^ 32 }
    ensures ok { OnOk result (ids.new.items
        ≡ ids.old.items ++ replicate (place - length ids.old.items) 0 ++ id ∷ []) }
    ensures err { OnErr result (ids.new.items ≡ ids.old.items) }
{
    ids.resize(place + 1, 0)?;
    ids[place] = id;
    Ok(())
}
