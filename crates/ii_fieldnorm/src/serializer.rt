ghost use Rattle.std.specs.Prelude.{◌≡◌, ◌<◌, ◌-◌, ◌^◌, ◌↔◌, [], List, true, false, length, OnOk, IsErrOf};
ghost use Rattle.ii_io.specs.CountingWriter.{CountingWriterState, Writes, WritesUnlessClosed, WritesInMemory, Closes, IsFull};
ghost use Rattle.ii_io.specs.Composite.{Body, fit_fields, table_bytes};
ghost use Rattle.ii_io.specs.CompositeWrite.{has_start, places_of, AddsBody, HasBodies, WroteComposite};

use ii_base::{CompositeWrite, CountingWriter, Fault, Field, LimitName};
use std::alloc::Global;
use std::io::Write;
use std::marker::Model;

/// Writes the field norms file: a composite file whose bodies have one byte per document.
///
/// The first call that fails closes the serializer; later calls return `SerializerClosed`.
#[derive(Drop)]
pub struct FieldNormsSerializer<W: Write> {
    composite_write: CompositeWrite<W>,
    is_closed: bool,
}

impl<W: Write> Model for FieldNormsSerializer<W> {
    ghost use Rattle.std.specs.Prelude.{◌||◌};
    ghost use Rattle.ii_io.specs.CompositeWrite.{CompositeWriteState};

    ghost Value = { CompositeWriteState };

    ghost view = { λ s. record s.composite_write { closed = s.composite_write.closed || s.is_closed } };
}

impl<W: Write> FieldNormsSerializer<W> {
    /// Creates a serializer over `writer`. Places are counted from its current position.
    pub fn from_write(alloc: Global, writer: CountingWriter<W>) -> FieldNormsSerializer<W>
        ensures { result ≡ record { writer = writer; base = writer.written_bytes; starts = []; closed = false } }
    {
        FieldNormsSerializer {
            composite_write: CompositeWrite::wrap(alloc, writer),
            is_closed: false,
        }
    }

    /// Writes the field norms of a field that wasn't written before, and flushes. There are at most
    /// `u32::MAX` fields.
    ///
    /// # Errors
    ///
    /// `Write` if the writer fails; a prefix of the field norms may have been written. `Limit(Offset)` if a
    /// count of the writer would exceed `u64::MAX`. `OutOfMemory` if the table can't grow, and
    /// `SerializerClosed` after an earlier error; nothing is written in these two cases.
    pub fn serialize_field(&mut self, field: Field, fieldnorms_data: &[u8]) -> Result<(), Fault>
        requires unwritten { self.old.closed ≡ false → has_start field self.old.starts ≡ false }
        requires few { self.old.closed ≡ false → length self.old.starts < 2 ^ 32 - 1 }
        ensures written { WritesInMemory self.old.closed self.old.writer self.new.writer fieldnorms_data.now result }
        ensures adds { OnOk result (AddsBody self.old self.new field fieldnorms_data.now) }
        ensures memory { IsErrOf result Fault.OutOfMemory → self.new.writer ≡ self.old.writer }
        ensures closes { Closes result self.new.closed }
    {
        if self.is_closed {
            return Err(Fault::SerializerClosed);
        }
        let writer = self.composite_write.for_field(field)?;
        let written = write_norms(writer, fieldnorms_data);
        self.is_closed = written.is_err();
        written
    }

    /// Writes the table of the fields and flushes, and returns the writer.
    ///
    /// # Errors
    ///
    /// `Write` if the writer fails; a prefix of the table may have been written. `Limit(Offset)` if a count
    /// of the writer would exceed `u64::MAX`. `SerializerClosed` after an earlier error; nothing is
    /// written.
    pub fn close(self) -> (CountingWriter<W>, Result<(), Fault>)
        ensures written { WritesUnlessClosed self.closed self.writer result.0 (table_bytes (places_of self)) result.1 }
        ensures bodies { (initial : CountingWriterState) (bodies : List Body) → HasBodies initial self bodies
            → fit_fields bodies ≡ true → OnOk result.1 (WroteComposite initial result.0 bodies) }
        ensures limit { IsErrOf result.1 (Fault.Limit LimitName.Offset)
            ↔ ((self.closed ≡ false) × IsFull self.writer (length (table_bytes (places_of self)))) }
    {
        let FieldNormsSerializer {
            composite_write,
            is_closed,
        } = self;
        if is_closed {
            return (composite_write.into_writer(), Err(Fault::SerializerClosed));
        }
        composite_write.close()
    }
}

// Writes the bytes and flushes.
fn write_norms<W: Write>(writer: &mut CountingWriter<W>, bytes: &[u8]) -> Result<(), Fault>
    ensures written { Writes writer.old writer.new bytes.now result }
    ensures limit { IsErrOf result (Fault.Limit LimitName.Offset) ↔ IsFull writer.old (length bytes.now) }
{
    let written = writer.write_all(bytes);
    if written.is_err() {
        return written;
    }
    writer.flush()
}
