ghost use Rattle.std.specs.Prelude.{◌≡◌, ◌<◌, ◌-◌, ◌^◌, [], List, length, true, false, OnOk, IsErrOf, Some};
ghost use Rattle.ii_io.specs.CountingWriter.{CountingWriterState, WritesUnlessClosed, WritesInMemory, Closes};
ghost use Rattle.ii_io.specs.Composite.{Body, fit_fields, table_bytes};
ghost use Rattle.ii_io.specs.CompositeWrite.{has_start, places_of, AddsBody, HasBodies, WroteComposite};
ghost use Rattle.ii_counts.specs.Counts.{counts_at, written_counts};

use ii_base::{CompositeWrite, CountingWriter, Fault, Field};
use ii_layout::positions::PositionWriter;
use std::alloc::Global;
use std::io::Write;
use std::marker::Model;

/// Writes a file of counts: a composite file whose bodies have one number for each document, encoded as
/// positions are.
///
/// The first call that fails closes the serializer; later calls return `SerializerClosed`.
#[derive(Drop)]
pub struct CountsSerializer<W: Write> {
    composite_write: CompositeWrite<W>,
    is_closed: bool,
}

impl<W: Write> Model for CountsSerializer<W> {
    ghost use Rattle.std.specs.Prelude.{◌||◌};
    ghost use Rattle.ii_io.specs.CompositeWrite.{CompositeWriteState};

    ghost Value = { CompositeWriteState };

    ghost view = { λ s. record s.composite_write { closed = s.composite_write.closed || s.is_closed } };
}

impl<W: Write> CountsSerializer<W> {
    /// Creates a serializer over `writer`. Places are counted from its current position.
    pub fn from_write(alloc: Global, writer: CountingWriter<W>) -> CountsSerializer<W>
        ensures { result ≡ record { writer = writer; base = writer.written_bytes; starts = []; closed = false } }
    {
        CountsSerializer {
            composite_write: CompositeWrite::wrap(alloc, writer),
            is_closed: false,
        }
    }

    /// Writes the counts of a field that wasn't written before, one for each document. There are at most
    /// `u32::MAX` fields.
    ///
    /// # Errors
    ///
    /// `Write` if the writer fails; a prefix of the counts may have been written. `Limit(Offset)` if a
    /// number of bytes of the writer would exceed `u64::MAX`. `OutOfMemory` if an allocation fails, and
    /// `SerializerClosed` after an earlier error; nothing is written in these two cases.
    pub fn serialize_field(
        &mut self,
        alloc: Global,
        field: Field,
        counts: &[u32],
    ) -> Result<(), Fault>
        requires unwritten { self.old.closed ≡ false → has_start field self.old.starts ≡ false }
        requires few { self.old.closed ≡ false → length self.old.starts < 2 ^ 32 - 1 }
        ensures written { WritesInMemory self.old.closed self.old.writer self.new.writer (written_counts counts.now) result }
        ensures adds { OnOk result (AddsBody self.old self.new field (written_counts counts.now)) }
        ensures holds { OnOk result (counts_at (length counts.now) (written_counts counts.now) ≡ Some counts.now) }
        ensures memory { IsErrOf result Fault.OutOfMemory → self.new.writer ≡ self.old.writer }
        ensures closes { Closes result self.new.closed }
    {
        if self.is_closed {
            return Err(Fault::SerializerClosed);
        }
        let written = write_counts(alloc, &mut self.composite_write, field, counts);
        self.is_closed = written.is_err();
        written
    }

    /// Writes the table of the fields and flushes, and returns the writer.
    ///
    /// # Errors
    ///
    /// `Write` if the writer fails; a prefix of the table may have been written. `Limit(Offset)` if a
    /// number of bytes of the writer would exceed `u64::MAX`. `SerializerClosed` after an earlier error;
    /// nothing is written.
    pub fn close(self) -> (CountingWriter<W>, Result<(), Fault>)
        ensures written { WritesUnlessClosed self.closed self.writer result.0 (table_bytes (places_of self)) result.1 }
        ensures bodies { (initial : CountingWriterState) (bodies : List Body) → HasBodies initial self bodies
            → fit_fields bodies ≡ true → OnOk result.1 (WroteComposite initial result.0 bodies) }
    {
        let CountsSerializer {
            composite_write,
            is_closed,
        } = self;
        if is_closed {
            return (composite_write.into_writer(), Err(Fault::SerializerClosed));
        }
        composite_write.close()
    }
}

// Writes the counts as the body of a field, once they are packed.
fn write_counts<W: Write>(
    alloc: Global,
    composite_write: &mut CompositeWrite<W>,
    field: Field,
    counts: &[u32],
) -> Result<(), Fault>
    requires unwritten { composite_write.old.closed ≡ false → has_start field composite_write.old.starts ≡ false }
    requires few { composite_write.old.closed ≡ false → length composite_write.old.starts < 2 ^ 32 - 1 }
    ensures written { WritesInMemory composite_write.old.closed composite_write.old.writer composite_write.new.writer (written_counts counts.now) result }
    ensures adds { OnOk result (AddsBody composite_write.old composite_write.new field (written_counts counts.now)) }
    ensures holds { OnOk result (counts_at (length counts.now) (written_counts counts.now) ≡ Some counts.now) }
    ensures memory { IsErrOf result Fault.OutOfMemory → composite_write.new.writer ≡ composite_write.old.writer }
    ensures open { OnOk result (composite_write.new.closed ≡ false) }
{
    let writer = composite_write.for_field(field)?;
    let mut packed = PositionWriter::new(alloc);
    packed.write_positions_delta(counts)?;
    packed.close_term(writer)
}
