ghost use Rattle.std.specs.Prelude.{◌≡◌, ◌<◌, ◌↔◌, ◌+◌, ◌-◌, ◌*◌, ◌^◌, List, [], ◌∷◌, ◌++◌, true, false, length, Some, IsTrue, IfOk, OnOk, OnErr, IsErrOf, slice_get};
ghost use Rattle.std.specs.Borrow.{sem};
ghost use Rattle.ii_io.specs.CountingWriter.{CountingWriterState, Writes, WritesUnlessClosed, IsFull};
ghost use Rattle.std.specs.List.{flat_map};
ghost use Rattle.ii_io.specs.Composite.{Body, fit_fields, place_bytes, table_bytes};
ghost use Rattle.ii_io.specs.CompositeWrite.{has_start, places_of, places_until, next_start, HasBodies, WroteComposite};
ghost use Rattle.ii_io.specs.Lending.{LendsForField, LendsWriter};
ghost use Rattle.ii_io.specs.Faults.{OnlyMemoryOrClosed};

use super::place::{BodyStart, Place};
use crate::counting_writer::CountingWriter;
use crate::faults::{Fault, LimitName};
use crate::field::Field;
use crate::serialize::BinarySerializable;
use std::alloc::Global;
use std::io::Write;
use std::marker::Model;

/// Writes a composite file: the bodies of fields in sequence, then a table.
///
/// The first call that fails closes the writer; later calls return `SerializerClosed`.
#[derive(Drop)]
pub struct CompositeWrite<W: Write> {
    writer: CountingWriter<W>,
    base: u64,
    starts: Vec<BodyStart>,
    is_closed: bool,
}

impl<W: Write> Model for CompositeWrite<W> {
    ghost use Rattle.ii_io.specs.CompositeWrite.{CompositeWriteState, AreStarts};

    ghost Value = { CompositeWriteState };

    ghost view = { λ a. record {
      writer = a.writer;
      base = a.base;
      starts = a.starts.items;
      closed = a.is_closed;
    } };

    ghost invariant = { λ a. AreStarts a.starts.items };
}

impl<W: Write> CompositeWrite<W> {
    /// Creates a composite writer over `writer`. Places are counted from its current position.
    pub fn wrap(alloc: Global, writer: CountingWriter<W>) -> CompositeWrite<W>
        ensures { result ≡ record { writer = writer; base = writer.written_bytes; starts = []; closed = false } }
    {
        let base = writer.written_bytes();
        CompositeWrite {
            writer,
            base,
            starts: Vec::new(alloc),
            is_closed: false,
        }
    }

    /// Returns the writer for the body of a field that has no body yet. The body ends where the next
    /// starts, or at `close`. There are at most `u32::MAX` bodies.
    ///
    /// Returns `OutOfMemory` if the table can't grow, and `SerializerClosed` after an earlier error.
    pub fn for_field(&mut self, field: Field) -> Result<&mut CountingWriter<W>, Fault>
        requires unwritten { self.old.closed ≡ false → has_start field self.old.starts ≡ false }
        requires few { self.old.closed ≡ false → length self.old.starts < 2 ^ 32 - 1 }
        ensures* lends { sem 𝓛 (LendsForField W.row W.Write self.entry field result) }
        ensures value { IfOk result (λ writer. writer.now ≡ self.old.writer) }
        ensures closed { IsErrOf result Fault.SerializerClosed ↔ IsTrue self.old.closed }
        ensures only { OnlyMemoryOrClosed result }
    {
        self.begin_body(field)?;
        Ok(&mut self.writer)
    }

    /// Returns the writer for more bytes of the body that was opened last.
    pub fn writer(&mut self) -> &mut CountingWriter<W>
        requires { self.old.closed ≡ false → 0 < length self.old.starts }
        ensures* lends { sem 𝓛 (LendsWriter W.row W.Write self.entry result) }
        ensures value { result.now ≡ self.old.writer }
    {
        &mut self.writer
    }

    // Records that the body of a field starts.
    fn begin_body(&mut self, field: Field) -> Result<(), Fault>
        requires unwritten { self.old.closed ≡ false → has_start field self.old.starts ≡ false }
        requires few { self.old.closed ≡ false → length self.old.starts < 2 ^ 32 - 1 }
        ensures ok { OnOk result (self.new
            ≡ record self.old { starts = self.old.starts ++ next_start self.old field ∷ [] }) }
        ensures err { OnErr result (self.new ≡ record self.old { closed = true }) }
        ensures closed { IsErrOf result Fault.SerializerClosed ↔ IsTrue self.old.closed }
        ensures only { OnlyMemoryOrClosed result }
    {
        if self.is_closed {
            return Err(Fault::SerializerClosed);
        }
        let start = self.writer.written_bytes().saturating_sub(self.base);
        let pushed = self.starts.push(BodyStart { field, start });
        self.is_closed = pushed.is_err();
        Ok(pushed?)
    }

    /// Returns the writer in its current state, without a table.
    pub fn into_writer(self) -> CountingWriter<W>
        ensures { result ≡ self.writer }
    {
        let CompositeWrite {
            writer: unclosed,
            base: _,
            starts: _,
            is_closed: _,
        } = self;
        unclosed
    }

    /// Writes the table and flushes, and returns the writer. After success the file is read back as the
    /// bodies.
    ///
    /// # Errors
    ///
    /// `Write` if the writer fails; a prefix of the table may have been written. `Limit(Offset)` if a count
    /// of the writer would exceed `u64::MAX`. `SerializerClosed` after an earlier error; nothing is
    /// written.
    pub fn close(self) -> (CountingWriter<W>, Result<(), Fault>)
        ensures written { WritesUnlessClosed self.closed self.writer result.0 (table_bytes (places_of self)) result.1 }
        ensures bodies { (initial : CountingWriterState) (bodies : List Body) → HasBodies initial self bodies
            → fit_fields bodies ≡ true → OnOk result.1 (WroteComposite initial result.0 bodies) }
        ensures limit { IsErrOf result.1 (Fault.Limit LimitName.Offset)
            ↔ ((self.closed ≡ false) × IsFull self.writer (length (table_bytes (places_of self)))) }
    {
        let CompositeWrite {
            mut writer,
            base,
            starts,
            is_closed,
        } = self;
        if is_closed {
            return (writer, Err(Fault::SerializerClosed));
        }
        let end = writer.written_bytes().saturating_sub(base);
        let written = write_table(&mut writer, &starts, end);
        (writer, written)
    }
}

// Writes the places of bodies, the last of which ends at `end`, and their number, and flushes.
fn write_table<W: Write>(
    writer: &mut CountingWriter<W>,
    starts: &[BodyStart],
    end: u64,
) -> Result<(), Fault>
    requires { length starts.now < 2 ^ 32 }
    ensures written { Writes writer.old writer.new (table_bytes (places_until starts.now end)) result }
    ensures limit { IsErrOf result (Fault.Limit LimitName.Offset)
        ↔ IsFull writer.old (length (table_bytes (places_until starts.now end))) }
{
    let size = 20 * starts.len() as u64 + 4;
    if writer.failed_calls() == u64::MAX {
        return Err(Fault::Limit(LimitName::Offset));
    }
    if u64::MAX - writer.written_bytes() < size {
        return Err(Fault::Limit(LimitName::Offset));
    }
    write_places_and_number(writer, starts, end)
}

// Writes the places and their number, and flushes.
fn write_places_and_number<W: Write>(
    writer: &mut CountingWriter<W>,
    starts: &[BodyStart],
    end: u64,
) -> Result<(), Fault>
    requires { length starts.now < 2 ^ 32 }
    ensures { Writes writer.old writer.new (table_bytes (places_until starts.now end)) result }
{
    let places = write_places(writer, starts, end);
    if places.is_err() {
        return places;
    }
    let number = (starts.len() as u32).serialize(writer);
    if number.is_err() {
        return number;
    }
    writer.flush()
}

// Writes the places alone.
fn write_places<W: Write>(
    writer: &mut CountingWriter<W>,
    starts: &[BodyStart],
    end: u64,
) -> Result<(), Fault>
    ensures { Writes writer.old writer.new (flat_map place_bytes (places_until starts.now end)) result }
{
    for i in 0..starts.len() {
        let place = place_of(starts, i, end).serialize(writer);
        if place.is_err() {
            return place;
        }
    }
    Ok(())
}

// Returns the place of the i-th body. It ends where the next starts, or at `end` for the last one.
fn place_of(starts: &[BodyStart], i: usize, end: u64) -> Place
    requires { i < length starts.now }
    ensures { slice_get (places_until starts.now end) i ≡ Some result }
{
    let body = starts[i];
    if i + 1 < starts.len() {
        let next = starts[i + 1];
        return Place {
            field: body.field,
            start: body.start,
            end: next.start,
        };
    }
    Place {
        field: body.field,
        start: body.start,
        end,
    }
}
