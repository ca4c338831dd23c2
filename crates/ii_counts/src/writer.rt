//! Collects the number of tokens of each document in each field.
ghost use Rattle.std.specs.Prelude.{◌≡◌, ◌<◌, ◌-◌, ◌^◌, ℕ, [], length, map, replicate, get_or, false, IfErr, IfOk, OnErr, OnOk};
ghost use Rattle.std.specs.List.{AllByRecursion, list_any};
ghost use Rattle.ii_io.specs.Faults.{OnlyMemory};
ghost use Rattle.ii_io.specs.Composite.{bodies_bytes};
ghost use Rattle.ii_io.specs.CompositeWrite.{has_start, AddsBody};
ghost use Rattle.ii_fieldnorm.specs.Buffers.{AddsNorms, WritesNorms, filled, norm_bodies};
ghost use Rattle.ii_counts.specs.Counts.{written_counts};
ghost use Rattle.ii_counts.specs.CountsWriter.{HoldRows, IsReadBack, IsRowsFault, SetsCount, first_counts, is_limit, row_buffers};

use super::serializer::CountsSerializer;
use ii_base::{CountingWriter, DocId, Fault, Field, Schema};
use std::alloc::{AllocError, Global};
use std::io::Write;
use std::marker::Model;

/// Collects the number of tokens of each document in each field. Its model is a row for each field of the
/// schema, with the number of each document so far.
#[derive(Drop)]
pub struct CountsWriter {
    rows: Vec<CountRow>,
}

impl Model for CountsWriter {
    ghost use Rattle.std.specs.Prelude.{◌<◌, ◌^◌, ℕ, List, length};

    ghost Value = { List (List ℕ) };

    ghost view = { λ w. w.rows.items };

    ghost invariant = { λ w. length w.rows.items < 2 ^ 32 };
}

impl CountsWriter {
    /// Creates a writer without documents, for the fields of a schema. Returns `OutOfMemory` if an allocation
    /// fails.
    pub fn for_schema(alloc: Global, schema: &Schema) -> Result<CountsWriter, Fault>
        ensures empty { IfOk result (λ writer. writer ≡ replicate (length schema.now) []) }
        ensures only { OnlyMemory result }
    {
        let mut rows = Vec::new(alloc);
        for _field in 0..schema.num_fields() {
            rows.push(CountRow::new(alloc))?;
        }
        Ok(CountsWriter { rows })
    }

    /// Sets the number of tokens of a document in a field. `u32::MAX` stands for this number and all greater ones
    /// (`has_limit`). Returns `OutOfMemory`, without a change, if an allocation fails.
    pub fn record(&mut self, doc: DocId, field: Field, count: u32) -> Result<(), Fault>
        requires { field < length self.old }
        ensures ok { OnOk result (SetsCount self.old self.new field doc count) }
        ensures err { OnErr result (self.new ≡ self.old) }
        ensures only { OnlyMemory result }
    {
        self.rows[field.field_id() as usize].set(doc, count)?;
        Ok(())
    }

    /// Returns whether a document has `u32::MAX` tokens in a field, or more.
    pub fn has_limit(&self) -> bool
        ensures { result ≡ list_any (list_any is_limit) self.now }
    {
        for row in &self.rows {
            if row.has_limit() {
                return true;
            }
        }
        false
    }

    /// Returns the file of the numbers of the first `num_docs` documents. A document that has no number has 0.
    ///
    /// Returns `OutOfMemory` if an allocation fails, and `Limit(Offset)` if the file would have 2^64 bytes or
    /// more.
    pub fn into_file(self, alloc: Global, num_docs: DocId) -> Result<Vec<u8>, Fault>
        ensures holds { IfOk result (λ v. HoldRows (map (first_counts num_docs) self) v.items) }
        ensures fault { IfErr result (IsRowsFault (map (first_counts num_docs) self)) }
    {
        let mut rows = self.rows;
        fill_rows(&mut rows, num_docs)?;
        rows_file(alloc, rows.as_slice())
    }
}

// Resizes each row to the first documents.
fn fill_rows(rows: &mut Vec<CountRow>, num_docs: u32) -> Result<(), Fault>
    ensures ok { OnOk result (rows.new.items ≡ map (filled num_docs) rows.old.items) }
    ensures only { OnlyMemory result }
{
    for i in 0..rows.len() {
        rows[i].fill(num_docs)?;
    }
    Ok(())
}

// Returns the file of rows.
fn rows_file(alloc: Global, rows: &[CountRow]) -> Result<Vec<u8>, Fault>
    requires { length rows.now < 2 ^ 32 }
    ensures holds { IfOk result (λ v. HoldRows rows.now v.items) }
    ensures fault { IfErr result (IsRowsFault rows.now) }
{
    let writer = CountingWriter::wrap(Vec::new(alloc));
    let mut serializer = CountsSerializer::from_write(alloc, writer);
    let written = write_rows(alloc, &mut serializer, rows);
    let (writer, closed) = serializer.close();
    match written {
        Ok(()) => {}
        Err(fault) => return Err(fault.in_memory()),
    }
    match closed {
        Ok(()) => Ok(writer.finish()),
        Err(fault) => Err(fault.in_memory()),
    }
}

// Writes the row of each field.
fn write_rows<W: Write>(
    alloc: Global,
    serializer: &mut CountsSerializer<W>,
    rows: &[CountRow],
) -> Result<(), Fault>
    requires fresh { serializer.old.starts ≡ [] }
    requires fields { length rows.now < 2 ^ 32 }
    ensures written { WritesNorms serializer.old serializer.new (bodies_bytes (norm_bodies (row_buffers rows.now))) result }
    ensures adds { OnOk result (AddsNorms serializer.old serializer.new (row_buffers rows.now)) }
    ensures read { OnOk result (AllByRecursion IsReadBack rows.now) }
{
    for i in 0..rows.len() {
        let field = Field::from_field_id(i as u32);
        let written = write_row(alloc, serializer, field, rows[i].as_slice());
        if written.is_err() {
            return written;
        }
    }
    Ok(())
}

// Writes the row of a field that wasn't written before.
fn write_row<W: Write>(
    alloc: Global,
    serializer: &mut CountsSerializer<W>,
    field: Field,
    row: &[u32],
) -> Result<(), Fault>
    requires { serializer.old.closed ≡ false → (has_start field serializer.old.starts ≡ false) × length serializer.old.starts < 2 ^ 32 - 1 }
    ensures written { WritesNorms serializer.old serializer.new (written_counts row.now) result }
    ensures adds { OnOk result (AddsBody serializer.old serializer.new field (written_counts row.now)) }
    ensures read { OnOk result (IsReadBack row.now) }
{
    serializer.serialize_field(alloc, field, row)
}

// The numbers of a field, document by document.
#[derive(Drop)]
struct CountRow {
    counts: Vec<u32>,
}

impl Model for CountRow {
    ghost use Rattle.std.specs.Prelude.{ℕ, List};

    ghost Value = { List ℕ };

    ghost view = { λ row. row.counts.items };
}

impl CountRow {
    // Creates an empty row.
    fn new(alloc: Global) -> CountRow
        ensures { result ≡ [] }
    {
        CountRow {
            counts: Vec::new(alloc),
        }
    }

    // Sets a number. Missing numbers before it are 0.
    fn set(&mut self, doc: DocId, count: u32) -> Result<(), AllocError>
        ensures here { OnOk result (get_or self.new doc 0 ≡ count) }
        ensures others { OnOk result ((d : ℕ) → (d ≡ doc → ⊥) → get_or self.new d 0 ≡ get_or self.old d 0) }
        ensures err { OnErr result (self.new ≡ self.old) }
    {
        set_count(&mut self.counts, doc as usize, count)
    }

    // Returns whether a number is `u32::MAX`.
    fn has_limit(&self) -> bool
        ensures { result ≡ list_any is_limit self.now }
    {
        for count in &self.counts {
            if *count == u32::MAX {
                return true;
            }
        }
        false
    }

    // Resizes to the first documents.
    fn fill(&mut self, num_docs: u32) -> Result<(), AllocError>
        ensures { OnOk result (self.new ≡ filled num_docs self.old) }
    {
        self.counts.resize(num_docs as usize, 0)
    }

    // Returns the numbers.
    fn as_slice(&self) -> &[u32]
        ensures { result.now ≡ self.now }
    {
        self.counts.as_slice()
    }
}

// Sets a number in a list. Missing numbers before it are 0.
fn set_count(counts: &mut Vec<u32>, doc: usize, count: u32) -> Result<(), AllocError>
    requires { doc < 2 ^ 32 }
    ensures here { OnOk result (get_or counts.new.items doc 0 ≡ count) }
    ensures others { OnOk result ((d : ℕ) → (d ≡ doc → ⊥) → get_or counts.new.items d 0 ≡ get_or counts.old.items d 0) }
    ensures err { OnErr result (counts.new.items ≡ counts.old.items) }
{
    let len = counts.len().max(doc + 1);
    counts.resize(len, 0)?;
    counts[doc] = count;
    Ok(())
}
