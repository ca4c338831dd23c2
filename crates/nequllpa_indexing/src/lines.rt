//! What is stored of documents: a record of each line.
ghost use Rattle.std.specs.Prelude.{◌≡◌, ◌⊎◌, ◌-◌, ◌^◌, ◌<◌, ℕ, [], List, Option, IfErr, IfOk, IsSome, OnErr, OnOk, false, length, map, option_map, string_bytes};
ghost use Rattle.ii_io.specs.CountingWriter.{CountingWriterState};
ghost use Rattle.ii_doc_store.specs.StoreWriter.{AddsDocument, HasStored};
ghost use Rattle.ii_documents.specs.Records.{HasLongRecord};
ghost use Rattle.ii_documents.specs.declared.faults.LineFault.TheVariants as faults;
ghost use Rattle.nequllpa_indexing.specs.Documents.{AddsRecord, may_be_stored, no_records};
ghost use Rattle.nequllpa_indexing.specs.StoredLines.{AreLinesOf, AreShort, HasOneMore, IsLinesFault, IsOutputFault, IsStoreOf, StoresLines, lines_view};

use ii_base::{CountingWriter, Fault, Schema};
use ii_doc_store::{MAX_DOCUMENT_LEN, StoreWriteFault, StoreWriter};
use ii_documents::{LineFault, record_of};
use ii_schema_text::Stored;
use std::alloc::Global;
use std::io::Write;

// Returns no records, if something is stored.
pub(crate) fn no_records(alloc: Global, stored: &Stored) -> Option<Vec<String>>
    ensures { lines_view result ≡ no_records stored.now }
{
    if stored.is_any() {
        return Some(Vec::new(alloc));
    }
    None
}

// Returns whether a line is short enough to be stored, if complete lines are.
pub(crate) fn may_be_stored(stored: &Stored, line: &str) -> bool
    ensures { result ≡ may_be_stored stored.now line.now }
{
    if !stored.is_line() {
        return true;
    }
    line.len() <= MAX_DOCUMENT_LEN
}

// Adds the record of a line, if something is stored. Returns `TooLong` if it is too long, or `OutOfMemory`; the
// records are then unchanged.
pub(crate) fn push_record(
    alloc: Global,
    schema: &Schema,
    stored: &Stored,
    records: &mut Option<Vec<String>>,
    line: &str,
) -> Result<(), LineFault>
    ensures ok { OnOk result (AddsRecord stored.now schema.now line.now (lines_view records.old) (lines_view records.new)) }
    ensures err { OnErr result (lines_view records.new ≡ lines_view records.old) }
    ensures fault { IfErr result (λ e. (e ≡ faults.OutOfMemory) ⊎ ((e ≡ faults.TooLong) × IsSome (lines_view records.old) × HasLongRecord stored.now schema.now line.now)) }
{
    let Some(records) = records else {
        return Ok(());
    };
    let record = match record_of(alloc, schema, stored, line) {
        Ok(record) => record,
        Err(_) => return Err(LineFault::OutOfMemory),
    };
    if record.len() > MAX_DOCUMENT_LEN {
        return Err(LineFault::TooLong);
    }
    Ok(records.push(record)?)
}

// Removes the last record, if something is stored.
pub(crate) fn pop_record(records: &mut Option<Vec<String>>)
    ensures { (before : Option (List (List ℕ))) → HasOneMore before (lines_view records.old) → lines_view records.new ≡ before }
{
    if let Some(records) = records {
        records.pop();
    }
}

// Writes the file of records to memory, if something is stored.
pub(crate) fn lines_file(
    alloc: Global,
    num_docs: u32,
    lines: Option<Vec<String>>,
) -> Result<Option<Vec<u8>>, Fault>
    requires few { num_docs < 2 ^ 31 }
    requires lines { AreLinesOf num_docs (lines_view lines) }
    ensures file { IfOk result (λ file. StoresLines (lines_view lines) (option_map (λ v. v.items) file)) }
    ensures fault { IfErr result (IsLinesFault (lines_view lines)) }
{
    let Some(lines) = lines else {
        return Ok(None);
    };
    match written(alloc, lines) {
        Ok(file) => Ok(Some(file)),
        Err(fault) => Err(fault),
    }
}

// Writes the file of records to memory.
fn written(alloc: Global, lines: Vec<String>) -> Result<Vec<u8>, Fault>
    requires few { length lines.items < 2 ^ 31 }
    requires short { AreShort (map string_bytes lines.items) }
    ensures file { IfOk result (λ file. IsStoreOf file.items (map string_bytes lines.items)) }
    ensures fault { IfErr result IsOutputFault }
{
    let mut writer = StoreWriter::new(alloc, CountingWriter::wrap(Vec::new(alloc)));
    let stored = store_all(&mut writer, lines);
    let (writer, finished) = writer.finish();
    match stored {
        Ok(()) => {}
        Err(fault) => return Err(fault),
    }
    match finished {
        Ok(()) => Ok(writer.finish()),
        Err(fault) => Err(fault.in_memory()),
    }
}

// Stores records in a store that has no documents.
fn store_all<W: Write>(writer: &mut StoreWriter<W>, lines: Vec<String>) -> Result<(), Fault>
    requires open { writer.old.closed ≡ false }
    requires empty { (initial : CountingWriterState) × HasStored initial writer.old [] }
    requires few { length lines.items < 2 ^ 31 }
    requires short { AreShort (map string_bytes lines.items) }
    ensures stored { OnOk result ((initial : CountingWriterState) → HasStored initial writer.old [] → HasStored initial writer.new (map string_bytes lines.items)) }
    ensures open { OnOk result (writer.new.closed ≡ false) }
    ensures fault { IfErr result IsOutputFault }
{
    for line in lines {
        if let Err(fault) = store_line(writer, line.as_str()) {
            return Err(fault);
        }
    }
    Ok(())
}

// Stores a record.
fn store_line<W: Write>(writer: &mut StoreWriter<W>, line: &str) -> Result<(), Fault>
    requires open { writer.old.closed ≡ false }
    requires few { writer.old.num_docs < 2 ^ 31 - 1 }
    requires short { length line.now < 2 ^ 31 }
    ensures stored { OnOk result (AddsDocument writer.old writer.new line.now) }
    ensures open { OnOk result (writer.new.closed ≡ false) }
    ensures fault { IfErr result IsOutputFault }
{
    match writer.store(line.as_bytes()) {
        Ok(()) => Ok(()),
        Err(StoreWriteFault::Output(fault)) => Err(fault.in_memory()),
        Err(_) => unreachable!(),
    }
}
