// Three texts, in a field with positions and norms.
ghost use Rattle.std.specs.Prelude.{◌≡◌, ◌<◌, length, IfOk};

use anyhow::Result;
use nequllpa::{
    AsciiTokenizer, Field, FieldEntry, IndexCall, IndexRecordOption, OpenIndex, Schema,
    index_in_ram,
};
use std::alloc::Global;

// Returns the schema, and the index of the texts in the order of their documents.
pub(crate) fn indexed(alloc: Global) -> Result<(Schema, OpenIndex)>
    ensures some { IfOk result (λ both. 0 < length both.1.readers) }
    ensures fields { IfOk result (λ both. length both.1.readers ≡ length both.0) }
{
    let mut entries = Vec::new(alloc);
    let name = String::from_str(alloc, "body")?;
    let option = IndexRecordOption::WithFreqsAndPositions;
    entries.push(FieldEntry::text(name, option, true))?;
    let body = Field::from_field_id(0);
    let mut calls = Vec::new(alloc);
    let text = String::from_str(alloc, "a bird in the hand")?;
    calls.push(IndexCall::Text(0, body, text))?;
    let text = String::from_str(alloc, "two in the bush")?;
    calls.push(IndexCall::Text(1, body, text))?;
    let text = String::from_str(alloc, "the end, the very end")?;
    calls.push(IndexCall::Text(2, body, text))?;
    let schema = Schema::new(entries);
    let fields = schema.clone()?;
    let index = index_in_ram(alloc, schema, 3, calls, &AsciiTokenizer)?;
    Ok((fields, index))
}
