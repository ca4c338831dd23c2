//! What is stored of a document.
ghost use Rattle.std.specs.Prelude.{◌≡◌, IfOk, string_bytes};
ghost use Rattle.ii_io.specs.Faults.{OnlyMemory};
ghost use Rattle.ii_schema_text.specs.Stored.{stored_names};
ghost use Rattle.ii_documents.specs.LineFields.{names_of};
ghost use Rattle.ii_documents.specs.Records.{IsRecordOf};

use crate::line_fields::{NullMembers, object_text, read_line};
use ii_base::{Fault, Field, Schema};
use ii_schema_text::Stored;
use std::alloc::Global;

/// Returns the record of a line, which is stored: the line, or the text of a JSON object of its members whose fields
/// are stored, in the order of the schema. Members that are null are left out. The object is written without spaces,
/// as `serde_json` writes values: of a number with a fraction or an exponent the spelling may change, its value
/// doesn't, and a line that is no JSON object has no members. Fails only with `OutOfMemory`.
pub fn record_of(
    alloc: Global,
    schema: &Schema,
    stored: &Stored,
    line: &str,
) -> Result<String, Fault>
    ensures kept { IfOk result (λ text. IsRecordOf stored.now schema.now line.now (string_bytes text)) }
    ensures only { OnlyMemory result }
{
    if stored.is_line() {
        return Ok(String::from_str(alloc, line)?);
    }
    let names = stored_names(alloc, schema, stored)?;
    let value = match read_line(alloc, line) {
        Ok(value) => value,
        Err(fault) => return Err(fault),
    };
    let text = object_text(alloc, &value, NullMembers::LeaveOut, &names);
    drop(value);
    text
}

// Returns the names of the fields that are stored, in the order of the schema.
fn stored_names<'s>(
    alloc: Global,
    schema: &'s Schema,
    stored: &Stored,
) -> Result<Vec<&'s str>, Fault>
    ensures names { IfOk result (λ names. names_of names.items ≡ stored_names stored.now.fields schema.now) }
    ensures only { OnlyMemory result }
{
    let mut names = Vec::new(alloc);
    for id in 0..schema.num_fields() {
        let field = Field::from_field_id(id as u32);
        if stored.has_member(field) {
            names.push(schema.get_field_entry(field).name())?;
        }
    }
    Ok(names)
}
