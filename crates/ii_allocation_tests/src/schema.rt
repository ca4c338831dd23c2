ghost use Rattle.std.specs.Prelude.{◌≡◌, [], ◌∷◌, Some, None, IfOk};
ghost use Rattle.ii_fieldnorm.specs.Buffers.{empty_buffers};

use ii_base::{Fault, FieldEntry, IndexRecordOption, Schema, ValueType};
use std::alloc::{AllocError, Global};

/// Builds a schema and lists its fields.
pub fn read_back(alloc: Global) -> Result<String, Fault> {
    let schema = two_fields(alloc)?;
    let mut text = String::new(alloc);
    for (field, entry) in schema.fields() {
        let (id, name, code) = (field.field_id(), entry.name(), entry.value_type().to_code());
        write!(text, " {id} is {name} of {code}")?;
    }
    Ok(text)
}

/// Builds a schema of one text field with norms and one number field without.
pub fn two_fields(alloc: Global) -> Result<Schema, AllocError>
    ensures { IfOk result (λ schema. empty_buffers schema ≡ Some [] ∷ None ∷ []) }
{
    let option = IndexRecordOption::WithFreqs;
    let text = FieldEntry::text(String::from_str(alloc, "text")?, option, true);
    let number = FieldEntry::value(String::from_str(alloc, "number")?, ValueType::U64, false);
    Ok(Schema::new(vec![in alloc; text, number]?))
}
