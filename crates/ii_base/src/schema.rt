ghost use Rattle.std.specs.Prelude.{◌≡◌, ◌^◌, ◌<◌, length, Some, vec_len, slice_get, IfOk};
ghost use Rattle.std.specs.List.{enumerate_from};
ghost use Rattle.ii_io.specs.Faults.{OnlyMemory};

use field_entry::FieldEntry;
use ii_io::{Fault, Field};
use schema_fields::SchemaFields;
use std::marker::Model;

pub mod field_entry;
pub mod index_record_option;
pub mod schema_fields;
pub mod term;
pub mod value_type;

/// The fields of an index, numbered from 0. Its model is the list of their entries.
#[derive(Drop)]
pub struct Schema {
    entries: Vec<FieldEntry>,
}

impl Model for Schema {
    ghost use Rattle.std.specs.Prelude.{List, ◌^◌, ◌<◌, length};
    ghost use Rattle.ii_base.specs.Schema.{SchemaEntry};

    ghost Value = { List SchemaEntry };

    ghost view = { λ s. s.entries.items };

    ghost invariant = { λ s. length s.entries.items < 2 ^ 32 };
}

impl Schema {
    /// Creates a schema of these entries, fewer than 2^32, without an allocation.
    pub fn new(entries: Vec<FieldEntry>) -> Schema
        requires { vec_len entries < 2 ^ 32 }
        ensures { result ≡ entries.items }
    {
        Schema { entries }
    }

    /// Clones the schema. Returns `OutOfMemory` if allocation fails.
    pub fn clone(&self) -> Result<Schema, Fault>
        ensures same { IfOk result (λ copy. copy ≡ self.now) }
        ensures only { OnlyMemory result }
    {
        let entries = self.entries.clone()?;
        Ok(Schema { entries })
    }

    /// Returns the number of fields.
    pub fn num_fields(&self) -> usize
        ensures value { result ≡ length self.now }
        ensures bound { result < 2 ^ 32 }
    {
        self.entries.len()
    }

    /// Returns the entry of a field of this schema.
    pub fn get_field_entry(&self, field: Field) -> &FieldEntry
        requires { field < length self.now }
        ensures { slice_get self.now field ≡ Some result.now }
    {
        &self.entries[field.field_id() as usize]
    }

    /// Iterates over the fields with their entries, in order.
    pub fn fields(&self) -> SchemaFields<'_>
        ensures { result ≡ enumerate_from 0 self.now }
    {
        SchemaFields::new(&self.entries)
    }
}
