ghost use Rattle.std.specs.Prelude.{◌≡◌, ◌^◌, ◌<◌, length};
ghost use Rattle.std.specs.List.{enumerate_from};

use super::field_entry::FieldEntry;
use ii_io::Field;
use std::marker::Model;

/// Iterates over the fields of a schema with their entries, in order.
#[derive(Drop)]
pub struct SchemaFields<'a> {
    entries: &'a [FieldEntry],
    next_id: u64,
}

impl<'a> Model for SchemaFields<'a> {
    ghost use Rattle.std.specs.Prelude.{ℕ, List, ◌+◌, ◌^◌, ◌<◌, length};
    ghost use Rattle.std.specs.List.{enumerate_from};
    ghost use Rattle.ii_base.specs.Schema.{SchemaEntry};

    ghost Value = { List (ℕ × SchemaEntry) };

    ghost view = { λ s. enumerate_from s.next_id s.entries.now };

    ghost invariant = { λ s. s.next_id + length s.entries.now < 2 ^ 32 };
}

impl<'a> SchemaFields<'a> {
    // Creates the iterator over the fields of these entries, numbered from 0.
    pub(crate) fn new(entries: &'a [FieldEntry]) -> SchemaFields<'a>
        requires { length entries.now < 2 ^ 32 }
        ensures { result ≡ enumerate_from 0 entries.entry.now }
    {
        SchemaFields {
            entries,
            next_id: 0,
        }
    }
}

impl<'a> Iterator for SchemaFields<'a> {
    type Item = (Field, &'a FieldEntry);

    ghost use Rattle.std.specs.Iterator.{YieldsFirstBy, item_count};

    ghost next_gives = { YieldsFirstBy (λ x. (x.0, x.1.now)) (λ s. s) };

    ghost remaining = { item_count (λ s. s) };

    fn next(&mut self) -> Option<(Field, &'a FieldEntry)> {
        let (first, rest) = self.entries.split_first()?;
        let field = Field::from_field_id(self.next_id as u32);
        self.entries = rest;
        self.next_id += 1;
        Some((field, first))
    }
}
