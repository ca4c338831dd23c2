ghost use Rattle.std.specs.Prelude.{◌≡◌};

use std::marker::Model;

/// A field of a schema. Its model is its number.
#[derive(Clone, Copy, Debug, PartialEq, Eq, PartialOrd, Ord, Hash)]
pub struct Field(u32);

impl Model for Field {
    ghost use Rattle.std.specs.Prelude.{ℕ};

    ghost Value = { ℕ };

    ghost view = { λ field. field.0 };

    ghost inverse = { λ id. record { 0 = id } };
}

impl Field {
    /// Creates the field with this number.
    pub fn from_field_id(field_id: u32) -> Field
        ensures { result ≡ field_id }
    {
        Field(field_id)
    }

    /// Returns the number of the field.
    pub fn field_id(self) -> u32
        ensures { result ≡ self }
    {
        self.0
    }
}
