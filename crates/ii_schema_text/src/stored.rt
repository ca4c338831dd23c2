//! What a schema says is stored of documents.
ghost use Rattle.std.specs.Prelude.{Bool, ◌≡◌, ◌++◌, ◌∷◌, [], IfOk, OnErr, OnOk, slice_get};
ghost use Rattle.std.specs.List.{list_any};
ghost use Rattle.ii_io.specs.Faults.{OnlyMemory};
ghost use Rattle.ii_schema_text.specs.Stored.{has_field, is_any, is_set};

use ii_base::{Fault, Field};
use std::alloc::{AllocError, Global};
use std::marker::Model;

/// What is stored of each document: nothing, its complete line, or its members of some fields.
///
/// Its model is whether the complete line is stored, and for each field in order whether its member is stored. Where
/// complete lines are stored, nothing else is.
pub struct Stored {
    is_line: bool,
    fields: Vec<bool>,
}

// Makes each drop a call.
impl Drop for Stored {
    fn drop(self) {
        let Stored {
            is_line: _,
            fields: _,
        } = self;
    }
}

impl Model for Stored {
    ghost use Rattle.ii_schema_text.specs.Stored.{StoredState};

    ghost Value = { StoredState };

    ghost view = { λ s. record { is_line = s.is_line; fields = s.fields.items } };
}

// Returns whether the member of any field is stored.
fn has_any(fields: &[bool]) -> bool
    ensures { result ≡ list_any (λ (is_stored : Bool). is_stored) fields.now }
{
    fields.iter().any(|is_stored| *is_stored)
}

impl Stored {
    /// Creates it without fields: the complete line is stored, or nothing.
    pub fn new(alloc: Global, is_line: bool) -> Stored
        ensures { result ≡ record { is_line = is_line; fields = [] } }
    {
        Stored {
            is_line,
            fields: Vec::new(alloc),
        }
    }

    /// Adds a field after the others, whose member is stored or isn't. After an error it is unchanged.
    pub fn push(&mut self, is_stored: bool) -> Result<(), AllocError>
        ensures ok { OnOk result (self.new ≡ record self.old { fields = self.old.fields ++ is_stored ∷ [] }) }
        ensures err { OnErr result (self.new ≡ self.old) }
    {
        Ok(self.fields.push(is_stored)?)
    }

    /// Returns whether complete lines are stored.
    pub fn is_line(&self) -> bool
        ensures { result ≡ self.now.is_line }
    {
        self.is_line
    }

    /// Returns whether anything is stored.
    pub fn is_any(&self) -> bool
        ensures { result ≡ is_any self.now }
    {
        if self.is_line {
            return true;
        }
        has_any(self.fields.as_slice())
    }

    /// Returns whether members of a field are stored by the schema's word for the field, where complete lines aren't.
    pub fn has_member(&self, field: Field) -> bool
        ensures { result ≡ is_set (slice_get self.now.fields field) }
    {
        match self.fields.get(field.field_id() as usize) {
            Some(is_stored) => *is_stored,
            None => false,
        }
    }

    /// Returns whether members of a field are in what is stored, by themselves or with the complete line.
    pub fn has_field(&self, field: Field) -> bool
        ensures { result ≡ has_field self.now field }
    {
        if self.is_line {
            return true;
        }
        self.has_member(field)
    }

    /// Returns a copy. Fails only with `OutOfMemory`.
    pub fn clone(&self) -> Result<Stored, Fault>
        ensures same { IfOk result (λ s. s ≡ self.now) }
        ensures only { OnlyMemory result }
    {
        Ok(Stored {
            is_line: self.is_line,
            fields: self.fields.clone()?,
        })
    }
}
