ghost use Rattle.std.specs.Prelude.{◌≡◌, [], ◌∷◌, ◌++◌, false, pos, IfOk, OnErr, OnOk};
ghost use Rattle.ii_io.specs.Faults.{OnlyMemory};
ghost use Rattle.ii_base.specs.Paths.{has_zero, path_bytes, segments_of};
ghost use Rattle.ii_base.specs.ValueTypes.{code_of};
ghost use Rattle.ii_base.specs.Values.{flipped, number_of_bool, u64_bytes};

use super::value_type::ValueType;
use crate::fast_value::FastValue;
use crate::json_path_writer::JsonPathWriter;
use crate::json_utils::push_path;
use ii_io::{Fault, Field};
use std::alloc::Global;
use std::marker::Model;

/// A term: a field, and the bytes of a value in it, which are the key for lookups.
#[derive(Drop)]
pub struct Term {
    field: Field,
    value: Vec<u8>,
}

impl Model for Term {
    ghost use Rattle.ii_base.specs.Terms.{TermState};

    ghost Value = { TermState };

    ghost view = { λ t. record { field = t.field; value = t.value.items } };
}

impl Term {
    /// Creates the term of an unsigned number: 8 bytes, big-endian. Returns `OutOfMemory` if allocation
    /// fails.
    pub fn from_field_u64(alloc: Global, field: Field, val: u64) -> Result<Term, Fault>
        ensures ok { IfOk result (λ term. term ≡ record { field = field; value = u64_bytes val }) }
        ensures only { OnlyMemory result }
    {
        Term::from_field_bytes(alloc, field, &val.to_be_bytes())
    }

    /// Creates the term of a signed number: the number plus 2^63 in 8 bytes, big-endian. Returns
    /// `OutOfMemory` if allocation fails.
    pub fn from_field_i64(alloc: Global, field: Field, val: i64) -> Result<Term, Fault>
        ensures ok { IfOk result (λ term. term ≡ record { field = field; value = u64_bytes (flipped val) }) }
        ensures only { OnlyMemory result }
    {
        Term::from_field_u64(alloc, field, val.to_u64())
    }

    /// Creates the term of a boolean: 0 or 1 in 8 bytes, big-endian. Returns `OutOfMemory` if allocation
    /// fails.
    pub fn from_field_bool(alloc: Global, field: Field, val: bool) -> Result<Term, Fault>
        ensures ok { IfOk result (λ term. term ≡ record { field = field; value = u64_bytes (number_of_bool val) }) }
        ensures only { OnlyMemory result }
    {
        Term::from_field_u64(alloc, field, val.to_u64())
    }

    /// Creates the term of a text: its bytes. Returns `OutOfMemory` if allocation fails.
    pub fn from_field_text(alloc: Global, field: Field, text: &str) -> Result<Term, Fault>
        ensures ok { IfOk result (λ term. term ≡ record { field = field; value = text.now }) }
        ensures only { OnlyMemory result }
    {
        Term::from_field_bytes(alloc, field, text.as_bytes())
    }

    /// Creates the term of these bytes. Returns `OutOfMemory` if allocation fails.
    pub fn from_field_bytes(alloc: Global, field: Field, bytes: &[u8]) -> Result<Term, Fault>
        ensures ok { IfOk result (λ term. term ≡ record { field = field; value = bytes.now }) }
        ensures only { OnlyMemory result }
    {
        let value = Vec::from_slice(alloc, bytes)?;
        Ok(Term { field, value })
    }

    /// Creates the term of a path into the JSON values of a field, to which a value is appended. Its bytes
    /// are the segments, separated by byte 1, and byte 0.
    ///
    /// In `path`, which must not hold byte 0, a dot separates segments and a backslash escapes the next
    /// character. If `expand_dots`, an escaped dot becomes byte 1. Returns `OutOfMemory` if allocation
    /// fails.
    pub fn from_field_json_path(
        alloc: Global,
        field: Field,
        path: &str,
        expand_dots: bool,
    ) -> Result<Term, Fault>
        requires { has_zero path.now ≡ false }
        ensures ok { IfOk result (λ term. term ≡ record { field = field; value = path_bytes expand_dots (segments_of path.now) ++ 0 ∷ [] }) }
        ensures only { OnlyMemory result }
    {
        let mut writer = JsonPathWriter::new(alloc);
        writer.set_expand_dots(expand_dots);
        push_path(alloc, &mut writer, path)?;
        let mut value = writer.into_string().into_bytes();
        value.push(0)?;
        Ok(Term { field, value })
    }

    /// Appends a value in a JSON field: the letter of its type, and its number in 8 bytes, big-endian.
    /// Returns `OutOfMemory`, and leaves the term as it is, if allocation fails.
    pub fn append_type_and_fast_value<T: FastValue>(&mut self, val: T) -> Result<(), Fault>
        ensures ok { OnOk result (self.new ≡ record self.old { value = self.old.value ++ code_of T.type_of_values ∷ u64_bytes (T.number val) }) }
        ensures err { OnErr result (self.new ≡ self.old) }
        ensures only { OnlyMemory result }
    {
        self.append_type_and_bytes(T::to_type(), &val.to_u64().to_be_bytes())
    }

    /// Appends a text in a JSON field: the letter `s` and its bytes. Returns `OutOfMemory`, and leaves the
    /// term as it is, if allocation fails.
    pub fn append_type_and_str(&mut self, val: &str) -> Result<(), Fault>
        ensures ok { OnOk result (self.new ≡ record self.old { value = self.old.value ++ 0x73 ∷ val.now }) }
        ensures err { OnErr result (self.new ≡ self.old) }
        ensures only { OnlyMemory result }
    {
        self.append_type_and_bytes(ValueType::Str, val.as_bytes())
    }

    // Appends the letter of a type, and bytes.
    fn append_type_and_bytes(&mut self, value_type: ValueType, bytes: &[u8]) -> Result<(), Fault>
        ensures ok { OnOk result (self.new ≡ record self.old { value = self.old.value ++ code_of value_type ∷ bytes.now }) }
        ensures err { OnErr result (self.new ≡ self.old) }
        ensures only { OnlyMemory result }
    {
        let len = self.value.len();
        self.value.push(value_type.to_code())?;
        if let Err(refused) = self.value.extend_from_slice(bytes) {
            self.value.truncate(len);
            return Err(Fault::from(refused));
        }
        Ok(())
    }

    /// Returns the field.
    pub fn field(&self) -> Field
        ensures { result ≡ self.now.field }
    {
        self.field
    }

    /// Returns the bytes of the value, which are the key of the term in the dictionary of its field.
    pub fn serialized_value_bytes(&self) -> &[u8]
        ensures { result.now ≡ self.now.value }
    {
        &self.value
    }
}
