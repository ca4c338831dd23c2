ghost use Rattle.std.specs.Prelude.{◌≡◌, ◌∷◌, ◌++◌, ◌+◌, ◌==◌, ◌≤◌, ◌<◌, ◌^◌, [], drop, length, take, IfOk, OnErr, OnOk};
ghost use Rattle.std.specs.Int.{bytes_high_first};
ghost use Rattle.ii_base.specs.ValueTypes.{code_of};
ghost use Rattle.ii_base.specs.Values.{flipped, number_of_bool, u64_bytes};
ghost use Rattle.std.specs.Borrow.{sem};
ghost use Rattle.ii_io.specs.Faults.{OnlyMemory};
ghost use Rattle.ii_postings_writer.specs.IndexingTerm.{AreTermBytes, field_bytes, field_in, term_bytes};
ghost use Rattle.ii_postings_writer.specs.Lending.{TermRestsWith};

use ii_base::{FastValue, Fault, Field};
use std::alloc::Global;
use std::marker::Model;

// The bytes of the field, before those of the value.
const TERM_METADATA_LENGTH: usize = 4;

/// A term during indexing: 4 bytes of its field, big-endian, then the bytes of its value.
#[derive(Drop)]
pub struct IndexingTerm {
    field: Field,
    bytes: Vec<u8>,
}

impl Model for IndexingTerm {
    ghost use Rattle.std.specs.Prelude.{◌≡◌, ◌≤◌, ◌^◌, ◌<◌, drop, length, take};
    ghost use Rattle.ii_postings_writer.specs.IndexingTerm.{IndexingTermState, field_bytes};

    ghost Value = { IndexingTermState };

    ghost view = { λ t. record { field = t.field; value = drop 4 t.bytes.items } };

    ghost invariant = { λ t. (4 ≤ length t.bytes.items) × (take 4 t.bytes.items ≡ field_bytes t.field) × (t.field < 2 ^ 32) };
}

impl IndexingTerm {
    /// Creates an empty term of field 0, with capacity for `capacity` bytes of a value. Returns
    /// `OutOfMemory` if the allocation fails.
    pub fn with_capacity(alloc: Global, capacity: usize) -> Result<IndexingTerm, Fault>
        requires { 4 + capacity < 2 ^ 64 }
        ensures ok { IfOk result (λ term. term ≡ record { field = 0; value = [] }) }
        ensures only { OnlyMemory result }
    {
        let mut bytes = Vec::with_capacity(alloc, TERM_METADATA_LENGTH + capacity)?;
        bytes.extend_from_slice(&0u32.to_be_bytes())?;
        Ok(IndexingTerm {
            field: Field::from_field_id(0),
            bytes,
        })
    }

    /// Returns whether the value has no bytes.
    pub fn is_empty(&self) -> bool
        ensures { result ≡ (length self.now.value == 0) }
    {
        self.len_bytes() == 0
    }

    /// Returns the length of the value in bytes.
    pub fn len_bytes(&self) -> usize
        ensures { result ≡ length self.now.value }
    {
        self.bytes.len() - TERM_METADATA_LENGTH
    }

    /// Sets the field of an empty term. Allocates nothing.
    pub fn set_field(&mut self, field: Field)
        requires { self.old.value ≡ [] }
        ensures { self.new ≡ record { field = field; value = [] } }
    {
        write_field(&mut self.bytes, field);
        self.field = field;
    }

    /// Removes the value and sets the field. Allocates nothing.
    pub fn clear_with_field(&mut self, field: Field)
        ensures { self.new ≡ record { field = field; value = [] } }
    {
        self.truncate_value_bytes(0);
        self.set_field(field);
    }

    /// Sets the value to an unsigned number: 8 bytes, big-endian. Returns `OutOfMemory` if the
    /// allocation fails; the term is then unchanged.
    pub fn set_u64(&mut self, val: u64) -> Result<(), Fault>
        ensures ok { OnOk result (self.new ≡ record self.old { value = u64_bytes val }) }
        ensures err { OnErr result (self.new ≡ self.old) }
        ensures only { OnlyMemory result }
    {
        self.set_bytes(&val.to_be_bytes())
    }

    /// Sets the value to a signed number: 8 bytes of the number plus 2^63, big-endian. Returns
    /// `OutOfMemory` if the allocation fails; the term is then unchanged.
    pub fn set_i64(&mut self, val: i64) -> Result<(), Fault>
        ensures ok { OnOk result (self.new ≡ record self.old { value = u64_bytes (flipped val) }) }
        ensures err { OnErr result (self.new ≡ self.old) }
        ensures only { OnlyMemory result }
    {
        self.set_u64(val.to_u64())
    }

    /// Sets the value to a boolean: 8 bytes of 0 or 1, big-endian. Returns `OutOfMemory` if the
    /// allocation fails; the term is then unchanged.
    pub fn set_bool(&mut self, val: bool) -> Result<(), Fault>
        ensures ok { OnOk result (self.new ≡ record self.old { value = u64_bytes (number_of_bool val) }) }
        ensures err { OnErr result (self.new ≡ self.old) }
        ensures only { OnlyMemory result }
    {
        self.set_u64(u64::from(val))
    }

    /// Sets the value to an IP address: 16 bytes, big-endian. Returns `OutOfMemory` if the allocation
    /// fails; the term is then unchanged.
    pub fn set_ip_addr(&mut self, val: u128) -> Result<(), Fault>
        ensures ok { OnOk result (self.new ≡ record self.old { value = bytes_high_first 16 val }) }
        ensures err { OnErr result (self.new ≡ self.old) }
        ensures only { OnlyMemory result }
    {
        self.set_bytes(&val.to_be_bytes())
    }

    /// Sets the value to these bytes. Returns `OutOfMemory` if the allocation fails; the term is then
    /// unchanged.
    pub fn set_bytes(&mut self, bytes: &[u8]) -> Result<(), Fault>
        ensures ok { OnOk result (self.new ≡ record self.old { value = bytes.now }) }
        ensures err { OnErr result (self.new ≡ self.old) }
        ensures only { OnlyMemory result }
    {
        self.bytes.reserve(bytes.len())?;
        self.bytes.truncate(TERM_METADATA_LENGTH);
        self.bytes.extend_from_slice(bytes)?;
        Ok(())
    }

    /// Appends a value of a JSON field: the letter of its type, then 8 big-endian bytes of its
    /// number. Returns `OutOfMemory` if the allocation fails; the term is then unchanged.
    pub fn append_type_and_fast_value<T: FastValue>(&mut self, val: T) -> Result<(), Fault>
        ensures ok { OnOk result (self.new ≡ record self.old { value = self.old.value ++ code_of T.type_of_values ∷ u64_bytes (T.number val) }) }
        ensures err { OnErr result (self.new ≡ self.old) }
        ensures only { OnlyMemory result }
    {
        let len = self.bytes.len();
        self.bytes.push(T::to_type().to_code())?;
        if let Err(refused) = self.bytes.extend_from_slice(&val.to_u64().to_be_bytes()) {
            self.bytes.truncate(len);
            return Err(Fault::from(refused));
        }
        Ok(())
    }

    /// Appends bytes to the value, and returns them borrowed. Returns `OutOfMemory` if the allocation
    /// fails; the term is then unchanged.
    pub fn append_bytes(&mut self, bytes: &[u8]) -> Result<&[u8], Fault>
        ensures* rests { sem 𝓛 (TermRestsWith self.entry bytes.entry.now result) }
        ensures ok { IfOk result (λ added. added.now ≡ bytes.entry.now) }
        ensures only { OnlyMemory result }
    {
        let len = self.bytes.len();
        self.bytes.extend_from_slice(bytes)?;
        Ok(&self.bytes[len..])
    }

    // Appends bytes to the value.
    pub(crate) fn add_bytes(&mut self, bytes: &[u8]) -> Result<(), Fault>
        ensures ok { OnOk result (self.new ≡ record self.old { value = self.old.value ++ bytes.now }) }
        ensures err { OnErr result (self.new ≡ self.old) }
        ensures only { OnlyMemory result }
    {
        self.bytes.extend_from_slice(bytes)?;
        Ok(())
    }

    /// Shortens the value to `len` bytes. A shorter value is unchanged.
    pub fn truncate_value_bytes(&mut self, len: usize)
        ensures { self.new ≡ record self.old { value = take len self.old.value } }
    {
        if len < self.len_bytes() {
            self.bytes.truncate(TERM_METADATA_LENGTH + len);
        }
    }

    /// Returns the field.
    pub fn field(&self) -> Field
        ensures { result ≡ self.now.field }
    {
        self.field
    }

    /// Returns all bytes: those of the field, then those of the value.
    #[tactic(auto, using(crate::proofs::TermLemmas::are_term_bytes))]
    pub fn serialized_term(&self) -> &[u8]
        ensures bytes { result.now ≡ term_bytes self.now }
        ensures term { AreTermBytes result.now }
    {
        &self.bytes
    }

    /// Copies the term. Returns `OutOfMemory` if the allocation fails.
    pub fn clone(&self) -> Result<IndexingTerm, Fault>
        ensures ok { IfOk result (λ term. term ≡ self.now) }
        ensures only { OnlyMemory result }
    {
        let bytes = self.bytes.clone()?;
        Ok(IndexingTerm {
            field: self.field,
            bytes,
        })
    }
}

// Overwrites the first bytes with a field.
#[tactic(auto, unfolding(crate::specs::IndexingTerm::field_bytes))]
fn write_field(bytes: &mut [u8], field: Field)
    requires { 4 ≤ length bytes.old }
    ensures { bytes.new ≡ field_bytes field ++ drop 4 bytes.old }
{
    let (front, _value) = bytes.split_at_mut(TERM_METADATA_LENGTH);
    front.copy_from_slice(&field.field_id().to_be_bytes());
}

/// The borrowed bytes of an `IndexingTerm`, which are also its model.
#[derive(Drop)]
pub struct IndexingTermRef<'a> {
    bytes: &'a [u8],
}

impl<'a> Model for IndexingTermRef<'a> {
    ghost use Rattle.std.specs.Prelude.{ℕ, List, ◌≤◌, length};

    ghost Value = { List ℕ };

    ghost view = { λ t. t.bytes.now };

    ghost invariant = { λ t. 4 ≤ length t.bytes.now };
}

impl<'a> IndexingTermRef<'a> {
    /// Wraps at least 4 bytes, of which the first 4 are the field.
    pub fn wrap(serialized: &'a [u8]) -> IndexingTermRef<'a>
        requires { 4 ≤ length serialized.now }
        ensures { result ≡ serialized.entry.now }
    {
        IndexingTermRef { bytes: serialized }
    }

    /// Returns the field.
    #[tactic(auto, unfolding(crate::specs::IndexingTerm::field_in))]
    pub fn field(&self) -> Field
        ensures { result ≡ field_in self.now }
    {
        Field::from_field_id(u32::from_be_bytes([
            self.bytes[0],
            self.bytes[1],
            self.bytes[2],
            self.bytes[3],
        ]))
    }

    /// Returns all bytes.
    pub fn serialized_term(&self) -> &'a [u8]
        ensures { result.now ≡ self.now }
    {
        self.bytes
    }
}
