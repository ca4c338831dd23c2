ghost use Rattle.std.specs.Prelude.{◌≡◌, ◌++◌, [], length, take, IfOk, OnErr, OnOk};
ghost use Rattle.std.specs.Borrow.{sem};
ghost use Rattle.ii_io.specs.Faults.{OnlyMemory};
ghost use Rattle.ii_base.specs.Values.{json_key};
ghost use Rattle.ii_json.specs.JsonTerms.{written_byte, written_path, written_json_term};
ghost use Rattle.ii_json.specs.Lending.{RestsWith};

use ii_base::{Fault, ValueType};
use std::alloc::Global;
use std::marker::Model;

// The byte that ends a path, and its replacement inside a path.
const END_OF_PATH: u8 = 0;

const END_OF_PATH_INSIDE: u8 = b'0';

/// The bytes of a term in a JSON field, as in a dictionary: a path, byte 0, the letter of a type, and the
/// bytes of a value.
#[derive(Drop)]
pub struct JsonTermSerializer {
    bytes: Vec<u8>,
}

impl Model for JsonTermSerializer {
    ghost use Rattle.std.specs.Prelude.{ℕ, List};

    ghost Value = { List ℕ };

    ghost view = { λ s. s.bytes.items };
}

impl JsonTermSerializer {
    /// Creates an empty serializer.
    pub fn new(alloc: Global) -> JsonTermSerializer
        ensures { result ≡ [] }
    {
        JsonTermSerializer {
            bytes: Vec::new(alloc),
        }
    }

    /// Appends a path and byte 0. Each byte 0 in the path is written as `0x30`. Returns `OutOfMemory`, and
    /// leaves the bytes as they are, if allocation fails.
    pub fn append_json_path(&mut self, path: &str) -> Result<(), Fault>
        ensures ok { OnOk result (self.new ≡ self.old ++ written_path path.now) }
        ensures err { OnErr result (self.new ≡ self.old) }
        ensures only { OnlyMemory result }
    {
        let len = self.bytes.len();
        if let Err(refused) = push_path(&mut self.bytes, path.as_bytes()) {
            self.bytes.truncate(len);
            return Err(refused);
        }
        Ok(())
    }

    /// Appends a complete term: a path, with `0x30` for each byte 0, then byte 0, the letter of a type, and
    /// the bytes of a value. Returns `OutOfMemory`, and leaves the bytes as they are, if allocation fails.
    pub fn append_term(
        &mut self,
        path: &str,
        value_type: ValueType,
        payload: &[u8],
    ) -> Result<(), Fault>
        ensures ok { OnOk result (self.new ≡ self.old ++ written_json_term path.now value_type payload.now) }
        ensures err { OnErr result (self.new ≡ self.old) }
        ensures only { OnlyMemory result }
    {
        let len = self.bytes.len();
        if let Err(refused) = push_term(&mut self.bytes, path.as_bytes(), value_type, payload) {
            self.bytes.truncate(len);
            return Err(refused);
        }
        Ok(())
    }

    /// Appends the key of a term: a path without byte 0, byte 0, the letter of a type, and the bytes of a
    /// value. Returns `OutOfMemory`, and leaves the bytes as they are, if allocation fails.
    pub fn append_key(&mut self, path: &str, typed_value: &[u8]) -> Result<(), Fault>
        ensures ok { OnOk result (self.new ≡ self.old ++ json_key path.now typed_value.now) }
        ensures err { OnErr result (self.new ≡ self.old) }
        ensures only { OnlyMemory result }
    {
        let len = self.bytes.len();
        if let Err(refused) = push_key(&mut self.bytes, path.as_bytes(), typed_value) {
            self.bytes.truncate(len);
            return Err(refused);
        }
        Ok(())
    }

    /// Appends bytes, and returns the appended part. Returns `OutOfMemory`, and leaves the bytes as they
    /// are, if allocation fails.
    pub fn append_bytes(&mut self, bytes: &[u8]) -> Result<&[u8], Fault>
        ensures* rests { sem 𝓛 (RestsWith self.entry bytes.entry.now result) }
        ensures ok { IfOk result (λ added. added.now ≡ bytes.entry.now) }
        ensures only { OnlyMemory result }
    {
        let len = self.bytes.len();
        self.bytes.extend_from_slice(bytes)?;
        Ok(&self.bytes[len..])
    }

    /// Removes all bytes, and keeps the memory.
    pub fn clear(&mut self)
        ensures { self.new ≡ [] }
    {
        self.bytes.clear();
    }

    /// Removes the bytes after the first `len`; does nothing if there are no more.
    pub fn truncate(&mut self, len: usize)
        ensures { self.new ≡ take len self.old }
    {
        self.bytes.truncate(len);
    }

    /// Returns the number of bytes.
    pub fn len(&self) -> usize
        ensures { result ≡ length self.now }
    {
        self.bytes.len()
    }

    /// Returns all bytes.
    pub fn as_bytes(&self) -> &[u8]
        ensures { result.now ≡ self.now }
    {
        &self.bytes
    }
}

// Appends a path as encoded in a term. An error leaves the old bytes as a prefix.
fn push_path(bytes: &mut Vec<u8>, path: &[u8]) -> Result<(), Fault>
    ensures ok { OnOk result (bytes.new.items ≡ bytes.old.items ++ written_path path.now) }
    ensures err { OnErr result (take (length bytes.old.items) bytes.new.items ≡ bytes.old.items) }
    ensures only { OnlyMemory result }
{
    for byte in path {
        bytes.push(written_byte(*byte))?;
    }
    bytes.push(END_OF_PATH)?;
    Ok(())
}

// Appends a term: a path, byte 0, the letter of a type, and the bytes of a value. An error leaves the old
// bytes as a prefix.
fn push_term(
    bytes: &mut Vec<u8>,
    path: &[u8],
    value_type: ValueType,
    payload: &[u8],
) -> Result<(), Fault>
    ensures ok { OnOk result (bytes.new.items ≡ bytes.old.items ++ written_json_term path.now value_type payload.now) }
    ensures err { OnErr result (take (length bytes.old.items) bytes.new.items ≡ bytes.old.items) }
    ensures only { OnlyMemory result }
{
    push_path(bytes, path)?;
    bytes.push(value_type.to_code())?;
    bytes.extend_from_slice(payload)?;
    Ok(())
}

// Appends a key: an unchanged path, byte 0, and the typed value. An error leaves the old bytes as a prefix.
fn push_key(bytes: &mut Vec<u8>, path: &[u8], typed_value: &[u8]) -> Result<(), Fault>
    ensures ok { OnOk result (bytes.new.items ≡ bytes.old.items ++ json_key path.now typed_value.now) }
    ensures err { OnErr result (take (length bytes.old.items) bytes.new.items ≡ bytes.old.items) }
    ensures only { OnlyMemory result }
{
    bytes.extend_from_slice(path)?;
    bytes.push(END_OF_PATH)?;
    bytes.extend_from_slice(typed_value)?;
    Ok(())
}

// Encodes a byte of a path in a term.
fn written_byte(byte: u8) -> u8
    ensures { result ≡ written_byte byte }
{
    if byte == END_OF_PATH {
        END_OF_PATH_INSIDE
    } else {
        byte
    }
}
