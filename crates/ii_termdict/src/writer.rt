ghost use Rattle.std.specs.Prelude.{◌≡◌, ◌+◌, ◌<◌, ◌↔◌, ◌^◌, List, [], ◌∷◌, ◌++◌, true, false, length, Some, Ok, OnOk, OnErr, IsErrOf, IsTrue};
ghost use Rattle.std.specs.List.{flat_map, zip};
ghost use Rattle.ii_io.specs.CountingWriter.{Writes, WritesUnlessClosed, Closes};
ghost use Rattle.ii_io.specs.Faults.{OnlyMemory, OnlyMemoryOrClosed};
ghost use Rattle.ii_io.specs.Numbers.{le_bytes};
ghost use Rattle.ii_termstore.specs.TermInfos.{HasLengths};
ghost use Rattle.ii_termstore.specs.TermStore.{term_store};
ghost use Rattle.ii_termstore.specs.ReadBack.{AreJoined};
ghost use Rattle.ii_termstore.specs.Written.{written_store};
ghost use Rattle.ii_termdict.specs.Dictionary.{dictionary};
ghost use Rattle.ii_termdict.specs.ReadBack.{AreAscending};
ghost use Rattle.ii_termdict.specs.Written.{written_dictionary};

use ii_io::{BinarySerializable, CountingWriter, Fault, LimitName};
use ii_termstore::{TermInfo, TermInfoStoreWriter};
use std::alloc::Global;
use std::io::Write;
use std::marker::Model;

/// Gathers the terms of a dictionary, and writes them: keys in ascending order, each followed by its term
/// info. The model is the keys, the terms, and whether an earlier call failed.
///
/// It keeps the bytes of the keys, 8 bytes more for each, and what `TermInfoStoreWriter` keeps of the terms.
///
/// The first error closes it: each further call returns `SerializerClosed`, and has no preconditions.
pub struct TermDictionaryWriter {
    key_bytes: Vec<u8>,
    ends: Vec<u64>,
    term_infos: TermInfoStoreWriter,
    is_closed: bool,
}

// A drop has to be a call.
impl Drop for TermDictionaryWriter {
    fn drop(self) {
        let TermDictionaryWriter {
            key_bytes: _,
            ends: _,
            term_infos: _,
            is_closed: _,
        } = self;
    }
}

impl Model for TermDictionaryWriter {
    ghost use Rattle.std.specs.Prelude.{◌≡◌, ◌+◌, false, length};
    ghost use Rattle.ii_termdict.specs.ReadBack.{AreAscending};
    ghost use Rattle.ii_termdict.specs.TermDictionaryWriter.{TermDictionaryWriterState, HasKeys, keys_between};

    ghost Value = { TermDictionaryWriterState };

    ghost view = { λ w. record { keys = keys_between 0 w.ends.items w.key_bytes.items; infos = w.term_infos.infos; closed = w.is_closed } };

    ghost invariant = { λ w. HasKeys w.key_bytes.items w.ends.items (keys_between 0 w.ends.items w.key_bytes.items)
        × (w.is_closed ≡ false → (w.term_infos.closed ≡ false) × AreAscending (keys_between 0 w.ends.items w.key_bytes.items)) };
}

impl TermDictionaryWriter {
    /// Creates a writer without terms.
    pub fn new(alloc: Global) -> TermDictionaryWriter
        ensures { result ≡ record { keys = []; infos = []; closed = false } }
    {
        TermDictionaryWriter {
            key_bytes: Vec::new(alloc),
            ends: Vec::new(alloc),
            term_infos: TermInfoStoreWriter::new(alloc),
            is_closed: false,
        }
    }

    /// Adds a key, which must be greater than the previous key by its bytes. The previous key must have its
    /// value.
    ///
    /// Returns `OutOfMemory` if the keys can't grow; `SerializerClosed` after an earlier error.
    pub fn insert_key(&mut self, key: &[u8]) -> Result<(), Fault>
        requires ascending { self.old.closed ≡ false → AreAscending (self.old.keys ++ key.now ∷ []) }
        requires whole { self.old.closed ≡ false → length self.old.keys ≡ length self.old.infos }
        ensures ok { OnOk result (self.new ≡ record self.old { keys = self.old.keys ++ key.now ∷ [] }) }
        ensures err { OnErr result (self.new ≡ record self.old { closed = true }) }
        ensures closed { IsErrOf result Fault.SerializerClosed ↔ IsTrue self.old.closed }
        ensures only { OnlyMemoryOrClosed result }
    {
        if self.is_closed {
            return Err(Fault::SerializerClosed);
        }
        let added = add_key(&mut self.key_bytes, &mut self.ends, key);
        self.is_closed = added.is_err();
        added
    }

    /// Adds the term info of the key that was added last. Its ranges must begin where those of the previous
    /// term end, and their lengths must fit in `u32`.
    ///
    /// Returns `OutOfMemory` if the terms can't grow; `SerializerClosed` after an earlier error.
    pub fn insert_value(&mut self, term_info: &TermInfo) -> Result<(), Fault>
        requires lengths { self.old.closed ≡ false → HasLengths term_info.now }
        requires joined { self.old.closed ≡ false → AreJoined (self.old.infos ++ term_info.now ∷ []) }
        requires key { self.old.closed ≡ false → length self.old.keys ≡ length self.old.infos + 1 }
        ensures ok { OnOk result (self.new ≡ record self.old { infos = self.old.infos ++ term_info.now ∷ [] }) }
        ensures err { OnErr result (self.new ≡ record self.old { closed = true }) }
        ensures closed { IsErrOf result Fault.SerializerClosed ↔ IsTrue self.old.closed }
        ensures only { OnlyMemoryOrClosed result }
    {
        if self.is_closed {
            return Err(Fault::SerializerClosed);
        }
        let added = self.term_infos.write_term_info(term_info);
        self.is_closed = added.is_err();
        added
    }

    /// Writes the dictionary of all terms, which opens as these keys and terms. The last key must have its
    /// value. Never allocates.
    ///
    /// # Errors
    ///
    /// * `Write` if the writer fails; a prefix of the dictionary is then written.
    /// * `Limit(Offset)` if a count of the writer would exceed `u64::MAX`; a prefix is then written.
    /// * `SerializerClosed` after an earlier error; nothing is then written.
    pub fn finish<W: Write>(&mut self, writer: &mut CountingWriter<W>) -> Result<(), Fault>
        requires whole { self.old.closed ≡ false → length self.old.keys ≡ length self.old.infos }
        ensures written { WritesUnlessClosed self.old.closed writer.old writer.new (written_dictionary self.old.keys self.old.infos) result }
        ensures holds { OnOk result (dictionary (written_dictionary self.old.keys self.old.infos) ≡ Ok (zip self.old.keys self.old.infos)) }
        ensures terms { (self.new.keys ≡ self.old.keys) × (self.new.infos ≡ self.old.infos) }
        ensures closes { Closes result self.new.closed }
    {
        if self.is_closed {
            return Err(Fault::SerializerClosed);
        }
        let written = put_dictionary(&self.ends, &self.key_bytes, &mut self.term_infos, writer);
        self.is_closed = written.is_err();
        written
    }
}

// Appends a key and its end. After an allocation failure both lists are unchanged.
fn add_key(key_bytes: &mut Vec<u8>, ends: &mut Vec<u64>, key: &[u8]) -> Result<(), Fault>
    ensures bytes { OnOk result (key_bytes.new.items ≡ key_bytes.old.items ++ key.now) }
    ensures ends { OnOk result (ends.new.items ≡ ends.old.items ++ length key_bytes.new.items ∷ []) }
    ensures few { OnOk result (length ends.new.items < 2 ^ 64) }
    ensures err { OnErr result ((key_bytes.new.items ≡ key_bytes.old.items) × (ends.new.items ≡ ends.old.items)) }
    ensures only { OnlyMemory result }
{
    let len = key_bytes.len();
    key_bytes.extend_from_slice(key)?;
    match ends.push(key_bytes.len() as u64) {
        Ok(()) => Ok(()),
        Err(e) => {
            key_bytes.truncate(len);
            Err(Fault::from(e))
        }
    }
}

// Writes the number of terms, the ends of the keys, the keys and the store.
fn put_dictionary<W: Write>(
    ends: &[u64],
    key_bytes: &[u8],
    term_infos: &mut TermInfoStoreWriter,
    writer: &mut CountingWriter<W>,
) -> Result<(), Fault>
    requires { term_infos.old.closed ≡ false }
    ensures written { Writes writer.old writer.new
        (le_bytes 8 (length ends.now) ++ flat_map (le_bytes 8) ends.now ++ key_bytes.now ++ written_store term_infos.old.infos) result }
    ensures holds { OnOk result (term_store (written_store term_infos.old.infos) ≡ Some term_infos.old.infos) }
    ensures infos { term_infos.new.infos ≡ term_infos.old.infos }
    ensures stays_open { OnOk result (term_infos.new.closed ≡ false) }
{
    let keys = put_keys(ends, key_bytes, writer);
    if keys.is_err() {
        return keys;
    }
    term_infos.serialize(writer)
}

// Writes everything before the store.
fn put_keys<W: Write>(
    ends: &[u64],
    key_bytes: &[u8],
    writer: &mut CountingWriter<W>,
) -> Result<(), Fault>
    ensures { Writes writer.old writer.new (le_bytes 8 (length ends.now) ++ flat_map (le_bytes 8) ends.now ++ key_bytes.now) result }
{
    let places = put_ends(ends, writer);
    if places.is_err() {
        return places;
    }
    writer.write_all(key_bytes)
}

// Writes the number of terms and the ends of the keys.
fn put_ends<W: Write>(ends: &[u64], writer: &mut CountingWriter<W>) -> Result<(), Fault>
    ensures { Writes writer.old writer.new (le_bytes 8 (length ends.now) ++ flat_map (le_bytes 8) ends.now) result }
{
    let count = put_number(ends.len() as u64, writer);
    if count.is_err() {
        return count;
    }
    put_numbers(ends, writer)
}

fn put_number<W: Write>(n: u64, writer: &mut CountingWriter<W>) -> Result<(), Fault>
    ensures { Writes writer.old writer.new (le_bytes 8 n) result }
{
    n.serialize(writer)
}

// Writes numbers in 8 bytes each.
fn put_numbers<W: Write>(numbers: &[u64], writer: &mut CountingWriter<W>) -> Result<(), Fault>
    ensures { Writes writer.old writer.new (flat_map (le_bytes 8) numbers.now) result }
{
    for n in numbers {
        let put = put_number(*n, writer);
        if put.is_err() {
            return put;
        }
    }
    Ok(())
}
