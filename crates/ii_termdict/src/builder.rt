ghost use Rattle.std.specs.Prelude.{◌≡◌, ◌+◌, ◌↔◌, [], ◌∷◌, ◌++◌, true, false, length, Ok, OnOk, OnErr, IsErrOf, IsTrue};
ghost use Rattle.std.specs.List.{zip};
ghost use Rattle.ii_io.specs.CountingWriter.{WritesUnlessClosed};
ghost use Rattle.ii_io.specs.Faults.{OnlyMemoryOrClosed};
ghost use Rattle.ii_termstore.specs.TermInfos.{HasLengths};
ghost use Rattle.ii_termstore.specs.ReadBack.{AreJoined};
ghost use Rattle.ii_termdict.specs.Dictionary.{dictionary};
ghost use Rattle.ii_termdict.specs.ReadBack.{AreAscending};
ghost use Rattle.ii_termdict.specs.Written.{written_dictionary};

use crate::writer::TermDictionaryWriter;
use ii_io::{CountingWriter, Fault};
use ii_termstore::TermInfo;
use std::alloc::Global;
use std::io::Write;
use std::marker::Model;

/// Builds a dictionary in a writer that it owns, as `TermDictionaryWriter` does in a borrowed one: keys in
/// ascending order, each followed by its term info.
#[derive(Drop)]
pub struct TermDictionaryBuilder<W: Write> {
    writer: CountingWriter<W>,
    terms: TermDictionaryWriter,
}

impl<W: Write> Model for TermDictionaryBuilder<W> {
    ghost use Rattle.ii_termdict.specs.TermDictionaryBuilder.{TermDictionaryBuilderState};

    ghost Value = { TermDictionaryBuilderState };

    ghost view = { λ b. record { writer = b.writer; keys = b.terms.keys; infos = b.terms.infos; closed = b.terms.closed } };
}

impl<W: Write> TermDictionaryBuilder<W> {
    /// Creates a builder without terms, which writes to `writer` when it is finished.
    pub fn create(alloc: Global, writer: CountingWriter<W>) -> TermDictionaryBuilder<W>
        ensures { result ≡ record { writer = writer; keys = []; infos = []; closed = false } }
    {
        TermDictionaryBuilder {
            writer,
            terms: TermDictionaryWriter::new(alloc),
        }
    }

    /// Adds a key, which must be greater than the previous key by its bytes. The previous key must have its
    /// value. A closed builder has no preconditions.
    ///
    /// Returns `OutOfMemory` if the keys can't grow; `SerializerClosed` after an earlier error.
    pub fn insert_key(&mut self, key: &[u8]) -> Result<(), Fault>
        requires ascending { self.old.closed ≡ false → AreAscending (self.old.keys ++ key.now ∷ []) }
        requires whole { self.old.closed ≡ false → length self.old.keys ≡ length self.old.infos }
        ensures ok { OnOk result (self.new ≡ record self.old { keys = self.old.keys ++ key.now ∷ [] }) }
        ensures err { OnErr result (self.new ≡ record self.old { closed = true }) }
        ensures closed { IsErrOf result Fault.SerializerClosed ↔ IsTrue self.old.closed }
        ensures only { OnlyMemoryOrClosed result }
    {
        self.terms.insert_key(key)
    }

    /// Adds the term info of the key that was added last. Its ranges must begin where those of the previous
    /// term end, and their lengths must fit in `u32`. A closed builder has no preconditions.
    ///
    /// Returns `OutOfMemory` if the terms can't grow; `SerializerClosed` after an earlier error.
    pub fn insert_value(&mut self, term_info: &TermInfo) -> Result<(), Fault>
        requires lengths { self.old.closed ≡ false → HasLengths term_info.now }
        requires joined { self.old.closed ≡ false → AreJoined (self.old.infos ++ term_info.now ∷ []) }
        requires key { self.old.closed ≡ false → length self.old.keys ≡ length self.old.infos + 1 }
        ensures ok { OnOk result (self.new ≡ record self.old { infos = self.old.infos ++ term_info.now ∷ [] }) }
        ensures err { OnErr result (self.new ≡ record self.old { closed = true }) }
        ensures closed { IsErrOf result Fault.SerializerClosed ↔ IsTrue self.old.closed }
        ensures only { OnlyMemoryOrClosed result }
    {
        self.terms.insert_value(term_info)
    }

    /// Writes the dictionary of all terms, which opens as these keys and terms, and returns the writer. The
    /// last key must have its value. Never allocates.
    ///
    /// # Errors
    ///
    /// * `Write` if the writer fails; a prefix of the dictionary is then written.
    /// * `Limit(Offset)` if a count of the writer would exceed `u64::MAX`; a prefix is then written.
    /// * `SerializerClosed` after an earlier error; nothing is then written.
    pub fn finish(self) -> (CountingWriter<W>, Result<(), Fault>)
        requires whole { self.closed ≡ false → length self.keys ≡ length self.infos }
        ensures written { WritesUnlessClosed self.closed self.writer result.0 (written_dictionary self.keys self.infos) result.1 }
        ensures holds { OnOk result.1 (dictionary (written_dictionary self.keys self.infos) ≡ Ok (zip self.keys self.infos)) }
    {
        let TermDictionaryBuilder {
            mut writer,
            mut terms,
        } = self;
        let written = terms.finish(&mut writer);
        (writer, written)
    }
}
