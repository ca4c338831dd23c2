ghost use Rattle.std.specs.Prelude.{◌≡◌, ◌+◌, ◌^◌, ◌<◌, ◌≤◌, ◌↔◌, ◌⊎◌, [], ◌∷◌, ◌++◌, true, false, length, Ok, OnOk, OnErr, IfOk, IfErr, IsErrOf, IsTrue};
ghost use Rattle.std.specs.List.{zip};
ghost use Rattle.ii_io.specs.CountingWriter.{WritesUnlessClosed, Closes};
ghost use Rattle.ii_io.specs.Faults.{OnlyMemoryOrClosed};
ghost use Rattle.ii_termdict.specs.Dictionary.{dictionary};
ghost use Rattle.ii_termdict.specs.ReadBack.{AreAscending};
ghost use Rattle.ii_termdict.specs.Written.{written_dictionary};
ghost use Rattle.ii_recorder.specs.TermPlaces.{with_term};

use ii_io::{CountingWriter, Fault, LimitName};
use ii_termdict::{TermDictionaryWriter, TermInfo};
use std::alloc::Global;
use std::io::Write;
use std::marker::Model;

// The end of a term's bytes is below this limit.
const OFFSET_LIMIT: usize = 1 << 56;

/// Holds the dictionary of a field whose terms' postings and positions follow each other, and where the bytes
/// of the last term end.
pub(crate) struct TermPlaces {
    dictionary: TermDictionaryWriter,
    postings_end: usize,
    positions_end: usize,
}

// A drop has to be a call.
impl Drop for TermPlaces {
    fn drop(self) {
        let TermPlaces {
            dictionary: _,
            postings_end: _,
            positions_end: _,
        } = self;
    }
}

impl Model for TermPlaces {
    ghost use Rattle.std.specs.Prelude.{◌≡◌, ◌<◌, ◌^◌, false};
    ghost use Rattle.ii_termstore.specs.ReadBack.{AreJoined, EndAt};
    ghost use Rattle.ii_recorder.specs.TermPlaces.{TermPlacesState};

    ghost Value = { TermPlacesState };

    ghost view = { λ p. record {
      keys = p.dictionary.keys;
      infos = p.dictionary.infos;
      postings_end = p.postings_end;
      positions_end = p.positions_end;
      closed = p.dictionary.closed;
    } };

    ghost invariant = { λ p. AreJoined p.dictionary.infos × EndAt p.dictionary.infos p.postings_end p.positions_end × (p.postings_end < 2 ^ 56) × (p.positions_end < 2 ^ 56) };
}

impl TermPlaces {
    pub(crate) fn new(alloc: Global) -> TermPlaces
        ensures { result ≡ record { keys = []; infos = []; postings_end = 0; positions_end = 0; closed = false } }
    {
        TermPlaces {
            dictionary: TermDictionaryWriter::new(alloc),
            postings_end: 0,
            positions_end: 0,
        }
    }

    // Adds the key of a term, which must be greater than the previous key by its bytes. The previous term
    // must have been added.
    pub(crate) fn insert_key(&mut self, key: &[u8]) -> Result<(), Fault>
        requires ascending { self.old.closed ≡ false → AreAscending (self.old.keys ++ key.now ∷ []) }
        requires whole { self.old.closed ≡ false → length self.old.keys ≡ length self.old.infos }
        ensures ok { OnOk result (self.new ≡ record self.old { keys = self.old.keys ++ key.now ∷ [] }) }
        ensures err { OnErr result (self.new ≡ record self.old { closed = true }) }
        ensures closed { IsErrOf result Fault.SerializerClosed ↔ IsTrue self.old.closed }
        ensures only { OnlyMemoryOrClosed result }
    {
        self.dictionary.insert_key(key)
    }

    // Adds the term of the last key, given how many bytes its postings and positions take.
    pub(crate) fn insert_term(
        &mut self,
        doc_freq: u32,
        postings_len: u32,
        positions_len: u32,
    ) -> Result<(), Fault>
        requires open { self.old.closed ≡ false }
        requires key { length self.old.keys ≡ length self.old.infos + 1 }
        ensures ok { OnOk result (self.new ≡ with_term self.old doc_freq postings_len positions_len) }
        ensures within { OnOk result ((self.new.postings_end < 2 ^ 56) × (self.new.positions_end < 2 ^ 56)) }
        ensures offset { IsErrOf result (Fault.Limit LimitName.Offset)
            ↔ (2 ^ 56 ≤ self.old.postings_end + postings_len) ⊎ (2 ^ 56 ≤ self.old.positions_end + positions_len) }
        ensures only { IfErr result (λ e. (e ≡ Fault.OutOfMemory) ⊎ (e ≡ Fault.Limit LimitName.Offset)) }
    {
        let postings_end = self.postings_end + postings_len as usize;
        let positions_end = self.positions_end + positions_len as usize;
        if postings_end >= OFFSET_LIMIT {
            return Err(Fault::Limit(LimitName::Offset));
        }
        if positions_end >= OFFSET_LIMIT {
            return Err(Fault::Limit(LimitName::Offset));
        }
        let info = TermInfo {
            doc_freq,
            postings_range: self.postings_end..postings_end,
            positions_range: self.positions_end..positions_end,
        };
        let added = self.dictionary.insert_value(&info);
        if added.is_err() {
            return added;
        }
        self.postings_end = postings_end;
        self.positions_end = positions_end;
        Ok(())
    }

    // Writes the dictionary of all terms. Never allocates.
    pub(crate) fn finish<W: Write>(&mut self, writer: &mut CountingWriter<W>) -> Result<(), Fault>
        requires whole { self.old.closed ≡ false → length self.old.keys ≡ length self.old.infos }
        ensures written { WritesUnlessClosed self.old.closed writer.old writer.new (written_dictionary self.old.keys self.old.infos) result }
        ensures holds { OnOk result (dictionary (written_dictionary self.old.keys self.old.infos) ≡ Ok (zip self.old.keys self.old.infos)) }
        ensures terms { (self.new.keys ≡ self.old.keys) × (self.new.infos ≡ self.old.infos) }
        ensures closes { Closes result self.new.closed }
    {
        self.dictionary.finish(writer)
    }
}
