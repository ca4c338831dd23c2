ghost use Rattle.std.specs.Prelude.{◌≡◌, ◌<◌, [], length, Err, Ok, Some, IfOk, IfErr, OnErr, nat_lt, slice_get, unwrap_or};
ghost use Rattle.ii_io.specs.Faults.{OnlyMemory};
ghost use Rattle.ii_io.specs.declared.faults.Part.{Part};
ghost use Rattle.ii_termdict.specs.Dictionary.{dictionary, info_under, entry_keys};
ghost use Rattle.ii_termdict.specs.ReadBack.{AreAscending};

use crate::key_parts::{count_terms, first_damaged_part, get, key_at};
use crate::streamer::TermStreamer;
use bytes::Bytes;
use ii_io::Fault;
use ii_termstore::{TermInfo, TermOrdinal};
use std::marker::Model;

/// Maps sorted keys to term infos, over bytes that were validated completely. The model is the list of pairs.
pub struct TermDictionary {
    bytes: Bytes,
}

// A drop has to be a call.
impl Drop for TermDictionary {
    fn drop(self) {
        let TermDictionary { bytes: _ } = self;
    }
}

impl Model for TermDictionary {
    ghost use Rattle.std.specs.Prelude.{List, ℕ, [], IsOk};
    ghost use Rattle.std.specs.Result.{result_unwrap_or};
    ghost use Rattle.ii_termstore.specs.declared.term_info.TermInfo.{TermInfo};
    ghost use Rattle.ii_termdict.specs.Dictionary.{dictionary};

    ghost Value = { List (List ℕ × TermInfo) };

    ghost view = { λ d. result_unwrap_or (dictionary d.bytes) [] };

    ghost invariant = { λ d. IsOk (dictionary d.bytes) };
}

// The number of bytes of an empty dictionary: the number of keys, the length of the metas, and the number of
// terms.
const EMPTY_SIZE: usize = 24;

static NO_TERMS: [u8; EMPTY_SIZE] = [0; EMPTY_SIZE];

impl TermDictionary {
    /// Opens a dictionary. Never allocates.
    ///
    /// The bytes are the number of terms and the end of each key, 8 bytes each and little-endian, then the
    /// keys, then the term store.
    ///
    /// The time depends on the number of terms in the header and on the bytes of their keys. Metas of the
    /// store may refer to the same bits.
    ///
    /// # Errors
    ///
    /// * `Damaged(Dictionary)` if bytes are missing, ends decrease, or keys don't ascend strictly by their
    ///   bytes.
    /// * Else `Damaged(TermStore)` if the store is corrupt.
    /// * Else `Damaged(Dictionary)` if the store has another number of terms.
    pub fn open(bytes: Bytes) -> Result<TermDictionary, Fault>
        ensures opened { IfOk result (λ terms. dictionary bytes ≡ Ok terms) }
        ensures damaged { IfErr result (λ e. (part : Part) × (e ≡ Fault.Damaged part) × (dictionary bytes ≡ Err part)) }
    {
        match first_damaged_part(bytes.as_slice()) {
            None => Ok(TermDictionary { bytes }),
            Some(part) => Err(Fault::Damaged(part)),
        }
    }

    /// Creates an empty dictionary.
    pub fn empty() -> TermDictionary
        ensures { result ≡ [] }
    {
        TermDictionary {
            bytes: Bytes::from_static(&NO_TERMS),
        }
    }

    /// Returns the term info of a key. Never allocates.
    pub fn get(&self, key: &[u8]) -> Option<TermInfo>
        ensures { result ≡ info_under key.now self.now }
    {
        get(self.bytes.as_slice(), key)
    }

    /// Returns the number of terms.
    pub fn num_terms(&self) -> usize
        ensures { result ≡ length self.now }
    {
        count_terms(self.bytes.as_slice()) as usize
    }

    /// Returns the key at an ordinal, which must be less than the number of terms.
    pub fn key(&self, ord: TermOrdinal) -> &[u8]
        requires { ord < length self.now }
        ensures { slice_get (entry_keys self.now) ord ≡ Some result.now }
    {
        key_at(self.bytes.as_slice(), ord)
    }

    /// Copies the key at an ordinal into `bytes`, and returns whether there is one. If not, or if an
    /// allocation fails, `bytes` is empty.
    pub fn ord_to_term(&self, ord: TermOrdinal, bytes: &mut Vec<u8>) -> Result<bool, Fault>
        ensures found { IfOk result (λ found. found ≡ nat_lt ord (length self.now)) }
        ensures key { IfOk result (λ found. bytes.new.items ≡ unwrap_or (slice_get (entry_keys self.now) ord) []) }
        ensures only { OnlyMemory result }
        ensures err { OnErr result (bytes.new.items ≡ []) }
    {
        bytes.clear();
        if ord >= self.num_terms() as u64 {
            return Ok(false);
        }
        bytes.extend_from_slice(self.key(ord))?;
        Ok(true)
    }

    /// Iterates over the terms in ascending order of the bytes of their keys.
    #[tactic(auto, using(crate::proofs::OrderLemmas::keys_are_ascending))]
    pub fn stream(&self) -> TermStreamer<'_>
        ensures terms { result ≡ record { entries = self.now; passed = 0 } }
        ensures ascending { AreAscending (entry_keys self.now) }
    {
        TermStreamer::new(self.bytes.as_slice())
    }
}
