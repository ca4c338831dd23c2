//! A dictionary in memory, with the bytes of its terms' postings and positions.
ghost use Rattle.std.specs.Prelude.{◌≡◌, ◌+◌, ◌^◌, ◌<◌, ◌≤◌, ◌⊎◌, [], ◌∷◌, ◌++◌, false, IfErr, IfOk, IsOk, Ok, Some, drop, length, take};
ghost use Rattle.std.specs.List.{zip};
ghost use Rattle.ii_io.specs.Faults.{OnlyMemory};
ghost use Rattle.ii_io.specs.Numbers.{little_endian};
ghost use Rattle.ii_check.specs.declared.validation.Validation.TheVariants.{Complete};
ghost use Rattle.ii_termdict.specs.Dictionary.{dictionary};
ghost use Rattle.ii_termdict.specs.ReadBack.{AreAscending};
ghost use Rattle.ii_termdict.specs.Written.{written_dictionary};
ghost use Rattle.ii_warmup.specs.CopiedTerms.{with_copy};

use bytes::Bytes;
use ii_base::{CountingWriter, Fault, IndexRecordOption, LimitName};
use ii_reader::InvertedIndexReader;
use ii_termdict::{TermDictionary, TermDictionaryBuilder, TermInfo};
use std::alloc::Global;
use std::marker::Model;

// The number of bytes before the postings of a field: its number of tokens.
const COUNT_SIZE: usize = 8;

// The terms that were copied, each with its bytes after those of the previous one.
#[derive(Drop)]
pub(crate) struct CopiedTerms {
    dictionary: TermDictionaryBuilder<Vec<u8>>,
    // Begins with the number of tokens of the field.
    postings: Vec<u8>,
    positions: Vec<u8>,
}

impl Model for CopiedTerms {
    ghost use Rattle.std.specs.Prelude.{◌≡◌, ◌≤◌, ◌-◌, [], Some, drop, length, take};
    ghost use Rattle.ii_termstore.specs.ReadBack.{AreJoined, EndAt};
    ghost use Rattle.ii_warmup.specs.CopiedTerms.{CopiedTermsState};

    ghost Value = { CopiedTermsState };

    ghost view = { λ s. record {
      keys = s.dictionary.keys;
      infos = s.dictionary.infos;
      count = take 8 s.postings.items;
      postings = drop 8 s.postings.items;
      positions = s.positions.items;
      closed = s.dictionary.closed;
    } };

    ghost invariant = { λ s. AreJoined s.dictionary.infos × EndAt s.dictionary.infos (length s.postings.items - 8) (length s.positions.items) × (8 ≤ length s.postings.items)
        × (s.dictionary.writer ≡ record { contents = Some []; written_bytes = 0; failed_calls = 0 }) };
}

impl CopiedTerms {
    // Copies no term yet, of a field with these bytes before its postings.
    #[tactic(auto, using(crate::proofs::CountLemmas::count_taken, crate::proofs::CountLemmas::none_after_count))]
    pub(crate) fn new(alloc: Global, count: &[u8]) -> Result<CopiedTerms, Fault>
        requires { length count.now ≡ 8 }
        ensures ok { IfOk result (λ s. s ≡ record { keys = []; infos = []; count = count.now; postings = []; positions = []; closed = false }) }
        ensures only { OnlyMemory result }
    {
        let mut postings = Vec::new(alloc);
        postings.extend_from_slice(count)?;
        Ok(CopiedTerms {
            dictionary: TermDictionaryBuilder::create(alloc, CountingWriter::wrap(Vec::new(alloc))),
            postings,
            positions: Vec::new(alloc),
        })
    }

    // Copies one more term, whose key must be greater than the previous one by its bytes.
    pub(crate) fn push(
        self,
        key: &[u8],
        doc_freq: u32,
        postings: &[u8],
        positions: &[u8],
    ) -> Result<CopiedTerms, Fault>
        requires open { self.closed ≡ false }
        requires whole { length self.keys ≡ length self.infos }
        requires ascending { AreAscending (self.keys ++ key.now ∷ []) }
        requires postings_short { length postings.now < 2 ^ 32 }
        requires positions_short { length positions.now < 2 ^ 32 }
        ensures ok { IfOk result (λ s. s ≡ with_copy self key.now doc_freq postings.now positions.now) }
        ensures only { OnlyMemory result }
    {
        let CopiedTerms {
            mut dictionary,
            postings: mut all_postings,
            positions: mut all_positions,
        } = self;
        let postings_start = count_bytes(&all_postings) - COUNT_SIZE;
        let positions_start = count_bytes(&all_positions);
        all_postings.extend_from_slice(postings)?;
        all_positions.extend_from_slice(positions)?;
        dictionary.insert_key(key)?;
        dictionary.insert_value(&TermInfo {
            doc_freq,
            postings_range: postings_start..count_bytes(&all_postings) - COUNT_SIZE,
            positions_range: positions_start..count_bytes(&all_positions),
        })?;
        Ok(CopiedTerms {
            dictionary,
            postings: all_postings,
            positions: all_positions,
        })
    }

    // Opens a reader over the copied terms, of a field with this option.
    pub(crate) fn finish(self, option: IndexRecordOption) -> Result<InvertedIndexReader, Fault>
        requires open { self.closed ≡ false }
        requires whole { length self.keys ≡ length self.infos }
        ensures ok { IfOk result (λ reader. reader ≡ record { terms = zip self.keys self.infos; postings = self.postings; positions = self.positions; option = option; num_tokens = little_endian self.count; validation = Complete }) }
        ensures only { IfErr result (λ e. (e ≡ Fault.OutOfMemory) ⊎ ((e ≡ Fault.Limit LimitName.Offset) × (2 ^ 64 ≤ length (written_dictionary self.keys self.infos)))) }
    {
        let CopiedTerms {
            dictionary,
            postings,
            positions,
        } = self;
        let bytes = match write_dictionary(dictionary) {
            Ok(bytes) => bytes,
            Err(fault) => return Err(fault),
        };
        let terms = match open_dictionary(bytes) {
            Ok(terms) => terms,
            Err(fault) => return Err(fault),
        };
        open_reader(terms, postings, positions, option)
    }
}

// Returns the number of bytes.
fn count_bytes(bytes: &Vec<u8>) -> usize
    ensures { result ≡ length bytes.now.items }
{
    bytes.len()
}

// Returns the bytes of a dictionary.
fn write_dictionary(terms: TermDictionaryBuilder<Vec<u8>>) -> Result<Vec<u8>, Fault>
    requires new { terms.writer ≡ record { contents = Some []; written_bytes = 0; failed_calls = 0 } }
    requires open { terms.closed ≡ false }
    requires whole { length terms.keys ≡ length terms.infos }
    ensures opens { IfOk result (λ bytes. dictionary bytes.items ≡ Ok (zip terms.keys terms.infos)) }
    ensures only { IfErr result (λ e. (e ≡ Fault.OutOfMemory) ⊎ ((e ≡ Fault.Limit LimitName.Offset) × (2 ^ 64 ≤ length (written_dictionary terms.keys terms.infos)))) }
{
    let (writer, written) = terms.finish();
    match written {
        Ok(()) => Ok(writer.finish()),
        Err(fault) => Err(fault.in_memory()),
    }
}

// Opens the dictionary in bytes that hold one.
fn open_dictionary(bytes: Vec<u8>) -> Result<TermDictionary, Fault>
    requires { IsOk (dictionary bytes.items) }
    ensures ok { IfOk result (λ terms. dictionary bytes.items ≡ Ok terms) }
    ensures only { OnlyMemory result }
{
    let bytes = Bytes::from_vec(bytes)?;
    match TermDictionary::open(bytes) {
        Ok(terms) => Ok(terms),
        Err(fault) => Err(fault),
    }
}

// Opens a reader over a dictionary and two bodies, of which the first one begins with the number of tokens.
fn open_reader(
    terms: TermDictionary,
    postings: Vec<u8>,
    positions: Vec<u8>,
    option: IndexRecordOption,
) -> Result<InvertedIndexReader, Fault>
    requires { 8 ≤ length postings.items }
    ensures ok { IfOk result (λ reader. reader ≡ record { terms = terms; postings = drop 8 postings.items; positions = positions.items; option = option; num_tokens = little_endian (take 8 postings.items); validation = Complete }) }
    ensures only { OnlyMemory result }
{
    let postings = Bytes::from_vec(postings)?;
    let positions = Bytes::from_vec(positions)?;
    match InvertedIndexReader::new(terms, postings, positions, option) {
        Ok(reader) => Ok(reader),
        Err(fault) => Err(fault),
    }
}
