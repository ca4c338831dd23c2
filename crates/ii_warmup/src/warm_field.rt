//! A small index in memory that has what a query reads of an index.
ghost use Rattle.std.specs.Prelude.{◌≡◌, List, Option, Some, IfErr, IsErrOf, false, map, ℕ};
ghost use Rattle.std.specs.List.{list_all};
ghost use Rattle.ii_io.specs.declared.faults.Fault.TheVariants as faults;
ghost use Rattle.ii_io.specs.declared.faults.Part.TheVariants as parts;
ghost use Rattle.ii_base.specs.declared.schema.index_record_option.IndexRecordOption.{IndexRecordOption};
ghost use Rattle.ii_reader.specs.InvertedIndexReader.{InvertedIndexReaderState};
ghost use Rattle.ii_termdict.specs.ReadBack.{AreAscending};
ghost use Rattle.ii_termstore.specs.TermInfos.{is_sound};
ghost use Rattle.ii_warmup.specs.Faults.{IsCopyFault};
ghost use Rattle.ii_warmup.specs.Warmup.{WarmsUp, all_lie, all_sound, known_reader, wanted_entries, wanted_keys, wanted_view};
ghost use Rattle.ii_file_slice.specs.declared.faults.FileFault.TheVariants.{Index};

use crate::copying::{copy_terms, new_cache};
use crate::wanted_terms::WantedTerm;
use ii_base::{Fault, IndexRecordOption, Part};
use ii_file_slice::{FileFault, FileHandle, FileSlice};
use ii_reader::InvertedIndexReader;
use std::alloc::Global;

// The number of bytes before the postings of a field: its number of tokens.
const COUNT_SIZE: u64 = 8;

// The number of blocks of a body that are kept: terms whose keys are next to each other have their bytes there, too.
const CACHED_BLOCKS: usize = 4;

/// The wanted terms of a field, and its bodies in the files of postings and positions.
#[derive(Drop)]
pub struct FieldFiles<'a, P: FileHandle, Q: FileHandle> {
    /// The terms, in ascending order of the bytes of their keys.
    pub wanted: &'a [WantedTerm],
    /// The number of tokens of the field, 8 bytes, and its postings.
    pub postings: &'a P,
    /// The positions.
    pub positions: &'a Q,
    /// Where these two begin in the files whose blocks are checked.
    pub starts: (u64, u64),
    /// What the field records.
    pub option: IndexRecordOption,
}

/// Returns a reader over the wanted terms of a field, each with what is requested of it. Of the postings and positions,
/// only the bytes of these terms and the number of tokens are read.
///
/// # Errors
///
/// * `Damaged(TokenCount)` if the postings have fewer than 8 bytes.
/// * `Damaged(Range)` if the postings of one of these terms aren't within the body, or its positions, if they are
///   requested; `Damaged(TermStore)` if one of these ranges has 2^32 bytes or more.
/// * `Read` if a file can't be read.
/// * `Limit(Offset)` if the dictionary of these terms would have 2^64 bytes or more; `OutOfMemory`.
pub fn warm_up_field<P: FileHandle, Q: FileHandle>(
    alloc: Global,
    files: &FieldFiles<'_, P, Q>,
) -> Result<InvertedIndexReader, FileFault>
    requires ascending { AreAscending (wanted_keys files.now.wanted.now) }
    ensures warms { (requested : List ℕ → Option IndexRecordOption) (whole : InvertedIndexReaderState) → known_reader whole.terms (P.bytes files.now.postings.now) (Q.bytes files.now.positions.now) files.now.option ≡ Some whole
        → map wanted_view files.now.wanted.now ≡ wanted_entries requested whole.terms → WarmsUp requested whole result }
    ensures long { IsErrOf result (Index (faults.Damaged parts.TermStore)) → list_all (λ t. is_sound t.info) files.now.wanted.now ≡ false }
    // where the bytes can be read
    ensures sound { (requested : List ℕ → Option IndexRecordOption) (whole : InvertedIndexReaderState) → known_reader whole.terms (P.bytes files.now.postings.now) (Q.bytes files.now.positions.now) files.now.option ≡ Some whole
        → map wanted_view files.now.wanted.now ≡ wanted_entries requested whole.terms → P.is_sound files.now.postings.now → Q.is_sound files.now.positions.now → IfErr result (IsCopyFault (all_lie requested whole) (all_sound requested whole.terms)) }
{
    let len = files.postings.len();
    if len < COUNT_SIZE {
        return Err(FileFault::Index(Fault::Damaged(Part::TokenCount)));
    }
    let count = match files.postings.read_bytes(alloc, 0, COUNT_SIZE as usize) {
        Ok(count) => count,
        Err(fault) => return Err(FileFault::from(fault)),
    };
    let body = FileSlice::new(files.postings, COUNT_SIZE, len - COUNT_SIZE);
    let start = files.starts.0.saturating_add(COUNT_SIZE);
    let mut postings = match new_cache(alloc, &body, start, CACHED_BLOCKS) {
        Ok(postings) => postings,
        Err(fault) => return Err(FileFault::Index(fault)),
    };
    let mut positions = match new_cache(alloc, files.positions, files.starts.1, CACHED_BLOCKS) {
        Ok(positions) => positions,
        Err(fault) => return Err(FileFault::Index(fault)),
    };
    copy_terms(
        alloc,
        files.wanted,
        count.as_slice(),
        &mut postings,
        &mut positions,
        files.option,
    )
}
