//! Copying terms of a field out of its files.
ghost use Rattle.std.specs.Prelude.{◌≡◌, ◌+◌, ◌^◌, ◌<◌, ◌||◌, ◌∷◌, [], ◌++◌, ℕ, List, Option, Some, IfErr, IfOk, IsErrOf, false, length, map, not, true};
ghost use Rattle.std.specs.List.{list_all};
ghost use Rattle.ii_io.specs.Faults.{OnlyMemory};
ghost use Rattle.ii_io.specs.Numbers.{little_endian};
ghost use Rattle.ii_io.specs.declared.faults.Fault.TheVariants as faults;
ghost use Rattle.ii_io.specs.declared.faults.Part.TheVariants as parts;
ghost use Rattle.ii_base.specs.declared.schema.index_record_option.IndexRecordOption.{IndexRecordOption};
ghost use Rattle.ii_definitions.specs.Files.{bytes_in};
ghost use Rattle.ii_reader.specs.InvertedIndexReader.{InvertedIndexReaderState, lies_in};
ghost use Rattle.ii_termdict.specs.ReadBack.{AreAscending};
ghost use Rattle.ii_termstore.specs.TermInfos.{is_short, is_sound};
ghost use Rattle.ii_warmup.specs.Faults.{IsCopyFault};
ghost use Rattle.ii_warmup.specs.Parts.{IsPartOf};
ghost use Rattle.ii_warmup.specs.Warmup.{CopiesTerm, IsRangeOf, do_ranges_lie, reads_positions_of, wanted_entries, wanted_keys, wanted_view};
ghost use Rattle.ii_file_slice.specs.declared.faults.FileFault.TheVariants.{Index};

use crate::copied_terms::CopiedTerms;
use crate::wanted_terms::WantedTerm;
use bytes::Bytes;
use ii_base::{Fault, IndexRecordOption, Part};
use ii_file_slice::{BlockCache, FileFault, FileHandle};
use ii_reader::InvertedIndexReader;
use std::alloc::Global;
use std::ops::Range;

// The greatest number of bytes of a term's postings or positions.
const MAX_TERM_BYTES: u64 = 4294967295;

// Returns a cache of a body that begins at `start` in the file whose blocks are checked.
pub(crate) fn new_cache<'a, H: FileHandle>(
    alloc: Global,
    body: &'a H,
    start: u64,
    num_blocks: usize,
) -> Result<BlockCache<'a, H>, Fault>
    ensures same { IfOk result (λ cache. cache ≡ body.now) }
    ensures only { OnlyMemory result }
{
    Ok(BlockCache::new(alloc, body, start, num_blocks)?)
}

// Returns the bytes of a range of a body.
fn read_range<H: FileHandle>(
    alloc: Global,
    body: &mut BlockCache<'_, H>,
    range: &Range<usize>,
) -> Result<Bytes, FileFault>
    ensures file { body.new ≡ body.old }
    ensures short { IfOk result (λ read. length read < 2 ^ 32) }
    ensures read { IfOk result (IsRangeOf (H.bytes body.old) range.now) }
    ensures range { (bs : List ℕ) → H.bytes body.old ≡ Some bs → IsErrOf result (Index (faults.Damaged parts.Range)) → lies_in bs range.now ≡ false }
    ensures long { IsErrOf result (Index (faults.Damaged parts.TermStore)) → is_short range.now ≡ false }
    ensures sound { (bs : List ℕ) → H.bytes body.old ≡ Some bs → H.is_sound body.old → IfErr result (IsCopyFault (lies_in bs range.now) (is_short range.now)) }
{
    if range.start > range.end || range.end as u64 > body.len() {
        return Err(FileFault::Index(Fault::Damaged(Part::Range)));
    }
    let len = range.end - range.start;
    if len as u64 > MAX_TERM_BYTES {
        return Err(FileFault::Index(Fault::Damaged(Part::TermStore)));
    }
    match body.read_bytes(alloc, range.start as u64, len) {
        Ok(bytes) => Ok(bytes),
        Err(fault) => Err(FileFault::from(fault)),
    }
}

// Returns the bytes of a term's positions, or none if they aren't read.
fn read_positions<H: FileHandle>(
    alloc: Global,
    body: &mut BlockCache<'_, H>,
    term: &WantedTerm,
    option: IndexRecordOption,
) -> Result<Bytes, FileFault>
    ensures file { body.new ≡ body.old }
    ensures short { IfOk result (λ read. length read < 2 ^ 32) }
    ensures read { reads_positions_of option (wanted_view term.now) ≡ true → IfOk result (IsRangeOf (H.bytes body.old) term.now.info.positions_range) }
    ensures range { (bs : List ℕ) → H.bytes body.old ≡ Some bs → IsErrOf result (Index (faults.Damaged parts.Range)) → (reads_positions_of option (wanted_view term.now) ≡ true) × (lies_in bs term.now.info.positions_range ≡ false) }
    ensures long { IsErrOf result (Index (faults.Damaged parts.TermStore)) → is_short term.now.info.positions_range ≡ false }
    ensures sound { (bs : List ℕ) → H.bytes body.old ≡ Some bs → H.is_sound body.old → IfErr result (IsCopyFault (not (reads_positions_of option (wanted_view term.now)) || lies_in bs term.now.info.positions_range) (is_short term.now.info.positions_range)) }
{
    if !option.downgrade(term.option).has_positions() {
        return Ok(Bytes::new());
    }
    read_range(alloc, body, &term.info.positions_range)
}

// Copies one more term, whose key must be greater than the previous one by its bytes.
fn copy_term<P: FileHandle, Q: FileHandle>(
    alloc: Global,
    copied: CopiedTerms,
    term: &WantedTerm,
    postings: &mut BlockCache<'_, P>,
    positions: &mut BlockCache<'_, Q>,
    option: IndexRecordOption,
) -> Result<CopiedTerms, FileFault>
    requires open { copied.closed ≡ false }
    requires whole { length copied.keys ≡ length copied.infos }
    requires ascending { AreAscending (copied.keys ++ term.now.key.items ∷ []) }
    ensures files { (postings.new ≡ postings.old) × (positions.new ≡ positions.old) }
    ensures copies { IfOk result (CopiesTerm option (P.bytes postings.old) (Q.bytes positions.old) (wanted_view term.now) copied) }
    ensures range { (p q : List ℕ) → P.bytes postings.old ≡ Some p → Q.bytes positions.old ≡ Some q → IsErrOf result (Index (faults.Damaged parts.Range)) → do_ranges_lie option p q (wanted_view term.now) ≡ false }
    ensures long { IsErrOf result (Index (faults.Damaged parts.TermStore)) → is_sound term.now.info ≡ false }
    ensures sound { (p q : List ℕ) → P.bytes postings.old ≡ Some p → Q.bytes positions.old ≡ Some q → P.is_sound postings.old → Q.is_sound positions.old
        → IfErr result (IsCopyFault (do_ranges_lie option p q (wanted_view term.now)) (is_sound term.now.info)) }
{
    let of_docs = match read_range(alloc, postings, &term.info.postings_range) {
        Ok(bytes) => bytes,
        Err(fault) => return Err(fault),
    };
    let of_positions = match read_positions(alloc, positions, term, option) {
        Ok(bytes) => bytes,
        Err(fault) => return Err(fault),
    };
    match copied.push(
        &term.key,
        term.info.doc_freq,
        of_docs.as_slice(),
        of_positions.as_slice(),
    ) {
        Ok(copied) => Ok(copied),
        Err(fault) => Err(FileFault::Index(fault)),
    }
}

// Returns a reader over the wanted terms of a field, whose keys ascend by their bytes, given the bytes before its
// postings and the bodies of its postings and positions.
pub(crate) fn copy_terms<P: FileHandle, Q: FileHandle>(
    alloc: Global,
    wanted: &[WantedTerm],
    count: &[u8],
    postings: &mut BlockCache<'_, P>,
    positions: &mut BlockCache<'_, Q>,
    option: IndexRecordOption,
) -> Result<InvertedIndexReader, FileFault>
    requires count { length count.now ≡ 8 }
    requires ascending { AreAscending (wanted_keys wanted.now) }
    ensures part { (requested : List ℕ → Option IndexRecordOption) (whole : InvertedIndexReaderState) → P.bytes postings.old ≡ Some whole.postings → Q.bytes positions.old ≡ Some whole.positions → whole.option ≡ option
        → whole.num_tokens ≡ little_endian count.now → map wanted_view wanted.now ≡ wanted_entries requested whole.terms → IfOk result (λ part. IsPartOf requested part whole) }
    ensures range { (p q : List ℕ) → P.bytes postings.old ≡ Some p → Q.bytes positions.old ≡ Some q → IsErrOf result (Index (faults.Damaged parts.Range)) → list_all (λ t. do_ranges_lie option p q (wanted_view t)) wanted.now ≡ false }
    ensures long { IsErrOf result (Index (faults.Damaged parts.TermStore)) → list_all (λ t. is_sound t.info) wanted.now ≡ false }
    ensures sound { (p q : List ℕ) → P.bytes postings.old ≡ Some p → Q.bytes positions.old ≡ Some q → P.is_sound postings.old → Q.is_sound positions.old
        → IfErr result (IsCopyFault (list_all (λ t. do_ranges_lie option p q (wanted_view t)) wanted.now) (list_all (λ t. is_sound t.info) wanted.now)) }
{
    let mut copied = match CopiedTerms::new(alloc, count) {
        Ok(copied) => copied,
        Err(fault) => return Err(FileFault::Index(fault)),
    };
    for term in wanted {
        copied = match copy_term(alloc, copied, term, postings, positions, option) {
            Ok(copied) => copied,
            Err(fault) => return Err(fault),
        };
    }
    match copied.finish(option) {
        Ok(reader) => Ok(reader),
        Err(fault) => Err(FileFault::Index(fault)),
    }
}
