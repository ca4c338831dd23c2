// Opening any four files, and checking an open index once.
ghost use Rattle.std.specs.Prelude.{◌≡◌, ◌↔◌, ◌⊎◌, ◌<◌, ℕ, List, [], length, slice_get, None, Some, Ok, Err, IfErr, IfOk, IfSome, IsErrOf, IsOk, IsSome, IsSomeAnd, OnErr, OnOk};
ghost use Rattle.std.specs.List.{All};
ghost use Rattle.ii_io.specs.declared.faults.Part.{Part};
ghost use Rattle.ii_definitions.specs.Fields.{option_of};
ghost use Rattle.ii_definitions.specs.Files.{HoldTokens};
ghost use Rattle.ii_definitions.specs.Norms.{HoldNorms};
ghost use Rattle.ii_definitions.specs.Tokens.{IndexToken};
ghost use Rattle.ii_termdict.specs.Dictionary.{TermEntry, info_under};
ghost use Rattle.ii_reader.specs.InvertedIndexReader.{AllOpen, InvertedIndexReaderState, term_of_file, trusted_reader};
ghost use Rattle.ii_reader.specs.OpenIndex.{IndexHolds, OpenIndexState, ReadersHold, index_of_files, trusted_index};

use bytes::Bytes;
use ii_ram::{
    DamagedTerm, Fault, Field, IndexRecordOption, InvertedIndexReader, OpenIndex, Schema,
    SegmentPostings, Term, open_index, open_index_with_norms,
};
use ii_termdict::TermInfo;
use std::alloc::Global;

/// Four files open as the index that the definition gives. Otherwise the first corrupt part is
/// returned, unless an allocation failed before.
pub fn any_files_open_as_their_index(
    alloc: Global,
    terms: Bytes,
    postings: Bytes,
    positions: Bytes,
    fieldnorms: Bytes,
    schema: &Schema,
) -> Result<OpenIndex, Fault>
    ensures index { IfOk result (λ index. index_of_files terms postings positions fieldnorms schema.now ≡ Ok index) }
    ensures fault { IfErr result (λ fault. (fault ≡ Fault.OutOfMemory)
        ⊎ ((part : Part) × (fault ≡ Fault.Damaged part) × (index_of_files terms postings positions fieldnorms schema.now ≡ Err part))) }
{
    open_index_with_norms(alloc, terms, postings, positions, fieldnorms, schema)
}

/// Files that hold tokens and their norms open as an index with these. Opening fails only with
/// `OutOfMemory`.
pub fn files_of_tokens_are_opened(
    alloc: Global,
    terms: Bytes,
    postings: Bytes,
    positions: Bytes,
    fieldnorms: Bytes,
    schema: &Schema,
) -> Result<OpenIndex, Fault>
    ensures holds { (tokens : List IndexToken) → (num_docs : ℕ) → HoldTokens (option_of schema.now) terms postings positions tokens → HoldNorms schema.now num_docs fieldnorms tokens
        → IfOk result (λ index. IndexHolds schema.now num_docs index tokens) }
    ensures memory { (tokens : List IndexToken) → (num_docs : ℕ) → HoldTokens (option_of schema.now) terms postings positions tokens → HoldNorms schema.now num_docs fieldnorms tokens
        → IfErr result (λ fault. fault ≡ Fault.OutOfMemory) }
{
    open_index_with_norms(alloc, terms, postings, positions, fieldnorms, schema)
}

/// Files that hold tokens open without a file of norms. No field then has norms. Opening fails only with
/// `OutOfMemory`.
pub fn norms_are_not_needed(
    alloc: Global,
    terms: Bytes,
    postings: Bytes,
    positions: Bytes,
    schema: &Schema,
) -> Result<OpenIndex, Fault>
    ensures holds { (tokens : List IndexToken) → HoldTokens (option_of schema.now) terms postings positions tokens → IfOk result (λ index. ReadersHold schema.now index.readers tokens) }
    ensures norms { IfOk result (λ index. index.fieldnorms ≡ []) }
    ensures memory { (tokens : List IndexToken) → HoldTokens (option_of schema.now) terms postings positions tokens → IfErr result (λ fault. fault ≡ Fault.OutOfMemory) }
{
    open_index(alloc, terms, postings, positions, schema)
}

/// A term is read completely: all its documents remain, as many as its entry in the dictionary says.
pub fn terms_are_read_whole(
    reader: &InvertedIndexReader,
    term: &Term,
    requested: IndexRecordOption,
) -> Result<Option<SegmentPostings>, Fault>
    ensures whole { IfSome (info_under term.now.value reader.now.terms) (λ info. IfOk result (λ found. IsSomeAnd found (λ cursor. length cursor.rest ≡ info.doc_freq))) }
    ensures list { IfSome (info_under term.now.value reader.now.terms) (λ info. IfOk result (λ found. IsSomeAnd found (λ cursor. term_of_file reader.now requested info ≡ Ok cursor.rest))) }
    ensures fault { IfSome (info_under term.now.value reader.now.terms) (λ info. IfErr result (λ fault. (fault ≡ Fault.OutOfMemory)
        ⊎ ((part : Part) × (fault ≡ Fault.Damaged part) × (term_of_file reader.now requested info ≡ Err part)))) }
{
    reader.read_postings(term, requested)
}

/// A cursor that is reset to a term gives what a lookup gives. After an error it has no documents.
pub fn cursors_are_reset_to_terms(
    reader: &InvertedIndexReader,
    info: &TermInfo,
    requested: IndexRecordOption,
    cursor: &mut SegmentPostings,
) -> Result<(), Fault>
    ensures list { OnOk result (term_of_file reader.now requested info.now ≡ Ok cursor.new.rest) }
    ensures fault { IfErr result (λ fault. (fault ≡ Fault.OutOfMemory)
        ⊎ ((part : Part) × (fault ≡ Fault.Damaged part) × (term_of_file reader.now requested info.now ≡ Err part))) }
    ensures emptied { OnErr result (cursor.new.rest ≡ []) }
{
    reader.reset_postings_from_terminfo(info, requested, cursor)
}

/// Where documents alone are requested, `Damaged(Range)` is returned exactly if the range of postings ends
/// before it begins or after the field's bytes.
pub fn ranges_outside_are_refused(
    reader: &InvertedIndexReader,
    info: &TermInfo,
) -> Result<SegmentPostings, Fault>
    ensures outside { (info.now.postings_range.end < info.now.postings_range.start) ⊎ (length reader.now.postings < info.now.postings_range.end)
        → IsErrOf result (Fault.Damaged Part.Range) }
    ensures within { IsErrOf result (Fault.Damaged Part.Range)
        → (info.now.postings_range.end < info.now.postings_range.start) ⊎ (length reader.now.postings < info.now.postings_range.end) }
{
    reader.read_postings_from_terminfo(info, IndexRecordOption::Basic)
}

/// A check of an open index reports nothing exactly if each term of each field opens, however much of
/// its list is requested. Otherwise it reports a field, a term by its ordinal, and the first corrupt
/// part of the term's list. Each term before it opens, in this field and in earlier fields. The index
/// is then trusted if nothing is reported, and else unchanged.
pub fn a_check_tells_the_first_damage(
    index: &mut OpenIndex,
) -> Result<Option<(Field, DamagedTerm)>, Fault>
    ensures sound { IfOk result (λ damage. (damage ≡ None)
        ↔ All (λ reader. (key : List ℕ) (requested : IndexRecordOption) → IfSome (info_under key reader.terms) (λ info. IsOk (term_of_file reader requested info))) index.old.readers) }
    ensures told { IfOk result (λ damage. IfSome damage (λ d. IsSomeAnd (slice_get index.old.readers d.0)
        (λ reader. IsSomeAnd (slice_get reader.terms d.1.ord) (λ term. term_of_file reader reader.option term.1 ≡ Err d.1.part)))) }
    ensures first { IfOk result (λ damage. IfSome damage (λ d. (field : ℕ) (reader : InvertedIndexReaderState) (ord : ℕ) (term : TermEntry)
        → slice_get index.old.readers field ≡ Some reader → slice_get reader.terms ord ≡ Some term → (field < d.0) ⊎ ((field ≡ d.0) × (ord < d.1.ord))
        → IsOk (term_of_file reader reader.option term.1))) }
    ensures trusted { IfOk result (λ damage. damage ≡ None → index.new ≡ trusted_index index.old) }
    ensures same { IfOk result (λ damage. IfSome damage (λ d. index.new ≡ index.old)) }
    ensures stays { OnErr result (index.new ≡ index.old) }
    ensures memory { IfErr result (λ fault. fault ≡ Fault.OutOfMemory) }
{
    index.check()
}

/// A reader whose terms all open becomes trusted, and is otherwise unchanged. A lookup returns the
/// list of its term, decodes no block to validate it, and fails only with `OutOfMemory`.
pub fn trusted_readers_open_every_term(
    reader: &mut InvertedIndexReader,
    term: &Term,
    requested: IndexRecordOption,
) -> Result<Option<SegmentPostings>, Fault>
    requires { AllOpen reader.old }
    ensures list { IfSome (info_under term.now.value reader.old.terms) (λ info. IfOk result (λ found. IsSomeAnd found (λ cursor. term_of_file reader.old requested info ≡ Ok cursor.rest))) }
    ensures no_validation { IfSome (info_under term.now.value reader.old.terms) (λ info. IfOk result (λ found. IsSomeAnd found (λ cursor. (cursor.checked.docs ≡ 0) × (cursor.checked.freqs ≡ 0) × (cursor.positions_checked.docs ≡ 0) × (cursor.positions_checked.freqs ≡ 0) × (cursor.positions_checked.positions ≡ 0)))) }
    ensures same { reader.new ≡ trusted_reader reader.old }
    ensures memory { IfErr result (λ fault. fault ≡ Fault.OutOfMemory) }
{
    reader.trust();
    reader.read_postings(term, requested)
}

/// Four files that open as an index are checked once. If a term of any field doesn't open, the result is
/// `None`, otherwise the lookup of a term. The only possible error is `OutOfMemory`.
pub fn checked_files_open_every_term(
    alloc: Global,
    terms: Bytes,
    postings: Bytes,
    positions: Bytes,
    fieldnorms: Bytes,
    schema: &Schema,
    term: &Term,
    requested: IndexRecordOption,
) -> Result<Option<Option<SegmentPostings>>, Fault>
    requires { term.now.field < length schema.now }
    ensures memory { (index : OpenIndexState) → index_of_files terms postings positions fieldnorms schema.now ≡ Ok index → IfErr result (λ fault. fault ≡ Fault.OutOfMemory) }
    ensures answered { (index : OpenIndexState) → index_of_files terms postings positions fieldnorms schema.now ≡ Ok index → IfOk result (λ answer. IsSome answer ↔ All AllOpen index.readers) }
{
    let mut index = open_index_with_norms(alloc, terms, postings, positions, fieldnorms, schema)?;
    if index.check()?.is_some() {
        return Ok(None);
    }
    match index.reader(term.field()).read_postings(term, requested) {
        Ok(found) => Ok(Some(found)),
        Err(fault) => Err(fault),
    }
}
