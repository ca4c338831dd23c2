// What is indexed, written and opened.
ghost use Rattle.std.specs.Prelude.{◌≡◌, ◌<◌, ◌≤◌, ◌⊎◌, ℕ, [], false, length, map, None, Err, IfErr, IfOk, IfSome, IsTrue, MatchOption};
ghost use Rattle.std.specs.List.{AllByRecursion, sum_by};
ghost use Rattle.ii_base.specs.AsciiWords.{ascii_words};
ghost use Rattle.ii_fieldnorm.specs.Norms.{id_of_norm};
ghost use Rattle.ii_definitions.specs.Fields.{option_of};
ghost use Rattle.ii_definitions.specs.Norms.{has_norms};
ghost use Rattle.ii_definitions.specs.Postings.{doc_count, field_count, key_postings, occurs};
ghost use Rattle.ii_definitions.specs.Tokens.{Call, tokens_of};
ghost use Rattle.ii_definitions.specs.IndexCalls.{MayAllBeIndexed, call_of};
ghost use Rattle.ii_indexing.specs.IndexFiles.{HaveNoRoom};
ghost use Rattle.ii_promises.specs.OrderlyCalls.{IsOrderly, num_positions_of};
ghost use Rattle.ii_indexing.specs.Refusals.{calls_fault};
ghost use Rattle.ii_postings_writer.specs.TermLimits.{AreWithin};
ghost use Rattle.ii_postings_writer.specs.TokenFiles.{token_terms};
ghost use Rattle.ii_indexing.specs.RamFiles.{IsRamFault, empty_file};
ghost use Rattle.ii_promises.specs.PlainCalls.{IsTextOrNumber, call_size};
ghost use Rattle.ii_reader.specs.OpenIndex.{IndexHolds};

use ii_ram::{
    AsciiTokenizer, DocId, Fault, Field, IndexCall, IndexRecordOption, OpenIndex, Schema,
    SegmentPostings, Term, TextAnalyzer, index_in_ram,
};
use std::alloc::Global;

/// A lookup returns `None` exactly if the key didn't occur in the field. Otherwise it returns a
/// cursor over the key's postings among the tokens of the calls, as far as they are requested.
pub fn what_is_indexed_is_found<A: TextAnalyzer>(
    alloc: Global,
    schema: Schema,
    num_docs: DocId,
    calls: Vec<IndexCall>,
    analyzer: &A,
    term: &Term,
    requested: IndexRecordOption,
) -> Result<Option<SegmentPostings>, Fault>
    requires docs { num_docs ≤ 2147483647 }
    requires calls { MayAllBeIndexed schema num_docs calls.items }
    requires field { term.now.field < length schema }
    ensures found { IfOk result (λ found. MatchOption found (occurs term.now.field term.now.value (tokens_of (A.words analyzer.now) (map (call_of schema) calls.items)) ≡ false)
        (λ cursor. IsTrue (occurs term.now.field term.now.value (tokens_of (A.words analyzer.now) (map (call_of schema) calls.items)))
        × (cursor.rest ≡ key_postings (option_of schema term.now.field) term.now.field term.now.value requested (tokens_of (A.words analyzer.now) (map (call_of schema) calls.items))))) }
    ensures fault { calls_fault (A.words analyzer.now) (option_of schema) [] (map (call_of schema) calls.items) ≡ None
        → IfErr result (λ e. (e ≡ Fault.OutOfMemory) ⊎ IsRamFault schema num_docs (tokens_of (A.words analyzer.now) (map (call_of schema) calls.items)) e) }
{
    let index = index_in_ram(alloc, schema, num_docs, calls, analyzer)?;
    index.reader(term.field()).read_postings(term, requested)
}

/// An index in memory is known to open: lookups never report damage, and fail only with
/// `OutOfMemory`.
pub fn what_is_indexed_is_never_damaged<A: TextAnalyzer>(
    alloc: Global,
    schema: Schema,
    num_docs: DocId,
    calls: Vec<IndexCall>,
    analyzer: &A,
    term: &Term,
    requested: IndexRecordOption,
) -> Result<Result<Option<SegmentPostings>, Fault>, Fault>
    requires docs { num_docs ≤ 2147483647 }
    requires calls { MayAllBeIndexed schema num_docs calls.items }
    requires field { term.now.field < length schema }
    ensures { IfOk result (λ answer. IfErr answer (λ fault. fault ≡ Fault.OutOfMemory)) }
{
    let index = index_in_ram(alloc, schema, num_docs, calls, analyzer)?;
    Ok(index.reader(term.field()).read_postings(term, requested))
}

/// A lookup in an index that was just written decodes no block to validate the list that it opens: at
/// most the first one of its documents and of its term frequencies, and one of its positions.
pub fn what_is_indexed_opens_without_validation<A: TextAnalyzer>(
    alloc: Global,
    schema: Schema,
    num_docs: DocId,
    calls: Vec<IndexCall>,
    analyzer: &A,
    term: &Term,
    requested: IndexRecordOption,
) -> Result<Option<SegmentPostings>, Fault>
    requires docs { num_docs ≤ 2147483647 }
    requires calls { MayAllBeIndexed schema num_docs calls.items }
    requires field { term.now.field < length schema }
    ensures no_validation { IfOk result (λ found. IfSome found (λ cursor. (cursor.checked.docs ≡ 0) × (cursor.checked.freqs ≡ 0) × (cursor.positions_checked.docs ≡ 0) × (cursor.positions_checked.freqs ≡ 0) × (cursor.positions_checked.positions ≡ 0))) }
    ensures decodes { IfOk result (λ found. IfSome found (λ cursor. (cursor.doc_decodes ≤ 1) × (cursor.freq_decodes ≤ 1) × (cursor.position_decodes ≤ 1))) }
{
    let index = index_in_ram(alloc, schema, num_docs, calls, analyzer)?;
    index.reader(term.field()).read_postings(term, requested)
}

/// Returns the number of a field's tokens, and the number of documents with a key.
pub fn what_is_indexed_is_counted<A: TextAnalyzer>(
    alloc: Global,
    schema: Schema,
    num_docs: DocId,
    calls: Vec<IndexCall>,
    analyzer: &A,
    term: &Term,
) -> Result<(u64, u32), Fault>
    requires docs { num_docs ≤ 2147483647 }
    requires calls { MayAllBeIndexed schema num_docs calls.items }
    requires field { term.now.field < length schema }
    ensures tokens { IfOk result (λ counts. counts.0 ≡ field_count term.now.field (tokens_of (A.words analyzer.now) (map (call_of schema) calls.items))) }
    ensures docs { IfOk result (λ counts. counts.1 ≡ length (key_postings (option_of schema term.now.field) term.now.field term.now.value IndexRecordOption.Basic (tokens_of (A.words analyzer.now) (map (call_of schema) calls.items)))) }
    ensures fault { calls_fault (A.words analyzer.now) (option_of schema) [] (map (call_of schema) calls.items) ≡ None
        → IfErr result (λ e. (e ≡ Fault.OutOfMemory) ⊎ IsRamFault schema num_docs (tokens_of (A.words analyzer.now) (map (call_of schema) calls.items)) e) }
{
    let index = index_in_ram(alloc, schema, num_docs, calls, analyzer)?;
    let reader = index.reader(term.field());
    Ok((reader.total_num_tokens(), reader.doc_freq(term)))
}

/// The norm of a document in a field is the byte of its number of tokens there. A field without norms
/// has none.
pub fn norms_count_the_tokens<A: TextAnalyzer>(
    alloc: Global,
    schema: Schema,
    num_docs: DocId,
    calls: Vec<IndexCall>,
    analyzer: &A,
    field: Field,
    doc: DocId,
) -> Result<Option<u8>, Fault>
    requires docs { num_docs ≤ 2147483647 }
    requires calls { MayAllBeIndexed schema num_docs calls.items }
    requires doc { doc < num_docs }
    ensures norm { IfOk result (λ norm. MatchOption norm (has_norms schema field ≡ false)
        (λ id. IsTrue (has_norms schema field) × (id ≡ id_of_norm (doc_count doc field (tokens_of (A.words analyzer.now) (map (call_of schema) calls.items)))))) }
    ensures fault { calls_fault (A.words analyzer.now) (option_of schema) [] (map (call_of schema) calls.items) ≡ None
        → IfErr result (λ e. (e ≡ Fault.OutOfMemory) ⊎ IsRamFault schema num_docs (tokens_of (A.words analyzer.now) (map (call_of schema) calls.items)) e) }
{
    let index = index_in_ram(alloc, schema, num_docs, calls, analyzer)?;
    match index.get_fieldnorms_reader(field)? {
        Some(norms) => Ok(Some(norms.fieldnorm_id(doc))),
        None => Ok(None),
    }
}

/// An index of no calls exceeds no limit. It fails only with `OutOfMemory`, and has no tokens.
pub fn no_calls_pass_no_limit<A: TextAnalyzer>(
    alloc: Global,
    schema: Schema,
    num_docs: DocId,
    analyzer: &A,
) -> Result<OpenIndex, Fault>
    requires docs { num_docs ≤ 2147483647 }
    ensures holds { IfOk result (λ index. IndexHolds schema num_docs index []) }
    ensures memory { IfErr result (λ fault. fault ≡ Fault.OutOfMemory) }
{
    // Shows the proof that a schema has fewer than 2^64 fields.
    let _fields = schema.num_fields();
    index_in_ram(alloc, schema, num_docs, Vec::new(alloc), analyzer)
}

/// Valid calls whose terms and files exceed no limit fail only with `OutOfMemory`.
pub fn terms_within_limits_are_indexed<A: TextAnalyzer>(
    alloc: Global,
    schema: Schema,
    num_docs: DocId,
    calls: Vec<IndexCall>,
    analyzer: &A,
) -> Result<OpenIndex, Fault>
    requires docs { num_docs ≤ 2147483647 }
    requires calls { MayAllBeIndexed schema num_docs calls.items }
    requires taken { calls_fault (A.words analyzer.now) (option_of schema) [] (map (call_of schema) calls.items) ≡ None }
    requires within { (field : ℕ) → field < length schema → AreWithin (option_of schema field) (token_terms schema (tokens_of (A.words analyzer.now) (map (call_of schema) calls.items)) field) }
    requires room { ¬ HaveNoRoom schema empty_file empty_file empty_file (tokens_of (A.words analyzer.now) (map (call_of schema) calls.items)) }
    ensures { IfErr result (λ fault. fault ≡ Fault.OutOfMemory) }
{
    let _fields = schema.num_fields();
    index_in_ram(alloc, schema, num_docs, calls, analyzer)
}

/// Calls of values, and of texts whose tokens are in order, exceed no limit, if there are at most 100,000
/// fields and a million tokens and positions. They fail only with `OutOfMemory`, and else the index holds
/// exactly their tokens.
pub fn orderly_calls_are_indexed<A: TextAnalyzer>(
    alloc: Global,
    schema: Schema,
    num_docs: DocId,
    calls: Vec<IndexCall>,
    analyzer: &A,
) -> Result<OpenIndex, Fault>
    requires docs { num_docs ≤ 2147483647 }
    requires calls { MayAllBeIndexed schema num_docs calls.items }
    requires fields { length schema ≤ 100000 }
    requires orderly { AllByRecursion (λ (c : Call). IsOrderly (A.words analyzer.now) c.content) (map (call_of schema) calls.items) }
    requires positions { num_positions_of (A.words analyzer.now) (map (call_of schema) calls.items) ≤ 1000000 }
    requires tokens { length (tokens_of (A.words analyzer.now) (map (call_of schema) calls.items)) ≤ 1000000 }
    ensures holds { IfOk result (λ index. IndexHolds schema num_docs index (tokens_of (A.words analyzer.now) (map (call_of schema) calls.items))) }
    ensures memory { IfErr result (λ fault. fault ≡ Fault.OutOfMemory) }
{
    index_in_ram(alloc, schema, num_docs, calls, analyzer)
}

/// Texts that `AsciiTokenizer` cuts, and numbers, exceed no limit, if there are at most 100,000 fields, and
/// the bytes of the texts and the number of calls sum to at most a million. They fail only with
/// `OutOfMemory`, and else the index holds exactly their tokens.
pub fn texts_and_numbers_are_indexed(
    alloc: Global,
    schema: Schema,
    num_docs: DocId,
    calls: Vec<IndexCall>,
) -> Result<OpenIndex, Fault>
    requires docs { num_docs ≤ 2147483647 }
    requires calls { MayAllBeIndexed schema num_docs calls.items }
    requires fields { length schema ≤ 100000 }
    requires plain { AllByRecursion IsTextOrNumber calls.items }
    requires size { sum_by call_size calls.items ≤ 1000000 }
    ensures holds { IfOk result (λ index. IndexHolds schema num_docs index (tokens_of ascii_words (map (call_of schema) calls.items))) }
    ensures memory { IfErr result (λ fault. fault ≡ Fault.OutOfMemory) }
{
    orderly_calls_are_indexed(alloc, schema, num_docs, calls, &AsciiTokenizer)
}

/// The fault of the first refused call is returned, unless an allocation failed before.
pub fn first_refused_call_is_told<A: TextAnalyzer>(
    alloc: Global,
    schema: Schema,
    num_docs: DocId,
    calls: Vec<IndexCall>,
    analyzer: &A,
) -> Option<Fault>
    requires docs { num_docs ≤ 2147483647 }
    requires calls { MayAllBeIndexed schema num_docs calls.items }
    ensures { IfSome (calls_fault (A.words analyzer.now) (option_of schema) [] (map (call_of schema) calls.items)) (λ fault. (result ≡ Some fault) ⊎ (result ≡ Some Fault.OutOfMemory)) }
{
    match index_in_ram(alloc, schema, num_docs, calls, analyzer) {
        Ok(_) => None,
        Err(fault) => Some(fault),
    }
}
