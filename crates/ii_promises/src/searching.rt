// What queries find.
ghost use Rattle.std.specs.Prelude.{◌≡◌, ◌+◌, ◌<◌, ◌≤◌, ◌⊎◌, ◌&&◌, ◌==◌, ℕ, [], List, true, false, length, map, min, nat_eq, nat_le, slice_index, None, IfErr, IfOk, OnOk};
ghost use Rattle.std.specs.List.{AllByRecursion, Contains, list_any, starts_with};
ghost use Rattle.ii_base.specs.Entries.{Entry};
ghost use Rattle.ii_docset.specs.Cursor.{IsAscending, IsTarget};
ghost use Rattle.ii_docset.specs.Intersection.{has_doc};
ghost use Rattle.ii_definitions.specs.Fields.{option_of};
ghost use Rattle.ii_definitions.specs.Files.{HoldTokens};
ghost use Rattle.ii_definitions.specs.Norms.{HoldNorms};
ghost use Rattle.ii_definitions.specs.Tokens.{IndexToken, tokens_of};
ghost use Rattle.ii_definitions.specs.IndexCalls.{MayAllBeIndexed, call_of};
ghost use Rattle.ii_indexing.specs.Refusals.{calls_fault};
ghost use Rattle.ii_query_parser.specs.Queries.{has_fields, is_token_of, keeps_positions, matches};
ghost use Rattle.ii_query_parser.specs.Ranges.{in_range};
ghost use Rattle.ii_base.specs.Schema.{SchemaEntry};
ghost use Rattle.ii_reader.specs.OpenIndex.{IndexHolds};
ghost use Rattle.ii_indexing.specs.RamFiles.{IsRamFault};
ghost use Rattle.ii_promises.specs.Decodes.{HaveDecodedFew};
ghost use Rattle.ii_promises.specs.Phrases.{AreTexts, HaveTexts, KeepPositions};
ghost use Rattle.ii_promises.specs.DecodedBlocks.{DecodesNoneTwice};
ghost use Rattle.ii_promises.specs.HopelessBlocks.{hopeful_blocks, is_hopeless_block};

use bytes::Bytes;
use ii_ram::{
    DocId, DocSet, Fault, IndexCall, OpenIndex, PhrasePrefix, PhraseTerm, Query, QueryCursor,
    Schema, SegmentPostings, Term, TermOrPhrase, TermRange, TextAnalyzer, count, index_in_ram,
    open_index_with_norms, search, top_by_count,
};
use std::alloc::Global;

/// A query finds exactly the documents whose tokens match it, in ascending order, for any index
/// calls. It fails only for the reasons for which indexing fails.
#[tactic(auto, using(crate::proofs::SearchingLaws::matches_are_found, crate::proofs::SearchingLaws::memory_of_search, crate::proofs::SearchingLaws::refused_search, crate::proofs::SearchingLaws::same_fields, crate::proofs::SearchingLaws::found_ascend))]
pub fn queries_find_what_matches<A: TextAnalyzer>(
    alloc: Global,
    schema: Schema,
    num_docs: DocId,
    calls: Vec<IndexCall>,
    analyzer: &A,
    query: &Query,
) -> Result<QueryCursor<TermOrPhrase<SegmentPostings>>, Fault>
    requires docs { num_docs ≤ 2147483647 }
    requires calls { MayAllBeIndexed schema num_docs calls.items }
    requires fields { has_fields (length schema) query.now ≡ true }
    requires positions { keeps_positions schema query.now ≡ true }
    ensures ascending { IfOk result (λ cursor. IsAscending cursor.rest) }
    ensures found { IfOk result (λ cursor. (doc : ℕ) → has_doc cursor.rest doc ≡ matches query.now (tokens_of (A.words analyzer.now) (map (call_of schema) calls.items)) doc) }
    ensures fault { calls_fault (A.words analyzer.now) (option_of schema) [] (map (call_of schema) calls.items) ≡ None
        → IfErr result (λ e. (e ≡ Fault.OutOfMemory) ⊎ IsRamFault schema num_docs (tokens_of (A.words analyzer.now) (map (call_of schema) calls.items)) e) }
{
    match index_in_ram(alloc, schema, num_docs, calls, analyzer) {
        Ok(index) => search(alloc, &index, query),
        Err(fault) => Err(fault),
    }
}

/// The same holds for an index that is opened from files with tokens and their norms. It then fails
/// only with `OutOfMemory`.
#[tactic(auto, using(crate::proofs::SearchingLaws::matches_are_found, crate::proofs::SearchingLaws::memory_of_search, crate::proofs::SearchingLaws::refused_search, crate::proofs::SearchingLaws::same_fields, crate::proofs::SearchingLaws::found_ascend))]
pub fn queries_of_files_find_what_matches(
    alloc: Global,
    terms: Bytes,
    postings: Bytes,
    positions: Bytes,
    fieldnorms: Bytes,
    schema: &Schema,
    query: &Query,
) -> Result<QueryCursor<TermOrPhrase<SegmentPostings>>, Fault>
    requires fields { has_fields (length schema.now) query.now ≡ true }
    requires positions { keeps_positions schema.now query.now ≡ true }
    ensures ascending { IfOk result (λ cursor. IsAscending cursor.rest) }
    ensures found { (tokens : List IndexToken) → (num_docs : ℕ) → HoldTokens (option_of schema.now) terms postings positions tokens → HoldNorms schema.now num_docs fieldnorms tokens
        → IfOk result (λ cursor. (doc : ℕ) → has_doc cursor.rest doc ≡ matches query.now tokens doc) }
    ensures memory { (tokens : List IndexToken) → (num_docs : ℕ) → HoldTokens (option_of schema.now) terms postings positions tokens → HoldNorms schema.now num_docs fieldnorms tokens
        → IfErr result (λ fault. fault ≡ Fault.OutOfMemory) }
{
    match open_index_with_norms(alloc, terms, postings, positions, fieldnorms, schema) {
        Ok(index) => search(alloc, &index, query),
        Err(fault) => Err(fault),
    }
}

/// The number of documents that a query finds is that of any list of exactly the matching documents.
#[tactic(auto, using(crate::proofs::SearchingLaws::matches_are_counted, crate::proofs::SearchingLaws::memory_of_counting, crate::proofs::SearchingLaws::same_fields))]
pub fn matches_are_counted(
    alloc: Global,
    terms: Bytes,
    postings: Bytes,
    positions: Bytes,
    fieldnorms: Bytes,
    schema: &Schema,
    query: &Query,
) -> Result<u32, Fault>
    requires fields { has_fields (length schema.now) query.now ≡ true }
    requires positions { keeps_positions schema.now query.now ≡ true }
    ensures counted { (tokens : List IndexToken) (num_docs : ℕ) (found : List Entry) → HoldTokens (option_of schema.now) terms postings positions tokens → HoldNorms schema.now num_docs fieldnorms tokens
        → IsAscending found → ((doc : ℕ) → has_doc found doc ≡ matches query.now tokens doc) → IfOk result (λ count. count ≡ length found) }
    ensures memory { (tokens : List IndexToken) → (num_docs : ℕ) → HoldTokens (option_of schema.now) terms postings positions tokens → HoldNorms schema.now num_docs fieldnorms tokens
        → IfErr result (λ fault. fault ≡ Fault.OutOfMemory) }
{
    match open_index_with_norms(alloc, terms, postings, positions, fieldnorms, schema) {
        Ok(index) => count(alloc, &index, query),
        Err(fault) => Err(fault),
    }
}

/// A prefix finds exactly the documents with a token of its field whose key starts with it, in ascending order.
/// Where the index holds tokens, this fails only with `OutOfMemory`.
#[tactic(auto, using(crate::proofs::SearchingLaws::found_ascend))]
pub fn prefixes_find_what_starts_with_them(
    alloc: Global,
    index: &OpenIndex,
    prefix: Term,
) -> Result<QueryCursor<TermOrPhrase<SegmentPostings>>, Fault>
    requires field { prefix.field < length index.now.readers }
    ensures ascending { IfOk result (λ cursor. IsAscending cursor.rest) }
    ensures found { (schema : List SchemaEntry) (num_docs : ℕ) (tokens : List IndexToken) → IndexHolds schema num_docs index.now tokens → prefix.field < length schema
        → IfOk result (λ cursor. (doc : ℕ) → has_doc cursor.rest doc ≡ list_any (λ t. (t.doc == doc) && (t.field == prefix.field) && starts_with nat_eq t.key prefix.value) tokens) }
    ensures memory { (schema : List SchemaEntry) (num_docs : ℕ) (tokens : List IndexToken) → IndexHolds schema num_docs index.now tokens → prefix.field < length schema
        → IfErr result (λ fault. fault ≡ Fault.OutOfMemory) }
{
    let query = Query::prefix(prefix);
    let found = search(alloc, index, &query);
    drop(query);
    found
}

/// A range finds exactly the documents with a token of its field whose key it has, in ascending order. Where the
/// index holds tokens, this fails only with `OutOfMemory`.
#[tactic(auto, using(crate::proofs::SearchingLaws::found_ascend))]
pub fn ranges_find_what_is_between(
    alloc: Global,
    index: &OpenIndex,
    range: TermRange,
) -> Result<QueryCursor<TermOrPhrase<SegmentPostings>>, Fault>
    requires field { range.prefix.field < length index.now.readers }
    ensures ascending { IfOk result (λ cursor. IsAscending cursor.rest) }
    ensures found { (schema : List SchemaEntry) (num_docs : ℕ) (tokens : List IndexToken) → IndexHolds schema num_docs index.now tokens → range.prefix.field < length schema
        → IfOk result (λ cursor. (doc : ℕ) → has_doc cursor.rest doc ≡ list_any (λ t. (t.doc == doc) && (t.field == range.prefix.field) && in_range range t.key) tokens) }
    ensures memory { (schema : List SchemaEntry) (num_docs : ℕ) (tokens : List IndexToken) → IndexHolds schema num_docs index.now tokens → range.prefix.field < length schema
        → IfErr result (λ fault. fault ≡ Fault.OutOfMemory) }
{
    let query = Query::range(range);
    let found = search(alloc, index, &query);
    drop(query);
    found
}

/// A phrase of two terms within a slop finds exactly the documents with a token of the first term, and one of the
/// second at most `slop` positions before or after the one that follows it, in ascending order. Both are keys of texts,
/// of fields with positions. Where the index holds tokens, this fails only with `OutOfMemory`.
#[tactic(auto, using(crate::proofs::SearchingLaws::found_ascend))]
pub fn phrases_find_what_is_near(
    alloc: Global,
    index: &OpenIndex,
    first: Term,
    second: Term,
    slop: u32,
) -> Result<QueryCursor<TermOrPhrase<SegmentPostings>>, Fault>
    requires first { first.field < length index.now.readers }
    requires second { second.field < length index.now.readers }
    ensures ascending { IfOk result (λ cursor. IsAscending cursor.rest) }
    ensures found { (schema : List SchemaEntry) (num_docs : ℕ) (tokens : List IndexToken) → IndexHolds schema num_docs index.now tokens → KeepPositions schema first second → AreTexts tokens first second
        → IfOk result (λ cursor. (doc : ℕ) → has_doc cursor.rest doc
        ≡ list_any (λ t. is_token_of first doc t && list_any (λ u. is_token_of second doc u && (nat_le (t.position + 1) (u.position + slop) && nat_le u.position (t.position + 1 + slop))) tokens) tokens) }
    ensures memory { (schema : List SchemaEntry) (num_docs : ℕ) (tokens : List IndexToken) → IndexHolds schema num_docs index.now tokens → KeepPositions schema first second
        → IfErr result (λ fault. fault ≡ Fault.OutOfMemory) }
{
    let mut others = Vec::new(alloc);
    others.push(PhraseTerm {
        distance: 1,
        term: second,
    })?;
    let query = Query::Phrase(first, others, slop);
    let found = search(alloc, index, &query);
    drop(query);
    found
}

/// A phrase of a term and a prefix finds exactly the documents with a token of the term, and one at the next position
/// whose key starts with the prefix, in ascending order. The tokens in both fields are of texts, and both fields keep
/// positions. Where the index holds tokens, this fails only with `OutOfMemory`.
#[tactic(auto, using(crate::proofs::SearchingLaws::found_ascend))]
pub fn phrases_with_a_prefix_find_what_starts_with_it(
    alloc: Global,
    index: &OpenIndex,
    first: Term,
    prefix: Term,
) -> Result<QueryCursor<TermOrPhrase<SegmentPostings>>, Fault>
    requires first { first.field < length index.now.readers }
    requires prefix { prefix.field < length index.now.readers }
    ensures ascending { IfOk result (λ cursor. IsAscending cursor.rest) }
    ensures found { (schema : List SchemaEntry) (num_docs : ℕ) (tokens : List IndexToken) → IndexHolds schema num_docs index.now tokens → KeepPositions schema first prefix → HaveTexts tokens first prefix
        → IfOk result (λ cursor. (doc : ℕ) → has_doc cursor.rest doc
        ≡ list_any (λ t. is_token_of first doc t && list_any (λ u. (u.doc == doc) && (u.field == prefix.field) && starts_with nat_eq u.key prefix.value && (u.position == t.position + 1)) tokens) tokens) }
    ensures memory { (schema : List SchemaEntry) (num_docs : ℕ) (tokens : List IndexToken) → IndexHolds schema num_docs index.now tokens → KeepPositions schema first prefix
        → IfErr result (λ fault. fault ≡ Fault.OutOfMemory) }
{
    let query = Query::phrase_prefix(PhrasePrefix {
        first,
        others: Vec::new(alloc),
        distance: 1,
        last: TermRange::with_prefix(prefix),
    });
    let found = search(alloc, index, &query);
    drop(query);
    found
}

/// Each cursor of a search has decoded at most as many blocks of its term's list as it has reached.
#[tactic(auto, using(crate::proofs::DecodesLaws::few_are_told))]
pub fn searches_decode_no_block_twice(
    alloc: Global,
    index: &OpenIndex,
    query: &Query,
) -> Result<QueryCursor<TermOrPhrase<SegmentPostings>>, Fault>
    requires fields { has_fields (length index.now.readers) query.now ≡ true }
    ensures few { IfOk result (λ cursor. AllByRecursion HaveDecodedFew cursor.cursors) }
{
    search(alloc, index, query)
}

/// After the search advances to the next match, this still holds.
#[tactic(auto, using(crate::proofs::DecodesLaws::few_go_on))]
pub fn next_matches_decode_no_block_twice(
    cursor: &mut QueryCursor<TermOrPhrase<SegmentPostings>>,
) -> DocId
    requires few { AllByRecursion HaveDecodedFew cursor.old.cursors }
    ensures few { AllByRecursion HaveDecodedFew cursor.new.cursors }
{
    cursor.advance()
}

/// After the search seeks among the matches, this still holds.
#[tactic(auto, using(crate::proofs::DecodesLaws::few_go_on))]
pub fn sought_matches_decode_no_block_twice(
    cursor: &mut QueryCursor<TermOrPhrase<SegmentPostings>>,
    target: DocId,
) -> DocId
    requires target { IsTarget target cursor.old.rest }
    requires few { AllByRecursion HaveDecodedFew cursor.old.cursors }
    ensures few { AllByRecursion HaveDecodedFew cursor.new.cursors }
{
    cursor.seek(target)
}

/// The `n` documents with the greatest counts: fewer if fewer remain. Each is a remaining document with its
/// count, and no other remaining document has a greater count than one of them. The cursor is then at its end.
pub fn most_frequent_documents_are_found(
    alloc: Global,
    cursor: &mut SegmentPostings,
    n: usize,
) -> Result<Vec<(DocId, u32)>, Fault>
    ensures many { IfOk result (λ best. length best.items ≡ min n (length cursor.old.rest)) }
    ensures remained { IfOk result (λ best. AllByRecursion (λ (b : ℕ × ℕ). (e : Entry) × Contains cursor.old.rest e × ((e.doc, e.term_freq) ≡ b)) best.items) }
    ensures greatest { IfOk result (λ best. (e : Entry) → Contains cursor.old.rest e → Contains best.items (e.doc, e.term_freq) ⊎ AllByRecursion (λ (b : ℕ × ℕ). e.term_freq ≤ b.1) best.items) }
    ensures ends { OnOk result (cursor.new.rest ≡ []) }
    ensures memory { IfErr result (λ fault. fault ≡ Fault.OutOfMemory) }
{
    let best = top_by_count(alloc, cursor, n)?;
    Ok(best)
}

/// So only blocks after the current one are decoded, each at most once, and none if `n` of the remaining documents before
/// it have counts that its bound doesn't exceed.
pub fn hopeless_blocks_are_not_decoded(
    alloc: Global,
    cursor: &mut SegmentPostings,
    n: usize,
) -> Result<Vec<(DocId, u32)>, Fault>
    ensures each_docs { DecodesNoneTwice cursor.old.block cursor.new.block cursor.old.doc_blocks cursor.new.doc_blocks }
    ensures each_counts { DecodesNoneTwice cursor.old.block cursor.new.block cursor.old.freq_blocks cursor.new.freq_blocks }
    ensures hopeful_docs { (i : ℕ) → length cursor.old.doc_blocks ≤ i → i < length cursor.new.doc_blocks → is_hopeless_block n cursor.old (slice_index cursor.new.doc_blocks i) ≡ false }
    ensures hopeful_counts { (i : ℕ) → length cursor.old.freq_blocks ≤ i → i < length cursor.new.freq_blocks → is_hopeless_block n cursor.old (slice_index cursor.new.freq_blocks i) ≡ false }
    ensures once { cursor.new.doc_decodes + cursor.old.block ≤ cursor.old.doc_decodes + cursor.new.block }
    ensures docs { cursor.new.doc_decodes ≤ cursor.old.doc_decodes + hopeful_blocks n cursor.old cursor.new.block }
    ensures freqs { cursor.new.freq_decodes ≤ cursor.old.freq_decodes + hopeful_blocks n cursor.old cursor.new.block }
{
    top_by_count(alloc, cursor, n)
}
