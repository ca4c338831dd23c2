// Segments are merged, and searched as one index.
ghost use Rattle.std.specs.Prelude.{◌≡◌, ◌<◌, ◌≤◌, ◌++◌, ◌∷◌, [], ℕ, List, true, drop, filter, if◌then◌else◌, length, map, nat_lt, take, IfErr, IfOk};
ghost use Rattle.std.specs.List.{AllByRecursion, range_with_len, sum};
ghost use Rattle.ii_docset.specs.Intersection.{has_doc};
ghost use Rattle.ii_io.specs.declared.faults.Part.{Part};
ghost use Rattle.ii_base.specs.Entries.{docs_of};
ghost use Rattle.ii_base.specs.Schema.{SchemaEntry};
ghost use Rattle.ii_segments.specs.Segments.{Segment, index_tokens, num_docs_of};
ghost use Rattle.ii_reader.specs.OpenIndex.{IndexHolds};
ghost use Rattle.ii_query_parser.specs.Queries.{has_fields, keeps_positions, matches};
ghost use Rattle.ii_living_docs.specs.Chain.{chained};
ghost use Rattle.ii_merger.specs.MergedFiles.{num_tokens_by_field};
ghost use Rattle.ii_merger.specs.MergedIndex.{MergeSourcesHold, all_living, opened_segment};
ghost use Rattle.ii_segment_search.specs.Searcher.{HaveFields, MayAsk, Reaches, SegmentsHold, living_rest};

use ii_merger::{MergeSource, merge};
use ii_ram::{
    Fault, IndexWriters, OpenIndex, Query, QueryCursor, Schema, SegmentPostings, TermOrPhrase,
    open_in_ram, search,
};
use ii_segment_search::{Searcher, SegmentsCursor};
use nequllpa_merging::first_to_merge;
use nequllpa_merging::merge_policy::{merges_settle, settled_are_few};
use std::alloc::Global;

/// Over segments that hold tokens, a query finds exactly the living documents whose tokens match it, numbered
/// one segment after the other, in ascending order. It fails only with `OutOfMemory`.
#[tactic(auto, using(crate::proofs::MergingLaws::living_are_found, crate::proofs::MergingLaws::only_memory))]
pub fn living_documents_are_found<'a>(
    alloc: Global,
    searcher: &'a Searcher,
    query: &Query,
) -> Result<SegmentsCursor<'a>, Fault>
    requires { HaveFields query.now searcher.now }
    ensures found { (entries : List SchemaEntry) (ss : List Segment) → SegmentsHold entries searcher.entry.now ss → MayAsk entries query.entry.now → Reaches query.entry.now ss
        → IfOk result (λ cursor. docs_of (chained living_rest cursor.cursors cursor.current) ≡ filter (matches query.entry.now (index_tokens ss)) (range_with_len 0 (num_docs_of ss))) }
    ensures memory { (entries : List SchemaEntry) (ss : List Segment) → SegmentsHold entries searcher.entry.now ss → MayAsk entries query.entry.now → Reaches query.entry.now ss
        → IfErr result (λ e. e ≡ Fault.OutOfMemory) }
{
    searcher.search(alloc, query)
}

/// So a query finds the same documents in segments of the same tokens, which merges of neighbours leave.
pub fn merges_change_no_answer<'a>(
    alloc: Global,
    before: &'a Searcher,
    after: &'a Searcher,
    query: &Query,
) -> Result<(SegmentsCursor<'a>, SegmentsCursor<'a>), Fault>
    requires before { HaveFields query.now before.now }
    requires after { HaveFields query.now after.now }
    ensures same { (entries : List SchemaEntry) (ss ts : List Segment) → SegmentsHold entries before.entry.now ss → SegmentsHold entries after.entry.now ts
        → index_tokens ts ≡ index_tokens ss → num_docs_of ts ≡ num_docs_of ss → MayAsk entries query.entry.now → Reaches query.entry.now ss → Reaches query.entry.now ts
        → IfOk result (λ found. docs_of (chained living_rest found.1.cursors found.1.current) ≡ docs_of (chained living_rest found.0.cursors found.0.current)) }
{
    let earlier = match before.search(alloc, query) {
        Ok(found) => found,
        Err(fault) => return Err(fault),
    };
    match after.search(alloc, query) {
        Ok(later) => Ok((earlier, later)),
        Err(fault) => Err(fault),
    }
}

/// Segments that hold tokens are merged into files that open as an index of exactly the tokens of their living
/// documents, numbered one segment after the other. No part of them is called damaged.
pub fn merged_segments_open(
    alloc: Global,
    schema: &Schema,
    sources: &[MergeSource<'_>],
    num_tokens: &[u64],
) -> Result<OpenIndex, Fault>
    requires many { length schema.now < 4294967295 }
    requires fields { AllByRecursion (λ s. length s.index.readers ≡ length schema.now) (map opened_segment sources.now) }
    requires counts { length num_tokens.now ≡ length schema.now }
    requires few { all_living (map opened_segment sources.now) ≤ 2147483647 }
    ensures holds { (ss : List Segment) → MergeSourcesHold schema.now (map opened_segment sources.now) ss → num_tokens.now ≡ num_tokens_by_field (length schema.now) (index_tokens ss)
        → IfOk result (λ index. IndexHolds schema.now (num_docs_of ss) index (index_tokens ss)) }
    ensures undamaged { (ss : List Segment) → MergeSourcesHold schema.now (map opened_segment sources.now) ss → num_tokens.now ≡ num_tokens_by_field (length schema.now) (index_tokens ss)
        → IfErr result (λ e. (part : Part) → ¬ (e ≡ Fault.Damaged part)) }
    ensures many { IfOk result (λ index. length index.readers ≡ length schema.now) }
{
    let files = IndexWriters::in_memory(alloc);
    let (files, merged) = merge(alloc, schema, sources, num_tokens, files);
    match merged {
        Ok(()) => open_in_ram(alloc, files, schema),
        Err(fault) => Err(fault),
    }
}

/// So a query finds the same documents in merged segments: exactly those of the living documents that match.
#[tactic(auto, using(crate::proofs::MergingLaws::merged_found, crate::proofs::MergingLaws::merged_fields))]
pub fn merged_segments_find_what_matches(
    alloc: Global,
    schema: &Schema,
    sources: &[MergeSource<'_>],
    num_tokens: &[u64],
    query: &Query,
) -> Result<QueryCursor<TermOrPhrase<SegmentPostings>>, Fault>
    requires many { length schema.now < 4294967295 }
    requires fields { AllByRecursion (λ s. length s.index.readers ≡ length schema.now) (map opened_segment sources.now) }
    requires counts { length num_tokens.now ≡ length schema.now }
    requires few { all_living (map opened_segment sources.now) ≤ 2147483647 }
    requires asked { has_fields (length schema.now) query.now ≡ true }
    requires positions { keeps_positions schema.now query.now ≡ true }
    ensures found { (ss : List Segment) → MergeSourcesHold schema.now (map opened_segment sources.now) ss → num_tokens.now ≡ num_tokens_by_field (length schema.now) (index_tokens ss)
        → IfOk result (λ cursor. (doc : ℕ) → has_doc cursor.rest doc ≡ matches query.now (index_tokens ss) doc) }
{
    match merged_segments_open(alloc, schema, sources, num_tokens) {
        Ok(index) => search(alloc, &index, query),
        Err(fault) => Err(fault),
    }
}

/// Once the segments from the place on that the policy gives are one, at most 32 segments are left of fewer than 2^31
/// documents.
pub fn few_segments_are_left(num_living: &[u32]) -> usize
    ensures { sum num_living.now < 2147483648 → length (if nat_lt result (length num_living.now) then take result num_living.now ++ sum (drop result num_living.now) ∷ [] else num_living.now) ≤ 32 }
{
    merges_settle();
    settled_are_few();
    first_to_merge(num_living)
}
