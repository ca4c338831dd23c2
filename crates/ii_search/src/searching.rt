ghost use Rattle.std.specs.Prelude.{◌≡◌, ◌<◌, ℕ, List, Ok, IfErr, IfOk, length, nat_lt, slice_get, true};
ghost use Rattle.std.specs.List.{AllByRecursion, list_all};
ghost use Rattle.ii_base.specs.declared.schema.index_record_option.IndexRecordOption.TheVariants.{Basic, WithFreqsAndPositions};
ghost use Rattle.ii_base.specs.Schema.{SchemaEntry};
ghost use Rattle.ii_docset.specs.Cursor.{IsSound};
ghost use Rattle.ii_base.specs.Entries.{Entry};
ghost use Rattle.ii_definitions.specs.Tokens.{IndexToken};
ghost use Rattle.ii_reader.specs.InvertedIndexReader.{IsRefusal};
ghost use Rattle.ii_reader.specs.OpenIndex.{IndexHolds};
ghost use Rattle.ii_query.specs.Phrase.{cursors_in, parts_in};
ghost use Rattle.ii_io.specs.Faults.{OnlyMemory};
ghost use Rattle.ii_query.specs.Combined.{intersection_of, union_of, without};
ghost use Rattle.ii_query.specs.QueryCursor.{cursors_under, rests};
ghost use Rattle.ii_search.specs.Decodes.{DecodesFew, EachDecodesFew};
ghost use Rattle.ii_search.specs.Found.{GivesCount, GivesMatches, combined, combined_lists, docs_of_term, found_in, lists_found, phrase_of, phrase_parts_of, phrase_prefix_lists, range_lists};
ghost use Rattle.ii_query_parser.specs.Queries.{has_fields, keeps_positions, others_with, phrase_is_within, trees_of};

use crate::phrase_prefixes::docs_of_phrases;
use crate::ranges::docs_in_range;
use ii_base::{Fault, IndexRecordOption, Term};
use ii_docset::DocSet;
use ii_query::{PhrasePart, QueryCursor, SloppyPhraseMatch, TermOrPhrase};
use ii_query_parser::{PhrasePrefix, PhraseTerm, Query, TermRange};
use ii_reader::{OpenIndex, SegmentPostings};
use std::alloc::Global;

/// Returns a cursor over the documents that match a query, in ascending order. Each term's field must be a
/// field of the index (see `Query::has_fields`). Phrases over fields without positions match nothing (see
/// `Query::keeps_positions`). The documents of a range of terms, and of a phrase whose last term is one of a range,
/// are collected when the search is opened, in a set of one bit for each document of the index. The stack that a search
/// needs depends on how deep the query is nested, not on how many clauses it has.
///
/// # Errors
///
/// `Damaged` with the first corrupt part of a term, of the terms in the order of the query; `OutOfMemory` if
/// the cursor can't be allocated, or the files' buffer can't be shared once more.
pub fn search(
    alloc: Global,
    index: &OpenIndex,
    query: &Query,
) -> Result<QueryCursor<TermOrPhrase<SegmentPostings>>, Fault>
    requires fields { has_fields (length index.now.readers) query.now ≡ true }
    ensures sound { IfOk result (λ cursor. IsSound cursor.rest) }
    ensures listed { IfOk result (λ cursor. found_in index.now query.now ≡ Ok cursor.rest) }
    ensures lazy { IfOk result (λ cursor. AllByRecursion EachDecodesFew cursor.cursors) }
    ensures refused { IfErr result (IsRefusal (found_in index.now query.now)) }
    // where the index holds tokens
    ensures holds { (schema : List SchemaEntry) (num_docs : ℕ) (tokens : List IndexToken) → IndexHolds schema num_docs index.now tokens
        → has_fields (length schema) query.now ≡ true → keeps_positions schema query.now ≡ true → GivesMatches query.now tokens result }
{
    match find(alloc, index, query) {
        Ok(cursor) => {
            // that documents ascend, for the proof
            let _first = cursor.doc();
            Ok(cursor)
        }
        Err(fault) => Err(fault),
    }
}

/// Returns how many documents match a query. See `search` for the requirements and the errors.
pub fn count(alloc: Global, index: &OpenIndex, query: &Query) -> Result<u32, Fault>
    requires fields { has_fields (length index.now.readers) query.now ≡ true }
    ensures listed { IfOk result (λ count. (es : List Entry) × (found_in index.now query.now ≡ Ok es) × (count ≡ length es)) }
    ensures refused { IfErr result (IsRefusal (found_in index.now query.now)) }
    // where the index holds tokens
    ensures holds { (schema : List SchemaEntry) (num_docs : ℕ) (tokens : List IndexToken) → IndexHolds schema num_docs index.now tokens
        → has_fields (length schema) query.now ≡ true → keeps_positions schema query.now ≡ true → GivesCount query.now tokens result }
{
    match search(alloc, index, query) {
        Ok(mut cursor) => Ok(cursor.count_including_deleted()),
        Err(fault) => Err(fault),
    }
}

// Returns a cursor over the documents of a query. It recurses once for each level of nesting.
#[cycle(find)]
#[tactic(auto, using(ii_query_parser::proofs::QueryLemmas::term_fields, ii_query_parser::proofs::QueryLemmas::phrase_fields, ii_query_parser::proofs::QueryLemmas::phrase_prefix_fields, ii_query_parser::proofs::QueryLemmas::range_fields, ii_query_parser::proofs::QueryLemmas::and_not_fields))]
fn find(
    alloc: Global,
    index: &OpenIndex,
    query: &Query,
) -> Result<QueryCursor<TermOrPhrase<SegmentPostings>>, Fault>
    requires fields { has_fields (length index.now.readers) query.now ≡ true }
    ensures listed { IfOk result (λ cursor. found_in index.now query.now ≡ Ok cursor.rest) }
    ensures lazy { IfOk result (λ cursor. AllByRecursion EachDecodesFew cursor.cursors) }
    ensures refused { IfErr result (IsRefusal (found_in index.now query.now)) }
{
    match query {
        Query::Empty => Ok(QueryCursor::nothing()),
        Query::All(num_docs) => Ok(QueryCursor::all(*num_docs)),
        Query::Term(term) => find_term(index, term),
        Query::Phrase(first, others, slop) => find_phrase(alloc, index, first, others, *slop),
        Query::PhrasePrefix(phrase) => find_phrase_prefix(alloc, index, phrase),
        Query::Range(range) => find_range(alloc, index, range),
        Query::And(queries) => find_all(alloc, index, queries),
        Query::Or(queries) => find_any(alloc, index, queries),
        Query::AndNot(first, other) => match find_boxed(alloc, index, first) {
            Ok(first) => find_without(alloc, index, first, other),
            Err(fault) => Err(fault),
        },
    }
}

// Returns a cursor over the documents that match each of the queries. Each kind of query has a function of its
// own, so that a level of nesting takes little of the stack.
#[cycle(find)]
#[inline(never)]
fn find_all(
    alloc: Global,
    index: &OpenIndex,
    queries: &Vec<Query>,
) -> Result<QueryCursor<TermOrPhrase<SegmentPostings>>, Fault>
    requires fields { list_all (has_fields (length index.now.readers)) queries.now.items ≡ true }
    ensures listed { IfOk result (λ cursor. combined_lists intersection_of (lists_found index.now (trees_of queries.now.items)) ≡ Ok cursor.rest) }
    ensures lazy { IfOk result (λ cursor. AllByRecursion EachDecodesFew cursor.cursors) }
    ensures refused { IfErr result (IsRefusal (combined_lists intersection_of (lists_found index.now (trees_of queries.now.items)))) }
{
    match find_each(alloc, index, queries) {
        Ok(cursors) => QueryCursor::intersection(alloc, cursors),
        Err(fault) => Err(fault),
    }
}

// Returns a cursor over the documents that match one of the queries or more.
#[cycle(find)]
#[inline(never)]
fn find_any(
    alloc: Global,
    index: &OpenIndex,
    queries: &Vec<Query>,
) -> Result<QueryCursor<TermOrPhrase<SegmentPostings>>, Fault>
    requires fields { list_all (has_fields (length index.now.readers)) queries.now.items ≡ true }
    ensures listed { IfOk result (λ cursor. combined_lists union_of (lists_found index.now (trees_of queries.now.items)) ≡ Ok cursor.rest) }
    ensures lazy { IfOk result (λ cursor. AllByRecursion EachDecodesFew cursor.cursors) }
    ensures refused { IfErr result (IsRefusal (combined_lists union_of (lists_found index.now (trees_of queries.now.items)))) }
{
    match find_each(alloc, index, queries) {
        Ok(cursors) => QueryCursor::union(alloc, cursors),
        Err(fault) => Err(fault),
    }
}

// Returns the cursor of a query on the heap, which takes less of the stack.
#[cycle(find)]
#[inline(never)]
fn find_boxed(
    alloc: Global,
    index: &OpenIndex,
    query: &Query,
) -> Result<Box<QueryCursor<TermOrPhrase<SegmentPostings>>>, Fault>
    requires fields { has_fields (length index.now.readers) query.now ≡ true }
    ensures listed { IfOk result (λ cursor. found_in index.now query.now ≡ Ok cursor.value.rest) }
    ensures lazy { IfOk result (λ cursor. AllByRecursion EachDecodesFew cursor.value.cursors) }
    ensures refused { IfErr result (IsRefusal (found_in index.now query.now)) }
{
    match find(alloc, index, query) {
        Ok(cursor) => Ok(Box::new(alloc, cursor)?),
        Err(fault) => Err(fault),
    }
}

// Returns a cursor over the documents of `first` that don't match `other`.
#[cycle(find)]
#[inline(never)]
fn find_without(
    alloc: Global,
    index: &OpenIndex,
    first: Box<QueryCursor<TermOrPhrase<SegmentPostings>>>,
    other: &Query,
) -> Result<QueryCursor<TermOrPhrase<SegmentPostings>>, Fault>
    requires fields { has_fields (length index.now.readers) other.now ≡ true }
    ensures listed { IfOk result (λ cursor. combined without (Ok first.value.rest) (found_in index.now other.now) ≡ Ok cursor.rest) }
    ensures lazy { AllByRecursion EachDecodesFew first.value.cursors → IfOk result (λ cursor. AllByRecursion EachDecodesFew cursor.cursors) }
    ensures refused { IfErr result (IsRefusal (combined without (Ok first.value.rest) (found_in index.now other.now))) }
{
    match find_boxed(alloc, index, other) {
        Ok(other) => without_of(alloc, first, other),
        Err(fault) => {
            drop(first);
            Err(fault)
        }
    }
}

// Returns a cursor over the documents of `first` that `other` doesn't have.
#[inline(never)]
fn without_of(
    alloc: Global,
    first: Box<QueryCursor<TermOrPhrase<SegmentPostings>>>,
    other: Box<QueryCursor<TermOrPhrase<SegmentPostings>>>,
) -> Result<QueryCursor<TermOrPhrase<SegmentPostings>>, Fault>
    ensures rest { IfOk result (λ cursor. cursor.rest ≡ without first.value.rest other.value.rest) }
    ensures lazy { AllByRecursion EachDecodesFew first.value.cursors → AllByRecursion EachDecodesFew other.value.cursors
        → IfOk result (λ cursor. AllByRecursion EachDecodesFew cursor.cursors) }
    ensures only { OnlyMemory result }
{
    QueryCursor::without(alloc, Box::into_inner(first), Box::into_inner(other))
}

// Returns a cursor for each query.
#[cycle(find)]
#[inline(never)]
fn find_each(
    alloc: Global,
    index: &OpenIndex,
    queries: &Vec<Query>,
) -> Result<Vec<QueryCursor<TermOrPhrase<SegmentPostings>>>, Fault>
    requires fields { list_all (has_fields (length index.now.readers)) queries.now.items ≡ true }
    ensures listed { IfOk result (λ cursors. lists_found index.now (trees_of queries.now.items) ≡ Ok (rests cursors.items)) }
    ensures lazy { IfOk result (λ cursors. AllByRecursion EachDecodesFew (cursors_under cursors.items)) }
    ensures refused { IfErr result (IsRefusal (lists_found index.now (trees_of queries.now.items))) }
{
    let mut cursors = Vec::new(alloc);
    for query in queries {
        let cursor = match find(alloc, index, query) {
            Ok(cursor) => cursor,
            Err(fault) => return Err(fault),
        };
        cursors.push(cursor)?;
    }
    Ok(cursors)
}

// Returns a cursor over the documents of a term.
#[inline(never)]
fn find_term(
    index: &OpenIndex,
    term: &Term,
) -> Result<QueryCursor<TermOrPhrase<SegmentPostings>>, Fault>
    requires field { term.now.field < length index.now.readers }
    ensures listed { IfOk result (λ cursor. docs_of_term Basic index.now term.now ≡ Ok cursor.rest) }
    ensures lazy { IfOk result (λ cursor. AllByRecursion EachDecodesFew cursor.cursors) }
    ensures refused { IfErr result (IsRefusal (docs_of_term Basic index.now term.now)) }
{
    match postings_of(index, term, IndexRecordOption::Basic) {
        Ok(cursor) => Ok(QueryCursor::one(TermOrPhrase::Term(cursor))),
        Err(fault) => Err(fault),
    }
}

// Returns a cursor over the documents of a phrase within a slop.
#[inline(never)]
fn find_phrase(
    alloc: Global,
    index: &OpenIndex,
    first: &Term,
    others: &[PhraseTerm],
    slop: u32,
) -> Result<QueryCursor<TermOrPhrase<SegmentPostings>>, Fault>
    requires first { first.now.field < length index.now.readers }
    requires others { list_all (λ o. nat_lt o.term.field (length index.now.readers)) others.now ≡ true }
    ensures listed { IfOk result (λ cursor. phrase_of slop (docs_of_term WithFreqsAndPositions index.now first.now) (phrase_parts_of index.now others.now) ≡ Ok cursor.rest) }
    ensures lazy { IfOk result (λ cursor. AllByRecursion EachDecodesFew cursor.cursors) }
    ensures refused { IfErr result (IsRefusal (phrase_of slop (docs_of_term WithFreqsAndPositions index.now first.now) (phrase_parts_of index.now others.now))) }
{
    let first = match postings_of(index, first, IndexRecordOption::WithFreqsAndPositions) {
        Ok(first) => first,
        Err(fault) => return Err(fault),
    };
    match phrase_parts(alloc, index, others) {
        Ok(others) => Ok(QueryCursor::one(TermOrPhrase::Phrase(SloppyPhraseMatch::new(
            first, others, slop,
        )))),
        Err(fault) => {
            drop(first);
            Err(fault)
        }
    }
}

// Returns a cursor over the documents of a phrase whose last term is one of a range, which are collected in a set.
#[inline(never)]
fn find_phrase_prefix(
    alloc: Global,
    index: &OpenIndex,
    phrase: &PhrasePrefix,
) -> Result<QueryCursor<TermOrPhrase<SegmentPostings>>, Fault>
    requires fields { phrase_is_within (length index.now.readers) phrase.now.first (others_with phrase.now phrase.now.last.prefix.value) ≡ true }
    ensures listed { IfOk result (λ cursor. combined_lists union_of (phrase_prefix_lists index.now phrase.now) ≡ Ok cursor.rest) }
    ensures lazy { IfOk result (λ cursor. AllByRecursion EachDecodesFew cursor.cursors) }
    ensures refused { IfErr result (IsRefusal (combined_lists union_of (phrase_prefix_lists index.now phrase.now))) }
{
    match docs_of_phrases(alloc, index, phrase) {
        Ok(docs) => Ok(QueryCursor::set(docs)),
        Err(fault) => Err(fault),
    }
}

// Returns a cursor over the documents of the terms in a range, which are collected in a set.
#[inline(never)]
fn find_range(
    alloc: Global,
    index: &OpenIndex,
    range: &TermRange,
) -> Result<QueryCursor<TermOrPhrase<SegmentPostings>>, Fault>
    requires field { range.now.prefix.field < length index.now.readers }
    ensures listed { IfOk result (λ cursor. combined_lists union_of (range_lists range.now (slice_get index.now.readers range.now.prefix.field)) ≡ Ok cursor.rest) }
    ensures lazy { IfOk result (λ cursor. AllByRecursion EachDecodesFew cursor.cursors) }
    ensures refused { IfErr result (IsRefusal (combined_lists union_of (range_lists range.now (slice_get index.now.readers range.now.prefix.field)))) }
{
    match docs_in_range(alloc, index.reader(range.prefix.field()), range) {
        Ok(docs) => Ok(QueryCursor::set(docs)),
        Err(fault) => Err(fault),
    }
}

// Returns cursors over the documents of the other terms of a phrase.
fn phrase_parts(
    alloc: Global,
    index: &OpenIndex,
    others: &[PhraseTerm],
) -> Result<Vec<PhrasePart<SegmentPostings>>, Fault>
    requires others { list_all (λ o. nat_lt o.term.field (length index.now.readers)) others.now ≡ true }
    ensures listed { IfOk result (λ parts. phrase_parts_of index.now others.now ≡ Ok (parts_in parts.items)) }
    ensures lazy { IfOk result (λ parts. AllByRecursion DecodesFew (cursors_in parts.items)) }
    ensures refused { IfErr result (IsRefusal (phrase_parts_of index.now others.now)) }
{
    let mut parts = Vec::new(alloc);
    for other in others {
        let cursor = match postings_of(
            index,
            &other.term,
            IndexRecordOption::WithFreqsAndPositions,
        ) {
            Ok(cursor) => cursor,
            Err(fault) => return Err(fault),
        };
        parts.push(PhrasePart::new(other.distance, cursor))?;
    }
    Ok(parts)
}

/// Returns a cursor over the postings of a term, as far as they are requested; over no documents if the field
/// doesn't have the term. The term's field must be a field of the index.
///
/// # Errors
///
/// `Damaged` with the first corrupt part of the term's list; `OutOfMemory` if the files' buffer can't be shared once
/// more.
pub fn postings_of(
    index: &OpenIndex,
    term: &Term,
    option: IndexRecordOption,
) -> Result<SegmentPostings, Fault>
    requires field { term.now.field < length index.now.readers }
    ensures listed { IfOk result (λ cursor. docs_of_term option index.now term.now ≡ Ok cursor.rest) }
    ensures lazy { IfOk result DecodesFew }
    ensures refused { IfErr result (IsRefusal (docs_of_term option index.now term.now)) }
{
    let reader = index.reader(term.field());
    match reader.read_postings(term, option) {
        Ok(Some(cursor)) => {
            // that it decoded no block twice, for the proof
            let _doc = cursor.doc();
            Ok(cursor)
        }
        Ok(None) => {
            let cursor = SegmentPostings::empty();
            let _doc = cursor.doc();
            Ok(cursor)
        }
        Err(fault) => Err(fault),
    }
}
