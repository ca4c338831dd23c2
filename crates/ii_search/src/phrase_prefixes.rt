ghost use Rattle.std.specs.Prelude.{◌≡◌, ◌<◌, List, Ok, Some, ℕ, IfErr, IfOk, OnOk, length, map, nat_lt, true};
ghost use Rattle.std.specs.List.{list_all};
ghost use Rattle.ii_base.specs.declared.schema.index_record_option.IndexRecordOption.TheVariants.{WithFreqsAndPositions};
ghost use Rattle.ii_io.specs.Faults.{OnlyMemory};
ghost use Rattle.ii_query.specs.BitSet.{docs_of_set};
ghost use Rattle.ii_query.specs.Combined.{union_of};
ghost use Rattle.ii_query.specs.Phrase.{parts_in};
ghost use Rattle.ii_query.specs.SloppyPhrase.{sloppy_docs};
ghost use Rattle.ii_query_parser.specs.Queries.{others_with, phrase_is_within};
ghost use Rattle.ii_query_parser.specs.Ranges.{in_range};
ghost use Rattle.ii_reader.specs.InvertedIndexReader.{IsRefusal};
ghost use Rattle.ii_search.specs.Found.{combined_lists, docs_under, phrase_parts_of, phrase_prefix_lists, phrase_with};
ghost use Rattle.ii_search.specs.PhrasePrefixes.{AreOpened, IsOpened, part_of};
ghost use Rattle.ii_search.specs.Ranges.{AddsIfInRange, AddsList};

use crate::searching::postings_of;
use ii_base::{Fault, IndexRecordOption};
use ii_docset::DocSet;
use ii_query::{BitSet, PhrasePart, SloppyPhraseMatch};
use ii_query_parser::{PhrasePrefix, PhraseTerm};
use ii_reader::{InvertedIndexReader, OpenIndex, SegmentPostings};
use std::alloc::Global;

// The cursors of the terms of a phrase before its last one, at their first documents. They are opened once, when a key
// is in the range, and cloned for each key.
#[derive(Drop)]
pub(crate) struct OpenedTerms {
    first: SegmentPostings,
    others: Vec<OpenedTerm>,
}

// The cursor of a term of a phrase after the first one.
#[derive(Drop)]
pub(crate) struct OpenedTerm {
    distance: u32,
    cursor: SegmentPostings,
}

// Returns the documents of a phrase whose last term is one of a range.
pub(crate) fn docs_of_phrases(
    alloc: Global,
    index: &OpenIndex,
    phrase: &PhrasePrefix,
) -> Result<BitSet, Fault>
    requires fields { phrase_is_within (length index.now.readers) phrase.now.first (others_with phrase.now phrase.now.last.prefix.value) ≡ true }
    ensures listed { IfOk result (λ docs. combined_lists union_of (phrase_prefix_lists index.now phrase.now) ≡ Ok (docs_of_set docs)) }
    ensures refused { IfErr result (IsRefusal (combined_lists union_of (phrase_prefix_lists index.now phrase.now))) }
{
    let terms = index.reader(phrase.last.prefix.field()).terms();
    let mut docs = BitSet::new(alloc);
    let mut opened = None;
    for ord in 0..terms.num_terms() {
        let key = terms.key(ord as u64);
        if let Err(fault) = add_if_in_range(alloc, index, phrase, key, &mut opened, &mut docs) {
            return Err(fault);
        }
    }
    Ok(docs)
}

// Adds the documents of a phrase whose last term has a key, if the range has the key.
#[tactic(auto, using(ii_query_parser::proofs::PhrasePrefixLemmas::fields_of_each))]
fn add_if_in_range(
    alloc: Global,
    index: &OpenIndex,
    phrase: &PhrasePrefix,
    key: &[u8],
    opened: &mut Option<OpenedTerms>,
    docs: &mut BitSet,
) -> Result<(), Fault>
    requires fields { phrase_is_within (length index.now.readers) phrase.now.first (others_with phrase.now phrase.now.last.prefix.value) ≡ true }
    requires opened { AreOpened index.now phrase.now opened.old }
    ensures added { OnOk result (AddsIfInRange (phrase_with index.now phrase.now key.now) (in_range phrase.now.last key.now) docs.old docs.new) }
    ensures opened { OnOk result (AreOpened index.now phrase.now opened.new) }
    ensures refused { IfErr result (λ fault. (in_range phrase.now.last key.now ≡ true) × IsRefusal (phrase_with index.now phrase.now key.now) fault) }
{
    if !phrase.last.contains(key) {
        return Ok(());
    }
    let terms = match open_once(alloc, index, phrase, opened.take()) {
        Ok(terms) => terms,
        Err(fault) => return Err(fault),
    };
    let added = add_phrase(alloc, index, phrase, &terms, key, docs);
    *opened = Some(terms);
    added
}

// Opens the terms of a phrase before its last one, unless they are open.
fn open_once(
    alloc: Global,
    index: &OpenIndex,
    phrase: &PhrasePrefix,
    opened: Option<OpenedTerms>,
) -> Result<OpenedTerms, Fault>
    requires fields { phrase_is_within (length index.now.readers) phrase.now.first (others_with phrase.now phrase.now.last.prefix.value) ≡ true }
    requires opened { AreOpened index.now phrase.now opened }
    ensures opened { IfOk result (IsOpened index.now phrase.now) }
    ensures refused { IfErr result (λ fault. (key : List ℕ) → IsRefusal (phrase_with index.now phrase.now key) fault) }
{
    match opened {
        Some(terms) => Ok(terms),
        None => open_terms(alloc, index, phrase),
    }
}

// Opens the terms of a phrase before its last one.
#[tactic(auto, using(ii_query_parser::proofs::PhrasePrefixLemmas::fields_of_each))]
fn open_terms(alloc: Global, index: &OpenIndex, phrase: &PhrasePrefix) -> Result<OpenedTerms, Fault>
    requires fields { phrase_is_within (length index.now.readers) phrase.now.first (others_with phrase.now phrase.now.last.prefix.value) ≡ true }
    ensures opened { IfOk result (IsOpened index.now phrase.now) }
    ensures refused { IfErr result (λ fault. (key : List ℕ) → IsRefusal (phrase_with index.now phrase.now key) fault) }
{
    let first = match postings_of(
        index,
        &phrase.first,
        IndexRecordOption::WithFreqsAndPositions,
    ) {
        Ok(first) => first,
        Err(fault) => return Err(fault),
    };
    match open_others(alloc, index, &phrase.others) {
        Ok(others) => Ok(OpenedTerms { first, others }),
        Err(fault) => {
            drop(first);
            Err(fault)
        }
    }
}

// Opens the other terms of a phrase.
fn open_others(
    alloc: Global,
    index: &OpenIndex,
    others: &[PhraseTerm],
) -> Result<Vec<OpenedTerm>, Fault>
    requires others { list_all (λ o. nat_lt o.term.field (length index.now.readers)) others.now ≡ true }
    ensures listed { IfOk result (λ terms. phrase_parts_of index.now others.now ≡ Ok (map part_of terms.items)) }
    ensures refused { IfErr result (IsRefusal (phrase_parts_of index.now others.now)) }
{
    let mut terms = Vec::new(alloc);
    for other in others {
        let cursor = match postings_of(
            index,
            &other.term,
            IndexRecordOption::WithFreqsAndPositions,
        ) {
            Ok(cursor) => cursor,
            Err(fault) => return Err(fault),
        };
        terms.push(OpenedTerm {
            distance: other.distance,
            cursor,
        })?;
    }
    Ok(terms)
}

// Adds the documents of a phrase whose last term has a key, given the opened terms before it.
fn add_phrase(
    alloc: Global,
    index: &OpenIndex,
    phrase: &PhrasePrefix,
    terms: &OpenedTerms,
    key: &[u8],
    docs: &mut BitSet,
) -> Result<(), Fault>
    requires last { phrase.now.last.prefix.field < length index.now.readers }
    requires opened { IsOpened index.now phrase.now terms.now }
    ensures added { OnOk result (AddsList (phrase_with index.now phrase.now key.now) docs.old docs.new) }
    ensures refused { IfErr result (IsRefusal (phrase_with index.now phrase.now key.now)) }
{
    let mut cursor = match phrase_with(alloc, index, phrase, terms, key) {
        Ok(cursor) => cursor,
        Err(fault) => return Err(fault),
    };
    // that documents ascend, for the proof
    let _first = cursor.doc();
    let added = docs.insert_all(&mut cursor);
    drop(cursor);
    added
}

// Returns a cursor over the documents of a phrase whose last term has a key, given the opened terms before it.
fn phrase_with(
    alloc: Global,
    index: &OpenIndex,
    phrase: &PhrasePrefix,
    terms: &OpenedTerms,
    key: &[u8],
) -> Result<SloppyPhraseMatch<SegmentPostings>, Fault>
    requires last { phrase.now.last.prefix.field < length index.now.readers }
    requires opened { IsOpened index.now phrase.now terms.now }
    ensures listed { IfOk result (λ cursor. phrase_with index.now phrase.now key.now ≡ Ok (sloppy_docs cursor.slop cursor.phrase.first cursor.phrase.others)) }
    ensures refused { IfErr result (IsRefusal (phrase_with index.now phrase.now key.now)) }
{
    let others = match parts_with(alloc, index, phrase, &terms.others, key) {
        Ok(others) => others,
        Err(fault) => return Err(fault),
    };
    match terms.first.clone() {
        Ok(first) => Ok(SloppyPhraseMatch::new(first, others, 0)),
        Err(fault) => {
            drop(others);
            Err(fault)
        }
    }
}

// Returns cursors over the documents of the other terms of a phrase whose last term has a key, given those before it.
fn parts_with(
    alloc: Global,
    index: &OpenIndex,
    phrase: &PhrasePrefix,
    others: &[OpenedTerm],
    key: &[u8],
) -> Result<Vec<PhrasePart<SegmentPostings>>, Fault>
    requires others { phrase_parts_of index.now phrase.now.others.items ≡ Ok (map part_of others.now) }
    requires last { phrase.now.last.prefix.field < length index.now.readers }
    ensures listed { IfOk result (λ parts. phrase_parts_of index.now (others_with phrase.now key.now) ≡ Ok (parts_in parts.items)) }
    ensures refused { IfErr result (IsRefusal (phrase_parts_of index.now (others_with phrase.now key.now))) }
{
    let mut parts = match cloned_parts(alloc, others) {
        Ok(parts) => parts,
        Err(fault) => return Err(fault),
    };
    let reader = index.reader(phrase.last.prefix.field());
    let last = match postings_of_key(reader, key) {
        Ok(last) => last,
        Err(fault) => {
            drop(parts);
            return Err(fault);
        }
    };
    parts.push(PhrasePart::new(phrase.distance, last))?;
    Ok(parts)
}

// Clones the cursors of the other terms of a phrase.
fn cloned_parts(
    alloc: Global,
    terms: &[OpenedTerm],
) -> Result<Vec<PhrasePart<SegmentPostings>>, Fault>
    ensures parts { IfOk result (λ parts. parts_in parts.items ≡ map part_of terms.now) }
    ensures only { OnlyMemory result }
{
    let mut parts = Vec::new(alloc);
    for term in terms {
        let cursor = term.cursor.clone()?;
        parts.push(PhrasePart::new(term.distance, cursor))?;
    }
    Ok(parts)
}

// Returns a cursor over the postings of a key with positions; over no documents if the field doesn't have the key.
fn postings_of_key(reader: &InvertedIndexReader, key: &[u8]) -> Result<SegmentPostings, Fault>
    ensures listed { IfOk result (λ cursor. docs_under WithFreqsAndPositions key.now (Some reader.now) ≡ Ok cursor.rest) }
    ensures refused { IfErr result (IsRefusal (docs_under WithFreqsAndPositions key.now (Some reader.now))) }
{
    let Some(info) = reader.terms().get(key) else {
        return Ok(SegmentPostings::empty());
    };
    reader.read_postings_from_terminfo(&info, IndexRecordOption::WithFreqsAndPositions)
}
