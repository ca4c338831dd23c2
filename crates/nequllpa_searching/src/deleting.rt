//! The documents that a delete removes, and those that other documents replace.
ghost use Rattle.std.specs.Prelude.{◌≡◌, ◌<◌, ◌&&◌, ℕ, Bool, Ok, IfErr, IfOk, List, filter, length, map};
ghost use Rattle.std.specs.List.{AllByRecursion, range_with_len};
ghost use Rattle.ii_base.specs.declared.schema.index_record_option.IndexRecordOption.TheVariants.{Basic};
ghost use Rattle.ii_base.specs.Schema.{SchemaEntry};
ghost use Rattle.ii_base.specs.Terms.{TermState};
ghost use Rattle.ii_definitions.specs.Tokens.{IndexToken};
ghost use Rattle.ii_reader.specs.InvertedIndexReader.{IsRefusal};
ghost use Rattle.ii_reader.specs.OpenIndex.{IndexHolds, OpenIndexState};
ghost use Rattle.ii_search.specs.Found.{docs_of_term};
ghost use Rattle.ii_segments.specs.Segments.{is_living};
ghost use Rattle.nequllpa_searching.specs.Deleting.{docs_in_each, docs_of_terms, docs_with_term, docs_with_terms, has_one_of, is_among, key_docs_in_each};

use crate::finding::take_docs;
use ii_alive::AliveBits;
use ii_base::{Fault, IndexRecordOption, Term};
use ii_docset::{DocId, DocSet};
use ii_reader::{OpenIndex, SegmentPostings};
use nequllpa_opening::{Opened, OpenedIndex};
use std::alloc::Global;

/// Returns the living documents that have a term, segment by segment, by their numbers in the segment, in ascending
/// order. No document has a term of a field that the index doesn't have.
///
/// Returns the first corrupt part of a list, or `OutOfMemory`.
pub fn docs_to_delete(
    alloc: Global,
    opened: &OpenedIndex,
    term: &Term,
) -> Result<Vec<Vec<DocId>>, Fault>
    ensures found { IfOk result (λ all. docs_in_each opened.now.segments.items term.now ≡ Ok (map (λ v. v.items) all.items)) }
    ensures refused { IfErr result (IsRefusal (docs_in_each opened.now.segments.items term.now)) }
{
    docs_in_each(alloc, opened.segments(), term)
}

/// Returns the living documents that have one of some terms, segment by segment, by their numbers in the segment, in
/// ascending order, each once.
///
/// Returns the first corrupt part of a list, segment by segment and there term by term, or `OutOfMemory`.
pub fn docs_with_keys(
    alloc: Global,
    opened: &OpenedIndex,
    keys: &[Term],
) -> Result<Vec<Vec<DocId>>, Fault>
    ensures found { IfOk result (λ all. key_docs_in_each opened.now.segments.items keys.now ≡ Ok (map (λ v. v.items) all.items)) }
    ensures refused { IfErr result (IsRefusal (key_docs_in_each opened.now.segments.items keys.now)) }
{
    key_docs_in_each(alloc, opened.segments(), keys)
}

// Returns the living documents of each segment that have a term.
#[tactic(auto, using(crate::proofs::QueryLemmas::refused_memory))]
fn docs_in_each(alloc: Global, segments: &[Opened], term: &Term) -> Result<Vec<Vec<DocId>>, Fault>
    ensures found { IfOk result (λ all. docs_in_each segments.now term.now ≡ Ok (map (λ v. v.items) all.items)) }
    ensures refused { IfErr result (IsRefusal (docs_in_each segments.now term.now)) }
{
    let mut all = Vec::new(alloc);
    for segment in segments {
        let docs = match docs_in(alloc, segment, term) {
            Ok(docs) => docs,
            Err(fault) => return Err(fault),
        };
        all.push(docs)?;
    }
    Ok(all)
}

// Returns the living documents of each segment that have one of some terms.
#[tactic(auto, using(crate::proofs::QueryLemmas::refused_memory))]
fn key_docs_in_each(
    alloc: Global,
    segments: &[Opened],
    terms: &[Term],
) -> Result<Vec<Vec<DocId>>, Fault>
    ensures found { IfOk result (λ all. key_docs_in_each segments.now terms.now ≡ Ok (map (λ v. v.items) all.items)) }
    ensures refused { IfErr result (IsRefusal (key_docs_in_each segments.now terms.now)) }
{
    let mut all = Vec::new(alloc);
    for segment in segments {
        let docs = match docs_with_terms(alloc, segment, terms) {
            Ok(docs) => docs,
            Err(fault) => return Err(fault),
        };
        all.push(docs)?;
    }
    Ok(all)
}

// Returns the living documents of a segment that have one of some terms, in ascending order, each once.
#[tactic(auto, using(crate::proofs::DeletingLemmas::once_refused))]
fn docs_with_terms(alloc: Global, segment: &Opened, terms: &[Term]) -> Result<Vec<DocId>, Fault>
    ensures found { IfOk result (λ docs. docs_with_terms segment.now.index segment.now.alive terms.now ≡ Ok docs.items) }
    ensures refused { IfErr result (IsRefusal (docs_with_terms segment.now.index segment.now.alive terms.now)) }
{
    match docs_of_terms(alloc, segment, terms) {
        Ok(docs) => Ok(each_once(docs)),
        Err(fault) => Err(fault),
    }
}

// Returns the living documents of a segment that have some terms, those of one term after the other.
#[tactic(auto, using(crate::proofs::DeletingLemmas::terms_first, crate::proofs::DeletingLemmas::terms_all, crate::proofs::QueryLemmas::refused_memory))]
fn docs_of_terms(alloc: Global, segment: &Opened, terms: &[Term]) -> Result<Vec<DocId>, Fault>
    ensures found { IfOk result (λ docs. docs_of_terms segment.now.index segment.now.alive terms.now ≡ Ok docs.items) }
    ensures refused { IfErr result (IsRefusal (docs_of_terms segment.now.index segment.now.alive terms.now)) }
{
    let mut docs = Vec::new(alloc);
    for term in terms {
        let found = match docs_in(alloc, segment, term) {
            Ok(found) => found,
            Err(fault) => return Err(fault),
        };
        docs.extend_from_slice(found.as_slice())?;
    }
    Ok(docs)
}

// Returns documents in ascending order, each once.
fn each_once(docs: Vec<DocId>) -> Vec<DocId>
    ensures { (n : ℕ) → AllByRecursion (λ (doc : ℕ). doc < n) docs.items → result.items ≡ filter (is_among docs.items) (range_with_len 0 n) }
{
    let mut docs = docs;
    docs.sort_unstable();
    docs.dedup();
    docs
}

// Returns the living documents of a segment that have a term.
#[tactic(auto, using(crate::proofs::DeletingLemmas::no_field))]
fn docs_in(alloc: Global, segment: &Opened, term: &Term) -> Result<Vec<DocId>, Fault>
    ensures found { IfOk result (λ docs. docs_with_term segment.now.index segment.now.alive term.now ≡ Ok docs.items) }
    ensures refused { IfErr result (IsRefusal (docs_with_term segment.now.index segment.now.alive term.now)) }
{
    let index = segment.index();
    if term.field().field_id() as usize >= segment.schema().num_fields() {
        return Ok(Vec::new(alloc));
    }
    docs_with_term(alloc, index, segment.alive(), term)
}

/// Returns the living documents of an index that have a term, in ascending order. The term's field must be one
/// of the index.
///
/// Returns the first corrupt part of the term's list, or `OutOfMemory`.
#[tactic(auto, using(crate::proofs::DeletingLemmas::term_docs_refused, crate::proofs::QueryLemmas::refused_memory))]
pub fn docs_with_term(
    alloc: Global,
    index: &OpenIndex,
    alive: &AliveBits,
    term: &Term,
) -> Result<Vec<DocId>, Fault>
    requires { term.now.field < length index.now.readers }
    ensures found { IfOk result (λ docs. docs_with_term index.now alive.now term.now ≡ Ok docs.items) }
    ensures refused { IfErr result (IsRefusal (docs_with_term index.now alive.now term.now)) }
{
    let mut cursor = match term_cursor(index, term) {
        Ok(cursor) => cursor,
        Err(fault) => return Err(fault),
    };
    // tells the prover that the documents ascend
    let _first = cursor.doc();
    let docs = take_docs(alloc, &mut cursor, alive, alive.num_docs());
    drop(cursor);
    match docs {
        Ok(docs) => Ok(docs),
        Err(fault) => Err(fault),
    }
}

// Opens a cursor over the documents of a term; it is empty if the field doesn't have the term.
fn term_cursor(index: &OpenIndex, term: &Term) -> Result<SegmentPostings, Fault>
    requires { term.now.field < length index.now.readers }
    ensures listed { IfOk result (λ cursor. docs_of_term Basic index.now term.now ≡ Ok cursor.rest) }
    ensures refused { IfErr result (IsRefusal (docs_of_term Basic index.now term.now)) }
{
    let reader = index.reader(term.field());
    match reader.read_postings(term, IndexRecordOption::Basic) {
        Ok(Some(cursor)) => Ok(cursor),
        Ok(None) => Ok(SegmentPostings::empty()),
        Err(fault) => Err(fault),
    }
}

/// Law: of an open segment that holds tokens, the documents that have one of some terms are exactly the living ones
/// that have a token of one of them.
pub fn key_docs_have_the_tokens_of_keys()
    ensures { (entries : List SchemaEntry) (n : ℕ) (index : OpenIndexState) (ts : List IndexToken) (alive : List Bool) → IndexHolds entries n index ts
        → (terms : List TermState) (docs : List ℕ) → AllByRecursion (λ (t : TermState). t.field < length entries) terms → docs_with_terms index alive terms ≡ Ok docs
        → docs ≡ filter (λ (doc : ℕ). is_living alive doc && has_one_of terms ts doc) (range_with_len 0 (length alive)) }
{}
