//! Finds the documents that match a query, and the positions of its terms in them.
ghost use Rattle.std.specs.Prelude.{◌≡◌, ◌<◌, ◌++◌, ◌∷◌, [], IfErr, IfOk, Ok, OnOk, filter, flat_map, length, map, nat_lt, take, true};
ghost use Rattle.std.specs.List.{list_all};
ghost use Rattle.std.specs.Option.{option_map};
ghost use Rattle.ii_base.specs.declared.schema.index_record_option.IndexRecordOption.TheVariants.{WithFreqsAndPositions};
ghost use Rattle.ii_base.specs.Entries.{docs_of, document};
ghost use Rattle.ii_docset.specs.Cursor.{IsAscending, from_doc};
ghost use Rattle.ii_io.specs.Faults.{OnlyMemory};
ghost use Rattle.ii_reader.specs.InvertedIndexReader.{IsRefusal};
ghost use Rattle.ii_reader.specs.OpenIndex.{all_or_first};
ghost use Rattle.ii_segments.specs.Segments.{is_living};
ghost use Rattle.ii_search.specs.Found.{docs_of_term};
ghost use Rattle.ii_query_parser.specs.Queries.{has_fields};
ghost use Rattle.nequllpa_searching.specs.Finding.{first_docs, found_places, found_view, places_view, term_places, wanted_terms};
ghost use Rattle.nequllpa_searching.specs.Positions.{positions_in_doc};

use ii_alive::AliveBits;
use ii_base::{Fault, IndexRecordOption, Term};
use ii_docset::{DocId, DocSet, Postings, SeekDangerResult, TERMINATED};
use ii_reader::{OpenIndex, SegmentPostings};
use ii_search::{PhraseTerm, Query, search};
use nequllpa_opening::is_living;
use std::alloc::Global;

/// The positions of a term in some documents.
#[derive(Drop)]
pub struct TermPositions {
    /// The positions in each document, ascending, if the field keeps any; `None` if the document doesn't have
    /// the term.
    pub positions: Vec<Option<Vec<u32>>>,
}

/// Documents found by a search.
#[derive(Drop)]
pub struct FoundPlaces {
    /// The documents, in ascending order.
    pub docs: Vec<DocId>,
    /// The positions of each term that the query wants (`wanted_terms`) in these documents.
    pub places: Vec<TermPositions>,
}

/// Returns at most `limit` living documents that match a query, and in them the positions of each term that the
/// query wants. The terms of the query must belong to fields of the index (`Query::has_fields`).
///
/// # Errors
///
/// `Damaged` with the first corrupt part that `InvertedIndexReader::read_postings` returns for a term, in the
/// order of the query; `OutOfMemory`.
#[tactic(auto, using(crate::proofs::QueryLemmas::found_all, crate::proofs::QueryLemmas::found_refused, crate::proofs::QueryLemmas::refused_memory, crate::proofs::QueryLemmas::refused_then, crate::proofs::QueryLemmas::ascend_slice))]
pub fn find_places(
    alloc: Global,
    index: &OpenIndex,
    alive: &AliveBits,
    query: &Query,
    limit: u32,
) -> Result<FoundPlaces, Fault>
    requires { has_fields (length index.now.readers) query.now ≡ true }
    ensures found { IfOk result (λ found. found_places index.now alive.now query.now limit ≡ Ok (found_view found)) }
    ensures refused { IfErr result (IsRefusal (found_places index.now alive.now query.now limit)) }
{
    let docs = match first_docs(alloc, index, alive, query, limit) {
        Ok(docs) => docs,
        Err(fault) => return Err(fault),
    };
    match places_of_query(alloc, index, query, docs.as_slice()) {
        Ok(places) => Ok(FoundPlaces { docs, places }),
        Err(fault) => Err(fault),
    }
}

/// Returns at most `limit` living documents that match a query, in ascending order. Requirements and errors are
/// those of `find_places`.
#[tactic(auto, using(crate::proofs::QueryLemmas::docs_found, crate::proofs::QueryLemmas::docs_found_ascend, crate::proofs::QueryLemmas::docs_refused, crate::proofs::QueryLemmas::refused_memory))]
pub fn first_docs(
    alloc: Global,
    index: &OpenIndex,
    alive: &AliveBits,
    query: &Query,
    limit: u32,
) -> Result<Vec<DocId>, Fault>
    requires { has_fields (length index.now.readers) query.now ≡ true }
    ensures found { IfOk result (λ docs. first_docs index.now alive.now query.now limit ≡ Ok docs.items) }
    ensures ascending { IfOk result (λ docs. IsAscending (map document docs.items)) }
    ensures refused { IfErr result (IsRefusal (first_docs index.now alive.now query.now limit)) }
{
    let mut cursor = match search(alloc, index, query) {
        Ok(cursor) => cursor,
        Err(fault) => return Err(fault),
    };
    let docs = take_docs(alloc, &mut cursor, alive, limit);
    drop(cursor);
    match docs {
        Ok(docs) => Ok(docs),
        Err(fault) => Err(fault),
    }
}

// Returns at most `limit` of the remaining documents of a cursor, those that are alive.
#[tactic(auto, using(crate::proofs::FindingLemmas::taking_first, crate::proofs::FindingLemmas::taking_next, crate::proofs::FindingLemmas::taking_ended, crate::proofs::FindingLemmas::taking_past, crate::proofs::FindingLemmas::taking_full))]
pub(crate) fn take_docs<C: DocSet>(
    alloc: Global,
    cursor: &mut C,
    alive: &AliveBits,
    limit: u32,
) -> Result<Vec<DocId>, Fault>
    ensures taken { IfOk result (λ docs. docs.items ≡ take limit (filter (is_living alive.now) (docs_of (C.rest cursor.old)))) }
    ensures only { OnlyMemory result }
{
    let mut docs = Vec::new(alloc);
    let mut doc = cursor.doc();
    while doc < TERMINATED {
        if docs.len() >= limit as usize {
            return Ok(docs);
        }
        // a query for all documents has also those past the last one
        if doc >= alive.num_docs() {
            return Ok(docs);
        }
        push_living(&mut docs, alive, doc)?;
        doc = cursor.advance();
    }
    Ok(docs)
}

// Appends a document if it is alive.
fn push_living(docs: &mut Vec<DocId>, alive: &AliveBits, doc: DocId) -> Result<(), Fault>
    ensures pushed { OnOk result (docs.new.items ≡ docs.old.items ++ filter (is_living alive.now) (doc ∷ [])) }
    ensures only { OnlyMemory result }
{
    if !is_living(alive, doc) {
        return Ok(());
    }
    docs.push(doc)?;
    Ok(())
}

/// Returns the terms that a query wants, in its order: those of its words and phrases, except excluded ones.
/// A range of terms wants none; of a phrase whose last term is one of a range, the other terms are wanted.
/// Fails only with `OutOfMemory`.
pub fn wanted_terms<'q>(alloc: Global, query: &'q Query) -> Result<Vec<&'q Term>, Fault>
    ensures wanted { IfOk result (λ terms. map (λ t. t.now) terms.items ≡ wanted_terms query.now) }
    ensures only { OnlyMemory result }
{
    let mut terms = Vec::new(alloc);
    push_terms(query, &mut terms)?;
    Ok(terms)
}

// Appends the terms that a query wants.
#[cycle(push_terms)]
#[tactic(auto, using(crate::proofs::WantedLemmas::wanted_of_nothing, crate::proofs::WantedLemmas::wanted_of_all, crate::proofs::WantedLemmas::wanted_of_term, crate::proofs::WantedLemmas::wanted_of_phrase, crate::proofs::WantedLemmas::wanted_of_phrase_prefix, crate::proofs::WantedLemmas::wanted_of_range, crate::proofs::WantedLemmas::wanted_of_and, crate::proofs::WantedLemmas::wanted_of_or, crate::proofs::WantedLemmas::wanted_of_and_not))]
fn push_terms<'q>(query: &'q Query, terms: &mut Vec<&'q Term>) -> Result<(), Fault>
    ensures wanted { OnOk result (map (λ t. t.now) terms.new.items ≡ map (λ t. t.now) terms.old.items ++ wanted_terms query.now) }
    ensures only { OnlyMemory result }
{
    match query {
        Query::Empty => Ok(()),
        Query::All(_) => Ok(()),
        Query::Term(term) => Ok(terms.push(term)?),
        Query::Phrase(first, others, _) => {
            terms.push(first)?;
            push_others(others, terms)
        }
        Query::PhrasePrefix(phrase) => {
            terms.push(&phrase.first)?;
            push_others(&phrase.others, terms)
        }
        Query::Range(_) => Ok(()),
        Query::And(queries) => push_all_terms(queries, terms),
        Query::Or(queries) => push_all_terms(queries, terms),
        Query::AndNot(first, _) => push_terms(first, terms),
    }
}

// Appends the terms that some queries want.
#[cycle(push_terms)]
fn push_all_terms<'q>(queries: &'q Vec<Query>, terms: &mut Vec<&'q Term>) -> Result<(), Fault>
    ensures wanted { OnOk result (map (λ t. t.now) terms.new.items ≡ map (λ t. t.now) terms.old.items ++ flat_map wanted_terms queries.now.items) }
    ensures only { OnlyMemory result }
{
    for query in queries {
        push_terms(query, terms)?;
    }
    Ok(())
}

// Appends the terms of a phrase after the first one.
fn push_others<'q>(others: &'q [PhraseTerm], terms: &mut Vec<&'q Term>) -> Result<(), Fault>
    ensures wanted { OnOk result (map (λ t. t.now) terms.new.items ≡ map (λ t. t.now) terms.old.items ++ map (λ o. o.term) others.now) }
    ensures only { OnlyMemory result }
{
    for other in others {
        terms.push(&other.term)?;
    }
    Ok(())
}

// Returns the positions of each wanted term in some documents.
#[tactic(auto, using(crate::proofs::QueryLemmas::wanted_slice, crate::proofs::QueryLemmas::wanted_found, crate::proofs::QueryLemmas::wanted_refused, crate::proofs::QueryLemmas::refused_memory))]
fn places_of_query(
    alloc: Global,
    index: &OpenIndex,
    query: &Query,
    docs: &[DocId],
) -> Result<Vec<TermPositions>, Fault>
    requires fields { has_fields (length index.now.readers) query.now ≡ true }
    requires ascending { IsAscending (map document docs.now) }
    ensures found { IfOk result (λ places. all_or_first (map (term_places index.now docs.now) (wanted_terms query.now)) ≡ Ok (map places_view places.items)) }
    ensures refused { IfErr result (IsRefusal (all_or_first (map (term_places index.now docs.now) (wanted_terms query.now)))) }
{
    let terms = match wanted_terms(alloc, query) {
        Ok(terms) => terms,
        Err(fault) => return Err(fault),
    };
    match places_of_terms(alloc, index, terms.as_slice(), docs) {
        Ok(places) => Ok(places),
        Err(fault) => Err(fault),
    }
}

// Returns the positions of each of some terms in some documents.
#[tactic(auto, using(crate::proofs::QueryLemmas::terms_first, crate::proofs::QueryLemmas::terms_field, crate::proofs::QueryLemmas::terms_next, crate::proofs::QueryLemmas::terms_refused, crate::proofs::QueryLemmas::terms_all, crate::proofs::QueryLemmas::refused_memory))]
fn places_of_terms(
    alloc: Global,
    index: &OpenIndex,
    terms: &[&Term],
    docs: &[DocId],
) -> Result<Vec<TermPositions>, Fault>
    requires fields { list_all (λ t. nat_lt t.field (length index.now.readers)) (map (λ t. t.now) terms.now) ≡ true }
    requires ascending { IsAscending (map document docs.now) }
    ensures found { IfOk result (λ places. all_or_first (map (term_places index.now docs.now) (map (λ t. t.now) terms.now)) ≡ Ok (map places_view places.items)) }
    ensures refused { IfErr result (IsRefusal (all_or_first (map (term_places index.now docs.now) (map (λ t. t.now) terms.now)))) }
{
    let mut places = Vec::new(alloc);
    for term in terms {
        let found = match places_of_term(alloc, index, *term, docs) {
            Ok(found) => found,
            Err(fault) => return Err(fault),
        };
        places.push(found)?;
    }
    Ok(places)
}

// Returns the positions of a term in some documents.
#[tactic(auto, using(crate::proofs::QueryLemmas::term_found, crate::proofs::QueryLemmas::term_refused, crate::proofs::QueryLemmas::refused_memory))]
fn places_of_term(
    alloc: Global,
    index: &OpenIndex,
    term: &Term,
    docs: &[DocId],
) -> Result<TermPositions, Fault>
    requires field { term.now.field < length index.now.readers }
    requires ascending { IsAscending (map document docs.now) }
    ensures found { IfOk result (λ places. term_places index.now docs.now term.now ≡ Ok (places_view places)) }
    ensures refused { IfErr result (IsRefusal (term_places index.now docs.now term.now)) }
{
    let mut cursor = match positions_cursor(index, term) {
        Ok(cursor) => cursor,
        Err(fault) => return Err(fault),
    };
    let positions = places_in(alloc, &mut cursor, docs);
    drop(cursor);
    match positions {
        Ok(positions) => Ok(TermPositions { positions }),
        Err(fault) => Err(fault),
    }
}

// Opens a cursor over the postings of a term with positions; it is empty if the field doesn't have the term.
fn positions_cursor(index: &OpenIndex, term: &Term) -> Result<SegmentPostings, Fault>
    requires { term.now.field < length index.now.readers }
    ensures listed { IfOk result (λ cursor. docs_of_term WithFreqsAndPositions index.now term.now ≡ Ok cursor.rest) }
    ensures refused { IfErr result (IsRefusal (docs_of_term WithFreqsAndPositions index.now term.now)) }
{
    let reader = index.reader(term.field());
    match reader.read_postings(term, IndexRecordOption::WithFreqsAndPositions) {
        Ok(Some(cursor)) => Ok(cursor),
        Ok(None) => Ok(SegmentPostings::empty()),
        Err(fault) => Err(fault),
    }
}

// Returns the positions in each of some documents among the remaining ones of a cursor.
#[tactic(auto, using(crate::proofs::FindingLemmas::placing_first, crate::proofs::FindingLemmas::placing_low, crate::proofs::FindingLemmas::placing_next, crate::proofs::FindingLemmas::placing_all))]
fn places_in<C: Postings>(
    alloc: Global,
    cursor: &mut C,
    docs: &[DocId],
) -> Result<Vec<Option<Vec<u32>>>, Fault>
    requires { IsAscending (map document docs.now) }
    ensures found { IfOk result (λ places. map (option_map (λ v. v.items)) places.items ≡ map (positions_in_doc (C.rest cursor.old)) docs.now) }
    ensures only { OnlyMemory result }
{
    let mut places = Vec::new(alloc);
    for doc in docs {
        let positions = positions_at(alloc, cursor, *doc)?;
        places.push(positions)?;
    }
    Ok(places)
}

// Seeks a document and returns its positions, if the cursor has it.
#[tactic(auto, using(crate::proofs::FindingLemmas::place_found, crate::proofs::FindingLemmas::place_missed))]
fn positions_at<C: Postings>(
    alloc: Global,
    cursor: &mut C,
    doc: DocId,
) -> Result<Option<Vec<u32>>, Fault>
    requires { doc < TERMINATED }
    ensures found { IfOk result (λ positions. option_map (λ v. v.items) positions ≡ positions_in_doc (C.rest cursor.old) doc) }
    ensures rest { C.rest cursor.new ≡ from_doc doc (C.rest cursor.old) }
    ensures only { OnlyMemory result }
{
    // tells the prover that the documents ascend
    let _first = cursor.doc();
    match cursor.seek_danger(doc) {
        SeekDangerResult::Found => {
            let mut positions = Vec::new(alloc);
            cursor.positions(&mut positions)?;
            Ok(Some(positions))
        }
        SeekDangerResult::SeekLowerBound(_) => Ok(None),
    }
}
