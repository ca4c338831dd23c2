//! The terms and the ranges of terms that a query reads.
ghost use Rattle.std.specs.Prelude.{◌≡◌, ◌++◌, ◌∷◌, [], IfOk, OnOk, map};
ghost use Rattle.std.specs.List.{flat_map};
ghost use Rattle.ii_io.specs.Faults.{OnlyMemory};
ghost use Rattle.ii_warmup.specs.QueryTerms.{phrase_requests, query_ranges, range_view, requested_terms, term_view};

use ii_base::{Fault, IndexRecordOption, Term};
use ii_query_parser::{PhraseTerm, Query, TermRange};
use std::alloc::Global;

/// A term of a query.
#[derive(Drop)]
pub struct QueryTerm<'q> {
    /// The term.
    pub term: &'q Term,
    /// What the query requests of its postings.
    pub option: IndexRecordOption,
}

/// A range of a query.
#[derive(Drop)]
pub struct QueryRange<'q> {
    /// The range.
    pub range: &'q TermRange,
    /// What the query requests of the postings of its terms.
    pub option: IndexRecordOption,
}

/// Returns the terms of a query, in its order, without those of its ranges. Fails only with `OutOfMemory`.
pub fn query_terms<'q>(alloc: Global, query: &'q Query) -> Result<Vec<QueryTerm<'q>>, Fault>
    ensures terms { IfOk result (λ terms. map term_view terms.items ≡ requested_terms query.now) }
    ensures only { OnlyMemory result }
{
    let mut terms = Vec::new(alloc);
    push_terms(query, &mut terms)?;
    Ok(terms)
}

/// Returns the ranges of a query, in its order; the last term of a phrase may be one. Fails only with `OutOfMemory`.
pub fn query_ranges<'q>(alloc: Global, query: &'q Query) -> Result<Vec<QueryRange<'q>>, Fault>
    ensures ranges { IfOk result (λ ranges. map range_view ranges.items ≡ query_ranges query.now) }
    ensures only { OnlyMemory result }
{
    let mut ranges = Vec::new(alloc);
    push_ranges(query, &mut ranges)?;
    Ok(ranges)
}

// Appends the terms of a query. It recurses once for each level of nesting.
#[cycle(push_terms)]
#[tactic(auto, using(crate::proofs::TermLemmas::terms_of_nothing, crate::proofs::TermLemmas::terms_of_all, crate::proofs::TermLemmas::terms_of_term, crate::proofs::TermLemmas::terms_of_phrase, crate::proofs::TermLemmas::terms_of_phrase_prefix, crate::proofs::TermLemmas::terms_of_range, crate::proofs::TermLemmas::terms_of_and, crate::proofs::TermLemmas::terms_of_or, crate::proofs::TermLemmas::terms_of_and_not))]
fn push_terms<'q>(query: &'q Query, terms: &mut Vec<QueryTerm<'q>>) -> Result<(), Fault>
    ensures pushed { OnOk result (map term_view terms.new.items ≡ map term_view terms.old.items ++ requested_terms query.now) }
    ensures only { OnlyMemory result }
{
    match query {
        Query::Empty => Ok(()),
        Query::All(_) => Ok(()),
        Query::Term(term) => push_term(term, IndexRecordOption::Basic, terms),
        Query::Phrase(first, others, _) => {
            push_term(first, IndexRecordOption::WithFreqsAndPositions, terms)?;
            push_others(others, terms)
        }
        Query::PhrasePrefix(phrase) => {
            push_term(
                &phrase.first,
                IndexRecordOption::WithFreqsAndPositions,
                terms,
            )?;
            push_others(&phrase.others, terms)
        }
        Query::Range(_) => Ok(()),
        Query::And(queries) => push_all_terms(queries, terms),
        Query::Or(queries) => push_all_terms(queries, terms),
        Query::AndNot(first, other) => {
            push_terms(first, terms)?;
            push_terms(other, terms)
        }
    }
}

// Appends the terms of some queries.
#[cycle(push_terms)]
fn push_all_terms<'q>(queries: &'q Vec<Query>, terms: &mut Vec<QueryTerm<'q>>) -> Result<(), Fault>
    ensures pushed { OnOk result (map term_view terms.new.items ≡ map term_view terms.old.items ++ flat_map requested_terms queries.now.items) }
    ensures only { OnlyMemory result }
{
    for query in queries {
        push_terms(query, terms)?;
    }
    Ok(())
}

// Appends a term.
fn push_term<'q>(
    term: &'q Term,
    option: IndexRecordOption,
    terms: &mut Vec<QueryTerm<'q>>,
) -> Result<(), Fault>
    ensures pushed { OnOk result (map term_view terms.new.items ≡ map term_view terms.old.items ++ record { term = term.now; option = option } ∷ []) }
    ensures only { OnlyMemory result }
{
    Ok(terms.push(QueryTerm { term, option })?)
}

// Appends the terms of a phrase after the first one.
fn push_others<'q>(others: &'q [PhraseTerm], terms: &mut Vec<QueryTerm<'q>>) -> Result<(), Fault>
    ensures pushed { OnOk result (map term_view terms.new.items ≡ map term_view terms.old.items ++ phrase_requests others.now) }
    ensures only { OnlyMemory result }
{
    for other in others {
        push_term(&other.term, IndexRecordOption::WithFreqsAndPositions, terms)?;
    }
    Ok(())
}

// Appends the ranges of a query. It recurses once for each level of nesting.
#[cycle(push_ranges)]
#[tactic(auto, using(crate::proofs::TermLemmas::ranges_of_nothing, crate::proofs::TermLemmas::ranges_of_all, crate::proofs::TermLemmas::ranges_of_term, crate::proofs::TermLemmas::ranges_of_phrase, crate::proofs::TermLemmas::ranges_of_phrase_prefix, crate::proofs::TermLemmas::ranges_of_range, crate::proofs::TermLemmas::ranges_of_and, crate::proofs::TermLemmas::ranges_of_or, crate::proofs::TermLemmas::ranges_of_and_not))]
fn push_ranges<'q>(query: &'q Query, ranges: &mut Vec<QueryRange<'q>>) -> Result<(), Fault>
    ensures pushed { OnOk result (map range_view ranges.new.items ≡ map range_view ranges.old.items ++ query_ranges query.now) }
    ensures only { OnlyMemory result }
{
    match query {
        Query::Empty => Ok(()),
        Query::All(_) => Ok(()),
        Query::Term(_) => Ok(()),
        Query::Phrase(_, _, _) => Ok(()),
        Query::PhrasePrefix(phrase) => push_range(
            &phrase.last,
            IndexRecordOption::WithFreqsAndPositions,
            ranges,
        ),
        Query::Range(range) => push_range(range, IndexRecordOption::Basic, ranges),
        Query::And(queries) => push_all_ranges(queries, ranges),
        Query::Or(queries) => push_all_ranges(queries, ranges),
        Query::AndNot(first, other) => {
            push_ranges(first, ranges)?;
            push_ranges(other, ranges)
        }
    }
}

// Appends the ranges of some queries.
#[cycle(push_ranges)]
fn push_all_ranges<'q>(
    queries: &'q Vec<Query>,
    ranges: &mut Vec<QueryRange<'q>>,
) -> Result<(), Fault>
    ensures pushed { OnOk result (map range_view ranges.new.items ≡ map range_view ranges.old.items ++ flat_map query_ranges queries.now.items) }
    ensures only { OnlyMemory result }
{
    for query in queries {
        push_ranges(query, ranges)?;
    }
    Ok(())
}

// Appends a range.
fn push_range<'q>(
    range: &'q TermRange,
    option: IndexRecordOption,
    ranges: &mut Vec<QueryRange<'q>>,
) -> Result<(), Fault>
    ensures pushed { OnOk result (map range_view ranges.new.items ≡ map range_view ranges.old.items ++ record { range = range.now; option = option } ∷ []) }
    ensures only { OnlyMemory result }
{
    Ok(ranges.push(QueryRange { range, option })?)
}
