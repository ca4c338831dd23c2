//! The numbers of open segments that the scores of a query need.
ghost use Rattle.std.specs.Prelude.{◌≡◌, ◌<◌, ◌==◌, ◌&&◌, ◌^◌, IfErr, IfOk, None, OnOk, bytes_eq, map};
ghost use Rattle.std.specs.List.{AllByRecursion};
ghost use Rattle.ii_base.specs.Terms.{TermState};
ghost use Rattle.ii_ranking.specs.Scores.{IsScoreFault};
ghost use Rattle.ii_ranking.specs.Segments.{segment_of};
ghost use Rattle.ii_segment_search.specs.Searcher.{HaveFields, total_living};
ghost use Rattle.ii_statistics.specs.Listed.{IsListedInEach, HaveField};
ghost use Rattle.ii_statistics.specs.Statistics.{AreSameFor, counts_of_term, counts_view, query_statistics, query_terms, segments_statistics, terms_damage};

use crate::doc_freqs::doc_freq;
use crate::field_tokens::FieldTokens;
use crate::terms::query_terms;
use ii_base::{Fault, Field, Term};
use ii_query_parser::Query;
use ii_ranking::{Bm25StatisticsProvider, RankedSegment};
use std::alloc::Global;

// A term, how many documents have it, and how many tokens its field has.
#[derive(Clone, Copy)]
pub(crate) struct TermCounts<'q> {
    term: &'q Term,
    doc_freq: u64,
    num_tokens: u64,
}

/// The numbers of segments that the scores of a query need: for each of its terms how many documents have it, and how
/// many tokens its field has. They are 0 for other terms and fields.
#[derive(Drop)]
pub struct QueryStatistics<'q> {
    num_docs: u64,
    terms: Vec<TermCounts<'q>>,
}

impl<'q> Bm25StatisticsProvider for QueryStatistics<'q> {
    ghost use Rattle.ii_statistics.specs.Statistics.{query_statistics};

    ghost statistics = { query_statistics };

    fn total_num_tokens(&self, field: Field) -> u64 {
        for place in 0..self.terms.len() {
            let counts = self.terms[place];
            if is_of(counts.term, field) {
                return counts.num_tokens;
            }
        }
        0
    }

    fn total_num_docs(&self) -> u64 {
        self.num_docs
    }

    fn doc_freq(&self, term: &Term) -> u64 {
        for place in 0..self.terms.len() {
            let counts = self.terms[place];
            if same_term(counts.term, term) {
                return counts.doc_freq;
            }
        }
        0
    }
}

// Returns whether a term is one of a field.
fn is_of(term: &Term, field: Field) -> bool
    ensures { result ≡ (term.now.field == field) }
{
    term.field() == field
}

// Returns whether terms have the same field and the same bytes.
fn same_term(first: &Term, other: &Term) -> bool
    ensures { result ≡ ((first.now.field == other.now.field) && bytes_eq first.now.value other.now.value) }
{
    first.field() == other.field()
        && first.serialized_value_bytes() == other.serialized_value_bytes()
}

/// Counts what the scores of a query need: the living documents of segments, those that have each of its terms, and the
/// tokens in the fields of these. The fields of the query must be fields of each segment, and there must be fewer than
/// 2^32 living documents.
///
/// # Errors
///
/// `Damaged` with the first corrupt part of a term's list: term by term in the order of the query, and segment by
/// segment; `OutOfMemory` if an allocation fails.
pub fn statistics_of<'q, N: FieldTokens>(
    alloc: Global,
    segments: &[RankedSegment<'_>],
    tokens: &N,
    query: &'q Query,
) -> Result<QueryStatistics<'q>, Fault>
    requires fields { HaveFields query.now (map segment_of segments.now) }
    requires few { total_living (map segment_of segments.now) < 2 ^ 32 }
    ensures docs { IfOk result (λ s. (query_statistics s).num_docs ≡ total_living (map segment_of segments.now)) }
    ensures same { IfOk result (λ s. AllByRecursion (AreSameFor (query_statistics s) (segments_statistics (N.by_field tokens.now) (map segment_of segments.now))) (query_terms query.now)) }
    ensures listed { OnOk result (AllByRecursion (IsListedInEach (map segment_of segments.now)) (query_terms query.now)) }
    ensures sound { OnOk result (terms_damage (map segment_of segments.now) (query_terms query.now) ≡ None) }
    ensures fault { IfErr result (IsScoreFault (terms_damage (map segment_of segments.now) (query_terms query.now))) }
{
    let terms = match query_terms(alloc, query) {
        Ok(terms) => terms,
        Err(fault) => return Err(fault),
    };
    match count_terms(alloc, segments, tokens, terms.as_slice()) {
        Ok(terms) => Ok(QueryStatistics {
            num_docs: num_living(segments),
            terms,
        }),
        Err(fault) => Err(fault),
    }
}

// Returns how many documents of segments are alive.
fn num_living(segments: &[RankedSegment<'_>]) -> u64
    requires { total_living (map segment_of segments.now) < 2 ^ 32 }
    ensures { result ≡ total_living (map segment_of segments.now) }
{
    let mut total = 0u64;
    for place in 0..segments.len() {
        let segment = segments[place];
        total += u64::from(segment.alive.num_living());
    }
    total
}

// Counts what the scores of each term need.
fn count_terms<'q, N: FieldTokens>(
    alloc: Global,
    segments: &[RankedSegment<'_>],
    tokens: &N,
    terms: &[&'q Term],
) -> Result<Vec<TermCounts<'q>>, Fault>
    requires fields { AllByRecursion (λ (t : TermState). HaveField (map segment_of segments.now) t.field) (map (λ t. t.now) terms.now) }
    requires few { total_living (map segment_of segments.now) < 2 ^ 32 }
    ensures counted { IfOk result (λ v. map counts_view v.items ≡ map (counts_of_term (N.by_field tokens.now) (map segment_of segments.now)) (map (λ t. t.now) terms.now)) }
    ensures listed { OnOk result (AllByRecursion (IsListedInEach (map segment_of segments.now)) (map (λ t. t.now) terms.now)) }
    ensures sound { OnOk result (terms_damage (map segment_of segments.now) (map (λ t. t.now) terms.now) ≡ None) }
    ensures fault { IfErr result (IsScoreFault (terms_damage (map segment_of segments.now) (map (λ t. t.now) terms.now))) }
{
    let mut counted = Vec::new(alloc);
    for place in 0..terms.len() {
        let term = terms[place];
        let num_docs = match doc_freq(segments, term) {
            Ok(num_docs) => num_docs,
            Err(fault) => return Err(fault),
        };
        let num_tokens = tokens.num_tokens(term.field());
        counted.push(TermCounts {
            term,
            doc_freq: num_docs,
            num_tokens,
        })?;
    }
    Ok(counted)
}
