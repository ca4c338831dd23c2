//! How many tokens the living documents of segments have in the fields of a query's terms.
ghost use Rattle.std.specs.Prelude.{◌≡◌, ℕ, IfErr, IfOk, List, None, OnOk, Some, if◌then◌else◌, map, true};
ghost use Rattle.std.specs.List.{AllByRecursion};
ghost use Rattle.ii_base.specs.Terms.{TermState};
ghost use Rattle.ii_io.specs.declared.faults.Part.TheVariants.{TokenCount};
ghost use Rattle.ii_ranking.specs.Scores.{IsScoreFault};
ghost use Rattle.ii_segment_search.specs.Searcher.{HaveFields};
ghost use Rattle.ii_statistics.specs.Listed.{HaveField};
ghost use Rattle.ii_statistics.specs.Statistics.{query_terms};
ghost use Rattle.nequllpa_searching.specs.OpenedNumbers.{IsTotal, has_total, knows_tokens, open_segment, tokens_damage, tokens_in_all, totals_of};

use ii_base::{Fault, Field, Term};
use ii_query_parser::Query;
use ii_statistics::{FieldTokens, query_terms};
use nequllpa_opening::Opened;
use std::alloc::Global;

// How many tokens the living documents have in a field.
#[derive(Clone, Copy)]
pub(crate) struct FieldTotal {
    field: Field,
    num_tokens: u64,
}

// The same for several fields; 0 for others.
#[derive(Drop)]
pub(crate) struct FieldTotals {
    totals: Vec<FieldTotal>,
}

impl FieldTokens for FieldTotals {
    ghost use Rattle.nequllpa_searching.specs.OpenedNumbers.{totals_of};

    ghost by_field = { totals_of };

    fn num_tokens(&self, field: Field) -> u64 {
        for place in 0..self.totals.len() {
            let total = self.totals[place];
            if total.field == field {
                return total.num_tokens;
            }
        }
        0
    }
}

// Counts how many tokens the living documents of segments have in the field of each term of a query. The fields of the
// query must be fields of each segment.
//
// Returns `Damaged(TokenCount)` if one of these numbers isn't known (`Opened::num_tokens`), or `OutOfMemory`.
pub(crate) fn field_totals(
    alloc: Global,
    segments: &[Opened],
    query: &Query,
) -> Result<FieldTotals, Fault>
    requires { HaveFields query.now (map open_segment segments.now) }
    ensures totals { IfOk result (λ t. AllByRecursion (λ (u : TermState). totals_of t u.field ≡ tokens_in_all segments.now u.field) (query_terms query.now)) }
    ensures sound { OnOk result (tokens_damage segments.now (query_terms query.now) ≡ None) }
    ensures fault { IfErr result (IsScoreFault (tokens_damage segments.now (query_terms query.now))) }
{
    let terms = match query_terms(alloc, query) {
        Ok(terms) => terms,
        Err(fault) => return Err(fault),
    };
    match totals_of_terms(alloc, segments, terms.as_slice()) {
        Ok(totals) => Ok(totals),
        Err(fault) => Err(fault),
    }
}

// Counts the tokens in the field of each of some terms.
fn totals_of_terms(
    alloc: Global,
    segments: &[Opened],
    terms: &[&Term],
) -> Result<FieldTotals, Fault>
    requires { AllByRecursion (λ (t : TermState). HaveField (map open_segment segments.now) t.field) (map (λ t. t.now) terms.now) }
    ensures totals { IfOk result (λ t. AllByRecursion (λ (u : TermState). totals_of t u.field ≡ tokens_in_all segments.now u.field) (map (λ t. t.now) terms.now)) }
    ensures sound { OnOk result (tokens_damage segments.now (map (λ t. t.now) terms.now) ≡ None) }
    ensures fault { IfErr result (IsScoreFault (tokens_damage segments.now (map (λ t. t.now) terms.now))) }
{
    let mut totals = Vec::new(alloc);
    for place in 0..terms.len() {
        let term = terms[place];
        match add_total(alloc, segments, term.field(), &mut totals) {
            Ok(()) => (),
            Err(fault) => return Err(fault),
        }
    }
    Ok(FieldTotals { totals })
}

// Counts the tokens in a field, unless they were counted before.
fn add_total(
    alloc: Global,
    segments: &[Opened],
    field: Field,
    totals: &mut Vec<FieldTotal>,
) -> Result<(), Fault>
    requires { HaveField (map open_segment segments.now) field }
    ensures here { OnOk result (has_total totals.new.items field ≡ true) }
    ensures keeps { OnOk result ((other : ℕ) → has_total totals.old.items other ≡ true → has_total totals.new.items other ≡ true) }
    ensures exact { OnOk result (AllByRecursion (IsTotal segments.now) totals.old.items → AllByRecursion (IsTotal segments.now) totals.new.items) }
    ensures fault { IfErr result (IsScoreFault (if knows_tokens segments.now field then None else Some TokenCount)) }
{
    if has_total(totals.as_slice(), field) {
        return Ok(());
    }
    let num_tokens = match sum_of_tokens(alloc, segments, field) {
        Ok(num_tokens) => num_tokens,
        Err(fault) => return Err(fault),
    };
    totals.push(FieldTotal { field, num_tokens })?;
    Ok(())
}

// Returns whether one of some totals is of a field.
fn has_total(totals: &[FieldTotal], field: Field) -> bool
    ensures { result ≡ has_total totals.now field }
{
    for place in 0..totals.len() {
        let total = totals[place];
        if total.field == field {
            return true;
        }
    }
    false
}

// Returns how many tokens the living documents of segments have in a field, at most 2^64 - 1.
fn sum_of_tokens(alloc: Global, segments: &[Opened], field: Field) -> Result<u64, Fault>
    requires { HaveField (map open_segment segments.now) field }
    ensures counted { IfOk result (λ n. n ≡ tokens_in_all segments.now field) }
    ensures known { OnOk result (knows_tokens segments.now field ≡ true) }
    ensures fault { IfErr result (IsScoreFault (if knows_tokens segments.now field then None else Some TokenCount)) }
{
    let mut sum = 0u64;
    for place in 0..segments.len() {
        let segment = &segments[place];
        let num_tokens = match segment.num_tokens(alloc, field) {
            Ok(num_tokens) => num_tokens,
            Err(fault) => return Err(fault),
        };
        sum = sum.saturating_add(num_tokens);
    }
    Ok(sum)
}
