//! The terms of a query.
ghost use Rattle.std.specs.Prelude.{◌≡◌, ◌++◌, IfOk, OnOk, map};
ghost use Rattle.std.specs.List.{flat_map};
ghost use Rattle.ii_statistics.specs.Statistics.{query_terms};
ghost use Rattle.ii_io.specs.Faults.{OnlyMemory};

use ii_base::{Fault, Term};
use ii_query_parser::{PhraseTerm, Query};
use std::alloc::Global;

/// Returns the terms of a query, in its order, except those of ranges and of phrases with one, whose scores need none.
/// Fails only with `OutOfMemory`.
pub fn query_terms<'q>(alloc: Global, query: &'q Query) -> Result<Vec<&'q Term>, Fault>
    ensures terms { IfOk result (λ terms. map (λ t. t.now) terms.items ≡ query_terms query.now) }
    ensures only { OnlyMemory result }
{
    let mut terms = Vec::new(alloc);
    push_terms(query, &mut terms)?;
    Ok(terms)
}

// Appends the terms of a query.
#[cycle(push_terms)]
#[tactic(auto, using(crate::proofs::TermLemmas::terms_of_nothing, crate::proofs::TermLemmas::terms_of_all, crate::proofs::TermLemmas::terms_of_term, crate::proofs::TermLemmas::terms_of_phrase, crate::proofs::TermLemmas::terms_of_phrase_prefix, crate::proofs::TermLemmas::terms_of_range, crate::proofs::TermLemmas::terms_of_and, crate::proofs::TermLemmas::terms_of_or, crate::proofs::TermLemmas::terms_of_and_not))]
fn push_terms<'q>(query: &'q Query, terms: &mut Vec<&'q Term>) -> Result<(), Fault>
    ensures pushed { OnOk result (map (λ t. t.now) terms.new.items ≡ map (λ t. t.now) terms.old.items ++ query_terms query.now) }
    ensures only { OnlyMemory result }
{
    match query {
        Query::Empty => Ok(()),
        Query::All(_) => Ok(()),
        Query::Term(term) => Ok(terms.push(term)?),
        Query::Phrase(first, others, _) => {
            terms.push(first)?;
            push_others(others, terms)
        }
        Query::PhrasePrefix(_) => Ok(()),
        Query::Range(_) => Ok(()),
        Query::And(queries) => push_all_terms(queries, terms),
        Query::Or(queries) => push_all_terms(queries, terms),
        Query::AndNot(first, other) => {
            push_terms(first, terms)?;
            push_terms(other, terms)
        }
    }
}

// Appends the terms of some queries.
#[cycle(push_terms)]
fn push_all_terms<'q>(queries: &'q Vec<Query>, terms: &mut Vec<&'q Term>) -> Result<(), Fault>
    ensures pushed { OnOk result (map (λ t. t.now) terms.new.items ≡ map (λ t. t.now) terms.old.items ++ flat_map query_terms queries.now.items) }
    ensures only { OnlyMemory result }
{
    for query in queries {
        push_terms(query, terms)?;
    }
    Ok(())
}

// Appends the terms of a phrase after the first one.
fn push_others<'q>(others: &'q [PhraseTerm], terms: &mut Vec<&'q Term>) -> Result<(), Fault>
    ensures pushed { OnOk result (map (λ t. t.now) terms.new.items ≡ map (λ t. t.now) terms.old.items ++ map (λ o. o.term) others.now) }
    ensures only { OnlyMemory result }
{
    for other in others {
        terms.push(&other.term)?;
    }
    Ok(())
}
