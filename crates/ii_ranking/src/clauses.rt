//! How the documents of a query are scored: one after the other, or clause by clause.
use ii_bm25::Bm25StatisticsProvider;
use ii_query_parser::Query;

// A query of more clauses is scored clause by clause, since one document after the other asks all of them.
const MOST_CLAUSES: usize = 64;

// A union of so many terms is scored clause by clause, if they are about equally frequent and most documents have one:
// then no document is passed, and one document after the other asks all of them.
const LIKE_TERMS: usize = 6;

// The most frequent of these terms has at most so many times as many documents as the rarest.
const MOST_TIMES: u64 = 4;

// Returns whether the documents of a query are scored one after the other.
pub(crate) fn goes_by_document<S: Bm25StatisticsProvider>(statistics: &S, query: &Query) -> bool {
    if num_clauses(query) > MOST_CLAUSES {
        return false;
    }
    !has_like_terms(statistics, query)
}

// Returns whether a query is a union of many terms that are about equally frequent, and together have at least as many
// documents as there are.
fn has_like_terms<S: Bm25StatisticsProvider>(statistics: &S, query: &Query) -> bool {
    let Query::Or(queries) = query else {
        return false;
    };
    if queries.len() < LIKE_TERMS {
        return false;
    }
    let mut least = u64::MAX;
    let mut greatest: u64 = 0;
    let mut sum: u64 = 0;
    for query in queries {
        let Query::Term(term) = query else {
            return false;
        };
        let doc_freq = statistics.doc_freq(term);
        least = least.min(doc_freq);
        greatest = greatest.max(doc_freq);
        sum = sum.saturating_add(doc_freq);
    }
    if sum < statistics.total_num_docs() {
        return false;
    }
    greatest / MOST_TIMES <= least
}

// Returns the number of clauses of a query, at most `usize::MAX`. It recurses once for each level of nesting.
#[cycle(num_clauses)]
fn num_clauses(query: &Query) -> usize {
    match query {
        Query::Empty
        | Query::All(_)
        | Query::Term(_)
        | Query::Phrase(_, _, _)
        | Query::PhrasePrefix(_)
        | Query::Range(_) => 1,
        Query::And(queries) => sum_of_clauses(queries),
        Query::Or(queries) => sum_of_clauses(queries),
        Query::AndNot(first, other) => num_clauses(first).saturating_add(num_clauses(other)),
    }
}

// Returns the number of clauses of some queries.
#[cycle(num_clauses)]
fn sum_of_clauses(queries: &Vec<Query>) -> usize {
    let mut sum: usize = 0;
    for query in queries {
        sum = sum.saturating_add(num_clauses(query));
    }
    sum
}
