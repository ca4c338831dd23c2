//! What is found of a query of an index that is prepared once.
ghost use Rattle.std.specs.Prelude.{◌≡◌, IfOk, true};
ghost use Rattle.ii_query_parser.specs.Queries.{has_fields};

use ii_index::{DocId, Fault, Query, Score, Searcher, TopDocs};
use std::alloc::Global;

/// What is found of a query: by two searches of it that were prepared once, and by `top_docs`.
pub struct Found {
    pub first: Vec<(Score, DocId)>,
    pub second: Vec<(Score, DocId)>,
    pub top_docs: Vec<(Score, DocId)>,
}

/// A query that is prepared once gives the same documents with the same scores as `top_docs`, in the same order, each
/// time that it is searched.
pub fn a_prepared_query_finds_what_top_docs_finds(
    alloc: Global,
    searcher: &Searcher,
    query: &Query,
    docs: &TopDocs,
) -> Result<Found, Fault>
    requires { has_fields searcher.now.num_fields query.now ≡ true }
    ensures first { IfOk result (λ found. found.first.items ≡ found.top_docs.items) }
    ensures second { IfOk result (λ found. found.second.items ≡ found.top_docs.items) }
{
    let prepared = searcher.prepare(alloc, query)?;
    let first = prepared.top_docs(alloc, docs)?;
    let second = prepared.top_docs(alloc, docs)?;
    drop(prepared);
    let top_docs = searcher.top_docs(alloc, query, docs)?;
    Ok(Found {
        first,
        second,
        top_docs,
    })
}
