//! Counts the documents that match a query.
ghost use Rattle.std.specs.Prelude.{◌≡◌, length, true};
ghost use Rattle.ii_query_parser.specs.Queries.{has_fields};

use crate::finding::first_docs;
use ii_base::Fault;
use ii_search::{Query, count};
use nequllpa_opening::{AnswerFault, Opened, OpenedIndex};
use std::alloc::Global;
use std::io::Write;

/// How the number of matching documents is written.
#[derive(Clone, Copy, Debug, PartialEq, Eq)]
pub enum CountFormat {
    /// As a plain number.
    Number,
    /// As a JSON object with `count`.
    Json,
}

/// Writes how many documents match a query. Returns whether any does.
pub fn write_count<W: Write>(
    alloc: Global,
    out: &mut W,
    opened: &OpenedIndex,
    query: &Query,
    format: CountFormat,
) -> Result<bool, AnswerFault> {
    let many = count_all(alloc, opened.segments(), query)?;
    match format {
        CountFormat::Number => writeln!(out, "{many}")?,
        CountFormat::Json => writeln!(out, "{{\"count\":{many}}}")?,
    }
    Ok(many > 0)
}

/// Returns how many living documents of all segments match a query. Segments without the query's fields have
/// none.
pub fn count_all(alloc: Global, segments: &[Opened], query: &Query) -> Result<u64, Fault> {
    let mut many = 0u64;
    for segment in segments {
        if query.has_fields(segment.schema()) {
            many = many.saturating_add(count_in(alloc, segment, query)?);
        }
    }
    Ok(many)
}

// Returns how many living documents of a segment match a query.
fn count_in(alloc: Global, segment: &Opened, query: &Query) -> Result<u64, Fault>
    requires { has_fields (length segment.now.schema) query.now ≡ true }
{
    if !segment.has_deletes() && !has_all(query) {
        return Ok(u64::from(count(alloc, segment.index(), query)?));
    }
    let docs = first_docs(alloc, segment.index(), segment.alive(), query, u32::MAX)?;
    let many = docs.len() as u64;
    drop(docs);
    Ok(many)
}

// Returns whether a part of a query is for all documents, which has also those past the last one of a segment.
#[cycle(has_all)]
fn has_all(query: &Query) -> bool {
    match query {
        Query::All(_) => true,
        Query::Empty
        | Query::Term(_)
        | Query::Phrase(..)
        | Query::PhrasePrefix(_)
        | Query::Range(_) => false,
        Query::And(queries) => have_all(queries),
        Query::Or(queries) => have_all(queries),
        Query::AndNot(first, other) => has_all(first) || has_all(other),
    }
}

#[cycle(has_all)]
fn have_all(queries: &Vec<Query>) -> bool {
    for query in queries {
        if has_all(query) {
            return true;
        }
    }
    false
}
