//! Opens of an index what one query reads.
use crate::query_texts::{refuse_query, tell_left_out};
use crate::searching::default_fields;
use clap::ArgMatches;
use ii_base::{DocId, Schema};
use ii_directory::ReadAt;
use ii_open_segments::{OpenSegments, open_latest};
use ii_query_parser::Query;
use ii_store::Folder;
use ii_warmup::{query_ranges, query_terms};
use nequllpa_opening::OpenedIndex;
use nequllpa_warming::{EnableScoring, warm_up_index};
use nequllpa_writing::refuse_path;
use std::alloc::Global;

// A query of more terms, or with a range of terms, for which the whole dictionary is read, reads the complete files.
const MOST_TERMS: usize = 1000;
// In an index of more fields, so does any query: the number of tokens is read of each field.
const MOST_FIELDS: usize = 100;

/// An index of which what a query reads is open, and the query.
#[derive(Drop)]
pub struct OpenedQuery {
    pub opened: OpenedIndex,
    pub query: Query,
}

/// Opens of the index of a folder what the query of a text reads, or returns the status if the text is none. Returns
/// `None` if the complete files must be loaded: the query reads much of them, the search ranks and a document was deleted,
/// whose tokens only the file of counts tells, they are those of an earlier program, or one can't be read as `meta` says.
pub fn opened_for_query(
    rt: &HostRuntime,
    path: &str,
    given: &ArgMatches<'_>,
    text: &str,
    scoring: EnableScoring,
) -> anyhow::Result<Option<Result<OpenedQuery, u8>>> {
    let Ok(Some(segments)) = open_latest(rt.alloc(), &Folder::new(rt, path)) else {
        return Ok(None);
    };
    if scoring == EnableScoring::Enabled && !are_all_alive(&segments) {
        return Ok(None);
    }
    opened_of_query(rt, path, segments, given, text, scoring)
}

// Does the same for open segments.
fn opened_of_query<F: ReadAt + Drop>(
    rt: &HostRuntime,
    path: &str,
    segments: OpenSegments<F>,
    given: &ArgMatches<'_>,
    text: &str,
    scoring: EnableScoring,
) -> anyhow::Result<Option<Result<OpenedQuery, u8>>> {
    let Ok(index) = OpenedIndex::of_schema(rt.alloc(), segments.schema.as_slice()) else {
        return Ok(None);
    };
    let fields = match default_fields(rt, &index, given)? {
        Ok(fields) => fields,
        Err(status) => return Ok(Some(Err(status))),
    };
    let mut query = match index.parse_query(rt.alloc(), &fields, text) {
        Ok(query) => query,
        Err(error) => return Ok(Some(Err(refuse_query(rt, &index, text, error)?))),
    };
    if !reads_little(rt.alloc(), index.schema(), &query) {
        return Ok(None);
    }
    query.bound(most_docs(&segments));
    match warm_up_index(rt.alloc(), index, segments, &query, scoring) {
        Ok(opened) => {
            tell_left_out(rt, &opened, &fields, text)?;
            Ok(Some(Ok(OpenedQuery { opened, query })))
        }
        Err(fault) => {
            if fault.is_memory() {
                return Ok(Some(Err(refuse_path(rt, path, fault)?)));
            }
            Ok(None)
        }
    }
}

// Returns whether no document of the segments is deleted.
fn are_all_alive<F: ReadAt + Drop>(segments: &OpenSegments<F>) -> bool {
    for segment in &segments.segments {
        if segment.alive().num_living() != segment.num_docs() {
            return false;
        }
    }
    true
}

// Returns how many documents the largest segment has, living and dead; 0 if there is no segment.
fn most_docs<F: ReadAt + Drop>(segments: &OpenSegments<F>) -> DocId {
    let mut most = 0;
    for segment in &segments.segments {
        most = most.max(segment.num_docs());
    }
    most
}

// Returns whether a query reads a small part of an index with this schema.
fn reads_little(alloc: Global, schema: &Schema, query: &Query) -> bool {
    if schema.num_fields() > MOST_FIELDS {
        return false;
    }
    let Ok(ranges) = query_ranges(alloc, query) else {
        return false;
    };
    let has_ranges = !ranges.is_empty();
    drop(ranges);
    if has_ranges {
        return false;
    }
    let Ok(terms) = query_terms(alloc, query) else {
        return false;
    };
    let few = terms.len() <= MOST_TERMS;
    drop(terms);
    few
}
