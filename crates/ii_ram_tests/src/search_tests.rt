// Queries over an index of two fields, and the documents in which a word is most frequent.
ghost use Rattle.std.specs.Prelude.{◌≡◌, length, true};
ghost use Rattle.ii_query_parser.specs.Queries.{has_fields};

use crate::memory_index::{Call, Kind, Said, calls_of, cursor_of, indexed, ready_of};
use ii_base::{AsciiTokenizer, Fault, Field, Term};
use ii_docset::{DocId, DocSet, TERMINATED};
use ii_ram::{
    AllDocs, KeyBound, PhrasePrefix, PhraseTerm, Query, QueryCursor, TermOrPhrase, TermRange,
    count, index_in_ram, search, top_by_count,
};
use ii_reader::{OpenIndex, SegmentPostings};
use std::alloc::Global;
use std::test::Fail;

static FIELDS: [Kind; 2] = [Kind::Text(true), Kind::Text(false)];

// Document 5 has no text.
static TEXTS: [Call; 7] = [
    (0, 0, Said::Text("a b c")),
    (0, 1, Said::Text("x")),
    (1, 0, Said::Text("a c")),
    (2, 0, Said::Text("b")),
    (3, 1, Said::Text("a b")),
    (4, 0, Said::Text("a b")),
    (4, 1, Said::Text("x")),
];

// Lists the documents of a cursor, each followed by a comma.
fn documents<D: DocSet>(alloc: Global, cursor: &mut D) -> Result<String, Fault> {
    let mut text = String::new(alloc);
    for _ in 0..8 {
        let doc = cursor.doc();
        if doc >= TERMINATED {
            return Ok(text);
        }
        write!(text, "{doc},")?;
        cursor.advance();
    }
    Ok(text)
}

// Lists the documents that match a query, and their number.
fn found_in(alloc: Global, index: &OpenIndex, query: &Query) -> Result<String, Fault>
    requires { has_fields (length index.now.readers) query.now ≡ true }
{
    let number = count(alloc, index, query)?;
    let mut cursor = search(alloc, index, query)?;
    let listed = documents(alloc, &mut cursor);
    drop(cursor);
    let mut text = listed?;
    write!(text, "{number} in all")?;
    Ok(text)
}

// Lists the documents of an empty cursor.
fn nothing(alloc: Global) -> Result<String, Fault> {
    let mut cursor: QueryCursor<TermOrPhrase<SegmentPostings>> = QueryCursor::nothing();
    let listed = documents(alloc, &mut cursor);
    drop(cursor);
    listed
}

// Lists the matches in the index of the texts; none if a field is missing.
fn found(alloc: Global, query: &Query) -> Result<String, Fault> {
    let (schema, calls) = ready_of(alloc, &FIELDS, 6, &TEXTS)?;
    if !query.has_fields(&schema) {
        drop(schema);
        drop(calls);
        return nothing(alloc);
    }
    let index = index_in_ram(alloc, schema, 6, calls, &AsciiTokenizer)?;
    let found = found_in(alloc, &index, query);
    drop(index);
    found
}

// A field and a word of it, or `*` for all documents.
type Asked = (u32, &'static str);

// How queries are combined.
enum Put {
    // the first and all others
    All(&'static [Asked]),
    // the first and any of the others
    And(&'static [Asked]),
    // the first or any of the others
    Or(&'static [Asked]),
    // the first without any of the others
    Without(&'static [Asked]),
    // the first, and the other word this many positions after it, within a slop
    Phrase(u32, u32, Asked),
}

fn term(alloc: Global, word: &Asked) -> Result<Term, Fault> {
    Term::from_field_text(alloc, Field::from_field_id(word.0), word.1)
}

fn word(alloc: Global, word: &Asked) -> Result<Query, Fault> {
    if word.1 == "*" {
        return Ok(Query::All(6));
    }
    Ok(Query::Term(term(alloc, word)?))
}

fn words(alloc: Global, listed: &[Asked]) -> Result<Vec<Query>, Fault> {
    let mut queries = Vec::new(alloc);
    for one in listed {
        queries.push(word(alloc, one)?)?;
    }
    Ok(queries)
}

// Builds a query for any of some words.
fn any(alloc: Global, listed: &[Asked]) -> Result<Query, Fault> {
    Ok(Query::or_any(words(alloc, listed)?))
}

fn phrase(
    alloc: Global,
    first: &Asked,
    distance: u32,
    slop: u32,
    other: &Asked,
) -> Result<Query, Fault> {
    let (start, term) = (term(alloc, first)?, term(alloc, other)?);
    let mut others = Vec::new(alloc);
    others.push(PhraseTerm { distance, term })?;
    Ok(Query::Phrase(start, others, slop))
}

// Combines the query of a word with others.
fn query_of(alloc: Global, first: &Asked, others: &Put) -> Result<Query, Fault> {
    if let Put::Phrase(distance, slop, other) = others {
        return phrase(alloc, first, *distance, *slop, other);
    }
    let one = word(alloc, first)?;
    match others {
        Put::All(listed) => Query::and_all(one, words(alloc, listed)?),
        Put::And(listed) => Query::and(alloc, one, any(alloc, listed)?),
        Put::Or(listed) => Query::or(alloc, one, any(alloc, listed)?),
        Put::Without(listed) => Query::and_not(alloc, one, any(alloc, listed)?),
        Put::Phrase(_, _, _) => Ok(one),
    }
}

static QUERIES: [(Asked, Put, &str); 32] = [
    // words
    ((0, "a"), Put::All(&[]), "0,1,4,3 in all"),
    ((0, "b"), Put::All(&[]), "0,2,4,3 in all"),
    ((1, "a"), Put::All(&[]), "3,1 in all"),
    ((0, "x"), Put::All(&[]), "0 in all"),
    ((1, "x"), Put::All(&[]), "0,4,2 in all"),
    ((0, "a"), Put::And(&[(2, "a")]), ""),
    // both words
    ((0, "a"), Put::And(&[(0, "b")]), "0,4,2 in all"),
    ((0, "c"), Put::And(&[(0, "a")]), "0,1,2 in all"),
    ((0, "a"), Put::And(&[(0, "z")]), "0 in all"),
    ((0, "b"), Put::And(&[(0, "b")]), "0,2,4,3 in all"),
    ((0, "c"), Put::And(&[(0, "a"), (0, "b")]), "0,1,2 in all"),
    ((0, "a"), Put::All(&[(0, "b"), (0, "c")]), "0,1 in all"),
    // either word
    ((0, "a"), Put::Or(&[(0, "b")]), "0,1,2,4,4 in all"),
    ((0, "z"), Put::Or(&[(0, "c")]), "0,1,2 in all"),
    ((0, "a"), Put::Or(&[(0, "a")]), "0,1,4,3 in all"),
    ((0, "c"), Put::Or(&[(0, "z"), (0, "b")]), "0,1,2,4,4 in all"),
    // the first word without the others
    ((0, "a"), Put::Without(&[(0, "b")]), "1,1 in all"),
    ((0, "b"), Put::Without(&[(0, "a")]), "2,1 in all"),
    ((0, "a"), Put::Without(&[(0, "z")]), "0,1,4,3 in all"),
    ((0, "a"), Put::Without(&[(0, "a")]), "0 in all"),
    ((0, "*"), Put::Without(&[(0, "a")]), "2,3,5,3 in all"),
    // no others
    ((0, "a"), Put::And(&[]), "0 in all"),
    ((0, "a"), Put::Or(&[]), "0,1,4,3 in all"),
    ((0, "a"), Put::Without(&[]), "0,1,4,3 in all"),
    // phrases
    ((0, "a"), Put::Phrase(1, 0, (0, "b")), "0,4,2 in all"),
    ((0, "b"), Put::Phrase(1, 0, (0, "a")), "0 in all"),
    ((0, "a"), Put::Phrase(2, 0, (0, "c")), "0,1 in all"),
    ((0, "a"), Put::Phrase(0, 0, (1, "x")), "0,4,2 in all"),
    // a word between, and words that are exchanged
    ((0, "a"), Put::Phrase(1, 0, (0, "c")), "1,1 in all"),
    ((0, "a"), Put::Phrase(1, 1, (0, "c")), "0,1,2 in all"),
    ((0, "b"), Put::Phrase(1, 1, (0, "a")), "0 in all"),
    ((0, "b"), Put::Phrase(1, 2, (0, "a")), "0,4,2 in all"),
];

#[test]
fn queries_give_documents(rt: HostRuntime) -> Result<(), Fail> {
    for (first, others, wanted) in &QUERIES {
        let query = query_of(rt.alloc(), first, others)?;
        let found = found(rt.alloc(), &query)?;
        assert_eq!(rt; found.as_str(), *wanted);
    }
    Ok(())
}

// A bound of words, and whether the word belongs to the range.
type Edge = Option<(&'static str, bool)>;

fn bound(alloc: Global, edge: Edge) -> Result<KeyBound, Fault> {
    match edge {
        None => Ok(KeyBound::Unbounded),
        Some((word, true)) => Ok(KeyBound::Included(Vec::from_slice(alloc, word.as_bytes())?)),
        Some((word, false)) => Ok(KeyBound::Excluded(Vec::from_slice(alloc, word.as_bytes())?)),
    }
}

fn range(alloc: Global, prefix: &'static str, lower: Edge, upper: Edge) -> Result<Query, Fault> {
    let prefix = term(alloc, &(0, prefix))?;
    let lower = bound(alloc, lower)?;
    let upper = bound(alloc, upper)?;
    Ok(Query::range(TermRange {
        prefix,
        lower,
        upper,
    }))
}

static RANGES: [(&str, Edge, Edge, &str); 9] = [
    ("", None, None, "0,1,2,4,4 in all"),
    ("b", None, None, "0,2,4,3 in all"),
    ("x", None, None, "0 in all"),
    ("", Some(("b", true)), None, "0,1,2,4,4 in all"),
    ("", Some(("b", false)), None, "0,1,2 in all"),
    ("", None, Some(("b", false)), "0,1,4,3 in all"),
    ("", Some(("b", true)), Some(("b", true)), "0,2,4,3 in all"),
    // upside down
    ("", Some(("c", true)), Some(("a", true)), "0 in all"),
    // a prefix and a bound
    ("c", Some(("b", true)), None, "0,1,2 in all"),
];

#[test]
fn ranges_give_documents(rt: HostRuntime) -> Result<(), Fail> {
    for (prefix, lower, upper, wanted) in &RANGES {
        let query = range(rt.alloc(), *prefix, *lower, *upper)?;
        let found = found(rt.alloc(), &query)?;
        assert_eq!(rt; found.as_str(), *wanted);
    }
    Ok(())
}

// Builds the query of a phrase of a word and a prefix.
fn phrase_with(
    alloc: Global,
    first: &Asked,
    distance: u32,
    prefix: &Asked,
) -> Result<Query, Fault> {
    let (first, prefix) = (term(alloc, first)?, term(alloc, prefix)?);
    Ok(Query::phrase_prefix(PhrasePrefix {
        first,
        others: Vec::new(alloc),
        distance,
        last: TermRange::with_prefix(prefix),
    }))
}

// A word, how many positions after it a word starts with a prefix, the prefix, and what is found.
static STARTED: [(Asked, u32, Asked, &str); 9] = [
    ((0, "a"), 1, (0, "b"), "0,4,2 in all"),
    ((0, "a"), 1, (0, "c"), "1,1 in all"),
    // each word of the field
    ((0, "a"), 1, (0, ""), "0,1,4,3 in all"),
    ((0, "a"), 2, (0, ""), "0,1 in all"),
    ((0, "b"), 1, (0, ""), "0,1 in all"),
    // another field
    ((0, "a"), 0, (1, ""), "0,4,2 in all"),
    ((1, "a"), 1, (1, "b"), "3,1 in all"),
    // words that no document has
    ((0, "a"), 1, (0, "x"), "0 in all"),
    ((0, "z"), 1, (0, ""), "0 in all"),
];

#[test]
fn phrases_with_a_prefix_give_documents(rt: HostRuntime) -> Result<(), Fail> {
    for (first, distance, prefix, wanted) in &STARTED {
        let query = phrase_with(rt.alloc(), first, *distance, prefix)?;
        let found = found(rt.alloc(), &query)?;
        assert_eq!(rt; found.as_str(), *wanted);
    }
    Ok(())
}

fn all(alloc: Global) -> Result<String, Fault> {
    let mut cursor = AllDocs::new(4);
    documents(alloc, &mut cursor)
}

#[test]
fn all_documents_are_found(rt: HostRuntime) -> Result<(), Fail> {
    let all = all(rt.alloc())?;
    assert_eq!(rt; all.as_str(), "0,1,2,3,");
    Ok(())
}

// A word in four documents, one to three times in each.
static OFTEN: [Call; 5] = [
    (0, 0, Said::Text("a b a")),
    (1, 0, Said::Text("a")),
    (2, 0, Said::Text("a a c a")),
    (4, 0, Said::Text("b a a")),
    (5, 0, Said::Text("b")),
];

// Lists the documents of a cursor with the largest counts, each with its count.
fn top_of(alloc: Global, cursor: &mut SegmentPostings, n: usize) -> Result<String, Fault> {
    let top = top_by_count(alloc, cursor, n)?;
    let mut text = String::new(alloc);
    push_counts(&mut text, top.as_slice())?;
    Ok(text)
}

// Appends documents with their counts.
fn push_counts(text: &mut String, counts: &[(DocId, u32)]) -> Result<(), Fault> {
    for row in counts {
        let (doc, count) = *row;
        write!(text, "{doc}:{count} ")?;
    }
    Ok(())
}

// Lists the documents in which the word occurs most often.
fn most_often(alloc: Global, n: usize) -> Result<String, Fault> {
    let calls = calls_of(alloc, &OFTEN)?;
    let (num_fields, index) = indexed(alloc, &FIELDS, 6, calls)?;
    let cursor = cursor_of(alloc, num_fields, &index, &(0, b"a"));
    drop(index);
    match cursor? {
        Some(mut cursor) => {
            let top = top_of(alloc, &mut cursor, n);
            drop(cursor);
            top
        }
        None => Ok(String::new(alloc)),
    }
}

#[test]
fn the_most_frequent_are_found(rt: HostRuntime) -> Result<(), Fail> {
    let rows = [
        (0, ""),
        (1, "2:3 "),
        // equal counts are ordered by document
        (2, "2:3 0:2 "),
        (9, "2:3 0:2 4:2 1:1 "),
    ];
    for (n, docs) in rows {
        let found = most_often(rt.alloc(), n)?;
        assert_eq!(rt; found.as_str(), docs);
    }
    Ok(())
}
