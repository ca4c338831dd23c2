// Prepared terms: each search gives what `ii_ranking::search` gives for the query of the term.
ghost use Rattle.std.specs.Prelude.{◌≡◌, ◌≤◌, IfOk, length, true};
ghost use Rattle.ii_query_parser.specs.Queries.{has_fields};
ghost use Rattle.ii_alive.specs.Alive.{num_living};

use crate::index_files::{body, files_of_texts, opened, query_of, statistics};
use ii_alive::AliveBits;
use ii_prepared_term::PreparedTerm;
use ii_ram::{DocId, Fault, OpenIndex, Query, Term};
use ii_ranking::{GatheredStatistics, RankedSegment, Score, TopDocs, search, search_segments};
use std::alloc::Global;
use std::test::Fail;

// The number of texts.
const NUM_DOCS: DocId = 600;

// Words, and how many of the texts have each.
static WORDS: [(&str, usize); 6] = [
    ("sea", 600),
    ("even", 300),
    ("third", 200),
    ("n5", 85),
    ("u37", 1),
    ("storm", 0),
];

// How many of the best are wanted, and how many are passed.
static LIMITS: [(usize, usize); 9] = [
    (0, 0),
    (1, 0),
    (3, 0),
    (1_000, 0),
    (1, 2),
    (3, 199),
    (1_000, 150),
    (1_000, 1_000),
    (usize::MAX, usize::MAX),
];

// Prepares a word of an index.
fn prepared(
    alloc: Global,
    index: &OpenIndex,
    statistics: &GatheredStatistics,
    word: &str,
) -> Result<PreparedTerm, Fault>
    requires { length index.now.readers ≡ 1 }
{
    let term = Term::from_field_text(alloc, body(), word)?;
    PreparedTerm::open(alloc, index, statistics, &term)
}

// Returns whether a prepared term, searched twice, gives what a search gives for its query.
fn gives_the_same(
    alloc: Global,
    index: &OpenIndex,
    statistics: &GatheredStatistics,
    prepared: &PreparedTerm,
    query: &Query,
    num_docs: DocId,
    docs: &TopDocs,
) -> Result<bool, Fault>
    requires many { length index.now.readers ≡ 1 }
    requires fields { has_fields 1 query.now ≡ true }
{
    let expected = search(alloc, index, num_docs, statistics, query, docs)?;
    let first = prepared.search(alloc, num_docs, docs)?;
    let again = prepared.search(alloc, num_docs, docs)?;
    Ok(first.as_slice() == expected.as_slice() && again.as_slice() == expected.as_slice())
}

// Returns the first of the limits of which a prepared term doesn't give what a search gives for its query.
fn first_wrong_limit(
    alloc: Global,
    index: &OpenIndex,
    statistics: &GatheredStatistics,
    prepared: &PreparedTerm,
    query: &Query,
    num_docs: DocId,
) -> Result<Option<(usize, usize)>, Fault>
    requires many { length index.now.readers ≡ 1 }
    requires fields { has_fields 1 query.now ≡ true }
{
    for (limit, offset) in LIMITS {
        let docs = TopDocs::with_limit(limit).and_offset(offset);
        if !gives_the_same(alloc, index, statistics, prepared, query, num_docs, &docs)? {
            return Ok(Some((limit, offset)));
        }
    }
    Ok(None)
}

// Returns the first of the limits of which a word isn't found as by a search.
fn first_wrong(
    alloc: Global,
    index: &OpenIndex,
    statistics: &GatheredStatistics,
    word: &str,
    num_docs: DocId,
) -> Result<Option<(usize, usize)>, Fail>
    requires { length index.now.readers ≡ 1 }
{
    let query = query_of(alloc, word, NUM_DOCS)?;
    let prepared = prepared(alloc, index, statistics, word)?;
    let wrong = first_wrong_limit(alloc, index, statistics, &prepared, &query, num_docs)?;
    Ok(wrong)
}

#[test]
fn prepared_terms_are_searched_as_queries(rt: HostRuntime) -> Result<(), Fail> {
    let files = files_of_texts(rt.alloc(), NUM_DOCS)?;
    let index = opened(rt.alloc(), &files)?;
    let statistics = statistics(rt.alloc(), &index, NUM_DOCS)?;
    for (word, _) in WORDS {
        for num_docs in [0, 1, 100, NUM_DOCS] {
            let wrong = first_wrong(rt.alloc(), &index, &statistics, word, num_docs)?;
            assert_eq!(rt; wrong, None, "{word} of {num_docs}");
        }
    }
    Ok(())
}

#[test]
fn all_documents_of_a_term_are_found(rt: HostRuntime) -> Result<(), Fail> {
    let files = files_of_texts(rt.alloc(), NUM_DOCS)?;
    let index = opened(rt.alloc(), &files)?;
    let statistics = statistics(rt.alloc(), &index, NUM_DOCS)?;
    for (word, doc_freq) in WORDS {
        let prepared = prepared(rt.alloc(), &index, &statistics, word)?;
        for (limit, offset) in LIMITS {
            let docs = TopDocs::with_limit(limit).and_offset(offset);
            let best = prepared.search(rt.alloc(), NUM_DOCS, &docs)?;
            let expected = doc_freq.saturating_sub(offset).min(limit);
            assert_eq!(rt; best.len(), expected, "{word} {limit} {offset}");
        }
    }
    Ok(())
}

// Returns whether a number is a multiple of a step, which isn't 0.
fn is_multiple(number: u32, step: u32) -> bool {
    if step == 0 {
        return false;
    }
    number % step == 0
}

// Deletes a document, if it is there.
fn kill(alive: &mut AliveBits, doc: DocId) {
    if doc < alive.num_docs() {
        alive.kill(doc);
    }
}

// Returns which documents are alive: all but each third, fourth or other one.
pub(crate) fn alive(alloc: Global, num_docs: DocId, step: DocId) -> Result<AliveBits, Fault>
    ensures { IfOk result (λ alive. num_living alive ≤ 1_000) }
{
    let mut alive = AliveBits::full(alloc, num_docs)?;
    for doc in 0..num_docs {
        if is_multiple(doc, step) {
            kill(&mut alive, doc);
        }
    }
    if alive.num_living() > 1_000 {
        return Err(Fault::IndexerFailed);
    }
    Ok(alive)
}

// Two segments, and which of their documents are alive.
#[derive(Clone, Copy)]
struct Segments<'a> {
    first: &'a OpenIndex,
    first_alive: &'a AliveBits,
    second: &'a OpenIndex,
    second_alive: &'a AliveBits,
}

// Returns the best living documents of two segments that have a word, found by prepared terms.
fn best_of_prepared(
    alloc: Global,
    segments: &Segments<'_>,
    statistics: &GatheredStatistics,
    word: &str,
    docs: &TopDocs,
) -> Result<Vec<(Score, DocId)>, Fault>
    requires first { length segments.now.first.now.readers ≡ 1 }
    requires second { length segments.now.second.now.readers ≡ 1 }
    requires few { num_living segments.now.first_alive.now ≤ 1_000 }
    requires also_few { num_living segments.now.second_alive.now ≤ 1_000 }
{
    let mut computer = docs.computer(alloc);
    let first = prepared(alloc, segments.first, statistics, word)?;
    first.push_living(segments.first_alive, 0, &mut computer)?;
    let second = prepared(alloc, segments.second, statistics, word)?;
    let base = segments.first_alive.num_living();
    second.push_living(segments.second_alive, base, &mut computer)?;
    docs.best_of(computer)
}

// Returns the best living documents of two segments that match a query, found by a search.
fn best_of_search(
    alloc: Global,
    segments: &Segments<'_>,
    statistics: &GatheredStatistics,
    query: &Query,
    docs: &TopDocs,
) -> Result<Vec<(Score, DocId)>, Fault>
    requires first { length segments.now.first.now.readers ≡ 1 }
    requires second { length segments.now.second.now.readers ≡ 1 }
    requires few { num_living segments.now.first_alive.now ≤ 1_000 }
    requires also_few { num_living segments.now.second_alive.now ≤ 1_000 }
    requires fields { has_fields 1 query.now ≡ true }
{
    let ranked = [
        RankedSegment {
            index: segments.first,
            alive: segments.first_alive,
        },
        RankedSegment {
            index: segments.second,
            alive: segments.second_alive,
        },
    ];
    search_segments(alloc, &ranked, statistics, query, docs)
}

// Returns the first of the limits of which the living documents of two segments aren't found as by a search.
fn first_wrong_living(
    alloc: Global,
    segments: &Segments<'_>,
    statistics: &GatheredStatistics,
    word: &str,
    query: &Query,
) -> Result<Option<(usize, usize)>, Fault>
    requires first { length segments.now.first.now.readers ≡ 1 }
    requires second { length segments.now.second.now.readers ≡ 1 }
    requires few { num_living segments.now.first_alive.now ≤ 1_000 }
    requires also_few { num_living segments.now.second_alive.now ≤ 1_000 }
    requires fields { has_fields 1 query.now ≡ true }
{
    for (limit, offset) in LIMITS {
        let docs = TopDocs::with_limit(limit).and_offset(offset);
        let expected = best_of_search(alloc, segments, statistics, query, &docs)?;
        let best = best_of_prepared(alloc, segments, statistics, word, &docs)?;
        if best.as_slice() != expected.as_slice() {
            return Ok(Some((limit, offset)));
        }
    }
    Ok(None)
}

#[test]
fn living_documents_are_found_as_by_a_search(rt: HostRuntime) -> Result<(), Fail> {
    let first = opened(rt.alloc(), &files_of_texts(rt.alloc(), NUM_DOCS)?)?;
    let second = opened(rt.alloc(), &files_of_texts(rt.alloc(), 250)?)?;
    let statistics = statistics(rt.alloc(), &first, NUM_DOCS)?;
    // deleted are each third text of the first segment, and of the second one each other text, or all
    let first_alive = alive(rt.alloc(), NUM_DOCS, 3)?;
    for step in [2, 1] {
        let second_alive = alive(rt.alloc(), 250, step)?;
        let segments = Segments {
            first: &first,
            first_alive: &first_alive,
            second: &second,
            second_alive: &second_alive,
        };
        for (word, _) in WORDS {
            let query = query_of(rt.alloc(), word, NUM_DOCS)?;
            let wrong = first_wrong_living(rt.alloc(), &segments, &statistics, word, &query)?;
            assert_eq!(rt; wrong, None, "{word}");
        }
    }
    Ok(())
}
