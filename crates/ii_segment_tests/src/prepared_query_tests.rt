// Prepared queries: each search gives what `ii_ranking::search` gives for the query.
ghost use Rattle.std.specs.Prelude.{◌≡◌, ◌≤◌, length, true};
ghost use Rattle.ii_alive.specs.Alive.{num_living};
ghost use Rattle.ii_query_parser.specs.Queries.{has_fields};

use crate::index_files::{files_of_texts, opened, query_of, statistics};
use crate::prepared_tests::alive;
use ii_alive::AliveBits;
use ii_prepared_term::PreparedQuery;
use ii_ram::{DocId, Fault, OpenIndex, Query};
use ii_ranking::{GatheredStatistics, RankedSegment, TopDocs, search, search_segments};
use std::alloc::Global;
use std::test::Fail;

// The number of texts.
const NUM_DOCS: DocId = 600;

// Queries of each kind, nested too.
static QUERIES: [&str; 22] = [
    "*",
    "storm",
    "sea",
    "u37 OR storm",
    "sea third",
    "sea OR third",
    "third OR u37 OR n5",
    "third AND n5",
    "sea AND u37",
    "sea NOT even",
    "third NOT n5",
    "* NOT third",
    "\"sea sea\"",
    "\"sea odd\"",
    "\"even third\"~3",
    "\"third n\"*",
    "u3*",
    "body:[n0 TO n3]",
    "(third OR n5) AND (even OR u37)",
    "(sea AND third) OR \"odd n3\" OR u5*",
    "((n1 OR n2) NOT third) AND sea",
    "(third NOT (n1 OR n2)) OR (u37 AND (odd OR even))",
];

// How many of the best are wanted, and how many are passed.
static LIMITS: [(usize, usize); 7] = [
    (0, 0),
    (1, 0),
    (3, 0),
    (10, 0),
    (3, 40),
    (1_000, 0),
    (usize::MAX, usize::MAX),
];

// Returns whether a prepared query, searched twice, gives what a search gives for it.
fn gives_the_same(
    alloc: Global,
    index: &OpenIndex,
    statistics: &GatheredStatistics,
    prepared: &PreparedQuery,
    query: &Query,
    num_docs: DocId,
    docs: &TopDocs,
) -> Result<bool, Fault>
    requires many { length index.now.readers ≡ 1 }
    requires fields { has_fields 1 query.now ≡ true }
{
    let expected = search(alloc, index, num_docs, statistics, query, docs)?;
    let first = prepared.search(alloc, num_docs, docs)?;
    let again = prepared.search(alloc, num_docs, docs)?;
    Ok(first.as_slice() == expected.as_slice() && again.as_slice() == expected.as_slice())
}

// Returns the first of the limits of which a query isn't found as by a search, with the number of documents.
fn first_wrong(
    alloc: Global,
    index: &OpenIndex,
    statistics: &GatheredStatistics,
    query: &Query,
) -> Result<Option<(usize, usize, DocId)>, Fault>
    requires many { length index.now.readers ≡ 1 }
    requires fields { has_fields 1 query.now ≡ true }
{
    let prepared = PreparedQuery::open(alloc, index, statistics, query)?;
    for (limit, offset) in LIMITS {
        for num_docs in [0, 1, 100, NUM_DOCS] {
            let docs = TopDocs::with_limit(limit).and_offset(offset);
            if !gives_the_same(alloc, index, statistics, &prepared, query, num_docs, &docs)? {
                return Ok(Some((limit, offset, num_docs)));
            }
        }
    }
    Ok(None)
}

#[test]
fn prepared_queries_are_searched_as_queries(rt: HostRuntime) -> Result<(), Fail> {
    let files = files_of_texts(rt.alloc(), NUM_DOCS)?;
    let index = opened(rt.alloc(), &files)?;
    let statistics = statistics(rt.alloc(), &index, NUM_DOCS)?;
    for text in QUERIES {
        let query = query_of(rt.alloc(), text, NUM_DOCS)?;
        let wrong = first_wrong(rt.alloc(), &index, &statistics, &query)?;
        assert_eq!(rt; wrong, None, "{text}");
    }
    Ok(())
}

// Returns the first of the limits of which the living documents of an index aren't found as by a search.
fn first_wrong_living(
    alloc: Global,
    index: &OpenIndex,
    alive: &AliveBits,
    statistics: &GatheredStatistics,
    query: &Query,
) -> Result<Option<(usize, usize)>, Fault>
    requires many { length index.now.readers ≡ 1 }
    requires few { num_living alive.now ≤ 1_000 }
    requires fields { has_fields 1 query.now ≡ true }
{
    let prepared = PreparedQuery::open(alloc, index, statistics, query)?;
    for (limit, offset) in LIMITS {
        let docs = TopDocs::with_limit(limit).and_offset(offset);
        let ranked = [RankedSegment { index, alive }];
        let expected = search_segments(alloc, &ranked, statistics, query, &docs)?;
        let mut computer = docs.computer(alloc);
        prepared.push_living(alloc, alive, 0, &mut computer)?;
        let best = docs.best_of(computer)?;
        if best.as_slice() != expected.as_slice() {
            return Ok(Some((limit, offset)));
        }
    }
    Ok(None)
}

#[test]
fn living_documents_of_queries_are_found_as_by_a_search(rt: HostRuntime) -> Result<(), Fail> {
    let index = opened(rt.alloc(), &files_of_texts(rt.alloc(), NUM_DOCS)?)?;
    let statistics = statistics(rt.alloc(), &index, NUM_DOCS)?;
    let alive = alive(rt.alloc(), NUM_DOCS, 3)?;
    for text in QUERIES {
        let query = query_of(rt.alloc(), text, NUM_DOCS)?;
        let wrong = first_wrong_living(rt.alloc(), &index, &alive, &statistics, &query)?;
        assert_eq!(rt; wrong, None, "{text}");
    }
    Ok(())
}
