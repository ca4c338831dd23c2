// What a query reads of an index: searched in it, it finds the documents of the complete index, with their scores.
ghost use Rattle.std.specs.Prelude.{◌≡◌, IfOk, length, true};
ghost use Rattle.ii_query_parser.specs.Queries.{has_fields};

use crate::index_files::{
    Files, block_file, changed_file, files_of_texts, opened, query_of, schema, statistics,
};
use ii_file_slice::{FileFault, FileHandle, ReadFault};
use ii_ram::{DocId, DocSet, Fault, OpenIndex, Query, TERMINATED};
use ii_ranking::{GatheredStatistics, Score, TopDocs};
use ii_warmup::{EnableScoring, IndexHandles, SearchHints, warm_up};
use std::alloc::Global;
use std::test::Fail;

// The number of texts.
const NUM_DOCS: DocId = 300;

// Queries of each kind.
static QUERIES: [&str; 15] = [
    "sea",
    "third",
    "u37",
    "\"even third\"",
    "\"sea odd\"",
    "\"sea third\"~1",
    "\"even t\"*",
    "third AND n5",
    "u3 OR n6",
    "third NOT even",
    "u1*",
    "body:[n2 TO n4]",
    "*",
    "* NOT n0",
    "storm",
];

// Returns whether a query matches the text of a document.
fn matches(query: &str, doc: DocId) -> bool {
    let rest = doc % 7;
    match query {
        "sea" | "*" => true,
        "third" | "\"sea third\"~1" => doc % 3 == 0,
        "u37" => doc == 37,
        "\"even third\"" | "\"even t\"*" => doc % 6 == 0,
        "\"sea odd\"" => doc % 2 == 1,
        "third AND n5" => doc % 3 == 0 && rest == 5,
        "u3 OR n6" => doc == 3 || rest == 6,
        "third NOT even" => doc % 6 == 3,
        "u1*" => doc == 1 || doc / 10 == 1 || doc / 100 == 1,
        "body:[n2 TO n4]" => rest >= 2 && rest <= 4,
        "* NOT n0" => rest != 0,
        _ => false,
    }
}

// Lists the documents whose texts a query matches.
fn expected(alloc: Global, query: &str) -> Result<Vec<DocId>, Fault> {
    let mut docs = Vec::new(alloc);
    for doc in 0..NUM_DOCS {
        if matches(query, doc) {
            docs.push(doc)?;
        }
    }
    Ok(docs)
}

// Lists the documents of a cursor.
fn documents<D: DocSet>(alloc: Global, cursor: &mut D) -> Result<Vec<DocId>, Fault> {
    let mut docs = Vec::new(alloc);
    for _ in 0..2 * NUM_DOCS {
        let doc = cursor.doc();
        if doc >= TERMINATED {
            return Ok(docs);
        }
        docs.push(doc)?;
        cursor.advance();
    }
    Ok(docs)
}

// Lists the documents of an index that match a query.
fn found(alloc: Global, index: &OpenIndex, query: &Query) -> Result<Vec<DocId>, Fault>
    requires many { length index.now.readers ≡ 1 }
    requires fields { has_fields 1 query.now ≡ true }
{
    let mut cursor = ii_ram::search(alloc, index, query)?;
    documents(alloc, &mut cursor)
}

// Lists the best documents of an index that match a query, with their scores.
fn ranked(
    alloc: Global,
    index: &OpenIndex,
    statistics: &GatheredStatistics,
    query: &Query,
    limit: usize,
) -> Result<Vec<(Score, DocId)>, Fault>
    requires many { length index.now.readers ≡ 1 }
    requires fields { has_fields 1 query.now ≡ true }
{
    let docs = TopDocs::with_limit(limit);
    ii_ranking::search(alloc, index, NUM_DOCS, statistics, query, &docs)
}

// Reads what a query needs of an index.
fn warmed<H: FileHandle>(
    alloc: Global,
    files: &IndexHandles<'_, H>,
    query: &Query,
    scoring: EnableScoring,
) -> Result<OpenIndex, Fail>
    ensures { IfOk result (λ index. length index.readers ≡ 1) }
{
    let schema = schema(alloc)?;
    let mut hints = SearchHints::new(alloc);
    Ok(warm_up(alloc, files, &schema, query, scoring, &mut hints)?)
}

// Returns whether what a query reads of an index has these documents that match.
fn finds<H: FileHandle>(
    alloc: Global,
    files: &IndexHandles<'_, H>,
    query: &Query,
    scoring: EnableScoring,
    expected: &[DocId],
) -> Result<bool, Fail>
    requires { has_fields 1 query.now ≡ true }
{
    let part = warmed(alloc, files, query, scoring)?;
    let found = found(alloc, &part, query)?;
    Ok(found.as_slice() == expected)
}

// Returns whether what a query reads of an index has the documents that the query matches.
fn finds_the_same<H: FileHandle>(
    alloc: Global,
    files: &IndexHandles<'_, H>,
    text: &str,
) -> Result<bool, Fail> {
    let query = query_of(alloc, text, NUM_DOCS)?;
    let expected = expected(alloc, text)?;
    let docs = expected.as_slice();
    if !finds(alloc, files, &query, EnableScoring::Disabled, docs)? {
        return Ok(false);
    }
    finds(alloc, files, &query, EnableScoring::Enabled, docs)
}

// Returns whether a part of an index has the best documents of the complete index, with their scores.
fn is_ranked_the_same(
    alloc: Global,
    part: &OpenIndex,
    whole: &OpenIndex,
    query: &Query,
    limit: usize,
) -> Result<bool, Fault>
    requires part { length part.now.readers ≡ 1 }
    requires whole { length whole.now.readers ≡ 1 }
    requires fields { has_fields 1 query.now ≡ true }
{
    let statistics = statistics(alloc, whole, NUM_DOCS)?;
    let best = ranked(alloc, whole, &statistics, query, limit)?;
    let of_part = ranked(alloc, part, &statistics, query, limit)?;
    Ok(of_part.as_slice() == best.as_slice())
}

// Returns whether what a query reads of an index has the best documents of the complete index, with their scores.
fn ranks_the_same<H: FileHandle>(
    alloc: Global,
    files: &IndexHandles<'_, H>,
    whole: &OpenIndex,
    text: &str,
) -> Result<bool, Fail>
    requires { length whole.now.readers ≡ 1 }
{
    let query = query_of(alloc, text, NUM_DOCS)?;
    let part = warmed(alloc, files, &query, EnableScoring::Enabled)?;
    if !is_ranked_the_same(alloc, &part, whole, &query, 5)? {
        return Ok(false);
    }
    let is_same = is_ranked_the_same(alloc, &part, whole, &query, 1_000)?;
    Ok(is_same)
}

// Returns the first query of which what is read isn't the same.
fn first_wrong<H: FileHandle>(
    alloc: Global,
    files: &IndexHandles<'_, H>,
    whole: &OpenIndex,
) -> Result<Option<usize>, Fail>
    requires { length whole.now.readers ≡ 1 }
{
    for place in 0..QUERIES.len() {
        let text = QUERIES[place];
        if !finds_the_same(alloc, files, text)? {
            return Ok(Some(place));
        }
        if !ranks_the_same(alloc, files, whole, text)? {
            return Ok(Some(place));
        }
    }
    Ok(None)
}

#[test]
fn the_complete_index_finds_what_matches(rt: HostRuntime) -> Result<(), Fail> {
    let files = files_of_texts(rt.alloc(), NUM_DOCS)?;
    let whole = opened(rt.alloc(), &files)?;
    for text in QUERIES {
        let query = query_of(rt.alloc(), text, NUM_DOCS)?;
        let found = found(rt.alloc(), &whole, &query)?;
        let expected = expected(rt.alloc(), text)?;
        assert_eq!(rt; found.as_slice(), expected.as_slice(), "{text}");
    }
    Ok(())
}

#[test]
fn what_is_read_of_bytes_finds_the_same(rt: HostRuntime) -> Result<(), Fail> {
    let files = files_of_texts(rt.alloc(), NUM_DOCS)?;
    let whole = opened(rt.alloc(), &files)?;
    let handles = IndexHandles {
        terms: &files.terms,
        postings: &files.postings,
        positions: &files.positions,
        fieldnorms: &files.fieldnorms,
    };
    assert_eq!(rt; first_wrong(rt.alloc(), &handles, &whole)?, None);
    Ok(())
}

#[test]
fn what_is_read_of_blocks_finds_the_same(rt: HostRuntime) -> Result<(), Fail> {
    let files = files_of_texts(rt.alloc(), NUM_DOCS)?;
    let whole = opened(rt.alloc(), &files)?;
    let terms = block_file(rt.alloc(), &files.terms)?;
    let postings = block_file(rt.alloc(), &files.postings)?;
    let positions = block_file(rt.alloc(), &files.positions)?;
    let fieldnorms = block_file(rt.alloc(), &files.fieldnorms)?;
    let handles = IndexHandles {
        terms: &terms,
        postings: &postings,
        positions: &positions,
        fieldnorms: &fieldnorms,
    };
    assert_eq!(rt; first_wrong(rt.alloc(), &handles, &whole)?, None);
    Ok(())
}

// Returns why what a query reads can't be read, if a byte of the norms was changed.
fn fault_of(
    alloc: Global,
    files: &Files,
    text: &str,
    scoring: EnableScoring,
) -> Result<Option<FileFault>, Fail> {
    let terms = block_file(alloc, &files.terms)?;
    let postings = block_file(alloc, &files.postings)?;
    let positions = block_file(alloc, &files.positions)?;
    let fieldnorms = changed_file(alloc, &files.fieldnorms, 7)?;
    let handles = IndexHandles {
        terms: &terms,
        postings: &postings,
        positions: &positions,
        fieldnorms: &fieldnorms,
    };
    let query = query_of(alloc, text, NUM_DOCS)?;
    let schema = schema(alloc)?;
    let mut hints = SearchHints::new(alloc);
    Ok(warm_up(alloc, &handles, &schema, &query, scoring, &mut hints).err())
}

#[test]
fn norms_are_read_only_for_scores(rt: HostRuntime) -> Result<(), Fail> {
    let files = files_of_texts(rt.alloc(), NUM_DOCS)?;
    let damaged = Some(FileFault::Read(ReadFault::Damaged(0)));
    for (scoring, expected) in [
        (EnableScoring::Disabled, None),
        (EnableScoring::Enabled, damaged),
    ] {
        let fault = fault_of(rt.alloc(), &files, "third", scoring)?;
        assert_eq!(rt; fault, expected, "{scoring:?}");
    }
    Ok(())
}
