// The best documents of queries over a few texts, in one index or in two segments. The scores are those of a second
// program.
ghost use Rattle.std.specs.Prelude.{◌≡◌, ◌<◌, length, IfOk};

use ii_alive::AliveBits;
use ii_ram::{
    AsciiTokenizer, DocId, Fault, Field, FieldEntry, IndexCall, IndexRecordOption, OpenIndex,
    Query, Schema, Term, index_in_ram, parse_query,
};
use ii_ranking::{
    GatheredStatistics, RankedSegment, Score, TopDocs, explain, score_docs, search, search_segments,
};
use std::alloc::Global;
use std::test::Fail;

// The words of all texts.
static WORDS: [&str; 5] = ["the", "old", "sea", "red", "blue"];

// A schema of one field, with positions and norms.
fn schema(alloc: Global) -> Result<Schema, Fault>
    ensures { IfOk result (λ schema. length schema ≡ 1) }
{
    let mut entries = Vec::new(alloc);
    let name = String::from_str(alloc, "body")?;
    entries.push(FieldEntry::text(name, IndexRecordOption::WithFreqsAndPositions, true))?;
    Ok(Schema::new(entries))
}

// Indexes a text.
fn index_of_one(alloc: Global, text: &str) -> Result<OpenIndex, Fault>
    ensures { IfOk result (λ index. length index.readers ≡ 1) }
{
    let body = Field::from_field_id(0);
    let mut entries = Vec::new(alloc);
    let name = String::from_str(alloc, "body")?;
    entries.push(FieldEntry::text(name, IndexRecordOption::WithFreqsAndPositions, true))?;
    let mut calls = Vec::new(alloc);
    let text = String::from_str(alloc, text)?;
    calls.push(IndexCall::Text(0, body, text))?;
    index_in_ram(alloc, Schema::new(entries), 1, calls, &AsciiTokenizer)
}

// Indexes two texts, a document each.
fn index_of_two(alloc: Global, first: &str, second: &str) -> Result<OpenIndex, Fault>
    ensures { IfOk result (λ index. length index.readers ≡ 1) }
{
    let body = Field::from_field_id(0);
    let mut entries = Vec::new(alloc);
    let name = String::from_str(alloc, "body")?;
    entries.push(FieldEntry::text(name, IndexRecordOption::WithFreqsAndPositions, true))?;
    let mut calls = Vec::new(alloc);
    let text = String::from_str(alloc, first)?;
    calls.push(IndexCall::Text(0, body, text))?;
    let text = String::from_str(alloc, second)?;
    calls.push(IndexCall::Text(1, body, text))?;
    index_in_ram(alloc, Schema::new(entries), 2, calls, &AsciiTokenizer)
}

// Indexes three texts, a document each.
fn index_of_three(alloc: Global, first: &str, second: &str, third: &str) -> Result<OpenIndex, Fault>
    ensures { IfOk result (λ index. length index.readers ≡ 1) }
{
    let body = Field::from_field_id(0);
    let mut entries = Vec::new(alloc);
    let name = String::from_str(alloc, "body")?;
    entries.push(FieldEntry::text(name, IndexRecordOption::WithFreqsAndPositions, true))?;
    let mut calls = Vec::new(alloc);
    let text = String::from_str(alloc, first)?;
    calls.push(IndexCall::Text(0, body, text))?;
    let text = String::from_str(alloc, second)?;
    calls.push(IndexCall::Text(1, body, text))?;
    let text = String::from_str(alloc, third)?;
    calls.push(IndexCall::Text(2, body, text))?;
    index_in_ram(alloc, Schema::new(entries), 3, calls, &AsciiTokenizer)
}

// Returns the numbers of an index that scores need.
fn statistics(alloc: Global, index: &OpenIndex, num_docs: u64) -> Result<GatheredStatistics, Fault>
    requires { length index.now.readers ≡ 1 }
{
    let body = Field::from_field_id(0);
    let reader = index.reader(body);
    let mut num_tokens = Vec::new(alloc);
    num_tokens.push(reader.total_num_tokens())?;
    let mut statistics = GatheredStatistics::new(alloc, num_docs, num_tokens);
    for word in &WORDS {
        let term = Term::from_field_text(alloc, body, word)?;
        let doc_freq = u64::from(reader.doc_freq(&term));
        statistics.add_term(alloc, &term, doc_freq)?;
    }
    Ok(statistics)
}

// Parses the text of a query; one that doesn't match anything if it is none.
fn query(alloc: Global, text: &str) -> Result<Query, Fault> {
    let schema = schema(alloc)?;
    let body = [Field::from_field_id(0)];
    match parse_query(alloc, &schema, &body, &AsciiTokenizer, text) {
        Ok(query) => {
            if query.has_fields(&schema) {
                return Ok(query);
            }
            Ok(Query::Empty)
        }
        Err(_) => Ok(Query::Empty),
    }
}

// Writes documents with their scores.
fn written(alloc: Global, best: &[(Score, DocId)]) -> Result<String, Fault> {
    let mut text = String::new(alloc);
    for (score, doc) in best {
        write!(text, "{doc}:{score},")?;
    }
    Ok(text)
}

// Ranks the documents that match a text in an index of so many documents.
fn ranked(
    alloc: Global,
    index: &OpenIndex,
    num_docs: DocId,
    text: &str,
    docs: &TopDocs,
) -> Result<String, Fault>
    requires { length index.now.readers ≡ 1 }
{
    let statistics = statistics(alloc, index, u64::from(num_docs))?;
    let query = query(alloc, text)?;
    let schema = schema(alloc)?;
    if !query.has_fields(&schema) {
        return Ok(String::new(alloc));
    }
    let best = search(alloc, index, num_docs, &statistics, &query, docs)?;
    written(alloc, &best)
}

const SHORT: &str = "the old sea";

const LONG: &str = "the sea, the old sea";

// A text, how many of the best are wanted, how many are passed, and the best.
type Row = (&'static str, usize, usize, &'static str);

static SEA_ROWS: [Row; 15] = [
    ("old", 1, 0, "0:55825604729,"),
    ("the", 2, 0, "1:64382810291,0:55825604729,"),
    ("the OR old", 2, 0, "0:111651209458,1:109849025811,"),
    ("the AND old", 9, 0, "0:111651209458,1:109849025811,"),
    ("the OR old", 1, 1, "1:109849025811,"),
    ("\"the sea\"", 2, 0, "1:90932431040,"),
    ("\"old sea\"", 2, 0, "0:111651209458,1:90932431040,"),
    // a word between, twice in the second text, and words that are exchanged
    ("\"the sea\"~1", 2, 0, "1:128765620583,0:111651209458,"),
    ("\"sea the\"~2", 2, 0, "1:90932431040,"),
    ("old NOT \"the sea\"", 5, 0, "0:55825604729,"),
    ("o*", usize::MAX, 0, "0:274877906944,1:274877906944,"),
    ("\"the o\"*", 2, 0, "0:274877906944,1:274877906944,"),
    ("\"the s\"*", 2, 0, "1:274877906944,"),
    ("old", 0, 0, ""),
    ("old", 5, usize::MAX, ""),
];

static RED_ROWS: [Row; 2] = [
    ("red", 1, 0, "0:40886378957,"),
    ("red OR blue", 2, 0, "2:254297695545,0:40886378957,"),
];

#[test]
fn the_best_come_first(rt: HostRuntime) -> Result<(), Fail> {
    let sea = index_of_two(rt.alloc(), SHORT, LONG)?;
    for (text, limit, offset, wanted) in &SEA_ROWS {
        let docs = TopDocs::with_limit(*limit).and_offset(*offset);
        let best = ranked(rt.alloc(), &sea, 2, text, &docs)?;
        assert_eq!(rt; best.as_str(), *wanted);
    }
    let red = index_of_three(rt.alloc(), "red", "red", "red blue")?;
    for (text, limit, offset, wanted) in &RED_ROWS {
        let docs = TopDocs::with_limit(*limit).and_offset(*offset);
        let best = ranked(rt.alloc(), &red, 3, text, &docs)?;
        assert_eq!(rt; best.as_str(), *wanted);
    }
    Ok(())
}

// Ranks the documents that match a text in a segment for each of two texts, the first of which may be deleted, by the
// numbers of both.
fn ranked_in_segments(alloc: Global, text: &str, is_dead: bool) -> Result<String, Fault> {
    let whole = index_of_two(alloc, SHORT, LONG)?;
    let statistics = statistics(alloc, &whole, 2)?;
    let first = index_of_one(alloc, SHORT)?;
    let second = index_of_one(alloc, LONG)?;
    let mut alive = AliveBits::full(alloc, 1)?;
    if is_dead {
        alive.kill(0);
    }
    let all = AliveBits::full(alloc, 1)?;
    let query = query(alloc, text)?;
    let schema = schema(alloc)?;
    if !query.has_fields(&schema) {
        return Ok(String::new(alloc));
    }
    let segments = [
        RankedSegment {
            index: &first,
            alive: &alive,
        },
        RankedSegment {
            index: &second,
            alive: &all,
        },
    ];
    let best = search_segments(
        alloc,
        &segments,
        &statistics,
        &query,
        &TopDocs::with_limit(9),
    )?;
    written(alloc, &best)
}

#[test]
fn segments_are_ranked_as_one_index(rt: HostRuntime) -> Result<(), Fail> {
    let best = ranked_in_segments(rt.alloc(), "the OR old", false)?;
    assert_eq!(rt; best.as_str(), "0:111651209458,1:109849025811,");
    let best = ranked_in_segments(rt.alloc(), "the OR old", true)?;
    assert_eq!(rt; best.as_str(), "0:109849025811,");
    Ok(())
}

// Returns the scores of both texts.
fn scores(alloc: Global, text: &str) -> Result<Vec<Option<Score>>, Fault> {
    let index = index_of_two(alloc, SHORT, LONG)?;
    let statistics = statistics(alloc, &index, 2)?;
    let query = query(alloc, text)?;
    let schema = schema(alloc)?;
    if !query.has_fields(&schema) {
        return Ok(Vec::new(alloc));
    }
    score_docs(alloc, &index, 2, &statistics, &query)
}

#[test]
fn documents_that_match_have_a_score(rt: HostRuntime) -> Result<(), Fail> {
    let scores = scores(rt.alloc(), "\"the sea\"")?;
    assert_eq!(rt; scores.as_slice(), [None, Some(90_932_431_040)].as_slice());
    Ok(())
}

// Writes how often each part of a query occurs in a document, and what it scores.
fn explained(alloc: Global, text: &str, doc: DocId) -> Result<String, Fault> {
    let index = index_of_two(alloc, SHORT, LONG)?;
    let statistics = statistics(alloc, &index, 2)?;
    let query = query(alloc, text)?;
    let schema = schema(alloc)?;
    let mut written = String::new(alloc);
    if !query.has_fields(&schema) {
        return Ok(written);
    }
    let shares = explain(alloc, &index, &statistics, &query, doc)?;
    for share in &shares {
        write!(written, "{}:{},", share.count, share.score)?;
    }
    Ok(written)
}

// A text, a document, and the shares of its score: they sum to those of `SEA_ROWS`.
static SHARE_ROWS: [(&str, DocId, &str); 10] = [
    ("the OR old", 1, "2:64382810291,1:45466215520,"),
    ("the AND old", 0, "1:55825604729,1:55825604729,"),
    ("the AND red", 0, ""),
    ("\"old sea\"", 1, "1:90932431040,"),
    ("\"the sea\"~1", 1, "2:128765620583,"),
    ("old NOT \"the sea\"", 0, "1:55825604729,"),
    ("old NOT \"the sea\"", 1, ""),
    ("o*", 1, "1:274877906944,"),
    ("\"the s\"*", 1, "1:274877906944,"),
    ("\"the s\"*", 0, ""),
];

#[test]
fn scores_have_shares(rt: HostRuntime) -> Result<(), Fail> {
    for (text, doc, wanted) in &SHARE_ROWS {
        let shares = explained(rt.alloc(), text, *doc)?;
        assert_eq!(rt; shares.as_str(), *wanted);
    }
    Ok(())
}
