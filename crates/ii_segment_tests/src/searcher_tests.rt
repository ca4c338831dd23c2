// Queries over two segments of two texts each, some of them deleted.
ghost use Rattle.std.specs.Prelude.{◌≡◌, length, IfOk};

use ii_alive::AliveBits;
use ii_ram::{
    AsciiTokenizer, DocId, DocSet, Fault, Field, FieldEntry, IndexCall, IndexRecordOption, Schema,
    TERMINATED, index_in_ram, parse_query,
};
use ii_segment_search::{OpenSegment, Searcher};
use std::alloc::Global;
use std::test::Fail;

// A schema of one field, with positions.
fn schema(alloc: Global) -> Result<Schema, Fault>
    ensures { IfOk result (λ schema. length schema ≡ 1) }
{
    let mut entries = Vec::new(alloc);
    let name = String::from_str(alloc, "body")?;
    entries.push(FieldEntry::text(name, IndexRecordOption::WithFreqsAndPositions, true))?;
    Ok(Schema::new(entries))
}

// Indexes two texts as a segment, and deletes one of them.
fn segment(
    alloc: Global,
    first: &str,
    second: &str,
    dead: Option<DocId>,
) -> Result<OpenSegment, Fault>
    ensures { IfOk result (λ segment. length segment.index.readers ≡ 1) }
{
    let body = Field::from_field_id(0);
    let mut entries = Vec::new(alloc);
    let name = String::from_str(alloc, "body")?;
    entries.push(FieldEntry::text(name, IndexRecordOption::WithFreqsAndPositions, true))?;
    let mut calls = Vec::new(alloc);
    let text = String::from_str(alloc, first)?;
    calls.push(IndexCall::Text(0, body, text))?;
    let text = String::from_str(alloc, second)?;
    calls.push(IndexCall::Text(1, body, text))?;
    let index = index_in_ram(alloc, Schema::new(entries), 2, calls, &AsciiTokenizer)?;
    let mut alive = AliveBits::full(alloc, 2)?;
    if let Some(doc) = dead {
        if doc < alive.num_docs() {
            alive.kill(doc);
        }
    }
    Ok(OpenSegment::new(index, alive))
}

// Lists the documents of a cursor, each followed by a comma.
fn documents<D: DocSet>(alloc: Global, cursor: &mut D) -> Result<String, Fault> {
    let mut text = String::new(alloc);
    for _ in 0..8 {
        let doc = cursor.doc();
        if doc >= TERMINATED {
            return Ok(text);
        }
        write!(text, "{doc},")?;
        cursor.advance();
    }
    Ok(text)
}

// Lists the documents that match a text, where a document of each segment may be deleted, and their number.
fn found(
    alloc: Global,
    text: &str,
    first_dead: Option<DocId>,
    second_dead: Option<DocId>,
) -> Result<String, Fault> {
    let first = segment(alloc, "the old sea", "a bird", first_dead)?;
    let second = segment(alloc, "the sea and a bird", "old", second_dead)?;
    let mut segments = Vec::new(alloc);
    segments.push(first)?;
    segments.push(second)?;
    let Some(searcher) = Searcher::new(segments) else {
        return Ok(String::new(alloc));
    };
    let schema = schema(alloc)?;
    let body = [Field::from_field_id(0)];
    let Ok(query) = parse_query(alloc, &schema, &body, &AsciiTokenizer, text) else {
        return Ok(String::new(alloc));
    };
    let mut cursor = searcher.search(alloc, &query)?;
    let mut listed = documents(alloc, &mut cursor)?;
    let number = searcher.num_docs();
    write!(listed, "of {number}")?;
    Ok(listed)
}

// A text, the deleted documents of the segments, and what is found.
type Row = (&'static str, Option<DocId>, Option<DocId>, &'static str);

static ROWS: [Row; 16] = [
    ("sea", None, None, "0,2,of 4"),
    ("bird", None, None, "1,2,of 4"),
    ("old", None, None, "0,3,of 4"),
    ("\"old sea\"", None, None, "0,of 4"),
    ("bird sea", None, None, "0,1,2,of 4"),
    ("old NOT sea", None, None, "3,of 4"),
    ("\"the s\"*", None, None, "2,of 4"),
    ("\"a b\"*", None, None, "1,2,of 4"),
    ("\"a b\"*", Some(0), None, "0,1,of 3"),
    ("\"the old s\"*", Some(1), Some(0), "0,of 2"),
    ("storm", None, None, "of 4"),
    ("sea", Some(0), None, "1,of 3"),
    ("bird", Some(0), None, "0,1,of 3"),
    ("old", None, Some(0), "0,2,of 3"),
    ("old", Some(1), Some(0), "0,1,of 2"),
    ("sea", Some(0), Some(0), "of 2"),
];

#[test]
fn segments_are_searched_as_one_index(rt: HostRuntime) -> Result<(), Fail> {
    for (text, first_dead, second_dead, wanted) in &ROWS {
        let found = found(rt.alloc(), text, *first_dead, *second_dead)?;
        assert_eq!(rt; found.as_str(), *wanted);
    }
    Ok(())
}
