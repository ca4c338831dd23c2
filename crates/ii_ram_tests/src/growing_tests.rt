// Texts of many words: their positions, norms and block bounds.
ghost use Rattle.std.specs.Prelude.{◌≡◌, length};

use crate::memory_index::{
    Call, FULL, Key, Kind, Said, calls_of, cursor_of, indexed, push_doc, repeated, told,
};
use ii_base::{Fault, Field, Term};
use ii_docset::{CursorAnswer, CursorCall, DocId, DocSet, Postings, TERMINATED, walk};
use ii_fieldnorm::FieldNormReader;
use ii_indexing::IndexCall;
use ii_reader::{LoadedPostings, OpenIndex, SegmentPostings};
use std::alloc::Global;
use std::test::Fail;

// A field with norms and one without.
static FIELDS: [Kind; 2] = [Kind::Text(true), Kind::Text(false)];

// Adds a text of `count` times `e` and an `a`.
fn push_many(
    alloc: Global,
    calls: &mut Vec<IndexCall>,
    doc: DocId,
    field: u32,
    count: u32,
) -> Result<(), Fault> {
    let text = repeated(alloc, "e ", count as usize)?;
    Ok(calls.push(IndexCall::Text(doc, Field::from_field_id(field), text))?)
}

// The last document, which has no text.
const LAST: DocId = 1000;

const DOCS: u32 = 1001;

static FIRST: [Call; 3] = [
    (0, 0, Said::Text("a b a c a d a a.")),
    (0, 0, Said::Text("d d d d a")),
    (1, 0, Said::Text("b a")),
];

// Returns these texts, and for each later document as many `e` as its number and an `a`.
fn growing_calls(alloc: Global) -> Result<Vec<IndexCall>, Fault> {
    let mut calls = calls_of(alloc, &FIRST)?;
    for doc in 2..LAST {
        push_many(alloc, &mut calls, doc, 0, doc)?;
    }
    Ok(calls)
}

static WORDS: [Key; 3] = [(0, b"a"), (0, b"e"), (0, b"abcdef")];

// Appends the expected postings of `e` in a document.
fn push_wanted(text: &mut String, doc: DocId) -> Result<(), Fault> {
    write!(text, "{doc}:{doc}:")?;
    for position in 0..doc {
        write!(text, "{position},")?;
    }
    Ok(text.push(' ')?)
}

// Returns the expected postings of these words.
fn wanted(alloc: Global) -> Result<String, Fault> {
    let mut text = String::from_str(alloc, "0:6:0,2,4,6,7,13, 1:1:1, ")?;
    for doc in 2..LAST {
        write!(text, "{doc}:1:{doc}, ")?;
    }
    text.push_str("; ")?;
    for doc in 2..LAST {
        push_wanted(&mut text, doc)?;
    }
    text.push_str("; ; 500512 tokens of 5 terms")?;
    Ok(text)
}

// Returns how many words a document has.
fn length_of(doc: DocId) -> u32 {
    match doc {
        0 => 13,
        1 => 2,
        LAST => 0,
        _ => doc.saturating_add(1),
    }
}

// Returns whether each norm is that of the document's number of words.
fn are_growing(norms: &FieldNormReader) -> bool {
    if norms.num_docs() != DOCS {
        return false;
    }
    for doc in 0..DOCS {
        if norms.fieldnorm_id(doc) != FieldNormReader::fieldnorm_to_id(length_of(doc)) {
            return false;
        }
    }
    (norms.fieldnorm(0), norms.fieldnorm(LAST)) == (13, 0)
}

// Returns whether field 0 has these norms and field 1 has none.
fn have_norms(index: &OpenIndex) -> Result<bool, Fault> {
    if index
        .get_fieldnorms_reader(Field::from_field_id(1))?
        .is_some()
    {
        return Ok(false);
    }
    match index.get_fieldnorms_reader(Field::from_field_id(0))? {
        Some(norms) => {
            let right = are_growing(&norms);
            drop(norms);
            Ok(right)
        }
        None => Ok(false),
    }
}

// Returns the postings of the words, and whether the norms are right.
fn told_of_growing(alloc: Global) -> Result<(String, bool), Fault> {
    let calls = growing_calls(alloc)?;
    let (num_fields, index) = indexed(alloc, &FIELDS, DOCS, calls)?;
    let right = have_norms(&index);
    let told = told(alloc, num_fields, &index, &WORDS);
    drop(index);
    Ok((told?, right?))
}

#[test]
fn growing_texts_are_found_and_have_their_norms(rt: HostRuntime) -> Result<(), Fail> {
    let (told, right) = told_of_growing(rt.alloc())?;
    let wanted = wanted(rt.alloc())?;
    assert!(rt; (told == wanted, right) == (true, true));
    Ok(())
}

// Returns whether a walk over the current document gives it, its count, and the next one.
fn is_walked<P: Postings>(alloc: Global, cursor: &mut P, wanted: (DocId, u32, DocId)) -> bool {
    if cursor.doc() >= TERMINATED {
        return false;
    }
    let calls = [CursorCall::Doc, CursorCall::TermFreq, CursorCall::Advance];
    let walked = walk(alloc, cursor, &calls);
    let (doc, count, next) = wanted;
    let answers = [
        CursorAnswer::Doc(doc),
        CursorAnswer::Freq(count),
        CursorAnswer::Doc(next),
    ];
    walked.complete && walked.answers.as_slice() == answers.as_slice()
}

// A word, its first document, and how much its count grows from one document to the next.
static WALKED: [(Key, DocId, u32); 2] = [((0, b"a"), 0, 0), ((0, b"e"), 2, 1)];

// Returns how often such a word occurs in a document: `a` six times in the first and once in each other.
fn count_in(doc: DocId, growth: u32) -> u32 {
    if doc == 0 {
        return 6;
    }
    let count = doc.saturating_mul(growth);
    if count == 0 { 1 } else { count }
}

// Returns whether a cursor is walked over the documents from the first one on, to its end.
fn are_walked<P: Postings>(alloc: Global, cursor: &mut P, first: DocId, growth: u32) -> bool {
    for doc in first..LAST {
        let next = if doc == LAST - 1 { TERMINATED } else { doc + 1 };
        if !is_walked(alloc, cursor, (doc, count_in(doc, growth), next)) {
            return false;
        }
    }
    cursor.doc() == TERMINATED
}

// Returns the same for a copy of a cursor, and for what the cursor is loaded into.
fn walked_and_loaded(
    alloc: Global,
    cursor: &mut SegmentPostings,
    first: DocId,
    growth: u32,
) -> Result<[bool; 2], Fault> {
    let walked = are_walked(alloc, &mut cursor.clone()?, first, growth);
    let mut loaded = LoadedPostings::load(alloc, cursor)?;
    Ok([walked, are_walked(alloc, &mut loaded, first, growth)])
}

// Returns the same for a word.
fn walks_of_word(
    alloc: Global,
    num_fields: usize,
    index: &OpenIndex,
    row: &(Key, DocId, u32),
) -> Result<[bool; 2], Fault>
    requires { num_fields ≡ length index.now.readers }
{
    let (word, first, growth) = row;
    match cursor_of(alloc, num_fields, index, word)? {
        Some(mut cursor) => walked_and_loaded(alloc, &mut cursor, *first, *growth),
        None => Ok([false; 2]),
    }
}

// Returns the same for both words in the index of the growing texts.
fn walks_of_growing(alloc: Global) -> Result<[[bool; 2]; 2], Fault> {
    let calls = growing_calls(alloc)?;
    let (num_fields, index) = indexed(alloc, &FIELDS, DOCS, calls)?;
    let of_a = walks_of_word(alloc, num_fields, &index, &WALKED[0]);
    let of_e = walks_of_word(alloc, num_fields, &index, &WALKED[1]);
    drop(index);
    Ok([of_a?, of_e?])
}

#[test]
fn counts_are_walked(rt: HostRuntime) -> Result<(), Fail> {
    assert!(rt; walks_of_growing(rt.alloc())? == [[true; 2]; 2]);
    Ok(())
}

// The last of many documents with few words.
const MANY: DocId = 1002;

// Gives documents 1 and 1002 `abc be be be be abc`, and each other up to there `abc abc abc`.
fn many_calls(alloc: Global) -> Result<Vec<IndexCall>, Fault> {
    let mut calls = Vec::new(alloc);
    for doc in 0..MANY + 1 {
        let text = if doc == 1 || doc == MANY {
            "abc be be be be abc"
        } else {
            "abc abc abc"
        };
        let text = String::from_str(alloc, text)?;
        calls.push(IndexCall::Text(doc, Field::from_field_id(1), text))?;
    }
    Ok(calls)
}

// Targets of consecutive seeks, and what is found.
static SEEKS: [(&[DocId], &str); 3] = [
    (&[1], "1:2:0,5, "),
    (&[MANY], "1002:2:0,5, "),
    (&[100, MANY], "100:3:0,1,2, 1002:2:0,5, "),
];

// Lists what a cursor finds by seeks.
fn sought(alloc: Global, cursor: &mut SegmentPostings, targets: &[DocId]) -> Result<String, Fault> {
    let mut text = String::new(alloc);
    for target in targets {
        if cursor.doc() <= *target && *target <= TERMINATED {
            let _found = cursor.seek(*target);
        }
        push_doc(alloc, &mut text, cursor)?;
    }
    Ok(text)
}

// Returns how many rows of seeks find what they should.
fn right_seeks(alloc: Global, cursor: &SegmentPostings) -> Result<usize, Fault> {
    let mut right = 0usize;
    for (targets, wanted) in &SEEKS {
        let found = sought(alloc, &mut cursor.clone()?, targets)?;
        if found.as_str() == *wanted {
            right = right.saturating_add(1);
        }
    }
    Ok(right)
}

// Returns the same for `abc` in the index of the many documents.
fn seeks_of_many(alloc: Global) -> Result<usize, Fault> {
    let calls = many_calls(alloc)?;
    let (num_fields, index) = indexed(alloc, &FIELDS, MANY + 1, calls)?;
    let cursor = cursor_of(alloc, num_fields, &index, &(1, b"abc"));
    drop(index);
    match cursor? {
        Some(cursor) => right_seeks(alloc, &cursor),
        None => Ok(0),
    }
}

#[test]
fn many_documents_are_sought(rt: HostRuntime) -> Result<(), Fail> {
    assert!(rt; seeks_of_many(rt.alloc())? == 3);
    Ok(())
}

const FALLING: u32 = 130;

// Gives each document of both fields as many `e` as there are later documents, and an `a`.
fn falling_calls(alloc: Global) -> Result<Vec<IndexCall>, Fault> {
    let mut calls = Vec::new(alloc);
    for doc in 0..FALLING {
        push_many(alloc, &mut calls, doc, 0, FALLING - 1 - doc)?;
        push_many(alloc, &mut calls, doc, 1, FALLING - 1 - doc)?;
    }
    Ok(calls)
}

static BOUNDED: [Key; 4] = [(0, b"a"), (0, b"e"), (1, b"a"), (1, b"e")];

// Returns the bounds of the first block of a word.
fn bounds_of(
    alloc: Global,
    num_fields: usize,
    index: &OpenIndex,
    word: &Key,
) -> Result<Option<(u8, u8)>, Fault>
    requires { num_fields ≡ length index.now.readers }
{
    let (field, bytes) = *word;
    if field as usize >= num_fields {
        return Ok(None);
    }
    let field = Field::from_field_id(field);
    let term = Term::from_field_bytes(alloc, field, bytes)?;
    let blocks = index.reader(field).read_block_postings(&term, FULL);
    drop(term);
    match blocks? {
        Some(blocks) => {
            let bounds = blocks.block_bounds();
            drop(blocks);
            Ok(bounds)
        }
        None => Ok(None),
    }
}

// Returns these bounds for all words.
fn all_bounds(
    alloc: Global,
    num_fields: usize,
    index: &OpenIndex,
) -> Result<Vec<Option<(u8, u8)>>, Fault>
    requires { num_fields ≡ length index.now.readers }
{
    let mut bounds = Vec::new(alloc);
    for word in &BOUNDED {
        bounds.push(bounds_of(alloc, num_fields, index, word)?)?;
    }
    Ok(bounds)
}

// Returns the bounds in the index of these texts.
fn falling_bounds(alloc: Global) -> Result<Vec<Option<(u8, u8)>>, Fault> {
    let calls = falling_calls(alloc)?;
    let (num_fields, index) = indexed(alloc, &FIELDS, FALLING, calls)?;
    let bounds = all_bounds(alloc, num_fields, &index);
    drop(index);
    bounds
}

// The bounds of `a` and `e` in the field with norms, then in the field without.
static BOUNDS: [Option<(u8, u8)>; 4] = [Some((3, 1)), Some((3, 129)), Some((0, 0)), Some((0, 0))];

#[test]
fn blocks_are_bounded_by_norms_and_counts(rt: HostRuntime) -> Result<(), Fail> {
    let bounds = falling_bounds(rt.alloc())?;
    assert!(rt; bounds.as_slice() == BOUNDS.as_slice());
    Ok(())
}
