// Two segments, merged: each file is that of an index of the living documents.
ghost use Rattle.std.specs.Prelude.{◌≡◌, length, IfOk};

use bytes::Bytes;
use ii_alive::AliveBits;
use ii_merger::{MergeSource, merge};
use ii_ram::{
    AsciiTokenizer, DocId, Fault, FieldEntry, IndexRecordOption, IndexWriters, OpenIndex, Schema,
    ValueType, open_index_with_norms,
};
use nequllpa_indexing::Documents;
use std::alloc::Global;
use std::test::Fail;

// Texts with positions and norms, texts without counts, integers with norms, and JSON values.
fn schema(alloc: Global) -> Result<Schema, Fault>
    ensures { IfOk result (λ schema. length schema ≡ 4) }
{
    let mut entries = Vec::new(alloc);
    let name = String::from_str(alloc, "body")?;
    entries.push(FieldEntry::text(name, IndexRecordOption::WithFreqsAndPositions, true))?;
    let name = String::from_str(alloc, "flag")?;
    entries.push(FieldEntry::text(name, IndexRecordOption::Basic, false))?;
    let name = String::from_str(alloc, "n")?;
    entries.push(FieldEntry::value(name, ValueType::U64, true))?;
    let name = String::from_str(alloc, "j")?;
    entries.push(FieldEntry::json(name, IndexRecordOption::WithFreqsAndPositions, false))?;
    Ok(Schema::new(entries))
}

// The files of an index.
#[derive(Drop)]
struct Files {
    terms: Vec<u8>,
    postings: Vec<u8>,
    positions: Vec<u8>,
    fieldnorms: Vec<u8>,
}

// Adds documents, except the dead one.
fn push_lines(
    alloc: Global,
    documents: &mut Documents,
    lines: &[&'static str],
    dead: Option<DocId>,
) -> Result<(), Fault> {
    for place in 0..lines.len() {
        if dead == Some(place.min(1000) as u32) {
            continue;
        }
        if documents.push_line(alloc, lines[place]).is_err() {
            return Err(Fault::IndexerFailed);
        }
    }
    Ok(())
}

// Writes the files of an index.
fn written(alloc: Global, documents: Documents) -> Result<Files, Fault> {
    let writers = IndexWriters::in_memory(alloc);
    let (writers, result) = documents.write(alloc, &AsciiTokenizer, writers);
    match result {
        Ok(()) => {
            let IndexWriters {
                terms,
                postings,
                positions,
                fieldnorms,
            } = writers;
            Ok(Files {
                terms: terms.finish(),
                postings: postings.finish(),
                positions: positions.finish(),
                fieldnorms: fieldnorms.finish(),
            })
        }
        Err(fault) => Err(fault),
    }
}

// Indexes documents as a segment.
fn segment(alloc: Global, lines: &[&'static str]) -> Result<OpenIndex, Fault>
    ensures { IfOk result (λ index. length index.readers ≡ 4) }
{
    let mut documents = Documents::new(alloc, schema(alloc)?);
    push_lines(alloc, &mut documents, lines, None)?;
    let Files {
        terms,
        postings,
        positions,
        fieldnorms,
    } = written(alloc, documents)?;
    let schema = schema(alloc)?;
    open_index_with_norms(
        alloc,
        Bytes::from_vec(terms)?,
        Bytes::from_vec(postings)?,
        Bytes::from_vec(positions)?,
        Bytes::from_vec(fieldnorms)?,
        &schema,
    )
}

// Returns which documents are alive.
fn alive(alloc: Global, lines: &[&'static str], dead: Option<DocId>) -> Result<AliveBits, Fault> {
    let mut alive = AliveBits::full(alloc, lines.len().min(1000) as u32)?;
    if let Some(doc) = dead {
        if doc < alive.num_docs() {
            alive.kill(doc);
        }
    }
    Ok(alive)
}

// Merges two segments.
fn merged(alloc: Global, row: &Row) -> Result<Files, Fault> {
    let (first, first_dead, second, second_dead, num_tokens) = *row;
    let schema = schema(alloc)?;
    let first_index = segment(alloc, first)?;
    let first_alive = alive(alloc, first, first_dead)?;
    let second_index = segment(alloc, second)?;
    let second_alive = alive(alloc, second, second_dead)?;
    if first_alive.num_living() > 10 || second_alive.num_living() > 10 {
        return Err(Fault::IndexerFailed);
    }
    let sources = [
        MergeSource {
            index: &first_index,
            alive: &first_alive,
        },
        MergeSource {
            index: &second_index,
            alive: &second_alive,
        },
    ];
    let writers = IndexWriters::in_memory(alloc);
    let (writers, result) = merge(alloc, &schema, &sources, &num_tokens, writers);
    match result {
        Ok(()) => {
            let IndexWriters {
                terms,
                postings,
                positions,
                fieldnorms,
            } = writers;
            Ok(Files {
                terms: terms.finish(),
                postings: postings.finish(),
                positions: positions.finish(),
                fieldnorms: fieldnorms.finish(),
            })
        }
        Err(fault) => Err(fault),
    }
}

// Indexes the living documents anew.
fn anew(alloc: Global, row: &Row) -> Result<Files, Fault> {
    let (first, first_dead, second, second_dead, _) = *row;
    let mut documents = Documents::new(alloc, schema(alloc)?);
    push_lines(alloc, &mut documents, first, first_dead)?;
    push_lines(alloc, &mut documents, second, second_dead)?;
    written(alloc, documents)
}

// The documents of two segments, of which one each may be dead, and how many tokens the living ones have.
type Row = (
    &'static [&'static str],
    Option<DocId>,
    &'static [&'static str],
    Option<DocId>,
    [u64; 4],
);

const LONG: &'static str =
    "{\"body\": \"a a a a a a a a a a a a a a a a a a a a a a a a a a a a a a a a a a a a a a a a a\"}";

static ROWS: [Row; 9] = [
    (
        &["{\"body\": \"a b\"}"],
        None,
        &["{\"body\": \"b\"}"],
        None,
        [3, 0, 0, 0],
    ),
    (
        &[
            "{\"body\": \"a\"}",
            "{\"body\": \"a b\"}",
            "{\"body\": \"b\"}",
        ],
        Some(1),
        &[],
        None,
        [2, 0, 0, 0],
    ),
    (
        &["{\"body\": \"a\"}", "{\"body\": \"b\"}"],
        Some(0),
        &[],
        None,
        [1, 0, 0, 0],
    ),
    (
        &["{\"flag\": \"a a\"}", "{\"flag\": \"a\"}"],
        Some(1),
        &[],
        None,
        [0, 2, 0, 0],
    ),
    (
        &["{\"n\": [1, 1]}"],
        None,
        &["{\"n\": 1}"],
        None,
        [0, 0, 3, 0],
    ),
    (&[LONG], None, &["{\"body\": \"a\"}"], None, [42, 0, 0, 0]),
    (
        &["{\"j\": {\"p\": \"a a\"}}"],
        None,
        &["{\"j\": {\"p\": 1}}"],
        None,
        [0, 0, 0, 3],
    ),
    (
        &["{\"body\": \"a\"}"],
        Some(0),
        &["{\"body\": \"a\"}"],
        Some(0),
        [0, 0, 0, 0],
    ),
    (
        &[
            "{\"body\": \"c a\", \"flag\": \"x\"}",
            "{\"body\": \"b a b\", \"n\": 7}",
        ],
        Some(0),
        &["{\"body\": \"a b a\"}", "{\"flag\": \"y x\", \"n\": 7}"],
        None,
        [6, 2, 2, 0],
    ),
];

#[test]
fn merged_files_are_those_of_the_living_documents(rt: HostRuntime) -> Result<(), Fail> {
    for row in &ROWS {
        let merged = merged(rt.alloc(), row)?;
        let anew = anew(rt.alloc(), row)?;
        assert!(rt; merged.terms.as_slice() == anew.terms.as_slice());
        assert!(rt; merged.postings.as_slice() == anew.postings.as_slice());
        assert!(rt; merged.positions.as_slice() == anew.positions.as_slice());
        assert!(rt; merged.fieldnorms.as_slice() == anew.fieldnorms.as_slice());
    }
    Ok(())
}
