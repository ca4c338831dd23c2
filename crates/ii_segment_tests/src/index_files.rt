// The files of indexes of numbered texts, and files that are read by ranges.
ghost use Rattle.std.specs.Prelude.{◌≡◌, IfOk, length, true};
ghost use Rattle.ii_query_parser.specs.Queries.{has_fields};

use bytes::Bytes;
use ii_block_file::{BlockFile, BlockTable, MemoryFile};
use ii_ram::{
    AsciiTokenizer, DocId, Fault, Field, FieldEntry, IndexRecordOption, IndexWriters, OpenIndex,
    Query, Schema, Term, open_index_with_norms, parse_query,
};
use ii_ranking::GatheredStatistics;
use nequllpa_indexing::Documents;
use std::alloc::Global;
use std::test::Fail;

// The files of an index.
#[derive(Drop)]
pub(crate) struct Files {
    pub(crate) terms: Bytes,
    pub(crate) postings: Bytes,
    pub(crate) positions: Bytes,
    pub(crate) fieldnorms: Bytes,
}

// Returns the field of all texts.
pub(crate) fn body() -> Field
    ensures { result ≡ 0 }
{
    Field::from_field_id(0)
}

// A schema of one field, with positions and norms.
pub(crate) fn schema(alloc: Global) -> Result<Schema, Fault>
    ensures { IfOk result (λ schema. length schema ≡ 1) }
{
    let mut entries = Vec::new(alloc);
    let name = String::from_str(alloc, "body")?;
    entries.push(FieldEntry::text(name, IndexRecordOption::WithFreqsAndPositions, true))?;
    Ok(Schema::new(entries))
}

// Adds a document of a text.
pub(crate) fn push_text(alloc: Global, documents: &mut Documents, text: &str) -> Result<(), Fault> {
    let mut line = String::from_str(alloc, "{\"body\": \"")?;
    line.push_str(text)?;
    line.push_str("\"}")?;
    match documents.push_line(alloc, line.as_str()) {
        Ok(()) => Ok(()),
        Err(_) => Err(Fault::IndexerFailed),
    }
}

// Writes the files of an index.
pub(crate) fn written(alloc: Global, documents: Documents) -> Result<Files, Fault> {
    let writers = IndexWriters::in_memory(alloc);
    let (writers, result) = documents.write(alloc, &AsciiTokenizer, writers);
    match result {
        Ok(()) => finished(writers),
        Err(fault) => Err(fault),
    }
}

// Returns what was written.
fn finished(writers: IndexWriters<Vec<u8>>) -> Result<Files, Fault> {
    let IndexWriters {
        terms,
        postings,
        positions,
        fieldnorms,
    } = writers;
    Ok(Files {
        terms: Bytes::from_vec(terms.finish())?,
        postings: Bytes::from_vec(postings.finish())?,
        positions: Bytes::from_vec(positions.finish())?,
        fieldnorms: Bytes::from_vec(fieldnorms.finish())?,
    })
}

// Returns the text of a document: `sea` one to four times, `even` or `odd`, `third` for each third document, its number
// modulo 7 and its number.
pub(crate) fn text_of(alloc: Global, doc: DocId) -> Result<String, Fault> {
    let mut text = String::from_str(alloc, "sea")?;
    for _ in 0..doc % 4 {
        text.push_str(" sea")?;
    }
    text.push_str(if doc % 2 == 0 { " even" } else { " odd" })?;
    if doc % 3 == 0 {
        text.push_str(" third")?;
    }
    let rest = doc % 7;
    write!(text, " n{rest} u{doc}")?;
    Ok(text)
}

// Writes the files of an index of the first texts.
pub(crate) fn files_of_texts(alloc: Global, num_docs: DocId) -> Result<Files, Fault> {
    let mut documents = Documents::new(alloc, schema(alloc)?);
    for doc in 0..num_docs {
        let text = text_of(alloc, doc)?;
        push_text(alloc, &mut documents, text.as_str())?;
    }
    written(alloc, documents)
}

// Opens the complete index.
pub(crate) fn opened(alloc: Global, files: &Files) -> Result<OpenIndex, Fault>
    ensures { IfOk result (λ index. length index.readers ≡ 1) }
{
    let schema = schema(alloc)?;
    open_index_with_norms(
        alloc,
        files.terms.clone()?,
        files.postings.clone()?,
        files.positions.clone()?,
        files.fieldnorms.clone()?,
        &schema,
    )
}

// The words of the texts, but for most numbers.
static WORDS: [&str; 14] = [
    "sea", "even", "odd", "third", "n0", "n1", "n2", "n3", "n4", "n5", "n6", "u3", "u37", "storm",
];

// Returns the numbers of an index that scores need.
pub(crate) fn statistics(
    alloc: Global,
    index: &OpenIndex,
    num_docs: DocId,
) -> Result<GatheredStatistics, Fault>
    requires { length index.now.readers ≡ 1 }
{
    let reader = index.reader(body());
    let mut num_tokens = Vec::new(alloc);
    num_tokens.push(reader.total_num_tokens())?;
    let mut statistics = GatheredStatistics::new(alloc, u64::from(num_docs), num_tokens);
    for word in &WORDS {
        let term = Term::from_field_text(alloc, body(), word)?;
        let doc_freq = u64::from(reader.doc_freq(&term));
        statistics.add_term(alloc, &term, doc_freq)?;
    }
    Ok(statistics)
}

// Parses the text of a query over the documents below a number.
pub(crate) fn query_of(alloc: Global, text: &str, num_docs: DocId) -> Result<Query, Fail>
    ensures { IfOk result (λ query. has_fields 1 query ≡ true) }
{
    let schema = schema(alloc)?;
    let Ok(mut query) = parse_query(alloc, &schema, &[body()], &AsciiTokenizer, text) else {
        return Err("not a query".into());
    };
    query.bound(num_docs);
    if !query.has_fields(&schema) {
        return Err("no such field".into());
    }
    Ok(query)
}

// Returns a file with the table of its blocks.
pub(crate) fn block_file(alloc: Global, file: &Bytes) -> Result<BlockFile<MemoryFile>, Fault> {
    let table = BlockTable::of(alloc, file.as_slice())?;
    Ok(BlockFile::new(MemoryFile::new(file.clone()?), table))
}

// Returns a file of which a byte was changed after the table of its blocks was made.
pub(crate) fn changed_file(
    alloc: Global,
    file: &Bytes,
    place: usize,
) -> Result<BlockFile<MemoryFile>, Fault> {
    let table = BlockTable::of(alloc, file.as_slice())?;
    let changed = changed(alloc, file, place)?;
    Ok(BlockFile::new(MemoryFile::new(changed), table))
}

// Returns bytes with one of them changed, if it is there.
pub(crate) fn changed(alloc: Global, file: &Bytes, place: usize) -> Result<Bytes, Fault> {
    let mut bytes = Vec::from_slice(alloc, file.as_slice())?;
    if place < bytes.len() {
        bytes[place] ^= 16;
    }
    Ok(Bytes::from_vec(bytes)?)
}
