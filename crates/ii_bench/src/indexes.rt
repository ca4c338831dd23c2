ghost use Rattle.std.specs.Prelude.{◌≡◌, ◌<◌, length, IfOk};
ghost use Rattle.ii_base.specs.declared.schema.value_type.ValueType.TheVariants.{Str};
ghost use Rattle.ii_definitions.specs.IndexCalls.{Takes};

use crate::table::print_row;
use anyhow::Result;
use bytes::Bytes;
use ii_base::{AsciiTokenizer, Field, FieldEntry, IndexRecordOption, Schema, Term};
use ii_indexing::{IndexCall, IndexWriters, Indexer};
use ii_io::{CountingWriter, Fault};
use ii_reader::{InvertedIndexReader, OpenIndex, SegmentPostings, open_index_with_norms};
use std::alloc::Global;
use std::time::{Duration, Instant};

const FULL: IndexRecordOption = IndexRecordOption::WithFreqsAndPositions;

/// The number of documents, and below it the number of words of each.
const DOCS: u32 = 10_000;

const WORDS: u32 = 100;

/// The number of different words.
const TERMS: u64 = 50_000;

/// The number of different words for phrases; each then occurs in most documents.
const FREQUENT_TERMS: u64 = 50;

const LOOK_UPS: u64 = 100_000;

/// The number of rounds; the least time counts.
const ROUNDS: u32 = 3;

/// Measures indexing a million words, opening the files, and looking up words.
pub fn measure(rt: &HostRuntime) -> Result<()> {
    let mut least = [Duration::MAX; 3];
    let mut bytes = [0; 2];
    for _ in 0..ROUNDS {
        let (took, of_round) = round(rt)?;
        for k in 0..3 {
            least[k] = least[k].min(took[k]);
        }
        bytes = of_round;
    }
    let [indexing, opening, looking] = least;
    let [text_bytes, file_bytes] = bytes;
    let tokens = u64::from(DOCS) * u64::from(WORDS);
    print(
        rt,
        "indexing and writing: a word",
        indexing,
        tokens,
        text_bytes,
    )?;
    print(rt, "opening an index: a term", opening, TERMS, file_bytes)?;
    print(
        rt,
        "looking a word up, with positions",
        looking,
        LOOK_UPS,
        6 * LOOK_UPS,
    )
}

fn print(rt: &HostRuntime, name: &str, took: Duration, items: u64, bytes: u64) -> Result<()> {
    Ok(print_row(rt, [name, "", ""], took, items, bytes)?)
}

// Returns the times to index texts, to open their files and to look up words; and the bytes of texts and
// files.
fn round(rt: &HostRuntime) -> Result<([Duration; 3], [u64; 2])> {
    let (texts, text_bytes) = texts(rt.alloc(), TERMS)?;
    let start = Instant::now(rt)?;
    let files = written(rt.alloc(), indexed(rt.alloc(), texts)?)?;
    let indexing = start.elapsed(rt)?;
    let file_bytes = files.len();
    let (opening, looking) = open_and_look_up(rt, files)?;
    Ok(([indexing, opening, looking], [text_bytes, file_bytes]))
}

fn open_and_look_up(rt: &HostRuntime, files: Files) -> Result<(Duration, Duration)> {
    let start = Instant::now(rt)?;
    let index = files.opened(rt.alloc())?;
    let opening = start.elapsed(rt)?;
    Ok((opening, look_up(rt, index.reader(Field::from_field_id(0)))?))
}

// Returns the time to look up words.
fn look_up(rt: &HostRuntime, reader: &InvertedIndexReader) -> Result<Duration> {
    let mut state = 7;
    let mut terms = Vec::new(rt.alloc());
    for _ in 0..LOOK_UPS {
        terms.push(word_term(rt.alloc(), drawn(&mut state))?)?;
    }
    let start = Instant::now(rt)?;
    for term in terms.as_slice() {
        let _cursor = reader.read_postings(term, FULL)?;
    }
    Ok(start.elapsed(rt)?)
}

// Returns the next pseudo-random number.
fn drawn(state: &mut u64) -> u64 {
    *state = state
        .wrapping_mul(6_364_136_223_846_793_005)
        .wrapping_add(1_442_695_040_888_963_407);
    (*state >> 33) % TERMS
}

// Builds the texts. Returns them and their number of bytes.
fn texts(alloc: Global, terms: u64) -> Result<(Vec<String>, u64)>
    requires { 0 < terms }
{
    let mut state = 1;
    let mut texts = Vec::new(alloc);
    let mut bytes = 0u64;
    for _ in 0..DOCS {
        let text = text(alloc, &mut state, terms)?;
        bytes = bytes.saturating_add(text.len() as u64);
        texts.push(text)?;
    }
    Ok((texts, bytes))
}

// Builds a text of random words.
fn text(alloc: Global, state: &mut u64, terms: u64) -> Result<String>
    requires { 0 < terms }
{
    let mut text = String::new(alloc);
    for _ in 0..WORDS {
        write!(text, "w{} ", drawn(state) % terms)?;
    }
    Ok(text)
}

fn schema(alloc: Global) -> Result<Schema, Fault>
    ensures takes { IfOk result (λ schema. Takes schema 0 Str) }
    ensures some { IfOk result (λ schema. 0 < length schema) }
{
    let mut entries = Vec::new(alloc);
    let name = String::from_str(alloc, "text")?;
    entries.push(FieldEntry::text(name, FULL, true))?;
    Ok(Schema::new(entries))
}

/// The four files of an index, in memory.
pub struct Files {
    terms: Bytes,
    postings: Bytes,
    positions: Bytes,
    fieldnorms: Bytes,
}

// Makes each drop a call.
impl Drop for Files {
    fn drop(self) {
        let Files {
            terms: _,
            postings: _,
            positions: _,
            fieldnorms: _,
        } = self;
    }
}

impl Files {
    /// Returns their total number of bytes.
    pub fn len(&self) -> u64 {
        let terms = self.terms.len() as u64;
        let postings = self.postings.len() as u64;
        terms
            .saturating_add(postings)
            .saturating_add(self.positions.len() as u64)
            .saturating_add(self.fieldnorms.len() as u64)
    }

    fn opened(self, alloc: Global) -> Result<OpenIndex, Fault>
        ensures { IfOk result (λ index. 0 < length index.readers) }
    {
        let schema = schema(alloc)?;
        let Files {
            terms,
            postings,
            positions,
            fieldnorms,
        } = self;
        open_index_with_norms(alloc, terms, postings, positions, fieldnorms, &schema)
    }
}

fn file(writer: CountingWriter<Vec<u8>>) -> Result<Bytes, Fault> {
    Ok(Bytes::from_vec(writer.finish())?)
}

/// Writes what was indexed to files in memory.
pub fn written(alloc: Global, indexer: Indexer) -> Result<Files, Fault> {
    let writers = IndexWriters {
        terms: CountingWriter::wrap(Vec::new(alloc)),
        postings: CountingWriter::wrap(Vec::new(alloc)),
        positions: CountingWriter::wrap(Vec::new(alloc)),
        fieldnorms: CountingWriter::wrap(Vec::new(alloc)),
    };
    let (writers, finished) = indexer.finish(writers);
    finished?;
    Ok(Files {
        terms: file(writers.terms)?,
        postings: file(writers.postings)?,
        positions: file(writers.positions)?,
        fieldnorms: file(writers.fieldnorms)?,
    })
}

fn indexed(alloc: Global, texts: Vec<String>) -> Result<Indexer, Fault> {
    let mut indexer = Indexer::new(alloc, schema(alloc)?, DOCS)?;
    let mut doc = 0;
    for text in texts {
        if doc >= DOCS {
            return Ok(indexer);
        }
        indexer.index(
            IndexCall::Text(doc, Field::from_field_id(0), text),
            &AsciiTokenizer,
        )?;
        doc += 1;
    }
    Ok(indexer)
}

/// Builds the term of a word.
pub fn word_term(alloc: Global, number: u64) -> Result<Term> {
    let mut word = String::new(alloc);
    write!(word, "w{number}")?;
    let field = Field::from_field_id(0);
    Ok(Term::from_field_text(alloc, field, word.as_str())?)
}

/// Builds and opens an index of texts with few different words.
pub fn opened_words(alloc: Global) -> Result<OpenIndex>
    ensures { IfOk result (λ index. 0 < length index.readers) }
{
    let (texts, _) = texts(alloc, FREQUENT_TERMS)?;
    let files = written(alloc, indexed(alloc, texts)?)?;
    Ok(files.opened(alloc)?)
}

/// Opens a cursor over the postings of a word, with positions.
pub fn read_word(index: &OpenIndex, term: &Term) -> Result<Option<SegmentPostings>>
    requires { 0 < length index.now.readers }
{
    let reader = index.reader(Field::from_field_id(0));
    Ok(reader.read_postings(term, FULL)?)
}
