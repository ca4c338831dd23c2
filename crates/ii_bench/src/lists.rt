ghost use Rattle.std.specs.Prelude.{◌≡◌, ◌<◌, ℕ};
ghost use Rattle.ii_base.specs.Entries.{are_documents};
ghost use Rattle.ii_layout.specs.Bounds.{Covers};

use crate::table::{ROUNDS, print_row};
use anyhow::Result;
use bytes::Bytes;
use ii_base::{CountingWriter, Fault, IndexRecordOption};
use ii_docset::{DocId, DocSet, TERMINATED};
use ii_fieldnorm::FieldNormReader;
use ii_layout::PostingsSerializer;
use ii_reader::SegmentPostings;
use std::alloc::{AllocError, Global};
use std::time::{Duration, Instant};

const BASIC: IndexRecordOption = IndexRecordOption::Basic;

const FREQS: IndexRecordOption = IndexRecordOption::WithFreqs;

/// The number of documents of a list.
const DOCS: u32 = 1_000_000;

/// Measures writing and walking lists of a million documents, at three densities.
pub fn measure(rt: &HostRuntime) -> Result<()> {
    measure_density(rt, "1", 1)?;
    measure_counts(rt)?;
    measure_density(rt, "1/15", 29)?;
    measure_density(rt, "1/1000", 1999)
}

/// Returns `count` documents; the gap between two is a random number below `spread`.
pub fn documents(alloc: Global, spread: u32, count: u32) -> Result<Vec<DocId>, AllocError>
    requires { 0 < spread }
{
    let mut docs = Vec::new(alloc);
    let mut state = 88_172_645_463_325_252u64;
    let mut next = 0u32;
    for _ in 0..count {
        state ^= state << 13;
        state ^= state >> 7;
        state ^= state << 17;
        let doc = next.saturating_add((state % u64::from(spread)) as u32);
        docs.push(doc)?;
        next = doc.saturating_add(1);
    }
    Ok(docs)
}

fn print(rt: &HostRuntime, name: [&str; 3], took: Duration) -> Result<()> {
    Ok(print_row(rt, name, took, u64::from(DOCS), 4 * u64::from(DOCS))?)
}

fn measure_density(rt: &HostRuntime, density: &str, spread: u32) -> Result<()>
    requires { 0 < spread }
{
    let docs = documents(rt.alloc(), spread, DOCS)?;
    print_density(rt, density, &docs)
}

fn print_density(rt: &HostRuntime, density: &str, docs: &[DocId]) -> Result<()> {
    let writing = write(rt, docs, BASIC)?;
    let walking = walk(rt, &written(rt.alloc(), docs, BASIC)?)?;
    print(rt, ["writing, density ", density, ": a document"], writing)?;
    print(rt, ["walking, density ", density, ": a document"], walking)
}

// Measures writing documents with counts, without norms and with them.
fn measure_counts(rt: &HostRuntime) -> Result<()> {
    let docs = documents(rt.alloc(), 1, DOCS)?;
    print_counts(rt, &docs)
}

fn print_counts(rt: &HostRuntime, docs: &[DocId]) -> Result<()> {
    let plain = write(rt, docs, FREQS)?;
    let ids = norm_ids(rt.alloc())?;
    let normed = write_with_norms(rt, docs, &ids);
    drop(ids);
    let normed = normed?;
    print(
        rt,
        ["writing with counts, density ", "1", ": a document"],
        plain,
    )?;
    print(rt, ["the same with norms", "", ""], normed)
}

fn write(rt: &HostRuntime, docs: &[DocId], record_option: IndexRecordOption) -> Result<Duration> {
    let mut least = Duration::MAX;
    for _ in 0..ROUNDS {
        let start = Instant::now(rt)?;
        let _bytes = written(rt.alloc(), docs, record_option)?;
        least = least.min(start.elapsed(rt)?);
    }
    Ok(least)
}

// Returns a norm id for each document.
fn norm_ids(alloc: Global) -> Result<Bytes, AllocError> {
    let mut ids = Vec::new(alloc);
    for doc in 0..DOCS {
        ids.push((doc % 97) as u8)?;
    }
    Ok(Bytes::from_vec(ids)?)
}

fn write_with_norms(rt: &HostRuntime, docs: &[DocId], ids: &Bytes) -> Result<Duration> {
    let mut least = Duration::MAX;
    for _ in 0..ROUNDS {
        let norms = FieldNormReader::open(ids.clone()?)?;
        let limit = norms.num_docs();
        let start = Instant::now(rt)?;
        let _bytes = written_by(rt.alloc(), docs, FREQS, Some(norms), limit)?;
        least = least.min(start.elapsed(rt)?);
    }
    Ok(least)
}

fn walk(rt: &HostRuntime, bytes: &Bytes) -> Result<Duration> {
    let mut least = Duration::MAX;
    for _ in 0..ROUNDS {
        let mut cursor = SegmentPostings::open(DOCS, bytes.clone()?, None, BASIC, BASIC)?;
        let start = Instant::now(rt)?;
        for _ in 0..DOCS {
            let _doc = cursor.advance();
        }
        least = least.min(start.elapsed(rt)?);
    }
    Ok(least)
}

/// Writes ascending documents; each has count 1 if counts are recorded.
pub fn written(
    alloc: Global,
    docs: &[DocId],
    record_option: IndexRecordOption,
) -> Result<Bytes, Fault> {
    written_by(alloc, docs, record_option, None, TERMINATED)
}

// Writes the same with optional norms, which cover the documents below `limit`.
fn written_by(
    alloc: Global,
    docs: &[DocId],
    record_option: IndexRecordOption,
    norms: Option<FieldNormReader>,
    limit: DocId,
) -> Result<Bytes, Fault>
    requires { (doc : ℕ) → doc < limit → Covers norms doc }
{
    if !ascend(docs) {
        return Err(Fault::SerializerClosed);
    }
    let Ok(doc_freq) = u32::try_from(docs.len()) else {
        return Err(Fault::SerializerClosed);
    };
    let mut output = CountingWriter::wrap(Vec::new(alloc));
    let mut serializer = PostingsSerializer::new(alloc, record_option, norms);
    for doc in docs {
        if *doc >= limit {
            return Err(Fault::SerializerClosed);
        }
        serializer.write_doc(*doc, 1)?;
    }
    serializer.close_term(doc_freq, &mut output)?;
    Ok(Bytes::from_vec(output.finish())?)
}

// Returns whether documents ascend and are less than `TERMINATED`.
fn ascend(docs: &[DocId]) -> bool
    ensures { result ≡ are_documents docs.now }
{
    let mut next = 0;
    for doc in docs {
        if *doc < next || *doc >= TERMINATED {
            return false;
        }
        next = *doc + 1;
    }
    true
}
