//! Ranks the queries of its input over an index in memory, each in several ways that must give the same documents: by
//! `top_docs`, by `top_docs` clause by clause, and as a query that was prepared, which is searched twice.
//!
//! Each line of the input is a step: `+ DOCUMENT` adds a JSON document, `- WORD` deletes the documents with a word in
//! `body`, `commit` and `merge` are those of a writer, and `? LIMIT OFFSET QUERY` asks for the best documents. The answer
//! is a line of `DOCUMENT:UNITS`, or what each way gives if they differ. `! ROUNDS LIMIT OFFSET QUERY` measures: the answer
//! has the nanoseconds of the fastest search by `top_docs`, of that clause by clause, of preparing the query, and of the
//! fastest search once it is prepared. An argument is the memory of the writer in bytes.
#![tactic(auto)]

mod times;
mod ways;

use anyhow::{Context, Result, bail};
use nequllpa::{Index, IndexWriter, MemoryDirectory, Term};
use std::env;
use std::io::{BufRead, BufReader};
use times::measured;
use ways::answer;

const SCHEMA: &str =
    "tokenizer = \"ascii\"\n[[field]]\nname = \"id\"\ntype = \"bytes\"\n[[field]]\nname = \"body\"\ntype = \"text\"\n[[field]]\nname = \"tag\"\ntype = \"text\"\nrecord = \"freq\"\n[[field]]\nname = \"flag\"\ntype = \"text\"\nrecord = \"basic\"\nfieldnorms = false\n[[field]]\nname = \"n\"\ntype = \"u64\"\n[[field]]\nname = \"j\"\ntype = \"json\"\n";

// The memory of the writer, unless it is given: some 40 kB of documents become a segment.
const MEMORY: usize = 200_000;

fn main(rt: HostRuntime) -> Result<()> {
    let index = Index::create(rt.alloc(), MemoryDirectory::create(rt.alloc()), SCHEMA)?;
    let memory = match env::args(&rt)?.nth(1) {
        Some(word) => word.parse().context("a number of bytes is expected")?,
        None => MEMORY,
    };
    let mut writer = index.writer(rt.alloc(), memory)?;
    for line in BufReader::new(rt.alloc(), rt.reader())?.lines(rt.alloc()) {
        step(&rt, &mut writer, line?.as_str())?;
    }
    Ok(())
}

// Makes a step.
fn step(rt: &HostRuntime, writer: &mut IndexWriter<MemoryDirectory>, line: &str) -> Result<()> {
    if let Some(document) = line.strip_prefix("+ ") {
        return Ok(writer.add_document(rt.alloc(), document)?);
    }
    if let Some(word) = line.strip_prefix("- ") {
        return delete(rt, writer, word);
    }
    if let Some(asked) = line.strip_prefix("? ") {
        let text = answer(rt.alloc(), writer.index(), asked)?;
        println!(rt; "{text}")?;
        return Ok(());
    }
    if let Some(asked) = line.strip_prefix("! ") {
        let text = measured(rt, writer.index(), asked)?;
        println!(rt; "{text}")?;
        return Ok(());
    }
    match line {
        "commit" => Ok(writer.commit(rt.alloc())?),
        "merge" => Ok(writer.merge(rt.alloc(), 0)?),
        _ => bail!("a line is no step"),
    }
}

// Deletes the documents with a word in `body`.
fn delete(rt: &HostRuntime, writer: &mut IndexWriter<MemoryDirectory>, word: &str) -> Result<()> {
    let field = writer
        .index()
        .field_named("body")
        .context("the field body is missing")?;
    Ok(writer.delete_term(Term::from_field_text(rt.alloc(), field, word)?)?)
}
