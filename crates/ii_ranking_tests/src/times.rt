//! How long the ways to find the best documents take.
use crate::ways::{longer_text, texts, top_docs, wanted};
use anyhow::{Context, Result};
use nequllpa::{Index, MemoryDirectory, PreparedSearch, TopDocs};
use std::time::{Duration, Instant};

/// Measures a query, given as `ROUNDS LIMIT OFFSET QUERY`. Returns the nanoseconds of the fastest search by `top_docs`, of
/// that clause by clause, of preparing the query, and of the fastest search once it is prepared.
pub fn measured(rt: &HostRuntime, index: &Index<MemoryDirectory>, asked: &str) -> Result<String> {
    let (rounds, rest) = asked.split_once(' ').context("the rounds are missing")?;
    let rounds: u32 = rounds.parse().context("a number of rounds is expected")?;
    let (numbers, text) = wanted(rest)?;
    let docs = top_docs(numbers);
    let longer = longer_text(rt.alloc(), text)?;
    let by_top_docs = fastest(rt, index, text, &docs, rounds)?;
    let by_clauses = fastest(rt, index, longer.as_str(), &docs, rounds)?;
    let (preparing, prepared) = prepared_times(rt, index, text, &docs, rounds)?;
    let numbers = [
        by_top_docs.as_nanos(),
        by_clauses.as_nanos(),
        preparing.as_nanos(),
        prepared.as_nanos(),
    ];
    Ok(format!(in rt.alloc();
        "{} {} {} {}",
        numbers[0], numbers[1], numbers[2], numbers[3]
    )?)
}

// Returns the time of the fastest of some searches.
fn fastest(
    rt: &HostRuntime,
    index: &Index<MemoryDirectory>,
    text: &str,
    docs: &TopDocs,
    rounds: u32,
) -> Result<Duration> {
    let mut least = Duration::MAX;
    for _ in 0..rounds {
        least = least.min(once(rt, index, text, docs)?);
    }
    Ok(least)
}

// Returns the time of a search, without that to open the index.
fn once(
    rt: &HostRuntime,
    index: &Index<MemoryDirectory>,
    text: &str,
    docs: &TopDocs,
) -> Result<Duration> {
    let reader = index.reader(rt.alloc())?;
    let query = index.parse_query(rt.alloc(), &texts(), text)?;
    let start = Instant::now(rt)?;
    let _best = reader.searcher().top_docs(rt.alloc(), &query, docs)?;
    Ok(start.elapsed(rt)?)
}

// Returns the time to prepare a query, and that of the fastest of some searches of it.
fn prepared_times(
    rt: &HostRuntime,
    index: &Index<MemoryDirectory>,
    text: &str,
    docs: &TopDocs,
    rounds: u32,
) -> Result<(Duration, Duration)> {
    let reader = index.reader(rt.alloc())?;
    let query = index.parse_query(rt.alloc(), &texts(), text)?;
    let start = Instant::now(rt)?;
    let prepared = reader.searcher().prepare(rt.alloc(), &query)?;
    let preparing = start.elapsed(rt)?;
    let fastest = fastest_prepared(rt, &prepared, docs, rounds)?;
    Ok((preparing, fastest))
}

// Returns the time of the fastest of some searches of a prepared query.
fn fastest_prepared(
    rt: &HostRuntime,
    prepared: &PreparedSearch<'_>,
    docs: &TopDocs,
    rounds: u32,
) -> Result<Duration> {
    let mut least = Duration::MAX;
    for _ in 0..rounds {
        let start = Instant::now(rt)?;
        let _best = prepared.top_docs(rt.alloc(), docs)?;
        least = least.min(start.elapsed(rt)?);
    }
    Ok(least)
}
