ghost use Rattle.std.specs.Prelude.{◌<◌, length};

use crate::indexes::{opened_words, read_word, word_term};
use crate::lists::{documents, written};
use crate::table::{ROUNDS, print_row};
use anyhow::Result;
use bytes::Bytes;
use ii_base::{IndexRecordOption, Term};
use ii_docset::{DocSet, TERMINATED, intersect};
use ii_query::{PhraseMatch, PhrasePart, QueryCursor};
use ii_reader::{OpenIndex, SegmentPostings};
use std::alloc::Global;
use std::time::{Duration, Instant};

const BASIC: IndexRecordOption = IndexRecordOption::Basic;

/// The numbers of documents of a frequent and a rare term, both spread over 15,000,000 documents.
const FREQUENT: u32 = 1_000_000;

const RARE: u32 = 10_000;

// Writes a list of documents.
fn list(rt: &HostRuntime, spread: u32, doc_freq: u32) -> Result<Bytes>
    requires { 0 < spread }
{
    let docs = documents(rt.alloc(), spread, doc_freq)?;
    Ok(written(rt.alloc(), &docs, BASIC)?)
}

fn open(list: &Bytes, doc_freq: u32) -> Result<SegmentPostings> {
    Ok(SegmentPostings::open(doc_freq, list.clone()?, None, BASIC, BASIC)?)
}

/// Measures walking the matches of queries, compared with hand-written loops over the same cursors.
pub fn measure(rt: &HostRuntime) -> Result<()> {
    measure_terms(rt)?;
    let index = opened_words(rt.alloc())?;
    measure_phrase(rt, &index)
}

fn measure_terms(rt: &HostRuntime) -> Result<()> {
    let frequent = list(rt, 29, FREQUENT)?;
    match measure_both(rt, &frequent) {
        Ok(()) => measure_either(rt, &frequent),
        Err(fault) => Err(fault),
    }
}

fn print(rt: &HostRuntime, name: &str, took: Duration, docs: u32) -> Result<()> {
    let docs = u64::from(docs);
    Ok(print_row(rt, [name, "", ""], took, docs, 4 * docs)?)
}

fn measure_both(rt: &HostRuntime, frequent: &Bytes) -> Result<()> {
    let rare = list(rt, 2999, RARE)?;
    print_both(rt, frequent, &rare)
}

fn print_both(rt: &HostRuntime, frequent: &Bytes, rare: &Bytes) -> Result<()> {
    let (mut least, mut by_hand) = (Duration::MAX, Duration::MAX);
    for _ in 0..ROUNDS {
        least = least.min(both_once(rt, frequent, rare)?);
        by_hand = by_hand.min(both_by_hand_once(rt, frequent, rare)?);
    }
    let row = "a frequent and a rare term: a document of the rare one";
    print(rt, row, least, RARE)?;
    print(rt, "the same by a loop of seeks", by_hand, RARE)
}

fn both_once(rt: &HostRuntime, frequent: &Bytes, rare: &Bytes) -> Result<Duration> {
    let mut cursors = Vec::new(rt.alloc());
    cursors.push(QueryCursor::one(open(frequent, FREQUENT)?))?;
    cursors.push(QueryCursor::one(open(rare, RARE)?))?;
    let start = Instant::now(rt)?;
    let mut found = QueryCursor::intersection(rt.alloc(), cursors)?;
    let _count = found.count_including_deleted();
    Ok(start.elapsed(rt)?)
}

fn both_by_hand_once(rt: &HostRuntime, frequent: &Bytes, rare: &Bytes) -> Result<Duration> {
    let mut first = open(rare, RARE)?;
    let mut other = open(frequent, FREQUENT)?;
    let start = Instant::now(rt)?;
    let _docs = intersect(rt.alloc(), &mut first, &mut other)?;
    Ok(start.elapsed(rt)?)
}

fn measure_either(rt: &HostRuntime, first: &Bytes) -> Result<()> {
    let other = list(rt, 31, FREQUENT)?;
    print_either(rt, first, &other)
}

fn print_either(rt: &HostRuntime, first: &Bytes, other: &Bytes) -> Result<()> {
    let (mut least, mut in_turn, mut by_hand) = (Duration::MAX, Duration::MAX, Duration::MAX);
    for _ in 0..ROUNDS {
        least = least.min(either_once(rt, first, other, false)?);
        in_turn = in_turn.min(either_once(rt, first, other, true)?);
        by_hand = by_hand.min(either_by_hand_once(rt, first, other)?);
    }
    let row = "one of two frequent terms: a document of either, all counted";
    print(rt, row, least, 2 * FREQUENT)?;
    let row = "the same, asked for one document after the other";
    print(rt, row, in_turn, 2 * FREQUENT)?;
    print(rt, "the same by a loop that merges", by_hand, 2 * FREQUENT)
}

fn either_once(rt: &HostRuntime, first: &Bytes, other: &Bytes, in_turn: bool) -> Result<Duration> {
    let mut cursors = Vec::new(rt.alloc());
    cursors.push(QueryCursor::one(open(first, FREQUENT)?))?;
    cursors.push(QueryCursor::one(open(other, FREQUENT)?))?;
    let start = Instant::now(rt)?;
    let mut found = QueryCursor::union(rt.alloc(), cursors)?;
    let _count = count(&mut found, in_turn);
    Ok(start.elapsed(rt)?)
}

// Counts the remaining documents, by one call or by advancing.
fn count<C: DocSet>(cursor: &mut C, in_turn: bool) -> u32 {
    if !in_turn {
        return cursor.count_including_deleted();
    }
    let mut count = 0u32;
    let mut doc = cursor.doc();
    for _ in 0..2 * FREQUENT {
        if doc == TERMINATED {
            return count;
        }
        doc = cursor.advance();
        count = count.saturating_add(1);
    }
    count
}

fn either_by_hand_once(rt: &HostRuntime, first: &Bytes, other: &Bytes) -> Result<Duration> {
    let mut first = open(first, FREQUENT)?;
    let mut other = open(other, FREQUENT)?;
    let start = Instant::now(rt)?;
    let _count = merge(&mut first, &mut other);
    Ok(start.elapsed(rt)?)
}

// Counts the documents that remain in either cursor.
fn merge(first: &mut SegmentPostings, other: &mut SegmentPostings) -> u32 {
    let mut count = 0u32;
    let mut doc = first.doc();
    let mut other_doc = other.doc();
    for _ in 0..2 * FREQUENT {
        let least = doc.min(other_doc);
        if least == TERMINATED {
            return count;
        }
        if doc == least {
            doc = first.advance();
        }
        if other_doc == least {
            other_doc = other.advance();
        }
        count = count.saturating_add(1);
    }
    count
}

fn measure_phrase(rt: &HostRuntime, index: &OpenIndex) -> Result<()>
    requires { 0 < length index.now.readers }
{
    let (first, other) = (word_term(rt.alloc(), 1)?, word_term(rt.alloc(), 2)?);
    print_phrase(rt, index, &first, &other)
}

fn print_phrase(rt: &HostRuntime, index: &OpenIndex, first: &Term, other: &Term) -> Result<()>
    requires { 0 < length index.now.readers }
{
    let (mut least, mut docs) = (Duration::MAX, 0);
    for _ in 0..ROUNDS {
        let Some(first) = read_word(index, first)? else {
            return Ok(());
        };
        docs = first.doc_freq();
        let other = read_word(index, other)?;
        least = least.min(phrase_once(rt, first, other)?);
    }
    let row = "a phrase of two frequent words: a document of the first";
    print(rt, row, least, docs)
}

// Returns the time to find a phrase of a word and of another one, if that exists.
fn phrase_once(
    rt: &HostRuntime,
    first: SegmentPostings,
    other: Option<SegmentPostings>,
) -> Result<Duration> {
    let mut others = Vec::new(rt.alloc());
    if let Some(other) = other {
        others.push(PhrasePart::new(1, other))?;
    }
    let start = Instant::now(rt)?;
    let mut found = PhraseMatch::new(first, others);
    let _count = found.count_including_deleted();
    Ok(start.elapsed(rt)?)
}
