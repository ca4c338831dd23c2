//! The ways to find the best documents of a query.
use anyhow::{Context, Result};
use nequllpa::{DocId, Field, Index, MemoryDirectory, Score, TopDocs};
use std::alloc::Global;

// How many words that no document has are added to a query, so that it has too many clauses to be scored document by
// document.
const ABSENT_WORDS: u32 = 65;

/// Cuts `LIMIT OFFSET QUERY`: which of the best documents are wanted, and the text of the query.
pub fn wanted(asked: &str) -> Result<([usize; 2], &str)> {
    let (limit, rest) = asked.split_once(' ').context("a limit is missing")?;
    let (offset, text) = rest.split_once(' ').context("an offset is missing")?;
    let limit: usize = limit.parse().context("a limit is expected")?;
    let offset: usize = offset.parse().context("an offset is expected")?;
    Ok(([limit, offset], text))
}

/// Returns which of the best documents are wanted.
pub fn top_docs(wanted: [usize; 2]) -> TopDocs {
    TopDocs::with_limit(wanted[0]).and_offset(wanted[1])
}

/// Returns the best documents of a query, given as `LIMIT OFFSET QUERY`, or what each way gives if they differ.
pub fn answer(alloc: Global, index: &Index<MemoryDirectory>, asked: &str) -> Result<String> {
    let (numbers, text) = wanted(asked)?;
    let docs = top_docs(numbers);
    let longer = longer_text(alloc, text)?;
    let best = best(alloc, index, text, &docs)?;
    let by_clauses = self::best(alloc, index, longer.as_str(), &docs)?;
    let (first, second) = best_prepared(alloc, index, text, &docs)?;
    if best == by_clauses && best == first && best == second {
        return Ok(best);
    }
    Ok(format!(in alloc;
        "top_docs {best}; clause by clause {by_clauses}; prepared {first}; prepared again {second}"
    )?)
}

/// Returns the text of a query with more clauses, which finds the same.
pub fn longer_text(alloc: Global, text: &str) -> Result<String> {
    let mut longer = format!(in alloc; "({text})")?;
    for number in 0..ABSENT_WORDS {
        write!(longer, " OR absent{number}")?;
    }
    Ok(longer)
}

/// Returns the fields of words without a field: body, tag and flag.
pub fn texts() -> [Field; 3] {
    [
        Field::from_field_id(1),
        Field::from_field_id(2),
        Field::from_field_id(3),
    ]
}

// Returns the best documents of a query.
fn best(
    alloc: Global,
    index: &Index<MemoryDirectory>,
    text: &str,
    docs: &TopDocs,
) -> Result<String> {
    let reader = index.reader(alloc)?;
    let query = index.parse_query(alloc, &texts(), text)?;
    let best = reader.searcher().top_docs(alloc, &query, docs)?;
    text_of(alloc, best.as_slice())
}

// Returns the best documents of a query that is prepared, of two searches.
fn best_prepared(
    alloc: Global,
    index: &Index<MemoryDirectory>,
    text: &str,
    docs: &TopDocs,
) -> Result<(String, String)> {
    let reader = index.reader(alloc)?;
    let query = index.parse_query(alloc, &texts(), text)?;
    let prepared = reader.searcher().prepare(alloc, &query)?;
    let first = prepared.top_docs(alloc, docs)?;
    let second = prepared.top_docs(alloc, docs)?;
    let first = text_of(alloc, first.as_slice())?;
    let second = text_of(alloc, second.as_slice())?;
    Ok((first, second))
}

// Returns documents with their scores as a text.
fn text_of(alloc: Global, best: &[(Score, DocId)]) -> Result<String> {
    let mut text = String::new(alloc);
    for (score, doc) in best {
        if !text.is_empty() {
            text.push(' ')?;
        }
        write!(text, "{doc}:{score}")?;
    }
    Ok(text)
}
