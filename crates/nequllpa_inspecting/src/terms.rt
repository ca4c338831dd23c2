//! Writes the terms of a field, in lines of words or of JSON.
ghost use Rattle.std.specs.Prelude.{◌<◌, length};

use crate::merged_terms::MergedTerms;
use ii_base::{Field, ValueType};
use ii_term_text::push_key;
use nequllpa_opening::{AnswerFault, OpenedIndex, RowFormat, write_quoted};
use std::alloc::Global;
use std::io::Write;

/// The terms of a field to write.
#[derive(Clone, Copy, Debug)]
pub struct TermChoice<'a> {
    /// The start of a term's text.
    pub prefix: &'a str,
    /// How many terms to write, those in the most documents first; all terms in the order of their keys if
    /// `None`.
    pub top: Option<usize>,
    /// How each is written.
    pub format: RowFormat,
}

/// Writes the terms of a field, one per line: the number of documents, a space and the term. A line feed in a
/// JSON key is written as it is. A JSON line is an object with `term`, the same text, and `docs`.
pub fn write_terms<W: Write>(
    alloc: Global,
    out: &mut W,
    opened: &OpenedIndex,
    field: Field,
    choice: TermChoice<'_>,
) -> Result<(), AnswerFault>
    requires { field < length opened.now.schema }
{
    match choice.top {
        Some(top) => write_top(alloc, out, opened, field, choice, top),
        None => write_all_terms(alloc, out, opened, field, choice),
    }
}

// Writes the terms of a field in the order of their keys.
fn write_all_terms<W: Write>(
    alloc: Global,
    out: &mut W,
    opened: &OpenedIndex,
    field: Field,
    choice: TermChoice<'_>,
) -> Result<(), AnswerFault>
    requires { field < length opened.now.schema }
{
    let value_type = opened.entry(field).value_type();
    let mut terms = MergedTerms::new(alloc, opened.segments(), field)?;
    let mut text = String::new(alloc);
    for _ in 0..terms.most() {
        let Some(term) = terms.next()? else {
            return Ok(());
        };
        text.clear();
        push_key(alloc, &mut text, value_type, term.key)?;
        if text.as_str().starts_with(choice.prefix) {
            write_term(alloc, out, choice.format, text.as_str(), term.doc_freq)?;
        }
    }
    Ok(())
}

// Writes a term, and the number of its documents.
fn write_term<W: Write>(
    alloc: Global,
    out: &mut W,
    format: RowFormat,
    term: &str,
    docs: u64,
) -> Result<(), AnswerFault> {
    if format.is_json() {
        return write_term_json(alloc, out, format, term, docs);
    }
    writeln!(out, "{docs} {term}")?;
    Ok(())
}

// Writes a term, and the number of its documents.
fn write_term_json<W: Write>(
    alloc: Global,
    out: &mut W,
    format: RowFormat,
    term: &str,
    docs: u64,
) -> Result<(), AnswerFault> {
    write!(out, "{{\"term\":")?;
    write_quoted(alloc, out, term)?;
    write!(out, ",\"docs\":{docs}}}{}", format.end())?;
    Ok(())
}

// A term that was chosen: `u64::MAX` minus the number of its documents, and its place in the order of keys.
type Rank = (u64, u64);

// Writes the terms that are in the most documents; equal ones in the order of their keys.
fn write_top<W: Write>(
    alloc: Global,
    out: &mut W,
    opened: &OpenedIndex,
    field: Field,
    choice: TermChoice<'_>,
    top: usize,
) -> Result<(), AnswerFault>
    requires { field < length opened.now.schema }
{
    let mut keys = Vec::new(alloc);
    let mut ranks = chosen(alloc, opened, field, choice.prefix, &mut keys)?;
    ranks.sort_unstable();
    ranks.truncate(top);
    let value_type = opened.entry(field).value_type();
    let written = write_ranks(alloc, out, choice.format, value_type, &ranks, &keys);
    drop(ranks);
    drop(keys);
    written
}

// Writes these terms.
fn write_ranks<W: Write>(
    alloc: Global,
    out: &mut W,
    format: RowFormat,
    value_type: ValueType,
    ranks: &[Rank],
    keys: &[&[u8]],
) -> Result<(), AnswerFault> {
    let mut text = String::new(alloc);
    for (others, place) in ranks {
        let Some(key) = keys.get(*place as usize) else {
            return Ok(());
        };
        text.clear();
        push_key(alloc, &mut text, value_type, key)?;
        write_term(alloc, out, format, text.as_str(), u64::MAX - *others)?;
    }
    Ok(())
}

// Returns the terms with the prefix, and appends their keys in order.
fn chosen<'a>(
    alloc: Global,
    opened: &'a OpenedIndex,
    field: Field,
    prefix: &str,
    keys: &mut Vec<&'a [u8]>,
) -> Result<Vec<Rank>, AnswerFault>
    requires { field < length opened.now.schema }
{
    let value_type = opened.entry(field).value_type();
    let mut terms = MergedTerms::new(alloc, opened.segments(), field)?;
    let mut text = String::new(alloc);
    let mut ranks = Vec::new(alloc);
    for _ in 0..terms.most() {
        let Some(term) = terms.next()? else {
            return Ok(ranks);
        };
        text.clear();
        push_key(alloc, &mut text, value_type, term.key)?;
        if text.as_str().starts_with(prefix) {
            ranks.push((u64::MAX - term.doc_freq, keys.len() as u64))?;
            keys.push(term.key)?;
        }
    }
    Ok(ranks)
}
