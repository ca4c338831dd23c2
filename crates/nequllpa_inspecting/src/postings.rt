//! Writes the documents of a term, in lines of words or of JSON.
ghost use Rattle.ii_docset.specs.Cursor.{IsCurrent};

use ii_base::{IndexRecordOption, Term};
use ii_docset::{DocSet, Postings, TERMINATED};
use ii_reader::SegmentPostings;
use nequllpa_opening::{
    AnswerFault, Bases, Opened, OpenedIndex, RowFormat, reader_of, write_numbers,
};
use std::alloc::Global;
use std::io::Write;

/// Writes the documents of a term, one per line: the document, its term frequency if recorded, and the
/// positions if requested and recorded. A JSON line is an object with `doc`; with `freq` and `positions`, an array, if
/// a line of words has them. Returns whether the term exists.
pub fn write_postings<W: Write>(
    alloc: Global,
    out: &mut W,
    opened: &OpenedIndex,
    term: &Term,
    with_positions: bool,
    format: RowFormat,
) -> Result<bool, AnswerFault> {
    let mut lists = lists_of(alloc, opened, term, with_positions)?;
    let mut any = false;
    let mut written = Ok(());
    for list in lists.iter_mut() {
        if written.is_ok() {
            written = write_all_postings(alloc, out, format, list, &mut any);
        }
    }
    drop(lists);
    match written {
        Ok(()) => Ok(any),
        Err(fault) => Err(fault),
    }
}

// The list of a term in a segment.
#[derive(Drop)]
struct TermList<'a> {
    segment: &'a Opened,
    cursor: SegmentPostings,
    // what is read of it
    requested: IndexRecordOption,
    // the number of the segment's first living document
    base: u64,
}

// Opens the lists of a term in the segments that have it.
fn lists_of<'a>(
    alloc: Global,
    opened: &'a OpenedIndex,
    term: &Term,
    with_positions: bool,
) -> Result<Vec<TermList<'a>>, AnswerFault> {
    let mut lists = Vec::new(alloc);
    let mut bases = Bases::new();
    for segment in opened.segments() {
        let base = bases.pass(segment);
        let Some(reader) = reader_of(segment, term.field()) else {
            continue;
        };
        let requested = requested(reader.record_option(), with_positions);
        if let Some(cursor) = reader.read_postings(term, requested)? {
            lists.push(TermList {
                segment,
                cursor,
                requested,
                base,
            })?;
        }
    }
    Ok(lists)
}

// Writes the remaining living documents of a list, and sets `any` if there are some.
fn write_all_postings<W: Write>(
    alloc: Global,
    out: &mut W,
    format: RowFormat,
    list: &mut TermList<'_>,
    any: &mut bool,
) -> Result<(), AnswerFault> {
    let mut positions = Vec::new(alloc);
    for _ in 0..list.cursor.doc_freq() {
        if list.cursor.doc() >= TERMINATED {
            return Ok(());
        }
        if let Some(number) = list.segment.number_of(list.cursor.doc()) {
            *any = true;
            let doc = list.base.saturating_add(u64::from(number));
            let requested = list.requested;
            write_posting_as(
                out,
                format,
                &mut list.cursor,
                doc,
                requested,
                &mut positions,
            )?;
        }
        list.cursor.advance();
    }
    Ok(())
}

// Returns what to read of a term.
fn requested(recorded: IndexRecordOption, with_positions: bool) -> IndexRecordOption {
    if with_positions {
        return recorded;
    }
    recorded.downgrade(IndexRecordOption::WithFreqs)
}

// Writes the current document under its number, in a format.
fn write_posting_as<W: Write>(
    out: &mut W,
    format: RowFormat,
    cursor: &mut SegmentPostings,
    doc: u64,
    requested: IndexRecordOption,
    positions: &mut Vec<u32>,
) -> Result<(), AnswerFault>
    requires { IsCurrent cursor.old.rest }
{
    if format.is_json() {
        return write_posting_json(out, format, cursor, doc, requested, positions);
    }
    write_posting(out, cursor, doc, requested, positions)
}

// Writes the current document under its number, as a line of words.
fn write_posting<W: Write>(
    out: &mut W,
    cursor: &mut SegmentPostings,
    doc: u64,
    requested: IndexRecordOption,
    positions: &mut Vec<u32>,
) -> Result<(), AnswerFault>
    requires { IsCurrent cursor.old.rest }
{
    if !requested.has_freq() {
        writeln!(out, "{doc}")?;
        return Ok(());
    }
    let freq = cursor.term_freq();
    if !requested.has_positions() {
        writeln!(out, "{doc} {freq}")?;
        return Ok(());
    }
    cursor.positions(positions)?;
    write!(out, "{doc} {freq}")?;
    for position in positions.as_slice() {
        write!(out, " {}", *position)?;
    }
    writeln!(out)?;
    Ok(())
}

// Writes the current document under its number.
fn write_posting_json<W: Write>(
    out: &mut W,
    format: RowFormat,
    cursor: &mut SegmentPostings,
    doc: u64,
    requested: IndexRecordOption,
    positions: &mut Vec<u32>,
) -> Result<(), AnswerFault>
    requires { IsCurrent cursor.old.rest }
{
    write!(out, "{{\"doc\":{doc}")?;
    if requested.has_freq() {
        write!(out, ",\"freq\":{}", cursor.term_freq())?;
    }
    if requested.has_positions() {
        cursor.positions(positions)?;
        write!(out, ",\"positions\":[")?;
        write_numbers(out, positions)?;
        write!(out, "]")?;
    }
    write!(out, "}}{}", format.end())?;
    Ok(())
}
