//! Writes the documents that a search finds, with the positions of the query's terms.
ghost use Rattle.std.specs.Prelude.{◌≡◌, ◌<◌, length, true};
ghost use Rattle.ii_query_parser.specs.Queries.{has_fields};

use crate::counting::count_all;
use crate::finding::{FoundPlaces, TermPositions, find_places, first_docs, wanted_terms};
use crate::places::SourceLines;
use crate::stored_part::{StoredPart, StoredParts, words_for};
use ii_base::{Fault, Term};
use ii_docset::DocId;
use ii_documents::quoted;
use ii_search::Query;
use ii_term_text::push_key;
use nequllpa_opening::{
    AnswerFault, Bases, IdSource, Ids, Opened, OpenedIndex, RowFormat, StoredDocs, ids_of,
    write_numbers,
};
use std::alloc::Global;
use std::io::Write;

/// How found documents are written, one after the other.
#[derive(Clone, Copy, Debug)]
pub struct Listing<'a, 'n> {
    /// The maximum number of documents.
    pub limit: u32,
    /// How each is written.
    pub format: RowFormat,
    /// Whether the positions of the terms that the query wants are written.
    pub with_positions: bool,
    /// Where the id is read that is written instead of a document's number.
    pub ids: Option<IdSource>,
    /// What of the stored document is written instead of its number.
    pub stored: StoredPart<'a, 'n>,
}

/// Writes the documents that match a query, in lines or as JSON objects with a comma after each. Returns whether any document matches, even if the
/// limit is 0.
///
/// A line of words has the document's number, or instead its id, `-` if it has none. The terms that occur in
/// the document follow, each after a tab: field, colon, term and positions. A JSON line is an object with
/// `doc`; with `id` (a string or null) if ids are requested; and with `terms` if positions are, each with
/// `field`, `term` and `positions`. If stored documents are requested, a line of words is the document alone, and
/// a JSON line has it as `source`; the first that can't be read ends the listing. If fields of them are, these are in
/// its place, and the member of a JSON line is `fields`. If snippets are, a line of words has the document's number, and
/// after a tab the snippet of the document (`snippet_of_line`), which is the member `snippet` of a JSON line. If places
/// are, a line of words has the file and the number of the document's line in place of its number, `-` if it has none, and
/// a JSON line has them as `place`, an object with `file`, `line` and `byte`, or null; their snippets are of lines of
/// `files`.
pub fn write_listing<W: Write, L: SourceLines>(
    alloc: Global,
    out: &mut W,
    opened: &OpenedIndex,
    query: &Query,
    how: &Listing<'_, '_>,
    files: &L,
) -> Result<bool, AnswerFault> {
    if how.limit == 0 {
        return Ok(count_all(alloc, opened.segments(), query)? > 0);
    }
    let rows = rows_of(alloc, opened, query, how)?;
    let any = !rows.is_empty();
    let written = match how.stored {
        StoredPart::Nothing => write_words_of_all(alloc, out, opened, query, how, &rows),
        _ => write_sources_of_all(alloc, out, opened, query, how, files, &rows),
    };
    drop(rows);
    match written {
        Ok(()) => Ok(any),
        Err(fault) => Err(fault),
    }
}

// The documents that were found in a segment.
#[derive(Drop)]
struct SegmentRows {
    // the place of the segment
    segment: usize,
    found: FoundPlaces,
    ids: Ids,
    // the number of each document in the index
    numbers: Vec<u64>,
}

// Returns the matching documents of the segments that have any, at most `limit` in all.
fn rows_of(
    alloc: Global,
    opened: &OpenedIndex,
    query: &Query,
    how: &Listing<'_, '_>,
) -> Result<Vec<SegmentRows>, AnswerFault> {
    let mut rows = Vec::new(alloc);
    let mut bases = Bases::new();
    let mut left = how.limit;
    for (place, segment) in opened.segments().iter().enumerate() {
        let base = bases.pass(segment);
        if left == 0 {
            continue;
        }
        if !query.has_fields(segment.schema()) {
            continue;
        }
        let found = found_of(alloc, segment, query, how, left)?;
        if found.docs.is_empty() {
            continue;
        }
        left = left.saturating_sub(u32::try_from(found.docs.len()).unwrap_or(u32::MAX));
        rows.push(rows_in(alloc, (place, segment), how, found, base)?)?;
    }
    Ok(rows)
}

// Returns the found documents of a segment, with their ids if requested.
fn rows_in(
    alloc: Global,
    placed: (usize, &Opened),
    how: &Listing<'_, '_>,
    found: FoundPlaces,
    base: u64,
) -> Result<SegmentRows, AnswerFault> {
    let (place, segment) = placed;
    let numbers = numbers_of(alloc, segment, &found.docs, base)?;
    match ids_in(alloc, placed, how, &found.docs) {
        Ok(ids) => Ok(SegmentRows {
            segment: place,
            found,
            ids,
            numbers,
        }),
        Err(fault) => {
            drop(numbers);
            Err(fault)
        }
    }
}

// Returns the numbers of living documents in the index, given that of the segment's first one.
fn numbers_of(
    alloc: Global,
    segment: &Opened,
    docs: &[DocId],
    base: u64,
) -> Result<Vec<u64>, Fault> {
    let mut numbers = Vec::new(alloc);
    for doc in docs {
        let number = segment.number_of(*doc).unwrap_or(*doc);
        numbers.push(base.saturating_add(u64::from(number)))?;
    }
    Ok(numbers)
}

// Returns the matching living documents of a segment, at most `limit`, with the positions of the terms if they are
// written.
fn found_of(
    alloc: Global,
    segment: &Opened,
    query: &Query,
    how: &Listing<'_, '_>,
    limit: u32,
) -> Result<FoundPlaces, Fault>
    requires { has_fields (length segment.now.schema) query.now ≡ true }
{
    if how.with_positions {
        return find_places(alloc, segment.index(), segment.alive(), query, limit);
    }
    match first_docs(alloc, segment.index(), segment.alive(), query, limit) {
        Ok(docs) => Ok(FoundPlaces {
            docs,
            places: Vec::new(alloc),
        }),
        Err(fault) => Err(fault),
    }
}

// Writes a line for each found document of all segments.
fn write_words_of_all<W: Write>(
    alloc: Global,
    out: &mut W,
    opened: &OpenedIndex,
    query: &Query,
    how: &Listing<'_, '_>,
    rows: &Vec<SegmentRows>,
) -> Result<(), AnswerFault> {
    let texts = texts_of(alloc, opened, query)?;
    let mut written = Ok(());
    for segment in rows {
        if written.is_ok() {
            written = write_rows(alloc, out, how, segment, &texts);
        }
    }
    drop(texts);
    written
}

// Writes what is requested of each found document of all segments.
fn write_sources_of_all<W: Write, L: SourceLines>(
    alloc: Global,
    out: &mut W,
    opened: &OpenedIndex,
    query: &Query,
    how: &Listing<'_, '_>,
    files: &L,
    rows: &Vec<SegmentRows>,
) -> Result<(), AnswerFault> {
    let words = words_for(alloc, how.stored, query)?;
    let parts = StoredParts::new(opened, how.stored, how.format, &words);
    let mut written = Ok(());
    for segment in rows {
        if written.is_ok() {
            written = write_sources(alloc, out, opened, &parts, files, segment);
        }
    }
    drop(words);
    written
}

// Returns the ids of documents, if requested.
fn ids_in(
    alloc: Global,
    placed: (usize, &Opened),
    how: &Listing<'_, '_>,
    docs: &[DocId],
) -> Result<Ids, AnswerFault> {
    match how.ids {
        Some(source) => ids_of(alloc, placed, source, docs),
        None => Ok(Ids::none(alloc)),
    }
}

// Writes a line for each document of a segment.
fn write_rows<W: Write>(
    alloc: Global,
    out: &mut W,
    how: &Listing<'_, '_>,
    rows: &SegmentRows,
    texts: &[TermText],
) -> Result<(), AnswerFault> {
    for (place, number) in rows.numbers.iter().enumerate() {
        let row = Row {
            doc: *number,
            id: rows.ids.at(place),
            place,
        };
        if how.format.is_json() {
            row.write_json(alloc, out, texts, &rows.found.places, how)?;
        } else {
            row.write_words(out, texts, &rows.found.places, how)?;
        }
    }
    Ok(())
}

// Writes what is requested of each found document of a segment.
fn write_sources<W: Write, L: SourceLines>(
    alloc: Global,
    out: &mut W,
    opened: &OpenedIndex,
    parts: &StoredParts<'_, '_>,
    files: &L,
    rows: &SegmentRows,
) -> Result<(), AnswerFault> {
    let Some(segment) = opened.segments().get(rows.segment) else {
        return Ok(());
    };
    let mut stored = StoredDocs::new(segment.store(), rows.segment);
    let mut written = Ok(());
    for (doc, number) in rows.found.docs.iter().zip(&rows.numbers) {
        if written.is_ok() {
            written = match stored.get(*doc) {
                Ok(document) => write_source(alloc, out, parts, files, *number, document),
                Err(fault) => Err(AnswerFault::Document(fault)),
            };
        }
    }
    drop(stored);
    written
}

// Writes what is requested of a stored document, as a line of words or of JSON.
fn write_source<W: Write, L: SourceLines>(
    alloc: Global,
    out: &mut W,
    parts: &StoredParts<'_, '_>,
    files: &L,
    number: u64,
    document: &[u8],
) -> Result<(), AnswerFault> {
    if parts.format.is_json() {
        write!(out, "{{\"doc\":{number}")?;
        parts.write_members(alloc, out, files, document)?;
        write!(out, "}}{}", parts.format.end())?;
        return Ok(());
    }
    parts.write_start(alloc, out, number, document)?;
    parts.write_end(alloc, out, files, document)?;
    writeln!(out)?;
    Ok(())
}

// A term of a query, as text.
#[derive(Drop)]
struct TermText {
    field: String,
    term: String,
}

// Returns the terms that a query wants, as text.
fn texts_of(
    alloc: Global,
    opened: &OpenedIndex,
    query: &Query,
) -> Result<Vec<TermText>, AnswerFault> {
    let mut texts = Vec::new(alloc);
    for term in wanted_terms(alloc, query)? {
        texts.push(text_of(alloc, opened, term)?)?;
    }
    Ok(texts)
}

// Returns a term as text.
fn text_of(alloc: Global, opened: &OpenedIndex, term: &Term) -> Result<TermText, AnswerFault> {
    let mut text = TermText {
        field: String::new(alloc),
        term: String::new(alloc),
    };
    if term.field().field_id() as usize >= opened.schema().num_fields() {
        return Ok(text);
    }
    let entry = opened.entry(term.field());
    text.field.push_str(entry.name())?;
    push_key(
        alloc,
        &mut text.term,
        entry.value_type(),
        term.serialized_value_bytes(),
    )?;
    Ok(text)
}

// A found document.
#[derive(Clone, Copy)]
struct Row<'a> {
    doc: u64,
    id: Option<&'a str>,
    // its index among the found documents
    place: usize,
}

impl Row<'_> {
    // Writes it as a line of words.
    fn write_words<W: Write>(
        &self,
        out: &mut W,
        texts: &[TermText],
        places: &[TermPositions],
        how: &Listing<'_, '_>,
    ) -> Result<(), AnswerFault> {
        if how.ids.is_none() {
            write!(out, "{}", self.doc)?;
        } else {
            write!(out, "{}", self.id.unwrap_or("-"))?;
        }
        for (text, term) in texts.iter().zip(places) {
            if let Some(positions) = positions_at(term, self.place) {
                write_term_words(out, text, positions)?;
            }
        }
        writeln!(out)?;
        Ok(())
    }

    // Writes it as a JSON object.
    fn write_json<W: Write>(
        &self,
        alloc: Global,
        out: &mut W,
        texts: &[TermText],
        places: &[TermPositions],
        how: &Listing<'_, '_>,
    ) -> Result<(), AnswerFault> {
        write!(out, "{{\"doc\":{}", self.doc)?;
        if how.ids.is_some() {
            write_id(alloc, out, self.id)?;
        }
        if how.with_positions {
            write!(out, ",\"terms\":[")?;
            self.write_terms(alloc, out, texts, places)?;
            write!(out, "]")?;
        }
        write!(out, "}}{}", how.format.end())?;
        Ok(())
    }

    // Writes its terms as JSON objects.
    fn write_terms<W: Write>(
        &self,
        alloc: Global,
        out: &mut W,
        texts: &[TermText],
        places: &[TermPositions],
    ) -> Result<(), AnswerFault> {
        let mut is_first = true;
        for (text, term) in texts.iter().zip(places) {
            let Some(positions) = positions_at(term, self.place) else {
                continue;
            };
            if !is_first {
                write!(out, ",")?;
            }
            is_first = false;
            write_term_json(alloc, out, text, positions)?;
        }
        Ok(())
    }
}

// Writes a term and its positions as words.
fn write_term_words<W: Write>(
    out: &mut W,
    text: &TermText,
    positions: &[u32],
) -> Result<(), AnswerFault> {
    write!(out, "\t{}:{}", text.field, text.term)?;
    for position in positions {
        write!(out, " {}", *position)?;
    }
    Ok(())
}

// Writes an id as a member of a JSON object.
pub(crate) fn write_id<W: Write>(
    alloc: Global,
    out: &mut W,
    id: Option<&str>,
) -> Result<(), AnswerFault> {
    let Some(id) = id else {
        write!(out, ",\"id\":null")?;
        return Ok(());
    };
    let id = quoted(alloc, id)?;
    let written = write!(out, ",\"id\":{id}");
    drop(id);
    Ok(written?)
}

// Writes a term and its positions as a JSON object.
fn write_term_json<W: Write>(
    alloc: Global,
    out: &mut W,
    text: &TermText,
    positions: &[u32],
) -> Result<(), AnswerFault> {
    write_names(alloc, out, text)?;
    write_numbers(out, positions)?;
    write!(out, "]}}")?;
    Ok(())
}

// Writes the start of such an object, up to the positions.
fn write_names<W: Write>(alloc: Global, out: &mut W, text: &TermText) -> Result<(), AnswerFault> {
    let field = quoted(alloc, text.field.as_str())?;
    let name = match quoted(alloc, text.term.as_str()) {
        Ok(name) => name,
        Err(fault) => {
            drop(field);
            return Err(AnswerFault::Index(fault));
        }
    };
    let written = write!(out, "{{\"field\":{field},\"term\":{name},\"positions\":[");
    drop(name);
    drop(field);
    Ok(written?)
}

// Returns the positions of a term in the document at an index, if it has the term.
fn positions_at(term: &TermPositions, place: usize) -> Option<&[u32]> {
    match term.positions.get(place) {
        Some(Some(positions)) => Some(positions.as_slice()),
        _ => None,
    }
}
