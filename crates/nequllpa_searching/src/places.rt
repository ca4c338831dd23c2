//! Where the lines of documents are: in a file, at the number of a line, from a byte on.
use ii_base::Fault;
use ii_documents::{LinePlace, read_line};
use nequllpa_opening::{AnswerFault, write_quoted};
use std::alloc::Global;
use std::io::Write;

/// Files whose lines are read again.
pub trait SourceLines {
    /// Returns the line of a file that begins at a byte, counted from 0; an empty one if it can't be read. Fails only
    /// with `OutOfMemory`.
    fn line_at(&self, alloc: Global, file: &str, byte: u64) -> Result<Vec<u8>, Fault>;
}

// Writes a place as words: the file and the number of the line.
fn write_words<W: Write>(out: &mut W, place: LinePlace<'_>) -> Result<(), AnswerFault> {
    Ok(write!(out, "{}:{}", place.file, place.line)?)
}

// Writes a place as a JSON object.
fn write_json<W: Write>(
    alloc: Global,
    out: &mut W,
    place: LinePlace<'_>,
) -> Result<(), AnswerFault> {
    write!(out, "{{\"file\":")?;
    write_quoted(alloc, out, place.file)?;
    write!(out, ",\"line\":{},\"byte\":{}}}", place.line, place.byte)?;
    Ok(())
}

// Returns the text that a stored document has in a field, an empty one if it has none.
fn text_in(alloc: Global, document: &str, field: &str) -> Result<String, Fault> {
    let object = read_line(alloc, document)?;
    let text = match object.get(field) {
        Some(value) => String::from_str(alloc, value.as_str().unwrap_or("")),
        None => Ok(String::new(alloc)),
    };
    drop(object);
    Ok(text?)
}

// Writes the place that a stored document has in a field, as words: `-` if it has none.
pub(crate) fn write_place<W: Write>(
    alloc: Global,
    out: &mut W,
    document: &str,
    field: &str,
) -> Result<(), AnswerFault> {
    let text = text_in(alloc, document, field)?;
    match LinePlace::read(text.as_str()) {
        Some(place) => write_words(out, place),
        None => Ok(write!(out, "-")?),
    }
}

// Writes it as a value of JSON: null if the document has none.
pub(crate) fn write_place_json<W: Write>(
    alloc: Global,
    out: &mut W,
    document: &str,
    field: &str,
) -> Result<(), AnswerFault> {
    let text = text_in(alloc, document, field)?;
    match LinePlace::read(text.as_str()) {
        Some(place) => write_json(alloc, out, place),
        None => Ok(write!(out, "null")?),
    }
}

// Reads the line of a document again, at the place that the stored document has in a field.
pub(crate) fn line_again<L: SourceLines>(
    alloc: Global,
    files: &L,
    document: &str,
    field: &str,
) -> Result<Vec<u8>, Fault> {
    let text = text_in(alloc, document, field)?;
    match LinePlace::read(text.as_str()) {
        Some(place) => files.line_at(alloc, place.file, place.byte),
        None => Ok(Vec::new(alloc)),
    }
}
