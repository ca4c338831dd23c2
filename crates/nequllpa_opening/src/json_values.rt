//! Writes values of JSON.
use crate::faults::AnswerFault;
use ii_documents::quoted;
use std::alloc::Global;
use std::io::Write;

/// Writes a text as a JSON string.
pub fn write_quoted<W: Write>(alloc: Global, out: &mut W, text: &str) -> Result<(), AnswerFault> {
    match quoted(alloc, text) {
        Ok(text) => write_text(out, text),
        Err(fault) => Err(AnswerFault::Index(fault)),
    }
}

/// Writes a text.
pub fn write_text<W: Write>(out: &mut W, text: String) -> Result<(), AnswerFault> {
    let written = out.write_all(text.as_bytes());
    drop(text);
    Ok(written?)
}

/// Writes numbers, with a comma between two.
pub fn write_numbers<W: Write>(out: &mut W, numbers: &[u32]) -> Result<(), AnswerFault> {
    for (place, number) in numbers.iter().enumerate() {
        write_separator(out, place)?;
        write!(out, "{}", *number)?;
    }
    Ok(())
}

/// Writes a comma, unless nothing was written before.
pub fn write_separator<W: Write>(out: &mut W, written: usize) -> Result<(), AnswerFault> {
    if written > 0 {
        write!(out, ",")?;
    }
    Ok(())
}
