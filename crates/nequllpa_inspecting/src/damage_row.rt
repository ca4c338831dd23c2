//! A damage as a line of JSON.
use nequllpa_opening::{AnswerFault, RowFormat, write_quoted};
use std::alloc::Global;
use std::io::Write;

/// A damage of a file of an index, as `check` tells it.
#[derive(Clone, Copy, Debug)]
pub struct DamageRow<'a> {
    /// What is wrong.
    pub damage: &'a str,
    /// The id of the segment that has the file, in an index of version 2 or 3.
    pub segment: Option<u64>,
    /// What the file holds, if it is about a file.
    pub file: Option<&'a str>,
    /// The name of the field, if it belongs to one.
    pub field: Option<&'a str>,
    /// The text of the term, if it belongs to one.
    pub term: Option<&'a str>,
    /// The bytes of the file; the second number is exclusive.
    pub bytes: Option<(u64, u64)>,
    /// The first document that can't be read for it.
    pub document: Option<u32>,
}

impl DamageRow<'_> {
    /// Writes it as a JSON object with these members, without those that are `None`; `bytes` is an array of two numbers.
    pub fn write<W: Write>(
        &self,
        alloc: Global,
        out: &mut W,
        format: RowFormat,
    ) -> Result<(), AnswerFault> {
        write!(out, "{{\"damage\":")?;
        write_quoted(alloc, out, self.damage)?;
        if let Some(id) = self.segment {
            write!(out, ",\"segment\":{id}")?;
        }
        write_member(alloc, out, "file", self.file)?;
        write_member(alloc, out, "field", self.field)?;
        write_member(alloc, out, "term", self.term)?;
        if let Some((start, end)) = self.bytes {
            write!(out, ",\"bytes\":[{start},{end}]")?;
        }
        if let Some(document) = self.document {
            write!(out, ",\"document\":{document}")?;
        }
        write!(out, "}}{}", format.end())?;
        Ok(())
    }
}

// Writes a member of a JSON object after others, if it has a value.
fn write_member<W: Write>(
    alloc: Global,
    out: &mut W,
    name: &str,
    value: Option<&str>,
) -> Result<(), AnswerFault> {
    let Some(value) = value else {
        return Ok(());
    };
    write!(out, ",\"{name}\":")?;
    write_quoted(alloc, out, value)
}
