//! Writes what is requested of stored documents.
use crate::line_snippets::snippet_of_line;
use crate::places::{SourceLines, line_again, write_place, write_place_json};
use ii_base::Fault;
use ii_documents::fields_of_line;
use ii_search::Query;
use ii_snippet::{MarkStyle, SnippetRules, WantedWord, wanted_words};
use nequllpa_opening::{AnswerFault, OpenedIndex, RowFormat, write_quoted, write_text};
use std::alloc::Global;
use std::io::Write;

// The maximum number of words of a text that a snippet shows.
const SNIPPET_WORDS: u32 = 30;

/// What is written of a stored document.
#[derive(Clone, Copy, Debug)]
pub enum StoredPart<'a, 'n> {
    /// Nothing: its number is written.
    Nothing,
    /// All that is stored of it: its line, or the object of its stored fields.
    Line,
    /// An object of the members with these names.
    Fields(&'a [&'n str]),
    /// The snippets of its texts, in this style.
    Snippet(MarkStyle),
    /// The place of its line, which it has in the field with this name: the file and the number of the line.
    Place(&'a str),
    /// The same, and the snippets of the texts of that line, which is read again, in this style.
    PlacedSnippet(&'a str, MarkStyle),
}

impl StoredPart<'_, '_> {
    // Returns the style of snippets, if they are requested.
    fn style(&self) -> Option<MarkStyle> {
        match self {
            StoredPart::Snippet(style) => Some(*style),
            StoredPart::PlacedSnippet(_, style) => Some(*style),
            _ => None,
        }
    }
}

// Returns what a query wants, if snippets are requested.
pub(crate) fn words_for<'q>(
    alloc: Global,
    part: StoredPart<'_, '_>,
    query: &'q Query,
) -> Result<Vec<WantedWord<'q>>, Fault> {
    match part.style() {
        Some(_) => wanted_words(alloc, query),
        None => Ok(Vec::new(alloc)),
    }
}

// What is written of stored documents, with what snippets of them need.
#[derive(Clone, Copy)]
pub(crate) struct StoredParts<'a, 'n> {
    // How the documents are written.
    pub(crate) format: RowFormat,
    part: StoredPart<'a, 'n>,
    rules: SnippetRules<'a>,
}

impl<'a, 'n> StoredParts<'a, 'n> {
    // Returns what is written of the stored documents of an index, given what a query wants.
    pub(crate) fn new(
        opened: &'a OpenedIndex,
        part: StoredPart<'a, 'n>,
        format: RowFormat,
        words: &'a [WantedWord<'a>],
    ) -> StoredParts<'a, 'n> {
        let style = part.style().unwrap_or(MarkStyle::Plain);
        let rules = SnippetRules {
            schema: opened.schema(),
            tokenizers: opened.tokenizers(),
            words,
            limit: SNIPPET_WORDS,
            style,
        };
        StoredParts {
            format,
            part,
            rules,
        }
    }

    // Writes what a line of words begins with: the number of a document, or what is requested of it instead.
    pub(crate) fn write_start<W: Write>(
        &self,
        alloc: Global,
        out: &mut W,
        number: u64,
        document: &[u8],
    ) -> Result<(), AnswerFault> {
        match self.part {
            StoredPart::Nothing | StoredPart::Snippet(_) => Ok(write!(out, "{number}")?),
            StoredPart::Line => Ok(out.write_all(document)?),
            StoredPart::Fields(names) => {
                write_text(out, fields_of_line(alloc, line_of(document), names)?)
            }
            StoredPart::Place(field) | StoredPart::PlacedSnippet(field, _) => {
                write_place(alloc, out, line_of(document), field)
            }
        }
    }

    // Writes the snippets of a document after a tab, if they are requested.
    pub(crate) fn write_end<W: Write, L: SourceLines>(
        &self,
        alloc: Global,
        out: &mut W,
        files: &L,
        document: &[u8],
    ) -> Result<(), AnswerFault> {
        match self.snippet_of(alloc, files, document)? {
            Some(snippet) => {
                write!(out, "\t")?;
                write_text(out, snippet)
            }
            None => Ok(()),
        }
    }

    // Writes what is requested of a document as members of a JSON object.
    pub(crate) fn write_members<W: Write, L: SourceLines>(
        &self,
        alloc: Global,
        out: &mut W,
        files: &L,
        document: &[u8],
    ) -> Result<(), AnswerFault> {
        match self.part {
            StoredPart::Nothing | StoredPart::Snippet(_) => {}
            StoredPart::Line => {
                write!(out, ",\"source\":")?;
                out.write_all(document)?;
            }
            StoredPart::Fields(names) => {
                write!(out, ",\"fields\":")?;
                write_text(out, fields_of_line(alloc, line_of(document), names)?)?;
            }
            StoredPart::Place(field) | StoredPart::PlacedSnippet(field, _) => {
                write!(out, ",\"place\":")?;
                write_place_json(alloc, out, line_of(document), field)?;
            }
        }
        match self.snippet_of(alloc, files, document)? {
            Some(snippet) => write_snippet_member(alloc, out, snippet),
            None => Ok(()),
        }
    }

    // Returns the snippets of a document, if they are requested: of its stored line, or of the line that is read again.
    fn snippet_of<L: SourceLines>(
        &self,
        alloc: Global,
        files: &L,
        document: &[u8],
    ) -> Result<Option<String>, AnswerFault> {
        match self.part {
            StoredPart::Snippet(_) => {
                Ok(Some(snippet_of_line(alloc, &self.rules, line_of(document))?))
            }
            StoredPart::PlacedSnippet(field, _) => {
                let line = line_again(alloc, files, line_of(document), field)?;
                let snippet = snippet_of_line(alloc, &self.rules, line_of(line.as_slice()));
                drop(line);
                Ok(Some(snippet?))
            }
            _ => Ok(None),
        }
    }
}

// Writes snippets as a member of a JSON object.
fn write_snippet_member<W: Write>(
    alloc: Global,
    out: &mut W,
    snippet: String,
) -> Result<(), AnswerFault> {
    write!(out, ",\"snippet\":")?;
    let written = write_quoted(alloc, out, snippet.as_str());
    drop(snippet);
    written
}

// Returns a stored document as a text, which is empty if it isn't UTF-8.
fn line_of(document: &[u8]) -> &str {
    std::str::from_utf8(document).unwrap_or("")
}
