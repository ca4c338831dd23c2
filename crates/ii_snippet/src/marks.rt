//! Writes a snippet, with the wanted words marked.
ghost use Rattle.std.specs.Prelude.{◌≡◌, ◌++◌, IfOk, OnOk, map, string_bytes};
ghost use Rattle.ii_io.specs.Faults.{OnlyMemory};
ghost use Rattle.ii_snippet.specs.Fragments.{piece_of};
ghost use Rattle.ii_snippet.specs.Marks.{closing, html_char, opening, terminal_char, written, written_char, written_piece, written_text};

use crate::fragments::{Snippet, SnippetPiece};
use ii_io::Fault;
use std::alloc::Global;

/// How a snippet is written.
#[derive(Clone, Copy, Debug, PartialEq, Eq)]
pub enum MarkStyle {
    /// As HTML: wanted words in `<b>` elements, and `&`, `<`, `>`, `"` and `'` as entities.
    Html,
    /// For a terminal: wanted words in bold, and U+FFFD for each control character.
    Terminal,
    /// As a line of text: no word is marked, and U+FFFD for each control character.
    Plain,
}

impl<'t> Snippet<'t> {
    /// Writes the snippet. Returns `OutOfMemory` if an allocation fails.
    pub fn to_text(&self, alloc: Global, style: MarkStyle) -> Result<String, Fault>
        ensures ok { IfOk result (λ text. string_bytes text ≡ written style (map piece_of self.now.pieces.items)) }
        ensures only { OnlyMemory result }
    {
        let mut out = String::new(alloc);
        for piece in &self.pieces {
            push_piece(style, *piece, &mut out)?;
        }
        Ok(out)
    }
}

// Adds a piece.
fn push_piece(style: MarkStyle, piece: SnippetPiece<'_>, out: &mut String) -> Result<(), Fault>
    ensures ok { OnOk result (string_bytes out.new ≡ string_bytes out.old ++ written_piece style (piece_of piece.entry)) }
    ensures only { OnlyMemory result }
{
    if !piece.is_wanted {
        return push_text(style, piece.text, out);
    }
    out.push_str(opening(style))?;
    push_text(style, piece.text, out)?;
    out.push_str(closing(style))?;
    Ok(())
}

// Adds a text.
fn push_text(style: MarkStyle, text: &str, out: &mut String) -> Result<(), Fault>
    ensures ok { OnOk result (string_bytes out.new ≡ string_bytes out.old ++ written_text style text.now) }
    ensures only { OnlyMemory result }
{
    for c in text.chars() {
        push_char(style, c, out)?;
    }
    Ok(())
}

// Adds a character.
fn push_char(style: MarkStyle, c: char, out: &mut String) -> Result<(), Fault>
    ensures ok { OnOk result (string_bytes out.new ≡ string_bytes out.old ++ written_char style c) }
    ensures only { OnlyMemory result }
{
    match style {
        MarkStyle::Html => push_html_char(c, out),
        MarkStyle::Terminal | MarkStyle::Plain => push_terminal_char(c, out),
    }
}

// Adds a character as HTML.
fn push_html_char(c: char, out: &mut String) -> Result<(), Fault>
    ensures ok { OnOk result (string_bytes out.new ≡ string_bytes out.old ++ html_char c) }
    ensures only { OnlyMemory result }
{
    match c {
        '&' => Ok(out.push_str("&amp;")?),
        '<' => Ok(out.push_str("&lt;")?),
        '>' => Ok(out.push_str("&gt;")?),
        '"' => Ok(out.push_str("&quot;")?),
        '\'' => Ok(out.push_str("&#x27;")?),
        _ => Ok(out.push(c)?),
    }
}

// Adds a character as a terminal may show it.
fn push_terminal_char(c: char, out: &mut String) -> Result<(), Fault>
    ensures ok { OnOk result (string_bytes out.new ≡ string_bytes out.old ++ terminal_char c) }
    ensures only { OnlyMemory result }
{
    if c.is_control() {
        return Ok(out.push(char::REPLACEMENT_CHARACTER)?);
    }
    Ok(out.push(c)?)
}

// Returns what is written before a wanted word.
fn opening(style: MarkStyle) -> &'static str
    ensures { result.now ≡ opening style }
{
    match style {
        MarkStyle::Html => "<b>",
        MarkStyle::Terminal => "\u{1b}[1m",
        MarkStyle::Plain => "",
    }
}

// Returns what is written after a wanted word.
fn closing(style: MarkStyle) -> &'static str
    ensures { result.now ≡ closing style }
{
    match style {
        MarkStyle::Html => "</b>",
        MarkStyle::Terminal => "\u{1b}[0m",
        MarkStyle::Plain => "",
    }
}
