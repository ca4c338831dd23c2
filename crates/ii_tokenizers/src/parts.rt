//! Cuts a text into the parts that become tokens.
ghost use Rattle.std.specs.Prelude.{◌≡◌, ◌+◌, ◌<◌, ◌≤◌, ◌++◌, ◌∷◌, ◌⊎◌, ◌^◌, [], true, chars, length, OnOk, IfOk};
ghost use Rattle.ii_io.specs.Faults.{OnlyMemory};
ghost use Rattle.ii_base.specs.Parts.{part_words};
ghost use Rattle.ii_tokenizers.specs.Analyzers.{cuts_at, is_mark, nonempty_parts, piece_parts, raw_words, rule_parts, space_words, split_words};
ghost use Rattle.ii_tokenizers.specs.Stretches.{IsBehindSpace};

use crate::ascii_words::add_ascii_words;
use ii_base::{TokenBuffer, TokenView};
use ii_io::Fault;
use std::alloc::Global;
use ucd_breaks::WordBreak;
use unicode_segmentation::UnicodeSegmentation;

/// Where a text is cut.
#[derive(Clone, Copy)]
pub enum Cut {
    /// At marks that may be inside words, as the apostrophe, the point and the comma.
    AtMarks,
    /// At white space.
    AtWhitespace,
}

/// Returns the words of a text by the rules of Unicode (UAX #29), cut at the marks inside them.
///
/// Returns `OutOfMemory` if an allocation fails.
pub fn split_words(alloc: Global, text: &str) -> Result<TokenBuffer, Fault>
    ensures ok { IfOk result (λ tokens. tokens ≡ split_words text.now) }
    ensures only { OnlyMemory result }
{
    let mut tokens = TokenBuffer::with_capacity(alloc, text.len())?;
    let mut start = 0;
    while start < text.len() {
        let end = stretch_end(text.as_bytes(), start);
        add_stretch(start, &text[start..end], &mut tokens)?;
        start = end;
    }
    Ok(tokens)
}

// Returns where the stretch from an offset on ends: behind a space and before a letter or digit, or with the text.
// It ends before the first character past ASCII if it can, else at the next such place.
fn stretch_end(bytes: &[u8], start: usize) -> usize
    requires { start < length bytes.now }
    ensures after { start < result }
    ensures cut { (result ≡ length bytes.now) ⊎ IsBehindSpace bytes.now result }
{
    let end = start + ascii_len(&bytes[start..]);
    let mut place = end;
    while place > start && end < bytes.len() {
        if is_behind_space(bytes, place) {
            return place;
        }
        place -= 1;
    }
    let mut next = end.max(start + 1);
    while next < bytes.len() {
        if is_behind_space(bytes, next) {
            return next;
        }
        next += 1;
    }
    bytes.len()
}

// Returns the number of ASCII characters at the start of these bytes.
fn ascii_len(bytes: &[u8]) -> usize
    ensures { result ≤ length bytes.now }
{
    bytes.iter().take_while(|b| b.is_ascii()).count()
}

// Returns whether an offset is behind a space and before a letter or digit.
fn is_behind_space(bytes: &[u8], place: usize) -> bool
    requires first { 0 < place }
    requires within { place < length bytes.now }
    ensures { result ≡ true → IsBehindSpace bytes.now place }
{
    bytes[place - 1] == b' ' && bytes[place].is_ascii_alphanumeric()
}

// Adds the words of a stretch of a text, whose first byte is at an offset.
fn add_stretch(at: usize, stretch: &str, tokens: &mut TokenBuffer) -> Result<(), Fault>
    requires room { at + length stretch.now < 2 ^ 64 }
    ensures ok { OnOk result (tokens.new ≡ tokens.old ++ part_words (length tokens.old) (rule_parts at stretch.now)) }
    ensures only { OnlyMemory result }
{
    if stretch.is_ascii() {
        return add_ascii_words(at, stretch, tokens);
    }
    for (place, word) in stretch.unicode_word_indices() {
        add_parts(Cut::AtMarks, at + place, word, tokens)?;
    }
    Ok(())
}

/// Returns the runs of characters of a text that are no white space.
///
/// Returns `OutOfMemory` if an allocation fails.
pub fn space_words(alloc: Global, text: &str) -> Result<TokenBuffer, Fault>
    ensures ok { IfOk result (λ tokens. tokens ≡ space_words text.now) }
    ensures only { OnlyMemory result }
{
    let mut tokens = TokenBuffer::with_capacity(alloc, text.len())?;
    add_parts(Cut::AtWhitespace, 0, text, &mut tokens)?;
    Ok(tokens)
}

/// Returns the complete text as a token, or none if it is empty.
///
/// Returns `OutOfMemory` if an allocation fails.
pub fn raw_words(alloc: Global, text: &str) -> Result<TokenBuffer, Fault>
    ensures ok { IfOk result (λ tokens. tokens ≡ raw_words text.now) }
    ensures only { OnlyMemory result }
{
    let mut tokens = TokenBuffer::with_capacity(alloc, text.len())?;
    add_part(0, text, &mut tokens)?;
    Ok(tokens)
}

// Adds the parts of a piece of a text, whose first byte is at an offset.
fn add_parts(cut: Cut, at: usize, piece: &str, tokens: &mut TokenBuffer) -> Result<(), Fault>
    requires room { at + length piece.now < 2 ^ 64 }
    ensures ok { OnOk result (tokens.new ≡ tokens.old ++ part_words (length tokens.old) (piece_parts cut (at, piece.now))) }
    ensures only { OnlyMemory result }
{
    let mut start = 0;
    let mut end = 0;
    for c in piece.chars() {
        let next = end + c.len_utf8();
        if cuts_at(cut, c) {
            add_part(at + start, &piece[start..end], tokens)?;
            start = next;
        }
        end = next;
    }
    add_part(at + start, &piece[start..end], tokens)
}

// Adds a part, if it has characters.
pub(crate) fn add_part(start: usize, part: &str, tokens: &mut TokenBuffer) -> Result<(), Fault>
    requires room { start + length part.now < 2 ^ 64 }
    ensures ok { OnOk result (tokens.new ≡ tokens.old ++ part_words (length tokens.old) (nonempty_parts (record { offset = start; characters = chars part.now } ∷ []))) }
    ensures only { OnlyMemory result }
{
    if part.is_empty() {
        return Ok(());
    }
    let position = tokens.len();
    tokens.push(TokenView {
        offset_from: start,
        offset_to: start + part.len(),
        position,
        text: part,
        position_length: 1,
    })
}

// Returns whether a text is cut at a character.
fn cuts_at(cut: Cut, c: char) -> bool
    ensures { result ≡ cuts_at cut c }
{
    match cut {
        Cut::AtMarks => is_mark(WordBreak::for_char(c)),
        Cut::AtWhitespace => c.is_whitespace(),
    }
}

// Returns whether characters of this kind may be inside words, as the apostrophe.
fn is_mark(kind: WordBreak) -> bool
    ensures { result ≡ is_mark kind }
{
    matches!(
        kind,
        WordBreak::SingleQuote
            | WordBreak::DoubleQuote
            | WordBreak::MidLetter
            | WordBreak::MidNum
            | WordBreak::MidNumLet
    )
}
