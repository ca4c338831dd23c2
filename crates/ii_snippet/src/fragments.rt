//! Cuts the shown part of a text into pieces.
ghost use Rattle.std.specs.Prelude.{◌≡◌, ◌<◌, ◌++◌, ◌∷◌, [], IfOk, IsCharBoundary, IsTrue, OnOk, false, filter, length, map, true, if◌then◌else◌};
ghost use Rattle.ii_io.specs.Faults.{OnlyMemory};
ghost use Rattle.ii_snippet.specs.Fragments.{ShowTokens, cut, is_boundary, piece_of, pieces_of};
ghost use Rattle.ii_snippet.specs.Windows.{is_unwanted};

use crate::windows::{SnippetToken, shown_tokens};
use ii_io::Fault;
use std::alloc::Global;

/// A piece of a text.
#[derive(Clone, Copy, Debug, PartialEq, Eq)]
pub struct SnippetPiece<'t> {
    /// The piece.
    pub text: &'t str,
    /// Whether it is a wanted word.
    pub is_wanted: bool,
}

/// The part of a text that is shown, in pieces, some of them empty.
#[derive(Drop)]
pub struct Snippet<'t> {
    /// The pieces, in order.
    pub pieces: Vec<SnippetPiece<'t>>,
}

impl<'t> Snippet<'t> {
    /// Returns the snippet of a text: its part around the wanted words among its tokens, at most `limit` of them
    /// (`shown_tokens`), from the first byte of the first token to the last byte of the last one. Without tokens
    /// it is empty. It is never cut inside a character: a piece whose ends are not between characters is empty.
    ///
    /// Returns `OutOfMemory` if an allocation fails.
    pub fn new(
        alloc: Global,
        text: &'t str,
        tokens: &[SnippetToken],
        limit: u32,
    ) -> Result<Snippet<'t>, Fault>
        ensures none { IfOk result (λ s. length tokens.now ≡ 0 → map piece_of s.pieces.items ≡ []) }
        ensures shown { IfOk result (λ s. 0 < length tokens.now → ShowTokens text.now limit tokens.now (map piece_of s.pieces.items)) }
        ensures only { OnlyMemory result }
    {
        let shown = shown_tokens(tokens, limit);
        let pieces = pieces_of(alloc, text, shown)?;
        Ok(Snippet { pieces })
    }
}

// Returns the pieces of a text from the first token on, up to the last one.
fn pieces_of<'t>(
    alloc: Global,
    text: &'t str,
    tokens: &[SnippetToken],
) -> Result<Vec<SnippetPiece<'t>>, Fault>
    ensures ok { IfOk result (λ pieces. map piece_of pieces.items ≡ pieces_of text.now tokens.now) }
    ensures only { OnlyMemory result }
{
    let mut pieces = Vec::new(alloc);
    if tokens.is_empty() {
        return Ok(pieces);
    }
    let mut from = tokens[0].offset_from;
    let to = tokens[tokens.len() - 1].offset_to;
    for token in tokens {
        from = push_token(&mut pieces, text, from, *token)?;
    }
    pieces.push(plain(text, from, to))?;
    Ok(pieces)
}

// Adds a token with what is before it, if it is a wanted word. Returns where the next piece begins.
fn push_token<'t>(
    pieces: &mut Vec<SnippetPiece<'t>>,
    text: &'t str,
    from: usize,
    token: SnippetToken,
) -> Result<usize, Fault>
    ensures pieces { OnOk result (map piece_of pieces.new.items ≡ map piece_of pieces.old.items
        ++ (if is_unwanted token then [] else record { text = cut text.now from token.offset_from; is_wanted = false } ∷ record { text = cut text.now token.offset_from token.offset_to; is_wanted = true } ∷ [])) }
    ensures next { IfOk result (λ next. next ≡ (if is_unwanted token then from else token.offset_to)) }
    ensures only { OnlyMemory result }
{
    if token.wanted.is_none() {
        return Ok(from);
    }
    pieces.push(plain(text, from, token.offset_from))?;
    pieces.push(SnippetPiece {
        text: cut(text, token.offset_from, token.offset_to),
        is_wanted: true,
    })?;
    Ok(token.offset_to)
}

// Returns the piece of a text between two places, which is no wanted word.
fn plain(text: &str, from: usize, to: usize) -> SnippetPiece<'_>
    ensures { piece_of result ≡ record { text = cut text.now from to; is_wanted = false } }
{
    SnippetPiece {
        text: cut(text, from, to),
        is_wanted: false,
    }
}

// Returns the part of a text between two places, or nothing if they aren't between its characters, in order.
fn cut(text: &str, from: usize, to: usize) -> &str
    ensures { result.now ≡ cut text.now from to }
{
    if from > to {
        return "";
    }
    if !is_boundary(text, from) {
        return "";
    }
    if !is_boundary(text, to) {
        return "";
    }
    &text[from..to]
}

// Returns whether a character of a text begins at a place, or the text ends there.
fn is_boundary(text: &str, place: usize) -> bool
    ensures value { result ≡ is_boundary text.now place }
    ensures boundary { IsTrue result → IsCharBoundary text.now place }
{
    let bytes = text.as_bytes();
    if place > bytes.len() {
        return false;
    }
    if place == bytes.len() {
        return true;
    }
    if bytes[place] < 128 {
        return true;
    }
    bytes[place] >= 192
}
