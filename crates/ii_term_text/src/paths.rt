//! The path of a JSON key as text.
ghost use Rattle.std.specs.Prelude.{◌≡◌, ◌==◌, ◌&&◌, not, ◌++◌, ◌∷◌, false, None, Some, OnOk, MatchOption, string_bytes};
ghost use Rattle.std.specs.Char.{encode_utf8};
ghost use Rattle.ii_term_text.specs.PathTexts.{cut_at_space, is_escaped, path_text, space_place};

use std::alloc::AllocError;

/// Adds a path of a JSON key as text: byte 1, which separates two keys, is a dot, and a backslash is written
/// before a dot, a backslash or a space in a key.
pub fn push_path(text: &mut String, path: &str) -> Result<(), AllocError>
    ensures { OnOk result (string_bytes text.new ≡ string_bytes text.old ++ path_text path.now) }
{
    for c in path.chars() {
        push_char(text, c)?;
    }
    Ok(())
}

// Adds a character of a path.
#[tactic(auto, using(crate::proofs::CharTexts::separator, crate::proofs::CharTexts::plain_char, crate::proofs::CharTexts::kept_char))]
fn push_char(text: &mut String, c: char) -> Result<(), AllocError>
    ensures { OnOk result (string_bytes text.new ≡ string_bytes text.old ++ path_text (encode_utf8 c)) }
{
    if is_separator(c) {
        return text.push('.');
    }
    if is_escaped(c) {
        return push_kept(text, c);
    }
    text.push(c)
}

// Adds a character after a backslash.
fn push_kept(text: &mut String, c: char) -> Result<(), AllocError>
    ensures { OnOk result (string_bytes text.new ≡ string_bytes text.old ++ 92 ∷ encode_utf8 c) }
{
    text.push('\\')?;
    text.push(c)
}

fn is_separator(c: char) -> bool
    ensures { result ≡ (c == 1) }
{
    c == '\u{1}'
}

fn is_escaped(c: char) -> bool
    ensures { result ≡ is_escaped c }
{
    c == '.' || c == '\\' || c == ' '
}

/// Returns the text in front of the first space that no backslash keeps, and the text after that space;
/// nothing if there is no such space. A backslash keeps the byte after it, unless one keeps the backslash.
#[tactic(auto, using(crate::proofs::CutLemmas::cut_none, crate::proofs::CutLemmas::cut_some))]
pub fn cut_at_space(text: &str) -> Option<(&str, &str)>
    ensures { MatchOption result (cut_at_space false text.now ≡ None) (λ cut. cut_at_space false text.now ≡ Some (record { front = cut.0.now; rest = cut.1.now })) }
{
    let place = space_in(text.as_bytes());
    if place >= text.len() {
        return None;
    }
    let (front, _) = text.split_at(place);
    let (_, rest) = text.split_at(place + 1);
    Some((front, rest))
}

// How many bytes come before the first space that no backslash keeps; all bytes if there is none.
fn space_in(text: &[u8]) -> usize
    ensures { result ≡ space_place false text.now }
{
    let mut is_kept = false;
    for (place, byte) in text.iter().enumerate() {
        if ends_path(*byte, is_kept) {
            return place;
        }
        is_kept = keeps_next(*byte, is_kept);
    }
    text.len()
}

fn ends_path(byte: u8, is_kept: bool) -> bool
    ensures { result ≡ (not is_kept && (byte == 32)) }
{
    !is_kept && byte == b' '
}

fn keeps_next(byte: u8, is_kept: bool) -> bool
    ensures { result ≡ (not is_kept && (byte == 92)) }
{
    !is_kept && byte == b'\\'
}
