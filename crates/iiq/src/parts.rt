ghost use Rattle.std.specs.Prelude.{◌≡◌, ◌<◌, ◌==◌, [], ◌∷◌, IfNone, IfSome, MatchOption, position};
ghost use Rattle.std.specs.Str.{IsUtf8};
ghost use Rattle.std.specs.Option.{option_copied};
ghost use Rattle.iiq.specs.Words.{AreTexts, parts, parts_left};

use std::marker::Model;

/// The parts of a text between separators, in order.
#[derive(Drop)]
pub struct Parts<'a> {
    separator: u8,
    rest: Option<&'a [u8]>,
}

impl<'a> Model for Parts<'a> {
    ghost use Rattle.std.specs.Prelude.{List, ℕ};
    ghost use Rattle.std.specs.Option.{option_copied};
    ghost use Rattle.iiq.specs.Words.{parts_left};

    ghost Value = { List (List ℕ) };

    ghost view = { λ p. parts_left p.separator (option_copied p.rest) };
}

impl<'a> Parts<'a> {
    /// Splits `text` into parts. A part is empty between two adjacent separators, and at an end that
    /// has a separator.
    pub fn of(text: &'a [u8], separator: u8) -> Parts<'a>
        ensures { result ≡ parts separator text.now }
    {
        Parts {
            separator,
            rest: Some(text),
        }
    }

    /// Splits the remaining text, if there is any.
    pub fn left(rest: Option<&'a [u8]>, separator: u8) -> Parts<'a>
        ensures parts { result ≡ parts_left separator (option_copied rest.entry) }
        ensures texts { separator < 128 → IfSome rest.entry (λ text. IsUtf8 text.now) → AreTexts result }
    {
        Parts { separator, rest }
    }

    /// Returns the next part, if one remains.
    pub fn next(&mut self) -> Option<&'a [u8]>
        ensures part { MatchOption result (self.old ≡ []) (λ part. self.old ≡ part.now ∷ self.new) }
        ensures end { IfNone result (self.new ≡ []) }
    {
        let Some(text) = self.rest else {
            return None;
        };
        let (part, rest) = cut(text, self.separator);
        self.rest = rest;
        Some(part)
    }
}

/// Returns the text before the first separator, and the text after it, if there is a separator.
pub fn cut(text: &[u8], separator: u8) -> (&[u8], Option<&[u8]>)
    ensures parts { parts separator text.now ≡ result.0.now ∷ parts_left separator (option_copied result.1) }
    ensures utf8 { separator < 128 → IsUtf8 text.now → IfSome result.1 (λ rest. IsUtf8 rest.now) }
{
    match find(text, separator) {
        Some(i) => (&text[..i], Some(&text[i + 1..])),
        None => (text, None),
    }
}

fn find(text: &[u8], byte: u8) -> Option<usize>
    ensures { result ≡ position (λ b. b == byte) text.now }
{
    text.iter().position(|b| *b == byte)
}
