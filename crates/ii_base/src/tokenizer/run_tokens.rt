ghost use Rattle.std.specs.Prelude.{◌≡◌, ◌+◌, ◌≤◌, ◌<◌, [], None, drop, length, string_bytes, IfSome, IsAscii};
ghost use Rattle.std.specs.Char.{is_ascii_alphanumeric};
ghost use Rattle.std.specs.List.{list_any, take_while};
ghost use Rattle.ii_base.specs.Parts.{ascii_parts, is_word_character, part_words};
ghost use Rattle.ii_base.specs.RunTokens.{Finds, words_to_come};
ghost use Rattle.ii_base.specs.Words.{remove_long, seen_word};

use super::token_stream::TokenStream;
use super::token_view::TokenView;
use std::marker::Model;

/// Where a run of a text is, and how many runs there are up to it.
#[derive(Clone, Copy)]
pub(crate) struct Run {
    start: usize,
    end: usize,
    passed: usize,
}

/// Iterates over the maximal runs of letters, digits and underscores of an ASCII text that have a letter or a digit,
/// and finds them one by one. Long runs are left out, but take a position.
#[derive(Drop)]
pub struct RunTokens {
    text: String,
    run: Run,
    // Where the next run may start.
    next: usize,
    limit: usize,
}

impl Model for RunTokens {
    ghost use Rattle.std.specs.Prelude.{◌≤◌, ◌+◌, length, string_bytes, IsAscii};
    ghost use Rattle.ii_base.specs.RunTokens.{current_run, words_to_come};
    ghost use Rattle.ii_base.specs.Words.{TokenListState};

    ghost Value = { TokenListState };

    ghost view = { λ s. record {
      current = current_run (string_bytes s.text) s.run;
      to_come = words_to_come s.limit (string_bytes s.text) s.run.passed s.next;
    } };

    ghost invariant = { λ s. IsAscii (string_bytes s.text) × (s.run.start ≤ s.run.end) × (s.run.end ≤ length (string_bytes s.text)) × (s.run.passed ≤ s.next) × (s.next ≤ length (string_bytes s.text) + 1) };
}

impl RunTokens {
    /// Creates an iterator before the first token of an ASCII text. It leaves out runs of at least `limit` bytes.
    pub fn new(text: String, limit: usize) -> RunTokens
        requires { IsAscii (string_bytes text) }
        ensures { result ≡ record { current = None; to_come = remove_long limit (part_words 0 (ascii_parts 0 (string_bytes text))) } }
    {
        let run = Run {
            start: 0,
            end: 0,
            passed: 0,
        };
        RunTokens {
            text,
            run,
            next: 0,
            limit,
        }
    }
}

impl TokenStream for RunTokens {
    ghost to_come = { λ s. s.to_come };

    ghost current = { λ s. s.current };

    fn advance(&mut self) -> bool {
        match next_run(self.text.as_str(), self.next, self.run.passed, self.limit) {
            Some(run) => {
                self.run = run;
                self.next = run.end + 1;
                true
            }
            None => false,
        }
    }

    fn token(&self) -> TokenView<'_> {
        TokenView {
            offset_from: self.run.start,
            offset_to: self.run.end,
            position: self.run.passed.saturating_sub(1),
            text: &self.text.as_str()[self.run.start..self.run.end],
            position_length: 1,
        }
    }
}

// Finds the first run from an offset on that isn't long.
#[inline(always)]
fn next_run(text: &str, next: usize, passed: usize, limit: usize) -> Option<Run>
    requires ascii { IsAscii text.now }
    requires few { passed ≤ next }
    requires within { next ≤ length text.now + 1 }
    ensures some { IfSome result (λ run. Finds limit text.now passed next run) }
    ensures none { result ≡ None → words_to_come limit text.now passed next ≡ [] }
{
    let mut start = next;
    let mut passed = passed;
    while start < text.len() {
        let end = start + run_len(&text.as_bytes()[start..]);
        if has_letter_or_digit(&text.as_bytes()[start..end]) {
            passed += 1;
            if end - start < limit {
                return Some(Run { start, end, passed });
            }
        }
        start = end + 1;
    }
    None
}

/// Returns the number of letters, digits and underscores at the start of these bytes.
pub fn run_len(bytes: &[u8]) -> usize
    ensures { result ≡ length (take_while is_word_character bytes.now) }
{
    bytes.iter().take_while(|b| is_word_byte(**b)).count()
}

// Returns whether a byte is a letter, a digit or the underscore.
fn is_word_byte(byte: u8) -> bool
    ensures { result ≡ is_word_character byte }
{
    matches!(byte, b'0'..=b'9' | b'A'..=b'Z' | b'a'..=b'z' | b'_')
}

/// Returns whether one of these bytes is a letter or a digit.
pub fn has_letter_or_digit(bytes: &[u8]) -> bool
    ensures { result ≡ list_any is_ascii_alphanumeric bytes.now }
{
    bytes.iter().any(|b| b.is_ascii_alphanumeric())
}
