ghost use Rattle.std.specs.Prelude.{◌≡◌, ◌≤◌, ◌<◌, ◌-◌, length, true, if◌then◌else◌, Some, None};
ghost use Rattle.std.specs.List.{take_while};
ghost use Rattle.ii_base.specs.AsciiWords.{ascii_words, begins_run, is_run, is_word_byte, run_word, words_from};
ghost use Rattle.ii_base.specs.Words.{seen_word};

use super::text_analyzer::TextAnalyzer;
use super::text_tokens::TextTokens;
use super::token_list::TokenList;
use super::token_stream::TokenStream;
use super::token_view::TokenView;
use ii_io::Fault;
use std::alloc::Global;

/// Splits a text into maximal runs of ASCII letters, ASCII digits and non-ASCII characters, unchanged.
/// Their positions are 0, 1, 2 and so on, one each.
#[derive(Clone, Copy, Debug, Default, PartialEq, Eq)]
pub struct AsciiTokenizer;

/// Iterates over the tokens that `AsciiTokenizer` splits a text into, borrowed from the text.
#[derive(Drop)]
pub struct AsciiTokens<'t> {
    text: &'t str,
    // The offsets of the current run.
    start: usize,
    end: usize,
    // The number of runs so far.
    passed: usize,
    ghost apart: { passed ≤ end },
}

impl TextAnalyzer for AsciiTokenizer {
    ghost words = { λ tokenizer text. ascii_words text };

    fn token_list(&self, alloc: Global, text: &str) -> Result<TokenList, Fault> {
        let mut tokens = AsciiTokens::new(text);
        TokenList::from_stream(alloc, &mut tokens)
    }

    fn token_stream<'t>(&self, _alloc: Global, text: &'t str) -> Result<TextTokens<'t>, Fault> {
        Ok(TextTokens::Ascii(AsciiTokens::new(text)))
    }
}

impl<'t> AsciiTokens<'t> {
    /// Creates an iterator before the first token of a text.
    pub fn new(text: &'t str) -> AsciiTokens<'t>
        ensures { ⟦<AsciiTokens<'t> as TokenStream>⟧.to_come result ≡ ascii_words text.now }
    {
        AsciiTokens {
            text,
            start: 0,
            end: 0,
            passed: 0,
        }
    }
}

impl<'t> TokenStream for AsciiTokens<'t> {
    ghost to_come = { λ s. words_from s.text.now s.passed s.end };

    ghost current = { λ s. if is_run s.text.now s.start s.end then Some (run_word s.text.now (s.passed - 1) s.start) else None };

    fn advance(&mut self) -> bool {
        let text = self.text;
        let mut at = self.end;
        while at < text.len() && !begins_run(text.as_bytes(), at) {
            at += 1;
        }
        if at >= text.len() {
            return false;
        }
        let end = at + run_len(&text.as_bytes()[at..]);
        *self = AsciiTokens {
            text,
            start: at,
            end,
            passed: self.passed + 1,
        };
        true
    }

    fn token(&self) -> TokenView<'_> {
        let position = self.passed.saturating_sub(1);
        run_token(self.text, self.start, self.end, position)
    }
}

// Returns the token of the run between two offsets.
#[inline(always)]
fn run_token(text: &str, start: usize, end: usize, position: usize) -> TokenView<'_>
    requires { is_run text.now start end ≡ true }
    ensures { seen_word result ≡ run_word text.now position start }
{
    TokenView {
        offset_from: start,
        offset_to: end,
        position,
        text: &text[start..end],
        position_length: 1,
    }
}

fn is_word_byte(byte: u8) -> bool
    ensures { result ≡ is_word_byte byte }
{
    matches!(byte, b'0'..=b'9' | b'A'..=b'Z' | b'a'..=b'z' | 128..)
}

// Returns whether a run starts at an offset.
fn begins_run(bytes: &[u8], start: usize) -> bool
    requires { start < length bytes.now }
    ensures { result ≡ begins_run bytes.now start }
{
    if !is_word_byte(bytes[start]) {
        return false;
    }
    if start == 0 {
        return true;
    }
    !is_word_byte(bytes[start - 1])
}

// Returns the length of the run at the start of these bytes.
fn run_len(bytes: &[u8]) -> usize
    ensures { result ≡ length (take_while is_word_byte bytes.now) }
{
    bytes.iter().take_while(|b| is_word_byte(**b)).count()
}
