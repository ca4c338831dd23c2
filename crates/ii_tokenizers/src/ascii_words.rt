//! Cuts ASCII texts into the words that the rules of Unicode give, byte by byte.
ghost use Rattle.std.specs.Prelude.{◌≡◌, ◌+◌, ◌<◌, ◌++◌, ◌∷◌, ◌^◌, [], IsAscii, length, OnOk};
ghost use Rattle.ii_io.specs.Faults.{OnlyMemory};
ghost use Rattle.ii_base.specs.Parts.{ascii_parts, part_words, spoken_parts};

use crate::parts::add_part;
use ii_base::TokenBuffer;
use ii_base::tokenizer::run_tokens::{has_letter_or_digit, run_len};
use ii_io::Fault;

/// Adds the words of an ASCII text whose first byte is at an offset: the maximal runs of letters, digits and
/// underscores that have a letter or a digit.
///
/// Returns `OutOfMemory` if an allocation fails.
pub fn add_ascii_words(at: usize, text: &str, tokens: &mut TokenBuffer) -> Result<(), Fault>
    requires ascii { IsAscii text.now }
    requires room { at + length text.now < 2 ^ 64 }
    ensures ok { OnOk result (tokens.new ≡ tokens.old ++ part_words (length tokens.old) (ascii_parts at text.now)) }
    ensures only { OnlyMemory result }
{
    let mut start = 0;
    while start < text.len() {
        let end = start + run_len(&text.as_bytes()[start..]);
        add_run(at + start, &text[start..end], tokens)?;
        start = end + 1;
    }
    Ok(())
}

// Adds a run, if it has a letter or a digit.
fn add_run(start: usize, run: &str, tokens: &mut TokenBuffer) -> Result<(), Fault>
    requires ascii { IsAscii run.now }
    requires room { start + length run.now < 2 ^ 64 }
    ensures ok { OnOk result (tokens.new ≡ tokens.old ++ part_words (length tokens.old) (spoken_parts (record { offset = start; characters = run.now } ∷ []))) }
    ensures only { OnlyMemory result }
{
    if !has_letter_or_digit(run.as_bytes()) {
        return Ok(());
    }
    add_part(start, run, tokens)
}
