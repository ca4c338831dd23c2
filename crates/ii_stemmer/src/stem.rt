//! The stem of a word.
ghost use Rattle.std.specs.Prelude.{◌≡◌, IfOk, string_bytes};
ghost use Rattle.ii_stemmer.specs.Porter.{are_letters, porter};

use crate::steps::{step_1, step_5, steps_2_to_4};
use std::alloc::{AllocError, Global};

/// Returns the stem of an English word by the algorithm of M. F. Porter, "An algorithm for suffix stripping", 1980,
/// exactly as the paper has it. So "abli" becomes "able", and "logi" stays; later versions, as Lucene's, differ in
/// these two.
///
/// A word of fewer than three letters, or with another character than `a` to `z`, is returned unchanged. Returns
/// `AllocError` if an allocation fails.
pub fn stem_word(alloc: Global, word: &str) -> Result<String, AllocError>
    ensures { IfOk result (λ stem. string_bytes stem ≡ porter word.now) }
{
    let letters = word.as_bytes();
    if letters.len() < 3 {
        return String::from_str(alloc, word);
    }
    if !are_letters(letters) {
        return String::from_str(alloc, word);
    }
    let mut stem = Vec::from_slice(alloc, letters)?;
    step_1(&mut stem)?;
    steps_2_to_4(&mut stem)?;
    step_5(&mut stem)?;
    Ok(String::from_utf8(stem).unwrap())
}

// Returns whether all letters are `a` to `z`.
fn are_letters(word: &[u8]) -> bool
    ensures { result ≡ are_letters word.now }
{
    for letter in word {
        if !letter.is_ascii_lowercase() {
            return false;
        }
    }
    true
}
