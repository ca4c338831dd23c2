//! The steps of the stemmer.
ghost use Rattle.std.specs.Prelude.{◌≡◌, OnOk};
ghost use Rattle.ii_stemmer.specs.Porter.{mended, step_1, step_1b, step_5, step_5b, steps_2_to_4, without_last};

use crate::letters::{ends_cvc, ends_double, ends_with_one_of, measure};
use crate::rules::apply_first;
use crate::tables::{
    step_1a_rules, step_1b_rules, step_1c_rules, step_2_rules, step_3_rules, step_4_rules,
    step_5a_rules,
};
use std::alloc::AllocError;

// Removes the last letter.
fn remove_last(word: &mut Vec<u8>)
    ensures { word.new.items ≡ without_last word.old.items }
{
    word.truncate(word.len().saturating_sub(1));
}

// Mends a word that lost "ed" or "ing".
fn mend(word: &mut Vec<u8>) -> Result<(), AllocError>
    ensures { OnOk result (word.new.items ≡ mended word.old.items) }
{
    let letters = word.as_slice();
    let gets_e = letters.ends_with(b"at") | letters.ends_with(b"bl") | letters.ends_with(b"iz");
    if gets_e {
        return word.extend_from_slice(b"e");
    }
    let is_double = ends_double(letters) & !ends_with_one_of(b"lsz", letters);
    if is_double {
        remove_last(word);
        return Ok(());
    }
    let is_short = (measure(letters) == 1) & ends_cvc(letters);
    if is_short {
        return word.extend_from_slice(b"e");
    }
    Ok(())
}

// Step 1b: "eed", "ed" and "ing".
fn step_1b(word: &mut Vec<u8>) -> Result<(), AllocError>
    ensures { OnOk result (word.new.items ≡ step_1b word.old.items) }
{
    let before = word.len();
    let has_eed = word.as_slice().ends_with(b"eed");
    apply_first(step_1b_rules(), word)?;
    if has_eed | (word.len() == before) {
        return Ok(());
    }
    mend(word)
}

// Step 5b: a final double l.
fn step_5b(word: &mut Vec<u8>)
    ensures { word.new.items ≡ step_5b word.old.items }
{
    let letters = word.as_slice();
    let is_double = (measure(letters) > 1) & ends_double(letters) & ends_with_one_of(b"l", letters);
    if is_double {
        remove_last(word);
    }
}

/// Steps 1a to 1c: plurals, "ed", "ing" and y. Fails only if the word can't grow.
pub(crate) fn step_1(word: &mut Vec<u8>) -> Result<(), AllocError>
    ensures { OnOk result (word.new.items ≡ step_1 word.old.items) }
{
    apply_first(step_1a_rules(), word)?;
    step_1b(word)?;
    apply_first(step_1c_rules(), word)
}

/// Steps 2 to 4: longer suffixes. Fails only if the word can't grow.
pub(crate) fn steps_2_to_4(word: &mut Vec<u8>) -> Result<(), AllocError>
    ensures { OnOk result (word.new.items ≡ steps_2_to_4 word.old.items) }
{
    apply_first(step_2_rules(), word)?;
    apply_first(step_3_rules(), word)?;
    apply_first(step_4_rules(), word)
}

/// Steps 5a and 5b: a final e, and a final double l. Fails only if the word can't grow.
pub(crate) fn step_5(word: &mut Vec<u8>) -> Result<(), AllocError>
    ensures { OnOk result (word.new.items ≡ step_5 word.old.items) }
{
    apply_first(step_5a_rules(), word)?;
    step_5b(word);
    Ok(())
}
