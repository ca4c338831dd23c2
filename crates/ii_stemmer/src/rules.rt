//! Rules that replace the suffix of a word.
ghost use Rattle.std.specs.Prelude.{◌≡◌, ◌≤◌, eqb, length, IsTrue, OnOk};
ghost use Rattle.std.specs.List.{ends_with};
ghost use Rattle.ii_stemmer.specs.Rules.{apply_first, holds, replaced, rule_of, rules_of};

use crate::letters::{ends_cvc, ends_with_one_of, has_vowel, measure};
use std::alloc::AllocError;

/// What the stem before a suffix must be.
#[derive(Clone, Copy)]
pub(crate) enum Condition {
    /// Anything.
    Always,
    /// A stem with a vowel.
    HasVowel,
    /// A stem whose measure is greater.
    MeasureAbove(usize),
    /// A stem of measure above 1 that ends with s or t.
    AfterSOrT,
    /// A stem of measure above 1, or of measure 1 unless it ends with consonant, vowel, consonant (not w, x or y).
    FinalE,
}

/// A suffix, and what it becomes if the condition holds for the stem before it.
pub(crate) struct Rule {
    /// The suffix.
    pub(crate) suffix: &'static [u8],
    /// What it becomes.
    pub(crate) replacement: &'static [u8],
    /// What the stem must be.
    pub(crate) condition: Condition,
}

impl Condition {
    // Returns whether it holds for a stem.
    fn holds(self, stem: &[u8]) -> bool
        ensures { result ≡ holds self stem.now }
    {
        match self {
            Condition::Always => true,
            Condition::HasVowel => has_vowel(stem),
            Condition::MeasureAbove(least) => least < measure(stem),
            Condition::AfterSOrT => measure(stem) > 1 && ends_with_one_of(b"st", stem),
            Condition::FinalE => {
                let m = measure(stem);
                m > 1 || (m == 1 && !ends_cvc(stem))
            }
        }
    }
}

// Returns whether a word has the suffix of a rule, whatever its stem.
fn has_suffix(rule: &Rule, word: &[u8]) -> bool
    ensures fits { IsTrue result → length rule.now.suffix.now ≤ length word.now }
    ensures value { result ≡ ends_with eqb word.now rule.now.suffix.now }
{
    let n = rule.suffix.len();
    // Most suffixes differ in their last letter.
    if n > 0 && n <= word.len() && rule.suffix[n - 1] != word[word.len() - 1] {
        return false;
    }
    word.ends_with(rule.suffix)
}

// Replaces the suffix of a rule, which the word has, if the condition holds for the stem.
fn replace_suffix(rule: &Rule, word: &mut Vec<u8>) -> Result<(), AllocError>
    requires { length rule.now.suffix.now ≤ length word.old.items }
    ensures { OnOk result (word.new.items ≡ replaced (rule_of rule.now) word.old.items) }
{
    let n = word.len() - rule.suffix.len();
    if !rule.condition.holds(&word.as_slice()[..n]) {
        return Ok(());
    }
    word.truncate(n);
    word.extend_from_slice(rule.replacement)
}

/// Applies the first rule of a table whose suffix a word has. Fails only if the word can't grow.
pub(crate) fn apply_first(rules: &[Rule], word: &mut Vec<u8>) -> Result<(), AllocError>
    ensures { OnOk result (word.new.items ≡ apply_first (rules_of rules.now) word.old.items) }
{
    for rule in rules {
        if has_suffix(rule, word.as_slice()) {
            return replace_suffix(rule, word);
        }
    }
    Ok(())
}
