//! The tables of rules, in the order of the paper: where two suffixes may fit, the longer one is first.
ghost use Rattle.std.specs.Prelude.{◌≡◌};
ghost use Rattle.ii_stemmer.specs.Rules.{rules_of, step_1a_rules, step_1b_rules, step_1c_rules, step_2_rules, step_3_rules, step_4_rules, step_5a_rules};

use crate::rules::Condition::{AfterSOrT, Always, FinalE, HasVowel, MeasureAbove};
use crate::rules::Rule;

// A rule on one line, as the paper has it.
macro_rules! rule {
    ($suffix:literal => $replacement:literal, $condition:expr) => {
        Rule {
            suffix: $suffix,
            replacement: $replacement,
            condition: $condition,
        }
    };
}

static STEP_1A: [Rule; 4] = [
    rule!(b"sses" => b"ss", Always),
    rule!(b"ies" => b"i", Always),
    rule!(b"ss" => b"ss", Always),
    rule!(b"s" => b"", Always),
];

static STEP_1B: [Rule; 3] = [
    rule!(b"eed" => b"ee", MeasureAbove(0)),
    rule!(b"ed" => b"", HasVowel),
    rule!(b"ing" => b"", HasVowel),
];

static STEP_1C: [Rule; 1] = [rule!(b"y" => b"i", HasVowel)];

static STEP_2: [Rule; 20] = [
    rule!(b"ational" => b"ate", MeasureAbove(0)),
    rule!(b"tional" => b"tion", MeasureAbove(0)),
    rule!(b"enci" => b"ence", MeasureAbove(0)),
    rule!(b"anci" => b"ance", MeasureAbove(0)),
    rule!(b"izer" => b"ize", MeasureAbove(0)),
    rule!(b"abli" => b"able", MeasureAbove(0)),
    rule!(b"alli" => b"al", MeasureAbove(0)),
    rule!(b"entli" => b"ent", MeasureAbove(0)),
    rule!(b"eli" => b"e", MeasureAbove(0)),
    rule!(b"ousli" => b"ous", MeasureAbove(0)),
    rule!(b"ization" => b"ize", MeasureAbove(0)),
    rule!(b"ation" => b"ate", MeasureAbove(0)),
    rule!(b"ator" => b"ate", MeasureAbove(0)),
    rule!(b"alism" => b"al", MeasureAbove(0)),
    rule!(b"iveness" => b"ive", MeasureAbove(0)),
    rule!(b"fulness" => b"ful", MeasureAbove(0)),
    rule!(b"ousness" => b"ous", MeasureAbove(0)),
    rule!(b"aliti" => b"al", MeasureAbove(0)),
    rule!(b"iviti" => b"ive", MeasureAbove(0)),
    rule!(b"biliti" => b"ble", MeasureAbove(0)),
];

static STEP_3: [Rule; 7] = [
    rule!(b"icate" => b"ic", MeasureAbove(0)),
    rule!(b"ative" => b"", MeasureAbove(0)),
    rule!(b"alize" => b"al", MeasureAbove(0)),
    rule!(b"iciti" => b"ic", MeasureAbove(0)),
    rule!(b"ical" => b"ic", MeasureAbove(0)),
    rule!(b"ful" => b"", MeasureAbove(0)),
    rule!(b"ness" => b"", MeasureAbove(0)),
];

static STEP_4: [Rule; 19] = [
    rule!(b"al" => b"", MeasureAbove(1)),
    rule!(b"ance" => b"", MeasureAbove(1)),
    rule!(b"ence" => b"", MeasureAbove(1)),
    rule!(b"er" => b"", MeasureAbove(1)),
    rule!(b"ic" => b"", MeasureAbove(1)),
    rule!(b"able" => b"", MeasureAbove(1)),
    rule!(b"ible" => b"", MeasureAbove(1)),
    rule!(b"ant" => b"", MeasureAbove(1)),
    rule!(b"ement" => b"", MeasureAbove(1)),
    rule!(b"ment" => b"", MeasureAbove(1)),
    rule!(b"ent" => b"", MeasureAbove(1)),
    rule!(b"ion" => b"", AfterSOrT),
    rule!(b"ou" => b"", MeasureAbove(1)),
    rule!(b"ism" => b"", MeasureAbove(1)),
    rule!(b"ate" => b"", MeasureAbove(1)),
    rule!(b"iti" => b"", MeasureAbove(1)),
    rule!(b"ous" => b"", MeasureAbove(1)),
    rule!(b"ive" => b"", MeasureAbove(1)),
    rule!(b"ize" => b"", MeasureAbove(1)),
];

static STEP_5A: [Rule; 1] = [rule!(b"e" => b"", FinalE)];

/// Returns the rules of step 1a: plurals.
#[tactic(auto, unfolding(crate::specs::Rules::step_1a_rules))]
pub(crate) fn step_1a_rules() -> &'static [Rule]
    ensures { rules_of result.now ≡ step_1a_rules }
{
    &STEP_1A
}

/// Returns the rules of step 1b: "ed" and "ing".
#[tactic(auto, unfolding(crate::specs::Rules::step_1b_rules))]
pub(crate) fn step_1b_rules() -> &'static [Rule]
    ensures { rules_of result.now ≡ step_1b_rules }
{
    &STEP_1B
}

/// Returns the rules of step 1c: a final y.
#[tactic(auto, unfolding(crate::specs::Rules::step_1c_rules))]
pub(crate) fn step_1c_rules() -> &'static [Rule]
    ensures { rules_of result.now ≡ step_1c_rules }
{
    &STEP_1C
}

/// Returns the rules of step 2: double suffixes.
#[tactic(auto, unfolding(crate::specs::Rules::step_2_rules))]
pub(crate) fn step_2_rules() -> &'static [Rule]
    ensures { rules_of result.now ≡ step_2_rules }
{
    &STEP_2
}

/// Returns the rules of step 3: "icate", "ful", "ness" and the like.
#[tactic(auto, unfolding(crate::specs::Rules::step_3_rules))]
pub(crate) fn step_3_rules() -> &'static [Rule]
    ensures { rules_of result.now ≡ step_3_rules }
{
    &STEP_3
}

/// Returns the rules of step 4: single suffixes.
#[tactic(auto, unfolding(crate::specs::Rules::step_4_rules))]
pub(crate) fn step_4_rules() -> &'static [Rule]
    ensures { rules_of result.now ≡ step_4_rules }
{
    &STEP_4
}

/// Returns the rules of step 5a: a final e.
#[tactic(auto, unfolding(crate::specs::Rules::step_5a_rules))]
pub(crate) fn step_5a_rules() -> &'static [Rule]
    ensures { rules_of result.now ≡ step_5a_rules }
{
    &STEP_5A
}
