//! The texts of scores and weights.
ghost use Rattle.std.specs.Prelude.{◌≡◌, ◌<◌, ◌^◌, ◌++◌, OnOk, string_bytes};
ghost use Rattle.ii_explanation.specs.ScoreTexts.{four_decimals, score_text, weight_text};

use ii_bm25::{SCORE_ONE, Score};
use std::alloc::AllocError;

// The weight 1.0.
const WEIGHT_ONE: u64 = 1 << 22;

/// Appends a score, or a share of one, with four decimals, to the nearest.
pub fn push_score(text: &mut String, score: Score) -> Result<(), AllocError>
    ensures { OnOk result (string_bytes text.new ≡ string_bytes text.old ++ score_text score) }
{
    let one = u128::from(SCORE_ONE);
    let rounded = (u128::from(score) * 10_000 + one / 2) / one;
    push_four_decimals(text, rounded as u64)
}

/// Appends a weight, given in units of 2^-22, with four decimals, to the nearest.
pub fn push_weight(text: &mut String, weight: u32) -> Result<(), AllocError>
    ensures { OnOk result (string_bytes text.new ≡ string_bytes text.old ++ weight_text weight) }
{
    let rounded = (u64::from(weight) * 10_000 + WEIGHT_ONE / 2) / WEIGHT_ONE;
    push_four_decimals(text, rounded)
}

// Appends a number of ten thousandths, with four decimals.
fn push_four_decimals(text: &mut String, number: u64) -> Result<(), AllocError>
    ensures { OnOk result (string_bytes text.new ≡ string_bytes text.old ++ four_decimals number) }
{
    let whole = number / 10_000;
    let (first, second) = (number / 1000 % 10, number / 100 % 10);
    let (third, fourth) = (number / 10 % 10, number % 10);
    write!(text, "{whole}.{first}{second}{third}{fourth}")
}
