//! Where a search of a dictionary begins, and which ordinals it looks at.
ghost use Rattle.std.specs.Prelude.{◌≡◌, ◌*◌, ◌/◌, ◌-◌, ◌<◌, ◌≤◌, ◌^◌, max, min};

use ii_termdict::TermOrdinal;

// How far from a hint the next key is that a search looks at; each further one is twice as far.
const FIRST_STEP: u64 = 64;

/// Where a key is among the terms of a dictionary, or would be. A search for it in another dictionary begins at the same
/// share of that one's terms. It changes what is read, and no result.
#[derive(Clone, Copy)]
pub struct SearchHint {
    ord: TermOrdinal,
    // 0: no dictionary was searched
    num_terms: u64,
}

impl SearchHint {
    /// Returns the hint of a key that wasn't searched yet.
    pub fn none() -> SearchHint
        ensures { (result.ord ≡ 0) × (result.num_terms ≡ 0) }
    {
        SearchHint {
            ord: 0,
            num_terms: 0,
        }
    }

    // Returns the hint of a key that is at an ordinal, or would be.
    pub(crate) fn at(ord: TermOrdinal, num_terms: u64) -> SearchHint
        ensures { (result.ord ≡ ord) × (result.num_terms ≡ num_terms) }
    {
        SearchHint { ord, num_terms }
    }

    // Returns the steps of a search among `num_terms` terms: from the same share of them on, or from their middle.
    pub(crate) fn steps(&self, num_terms: u64) -> SearchSteps {
        if self.num_terms == 0 {
            return SearchSteps {
                near: num_terms / 2,
                step: u64::MAX,
            };
        }
        SearchSteps {
            near: scaled(self.ord, num_terms, self.num_terms),
            step: FIRST_STEP,
        }
    }
}

// Which ordinals a search looks at: first one that is near, then farther and farther ones, until the key is between two;
// then the middle of what is between them.
#[derive(Drop)]
pub(crate) struct SearchSteps {
    near: TermOrdinal,
    step: u64,
}

impl SearchSteps {
    // Returns an ordinal from `low` on, and below `high`.
    pub(crate) fn next(&mut self, low: TermOrdinal, high: TermOrdinal) -> TermOrdinal
        requires { low < high }
        ensures low { low ≤ result }
        ensures high { result < high }
    {
        let middle = low + (high - low) / 2;
        let step = self.step;
        self.step = step.saturating_mul(2);
        if self.near < low {
            return middle.min(low.saturating_add(step));
        }
        if self.near >= high {
            return middle.max((high - 1).saturating_sub(step));
        }
        self.near
    }
}

// Returns `count * to / from`, at most `u64::MAX`.
fn scaled(count: u64, to: u64, from: u64) -> u64
    requires { 0 < from }
    ensures { result ≡ min (2 ^ 64 - 1) (count * to / from) }
{
    let product = u128::from(count).wrapping_mul(u128::from(to));
    (product / u128::from(from)).min(u128::from(u64::MAX)) as u64
}
