//! Which segments of an index are merged.
ghost use Rattle.std.specs.Prelude.{◌≡◌, ℕ, List};
ghost use Rattle.nequllpa_merging.specs.MergePolicy.{MergeSettles, SettledAreFew, first_fitting, first_outgrown};

/// Returns the place of the first segment to merge with all behind it, by the numbers of living documents of an
/// index's segments: the first one that has at most as many as those behind it together. Returns the number of
/// segments if there is none.
///
/// So each merge makes a segment at least twice as large as its first one: a document is merged again only when
/// about as many were added behind it.
pub fn first_to_merge(num_living: &[u32]) -> usize
    ensures { result ≡ first_outgrown num_living.now }
{
    let mut first = num_living.len();
    let mut behind = 0u64;
    let mut place = num_living.len();
    while place > 0 {
        place -= 1;
        let count = u64::from(num_living[place]);
        if place + 1 < num_living.len() && count <= behind {
            first = place;
        }
        behind = behind.saturating_add(count);
    }
    first
}

/// Returns the place of the first segment that a merge with all behind it may take, by the numbers of bytes of an
/// index's segments: from there on they are at most `limit` together. Returns the number of segments if the last one
/// alone has more.
pub fn first_within(lens: &[u64], limit: u64) -> usize
    ensures { result ≡ first_fitting limit lens.now }
{
    let mut first = lens.len();
    let mut total = 0u128;
    let mut place = lens.len();
    while place > 0 {
        place -= 1;
        total = total.saturating_add(u128::from(lens[place]));
        if total <= u128::from(limit) {
            first = place;
        }
    }
    first
}

/// Law of merges: once the segments from the first outgrown one on are one, none is outgrown, and there are as many
/// documents as before.
pub fn merges_settle()
    ensures { (counts : List ℕ) → MergeSettles counts }
{}

/// Law of settled segments: where none is outgrown, there are at most 32.
pub fn settled_are_few()
    ensures { SettledAreFew }
{}
