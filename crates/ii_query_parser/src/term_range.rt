ghost use Rattle.std.specs.Prelude.{◌≡◌};
ghost use Rattle.ii_query_parser.specs.Ranges.{in_range, is_from, is_less, is_up_to, key_bound};

use ii_base::Term;
use std::cmp::Ordering;

/// A bound of the keys of a range. Keys are compared by their bytes.
#[derive(Drop)]
pub enum KeyBound {
    /// There is no bound.
    Unbounded,
    /// The range ends with this key.
    Included(Vec<u8>),
    /// The range ends before this key, on the side of the other bound.
    Excluded(Vec<u8>),
}

/// A range of the terms of a field: those whose keys start with a prefix and are between two bounds.
#[derive(Drop)]
pub struct TermRange {
    /// The field, and the prefix; each key starts with an empty one.
    pub prefix: Term,
    /// The least key.
    pub lower: KeyBound,
    /// The greatest key.
    pub upper: KeyBound,
}

impl TermRange {
    /// Returns the range of all terms of the prefix's field whose keys start with it.
    pub fn with_prefix(prefix: Term) -> TermRange
        ensures prefix { result.prefix ≡ prefix }
        ensures lower { result.lower ≡ KeyBound.Unbounded }
        ensures upper { result.upper ≡ KeyBound.Unbounded }
    {
        TermRange {
            prefix,
            lower: KeyBound::Unbounded,
            upper: KeyBound::Unbounded,
        }
    }

    /// Returns whether the range has a key.
    pub fn contains(&self, key: &[u8]) -> bool
        ensures { result ≡ in_range self.now key.now }
    {
        if !key.starts_with(self.prefix.serialized_value_bytes()) {
            return false;
        }
        is_from(&self.lower, key) && is_up_to(&self.upper, key)
    }
}

// Returns whether a lower bound lets a key in.
fn is_from(bound: &KeyBound, key: &[u8]) -> bool
    ensures { result ≡ is_from (key_bound bound.now) key.now }
{
    match bound {
        KeyBound::Unbounded => true,
        KeyBound::Included(least) => !is_less(key, least),
        KeyBound::Excluded(below) => is_less(below, key),
    }
}

// Returns whether an upper bound lets a key in.
fn is_up_to(bound: &KeyBound, key: &[u8]) -> bool
    ensures { result ≡ is_up_to (key_bound bound.now) key.now }
{
    match bound {
        KeyBound::Unbounded => true,
        KeyBound::Included(greatest) => !is_less(greatest, key),
        KeyBound::Excluded(above) => is_less(key, above),
    }
}

// Returns whether a key is less than another by its bytes.
fn is_less(key: &[u8], other: &[u8]) -> bool
    ensures { result ≡ is_less key.now other.now }
{
    key.cmp(other) == Ordering::Less
}
