use crate::query::PhraseTerm;
use crate::term_range::TermRange;
use ii_base::Term;

/// A phrase whose last term is any of a range, as those that start with a prefix.
#[derive(Drop)]
pub struct PhrasePrefix {
    /// The first term.
    pub first: Term,
    /// The terms between the first and the last one.
    pub others: Vec<PhraseTerm>,
    /// How many positions after the first term the last one occurs.
    pub distance: u32,
    /// The terms of which one is the last.
    pub last: TermRange,
}
