ghost use Rattle.std.specs.Prelude.{◌≡◌, ◌↔◌, None, IfOk, OnErr};
ghost use Rattle.ii_io.specs.Faults.{OnlyMemory};
ghost use Rattle.ii_reader.specs.Damage.{first_damaged_term, reader_after};
ghost use Rattle.ii_reader.specs.InvertedIndexReader.{AllOpen};

use super::inverted_index_reader::InvertedIndexReader;
use ii_base::{Fault, Part};
use ii_termdict::TermOrdinal;

/// A term whose postings are corrupt.
#[derive(Clone, Copy, Debug, PartialEq, Eq)]
pub struct DamagedTerm {
    /// The ordinal of the term in the order of the keys, from 0.
    pub ord: TermOrdinal,
    /// The first corrupt part of its postings.
    pub part: Part,
}

impl InvertedIndexReader {
    /// Opens each term of the field once, with everything that the field records, and returns the first
    /// corrupt term. If there is none, lookups continue as after `trust`.
    ///
    /// Returns `OutOfMemory` if the files' buffer can't be shared again.
    pub fn check(&mut self) -> Result<Option<DamagedTerm>, Fault>
        ensures found { IfOk result (λ damage. damage ≡ first_damaged_term self.old) }
        ensures opens { IfOk result (λ damage. (damage ≡ None) ↔ AllOpen self.old) }
        ensures after { IfOk result (λ damage. self.new ≡ reader_after damage self.old) }
        ensures same { OnErr result (self.new ≡ self.old) }
        ensures only { OnlyMemory result }
    {
        let damage = self.first_damaged_term()?;
        if damage.is_some() {
            return Ok(damage);
        }
        self.trust();
        Ok(None)
    }

    // Returns the first corrupt term.
    pub(crate) fn first_damaged_term(&self) -> Result<Option<DamagedTerm>, Fault>
        ensures found { IfOk result (λ damage. damage ≡ first_damaged_term self.now) }
        ensures opens { IfOk result (λ damage. (damage ≡ None) ↔ AllOpen self.now) }
        ensures only { OnlyMemory result }
    {
        let option = self.record_option();
        let mut terms = self.terms().stream();
        for ord in 0..self.terms().num_terms() as u64 {
            terms.advance();
            match self.read_postings_from_terminfo(&terms.value(), option) {
                Ok(_) => {}
                Err(Fault::Damaged(part)) => return Ok(Some(DamagedTerm { ord, part })),
                Err(fault) => return Err(fault),
            }
        }
        Ok(None)
    }
}
