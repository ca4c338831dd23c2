//! What is left out of the lines that are read.
use ii_documents::FloatNumbers;
use nequllpa_indexing::Documents;
use std::alloc::{AllocError, Global};

/// How many lines were left out, and how many numbers with a fraction.
#[derive(Clone, Copy)]
pub struct LeftOut {
    bad_lines: u64,
    // nothing if such numbers aren't left out
    skipped_floats: Option<u64>,
}

impl LeftOut {
    /// Returns how many of the lines of documents were left out, with this many numbers of other documents.
    pub fn new(bad_lines: u64, documents: &Documents, skipped_floats: u64) -> LeftOut {
        let all = skipped_floats.saturating_add(documents.skipped_floats());
        LeftOut {
            bad_lines,
            skipped_floats: match documents.floats() {
                FloatNumbers::Skip => Some(all),
                FloatNumbers::Refuse => None,
            },
        }
    }

    /// Returns the end of a sentence that says so: empty if nothing was left out.
    pub fn words(self, alloc: Global) -> Result<String, AllocError> {
        let mut words = String::new(alloc);
        if self.bad_lines > 0 {
            write!(words, ", {} lines left out", self.bad_lines)?;
        }
        let floats = self.skipped_floats.unwrap_or(0);
        if floats > 0 {
            write!(words, ", {floats} numbers left out")?;
        }
        Ok(words)
    }

    /// Returns the members of a JSON object that say so.
    pub fn json(self, alloc: Global) -> Result<String, AllocError> {
        let mut members = String::new(alloc);
        write!(members, "\"left_out\":{}", self.bad_lines)?;
        if let Some(floats) = self.skipped_floats {
            write!(members, ",\"skipped_floats\":{floats}")?;
        }
        Ok(members)
    }
}
