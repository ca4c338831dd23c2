ghost use Rattle.std.specs.Prelude.{◌≡◌};

use ii_io::GhostCounter;

/// Counts the blocks that were decoded to validate a list. It takes no bytes, and code can't read it.
#[derive(Drop)]
pub struct CheckedBlocks {
    /// Blocks of documents.
    pub docs: GhostCounter,
    /// Blocks of term frequencies.
    pub freqs: GhostCounter,
}

impl CheckedBlocks {
    /// Creates the counts of a list that wasn't validated.
    pub fn none() -> CheckedBlocks
        ensures { (result.docs.value ≡ 0) × (result.freqs.value ≡ 0) }
    {
        CheckedBlocks {
            docs: GhostCounter::new(),
            freqs: GhostCounter::new(),
        }
    }

    /// Returns the same counts.
    pub fn same(&self) -> CheckedBlocks
        ensures { (result.docs.value ≡ self.now.docs.value) × (result.freqs.value ≡ self.now.freqs.value) }
    {
        CheckedBlocks {
            docs: self.docs.same(),
            freqs: self.freqs.same(),
        }
    }
}
