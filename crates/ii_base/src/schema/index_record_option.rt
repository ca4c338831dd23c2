ghost use Rattle.std.specs.Prelude.{◌≡◌};
ghost use Rattle.ii_base.specs.Options.{has_freq, has_positions, downgrade};

/// What the index keeps of a term in a document. Each option includes those before it.
#[derive(Clone, Copy, Debug, PartialEq, Eq)]
pub enum IndexRecordOption {
    /// The documents.
    Basic,
    /// The term frequencies, too.
    WithFreqs,
    /// The positions, too.
    WithFreqsAndPositions,
}

impl IndexRecordOption {
    /// Returns whether term frequencies are kept.
    pub fn has_freq(self) -> bool
        ensures { result ≡ has_freq self }
    {
        match self {
            IndexRecordOption::Basic => false,
            IndexRecordOption::WithFreqs | IndexRecordOption::WithFreqsAndPositions => true,
        }
    }

    /// Returns whether positions are kept.
    pub fn has_positions(self) -> bool
        ensures { result ≡ has_positions self }
    {
        match self {
            IndexRecordOption::Basic | IndexRecordOption::WithFreqs => false,
            IndexRecordOption::WithFreqsAndPositions => true,
        }
    }

    /// Returns the lesser of the two options.
    pub fn downgrade(self, other: IndexRecordOption) -> IndexRecordOption
        ensures { result ≡ downgrade self other }
    {
        match (self, other) {
            (IndexRecordOption::WithFreqsAndPositions, other) => other,
            (kept, IndexRecordOption::WithFreqsAndPositions) => kept,
            (IndexRecordOption::WithFreqs, IndexRecordOption::WithFreqs) => {
                IndexRecordOption::WithFreqs
            }
            _ => IndexRecordOption::Basic,
        }
    }
}
