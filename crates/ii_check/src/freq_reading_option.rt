ghost use Rattle.std.specs.Prelude.{◌≡◌};
ghost use Rattle.ii_check.specs.CheckedPostings.{is_read};

/// Whether the term frequencies of a term are read with its documents.
#[derive(Clone, Copy, Debug, PartialEq, Eq)]
pub enum FreqReadingOption {
    /// The term has no term frequencies.
    NoFreq,
    /// The field records term frequencies, but they weren't requested.
    SkipFreq,
    /// The term frequencies are read.
    ReadFreq,
}

impl FreqReadingOption {
    /// Returns whether term frequencies are read.
    pub fn is_read(self) -> bool
        ensures { result ≡ is_read self }
    {
        match self {
            FreqReadingOption::ReadFreq => true,
            FreqReadingOption::NoFreq | FreqReadingOption::SkipFreq => false,
        }
    }
}
