//! Whether a search ranks what it finds.

/// Whether a search ranks what it finds, so that it needs the field norms.
#[derive(Clone, Copy, Debug, PartialEq, Eq)]
pub enum EnableScoring {
    /// It ranks: the norms of the fields of the query are read.
    Enabled,
    /// It doesn't rank: no norms are read.
    Disabled,
}
