ghost use Rattle.std.specs.Prelude.{◌≡◌, ◌↔◌, IsTrue};
ghost use Rattle.ii_io.specs.declared.faults.Fault.TheVariants.{OutOfMemory};
ghost use Rattle.ii_io.specs.Faults.{number_of, as_fault, memory_fault};

use std::alloc::{AllocError, AllocFailed};
use std::fmt;
use thiserror::Error;

/// The kind of a JSON leaf that the index doesn't support.
#[derive(Clone, Copy, Debug, PartialEq, Eq)]
pub enum LeafKind {
    Float,
    PreTok,
    Bytes,
    Facet,
    Ip,
}

/// The limit that a number exceeded.
#[derive(Clone, Copy, Debug, PartialEq, Eq)]
pub enum LimitName {
    /// The start or end of a kept token, the end of a text plus its gap, or a recorded position.
    Position,
    /// The tokens of a text group (at most `u32::MAX`) or of a field (at most `u64::MAX`).
    Tokens,
    /// The frequency of a term in one document, at most `u32::MAX`.
    Count,
    /// The sum of the term frequencies in a full block, at most `u32::MAX`.
    BlockFrequencySum,
    /// The bytes of a term's postings or positions, at most `u32::MAX`.
    TermBytes,
    /// The end offset of a term, less than 2^56; or the bytes or failed calls that a writer counts, at most
    /// `u64::MAX`.
    Offset,
    /// The number of a JSON path, at most `u32::MAX`.
    Paths,
    /// The number of positions in a loaded posting list, at most `u32::MAX`.
    LoadedPositions,
}

/// The part of an index that is corrupt.
#[derive(Clone, Copy, Debug, PartialEq, Eq)]
pub enum Part {
    /// The skip list of a term's postings.
    Skip,
    /// The documents of a term's postings.
    Documents,
    /// The term frequencies of a term's postings.
    Frequencies,
    /// The positions of a term.
    Positions,
    /// The ranges of a term's postings and positions, which must lie in the files of its field.
    Range,
    /// The table of a composite file.
    Composite,
    /// The keys of a dictionary.
    Dictionary,
    /// The term infos of a dictionary.
    TermStore,
    /// The number of tokens of a field.
    TokenCount,
    /// The field norms of a field.
    FieldNorms,
    /// A key of a JSON field.
    JsonKey,
}

/// Why a call of the index failed.
#[derive(Clone, Copy, Debug, PartialEq, Eq, Error)]
pub enum Fault {
    /// A memory allocation failed during this call.
    #[error("out of memory")]
    OutOfMemory,
    /// The underlying writer failed during this call; its count of failed calls increased.
    #[error("the writer failed")]
    Write,
    /// An earlier call of this serializer failed.
    #[error("the serializer is closed")]
    SerializerClosed,
    /// An earlier call of this indexer failed.
    #[error("the indexer failed")]
    IndexerFailed,
    /// The document has a JSON leaf of an unsupported kind.
    #[error("unsupported JSON leaf: {0}")]
    UnsupportedLeaf(LeafKind),
    /// A term was recorded at a position below its last one in the same document.
    #[error("decreasing position")]
    DecreasingPosition,
    /// A number exceeded its limit.
    #[error("limit passed: {0}")]
    Limit(LimitName),
    /// The bytes are not a valid part of this kind.
    #[error("damaged: {0}")]
    Damaged(Part),
}

/// Why the postings or positions of a term are corrupt. Functions that return it don't allocate.
#[derive(Clone, Copy, Debug, PartialEq, Eq, Error)]
pub enum LayoutFault {
    /// The first corrupt part, in the order skip list, documents, frequencies, positions.
    #[error("damaged: {0}")]
    Damaged(Part),
}

impl Fault {
    /// Returns the number of the fault, from 1 to 8.
    pub fn number(self) -> u8
        ensures { result ≡ number_of self }
    {
        match self {
            Fault::OutOfMemory => 1,
            Fault::Write => 2,
            Fault::SerializerClosed => 3,
            Fault::IndexerFailed => 4,
            Fault::UnsupportedLeaf(_) => 5,
            Fault::DecreasingPosition => 6,
            Fault::Limit(_) => 7,
            Fault::Damaged(_) => 8,
        }
    }

    /// Returns whether an allocation failed.
    pub fn is_memory(self) -> bool
        ensures { IsTrue result ↔ (self ≡ OutOfMemory) }
    {
        matches!(self, Fault::OutOfMemory)
    }

    /// Maps `Write` to `OutOfMemory`, and any other fault to itself. Used for a writer to memory, which
    /// fails only when an allocation fails.
    pub fn in_memory(self) -> Fault
        ensures { result ≡ memory_fault self }
    {
        match self {
            Fault::Write => Fault::OutOfMemory,
            fault => fault,
        }
    }
}

impl LeafKind {
    // Returns the display name.
    fn name(self) -> &'static str {
        match self {
            LeafKind::Float => "float",
            LeafKind::PreTok => "pre-tokenized text",
            LeafKind::Bytes => "bytes",
            LeafKind::Facet => "facet",
            LeafKind::Ip => "IP address",
        }
    }
}

impl fmt::Display for LeafKind {
    fn fmt<W: fmt::Write>(&self, f: &mut fmt::Formatter<W>) -> fmt::Result {
        f.write_str(self.name())
    }
}

impl LimitName {
    // Returns the display name.
    fn name(self) -> &'static str {
        match self {
            LimitName::Position => "position",
            LimitName::Tokens => "number of tokens",
            LimitName::Count => "count in a document",
            LimitName::BlockFrequencySum => "sum of the counts of a block",
            LimitName::TermBytes => "bytes of a term",
            LimitName::Offset => "offset",
            LimitName::Paths => "number of paths",
            LimitName::LoadedPositions => "loaded positions",
        }
    }
}

impl fmt::Display for LimitName {
    fn fmt<W: fmt::Write>(&self, f: &mut fmt::Formatter<W>) -> fmt::Result {
        f.write_str(self.name())
    }
}

impl Part {
    // Returns the display name.
    fn name(self) -> &'static str {
        match self {
            Part::Skip => "skip list",
            Part::Documents => "documents",
            Part::Frequencies => "frequencies",
            Part::Positions => "positions",
            Part::Range => "range",
            Part::Composite => "composite file",
            Part::Dictionary => "dictionary",
            Part::TermStore => "term store",
            Part::TokenCount => "number of tokens",
            Part::FieldNorms => "field norms",
            Part::JsonKey => "JSON key",
        }
    }
}

impl fmt::Display for Part {
    fn fmt<W: fmt::Write>(&self, f: &mut fmt::Formatter<W>) -> fmt::Result {
        f.write_str(self.name())
    }
}

impl From<LayoutFault> for Fault {
    ghost from_gives = { λ e f. f ≡ as_fault e };

    fn from(e: LayoutFault) -> Fault {
        let LayoutFault::Damaged(part) = e;
        Fault::Damaged(part)
    }
}

impl From<AllocError> for Fault {
    ghost use Rattle.std.specs.Prelude.{◌≡◌};
    ghost use Rattle.ii_io.specs.declared.faults.Fault.TheVariants.{OutOfMemory};

    ghost from_gives = { λ _ f. f ≡ OutOfMemory };

    fn from(_e: AllocError) -> Fault {
        Fault::OutOfMemory
    }
}

impl<T: Drop> From<AllocFailed<T>> for Fault {
    ghost use Rattle.std.specs.Prelude.{◌≡◌};
    ghost use Rattle.ii_io.specs.declared.faults.Fault.TheVariants.{OutOfMemory};

    ghost from_gives = { λ _ f. f ≡ OutOfMemory };

    fn from(_e: AllocFailed<T>) -> Fault {
        Fault::OutOfMemory
    }
}
