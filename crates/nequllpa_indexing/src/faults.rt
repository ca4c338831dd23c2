//! Why lines aren't added.
ghost use Rattle.std.specs.Prelude.{◌≡◌, ◌↔◌, IsTrue};
ghost use Rattle.ii_documents.specs.declared.faults.LineFault.TheVariants.{OutOfMemory};
ghost use Rattle.nequllpa_indexing.specs.declared.faults.InputFault.TheVariants.{Line};
ghost use Rattle.nequllpa_indexing.specs.declared.faults.LineRefusal.TheVariants.{Input};

use ii_documents::LineFault;
use thiserror::Error;

/// Why a line of an input is refused.
#[derive(Debug, Drop, Error)]
pub enum InputFault {
    /// The line isn't UTF-8.
    #[error("not UTF-8")]
    NotUtf8,
    /// The line isn't a document.
    #[error("{0}")]
    Line(LineFault),
}

impl InputFault {
    /// Returns whether an allocation failed.
    pub fn is_memory(&self) -> bool
        ensures { IsTrue result ↔ (self.now ≡ Line OutOfMemory) }
    {
        matches!(self, InputFault::Line(LineFault::OutOfMemory))
    }
}

/// Why a line isn't taken with its key.
#[derive(Debug, Drop, Error)]
pub enum LineRefusal {
    /// The line isn't a document.
    #[error("{0}")]
    Input(InputFault),
    /// The document doesn't have exactly one value in the field of keys, or it is a text of several words or of none.
    #[error("expected one value, and of a text one word, by which documents are replaced")]
    NoKey,
}

impl LineRefusal {
    /// Returns whether an allocation failed.
    pub fn is_memory(&self) -> bool
        ensures { IsTrue result ↔ (self.now ≡ Input (Line OutOfMemory)) }
    {
        match self {
            LineRefusal::Input(fault) => fault.is_memory(),
            LineRefusal::NoKey => false,
        }
    }
}
