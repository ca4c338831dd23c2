//! How rows are written: found documents, terms, fields or damages.
ghost use Rattle.std.specs.Prelude.{◌≡◌};
ghost use Rattle.nequllpa_opening.specs.RowFormats.{is_json};

/// How a row is written.
#[derive(Clone, Copy, Debug, PartialEq, Eq)]
pub enum RowFormat {
    /// As a line of words.
    Words,
    /// As a line with a JSON object.
    JsonLine,
    /// As a JSON object, followed by a comma.
    JsonItem,
}

impl RowFormat {
    /// Returns whether it is a JSON object.
    pub fn is_json(self) -> bool
        ensures { result ≡ is_json self }
    {
        match self {
            RowFormat::Words => false,
            RowFormat::JsonLine | RowFormat::JsonItem => true,
        }
    }

    /// Returns what follows it: the end of a line, or a comma.
    pub fn end(self) -> &'static str {
        match self {
            RowFormat::Words | RowFormat::JsonLine => "\n",
            RowFormat::JsonItem => ",",
        }
    }
}
