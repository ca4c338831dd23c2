use ii_base::DocId;

/// A call of a cursor.
#[derive(Clone, Copy, Debug, PartialEq, Eq)]
pub enum CursorCall {
    /// Returns the current document.
    Doc,
    /// Advances to the next document.
    Advance,
    /// Seeks the first document that is at least this target.
    Seek(DocId),
    /// Returns the term frequency of the current document.
    TermFreq,
    /// Returns the positions of the current document, each plus this offset.
    Positions(u32),
}

/// The answer to a call of a cursor.
#[derive(Debug, PartialEq, Eq, Drop)]
pub enum CursorAnswer {
    /// The current document after the call, or `TERMINATED`.
    Doc(DocId),
    /// A term frequency.
    Freq(u32),
    /// Positions.
    Positions(Vec<u32>),
}

/// The answers of a sequence of calls.
#[derive(Debug, PartialEq, Eq, Drop)]
pub struct Walk {
    /// An answer for each call, from the first one on.
    pub answers: Vec<CursorAnswer>,
    /// Whether every call has an answer. False only if an allocation failed.
    pub complete: bool,
}
