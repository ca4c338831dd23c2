/// The state of a document's texts in a field. It starts with no tokens, at position 0.
#[derive(Debug, Default, Drop)]
pub struct IndexingPosition {
    /// The number of tokens.
    pub num_tokens: u32,
    /// The position at which the next text starts.
    pub end_position: u32,
}
