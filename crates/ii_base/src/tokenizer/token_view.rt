/// A token of a text, with borrowed text.
#[derive(Clone, Copy)]
pub struct TokenView<'t> {
    /// The offset of its first byte in the text.
    pub offset_from: usize,
    /// The offset after its last byte in the text.
    pub offset_to: usize,
    /// Its position in the text: the index of the token, if each takes one position.
    pub position: usize,
    /// The token's text, which may differ from the bytes at its offsets.
    pub text: &'t str,
    /// How many positions it covers.
    pub position_length: usize,
}
