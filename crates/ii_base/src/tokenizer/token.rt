ghost use Rattle.std.specs.Prelude.{◌≡◌};
ghost use Rattle.ii_base.specs.Words.{seen_word, word_of};

use super::token_view::TokenView;

/// A token of a text.
#[derive(Drop)]
pub struct Token {
    /// The offset of its first byte in the text.
    pub offset_from: usize,
    /// The offset after its last byte in the text.
    pub offset_to: usize,
    /// Its position in the text: the index of the token, if each takes one position.
    pub position: usize,
    /// The token's text, which may differ from the bytes at its offsets.
    pub text: String,
    /// How many positions it covers.
    pub position_length: usize,
}

impl Token {
    /// Borrows the token.
    pub fn view(&self) -> TokenView<'_>
        ensures { seen_word result ≡ word_of self.now }
    {
        TokenView {
            offset_from: self.offset_from,
            offset_to: self.offset_to,
            position: self.position,
            text: self.text.as_str(),
            position_length: self.position_length,
        }
    }
}
