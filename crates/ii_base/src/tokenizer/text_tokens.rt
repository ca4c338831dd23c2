use super::ascii_tokenizer::AsciiTokens;
use super::run_tokens::RunTokens;
use super::token_buffer::BufferedTokens;
use super::token_list::TokenList;
use super::token_stream::TokenStream;
use super::token_view::TokenView;

/// Iterates over the tokens of a text, as a list or a buffer of them, or finds them one by one.
#[derive(Drop)]
pub enum TextTokens<'t> {
    /// The tokens of a list.
    Owned(TokenList),
    /// The tokens of a buffer.
    Buffered(BufferedTokens),
    /// The runs of an ASCII text, found one by one.
    Runs(RunTokens),
    /// The tokens of `AsciiTokenizer`, found one by one and borrowed from the text.
    Ascii(AsciiTokens<'t>),
}

impl<'t> TokenStream for TextTokens<'t> {
    ghost use Rattle.ii_base.specs.TextTokens.{current_of, to_come_of};

    ghost to_come = { to_come_of };

    ghost current = { current_of };

    #[inline(always)]
    fn advance(&mut self) -> bool {
        match self {
            TextTokens::Owned(tokens) => tokens.advance(),
            TextTokens::Buffered(tokens) => tokens.advance(),
            TextTokens::Runs(tokens) => tokens.advance(),
            TextTokens::Ascii(tokens) => tokens.advance(),
        }
    }

    #[inline(always)]
    fn token(&self) -> TokenView<'_> {
        match self {
            TextTokens::Owned(tokens) => tokens.token(),
            TextTokens::Buffered(tokens) => tokens.token(),
            TextTokens::Runs(tokens) => tokens.token(),
            TextTokens::Ascii(tokens) => tokens.token(),
        }
    }
}
