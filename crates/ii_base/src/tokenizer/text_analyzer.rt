ghost use Rattle.std.specs.Prelude.{◌≡◌, None, IfOk};
ghost use Rattle.ii_io.specs.Faults.{OnlyMemory};
ghost use Rattle.ii_base.specs.Words.{Word};

use super::text_tokens::TextTokens;
use super::token_list::TokenList;
use super::token_stream::TokenStream;
use ii_io::Fault;
use std::alloc::Global;

/// Splits texts into tokens. Its model is a function from the bytes of a text to its tokens.
///
/// An analyzer needs only `token_list`.
pub trait TextAnalyzer {
    ghost use Rattle.std.specs.Prelude.{ℕ, List};

    ghost words: { Self → List ℕ → List Word };

    /// Returns the list of the tokens of a text. Returns `OutOfMemory` if allocation fails.
    fn token_list(&self, alloc: Global, text: &str) -> Result<TokenList, Fault>
        ensures ok { IfOk result (λ tokens. tokens ≡ record { current = None; to_come = words self.now text.now }) }
        ensures only { OnlyMemory result };

    /// Returns the stream of the tokens of a text, before its first token. Returns `OutOfMemory` if
    /// allocation fails.
    ///
    /// Makes the list of the tokens, unless the analyzer overrides it.
    fn token_stream<'t>(&self, alloc: Global, text: &'t str) -> Result<TextTokens<'t>, Fault>
        ensures ok { IfOk result (λ tokens. ⟦<TextTokens<'t> as TokenStream>⟧.to_come tokens ≡ words self.now text.now) }
        ensures only { OnlyMemory result }
    {
        Ok(TextTokens::Owned(self.token_list(alloc, text)?))
    }
}
