ghost use Rattle.std.specs.Prelude.{◌≡◌, true, drop, length, nat_lt, slice_get, IsSome, Some, ⊤};
ghost use Rattle.std.specs.Borrow.{sem, follows_so};
ghost use mathlib.Core.Option.{none};
ghost use Rattle.std.specs.Option.{option_map};
ghost use Rattle.ii_base.specs.Words.{Word, seen_word};

use super::token_view::TokenView;

/// Iterates over the tokens of a text. Its model is the list of the remaining tokens.
pub trait TokenStream: Drop {
    ghost use Rattle.std.specs.Prelude.{List, Option};

    ghost to_come: { Self → List Word };

    // The current token.
    ghost current: { Self → Option Word };

    /// Advances to the next token, and returns whether there is one.
    fn advance(&mut self) -> bool
        ensures found { result ≡ nat_lt 0 (length (to_come self.old)) }
        ensures current { result ≡ true → current self.new ≡ slice_get (to_come self.old) 0 }
        ensures rest { to_come self.new ≡ drop 1 (to_come self.old) };

    /// Returns the current token. The last `advance` must have returned true.
    fn token(&self) -> TokenView<'_>
        requires { IsSome (current self.now) }
        ensures { current self.now ≡ Some (seen_word result) };

    /// Advances to the next token, and returns it, if there is one.
    fn next(&mut self) -> Option<TokenView<'_>>
        ensures* rest { sem 𝓛 (follows_so Self.row Self.row self.entry.ghost_name none (λ _ _. ⊤) (λ after. to_come after ≡ drop 1 (to_come self.old))) }
        ensures found { option_map seen_word result ≡ slice_get (to_come self.old) 0 }
    {
        if self.advance() {
            return Some(self.token());
        }
        None
    }
}
