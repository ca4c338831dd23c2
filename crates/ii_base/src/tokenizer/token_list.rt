ghost use Rattle.std.specs.Prelude.{◌≡◌, [], None, IfOk, OnOk};
ghost use Rattle.ii_io.specs.Faults.{OnlyMemory};
ghost use Rattle.ii_base.specs.Words.{seen_word, word_of, words_of};

use super::token::Token;
use super::token_stream::TokenStream;
use super::token_view::TokenView;
use ii_io::Fault;
use std::alloc::Global;
use std::marker::Model;

/// Iterates over a list of tokens.
#[derive(Drop)]
pub struct TokenList {
    tokens: Vec<Token>,
    passed: usize,
}

impl Model for TokenList {
    ghost use Rattle.std.specs.Prelude.{◌≤◌, ◌-◌, ◌==◌, drop, length, slice_get, None, if◌then◌else◌};
    ghost use Rattle.ii_base.specs.Words.{TokenListState, words_of};

    ghost Value = { TokenListState };

    ghost view = { λ s. record {
      current = if s.passed == 0 then None else slice_get (words_of s.tokens.items) (s.passed - 1);
      to_come = drop s.passed (words_of s.tokens.items);
    } };

    ghost invariant = { λ s. s.passed ≤ length s.tokens.items };
}

impl TokenList {
    /// Creates an iterator before the first of these tokens.
    pub fn new(tokens: Vec<Token>) -> TokenList
        ensures { result ≡ record { current = None; to_come = words_of tokens.items } }
    {
        TokenList { tokens, passed: 0 }
    }

    /// Collects the remaining tokens of a stream. Returns `OutOfMemory` if allocation fails.
    pub fn from_stream<S: TokenStream>(alloc: Global, stream: &mut S) -> Result<TokenList, Fault>
        ensures ok { IfOk result (λ tokens. tokens ≡ record { current = None; to_come = S.to_come stream.old }) }
        ensures ended { OnOk result (S.to_come stream.new ≡ []) }
        ensures only { OnlyMemory result }
    {
        let mut tokens = Vec::new(alloc);
        while stream.advance() {
            tokens.push(owned(alloc, stream.token())?)?;
        }
        Ok(TokenList::new(tokens))
    }
}

impl TokenStream for TokenList {
    ghost to_come = { λ s. s.to_come };

    ghost current = { λ s. s.current };

    fn advance(&mut self) -> bool {
        if self.passed >= self.tokens.len() {
            return false;
        }
        self.passed += 1;
        true
    }

    fn token(&self) -> TokenView<'_> {
        self.tokens[self.passed - 1].view()
    }
}

// Returns a token that owns its text.
fn owned(alloc: Global, token: TokenView<'_>) -> Result<Token, Fault>
    ensures ok { IfOk result (λ t. word_of t ≡ seen_word token.entry) }
    ensures only { OnlyMemory result }
{
    Ok(Token {
        offset_from: token.offset_from,
        offset_to: token.offset_to,
        position: token.position,
        text: String::from_str(alloc, token.text)?,
        position_length: token.position_length,
    })
}
