ghost use Rattle.std.specs.Prelude.{◌≡◌, ◌++◌, ◌∷◌, ◌<◌, [], true, Some, IsAscii, IsUtf8, length, map, slice_get, string_bytes, IfOk, OnErr, OnOk};
ghost use Rattle.std.specs.List.{All};
ghost use Rattle.ii_io.specs.Faults.{OnlyMemory};
ghost use Rattle.ii_base.specs.Words.{Word, lowercase_word, remove_long, seen_word};

use super::token_stream::TokenStream;
use super::token_view::TokenView;
use ii_io::Fault;
use std::alloc::Global;
use std::marker::Model;

/// Where a token of a buffer is. Its text lies between two offsets of the texts of the buffer.
#[derive(Clone, Copy)]
pub struct TokenPlace {
    offset_from: usize,
    offset_to: usize,
    position: usize,
    position_length: usize,
    start: usize,
    end: usize,
}

/// A list of tokens whose texts lie in one string, so that no token needs an allocation of its own.
///
/// Its model is the list of the tokens.
#[derive(Drop)]
pub struct TokenBuffer {
    texts: String,
    places: Vec<TokenPlace>,
}

impl Model for TokenBuffer {
    ghost use Rattle.std.specs.Prelude.{List, map, string_bytes};
    ghost use Rattle.std.specs.List.{All};
    ghost use Rattle.ii_base.specs.Words.{Word};
    ghost use Rattle.ii_base.specs.TokenPlaces.{IsPlaced, placed_word};

    ghost Value = { List Word };

    ghost view = { λ s. map (placed_word (string_bytes s.texts)) s.places.items };

    ghost invariant = { λ s. All (IsPlaced (string_bytes s.texts)) s.places.items };
}

impl TokenBuffer {
    /// Creates a buffer without tokens.
    pub fn new(alloc: Global) -> TokenBuffer
        ensures { result ≡ [] }
    {
        TokenBuffer {
            texts: String::new(alloc),
            places: Vec::new(alloc),
        }
    }

    /// Creates a buffer without tokens that has room for texts of `num_bytes` bytes, and for some tokens.
    ///
    /// Returns `OutOfMemory` if an allocation fails.
    pub fn with_capacity(alloc: Global, num_bytes: usize) -> Result<TokenBuffer, Fault>
        ensures ok { IfOk result (λ tokens. tokens ≡ []) }
        ensures only { OnlyMemory result }
    {
        Ok(TokenBuffer {
            texts: String::with_capacity(alloc, num_bytes)?,
            places: Vec::with_capacity(alloc, (num_bytes / 8).min(64))?,
        })
    }

    /// Adds a token behind the others.
    ///
    /// Returns `OutOfMemory` if an allocation fails; the tokens are then unchanged.
    pub fn push(&mut self, token: TokenView<'_>) -> Result<(), Fault>
        ensures ok { OnOk result (self.new ≡ self.old ++ seen_word token.entry ∷ []) }
        ensures err { OnErr result (self.new ≡ self.old) }
        ensures only { OnlyMemory result }
    {
        let start = self.texts.as_str().len();
        push_text(&mut self.texts, token.text)?;
        let end = self.texts.as_str().len();
        self.places.push(TokenPlace {
            offset_from: token.offset_from,
            offset_to: token.offset_to,
            position: token.position,
            position_length: token.position_length,
            start,
            end,
        })?;
        Ok(())
    }

    /// Returns the number of tokens.
    pub fn len(&self) -> usize
        ensures { result ≡ length self.now }
    {
        self.places.len()
    }

    /// Returns the token at an index.
    pub fn get(&self, index: usize) -> TokenView<'_>
        requires { index < length self.now }
        ensures { slice_get self.now index ≡ Some (seen_word result) }
    {
        let place = self.places[index];
        TokenView {
            offset_from: place.offset_from,
            offset_to: place.offset_to,
            position: place.position,
            text: &self.texts.as_str()[place.start..place.end],
            position_length: place.position_length,
        }
    }

    /// Returns true only if the texts of all tokens are ASCII.
    pub fn is_ascii(&self) -> bool
        ensures { result ≡ true → All (λ (w : Word). IsAscii w.text) self.now }
    {
        self.texts.as_str().is_ascii()
    }

    /// Replaces the ASCII capitals in the texts of all tokens by small letters.
    pub fn make_ascii_lowercase(&mut self)
        ensures { self.new ≡ map lowercase_word self.old }
    {
        self.texts.make_ascii_lowercase();
    }

    /// Removes the tokens whose texts have at least `limit` bytes.
    pub fn remove_long(&mut self, limit: usize)
        ensures { self.new ≡ remove_long limit self.old }
    {
        self.places
            .retain(|place| place.end.saturating_sub(place.start) < limit);
    }
}

// Adds a text behind others.
fn push_text(texts: &mut String, text: &str) -> Result<(), Fault>
    ensures ok { OnOk result (string_bytes texts.new ≡ string_bytes texts.old ++ text.now) }
    ensures utf8 { IsUtf8 text.now }
    ensures err { OnErr result (string_bytes texts.new ≡ string_bytes texts.old) }
    ensures only { OnlyMemory result }
{
    texts.push_str(text)?;
    Ok(())
}

/// Iterates over the tokens of a buffer.
#[derive(Drop)]
pub struct BufferedTokens {
    tokens: TokenBuffer,
    passed: usize,
}

impl Model for BufferedTokens {
    ghost use Rattle.std.specs.Prelude.{◌≤◌, ◌-◌, ◌==◌, drop, length, slice_get, None, if◌then◌else◌};
    ghost use Rattle.ii_base.specs.Words.{TokenListState};

    ghost Value = { TokenListState };

    ghost view = { λ s. record {
      current = if s.passed == 0 then None else slice_get s.tokens (s.passed - 1);
      to_come = drop s.passed s.tokens;
    } };

    ghost invariant = { λ s. s.passed ≤ length s.tokens };
}

impl BufferedTokens {
    /// Creates an iterator before the first token of a buffer.
    pub fn new(tokens: TokenBuffer) -> BufferedTokens
        ensures { result ≡ record { current = None; to_come = tokens } }
    {
        BufferedTokens { tokens, passed: 0 }
    }
}

impl TokenStream for BufferedTokens {
    ghost to_come = { λ s. s.to_come };

    ghost current = { λ s. s.current };

    fn advance(&mut self) -> bool {
        if self.passed >= self.tokens.len() {
            return false;
        }
        self.passed += 1;
        true
    }

    fn token(&self) -> TokenView<'_> {
        self.tokens.get(self.passed - 1)
    }
}
