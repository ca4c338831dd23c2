ghost use Rattle.std.specs.Prelude.{◌≡◌, ◌<◌, ◌≤◌, ℕ, drop, take, false, true, length, take_while, IfSome, MatchOption};
ghost use Rattle.ii_query_grammar.specs.Lexemes.{Strips, after_spaces, before_stop, begins, ends_bound, ends_prefix, ends_word, from_stop, has_star, is_empty, is_prefix_end, is_space, is_special, place_of, stops_at};

/// The byte to search for.
#[derive(Clone, Copy)]
pub(crate) enum Stop {
    /// A byte that ends a word.
    WordEnd,
    /// The quote that ends a phrase.
    PhraseEnd,
    /// A byte that ends a word that is a bound.
    BoundEnd,
    /// A byte that the backslash before it makes literal.
    Escaped,
    /// A byte that must be escaped in a word.
    WordEscape,
    /// A byte that must be escaped in a phrase.
    PhraseEscape,
}

impl Stop {
    // Returns whether a byte is a stop. `escaped` says whether a backslash comes before it.
    fn is_at(self, byte: u8, escaped: bool) -> bool
        ensures { result ≡ stops_at self byte escaped }
    {
        match self {
            Stop::WordEnd => ends_word(byte) && !escaped,
            Stop::PhraseEnd => byte == b'"' && !escaped,
            Stop::BoundEnd => ends_bound(byte) && !escaped,
            Stop::Escaped => is_special(byte) && escaped,
            Stop::WordEscape => is_special(byte) && (ends_word(byte) || escaped),
            Stop::PhraseEscape => is_special(byte) && (byte == b'"' || escaped),
        }
    }

    /// Returns the offset of the first stop, or the length of the text. `escaped` says whether a backslash
    /// comes before the text.
    pub(crate) fn place_in(self, text: &[u8], escaped: bool) -> usize
        ensures { result ≡ place_of self escaped text.now }
    {
        let mut after_backslash = escaped;
        for (place, byte) in text.iter().enumerate() {
            if self.is_at(*byte, after_backslash) {
                return place;
            }
            after_backslash = *byte == b'\\';
        }
        text.len()
    }
}

/// Returns the text after its leading spaces.
pub(crate) fn after_spaces(text: &str) -> &str
    ensures rest { result.now ≡ after_spaces text.now }
    ensures shorter { length result.now ≤ length text.now }
{
    text.split_at(spaces_len(text.as_bytes())).1
}

/// Returns the word or the phrase at the start.
pub(crate) fn cut_at(text: &str, stop: Stop) -> (&str, &str)
    ensures word { result.0.now ≡ before_stop stop text.now }
    ensures rest { result.1.now ≡ from_stop stop text.now }
    ensures shorter { length result.1.now ≤ length text.now }
{
    text.split_at(stop.place_in(text.as_bytes(), false))
}

/// Returns the text after this ASCII byte, if the text starts with it.
pub(crate) fn strip(text: &str, byte: u8) -> Option<&str>
    requires { byte < 128 }
    ensures cases { MatchOption result (begins byte text.now ≡ false) (Strips byte text.now) }
    ensures shorter { IfSome result (λ rest. length rest.now ≤ length text.now) }
{
    let bytes = text.as_bytes();
    if bytes.is_empty() {
        return None;
    }
    if bytes[0] != byte {
        return None;
    }
    Some(text.split_at(1).1)
}

/// Returns the text after a `*` that ends a prefix, if the text starts with one: a space, a closing parenthesis
/// or nothing follows.
pub(crate) fn strip_star(text: &str) -> Option<&str>
    ensures cases { MatchOption result (has_star text.now ≡ false) (λ rest. (has_star text.now ≡ true) × (rest.now ≡ drop 1 text.now)) }
    ensures shorter { IfSome result (λ rest. length rest.now ≤ length text.now) }
{
    let Some(rest) = strip(text, b'*') else {
        return None;
    };
    if !ends_prefix(rest.as_bytes()) {
        return None;
    }
    Some(rest)
}

// Returns whether a prefix may end before a text.
fn ends_prefix(text: &[u8]) -> bool
    ensures { result ≡ ends_prefix text.now }
{
    if text.is_empty() {
        return true;
    }
    is_prefix_end(text[0])
}

fn is_prefix_end(byte: u8) -> bool
    ensures { result ≡ is_prefix_end byte }
{
    is_space(byte) || byte == b')'
}

/// Returns whether a text is empty.
pub(crate) fn is_nothing(text: &str) -> bool
    ensures { result ≡ is_empty text.now }
{
    text.is_empty()
}

// Returns the number of leading space bytes.
fn spaces_len(text: &[u8]) -> usize
    ensures { result ≡ length (take_while is_space text.now) }
{
    text.iter().take_while(|b| is_space(**b)).count()
}

fn is_space(byte: u8) -> bool
    ensures { result ≡ is_space byte }
{
    matches!(byte, b' ' | b'\t' | b'\n' | b'\r')
}

fn ends_word(byte: u8) -> bool
    ensures { result ≡ ends_word byte }
{
    is_space(byte)
        || matches!(
            byte,
            b'"' | b'(' | b')' | b':' | b'*' | b'?' | b'~' | b'^' | b'[' | b'{'
        )
}

fn ends_bound(byte: u8) -> bool
    ensures { result ≡ ends_bound byte }
{
    ends_word(byte) || matches!(byte, b']' | b'}')
}

fn is_special(byte: u8) -> bool
    ensures { result ≡ is_special byte }
{
    ends_word(byte) || matches!(byte, b'-' | b'+' | b'/' | b'<' | b'>' | b']' | b'}')
}
