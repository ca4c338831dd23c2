//! Chooses which tokens of a text a snippet shows.
ghost use Rattle.std.specs.Prelude.{◌≡◌, ◌+◌, ◌<◌, ◌≤◌, ◌^◌, ◌∷◌, drop, length, nat_eq, take};
ghost use Rattle.std.specs.List.{list_any};
ghost use Rattle.ii_snippet.specs.Windows.{AreShown, IsFirstGreatest, is_unwanted, shown_from, span, weight, window, window_weight, words_in};

/// A token of a text, as a snippet sees it.
#[derive(Clone, Copy, Debug, PartialEq, Eq)]
pub struct SnippetToken {
    /// The offset of its first byte in the text.
    pub offset_from: usize,
    /// The offset after its last byte in the text.
    pub offset_to: usize,
    /// Which of the wanted words it is, if any.
    pub wanted: Option<usize>,
}

// What a wanted word that doesn't come again adds to a weight.
const NEW_WORD: u64 = 4_294_967_297;

// Returns whether a token of some is a wanted word.
fn has_word(tokens: &[SnippetToken], word: usize) -> bool
    ensures { result ≡ list_any (nat_eq word) (words_in tokens.now) }
{
    for token in tokens {
        if token.wanted == Some(word) {
            return true;
        }
    }
    false
}

// Returns what a token before others adds to their weight.
fn share(token: SnippetToken, others: &[SnippetToken]) -> u64
    ensures { result + weight (words_in others.now) ≡ weight (words_in (token ∷ others.now)) }
{
    let Some(word) = token.wanted else {
        return 0;
    };
    if has_word(others, word) {
        return 1;
    }
    NEW_WORD
}

// Returns the weight of the wanted words of some tokens.
fn weight_of(tokens: &[SnippetToken]) -> u64
    requires few { length tokens.now < 2 ^ 32 }
    ensures { result ≡ weight (words_in tokens.now) }
{
    let mut weight = 0;
    for place in 0..tokens.len() {
        weight += share(tokens[place], &tokens[place + 1..]);
    }
    weight
}

// Returns the tokens from a place on, at most `limit` of them.
fn window(tokens: &[SnippetToken], limit: u32, start: usize) -> &[SnippetToken]
    requires { start ≤ length tokens.now }
    ensures value { result.now ≡ window limit tokens.now start }
    ensures few { length result.now ≤ limit }
{
    let rest = &tokens[start..];
    if rest.len() > limit as usize {
        return &rest[..limit as usize];
    }
    rest
}

// Returns the weight of the window that begins at a place, if a wanted token is there, otherwise 0.
fn window_weight(tokens: &[SnippetToken], limit: u32, start: usize) -> u64
    requires { start < length tokens.now }
    ensures { result ≡ window_weight limit tokens.now start }
{
    if tokens[start].wanted.is_none() {
        return 0;
    }
    weight_of(window(tokens, limit, start))
}

// Returns the start of the first window that no other one outweighs.
fn heaviest_start(tokens: &[SnippetToken], limit: u32) -> usize
    requires { 0 < length tokens.now }
    ensures { IsFirstGreatest (window_weight limit tokens.now) (length tokens.now) result }
{
    let mut best = 0;
    let mut greatest = window_weight(tokens, limit, 0);
    for start in 1..tokens.len() {
        let weight = window_weight(tokens, limit, start);
        if weight > greatest {
            best = start;
            greatest = weight;
        }
    }
    best
}

// Returns how many tokens there are up to the last wanted one.
fn span(tokens: &[SnippetToken]) -> usize
    ensures value { result ≡ span tokens.now }
    ensures few { result ≤ length tokens.now }
{
    let mut unwanted = 0;
    for place in 0..tokens.len() {
        unwanted = if tokens[place].wanted.is_none() {
            unwanted + 1
        } else {
            0
        };
    }
    tokens.len() - unwanted
}

/// Returns the tokens of a text that a snippet shows: `limit` of them, or all if there are fewer.
///
/// Of the runs of `limit` tokens that begin with a wanted word, the one with the most different wanted words is
/// the best, of several the one with the most wanted words, then the first one. What is shown has its wanted words
/// in the middle. Without wanted words the first tokens are shown.
pub fn shown_tokens(tokens: &[SnippetToken], limit: u32) -> &[SnippetToken]
    ensures none { length tokens.now ≡ 0 → length result.now ≡ 0 }
    ensures shown { 0 < length tokens.now → AreShown limit tokens.now result.now }
{
    if tokens.is_empty() {
        return tokens;
    }
    let start = heaviest_start(tokens, limit);
    let span = span(window(tokens, limit, start));
    let before = (limit as usize - span) / 2;
    let last = tokens.len().saturating_sub(limit as usize);
    window(tokens, limit, start.saturating_sub(before).min(last))
}
