ghost use Rattle.std.specs.Prelude.{◌≡◌};
ghost use Rattle.ii_query_grammar.specs.Lexemes.{slop_of};

use crate::cut::strip;

/// Returns the slop that a word denotes: decimal digits alone, of a number up to `u32::MAX`.
pub(crate) fn slop_of(word: &str) -> Option<u32>
    ensures { result ≡ slop_of word.now }
{
    if strip(word, b'+').is_some() {
        return None;
    }
    word.parse().ok()
}
