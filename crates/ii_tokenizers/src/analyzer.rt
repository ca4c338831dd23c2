ghost use Rattle.std.specs.Prelude.{◌≡◌, ◌++◌, ◌∷◌, [], IfOk, OnOk};
ghost use Rattle.ii_io.specs.Faults.{OnlyMemory};
ghost use Rattle.ii_base.specs.Words.{seen_word};
ghost use Rattle.ii_tokenizers.specs.Analyzers.{analyzed, analyzed_without, default_words, english_words, prefix_analyzer, remove_stop, stem};

use super::filters::{fold_case, push_stem};
use super::parts::{raw_words, space_words, split_words};
use super::stop_words::StopWordFilter;
use ii_base::{
    AsciiTokenizer, BufferedTokens, RunTokens, TextAnalyzer, TextTokens, TokenBuffer, TokenList,
    TokenStream, TokenView,
};
use ii_io::Fault;
use std::alloc::Global;

/// How the texts of a field are cut into tokens.
#[derive(Clone, Copy, Debug, PartialEq, Eq)]
pub enum Analyzer {
    /// Runs of ASCII letters, ASCII digits and non-ASCII characters, unchanged (`AsciiTokenizer`).
    Ascii,
    /// The complete text, unchanged: ids and tags.
    Raw,
    /// Runs of characters that are no white space, unchanged.
    Whitespace,
    /// Unicode words, cut at the marks inside them, in folded case. Tokens of 40 bytes and more are left out, and
    /// their positions are kept.
    Default,
    /// The words of `Default`, stemmed as English ones (`ii_stemmer`).
    English,
}

impl Analyzer {
    /// Returns the analyzer of the beginnings of words, and of the bounds of ranges of words: that of the words, but
    /// without stemming. So `English` gives `Default`.
    pub fn for_prefixes(self) -> Analyzer
        ensures { result ≡ prefix_analyzer self }
    {
        match self {
            Analyzer::English => Analyzer::Default,
            _ => self,
        }
    }
}

impl TextAnalyzer for Analyzer {
    ghost words = { analyzed };

    fn token_list(&self, alloc: Global, text: &str) -> Result<TokenList, Fault> {
        let mut tokens = self.token_stream(alloc, text)?;
        TokenList::from_stream(alloc, &mut tokens)
    }

    fn token_stream<'t>(&self, alloc: Global, text: &'t str) -> Result<TextTokens<'t>, Fault> {
        token_stream_without(alloc, &StopWordFilter::new(alloc), *self, text)
    }
}

// Returns the stream of the tokens of a text by an analyzer; English ones are no stop words.
pub(crate) fn token_stream_without<'t>(
    alloc: Global,
    stop_words: &StopWordFilter,
    analyzer: Analyzer,
    text: &'t str,
) -> Result<TextTokens<'t>, Fault>
    ensures ok { IfOk result (λ tokens. ⟦<TextTokens<'t> as TokenStream>⟧.to_come tokens ≡ analyzed_without stop_words.now analyzer text.now) }
    ensures only { OnlyMemory result }
{
    let tokens = match analyzer {
        Analyzer::Ascii => return AsciiTokenizer.token_stream(alloc, text),
        Analyzer::Raw => raw_words(alloc, text)?,
        Analyzer::Whitespace => space_words(alloc, text)?,
        Analyzer::Default => return default_tokens(alloc, text),
        Analyzer::English => english_words(alloc, stop_words, text)?,
    };
    Ok(TextTokens::Buffered(BufferedTokens::new(tokens)))
}

// The longest token, in bytes, is shorter than this.
const LIMIT: usize = 40;

// Returns the stream of the words of a text, in folded case, without long ones. Those of an ASCII text are found one by
// one.
fn default_tokens<'t>(alloc: Global, text: &'t str) -> Result<TextTokens<'t>, Fault>
    ensures ok { IfOk result (λ tokens. ⟦<TextTokens<'t> as TokenStream>⟧.to_come tokens ≡ default_words text.now) }
    ensures only { OnlyMemory result }
{
    if text.is_ascii() {
        let mut lower = String::from_str(alloc, text)?;
        lower.make_ascii_lowercase();
        return Ok(TextTokens::Runs(RunTokens::new(lower, LIMIT)));
    }
    Ok(TextTokens::Buffered(BufferedTokens::new(default_words(alloc, text)?)))
}

// Returns the words of a text, in folded case, without long ones.
fn default_words(alloc: Global, text: &str) -> Result<TokenBuffer, Fault>
    ensures ok { IfOk result (λ tokens. tokens ≡ default_words text.now) }
    ensures only { OnlyMemory result }
{
    let mut tokens = split_words(alloc, text)?;
    fold_case(alloc, &mut tokens)?;
    tokens.remove_long(LIMIT);
    Ok(tokens)
}

// Returns the words of a text, in folded case, without long ones and stop words, and stemmed.
fn english_words(
    alloc: Global,
    stop_words: &StopWordFilter,
    text: &str,
) -> Result<TokenBuffer, Fault>
    ensures ok { IfOk result (λ tokens. tokens ≡ english_words stop_words.now text.now) }
    ensures only { OnlyMemory result }
{
    let mut words = default_tokens(alloc, text)?;
    let mut stems = TokenBuffer::new(alloc);
    while words.advance() {
        push_unless_stop(alloc, stop_words, words.token(), &mut stems)?;
    }
    Ok(stems)
}

// Adds the stem of a token, unless it is a stop word.
fn push_unless_stop(
    alloc: Global,
    stop_words: &StopWordFilter,
    token: TokenView<'_>,
    stems: &mut TokenBuffer,
) -> Result<(), Fault>
    ensures ok { OnOk result (stems.new ≡ stems.old ++ stem (remove_stop stop_words.now (seen_word token.entry ∷ []))) }
    ensures only { OnlyMemory result }
{
    if stop_words.contains(token.text) {
        return Ok(());
    }
    push_stem(alloc, token, stems)
}
