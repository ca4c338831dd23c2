//! The tokenizer that a schema gives a field.
ghost use Rattle.std.specs.Prelude.{◌≡◌};
ghost use Rattle.ii_tokenizers.specs.Tokenizers.{plain_tokenizer, prefix_tokenizer, tokenized};

use crate::analyzer::{Analyzer, token_stream_without};
use crate::stop_words::StopWordFilter;
use ii_base::{TextAnalyzer, TextTokens, TokenList};
use ii_io::Fault;
use std::alloc::Global;

/// How the texts of a field are cut into tokens: an analyzer, and the stop words that it leaves out.
#[derive(Drop)]
pub struct FieldTokenizer {
    /// The analyzer.
    pub analyzer: Analyzer,
    /// The stop words. `Analyzer::English` alone leaves them out.
    pub stop_words: StopWordFilter,
}

impl FieldTokenizer {
    /// Creates a tokenizer without stop words.
    pub fn new(alloc: Global, analyzer: Analyzer) -> FieldTokenizer
        ensures { result ≡ plain_tokenizer analyzer }
    {
        FieldTokenizer {
            analyzer,
            stop_words: StopWordFilter::new(alloc),
        }
    }

    /// Creates the tokenizer of the beginnings of words, and of the bounds of ranges of words: it cuts as this one,
    /// but doesn't stem (`Analyzer::for_prefixes`), and has no stop words.
    pub fn for_prefixes(&self, alloc: Global) -> FieldTokenizer
        ensures { result ≡ prefix_tokenizer self.now }
    {
        FieldTokenizer::new(alloc, self.analyzer.for_prefixes())
    }
}

impl TextAnalyzer for FieldTokenizer {
    ghost words = { tokenized };

    fn token_list(&self, alloc: Global, text: &str) -> Result<TokenList, Fault> {
        let mut tokens = self.token_stream(alloc, text)?;
        TokenList::from_stream(alloc, &mut tokens)
    }

    fn token_stream<'t>(&self, alloc: Global, text: &'t str) -> Result<TextTokens<'t>, Fault> {
        token_stream_without(alloc, &self.stop_words, self.analyzer, text)
    }
}
