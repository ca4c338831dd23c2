//! The analyzers of the texts of literals: those of words, those of prefixes, and both for a phrase whose last word is a
//! prefix.
ghost use Rattle.std.specs.Prelude.{◌≡◌, IfOk, filter, nat_lt};
ghost use Rattle.ii_io.specs.Faults.{OnlyMemory};
ghost use Rattle.ii_base.specs.Words.{Word};
ghost use Rattle.ii_query_parser.specs.QuerySteps.{AddsOrKeeps};
ghost use Rattle.ii_query_parser.specs.QueryTexts.{terms_in_field};
ghost use Rattle.ii_query_parser.specs.StarredTexts.{starred_words};

use crate::literal::push_in_field;
use crate::phrase_words::PhraseWords;
use crate::query_parser_error::QueryParserError;
use ii_base::{
    BufferedTokens, Fault, Field, Schema, TextAnalyzer, TextTokens, TokenBuffer, TokenList,
    TokenStream,
};
use ii_tokenizers::FieldAnalyzers;
use std::alloc::Global;

// The analyzers by which the texts of a literal are looked up.
pub(crate) trait LiteralAnalyzers {
    ghost use Rattle.std.specs.Prelude.{ℕ, List};
    ghost use Rattle.ii_base.specs.Words.{Word};

    ghost words: { Self → ℕ → List ℕ → List Word };

    // Adds the terms of a text in a field, by the field's analyzer, at a path if it has JSON values.
    fn push_in_one(
        &self,
        alloc: Global,
        schema: &Schema,
        field: Field,
        path: &str,
        phrase: &str,
        terms: &mut Vec<PhraseWords>,
    ) -> Result<(), QueryParserError>
        ensures { AddsOrKeeps (terms_in_field (record { analyze = words self.now field; entries = schema.now }) field path.now phrase.now) schema.now terms.old.items terms.new.items result };
}

// The analyzers of words.
#[derive(Drop)]
pub(crate) struct WordAnalyzers<'a, F: FieldAnalyzers>(pub(crate) &'a F);

impl<'a, F: FieldAnalyzers> LiteralAnalyzers for WordAnalyzers<'a, F> {
    ghost words = { λ s. F.words s.0.now };

    fn push_in_one(
        &self,
        alloc: Global,
        schema: &Schema,
        field: Field,
        path: &str,
        phrase: &str,
        terms: &mut Vec<PhraseWords>,
    ) -> Result<(), QueryParserError> {
        let analyzer = self.0.analyzer(field);
        push_in_field(alloc, schema, analyzer, field, path, phrase, terms)
    }
}

// The analyzers of prefixes.
#[derive(Drop)]
pub(crate) struct PrefixAnalyzers<'a, F: FieldAnalyzers>(pub(crate) &'a F);

impl<'a, F: FieldAnalyzers> LiteralAnalyzers for PrefixAnalyzers<'a, F> {
    ghost words = { λ s. F.prefix_words s.0.now };

    fn push_in_one(
        &self,
        alloc: Global,
        schema: &Schema,
        field: Field,
        path: &str,
        phrase: &str,
        terms: &mut Vec<PhraseWords>,
    ) -> Result<(), QueryParserError> {
        let analyzer = self.0.prefix_analyzer(field);
        push_in_field(alloc, schema, analyzer, field, path, phrase, terms)
    }
}

// The analyzers of texts whose last word is a prefix.
#[derive(Drop)]
pub(crate) struct StarredAnalyzers<'a, F: FieldAnalyzers>(pub(crate) &'a F);

impl<'a, F: FieldAnalyzers> LiteralAnalyzers for StarredAnalyzers<'a, F> {
    ghost words = { λ s field text. starred_words (F.words s.0.now field text) (F.prefix_words s.0.now field text) };

    fn push_in_one(
        &self,
        alloc: Global,
        schema: &Schema,
        field: Field,
        path: &str,
        phrase: &str,
        terms: &mut Vec<PhraseWords>,
    ) -> Result<(), QueryParserError> {
        let analyzer = StarredAnalyzer {
            words: self.0.analyzer(field),
            prefixes: self.0.prefix_analyzer(field),
        };
        push_in_field(alloc, schema, &analyzer, field, path, phrase, terms)
    }
}

// An analyzer of words, and one of the last word, which is a prefix.
#[derive(Drop)]
pub(crate) struct StarredAnalyzer<'a, A: TextAnalyzer> {
    words: &'a A,
    prefixes: &'a A,
}

impl<'a, A: TextAnalyzer> TextAnalyzer for StarredAnalyzer<'a, A> {
    ghost words = { λ s text. starred_words (A.words s.words.now text) (A.words s.prefixes.now text) };

    fn token_list(&self, alloc: Global, text: &str) -> Result<TokenList, Fault> {
        let mut tokens = self.token_stream(alloc, text)?;
        TokenList::from_stream(alloc, &mut tokens)
    }

    fn token_stream<'t>(&self, alloc: Global, text: &'t str) -> Result<TextTokens<'t>, Fault> {
        let tokens = starred_words(alloc, self.words, self.prefixes, text)?;
        Ok(TextTokens::Buffered(BufferedTokens::new(tokens)))
    }
}

// The last token of a text by the analyzer of prefixes, after those by that of words which come before it.
fn starred_words<A: TextAnalyzer>(
    alloc: Global,
    words: &A,
    prefixes: &A,
    text: &str,
) -> Result<TokenBuffer, Fault>
    ensures ok { IfOk result (λ tokens. tokens ≡ starred_words (A.words words.now text.now) (A.words prefixes.now text.now)) }
    ensures only { OnlyMemory result }
{
    let prefixes = all_words(alloc, prefixes, text)?;
    if prefixes.len() == 0 {
        return Ok(prefixes);
    }
    let last = prefixes.get(prefixes.len() - 1);
    let mut tokens = words_before(alloc, words, last.position, text)?;
    tokens.push(last)?;
    Ok(tokens)
}

// The tokens of a text.
fn all_words<A: TextAnalyzer>(alloc: Global, analyzer: &A, text: &str) -> Result<TokenBuffer, Fault>
    ensures ok { IfOk result (λ tokens. tokens ≡ A.words analyzer.now text.now) }
    ensures only { OnlyMemory result }
{
    let mut tokens = TokenBuffer::new(alloc);
    let mut stream = analyzer.token_stream(alloc, text)?;
    while stream.advance() {
        tokens.push(stream.token())?;
    }
    Ok(tokens)
}

// The tokens of a text before a position.
fn words_before<A: TextAnalyzer>(
    alloc: Global,
    analyzer: &A,
    position: usize,
    text: &str,
) -> Result<TokenBuffer, Fault>
    ensures ok { IfOk result (λ tokens. tokens ≡ filter (λ (w : Word). nat_lt w.position position) (A.words analyzer.now text.now)) }
    ensures only { OnlyMemory result }
{
    let mut tokens = TokenBuffer::new(alloc);
    let mut stream = analyzer.token_stream(alloc, text)?;
    while stream.advance() {
        let token = stream.token();
        if token.position < position {
            tokens.push(token)?;
        }
    }
    Ok(tokens)
}
