ghost use Rattle.std.specs.Prelude.{◌≡◌, ◌-◌, ◌&&◌, None, Some, length, nat_le, nat_lt, if◌then◌else◌, IfOk};
ghost use Rattle.std.specs.Option.{option_map};
ghost use Rattle.ii_io.specs.Faults.{OnlyMemory};
ghost use Rattle.ii_query_parser.specs.QueryTexts.{are_repeated, is_alone, is_among, is_same_term, one_term, repeats, stand_after, terms_after, word_term, words_phrase};

use crate::query::PhraseTerm;
use ii_base::{Fault, Field, Term, TextAnalyzer, TokenStream};
use std::alloc::Global;
use std::marker::Model;

// A term, and those that follow it in a phrase; a term alone has none.
pub(crate) struct PhraseWords {
    pub(crate) first: Term,
    pub(crate) others: Vec<PhraseTerm>,
}

// So that each drop is a call.
impl Drop for PhraseWords {
    fn drop(self) {
        let PhraseWords {
            first: _,
            others: _,
        } = self;
    }
}

impl Model for PhraseWords {
    ghost use Rattle.ii_query_parser.specs.QueryTexts.{PhraseState};

    ghost Value = { PhraseState };

    ghost view = { λ p. record { first = p.first; others = p.others.items } };
}

impl PhraseWords {
    // A term alone.
    pub(crate) fn one(alloc: Global, term: Term) -> PhraseWords
        ensures { result ≡ one_term term }
    {
        PhraseWords {
            first: term,
            others: Vec::new(alloc),
        }
    }

    // Whether no other term follows.
    pub(crate) fn is_alone(&self) -> bool
        ensures { result ≡ is_alone self.now }
    {
        self.others.is_empty()
    }

    // Whether a term occurs twice. It compares each two terms.
    pub(crate) fn repeats(&self) -> bool
        ensures { result ≡ repeats self.now }
    {
        if is_among(&self.first, &self.others) {
            return true;
        }
        are_repeated(&self.others)
    }

    // The field of its first term.
    pub(crate) fn field(&self) -> Field
        ensures { result ≡ self.now.first.field }
    {
        self.first.field()
    }

    // The bytes of its first term.
    pub(crate) fn key(&self) -> &[u8]
        ensures { result.now ≡ self.now.first.value }
    {
        self.first.serialized_value_bytes()
    }

    // Its first term, and the others.
    pub(crate) fn into_terms(self) -> (Term, Vec<PhraseTerm>)
        ensures first { result.0 ≡ self.first }
        ensures others { result.1.items ≡ self.others }
    {
        let PhraseWords { first, others } = self;
        (first, others)
    }
}

// Whether a term is one of those of a phrase after its first.
fn is_among(term: &Term, others: &[PhraseTerm]) -> bool
    ensures { result ≡ is_among term.now others.now }
{
    for other in others {
        if is_same_term(term, &other.term) {
            return true;
        }
    }
    false
}

// Whether one of these is also one of those after it.
fn are_repeated(others: &[PhraseTerm]) -> bool
    ensures { result ≡ are_repeated others.now }
{
    let mut rest = others;
    while let Some((other, after)) = rest.split_first() {
        if is_among(&other.term, after) {
            return true;
        }
        rest = after;
    }
    false
}

fn is_same_term(first: &Term, other: &Term) -> bool
    ensures { result ≡ is_same_term first.now other.now }
{
    first.field() == other.field()
        && first.serialized_value_bytes() == other.serialized_value_bytes()
}

/// Returns the phrase of a text's tokens, each after a prefix. Returns `None` if there are no tokens, or if
/// one occurs before the first or 2^32 positions or more after it.
pub(crate) fn words_phrase<A: TextAnalyzer>(
    alloc: Global,
    analyzer: &A,
    prefix: &Term,
    phrase: &str,
) -> Result<Option<PhraseWords>, Fault>
    ensures ok { IfOk result (λ words. words ≡ words_phrase prefix.now (A.words analyzer.now phrase.now)) }
    ensures only { OnlyMemory result }
{
    let mut tokens = analyzer.token_stream(alloc, phrase)?;
    let words = stream_phrase(alloc, prefix, &mut tokens);
    drop(tokens);
    words
}

/// Returns whether a text has tokens.
pub(crate) fn has_words<A: TextAnalyzer>(
    alloc: Global,
    analyzer: &A,
    phrase: &str,
) -> Result<bool, Fault>
    ensures ok { IfOk result (λ has. has ≡ nat_lt 0 (length (A.words analyzer.now phrase.now))) }
    ensures only { OnlyMemory result }
{
    let mut tokens = analyzer.token_stream(alloc, phrase)?;
    let has = tokens.advance();
    drop(tokens);
    Ok(has)
}

// The phrase of the remaining tokens.
fn stream_phrase<S: TokenStream>(
    alloc: Global,
    prefix: &Term,
    tokens: &mut S,
) -> Result<Option<PhraseWords>, Fault>
    ensures ok { IfOk result (λ words. words ≡ words_phrase prefix.now (S.to_come tokens.old)) }
    ensures only { OnlyMemory result }
{
    if !tokens.advance() {
        return Ok(None);
    }
    let position = tokens.token().position;
    let first = word_term(alloc, prefix, tokens.token().text)?;
    match other_words(alloc, prefix, position, tokens) {
        Ok(Some(others)) => Ok(Some(PhraseWords { first, others })),
        Ok(None) => {
            drop(first);
            Ok(None)
        }
        Err(fault) => {
            drop(first);
            Err(fault)
        }
    }
}

// The terms of the remaining tokens, each with its distance from a position.
fn other_words<S: TokenStream>(
    alloc: Global,
    prefix: &Term,
    first: usize,
    tokens: &mut S,
) -> Result<Option<Vec<PhraseTerm>>, Fault>
    ensures ok { IfOk result (λ others. option_map (λ v. v.items) others
        ≡ (if stand_after first (S.to_come tokens.old) then Some (terms_after prefix.now first (S.to_come tokens.old)) else None)) }
    ensures only { OnlyMemory result }
{
    let mut others = Vec::new(alloc);
    while tokens.advance() {
        let token = tokens.token();
        let Some(distance) = distance(first, token.position) else {
            return Ok(None);
        };
        let term = word_term(alloc, prefix, token.text)?;
        others.push(PhraseTerm { distance, term })?;
    }
    Ok(Some(others))
}

// The distance of a position from one before it, if it fits 32 bits.
fn distance(first: usize, position: usize) -> Option<u32>
    ensures { result ≡ (if nat_le first position && nat_lt (position - first) 4294967296 then Some (position - first) else None) }
{
    if position < first {
        return None;
    }
    u32::try_from(position - first).ok()
}

// The term of a word after a prefix.
fn word_term(alloc: Global, prefix: &Term, word: &str) -> Result<Term, Fault>
    ensures ok { IfOk result (λ term. term ≡ word_term prefix.now word.now) }
    ensures only { OnlyMemory result }
{
    let mut value = Vec::from_slice(alloc, prefix.serialized_value_bytes())?;
    value.extend_from_slice(word.as_bytes())?;
    Term::from_field_bytes(alloc, prefix.field(), value.as_slice())
}
