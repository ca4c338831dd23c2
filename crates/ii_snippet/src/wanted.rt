//! Finds the words of a text that a query wants.
ghost use Rattle.std.specs.Prelude.{◌≡◌, ◌++◌, ◌∷◌, [], IfOk, OnOk, map};
ghost use Rattle.std.specs.List.{flat_map, position};
ghost use Rattle.ii_io.specs.Faults.{OnlyMemory};
ghost use Rattle.ii_base.specs.Words.{seen_word};
ghost use Rattle.ii_snippet.specs.Wanted.{is_word, one_word, query_wants, snippet_token, wanted_of};

use crate::windows::SnippetToken;
use ii_base::{Fault, Field, Term, TokenStream, TokenView};
use ii_query_parser::{PhraseTerm, Query, TermRange};
use std::alloc::Global;

/// A word that a query wants, or the words of a range.
#[derive(Clone, Copy)]
pub enum WantedWord<'q> {
    /// The word of a term.
    Term(&'q Term),
    /// Each word that the range has.
    Range(&'q TermRange),
}

impl<'q> WantedWord<'q> {
    /// Returns whether a word of a field, as it is kept in an index, is wanted.
    pub fn has(self, field: Field, key: &[u8]) -> bool
        ensures { result ≡ is_word field key.now (wanted_of self.entry) }
    {
        match self {
            WantedWord::Term(term) => {
                if term.field() != field {
                    return false;
                }
                term.serialized_value_bytes() == key
            }
            WantedWord::Range(range) => {
                if range.prefix.field() != field {
                    return false;
                }
                range.contains(key)
            }
        }
    }
}

/// Returns what a query wants, in its order: the words of its terms and phrases, and its ranges, also those in the place
/// of the last term of a phrase, except excluded ones. Fails only with `OutOfMemory`.
pub fn wanted_words<'q>(alloc: Global, query: &'q Query) -> Result<Vec<WantedWord<'q>>, Fault>
    ensures wanted { IfOk result (λ words. map wanted_of words.items ≡ query_wants query.now) }
    ensures only { OnlyMemory result }
{
    let mut words = Vec::new(alloc);
    push_words(query, &mut words)?;
    Ok(words)
}

// Appends what a query wants.
#[cycle(push_words)]
#[tactic(auto, using(crate::proofs::WantedLemmas::nothing_wanted, crate::proofs::WantedLemmas::wanted_by_all, crate::proofs::WantedLemmas::wanted_by_term, crate::proofs::WantedLemmas::wanted_by_phrase, crate::proofs::WantedLemmas::wanted_by_phrase_prefix, crate::proofs::WantedLemmas::wanted_by_range, crate::proofs::WantedLemmas::wanted_by_and, crate::proofs::WantedLemmas::wanted_by_or, crate::proofs::WantedLemmas::wanted_by_and_not))]
fn push_words<'q>(query: &'q Query, words: &mut Vec<WantedWord<'q>>) -> Result<(), Fault>
    ensures wanted { OnOk result (map wanted_of words.new.items ≡ map wanted_of words.old.items ++ query_wants query.now) }
    ensures only { OnlyMemory result }
{
    match query {
        Query::Empty => Ok(()),
        Query::All(_) => Ok(()),
        Query::Term(term) => Ok(words.push(WantedWord::Term(term))?),
        Query::Phrase(first, others, _) => {
            words.push(WantedWord::Term(first))?;
            push_others(others, words)
        }
        Query::PhrasePrefix(phrase) => {
            words.push(WantedWord::Term(&phrase.first))?;
            push_others(&phrase.others, words)?;
            Ok(words.push(WantedWord::Range(&phrase.last))?)
        }
        Query::Range(range) => Ok(words.push(WantedWord::Range(range))?),
        Query::And(queries) => push_all_words(queries, words),
        Query::Or(queries) => push_all_words(queries, words),
        Query::AndNot(first, _) => push_words(first, words),
    }
}

// Appends what some queries want.
#[cycle(push_words)]
fn push_all_words<'q>(queries: &'q Vec<Query>, words: &mut Vec<WantedWord<'q>>) -> Result<(), Fault>
    ensures wanted { OnOk result (map wanted_of words.new.items ≡ map wanted_of words.old.items ++ flat_map query_wants queries.now.items) }
    ensures only { OnlyMemory result }
{
    for query in queries {
        push_words(query, words)?;
    }
    Ok(())
}

// Appends the words of a phrase after the first one.
fn push_others<'q>(others: &'q [PhraseTerm], words: &mut Vec<WantedWord<'q>>) -> Result<(), Fault>
    ensures wanted { OnOk result (map wanted_of words.new.items ≡ map wanted_of words.old.items ++ map (λ o. one_word o.term) others.now) }
    ensures only { OnlyMemory result }
{
    for other in others {
        words.push(WantedWord::Term(&other.term))?;
    }
    Ok(())
}

// Returns the place of the first wanted word that a word of a field is.
fn place_of(words: &[WantedWord<'_>], field: Field, key: &[u8]) -> Option<usize>
    ensures { result ≡ position (is_word field key.now) (map wanted_of words.now) }
{
    for place in 0..words.len() {
        if words[place].has(field, key) {
            return Some(place);
        }
    }
    None
}

// Returns a token of a text of a field, with the first wanted word that it is.
fn snippet_token(words: &[WantedWord<'_>], field: Field, token: TokenView<'_>) -> SnippetToken
    ensures { result ≡ snippet_token (map wanted_of words.now) field (seen_word token.entry) }
{
    SnippetToken {
        offset_from: token.offset_from,
        offset_to: token.offset_to,
        wanted: place_of(words, field, token.text.as_bytes()),
    }
}

/// Returns the remaining tokens of a stream, whose text is one of a field, each with the first wanted word that it
/// is. Fails only with `OutOfMemory`.
pub fn snippet_tokens<S: TokenStream>(
    alloc: Global,
    words: &[WantedWord<'_>],
    field: Field,
    stream: &mut S,
) -> Result<Vec<SnippetToken>, Fault>
    ensures ok { IfOk result (λ tokens. tokens.items ≡ map (snippet_token (map wanted_of words.now) field) (S.to_come stream.old)) }
    ensures only { OnlyMemory result }
{
    let mut tokens = Vec::new(alloc);
    while stream.advance() {
        tokens.push(snippet_token(words, field, stream.token()))?;
    }
    Ok(tokens)
}
