//! Words that are too long to be indexed.
ghost use Rattle.ii_io.specs.Faults.{OnlyMemory};

use ii_base::{Fault, JsonValue, TextAnalyzer, TokenStream};
use ii_indexing::IndexCall;
use ii_postings_writer::postings_writer::MAX_TOKEN_LEN;
use ii_tokenizers::FieldAnalyzers;
use std::alloc::Global;

/// Returns how many words in the texts of index calls have more than `MAX_TOKEN_LEN` bytes and so
/// aren't indexed, at most `u64::MAX`; words are those by the analyzer of the call's field. Returns
/// `OutOfMemory` if allocation fails.
pub fn count_long_words<F: FieldAnalyzers>(
    alloc: Global,
    analyzers: &F,
    calls: &[IndexCall],
) -> Result<u64, Fault>
    ensures only { OnlyMemory result }
{
    let mut count = 0u64;
    for call in calls {
        let more = match call {
            IndexCall::Text(_, field, text) => {
                long_words_of(alloc, analyzers.analyzer(*field), text.as_str())?
            }
            IndexCall::Json(_, field, value) => {
                long_words_in(alloc, analyzers.analyzer(*field), value)?
            }
            _ => 0,
        };
        count = count.saturating_add(more);
    }
    Ok(count)
}

// Counts the words of a text that are too long. Most texts are too short to have any.
fn long_words_of<A: TextAnalyzer>(alloc: Global, analyzer: &A, text: &str) -> Result<u64, Fault>
    ensures only { OnlyMemory result }
{
    if text.len() <= MAX_TOKEN_LEN {
        return Ok(0);
    }
    let mut words = analyzer.token_stream(alloc, text)?;
    let mut count = 0u64;
    for _ in 0..text.len() {
        if !words.advance() {
            return Ok(count);
        }
        if words.token().text.len() > MAX_TOKEN_LEN {
            count = count.saturating_add(1);
        }
    }
    Ok(count)
}

// Counts the words that are too long in the texts of a JSON value.
#[cycle(long_words_in)]
fn long_words_in<A: TextAnalyzer>(
    alloc: Global,
    analyzer: &A,
    value: &JsonValue,
) -> Result<u64, Fault>
    ensures only { OnlyMemory result }
{
    match value {
        JsonValue::Str(text) => long_words_of(alloc, analyzer, text.as_str()),
        JsonValue::Array(items) => {
            let mut count = 0u64;
            for item in items {
                count = count.saturating_add(long_words_in(alloc, analyzer, item)?);
            }
            Ok(count)
        }
        JsonValue::Object(members) => {
            let mut count = 0u64;
            for member in members {
                count = count.saturating_add(long_words_in(alloc, analyzer, &member.1)?);
            }
            Ok(count)
        }
        _ => Ok(0),
    }
}
