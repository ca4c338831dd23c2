//! Filters, which change tokens or leave some out. Offsets and positions stay.
ghost use Rattle.std.specs.Prelude.{◌≡◌, ◌++◌, ◌∷◌, [], IfOk, OnErr, OnOk};
ghost use Rattle.ii_io.specs.Faults.{OnlyMemory};
ghost use Rattle.ii_base.specs.Words.{seen_word};
ghost use Rattle.ii_tokenizers.specs.Analyzers.{fold_case, folded, stemmed};

use caseless::default_case_fold_str;
use ii_base::{TokenBuffer, TokenView};
use ii_io::Fault;
use ii_stemmer::stem_word;
use std::alloc::Global;

/// Folds the case of each token, so that words that differ in case alone become the same (`STRASSE` and
/// `Straße` become `strasse`).
///
/// Returns `OutOfMemory` if an allocation fails; the tokens are then unchanged.
pub fn fold_case(alloc: Global, tokens: &mut TokenBuffer) -> Result<(), Fault>
    ensures ok { OnOk result (tokens.new ≡ fold_case tokens.old) }
    ensures err { OnErr result (tokens.new ≡ tokens.old) }
    ensures only { OnlyMemory result }
{
    if tokens.is_ascii() {
        tokens.make_ascii_lowercase();
        return Ok(());
    }
    let mut folded = TokenBuffer::new(alloc);
    for index in 0..tokens.len() {
        push_folded(alloc, tokens.get(index), &mut folded)?;
    }
    *tokens = folded;
    Ok(())
}

// Adds a token in folded case.
fn push_folded(alloc: Global, token: TokenView<'_>, tokens: &mut TokenBuffer) -> Result<(), Fault>
    ensures ok { OnOk result (tokens.new ≡ tokens.old ++ folded (seen_word token.entry) ∷ []) }
    ensures only { OnlyMemory result }
{
    let text = default_case_fold_str(alloc, token.text)?;
    tokens.push(TokenView {
        text: text.as_str(),
        ..token
    })
}

/// Adds the stem of a token, so that the forms of an English word become the same (`sail` and `sailing` become `sail`).
/// A text with other characters than `a` to `z` is kept.
///
/// Returns `OutOfMemory` if an allocation fails.
pub fn push_stem(alloc: Global, token: TokenView<'_>, stems: &mut TokenBuffer) -> Result<(), Fault>
    ensures ok { OnOk result (stems.new ≡ stems.old ++ stemmed (seen_word token.entry) ∷ []) }
    ensures only { OnlyMemory result }
{
    let text = stem_word(alloc, token.text)?;
    stems.push(TokenView {
        text: text.as_str(),
        ..token
    })
}
