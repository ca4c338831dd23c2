//! Lines whose documents replace others: those that have the same key, the one value of a field.
ghost use Rattle.std.specs.Prelude.{◌≡◌, ◌∷◌, ◌++◌, [], ℕ, Err, IfErr, IfOk, List, OnErr, OnOk, Some, length, map};
ghost use Rattle.std.specs.Str.{IsUtf8};
ghost use Rattle.ii_base.specs.Words.{Word};
ghost use Rattle.ii_definitions.specs.Tokens.{Call};
ghost use Rattle.nequllpa_indexing.specs.FieldTokens.{tokens_by};
ghost use Rattle.nequllpa_indexing.specs.KeyedLines.{AddsLines, KeepsLast, KeyedLineState, StopsAdding, TakesLine, key_of_calls, last_of_each_key, line_view, key_terms, line_texts, token_keys};

use crate::documents::Documents;
use crate::faults::{InputFault, LineRefusal};
use crate::line_keys::{line_key, no_memory};
use ii_base::{Fault, Field, Term};
use ii_documents::LineFault;
use ii_tokenizers::FieldAnalyzers;
use indexmap::IndexSet;
use std::alloc::Global;
use std::marker::Model;

// A line, and its key: the bytes of a term.
#[derive(Drop)]
struct KeyedLine {
    key: Vec<u8>,
    text: String,
}

/// Lines of documents, each with its key in a field: the only value of its document in the field. The key of a text is
/// its only word, that of any other value the bytes of its term.
///
/// Its model is the field, and the lines with their keys, in the order in which they were taken.
#[derive(Drop)]
pub struct KeyedLines {
    field: Field,
    lines: Vec<KeyedLine>,
}

impl Model for KeyedLines {
    ghost use Rattle.std.specs.Prelude.{map};
    ghost use Rattle.nequllpa_indexing.specs.KeyedLines.{KeyedLinesState, line_view};

    ghost Value = { KeyedLinesState };

    ghost view = { λ k. record { field = k.field; lines = map line_view k.lines.items } };
}

impl KeyedLines {
    /// Creates an empty list for keys of a field.
    pub fn new(alloc: Global, field: Field) -> KeyedLines
        ensures { result ≡ record { field = field; lines = [] } }
    {
        KeyedLines {
            field,
            lines: Vec::new(alloc),
        }
    }

    /// Returns the number of lines.
    pub fn len(&self) -> usize
        ensures { result ≡ length self.now.lines }
    {
        self.lines.len()
    }

    /// Takes a line with its key, unless it has only white space. It is read as `documents` read lines, and its words
    /// are those by the analyzer of the field.
    ///
    /// Returns `Input` with `NotUtf8` if the bytes aren't UTF-8, or with the fault of the line (`line_calls_by`);
    /// `NoKey` if its document hasn't exactly one value in the field, or a text that isn't exactly one word of at most
    /// `MAX_TOKEN_LEN` bytes, or a JSON value; or `Input` with `OutOfMemory`. The lines are then unchanged.
    pub fn take<F: FieldAnalyzers>(
        &mut self,
        alloc: Global,
        documents: &Documents,
        analyzers: &F,
        line: &[u8],
    ) -> Result<(), LineRefusal>
        ensures taken { IsUtf8 line.now → TakesLine (F.words analyzers.now) documents.now self.old self.new line.now result }
        ensures err { OnErr result (self.new ≡ self.old) }
        ensures not_utf8 { ¬ IsUtf8 line.now → result ≡ Err (LineRefusal.Input InputFault.NotUtf8) }
    {
        let Ok(text) = std::str::from_utf8(line) else {
            return Err(LineRefusal::Input(InputFault::NotUtf8));
        };
        let text = text.trim_ascii();
        if text.is_empty() {
            return Ok(());
        }
        match line_key(alloc, documents, analyzers, self.field, text) {
            Ok(key) => self.push(alloc, key, text),
            Err(refusal) => Err(refusal),
        }
    }

    // Adds a line with its key.
    fn push(&mut self, alloc: Global, key: Vec<u8>, text: &str) -> Result<(), LineRefusal>
        ensures pushed { OnOk result (self.new ≡ record { field = self.old.field; lines = self.old.lines ++ (record { key = key.items; text = text.now }) ∷ [] }) }
        ensures err { OnErr result (self.new ≡ self.old) }
        ensures memory { IfErr result (λ e. e ≡ LineRefusal.Input (InputFault.Line LineFault.OutOfMemory)) }
    {
        let Ok(text) = String::from_str(alloc, text) else {
            return Err(no_memory());
        };
        match self.lines.push(KeyedLine { key, text }) {
            Ok(()) => Ok(()),
            Err(_) => Err(no_memory()),
        }
    }

    /// Adds the documents of these lines (`Documents::push_line`): of several with the same key the last one, in the
    /// order of the lines. Returns their keys, in the same order.
    ///
    /// Returns the fault of the first line that isn't added, or `OutOfMemory`. The documents of the lines before it
    /// were then added.
    pub fn add_to(self, alloc: Global, documents: &mut Documents) -> Result<Vec<Term>, LineFault>
        ensures added { OnOk result (AddsLines documents.old documents.new (line_texts (last_of_each_key self.lines))) }
        ensures keys { IfOk result (λ keys. keys.items ≡ key_terms self.field (last_of_each_key self.lines)) }
        ensures fault { IfErr result (λ e. StopsAdding e documents.old documents.new (line_texts (last_of_each_key self.lines))) }
    {
        let KeyedLines { field, lines } = self;
        let lines = match last_of_each(alloc, lines) {
            Ok(lines) => lines,
            Err(_) => return Err(LineFault::OutOfMemory),
        };
        add_all(alloc, documents, field, lines)
    }
}

// Returns the lines of which no later one has the same key.
fn last_of_each(alloc: Global, lines: Vec<KeyedLine>) -> Result<Vec<KeyedLine>, Fault>
    ensures { IfOk result (λ kept. map line_view kept.items ≡ last_of_each_key (map line_view lines.items)) }
{
    let mut lines = lines;
    lines.reverse();
    let mut seen = IndexSet::new(alloc);
    let mut kept = Vec::new(alloc);
    for line in lines {
        keep_if_new(alloc, &mut seen, &mut kept, line)?;
    }
    kept.reverse();
    Ok(kept)
}

// Keeps a line, unless its key was seen.
fn keep_if_new(
    alloc: Global,
    seen: &mut IndexSet<Vec<u8>>,
    kept: &mut Vec<KeyedLine>,
    line: KeyedLine,
) -> Result<(), Fault>
    ensures { OnOk result ((later : List KeyedLineState) → KeepsLast later seen.old.keys kept.old.items → KeepsLast (line_view line ∷ later) seen.new.keys kept.new.items) }
{
    let key = Vec::from_slice(alloc, line.key.as_slice())?;
    if !seen.insert(key)? {
        return Ok(());
    }
    kept.push(line)?;
    Ok(())
}

// Adds the documents of lines, one after the other, and returns their keys.
fn add_all(
    alloc: Global,
    documents: &mut Documents,
    field: Field,
    lines: Vec<KeyedLine>,
) -> Result<Vec<Term>, LineFault>
    ensures added { OnOk result (AddsLines documents.old documents.new (line_texts (map line_view lines.items))) }
    ensures keys { IfOk result (λ keys. keys.items ≡ key_terms field (map line_view lines.items)) }
    ensures fault { IfErr result (λ e. StopsAdding e documents.old documents.new (line_texts (map line_view lines.items))) }
{
    let mut keys = Vec::new(alloc);
    for line in lines {
        match documents.push_line(alloc, line.text.as_str()) {
            Ok(()) => {}
            Err(fault) => return Err(fault),
        }
        let Ok(key) = Term::from_field_bytes(alloc, field, line.key.as_slice()) else {
            return Err(LineFault::OutOfMemory);
        };
        let Ok(()) = keys.push(key) else {
            return Err(LineFault::OutOfMemory);
        };
    }
    Ok(keys)
}

/// Law: the key of a document in a field is that of its only token in the field.
#[tactic(auto, using(crate::proofs::KeyTokenLaws::key_of_only_token))]
pub fn key_is_that_of_the_only_token()
    ensures { (analyze : ℕ → List ℕ → List Word) (field : ℕ) (calls : List Call) (key : List ℕ) → key_of_calls analyze field calls ≡ Some key → token_keys field (tokens_by analyze calls) ≡ key ∷ [] }
{}
