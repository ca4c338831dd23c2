//! The tokenizers that a schema gives its fields.
ghost use Rattle.std.specs.Prelude.{◌≡◌, ◌++◌, ◌∷◌, [], OnErr, OnOk};
ghost use Rattle.ii_io.specs.Faults.{OnlyMemory};

use crate::analyzer::Analyzer;
use crate::field_analyzers::FieldAnalyzers;
use crate::field_tokenizer::FieldTokenizer;
use ii_base::{Fault, Field};
use std::alloc::Global;
use std::marker::Model;

/// The tokenizer of each field of a schema, in the order of the fields. Other fields have that of
/// `Analyzer::Ascii`.
///
/// Its model is the list of the tokenizers.
pub struct FieldTokenizers {
    fields: Vec<FieldTokenizer>,
    prefixes: Vec<FieldTokenizer>,
    other: FieldTokenizer,
    alloc: Global,
}

// Makes each drop a call.
impl Drop for FieldTokenizers {
    fn drop(self) {
        let FieldTokenizers {
            fields: _,
            prefixes: _,
            other: _,
            alloc: _,
        } = self;
    }
}

impl Model for FieldTokenizers {
    ghost use Rattle.std.specs.Prelude.{◌≡◌, List, map};
    ghost use Rattle.ii_tokenizers.specs.Tokenizers.{plain_tokenizer, prefix_tokenizer};
    ghost use Rattle.ii_tokenizers.specs.declared.analyzer.Analyzer.TheVariants.{Ascii};
    ghost use Rattle.ii_tokenizers.specs.declared.field_tokenizer.FieldTokenizer.{FieldTokenizer};

    ghost Value = { List FieldTokenizer };

    ghost view = { λ t. t.fields.items };

    ghost invariant = { λ t. (t.other ≡ plain_tokenizer Ascii) × (t.prefixes.items ≡ map prefix_tokenizer t.fields.items) };
}

impl FieldTokenizers {
    /// Creates an empty list.
    pub fn new(alloc: Global) -> FieldTokenizers
        ensures { result ≡ [] }
    {
        FieldTokenizers {
            fields: Vec::new(alloc),
            prefixes: Vec::new(alloc),
            other: FieldTokenizer::new(alloc, Analyzer::Ascii),
            alloc,
        }
    }

    /// Appends the tokenizer of the next field. Returns `OutOfMemory` if allocation fails; the list is then
    /// unchanged.
    pub fn push(&mut self, tokenizer: FieldTokenizer) -> Result<(), Fault>
        ensures pushed { OnOk result (self.new ≡ self.old ++ tokenizer ∷ []) }
        ensures err { OnErr result (self.new ≡ self.old) }
        ensures only { OnlyMemory result }
    {
        self.prefixes.push(tokenizer.for_prefixes(self.alloc))?;
        match self.fields.push(tokenizer) {
            Ok(()) => Ok(()),
            Err(refused) => {
                self.prefixes.pop();
                Err(Fault::from(refused))
            }
        }
    }

    /// Returns the tokenizers, in the order of the fields.
    pub fn as_slice(&self) -> &[FieldTokenizer]
        ensures { result.now ≡ self.now }
    {
        self.fields.as_slice()
    }
}

impl FieldAnalyzers for FieldTokenizers {
    ghost use Rattle.std.specs.Prelude.{map};
    ghost use Rattle.ii_tokenizers.specs.Tokenizers.{analyzed_in, prefix_tokenizer};

    type Analyzer = FieldTokenizer;

    ghost words = { λ s. analyzed_in s };

    ghost prefix_words = { λ s. analyzed_in (map prefix_tokenizer s) };

    fn analyzer(&self, field: Field) -> &FieldTokenizer {
        match self.fields.get(field.field_id() as usize) {
            Some(tokenizer) => tokenizer,
            None => &self.other,
        }
    }

    fn prefix_analyzer(&self, field: Field) -> &FieldTokenizer {
        match self.prefixes.get(field.field_id() as usize) {
            Some(tokenizer) => tokenizer,
            None => &self.other,
        }
    }
}
