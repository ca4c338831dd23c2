//! The schema of a text, with its tokenizers, and what is stored.
ghost use Rattle.std.specs.Prelude.{◌≡◌, codes};
ghost use Rattle.toml.specs.View.{view};
ghost use Rattle.ii_schema_text.specs.SchemaText.{AnswersFromText, TextSchemaState, field_in, few, without_fields};

use crate::entry_table::{ReadField, entry_of};
use crate::faults::SchemaFault;
use crate::stop_words::stop_words_of;
use crate::stored::Stored;
use crate::tokenizers::{takes_texts, tokenizer_of};
use crate::unknown_keys::UnknownKeys;
use ii_base::{FieldEntry, Schema};
use ii_tokenizers::{Analyzer, FieldTokenizer, FieldTokenizers};
use std::alloc::Global;
use std::marker::Model;
use toml::Value;

/// A schema, the tokenizer of each of its fields, what is stored of documents, and what happens to their unknown keys.
///
/// Its model is the entries of the schema, the tokenizers, and these two.
pub struct TextSchema {
    schema: Schema,
    tokenizers: FieldTokenizers,
    stored: Stored,
    unknown_keys: UnknownKeys,
}

// Makes each drop a call.
impl Drop for TextSchema {
    fn drop(self) {
        let TextSchema {
            schema: _,
            tokenizers: _,
            stored: _,
            unknown_keys: _,
        } = self;
    }
}

impl Model for TextSchema {
    ghost use Rattle.ii_schema_text.specs.SchemaText.{TextSchemaState};

    ghost Value = { TextSchemaState };

    ghost view = { λ s. record { schema = s.schema; tokenizers = s.tokenizers; stored = s.stored; unknown_keys = s.unknown_keys } };
}

impl TextSchema {
    /// Returns the schema.
    pub fn schema(&self) -> &Schema
        ensures { result.now ≡ self.now.schema }
    {
        &self.schema
    }

    /// Returns the tokenizers of the fields.
    pub fn tokenizers(&self) -> &FieldTokenizers
        ensures { result.now ≡ self.now.tokenizers }
    {
        &self.tokenizers
    }

    /// Returns what is stored of documents.
    pub fn stored(&self) -> &Stored
        ensures { result.now ≡ self.now.stored }
    {
        &self.stored
    }

    /// Returns what happens to members of documents whose keys are no names of fields.
    pub fn unknown_keys(&self) -> UnknownKeys
        ensures { result ≡ self.now.unknown_keys }
    {
        self.unknown_keys
    }

    /// Returns the schema, the tokenizers of its fields, and what is stored of documents.
    pub fn into_parts(self) -> (Schema, FieldTokenizers, Stored)
        ensures schema { result.0 ≡ self.schema }
        ensures tokenizers { result.1 ≡ self.tokenizers }
        ensures stored { result.2 ≡ self.stored }
    {
        let TextSchema {
            schema,
            tokenizers,
            stored,
            unknown_keys: _,
        } = self;
        (schema, tokenizers, stored)
    }
}

// The fields that were read of a text.
pub(crate) struct ReadFields {
    entries: Vec<FieldEntry>,
    tokenizers: FieldTokenizers,
    stored: Stored,
    unknown_keys: UnknownKeys,
}

// Makes each drop a call.
impl Drop for ReadFields {
    fn drop(self) {
        let ReadFields {
            entries: _,
            tokenizers: _,
            stored: _,
            unknown_keys: _,
        } = self;
    }
}

impl Model for ReadFields {
    ghost use Rattle.ii_schema_text.specs.SchemaText.{TextSchemaState};

    ghost Value = { TextSchemaState };

    ghost view = { λ s. record { schema = s.entries.items; tokenizers = s.tokenizers; stored = s.stored; unknown_keys = s.unknown_keys } };
}

impl ReadFields {
    // Creates an empty list, of a text that stores complete lines or doesn't, and says what happens to unknown keys.
    pub(crate) fn new(alloc: Global, stores_source: bool, unknown_keys: UnknownKeys) -> ReadFields
        ensures { result ≡ without_fields stores_source unknown_keys }
    {
        ReadFields {
            entries: Vec::new(alloc),
            tokenizers: FieldTokenizers::new(alloc),
            stored: Stored::new(alloc, stores_source),
            unknown_keys,
        }
    }

    // Reads one more field from its table. After an error they are of no use.
    #[tactic(auto, unfolding(crate::specs::SchemaText::field_in))]
    pub(crate) fn read(
        &mut self,
        alloc: Global,
        default: Analyzer,
        field: &Value,
    ) -> Result<(), SchemaFault>
        ensures { AnswersFromText (λ (done : Unit {0}). self.new) result (field_in default self.old (view field.now)) }
    {
        let place = self.entries.len();
        let read = entry_of(alloc, self.entries.as_slice(), field)?;
        let ReadField { entry, is_stored } = read;
        let allowed = takes_texts(&entry);
        let analyzer = tokenizer_of(alloc, place, default, allowed, field.get("tokenizer"))?;
        let stop_words = stop_words_of(alloc, place, analyzer, field.get("stop_words"))?;
        self.entries.push(entry)?;
        self.stored.push(is_stored)?;
        self.tokenizers.push(FieldTokenizer {
            analyzer,
            stop_words,
        })?;
        Ok(())
    }

    // Returns their schema, unless they are too many.
    pub(crate) fn into_schema(self) -> Result<TextSchema, SchemaFault>
        ensures { AnswersFromText (λ (s : TextSchemaState). s) result (few self) }
    {
        let ReadFields {
            entries,
            tokenizers,
            stored,
            unknown_keys,
        } = self;
        if entries.len() >= 1 << 32 {
            return Err(SchemaFault::TooManyFields);
        }
        Ok(TextSchema {
            schema: Schema::new(entries),
            tokenizers,
            stored,
            unknown_keys,
        })
    }
}
