ghost use Rattle.std.specs.Prelude.{◌≡◌, option_map};
ghost use Rattle.toml.specs.View.{table_view};
ghost use Rattle.ii_schema_text.specs.declared.keys.KnownKeys.TheVariants.{OfField, OfText};
ghost use Rattle.ii_schema_text.specs.SchemaText.{is_known_key, unknown_key_in};

use toml::Table;

/// The keys that a table may have.
#[derive(Clone, Copy, Debug, PartialEq, Eq)]
pub enum KnownKeys {
    /// Those of the complete text.
    OfText,
    /// Those of the table of a field.
    OfField,
}

impl KnownKeys {
    // Returns whether a key is allowed.
    #[tactic(auto, unfolding(crate::specs::SchemaText::is_known_key))]
    fn has(self, key: &str) -> bool
        ensures { result ≡ is_known_key self key.now }
    {
        match self {
            KnownKeys::OfText => is_text_key(key),
            KnownKeys::OfField => is_field_key(key),
        }
    }

    // Returns the first key of a table that isn't allowed.
    pub(crate) fn unknown(self, table: &Table) -> Option<&str>
        ensures { option_map (λ key. key.now) result ≡ unknown_key_in self (table_view table.now) }
    {
        for (key, _) in table.iter() {
            if !self.has(key.as_str()) {
                return Some(key.as_str());
            }
        }
        None
    }
}

// Returns whether a key is allowed in the complete text.
#[tactic(auto, unfolding(crate::specs::SchemaText::is_known_key))]
fn is_text_key(key: &str) -> bool
    ensures { result ≡ is_known_key OfText key.now }
{
    if key == "field" {
        return true;
    }
    if key == "tokenizer" {
        return true;
    }
    if key == "unicode" {
        return true;
    }
    if key == "store_source" {
        return true;
    }
    key == "unknown"
}

// Returns whether a key is allowed in a field's table.
#[tactic(auto, unfolding(crate::specs::SchemaText::is_known_key))]
fn is_field_key(key: &str) -> bool
    ensures { result ≡ is_known_key OfField key.now }
{
    if key == "name" {
        return true;
    }
    if key == "type" {
        return true;
    }
    if key == "indexed" {
        return true;
    }
    if key == "record" {
        return true;
    }
    if key == "fieldnorms" {
        return true;
    }
    if key == "expand_dots" {
        return true;
    }
    if key == "tokenizer" {
        return true;
    }
    if key == "stop_words" {
        return true;
    }
    key == "stored"
}
