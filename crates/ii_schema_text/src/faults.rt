ghost use Rattle.std.specs.Prelude.{◌≡◌, Err, Result};
ghost use Rattle.toml.specs.Data.{Members};
ghost use Rattle.toml.specs.Errors.{IsMemory};
ghost use Rattle.ii_io.specs.declared.faults.Fault.TheVariants.{OutOfMemory};
ghost use Rattle.ii_schema_text.specs.SchemaText.{Refusal, TellsOfText, not_toml, told_of_text};
ghost use Rattle.ii_schema_text.specs.declared.faults.SchemaFault.TheVariants as faults;

use ii_base::Fault;
use std::alloc::{AllocError, AllocFailed};
use std::fmt;
use thiserror::Error;
use toml::de::Error as TomlError;

/// A key that is allowed in the table of a field.
#[derive(Clone, Copy, Debug, PartialEq, Eq)]
pub enum FieldKey {
    /// The name of the field: not empty, and different from the names before it.
    Name,
    /// The type of its values.
    Type,
    /// Whether it is indexed.
    Indexed,
    /// What is kept of a term.
    Record,
    /// Whether field norms are kept.
    FieldNorms,
    /// Whether dots in the keys of its JSON values are expanded.
    ExpandDots,
    /// Whether its member of a document is stored.
    Stored,
    /// How its texts are cut into words.
    Tokenizer,
    /// Which words of its texts are left out.
    StopWords,
}

impl FieldKey {
    // Returns the key as text.
    fn name(self) -> &'static str {
        match self {
            FieldKey::Name => "name: a text that is not empty, and that no field before has",
            FieldKey::Type => "type: one of text, u64, i64, bool, date, bytes, ip_addr, json",
            FieldKey::Indexed => "indexed: true or false",
            FieldKey::Record =>
                "record: one of basic, freq, position, where an indexed field has texts or JSON values",
            FieldKey::FieldNorms =>
                "fieldnorms: true or false, where an indexed field has no JSON values",
            FieldKey::ExpandDots =>
                "expand_dots: true or false, where an indexed field has JSON values",
            FieldKey::Stored => "stored: true or false",
            FieldKey::Tokenizer =>
                "tokenizer: one of default, raw, whitespace, ascii, en, where an indexed field has texts or JSON values",
            FieldKey::StopWords =>
                "stop_words: a list of texts, where the tokenizer of the field is en",
        }
    }
}

impl fmt::Display for FieldKey {
    fn fmt<W: fmt::Write>(&self, f: &mut fmt::Formatter<W>) -> fmt::Result {
        f.write_str(self.name())
    }
}

/// Why a text is not a valid schema. Fields are numbered from 0.
#[derive(Debug, Drop, Error)]
pub enum SchemaFault {
    /// A memory allocation failed.
    #[error("out of memory")]
    OutOfMemory,
    /// The text isn't TOML.
    #[error("{0}")]
    NotToml(TomlError),
    /// There is a key other than `field`, `tokenizer`, `unicode`, `store_source` and `unknown`.
    #[error("unknown key {0}: a schema has tables [[field]], and the keys tokenizer, unicode, store_source and unknown")]
    UnknownKey(String),
    /// The key `tokenizer` of the schema is no text.
    #[error("tokenizer: one of default, raw, whitespace, ascii, en")]
    WrongTokenizer,
    /// The key `tokenizer` of the schema names no known tokenizer.
    #[error("unknown tokenizer {0}: one of default, raw, whitespace, ascii, en")]
    UnknownTokenizer(String),
    /// The key `store_source` is no boolean.
    #[error("store_source: true or false")]
    WrongStoreSource,
    /// The key `unknown` is neither `refuse` nor `ignore`.
    #[error("unknown: refuse or ignore")]
    WrongUnknown,
    /// There is no table `[[field]]`.
    #[error("no table [[field]]")]
    NoFields,
    /// There are 2^32 fields or more.
    #[error("too many fields")]
    TooManyFields,
    /// The table of a field has an unknown key.
    #[error("field {0}: unknown key {1}")]
    UnknownFieldKey(usize, String),
    /// A key in the table of a field is missing or has an invalid value.
    #[error("field {0}: {1}")]
    WrongKey(usize, FieldKey),
    /// A field names a tokenizer that isn't known.
    #[error("field {0}: unknown tokenizer {1}: one of default, raw, whitespace, ascii, en")]
    UnknownFieldTokenizer(usize, String),
    /// The key `unicode` is no text.
    #[error("unicode: a version, as a text")]
    WrongUnicode,
    /// A field has words by another version of Unicode than this program's.
    #[error("its words are by Unicode {0}, which this program doesn't have: index again")]
    OtherUnicode(String),
}

impl SchemaFault {
    // Converts a TOML error: the text isn't TOML, or an allocation failed.
    pub(crate) fn of_toml(error: TomlError) -> SchemaFault
        ensures { (wanted : Result Members Refusal) → (¬ IsMemory error → wanted ≡ Err not_toml) → TellsOfText (told_of_text result) wanted }
    {
        if error.is_memory() {
            return SchemaFault::OutOfMemory;
        }
        SchemaFault::NotToml(error)
    }
}

impl From<Fault> for SchemaFault {
    ghost from_gives = { λ fault e. fault ≡ OutOfMemory → e ≡ faults.OutOfMemory };

    fn from(_: Fault) -> Self {
        SchemaFault::OutOfMemory
    }
}

impl From<AllocError> for SchemaFault {
    ghost from_gives = { λ _ e. e ≡ faults.OutOfMemory };

    fn from(_: AllocError) -> Self {
        SchemaFault::OutOfMemory
    }
}

impl<T: Drop> From<AllocFailed<T>> for SchemaFault {
    ghost from_gives = { λ _ e. e ≡ faults.OutOfMemory };

    fn from(_: AllocFailed<T>) -> Self {
        SchemaFault::OutOfMemory
    }
}
