ghost use Rattle.std.specs.Prelude.{◌≡◌};
ghost use Rattle.ii_definitions.specs.IndexCalls.{doc_of, field_of, number_in};

use ii_base::{DateTime, DocId, FastValue, Field, JsonValue, TokenList};

/// An input to index: a document, a field, and a value of the field's type.
#[derive(Drop)]
pub enum IndexCall {
    /// A text, which an analyzer splits into tokens.
    Text(DocId, Field, String),
    /// The remaining tokens of a list, for a text field.
    Tokens(DocId, Field, TokenList),
    /// An unsigned integer.
    U64(DocId, Field, u64),
    /// A signed integer.
    I64(DocId, Field, i64),
    /// A boolean.
    Bool(DocId, Field, bool),
    /// A date.
    Date(DocId, Field, DateTime),
    /// Bytes.
    Bytes(DocId, Field, Vec<u8>),
    /// An IP address.
    Ip(DocId, Field, u128),
    /// A JSON value. The analyzer splits its texts, which are indexed under their paths like its other
    /// leaves.
    Json(DocId, Field, JsonValue),
}

impl IndexCall {
    /// Returns the document.
    pub fn doc(&self) -> DocId
        ensures { result ≡ doc_of self.now }
    {
        match self {
            IndexCall::Text(doc, _, _) => *doc,
            IndexCall::Tokens(doc, _, _) => *doc,
            IndexCall::U64(doc, _, _) => *doc,
            IndexCall::I64(doc, _, _) => *doc,
            IndexCall::Bool(doc, _, _) => *doc,
            IndexCall::Date(doc, _, _) => *doc,
            IndexCall::Bytes(doc, _, _) => *doc,
            IndexCall::Ip(doc, _, _) => *doc,
            IndexCall::Json(doc, _, _) => *doc,
        }
    }

    /// Returns the field.
    pub fn field(&self) -> Field
        ensures { result ≡ field_of self.now }
    {
        match self {
            IndexCall::Text(_, field, _) => *field,
            IndexCall::Tokens(_, field, _) => *field,
            IndexCall::U64(_, field, _) => *field,
            IndexCall::I64(_, field, _) => *field,
            IndexCall::Bool(_, field, _) => *field,
            IndexCall::Date(_, field, _) => *field,
            IndexCall::Bytes(_, field, _) => *field,
            IndexCall::Ip(_, field, _) => *field,
            IndexCall::Json(_, field, _) => *field,
        }
    }

    /// Returns the 64-bit number that represents a number, a boolean or a date, or 0 for any other value.
    pub fn number(&self) -> u64
        ensures { result ≡ number_in self.now }
    {
        match self {
            IndexCall::U64(_, _, number) => *number,
            IndexCall::I64(_, _, number) => (*number).to_u64(),
            IndexCall::Bool(_, _, truth) => (*truth).to_u64(),
            IndexCall::Date(_, _, date) => (*date).to_u64(),
            _ => 0,
        }
    }
}
