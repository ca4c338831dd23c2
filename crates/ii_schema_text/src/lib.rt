//! Reads a schema from TOML, with a table `[[field]]` for each field, in order.
#![tactic(auto)]

pub mod entry_table;
pub mod faults;
pub mod field_type;
pub mod keys;
pub mod schema_text;
pub mod settings;
mod stop_words;
pub mod stored;
pub mod text_schema;
mod tokenizers;
pub mod unknown_keys;

pub use faults::{FieldKey, SchemaFault};
pub use field_type::type_name;
pub use schema_text::{field_name_at, new_schema_text, read_schema, read_text_schema};
pub use stored::Stored;
pub use text_schema::TextSchema;
pub use unknown_keys::UnknownKeys;
