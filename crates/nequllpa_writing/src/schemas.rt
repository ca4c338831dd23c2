//! The schema that an index keeps.
use ii_schema_text::{SchemaFault, TextSchema, read_text_schema};
use std::alloc::Global;
use thiserror::Error;

/// Why the bytes of a schema can't be read.
#[derive(Debug, Drop, Error)]
pub enum StoredSchemaFault {
    /// They aren't UTF-8.
    #[error("the schema is not UTF-8")]
    Bytes,
    /// The text is no schema.
    #[error("the schema: {0}")]
    Text(SchemaFault),
}

/// Reads the schema of an index. Returns `Bytes` if the bytes aren't UTF-8, and `Text` if the text is no schema.
pub fn text_schema_of(alloc: Global, bytes: &[u8]) -> Result<TextSchema, StoredSchemaFault> {
    let Ok(text) = std::str::from_utf8(bytes) else {
        return Err(StoredSchemaFault::Bytes);
    };
    match read_text_schema(alloc, text) {
        Ok(schema) => Ok(schema),
        Err(fault) => Err(StoredSchemaFault::Text(fault)),
    }
}
