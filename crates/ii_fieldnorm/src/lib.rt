//! The field norm of a document: its number of tokens in a field, quantized to one byte.
#![tactic(auto)]

pub mod code;
pub mod reader;
pub mod serializer;
pub mod writer;

pub use code::{FIELD_NORMS_TABLE, fieldnorm_to_id, id_to_fieldnorm};
pub use reader::{FieldNormReader, FieldNormReaders};
pub use serializer::FieldNormsSerializer;
pub use writer::FieldNormsWriter;
