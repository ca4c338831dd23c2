//! The file of counts of a segment: how many tokens each document has in each field.
#![tactic(auto)]

pub mod reader;
pub mod serializer;
pub mod writer;

pub use reader::{CountReader, CountReaders};
pub use serializer::CountsSerializer;
pub use writer::CountsWriter;
