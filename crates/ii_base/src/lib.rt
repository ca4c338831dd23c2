//! Fields, terms, tokens, JSON values and the set of alive documents. It re-exports the types of `ii_io`.
#![tactic(auto)]

pub mod alive_bitset;
pub mod datetime;
pub mod doc_id;
pub mod fast_value;
pub mod json_path_writer;
pub mod json_utils;
pub mod json_value;
pub mod schema;
pub mod tokenizer;

pub use alive_bitset::AliveBitSet;
pub use datetime::DateTime;
pub use doc_id::{DocId, TERMINATED};
pub use fast_value::FastValue;
pub use ii_io::vint::{VInt, read_u32_vint, write_u32_vint};
pub use ii_io::{
    BinarySerializable, CompositeFile, CompositeWrite, CountingWriter, FailingReader,
    FailingWriter, Fault, Field, FixedSize, HasLen, LayoutFault, LeafKind, LimitName, Part,
};
pub use json_path_writer::JsonPathWriter;
pub use json_utils::{encode_column_name, split_json_path};
pub use json_value::{JsonLeaf, JsonValue};
pub use schema::Schema;
pub use schema::field_entry::FieldEntry;
pub use schema::index_record_option::IndexRecordOption;
pub use schema::schema_fields::SchemaFields;
pub use schema::term::Term;
pub use schema::value_type::ValueType;
pub use tokenizer::ascii_tokenizer::{AsciiTokenizer, AsciiTokens};
pub use tokenizer::run_tokens::RunTokens;
pub use tokenizer::text_analyzer::TextAnalyzer;
pub use tokenizer::text_tokens::TextTokens;
pub use tokenizer::token::Token;
pub use tokenizer::token_buffer::{BufferedTokens, TokenBuffer};
pub use tokenizer::token_list::TokenList;
pub use tokenizer::token_stream::TokenStream;
pub use tokenizer::token_view::TokenView;
