//! The JSON paths of a field's values, during indexing and in term keys.
#![tactic(auto)]

mod branch;
pub mod fast_values;
pub mod json_term_serializer;
pub mod json_utils;
pub mod leaf_sink;
pub mod path_to_unordered_id;

pub use fast_values::{bool_in, bool_term, i64_in, i64_term, u64_in, u64_term};
pub use json_term_serializer::JsonTermSerializer;
pub use json_utils::{convert_to_fast_value_and_append_to_json_term, json_path_sep_to_dot};
pub use leaf_sink::{LeafSink, visit_leaves};
pub use path_to_unordered_id::{OrderedPathId, PathToUnorderedId};
