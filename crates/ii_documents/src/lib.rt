//! Reads documents as lines of JSON. By a schema it converts each line to index calls, or reports why it
//! can't.
#![tactic(auto)]

pub mod faults;
pub mod floats;
pub mod json_lines;
mod json_values;
pub mod line_fields;
pub mod line_places;
pub mod records;
mod values;

pub use faults::{LineFault, ValueFault};
pub use floats::FloatNumbers;
pub use json_lines::{LineCalls, line_calls, line_calls_by};
pub use line_fields::{fields_of_line, quoted, read_line, value_text};
pub use line_places::LinePlace;
pub use records::record_of;
