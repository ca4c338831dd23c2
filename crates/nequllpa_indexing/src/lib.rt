//! Builds the index of lines of JSON, as a folder keeps it.
#![tactic(auto)]

mod counting;
pub mod documents;
pub mod faults;
pub mod keyed_lines;
mod line_keys;
mod lines;
pub mod long_words;
pub mod storing;

pub use documents::Documents;
pub use faults::{InputFault, LineRefusal};
pub use ii_postings_writer::postings_writer::MAX_TOKEN_LEN;
pub use keyed_lines::KeyedLines;
pub use long_words::count_long_words;
pub use storing::{add_line, store};
