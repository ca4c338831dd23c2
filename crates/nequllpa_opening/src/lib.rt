//! Opens an index of JSON lines that is stored in a folder: its segments, its stored documents, and their ids.
#![tactic(auto)]

pub mod documents;
pub mod faults;
pub mod ids;
mod json_values;
pub mod opened;
pub mod opened_index;
pub mod row_format;

pub use documents::{SegmentStore, StoredDocs, are_stored, document, segment_stores};
pub use faults::{AnswerFault, DocumentFault, OpenFault};
pub use ids::{IdSource, Ids, NoIds, id_field, id_field_of_all, id_source, ids_of, stores_ids};
pub use ii_documents::quoted;
pub use json_values::{write_numbers, write_quoted, write_separator, write_text};
pub use opened::{Opened, is_living, schema_of, text_schema_of};
pub use opened_index::{Bases, OpenedIndex, reader_of};
pub use row_format::RowFormat;
