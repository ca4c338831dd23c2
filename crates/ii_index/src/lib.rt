//! An index in a directory: create or open it, add JSON documents, search it. The names are tantivy's.
#![tactic(auto)]

mod committing;
mod deletes;
mod deleting;
pub mod faults;
mod flushing;
pub mod index;
pub mod index_reader;
pub mod index_writer;
pub mod locked_folder;
mod opening;
pub mod prepared_search;
mod ranking;
mod segments;
mod totals;

pub use faults::IndexError;
pub use ii_base::{Fault, Field, Schema, Term};
pub use ii_directory::{Directory, DirectoryFault, Folder, MemoryDirectory};
pub use ii_docset::{DocId, DocSet, TERMINATED};
pub use ii_explanation::{push_part, push_score, push_weight};
pub use ii_query_parser::{Query, QueryParserError};
pub use ii_ranking::{SCORE_ONE, Score, Share, TopDocs};
pub use index::Index;
pub use index_reader::{IndexReader, Searcher};
pub use index_writer::IndexWriter;
pub use locked_folder::{Locked, LockedFolder, WritableDirectory};
pub use prepared_search::PreparedSearch;
