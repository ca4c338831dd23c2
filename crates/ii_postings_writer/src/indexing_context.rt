ghost use Rattle.std.specs.Prelude.{◌≡◌, []};

use crate::postings_writer::TermRecorders;
use ii_json::PathToUnorderedId;
use std::alloc::Global;

/// The terms and paths that are collected while documents are indexed.
#[derive(Drop)]
pub struct IndexingContext {
    /// The recorder of each term that occurred.
    pub term_index: TermRecorders,
    /// The paths of JSON values, by their ids during indexing.
    pub path_to_unordered_id: PathToUnorderedId,
}

impl IndexingContext {
    /// Creates a context without terms or paths.
    pub fn new(alloc: Global) -> IndexingContext
        ensures terms { result.term_index ≡ [] }
        ensures paths { result.path_to_unordered_id ≡ [] }
    {
        IndexingContext {
            term_index: TermRecorders::new(alloc),
            path_to_unordered_id: PathToUnorderedId::new(alloc),
        }
    }
}
