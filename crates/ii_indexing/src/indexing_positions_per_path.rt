ghost use Rattle.std.specs.Prelude.{◌≡◌, ◌==◌, [], ℕ, if◌then◌else◌, OnOk};
ghost use Rattle.ii_io.specs.Faults.{OnlyMemory};
ghost use Rattle.ii_indexing.specs.OpenPaths.{position_by};

use ii_base::Fault;
use ii_postings_writer::IndexingPosition;
use indexmap::IndexMap;
use std::alloc::Global;
use std::marker::Model;

/// The state of a document's texts at each path of a JSON field, by the path's unordered id: the
/// number of tokens, and where the next text starts.
#[derive(Drop)]
pub struct IndexingPositionsPerPath {
    positions: IndexMap<u32, IndexingPosition>,
}

impl Model for IndexingPositionsPerPath {
    ghost use Rattle.ii_indexing.specs.OpenPaths.{PathPositions};

    ghost Value = { PathPositions };

    ghost view = { λ p. p.positions.entries };
}

impl IndexingPositionsPerPath {
    /// Creates a state without texts.
    pub fn new(alloc: Global) -> IndexingPositionsPerPath
        ensures { result ≡ [] }
    {
        IndexingPositionsPerPath {
            positions: IndexMap::new(alloc),
        }
    }

    /// Removes all texts, and keeps the memory.
    pub fn clear(&mut self)
        ensures { self.new ≡ [] }
    {
        self.positions.clear();
    }

    // Returns the state of the texts at the path with this id.
    pub(crate) fn position(&self, path_id: u32) -> IndexingPosition
        ensures { result ≡ position_by path_id self.now }
    {
        match self.positions.get(&path_id) {
            Some(position) => IndexingPosition {
                num_tokens: position.num_tokens,
                end_position: position.end_position,
            },
            None => IndexingPosition {
                num_tokens: 0,
                end_position: 0,
            },
        }
    }

    // Replaces the state of the texts at the path with this id.
    pub(crate) fn put(&mut self, path_id: u32, position: IndexingPosition) -> Result<(), Fault>
        ensures ok { OnOk result ((other : ℕ) → position_by other self.new ≡ (if path_id == other then position else position_by other self.old)) }
        ensures only { OnlyMemory result }
    {
        self.positions.insert(path_id, position)?;
        Ok(())
    }
}
