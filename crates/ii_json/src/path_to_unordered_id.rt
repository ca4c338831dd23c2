ghost use Rattle.std.specs.Prelude.{length, Contains, ◌≡◌, ◌⊎◌, ◌≤◌, ◌^◌, [], IsOk, IsTrue, IfOk, MatchResult, None, false, OnErr, OnOk, Some, slice_index_or};
ghost use Rattle.std.specs.List.{range_with_len};
ghost use Rattle.std.specs.List.Sorted.{IsPermutation};
ghost use Rattle.ii_io.specs.Faults.{OnlyMemory};
ghost use Rattle.ii_json.specs.PathRank.{AreAscendingPaths, StandAtRanks, is_smaller, path_rank, path_ranks};
ghost use Rattle.ii_json.specs.Paths.{AreDistinct, is_known, path_fault, path_id, texts_of, with_path};

use ii_base::{Fault, LimitName};
use indexmap::IndexSet;
use std::alloc::Global;
use std::marker::Model;

/// The rank of a JSON path among the paths in order. Its model is this number.
#[derive(Clone, Copy, Debug, Default, PartialEq, Eq, PartialOrd, Ord, Hash)]
pub struct OrderedPathId(u32);

impl Model for OrderedPathId {
    ghost use Rattle.std.specs.Prelude.{ℕ};

    ghost Value = { ℕ };

    ghost view = { λ id. id.0 };

    ghost inverse = { λ id. record { 0 = id } };
}

impl OrderedPathId {
    /// Creates the ordered id with this number.
    pub fn from_ordered_id(id: u32) -> OrderedPathId
        ensures { result ≡ id }
    {
        OrderedPathId(id)
    }

    /// Returns the number.
    pub fn path_id(self) -> u32
        ensures { result ≡ self }
    {
        self.0
    }
}

impl From<u32> for OrderedPathId {
    ghost use Rattle.std.specs.Prelude.{◌≡◌};

    ghost from_gives = { λ id path. path ≡ id };

    fn from(id: u32) -> OrderedPathId {
        OrderedPathId::from_ordered_id(id)
    }
}

/// The distinct paths of an index, in order of their first use. The index of a path in this order is its
/// unordered id.
#[derive(Drop)]
pub struct PathToUnorderedId {
    paths: IndexSet<String>,
    alloc: Global,
}

impl Model for PathToUnorderedId {
    ghost use Rattle.std.specs.Prelude.{ℕ, List, ◌≤◌, ◌^◌, length, map, string_bytes};
    ghost use Rattle.ii_json.specs.Paths.{AreDistinct};

    ghost Value = { List (List ℕ) };

    ghost view = { λ p. map string_bytes p.paths.keys };

    ghost invariant = { λ p. (length p.paths.keys ≤ 2 ^ 32) × AreDistinct (map string_bytes p.paths.keys) };
}

impl PathToUnorderedId {
    /// Creates an empty set of paths.
    pub fn new(alloc: Global) -> PathToUnorderedId
        ensures { result ≡ [] }
    {
        PathToUnorderedId {
            paths: IndexSet::new(alloc),
            alloc,
        }
    }

    /// Returns the unordered id of a path. A new path is added and gets the next id.
    ///
    /// Returns `Limit(Paths)` if that id would exceed `u32::MAX`, and `OutOfMemory` if allocation fails.
    /// Either leaves the set as it is.
    pub fn get_or_allocate_unordered_id(&mut self, path: &str) -> Result<u32, Fault>
        ensures ok { IfOk result (λ id. id ≡ path_id self.old path.now) }
        ensures paths { OnOk result (self.new ≡ with_path self.old path.now) }
        ensures err { OnErr result (self.new ≡ self.old) }
        ensures refused { MatchResult result (λ _. path_fault self.old path.now ≡ None) (λ e. (e ≡ Fault.OutOfMemory) ⊎ (path_fault self.old path.now ≡ Some e)) }
        ensures known { IsTrue (is_known self.old path.now) → IsOk result }
        ensures distinct { AreDistinct self.new }
    {
        if let Some(id) = self.paths.get_index_of(path) {
            return Ok(id as u32);
        }
        self.insert_new_path(path)
    }

    // Adds a path that isn't known, and returns its id.
    #[cold]
    fn insert_new_path(&mut self, path: &str) -> Result<u32, Fault>
        requires unknown { is_known self.old path.now ≡ false }
        ensures ok { IfOk result (λ id. id ≡ path_id self.old path.now) }
        ensures paths { OnOk result (self.new ≡ with_path self.old path.now) }
        ensures err { OnErr result (self.new ≡ self.old) }
        ensures refused { MatchResult result (λ _. path_fault self.old path.now ≡ None) (λ e. (e ≡ Fault.OutOfMemory) ⊎ (path_fault self.old path.now ≡ Some e)) }
        ensures distinct { AreDistinct self.new }
    {
        let next_id = self.paths.len();
        if next_id > u32::MAX as usize {
            return Err(Fault::Limit(LimitName::Paths));
        }
        let new_path = String::from_str(self.alloc, path)?;
        self.paths.insert(new_path)?;
        Ok(next_id as u32)
    }

    /// Returns the path with an unordered id, or the empty path if there is none.
    pub fn path(&self, id: u32) -> &str
        ensures { result.now ≡ slice_index_or self.now id [] }
    {
        match self.paths.get_index(id as usize) {
            Some(path) => path.as_str(),
            None => "",
        }
    }

    /// Returns the ordered id of each known path, in the order of the unordered ids. An ordered id is the
    /// number of known paths whose bytes are less. Returns `OutOfMemory` if allocation fails.
    pub fn unordered_id_to_ordered_id(&self, alloc: Global) -> Result<Vec<OrderedPathId>, Fault>
        ensures ranks { IfOk result (λ ids. ids.items ≡ path_ranks self.now) }
        ensures permutation { IfOk result (λ ids. IsPermutation (range_with_len 0 (length self.now)) ids.items) }
        ensures distinct { AreDistinct self.now }
        ensures few { length self.now ≤ 2 ^ 32 }
        ensures only { OnlyMemory result }
    {
        let sorted = self.ordered_id_to_path(alloc)?;
        let mut ids = Vec::new(alloc);
        for path in self.paths.as_slice() {
            ids.push(ordered_id_in(&sorted, path.as_str()))?;
        }
        Ok(ids)
    }

    /// Returns the known paths in the order of their bytes, indexed by ordered id. Returns `OutOfMemory` if
    /// allocation fails.
    pub fn ordered_id_to_path(&self, alloc: Global) -> Result<Vec<&str>, Fault>
        ensures ascending { IfOk result (λ paths. AreAscendingPaths (texts_of paths.items)) }
        ensures permutation { IfOk result (λ paths. IsPermutation self.entry.now (texts_of paths.items)) }
        ensures places { IfOk result (λ paths. StandAtRanks self.entry.now (texts_of paths.items)) }
        ensures distinct { AreDistinct self.entry.now }
        ensures few { length self.entry.now ≤ 2 ^ 32 }
        ensures only { OnlyMemory result }
    {
        let mut paths = self.known_paths(alloc)?;
        paths.sort_unstable();
        Ok(paths)
    }

    // Returns the known paths in the order of their unordered ids.
    fn known_paths(&self, alloc: Global) -> Result<Vec<&str>, Fault>
        ensures ok { IfOk result (λ paths. texts_of paths.items ≡ self.entry.now) }
        ensures distinct { AreDistinct self.entry.now }
        ensures few { length self.entry.now ≤ 2 ^ 32 }
        ensures only { OnlyMemory result }
    {
        let mut paths = Vec::new(alloc);
        for path in self.paths.as_slice() {
            paths.push(path.as_str())?;
        }
        Ok(paths)
    }
}

// Returns the ordered id of a path that belongs to these ascending paths.
fn ordered_id_in(sorted: &[&str], path: &str) -> OrderedPathId
    requires ascending { AreAscendingPaths (texts_of sorted.now) }
    requires known { Contains (texts_of sorted.now) path.now }
    requires few { length sorted.now ≤ 2 ^ 32 }
    ensures { result ≡ path_rank (texts_of sorted.now) path.now }
{
    let place = sorted.partition_point(
        |other: &&str| -> bool
            ensures { result ≡ is_smaller other.now.now path.entry.now }
        { *other < path },
    );
    OrderedPathId::from_ordered_id(place as u32)
}
