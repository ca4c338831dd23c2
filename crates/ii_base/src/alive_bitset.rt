ghost use Rattle.std.specs.Prelude.{◌≡◌, ◌<◌, true, false, length, replicate, slice_index_or, IfOk};
ghost use Rattle.std.specs.List.{All};
ghost use Rattle.ii_io.specs.Faults.{OnlyMemory};
ghost use Rattle.ii_base.specs.AliveBitSet.{alive_but};

use ii_io::Fault;
use std::alloc::Global;
use std::marker::Model;

/// The set of alive documents of an index, one byte per document. Its model is a flag for each document.
#[derive(Drop)]
pub struct AliveBitSet {
    flags: Vec<bool>,
}

impl Model for AliveBitSet {
    ghost use Rattle.std.specs.Prelude.{Bool, List};

    ghost Value = { List Bool };

    ghost view = { λ s. s.flags.items };
}

impl AliveBitSet {
    /// Creates a set in which all documents below `num_docs` are alive. Returns `OutOfMemory` if allocation
    /// fails.
    pub fn full(alloc: Global, num_docs: u32) -> Result<AliveBitSet, Fault>
        ensures ok { IfOk result (λ alive. alive ≡ replicate num_docs true) }
        ensures only { OnlyMemory result }
    {
        let flags = vec![in alloc; true; num_docs as usize]?;
        Ok(AliveBitSet { flags })
    }

    /// Creates a set in which all documents below `num_docs` are alive except `docs`, which may be in any
    /// order and must each be less than `num_docs`. Returns `OutOfMemory` if allocation fails.
    pub fn from_deleted_docs(
        alloc: Global,
        docs: &[u32],
        num_docs: u32,
    ) -> Result<AliveBitSet, Fault>
        requires { All (λ doc. doc < num_docs) docs.now }
        ensures ok { IfOk result (λ alive. alive ≡ alive_but docs.now num_docs) }
        ensures only { OnlyMemory result }
    {
        let mut flags = vec![in alloc; true; num_docs as usize]?;
        for doc in docs {
            flags[*doc as usize] = false;
        }
        Ok(AliveBitSet { flags })
    }

    /// Returns whether a document is alive. `doc` must be less than the `num_docs` of the set.
    pub fn is_alive(&self, doc: u32) -> bool
        requires { doc < length self.now }
        ensures { result ≡ slice_index_or self.now doc false }
    {
        self.flags[doc as usize]
    }
}
