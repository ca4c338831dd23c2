ghost use Rattle.std.specs.Prelude.{◌≡◌};
ghost use Rattle.std.specs.Borrow.{ftrue};
ghost use Rattle.ii_layout.specs.PostingsSerializer.{CountedDocs, no_docs, joined};

use super::serializer::Block;
use std::marker::Model;

/// Lists documents with their term frequencies, for contracts only: it takes no bytes and no code can read
/// it.
#[derive(Drop)]
pub(crate) struct DocList {
    pub ghost term: { CountedDocs },
}

impl Model for DocList {
    ghost also_owns = { λ _. ftrue };
}

impl DocList {
    /// Creates an empty list.
    pub(crate) fn new() -> DocList
        ensures { result.term ≡ no_docs }
    {
        DocList {}
    }

    /// Returns the list with the documents of a block appended.
    pub(crate) fn and(&self, _block: &Block) -> DocList
        ensures { result.term ≡ joined self.now.term _block.now }
    {
        DocList {}
    }
}
