//! The numbers of documents in an index.
ghost use Rattle.std.specs.Prelude.{◌≡◌};

use ii_alive::AliveBits;
use ii_base::DocId;
use ii_scorer::DocNumbers;

/// Counts each document below `num_docs`, and keeps its number.
#[derive(Clone, Copy)]
pub struct AllNumbers {
    pub num_docs: DocId,
}

impl DocNumbers for AllNumbers {
    ghost use Rattle.std.specs.Prelude.{true};

    ghost numbering = { λ s. record { num_docs = s.num_docs; counts = λ _. true; number = λ doc. doc } };

    fn num_docs(&self) -> DocId {
        self.num_docs
    }

    fn number(&self, doc: DocId) -> DocId {
        doc
    }

    fn counts(&self, _doc: DocId) -> bool {
        true
    }
}

/// Numbers the living documents of a segment from `base` on, in their order.
#[derive(Clone, Copy)]
pub struct LivingNumbers<'a> {
    pub base: DocId,
    pub alive: &'a AliveBits,
}

impl<'a> DocNumbers for LivingNumbers<'a> {
    ghost use Rattle.std.specs.Prelude.{◌+◌, length};
    ghost use Rattle.ii_alive.specs.Alive.{rank};
    ghost use Rattle.ii_segments.specs.Segments.{is_living};

    ghost numbering = { λ s. record { num_docs = length s.alive.now; counts = is_living s.alive.now; number = λ doc. s.base + rank s.alive.now doc } };

    fn num_docs(&self) -> DocId {
        self.alive.num_docs()
    }

    fn number(&self, doc: DocId) -> DocId {
        self.base + self.alive.rank(doc)
    }

    fn counts(&self, doc: DocId) -> bool {
        self.alive.is_alive(doc)
    }
}
