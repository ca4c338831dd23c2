use crate::docset::{COLLECT_BLOCK_BUFFER_LEN, DocSet, SeekDangerResult};
use crate::postings::Postings;
use ii_base::{AliveBitSet, DocId, Fault};

/// A borrowed cursor. Calls move the cursor that it borrows.
#[derive(Drop)]
pub struct Lent<'a, T> {
    /// The borrowed cursor.
    pub inner: &'a mut T,
}

impl<T: DocSet> DocSet for Lent<'_, T> {
    ghost use Rattle.std.specs.Prelude.{◌≡◌};
    ghost use Rattle.std.proofs.Common.{refl, ◌∙◌};

    ghost rest = { λ s. T.rest s.inner.now };

    ghost always_one = { λ s. T.always_one s.inner.now };

    ghost hints = { λ s n. T.hints s.inner.now n };

    // Both states borrow the same cursor.
    ghost went = { λ a b. (b.inner.ghost_name ≡ a.inner.ghost_name) × T.went a.inner.now b.inner.now };

    ghost went_nowhere = { λ s. (refl, T.went_nowhere s.inner.now) };

    ghost went_on = { λ a b c first second. (second.0 ∙ first.0, T.went_on a.inner.now b.inner.now c.inner.now first.1 second.1) };

    fn advance(&mut self) -> DocId {
        self.inner.advance()
    }

    fn doc(&self) -> DocId {
        self.inner.doc()
    }

    fn size_hint(&self) -> u32 {
        self.inner.size_hint()
    }

    fn seek(&mut self, target: DocId) -> DocId {
        self.inner.seek(target)
    }

    fn seek_danger(&mut self, target: DocId) -> SeekDangerResult {
        self.inner.seek_danger(target)
    }

    fn fill_buffer(&mut self, buffer: &mut [DocId; COLLECT_BLOCK_BUFFER_LEN]) -> usize {
        self.inner.fill_buffer(buffer)
    }

    fn cost(&self) -> u64 {
        self.inner.cost()
    }

    fn count(&mut self, alive_bitset: &AliveBitSet) -> u32 {
        self.inner.count(alive_bitset)
    }

    fn count_including_deleted(&mut self) -> u32 {
        self.inner.count_including_deleted()
    }
}

impl<T: Postings> Postings for Lent<'_, T> {
    ghost use Rattle.std.specs.Prelude.{◌≡◌};
    ghost use Rattle.std.proofs.Common.{◌∙◌};

    ghost spent = { λ k m a b. (b.inner.ghost_name ≡ a.inner.ghost_name) × T.spent k m a.inner.now b.inner.now };

    ghost spent_moving = { λ a b moved. (moved.0, T.spent_moving a.inner.now b.inner.now moved.1) };

    ghost spent_more = { λ k m l n a b few low did. (did.0, T.spent_more k m l n a.inner.now b.inner.now few low did.1) };

    ghost spent_on = { λ k m l n a b c first second. (second.0 ∙ first.0, T.spent_on k m l n a.inner.now b.inner.now c.inner.now first.1 second.1) };

    fn term_freq(&self) -> u32 {
        self.inner.term_freq()
    }

    fn append_positions_with_offset(
        &mut self,
        offset: u32,
        output: &mut Vec<u32>,
    ) -> Result<(), Fault> {
        self.inner.append_positions_with_offset(offset, output)
    }

    fn positions_with_offset(&mut self, offset: u32, output: &mut Vec<u32>) -> Result<(), Fault> {
        self.inner.positions_with_offset(offset, output)
    }

    fn positions(&mut self, output: &mut Vec<u32>) -> Result<(), Fault> {
        self.inner.positions(output)
    }

    fn read_positions(&mut self, from: usize, before: u32, output: &mut [u32]) -> usize {
        self.inner.read_positions(from, before, output)
    }
}
