use crate::docset::{COLLECT_BLOCK_BUFFER_LEN, DocSet, SeekDangerResult};
use crate::postings::Postings;
use ii_base::{AliveBitSet, DocId, Fault};

/// A boxed cursor behaves as the cursor in the box.
impl<T: DocSet> DocSet for Box<T> {
    ghost rest = { λ s. T.rest s.value };

    ghost always_one = { λ s. T.always_one s.value };

    ghost hints = { λ s n. T.hints s.value n };

    ghost went = { λ a b. T.went a.value b.value };

    ghost went_nowhere = { λ s. T.went_nowhere s.value };

    ghost went_on = { λ a b c first second. T.went_on a.value b.value c.value first second };

    fn advance(&mut self) -> DocId {
        (**self).advance()
    }

    fn doc(&self) -> DocId {
        (**self).doc()
    }

    fn size_hint(&self) -> u32 {
        (**self).size_hint()
    }

    fn seek(&mut self, target: DocId) -> DocId {
        (**self).seek(target)
    }

    fn seek_danger(&mut self, target: DocId) -> SeekDangerResult {
        (**self).seek_danger(target)
    }

    fn fill_buffer(&mut self, buffer: &mut [DocId; COLLECT_BLOCK_BUFFER_LEN]) -> usize {
        (**self).fill_buffer(buffer)
    }

    fn cost(&self) -> u64 {
        (**self).cost()
    }

    fn count(&mut self, alive_bitset: &AliveBitSet) -> u32 {
        (**self).count(alive_bitset)
    }

    fn count_including_deleted(&mut self) -> u32 {
        (**self).count_including_deleted()
    }
}

impl<T: Postings> Postings for Box<T> {
    ghost spent = { λ k m a b. T.spent k m a.value b.value };

    ghost spent_moving = { λ a b moved. T.spent_moving a.value b.value moved };

    ghost spent_more = { λ k m l n a b few low did. T.spent_more k m l n a.value b.value few low did };

    ghost spent_on = { λ k m l n a b c first second. T.spent_on k m l n a.value b.value c.value first second };

    fn term_freq(&self) -> u32 {
        (**self).term_freq()
    }

    fn append_positions_with_offset(
        &mut self,
        offset: u32,
        output: &mut Vec<u32>,
    ) -> Result<(), Fault> {
        (**self).append_positions_with_offset(offset, output)
    }

    fn positions_with_offset(&mut self, offset: u32, output: &mut Vec<u32>) -> Result<(), Fault> {
        (**self).positions_with_offset(offset, output)
    }

    fn positions(&mut self, output: &mut Vec<u32>) -> Result<(), Fault> {
        (**self).positions(output)
    }

    fn read_positions(&mut self, from: usize, before: u32, output: &mut [u32]) -> usize {
        (**self).read_positions(from, before, output)
    }
}

/// A boxed cursor behaves as the cursor in the box, without bounds on what it decodes.
impl DocSet for Box<dyn DocSet> {
    ghost rest = { λ s. (DocSet-box s).rest s.value };

    ghost always_one = { λ s. (DocSet-box s).always_one s.value };

    ghost hints = { λ s n. (DocSet-box s).hints s.value n };

    ghost went_nowhere = { λ s. tt };

    ghost went_on = { λ a b c first second. tt };

    fn advance(&mut self) -> DocId {
        (**self).advance()
    }

    fn doc(&self) -> DocId {
        (**self).doc()
    }

    fn size_hint(&self) -> u32 {
        (**self).size_hint()
    }

    fn seek(&mut self, target: DocId) -> DocId {
        (**self).seek(target)
    }

    fn seek_danger(&mut self, target: DocId) -> SeekDangerResult {
        (**self).seek_danger(target)
    }

    fn fill_buffer(&mut self, buffer: &mut [DocId; COLLECT_BLOCK_BUFFER_LEN]) -> usize {
        (**self).fill_buffer(buffer)
    }

    fn cost(&self) -> u64 {
        (**self).cost()
    }

    fn count(&mut self, alive_bitset: &AliveBitSet) -> u32 {
        (**self).count(alive_bitset)
    }

    fn count_including_deleted(&mut self) -> u32 {
        (**self).count_including_deleted()
    }
}

/// A boxed cursor behaves as the cursor in the box, without bounds on what it decodes.
impl DocSet for Box<dyn Postings> {
    ghost rest = { λ s. (Postings-box s).DocSet.rest s.value };

    ghost always_one = { λ s. (Postings-box s).DocSet.always_one s.value };

    ghost hints = { λ s n. (Postings-box s).DocSet.hints s.value n };

    ghost went_nowhere = { λ s. tt };

    ghost went_on = { λ a b c first second. tt };

    fn advance(&mut self) -> DocId {
        (**self).advance()
    }

    fn doc(&self) -> DocId {
        (**self).doc()
    }

    fn size_hint(&self) -> u32 {
        (**self).size_hint()
    }

    fn seek(&mut self, target: DocId) -> DocId {
        (**self).seek(target)
    }

    fn seek_danger(&mut self, target: DocId) -> SeekDangerResult {
        (**self).seek_danger(target)
    }

    fn fill_buffer(&mut self, buffer: &mut [DocId; COLLECT_BLOCK_BUFFER_LEN]) -> usize {
        (**self).fill_buffer(buffer)
    }

    fn cost(&self) -> u64 {
        (**self).cost()
    }

    fn count(&mut self, alive_bitset: &AliveBitSet) -> u32 {
        (**self).count(alive_bitset)
    }

    fn count_including_deleted(&mut self) -> u32 {
        (**self).count_including_deleted()
    }
}

impl Postings for Box<dyn Postings> {
    ghost spent_moving = { λ a b moved. tt };

    ghost spent_more = { λ k m l n a b few low did. tt };

    ghost spent_on = { λ k m l n a b c first second. tt };

    fn term_freq(&self) -> u32 {
        (**self).term_freq()
    }

    fn append_positions_with_offset(
        &mut self,
        offset: u32,
        output: &mut Vec<u32>,
    ) -> Result<(), Fault> {
        (**self).append_positions_with_offset(offset, output)
    }

    fn positions_with_offset(&mut self, offset: u32, output: &mut Vec<u32>) -> Result<(), Fault> {
        (**self).positions_with_offset(offset, output)
    }

    fn positions(&mut self, output: &mut Vec<u32>) -> Result<(), Fault> {
        (**self).positions(output)
    }

    fn read_positions(&mut self, from: usize, before: u32, output: &mut [u32]) -> usize {
        (**self).read_positions(from, before, output)
    }
}
