ghost use Rattle.std.specs.Prelude.{◌≡◌, ◌+◌, ◌<◌, ◌≤◌, ◌^◌, ◌++◌, false, [], length, map, IfOk, IfErr, OnOk, OnErr};
ghost use Rattle.std.specs.List.{All};
ghost use Rattle.ii_io.specs.Faults.{OnlyMemory};
ghost use Rattle.ii_docset.specs.Cursor.{IsCurrent, total_freq, doc_at, positions_at, term_freq_at};
ghost use Rattle.ii_reader.specs.LoadedPostings.{IsEndOf, IsLoadFault, loaded, num_positions};

use ii_base::{Fault, LimitName};
use ii_docset::{DocId, DocSet, Postings, TERMINATED, add_offset, copy_positions};
use std::alloc::Global;
use std::marker::Model;

/// A cursor over postings in memory, for terms in few documents: the documents, and their positions one after
/// the other.
pub struct LoadedPostings {
    doc_ids: Vec<DocId>,
    position_offsets: Vec<u32>,
    positions: Vec<u32>,
    cursor: usize,
}

// A drop has to be a call.
impl Drop for LoadedPostings {
    fn drop(self) {
        let LoadedPostings {
            doc_ids: _,
            position_offsets: _,
            positions: _,
            cursor: _,
        } = self;
    }
}

impl Model for LoadedPostings {
    ghost use Rattle.std.specs.Prelude.{drop, length};
    ghost use Rattle.ii_reader.specs.LoadedPostings.{LoadedPostingsState, IsHeld, entries_held};

    ghost Value = { LoadedPostingsState };

    ghost view = { λ l. record {
      rest = entries_held (drop l.cursor l.doc_ids.items) (drop l.cursor l.position_offsets.items) l.positions.items;
      num_docs = length l.doc_ids.items;
    } };

    ghost invariant = { λ l. IsHeld l.doc_ids.items l.position_offsets.items l.positions.items l.cursor };
}

impl LoadedPostings {
    /// Loads the remaining documents of a source, which is then at its end. The term frequency of each
    /// document is its number of positions, so 0 if the source has none.
    ///
    /// Returns `Limit(LoadedPositions)` exactly if the documents have more than `u32::MAX` positions, or
    /// `OutOfMemory` if an allocation fails. Part of the source may then have been read.
    pub fn load<P: Postings>(alloc: Global, source: &mut P) -> Result<LoadedPostings, Fault>
        ensures ok { IfOk result (λ postings. postings.rest ≡ loaded (P.rest source.old)) }
        ensures num_docs { IfOk result (λ postings. postings.num_docs ≡ length (P.rest source.old)) }
        ensures few { OnOk result (num_positions (P.rest source.old) < 2 ^ 32) }

        // The remaining documents of the source, and the cost.
        ensures rest { OnOk result (P.rest source.new ≡ []) }
        ensures on_its_way { IsEndOf (P.rest source.old) (P.rest source.new) }
        ensures kind { P.always_one source.new ≡ P.always_one source.old }
        ensures work { P.spent (length (P.rest source.old)) (total_freq (P.always_one source.old) (P.rest source.old)) source.old source.new }
        ensures err { IfErr result (λ fault. IsLoadFault (num_positions (P.rest source.old)) fault) }
    {
        let mut doc_ids = Vec::new(alloc);
        let mut position_offsets = Vec::new(alloc);
        let mut positions = Vec::new(alloc);
        position_offsets.push(0)?;
        let mut doc = source.doc();
        while doc < TERMINATED {
            doc_ids.push(doc)?;
            let end = load_positions(source, &mut positions)?;
            position_offsets.push(end)?;
            doc = source.advance();
        }
        Ok(LoadedPostings {
            doc_ids,
            position_offsets,
            positions,
            cursor: 0,
        })
    }

    // Returns the positions of the current document.
    fn current_positions(&self) -> &[u32]
        requires { IsCurrent self.now.rest }
        ensures positions { result.now ≡ positions_at self.now.rest }
        ensures len { length result.now ≡ term_freq_at false self.now.rest }
        ensures few { length result.now < 2 ^ 32 }
    {
        let start = self.position_offsets[self.cursor] as usize;
        let end = self.position_offsets[self.cursor + 1] as usize;
        &self.positions[start..end]
    }
}

// Appends the positions of the current document to the loaded ones, and returns how many there are then.
fn load_positions<P: Postings>(source: &mut P, positions: &mut Vec<u32>) -> Result<u32, Fault>
    requires { IsCurrent (P.rest source.old) }
    ensures ok { OnOk result (positions.new.items ≡ positions.old.items ++ positions_at (P.rest source.old)) }
    ensures end { IfOk result (λ end. end ≡ length positions.new.items) }
    ensures few { OnOk result (length positions.new.items < 2 ^ 32) }

    // The remaining documents of the source, and the cost.
    ensures rest { P.rest source.new ≡ P.rest source.old }
    ensures kind { P.always_one source.new ≡ P.always_one source.old }
    ensures work { P.spent 1 (term_freq_at (P.always_one source.old) (P.rest source.old)) source.old source.new }
    // The error.
    ensures err { IfErr result (λ fault. IsLoadFault (length positions.old.items + length (positions_at (P.rest source.old))) fault) }
{
    // The current document shows that its positions have 32 bits.
    let _doc = source.doc();
    source.append_positions_with_offset(0, positions)?;
    match u32::try_from(positions.len()) {
        Ok(end) => Ok(end),
        Err(_) => Err(Fault::Limit(LimitName::LoadedPositions)),
    }
}

impl DocSet for LoadedPostings {
    ghost use Rattle.std.specs.Prelude.{◌≡◌};
    ghost use Rattle.std.proofs.Common.{refl, ◌∙◌};

    ghost rest = { λ l. l.rest };

    ghost hints = { λ l n. n ≡ l.num_docs };

    ghost went = { λ a b. b.num_docs ≡ a.num_docs };

    ghost went_nowhere = { λ l. refl };

    ghost went_on = { λ a b c first second. second ∙ first };

    fn advance(&mut self) -> DocId {
        if self.cursor >= self.doc_ids.len() {
            return TERMINATED;
        }
        self.cursor += 1;
        self.doc()
    }

    fn doc(&self) -> DocId {
        if self.cursor < self.doc_ids.len() {
            self.doc_ids[self.cursor]
        } else {
            TERMINATED
        }
    }

    fn size_hint(&self) -> u32
        ensures hint { result ≡ self.now.num_docs }
        ensures enough { length self.now.rest ≤ result }
    {
        self.doc_ids.len() as u32
    }
}

impl Postings for LoadedPostings {
    ghost use Rattle.std.specs.Prelude.{◌≡◌};
    ghost use Rattle.std.proofs.Common.{◌∙◌};

    ghost spent = { λ asked counts a b. b.num_docs ≡ a.num_docs };

    ghost spent_moving = { λ a b moved. moved };

    ghost spent_more = { λ k m l n a b few low did. did };

    ghost spent_on = { λ k m l n a b c first second. second ∙ first };

    fn term_freq(&self) -> u32
        requires { IsCurrent self.now.rest }
        ensures freq { result ≡ term_freq_at false self.now.rest }
        ensures positions { length (positions_at self.now.rest) ≤ result }
    {
        self.current_positions().len() as u32
    }

    fn append_positions_with_offset(
        &mut self,
        offset: u32,
        output: &mut Vec<u32>,
    ) -> Result<(), Fault> {
        append_with_offset(self.current_positions(), offset, output)
    }

    fn read_positions(&mut self, from: usize, _before: u32, output: &mut [u32]) -> usize {
        copy_positions(self.current_positions(), from, output)
    }
}

// Appends positions, each plus an offset.
fn append_with_offset(positions: &[u32], offset: u32, output: &mut Vec<u32>) -> Result<(), Fault>
    requires { All (λ p. p + offset < 2 ^ 32) positions.now }
    ensures ok { OnOk result (output.new.items ≡ output.old.items ++ map (λ p. p + offset) positions.now) }
    ensures err { OnErr result (output.new.items ≡ output.old.items) }
    ensures only { OnlyMemory result }
{
    let len = output.len();
    output.extend_from_slice(positions)?;
    let (_, added) = output.as_mut_slice().split_at_mut(len);
    add_offset(added, offset);
    Ok(())
}
