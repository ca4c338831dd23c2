ghost use Rattle.std.specs.Prelude.{◌≡◌, ℕ, ◌+◌, ◌-◌, ◌<◌, ◌≤◌, ◌^◌, ◌⊎◌, ◌++◌, ⊤, [], drop, length, map, min, take, IsTrue, OnOk, OnErr};
ghost use Rattle.std.specs.List.{All};
ghost use Rattle.ii_io.specs.Faults.{OnlyMemory};
ghost use Rattle.ii_docset.specs.Cursor.{IsCurrent, position_before, positions_at, term_freq_at};

use crate::docset::DocSet;
use ii_base::Fault;

/// A cursor over documents with term frequencies and positions.
///
/// An implementation needs `term_freq` and `read_positions`; for positions in memory the latter is
/// `copy_positions`. Positions plus an offset must be less than 2^32.
#[tactic(auto, using(crate::proofs::CursorLemmas::positions_fit))]
pub trait Postings: DocSet {
    // A bound on what was decoded between two states, given the number of calls that read positions, and
    // the sum of the term frequencies of their documents. Moves count as zero, and consecutive calls add
    // up, by the laws below.
    ghost spent: { ℕ → ℕ → Self → Self → Type 0 } = { λ _ _ _ _. ⊤ };

    /// Returns the term frequency of the current document, or 1 if frequencies aren't read. If they are
    /// read, there must be a current document.
    ///
    /// The current document has at most this many positions.
    fn term_freq(&self) -> u32
        requires { IsTrue (Self.always_one self.now) ⊎ IsCurrent (Self.rest self.now) }
        ensures freq { result ≡ term_freq_at (Self.always_one self.now) (Self.rest self.now) }
        ensures positions { length (positions_at (Self.rest self.now)) ≤ result };

    /// Appends the positions of the current document to `output`, each plus `offset`. The cursor doesn't
    /// move.
    ///
    /// Returns `OutOfMemory`, and leaves `output` as it is, if `output` or a buffer of the cursor can't
    /// grow. By default, it grows `output` by the term frequency, and calls `read_positions` once.
    fn append_positions_with_offset(
        &mut self,
        offset: u32,
        output: &mut Vec<u32>,
    ) -> Result<(), Fault>
        requires current { IsCurrent (Self.rest self.old) }
        requires fits { All (λ p. p + offset < 2 ^ 32) (positions_at (Self.rest self.old)) }
        ensures ok { OnOk result (output.new.items ≡ output.old.items ++ map (λ p. p + offset) (positions_at (Self.rest self.old))) }
        ensures err { OnErr result (output.new.items ≡ output.old.items) }
        ensures only { OnlyMemory result }
        ensures rest { Self.rest self.new ≡ Self.rest self.old }
        ensures kind { Self.always_one self.new ≡ Self.always_one self.old }
        ensures work { spent 1 (term_freq_at (Self.always_one self.old) (Self.rest self.old)) self.old self.new }
    {
        let start = output.len();
        let most = self.term_freq() as usize;
        output.resize(start + most, 0)?;
        let (_, added) = output.as_mut_slice().split_at_mut(start);
        let count = self.read_positions(0, 0, added);
        output.truncate(start + count);
        let (_, added) = output.as_mut_slice().split_at_mut(start);
        add_offset(added, offset);
        Ok(())
    }

    /// Replaces the contents of `output` with the positions of the current document, each plus `offset`.
    /// The cursor doesn't move.
    ///
    /// Returns `OutOfMemory`, and clears `output`, if `output` or a buffer of the cursor can't grow.
    fn positions_with_offset(&mut self, offset: u32, output: &mut Vec<u32>) -> Result<(), Fault>
        requires current { IsCurrent (Self.rest self.old) }
        requires fits { All (λ p. p + offset < 2 ^ 32) (positions_at (Self.rest self.old)) }
        ensures ok { OnOk result (output.new.items ≡ map (λ p. p + offset) (positions_at (Self.rest self.old))) }
        ensures err { OnErr result (output.new.items ≡ []) }
        ensures only { OnlyMemory result }

        // The state and the cost after the call.
        ensures rest { Self.rest self.new ≡ Self.rest self.old }
        ensures kind { Self.always_one self.new ≡ Self.always_one self.old }
        ensures work { spent 1 (term_freq_at (Self.always_one self.old) (Self.rest self.old)) self.old self.new }
    {
        output.clear();
        self.append_positions_with_offset(offset, output)
    }

    /// Replaces the contents of `output` with the positions of the current document. The cursor doesn't
    /// move.
    ///
    /// Returns `OutOfMemory`, and clears `output`, if `output` or a buffer of the cursor can't grow.
    fn positions(&mut self, output: &mut Vec<u32>) -> Result<(), Fault>
        requires { IsCurrent (Self.rest self.old) }
        ensures ok { OnOk result (output.new.items ≡ positions_at (Self.rest self.old)) }
        ensures err { OnErr result (output.new.items ≡ []) }
        ensures only { OnlyMemory result }
        ensures rest { Self.rest self.new ≡ Self.rest self.old }
        ensures kind { Self.always_one self.new ≡ Self.always_one self.old }
        ensures work { spent 1 (term_freq_at (Self.always_one self.old) (Self.rest self.old)) self.old self.new }
    {
        // The current document implies that its positions have 32 bits.
        let _doc = self.doc();
        self.positions_with_offset(0, output)
    }

    /// Copies positions of the current document, starting at index `from`, to the start of `output`, and
    /// returns how many. It copies as many as remain and fit; the bytes after them are unchanged.
    ///
    /// `before` is the position before index `from`, or 0 for the first. It doesn't allocate, and the
    /// cursor doesn't move.
    fn read_positions(&mut self, from: usize, before: u32, output: &mut [u32]) -> usize
        requires current { IsCurrent (Self.rest self.old) }
        requires before { before ≡ position_before from (positions_at (Self.rest self.old)) }
        ensures count { result ≡ min (length output.old) (length (positions_at (Self.rest self.old)) - from) }
        ensures read { output.new ≡ take (length output.old) (drop from (positions_at (Self.rest self.old))) ++ drop (length (positions_at (Self.rest self.old)) - from) output.old }
        ensures few { length (positions_at (Self.rest self.old)) < 2 ^ 32 }
        ensures rest { Self.rest self.new ≡ Self.rest self.old }
        ensures kind { Self.always_one self.new ≡ Self.always_one self.old }
        ensures work { spent 1 result self.old self.new };

    ghost spent_moving: { (a b : Self) → Self.went a b → spent 0 0 a b };

    ghost spent_more: { (k m l n : ℕ) (a b : Self) → k ≤ l → m ≤ n → spent k m a b → spent l n a b };

    ghost spent_on: { (k m l n : ℕ) (a b c : Self) → spent k m a b → spent l n b c → spent (k + l) (m + n) a c };
}

/// Copies positions from memory as `Postings::read_positions` does: from index `from` to the start of
/// `output`, as many as remain and fit. Returns how many.
pub fn copy_positions(positions: &[u32], from: usize, output: &mut [u32]) -> usize
    ensures count { result ≡ min (length output.old) (length positions.now - from) }
    ensures read { output.new ≡ take (length output.old) (drop from positions.now) ++ drop (length positions.now - from) output.old }
{
    if from >= positions.len() {
        return 0;
    }
    let count = output.len().min(positions.len() - from);
    let (front, _) = output.split_at_mut(count);
    front.copy_from_slice(&positions[from..from + count]);
    count
}

/// Adds `offset` to each value. Each sum must be less than 2^32.
pub fn add_offset(values: &mut [u32], offset: u32)
    requires { All (λ v. v + offset < 2 ^ 32) values.old }
    ensures { values.new ≡ map (λ v. v + offset) values.old }
{
    for i in 0..values.len() {
        values[i] += offset;
    }
}
