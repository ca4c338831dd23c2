ghost use Rattle.std.specs.Prelude.{◌≡◌, ◌+◌, ◌^◌, ◌<◌, ◌≤◌, ℕ, if◌then◌else◌, length, take, drop, Some, None, IfSome, IsTrue};
ghost use Rattle.std.specs.List.{sum};
ghost use Rattle.ii_codes.specs.Sums.{fit_u32, running_sums};
ghost use Rattle.ii_check.specs.CheckedPositions.{SpendsTo};
ghost use Rattle.ii_check.specs.Positions.{suffice};

use ii_codes::COMPRESSION_BLOCK_SIZE;
use ii_layout::{PositionReader, sum_of};

/// Returns where the positions of documents with these term frequencies end, which begin at `start`. Returns
/// `None` if there are too few or one exceeds `u32::MAX`.
pub(crate) fn end_of_positions(
    reader: &mut PositionReader,
    start: u64,
    freqs: &[u32],
) -> Option<u64>
    requires inside { start ≤ length reader.old.deltas }
    requires low { start + sum freqs.now < 2 ^ 64 }
    ensures end { result ≡ (if suffice freqs.now (drop start reader.old.deltas) then Some (start + sum freqs.now) else None) }
    ensures deltas { reader.new.deltas ≡ reader.old.deltas }
    ensures decodes { IfSome result (λ end. (before : ℕ) → SpendsTo before start reader.old → SpendsTo before end reader.new) }
{
    let len = reader.len();
    let mut end = start;
    for freq in freqs {
        if u128::from(*freq) > len - u128::from(end) {
            return None;
        }
        if !position_fits(reader, end, *freq) {
            return None;
        }
        end += u64::from(*freq);
    }
    Some(end)
}

// Returns whether the last position of a document fits in 32 bits. Its `freq` deltas begin at `start`.
fn position_fits(reader: &mut PositionReader, start: u64, freq: u32) -> bool
    requires inside { start + freq ≤ length reader.old.deltas }
    requires low { start + freq < 2 ^ 64 }
    ensures fits { result ≡ fit_u32 (running_sums 0 (take freq (drop start reader.old.deltas))) }
    ensures deltas { reader.new.deltas ≡ reader.old.deltas }
    ensures decodes { IsTrue result → (before : ℕ) → SpendsTo before start reader.old → SpendsTo before (start + freq) reader.new }
{
    let mut buffer = [0; COMPRESSION_BLOCK_SIZE];
    let mut position = 0;
    let mut done = 0;
    while done < freq {
        let count = (freq - done).min(COMPRESSION_BLOCK_SIZE as u32);
        let deltas = &mut buffer[..count as usize];
        reader.read(start + u64::from(done), deltas);
        position += sum_of(deltas);
        if position > u64::from(u32::MAX) {
            return false;
        }
        done += count;
    }
    true
}
