// The positions of a term.
ghost use Rattle.std.specs.Prelude.{◌≡◌, ◌+◌, ◌*◌, ◌/◌, ◌<◌, ◌≤◌, drop, length, take, None, Some, IfErr, IfOk, OnErr};
ghost use Rattle.ii_layout.specs.Positions.{position_deltas};

use bytes::Bytes;
use ii_layout::PositionReader;
use ii_ram::{LayoutFault, Part};

/// Bytes open exactly if they hold deltas of positions. Opening decodes at most one block, the last
/// one, which is kept.
pub fn any_bytes_open_as_their_deltas(bytes: Bytes) -> Result<PositionReader, LayoutFault>
    ensures deltas { IfOk result (λ reader. position_deltas bytes ≡ Some reader.deltas) }
    ensures block { IfOk result (λ reader. reader.block ≡ length reader.deltas / 128) }
    ensures refused { OnErr result (position_deltas bytes ≡ None) }
    ensures fault { IfErr result (λ fault. fault ≡ LayoutFault.Damaged Part.Positions) }
    ensures decodes { IfOk result (λ reader. reader.decodes ≤ 1) }
{
    PositionReader::open(bytes)
}

/// Reading m deltas from any offset decodes at most m / 128 + 2 blocks.
pub fn reading_decodes_few_blocks(reader: &mut PositionReader, offset: u64, output: &mut [u32])
    requires { offset + length output.old ≤ length reader.old.deltas }
    ensures read { output.new ≡ take (length output.old) (drop offset reader.old.deltas) }
    ensures deltas { reader.new.deltas ≡ reader.old.deltas }
    ensures decodes { reader.new.decodes ≤ reader.old.decodes + length output.old / 128 + 2 }
{
    reader.read(offset, output);
}

/// Reading within the kept block decodes nothing.
pub fn reading_in_the_kept_block_decodes_nothing(
    reader: &mut PositionReader,
    offset: u64,
    output: &mut [u32],
)
    requires there { offset + length output.old ≤ length reader.old.deltas }
    requires from { 128 * reader.old.block ≤ offset }
    requires to { offset + length output.old ≤ 128 * reader.old.block + 128 }
    ensures read { output.new ≡ take (length output.old) (drop offset reader.old.deltas) }
    ensures decodes { reader.new.decodes ≡ reader.old.decodes }
{
    reader.read(offset, output);
}

/// After a read, the block in which it ended is kept.
pub fn the_last_block_is_kept(reader: &mut PositionReader, offset: u64, output: &mut [u32])
    requires there { offset + length output.old ≤ length reader.old.deltas }
    requires some { 0 < length output.old }
    ensures from { 128 * reader.new.block < offset + length output.old }
    ensures to { offset + length output.old ≤ 128 * reader.new.block + 128 }
{
    reader.read(offset, output);
}
