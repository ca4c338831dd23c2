mod blocks;
pub mod reader;
pub mod serializer;

ghost use Rattle.std.specs.Prelude.{◌≡◌, ◌+◌, ◌-◌, ◌≤◌, ◌++◌, length, take, drop, min};

pub use reader::PositionReader;
pub use serializer::{PositionSerializer, PositionWriter};

// Copies values from `start` on into the output, after the first `done` values. Returns how many it copied:
// as many as exist and fit.
fn copy_into(values: &[u32], start: usize, output: &mut [u32], done: usize) -> usize
    requires start { start ≤ length values.now }
    requires done { done ≤ length output.old }
    ensures count { result ≡ min (length values.now - start) (length output.old - done) }
    ensures copied { take (done + result) output.new ≡ take done output.old ++ take result (drop start values.now) }
{
    let (_, rest) = output.split_at_mut(done);
    let count = rest.len().min(values.len() - start);
    let (front, _) = rest.split_at_mut(count);
    front.copy_from_slice(&values[start..start + count]);
    count
}
