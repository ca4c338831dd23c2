ghost use Rattle.std.specs.Prelude.{◌≡◌, ◌≤◌, slice_index};
ghost use Rattle.std.specs.List.Sorted.{IsNonDecreasing};
ghost use Rattle.ii_codes.specs.Search.{count_below};

use super::COMPRESSION_BLOCK_SIZE;

// The number of comparisons for 128 entries.
const COMPARISONS: u32 = 7;

/// Returns how many of the 128 entries of `arr` are less than `target`, always with seven comparisons. The
/// entries must not decrease, and the target must be at most the last one.
pub fn branchless_binary_search(arr: &[u32; COMPRESSION_BLOCK_SIZE], target: u32) -> usize
    requires sorted { IsNonDecreasing arr.now }
    requires last { target ≤ slice_index arr.now 127 }
    ensures { result ≡ count_below target arr.now }
{
    let mut start = 0;
    for step in 0..COMPARISONS {
        let half = (COMPRESSION_BLOCK_SIZE / 2) >> step;
        start += half * usize::from(arr[start + half - 1] < target);
    }
    start
}
