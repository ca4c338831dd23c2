use ii_codes::branchless_binary_search;

// Returns how many values at the front are below a target, if the search may be called.
fn searched(arr: &[u32; 128], target: u32) -> Option<usize> {
    if !arr.is_sorted() {
        return None;
    }
    if target > arr[127] {
        return None;
    }
    Some(branchless_binary_search(arr, target))
}

#[test]
fn targets_are_found(rt: HostRuntime) {
    let mut even = [0; 128];
    let mut repeats = [7; 128];
    for i in 0..128_usize {
        even[i] = 2 * i as u32;
        repeats[i] = (i / 5) as u32;
    }
    for target in 0..255 {
        assert!(rt;
            searched(&even, target) == Some((target as usize + 1) / 2),
            "{target}"
        );
    }
    repeats[100..].fill(2_147_483_647);
    // each value below 20 occurs five times
    for (target, below) in [
        (0, 0),
        (1, 5),
        (7, 35),
        (19, 95),
        (20, 100),
        (2_147_483_647, 100),
    ] {
        assert!(rt; searched(&repeats, target) == Some(below), "{target}");
    }
}
