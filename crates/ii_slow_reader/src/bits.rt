/// Returns bit `at`, counted from the lowest bit of each byte.
pub(crate) fn bit(bytes: &[u8], at: u64) -> Option<u64> {
    let mut byte = *bytes.get((at / 8) as usize)?;
    for _ in 0..at % 8 {
        byte /= 2;
    }
    Some(u64::from(byte % 2))
}

/// Reads a number of `width` bits at bit `at`, lowest bit first.
pub(crate) fn number(bytes: &[u8], at: u64, width: u64) -> Option<u64> {
    let mut value = 0u64;
    let mut power = 1u64;
    for i in 0..width {
        let found = bit(bytes, at.saturating_add(i))?;
        value = value.saturating_add(found.saturating_mul(power));
        power = power.saturating_mul(2);
    }
    Some(value)
}

/// Reads an entry of `width` bits of the packed block at byte `start`.
pub(crate) fn entry(bytes: &[u8], start: u64, width: u64, entry: u64) -> Option<u64> {
    let at = start
        .saturating_mul(8)
        .saturating_add(entry.saturating_mul(width));
    number(bytes, at, width)
}

/// Reads a number of `size` bytes at byte `start`, lowest byte first.
pub(crate) fn fixed(bytes: &[u8], start: u64, size: u64) -> Option<u64> {
    number(bytes, start.saturating_mul(8), size.saturating_mul(8))
}
