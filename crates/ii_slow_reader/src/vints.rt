use crate::bits::fixed;

/// Reads a vint of at most `most` bytes and at most `greatest`. Returns it and the offset after it.
pub(crate) fn vint(bytes: &[u8], start: u64, most: u64, greatest: u64) -> Option<(u64, u64)> {
    let mut value = 0u64;
    let mut power = Some(1u64);
    for i in 0..most {
        let byte = fixed(bytes, start.saturating_add(i), 1)?;
        let group = byte % 128;
        if group > 0 {
            value = value.checked_add(group.checked_mul(power?)?)?;
        }
        if value > greatest {
            return None;
        }
        if byte >= 128 {
            return Some((value, start.saturating_add(i).saturating_add(1)));
        }
        power = match power {
            Some(factor) => factor.checked_mul(128),
            None => None,
        };
    }
    None
}

/// Reads a vint of 32 bits.
pub(crate) fn vint_32(bytes: &[u8], start: u64) -> Option<(u64, u64)> {
    vint(bytes, start, 5, u64::from(u32::MAX))
}

/// Reads a vint of 64 bits.
pub(crate) fn vint_64(bytes: &[u8], start: u64) -> Option<(u64, u64)> {
    vint(bytes, start, 10, u64::MAX)
}
