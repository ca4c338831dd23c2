use crate::bits::{entry, fixed};
use crate::vints::{vint_32, vint_64};
use std::alloc::AllocError;

/// Reads the deltas, then the positions of documents with these counts. Returns false if the bytes don't hold
/// exactly these.
pub(crate) fn read_positions(
    bytes: &[u8],
    counts: &[u64],
    deltas: &mut Vec<u64>,
    positions: &mut Vec<u64>,
) -> Result<bool, AllocError> {
    if !read_deltas(bytes, deltas)? {
        return Ok(false);
    }
    let mut used = 0usize;
    for count in counts {
        let mut position = 0u64;
        for _ in 0..*count {
            let Some(delta) = deltas.as_slice().get(used) else {
                return Ok(false);
            };
            position = position.saturating_add(*delta);
            if position > u64::from(u32::MAX) {
                return Ok(false);
            }
            positions.push(position)?;
            used = used.saturating_add(1);
        }
    }
    Ok(used == deltas.len())
}

// Reads all deltas. Returns false if they are corrupt.
fn read_deltas(bytes: &[u8], deltas: &mut Vec<u64>) -> Result<bool, AllocError> {
    let Some((blocks, widths)) = vint_64(bytes, 0) else {
        return Ok(false);
    };
    let len = bytes.len() as u64;
    if blocks > len.saturating_sub(widths) {
        return Ok(false);
    }
    let mut at = widths.saturating_add(blocks);
    for block in 0..blocks {
        let Some(width) = fixed(bytes, widths.saturating_add(block), 1) else {
            return Ok(false);
        };
        if width > 32 {
            return Ok(false);
        }
        for k in 0..128 {
            let Some(delta) = entry(bytes, at, width, k) else {
                return Ok(false);
            };
            deltas.push(delta)?;
        }
        at = at.saturating_add(width.saturating_mul(16));
    }
    read_others(bytes, at, deltas)
}

// Reads the deltas after the blocks up to the end of the bytes.
fn read_others(bytes: &[u8], start: u64, deltas: &mut Vec<u64>) -> Result<bool, AllocError> {
    let len = bytes.len() as u64;
    let mut at = start;
    for _ in 0..127 {
        if at == len {
            return Ok(true);
        }
        let Some((delta, after)) = vint_32(bytes, at) else {
            return Ok(false);
        };
        deltas.push(delta)?;
        at = after;
    }
    Ok(at == len)
}
