use crate::bits::fixed;
use std::alloc::{AllocError, Global};

/// A body of a composite file: its field and its range.
#[derive(Clone, Copy)]
pub struct Body {
    /// The field's id.
    pub field: u64,
    /// The offset of its first byte.
    pub start: u64,
    /// The offset after its last byte.
    pub end: u64,
}

/// Reads the bodies of a composite file in the order of its table. Returns `None` if the table is corrupt.
pub fn read_composite(alloc: Global, bytes: &[u8]) -> Result<Option<Vec<Body>>, AllocError> {
    let len = bytes.len() as u64;
    let mut found = Vec::new(alloc);
    let Some(number) = number_of_bodies(bytes) else {
        return Ok(None);
    };
    let table = number.saturating_mul(20).saturating_add(4);
    if table > len {
        return Ok(None);
    }
    let bodies = len.saturating_sub(table);
    for i in 0..number {
        let Some(body) = read_place(bytes, bodies.saturating_add(i.saturating_mul(20))) else {
            return Ok(None);
        };
        if body.start > body.end || body.end > bodies {
            return Ok(None);
        }
        if body_of(found.as_slice(), body.field).is_some() {
            return Ok(None);
        }
        found.push(body)?;
    }
    Ok(Some(found))
}

/// Returns the body of a field, if it exists.
pub fn body_of(bodies: &[Body], field: u64) -> Option<Body> {
    for body in bodies {
        if body.field == field {
            return Some(*body);
        }
    }
    None
}

/// Returns the bytes of a range, if they exist.
pub fn bytes_in(bytes: &[u8], start: u64, end: u64) -> Option<&[u8]> {
    if start > end || end > bytes.len() as u64 {
        return None;
    }
    bytes.get(start as usize..end as usize)
}

// Reads the last four bytes.
fn number_of_bodies(bytes: &[u8]) -> Option<u64> {
    let start = (bytes.len() as u64).checked_sub(4)?;
    fixed(bytes, start, 4)
}

// Reads a row of the table.
fn read_place(bytes: &[u8], at: u64) -> Option<Body> {
    Some(Body {
        field: fixed(bytes, at, 4)?,
        start: fixed(bytes, at.saturating_add(4), 8)?,
        end: fixed(bytes, at.saturating_add(12), 8)?,
    })
}
