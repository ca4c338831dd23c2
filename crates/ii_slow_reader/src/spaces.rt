use crate::dictionaries::Entry;
use std::alloc::{AllocError, Global};

// The letters of types: texts, signed and unsigned numbers, booleans, dates, bytes, JSON and addresses.
static LETTERS: [u8; 8] = [b's', b'i', b'u', b'o', b'd', b'b', b'j', b'p'];

/// A path of a JSON field with a type of its values, and the size of its terms.
#[derive(Clone, Copy)]
pub struct Space<'a> {
    /// The bytes of the path.
    pub path: &'a [u8],
    /// The letter of the type.
    pub letter: u8,
    /// The number of terms.
    pub terms: u64,
    /// The number of bytes of their postings.
    pub postings: u64,
    /// The number of bytes of their positions.
    pub positions: u64,
}

/// Lists the paths of the terms of a JSON field. Returns `None` if a key is corrupt.
pub fn read_spaces<'a>(
    alloc: Global,
    entries: &[Entry<'a>],
) -> Result<Option<Vec<Space<'a>>>, AllocError> {
    let mut spaces: Vec<Space<'a>> = Vec::new(alloc);
    for entry in entries {
        let Some(mut space) = space_of(entry) else {
            return Ok(None);
        };
        if let Some(last) = spaces.as_slice().last().copied() {
            if last.path == space.path && last.letter == space.letter {
                space = sum_of(last, space);
                let _last = spaces.pop();
            }
        }
        spaces.push(space)?;
    }
    Ok(Some(spaces))
}

// Reads the path and the letter in the key of a term: the bytes before the first byte 0, and the byte after it.
fn space_of<'a>(entry: &Entry<'a>) -> Option<Space<'a>> {
    let key = entry.key;
    let info = entry.info;
    for at in 0..key.len() {
        if key[at] != 0 {
            continue;
        }
        let letter = *key.get(at.saturating_add(1))?;
        if !LETTERS.as_slice().contains(&letter) {
            return None;
        }
        return Some(Space {
            path: &key[..at],
            letter,
            terms: 1,
            postings: info.postings_end.saturating_sub(info.postings_start),
            positions: info.positions_end.saturating_sub(info.positions_start),
        });
    }
    None
}

// Adds the sizes of two spaces.
fn sum_of<'a>(space: Space<'a>, other: Space<'a>) -> Space<'a> {
    Space {
        path: space.path,
        letter: space.letter,
        terms: space.terms.saturating_add(other.terms),
        postings: space.postings.saturating_add(other.postings),
        positions: space.positions.saturating_add(other.positions),
    }
}
