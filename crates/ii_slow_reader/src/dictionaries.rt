use crate::bits::fixed;
use crate::composites::bytes_in;
use crate::lists::Damage;
use crate::stores::{Info, read_store};
use std::alloc::{AllocError, Global};

/// A term of a dictionary: its key, and what the store keeps of it.
#[derive(Drop)]
pub struct Entry<'a> {
    /// The bytes of its key.
    pub key: &'a [u8],
    /// What the store keeps.
    pub info: Info,
}

/// Reads the terms of a dictionary in order.
pub fn read_dictionary<'a>(
    alloc: Global,
    bytes: &'a [u8],
) -> Result<Result<Vec<Entry<'a>>, Damage>, AllocError> {
    let mut keys = Vec::new(alloc);
    let Some(store) = read_keys(bytes, &mut keys)? else {
        return Ok(Err(Damage::Dictionary));
    };
    let Some(infos) = read_store(alloc, store)? else {
        return Ok(Err(Damage::TermStore));
    };
    if infos.len() != keys.len() {
        return Ok(Err(Damage::Dictionary));
    }
    Ok(Ok(entries_of(alloc, keys.as_slice(), infos.as_slice())?))
}

// Pairs keys with what the store keeps of them.
fn entries_of<'a>(
    alloc: Global,
    keys: &[&'a [u8]],
    infos: &[Info],
) -> Result<Vec<Entry<'a>>, AllocError> {
    let mut entries = Vec::new(alloc);
    for (key, info) in keys.iter().zip(infos.iter()) {
        entries.push(Entry {
            key: *key,
            info: *info,
        })?;
    }
    Ok(entries)
}

// Appends the keys. Returns the bytes after them, or `None` if they are corrupt.
fn read_keys<'a>(
    bytes: &'a [u8],
    keys: &mut Vec<&'a [u8]>,
) -> Result<Option<&'a [u8]>, AllocError> {
    let len = bytes.len() as u64;
    let Some(number) = fixed(bytes, 0, 8) else {
        return Ok(None);
    };
    if number > len.saturating_sub(8) / 8 {
        return Ok(None);
    }
    let base = number.saturating_mul(8).saturating_add(8);
    let mut before = 0u64;
    for i in 0..number {
        let at = i.saturating_mul(8).saturating_add(8);
        let Some(end) = fixed(bytes, at, 8) else {
            return Ok(None);
        };
        let Some(key) = bytes_in(bytes, base.saturating_add(before), base.saturating_add(end))
        else {
            return Ok(None);
        };
        if !is_last(keys.as_slice(), key) {
            return Ok(None);
        }
        keys.push(key)?;
        before = end;
    }
    Ok(bytes_in(bytes, base.saturating_add(before), len))
}

// Returns whether a key is greater than the last one.
fn is_last(keys: &[&[u8]], key: &[u8]) -> bool {
    match keys.last() {
        Some(last) => *last < key,
        None => true,
    }
}
