use crate::bits::{fixed, number};
use std::alloc::{AllocError, Global};

/// What a store keeps of a term: its number of documents, and the ranges of its postings and positions.
#[derive(Clone, Copy, PartialEq, Eq)]
pub struct Info {
    /// The number of documents.
    pub docs: u64,
    /// The start of the postings.
    pub postings_start: u64,
    /// The end of the postings.
    pub postings_end: u64,
    /// The start of the positions.
    pub positions_start: u64,
    /// The end of the positions.
    pub positions_end: u64,
}

// The meta of a block.
#[derive(Clone, Copy)]
struct Meta {
    offset: u64,
    first: Info,
    docs_width: u64,
    postings_width: u64,
    positions_width: u64,
}

/// Reads the terms of a store. Returns `None` if it is corrupt.
pub fn read_store(alloc: Global, bytes: &[u8]) -> Result<Option<Vec<Info>>, AllocError> {
    let mut found = Vec::new(alloc);
    let (Some(metas), Some(terms)) = (fixed(bytes, 0, 8), fixed(bytes, 8, 8)) else {
        return Ok(None);
    };
    let blocks = (terms / 256).saturating_add(u64::from(terms % 256 != 0));
    let left = (bytes.len() as u64).saturating_sub(16);
    if metas != blocks.saturating_mul(39) || metas > left {
        return Ok(None);
    }
    let bits = metas.saturating_add(16);
    for block in 0..blocks {
        let begun = block.saturating_mul(256);
        let count = terms.saturating_sub(begun).min(256);
        let at = block.saturating_mul(39).saturating_add(16);
        let Some(meta) = read_meta(bytes, at) else {
            return Ok(None);
        };
        if !read_block(bytes, bits, meta, count, &mut found)? {
            return Ok(None);
        }
    }
    Ok(Some(found))
}

// The offset and size of each number of a meta, in bytes.
static META: [(u64, u64); 9] = [
    (0, 8),
    (8, 4),
    (12, 8),
    (20, 4),
    (24, 8),
    (32, 4),
    (36, 1),
    (37, 1),
    (38, 1),
];

// Reads the meta at an offset, unless it is corrupt.
fn read_meta(bytes: &[u8], at: u64) -> Option<Meta> {
    let mut read = [0u64; 9];
    for k in 0..9 {
        let (place, size) = META[k];
        read[k] = fixed(bytes, at.saturating_add(place), size)?;
    }
    let [
        offset,
        docs,
        postings,
        postings_len,
        positions,
        positions_len,
        docs_width,
        postings_width,
        positions_width,
    ] = read;
    let meta = Meta {
        offset,
        first: Info {
            docs,
            postings_start: postings,
            postings_end: postings.checked_add(postings_len)?,
            positions_start: positions,
            positions_end: positions.checked_add(positions_len)?,
        },
        docs_width,
        postings_width,
        positions_width,
    };
    if meta.docs_width > 32 || meta.postings_width > 56 || meta.positions_width > 56 {
        return None;
    }
    Some(meta)
}

// Appends the terms of a block. Returns false if they are corrupt.
fn read_block(
    bytes: &[u8],
    bits: u64,
    meta: Meta,
    count: u64,
    found: &mut Vec<Info>,
) -> Result<bool, AllocError> {
    found.push(meta.first)?;
    for term in 1..count {
        let Some(info) = read_term(bytes, bits, meta, count, term) else {
            return Ok(false);
        };
        found.push(info)?;
    }
    Ok(true)
}

// Reads a term of a block other than the first.
fn read_term(bytes: &[u8], bits: u64, meta: Meta, count: u64, term: u64) -> Option<Info> {
    let (postings_start, positions_start) = read_starts(bytes, bits, meta, term)?;
    let (postings_end, positions_end) = read_starts(bytes, bits, meta, term.saturating_add(1))?;
    let docs_at = bit_of(meta, term)
        .saturating_add(meta.postings_width)
        .saturating_add(meta.positions_width);
    let docs = read_bits(bytes, bits, meta, docs_at, meta.docs_width)?;
    if !is_range(postings_start, postings_end) || !is_range(positions_start, positions_end) {
        return None;
    }
    // the last bits of the block must exist
    let last = bit_of(meta, count);
    let ends = meta.postings_width.saturating_add(meta.positions_width);
    let _ends = read_bits(bytes, bits, meta, last, ends.min(56))?;
    Some(Info {
        docs,
        postings_start,
        postings_end,
        positions_start,
        positions_end,
    })
}

// Returns whether a range doesn't end before its start and is shorter than 2^32 bytes.
fn is_range(start: u64, end: u64) -> bool {
    match end.checked_sub(start) {
        Some(len) => len <= u64::from(u32::MAX),
        None => false,
    }
}

// Reads where the postings and positions of a term start; for the term after the last, where they end.
fn read_starts(bytes: &[u8], bits: u64, meta: Meta, term: u64) -> Option<(u64, u64)> {
    let at = bit_of(meta, term);
    let postings = read_bits(bytes, bits, meta, at, meta.postings_width)?;
    let behind = at.saturating_add(meta.postings_width);
    let positions = read_bits(bytes, bits, meta, behind, meta.positions_width)?;
    Some((
        meta.first.postings_start.checked_add(postings)?,
        meta.first.positions_start.checked_add(positions)?,
    ))
}

// Returns the first bit of a term in its block; terms count from 1.
fn bit_of(meta: Meta, term: u64) -> u64 {
    meta.postings_width
        .saturating_add(meta.positions_width)
        .saturating_add(meta.docs_width)
        .saturating_mul(term.saturating_sub(1))
}

// Reads a number of `width` bits at a bit of a block.
fn read_bits(bytes: &[u8], bits: u64, meta: Meta, at: u64, width: u64) -> Option<u64> {
    if width == 0 {
        return Some(0);
    }
    let start = bits.checked_add(meta.offset)?.checked_mul(8)?;
    number(bytes, start.checked_add(at)?, width)
}
