use crate::bits::fixed;
use crate::composites::{Body, body_of, bytes_in, read_composite};
use crate::dictionaries::{Entry, read_dictionary};
use crate::lists::{Damage, Listed, Mode, read_list};
use crate::stores::Info;
use std::alloc::{AllocError, Global};

/// The four files of an index.
#[derive(Clone, Copy)]
pub struct Files<'a> {
    /// The file of terms.
    pub terms: &'a [u8],
    /// The file of postings.
    pub postings: &'a [u8],
    /// The file of positions.
    pub positions: &'a [u8],
    /// The file of norms.
    pub norms: &'a [u8],
}

/// A field of an index.
#[derive(Drop)]
pub struct FieldFiles<'a> {
    /// The number of tokens.
    pub tokens: u64,
    /// The terms.
    pub entries: Vec<Entry<'a>>,
    /// The postings of all terms.
    pub postings: &'a [u8],
    /// The positions of all terms.
    pub positions: &'a [u8],
    /// A norm id for each document, if the field has norms.
    pub norms: Option<&'a [u8]>,
}

/// Reads a field of an index.
pub fn read_index<'a>(
    alloc: Global,
    files: Files<'a>,
    field: u64,
) -> Result<Result<FieldFiles<'a>, Damage>, AllocError> {
    let mut tables = Vec::new(alloc);
    for bytes in [files.terms, files.postings, files.positions, files.norms] {
        let Some(bodies) = read_composite(alloc, bytes)? else {
            return Ok(Err(Damage::Composite));
        };
        tables.push(body_of(bodies.as_slice(), field))?;
    }
    read_field(alloc, files, tables.as_slice())
}

/// Reads the list of a term, as far as it is recorded and requested.
pub fn read_term(
    alloc: Global,
    field: &FieldFiles<'_>,
    info: Info,
    recorded: Mode,
    requested: Mode,
) -> Result<Result<Listed, Damage>, AllocError> {
    let Some(postings) = bytes_in(field.postings, info.postings_start, info.postings_end) else {
        return Ok(Err(Damage::Range));
    };
    let mut positions = None;
    if recorded == Mode::Positions && requested == Mode::Positions {
        positions = bytes_in(field.positions, info.positions_start, info.positions_end);
        if positions.is_none() {
            return Ok(Err(Damage::Range));
        }
    }
    let docs = u32::try_from(info.docs).unwrap_or(u32::MAX);
    read_list(alloc, docs, postings, positions, recorded, requested)
}

// Reads a field from its bodies in the four files.
fn read_field<'a>(
    alloc: Global,
    files: Files<'a>,
    bodies: &[Option<Body>],
) -> Result<Result<FieldFiles<'a>, Damage>, AllocError> {
    let norms = bytes_of(files.norms, bodies, 3);
    let Some(terms) = bytes_of(files.terms, bodies, 0) else {
        return Ok(Ok(FieldFiles {
            tokens: 0,
            entries: Vec::new(alloc),
            postings: &[],
            positions: &[],
            norms,
        }));
    };
    let (Some(postings), Some(positions)) = (
        bytes_of(files.postings, bodies, 1),
        bytes_of(files.positions, bodies, 2),
    ) else {
        return Ok(Err(Damage::Composite));
    };
    let tokens = fixed(postings, 0, 8);
    let behind = bytes_in(postings, 8, postings.len() as u64);
    let entries = match read_dictionary(alloc, terms)? {
        Ok(entries) => entries,
        Err(damage) => return Ok(Err(damage)),
    };
    let (Some(tokens), Some(postings)) = (tokens, behind) else {
        return Ok(Err(Damage::TokenCount));
    };
    Ok(Ok(FieldFiles {
        tokens,
        entries,
        postings,
        positions,
        norms,
    }))
}

// Returns the bytes of a body in a file, if it exists.
fn bytes_of<'a>(bytes: &'a [u8], bodies: &[Option<Body>], file: usize) -> Option<&'a [u8]> {
    match bodies.get(file) {
        Some(Some(body)) => bytes_in(bytes, body.start, body.end),
        _ => None,
    }
}
