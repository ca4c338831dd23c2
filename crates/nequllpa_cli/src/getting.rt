//! The command `get`.
use crate::commands::format_given;
use clap::ArgMatches;
use ii_store::segments::load_meta;
use ii_store::{Folder, IndexFault, IndexMeta, StoreFault};
use nequllpa_inspecting::{StoredLines, StoredLinesFault, load_lines};
use nequllpa_opening::{DocumentFault, RowFormat, SegmentStore, document};
use nequllpa_writing::{NO, PROGRAM, REFUSED, refuse, refuse_path, tell_no_index};
use std::io::{self, BufWriter, Write};
use std::process::ExitCode;

/// Why no document can be printed.
pub const NOT_STORED: &str =
    "the lines of this index are not stored; index them with store_source = true in the schema, or with stored = true for fields";

/// Prints the stored lines of documents.
pub fn answer_get(
    rt: &HostRuntime,
    path: &str,
    given: &ArgMatches<'_>,
) -> anyhow::Result<ExitCode> {
    let Some(words) = given.get_strs("DOC") else {
        return Ok(ExitCode::from(refuse(rt, "get needs the number of a document")?));
    };
    let mut numbers = Vec::new(rt.alloc());
    for word in words {
        match word.parse::<u64>() {
            Ok(number) => numbers.push(number)?,
            Err(_) => {
                eprintln!(rt; "{PROGRAM}: {word}: expected the number of a document")?;
                return Ok(ExitCode::from(REFUSED));
            }
        }
    }
    match load_meta(rt.alloc(), &Folder::new(rt, path)) {
        Ok(list) => get_listed(rt, path, &list, &numbers, format_given(given)),
        Err(StoreFault::Index(IndexFault::OtherVersion(_))) => {
            Ok(ExitCode::from(refuse(rt, NOT_STORED)?))
        }
        Err(StoreFault::Index(fault)) => Ok(ExitCode::from(tell_no_index(rt, path, fault)?)),
        Err(StoreFault::Directory(fault)) => Ok(ExitCode::from(refuse_path(rt, path, fault)?)),
    }
}

// Prints the stored lines of documents of a list's segments.
fn get_listed(
    rt: &HostRuntime,
    path: &str,
    list: &IndexMeta,
    numbers: &[u64],
    format: RowFormat,
) -> anyhow::Result<ExitCode> {
    match load_lines(rt.alloc(), &Folder::new(rt, path), list) {
        Ok(lines) => get_all(rt, path, &lines, numbers, format),
        Err(StoredLinesFault::Load(StoreFault::Index(fault))) => {
            Ok(ExitCode::from(tell_no_index(rt, path, fault)?))
        }
        Err(StoredLinesFault::Load(fault)) => Ok(ExitCode::from(refuse_path(rt, path, fault)?)),
        Err(StoredLinesFault::Damaged(id, damage)) => {
            println!(rt; "{path}: segment {id}: {damage}")?;
            Ok(ExitCode::from(NO))
        }
    }
}

// Prints the stored lines of documents.
fn get_all(
    rt: &HostRuntime,
    path: &str,
    lines: &Vec<StoredLines>,
    numbers: &[u64],
    format: RowFormat,
) -> anyhow::Result<ExitCode> {
    let mut stores = Vec::new(rt.alloc());
    for segment in lines {
        stores.push(segment.documents())?;
    }
    let mut status = ExitCode::SUCCESS;
    for number in numbers {
        if !print_line(rt, path, lines, &stores, *number, format)? {
            status = ExitCode::from(NO);
        }
    }
    Ok(status)
}

// Prints the stored line of a document, or why there is none. Returns whether there is one.
fn print_line(
    rt: &HostRuntime,
    path: &str,
    lines: &Vec<StoredLines>,
    stores: &[SegmentStore<'_>],
    number: u64,
    format: RowFormat,
) -> anyhow::Result<bool> {
    match document(stores, number) {
        Ok(line) => {
            let mut out = BufWriter::new(rt.alloc(), io::writer(rt))?;
            write_line(&mut out, number, line, format)?;
            out.flush()?;
            return Ok(true);
        }
        Err(DocumentFault::NoDocument) => eprintln!(rt; "{PROGRAM}: {path}: no document {number}")?,
        Err(DocumentFault::NotStored(_)) => eprintln!(rt; "{PROGRAM}: {path}: {NOT_STORED}")?,
        Err(DocumentFault::Damaged(place, damage)) => {
            let id = id_of(lines, place);
            eprintln!(rt; "{PROGRAM}: {path}: document {number}: segment {id}: {damage}")?;
        }
    }
    Ok(false)
}

// Writes the stored line of a document, as a JSON object with its number if that is wanted.
fn write_line<W: Write>(
    out: &mut W,
    number: u64,
    line: &[u8],
    format: RowFormat,
) -> io::Result<()> {
    if !format.is_json() {
        out.write_all(line)?;
        return writeln!(out);
    }
    write!(out, "{{\"doc\":{number},\"source\":")?;
    out.write_all(line)?;
    writeln!(out, "}}")
}

// Returns the id of the segment at a place.
fn id_of(lines: &Vec<StoredLines>, place: usize) -> u64 {
    match lines.get(place) {
        Some(segment) => segment.id(),
        None => 0,
    }
}
