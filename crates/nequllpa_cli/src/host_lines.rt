//! Reads lines of files again.
use ii_base::Fault;
use nequllpa_searching::SourceLines;
use std::alloc::Global;
use std::fs::{self, File};
use std::os::unix::fs::FileExt;

// How many bytes of a file are read at once.
const CHUNK: usize = 1 << 16;

/// Files of the system.
#[derive(Clone, Copy)]
pub struct HostLines<'rt> {
    rt: &'rt HostRuntime,
}

impl<'rt> HostLines<'rt> {
    /// Reads files by their paths, those that are not absolute from the working directory on.
    pub fn new(rt: &'rt HostRuntime) -> HostLines<'rt> {
        HostLines { rt }
    }
}

impl SourceLines for HostLines<'_> {
    fn line_at(&self, alloc: Global, file: &str, byte: u64) -> Result<Vec<u8>, Fault> {
        match fs::open(self.rt, file) {
            Ok(opened) => line_of(alloc, &opened, byte),
            Err(_) => Ok(Vec::new(alloc)),
        }
    }
}

// Returns the line of a file that begins at a byte, as far as it can be read.
fn line_of(alloc: Global, file: &File, byte: u64) -> Result<Vec<u8>, Fault> {
    let mut line = Vec::new(alloc);
    let mut chunk = Vec::new(alloc);
    chunk.resize(CHUNK, 0u8)?;
    let mut offset = byte;
    for _ in 0..u64::MAX {
        let len = match file.read_at(chunk.as_mut_slice(), offset) {
            Ok(len) => len,
            Err(_) => return Ok(line),
        };
        let read = chunk.get(..len).unwrap_or(b"");
        if read.is_empty() {
            return Ok(line);
        }
        match read.iter().position(|b| *b == b'\n') {
            Some(end) => {
                line.extend_from_slice(read.get(..end).unwrap_or(b""))?;
                return Ok(line);
            }
            None => line.extend_from_slice(read)?,
        }
        offset = offset.saturating_add(len as u64);
    }
    Ok(line)
}
