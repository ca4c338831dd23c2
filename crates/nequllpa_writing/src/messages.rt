//! What commands print if they are refused, and their status.
use crate::orphans::orphan;
use ii_segment_store::{CommitFault, StoredSegments, WantedFiles, load_latest_with};
use ii_store::{Folder, IndexFault, StoreFault};
use std::fmt::Display;
use std::io::ErrorKind;

/// The program's name in its messages.
pub const PROGRAM: &str = "nequllpa";
/// The status if the answer is "no", or something is damaged.
pub const NO: u8 = 1;
/// The status if the arguments are wrong, or the system reports an error.
pub const REFUSED: u8 = 2;

/// Prints an error on standard error and returns the status.
pub fn refuse<F: Display + Drop>(rt: &HostRuntime, fault: F) -> anyhow::Result<u8> {
    eprintln!(rt; "{PROGRAM}: {fault}")?;
    Ok(REFUSED)
}

/// Does the same for an error of a file, a folder or a query.
pub fn refuse_path<F: Display + Drop>(
    rt: &HostRuntime,
    path: &str,
    fault: F,
) -> anyhow::Result<u8> {
    eprintln!(rt; "{PROGRAM}: {path}: {fault}")?;
    Ok(REFUSED)
}

/// Does the same for a file that can't be opened or read.
pub fn refuse_file(rt: &HostRuntime, path: &str, kind: ErrorKind) -> anyhow::Result<u8> {
    if kind == ErrorKind::NotFound {
        eprintln!(rt; "{PROGRAM}: no such file: {path}")?;
        return Ok(REFUSED);
    }
    refuse_path(rt, path, kind)
}

/// Loads the wanted files of the index of a folder, or returns the status if there is none.
pub fn loaded_at(
    rt: &HostRuntime,
    path: &str,
    wanted: WantedFiles,
) -> anyhow::Result<Result<StoredSegments, u8>> {
    match load_latest_with(rt.alloc(), &Folder::new(rt, path), wanted) {
        Ok(stored) => Ok(Ok(stored)),
        Err(StoreFault::Index(fault)) => Ok(Err(tell_no_index(rt, path, fault)?)),
        Err(StoreFault::Directory(fault)) => Ok(Err(refuse_path(rt, path, fault)?)),
    }
}

/// Prints why a folder has no index, and on standard error what to do. Returns the status.
pub fn tell_no_index(rt: &HostRuntime, path: &str, fault: IndexFault) -> anyhow::Result<u8> {
    if fault == IndexFault::NoIndex {
        return tell_none(rt, path);
    }
    println!(rt; "{path}: {fault}")?;
    match fault {
        IndexFault::OtherVersion(_) => {
            eprintln!(rt; "{PROGRAM}: index the lines again by this program")?
        }
        _ => eprintln!(rt;
            "{PROGRAM}: the command check prints what is damaged; index the lines again, or restore the folder from a copy"
        )?,
    }
    Ok(NO)
}

// Does the same for a folder without `meta`, which has files of an index or none.
fn tell_none(rt: &HostRuntime, path: &str) -> anyhow::Result<u8> {
    match orphan(rt, path) {
        Ok(Some(name)) => {
            let name = name.text(rt.alloc())?;
            println!(rt; "{path}: an index whose meta is missing: there is {name}")?;
            eprintln!(rt;
                "{PROGRAM}: restore meta from a copy, or index the lines again with --force"
            )?;
            Ok(NO)
        }
        Ok(None) => {
            println!(rt; "{path}: no index here")?;
            eprintln!(rt; "{PROGRAM}: the command index makes one")?;
            Ok(NO)
        }
        Err(fault) => refuse_path(rt, path, fault),
    }
}

/// Prints why an index can't be changed. Returns the status.
pub fn refuse_commit(rt: &HostRuntime, path: &str, fault: CommitFault) -> anyhow::Result<u8> {
    let status = match fault {
        CommitFault::Store(StoreFault::Index(fault)) => return tell_no_index(rt, path, fault),
        fault => refuse_path(rt, path, fault)?,
    };
    eprintln!(rt;
        "{PROGRAM}: the folder still has its complete index; free some space, or make the folder writable, and try again"
    )?;
    Ok(status)
}
