//! The command `merge`, and the merges after `add`.
use crate::indexing::target_of;
use crate::memory::Budget;
use crate::messages::{NO, PROGRAM, loaded_at, refuse_commit, refuse_path, tell_no_index};
use crate::schemas::text_schema_of;
use clap::ArgMatches;
use ii_directory::remove_unfinished;
use ii_segment_store::loading::file_of;
use ii_segment_store::{StoredSegments, WantedFiles};
use ii_store::collect::collect;
use ii_store::segments::load_meta;
use ii_store::{Folder, IndexFault, IndexMeta, SegmentComponent, SegmentMeta, StoreFault};
use nequllpa_merging::{JoinFault, MergeFault, first_to_merge, first_within, merge_last};
use std::alloc::{AllocError, Global};
use std::process::ExitCode;

/// Makes all segments of an index one, of the documents that weren't deleted.
pub fn answer_merge(
    rt: &HostRuntime,
    path: &str,
    given: &ArgMatches<'_>,
) -> anyhow::Result<ExitCode> {
    let target = match target_of(rt, path, false)? {
        Ok(target) => target,
        Err(status) => return Ok(ExitCode::from(status)),
    };
    let merged = merged(rt, path, given.get_flag("json"));
    drop(target);
    merged
}

// Does it, once the folder is locked.
fn merged(rt: &HostRuntime, path: &str, is_json: bool) -> anyhow::Result<ExitCode> {
    let folder = Folder::new(rt, path);
    match load_meta(rt.alloc(), &folder) {
        Ok(list) => merge_all(rt, path, list, is_json),
        Err(StoreFault::Index(IndexFault::OtherVersion(_))) => tell_one(rt, path, is_json),
        Err(fault) => Ok(ExitCode::from(refuse_store(rt, path, fault)?)),
    }
}

// Prints that an index of version 1 is one segment.
fn tell_one(rt: &HostRuntime, path: &str, is_json: bool) -> anyhow::Result<ExitCode> {
    let StoredSegments {
        schema: _,
        segments,
    } = match loaded_at(rt, path, WantedFiles::All)? {
        Ok(stored) => stored,
        Err(status) => return Ok(ExitCode::from(status)),
    };
    let mut count = 0u64;
    for segment in &segments {
        count = count.saturating_add(u64::from(segment.alive.num_living()));
    }
    tell_merged(rt, is_json, 0, count)?;
    Ok(ExitCode::SUCCESS)
}

// Prints how many segments were merged, and how many documents the index has.
fn tell_merged(
    rt: &HostRuntime,
    is_json: bool,
    segments: usize,
    num_docs: u64,
) -> anyhow::Result<()> {
    if is_json {
        println!(rt; "{{\"merged\":{segments},\"documents\":{num_docs}}}")?;
    } else if segments == 0 {
        println!(rt; "nothing to merge, {num_docs} documents")?;
    } else {
        println!(rt; "{segments} segments merged, {num_docs} documents")?;
    }
    Ok(())
}

// Merges the segments of a list, and prints how many there were.
fn merge_all(
    rt: &HostRuntime,
    path: &str,
    list: IndexMeta,
    is_json: bool,
) -> anyhow::Result<ExitCode> {
    let count = list.segments.len();
    let num_docs = num_living(&list);
    if count < 2 && !has_deletes(&list) {
        tell_merged(rt, is_json, 0, num_docs)?;
        return Ok(ExitCode::SUCCESS);
    }
    if let Err(status) = merge_from(rt, path, &list, 0)? {
        return Ok(ExitCode::from(status));
    }
    tell_merged(rt, is_json, count, num_docs)?;
    Ok(ExitCode::SUCCESS)
}

// Returns how many documents weren't deleted.
fn num_living(list: &IndexMeta) -> u64 {
    let mut count = 0u64;
    for segment in &list.segments {
        count = count.saturating_add(u64::from(segment.num_living));
    }
    count
}

// Returns whether a document was deleted.
fn has_deletes(list: &IndexMeta) -> bool {
    for segment in &list.segments {
        if segment.num_living < segment.num_docs {
            return true;
        }
    }
    false
}

// Merges the segments of a list from a place on, and removes their files. Prints why it doesn't, and returns the
// status then.
fn merge_from(
    rt: &HostRuntime,
    path: &str,
    list: &IndexMeta,
    first: usize,
) -> anyhow::Result<Result<(), u8>> {
    let schema = match text_schema_of(rt.alloc(), list.schema.as_slice()) {
        Ok(schema) => schema,
        Err(fault) => return Ok(Err(refuse_path(rt, path, fault)?)),
    };
    let mut folder = Folder::new(rt, path);
    if let Err(fault) = merge_last(rt.alloc(), &mut folder, schema.schema(), first) {
        let _ = remove_unfinished(rt, path);
        return Ok(Err(refuse_join(rt, path, fault)?));
    }
    match collect(rt.alloc(), &mut folder) {
        Ok(_) => Ok(Ok(())),
        Err(fault) => Ok(Err(refuse_path(rt, path, fault)?)),
    }
}

// Prints why segments aren't merged. Returns the status.
fn refuse_join(rt: &HostRuntime, path: &str, fault: JoinFault) -> anyhow::Result<u8> {
    match fault {
        JoinFault::Store(fault) => refuse_store(rt, path, fault),
        JoinFault::Merge(fault) => refuse_merge(rt, path, fault),
        JoinFault::Write(fault) => refuse_path(rt, path, fault),
        JoinFault::Commit(fault) => refuse_commit(rt, path, fault),
    }
}

// Prints why an index isn't loaded. Returns the status.
fn refuse_store(rt: &HostRuntime, path: &str, fault: StoreFault) -> anyhow::Result<u8> {
    match fault {
        StoreFault::Index(fault) => tell_no_index(rt, path, fault),
        StoreFault::Directory(fault) => refuse_path(rt, path, fault),
    }
}

// Prints why segments can't be one. Returns the status.
fn refuse_merge(rt: &HostRuntime, path: &str, fault: MergeFault) -> anyhow::Result<u8> {
    if !fault.is_damage() {
        return refuse_path(rt, path, fault);
    }
    println!(rt; "{path}: {fault}")?;
    eprintln!(rt; "{PROGRAM}: the command check prints what is damaged")?;
    Ok(NO)
}

/// Merges the last segments of an index that have as many documents together as the one before them or more, as far
/// as the memory allows. If they can't be merged, prints why on standard error: the index stays as it is.
pub fn settle(rt: &HostRuntime, path: &str, budget: Budget) -> anyhow::Result<()> {
    if let Err(fault) = settled(rt, path, budget) {
        eprintln!(rt;
            "{PROGRAM}: the documents were added, but segments were not merged: {fault}"
        )?;
    }
    Ok(())
}

// Does it, of the last segments that may be merged.
fn settled(rt: &HostRuntime, path: &str, budget: Budget) -> anyhow::Result<()> {
    let mut folder = Folder::new(rt, path);
    let list = load_meta(rt.alloc(), &folder)?;
    let counted = Counted::behind(rt.alloc(), &list)?;
    let kept = list.segments.len().saturating_sub(counted.lens.len());
    let from = first_within(counted.lens.as_slice(), budget.bytes_to_merge());
    let Some(counts) = counted.num_living.as_slice().get(from..) else {
        return Ok(());
    };
    let first = kept
        .saturating_add(from)
        .saturating_add(first_to_merge(counts));
    if first == list.segments.len() {
        return Ok(());
    }
    let schema = text_schema_of(rt.alloc(), list.schema.as_slice())?;
    let merged = merge_last(rt.alloc(), &mut folder, schema.schema(), first);
    if merged.is_err() {
        let _ = remove_unfinished(rt, path);
    }
    merged?;
    collect(rt.alloc(), &mut folder)?;
    Ok(())
}

// The segments behind the last one without counts: in one with it no documents could be deleted any more.
#[derive(Drop)]
struct Counted {
    // how many documents of each are alive
    num_living: Vec<u32>,
    // how many bytes a merge loads of each
    lens: Vec<u64>,
}

impl Counted {
    // Reads them in a list.
    fn behind(alloc: Global, list: &IndexMeta) -> Result<Counted, AllocError> {
        let mut num_living = Vec::new(alloc);
        let mut lens = Vec::new(alloc);
        for segment in &list.segments {
            if file_of(segment.files.as_slice(), SegmentComponent::Counts).is_none() {
                num_living.clear();
                lens.clear();
            } else {
                num_living.push(segment.num_living)?;
                lens.push(len_to_load(segment))?;
            }
        }
        Ok(Counted { num_living, lens })
    }
}

// Returns how many bytes a merge loads of a segment: those of all files but that of the stored documents, of which it
// reads one block at a time.
fn len_to_load(segment: &SegmentMeta) -> u64 {
    let mut len = 0u64;
    for file in &segment.files {
        if file.component != SegmentComponent::Store {
            len = len.saturating_add(file.len);
        }
    }
    len
}

/// Returns how many bytes the files of a segment have.
pub fn len_of_files(segment: &SegmentMeta) -> u64 {
    let mut len = 0u64;
    for file in &segment.files {
        len = len.saturating_add(file.len);
    }
    len
}
