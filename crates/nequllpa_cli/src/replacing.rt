//! Documents that replace others: those that have the same key.
use crate::commands::{opened_at, status_of};
use ii_base::{DocId, Term};
use ii_segment_store::{
    CommitFault, SegmentFiles, WantedFiles, commit_changes, remove_slots, upgrade,
};
use ii_store::Folder;
use ii_store::collect::collect;
use nequllpa_opening::AnswerFault;
use nequllpa_searching::docs_with_keys;
use nequllpa_writing::{Replacement, refuse_commit, settle, tell_added};
use std::process::ExitCode;

/// Deletes the documents of an index that have one of the keys, and adds those that replace them, all at once. Prints
/// how many documents were added and deleted. Then merges segments, if that is wanted.
pub fn replace_keys(
    rt: &HostRuntime,
    path: &str,
    replacement: Replacement<'_>,
    is_json: bool,
) -> anyhow::Result<ExitCode> {
    let Replacement {
        segments,
        segment,
        keys,
        left_out,
        merges,
    } = replacement;
    let status = match replaced(rt, path, &segment, keys.as_slice())? {
        Ok(count) => {
            let num_docs = u64::from(segment.num_docs);
            tell_added(rt, is_json, num_docs, Some(count), left_out)?;
            if let Some(budget) = merges {
                settle(rt, path, budget)?;
            }
            ExitCode::SUCCESS
        }
        Err(status) => ExitCode::from(status),
    };
    drop(segments);
    Ok(status)
}

// Replaces the documents that have one of these keys by those of a segment. Returns how many there were, or the
// status if that fails.
fn replaced(
    rt: &HostRuntime,
    path: &str,
    segment: &SegmentFiles,
    keys: &[Term],
) -> anyhow::Result<Result<u64, u8>> {
    let opened = match opened_at(rt, path, WantedFiles::All)? {
        Ok(opened) => opened,
        Err(status) => return Ok(Err(status)),
    };
    let replaced = match docs_with_keys(rt.alloc(), &opened, keys) {
        Ok(replaced) => replaced,
        Err(fault) => return Ok(Err(status_of(rt, path, AnswerFault::Index(fault))?)),
    };
    drop(opened);
    let count = total(&replaced);
    let committed = commit(rt, path, replaced.as_slice(), segment);
    drop(replaced);
    match committed {
        Ok(()) => Ok(Ok(count)),
        Err(fault) => Ok(Err(refuse_commit(rt, path, fault)?)),
    }
}

/// Returns how many documents there are.
pub fn total(docs: &[Vec<DocId>]) -> u64 {
    let mut count = 0u64;
    for some in docs {
        count = count.saturating_add(some.len() as u64);
    }
    count
}

// Deletes documents of an index and adds a segment that has documents, and removes the files that no list has.
fn commit(
    rt: &HostRuntime,
    path: &str,
    docs: &[Vec<DocId>],
    segment: &SegmentFiles,
) -> Result<(), CommitFault> {
    let mut folder = Folder::new(rt, path);
    upgrade(rt.alloc(), &mut folder)?;
    if segment.num_docs > 0 {
        commit_changes(rt.alloc(), &mut folder, docs, Some(segment))?;
    }
    collect(rt.alloc(), &mut folder)?;
    remove_slots(rt.alloc(), &mut folder)?;
    Ok(())
}
