//! The command `delete`.
use crate::commands::{field_given, opened_at, status_of, term_given};
use crate::replacing::total;
use clap::ArgMatches;
use ii_base::{DocId, Term};
use ii_segment_store::{CommitFault, WantedFiles, commit_changes, remove_slots, upgrade};
use ii_store::Folder;
use ii_store::collect::collect;
use nequllpa_opening::{AnswerFault, OpenedIndex};
use nequllpa_searching::docs_to_delete;
use nequllpa_writing::{REFUSED, refuse_commit, target_of};
use std::process::ExitCode;

/// Deletes the documents that have a term.
pub fn answer_delete(
    rt: &HostRuntime,
    path: &str,
    given: &ArgMatches<'_>,
) -> anyhow::Result<ExitCode> {
    let target = match target_of(rt, path, false)? {
        Ok(target) => target,
        Err(status) => return Ok(ExitCode::from(status)),
    };
    let deleted = deleted(rt, path, given);
    drop(target);
    deleted
}

// Does it, once the folder is locked.
fn deleted(rt: &HostRuntime, path: &str, given: &ArgMatches<'_>) -> anyhow::Result<ExitCode> {
    match opened_at(rt, path, WantedFiles::All)? {
        Ok(opened) => delete_given(rt, path, &opened, given),
        Err(status) => Ok(ExitCode::from(status)),
    }
}

// Deletes the documents that have the term given on the command line.
fn delete_given(
    rt: &HostRuntime,
    path: &str,
    opened: &OpenedIndex,
    given: &ArgMatches<'_>,
) -> anyhow::Result<ExitCode> {
    let field = match field_given(rt, opened, given)? {
        Ok(field) => field,
        Err(status) => return Ok(ExitCode::from(status)),
    };
    let Some(text) = given.get_str("TERM") else {
        return Ok(ExitCode::from(REFUSED));
    };
    match term_given(rt, opened, field, text)? {
        Ok(term) => delete_term(rt, path, opened, &term, given.get_flag("json")),
        Err(status) => Ok(ExitCode::from(status)),
    }
}

// Deletes the documents that have a term, and prints their number.
fn delete_term(
    rt: &HostRuntime,
    path: &str,
    opened: &OpenedIndex,
    term: &Term,
    is_json: bool,
) -> anyhow::Result<ExitCode> {
    let docs = match docs_to_delete(rt.alloc(), opened, term) {
        Ok(docs) => docs,
        Err(fault) => return Ok(ExitCode::from(status_of(rt, path, AnswerFault::Index(fault))?)),
    };
    let count = total(&docs);
    if count > 0 {
        let committed = commit(rt, path, &docs);
        if let Err(fault) = committed {
            drop(docs);
            return Ok(ExitCode::from(refuse_commit(rt, path, fault)?));
        }
    }
    drop(docs);
    tell_deleted(rt, is_json, count)?;
    Ok(ExitCode::SUCCESS)
}

// Prints how many documents were deleted.
fn tell_deleted(rt: &HostRuntime, is_json: bool, count: u64) -> anyhow::Result<()> {
    if is_json {
        println!(rt; "{{\"deleted\":{count}}}")?;
    } else {
        println!(rt; "{count} documents deleted")?;
    }
    Ok(())
}

// Deletes documents of an index, and removes the files that no list has.
fn commit(rt: &HostRuntime, path: &str, docs: &[Vec<DocId>]) -> Result<(), CommitFault> {
    let mut folder = Folder::new(rt, path);
    upgrade(rt.alloc(), &mut folder)?;
    commit_changes(rt.alloc(), &mut folder, docs, None)?;
    collect(rt.alloc(), &mut folder)?;
    remove_slots(rt.alloc(), &mut folder)?;
    Ok(())
}
