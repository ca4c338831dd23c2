//! The command `upgrade`.
use crate::indexing::target_of;
use crate::messages::refuse_commit;
use clap::ArgMatches;
use ii_segment_store::{CommitFault, remove_slots, upgrade};
use ii_store::meta::version_of;
use ii_store::{Directory, Folder, IndexFault, Name, StoreFault};
use std::alloc::Global;
use std::process::ExitCode;

/// Makes an index of version 1 one of the newest version, which can have several segments.
pub fn answer_upgrade(
    rt: &HostRuntime,
    path: &str,
    given: &ArgMatches<'_>,
) -> anyhow::Result<ExitCode> {
    let target = match target_of(rt, path, false)? {
        Ok(target) => target,
        Err(status) => return Ok(ExitCode::from(status)),
    };
    let upgraded = upgraded(rt, path);
    drop(target);
    match upgraded {
        Ok((was_first, version)) => tell_upgraded(rt, given.get_flag("json"), was_first, version)?,
        Err(fault) => return Ok(ExitCode::from(refuse_commit(rt, path, fault)?)),
    }
    Ok(ExitCode::SUCCESS)
}

// Prints whether the index was of version 1, and its version now.
fn tell_upgraded(
    rt: &HostRuntime,
    is_json: bool,
    was_first: bool,
    version: u32,
) -> anyhow::Result<()> {
    if is_json {
        println!(rt; "{{\"version\":{version},\"upgraded\":{was_first}}}")?;
    } else if was_first {
        println!(rt; "the index is of version {version} now")?;
    } else {
        println!(rt; "the index was of version {version} already")?;
    }
    Ok(())
}

// Does it, and returns whether the index was of version 1, and its version now.
fn upgraded(rt: &HostRuntime, path: &str) -> Result<(bool, u32), CommitFault> {
    let mut folder = Folder::new(rt, path);
    let was_first = upgrade(rt.alloc(), &mut folder)?;
    remove_slots(rt.alloc(), &mut folder)?;
    match version_in(rt.alloc(), &folder) {
        Ok(version) => Ok((was_first, version)),
        Err(fault) => Err(CommitFault::Store(fault)),
    }
}

// Returns the version of the index of a directory.
fn version_in<D: Directory>(alloc: Global, directory: &D) -> Result<u32, StoreFault> {
    let Some(meta) = directory.read(alloc, Name::Meta)? else {
        return Err(StoreFault::Index(IndexFault::NoIndex));
    };
    Ok(version_of(meta.as_slice())?)
}
