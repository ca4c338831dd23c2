//! The command `add`.
use crate::replacing::replace_keys;
use clap::ArgMatches;
use nequllpa_writing::{Added, add_given};
use std::process::ExitCode;

/// Indexes JSON lines as new segments of an index.
pub fn answer_add(
    rt: &HostRuntime,
    path: &str,
    given: &ArgMatches<'_>,
) -> anyhow::Result<ExitCode> {
    match add_given(rt, path, given)? {
        Added::Ended(status) => Ok(status),
        Added::Replaces(replacement) => {
            replace_keys(rt, path, replacement, given.get_flag("json"))
        }
    }
}
