//! A program that indexes JSON lines into a folder, searches the index and inspects it.
#![tactic(auto)]

mod adding;
mod batch;
mod check_progress;
mod checking;
mod commands;
mod deleting;
mod getting;
mod host_lines;
mod query_opening;
mod query_texts;
mod replacing;
mod searching;
mod snippet_style;
mod timing;
mod usage;

use adding::answer_add;
use checking::answer_check;
use clap::ArgMatches;
use commands::{answer_fields, answer_postings, answer_stats, answer_terms};
use deleting::answer_delete;
use getting::answer_get;
use nequllpa_writing::{PROGRAM, REFUSED, answer_index, answer_merge, answer_upgrade, refuse};
use searching::answer_search;
use std::io;
use std::process::ExitCode;

fn main(rt: HostRuntime) -> ExitCode {
    match answer(&rt) {
        Ok(status) => status,
        Err(error) => {
            // If standard error fails too, only the status is left.
            let _ = eprintln!(&rt; "{PROGRAM}: {error}");
            ExitCode::from(REFUSED)
        }
    }
}

// Runs the program with its arguments.
fn answer(rt: &HostRuntime) -> anyhow::Result<ExitCode> {
    let args = match std::env::args(rt) {
        Ok(args) => args,
        Err(error) => {
            if error.kind() == io::ErrorKind::InvalidData {
                return Ok(ExitCode::from(refuse(rt, "an argument is not UTF-8")?));
            }
            return Err(error.into());
        }
    };
    let mut words = vec![in rt.alloc(); String::from_str(rt.alloc(), PROGRAM)?]?;
    for word in args.skip(1) {
        words.push(word)?;
    }
    answer_words(rt, words.as_slice())
}

// Runs a command line, which starts with the program's name.
fn answer_words(rt: &HostRuntime, words: &[String]) -> anyhow::Result<ExitCode> {
    match usage::command(rt.alloc())?.try_get_matches_from(words) {
        Ok(matches) => answer_command(rt, &matches),
        Err(error) => {
            error.print(rt)?;
            Ok(ExitCode::from(error.exit_code() as u8))
        }
    }
}

// Runs a command.
fn answer_command(rt: &HostRuntime, matches: &ArgMatches<'_>) -> anyhow::Result<ExitCode> {
    let Some((name, given)) = matches.subcommand() else {
        return Ok(ExitCode::from(REFUSED));
    };
    let Some(path) = given.get_str("DIR") else {
        return Ok(ExitCode::from(REFUSED));
    };
    match name {
        "index" => answer_index(rt, path, given),
        "add" => answer_add(rt, path, given),
        "delete" => answer_delete(rt, path, given),
        "merge" => answer_merge(rt, path, given),
        "upgrade" => answer_upgrade(rt, path, given),
        "search" => answer_search(rt, path, given),
        "get" => answer_get(rt, path, given),
        "terms" => answer_terms(rt, path, given),
        "postings" => answer_postings(rt, path, given),
        "fields" => answer_fields(rt, path, given),
        "stats" => answer_stats(rt, path, given),
        _ => answer_check(rt, path, given),
    }
}
