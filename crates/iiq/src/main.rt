//! Runs lines of commands: indexes texts, numbers and JSON values, looks up terms, and writes, opens
//! and walks lists of documents.
#![tactic(auto)]

mod commands;
mod leaves;
mod output;
mod parts;
mod replies;
mod run;
mod session;
mod words;

use commands::CommandSet;
use run::{RunFault, run as run_lines};
use std::env::FillError;
use std::io::{self, BufWriter};
use std::process::ExitCode;
use std::rt::Env;

fn main(rt: HostRuntime) -> ExitCode {
    let Some(commands) = chosen_commands(&rt) else {
        // If standard error fails too, only the status is left.
        let _ = eprintln!(&rt; "usage: iiq [--strict]");
        return ExitCode::from(2);
    };
    let answered = match BufWriter::new(rt.alloc(), io::writer(&rt)) {
        Ok(mut writer) => run_lines(rt.alloc(), commands, &mut rt.reader(), &mut writer),
        Err(_) => run_lines(rt.alloc(), commands, &mut rt.reader(), &mut io::writer(&rt)),
    };
    match answered {
        Ok(true) => ExitCode::SUCCESS,
        Ok(false) => ExitCode::from(1),
        Err(RunFault::Input | RunFault::Output) => ExitCode::from(2),
    }
}

// Parses the arguments, without allocating: none, or `--strict` alone.
fn chosen_commands(env: &impl Env) -> Option<CommandSet> {
    let mut word = [0; 16];
    let is_strict = match env.arg(1, &mut word) {
        Ok(len) => &word[..len] == b"--strict".as_slice(),
        Err(FillError::NotPresent) => return Some(CommandSet::WithQueries),
        Err(FillError::TooLong) => false,
    };
    match env.arg(2, &mut word) {
        Err(FillError::NotPresent) if is_strict => Some(CommandSet::Strict),
        _ => None,
    }
}
