//! Runs calls of all parts of an index and prints what they read back, or the fault of a call that failed.
//! The tests of memory run it once for each allocation, which then fails.
#![tactic(auto)]

mod calls;
mod composite;
mod deletes;
mod dictionary;
mod grown;
mod index;
mod loaded;
mod norms;
mod placed;
mod postings;
mod recorders;
mod reset;
mod rows;
mod schema;
mod unchanged;
mod unchanged_paths;
mod walked;

use ii_io::Fault;
use std::io;
use std::process::ExitCode;

fn main(rt: HostRuntime) -> ExitCode {
    match report_all(&rt) {
        Ok(()) => ExitCode::SUCCESS,
        Err(_) => ExitCode::from(2),
    }
}

// Prints a line for each part.
fn report_all(rt: &HostRuntime) -> io::Result<()> {
    report(rt, "composite", composite::read_back(rt.alloc()))?;
    report(rt, "schema", schema::read_back(rt.alloc()))?;
    report(rt, "norms", norms::read_back(rt.alloc()))?;
    report(rt, "postings", postings::read_back(rt.alloc()))?;
    report(rt, "walk", walked::read_back(rt.alloc()))?;
    report(rt, "loaded", loaded::read_back(rt.alloc()))?;
    report(rt, "located", loaded::read_back_positions(rt.alloc()))?;
    report(rt, "placed", placed::read_back(rt.alloc()))?;
    report(rt, "shifted", placed::read_back_with_offset(rt.alloc()))?;
    report(rt, "deletes", deletes::read_back(rt.alloc()))?;
    report(rt, "grown", grown::read_back(rt.alloc()))?;
    report(rt, "terms", unchanged::read_back(rt.alloc()))?;
    report(rt, "paths", unchanged_paths::read_back(rt.alloc()))?;
    report(rt, "ids", unchanged_paths::read_back_norms(rt.alloc()))?;
    report(rt, "recorders", recorders::read_back(rt.alloc()))?;
    report(rt, "dictionary", dictionary::read_back(rt.alloc()))?;
    report(rt, "index", index::read_back(rt.alloc()))?;
    report(rt, "gaps", rows::read_back(rt.alloc(), &rows::GAPS))?;
    report(rt, "options", rows::read_back(rt.alloc(), &rows::OPTIONS))?;
    report(rt, "values", rows::read_back(rt.alloc(), &rows::VALUES))?;
    report(rt, "json", rows::read_back_paths(rt.alloc()))?;
    report(rt, "reset", reset::read_back(rt.alloc()))
}

// Prints what a part read back, or the fault.
fn report(rt: &HostRuntime, name: &str, answer: Result<String, Fault>) -> io::Result<()> {
    match answer {
        Ok(text) => println!(rt; "{name}:{text}"),
        Err(fault) => println!(rt; "{name}: {fault}"),
    }
}
