//! Measures the crates by the clock and prints a table of the times, if it is given an argument. No contract
//! states these times.
#![tactic(auto)]

mod blocks;
mod costly;
mod indexes;
mod json_values;
mod known_lists;
mod lists;
mod queries;
mod table;

use anyhow::Result;
use std::env;

fn main(rt: HostRuntime) -> Result<()> {
    if env::args(&rt)?.count() < 2 {
        println!(rt; "an argument, whatever it is, begins the measuring")?;
        return Ok(());
    }
    println!(rt; "| what | ns | MB/s |")?;
    println!(rt; "|---|--:|--:|")?;
    // first, while the program has little memory of its own
    json_values::measure(&rt)?;
    blocks::measure(&rt)?;
    lists::measure(&rt)?;
    known_lists::measure(&rt)?;
    queries::measure(&rt)?;
    costly::measure(&rt)?;
    indexes::measure(&rt)
}
