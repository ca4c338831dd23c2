//! Opens damaged lists, stores, dictionaries, composite files and indexes with the readers and with the slow
//! reader, and counts where they differ. It tries each cut, and each change of one byte to each other value:
//! with the words `each PART PARTS` a share of these cases, and without words one case in 40. With the words
//! `random COUNT SEED` the damage is random.
#![tactic(auto)]

mod compare;
mod files;
mod mutate;
mod subjects;

use anyhow::{Context, Result, bail};
use compare::DifferenceCounts;
use mutate::{Share, at_random, each_change};
use std::alloc::Global;
use std::env;

// The share of the cases that are judged without arguments.
const ONE_IN_FORTY: Share = Share { part: 0, parts: 40 };

// Returns the number that a word spells.
fn number(word: &str) -> Result<u64> {
    word.parse().context("a number is expected")
}

fn main(rt: HostRuntime) -> Result<()> {
    let mut words = Vec::new(rt.alloc());
    for word in env::args(&rt)?.skip(1) {
        words.push(word)?;
    }
    let counts = match words.as_slice() {
        [] => each_change(rt.alloc(), ONE_IN_FORTY)?,
        [mode, first, second] => {
            let (first, second) = (number(first.as_str())?, number(second.as_str())?);
            counted(rt.alloc(), mode.as_str(), first, second)?
        }
        _ => bail!("the words are `each PART PARTS` or `random COUNT SEED`"),
    };
    println!(rt;
        "{} cases, {} differences",
        counts.cases, counts.differences
    )?;
    Ok(())
}

// Judges a share of all changes, or random damage.
fn counted(alloc: Global, mode: &str, first: u64, second: u64) -> Result<DifferenceCounts> {
    if mode == "random" {
        return Ok(at_random(alloc, first, second)?);
    }
    let share = Share {
        part: first,
        parts: second,
    };
    Ok(each_change(alloc, share)?)
}
