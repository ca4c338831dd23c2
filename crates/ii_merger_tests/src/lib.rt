//! Tests `ii_merger` through its public calls.
#![tactic(auto)]

#[cfg(test)]
mod merge_tests;
