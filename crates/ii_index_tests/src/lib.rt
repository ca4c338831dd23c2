//! Tests of an index in a directory, by its public calls.
#![tactic(auto)]

#[cfg(test)]
mod tests;
