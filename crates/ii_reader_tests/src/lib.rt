//! Tests `ii_recorder`, and the cursors and lookups of `ii_reader`, through their public calls.
#![tactic(auto)]

#[cfg(test)]
mod block_tests;
#[cfg(test)]
mod bound_tests;
#[cfg(test)]
mod index_tests;
#[cfg(test)]
mod json_tests;
#[cfg(test)]
mod list_tests;
#[cfg(test)]
mod recorder_tests;
#[cfg(test)]
mod serializer_tests;
#[cfg(test)]
mod written_tests;
