//! Tests complete indexes, from index calls to lookups, through the public calls.
#![tactic(auto)]

#[cfg(test)]
mod call_tests;
#[cfg(test)]
mod check_tests;
#[cfg(test)]
mod fault_tests;
#[cfg(test)]
mod growing_tests;
#[cfg(test)]
mod index_tests;
#[cfg(test)]
mod memory_index;
#[cfg(test)]
mod query_text_tests;
#[cfg(test)]
mod search_tests;
#[cfg(test)]
mod serialize_tests;
#[cfg(test)]
mod term_tests;
