//! Tests `ii_codes`, `ii_layout`, `ii_counts`, `ii_termstore` and `ii_termdict` through their public calls.
#![tactic(auto)]

#[cfg(test)]
mod bitpacker_tests;
#[cfg(test)]
mod block_search_tests;
#[cfg(test)]
mod bounds_tests;
#[cfg(test)]
mod count_tests;
#[cfg(test)]
mod dictionary_tests;
#[cfg(test)]
mod merger_tests;
#[cfg(test)]
mod packed_tests;
#[cfg(test)]
mod plain_tests;
#[cfg(test)]
mod positions_tests;
#[cfg(test)]
mod store_tests;
#[cfg(test)]
mod tests;
#[cfg(test)]
mod vint_tests;
