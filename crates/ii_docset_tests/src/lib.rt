//! Tests `ii_docset`, `ii_fieldnorm`, `ii_alive` and `ii_bm25` through their public calls.
#![tactic(auto)]

#[cfg(test)]
mod alive_tests;
#[cfg(test)]
mod bm25_tests;
#[cfg(test)]
mod fieldnorm_tests;
#[cfg(test)]
mod tests;
