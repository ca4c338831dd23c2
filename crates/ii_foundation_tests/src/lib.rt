//! Tests `ii_store`, `ii_block_file`, `ii_io`, `ii_base`, `ii_tokenizers` and `ii_json` through their public calls.
#![tactic(auto)]

#[cfg(test)]
mod block_file_tests;
#[cfg(test)]
mod io_tests;
#[cfg(test)]
mod json_tests;
#[cfg(test)]
mod leaf_tests;
#[cfg(test)]
mod segment_tests;
#[cfg(test)]
mod store_tests;
#[cfg(test)]
mod tests;
#[cfg(test)]
mod tokenizer_tests;
#[cfg(test)]
mod value_tests;
