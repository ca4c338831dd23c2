//! Tests `ii_file_slice`, `ii_termdict_slice`, `ii_warmup`, `ii_segment_search`, `ii_ranking`, `ii_prepared_term` and
//! `ii_snippet` through their public calls.
#![tactic(auto)]

#[cfg(test)]
mod dictionary_slice_tests;
#[cfg(test)]
mod index_files;
#[cfg(test)]
mod prepared_query_tests;
#[cfg(test)]
mod prepared_tests;
#[cfg(test)]
mod ranking_tests;
#[cfg(test)]
mod searcher_tests;
#[cfg(test)]
mod slice_tests;
#[cfg(test)]
mod snippet_tests;
#[cfg(test)]
mod warmup_tests;
