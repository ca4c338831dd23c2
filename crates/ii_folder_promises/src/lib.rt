//! What an index in a folder promises, its segments and their merges, ranking, and the text of its keys, as a client
//! can prove it: like `ii_promises`, one short function for each sentence.
#![tactic(auto)]

pub mod block_files;
pub mod damage;
pub mod explanations;
pub mod folder;
pub mod index;
pub mod index_prepared;
pub mod index_ranking;
pub mod index_texts;
pub mod keys;
pub mod merging;
pub mod ranges;
pub mod ranking;
pub mod replacing;
pub mod scorers;
pub mod segments;
pub mod stored_fields;
pub mod stored_lines;
