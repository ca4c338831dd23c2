//! What the index promises, as a client can prove it. For most sentences of docs/PROMISES.md there is
//! a short function that uses only public calls. Its contract states the sentence with its numbers
//! written out.
#![tactic(auto)]

pub mod block_cursors;
pub mod bounds;
pub mod cursors;
pub mod faults;
pub mod indexing;
pub mod json_fields;
pub mod opening;
pub mod positions;
pub mod queries;
pub mod searching;
pub mod texts;
pub mod warming;
pub mod writing;
