//! Defines the content of an index: index calls and their tokens, the postings of a key, and what three files
//! say about them. Apart from the type of an index call it holds only definitions, which writing and reading
//! crates share.
#![tactic(auto)]

pub mod index_call;

pub use index_call::IndexCall;
