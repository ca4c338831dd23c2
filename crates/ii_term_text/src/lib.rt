//! Keys of terms as texts: what `push_key` writes of a key, `term_of` reads back as the term of that key.
#![tactic(auto)]

pub mod addresses;
pub mod keys;
pub mod laws;
pub mod paths;
pub mod terms;

pub use addresses::address_of;
pub use keys::{push_key, push_path_bytes};
pub use paths::{cut_at_space, push_path};
pub use terms::{address_term, bytes_term, term_of};
