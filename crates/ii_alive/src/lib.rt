//! Flags of documents, one bit each: which documents of a segment are alive.
#![tactic(auto)]

pub mod alive_bits;
pub mod faults;

pub use alive_bits::{AliveBits, reads_written_flags};
pub use faults::AliveFault;
