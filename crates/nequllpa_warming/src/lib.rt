//! Opens of an index of JSON lines what one query reads, by ranges of its files.
#![tactic(auto)]

pub mod faults;
pub mod warming;

pub use faults::WarmupFault;
pub use ii_warmup::EnableScoring;
pub use warming::warm_up_index;
