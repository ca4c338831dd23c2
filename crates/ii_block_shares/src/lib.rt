//! Bounds of what documents score by a term: the greatest share in each run of its list, by which runs are passed whose
//! documents score too little.
#![tactic(auto)]

pub mod block_shares;
pub mod norm_ids;
mod runs;
pub mod share_reader;

pub use block_shares::{BlockShare, BlockShares};
pub use norm_ids::norm_id;
pub use share_reader::{RunBound, ShareReader};
