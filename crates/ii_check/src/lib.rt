//! Validates a term's postings completely when they are opened, and then gives their blocks.
#![tactic(auto)]

mod check;
pub mod checked_blocks;
pub mod checked_positions;
pub mod checked_postings;
pub mod decoded_blocks;
pub mod freq_reading_option;
mod load;
mod places;
mod positions;
pub mod validation;

pub use checked_blocks::CheckedBlocks;
pub use checked_positions::{CheckedPositions, DecodeCount};
pub use checked_postings::CheckedPostings;
pub use decoded_blocks::{BlockLog, DecodedBlocks};
pub use freq_reading_option::FreqReadingOption;
pub use load::NO_FREQ;
pub use validation::Validation;
