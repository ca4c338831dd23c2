//! Writes what an index of JSON lines holds: its fields, the terms of a field, the documents of a term, what they take,
//! and its damages. Loads its stored documents alone.
#![tactic(auto)]

pub mod checking;
pub mod damage_row;
pub mod fields;
pub mod merged_terms;
pub mod postings;
pub mod stats;
pub mod stored_lines;
pub mod terms;

pub use checking::{Checked, DamageRows, check, counts_damage};
pub use damage_row::DamageRow;
pub use fields::write_fields;
pub use ii_term_text::term_of;
pub use merged_terms::{MergedTerm, MergedTerms};
pub use postings::write_postings;
pub use stats::{write_stats, write_stats_json};
pub use stored_lines::{DamagedBlock, StoredLines, StoredLinesFault, load_lines, store_damages};
pub use terms::{TermChoice, write_terms};
