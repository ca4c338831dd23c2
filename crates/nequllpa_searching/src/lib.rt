//! Finds documents of an open index of JSON lines: those that match a query, the best of them, and those that have a
//! term. Writes them as text, one line for each.
#![tactic(auto)]

pub mod counting;
pub mod deleting;
mod explaining;
mod field_totals;
pub mod finding;
pub mod line_snippets;
pub mod listing;
pub mod places;
pub mod ranking;
mod share_rows;
pub mod stored_part;

pub use counting::{CountFormat, count_all, write_count};
pub use deleting::{docs_to_delete, docs_with_keys, docs_with_term};
pub use finding::{FoundPlaces, TermPositions, find_places, first_docs, wanted_terms};
pub use ii_snippet::MarkStyle;
pub use line_snippets::snippet_of_line;
pub use listing::{Listing, write_listing};
pub use places::SourceLines;
pub use ranking::{BestListing, write_best};
pub use stored_part::StoredPart;
