//! Cursors over the documents that queries match, combined from other cursors.
#![tactic(auto)]

pub mod all_docs;
pub mod bit_set;
pub mod exclude;
pub mod intersection;
pub mod phrase;
pub mod phrase_starts;
mod position_piece;
pub mod query_cursor;
pub mod sloppy_phrase;
pub mod term_or_phrase;
pub mod union;

pub use all_docs::AllDocs;
pub use bit_set::{BitSet, BitSetDocSet};
pub use exclude::Exclude;
pub use intersection::Intersection;
pub use phrase::{PhraseMatch, PhrasePart, clear_all};
pub use phrase_starts::count_starts;
pub use position_piece::POSITIONS_READ;
pub use query_cursor::QueryCursor;
pub use sloppy_phrase::SloppyPhraseMatch;
pub use term_or_phrase::TermOrPhrase;
pub use union::Union;
