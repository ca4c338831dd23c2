//! Reads lists, term stores, dictionaries, composite files and complete indexes, bit by bit and slowly. It is
//! written from docs/FORMATS.md alone and shares no code with the crates that it is compared with.
#![tactic(auto)]

mod bits;
mod composites;
mod dictionaries;
mod indexes;
mod lists;
mod positions;
mod spaces;
mod stores;
mod vints;

pub use composites::{Body, body_of, bytes_in, read_composite};
pub use dictionaries::{Entry, read_dictionary};
pub use indexes::{FieldFiles, Files, read_index, read_term};
pub use lists::{Damage, Listed, Mode, read_list};
pub use spaces::{Space, read_spaces};
pub use stores::{Info, read_store};
