//! Finds what is damaged in the files of an index, whatever they hold. It reads each field separately and
//! walks each of its lists.
#![tactic(auto)]

pub mod checking;
mod counts;
pub mod damage;
pub mod field_bodies;
mod keys;
pub mod walked_files;
pub mod walking;

pub use checking::{Totals, find_damages, tokens_of_calls_fit};
pub use damage::{ByteRange, Damage, FieldPlaces, FoundDamage};
pub use field_bodies::FieldBodies;
pub use walked_files::{OpenedField, WalkedFiles};
pub use walking::TermWalk;
