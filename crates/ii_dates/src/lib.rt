//! Dates: instants in nanoseconds since 1970-01-01T00:00:00Z, as signed numbers of 64 bits, and their texts by
//! RFC 3339. What `push_date` writes, `date_of` reads back.
#![tactic(auto)]

pub mod dates;
pub mod laws;
pub mod terms;

pub use dates::{date_of, push_date};
pub use terms::date_term;
