//! Terms of dates.
ghost use Rattle.std.specs.Prelude.{◌≡◌, IfOk};
ghost use Rattle.std.specs.Option.{option_map};
ghost use Rattle.ii_io.specs.Faults.{OnlyMemory};
ghost use Rattle.ii_base.specs.Values.{flipped, u64_bytes};
ghost use Rattle.ii_dates.specs.Dates.{date_in};

use crate::dates::date_of;
use ii_base::{Fault, Field, Term};
use std::alloc::Global;

/// Returns the term of the date that a text spells, if it spells one: its nanoseconds plus 2^63 in 8 bytes,
/// big-endian. Returns `OutOfMemory` if allocation fails.
pub fn date_term(alloc: Global, field: Field, text: &str) -> Result<Option<Term>, Fault>
    ensures ok { IfOk result (λ term. term ≡ option_map (λ z. record { field = field; value = u64_bytes (flipped z) }) (date_in text.now)) }
    ensures only { OnlyMemory result }
{
    match date_of(text) {
        Some(nanoseconds) => Ok(Some(Term::from_field_i64(alloc, field, nanoseconds)?)),
        None => Ok(None),
    }
}
