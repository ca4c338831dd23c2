//! Numbers and booleans as texts.
ghost use Rattle.std.specs.Prelude.{◌≡◌, IfOk};
ghost use Rattle.std.specs.Option.{option_map};
ghost use Rattle.ii_io.specs.Faults.{OnlyMemory};
ghost use Rattle.ii_base.specs.Values.{flipped, number_of_bool, u64_bytes};
ghost use Rattle.ii_json.specs.FastValues.{bool_in, i64_in, u64_in};

use ii_base::{Fault, Field, Term};
use std::alloc::Global;

/// Returns the `i64` that a text denotes: decimal digits, after a sign or none.
pub fn i64_in(text: &str) -> Option<i64>
    ensures { result ≡ i64_in text.now }
{
    text.parse().ok()
}

/// Returns the `u64` that a text denotes: decimal digits, after a plus or none.
pub fn u64_in(text: &str) -> Option<u64>
    ensures { result ≡ u64_in text.now }
{
    text.parse().ok()
}

/// Returns the boolean that a text denotes: `true` or `false`.
pub fn bool_in(text: &str) -> Option<bool>
    ensures { result ≡ bool_in text.now }
{
    text.parse().ok()
}

/// Returns the term of the unsigned number that a text denotes, if it denotes one. Returns `OutOfMemory` if
/// allocation fails.
pub fn u64_term(alloc: Global, field: Field, text: &str) -> Result<Option<Term>, Fault>
    ensures ok { IfOk result (λ term. term ≡ option_map (λ n. record { field = field; value = u64_bytes n }) (u64_in text.now)) }
    ensures only { OnlyMemory result }
{
    match u64_in(text) {
        Some(number) => Ok(Some(Term::from_field_u64(alloc, field, number)?)),
        None => Ok(None),
    }
}

/// Returns the term of the signed number that a text denotes, if it denotes one. Returns `OutOfMemory` if
/// allocation fails.
pub fn i64_term(alloc: Global, field: Field, text: &str) -> Result<Option<Term>, Fault>
    ensures ok { IfOk result (λ term. term ≡ option_map (λ n. record { field = field; value = u64_bytes (flipped n) }) (i64_in text.now)) }
    ensures only { OnlyMemory result }
{
    match i64_in(text) {
        Some(number) => Ok(Some(Term::from_field_i64(alloc, field, number)?)),
        None => Ok(None),
    }
}

/// Returns the term of the boolean that a text denotes, if it denotes one. Returns `OutOfMemory` if
/// allocation fails.
pub fn bool_term(alloc: Global, field: Field, text: &str) -> Result<Option<Term>, Fault>
    ensures ok { IfOk result (λ term. term ≡ option_map (λ b. record { field = field; value = u64_bytes (number_of_bool b) }) (bool_in text.now)) }
    ensures only { OnlyMemory result }
{
    match bool_in(text) {
        Some(value) => Ok(Some(Term::from_field_bool(alloc, field, value)?)),
        None => Ok(None),
    }
}
