ghost use Rattle.std.specs.Prelude.{◌≡◌, string_bytes, IfOk, None, Ok, OnErr, OnOk, Some};
ghost use Rattle.std.specs.Option.{option_map};
ghost use Rattle.ii_io.specs.Faults.{OnlyMemory};
ghost use Rattle.ii_json.specs.DottedPaths.{dot_between, with_dots};
ghost use Rattle.ii_json.specs.FastValues.{IsPathAlone, bool_in, fast_value_in, i64_in, typed_value, u64_in, with_value};

use crate::fast_values::{bool_in, i64_in, u64_in};
use ii_base::{FastValue, Fault, Term};
use std::alloc::Global;

// The separator of path segments, and the character shown for it.
const SEGMENT_SEPARATOR: char = '\u{1}';

const DOT: char = '.';

/// Replaces each byte 1, which separates the segments of a path, with a dot. Returns `OutOfMemory`, and
/// leaves `path` as it is, if allocation fails.
pub fn json_path_sep_to_dot(path: &mut String) -> Result<(), Fault>
    ensures ok { OnOk result (string_bytes path.new ≡ with_dots (string_bytes path.old)) }
    ensures err { OnErr result (string_bytes path.new ≡ string_bytes path.old) }
    ensures only { OnlyMemory result }
{
    let mut dotted = String::with_capacity(*path.allocator(), path.len())?;
    for character in path.chars() {
        dotted.push(dot_between(character))?;
    }
    *path = dotted;
    Ok(())
}

// Returns a dot for the separator, and any other character unchanged.
fn dot_between(character: char) -> char
    ensures { result ≡ dot_between character }
{
    if character == SEGMENT_SEPARATOR {
        DOT
    } else {
        character
    }
}

/// Returns the term with the value of a text appended: its `parse` as `i64`, else as `u64`, else as `bool`.
/// Returns `None` if it is none of these. `term` must belong to a JSON field, and end with its path.
/// Returns `OutOfMemory` if allocation fails.
pub fn convert_to_fast_value_and_append_to_json_term(
    alloc: Global,
    term: &Term,
    phrase: &str,
) -> Result<Option<Term>, Fault>
    requires { IsPathAlone term.now.value }
    ensures ok { IfOk result (λ converted. converted ≡ option_map (with_value term.now) (fast_value_in phrase.now)) }
    ensures none { fast_value_in phrase.now ≡ None → result ≡ Ok None }
    ensures only { OnlyMemory result }
{
    if let Some(number) = i64_in(phrase) {
        return Ok(Some(with_fast_value(alloc, term, number)?));
    }
    if let Some(number) = u64_in(phrase) {
        return Ok(Some(with_fast_value(alloc, term, number)?));
    }
    if let Some(value) = bool_in(phrase) {
        return Ok(Some(with_fast_value(alloc, term, value)?));
    }
    Ok(None)
}

// Returns the term with a value appended.
fn with_fast_value<T: FastValue>(alloc: Global, term: &Term, value: T) -> Result<Term, Fault>
    ensures ok { IfOk result (λ more. more ≡ with_value term.now (typed_value T.type_of_values (T.number value))) }
    ensures only { OnlyMemory result }
{
    let mut more = Term::from_field_bytes(alloc, term.field(), term.serialized_value_bytes())?;
    more.append_type_and_fast_value(value)?;
    Ok(more)
}
