// What is printed of a term's key.
ghost use Rattle.std.specs.Prelude.{◌≡◌, IfOk, Some};
ghost use Rattle.ii_io.specs.Faults.{OnlyMemory};
ghost use Rattle.ii_term_text.specs.KeyTexts.{IsOfField, KeyValue, value_key};

use ii_ram::{Fault, Field, FieldEntry, Term};
use ii_term_text::{push_key, term_of};
use std::alloc::Global;

/// The printed key of each value of a field is read back as the term of that key. Such a value is a word, a number,
/// a boolean, a date, bytes or an IP address; or, in a JSON field, one of the first four at any path.
#[tactic(auto, using(ii_term_text::proofs::KeyLaws::key_read_back))]
pub fn printed_keys_are_read_back(
    alloc: Global,
    field: Field,
    entry: &FieldEntry,
    key: &[u8],
) -> Result<Option<Term>, Fault>
    ensures read { (v : KeyValue) → IsOfField entry.now.value_type entry.now.expands_dots v → key.now ≡ value_key v → IfOk result (λ term. term ≡ Some (record { field = field; value = key.now })) }
    ensures only { OnlyMemory result }
{
    let mut text = String::new(alloc);
    push_key(alloc, &mut text, entry.value_type(), key)?;
    term_of(alloc, field, entry, text.as_str())
}
