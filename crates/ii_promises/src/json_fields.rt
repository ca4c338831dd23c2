// The paths and types of a JSON field.
ghost use Rattle.std.specs.Prelude.{◌≡◌, ◌⊎◌, map, None, Some, IfErr, IfOk};
ghost use Rattle.std.specs.Ordering.{nat_cmp};
ghost use Rattle.std.specs.Cmp.Lexicographic.{slice_cmp};
ghost use Rattle.std.specs.List.Sorted.{IsStrictlySortedBy};
ghost use Rattle.ii_reader.specs.JsonFields.{label_of, spaces_of};

use ii_ram::{Fault, InvertedIndexFieldSpace, InvertedIndexReader, Part};
use std::alloc::Global;

/// The paths and types of a field's keys are listed once each, in ascending order, with sums over
/// their terms. The call fails with `OutOfMemory`, or if a key isn't a JSON key.
pub fn json_fields_ascend(
    alloc: Global,
    reader: &InvertedIndexReader,
) -> Result<Vec<InvertedIndexFieldSpace>, Fault>
    ensures fields { IfOk result (λ fields. spaces_of reader.now.terms ≡ Some fields.items) }
    ensures ascending { IfOk result (λ fields. IsStrictlySortedBy (slice_cmp nat_cmp) (map label_of fields.items)) }
    ensures fault { IfErr result (λ e. (e ≡ Fault.OutOfMemory) ⊎ ((e ≡ Fault.Damaged Part.JsonKey) × (spaces_of reader.now.terms ≡ None))) }
{
    reader.list_encoded_json_fields(alloc)
}
