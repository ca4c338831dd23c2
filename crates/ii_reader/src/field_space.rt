ghost use Rattle.std.specs.Prelude.{◌≡◌, ℕ, ◌⊎◌, ◌+◌, ◌-◌, ◌^◌, if◌then◌else◌, length, drop, map, None, Some, IfErr, IfOk};
ghost use Rattle.std.specs.Option.{option_map};
ghost use Rattle.ii_io.specs.Faults.{OnlyMemory};
ghost use Rattle.ii_termdict.specs.ReadBack.{AreAscending};
ghost use Rattle.ii_definitions.specs.JsonKeys.{path_in, type_in};
ghost use Rattle.ii_reader.specs.JsonFields.{IsWithin, is_same_label, label_of, space_of_term, spaces_of, sum_of, with_space};

use super::inverted_index_reader::InvertedIndexReader;
use super::json_keys::{path_in, type_in};
use ii_base::{Fault, Part, ValueType};
use ii_termdict::{TermInfo, TermStreamer};
use std::alloc::Global;
use std::marker::Model;

/// A path of a JSON field with a type of its values, and the size of its terms.
#[derive(Drop)]
pub struct InvertedIndexFieldSpace {
    /// The bytes of the path, with byte 1 between its segments.
    pub field_name: Vec<u8>,
    /// The type of the values.
    pub field_type: ValueType,
    /// The number of bytes of the postings of its terms.
    pub postings_size: u128,
    /// The number of bytes of the positions of its terms.
    pub positions_size: u128,
    /// The number of terms.
    pub num_terms: u64,
}

impl Model for InvertedIndexFieldSpace {
    ghost use Rattle.ii_reader.specs.JsonFields.{FieldSpaceState};

    ghost Value = { FieldSpaceState };

    ghost view = { λ s. record {
      field_name = s.field_name.items;
      field_type = s.field_type;
      postings_size = s.postings_size;
      positions_size = s.positions_size;
      num_terms = s.num_terms;
    } };
}

impl InvertedIndexFieldSpace {
    // Returns the size of one term.
    fn of_term(
        alloc: Global,
        key: &[u8],
        term_info: &TermInfo,
        field_type: ValueType,
    ) -> Result<InvertedIndexFieldSpace, Fault>
        ensures ok { IfOk result (λ s. s ≡ space_of_term key.now term_info.now field_type) }
        ensures within { IfOk result (λ s. IsWithin 1 s) }
        ensures only { OnlyMemory result }
    {
        Ok(InvertedIndexFieldSpace {
            field_name: Vec::from_slice(alloc, path_in(key))?,
            field_type,
            postings_size: term_info.postings_range.len() as u128,
            positions_size: term_info.positions_range.len() as u128,
            num_terms: 1,
        })
    }

    // Adds a term if it has this path and type, and returns whether it does.
    fn record(&mut self, key: &[u8], term_info: &TermInfo, field_type: ValueType) -> bool
        requires { IsWithin (2 ^ 64 - 2) self.old }
        ensures same { result ≡ is_same_label self.old (space_of_term key.now term_info.now field_type) }
        ensures within { (n : ℕ) → IsWithin n self.old → IsWithin (n + 1) self.new }
        ensures added { self.new ≡ (if result then sum_of self.old (space_of_term key.now term_info.now field_type) else self.old) }
    {
        if field_type != self.field_type {
            return false;
        }
        if path_in(key) != self.field_name.as_slice() {
            return false;
        }
        self.postings_size += term_info.postings_range.len() as u128;
        self.positions_size += term_info.positions_range.len() as u128;
        self.num_terms += 1;
        true
    }
}

impl InvertedIndexReader {
    /// Lists the paths and types of a JSON field's keys in their order, each once, with the size of its
    /// terms. Iterates over all terms.
    ///
    /// Returns `Damaged(JsonKey)` if a key has no byte 0, or no letter of a type after its first one. Returns
    /// `OutOfMemory` if an allocation fails.
    pub fn list_encoded_json_fields(
        &self,
        alloc: Global,
    ) -> Result<Vec<InvertedIndexFieldSpace>, Fault>
        ensures ok { IfOk result (λ fields. spaces_of self.now.terms ≡ Some fields.items) }
        ensures ascending { IfOk result (λ fields. AreAscending (map label_of fields.items)) }
        ensures err { IfErr result (λ e. (e ≡ Fault.OutOfMemory) ⊎ ((e ≡ Fault.Damaged Part.JsonKey) × (spaces_of self.now.terms ≡ None))) }
    {
        let mut terms = self.terms().stream();
        let Some((key, term_info)) = terms.next() else {
            return Ok(Vec::new(alloc));
        };
        let Some(field_type) = type_in(key) else {
            return Err(Fault::Damaged(Part::JsonKey));
        };
        let first = InvertedIndexFieldSpace::of_term(alloc, key, &term_info, field_type)?;
        list_further(alloc, terms, self.terms().num_terms(), first)
    }
}

// Lists the paths and types from the first term on, which was passed.
fn list_further(
    alloc: Global,
    terms: TermStreamer<'_>,
    num_terms: usize,
    first: InvertedIndexFieldSpace,
) -> Result<Vec<InvertedIndexFieldSpace>, Fault>
    requires passed { terms.passed ≡ 1 }
    requires many { num_terms ≡ length terms.entries }
    requires within { IsWithin 1 first }
    ensures ok { IfOk result (λ fields. option_map (with_space first) (spaces_of (drop 1 terms.entry.entries)) ≡ Some fields.items) }
    ensures err { IfErr result (λ e. (e ≡ Fault.OutOfMemory) ⊎ ((e ≡ Fault.Damaged Part.JsonKey) × (spaces_of (drop 1 terms.entry.entries) ≡ None))) }
{
    let mut terms = terms;
    let mut fields = Vec::new(alloc);
    let mut current = first;
    for _term in 1..num_terms {
        let Some((key, term_info)) = terms.next() else {
            return Ok(fields);
        };
        let Some(field_type) = type_in(key) else {
            return Err(Fault::Damaged(Part::JsonKey));
        };
        if current.record(key, &term_info, field_type) {
            continue;
        }
        fields.push(current)?;
        current = InvertedIndexFieldSpace::of_term(alloc, key, &term_info, field_type)?;
    }
    fields.push(current)?;
    Ok(fields)
}
