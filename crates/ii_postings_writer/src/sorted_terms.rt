ghost use Rattle.std.specs.Prelude.{All, ◌≡◌, ◌≤◌, ◌<◌, ◌++◌, ◌∷◌, ℕ, List, [], drop, length, map, replicate, slice_index_or, slice_set, bytes_eq, OnOk, IfOk};
ghost use Rattle.std.specs.List.{AllByRecursion, IsDistinct, range_with_len};
ghost use Rattle.std.specs.List.Sorted.{IsPermutation};
ghost use Rattle.std.specs.Map.{keys_of};
ghost use Rattle.ii_io.specs.Faults.{OnlyMemory};
ghost use Rattle.ii_json.specs.PathRank.{path_ranks};
ghost use Rattle.ii_json.specs.Paths.{AreDistinct};
ghost use Rattle.ii_recorder.specs.AnyRecorder.{any_state};
ghost use Rattle.indexmap.specs.IndexMap.{keys};
ghost use Rattle.ii_postings_writer.specs.IndexingTerm.{AreTermBytes, field_in};
ghost use Rattle.ii_postings_writer.specs.SortKeys.{IsKept, kept_cmp, padded_number};
ghost use Rattle.ii_postings_writer.specs.ResolvedTerms.{AreClean, AreSorted, HoldIds, behind_id, is_json_field, path_id_in, rank_of, resolved, resolved_terms, value_place};
ghost use Rattle.ii_postings_writer.specs.SortedTerms.{IsTermBelow, SortedTerm, kept_state, seen, state_of, terms_in};

use crate::postings_writer::TermRecorders;
use crate::term_key::TermKey;
use ii_base::Fault;
use ii_json::{OrderedPathId, PathToUnorderedId};
use ii_recorder::AnyRecorder;
use indexmap::IndexMap;
use std::alloc::Global;
use std::cmp::Ordering;
use std::marker::Model;

// The lengths of a field and of a path id in a term, in bytes.
const FIELD_LEN: usize = 4;

const ID_LEN: usize = 4;

/// A term of a context, with its recorder.
#[derive(Clone, Copy)]
pub struct KeptTerm<'a> {
    // Its bytes, which hold a path id in a JSON field.
    pub(crate) term: &'a TermKey,
    // The recorder of its postings.
    pub(crate) recorder: &'a AnyRecorder,
    // Its field.
    pub(crate) field: u32,
    // The rank of its path, or 0 if it has none.
    pub(crate) rank: u32,
    // The first 8 bytes of its value as a big-endian number, with 0 for each byte that is missing.
    pub(crate) start: u64,
}

/// The borrowed terms of a context, in an order of their own.
#[derive(Drop)]
pub(crate) struct LentTerms<'a> {
    terms: Vec<KeptTerm<'a>>,
}

impl<'a> Model for LentTerms<'a> {
    ghost use Rattle.std.specs.Prelude.{map};
    ghost use Rattle.ii_postings_writer.specs.IndexingContext.{TermIndex};
    ghost use Rattle.ii_postings_writer.specs.SortedTerms.{kept_state};

    ghost Value = { TermIndex };

    ghost view = { λ l. map kept_state l.terms.items };
}

impl TermRecorders {
    // Returns the terms in the order of their keys. `flags` says which fields hold path ids, and
    // `ranks` orders these ids.
    pub(crate) fn sorted<'a>(
        &'a self,
        alloc: Global,
        flags: &[bool],
        ranks: &[OrderedPathId],
    ) -> Result<LentTerms<'a>, Fault>
        ensures moved { IfOk result (IsPermutation self.entry.now) }
        ensures sorted { (paths : List (List ℕ)) → AreDistinct paths → AreClean paths → ranks.entry.now ≡ path_ranks paths → HoldIds flags.entry.now paths self.entry.now → IfOk result (AreSorted flags.entry.now paths) }
        ensures only { OnlyMemory result }
    {
        let mut terms = lent_terms(alloc, &self.recorders, flags, ranks)?;
        terms.sort_unstable_by(
            |left: &KeptTerm, right: &KeptTerm| -> Ordering
                ensures { result ≡ kept_cmp flags.entry.now left.now right.now }
            { compare(flags, left, right) },
        );
        Ok(LentTerms { terms })
    }
}

// Borrows the terms of a map, in its order.
fn lent_terms<'a>(
    alloc: Global,
    recorders: &'a IndexMap<TermKey, AnyRecorder>,
    flags: &[bool],
    ranks: &[OrderedPathId],
) -> Result<Vec<KeptTerm<'a>>, Fault>
    requires terms { All AreTermBytes (keys recorders.now) }
    ensures ok { IfOk result (λ terms. map kept_state terms.items ≡ map seen recorders.entry.now.entries) }
    ensures kept { IfOk result (λ terms. AllByRecursion (IsKept flags.entry.now ranks.entry.now) terms.items) }
    ensures distinct { IsDistinct bytes_eq (keys_of recorders.entry.now.entries) }
    ensures only { OnlyMemory result }
{
    let mut terms = Vec::with_capacity(alloc, recorders.len())?;
    for place in 0..recorders.len() {
        let Some((term, recorder)) = recorders.get_index(place) else {
            return Ok(terms);
        };
        terms.push(kept(flags, ranks, term, recorder))?;
    }
    Ok(terms)
}

// Returns a term with the numbers that are compared first.
fn kept<'a>(
    flags: &[bool],
    ranks: &[OrderedPathId],
    term: &'a TermKey,
    recorder: &'a AnyRecorder,
) -> KeptTerm<'a>
    requires long { 4 ≤ length term.now }
    ensures same { kept_state result ≡ (term.entry.now, any_state recorder.entry.now) }
    ensures kept { IsKept flags.now ranks.now result }
{
    let bytes = term.as_slice();
    let id = path_id_in(flags, bytes);
    KeptTerm {
        term,
        recorder,
        field: number_in(bytes),
        rank: rank_of(ranks, id),
        start: padded_number(behind_id(id, bytes)),
    }
}

// Returns the first 8 bytes as a big-endian number, with 0 for each byte that is missing.
fn padded_number(bytes: &[u8]) -> u64
    ensures { result ≡ padded_number 8 bytes.now }
{
    let mut padded = [0; 8];
    let len = bytes.len().min(8);
    padded[..len].copy_from_slice(&bytes[..len]);
    u64::from_be_bytes(padded)
}

// Compares two terms by their numbers, then by the bytes of their values.
fn compare(flags: &[bool], left: &KeptTerm<'_>, right: &KeptTerm<'_>) -> Ordering
    ensures { result ≡ kept_cmp flags.now left.now right.now }
{
    let by_path = left
        .field
        .cmp(&right.field)
        .then(left.rank.cmp(&right.rank));
    let by_numbers = by_path.then(left.start.cmp(&right.start));
    if by_numbers.is_ne() {
        return by_numbers;
    }
    value_of(flags, left.term.as_slice()).cmp(value_of(flags, right.term.as_slice()))
}

// Returns the bytes of a term's value.
fn value_of<'a>(flags: &[bool], term: &'a [u8]) -> &'a [u8]
    ensures { result.now ≡ behind_id flags.now term.now }
{
    behind_id(path_id_in(flags, term), term)
}

// Returns the bytes of a term after the field, and after the path id if there is one.
pub(crate) fn behind_id(id: Option<u32>, term: &[u8]) -> &[u8]
    ensures { result.now ≡ drop (value_place id) term.now }
{
    let place = if id.is_some() {
        FIELD_LEN + ID_LEN
    } else {
        FIELD_LEN
    };
    &term[place.min(term.len())..]
}

// Returns the rank of a path, or 0 if there is none.
fn rank_of(ranks: &[OrderedPathId], id: Option<u32>) -> u32
    ensures { result ≡ rank_of ranks.now id }
{
    let Some(id) = id else {
        return 0;
    };
    match ranks.get(id as usize) {
        Some(rank) => rank.path_id(),
        None => 0,
    }
}

// Returns the path id in a term, if its field holds such ids.
fn path_id_in(flags: &[bool], term: &[u8]) -> Option<u32>
    ensures { result ≡ path_id_in flags.now term.now }
{
    if term.len() < FIELD_LEN + ID_LEN {
        return None;
    }
    if !is_json_field(flags, number_in(term)) {
        return None;
    }
    Some(number_in(&term[FIELD_LEN..]))
}

// Returns whether a field holds JSON values.
fn is_json_field(flags: &[bool], field: u32) -> bool
    ensures { result ≡ is_json_field flags.now field }
{
    match flags.get(field as usize) {
        Some(flag) => *flag,
        None => false,
    }
}

// Reads the first 4 bytes as a big-endian number.
#[tactic(auto, unfolding(crate::specs::IndexingTerm::field_in))]
fn number_in(bytes: &[u8]) -> u32
    requires { 4 ≤ length bytes.now }
    ensures { result ≡ field_in bytes.now }
{
    u32::from_be_bytes([bytes[0], bytes[1], bytes[2], bytes[3]])
}

/// A term of a field, with its recorder. Its key is composed when it is written.
#[derive(Clone, Copy)]
pub struct TermOfField<'a> {
    // Its bytes, which hold a path id in a JSON field.
    pub(crate) term: &'a TermKey,
    // The recorder of its postings.
    pub(crate) recorder: &'a AnyRecorder,
    // The paths, by their ids.
    pub(crate) paths: &'a PathToUnorderedId,
    // The id of its path, in a JSON field.
    pub(crate) id: Option<u32>,
}

/// Some terms of one field.
#[derive(Drop)]
pub(crate) struct FieldTerms<'a> {
    terms: Vec<TermOfField<'a>>,
}

impl<'a> Model for FieldTerms<'a> {
    ghost use Rattle.std.specs.Prelude.{List, map};
    ghost use Rattle.ii_postings_writer.specs.SortedTerms.{SortedTerm, state_of};

    ghost Value = { List SortedTerm };

    ghost view = { λ f. map state_of f.terms.items };
}

impl<'a> FieldTerms<'a> {
    pub(crate) fn new(alloc: Global) -> FieldTerms<'a>
        ensures { result ≡ [] }
    {
        FieldTerms {
            terms: Vec::new(alloc),
        }
    }

    pub(crate) fn as_slice(&self) -> &[TermOfField<'a>]
        ensures { map state_of result.now ≡ self.now }
    {
        &self.terms
    }

    pub(crate) fn push(&mut self, term: TermOfField<'a>) -> Result<(), Fault>
        ensures ok { OnOk result (self.new ≡ self.old ++ state_of term.entry ∷ []) }
        ensures only { OnlyMemory result }
    {
        self.terms.push(term)?;
        Ok(())
    }
}

// Returns a term with what its key is composed of.
fn keyed<'a>(
    flags: &[bool],
    paths: &'a PathToUnorderedId,
    term: &'a TermKey,
    recorder: &'a AnyRecorder,
) -> TermOfField<'a>
    requires long { 4 ≤ length term.now }
    ensures { state_of result ≡ record { key = drop 4 (resolved flags.now paths.now term.now); recorder = any_state recorder.now } }
{
    TermOfField {
        term,
        recorder,
        paths,
        id: path_id_in(flags, term.as_slice()),
    }
}

// Adds a term to those of its field, by its key.
fn add_term<'a>(
    fields: &mut Vec<FieldTerms<'a>>,
    flags: &[bool],
    paths: &'a PathToUnorderedId,
    term: &'a TermKey,
    recorder: &'a AnyRecorder,
) -> Result<(), Fault>
    requires long { 4 ≤ length term.now }
    requires known { field_in term.now < length fields.old.items }
    ensures ok { OnOk result (fields.new.items ≡ slice_set fields.old.items (field_in term.now)
        (slice_index_or fields.old.items (field_in term.now) [] ++ record { key = drop 4 (resolved flags.now paths.now term.now); recorder = any_state recorder.now } ∷ [])) }
    ensures only { OnlyMemory result }
{
    let field = number_in(term.as_slice()) as usize;
    fields[field].push(keyed(flags, paths, term, recorder))
}

// Creates `num_fields` empty lists of terms.
fn no_terms<'a>(alloc: Global, num_fields: usize) -> Result<Vec<FieldTerms<'a>>, Fault>
    ensures ok { IfOk result (λ fields. fields.items ≡ replicate num_fields []) }
    ensures only { OnlyMemory result }
{
    let mut fields = Vec::new(alloc);
    for _field in 0..num_fields {
        fields.push(FieldTerms::new(alloc))?;
    }
    Ok(fields)
}

// Returns the terms of each of `num_fields` fields, by their keys.
fn by_field<'a>(
    alloc: Global,
    terms: &[KeptTerm<'a>],
    flags: &[bool],
    paths: &'a PathToUnorderedId,
    num_fields: usize,
) -> Result<Vec<FieldTerms<'a>>, Fault>
    requires known { AllByRecursion (IsTermBelow num_fields) (map kept_state terms.now) }
    ensures ok { IfOk result (λ fields. fields.items ≡ map (λ field. terms_in field (resolved_terms flags.now paths.entry.now (map kept_state terms.now))) (range_with_len 0 num_fields)) }
    ensures only { OnlyMemory result }
{
    let mut fields = no_terms(alloc, num_fields)?;
    for place in 0..terms.len() {
        let kept = terms[place];
        add_term(&mut fields, flags, paths, kept.term, kept.recorder)?;
    }
    Ok(fields)
}

impl<'a> LentTerms<'a> {
    // Returns the terms of each of `num_fields` fields, by their keys.
    pub(crate) fn by_field(
        &self,
        alloc: Global,
        flags: &[bool],
        paths: &'a PathToUnorderedId,
        num_fields: usize,
    ) -> Result<Vec<FieldTerms<'a>>, Fault>
        requires known { AllByRecursion (IsTermBelow num_fields) self.now }
        ensures ok { IfOk result (λ fields. fields.items ≡ map (λ field. terms_in field (resolved_terms flags.now paths.entry.now self.now)) (range_with_len 0 num_fields)) }
        ensures only { OnlyMemory result }
    {
        by_field(alloc, &self.terms, flags, paths, num_fields)
    }
}
