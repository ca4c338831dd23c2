//! How many tokens the living documents of segments have.
ghost use Rattle.std.specs.Prelude.{◌≡◌, ◌-◌, ◌^◌, IfOk, length, map, min};
ghost use Rattle.std.specs.Option.{option_map};
ghost use Rattle.ii_index.specs.Searching.{totals_view};
ghost use Rattle.ii_index.specs.Statistics.{counts_damage, damage_in, num_tokens_of, tokens_in};
ghost use Rattle.ii_io.specs.Faults.{OnlyMemory};
ghost use Rattle.nequllpa_merging.specs.OpenedSegments.{totals_by_file};

use ii_alive::AliveBits;
use ii_base::{Fault, Field, Part, Schema};
use ii_reader::OpenIndex;
use nequllpa_merging::count_living_tokens;
use std::alloc::Global;

// How many tokens the living documents of a segment have in each field, or the damaged part of its counts.
pub(crate) type SegmentTotals = Result<Vec<u64>, Part>;

// Counts the tokens of the living documents of a segment, unless its counts are damaged.
pub(crate) fn totals_of(
    alloc: Global,
    schema: &Schema,
    index: &OpenIndex,
    counts: Option<Vec<u8>>,
    alive: &AliveBits,
) -> Result<SegmentTotals, Fault>
    requires many { length index.now.readers ≡ length schema.now }
    ensures counted { IfOk result (λ t. totals_view t ≡ totals_by_file (length schema.now) index.now (option_map (λ f. f.items) counts) alive.now) }
    ensures only { OnlyMemory result }
{
    match count_living_tokens(alloc, schema, index, counts, alive) {
        Ok(totals) => Ok(Ok(totals)),
        Err(Fault::Damaged(part)) => Ok(Err(part)),
        Err(fault) => Err(fault),
    }
}

// Returns how many tokens the living documents of a segment have in a field, 0 if its counts are damaged.
fn tokens_in(totals: &SegmentTotals, field: Field) -> u64
    ensures { result ≡ tokens_in field (totals_view totals.now) }
{
    let Ok(totals) = totals else {
        return 0;
    };
    let place = field.field_id() as usize;
    if place >= totals.len() {
        return 0;
    }
    totals[place]
}

// Returns the sum of the tokens of all segments in a field, at most 2^64 - 1.
pub(crate) fn sum_of_tokens(totals: &[SegmentTotals], field: Field) -> u64
    ensures { result ≡ min (2 ^ 64 - 1) (num_tokens_of (map totals_view totals.now) field) }
{
    let mut sum = 0u64;
    for place in 0..totals.len() {
        sum = sum.saturating_add(tokens_in(&totals[place], field));
    }
    sum
}

// Returns the first damaged part of the counts of segments.
pub(crate) fn damaged_counts(totals: &[SegmentTotals]) -> Option<Part>
    ensures { result ≡ counts_damage (map totals_view totals.now) }
{
    for place in 0..totals.len() {
        match damage_in(&totals[place]) {
            Some(part) => return Some(part),
            None => (),
        }
    }
    None
}

// Returns the damaged part of the counts of a segment, if they are damaged.
fn damage_in(totals: &SegmentTotals) -> Option<Part>
    ensures { result ≡ damage_in (totals_view totals.now) }
{
    match totals {
        Ok(_) => None,
        Err(part) => Some(*part),
    }
}
