//! The counts of living documents, field by field.
ghost use Rattle.std.specs.Prelude.{◌≡◌, ◌<◌, ◌⊎◌, ◌^◌, ◌++◌, length, map, slice_index, sum, IfErr, IfOk, OnOk};
ghost use Rattle.std.specs.List.{AllByRecursion};
ghost use Rattle.ii_io.specs.Faults.{OnlyMemory};
ghost use Rattle.ii_segments.specs.Segments.{living_docs};
ghost use Rattle.ii_counts_merger.specs.CountsSources.{HasCounts, SetsRow, living_row, merged_row, opened_counts};

use crate::counts_source::CountsSource;
use ii_alive::AliveBits;
use ii_base::{Fault, Field, Part};
use ii_counts::{CountReader, CountsWriter};
use std::alloc::Global;

// Returns the counts of the living documents of all segments in a field.
pub(crate) fn merged_row(
    alloc: Global,
    field: Field,
    sources: &[CountsSource<'_>],
) -> Result<Vec<u32>, Fault>
    ensures ok { IfOk result (λ row. row.items ≡ merged_row field (map opened_counts sources.now)) }
    ensures sound { OnOk result (AllByRecursion (HasCounts field) (map opened_counts sources.now)) }
    ensures fault { IfErr result (λ e. (e ≡ Fault.OutOfMemory) ⊎ ((e ≡ Fault.Damaged Part.TokenCount) × ¬ AllByRecursion (HasCounts field) (map opened_counts sources.now))) }
{
    let mut row = Vec::new(alloc);
    for place in 0..sources.len() {
        if let Err(fault) = push_row(field, sources[place], &mut row) {
            return Err(fault);
        }
    }
    Ok(row)
}

// Adds the counts of the living documents of a segment in a field.
pub(crate) fn push_row(
    field: Field,
    source: CountsSource<'_>,
    row: &mut Vec<u32>,
) -> Result<(), Fault>
    ensures ok { OnOk result (row.new.items ≡ row.old.items ++ living_row field (opened_counts source.entry)) }
    ensures sound { OnOk result (HasCounts field (opened_counts source.entry)) }
    ensures fault { IfErr result (λ e. (e ≡ Fault.OutOfMemory) ⊎ ((e ≡ Fault.Damaged Part.TokenCount) × ¬ HasCounts field (opened_counts source.entry))) }
{
    let mut counts = match source.counts.get_field(field, source.alive.num_docs()) {
        Ok(Some(counts)) => counts,
        Ok(None) => return Err(Fault::Damaged(Part::TokenCount)),
        Err(fault) => return Err(fault),
    };
    push_living(&mut counts, source.alive, row)
}

// Adds the counts of living documents.
fn push_living(counts: &mut CountReader, alive: &AliveBits, row: &mut Vec<u32>) -> Result<(), Fault>
    requires many { length counts.old.counts ≡ length alive.now }
    ensures ok { OnOk result (row.new.items ≡ row.old.items ++ map (slice_index counts.old.counts) (living_docs alive.now)) }
    ensures only { OnlyMemory result }
{
    for doc in 0..alive.num_docs() {
        if alive.is_alive(doc) {
            row.push(counts.count(doc))?;
        }
    }
    Ok(())
}

// Returns the sum of the counts of a row.
pub(crate) fn sum_of(row: &[u32]) -> u64
    requires { length row.now < 2 ^ 32 }
    ensures { result ≡ sum row.now }
{
    let mut total = 0u64;
    for place in 0..row.len() {
        total += u64::from(row[place]);
    }
    total
}

// Records a row of counts in a field, from the first document on.
pub(crate) fn record_row(writer: &mut CountsWriter, field: Field, row: &[u32]) -> Result<(), Fault>
    requires known { field < length writer.old }
    requires few { length row.now < 2 ^ 32 }
    ensures ok { OnOk result (SetsRow writer.old writer.new field (length row.now) row.now) }
    ensures only { OnlyMemory result }
{
    for place in 0..row.len() {
        writer.record(place as u32, field, row[place])?;
    }
    Ok(())
}
