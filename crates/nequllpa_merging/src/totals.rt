//! How many tokens the living documents of segments have.
ghost use Rattle.std.specs.Prelude.{◌≡◌, ◌<◌, ◌≤◌, ◌⊎◌, ◌^◌, IfErr, IfOk, None, Ok, Some, length, map};
ghost use Rattle.std.specs.List.{AllByRecursion};
ghost use Rattle.std.specs.Option.{option_map};
ghost use Rattle.ii_base.specs.declared.doc_id.TheConstants.{TERMINATED};
ghost use Rattle.ii_merger.specs.MergedIndex.{all_living};
ghost use Rattle.ii_reader.specs.InvertedIndexReader.{IsRefusal};
ghost use Rattle.nequllpa_merging.specs.MergedSegments.{HasTooManyTokens, merge_source, total_of, totals_of};
ghost use Rattle.nequllpa_merging.specs.OpenedSegments.{living_total, living_totals, opened_view, totals_by_file};

use crate::faults::MergeFault;
use crate::opening::{OpenedSegment, open_counts};
use ii_alive::AliveBits;
use ii_base::{DocId, Fault, Field, LimitName, Part, Schema, TERMINATED};
use ii_counts::CountReaders;
use ii_counts_merger::{CountsSource, count_tokens};
use ii_directory::ReadAt;
use ii_reader::OpenIndex;
use std::alloc::Global;

/// Returns how many tokens the living documents of a segment have in each field, by its file of counts if it has one.
/// Without counts they are known if no document was deleted. The index must have a reader for each field.
///
/// # Errors
///
/// `Damaged(Composite)` if the table of the file is corrupt; `Damaged(TokenCount)` if it doesn't have a count for each
/// document, or there is no file, and a document was deleted; `OutOfMemory` if an allocation fails.
pub fn count_living_tokens(
    alloc: Global,
    schema: &Schema,
    index: &OpenIndex,
    counts: Option<Vec<u8>>,
    alive: &AliveBits,
) -> Result<Vec<u64>, Fault>
    requires many { length index.now.readers ≡ length schema.now }
    ensures ok { IfOk result (λ v. totals_by_file (length schema.now) index.now (option_map (λ f. f.items) counts) alive.now ≡ Ok v.items) }
    ensures err { IfErr result (IsRefusal (totals_by_file (length schema.now) index.now (option_map (λ f. f.items) counts) alive.now)) }
{
    let counts = match open_counts(alloc, counts) {
        Ok(counts) => counts,
        Err(fault) => return Err(fault),
    };
    match living_totals(alloc, schema, index, &counts, alive) {
        Ok(totals) => Ok(totals),
        Err(fault) => Err(fault),
    }
}

// Returns how many tokens the living documents of a segment have in each field.
pub(crate) fn living_totals(
    alloc: Global,
    schema: &Schema,
    index: &OpenIndex,
    counts: &Option<CountReaders>,
    alive: &AliveBits,
) -> Result<Vec<u64>, Fault>
    requires many { length index.now.readers ≡ length schema.now }
    ensures ok { IfOk result (λ v. living_totals (length schema.now) index.now counts.now alive.now ≡ Ok v.items) }
    ensures err { IfErr result (IsRefusal (living_totals (length schema.now) index.now counts.now alive.now)) }
{
    let mut totals = Vec::new(alloc);
    for place in 0..schema.num_fields() {
        let field = Field::from_field_id(place as u32);
        let total = match living_total(alloc, field, index, counts, alive) {
            Ok(total) => total,
            Err(fault) => return Err(fault),
        };
        totals.push(total)?;
    }
    Ok(totals)
}

// Returns how many tokens the living documents of a segment have in a field, by its counts. Without counts it is
// known if no document was deleted.
fn living_total(
    alloc: Global,
    field: Field,
    index: &OpenIndex,
    counts: &Option<CountReaders>,
    alive: &AliveBits,
) -> Result<u64, Fault>
    requires known { field < length index.now.readers }
    ensures ok { IfOk result (λ n. living_total field index.now counts.now alive.now ≡ Some n) }
    ensures err { IfErr result (λ e. (e ≡ Fault.OutOfMemory) ⊎ ((e ≡ Fault.Damaged Part.TokenCount) × (living_total field index.now counts.now alive.now ≡ None))) }
{
    if let Some(counts) = counts {
        return count_tokens(alloc, field, CountsSource { counts, alive });
    }
    if alive.num_living() != alive.num_docs() {
        return Err(Fault::Damaged(Part::TokenCount));
    }
    Ok(index.reader(field).total_num_tokens())
}

// Returns how many tokens the living documents of all segments have in each field.
pub(crate) fn all_totals<F: ReadAt + Drop>(
    alloc: Global,
    schema: &Schema,
    segments: &[OpenedSegment<F>],
) -> Result<Vec<u64>, Fault>
    requires many { AllByRecursion (λ o. length o.num_tokens ≡ length schema.now) (map opened_view segments.now) }
    ensures ok { IfOk result (λ v. v.items ≡ totals_of (length schema.now) (map opened_view segments.now)) }
    ensures err { IfErr result (λ e. (e ≡ Fault.OutOfMemory) ⊎ ((e ≡ Fault.Limit LimitName.Tokens) × HasTooManyTokens schema.now (map opened_view segments.now))) }
{
    let mut totals = Vec::new(alloc);
    for place in 0..schema.num_fields() {
        let field = Field::from_field_id(place as u32);
        let total = match sum_of_totals(field, segments) {
            Ok(total) => total,
            Err(fault) => return Err(fault),
        };
        totals.push(total)?;
    }
    Ok(totals)
}

// Returns how many tokens the living documents of all segments have in a field.
fn sum_of_totals<F: ReadAt + Drop>(
    field: Field,
    segments: &[OpenedSegment<F>],
) -> Result<u64, Fault>
    requires known { AllByRecursion (λ o. field < length o.num_tokens) (map opened_view segments.now) }
    ensures ok { IfOk result (λ n. n ≡ total_of field (map opened_view segments.now)) }
    ensures err { IfErr result (λ e. (e ≡ Fault.Limit LimitName.Tokens) × (2 ^ 64 ≤ total_of field (map opened_view segments.now))) }
{
    let mut total = 0u64;
    for place in 0..segments.len() {
        let totals = segments[place].num_tokens.as_slice();
        let more = totals[field.field_id() as usize];
        if more > u64::MAX - total {
            return Err(Fault::Limit(LimitName::Tokens));
        }
        total += more;
    }
    Ok(total)
}

// Returns how many documents of all segments are alive.
pub(crate) fn num_living<F: ReadAt + Drop>(
    segments: &[OpenedSegment<F>],
) -> Result<DocId, MergeFault>
    ensures ok { IfOk result (λ n. n ≡ all_living (map merge_source (map opened_view segments.now))) }
    ensures few { IfOk result (λ n. n ≤ TERMINATED) }
    ensures err { IfErr result (λ e. (e ≡ MergeFault.TooManyDocuments) × (TERMINATED < all_living (map merge_source (map opened_view segments.now)))) }
{
    let mut total = 0u32;
    for place in 0..segments.len() {
        let more = segments[place].alive.num_living();
        if more > TERMINATED - total {
            return Err(MergeFault::TooManyDocuments);
        }
        total += more;
    }
    Ok(total)
}
