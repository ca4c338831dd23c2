//! Writes the counts of the living documents of segments as one file.
ghost use Rattle.std.specs.Prelude.{◌≡◌, ◌<◌, ◌⊎◌, ◌^◌, List, length, map, sum, IfErr, IfOk, OnOk};
ghost use Rattle.std.specs.List.{range_with_len};
ghost use Rattle.ii_definitions.specs.Postings.{field_count};
ghost use Rattle.ii_counts.specs.CountsWriter.{HoldRows, IsRowsFault};
ghost use Rattle.ii_segments.specs.HoldCounts.{HoldCounts};
ghost use Rattle.ii_segments.specs.Segments.{Segment, index_tokens, num_docs_of};
ghost use Rattle.ii_counts_merger.specs.CountsSources.{CountsSourcesHold, HasCounts, HasRows, HaveCounts, living_row, merged_rows, merged_totals, num_merged_docs, opened_counts};

use crate::counts_source::CountsSource;
use crate::rows::{merged_row, push_row, record_row, sum_of};
use ii_base::{DocId, Fault, Field, Part, Schema};
use ii_counts::CountsWriter;
use ii_segments::counts_of_segments;
use std::alloc::Global;

/// The counts of the living documents of segments.
#[derive(Drop)]
pub struct MergedCounts {
    /// For each field, how many tokens all documents have.
    pub num_tokens: Vec<u64>,
    /// The file of counts: for each field, how many tokens each document has.
    pub bytes: Vec<u8>,
}

/// Returns the counts of the living documents of several segments, numbered one segment after the other;
/// `num_docs` must be the number of these documents.
///
/// # Errors
///
/// * `Damaged(TokenCount)` if a segment doesn't have a count for each document, for a field of the schema.
/// * `Limit(Offset)` if the file would have 2^64 bytes or more.
/// * `OutOfMemory` if an allocation fails.
pub fn merge_counts(
    alloc: Global,
    schema: &Schema,
    sources: &[CountsSource<'_>],
    num_docs: DocId,
) -> Result<MergedCounts, Fault>
    requires docs { num_docs ≡ num_merged_docs (map opened_counts sources.now) }
    ensures rows { IfOk result (λ m. HoldRows (merged_rows (length schema.now) (map opened_counts sources.now)) m.bytes.items) }
    ensures totals { IfOk result (λ m. m.num_tokens.items ≡ merged_totals (length schema.now) (map opened_counts sources.now)) }
    ensures holds { (ss : List Segment) → CountsSourcesHold schema.now (map opened_counts sources.now) ss → IfOk result (λ m. HoldCounts schema.now (num_docs_of ss) m.bytes.items (index_tokens ss)) }
    ensures counted { (ss : List Segment) → CountsSourcesHold schema.now (map opened_counts sources.now) ss → IfOk result (λ m. m.num_tokens.items ≡ map (λ field. field_count field (index_tokens ss)) (range_with_len 0 (length schema.now))) }
    ensures sound { OnOk result (HaveCounts (length schema.now) (map opened_counts sources.now)) }
    ensures fault { IfErr result (λ e. ((e ≡ Fault.Damaged Part.TokenCount) × ¬ HaveCounts (length schema.now) (map opened_counts sources.now)) ⊎ IsRowsFault (merged_rows (length schema.now) (map opened_counts sources.now)) e) }
{
    counts_of_segments();
    let (writer, num_tokens) = match merge_rows(alloc, schema, sources) {
        Ok(rows) => rows,
        Err(fault) => return Err(fault),
    };
    match writer.into_file(alloc, num_docs) {
        Ok(bytes) => Ok(MergedCounts { num_tokens, bytes }),
        Err(fault) => Err(fault),
    }
}

/// Returns how many tokens the living documents of a segment have in a field.
///
/// # Errors
///
/// * `Damaged(TokenCount)` if the segment doesn't have a count for each document.
/// * `OutOfMemory` if an allocation fails.
pub fn count_tokens(alloc: Global, field: Field, source: CountsSource<'_>) -> Result<u64, Fault>
    ensures ok { IfOk result (λ n. n ≡ sum (living_row field (opened_counts source.entry))) }
    ensures sound { OnOk result (HasCounts field (opened_counts source.entry)) }
    ensures fault { IfErr result (λ e. (e ≡ Fault.OutOfMemory) ⊎ ((e ≡ Fault.Damaged Part.TokenCount) × ¬ HasCounts field (opened_counts source.entry))) }
{
    // For the proof: there are fewer than 2^32 documents.
    let _num_docs = source.alive.num_docs();
    let mut row = Vec::new(alloc);
    match push_row(field, source, &mut row) {
        Ok(()) => Ok(sum_of(row.as_slice())),
        Err(fault) => Err(fault),
    }
}

// Collects the counts of all fields, and adds them up.
fn merge_rows(
    alloc: Global,
    schema: &Schema,
    sources: &[CountsSource<'_>],
) -> Result<(CountsWriter, Vec<u64>), Fault>
    requires few { num_merged_docs (map opened_counts sources.now) < 2 ^ 32 }
    ensures rows { IfOk result (λ r. HasRows (length schema.now) (length schema.now) (map opened_counts sources.now) r.0) }
    ensures totals { IfOk result (λ r. r.1.items ≡ merged_totals (length schema.now) (map opened_counts sources.now)) }
    ensures sound { OnOk result (HaveCounts (length schema.now) (map opened_counts sources.now)) }
    ensures fault { IfErr result (λ e. (e ≡ Fault.OutOfMemory) ⊎ ((e ≡ Fault.Damaged Part.TokenCount) × ¬ HaveCounts (length schema.now) (map opened_counts sources.now))) }
{
    let mut writer = CountsWriter::for_schema(alloc, schema)?;
    let mut num_tokens = Vec::new(alloc);
    for place in 0..schema.num_fields() {
        let field = Field::from_field_id(place as u32);
        let row = match merged_row(alloc, field, sources) {
            Ok(row) => row,
            Err(fault) => return Err(fault),
        };
        num_tokens.push(sum_of(row.as_slice()))?;
        record_row(&mut writer, field, row.as_slice())?;
    }
    Ok((writer, num_tokens))
}
