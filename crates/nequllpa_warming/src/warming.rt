//! Opens of segments what a query reads.
ghost use Rattle.std.specs.Prelude.{◌≡◌, ℕ, IfErr, IfOk, List, None, Ok, false, length};
ghost use Rattle.std.specs.List.{AllZip};
ghost use Rattle.ii_base.specs.Schema.{SchemaEntry};
ghost use Rattle.ii_reader.specs.OpenIndex.{OpenIndexState};
ghost use Rattle.ii_schema_text.specs.SchemaText.{text_schema};
ghost use Rattle.ii_warmup.specs.IndexParts.{HaveNormsFor};
ghost use Rattle.ii_warmup.specs.Parts.{IsPartFor};
ghost use Rattle.ii_warmup.specs.QueryTerms.{query_ranges, requested_terms};
ghost use Rattle.nequllpa_warming.specs.WarmedSegments.{HoldsOfOne, IsWarmupRefusal, SegmentHolds, WarmsAs, lacks_file};

use crate::faults::WarmupFault;
use ii_base::Schema;
use ii_directory::ReadAt;
use ii_open_segments::{OpenSegment, OpenSegments};
use ii_query_parser::Query;
use ii_reader::OpenIndex;
use ii_warmup::{EnableScoring, IndexHandles, SearchHints, warm_up};
use nequllpa_opening::{Opened, OpenedIndex, schema_of};
use std::alloc::Global;

/// Opens of each open segment what a query reads (`ii_warmup::warm_up`), in the place of the segments of an index. This must
/// have been read of their schema (`OpenedIndex::of_schema`). The readers have the terms of the query alone, each with the
/// documents that it has in the files, wherever these are as they were written; there are no counts and no stored
/// documents.
///
/// # Errors
///
/// Those of the first segment that has one: `NoTables` if it has no tables of blocks, so that its files aren't open;
/// `File` with the error of `ii_warmup::warm_up`, which is an allocation failure, a limit, or a range of a term that passes
/// its file's end, where the files are as they were written; `Open` if an allocation fails for the schema.
pub fn warm_up_index<F: ReadAt + Drop>(
    alloc: Global,
    index: OpenedIndex,
    segments: OpenSegments<F>,
    query: &Query,
    scoring: EnableScoring,
) -> Result<OpenedIndex, WarmupFault>
    requires { text_schema segments.schema.items ≡ Ok index.schema }
    ensures same { IfOk result (λ o. (o.schema ≡ index.schema) × (o.tokenizers ≡ index.tokenizers) × (o.stored ≡ index.stored)) }
    ensures segments { IfOk result (λ o. AllZip (WarmsAs index.schema query.now scoring) segments.segments.items o.segments.items) }
    ensures refused { IfErr result (λ fault. HoldsOfOne (λ s. IsWarmupRefusal segments.schema.items index.schema query.now s fault) segments.segments.items) }
{
    let OpenSegments { schema, segments } = segments;
    match warmed_each(alloc, schema.as_slice(), segments, query, scoring) {
        Ok(segments) => Ok(index.with_segments(segments)),
        Err(fault) => {
            drop(index);
            Err(fault)
        }
    }
}

// Opens of each segment what a query reads. The schema is given as bytes.
fn warmed_each<F: ReadAt + Drop>(
    alloc: Global,
    schema: &[u8],
    segments: Vec<OpenSegment<F>>,
    query: &Query,
    scoring: EnableScoring,
) -> Result<Vec<Opened>, WarmupFault>
    ensures opened { (entries : List SchemaEntry) → text_schema schema.now ≡ Ok entries → IfOk result (λ opened. AllZip (WarmsAs entries query.now scoring) segments.items opened.items) }
    ensures refused { (entries : List SchemaEntry) → text_schema schema.now ≡ Ok entries → IfErr result (λ fault. HoldsOfOne (λ s. IsWarmupRefusal schema.now entries query.now s fault) segments.items) }
{
    let mut hints = SearchHints::new(alloc);
    let mut opened = Vec::new(alloc);
    for segment in segments {
        let one = match warmed_segment(alloc, schema, segment, query, scoring, &mut hints) {
            Ok(one) => one,
            Err(fault) => return Err(fault),
        };
        opened.push(one)?;
    }
    Ok(opened)
}

// Opens of a segment what a query reads.
fn warmed_segment<F: ReadAt + Drop>(
    alloc: Global,
    schema: &[u8],
    segment: OpenSegment<F>,
    query: &Query,
    scoring: EnableScoring,
    hints: &mut SearchHints,
) -> Result<Opened, WarmupFault>
    ensures opened { (entries : List SchemaEntry) → text_schema schema.now ≡ Ok entries → IfOk result (WarmsAs entries query.now scoring segment) }
    ensures refused { (entries : List SchemaEntry) → text_schema schema.now ≡ Ok entries → IfErr result (IsWarmupRefusal schema.now entries query.now segment) }
{
    let schema = match schema_of(alloc, schema) {
        Ok(schema) => schema,
        Err(fault) => return Err(WarmupFault::Open(fault)),
    };
    match warmed_index(alloc, &schema, &segment, query, scoring, hints) {
        Ok(index) => {
            let num_docs = segment.num_docs();
            Ok(Opened::of_parts(schema, index, num_docs, segment.into_alive()))
        }
        Err(fault) => {
            drop(schema);
            Err(fault)
        }
    }
}

// Reads what a query needs of the files of a segment.
fn warmed_index<F: ReadAt + Drop>(
    alloc: Global,
    schema: &Schema,
    segment: &OpenSegment<F>,
    query: &Query,
    scoring: EnableScoring,
    hints: &mut SearchHints,
) -> Result<OpenIndex, WarmupFault>
    ensures complete { IfOk result (λ _. lacks_file segment.now ≡ false) }
    ensures many { IfOk result (λ index. length index.readers ≡ length schema.now) }
    ensures part { (whole : OpenIndexState) → SegmentHolds segment.now schema.now whole → IfOk result (λ index. IsPartFor query.now index whole) }
    ensures norms { (whole : OpenIndexState) → SegmentHolds segment.now schema.now whole → IfOk result (λ index. HaveNormsFor scoring (requested_terms query.now) (query_ranges query.now) (length schema.now) index.fieldnorms whole.fieldnorms) }
    ensures refused { (bytes : List ℕ) → IfErr result (IsWarmupRefusal bytes schema.now query.now segment.now) }
{
    let Some(terms) = segment.terms() else {
        return Err(WarmupFault::NoTables);
    };
    let Some(postings) = segment.postings() else {
        return Err(WarmupFault::NoTables);
    };
    let Some(positions) = segment.positions() else {
        return Err(WarmupFault::NoTables);
    };
    let Some(fieldnorms) = segment.fieldnorms() else {
        return Err(WarmupFault::NoTables);
    };
    let files = IndexHandles {
        terms,
        postings,
        positions,
        fieldnorms,
    };
    match warm_up(alloc, &files, schema, query, scoring, hints) {
        Ok(index) => Ok(index),
        Err(fault) => Err(WarmupFault::File(fault)),
    }
}
