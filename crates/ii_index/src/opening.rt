//! Opens the segments of an index.
ghost use Rattle.std.specs.Prelude.{◌≡◌, ℕ, IfErr, IfOk, List, Ok, length, map};
ghost use Rattle.ii_definitions.specs.Fields.{option_of};
ghost use Rattle.ii_definitions.specs.Files.{HoldTokens};
ghost use Rattle.ii_definitions.specs.Norms.{HoldNorms};
ghost use Rattle.ii_definitions.specs.Tokens.{IndexToken};
ghost use Rattle.ii_directory.specs.Directory.{is_obeyed};
ghost use Rattle.ii_index.specs.Faults.{IsOpenSegmentsError, IsRefusedError};
ghost use Rattle.ii_index.specs.Searching.{OpenSegments, OpensSegment, segment_totals, totals_view};
ghost use Rattle.ii_reader.specs.InvertedIndexReader.{IsRefusal};
ghost use Rattle.ii_reader.specs.OpenIndex.{IndexHolds, index_of_files};
ghost use Rattle.ii_segment_store.specs.Contents.{segment_contents};

use crate::faults::IndexError;
use crate::index_reader::Searcher;
use crate::totals::{SegmentTotals, totals_of};
use bytes::Bytes;
use ii_base::{Fault, Schema};
use ii_reader::{OpenIndex, open_index_with_norms};
use ii_segment_search::{OpenSegment, Searcher as SegmentSearcher};
use ii_segment_store::{SegmentFiles, StoredSegment};
use std::alloc::Global;

// Opens all segments of an index.
pub(crate) fn open_searcher(
    alloc: Global,
    schema: &Schema,
    segments: Vec<StoredSegment>,
) -> Result<Searcher, IndexError>
    ensures opens { IfOk result (λ s. OpenSegments schema.now (map segment_contents segments.items) s.segments) }
    ensures fields { IfOk result (λ s. s.num_fields ≡ length schema.now) }
    ensures counted { IfOk result (λ s. s.num_tokens ≡ map (segment_totals schema.now) (map segment_contents segments.items)) }
    ensures fault { IfErr result (λ e. IsOpenSegmentsError e schema.now (map segment_contents segments.items)) }
    ensures memory { is_obeyed IsRefusedError ⊥ result }
{
    let (opened, totals) = match open_segments(alloc, schema, segments) {
        Ok(both) => both,
        Err(fault) => return Err(fault),
    };
    match SegmentSearcher::new(opened) {
        Some(searcher) => Ok(Searcher::new(searcher, schema.num_fields(), totals)),
        None => Err(IndexError::TooManyDocuments),
    }
}

// Opens segments one by one.
fn open_segments(
    alloc: Global,
    schema: &Schema,
    segments: Vec<StoredSegment>,
) -> Result<(Vec<OpenSegment>, Vec<SegmentTotals>), IndexError>
    ensures opens { IfOk result (λ r. OpenSegments schema.now (map segment_contents segments.items) r.0.items) }
    ensures counted { IfOk result (λ r. map totals_view r.1.items ≡ map (segment_totals schema.now) (map segment_contents segments.items)) }
    ensures fault { IfErr result (λ e. IsOpenSegmentsError e schema.now (map segment_contents segments.items)) }
    ensures memory { is_obeyed IsRefusedError ⊥ result }
{
    let mut opened = Vec::new(alloc);
    let mut all_totals = Vec::new(alloc);
    for segment in segments {
        let place = opened.as_slice().len();
        let (open, totals) = match open_segment(alloc, schema, segment) {
            Ok(both) => both,
            Err(fault) => return Err(IndexError::Segment(place, fault)),
        };
        opened.push(open)?;
        all_totals.push(totals)?;
    }
    Ok((opened, all_totals))
}

// Opens the files of a segment, and counts the tokens of its living documents.
fn open_segment(
    alloc: Global,
    schema: &Schema,
    segment: StoredSegment,
) -> Result<(OpenSegment, SegmentTotals), Fault>
    ensures opens { IfOk result (λ r. OpensSegment schema.now (segment_contents segment) r.0) }
    ensures counted { IfOk result (λ r. totals_view r.1 ≡ segment_totals schema.now (segment_contents segment)) }
    ensures err { IfErr result (IsRefusal (index_of_files segment.files.terms.items segment.files.postings.items segment.files.positions.items segment.files.fieldnorms.items schema.now)) }
{
    let StoredSegment { files, alive } = segment;
    let SegmentFiles {
        num_docs: _,
        terms,
        postings,
        positions,
        fieldnorms,
        counts,
        store: _,
    } = files;
    let files = TermFiles {
        terms,
        postings,
        positions,
        fieldnorms,
    };
    let index = match files.open(alloc, schema) {
        Ok(index) => index,
        Err(fault) => return Err(fault),
    };
    let totals = match totals_of(alloc, schema, &index, counts, &alive) {
        Ok(totals) => totals,
        Err(fault) => return Err(fault),
    };
    Ok((OpenSegment::new(index, alive), totals))
}

// Opens the lists and norms of a segment.
pub(crate) fn open_files(
    alloc: Global,
    schema: &Schema,
    files: SegmentFiles,
) -> Result<OpenIndex, Fault>
    ensures many { IfOk result (λ index. length index.readers ≡ length schema.now) }
    ensures ok { IfOk result (λ index. index_of_files files.terms.items files.postings.items files.positions.items files.fieldnorms.items schema.now ≡ Ok index) }
    ensures err { IfErr result (IsRefusal (index_of_files files.terms.items files.postings.items files.positions.items files.fieldnorms.items schema.now)) }
    ensures holds { (n : ℕ) (ts : List IndexToken) → HoldTokens (option_of schema.now) files.terms.items files.postings.items files.positions.items ts → HoldNorms schema.now n files.fieldnorms.items ts
        → IfOk result (λ index. IndexHolds schema.now n index ts) }
{
    let SegmentFiles {
        num_docs: _,
        terms,
        postings,
        positions,
        fieldnorms,
        counts: _,
        store: _,
    } = files;
    let files = TermFiles {
        terms,
        postings,
        positions,
        fieldnorms,
    };
    files.open(alloc, schema)
}

// The files of a segment that a search reads.
struct TermFiles {
    terms: Vec<u8>,
    postings: Vec<u8>,
    positions: Vec<u8>,
    fieldnorms: Vec<u8>,
}

// Makes each drop a call.
impl Drop for TermFiles {
    fn drop(self) {
        let TermFiles {
            terms: _,
            postings: _,
            positions: _,
            fieldnorms: _,
        } = self;
    }
}

impl TermFiles {
    // Opens the files.
    fn open(self, alloc: Global, schema: &Schema) -> Result<OpenIndex, Fault>
        ensures many { IfOk result (λ index. length index.readers ≡ length schema.now) }
        ensures ok { IfOk result (λ index. index_of_files self.terms.items self.postings.items self.positions.items self.fieldnorms.items schema.now ≡ Ok index) }
        ensures err { IfErr result (IsRefusal (index_of_files self.terms.items self.postings.items self.positions.items self.fieldnorms.items schema.now)) }
        ensures holds { (n : ℕ) (ts : List IndexToken) → HoldTokens (option_of schema.now) self.terms.items self.postings.items self.positions.items ts → HoldNorms schema.now n self.fieldnorms.items ts
            → IfOk result (λ index. IndexHolds schema.now n index ts) }
    {
        let TermFiles {
            terms,
            postings,
            positions,
            fieldnorms,
        } = self;
        let terms = Bytes::from_vec(terms)?;
        let postings = Bytes::from_vec(postings)?;
        let positions = Bytes::from_vec(positions)?;
        let fieldnorms = Bytes::from_vec(fieldnorms)?;
        open_index_with_norms(alloc, terms, postings, positions, fieldnorms, schema)
    }
}
