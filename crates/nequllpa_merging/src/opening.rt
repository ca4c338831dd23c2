//! Opens the files of segments.
ghost use Rattle.std.specs.Prelude.{◌≡◌, IfErr, IfOk, Ok, length, map};
ghost use Rattle.std.specs.List.{AllByRecursion, AllZip};
ghost use Rattle.std.specs.Option.{option_map};
ghost use Rattle.ii_io.specs.declared.faults.Part.{Part};
ghost use Rattle.ii_io.specs.Faults.{OnlyMemory};
ghost use Rattle.ii_reader.specs.InvertedIndexReader.{IsRefusal};
ghost use Rattle.ii_reader.specs.OpenIndex.{index_of_files};
ghost use Rattle.ii_segment_store.specs.Sources.{HasKnownStore, source_contents};
ghost use Rattle.nequllpa_merging.specs.MergedSegments.{IsOpeningFault};
ghost use Rattle.nequllpa_merging.specs.OpenedSegments.{OpensFrom, bodies_of_counts, living_totals, opened_from, opened_view};
ghost use Rattle.nequllpa_merging.specs.StoredDocuments.{KnowsStore, stored_file, stored_view};

use crate::faults::MergeFault;
use crate::totals::living_totals;
use bytes::Bytes;
use ii_alive::AliveBits;
use ii_base::{Fault, Schema};
use ii_block_file::BlockFile;
use ii_counts::CountReaders;
use ii_directory::ReadAt;
use ii_reader::{OpenIndex, open_index_with_norms};
use ii_segment_store::{SegmentFiles, SegmentSource};
use std::alloc::Global;

// A segment whose files are open.
#[derive(Drop)]
pub(crate) struct OpenedSegment<F: ReadAt + Drop> {
    pub(crate) index: OpenIndex,
    pub(crate) alive: AliveBits,
    pub(crate) counts: Option<CountReaders>,
    // The file of stored documents.
    pub(crate) store: Option<BlockFile<F>>,
    // For each field, how many tokens the living documents have.
    pub(crate) num_tokens: Vec<u64>,
}

// Opens segments one by one.
pub(crate) fn open_segments<F: ReadAt + Drop>(
    alloc: Global,
    schema: &Schema,
    segments: Vec<SegmentSource<F>>,
) -> Result<Vec<OpenedSegment<F>>, MergeFault>
    ensures opens { IfOk result (λ v. AllZip (OpensFrom schema.now) (map (source_contents F.bytes) segments.items) (map opened_view v.items)) }
    ensures stored { IfOk result (λ v. map (stored_view F.bytes) v.items ≡ map stored_file (map (source_contents F.bytes) segments.items)) }
    ensures known { AllByRecursion (HasKnownStore F.bytes) segments.items → IfOk result (λ v. AllByRecursion (KnowsStore F.bytes) v.items) }
    ensures fault { IfErr result (λ e. IsOpeningFault e schema.now (map (source_contents F.bytes) segments.items)) }
{
    let mut opened = Vec::new(alloc);
    for segment in segments {
        let place = opened.as_slice().len();
        let open = match open_segment(alloc, schema, segment) {
            Ok(open) => open,
            Err(fault) => return Err(segment_fault(place, fault)),
        };
        opened.push(open)?;
    }
    Ok(opened)
}

// Returns the fault of the segment at a place.
fn segment_fault(place: usize, fault: Fault) -> MergeFault
    ensures damaged { (part : Part) → fault ≡ Fault.Damaged part → result ≡ MergeFault.Segment place part }
    ensures memory { fault ≡ Fault.OutOfMemory → result ≡ MergeFault.Merge Fault.OutOfMemory }
{
    match fault {
        Fault::Damaged(part) => MergeFault::Segment(place, part),
        fault => MergeFault::Merge(fault),
    }
}

// Opens the files of a segment.
fn open_segment<F: ReadAt + Drop>(
    alloc: Global,
    schema: &Schema,
    segment: SegmentSource<F>,
) -> Result<OpenedSegment<F>, Fault>
    ensures ok { IfOk result (λ o. opened_from schema.now (source_contents F.bytes segment) ≡ Ok (opened_view o)) }
    ensures stored { IfOk result (λ o. (o.store ≡ segment.store) × (o.alive ≡ segment.alive)) }
    ensures err { IfErr result (IsRefusal (opened_from schema.now (source_contents F.bytes segment))) }
{
    let SegmentSource {
        files,
        store,
        alive,
    } = segment;
    let SegmentFiles {
        num_docs: _,
        terms,
        postings,
        positions,
        fieldnorms,
        counts,
        store: _,
    } = files;
    let files = TermFiles {
        terms,
        postings,
        positions,
        fieldnorms,
    };
    let index = match files.open(alloc, schema) {
        Ok(index) => index,
        Err(fault) => return Err(fault),
    };
    let counts = match open_counts(alloc, counts) {
        Ok(counts) => counts,
        Err(fault) => return Err(fault),
    };
    with_totals(alloc, schema, index, alive, counts, store)
}

// Adds the numbers of tokens to what was opened.
fn with_totals<F: ReadAt + Drop>(
    alloc: Global,
    schema: &Schema,
    index: OpenIndex,
    alive: AliveBits,
    counts: Option<CountReaders>,
    store: Option<BlockFile<F>>,
) -> Result<OpenedSegment<F>, Fault>
    requires many { length index.readers ≡ length schema.now }
    ensures totals { IfOk result (λ o. living_totals (length schema.now) index counts alive ≡ Ok o.num_tokens.items) }
    ensures same { IfOk result (λ o. (o.index ≡ index) × (o.counts ≡ counts) × (o.alive ≡ alive)) }
    ensures stored { IfOk result (λ o. o.store ≡ store) }
    ensures err { IfErr result (IsRefusal (living_totals (length schema.now) index counts alive)) }
{
    match living_totals(alloc, schema, &index, &counts, &alive) {
        Ok(num_tokens) => Ok(OpenedSegment {
            index,
            alive,
            counts,
            store,
            num_tokens,
        }),
        Err(fault) => Err(fault),
    }
}

// The files of a segment but for those of counts and stored documents.
struct TermFiles {
    terms: Vec<u8>,
    postings: Vec<u8>,
    positions: Vec<u8>,
    fieldnorms: Vec<u8>,
}

// Makes each drop a call.
impl Drop for TermFiles {
    fn drop(self) {
        let TermFiles {
            terms: _,
            postings: _,
            positions: _,
            fieldnorms: _,
        } = self;
    }
}

impl TermFiles {
    // Opens the files.
    fn open(self, alloc: Global, schema: &Schema) -> Result<OpenIndex, Fault>
        ensures many { IfOk result (λ index. length index.readers ≡ length schema.now) }
        ensures ok { IfOk result (λ index. index_of_files self.terms.items self.postings.items self.positions.items self.fieldnorms.items schema.now ≡ Ok index) }
        ensures err { IfErr result (IsRefusal (index_of_files self.terms.items self.postings.items self.positions.items self.fieldnorms.items schema.now)) }
    {
        let TermFiles {
            terms,
            postings,
            positions,
            fieldnorms,
        } = self;
        let terms = Bytes::from_vec(terms)?;
        let postings = Bytes::from_vec(postings)?;
        let positions = Bytes::from_vec(positions)?;
        let fieldnorms = Bytes::from_vec(fieldnorms)?;
        open_index_with_norms(alloc, terms, postings, positions, fieldnorms, schema)
    }
}

// Opens a file of counts, if there is one.
pub(crate) fn open_counts(
    alloc: Global,
    counts: Option<Vec<u8>>,
) -> Result<Option<CountReaders>, Fault>
    ensures ok { IfOk result (λ found. bodies_of_counts (option_map (λ v. v.items) counts) ≡ Ok found) }
    ensures err { IfErr result (IsRefusal (bodies_of_counts (option_map (λ v. v.items) counts))) }
{
    let Some(bytes) = counts else {
        return Ok(None);
    };
    let bytes = Bytes::from_vec(bytes)?;
    match CountReaders::open(alloc, bytes) {
        Ok(counts) => Ok(Some(counts)),
        Err(fault) => Err(fault),
    }
}
