//! Merges the segments of an index.
ghost use Rattle.std.specs.Prelude.{◌≡◌, ◌<◌, ◌≤◌, ◌-◌, ◌⊎◌, ◌^◌, IfErr, IfOk, List, length, map};
ghost use Rattle.std.specs.List.{AllByRecursion, AllZip};
ghost use Rattle.std.specs.Option.{option_map};
ghost use Rattle.ii_base.specs.declared.doc_id.TheConstants.{TERMINATED};
ghost use Rattle.ii_doc_store_merger.specs.StoreSources.{SegmentDocuments};
ghost use Rattle.ii_merger.specs.MergedFiles.{WroteMerged};
ghost use Rattle.ii_merger.specs.MergedIndex.{all_living};
ghost use Rattle.ii_indexing.specs.IndexFiles.{WroteIndex};
ghost use Rattle.ii_indexing.specs.RamFiles.{empty_files};
ghost use Rattle.ii_directory.specs.Directory.{is_obeyed};
ghost use Rattle.ii_segment_store.specs.NewSegments.{IsWritten, new_contents};
ghost use Rattle.ii_segment_store.specs.Sources.{HasKnownStore, source_contents};
ghost use Rattle.ii_segments.specs.Segments.{Segment, index_tokens, merged, num_docs_of};
ghost use Rattle.nequllpa_merging.specs.Faults.{IsDamage, IsPartDamage, IsRefusedFiles, OfFault, OfMerge};
ghost use Rattle.nequllpa_merging.specs.Joins.{IsRefusedJoin};
ghost use Rattle.nequllpa_merging.specs.HeldSegments.{HasCountsOf, HoldSegments, HoldsSegment, IsOpenedFor, OpenedHold};
ghost use Rattle.nequllpa_merging.specs.MergedSegments.{AreMergedFiles, HasMergedCounts, HasTooManyTokens, IsCountsFault, IsListsFault, IsMergedFrom, IsMergingFault, IsOpenMergeFault, IsOpenedFault, counts_sources, merge_source, merging};
ghost use Rattle.nequllpa_merging.specs.OpenedSegments.{opened_view};
ghost use Rattle.nequllpa_merging.specs.StoredDocuments.{HoldsStored, merged_documents, stored_file};

use crate::faults::{FilesFault, JoinFault, MergeFault};
use crate::new_files::{files_fault, index_writers, write_if_some};
use crate::opening::{OpenedSegment, open_segments};
use crate::sources::{counts_sources, merge_sources};
use crate::stores::{merge_all_stores, with_store};
use crate::totals::{all_totals, num_living};
use ii_base::{DocId, Fault, LimitName, Schema};
use ii_counts_merger::{MergedCounts, merge_counts};
use ii_directory::ReadAt;
use ii_merger::{IndexWriters, merge};
use ii_segment_store::{NewSegment, SegmentSource};
use ii_segments::{counts_of_segments, merged_is_segment};
use ii_store::Directory;
use std::alloc::Global;

/// Writes the files of one segment of the living documents of several segments, numbered one segment after the other, to
/// the directory. They have no names yet. It has a file of counts if each of the segments has one, and stored documents if
/// each has some. Of these one block at a time is read.
///
/// # Errors
///
/// `Write` if the directory refuses a file, and `Merge` with one of these:
/// * `Segment` with the place of the first segment whose files don't open, and its first damaged part.
/// * `TooManyFields` if the schema has 2^32 - 1 fields, `TooManyDocuments` if 2^31 documents are alive or more.
/// * `Merge` with `Damaged` for the first list that no index has (`merge` of `ii_merger`), with a limit of the
///   merged files, or with `OutOfMemory` if an allocation fails.
/// * Where all else can be merged: `Store` with the place of the first segment whose index of stored documents is
///   damaged or, if none is, of the first one with a damaged block that has living documents, and the first such
///   block; `LongDocument` with the place of a segment that has a stored document of 2^31 bytes or more; `Read` with the
///   place of a segment whose file of stored documents can't be read, or changed since it was opened.
pub fn merge_segments<D: Directory>(
    alloc: Global,
    directory: &D,
    schema: &Schema,
    segments: Vec<SegmentSource<D::File>>,
) -> Result<NewSegment<D::NewFile>, JoinFault>
    ensures written { D.is_known directory.now → IfOk result IsWritten }
    ensures merged { D.is_known directory.now → AllByRecursion (HasKnownStore D.File.bytes) segments.items → IfOk result (λ s. IsMergedFrom schema.now (map (source_contents D.File.bytes) segments.items) (new_contents s)) }
    ensures holds { D.is_known directory.now → AllByRecursion (HasKnownStore D.File.bytes) segments.items → (ss : List Segment) → HoldSegments schema.now (map (source_contents D.File.bytes) segments.items) ss → IfOk result (λ s. HoldsSegment schema.now (new_contents s) (merged ss)) }
    ensures documents { D.is_known directory.now → AllByRecursion (HasKnownStore D.File.bytes) segments.items → (ds : List SegmentDocuments) → AllZip HoldsStored (map stored_file (map (source_contents D.File.bytes) segments.items)) ds → IfOk result (λ s. HoldsStored (stored_file (new_contents s)) (merged_documents ds)) }

    // Which errors it returns, and when.
    ensures fault { D.is_known directory.now → AllByRecursion (HasKnownStore D.File.bytes) segments.items → IfErr result (OfMerge (IsMergingFault schema.now (map (source_contents D.File.bytes) segments.items))) }
    ensures undamaged { AllByRecursion (HasKnownStore D.File.bytes) segments.items → (ss : List Segment) → HoldSegments schema.now (map (source_contents D.File.bytes) segments.items) ss → IfErr result (OfMerge (λ e. ¬ IsDamage e)) }
    ensures obeyed { is_obeyed IsRefusedJoin (D.may_refuse directory.now) result }
{
    let opened = match open_segments(alloc, schema, segments) {
        Ok(opened) => opened,
        Err(fault) => return Err(JoinFault::Merge(fault)),
    };
    let segment = match merge_opened(alloc, directory, schema, opened.as_slice()) {
        Ok(segment) => segment,
        Err(fault) => return Err(fault),
    };
    match merge_all_stores(alloc, directory, opened.as_slice()) {
        Ok(store) => Ok(with_store(segment, store)),
        Err(fault) => Err(fault),
    }
}

// Merges open segments, but for their stored documents.
fn merge_opened<D: Directory>(
    alloc: Global,
    directory: &D,
    schema: &Schema,
    segments: &[OpenedSegment<D::File>],
) -> Result<NewSegment<D::NewFile>, JoinFault>
    requires opened { AllByRecursion (IsOpenedFor schema.now) (map opened_view segments.now) }
    ensures written { D.is_known directory.now → IfOk result IsWritten }
    ensures merged { D.is_known directory.now → IfOk result (λ s. AreMergedFiles schema.now (map opened_view segments.now) (new_contents s)) }
    ensures holds { D.is_known directory.now → (ss : List Segment) → OpenedHold schema.now (map opened_view segments.now) ss → IfOk result (λ s. HoldsSegment schema.now (new_contents s) (merged ss)) }
    ensures fault { D.is_known directory.now → IfErr result (OfMerge (λ e. IsOpenedFault e schema.now (map opened_view segments.now))) }
    ensures undamaged { (ss : List Segment) → OpenedHold schema.now (map opened_view segments.now) ss → IfErr result (OfMerge (λ e. ¬ IsDamage e)) }
    ensures obeyed { is_obeyed IsRefusedJoin (D.may_refuse directory.now) result }
{
    if schema.num_fields() >= u32::MAX as usize {
        return Err(JoinFault::Merge(MergeFault::TooManyFields));
    }
    let num_docs = match num_living(segments) {
        Ok(num_docs) => num_docs,
        Err(fault) => return Err(JoinFault::Merge(fault)),
    };
    match merge_files(alloc, directory, schema, segments, num_docs) {
        Ok(segment) => Ok(segment),
        Err(FilesFault::Directory(fault)) => Err(JoinFault::Write(fault)),
        Err(FilesFault::Fault(fault)) => Err(JoinFault::Merge(MergeFault::Merge(fault))),
    }
}

// Merges all files of open segments, but for those of stored documents.
fn merge_files<D: Directory>(
    alloc: Global,
    directory: &D,
    schema: &Schema,
    segments: &[OpenedSegment<D::File>],
    num_docs: DocId,
) -> Result<NewSegment<D::NewFile>, FilesFault>
    requires opened { AllByRecursion (IsOpenedFor schema.now) (map opened_view segments.now) }
    requires many { length schema.now < 2 ^ 32 - 1 }
    requires docs { num_docs ≡ all_living (map merge_source (map opened_view segments.now)) }
    requires few { num_docs ≤ TERMINATED }
    ensures written { D.is_known directory.now → IfOk result IsWritten }
    ensures merged { D.is_known directory.now → IfOk result (λ s. AreMergedFiles schema.now (map opened_view segments.now) (new_contents s)) }
    ensures holds { D.is_known directory.now → (ss : List Segment) → OpenedHold schema.now (map opened_view segments.now) ss → IfOk result (λ s. HoldsSegment schema.now (new_contents s) (merged ss)) }
    ensures fault { D.is_known directory.now → IfErr result (OfFault (IsOpenMergeFault schema.now (map opened_view segments.now))) }
    ensures undamaged { (ss : List Segment) → OpenedHold schema.now (map opened_view segments.now) ss → IfErr result (OfFault (λ e. ¬ IsPartDamage e)) }
    ensures obeyed { is_obeyed IsRefusedFiles (D.may_refuse directory.now) result }
{
    merged_is_segment();
    let counts = match merge_all_counts(alloc, schema, segments, num_docs) {
        Ok(counts) => counts,
        Err(fault) => return Err(FilesFault::Fault(fault)),
    };
    let files = match merge_lists(alloc, directory, schema, segments) {
        Ok(files) => files,
        Err(fault) => return Err(fault),
    };
    let counts = match write_if_some(alloc, directory, counts) {
        Ok(counts) => counts,
        Err(fault) => return Err(FilesFault::Directory(fault)),
    };
    let IndexWriters {
        terms,
        postings,
        positions,
        fieldnorms,
    } = files;
    Ok(NewSegment {
        num_docs,
        terms,
        postings,
        positions,
        fieldnorms,
        counts,
        store: None,
    })
}

// Merges the files of counts, if each segment has one.
fn merge_all_counts<F: ReadAt + Drop>(
    alloc: Global,
    schema: &Schema,
    segments: &[OpenedSegment<F>],
    num_docs: DocId,
) -> Result<Option<Vec<u8>>, Fault>
    requires opened { AllByRecursion (IsOpenedFor schema.now) (map opened_view segments.now) }
    requires docs { num_docs ≡ all_living (map merge_source (map opened_view segments.now)) }
    ensures merged { IfOk result (λ counts. HasMergedCounts (length schema.now) (counts_sources (map opened_view segments.now)) (option_map (λ v. v.items) counts)) }
    ensures holds { (ss : List Segment) → OpenedHold schema.now (map opened_view segments.now) ss → IfOk result (λ counts. HasCountsOf schema.now (option_map (λ v. v.items) counts) (merged ss)) }
    ensures fault { IfErr result (λ e. (e ≡ Fault.OutOfMemory) ⊎ IsCountsFault (length schema.now) (counts_sources (map opened_view segments.now)) e) }
{
    let sources = match counts_sources(alloc, segments) {
        Ok(Some(sources)) => sources,
        Ok(None) => return Ok(None),
        Err(fault) => return Err(fault),
    };
    match merge_counts(alloc, schema, sources.as_slice(), num_docs) {
        Ok(merged) => Ok(Some(bytes_of(merged))),
        Err(fault) => Err(fault),
    }
}

// Returns the file of counts.
fn bytes_of(merged: MergedCounts) -> Vec<u8>
    ensures { result ≡ merged.bytes }
{
    let MergedCounts {
        num_tokens: _,
        bytes,
    } = merged;
    bytes
}

// Merges the files of terms, postings, positions and field norms.
fn merge_lists<D: Directory>(
    alloc: Global,
    directory: &D,
    schema: &Schema,
    segments: &[OpenedSegment<D::File>],
) -> Result<IndexWriters<D::NewFile>, FilesFault>
    requires opened { AllByRecursion (IsOpenedFor schema.now) (map opened_view segments.now) }
    requires many { length schema.now < 2 ^ 32 - 1 }
    requires few { all_living (map merge_source (map opened_view segments.now)) ≤ TERMINATED }
    ensures wrote { D.is_known directory.now → IfOk result (λ files. WroteMerged (merging schema.now (map opened_view segments.now)) empty_files files) }
    ensures holds { D.is_known directory.now → (ss : List Segment) → OpenedHold schema.now (map opened_view segments.now) ss → IfOk result (λ files. WroteIndex schema.now (num_docs_of ss) empty_files files (index_tokens ss)) }
    ensures fault { D.is_known directory.now → IfErr result (OfFault (λ e. (e ≡ Fault.OutOfMemory) ⊎ ((e ≡ Fault.Limit LimitName.Tokens) × HasTooManyTokens schema.now (map opened_view segments.now)) ⊎ IsListsFault schema.now (map opened_view segments.now) e)) }
    ensures undamaged { (ss : List Segment) → OpenedHold schema.now (map opened_view segments.now) ss → IfErr result (OfFault (λ e. ¬ IsPartDamage e)) }
    ensures obeyed { is_obeyed IsRefusedFiles (D.may_refuse directory.now) result }
{
    counts_of_segments();
    let num_tokens = match all_totals(alloc, schema, segments) {
        Ok(num_tokens) => num_tokens,
        Err(fault) => return Err(FilesFault::Fault(fault)),
    };
    let sources = match merge_sources(alloc, segments) {
        Ok(sources) => sources,
        Err(fault) => return Err(FilesFault::Fault(fault)),
    };
    let writers = match index_writers(alloc, directory) {
        Ok(writers) => writers,
        Err(fault) => return Err(FilesFault::Directory(fault)),
    };
    let (files, merged) = merge(
        alloc,
        schema,
        sources.as_slice(),
        num_tokens.as_slice(),
        writers,
    );
    match merged {
        Ok(()) => Ok(files),
        Err(fault) => Err(files_fault(directory, files, fault)),
    }
}
