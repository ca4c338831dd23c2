ghost use Rattle.std.specs.Prelude.{◌≡◌, ◌-◌, ◌<◌, ◌≤◌, ◌⊎◌, ◌^◌, List, None, Some, false, length, map, IfErr, IfOk, OnOk};
ghost use Rattle.std.specs.List.{AllByRecursion};
ghost use Rattle.ii_base.specs.declared.doc_id.TheConstants.{TERMINATED};
ghost use Rattle.ii_io.specs.Composite.{composite};
ghost use Rattle.ii_io.specs.CountingWriter.{Grows, Writes, IsFull};
ghost use Rattle.ii_io.specs.declared.faults.Part.{Part};
ghost use Rattle.ii_definitions.specs.Norms.{HoldNorms};
ghost use Rattle.ii_recorder.specs.IndexBodies.{CountsFailuresOf};
ghost use Rattle.ii_segments.specs.Segments.{Segment, index_tokens, num_docs_of};
ghost use Rattle.ii_indexing.specs.IndexFiles.{ClosedFiles, CountsIndexFailures, FilesGrow, WroteIndex, begun_files};
ghost use Rattle.ii_merger.specs.MergedFiles.{AreBegun, IsFilesFault, IsMergeFault, WroteMerged, WroteParts, merging_of, num_tokens_by_field};
ghost use Rattle.ii_merger.specs.MergedIndex.{MayBeMerged, MergeSourcesHold, all_living, opened_segment};
ghost use Rattle.ii_merger.specs.MergedNorms.{HaveNorms, IsNormsFault, merged_norm_bytes, merged_norm_file};

use crate::index_merge::merge_fields;
use crate::merge_source::MergeSource;
use crate::norms::merge_norms;
use bytes::Bytes;
use ii_base::{CountingWriter, Fault, LimitName, Schema};
use ii_fieldnorm::FieldNormReaders;
use ii_indexing::IndexWriters;
use ii_recorder::InvertedIndexSerializer;
use ii_segments::merged_is_segment;
use std::alloc::Global;
use std::io::Write;

/// Writes the living documents of several segments as one segment, and returns the writers. Documents are numbered
/// one segment after the other; `num_tokens` has the number of tokens of all living documents in each field.
///
/// # Errors
///
/// The output may have been partially appended.
///
/// * `Damaged` if the bytes of a segment can't be read, or hold what no index has. Of a term it reports the first
///   corrupt part in the order of the segments, and of terms the first one by field and then by key.
/// * `Write` if a writer fails.
/// * `Limit(BlockFrequencySum)`, `Limit(TermBytes)` or `Limit(Offset)` if what is merged exceeds a limit of the files.
/// * `OutOfMemory` if an allocation fails.
pub fn merge<W: Write>(
    alloc: Global,
    schema: &Schema,
    sources: &[MergeSource<'_>],
    num_tokens: &[u64],
    writers: IndexWriters<W>,
) -> (IndexWriters<W>, Result<(), Fault>)
    requires many { length schema.now < 2 ^ 32 - 1 }
    requires fields { AllByRecursion (λ s. length s.index.readers ≡ length schema.now) (map opened_segment sources.now) }
    requires counts { length num_tokens.now ≡ length schema.now }
    requires few { all_living (map opened_segment sources.now) ≤ TERMINATED }
    ensures wrote { OnOk result.1 (WroteMerged (merging_of schema.now num_tokens.now (map opened_segment sources.now)) writers result.0) }
    ensures holds { (ss : List Segment) → MergeSourcesHold schema.now (map opened_segment sources.now) ss → num_tokens.now ≡ num_tokens_by_field (length schema.now) (index_tokens ss)
        → OnOk result.1 (WroteIndex schema.now (num_docs_of ss) writers result.0 (index_tokens ss)) }

    // The writers: a failed call counts once, and earlier output is kept.
    ensures failures { CountsIndexFailures writers result.0 result.1 }
    ensures grow { FilesGrow writers result.0 }

    // Which errors it returns, and when.
    ensures fault { IfErr result.1 (IsMergeFault (merging_of schema.now num_tokens.now (map opened_segment sources.now)) writers) }
    ensures undamaged { (ss : List Segment) → MergeSourcesHold schema.now (map opened_segment sources.now) ss → IfErr result.1 (λ e. (part : Part) → ¬ (e ≡ Fault.Damaged part)) }
{
    match merge_and_open_norms(alloc, schema, sources) {
        Ok((file, norms, copy)) => {
            write_segment(
                alloc, schema, copy, sources, num_tokens, &file, &norms, writers,
            )
        }
        Err(fault) => (writers, Err(fault)),
    }
}

// Returns the file of norms, the norms in it, and a copy of the schema.
fn merge_and_open_norms(
    alloc: Global,
    schema: &Schema,
    sources: &[MergeSource<'_>],
) -> Result<(Bytes, FieldNormReaders, Schema), Fault>
    requires many { length schema.now < 2 ^ 32 - 1 }
    ensures file { IfOk result (λ r. r.0 ≡ merged_norm_bytes schema.now (map opened_segment sources.now)) }
    ensures norms { IfOk result (λ r. r.1 ≡ merged_norm_file schema.now (map opened_segment sources.now)) }
    ensures read { IfOk result (λ r. composite r.0 ≡ Some r.1) }
    ensures copy { IfOk result (λ r. r.2 ≡ schema.now) }
    ensures sound { OnOk result (HaveNorms schema.now (map opened_segment sources.now)) }
    ensures holds { (ss : List Segment) → MergeSourcesHold schema.now (map opened_segment sources.now) ss → IfOk result (λ r. HoldNorms schema.now (num_docs_of ss) r.0 (index_tokens ss)) }
    ensures fault { IfErr result (IsNormsFault schema.now (map opened_segment sources.now)) }
{
    let file = match merge_norms(alloc, schema, sources) {
        Ok(file) => file,
        Err(fault) => return Err(fault),
    };
    let norms = match open_norms(alloc, &file) {
        Ok(norms) => norms,
        Err(fault) => return Err(fault),
    };
    let copy = schema.clone()?;
    Ok((file, norms, copy))
}

// Opens a file of norms.
fn open_norms(alloc: Global, file: &Bytes) -> Result<FieldNormReaders, Fault>
    ensures opened { IfOk result (λ norms. composite file.now ≡ Some norms) }
    ensures fault { IfErr result (λ e. (e ≡ Fault.OutOfMemory) ⊎ (composite file.now ≡ None)) }
{
    let bytes = file.clone()?;
    FieldNormReaders::open(alloc, bytes)
}

// Writes the file of norms, then the files of the terms.
fn write_segment<W: Write>(
    alloc: Global,
    schema: &Schema,
    copy: Schema,
    sources: &[MergeSource<'_>],
    num_tokens: &[u64],
    file: &Bytes,
    norms: &FieldNormReaders,
    writers: IndexWriters<W>,
) -> (IndexWriters<W>, Result<(), Fault>)
    requires copy { copy ≡ schema.now }
    requires may { MayBeMerged schema.now norms.now (map opened_segment sources.now) }
    requires counts { length num_tokens.now ≡ length schema.now }
    requires file { file.now ≡ merged_norm_bytes schema.now (map opened_segment sources.now) }
    requires norms { norms.now ≡ merged_norm_file schema.now (map opened_segment sources.now) }
    requires read { composite file.now ≡ Some norms.now }
    requires sound { HaveNorms schema.now (map opened_segment sources.now) }
    ensures wrote { OnOk result.1 (WroteMerged (merging_of schema.now num_tokens.now (map opened_segment sources.now)) writers result.0) }
    ensures holds { (ss : List Segment) → MergeSourcesHold schema.now (map opened_segment sources.now) ss → num_tokens.now ≡ num_tokens_by_field (length schema.now) (index_tokens ss)
        → HoldNorms schema.now (num_docs_of ss) file.now (index_tokens ss) → OnOk result.1 (WroteIndex schema.now (num_docs_of ss) writers result.0 (index_tokens ss)) }

    // The writers, and which errors it returns.
    ensures failures { CountsIndexFailures writers result.0 result.1 }
    ensures grow { FilesGrow writers result.0 }
    ensures fault { IfErr result.1 (λ e. IsFilesFault (merging_of schema.now num_tokens.now (map opened_segment sources.now)) (begun_files writers) e
        ⊎ ((e ≡ Fault.Limit LimitName.Offset) × IsFull writers.fieldnorms (length (merged_norm_bytes schema.now (map opened_segment sources.now))))) }
    ensures undamaged { (ss : List Segment) → MergeSourcesHold schema.now (map opened_segment sources.now) ss → IfErr result.1 (λ e. (part : Part) → ¬ (e ≡ Fault.Damaged part)) }
{
    let mut writers = writers;
    let written = write_file(&mut writers.fieldnorms, file);
    if written.is_err() {
        drop(copy);
        return (writers, written);
    }
    let IndexWriters {
        terms,
        postings,
        positions,
        fieldnorms,
    } = writers;
    let (terms, postings, positions, written) = write_terms(
        alloc,
        schema,
        sources,
        num_tokens,
        norms,
        InvertedIndexSerializer::open(alloc, terms, postings, positions, copy),
    );
    let writers = IndexWriters {
        terms,
        postings,
        positions,
        fieldnorms,
    };
    (writers, written)
}

// Writes the bytes and flushes the writer.
fn write_file<W: Write>(writer: &mut CountingWriter<W>, bytes: &[u8]) -> Result<(), Fault>
    ensures written { Writes writer.old writer.new bytes.now result }
{
    let written = writer.write_all(bytes);
    if written.is_err() {
        return written;
    }
    writer.flush()
}

// Writes the terms of all fields, then the tables of the three files.
fn write_terms<W: Write>(
    alloc: Global,
    schema: &Schema,
    sources: &[MergeSource<'_>],
    num_tokens: &[u64],
    norms: &FieldNormReaders,
    serializer: InvertedIndexSerializer<W>,
) -> (
    CountingWriter<W>,
    CountingWriter<W>,
    CountingWriter<W>,
    Result<(), Fault>,
)
    requires schema { schema.now ≡ serializer.entries }
    requires open { serializer.closed ≡ false }
    requires begun { AreBegun serializer.bodies }
    requires may { MayBeMerged schema.now norms.now (map opened_segment sources.now) }
    requires counts { length num_tokens.now ≡ length schema.now }
    ensures wrote { OnOk result.3 (WroteParts (record { entries = schema.now; num_tokens = num_tokens.now; norms = norms.now; segments = map opened_segment sources.now }) serializer.bodies.terms.writer serializer.bodies.postings.writer serializer.bodies.positions.writer result.0 result.1 result.2) }
    ensures holds { (ss : List Segment) → MergeSourcesHold schema.now (map opened_segment sources.now) ss → num_tokens.now ≡ num_tokens_by_field (length schema.now) (index_tokens ss)
        → OnOk result.3 (ClosedFiles serializer result.0 result.1 result.2 norms.now (index_tokens ss)) }

    // The writers, and which errors it returns.
    ensures failures { CountsFailuresOf serializer.bodies result.0 result.1 result.2 result.3 }
    ensures grow { Grows serializer.bodies.terms.writer result.0 × Grows serializer.bodies.postings.writer result.1 × Grows serializer.bodies.positions.writer result.2 }
    ensures fault { IfErr result.3 (IsFilesFault (record { entries = schema.now; num_tokens = num_tokens.now; norms = norms.now; segments = map opened_segment sources.now }) serializer.bodies) }
    ensures undamaged { (ss : List Segment) → MergeSourcesHold schema.now (map opened_segment sources.now) ss → IfErr result.3 (λ e. (part : Part) → ¬ (e ≡ Fault.Damaged part)) }
{
    merged_is_segment();
    let mut serializer = serializer;
    match merge_fields(alloc, schema, sources, num_tokens, norms, &mut serializer) {
        Ok(()) => serializer.close(),
        Err(fault) => {
            let (terms, postings, positions) = serializer.into_writers();
            (terms, postings, positions, Err(fault))
        }
    }
}
