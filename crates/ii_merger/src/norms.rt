ghost use Rattle.std.specs.Prelude.{◌≡◌, ◌-◌, ◌<◌, ◌⊎◌, ◌^◌, ◌++◌, [], List, true, false, length, map, Some, IfOk, IfErr, OnOk};
ghost use Rattle.std.specs.List.{AllByRecursion};
ghost use Rattle.ii_base.specs.Schema.{keeps_norms};
ghost use Rattle.ii_io.specs.Composite.{composite, written_composite};
ghost use Rattle.ii_io.specs.CompositeWrite.{CompositeWriteState, HasBodies};
ghost use Rattle.ii_io.specs.CountingWriter.{CountingWriterState, IsFull};
ghost use Rattle.ii_io.specs.Faults.{OnlyMemory};
ghost use Rattle.ii_fieldnorm.specs.Readers.{id_of_doc};
ghost use Rattle.ii_definitions.specs.Norms.{HoldNorms};
ghost use Rattle.ii_segments.specs.Segments.{Segment, index_tokens, living_docs, num_docs_of};
ghost use Rattle.ii_merger.specs.MergedIndex.{MergeSourcesHold, StartsBelow, opened_segment};
ghost use Rattle.ii_merger.specs.MergedNorms.{AddsNorms, HasAllNorms, HaveNorms, IsNormsFault, living_ids, merged_ids, merged_norm_bytes, merged_norm_file};

use crate::merge_source::MergeSource;
use bytes::Bytes;
use ii_alive::AliveBits;
use ii_base::{CountingWriter, Fault, Field, FieldEntry, LimitName, Part, Schema};
use ii_fieldnorm::{FieldNormReader, FieldNormsSerializer};
use ii_segments::counts_of_segments;
use std::alloc::Global;

/// Returns a file of the norms of the living documents of several segments, numbered one segment after the other,
/// for each field of a schema that has norms.
///
/// # Errors
///
/// * `Damaged(FieldNorms)` if a segment doesn't have one norm for each document, for a field that has norms.
/// * `Limit(Offset)` if the file would have more than `u64::MAX` bytes.
/// * `OutOfMemory` if an allocation fails.
pub fn merge_norms(
    alloc: Global,
    schema: &Schema,
    sources: &[MergeSource<'_>],
) -> Result<Bytes, Fault>
    requires many { length schema.now < 2 ^ 32 - 1 }
    ensures written { IfOk result (λ bytes. bytes ≡ written_composite (merged_norm_file schema.now (map opened_segment sources.now))) }
    ensures opened { IfOk result (λ bytes. composite bytes ≡ Some (merged_norm_file schema.now (map opened_segment sources.now))) }
    ensures sound { OnOk result (HaveNorms schema.now (map opened_segment sources.now)) }
    ensures holds { (ss : List Segment) → MergeSourcesHold schema.now (map opened_segment sources.now) ss → IfOk result (λ bytes. HoldNorms schema.now (num_docs_of ss) bytes (index_tokens ss)) }
    ensures fault { IfErr result (IsNormsFault schema.now (map opened_segment sources.now)) }
{
    counts_of_segments();
    let writer = CountingWriter::wrap(Vec::new(alloc));
    let mut serializer = FieldNormsSerializer::from_write(alloc, writer);
    if let Err(fault) = add_all_norms(alloc, schema, sources, &mut serializer) {
        return Err(fault);
    }
    let (writer, written) = serializer.close();
    match written {
        Ok(()) => Ok(Bytes::from_vec(writer.finish())?),
        Err(fault) => Err(fault.in_memory()),
    }
}

// Writes the norms of all fields that have norms.
fn add_all_norms(
    alloc: Global,
    schema: &Schema,
    sources: &[MergeSource<'_>],
    serializer: &mut FieldNormsSerializer<Vec<u8>>,
) -> Result<(), Fault>
    requires many { length schema.now < 2 ^ 32 - 1 }
    requires open { serializer.old.closed ≡ false }
    requires fresh { serializer.old.starts ≡ [] }
    ensures adds { (initial : CountingWriterState) → HasBodies initial serializer.old [] → OnOk result (HasBodies initial serializer.new (merged_norm_file schema.now (map opened_segment sources.now))) }
    ensures sound { OnOk result (HaveNorms schema.now (map opened_segment sources.now)) }
    ensures open { OnOk result (serializer.new.closed ≡ false) }
    ensures fault { (initial : CountingWriterState) → HasBodies initial serializer.old []
        → IfErr result (λ e. (e ≡ Fault.OutOfMemory) ⊎ ((e ≡ Fault.Limit LimitName.Offset) × IsFull initial (length (merged_norm_bytes schema.now (map opened_segment sources.now))))
        ⊎ ((e ≡ Fault.Damaged Part.FieldNorms) × ¬ HaveNorms schema.now (map opened_segment sources.now))) }
{
    let mut ids = Vec::new(alloc);
    for place in 0..schema.num_fields() {
        let field = Field::from_field_id(place as u32);
        let entry = schema.get_field_entry(field);
        if let Err(fault) = add_field_norms(field, entry, sources, &mut ids, serializer) {
            return Err(fault);
        }
    }
    Ok(())
}

// Writes the norms of a field, if it has norms.
fn add_field_norms(
    field: Field,
    entry: &FieldEntry,
    sources: &[MergeSource<'_>],
    ids: &mut Vec<u8>,
    serializer: &mut FieldNormsSerializer<Vec<u8>>,
) -> Result<(), Fault>
    requires open { serializer.old.closed ≡ false }
    requires below { StartsBelow field serializer.old }
    requires known { field < 2 ^ 32 - 1 }
    ensures adds { OnOk result (AddsNorms (keeps_norms entry.now) field (merged_ids field (map opened_segment sources.now)) serializer.old serializer.new) }
    ensures sound { OnOk result (keeps_norms entry.now ≡ true → AllByRecursion (HasAllNorms field) (map opened_segment sources.now)) }
    ensures open { OnOk result (serializer.new.closed ≡ false) }
    ensures fault { IfErr result (λ e. (e ≡ Fault.OutOfMemory)
        ⊎ ((e ≡ Fault.Limit LimitName.Offset) × (keeps_norms entry.now ≡ true) × IsFull serializer.old.writer (length (merged_ids field (map opened_segment sources.now))))
        ⊎ ((e ≡ Fault.Damaged Part.FieldNorms) × (keeps_norms entry.now ≡ true) × ¬ AllByRecursion (HasAllNorms field) (map opened_segment sources.now))) }
{
    if !has_norms(entry) {
        return Ok(());
    }
    ids.clear();
    if let Err(fault) = push_all_norms(field, sources, ids) {
        return Err(fault);
    }
    match serializer.serialize_field(field, ids.as_slice()) {
        Ok(()) => Ok(()),
        Err(fault) => Err(fault.in_memory()),
    }
}

// Returns whether a field has norms.
fn has_norms(entry: &FieldEntry) -> bool
    ensures { result ≡ keeps_norms entry.now }
{
    entry.is_indexed() & entry.has_fieldnorms()
}

// Adds the norms of the living documents of all segments in a field.
fn push_all_norms(field: Field, sources: &[MergeSource<'_>], ids: &mut Vec<u8>) -> Result<(), Fault>
    ensures ok { OnOk result (ids.new.items ≡ ids.old.items ++ merged_ids field (map opened_segment sources.now)) }
    ensures sound { OnOk result (AllByRecursion (HasAllNorms field) (map opened_segment sources.now)) }
    ensures fault { IfErr result (λ e. (e ≡ Fault.OutOfMemory) ⊎ ((e ≡ Fault.Damaged Part.FieldNorms) × ¬ AllByRecursion (HasAllNorms field) (map opened_segment sources.now))) }
{
    for place in 0..sources.len() {
        if let Err(fault) = push_norms(field, sources[place], ids) {
            return Err(fault);
        }
    }
    Ok(())
}

// Adds the norms of the living documents of a segment in a field.
fn push_norms(field: Field, source: MergeSource<'_>, ids: &mut Vec<u8>) -> Result<(), Fault>
    ensures ok { OnOk result (ids.new.items ≡ ids.old.items ++ living_ids field (opened_segment source.entry)) }
    ensures sound { OnOk result (HasAllNorms field (opened_segment source.entry)) }
    ensures fault { IfErr result (λ e. (e ≡ Fault.OutOfMemory) ⊎ ((e ≡ Fault.Damaged Part.FieldNorms) × ¬ HasAllNorms field (opened_segment source.entry))) }
{
    let num_docs = source.alive.num_docs();
    let norms = match source.index.get_fieldnorms_reader(field) {
        Ok(Some(norms)) => norms,
        Ok(None) => return Err(Fault::Damaged(Part::FieldNorms)),
        Err(fault) => return Err(fault),
    };
    if norms.num_docs() != num_docs {
        return Err(Fault::Damaged(Part::FieldNorms));
    }
    push_living_ids(&norms, source.alive, ids)
}

// Adds the norms of living documents.
fn push_living_ids(
    norms: &FieldNormReader,
    alive: &AliveBits,
    ids: &mut Vec<u8>,
) -> Result<(), Fault>
    requires many { norms.now.num_docs ≡ length alive.now }
    ensures ok { OnOk result (ids.new.items ≡ ids.old.items ++ map (id_of_doc norms.now) (living_docs alive.now)) }
    ensures only { OnlyMemory result }
{
    for doc in 0..alive.num_docs() {
        if alive.is_alive(doc) {
            ids.push(norms.fieldnorm_id(doc))?;
        }
    }
    Ok(())
}
