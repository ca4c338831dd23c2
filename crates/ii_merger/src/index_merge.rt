ghost use Rattle.std.specs.Prelude.{◌≡◌, ◌<◌, ◌⊎◌, ℕ, List, false, length, map, slice_index, IfOk, IfErr, OnOk};
ghost use Rattle.std.specs.List.{AllByRecursion};
ghost use Rattle.ii_io.specs.Faults.{OnlyMemory};
ghost use Rattle.ii_io.specs.declared.faults.Part.{Part};
ghost use Rattle.ii_definitions.specs.Postings.{field_count};
ghost use Rattle.ii_segments.specs.Segments.{Segment, index_tokens};
ghost use Rattle.ii_merger.specs.MergeSources.{source_of};
ghost use Rattle.ii_merger.specs.MergedField.{IsMergedFieldFault, WroteMergedField};
ghost use Rattle.ii_merger.specs.MergedFiles.{AreBegun, num_tokens_by_field};
ghost use Rattle.ii_merger.specs.MergedIndex.{EndsFields, FieldsBelow, HasMergedFields, IsFieldsFault, MayBeMerged, MergeSourcesHold, WroteFieldsBelow, field_sources, norms_of_field, opened_segment};
ghost use Rattle.ii_merger.specs.SourcesHold.{WroteField};

use crate::field_merge::merge_field;
use crate::field_source::FieldSource;
use crate::merge_source::MergeSource;
use ii_base::{Fault, Field, Schema};
use ii_fieldnorm::FieldNormReaders;
use ii_recorder::InvertedIndexSerializer;
use std::alloc::Global;
use std::io::Write;

// Writes all fields of segments, in ascending order. Fields without tokens are left out.
pub(crate) fn merge_fields<W: Write>(
    alloc: Global,
    schema: &Schema,
    sources: &[MergeSource<'_>],
    num_tokens: &[u64],
    norms: &FieldNormReaders,
    serializer: &mut InvertedIndexSerializer<W>,
) -> Result<(), Fault>
    requires schema { schema.now ≡ serializer.old.entries }
    requires open { serializer.old.closed ≡ false }
    requires begun { AreBegun serializer.old.bodies }
    requires may { MayBeMerged schema.now norms.now (map opened_segment sources.now) }
    requires counts { length num_tokens.now ≡ length schema.now }
    ensures wrote { OnOk result (WroteFieldsBelow (record { entries = schema.now; num_tokens = num_tokens.now; norms = norms.now; segments = map opened_segment sources.now }) serializer.old.bodies serializer.new.bodies (length schema.now)) }
    ensures holds { (ss : List Segment) → MergeSourcesHold schema.now (map opened_segment sources.now) ss → num_tokens.now ≡ num_tokens_by_field (length schema.now) (index_tokens ss)
        → OnOk result (HasMergedFields schema.now serializer.old.bodies serializer.new.bodies (length schema.now) norms.now (index_tokens ss)) }

    // The outcomes, and which errors it returns.
    ensures fault { IfErr result (λ e. (e ≡ Fault.OutOfMemory)
        ⊎ IsFieldsFault (record { entries = schema.now; num_tokens = num_tokens.now; norms = norms.now; segments = map opened_segment sources.now }) serializer.old.bodies e) }
    ensures undamaged { (ss : List Segment) → MergeSourcesHold schema.now (map opened_segment sources.now) ss → IfErr result (λ e. (part : Part) → ¬ (e ≡ Fault.Damaged part)) }
    ensures ends { EndsFields serializer.old serializer.new result }
{
    for place in 0..num_tokens.len() {
        let field = Field::from_field_id(place as u32);
        let added = add_field(
            alloc,
            schema,
            field,
            sources,
            num_tokens[place],
            norms,
            serializer,
        );
        if added.is_err() {
            return added;
        }
    }
    Ok(())
}

// Writes a field of segments, if it has tokens.
fn add_field<W: Write>(
    alloc: Global,
    schema: &Schema,
    field: Field,
    sources: &[MergeSource<'_>],
    total_num_tokens: u64,
    norms: &FieldNormReaders,
    serializer: &mut InvertedIndexSerializer<W>,
) -> Result<(), Fault>
    requires schema { schema.now ≡ serializer.old.entries }
    requires known { field < length schema.now }
    requires open { serializer.old.closed ≡ false }
    requires below { FieldsBelow field serializer.old.bodies }
    requires may { MayBeMerged schema.now norms.now (map opened_segment sources.now) }
    ensures none { total_num_tokens ≡ 0 → OnOk result (serializer.new.bodies ≡ serializer.old.bodies) }
    ensures wrote { 0 < total_num_tokens → OnOk result (WroteMergedField schema.now field total_num_tokens (norms_of_field norms.now field) (field_sources field (map opened_segment sources.now)) serializer.old.bodies serializer.new.bodies) }
    ensures holds { (ss : List Segment) → MergeSourcesHold schema.now (map opened_segment sources.now) ss → total_num_tokens ≡ field_count field (index_tokens ss) → 0 < total_num_tokens
        → OnOk result (WroteField schema.now serializer.old.bodies serializer.new.bodies field (norms_of_field norms.now field) (index_tokens ss)) }

    // The outcomes, and which errors it returns.
    ensures fault { IfErr result (λ e. (e ≡ Fault.OutOfMemory)
        ⊎ ((0 < total_num_tokens) × IsMergedFieldFault schema.now field total_num_tokens (norms_of_field norms.now field) (field_sources field (map opened_segment sources.now)) serializer.old.bodies e)) }
    ensures undamaged { (ss : List Segment) → MergeSourcesHold schema.now (map opened_segment sources.now) ss → IfErr result (λ e. (part : Part) → ¬ (e ≡ Fault.Damaged part)) }
    ensures ends { EndsFields serializer.old serializer.new result }
{
    let fields = match field_sources(alloc, field, sources) {
        Ok(fields) => fields,
        Err(fault) => return Err(fault),
    };
    let fieldnorm_reader = match norms.get_field(field) {
        Ok(reader) => reader,
        Err(fault) => return Err(fault),
    };
    merge_field(
        alloc,
        schema,
        field,
        total_num_tokens,
        fieldnorm_reader,
        fields.as_slice(),
        serializer,
    )
}

// Returns a field of each segment.
fn field_sources<'a>(
    alloc: Global,
    field: Field,
    sources: &[MergeSource<'a>],
) -> Result<Vec<FieldSource<'a>>, Fault>
    requires fields { AllByRecursion (λ s. field < length s.index.readers) (map opened_segment sources.now) }
    ensures ok { IfOk result (λ fields. map source_of fields.items ≡ field_sources field (map opened_segment sources.now)) }
    ensures only { OnlyMemory result }
{
    let mut fields = Vec::new(alloc);
    for place in 0..sources.len() {
        let source = sources[place];
        fields.push(FieldSource {
            reader: source.index.reader(field),
            alive: source.alive,
        })?;
    }
    Ok(fields)
}
