ghost use Rattle.std.specs.Prelude.{◌≡◌, ◌<◌, ◌≤◌, ◌⊎◌, ℕ, List, [], false, length, map, Ok, Option, IfOk, IfErr, OnOk};
ghost use Rattle.std.specs.List.{AllByRecursion};
ghost use Rattle.ii_base.specs.declared.doc_id.TheConstants.{TERMINATED};
ghost use Rattle.ii_base.specs.Schema.{SchemaEntry};
ghost use Rattle.ii_io.specs.Faults.{OnlyMemory};
ghost use Rattle.ii_io.specs.declared.faults.Part.{Part};
ghost use Rattle.ii_fieldnorm.specs.Readers.{Norms};
ghost use Rattle.ii_definitions.specs.Postings.{field_count};
ghost use Rattle.ii_segments.specs.Segments.{Segment, index_tokens};
ghost use Rattle.ii_termdict.specs.Dictionary.{entry_keys};
ghost use Rattle.ii_termdict.specs.ReadBack.{AreAscending};
ghost use Rattle.ii_recorder.specs.IndexBodies.{AllGrow, IndexBodiesState, LacksField};
ghost use Rattle.ii_recorder.specs.IndexSerializer.{EndsWriting, IsWriting};
ghost use Rattle.ii_merger.specs.MergeSources.{source_of, living_in_sources};
ghost use Rattle.ii_merger.specs.MergedField.{IsFreshField, IsKeyFault, IsMergedFieldFault, WroteMergedField, WroteTerms};
ghost use Rattle.ii_merger.specs.MergedTerm.{CoversBelow};
ghost use Rattle.ii_merger.specs.SourcesHold.{SourcesHold, WroteField};

use crate::field_source::FieldSource;
use crate::merging::merge_terms;
use ii_base::{Fault, Field, FieldEntry, Schema};
use ii_fieldnorm::FieldNormReader;
use ii_recorder::held_terms::{bounds_its_tokens, holds_its_tokens};
use ii_recorder::{FieldSerializer, InvertedIndexSerializer};
use ii_segments::keys_of_segments;
use ii_termdict::{ComingTerms, TermMerger};
use std::alloc::Global;
use std::io::Write;

/// Writes a field of the living documents of several segments, numbered one segment after the other. Each term
/// that a living document has is written, in the order of keys, with the entries of its living documents. If
/// the field has no tokens, nothing is written.
///
/// `sources` are the field of each segment, `total_num_tokens` is the number of tokens of its living documents,
/// and `fieldnorm_reader` has their norms, if the field has some, by their new numbers. There may be at most
/// `TERMINATED` living documents. The field must not have been written, and the serializer must have this
/// schema.
///
/// # Errors
///
/// * `Damaged` with the first corrupt part of a list; or `Damaged(Documents)` if a list has a document that its
///   segment doesn't have, `Damaged(Frequencies)` if the term frequency of a living document is 0, and
///   `Damaged(Positions)` if a living document has another number of positions.
/// * `Write` if a writer fails.
/// * `Limit(Offset)` if a count of a writer would exceed `u64::MAX`, or the terms of the field reach 2^56 bytes
///   in total.
/// * `Limit(TermBytes)` if the postings or the positions of a term exceed `u32::MAX` bytes.
/// * `Limit(BlockFrequencySum)` if term frequencies in a block sum up above `u32::MAX`, for a term with
///   positions.
/// * `OutOfMemory` if an allocation fails.
/// * `SerializerClosed` after an earlier error.
///
/// After an error the serializer is closed.
pub fn merge_field<W: Write>(
    alloc: Global,
    schema: &Schema,
    field: Field,
    total_num_tokens: u64,
    fieldnorm_reader: Option<FieldNormReader>,
    sources: &[FieldSource<'_>],
    serializer: &mut InvertedIndexSerializer<W>,
) -> Result<(), Fault>
    requires schema { schema.now ≡ serializer.old.entries }
    requires known { field < length schema.now }
    requires lacks { serializer.old.closed ≡ false → LacksField field serializer.old.bodies }
    requires few { living_in_sources (map source_of sources.now) ≤ TERMINATED }
    requires covered { CoversBelow fieldnorm_reader (living_in_sources (map source_of sources.now)) }
    ensures wrote { 0 < total_num_tokens → OnOk result (WroteMergedField schema.now field total_num_tokens fieldnorm_reader (map source_of sources.now) serializer.old.bodies serializer.new.bodies) }
    ensures none { total_num_tokens ≡ 0 → (result ≡ Ok tt) × (serializer.new ≡ serializer.old) }
    ensures holds { (ss : List Segment) → SourcesHold schema.now field (map source_of sources.now) ss → total_num_tokens ≡ field_count field (index_tokens ss) → 0 < total_num_tokens
        → OnOk result (WroteField schema.now serializer.old.bodies serializer.new.bodies field fieldnorm_reader (index_tokens ss)) }

    // The outcomes, and which errors it returns.
    ensures fault { IfErr result (λ e. (e ≡ Fault.SerializerClosed) ⊎ IsMergedFieldFault schema.now field total_num_tokens fieldnorm_reader (map source_of sources.now) serializer.old.bodies e) }
    ensures undamaged { (ss : List Segment) → SourcesHold schema.now field (map source_of sources.now) ss → IfErr result (λ e. (part : Part) → ¬ (e ≡ Fault.Damaged part)) }
    ensures ends { 0 < total_num_tokens → EndsWriting serializer.old serializer.new result }
    ensures grow { AllGrow serializer.old.bodies serializer.new.bodies }
{
    if total_num_tokens == 0 {
        return Ok(());
    }
    keys_of_segments();
    holds_its_tokens();
    bounds_its_tokens();
    write_field(
        alloc,
        schema,
        field,
        total_num_tokens,
        fieldnorm_reader,
        sources,
        serializer,
    )
}

// Writes a field, also if it has no terms.
fn write_field<W: Write>(
    alloc: Global,
    schema: &Schema,
    field: Field,
    total_num_tokens: u64,
    fieldnorm_reader: Option<FieldNormReader>,
    sources: &[FieldSource<'_>],
    serializer: &mut InvertedIndexSerializer<W>,
) -> Result<(), Fault>
    requires schema { schema.now ≡ serializer.old.entries }
    requires known { field < length schema.now }
    requires lacks { serializer.old.closed ≡ false → LacksField field serializer.old.bodies }
    requires few { living_in_sources (map source_of sources.now) ≤ TERMINATED }
    requires covered { CoversBelow fieldnorm_reader (living_in_sources (map source_of sources.now)) }
    ensures wrote { OnOk result (WroteMergedField schema.now field total_num_tokens fieldnorm_reader (map source_of sources.now) serializer.old.bodies serializer.new.bodies) }
    ensures fault { IfErr result (λ e. (e ≡ Fault.SerializerClosed) ⊎ IsMergedFieldFault schema.now field total_num_tokens fieldnorm_reader (map source_of sources.now) serializer.old.bodies e) }
    ensures ends { EndsWriting serializer.old serializer.new result }
    ensures grow { AllGrow serializer.old.bodies serializer.new.bodies }
{
    let entry = schema.get_field_entry(field);
    let mut serializer = serializer.new_field(field, total_num_tokens, fieldnorm_reader)?;
    merge_all_terms(alloc, entry, sources, &mut serializer)?;
    serializer.close()
}

// Writes the terms of a field that some living document has.
fn merge_all_terms<W: Write>(
    alloc: Global,
    entry: &FieldEntry,
    sources: &[FieldSource<'_>],
    serializer: &mut FieldSerializer<'_, W>,
) -> Result<(), Fault>
    requires open { serializer.old.index.now.closed ≡ false }
    requires between { serializer.old.index.now.field.term_open ≡ false }
    requires fresh { IsFreshField serializer.old.index.now }
    requires mode { serializer.old.index.now.field.term.mode ≡ entry.now.option }
    requires few { living_in_sources (map source_of sources.now) ≤ TERMINATED }
    requires covered { CoversBelow serializer.old.index.now.field.term.norms (living_in_sources (map source_of sources.now)) }
    ensures same_reference { serializer.new.index.ghost_name ≡ serializer.old.index.ghost_name }
    ensures wrote { (initial : IndexBodiesState) (field tokens : ℕ) (norms : Option Norms) → IsWriting initial serializer.old.index.now field tokens norms [] []
        → OnOk result (WroteTerms entry.now (map source_of sources.now) initial serializer.new.index.now field tokens norms) }
    ensures fault { (initial : IndexBodiesState) (field tokens : ℕ) (norms : Option Norms) → IsWriting initial serializer.old.index.now field tokens norms [] []
        → IfErr result (λ e. (e ≡ Fault.OutOfMemory) ⊎ IsKeyFault entry.now (map source_of sources.now) initial tokens norms e) }
    ensures between { OnOk result (serializer.new.index.now.field.term_open ≡ false) }
    ensures ends { EndsWriting serializer.old.index.now serializer.new.index.now result }
    ensures grow { AllGrow serializer.old.index.now.bodies serializer.new.index.now.bodies }
{
    let mut terms = match all_terms(alloc, sources) {
        Ok(terms) => terms,
        Err(fault) => {
            serializer.shut();
            return Err(fault);
        }
    };
    let mut infos = Vec::new(alloc);
    let mut deltas = Vec::new(alloc);
    merge_terms(
        entry,
        sources,
        &mut terms,
        &mut infos,
        &mut deltas,
        serializer,
    )
}

// Returns the terms of all sources.
fn all_terms<'a>(alloc: Global, sources: &[FieldSource<'a>]) -> Result<TermMerger<'a>, Fault>
    ensures terms { IfOk result (λ terms. terms ≡ map (λ s. s.reader.now.terms) sources.now) }
    ensures ascending { IfOk result (λ terms. AllByRecursion (λ es. AreAscending (entry_keys es)) terms) }
    ensures only { OnlyMemory result }
{
    let mut dictionaries = Vec::new(alloc);
    for place in 0..sources.len() {
        let terms = sources[place].reader.terms();
        // For the proof: the keys ascend.
        let _terms = terms.stream();
        dictionaries.push(ComingTerms::new(terms))?;
    }
    Ok(TermMerger::new(dictionaries))
}
