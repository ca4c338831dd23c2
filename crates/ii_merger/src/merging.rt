ghost use Rattle.std.specs.Prelude.{◌≡◌, ◌+◌, ◌<◌, ◌≤◌, ◌⊎◌, ◌++◌, ℕ, List, [], false, length, map, None, Option, IfErr, IfOk, OnOk};
ghost use Rattle.std.specs.List.{AllByRecursion};
ghost use Rattle.ii_base.specs.declared.doc_id.TheConstants.{TERMINATED};
ghost use Rattle.ii_base.specs.declared.schema.index_record_option.IndexRecordOption.TheVariants.{Basic};
ghost use Rattle.ii_base.specs.Entries.{Entry};
ghost use Rattle.ii_fieldnorm.specs.Readers.{Norms};
ghost use Rattle.ii_alive.specs.Alive.{num_living};
ghost use Rattle.ii_segments.specs.Segments.{living_entries};
ghost use Rattle.ii_termdict.specs.Dictionary.{entry_keys};
ghost use Rattle.ii_termdict.specs.ReadBack.{AreAscending};
ghost use Rattle.ii_recorder.specs.IndexBodies.{AllGrow, IndexBodiesState};
ghost use Rattle.ii_recorder.specs.IndexSerializer.{EndsInMemory, EndsWriting, IndexSerializerState, IsInField, IsWriting};
ghost use Rattle.ii_recorder.specs.Terms.{WrittenTerm};
ghost use Rattle.ii_merger.specs.MergeSources.{entries_under, source_info, source_damage, list_under, merged_from, source_of, living_in_sources};
ghost use Rattle.ii_merger.specs.MergedField.{IsFreshField, IsKeyFault, IsSoundTerm, IsTermMergeFault, WroteTerms, term_of_entries};
ghost use Rattle.ii_merger.specs.MergedTerm.{CoversBelow, IsPushFault, IsReadableEntry, LieBetween, MayMerge, MayStart, Merges, skip_of};

use crate::field_source::FieldSource;
use crate::key_kinds::kind_under;
use crate::pushing::{MergedTerm, push_list};
use ii_base::{DocId, Fault, FieldEntry};
use ii_recorder::FieldSerializer;
use ii_termdict::merger::first_infos_are_all;
use ii_termdict::{TermInfo, TermMerger};
use std::io::Write;

// Writes the terms of a field that some living document has, in the order of their keys, each with its living
// documents. `infos` and `deltas` are buffers. After an error the serializer is closed.
pub(crate) fn merge_terms<W: Write>(
    entry: &FieldEntry,
    sources: &[FieldSource<'_>],
    terms: &mut TermMerger<'_>,
    infos: &mut Vec<Option<TermInfo>>,
    deltas: &mut Vec<u32>,
    serializer: &mut FieldSerializer<'_, W>,
) -> Result<(), Fault>
    requires open { serializer.old.index.now.closed ≡ false }
    requires between { serializer.old.index.now.field.term_open ≡ false }
    requires fresh { IsFreshField serializer.old.index.now }
    requires mode { serializer.old.index.now.field.term.mode ≡ entry.now.option }
    requires terms { terms.old ≡ map (λ s. s.reader.now.terms) sources.now }
    requires ascending { AllByRecursion (λ es. AreAscending (entry_keys es)) terms.old }
    requires few { living_in_sources (map source_of sources.now) ≤ TERMINATED }
    requires covered { CoversBelow serializer.old.index.now.field.term.norms (living_in_sources (map source_of sources.now)) }
    ensures same_reference { serializer.new.index.ghost_name ≡ serializer.old.index.ghost_name }
    ensures wrote { (initial : IndexBodiesState) (field tokens : ℕ) (norms : Option Norms) → IsWriting initial serializer.old.index.now field tokens norms [] []
        → OnOk result (WroteTerms entry.now (map source_of sources.now) initial serializer.new.index.now field tokens norms) }
    ensures fault { (initial : IndexBodiesState) (field tokens : ℕ) (norms : Option Norms) → IsWriting initial serializer.old.index.now field tokens norms [] []
        → IfErr result (λ e. (e ≡ Fault.OutOfMemory) ⊎ IsKeyFault entry.now (map source_of sources.now) initial tokens norms e) }
    ensures between { OnOk result (serializer.new.index.now.field.term_open ≡ false) }
    ensures ends { EndsWriting serializer.old.index.now serializer.new.index.now result }
    ensures grow { AllGrow serializer.old.index.now.bodies serializer.new.index.now.bodies }
{
    first_infos_are_all();
    while let Some(key) = terms.least_key() {
        if let Err(fault) = terms.take(key, infos) {
            serializer.shut();
            return Err(fault);
        }
        let kind = kind_under(entry, key);
        let merged = merge_term(MergedTerm { key, kind }, sources, infos, deltas, serializer);
        if merged.is_err() {
            return merged;
        }
    }
    Ok(())
}

// Writes a term with its living documents, if it has some.
fn merge_term<W: Write>(
    term: MergedTerm<'_>,
    sources: &[FieldSource<'_>],
    infos: &[Option<TermInfo>],
    deltas: &mut Vec<u32>,
    serializer: &mut FieldSerializer<'_, W>,
) -> Result<(), Fault>
    requires start { MayStart term.key.now serializer.old.index.now }
    requires infos { infos.now ≡ map (source_info term.key.now) (map source_of sources.now) }
    requires few { living_in_sources (map source_of sources.now) ≤ TERMINATED }
    requires covered { CoversBelow serializer.old.index.now.field.term.norms (living_in_sources (map source_of sources.now)) }
    requires kind { (term.kind ≡ serializer.old.index.now.field.term.mode) ⊎ (term.kind ≡ Basic) }
    ensures same_reference { serializer.new.index.ghost_name ≡ serializer.old.index.ghost_name }
    ensures writing { (initial : IndexBodiesState) (field tokens : ℕ) (norms : Option Norms) (ts : List WrittenTerm) → IsWriting initial serializer.old.index.now field tokens norms ts []
        → OnOk result (IsWriting initial serializer.new.index.now field tokens norms (ts ++ term_of_entries norms term.entry.kind term.entry.key.now (merged_from term.entry.kind term.entry.key.now 0 (map source_of sources.now))) []) }
    ensures sound { OnOk result (IsSoundTerm term.entry.kind (map source_of sources.now) term.entry.key.now) }
    ensures fault { (initial : IndexBodiesState) (field tokens : ℕ) (norms : Option Norms) (ts : List WrittenTerm) → IsWriting initial serializer.old.index.now field tokens norms ts []
        → IfErr result (IsTermMergeFault term.entry.kind term.entry.key.now (map source_of sources.now) initial serializer.old.index.now.field.term.mode tokens norms ts) }
    ensures between { OnOk result (serializer.new.index.now.field.term_open ≡ false) }
    ensures ends { EndsWriting serializer.old.index.now serializer.new.index.now result }
    ensures grow { AllGrow serializer.old.index.now.bodies serializer.new.index.now.bodies }
{
    let mut begun = false;
    let mut base = 0;
    for place in 0..sources.len() {
        let source = sources[place];
        begun = match merge_list(source, &infos[place], base, term, begun, deltas, serializer) {
            Ok(begun) => begun,
            Err(fault) => return Err(fault),
        };
        base += source.alive.num_living();
    }
    serializer.close_term()
}

// Adds the living documents of a source to a term, which is started before the first of them. Returns whether
// the term is started.
fn merge_list<W: Write>(
    source: FieldSource<'_>,
    info: &Option<TermInfo>,
    base: DocId,
    term: MergedTerm<'_>,
    begun: bool,
    deltas: &mut Vec<u32>,
    serializer: &mut FieldSerializer<'_, W>,
) -> Result<bool, Fault>
    requires may { MayMerge begun term.key.now term.kind serializer.old.index.now base }
    requires numbered { base + num_living source.alive.now ≤ TERMINATED }
    requires covered { CoversBelow serializer.old.index.now.field.term.norms (base + num_living source.alive.now) }
    ensures same_reference { serializer.new.index.ghost_name ≡ serializer.old.index.ghost_name }
    ensures merges { (old : IndexSerializerState) (es : List Entry) → MayStart term.entry.key.now old → Merges begun term.entry.key.now term.entry.kind old serializer.old.index.now es
        → IfOk result (λ b. Merges b term.entry.key.now term.entry.kind old serializer.new.index.now (es ++ living_entries base source.entry.alive.now (entries_under term.entry.kind (source_of source.entry) info.now))) }
    ensures docs { OnOk result (LieBetween base (base + num_living source.entry.alive.now) (living_entries base source.entry.alive.now (entries_under term.entry.kind (source_of source.entry) info.now))) }
    ensures readable { OnOk result (AllByRecursion (IsReadableEntry term.entry.kind) (living_entries base source.entry.alive.now (entries_under term.entry.kind (source_of source.entry) info.now))) }
    ensures sound { OnOk result (source_damage term.entry.kind source.entry.alive.now (list_under term.entry.kind (source_of source.entry) info.now) ≡ None) }
    ensures ends { EndsInMemory serializer.old.index.now serializer.new.index.now result }
    ensures fault { (old : IndexSerializerState) (es : List Entry) → MayStart term.entry.key.now old → Merges begun term.entry.key.now term.entry.kind old serializer.old.index.now es
        → IfErr result (IsPushFault (source_damage term.entry.kind source.entry.alive.now (list_under term.entry.kind (source_of source.entry) info.now)) (skip_of old.field.term.mode term.entry.kind) term.entry.kind
        (es ++ living_entries base source.entry.alive.now (entries_under term.entry.kind (source_of source.entry) info.now))) }
{
    let Some(info) = info else {
        return Ok(begun);
    };
    let mut postings = match source.reader.read_postings_from_terminfo(info, term.kind) {
        Ok(postings) => postings,
        Err(fault) => {
            serializer.shut();
            return Err(fault);
        }
    };
    push_list(
        &mut postings,
        source.alive,
        base,
        term,
        begun,
        deltas,
        serializer,
    )
}
