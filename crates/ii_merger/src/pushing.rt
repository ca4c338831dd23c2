ghost use Rattle.std.specs.Prelude.{◌≡◌, ◌+◌, ◌<◌, ◌≤◌, ◌^◌, ◌⊎◌, ◌++◌, ◌∷◌, [], ℕ, List, Bool, false, length, take, None, IsTrue, IfOk, IfErr, OnOk, OnErr, if◌then◌else◌};
ghost use Rattle.std.specs.List.{AllByRecursion};
ghost use Rattle.ii_base.specs.declared.doc_id.TheConstants.{TERMINATED};
ghost use Rattle.ii_base.specs.Entries.{Entry};
ghost use Rattle.ii_base.specs.Options.{has_freq, has_positions};
ghost use Rattle.ii_alive.specs.Alive.{num_living, rank};
ghost use Rattle.ii_codes.specs.Sums.{differences};
ghost use Rattle.ii_io.specs.Faults.{OnlyMemory};
ghost use Rattle.ii_docset.specs.Cursor.{FitsU32, IsCurrent, doc_at, positions_at, term_freq_at};
ghost use Rattle.ii_recorder.specs.IndexSerializer.{EndsInMemory, IndexSerializerState};
ghost use Rattle.ii_segments.specs.Segments.{living_entries};
ghost use Rattle.ii_merger.specs.MergeSources.{IsDamageOf, count_damage, entries_damage};
ghost use Rattle.ii_merger.specs.MergedTerm.{CoversBelow, IsPushFault, IsStartedTerm, LieBetween, MayMerge, MayPushDoc, MayStart, Merges, PushesSound, first_under, skip_of};

use ii_alive::AliveBits;
use ii_base::{DocId, Fault, IndexRecordOption, Part, TERMINATED};
use ii_docset::{DocSet, Postings};
use ii_reader::SegmentPostings;
use ii_recorder::FieldSerializer;
use std::io::Write;

// A term that is merged: its key, and what is kept of its entries.
#[derive(Clone, Copy)]
pub(crate) struct MergedTerm<'a> {
    pub(crate) key: &'a [u8],
    pub(crate) kind: IndexRecordOption,
}

// Adds the remaining living documents of a list to a term, which is started before the first of them. The
// number of a document is `base` plus the number of living documents before it. Returns whether the term is
// started. After an error the serializer is closed.
pub(crate) fn push_list<W: Write>(
    postings: &mut SegmentPostings,
    alive: &AliveBits,
    base: DocId,
    term: MergedTerm<'_>,
    begun: bool,
    deltas: &mut Vec<u32>,
    serializer: &mut FieldSerializer<'_, W>,
) -> Result<bool, Fault>
    requires plain { has_positions term.kind ≡ false → AllByRecursion (λ e. e.positions ≡ []) postings.old.rest }
    requires may { MayMerge begun term.key.now term.kind serializer.old.index.now base }
    requires numbered { base + num_living alive.now ≤ TERMINATED }
    requires covered { CoversBelow serializer.old.index.now.field.term.norms (base + num_living alive.now) }
    ensures same_reference { serializer.new.index.ghost_name ≡ serializer.old.index.ghost_name }
    ensures merges { (old : IndexSerializerState) (es : List Entry) → MayStart term.entry.key.now old → Merges begun term.entry.key.now term.entry.kind old serializer.old.index.now es
        → IfOk result (λ b. Merges b term.entry.key.now term.entry.kind old serializer.new.index.now (es ++ living_entries base alive.now postings.old.rest)) }
    ensures docs { LieBetween base (base + num_living alive.now) (living_entries base alive.now postings.old.rest) }
    ensures sound { OnOk result (entries_damage term.entry.kind alive.now postings.old.rest ≡ None) }
    ensures fits { AllByRecursion FitsU32 postings.old.rest }
    ensures ends { EndsInMemory serializer.old.index.now serializer.new.index.now result }
    ensures fault { (old : IndexSerializerState) (es : List Entry) → MayStart term.entry.key.now old → Merges begun term.entry.key.now term.entry.kind old serializer.old.index.now es
        → IfErr result (IsPushFault (entries_damage term.entry.kind alive.now postings.old.rest) (skip_of old.field.term.mode term.entry.kind) term.entry.kind (es ++ living_entries base alive.now postings.old.rest)) }
{
    let mut begun = begun;
    let mut doc = postings.doc();
    while doc < TERMINATED {
        begun = match push_doc(postings, alive, base, term, begun, deltas, serializer) {
            Ok(begun) => begun,
            Err(fault) => return Err(fault),
        };
        doc = postings.advance();
    }
    Ok(begun)
}

// Adds the current document of a list, if it is alive, to a term.
fn push_doc<W: Write>(
    postings: &mut SegmentPostings,
    alive: &AliveBits,
    base: DocId,
    term: MergedTerm<'_>,
    begun: bool,
    deltas: &mut Vec<u32>,
    serializer: &mut FieldSerializer<'_, W>,
) -> Result<bool, Fault>
    requires current { IsCurrent postings.old.rest }
    requires plain { has_positions term.kind ≡ false → positions_at postings.old.rest ≡ [] }
    requires may { MayMerge begun term.key.now term.kind serializer.old.index.now (base + rank alive.now (doc_at postings.old.rest)) }
    requires numbered { base + num_living alive.now ≤ TERMINATED }
    requires covered { CoversBelow serializer.old.index.now.field.term.norms (base + num_living alive.now) }
    ensures same_reference { serializer.new.index.ghost_name ≡ serializer.old.index.ghost_name }
    ensures merges { (old : IndexSerializerState) (es : List Entry) → MayStart term.entry.key.now old → Merges begun term.entry.key.now term.entry.kind old serializer.old.index.now es
        → IfOk result (λ b. Merges b term.entry.key.now term.entry.kind old serializer.new.index.now (es ++ living_entries base alive.now (take 1 postings.old.rest))) }
    ensures sound { OnOk result (entries_damage term.entry.kind alive.now (take 1 postings.old.rest) ≡ None) }
    ensures ends { EndsInMemory serializer.old.index.now serializer.new.index.now result }
    ensures fault { (old : IndexSerializerState) (es : List Entry) → MayStart term.entry.key.now old → Merges begun term.entry.key.now term.entry.kind old serializer.old.index.now es
        → IfErr result (IsPushFault (entries_damage term.entry.kind alive.now (take 1 postings.old.rest)) (skip_of old.field.term.mode term.entry.kind) term.entry.kind (es ++ living_entries base alive.now (take 1 postings.old.rest))) }
    ensures rest { postings.new.rest ≡ postings.old.rest }
{
    let doc = postings.doc();
    if doc >= alive.num_docs() {
        serializer.shut();
        return Err(Fault::Damaged(Part::Documents));
    }
    if !alive.is_alive(doc) {
        return Ok(begun);
    }
    if let Err(fault) = begin_term(term, begun, serializer) {
        return Err(fault);
    }
    match push_entry(
        postings,
        base + alive.rank(doc),
        term.kind,
        deltas,
        serializer,
    ) {
        Ok(()) => Ok(true),
        Err(fault) => Err(fault),
    }
}

// Starts a term, unless it is started.
fn begin_term<W: Write>(
    term: MergedTerm<'_>,
    begun: bool,
    serializer: &mut FieldSerializer<'_, W>,
) -> Result<(), Fault>
    requires start { begun ≡ false → MayStart term.key.now serializer.old.index.now }
    ensures same_reference { serializer.new.index.ghost_name ≡ serializer.old.index.ghost_name }
    ensures begun { IsTrue begun → OnOk result (serializer.new.index.now ≡ serializer.old.index.now) }
    ensures started { begun ≡ false → OnOk result (IsStartedTerm term.entry.key.now term.entry.kind serializer.old.index.now serializer.new.index.now) }
    ensures unrefused { IsTrue begun → OnErr result ⊥ }
    ensures ends { begun ≡ false → EndsInMemory serializer.old.index.now serializer.new.index.now result }
    ensures only { OnlyMemory result }
{
    if begun {
        return Ok(());
    }
    serializer.new_term(term.key, 0, term.kind.has_freq())
}

// Adds the current document of a list to the open term, under its number in the index.
fn push_entry<W: Write>(
    postings: &mut SegmentPostings,
    number: DocId,
    kind: IndexRecordOption,
    deltas: &mut Vec<u32>,
    serializer: &mut FieldSerializer<'_, W>,
) -> Result<(), Fault>
    requires open { serializer.old.index.now.closed ≡ false }
    requires current { IsCurrent postings.old.rest }
    requires plain { has_positions kind ≡ false → positions_at postings.old.rest ≡ [] }
    requires may { MayPushDoc kind serializer.old.index.now number }
    ensures same_reference { serializer.new.index.ghost_name ≡ serializer.old.index.ghost_name }
    ensures pushes { PushesSound (count_damage kind (term_freq_at false postings.old.rest) (length (positions_at postings.old.rest))) kind
        serializer.old.index.now serializer.new.index.now (first_under number postings.old.rest) result }
    ensures rest { postings.new.rest ≡ postings.old.rest }
{
    match read_entry(postings, kind, deltas) {
        Ok(term_freq) => serializer.write_doc(number, term_freq, deltas),
        Err(fault) => {
            serializer.shut();
            Err(fault)
        }
    }
}

// Returns the term frequency of the current document, or 0 if `kind` has none, and replaces the contents of a
// buffer with the distances between its positions, if `kind` has some.
fn read_entry(
    postings: &mut SegmentPostings,
    kind: IndexRecordOption,
    deltas: &mut Vec<u32>,
) -> Result<u32, Fault>
    requires current { IsCurrent postings.old.rest }
    requires plain { has_positions kind ≡ false → positions_at postings.old.rest ≡ [] }
    ensures freq { IfOk result (λ n. n ≡ (if has_freq kind then term_freq_at false postings.old.rest else 0)) }
    ensures deltas { OnOk result (deltas.new.items ≡ differences 0 (positions_at postings.old.rest)) }
    ensures sound { OnOk result (count_damage kind (term_freq_at false postings.old.rest) (length (positions_at postings.old.rest)) ≡ None) }
    ensures fault { IfErr result (λ e. IsDamageOf (count_damage kind (term_freq_at false postings.old.rest) (length (positions_at postings.old.rest))) e ⊎ (e ≡ Fault.OutOfMemory)) }
    ensures rest { postings.new.rest ≡ postings.old.rest }
{
    if let Err(refused) = read_deltas(postings, kind, deltas) {
        return Err(refused);
    }
    let term_freq = postings.term_freq();
    match count_damage(kind, term_freq, deltas.as_slice().len()) {
        None => Ok(kept_freq(kind, term_freq)),
        Some(part) => Err(Fault::Damaged(part)),
    }
}

// Returns a term frequency, or 0 if `kind` has none.
fn kept_freq(kind: IndexRecordOption, term_freq: u32) -> u32
    ensures { result ≡ (if has_freq kind then term_freq else 0) }
{
    if kind.has_freq() { term_freq } else { 0 }
}

// Returns the damaged part of an entry with this term frequency and so many positions, if there is one.
fn count_damage(kind: IndexRecordOption, term_freq: u32, num_positions: usize) -> Option<Part>
    ensures { result ≡ count_damage kind term_freq num_positions }
{
    if kind.has_freq() && term_freq == 0 {
        return Some(Part::Frequencies);
    }
    if kind.has_positions() && num_positions != term_freq as usize {
        return Some(Part::Positions);
    }
    None
}

// Replaces the contents of a buffer with the distances between the positions of the current document, if
// they are kept.
fn read_deltas(
    postings: &mut SegmentPostings,
    kind: IndexRecordOption,
    deltas: &mut Vec<u32>,
) -> Result<(), Fault>
    requires current { IsCurrent postings.old.rest }
    requires plain { has_positions kind ≡ false → positions_at postings.old.rest ≡ [] }
    ensures ok { OnOk result (deltas.new.items ≡ differences 0 (positions_at postings.old.rest)) }
    ensures only { OnlyMemory result }
    ensures rest { postings.new.rest ≡ postings.old.rest }
{
    deltas.clear();
    if kind.has_positions() {
        postings.positions(deltas)?;
        to_deltas(deltas);
    }
    Ok(())
}

// Replaces each position by its distance from the one before it, the first by its distance from 0.
fn to_deltas(positions: &mut [u32])
    ensures { positions.new ≡ differences 0 positions.old }
{
    let mut before = 0;
    for place in 0..positions.len() {
        let position = positions[place];
        positions[place] = position.saturating_sub(before);
        before = position;
    }
}
