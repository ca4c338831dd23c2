ghost use Rattle.std.specs.Prelude.{◌≡◌, ◌+◌, ◌<◌, ◌⊎◌, ◌↔◌, if◌then◌else◌, ℕ, List, [], ◌∷◌, ◌++◌, true, false, length, Ok, Err, OnOk, IfErr, IsErrOf, IsTrue, Option, ◌^◌, IfOk, ◌≤◌};
ghost use Rattle.ii_base.specs.declared.schema.index_record_option.IndexRecordOption.TheVariants.{Basic};
ghost use Rattle.ii_base.specs.Options.{has_freq, has_positions};
ghost use Rattle.ii_io.specs.CountingWriter.{CountingWriterState, Grows, IsFull, Wrote};
ghost use Rattle.ii_io.specs.Composite.{Body, fit_fields};
ghost use Rattle.ii_io.specs.CompositeWrite.{HasBodies, WroteComposite};
ghost use Rattle.ii_io.specs.Faults.{OnlyMemoryOrClosed};
ghost use Rattle.ii_base.specs.Entries.{are_documents};
ghost use Rattle.ii_fieldnorm.specs.Readers.{Norms};
ghost use Rattle.ii_layout.specs.Bounds.{Covers};
ghost use Rattle.ii_layout.specs.PostingsSerializer.{IsSumTooLarge};
ghost use Rattle.ii_termdict.specs.ReadBack.{AreAscending};
ghost use Rattle.ii_recorder.specs.Terms.{WrittenTerm, field_bodies, positions_bytes};
ghost use Rattle.ii_recorder.specs.HeldTerms.{HoldsTerms};
ghost use Rattle.ii_recorder.specs.FieldTerms.{IsWithinLimits, closing_bytes, dictionary_of, term_under, EndsTerm, IsEndFault, field_terms};
ghost use Rattle.ii_recorder.specs.IndexBodies.{IndexBodiesState, AddsBodies, AllGrow, AreBegun, OneIsFull, LacksField, tables_of, CountsFailuresOf};
ghost use Rattle.ii_recorder.specs.IndexSerializer.{EndsInMemory, EndsWriting, IsFieldFault, IsTermFault, IsWriting, IsStarted, RefusesStart};
ghost use Rattle.std.specs.Borrow.{sem, RestsIfErr};
ghost use Rattle.ii_recorder.specs.contracts.serializer.InvertedIndexSerializer.{the_row};
ghost use Rattle.ii_layout.specs.Written.{written_postings};
ghost use Rattle.ii_recorder.specs.Endings.{CountsOnce};

use super::index_bodies::IndexBodies;
use super::term_places::TermPlaces;
use ii_base::{DocId, IndexRecordOption, Schema};
use ii_fieldnorm::FieldNormReader;
use ii_io::{CountingWriter, Fault, Field, LimitName};
use ii_layout::{OpenPostings, PositionWriter};
use std::alloc::Global;
use std::io::Write;
use std::marker::Model;

/// Writes the terms, the postings and the positions of the fields of an index, one field after the other, to
/// three writers that it owns.
///
/// After an error it is closed: each further call returns `SerializerClosed`.
pub struct InvertedIndexSerializer<W: Write> {
    schema: Schema,
    bodies: IndexBodies<W>,
    term: OpenTerm,
    places: TermPlaces,
    is_term_open: bool,
    alloc: Global,
    is_closed: bool,
}

// A drop has to be a call.
impl<W: Write + Drop> Drop for InvertedIndexSerializer<W> {
    fn drop(self) {
        let InvertedIndexSerializer {
            schema,
            bodies: _,
            term: _,
            places: _,
            is_term_open: _,
            alloc: _,
            is_closed: _,
        } = self;
        drop(schema);
    }
}

impl<W: Write> Model for InvertedIndexSerializer<W> {
    ghost use Rattle.std.specs.Prelude.{◌≡◌, false};
    ghost use Rattle.ii_recorder.specs.FieldTerms.{IsUnrefused, field_terms};
    ghost use Rattle.ii_recorder.specs.IndexBodies.{AreUnclosed};
    ghost use Rattle.ii_recorder.specs.IndexSerializer.{IndexSerializerState};

    ghost Value = { IndexSerializerState };

    ghost view = { λ s. record {
      entries = s.schema;
      bodies = s.bodies;
      field = field_terms s.term s.places s.is_term_open;
      closed = s.is_closed;
    } };

    ghost invariant = { λ s. s.is_closed ≡ false → AreUnclosed s.bodies × IsUnrefused (field_terms s.term s.places s.is_term_open) };
}

impl<W: Write> InvertedIndexSerializer<W> {
    /// Creates a serializer of the fields of a schema, to three writers. Offsets are relative to the current
    /// position of each writer.
    pub fn open(
        alloc: Global,
        terms: CountingWriter<W>,
        postings: CountingWriter<W>,
        positions: CountingWriter<W>,
        schema: Schema,
    ) -> InvertedIndexSerializer<W>
        ensures entries { result.entries ≡ schema }
        ensures bodies { result.bodies ≡ record {
          terms = record { writer = terms; base = terms.written_bytes; starts = []; closed = false };
          postings = record { writer = postings; base = postings.written_bytes; starts = []; closed = false };
          positions = record { writer = positions; base = positions.written_bytes; starts = []; closed = false };
        } }
        ensures unclosed { result.closed ≡ false }
    {
        InvertedIndexSerializer {
            schema,
            bodies: IndexBodies::wrap(alloc, terms, postings, positions),
            term: OpenTerm::new(alloc, IndexRecordOption::Basic, None),
            places: TermPlaces::new(alloc),
            is_term_open: false,
            alloc,
            is_closed: false,
        }
    }

    /// Writes the tables of the three files, flushes, and returns the writers of terms, postings and
    /// positions. The written files read back as the bodies of the fields.
    ///
    /// # Errors
    ///
    /// * `Write` if a writer fails.
    /// * `Limit(Offset)` if a count of a writer would exceed `u64::MAX`.
    /// * `SerializerClosed` after an earlier error; nothing is then written.
    pub fn close(
        self,
    ) -> (
        CountingWriter<W>,
        CountingWriter<W>,
        CountingWriter<W>,
        Result<(), Fault>,
    )
        ensures terms { (initial : CountingWriterState) (bodies : List Body) → HasBodies initial self.bodies.terms bodies → fit_fields bodies ≡ true → OnOk result.3 (WroteComposite initial result.0 bodies) }
        ensures postings { (initial : CountingWriterState) (bodies : List Body) → HasBodies initial self.bodies.postings bodies → fit_fields bodies ≡ true → OnOk result.3 (WroteComposite initial result.1 bodies) }
        ensures positions { (initial : CountingWriterState) (bodies : List Body) → HasBodies initial self.bodies.positions bodies → fit_fields bodies ≡ true → OnOk result.3 (WroteComposite initial result.2 bodies) }

        // The outcomes: a failed call counts once, and each writer keeps what was written.
        ensures failures { CountsFailuresOf self.bodies result.0 result.1 result.2 result.3 }
        ensures grow { Grows self.bodies.terms.writer result.0 × Grows self.bodies.postings.writer result.1 × Grows self.bodies.positions.writer result.2 }

        // Which errors it returns, and when.
        ensures full { IsErrOf result.3 (Fault.Limit LimitName.Offset) → OneIsFull self.bodies (tables_of self.bodies) }
        ensures refused { IsTrue self.closed → (result.0 ≡ self.bodies.terms.writer) × (result.1 ≡ self.bodies.postings.writer) × (result.2 ≡ self.bodies.positions.writer) }
        ensures closed { IsErrOf result.3 Fault.SerializerClosed ↔ IsTrue self.closed }
        ensures only { IfErr result.3 (λ e. (e ≡ Fault.Write) ⊎ (e ≡ Fault.Limit LimitName.Offset) ⊎ (e ≡ Fault.SerializerClosed)) }
    {
        let InvertedIndexSerializer {
            schema,
            bodies,
            term: _,
            places: _,
            is_term_open: _,
            alloc: _,
            is_closed,
        } = self;
        drop(schema);
        if is_closed {
            let (terms, postings, positions) = bodies.into_writers();
            return (terms, postings, positions, Err(Fault::SerializerClosed));
        }
        bodies.close()
    }

    /// Returns the writers of terms, postings and positions without writing tables.
    pub fn into_writers(self) -> (CountingWriter<W>, CountingWriter<W>, CountingWriter<W>)
        ensures { result ≡ (self.bodies.terms.writer, self.bodies.postings.writer, self.bodies.positions.writer) }
    {
        let InvertedIndexSerializer {
            schema,
            bodies,
            term: _,
            places: _,
            is_term_open: _,
            alloc: _,
            is_closed: _,
        } = self;
        drop(schema);
        bodies.into_writers()
    }

    // Starts a field of the schema that wasn't written yet.
    fn begin(
        &mut self,
        field: Field,
        total_num_tokens: u64,
        fieldnorm_reader: Option<FieldNormReader>,
    ) -> Result<(), Fault>
        requires known { field < length self.old.entries }
        requires lacks { self.old.closed ≡ false → LacksField field self.old.bodies }
        ensures begins { OnOk result (IsWriting self.old.bodies self.new field total_num_tokens fieldnorm_reader [] []) }
        ensures begun { OnOk result (AreBegun self.new.bodies) }
        ensures between { OnOk result (self.new.field.term_open ≡ false) }

        // The outcomes: a failed call counts once, and each writer keeps what was written.
        ensures ends { EndsWriting self.old self.new result }
        ensures grow { AllGrow self.old.bodies self.new.bodies }

        // Which errors it returns, and when.
        ensures full { IsErrOf result (Fault.Limit LimitName.Offset) → IsFull self.old.bodies.postings.writer 8 }
        ensures only { IfErr result (λ e. (e ≡ Fault.OutOfMemory) ⊎ (e ≡ Fault.Write) ⊎ (e ≡ Fault.Limit LimitName.Offset) ⊎ (e ≡ Fault.SerializerClosed)) }
    {
        if self.is_closed {
            return Err(Fault::SerializerClosed);
        }
        let option = self.schema.get_field_entry(field).index_record_option();
        let begun = self.bodies.begin_field(field, total_num_tokens);
        self.term = OpenTerm::new(self.alloc, option, fieldnorm_reader);
        self.places = TermPlaces::new(self.alloc);
        self.is_term_open = false;
        self.is_closed = begun.is_err();
        begun
    }

    // Ends the open term, if there is one.
    #[tactic(auto, using(crate::proofs::TermLemmas::ends_within))]
    fn end_term(&mut self) -> Result<(), Fault>
        requires begun { self.old.closed ≡ false → AreBegun self.old.bodies }
        ensures writing { (initial : IndexBodiesState) (field tokens : ℕ) (norms : Option Norms) (ts : List WrittenTerm) (key : List ℕ) → IsTrue self.old.field.term_open
            → IsWriting initial self.old field tokens norms ts (key ∷ [])
            → OnOk result (IsWriting initial self.new field tokens norms (ts ++ term_under key self.old.field.term ∷ []) []) }
        ensures none { self.old.closed ≡ false → self.old.field.term_open ≡ false → (result ≡ Ok tt) × (self.new ≡ self.old) }
        ensures between { OnOk result (self.new.field.term_open ≡ false) }
        ensures begun { self.old.closed ≡ false → AreBegun self.new.bodies }
        ensures mode { OnOk result (self.new.field.term.mode ≡ self.old.field.term.mode) }

        // The outcomes: a failed call counts once, and each writer keeps what was written.
        ensures ends { EndsWriting self.old self.new result }
        ensures grow { AllGrow self.old.bodies self.new.bodies }

        // Which errors it returns, and when.
        ensures limits { IsTrue self.old.field.term_open → OnOk result (IsWithinLimits self.old.field) }
        ensures fault { IfErr result (λ e. (e ≡ Fault.SerializerClosed) ⊎ IsTermFault self.old e) }
        ensures room { OnOk result (OneIsFull self.new.bodies (dictionary_of self.new.field) → OneIsFull self.old.bodies (closing_bytes self.old.field)) }
    {
        if self.is_closed {
            return Err(Fault::SerializerClosed);
        }
        if !self.is_term_open {
            return Ok(());
        }
        let ended = self.term.write(
            &mut self.places,
            self.bodies.postings.writer(),
            self.bodies.positions.writer(),
        );
        self.is_term_open = false;
        self.is_closed = ended.is_err();
        ended
    }

    // Ends the field, in which no term is open: writes its dictionary, and flushes.
    fn finish_field(&mut self) -> Result<(), Fault>
        requires begun { self.old.closed ≡ false → AreBegun self.old.bodies }
        requires between { self.old.closed ≡ false → self.old.field.term_open ≡ false }
        ensures wrote { (initial : IndexBodiesState) (field tokens : ℕ) (norms : Option Norms) (ts : List WrittenTerm) → IsWriting initial self.old field tokens norms ts []
            → OnOk result (AddsBodies initial self.new.bodies field (field_bodies self.old.field.term.mode tokens ts)) }
        ensures holds { (initial : IndexBodiesState) (field tokens : ℕ) (norms : Option Norms) (ts : List WrittenTerm) → IsWriting initial self.old field tokens norms ts []
            → OnOk result (HoldsTerms self.old.field.term.mode tokens (field_bodies self.old.field.term.mode tokens ts) ts) }
        ensures begun { self.old.closed ≡ false → AreBegun self.new.bodies }

        // The outcomes: a failed call counts once, and each writer keeps what was written.
        ensures ends { EndsWriting self.old self.new result }
        ensures grow { AllGrow self.old.bodies self.new.bodies }

        // Which errors it returns, and when.
        ensures fault { IfErr result (λ e. (e ≡ Fault.SerializerClosed) ⊎ (e ≡ Fault.Write) ⊎ ((e ≡ Fault.Limit LimitName.Offset) × OneIsFull self.old.bodies (dictionary_of self.old.field))) }
    {
        if self.is_closed {
            return Err(Fault::SerializerClosed);
        }
        let finished = self.bodies.finish_field(&mut self.places);
        self.is_closed = finished.is_err();
        finished
    }

    // Ends the open term, if there is one, and the field.
    fn end_field(&mut self) -> Result<(), Fault>
        requires begun { self.old.closed ≡ false → AreBegun self.old.bodies }
        ensures wrote { (initial : IndexBodiesState) (field tokens : ℕ) (norms : Option Norms) (ts : List WrittenTerm) → self.old.field.term_open ≡ false
            → IsWriting initial self.old field tokens norms ts []
            → OnOk result (AddsBodies initial self.new.bodies field (field_bodies self.old.field.term.mode tokens ts)) }
        ensures holds { (initial : IndexBodiesState) (field tokens : ℕ) (norms : Option Norms) (ts : List WrittenTerm) → self.old.field.term_open ≡ false
            → IsWriting initial self.old field tokens norms ts []
            → OnOk result (HoldsTerms self.old.field.term.mode tokens (field_bodies self.old.field.term.mode tokens ts) ts) }
        ensures wrote_last { (initial : IndexBodiesState) (field tokens : ℕ) (norms : Option Norms) (ts : List WrittenTerm) (key : List ℕ) → self.old.field.term_open ≡ true
            → IsWriting initial self.old field tokens norms ts (key ∷ [])
            → OnOk result (AddsBodies initial self.new.bodies field (field_bodies self.old.field.term.mode tokens (ts ++ term_under key self.old.field.term ∷ []))) }
        ensures holds_last { (initial : IndexBodiesState) (field tokens : ℕ) (norms : Option Norms) (ts : List WrittenTerm) (key : List ℕ) → self.old.field.term_open ≡ true
            → IsWriting initial self.old field tokens norms ts (key ∷ [])
            → OnOk result (HoldsTerms self.old.field.term.mode tokens (field_bodies self.old.field.term.mode tokens (ts ++ term_under key self.old.field.term ∷ [])) (ts ++ term_under key self.old.field.term ∷ [])) }
        ensures begun { self.new.closed ≡ false → AreBegun self.new.bodies }

        // The outcomes: a failed call counts once, and each writer keeps what was written.
        ensures ends { EndsWriting self.old self.new result }
        ensures grow { AllGrow self.old.bodies self.new.bodies }

        // Which errors it returns, and when.
        ensures limits { IsTrue self.old.field.term_open → OnOk result (IsWithinLimits self.old.field) }
        ensures fault { IfErr result (λ e. (e ≡ Fault.SerializerClosed) ⊎ IsFieldFault self.old e) }
    {
        let ended = self.end_term();
        if ended.is_err() {
            return ended;
        }
        self.finish_field()
    }
}

/// Writes the terms of one field to the three files of a borrowed index.
///
/// After an error the index is closed: each further call returns `SerializerClosed`.
#[derive(Drop)]
pub struct FieldSerializer<'a, W: Write> {
    index: &'a mut InvertedIndexSerializer<W>,
    ghost begun: { index.now.closed ≡ false → AreBegun index.now.bodies },
}

impl<W: Write> InvertedIndexSerializer<W> {
    /// Starts a field of the schema that wasn't written yet, as `FieldSerializer::create` does.
    pub fn new_field(
        &mut self,
        field: Field,
        total_num_tokens: u64,
        fieldnorm_reader: Option<FieldNormReader>,
    ) -> Result<FieldSerializer<'_, W>, Fault>
        requires known { field < length self.old.entries }
        requires lacks { self.old.closed ≡ false → LacksField field self.old.bodies }
        ensures same_reference { IfOk result (λ f. f.index.ghost_name ≡ self.entry.ghost_name) }
        ensures begins { IfOk result (λ f. IsWriting self.old.bodies f.index.now field total_num_tokens fieldnorm_reader [] []) }
        ensures started { IfOk result (λ f. IsStarted self.old f.index.now) }

        // Which errors it returns, and when.
        ensures* rests { sem 𝓛 (RestsIfErr (the_row W.row W.Write) self.entry (λ f. f.index.ghost_name) result
            (λ n. EndsWriting self.old n result × AllGrow self.old.bodies n.bodies)) }
        ensures refused { RefusesStart self.old result }
    {
        FieldSerializer::create(self, field, total_num_tokens, fieldnorm_reader)
    }
}

impl<'a, W: Write> FieldSerializer<'a, W> {
    /// Starts a field of the schema that wasn't written yet, with the number of all its tokens. Its norms, if
    /// it has some, give the bounds of full blocks.
    ///
    /// # Errors
    ///
    /// * `Write` if a writer fails.
    /// * `Limit(Offset)` if a count of a writer would exceed `u64::MAX`.
    /// * `OutOfMemory` if a table can't grow.
    /// * `SerializerClosed` after an earlier error.
    pub fn create(
        serializer: &'a mut InvertedIndexSerializer<W>,
        field: Field,
        total_num_tokens: u64,
        fieldnorm_reader: Option<FieldNormReader>,
    ) -> Result<FieldSerializer<'a, W>, Fault>
        requires known { field < length serializer.old.entries }
        requires lacks { serializer.old.closed ≡ false → LacksField field serializer.old.bodies }
        ensures same_reference { IfOk result (λ f. f.index.ghost_name ≡ serializer.entry.ghost_name) }
        ensures begins { IfOk result (λ f. IsWriting serializer.old.bodies f.index.now field total_num_tokens fieldnorm_reader [] []) }
        ensures started { IfOk result (λ f. IsStarted serializer.old f.index.now) }

        // Which errors it returns, and when.
        ensures* rests { sem 𝓛 (RestsIfErr (the_row W.row W.Write) serializer.entry (λ f. f.index.ghost_name) result
            (λ n. EndsWriting serializer.old n result × AllGrow serializer.old.bodies n.bodies)) }
        ensures refused { RefusesStart serializer.old result }
    {
        serializer.begin(field, total_num_tokens, fieldnorm_reader)?;
        Ok(FieldSerializer { index: serializer })
    }

    /// Starts a term, as the field records it, or without term frequencies if `record_term_freq` is not set.
    /// Its key must be greater than the previous key by its bytes, and no term may be open. The
    /// number of its documents is ignored.
    ///
    /// Returns `OutOfMemory` if an allocation fails; `SerializerClosed` after an earlier error.
    pub fn new_term(
        &mut self,
        term: &[u8],
        _term_doc_freq: u32,
        record_term_freq: bool,
    ) -> Result<(), Fault>
        requires between { self.old.index.now.closed ≡ false → self.old.index.now.field.term_open ≡ false }
        requires ascending { self.old.index.now.closed ≡ false → AreAscending (self.old.index.now.field.places.keys ++ term.now ∷ []) }
        ensures same_reference { self.new.index.ghost_name ≡ self.old.index.ghost_name }
        ensures writing { (initial : IndexBodiesState) (field tokens : ℕ) (norms : Option Norms) (ts : List WrittenTerm) → IsWriting initial self.old.index.now field tokens norms ts []
            → OnOk result (IsWriting initial self.new.index.now field tokens norms ts (term.now ∷ [])) }
        ensures term { OnOk result (self.new.index.now.field.term
            ≡ record self.old.index.now.field.term { skip_info = if record_term_freq then self.old.index.now.field.term.mode else Basic; docs = []; freqs = []; deltas = [] }) }
        ensures inside { OnOk result (self.new.index.now.field.term_open ≡ true) }

        // The outcomes, and which errors it returns.
        ensures ends { EndsInMemory self.old.index.now self.new.index.now result }
        ensures only { OnlyMemoryOrClosed result }
    {
        let index = &mut *self.index;
        if index.is_closed {
            return Err(Fault::SerializerClosed);
        }
        let added = index.places.insert_key(term);
        index.is_closed = added.is_err();
        index.term.begin(record_term_freq);
        index.is_term_open = true;
        added
    }

    /// Starts a term without term frequencies, as `new_term` does.
    ///
    /// Returns `OutOfMemory` if an allocation fails; `SerializerClosed` after an earlier error.
    pub fn new_term_without_freq(&mut self, term: &[u8]) -> Result<(), Fault>
        requires between { self.old.index.now.closed ≡ false → self.old.index.now.field.term_open ≡ false }
        requires ascending { self.old.index.now.closed ≡ false → AreAscending (self.old.index.now.field.places.keys ++ term.now ∷ []) }
        ensures same_reference { self.new.index.ghost_name ≡ self.old.index.ghost_name }
        ensures writing { (initial : IndexBodiesState) (field tokens : ℕ) (norms : Option Norms) (ts : List WrittenTerm) → IsWriting initial self.old.index.now field tokens norms ts []
            → OnOk result (IsWriting initial self.new.index.now field tokens norms ts (term.now ∷ [])) }
        ensures term { OnOk result (self.new.index.now.field.term
            ≡ record self.old.index.now.field.term { skip_info = Basic; docs = []; freqs = []; deltas = [] }) }
        ensures inside { OnOk result (self.new.index.now.field.term_open ≡ true) }

        // The outcomes, and which errors it returns.
        ensures ends { EndsInMemory self.old.index.now self.new.index.now result }
        ensures only { OnlyMemoryOrClosed result }
    {
        self.new_term(term, 0, false)
    }

    /// Adds a document to the open term, with its term frequency and the deltas of its positions. The deltas
    /// are ignored if the field doesn't record positions.
    ///
    /// The document must be greater than all earlier ones, less than `TERMINATED`, and covered by the norms
    /// if the field has some. The term frequency must be at least 1 if the term has frequencies.
    ///
    /// # Errors
    ///
    /// * `Limit(BlockFrequencySum)` if, in a term with positions, the document fills a block whose term
    ///   frequencies sum to more than `u32::MAX`.
    /// * `OutOfMemory` if an allocation fails.
    /// * `SerializerClosed` after an earlier error.
    pub fn write_doc(
        &mut self,
        doc_id: DocId,
        term_freq: u32,
        position_deltas: &[u32],
    ) -> Result<(), Fault>
        requires inside { self.old.index.now.closed ≡ false → self.old.index.now.field.term_open ≡ true }
        requires ascending { self.old.index.now.closed ≡ false → IsTrue (are_documents (self.old.index.now.field.term.docs ++ doc_id ∷ [])) }
        requires counted { self.old.index.now.closed ≡ false → IsTrue (has_freq self.old.index.now.field.term.skip_info) → 0 < term_freq }
        requires covered { self.old.index.now.closed ≡ false → Covers self.old.index.now.field.term.norms doc_id }
        ensures same_reference { self.new.index.ghost_name ≡ self.old.index.ghost_name }
        ensures ok { OnOk result (self.new.index.now ≡ record self.old.index.now {
          field = record self.old.index.now.field {
            term = record self.old.index.now.field.term {
              docs = self.old.index.now.field.term.docs ++ doc_id ∷ [];
              freqs = self.old.index.now.field.term.freqs ++ term_freq ∷ [];
              deltas = if has_positions self.old.index.now.field.term.mode then self.old.index.now.field.term.deltas ++ position_deltas.now else self.old.index.now.field.term.deltas;
            };
          };
        }) }

        // The outcomes, and which errors it returns.
        ensures ends { EndsInMemory self.old.index.now self.new.index.now result }
        ensures limit { IsErrOf result (Fault.Limit LimitName.BlockFrequencySum)
            ↔ (self.old.index.now.closed ≡ false) × IsSumTooLarge self.old.index.now.field.term.skip_info (self.old.index.now.field.term.freqs ++ term_freq ∷ []) }
        ensures only { IfErr result (λ e. (e ≡ Fault.OutOfMemory) ⊎ (e ≡ Fault.SerializerClosed) ⊎ (e ≡ Fault.Limit LimitName.BlockFrequencySum)) }
    {
        let index = &mut *self.index;
        if index.is_closed {
            return Err(Fault::SerializerClosed);
        }
        let added = index.term.postings.write_doc(doc_id, term_freq);
        if added.is_err() {
            index.term.doc_freq = 0;
            index.is_closed = added.is_err();
            return added;
        }
        index.term.doc_freq += 1;
        if !index.term.mode.has_positions() {
            return Ok(());
        }
        let added = index.term.positions.write_positions_delta(position_deltas);
        index.is_closed = added.is_err();
        added
    }

    // Returns `SerializerClosed` if an earlier call failed.
    pub(crate) fn check_open(&self) -> Result<(), Fault>
        ensures { result ≡ (if self.now.index.now.closed then Err Fault.SerializerClosed else Ok tt) }
    {
        let index = &*self.index;
        if index.is_closed {
            return Err(Fault::SerializerClosed);
        }
        Ok(())
    }

    /// Closes the index as after an error: each further call returns `SerializerClosed`. For callers that
    /// fail to allocate a term's key.
    pub fn shut(&mut self)
        ensures same_reference { self.new.index.ghost_name ≡ self.old.index.ghost_name }
        ensures shut { self.new.index.now ≡ record self.old.index.now { closed = true } }
    {
        let index = &mut *self.index;
        index.is_closed = true;
    }

    /// Ends the open term: writes its postings and then, if the field records them, its positions. Does
    /// nothing if no term is open.
    ///
    /// # Errors
    ///
    /// * `Write` if a writer fails.
    /// * `Limit(Offset)` if a count of a writer would exceed `u64::MAX`, or the bytes of all terms exceed
    ///   2^56.
    /// * `Limit(TermBytes)` if the postings or the positions of the term have more than `u32::MAX` bytes.
    /// * `OutOfMemory` if an allocation fails.
    /// * `SerializerClosed` after an earlier error; nothing is then written.
    pub fn close_term(&mut self) -> Result<(), Fault>
        ensures same_reference { self.new.index.ghost_name ≡ self.old.index.ghost_name }
        ensures writing { (initial : IndexBodiesState) (field tokens : ℕ) (norms : Option Norms) (ts : List WrittenTerm) (key : List ℕ) → IsTrue self.old.index.now.field.term_open
            → IsWriting initial self.old.index.now field tokens norms ts (key ∷ [])
            → OnOk result (IsWriting initial self.new.index.now field tokens norms (ts ++ term_under key self.old.index.now.field.term ∷ []) []) }
        ensures none { self.old.index.now.closed ≡ false → self.old.index.now.field.term_open ≡ false
            → (result ≡ Ok tt) × (self.new.index.now ≡ self.old.index.now) }
        ensures between { OnOk result (self.new.index.now.field.term_open ≡ false) }

        // The outcomes: a failed call counts once, and each writer keeps what was written.
        ensures ends { EndsWriting self.old.index.now self.new.index.now result }
        ensures grow { AllGrow self.old.index.now.bodies self.new.index.now.bodies }

        // Which errors it returns, and when.
        ensures limits { IsTrue self.old.index.now.field.term_open → OnOk result (IsWithinLimits self.old.index.now.field) }
        ensures fault { IfErr result (λ e. (e ≡ Fault.SerializerClosed) ⊎ IsTermFault self.old.index.now e) }
    {
        self.index.end_term()
    }

    /// Ends the open term, if there is one, and the field: writes its dictionary, and flushes. Returns the
    /// errors of `close_term`.
    pub fn close(self) -> Result<(), Fault>
        ensures wrote { (initial : IndexBodiesState) (field tokens : ℕ) (norms : Option Norms) (ts : List WrittenTerm) → self.entry.index.now.field.term_open ≡ false
            → IsWriting initial self.entry.index.now field tokens norms ts []
            → OnOk result (AddsBodies initial self.exit.0.now.bodies field (field_bodies self.entry.index.now.field.term.mode tokens ts)) }
        ensures holds { (initial : IndexBodiesState) (field tokens : ℕ) (norms : Option Norms) (ts : List WrittenTerm) → self.entry.index.now.field.term_open ≡ false
            → IsWriting initial self.entry.index.now field tokens norms ts []
            → OnOk result (HoldsTerms self.entry.index.now.field.term.mode tokens (field_bodies self.entry.index.now.field.term.mode tokens ts) ts) }
        ensures wrote_last { (initial : IndexBodiesState) (field tokens : ℕ) (norms : Option Norms) (ts : List WrittenTerm) (key : List ℕ) → self.entry.index.now.field.term_open ≡ true
            → IsWriting initial self.entry.index.now field tokens norms ts (key ∷ [])
            → OnOk result (AddsBodies initial self.exit.0.now.bodies field (field_bodies self.entry.index.now.field.term.mode tokens (ts ++ term_under key self.entry.index.now.field.term ∷ []))) }
        ensures holds_last { (initial : IndexBodiesState) (field tokens : ℕ) (norms : Option Norms) (ts : List WrittenTerm) (key : List ℕ) → self.entry.index.now.field.term_open ≡ true
            → IsWriting initial self.entry.index.now field tokens norms ts (key ∷ [])
            → OnOk result (HoldsTerms self.entry.index.now.field.term.mode tokens (field_bodies self.entry.index.now.field.term.mode tokens (ts ++ term_under key self.entry.index.now.field.term ∷ [])) (ts ++ term_under key self.entry.index.now.field.term ∷ [])) }

        // The outcomes: a failed call counts once, and each writer keeps what was written.
        ensures ends { EndsWriting self.entry.index.now self.exit.0.now result }
        ensures grow { AllGrow self.entry.index.now.bodies self.exit.0.now.bodies }

        // Which errors it returns, and when.
        ensures limits { IsTrue self.entry.index.now.field.term_open → OnOk result (IsWithinLimits self.entry.index.now.field) }
        ensures fault { IfErr result (λ e. (e ≡ Fault.SerializerClosed) ⊎ IsFieldFault self.entry.index.now e) }
    {
        let FieldSerializer { index } = self;
        index.end_field()
    }
}

// Holds the open term of a field until it is written: its documents with their term frequencies, and the
// deltas of their positions.
struct OpenTerm {
    mode: IndexRecordOption,
    postings: OpenPostings,
    positions: PositionWriter,
    doc_freq: u32,
}

// A drop has to be a call.
impl Drop for OpenTerm {
    fn drop(self) {
        let OpenTerm {
            mode: _,
            postings: _,
            positions: _,
            doc_freq: _,
        } = self;
    }
}

impl Model for OpenTerm {
    ghost use Rattle.std.specs.Prelude.{◌≡◌, length, IsTrue};
    ghost use Rattle.ii_base.specs.Entries.{are_documents};
    ghost use Rattle.ii_recorder.specs.OpenTerm.{OpenTermState};

    ghost Value = { OpenTermState };

    ghost view = { λ t. record {
      norms = t.postings.norms;
      mode = t.mode;
      skip_info = t.postings.skip_info;
      docs = t.postings.docs;
      freqs = t.postings.freqs;
      deltas = t.positions;
    } };

    ghost invariant = { λ t. (t.mode ≡ t.postings.mode) × IsTrue (are_documents t.postings.docs) × (t.doc_freq ≡ length t.postings.docs) };
}

impl OpenTerm {
    fn new(
        alloc: Global,
        mode: IndexRecordOption,
        fieldnorm_reader: Option<FieldNormReader>,
    ) -> OpenTerm
        ensures { result ≡ record { norms = fieldnorm_reader; mode = mode; skip_info = mode; docs = []; freqs = []; deltas = [] } }
    {
        OpenTerm {
            mode,
            postings: OpenPostings::new(alloc, mode, fieldnorm_reader),
            positions: PositionWriter::new(alloc),
            doc_freq: 0,
        }
    }

    // Starts a new term, as the field records it or without term frequencies.
    fn begin(&mut self, record_term_freq: bool)
        ensures { self.new ≡ record self.old { skip_info = if record_term_freq then self.old.mode else Basic; docs = []; freqs = [] } }
    {
        self.postings.new_term(record_term_freq);
        self.doc_freq = 0;
    }

    // Ends the term: writes its postings and then, if the field records them, its positions, and keeps its
    // place.
    fn write<W: Write>(
        &mut self,
        places: &mut TermPlaces,
        postings_write: &mut CountingWriter<W>,
        positions_write: &mut CountingWriter<W>,
    ) -> Result<(), Fault>
        requires open { places.old.closed ≡ false }
        requires key { length places.old.keys ≡ length places.old.infos + 1 }
        ensures postings { OnOk result (Wrote postings_write.old postings_write.new (written_postings self.old.norms self.old.skip_info self.old.docs self.old.freqs)) }
        ensures positions { OnOk result (Wrote positions_write.old positions_write.new (positions_bytes self.old.mode self.old.deltas)) }
        ensures ends { OnOk result (EndsTerm (field_terms self.old places.old true) (field_terms self.new places.new false)) }

        // The outcomes: a failed call counts once, and each writer keeps what was written.
        ensures once { CountsOnce (postings_write.old.failed_calls + positions_write.old.failed_calls)
            (postings_write.new.failed_calls + positions_write.new.failed_calls) result }
        ensures kept { (postings_write.old.failed_calls ≤ postings_write.new.failed_calls) × (positions_write.old.failed_calls ≤ positions_write.new.failed_calls) }
        ensures grow { Grows postings_write.old postings_write.new × Grows positions_write.old positions_write.new }

        // Which errors it returns, and when.
        ensures fault { IfErr result (λ e. IsEndFault self.old places.old postings_write.old positions_write.old e) }
    {
        let doc_freq = self.doc_freq;
        let start = postings_write.written_bytes();
        let written = self.postings.close_term(postings_write);
        self.doc_freq = 0;
        if written.is_err() {
            return written;
        }
        let postings_len = match len_between(start, postings_write.written_bytes()) {
            Ok(len) => len,
            Err(fault) => return Err(fault),
        };
        if !self.mode.has_positions() {
            return places.insert_term(doc_freq, postings_len, 0);
        }
        let start = positions_write.written_bytes();
        let written = self.positions.close_term(positions_write);
        if written.is_err() {
            return written;
        }
        let positions_len = match len_between(start, positions_write.written_bytes()) {
            Ok(len) => len,
            Err(fault) => return Err(fault),
        };
        places.insert_term(doc_freq, postings_len, positions_len)
    }
}

// Returns the number of bytes between two places.
fn len_between(start: u64, end: u64) -> Result<u32, Fault>
    requires { start ≤ end }
    ensures ok { IfOk result (λ len. start + len ≡ end) }
    ensures err { IfErr result (λ e. (e ≡ Fault.Limit LimitName.TermBytes) × (start + 2 ^ 32 ≤ end)) }
{
    match u32::try_from(end - start) {
        Ok(len) => Ok(len),
        Err(_) => Err(Fault::Limit(LimitName::TermBytes)),
    }
}
