ghost use Rattle.std.specs.Prelude.{◌≡◌, ◌+◌, ◌-◌, ◌^◌, ◌<◌, ◌⊎◌, List, [], true, false, length, Ok, OnOk, IfErr, IsErrOf};
ghost use Rattle.std.specs.List.{zip};
ghost use Rattle.ii_io.specs.CountingWriter.{CountingWriterState, Grows, IsFull};
ghost use Rattle.ii_io.specs.CompositeWrite.{AddsBody, HasBodies, WroteComposite, has_start};
ghost use Rattle.ii_io.specs.Composite.{Body, fit_fields};
ghost use Rattle.ii_io.specs.Faults.{OnlyMemory};
ghost use Rattle.ii_io.specs.Numbers.{le_bytes};
ghost use Rattle.ii_recorder.specs.IndexBodies.{AddsBodies, AddsMore, AllGrow, AreBegun, OneIsFull, AreUnclosed, LacksField, tables_of, CountsFailures, CountsFailuresOf};
ghost use Rattle.ii_termdict.specs.Dictionary.{dictionary};
ghost use Rattle.ii_termdict.specs.Written.{written_dictionary};

use super::term_places::TermPlaces;
use ii_io::{BinarySerializable, CompositeWrite, CountingWriter, Fault, Field, LimitName};
use std::alloc::Global;
use std::io::Write;
use std::marker::Model;

/// Holds the three composite files of an index: terms, postings and positions.
pub(crate) struct IndexBodies<W: Write> {
    pub(crate) terms: CompositeWrite<W>,
    pub(crate) postings: CompositeWrite<W>,
    pub(crate) positions: CompositeWrite<W>,
}

// A drop has to be a call.
impl<W: Write + Drop> Drop for IndexBodies<W> {
    fn drop(self) {
        let IndexBodies {
            terms: _,
            postings: _,
            positions: _,
        } = self;
    }
}

impl<W: Write> Model for IndexBodies<W> {
    ghost use Rattle.ii_recorder.specs.IndexBodies.{IndexBodiesState};

    ghost Value = { IndexBodiesState };

    ghost view = { λ b. record { terms = b.terms; postings = b.postings; positions = b.positions } };
}

impl<W: Write> IndexBodies<W> {
    pub(crate) fn wrap(
        alloc: Global,
        terms: CountingWriter<W>,
        postings: CountingWriter<W>,
        positions: CountingWriter<W>,
    ) -> IndexBodies<W>
        ensures { result ≡ record {
          terms = record { writer = terms; base = terms.written_bytes; starts = []; closed = false };
          postings = record { writer = postings; base = postings.written_bytes; starts = []; closed = false };
          positions = record { writer = positions; base = positions.written_bytes; starts = []; closed = false };
        } }
    {
        IndexBodies {
            terms: CompositeWrite::wrap(alloc, terms),
            postings: CompositeWrite::wrap(alloc, postings),
            positions: CompositeWrite::wrap(alloc, positions),
        }
    }

    // Starts the body of a field in each file. The postings begin with the number of its tokens.
    pub(crate) fn begin_field(&mut self, field: Field, total_num_tokens: u64) -> Result<(), Fault>
        requires unclosed { AreUnclosed self.old }
        requires lacks { LacksField field self.old }
        ensures ok { OnOk result (AddsBodies self.old self.new field (record { terms = []; postings = le_bytes 8 total_num_tokens; positions = [] })) }
        ensures unclosed { OnOk result (AreUnclosed self.new) }
        ensures begun { OnOk result (AreBegun self.new) }

        // The outcomes: a failed call counts once, and each writer keeps what was written.
        ensures failures { CountsFailures self.old self.new result }
        ensures grow { AllGrow self.old self.new }

        // Which errors it returns, and when.
        ensures full { IsErrOf result (Fault.Limit LimitName.Offset) → IsFull self.old.postings.writer 8 }
        ensures only { IfErr result (λ e. (e ≡ Fault.OutOfMemory) ⊎ (e ≡ Fault.Write) ⊎ (e ≡ Fault.Limit LimitName.Offset)) }
    {
        begin_body(&mut self.terms, field)?;
        begin_body(&mut self.positions, field)?;
        begin_body(&mut self.postings, field)?;
        total_num_tokens.serialize(self.postings.writer())
    }

    // Writes the dictionary of the field that was started last, and flushes.
    pub(crate) fn finish_field(&mut self, places: &mut TermPlaces) -> Result<(), Fault>
        requires begun { AreBegun self.old }
        requires open { places.old.closed ≡ false }
        requires whole { length places.old.keys ≡ length places.old.infos }
        ensures wrote { OnOk result (AddsMore self.old self.new (record { terms = written_dictionary places.old.keys places.old.infos; postings = []; positions = [] })) }
        ensures holds { OnOk result (dictionary (written_dictionary places.old.keys places.old.infos) ≡ Ok (zip places.old.keys places.old.infos)) }
        ensures unclosed { AreUnclosed self.old → AreUnclosed self.new }
        ensures begun { AreBegun self.new }
        ensures places { OnOk result (places.new.closed ≡ false) × (places.new.keys ≡ places.old.keys) × (places.new.infos ≡ places.old.infos) }

        // The outcomes: a failed call counts once, and each writer keeps what was written.
        ensures failures { CountsFailures self.old self.new result }
        ensures grow { AllGrow self.old self.new }

        // Which errors it returns, and when.
        ensures fault { IfErr result (λ e. (e ≡ Fault.Write)
            ⊎ ((e ≡ Fault.Limit LimitName.Offset) × OneIsFull self.old (record { terms = written_dictionary places.old.keys places.old.infos; postings = []; positions = [] }))) }
    {
        let written = places.finish(self.terms.writer());
        if written.is_err() {
            return written;
        }
        self.flush()
    }

    // Flushes the three writers.
    fn flush(&mut self) -> Result<(), Fault>
        requires begun { AreBegun self.old }
        ensures wrote { OnOk result (AddsMore self.old self.new (record { terms = []; postings = []; positions = [] })) }
        ensures unclosed { AreUnclosed self.old → AreUnclosed self.new }
        ensures begun { AreBegun self.new }

        // The outcomes: a failed call counts once, and each writer keeps what was written.
        ensures failures { CountsFailures self.old self.new result }
        ensures grow { AllGrow self.old self.new }

        // Which errors it returns, and when.
        ensures full { IsErrOf result (Fault.Limit LimitName.Offset) → OneIsFull self.old (record { terms = []; postings = []; positions = [] }) }
        ensures only { IfErr result (λ e. (e ≡ Fault.Write) ⊎ (e ≡ Fault.Limit LimitName.Offset)) }
    {
        self.terms.writer().flush()?;
        self.postings.writer().flush()?;
        self.positions.writer().flush()
    }

    // Returns the three writers without writing tables.
    pub(crate) fn into_writers(self) -> (CountingWriter<W>, CountingWriter<W>, CountingWriter<W>)
        ensures terms { result.0 ≡ self.terms.writer }
        ensures postings { result.1 ≡ self.postings.writer }
        ensures positions { result.2 ≡ self.positions.writer }
    {
        let IndexBodies {
            terms,
            postings,
            positions,
        } = self;
        (
            terms.into_writer(),
            postings.into_writer(),
            positions.into_writer(),
        )
    }

    // Writes the tables of the three composite files, and returns the writers.
    pub(crate) fn close(
        self,
    ) -> (
        CountingWriter<W>,
        CountingWriter<W>,
        CountingWriter<W>,
        Result<(), Fault>,
    )
        requires { AreUnclosed self }
        ensures terms { (initial : CountingWriterState) (bodies : List Body) → HasBodies initial self.terms bodies → fit_fields bodies ≡ true → OnOk result.3 (WroteComposite initial result.0 bodies) }
        ensures postings { (initial : CountingWriterState) (bodies : List Body) → HasBodies initial self.postings bodies → fit_fields bodies ≡ true → OnOk result.3 (WroteComposite initial result.1 bodies) }
        ensures positions { (initial : CountingWriterState) (bodies : List Body) → HasBodies initial self.positions bodies → fit_fields bodies ≡ true → OnOk result.3 (WroteComposite initial result.2 bodies) }

        // The outcomes: a failed call counts once, and each writer keeps what was written.
        ensures failures { CountsFailuresOf self result.0 result.1 result.2 result.3 }
        ensures grow { Grows self.terms.writer result.0 × Grows self.postings.writer result.1 × Grows self.positions.writer result.2 }

        // Which errors it returns, and when.
        ensures full { IsErrOf result.3 (Fault.Limit LimitName.Offset) → OneIsFull self (tables_of self) }
        ensures only { IfErr result.3 (λ e. (e ≡ Fault.Write) ⊎ (e ≡ Fault.Limit LimitName.Offset)) }
    {
        let IndexBodies {
            terms,
            postings,
            positions,
        } = self;
        let (terms_write, written) = terms.close();
        if written.is_err() {
            return (
                terms_write,
                postings.into_writer(),
                positions.into_writer(),
                written,
            );
        }
        let (postings_write, written) = postings.close();
        if written.is_err() {
            return (
                terms_write,
                postings_write,
                positions.into_writer(),
                written,
            );
        }
        let (positions_write, written) = positions.close();
        (terms_write, postings_write, positions_write, written)
    }
}

// Starts the body of a field.
fn begin_body<W: Write>(composite: &mut CompositeWrite<W>, field: Field) -> Result<(), Fault>
    requires unclosed { composite.old.closed ≡ false }
    requires unwritten { has_start field composite.old.starts ≡ false }
    requires few { length composite.old.starts < 2 ^ 32 - 1 }
    ensures ok { OnOk result (AddsBody composite.old composite.new field []) }
    ensures unclosed { OnOk result (composite.new.closed ≡ false) }
    ensures begun { OnOk result (0 < length composite.new.starts) }
    ensures writer { composite.new.writer ≡ composite.old.writer }

    // Which errors it returns.
    ensures only { OnlyMemory result }
{
    composite.for_field(field)?;
    Ok(())
}
