//! The norms of the fields that a query names.
ghost use Rattle.std.specs.Prelude.{◌≡◌, ◌<◌, ◌-◌, ◌^◌, ◌⊎◌, [], IfErr, IfOk, IsErrOf, List, OnOk, Option, Some, false, length, map, true, ℕ};
ghost use Rattle.ii_io.specs.Composite.{Body, fit_fields};
ghost use Rattle.ii_io.specs.CompositeWrite.{HasBodies, has_start};
ghost use Rattle.ii_io.specs.CountingWriter.{CountingWriterState};
ghost use Rattle.ii_io.specs.declared.faults.Fault.TheVariants as faults;
ghost use Rattle.ii_io.specs.declared.faults.LimitName.TheVariants.{Offset};
ghost use Rattle.ii_io.specs.declared.faults.Part.{Part};
ghost use Rattle.ii_file_slice.specs.declared.faults.FileFault.TheVariants.{Index};
ghost use Rattle.ii_warmup.specs.CopiedNorms.{CopiesNorms, HasCopiedNorms};
ghost use Rattle.ii_warmup.specs.IndexParts.{HaveNormsFor, KnownBodies};
ghost use Rattle.ii_warmup.specs.QueryTerms.{names_field, range_view, term_view};
ghost use Rattle.ii_warmup.specs.declared.scoring.EnableScoring.TheVariants.{Enabled};

use crate::scoring::EnableScoring;
use crate::terms::{QueryRange, QueryTerm};
use crate::wanted_terms::names_field;
use bytes::Bytes;
use ii_base::{CountingWriter, Fault, Field, Schema};
use ii_fieldnorm::{FieldNormReaders, FieldNormsSerializer};
use ii_file_slice::{CompositeSlices, FileFault, FileHandle};
use std::alloc::Global;

// Returns the norms of the fields of a schema that terms or ranges of a query name, if the search ranks; else those of
// no field, without a read.
pub(crate) fn open_norms<H: FileHandle>(
    alloc: Global,
    file: &H,
    schema: &Schema,
    terms: &[QueryTerm<'_>],
    ranges: &[QueryRange<'_>],
    scoring: EnableScoring,
) -> Result<FieldNormReaders, FileFault>
    ensures norms { (bodies : List Body) → KnownBodies (H.bytes file.now) bodies → IfOk result (λ norms. HaveNormsFor scoring (map term_view terms.now) (map range_view ranges.now) (length schema.now) norms bodies) }
    ensures damaged { (bodies : List Body) (part : Part) → KnownBodies (H.bytes file.now) bodies → IsErrOf result (Index (faults.Damaged part)) → ⊥ }
    ensures sound { (bodies : List Body) → KnownBodies (H.bytes file.now) bodies → H.is_sound file.now → IfErr result (λ e. (e ≡ Index faults.OutOfMemory) ⊎ (e ≡ Index (faults.Limit Offset))) }
{
    match scoring {
        EnableScoring::Disabled => no_norms(alloc),
        EnableScoring::Enabled => copy_norms(alloc, file, schema, terms, ranges),
    }
}

// Returns the norms of no field.
fn no_norms(alloc: Global) -> Result<FieldNormReaders, FileFault>
    ensures none { IfOk result (λ norms. norms ≡ []) }
    ensures only { IfErr result (λ e. (e ≡ Index faults.OutOfMemory) ⊎ (e ≡ Index (faults.Limit Offset))) }
{
    let writer = CountingWriter::wrap(Vec::new(alloc));
    match open_written(alloc, FieldNormsSerializer::from_write(alloc, writer)) {
        Ok(norms) => Ok(norms),
        Err(fault) => Err(FileFault::Index(fault)),
    }
}

// Copies the norms of the fields of a schema that terms or ranges of a query name.
fn copy_norms<H: FileHandle>(
    alloc: Global,
    file: &H,
    schema: &Schema,
    terms: &[QueryTerm<'_>],
    ranges: &[QueryRange<'_>],
) -> Result<FieldNormReaders, FileFault>
    ensures norms { (bodies : List Body) → KnownBodies (H.bytes file.now) bodies → IfOk result (λ norms. HaveNormsFor Enabled (map term_view terms.now) (map range_view ranges.now) (length schema.now) norms bodies) }
    ensures damaged { (bodies : List Body) (part : Part) → KnownBodies (H.bytes file.now) bodies → IsErrOf result (Index (faults.Damaged part)) → ⊥ }
    ensures sound { (bodies : List Body) → KnownBodies (H.bytes file.now) bodies → H.is_sound file.now → IfErr result (λ e. (e ≡ Index faults.OutOfMemory) ⊎ (e ≡ Index (faults.Limit Offset))) }
{
    let slices = match CompositeSlices::open(alloc, file) {
        Ok(slices) => slices,
        Err(fault) => return Err(fault),
    };
    let writer = CountingWriter::wrap(Vec::new(alloc));
    let mut serializer = FieldNormsSerializer::from_write(alloc, writer);
    if let Err(fault) = copy_fields(alloc, &slices, schema, terms, ranges, &mut serializer) {
        return Err(fault);
    }
    match open_written(alloc, serializer) {
        Ok(norms) => Ok(norms),
        Err(fault) => Err(FileFault::Index(fault)),
    }
}

// Writes the norms of the fields of a schema that terms or ranges of a query name.
fn copy_fields<H: FileHandle>(
    alloc: Global,
    slices: &CompositeSlices<'_, H>,
    schema: &Schema,
    terms: &[QueryTerm<'_>],
    ranges: &[QueryRange<'_>],
    serializer: &mut FieldNormsSerializer<Vec<u8>>,
) -> Result<(), FileFault>
    requires open { serializer.old.closed ≡ false }
    requires fresh { serializer.old.starts ≡ [] }
    ensures copies { (initial : CountingWriterState) → HasBodies initial serializer.old [] → OnOk result (HasCopiedNorms (names_field (map term_view terms.now) (map range_view ranges.now)) (H.bytes slices.now.file) initial (length schema.now) serializer.new) }
    ensures open { OnOk result (serializer.new.closed ≡ false) }
    ensures damaged { (bodies : List Body) (part : Part) → KnownBodies (H.bytes slices.now.file) bodies → IsErrOf result (Index (faults.Damaged part)) → ⊥ }
    ensures sound { (bodies : List Body) → KnownBodies (H.bytes slices.now.file) bodies → H.is_sound slices.now.file → IfErr result (λ e. (e ≡ Index faults.OutOfMemory) ⊎ (e ≡ Index (faults.Limit Offset))) }
{
    for place in 0..schema.num_fields() {
        let field = Field::from_field_id(place as u32);
        let wanted = names_field(field, terms, ranges);
        if let Err(fault) = copy_field(alloc, field, slices, wanted, serializer) {
            return Err(fault);
        }
    }
    Ok(())
}

// Copies the norms of a field, if they are wanted and there.
fn copy_field<H: FileHandle>(
    alloc: Global,
    field: Field,
    slices: &CompositeSlices<'_, H>,
    wanted: bool,
    serializer: &mut FieldNormsSerializer<Vec<u8>>,
) -> Result<(), FileFault>
    requires open { serializer.old.closed ≡ false }
    requires unwritten { has_start field serializer.old.starts ≡ false }
    requires few { length serializer.old.starts < 2 ^ 32 - 1 }
    ensures copies { OnOk result (CopiesNorms wanted (H.bytes slices.now.file) field serializer.old serializer.new) }
    ensures open { OnOk result (serializer.new.closed ≡ false) }
    ensures damaged { (bodies : List Body) (part : Part) → KnownBodies (H.bytes slices.now.file) bodies → IsErrOf result (Index (faults.Damaged part)) → ⊥ }
    ensures sound { (bodies : List Body) → KnownBodies (H.bytes slices.now.file) bodies → H.is_sound slices.now.file → IfErr result (λ e. (e ≡ Index faults.OutOfMemory) ⊎ (e ≡ Index (faults.Limit Offset))) }
{
    if !wanted {
        return Ok(());
    }
    let Some(body) = slices.open_read(field) else {
        return Ok(());
    };
    let ids = match body.read_bytes(alloc, 0, body.len() as usize) {
        Ok(ids) => ids,
        Err(fault) => return Err(FileFault::from(fault)),
    };
    match serializer.serialize_field(field, ids.as_slice()) {
        Ok(()) => Ok(()),
        Err(fault) => Err(FileFault::Index(fault.in_memory())),
    }
}

// Opens the norms that were written.
fn open_written(
    alloc: Global,
    serializer: FieldNormsSerializer<Vec<u8>>,
) -> Result<FieldNormReaders, Fault>
    requires open { serializer.closed ≡ false }
    ensures norms { (initial : CountingWriterState) (bodies : List Body) → initial.contents ≡ Some [] → HasBodies initial serializer bodies → fit_fields bodies ≡ true → IfOk result (λ norms. norms ≡ bodies) }
    ensures only { (initial : CountingWriterState) (bodies : List Body) → initial.contents ≡ Some [] → HasBodies initial serializer bodies → fit_fields bodies ≡ true → IfErr result (λ e. (e ≡ faults.OutOfMemory) ⊎ (e ≡ faults.Limit Offset)) }
{
    let (writer, written) = serializer.close();
    if let Err(fault) = written {
        return Err(fault.in_memory());
    }
    FieldNormReaders::open(alloc, Bytes::from_vec(writer.finish())?)
}
