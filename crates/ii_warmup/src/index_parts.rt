//! A small index in memory that has what a query reads of the files of an index.
ghost use Rattle.std.specs.Prelude.{◌≡◌, ◌^◌, ◌<◌, IfErr, IfOk, IsErrOf, List, Ok, false, length, ℕ};
ghost use Rattle.ii_io.specs.declared.faults.Fault.TheVariants as faults;
ghost use Rattle.ii_io.specs.declared.faults.Part.{Part};
ghost use Rattle.ii_io.specs.declared.faults.Part.TheVariants as parts;
ghost use Rattle.ii_file_slice.specs.declared.faults.FileFault.TheVariants.{Index};
ghost use Rattle.ii_reader.specs.InvertedIndexReader.{InvertedIndexReaderState};
ghost use Rattle.ii_reader.specs.OpenIndex.{IndexBodies, OpenIndexState, field_readers, reader_of_field};
ghost use Rattle.ii_warmup.specs.Faults.{IsCopyFault};
ghost use Rattle.ii_warmup.specs.IndexParts.{AreTooLong, ArePartsOf, HaveNormsFor, HoldIndex, IsWarmupFault, KnownBodies, KnownTables, LieOutside, requests};
ghost use Rattle.ii_warmup.specs.Parts.{IsPartFor};
ghost use Rattle.ii_warmup.specs.QueryTerms.{query_ranges, requested_terms, requests_of};
ghost use Rattle.ii_warmup.specs.Warmup.{WarmsUp, all_lie, all_sound};

use crate::looked_up_terms::read_wanted_terms;
use crate::norms::open_norms;
use crate::scoring::EnableScoring;
use crate::search_hints::SearchHints;
use crate::terms::{QueryRange, QueryTerm, query_ranges, query_terms};
use crate::warm_field::{FieldFiles, warm_up_field};
use ii_base::{Fault, Field, IndexRecordOption, Part, Schema};
use ii_file_slice::{CompositeSlices, FileFault, FileHandle};
use ii_query_parser::Query;
use ii_reader::{InvertedIndexReader, OpenIndex};
use std::alloc::Global;

/// The files of an index.
#[derive(Drop)]
pub struct IndexHandles<'a, H: FileHandle> {
    /// The file of terms: the dictionary of each field with tokens.
    pub terms: &'a H,
    /// The file of postings.
    pub postings: &'a H,
    /// The file of positions.
    pub positions: &'a H,
    /// The file of field norms.
    pub fieldnorms: &'a H,
}

/// Reads what a query needs of an index, and returns a small index in memory that has just this. A search finds in it
/// what it finds in the whole index.
///
/// Of each file, the table of its bodies is read. Of a field that the query names, each term is looked up in the
/// dictionary, by a search that begins where `hints` say that the term was in the last segment; if the query has a range of
/// the field's terms, the whole dictionary is read. Of the postings and positions, the bytes of the terms that the query has are read; if the search ranks, also the field's
/// norms. Of each other field, only the number of tokens is read.
///
/// # Errors
///
/// * `Damaged(Composite)` if the table of a file is corrupt, or a field has terms, but its postings or positions are
///   missing; the table of the file of norms is read only if the search ranks.
/// * `Damaged(Dictionary)` or `Damaged(TermStore)` if what is read of the dictionary of a field that the query names is
///   corrupt.
/// * `Damaged(TokenCount)` if the postings of a field with terms have fewer than 8 bytes.
/// * `Damaged(Range)` if the postings of a term of the query aren't within the field's body, or its positions, if they
///   are requested; `Damaged(TermStore)` if one of these ranges has 2^32 bytes or more.
/// * `Read` if a file can't be read.
/// * `Limit(Offset)` if a dictionary or the norms in memory would have 2^64 bytes or more; `OutOfMemory`.
pub fn warm_up<H: FileHandle>(
    alloc: Global,
    files: &IndexHandles<'_, H>,
    schema: &Schema,
    query: &Query,
    scoring: EnableScoring,
    hints: &mut SearchHints,
) -> Result<OpenIndex, FileFault>
    ensures many { IfOk result (λ part. length part.readers ≡ length schema.now) }
    // if the files hold an index
    ensures part { (whole : OpenIndexState) → HoldIndex (H.bytes files.now.terms.now) (H.bytes files.now.postings.now) (H.bytes files.now.positions.now) (H.bytes files.now.fieldnorms.now) schema.now whole
        → IfOk result (λ part. IsPartFor query.now part whole) }
    ensures norms { (whole : OpenIndexState) → HoldIndex (H.bytes files.now.terms.now) (H.bytes files.now.postings.now) (H.bytes files.now.positions.now) (H.bytes files.now.fieldnorms.now) schema.now whole
        → IfOk result (λ part. HaveNormsFor scoring (requested_terms query.now) (query_ranges query.now) (length schema.now) part.fieldnorms whole.fieldnorms) }

    ensures range { (whole : OpenIndexState) → HoldIndex (H.bytes files.now.terms.now) (H.bytes files.now.postings.now) (H.bytes files.now.positions.now) (H.bytes files.now.fieldnorms.now) schema.now whole
        → IsErrOf result (Index (faults.Damaged parts.Range)) → LieOutside (requests query.now) whole.readers }
    ensures long { (whole : OpenIndexState) → HoldIndex (H.bytes files.now.terms.now) (H.bytes files.now.postings.now) (H.bytes files.now.positions.now) (H.bytes files.now.fieldnorms.now) schema.now whole
        → IsErrOf result (Index (faults.Damaged parts.TermStore)) → AreTooLong (requests query.now) whole.readers }
    // and if their bytes can be read
    ensures sound { (whole : OpenIndexState) → HoldIndex (H.bytes files.now.terms.now) (H.bytes files.now.postings.now) (H.bytes files.now.positions.now) (H.bytes files.now.fieldnorms.now) schema.now whole
        → H.is_sound files.now.terms.now → H.is_sound files.now.postings.now → H.is_sound files.now.positions.now → H.is_sound files.now.fieldnorms.now
        → IfErr result (IsWarmupFault (requests query.now) whole.readers) }
{
    let terms = match query_terms(alloc, query) {
        Ok(terms) => terms,
        Err(fault) => return Err(FileFault::Index(fault)),
    };
    let ranges = match query_ranges(alloc, query) {
        Ok(ranges) => ranges,
        Err(fault) => return Err(FileFault::Index(fault)),
    };
    let tables = match IndexTables::open(alloc, files) {
        Ok(tables) => tables,
        Err(fault) => return Err(fault),
    };
    let readers = match tables.open_fields(alloc, schema, &terms, &ranges, hints) {
        Ok(readers) => readers,
        Err(fault) => return Err(fault),
    };
    match open_norms(alloc, files.fieldnorms, schema, &terms, &ranges, scoring) {
        Ok(fieldnorms) => Ok(OpenIndex::new(readers, fieldnorms)),
        Err(fault) => Err(fault),
    }
}

// The tables of the files of terms, postings and positions.
#[derive(Drop)]
struct IndexTables<'a, H: FileHandle> {
    terms: CompositeSlices<'a, H>,
    postings: CompositeSlices<'a, H>,
    positions: CompositeSlices<'a, H>,
}

impl<'a, H: FileHandle> IndexTables<'a, H> {
    // Reads the tables of the three files.
    fn open(alloc: Global, files: &IndexHandles<'a, H>) -> Result<IndexTables<'a, H>, FileFault>
        ensures terms { IfOk result (λ tables. tables.terms.file ≡ files.now.terms.now) }
        ensures postings { IfOk result (λ tables. tables.postings.file ≡ files.now.postings.now) }
        ensures positions { IfOk result (λ tables. tables.positions.file ≡ files.now.positions.now) }
        // if the files have bodies
        ensures part { (bodies : IndexBodies) → KnownTables (H.bytes files.now.terms.now) (H.bytes files.now.postings.now) (H.bytes files.now.positions.now) bodies
            → IfErr result (λ e. (part : Part) → (e ≡ Index (faults.Damaged part)) → ⊥) }
        ensures sound { (bodies : IndexBodies) → KnownTables (H.bytes files.now.terms.now) (H.bytes files.now.postings.now) (H.bytes files.now.positions.now) bodies
            → H.is_sound files.now.terms.now → H.is_sound files.now.postings.now → H.is_sound files.now.positions.now → IfErr result (λ e. e ≡ Index faults.OutOfMemory) }
    {
        let terms = match CompositeSlices::open(alloc, files.terms) {
            Ok(terms) => terms,
            Err(fault) => return Err(fault),
        };
        let postings = match CompositeSlices::open(alloc, files.postings) {
            Ok(postings) => postings,
            Err(fault) => return Err(fault),
        };
        match CompositeSlices::open(alloc, files.positions) {
            Ok(positions) => Ok(IndexTables {
                terms,
                postings,
                positions,
            }),
            Err(fault) => Err(fault),
        }
    }

    // Returns for each field a reader over the terms that terms and ranges of a query have.
    fn open_fields(
        &self,
        alloc: Global,
        schema: &Schema,
        terms: &[QueryTerm<'_>],
        ranges: &[QueryRange<'_>],
        hints: &mut SearchHints,
    ) -> Result<Vec<InvertedIndexReader>, FileFault>
        ensures many { IfOk result (λ readers. length readers.items ≡ length schema.now) }
        ensures few { IfOk result (λ readers. length readers.items < 2 ^ 32) }
        ensures parts { (bodies : IndexBodies) (whole : List InvertedIndexReaderState) → KnownTables (H.bytes self.now.terms.file) (H.bytes self.now.postings.file) (H.bytes self.now.positions.file) bodies → field_readers bodies schema.now ≡ Ok whole
            → IfOk result (λ readers. ArePartsOf (requests_of terms.now ranges.now) readers.items whole) }
        ensures range { (bodies : IndexBodies) (whole : List InvertedIndexReaderState) → KnownTables (H.bytes self.now.terms.file) (H.bytes self.now.postings.file) (H.bytes self.now.positions.file) bodies → field_readers bodies schema.now ≡ Ok whole
            → IsErrOf result (Index (faults.Damaged parts.Range)) → LieOutside (requests_of terms.now ranges.now) whole }
        ensures long { (bodies : IndexBodies) (whole : List InvertedIndexReaderState) → KnownTables (H.bytes self.now.terms.file) (H.bytes self.now.postings.file) (H.bytes self.now.positions.file) bodies → field_readers bodies schema.now ≡ Ok whole
            → IsErrOf result (Index (faults.Damaged parts.TermStore)) → AreTooLong (requests_of terms.now ranges.now) whole }
        ensures sound { (bodies : IndexBodies) (whole : List InvertedIndexReaderState) → KnownTables (H.bytes self.now.terms.file) (H.bytes self.now.postings.file) (H.bytes self.now.positions.file) bodies → field_readers bodies schema.now ≡ Ok whole
            → H.is_sound self.now.terms.file → H.is_sound self.now.postings.file → H.is_sound self.now.positions.file → IfErr result (IsWarmupFault (requests_of terms.now ranges.now) whole) }
    {
        let mut readers = Vec::new(alloc);
        for place in 0..schema.num_fields() {
            let field = Field::from_field_id(place as u32);
            let option = schema.get_field_entry(field).index_record_option();
            let reader = match self.open_field(alloc, field, option, terms, ranges, hints) {
                Ok(reader) => reader,
                Err(fault) => return Err(fault),
            };
            if let Err(_) = readers.push(reader) {
                return Err(FileFault::Index(Fault::OutOfMemory));
            }
        }
        Ok(readers)
    }

    // Returns a reader over the terms of a field that terms and ranges of a query have.
    fn open_field(
        &self,
        alloc: Global,
        field: Field,
        option: IndexRecordOption,
        terms: &[QueryTerm<'_>],
        ranges: &[QueryRange<'_>],
        hints: &mut SearchHints,
    ) -> Result<InvertedIndexReader, FileFault>
        ensures warms { (bodies : IndexBodies) (whole : InvertedIndexReaderState) → KnownTables (H.bytes self.now.terms.file) (H.bytes self.now.postings.file) (H.bytes self.now.positions.file) bodies → reader_of_field bodies field option ≡ Ok whole
            → WarmsUp (requests_of terms.now ranges.now field) whole result }
        ensures long { (bodies : IndexBodies) (whole : InvertedIndexReaderState) → KnownTables (H.bytes self.now.terms.file) (H.bytes self.now.postings.file) (H.bytes self.now.positions.file) bodies → reader_of_field bodies field option ≡ Ok whole
            → IsErrOf result (Index (faults.Damaged parts.TermStore)) → all_sound (requests_of terms.now ranges.now field) whole.terms ≡ false }
        ensures sound { (bodies : IndexBodies) (whole : InvertedIndexReaderState) → KnownTables (H.bytes self.now.terms.file) (H.bytes self.now.postings.file) (H.bytes self.now.positions.file) bodies → reader_of_field bodies field option ≡ Ok whole
            → H.is_sound self.now.terms.file → H.is_sound self.now.postings.file → H.is_sound self.now.positions.file
            → IfErr result (IsCopyFault (all_lie (requests_of terms.now ranges.now field) whole) (all_sound (requests_of terms.now ranges.now field) whole.terms)) }
    {
        let Some(dictionary) = self.terms.open_read(field) else {
            return Ok(InvertedIndexReader::empty(option));
        };
        let Some(postings) = self.postings.open_read(field) else {
            return Err(FileFault::Index(Fault::Damaged(Part::Composite)));
        };
        let Some(positions) = self.positions.open_read(field) else {
            return Err(FileFault::Index(Fault::Damaged(Part::Composite)));
        };
        let wanted = match read_wanted_terms(alloc, field, &dictionary, terms, ranges, hints) {
            Ok(wanted) => wanted,
            Err(fault) => return Err(fault),
        };
        let files = FieldFiles {
            wanted: &wanted,
            postings: &postings,
            positions: &positions,
            starts: (postings.start(), positions.start()),
            option,
        };
        warm_up_field(alloc, &files)
    }
}
