ghost use Rattle.std.specs.Prelude.{◌≡◌, ◌↔◌, ◌⊎◌, ◌<◌, ◌≤◌, ◌^◌, ℕ, List, length, None, Some, IfOk, IfErr, IsErrOf, IsOkAnd, IsSome, IsSomeAnd, OnErr, map, ok_or, slice_get};
ghost use Rattle.std.specs.List.{All};
ghost use Rattle.std.specs.Option.{option_map};
ghost use Rattle.ii_io.specs.Composite.{body_of, composite};
ghost use Rattle.ii_io.specs.declared.faults.Part.{Part};
ghost use Rattle.ii_base.specs.Schema.{SchemaEntry};
ghost use Rattle.ii_fieldnorm.specs.Readers.{norms_of_ids};
ghost use Rattle.ii_definitions.specs.Tokens.{IndexToken};
ghost use Rattle.ii_definitions.specs.Fields.{option_of};
ghost use Rattle.ii_definitions.specs.Files.{HoldTokens};
ghost use Rattle.ii_definitions.specs.Norms.{HoldNorms};
ghost use Rattle.ii_io.specs.Faults.{OnlyMemory};
ghost use Rattle.ii_reader.specs.Damage.{first_damaged_field, index_after};
ghost use Rattle.ii_reader.specs.InvertedIndexReader.{AllOpen, IsRefusal, trusted_reader};
ghost use Rattle.ii_reader.specs.OpenIndex.{GivesNorms, GivesReaders, NormsHold, field_readers, index_bodies, index_of_files, index_of_terms, reader_of_bodies, reader_of_field, trusted_index};

use super::damage::DamagedTerm;
use super::inverted_index_reader::InvertedIndexReader;
use bytes::Bytes;
use ii_base::{CompositeFile, Fault, Field, IndexRecordOption, Part, Schema};
use ii_fieldnorm::{FieldNormReader, FieldNormReaders};
use ii_termdict::TermDictionary;
use std::alloc::Global;
use std::marker::Model;

// A composite file without bodies: its table has no place.
const NO_BODIES: [u8; 4] = [0; 4];

/// Holds the readers of the fields of a schema and their norms, over the files of an index. The model is the
/// readers in the order of the fields, and the norms.
pub struct OpenIndex {
    readers: Vec<InvertedIndexReader>,
    fieldnorms: FieldNormReaders,
}

// A drop has to be a call.
impl Drop for OpenIndex {
    fn drop(self) {
        let OpenIndex {
            readers: _,
            fieldnorms: _,
        } = self;
    }
}

impl Model for OpenIndex {
    ghost use Rattle.std.specs.Prelude.{◌<◌, ◌^◌, length};
    ghost use Rattle.ii_reader.specs.OpenIndex.{OpenIndexState};

    ghost Value = { OpenIndexState };

    ghost view = { λ index. record { readers = index.readers.items; fieldnorms = index.fieldnorms } };

    ghost invariant = { λ index. length index.readers.items < 2 ^ 32 };
}

impl OpenIndex {
    /// Holds the readers of the fields of a schema, in their order, and their norms. There must be fewer than 2^32
    /// readers.
    pub fn new(readers: Vec<InvertedIndexReader>, fieldnorms: FieldNormReaders) -> OpenIndex
        requires { length readers.items < 2 ^ 32 }
        ensures { result ≡ record { readers = readers.items; fieldnorms = fieldnorms } }
    {
        OpenIndex {
            readers,
            fieldnorms,
        }
    }

    /// Returns the reader of a field of the schema.
    pub fn reader(&self, field: Field) -> &InvertedIndexReader
        requires { field < length self.now.readers }
        ensures { slice_get self.now.readers field ≡ Some result.now }
    {
        &self.readers[field.field_id() as usize]
    }

    /// Makes later lookups of terms open cursors without validation. Each term must be known to open.
    pub fn trust(&mut self)
        requires { All AllOpen self.old.readers }
        ensures { self.new ≡ trusted_index self.old }
    {
        trust_all(&mut self.readers);
    }

    /// Opens each term of each field once, with everything that the field records, and returns the first
    /// field with a corrupt term, and its first such term. If there is none, lookups continue as after
    /// `trust`.
    ///
    /// Returns `OutOfMemory` if the files' buffer can't be shared again.
    pub fn check(&mut self) -> Result<Option<(Field, DamagedTerm)>, Fault>
        ensures found { IfOk result (λ damage. damage ≡ first_damaged_field self.old.readers) }
        ensures opens { IfOk result (λ damage. (damage ≡ None) ↔ All AllOpen self.old.readers) }
        ensures after { IfOk result (λ damage. self.new ≡ index_after damage self.old) }
        ensures same { OnErr result (self.new ≡ self.old) }
        ensures only { OnlyMemory result }
    {
        let damage = first_damaged_field(&self.readers)?;
        if damage.is_some() {
            return Ok(damage);
        }
        trust_all(&mut self.readers);
        Ok(None)
    }

    /// Opens the norms of a field, or returns `None` if the file of norms has none for it.
    ///
    /// Returns `Damaged(FieldNorms)` if it has more than `u32::MAX` of them, or `OutOfMemory` if the file's
    /// buffer can't be shared again.
    pub fn get_fieldnorms_reader(&self, field: Field) -> Result<Option<FieldNormReader>, Fault>
        ensures found { IfOk result (λ norms. norms ≡ option_map norms_of_ids (body_of field self.now.fieldnorms)) }
        ensures damaged { IsErrOf result (Fault.Damaged Part.FieldNorms)
            ↔ IsSomeAnd (body_of field self.now.fieldnorms) (λ ids. 2 ^ 32 ≤ length ids) }
        ensures only { IfErr result (λ e. (e ≡ Fault.OutOfMemory) ⊎ (e ≡ Fault.Damaged Part.FieldNorms)) }
        // If the file has the norms of tokens.
        ensures holds { (schema : List SchemaEntry) (num_docs : ℕ) (tokens : List IndexToken) → num_docs < 2 ^ 32
            → NormsHold schema num_docs self.now.fieldnorms tokens → GivesNorms schema num_docs field tokens result }
    {
        self.fieldnorms.get_field(field)
    }
}

// Trusts each of these readers, all of whose terms are known to open.
fn trust_all(readers: &mut [InvertedIndexReader])
    requires { All AllOpen readers.old }
    ensures { readers.new ≡ map trusted_reader readers.old }
{
    for reader in readers {
        reader.trust();
    }
}

// Returns the first field with a corrupt term.
fn first_damaged_field(
    readers: &[InvertedIndexReader],
) -> Result<Option<(Field, DamagedTerm)>, Fault>
    requires { length readers.now < 2 ^ 32 }
    ensures found { IfOk result (λ damage. damage ≡ first_damaged_field readers.now) }
    ensures opens { IfOk result (λ damage. (damage ≡ None) ↔ All AllOpen readers.now) }
    ensures only { OnlyMemory result }
{
    let mut field_id = 0;
    for reader in readers {
        if let Some(term) = reader.first_damaged_term()? {
            return Ok(Some((Field::from_field_id(field_id), term)));
        }
        field_id += 1;
    }
    Ok(None)
}

/// Opens an index from its files of terms, postings and positions, as `open_index_with_norms` does, but
/// without norms: `get_fieldnorms_reader` returns `None` for each field. The errors are the same, without
/// those of a file of norms.
pub fn open_index(
    alloc: Global,
    terms: Bytes,
    postings: Bytes,
    positions: Bytes,
    schema: &Schema,
) -> Result<OpenIndex, Fault>
    ensures ok { IfOk result (λ index. index_of_terms terms postings positions schema.now ≡ Ok index) }
    ensures many { IfOk result (λ index. length index.readers ≡ length schema.now) }
    ensures err { IfErr result (IsRefusal (index_of_terms terms postings positions schema.now)) }
    // If the files hold tokens.
    ensures holds { (tokens : List IndexToken) → HoldTokens (option_of schema.now) terms postings positions tokens → GivesReaders schema.now tokens result }
{
    let fieldnorms = Bytes::from_static(&NO_BODIES);
    open_index_with_norms(alloc, terms, postings, positions, fieldnorms, schema)
}

/// Opens an index. Its files of terms, postings and positions have a body for each field with tokens, and its
/// file of norms one for each field with norms.
///
/// A field that is missing in the file of terms has a reader over no terms. Bodies of fields outside the
/// schema are ignored. Norms are read only on request.
///
/// # Errors
///
/// Returns the first corrupt part, first of the tables:
/// * `Damaged(Composite)` for the tables of the four files.
///
/// Then for one field after the other:
/// * `Damaged(Composite)` if it has terms, but its postings or positions are missing.
/// * `Damaged(Dictionary)` or `Damaged(TermStore)` for its dictionary.
/// * `Damaged(TokenCount)` if its postings don't begin with its number of tokens.
///
/// Returns `OutOfMemory` if an allocation fails or a file's buffer can't be shared again.
pub fn open_index_with_norms(
    alloc: Global,
    terms: Bytes,
    postings: Bytes,
    positions: Bytes,
    fieldnorms: Bytes,
    schema: &Schema,
) -> Result<OpenIndex, Fault>
    ensures ok { IfOk result (λ index. index_of_files terms postings positions fieldnorms schema.now ≡ Ok index) }
    ensures many { IfOk result (λ index. length index.readers ≡ length schema.now) }
    ensures err { IfErr result (IsRefusal (index_of_files terms postings positions fieldnorms schema.now)) }
    // If the files hold tokens.
    ensures holds { (tokens : List IndexToken) → HoldTokens (option_of schema.now) terms postings positions tokens → IsSome (composite fieldnorms) → GivesReaders schema.now tokens result }
    ensures norms { (num_docs : ℕ) (tokens : List IndexToken) → HoldNorms schema.now num_docs fieldnorms tokens → IfOk result (λ index. NormsHold schema.now num_docs index.fieldnorms tokens) }
{
    match open_files(alloc, terms, postings, positions, fieldnorms, schema) {
        Ok(index) => Ok(index),
        Err(fault) => Err(fault),
    }
}

// Opens the tables of all files before the fields.
#[tactic(auto, using(crate::proofs::IndexLemmas::tables_refused, crate::proofs::IndexLemmas::norms_refused, crate::proofs::IndexLemmas::fields_refused, crate::proofs::IndexLemmas::index_then))]
fn open_files(
    alloc: Global,
    terms: Bytes,
    postings: Bytes,
    positions: Bytes,
    fieldnorms: Bytes,
    schema: &Schema,
) -> Result<OpenIndex, Fault>
    ensures ok { IfOk result (λ index. index_of_files terms postings positions fieldnorms schema.now ≡ Ok index) }
    ensures err { IfErr result (IsRefusal (index_of_files terms postings positions fieldnorms schema.now)) }
{
    let files = IndexFiles::open(alloc, terms, postings, positions)?;
    let fieldnorms = open_norms(alloc, fieldnorms)?;
    let readers = files.open_fields(alloc, schema)?;
    Ok(OpenIndex::new(readers, fieldnorms))
}

// Opens the norms of all fields.
fn open_norms(alloc: Global, fieldnorms: Bytes) -> Result<FieldNormReaders, Fault>
    ensures ok { IfOk result (λ readers. composite fieldnorms ≡ Some readers) }
    ensures err { IfErr result (IsRefusal (ok_or (composite fieldnorms) Part.Composite)) }
{
    FieldNormReaders::open(alloc, fieldnorms)
}

// Holds the three files of an index, whose tables were read.
struct IndexFiles {
    terms: CompositeFile,
    postings: CompositeFile,
    positions: CompositeFile,
}

// A drop has to be a call.
impl Drop for IndexFiles {
    fn drop(self) {
        let IndexFiles {
            terms: _,
            postings: _,
            positions: _,
        } = self;
    }
}

impl Model for IndexFiles {
    ghost use Rattle.ii_reader.specs.OpenIndex.{IndexBodies};

    ghost Value = { IndexBodies };

    ghost view = { λ files. record { terms = files.terms; postings = files.postings; positions = files.positions } };
}

impl IndexFiles {
    // Reads the tables, in this order.
    fn open(
        alloc: Global,
        terms: Bytes,
        postings: Bytes,
        positions: Bytes,
    ) -> Result<IndexFiles, Fault>
        ensures ok { IfOk result (λ files. index_bodies terms postings positions ≡ Ok files) }
        ensures err { IfErr result (IsRefusal (index_bodies terms postings positions)) }
    {
        let terms = CompositeFile::open(alloc, terms)?;
        let postings = CompositeFile::open(alloc, postings)?;
        let positions = CompositeFile::open(alloc, positions)?;
        Ok(IndexFiles {
            terms,
            postings,
            positions,
        })
    }

    // Opens the readers of all fields, in order.
    fn open_fields(&self, alloc: Global, schema: &Schema) -> Result<Vec<InvertedIndexReader>, Fault>
        ensures ok { IfOk result (λ readers. field_readers self.now schema.now ≡ Ok readers.items) }
        ensures few { IfOk result (λ readers. length readers.items < 2 ^ 32) }
        ensures err { IfErr result (IsRefusal (field_readers self.now schema.now)) }
    {
        let mut readers = Vec::with_capacity(alloc, schema.num_fields())?;
        for (field, entry) in schema.fields() {
            let reader = self.open_field(field, entry.index_record_option())?;
            readers.push(reader)?;
        }
        Ok(readers)
    }

    // Opens the reader of a field.
    fn open_field(
        &self,
        field: Field,
        option: IndexRecordOption,
    ) -> Result<InvertedIndexReader, Fault>
        ensures ok { IfOk result (λ reader. reader_of_field self.now field option ≡ Ok reader) }
        ensures err { IfErr result (IsRefusal (reader_of_field self.now field option)) }
    {
        let Some(terms) = self.terms.open_read(field)? else {
            return Ok(InvertedIndexReader::empty(option));
        };
        let Some(postings) = self.postings.open_read(field)? else {
            return Err(Fault::Damaged(Part::Composite));
        };
        let Some(positions) = self.positions.open_read(field)? else {
            return Err(Fault::Damaged(Part::Composite));
        };
        open_bodies(terms, postings, positions, option)
    }
}

// Opens the reader of a field's three bodies.
fn open_bodies(
    terms: Bytes,
    postings: Bytes,
    positions: Bytes,
    option: IndexRecordOption,
) -> Result<InvertedIndexReader, Fault>
    ensures ok { IfOk result (λ reader. reader_of_bodies option terms postings positions ≡ Ok reader) }
    ensures err { IfErr result (λ fault. (part : Part) × (fault ≡ Fault.Damaged part) × (reader_of_bodies option terms postings positions ≡ Err part)) }
{
    match TermDictionary::open(terms) {
        Ok(terms) => InvertedIndexReader::new(terms, postings, positions, option),
        Err(fault) => Err(fault),
    }
}
