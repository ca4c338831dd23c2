//! The remains of an index whose files may be truncated, changed or missing.
ghost use Rattle.std.specs.Prelude.{◌≡◌, ◌≤◌, ◌+◌, IfOk, Ok, Some, drop, length};
ghost use Rattle.ii_directory.specs.declared.name.Name.TheVariants.{File};
ghost use Rattle.ii_directory.specs.Directory.{Files, IsRefusal, is_obeyed};
ghost use Rattle.ii_store.specs.Faults.{IsRefused};
ghost use Rattle.ii_store.specs.Index.{AnswersFromFiles, Index, index_of, slot_in, view};
ghost use Rattle.ii_store.specs.SalvagedIndex.{file_of, file_view, salvaged_bytes, salvaged_by, salvaged_in, salvaged, salvaged_view, sound_index};

use crate::faults::{IndexFault, StoreFault};
use crate::meta::{
    FIELDNORMS_AT, POSITIONS_AT, POSTINGS_AT, SCHEMA_AT, TERMS_AT, checked_num_docs, fault_by,
    slot_named,
};
use crate::stored_index::StoredIndex;
use ii_directory::{Directory, DirectoryFault, Kind, Name, Slot};
use std::alloc::Global;

/// The current contents of a file.
#[derive(Debug, Drop)]
pub struct SalvagedFile {
    /// All its bytes; empty if it is missing.
    pub bytes: Vec<u8>,
    /// How it differs from the saved file, if it does: `Missing`, `WrongLength` or `WrongChecksum`.
    pub fault: Option<IndexFault>,
}

/// The current files of an index, and its number of documents.
#[derive(Debug, Drop)]
pub struct SalvagedIndex {
    pub num_docs: u32,
    pub schema: SalvagedFile,
    pub terms: SalvagedFile,
    pub postings: SalvagedFile,
    pub positions: SalvagedFile,
    pub fieldnorms: SalvagedFile,
}

impl SalvagedIndex {
    /// Returns the file of one kind.
    pub fn file_of(&self, kind: Kind) -> &SalvagedFile
        ensures { file_view result.now ≡ file_of (salvaged_view self.now) kind }
    {
        match kind {
            Kind::Schema => &self.schema,
            Kind::Terms => &self.terms,
            Kind::Postings => &self.postings,
            Kind::Positions => &self.positions,
            Kind::FieldNorms => &self.fieldnorms,
        }
    }

    /// Returns the files as an index, regardless of their faults.
    pub fn into_index(self) -> StoredIndex
        ensures { view result ≡ salvaged_bytes (salvaged_view self) }
    {
        StoredIndex {
            num_docs: self.num_docs,
            schema: self.schema.bytes,
            terms: self.terms.bytes,
            postings: self.postings.bytes,
            positions: self.positions.bytes,
            fieldnorms: self.fieldnorms.bytes,
        }
    }
}

/// Reads the remaining files of an index: the bytes of each, and its fault if it differs from the saved
/// file.
///
/// Returns the errors of `load` if `meta` is missing, invalid or of another version. Faults of other files
/// are no errors.
#[tactic(auto, unfolding(crate::specs::SalvagedIndex::salvaged))]
pub fn salvage<D: Directory>(alloc: Global, directory: &D) -> Result<SalvagedIndex, StoreFault>
    ensures answers { D.is_known directory.now → AnswersFromFiles salvaged_view result (salvaged (D.seen directory.now)) }
    ensures obeyed { is_obeyed IsRefused (D.may_refuse directory.now) result }
{
    let Some(meta) = directory.read(alloc, Name::Meta)? else {
        return Err(StoreFault::Index(IndexFault::NoIndex));
    };
    salvaged_by(alloc, directory, meta.as_slice())
}

// Reads the remaining files of the index that a `meta` file describes.
#[tactic(auto, unfolding(crate::specs::SalvagedIndex::salvaged_at))]
fn salvaged_by<D: Directory>(
    alloc: Global,
    directory: &D,
    meta: &[u8],
) -> Result<SalvagedIndex, StoreFault>
    ensures answers { D.is_known directory.now → AnswersFromFiles salvaged_view result (salvaged_by (Some meta.now) (λ kind. D.seen directory.now (File (slot_in meta.now) kind))) }
    ensures obeyed { is_obeyed IsRefused (D.may_refuse directory.now) result }
{
    let num_docs = checked_num_docs(meta)?;
    let slot = slot_named(meta);
    let schema = salvaged_file(alloc, directory, slot, Kind::Schema, meta, SCHEMA_AT)?;
    let terms = salvaged_file(alloc, directory, slot, Kind::Terms, meta, TERMS_AT)?;
    let postings = salvaged_file(alloc, directory, slot, Kind::Postings, meta, POSTINGS_AT)?;
    let positions = salvaged_file(alloc, directory, slot, Kind::Positions, meta, POSITIONS_AT)?;
    let fieldnorms = salvaged_file(
        alloc,
        directory,
        slot,
        Kind::FieldNorms,
        meta,
        FIELDNORMS_AT,
    )?;
    Ok(SalvagedIndex {
        num_docs,
        schema,
        terms,
        postings,
        positions,
        fieldnorms,
    })
}

// Reads a file, and compares it with its entry, which starts at `place` in `meta`.
#[tactic(auto, unfolding(crate::specs::SalvagedIndex::salvaged_in, crate::specs::Index::file_in))]
fn salvaged_file<D: Directory>(
    alloc: Global,
    directory: &D,
    slot: Slot,
    kind: Kind,
    meta: &[u8],
    place: usize,
) -> Result<SalvagedFile, DirectoryFault>
    requires { place + 40 ≤ length meta.now }
    ensures salvaged { D.is_known directory.now → IfOk result (λ f. file_view f ≡ salvaged_in kind (drop place meta.now) (D.seen directory.now (File slot kind))) }
    ensures obeyed { is_obeyed IsRefusal (D.may_refuse directory.now) result }
{
    let Some(bytes) = directory.read(alloc, Name::File(slot, kind))? else {
        return Ok(SalvagedFile {
            bytes: Vec::new(alloc),
            fault: Some(IndexFault::Missing(kind)),
        });
    };
    let (_, entry) = meta.split_at(place);
    let fault = fault_by(kind, entry, bytes.as_slice());
    Ok(SalvagedFile { bytes, fault })
}

/// Law: what is salvaged of a sound index is exactly that index, without faults.
pub fn salvage_of_sound()
    ensures { (files : Files) (i : Index) → index_of files ≡ Ok i → salvaged files ≡ Ok (sound_index i) }
{}
