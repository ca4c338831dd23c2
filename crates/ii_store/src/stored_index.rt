//! The bytes of an index, and how they are loaded.
ghost use Rattle.std.specs.Prelude.{◌≡◌, ◌≤◌, ◌+◌, Some, drop, length};
ghost use Rattle.ii_directory.specs.declared.name.Name.TheVariants.{File};
ghost use Rattle.ii_directory.specs.Directory.{is_obeyed};
ghost use Rattle.ii_store.specs.Faults.{IsRefused};
ghost use Rattle.ii_store.specs.Index.{AnswersFromFiles, bytes_of_file, file_in, index_in, index_of, slot_in, view};

use crate::faults::{IndexFault, StoreFault};
use crate::meta::{
    FIELDNORMS_AT, POSITIONS_AT, POSTINGS_AT, SCHEMA_AT, TERMS_AT, checked_num_docs, fault_by,
    slot_named,
};
use ii_directory::{Directory, Kind, Name, Slot};
use std::alloc::Global;

/// The files of an index, and its number of documents.
#[derive(Debug, Drop)]
pub struct StoredIndex {
    pub num_docs: u32,
    /// The schema, as encoded by the calling program. It isn't read.
    pub schema: Vec<u8>,
    /// The output of `write_index`: terms, postings, positions and field norms.
    pub terms: Vec<u8>,
    pub postings: Vec<u8>,
    pub positions: Vec<u8>,
    pub fieldnorms: Vec<u8>,
}

impl StoredIndex {
    /// Returns the bytes of one kind.
    pub fn bytes_of(&self, kind: Kind) -> &[u8]
        ensures { result.now ≡ bytes_of_file (view self.now) kind }
    {
        match kind {
            Kind::Schema => self.schema.as_slice(),
            Kind::Terms => self.terms.as_slice(),
            Kind::Postings => self.postings.as_slice(),
            Kind::Positions => self.positions.as_slice(),
            Kind::FieldNorms => self.fieldnorms.as_slice(),
        }
    }
}

/// Loads the index of a directory: exactly the bytes that were saved.
///
/// Returns `NoIndex` if there is no `meta`, and `OtherVersion` or `DamagedMeta` if it isn't a valid one of
/// this version. Otherwise returns the first fault of a file, in the order of `Kind`: missing, wrong length
/// or wrong checksum. The system may refuse a call.
#[tactic(auto, unfolding(crate::specs::Index::index_of))]
pub fn load<D: Directory>(alloc: Global, directory: &D) -> Result<StoredIndex, StoreFault>
    ensures answers { D.is_known directory.now → AnswersFromFiles view result (index_of (D.seen directory.now)) }
    ensures obeyed { is_obeyed IsRefused (D.may_refuse directory.now) result }
{
    let Some(meta) = directory.read(alloc, Name::Meta)? else {
        return Err(StoreFault::Index(IndexFault::NoIndex));
    };
    load_by(alloc, directory, meta.as_slice())
}

// Loads the index that a `meta` file describes.
#[tactic(auto, unfolding(crate::specs::Index::index_at))]
fn load_by<D: Directory>(
    alloc: Global,
    directory: &D,
    meta: &[u8],
) -> Result<StoredIndex, StoreFault>
    ensures obeyed { is_obeyed IsRefused (D.may_refuse directory.now) result }
    ensures answers { D.is_known directory.now → AnswersFromFiles view result (index_in (Some meta.now) (λ kind. D.seen directory.now (File (slot_in meta.now) kind))) }
{
    let num_docs = checked_num_docs(meta)?;
    let slot = slot_named(meta);
    let schema = load_file(alloc, directory, slot, Kind::Schema, meta, SCHEMA_AT)?;
    let terms = load_file(alloc, directory, slot, Kind::Terms, meta, TERMS_AT)?;
    let postings = load_file(alloc, directory, slot, Kind::Postings, meta, POSTINGS_AT)?;
    let positions = load_file(alloc, directory, slot, Kind::Positions, meta, POSITIONS_AT)?;
    let fieldnorms = load_file(
        alloc,
        directory,
        slot,
        Kind::FieldNorms,
        meta,
        FIELDNORMS_AT,
    )?;
    Ok(StoredIndex {
        num_docs,
        schema,
        terms,
        postings,
        positions,
        fieldnorms,
    })
}

// Reads a file that matches its entry, which starts at `place` in `meta`.
#[tactic(auto, unfolding(crate::specs::Index::file_in))]
fn load_file<D: Directory>(
    alloc: Global,
    directory: &D,
    slot: Slot,
    kind: Kind,
    meta: &[u8],
    place: usize,
) -> Result<Vec<u8>, StoreFault>
    requires { place + 40 ≤ length meta.now }
    ensures obeyed { is_obeyed IsRefused (D.may_refuse directory.now) result }
    ensures answers { D.is_known directory.now → AnswersFromFiles (λ v. v.items) result (file_in kind (drop place meta.now) (D.seen directory.now (File slot kind))) }
{
    let Some(bytes) = directory.read(alloc, Name::File(slot, kind))? else {
        return Err(StoreFault::Index(IndexFault::Missing(kind)));
    };
    let (_, entry) = meta.split_at(place);
    match fault_by(kind, entry, bytes.as_slice()) {
        None => Ok(bytes),
        Some(fault) => Err(StoreFault::Index(fault)),
    }
}
