//! Loads the stored documents of an index alone.
use bytes::Bytes;
use ii_alive::AliveBits;
use ii_base::{DocId, Fault};
use ii_doc_store::{StoreBlock, StoreDamage, StoreOpenFault, StoreReader};
use ii_segment_store::loading::{file_of, load_flags};
use ii_store::{
    Directory, DirectoryFault, IndexFault, IndexMeta, Name, SegmentComponent, SegmentMeta,
    StoreFault,
};
use nequllpa_opening::SegmentStore;
use std::alloc::{AllocError, AllocFailed, Global};
use thiserror::Error;

/// Why the stored documents of an index can't be loaded.
#[derive(Clone, Copy, Debug, PartialEq, Eq, Error)]
pub enum StoredLinesFault {
    /// A file can't be loaded, or an allocation failed.
    #[error("{0}")]
    Load(StoreFault),
    /// The footer or the index of the stored documents of the segment with this id is damaged.
    #[error("segment {0}: {1}")]
    Damaged(u64, StoreDamage),
}

/// The stored documents of a segment, without its other files.
pub struct StoredLines {
    id: u64,
    store: Option<StoreReader>,
    alive: AliveBits,
}

// Makes each drop a call.
impl Drop for StoredLines {
    fn drop(self) {
        let StoredLines {
            id: _,
            store: _,
            alive: _,
        } = self;
    }
}

impl StoredLines {
    /// Returns the id of the segment.
    pub fn id(&self) -> u64 {
        self.id
    }

    /// Borrows the documents.
    pub fn documents(&self) -> SegmentStore<'_> {
        match &self.store {
            Some(store) => SegmentStore {
                store: Some(store),
                alive: &self.alive,
            },
            None => SegmentStore {
                store: None,
                alive: &self.alive,
            },
        }
    }
}

/// Loads the stored documents of each segment of a list. A block is checked when it is read, by the digest in the
/// index of its file, so a damaged block leaves the others readable.
pub fn load_lines<D: Directory>(
    alloc: Global,
    directory: &D,
    list: &IndexMeta,
) -> Result<Vec<StoredLines>, StoredLinesFault> {
    let mut all = Vec::new(alloc);
    for segment in &list.segments {
        let lines = lines_of(alloc, directory, segment)?;
        all.push(lines)?;
    }
    Ok(all)
}

// Loads the stored documents of a segment.
fn lines_of<D: Directory>(
    alloc: Global,
    directory: &D,
    segment: &SegmentMeta,
) -> Result<StoredLines, StoredLinesFault> {
    let alive = match load_flags(alloc, directory, segment) {
        Ok(alive) => alive,
        Err(fault) => return Err(StoredLinesFault::Load(fault)),
    };
    let store = if file_of(segment.files.as_slice(), SegmentComponent::Store).is_some() {
        Some(store_of(alloc, directory, segment.id)?)
    } else {
        None
    };
    Ok(StoredLines {
        id: segment.id,
        store,
        alive,
    })
}

// Opens the file of stored documents of a segment.
fn store_of<D: Directory>(
    alloc: Global,
    directory: &D,
    id: u64,
) -> Result<StoreReader, StoredLinesFault> {
    let name = Name::Segment(id, SegmentComponent::Store);
    let bytes = match directory.read(alloc, name) {
        Ok(Some(bytes)) => bytes,
        Ok(None) => {
            let fault = IndexFault::MissingFile(id, SegmentComponent::Store);
            return Err(StoredLinesFault::Load(StoreFault::Index(fault)));
        }
        Err(fault) => return Err(StoredLinesFault::Load(StoreFault::Directory(fault))),
    };
    match StoreReader::open(alloc, Bytes::from_vec(bytes)?) {
        Ok(store) => Ok(store),
        Err(StoreOpenFault::Damaged(damage)) => Err(StoredLinesFault::Damaged(id, damage)),
        Err(StoreOpenFault::OutOfMemory) => Err(memory()),
    }
}

// Returns that an allocation failed.
fn memory() -> StoredLinesFault {
    StoredLinesFault::Load(StoreFault::Directory(DirectoryFault::OutOfMemory))
}

impl From<AllocError> for StoredLinesFault {
    fn from(_: AllocError) -> StoredLinesFault {
        memory()
    }
}

impl<T: Drop> From<AllocFailed<T>> for StoredLinesFault {
    fn from(_: AllocFailed<T>) -> StoredLinesFault {
        memory()
    }
}

/// A damaged block: its number, and its documents.
#[derive(Clone, Copy, Debug, PartialEq, Eq)]
pub struct DamagedBlock {
    /// The damage.
    pub damage: StoreDamage,
    /// The number of the first document that can't be read because of it.
    pub first_doc: u32,
}

/// Returns each damaged block of a file of stored documents, or that its footer or its index is damaged. Reads all
/// blocks. `Err` only if an allocation fails.
pub fn store_damages(alloc: Global, bytes: Vec<u8>) -> Result<Vec<DamagedBlock>, Fault> {
    let mut damages = Vec::new(alloc);
    let store = match StoreReader::open(alloc, Bytes::from_vec(bytes)?) {
        Ok(store) => store,
        Err(StoreOpenFault::Damaged(damage)) => {
            damages.push(DamagedBlock {
                damage,
                first_doc: 0,
            })?;
            return Ok(damages);
        }
        Err(StoreOpenFault::OutOfMemory) => return Err(Fault::OutOfMemory),
    };
    match push_damages(&store, &mut damages) {
        Ok(()) => Ok(damages),
        Err(fault) => Err(fault),
    }
}

// Adds each damaged block of a store.
fn push_damages(store: &StoreReader, damages: &mut Vec<DamagedBlock>) -> Result<(), Fault> {
    let mut kept = None;
    for doc in 0..store.num_docs() {
        if has_doc(&kept, doc) {
            continue;
        }
        match store.block(doc) {
            Ok(block) => kept = Some(block),
            Err(damage) => push_if_new(damages, damage, doc)?,
        }
    }
    Ok(())
}

// Returns whether a block, if there is one, has a document.
fn has_doc(block: &Option<StoreBlock<'_>>, doc: DocId) -> bool {
    match block {
        Some(block) => block.contains(doc),
        None => false,
    }
}

// Adds a damage, unless it is the last one.
fn push_if_new(
    damages: &mut Vec<DamagedBlock>,
    damage: StoreDamage,
    first_doc: DocId,
) -> Result<(), Fault> {
    if is_new(damages, damage) {
        damages.push(DamagedBlock { damage, first_doc })?;
    }
    Ok(())
}

// Returns whether a damage isn't the last one found.
fn is_new(damages: &[DamagedBlock], damage: StoreDamage) -> bool {
    match damages.last() {
        Some(last) => last.damage != damage,
        None => true,
    }
}
