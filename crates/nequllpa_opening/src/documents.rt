//! Gets stored documents by their numbers.
ghost use Rattle.std.specs.Prelude.{◌≡◌, ◌<◌, ◌≤◌, Err, IfSome, List, MatchResult, Ok, [], get_or, length, map};
ghost use Rattle.std.specs.List.{AllZip};
ghost use Rattle.ii_alive.specs.Alive.{num_living};
ghost use Rattle.ii_doc_store_merger.specs.StoreSources.{SegmentDocuments, documents_of_segments};
ghost use Rattle.ii_doc_store.specs.StoreReader.{num_docs};
ghost use Rattle.nequllpa_opening.specs.Documents.{HoldsDocumentsOf, document_from, document_in_segment, stored_segment};

use crate::faults::DocumentFault;
use crate::opened_index::OpenedIndex;
use ii_alive::AliveBits;
use ii_base::{DocId, Fault};
use ii_doc_store::{StoreBlock, StoreDamage, StoreReader};
use std::alloc::Global;

/// The stored documents of a segment.
#[derive(Clone, Copy)]
pub struct SegmentStore<'a> {
    /// The documents, living and dead, if they were stored.
    pub store: Option<&'a StoreReader>,
    /// Which documents are alive.
    pub alive: &'a AliveBits,
}

/// Returns the stored documents of each segment of an index.
pub fn segment_stores<'a>(
    alloc: Global,
    opened: &'a OpenedIndex,
) -> Result<Vec<SegmentStore<'a>>, Fault> {
    let mut stores = Vec::new(alloc);
    for segment in opened.segments() {
        stores.push(SegmentStore {
            store: segment.store(),
            alive: segment.alive(),
        })?;
    }
    Ok(stores)
}

/// Returns the stored document with a number, among the living documents of segments, one segment after the other.
/// Reads its block alone. Never allocates.
///
/// # Errors
///
/// * `NoDocument` if there are no more documents than the number.
/// * `NotStored` with the place of the segment that has the document, if the segment has no stored documents.
/// * `Damaged` with the place of the segment and the damaged block.
pub fn document<'a>(segments: &[SegmentStore<'a>], number: u64) -> Result<&'a [u8], DocumentFault>
    ensures value { MatchResult result (λ document. document_from 0 (map stored_segment segments.now) number ≡ Ok document.now)
        (λ fault. document_from 0 (map stored_segment segments.now) number ≡ Err fault) }
    ensures stored { (ds : List SegmentDocuments) → AllZip HoldsDocumentsOf (map stored_segment segments.now) ds → number < length (documents_of_segments ds)
        → MatchResult result (λ document. document.now ≡ get_or (documents_of_segments ds) number []) (λ _. ⊥) }
{
    let mut left = number;
    for place in 0..segments.len() {
        let segment = segments[place];
        let living = segment.alive.num_living();
        if left < living as u64 {
            return document_in(segment, place, left as u32);
        }
        left -= living as u64;
    }
    Err(DocumentFault::NoDocument)
}

// Returns a document of the segment at a place, by its number among the living documents of the segment.
fn document_in<'a>(
    segment: SegmentStore<'a>,
    place: usize,
    number: u32,
) -> Result<&'a [u8], DocumentFault>
    requires { number < num_living segment.alive.now }
    ensures { MatchResult result (λ document. document_in_segment place (stored_segment segment.entry) number ≡ Ok document.now)
        (λ fault. document_in_segment place (stored_segment segment.entry) number ≡ Err fault) }
{
    let Some(store) = segment.store else {
        return Err(DocumentFault::NotStored(place));
    };
    let doc = segment.alive.select(number);
    if doc >= store.num_docs() {
        return Err(DocumentFault::Damaged(place, StoreDamage::Index));
    }
    match store.get(doc) {
        Ok(document) => Ok(document),
        Err(damage) => Err(DocumentFault::Damaged(place, damage)),
    }
}

/// Returns whether the documents of each segment are stored.
pub fn are_stored(opened: &OpenedIndex) -> bool {
    for segment in opened.segments() {
        if segment.store().is_none() {
            return false;
        }
    }
    true
}

/// Gets documents of a segment in order, and reads each block once.
pub struct StoredDocs<'a> {
    store: Option<&'a StoreReader>,
    // the place of the segment
    place: usize,
    kept: Option<StoreBlock<'a>>,
}

// Makes each drop a call.
impl<'a> Drop for StoredDocs<'a> {
    fn drop(self) {
        let StoredDocs {
            store: _,
            place: _,
            kept: _,
        } = self;
    }
}

impl<'a> StoredDocs<'a> {
    /// Begins with no block, in the segment at a place.
    pub fn new(store: Option<&'a StoreReader>, place: usize) -> StoredDocs<'a> {
        StoredDocs {
            store,
            place,
            kept: None,
        }
    }

    /// Returns a document of the segment, living or dead.
    ///
    /// # Errors
    ///
    /// * `NotStored` with the place of the segment, if it has no stored documents.
    /// * `Damaged` with the place and the damaged block; with `StoreDamage::Index` if the store has fewer documents.
    pub fn get(&mut self, doc: DocId) -> Result<&'a [u8], DocumentFault> {
        let Some(store) = self.store else {
            return Err(DocumentFault::NotStored(self.place));
        };
        if doc >= store.num_docs() {
            return Err(DocumentFault::Damaged(self.place, StoreDamage::Index));
        }
        let kept = self.kept.take();
        match found_in(store, kept, doc) {
            Ok((block, document)) => {
                self.kept = Some(block);
                Ok(document)
            }
            Err(damage) => Err(DocumentFault::Damaged(self.place, damage)),
        }
    }
}

// Returns a document with its block: the one that was read last, or it is read.
fn found_in<'a>(
    store: &'a StoreReader,
    kept: Option<StoreBlock<'a>>,
    doc: DocId,
) -> Result<(StoreBlock<'a>, &'a [u8]), StoreDamage>
    requires { doc < num_docs store.now.checkpoints }
{
    let block = match kept_with(kept, doc) {
        Some(block) => block,
        None => match store.block(doc) {
            Ok(block) => block,
            Err(damage) => return Err(damage),
        },
    };
    match block.get(doc) {
        Ok(document) => Ok((block, document)),
        Err(damage) => Err(damage),
    }
}

// Returns a block, if it has a document.
fn kept_with<'a>(kept: Option<StoreBlock<'a>>, doc: DocId) -> Option<StoreBlock<'a>>
    ensures { IfSome result (λ block. (block.first_doc ≤ doc) × (doc < block.doc_end)) }
{
    match kept {
        Some(block) => {
            if block.contains(doc) {
                return Some(block);
            }
            None
        }
        None => None,
    }
}
