// Lines that are stored with their documents.
ghost use Rattle.std.specs.Prelude.{◌≡◌, ◌<◌, ℕ, [], List, Some, IfErr, IfOk, IsErrOf, get_or, length, map};
ghost use Rattle.std.specs.List.{AllByRecursion, AllZip};
ghost use Rattle.ii_doc_store.specs.StoreReader.{HoldsDocuments};
ghost use Rattle.ii_doc_store.specs.declared.faults.StoreDamage.{StoreDamage};
ghost use Rattle.ii_doc_store_merger.specs.declared.faults.StoreMergeFault.{StoreMergeFault};
ghost use Rattle.ii_doc_store_merger.specs.StoreSources.{FitsFlags, SegmentDocuments, SourceHolds, documents_of_segments, memory_store};

use bytes::Bytes;
use ii_base::{DocId, Fault};
use ii_doc_store::{StoreFile, StoreFileFault, StoreOpenFault, StoreReader};
use ii_doc_store_merger::{StoreMergeFault, StoreSource, merge_stores};
use ii_documents::LinePlace;
use ii_file_slice::{FileHandle, ReadFault};
use ii_segment_store::SegmentFiles;
use ii_tokenizers::FieldAnalyzers;
use nequllpa_indexing::Documents;
use std::alloc::Global;

/// Why a stored line isn't given back.
#[derive(Clone, Copy, Debug, PartialEq, Eq)]
pub enum StoredLineFault {
    /// The segment can't be built.
    Segment(Fault),
    /// The stores can't be merged.
    Merge(StoreMergeFault),
    /// A memory allocation failed.
    OutOfMemory,
    /// The segment doesn't have the line.
    Missing,
}

/// A line that was added is given back by the number of its document, from the segment that is built of the documents
/// if lines are stored: exactly its bytes, and it isn't missing.
pub fn stored_lines_come_back<F: FieldAnalyzers>(
    alloc: Global,
    documents: Documents,
    analyzers: &F,
    doc: DocId,
) -> Result<Vec<u8>, StoredLineFault>
    ensures same { (lines : List (List ℕ)) → documents.lines ≡ Some lines → doc < length lines → IfOk result (λ found. found.items ≡ get_or lines doc []) }
    ensures there { (lines : List (List ℕ)) → documents.lines ≡ Some lines → doc < length lines → IsErrOf result StoredLineFault.Missing → ⊥ }
{
    let segment = match documents.into_segment(alloc, analyzers) {
        Ok(segment) => segment,
        Err(fault) => return Err(StoredLineFault::Segment(fault)),
    };
    let Some(store) = store_of(segment) else {
        return Err(StoredLineFault::Missing);
    };
    let Ok(bytes) = Bytes::from_vec(store) else {
        return Err(StoredLineFault::OutOfMemory);
    };
    line_of(alloc, bytes, doc)
}

/// A line of a living document is given back by its number from the store that stores are merged into: exactly its bytes,
/// and it isn't missing. The documents are the living ones, one store after the other. No block is called damaged.
pub fn merged_lines_come_back(
    alloc: Global,
    sources: &[StoreSource<'_, Bytes>],
    doc: DocId,
) -> Result<Vec<u8>, StoredLineFault>
    requires fits { AllByRecursion FitsFlags (map memory_store sources.now) }
    ensures same { (ds : List SegmentDocuments) → AllZip SourceHolds (map memory_store sources.now) ds → doc < length (documents_of_segments ds) → IfOk result (λ found. found.items ≡ get_or (documents_of_segments ds) doc []) }
    ensures there { (ds : List SegmentDocuments) → AllZip SourceHolds (map memory_store sources.now) ds → doc < length (documents_of_segments ds) → IsErrOf result StoredLineFault.Missing → ⊥ }
    ensures undamaged { (ds : List SegmentDocuments) (place : ℕ) (damage : StoreDamage) → AllZip SourceHolds (map memory_store sources.now) ds → IsErrOf result (StoredLineFault.Merge (StoreMergeFault.Damaged place damage)) → ⊥ }
{
    let merged = match merge_stores(alloc, sources) {
        Ok(merged) => merged,
        Err(fault) => return Err(StoredLineFault::Merge(fault)),
    };
    let Ok(bytes) = Bytes::from_vec(merged) else {
        return Err(StoredLineFault::OutOfMemory);
    };
    line_of(alloc, bytes, doc)
}

/// A line is given back from the file of its store, of which the index and one block are read: exactly its bytes. Only an
/// allocation fails if the file can be read.
pub fn lines_of_files_come_back<H: FileHandle>(
    alloc: Global,
    file: &H,
    doc: DocId,
) -> Result<Vec<u8>, StoredLineFault>
    ensures same { (bytes : List ℕ) (lines : List (List ℕ)) → H.bytes file.now ≡ Some bytes → HoldsDocuments bytes lines → doc < length lines → IfOk result (λ found. found.items ≡ get_or lines doc []) }
    ensures only { (bytes : List ℕ) (lines : List (List ℕ)) → H.bytes file.now ≡ Some bytes → HoldsDocuments bytes lines → doc < length lines → H.is_sound file.now → IfErr result (λ e. e ≡ StoredLineFault.OutOfMemory) }
{
    let store = match StoreFile::open(alloc, file) {
        Ok(store) => store,
        Err(fault) => return Err(read_fault(fault)),
    };
    if doc >= store.num_docs() {
        return Err(StoredLineFault::Missing);
    }
    let block = match store.block(alloc, doc) {
        Ok(block) => block,
        Err(fault) => return Err(read_fault(fault)),
    };
    match block.as_block().get(doc) {
        Ok(found) => copied(alloc, found),
        Err(_) => Err(StoredLineFault::Missing),
    }
}

// Returns why a line of a file isn't given back.
fn read_fault(fault: StoreFileFault) -> StoredLineFault
    ensures { fault ≡ StoreFileFault.Read ReadFault.OutOfMemory → result ≡ StoredLineFault.OutOfMemory }
{
    match fault {
        StoreFileFault::Read(ReadFault::OutOfMemory) => StoredLineFault::OutOfMemory,
        _ => StoredLineFault::Missing,
    }
}

// Returns the file of stored lines.
pub(crate) fn store_of(segment: SegmentFiles) -> Option<Vec<u8>>
    ensures { result ≡ segment.store }
{
    let SegmentFiles {
        num_docs: _,
        terms: _,
        postings: _,
        positions: _,
        fieldnorms: _,
        counts: _,
        store,
    } = segment;
    store
}

// Returns a line of a store.
pub(crate) fn line_of(alloc: Global, bytes: Bytes, doc: DocId) -> Result<Vec<u8>, StoredLineFault>
    ensures same { (lines : List (List ℕ)) → HoldsDocuments bytes lines → doc < length lines → IfOk result (λ found. found.items ≡ get_or lines doc []) }
    ensures there { (lines : List (List ℕ)) → HoldsDocuments bytes lines → doc < length lines → IsErrOf result StoredLineFault.Missing → ⊥ }
    ensures unmerged { (fault : StoreMergeFault) → IsErrOf result (StoredLineFault.Merge fault) → ⊥ }
{
    let reader = match StoreReader::open(alloc, bytes) {
        Ok(reader) => reader,
        Err(StoreOpenFault::OutOfMemory) => return Err(StoredLineFault::OutOfMemory),
        Err(StoreOpenFault::Damaged(_)) => return Err(StoredLineFault::Missing),
    };
    if doc >= reader.num_docs() {
        return Err(StoredLineFault::Missing);
    }
    match reader.get(doc) {
        Ok(found) => copied(alloc, found),
        Err(_) => Err(StoredLineFault::Missing),
    }
}

// Copies a line.
fn copied(alloc: Global, found: &[u8]) -> Result<Vec<u8>, StoredLineFault>
    ensures same { IfOk result (λ copy. copy.items ≡ found.now) }
    ensures memory { IfErr result (λ fault. fault ≡ StoredLineFault.OutOfMemory) }
{
    match Vec::from_slice(alloc, found) {
        Ok(copy) => Ok(copy),
        Err(_) => Err(StoredLineFault::OutOfMemory),
    }
}

/// The text of the place of a line is read as the place. Returns the number of the line and the byte that are read.
pub fn places_of_lines_come_back(
    alloc: Global,
    file: &str,
    line: u64,
    byte: u64,
) -> Result<Option<(u64, u64)>, Fault>
    ensures { IfOk result (λ place. place ≡ Some (line, byte)) }
{
    let place = LinePlace { file, line, byte };
    let text = place.to_text(alloc)?;
    match LinePlace::read(text.as_str()) {
        Some(place) => Ok(Some((place.line, place.byte))),
        None => Ok(None),
    }
}
