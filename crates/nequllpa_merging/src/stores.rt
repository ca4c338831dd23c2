//! Merges the stored documents of segments.
ghost use Rattle.std.specs.Prelude.{◌≡◌, Err, IfErr, IfOk, IfSome, IsErrOf, Ok, Some, map};
ghost use Rattle.std.specs.List.{AllByRecursion};
ghost use Rattle.std.specs.Option.{option_map};
ghost use Rattle.ii_doc_store_merger.specs.StoreSources.{FitsFlags, IsReadable, opened_store};
ghost use Rattle.ii_directory.specs.Directory.{is_obeyed};
ghost use Rattle.ii_segment_store.specs.NewSegments.{IsCounted, IsWritten, new_contents, new_file_if};
ghost use Rattle.nequllpa_merging.specs.Faults.{OfMerge};
ghost use Rattle.nequllpa_merging.specs.Joins.{IsRefusedJoin};
ghost use Rattle.nequllpa_merging.specs.StoredDocuments.{AreOpenStores, HasMergedStore, IsOpenStoresFault, IsStoresFault, KnowsStore, file_bytes, is_sound_file, read_fault, store_fault, store_in, stored_view, stores_fault};

use crate::faults::{JoinFault, MergeFault};
use crate::new_files::new_writer;
use crate::opening::OpenedSegment;
use ii_base::{CountingWriter, Fault};
use ii_block_file::BlockFile;
use ii_directory::ReadAt;
use ii_doc_store::{StoreDamage, StoreFile, StoreFileFault};
use ii_doc_store_merger::{StoreMergeFault, StoreSource, merge_stores_to};
use ii_file_slice::ReadFault;
use ii_segment_store::NewSegment;
use ii_store::Directory;
use std::alloc::Global;
use std::io::Write;

// Merges the stored documents, if each segment has some.
pub(crate) fn merge_all_stores<D: Directory>(
    alloc: Global,
    directory: &D,
    segments: &[OpenedSegment<D::File>],
) -> Result<Option<CountingWriter<D::NewFile>>, JoinFault>
    ensures written { D.is_known directory.now → IfOk result (λ store. IfSome store IsCounted) }
    ensures merged { D.is_known directory.now → AllByRecursion (KnowsStore D.File.bytes) segments.now → IfOk result (λ store. HasMergedStore (map (stored_view D.File.bytes) segments.now) (new_file_if store)) }
    ensures fault { AllByRecursion (KnowsStore D.File.bytes) segments.now → IfErr result (OfMerge (IsStoresFault (map (stored_view D.File.bytes) segments.now))) }
    ensures obeyed { is_obeyed IsRefusedJoin (D.may_refuse directory.now) result }
{
    let sources = match open_stores(alloc, segments) {
        Ok(Some(sources)) => sources,
        Ok(None) => return Ok(None),
        Err(fault) => return Err(JoinFault::Merge(fault)),
    };
    let writer = match new_writer(alloc, directory) {
        Ok(writer) => writer,
        Err(fault) => return Err(JoinFault::Write(fault)),
    };
    let (file, merged) = merge_stores_to(alloc, sources.as_slice(), writer);
    match merged {
        Ok(()) => Ok(Some(file)),
        Err(StoreMergeFault::Output(Fault::Write)) => {
            Err(JoinFault::Write(directory.write_fault(&file.finish())))
        }
        Err(fault) => Err(JoinFault::Merge(stores_fault(fault.in_memory()))),
    }
}

// Returns why segments aren't merged, by why their stores aren't.
fn stores_fault(fault: StoreMergeFault) -> MergeFault
    ensures { result ≡ stores_fault fault }
{
    match fault {
        StoreMergeFault::Output(fault) => MergeFault::Merge(fault),
        StoreMergeFault::Read(place, fault) => read_fault(place, fault),
        StoreMergeFault::Damaged(place, damage) => MergeFault::Store(place, damage),
        StoreMergeFault::DocumentLen(place) => MergeFault::LongDocument(place),
        StoreMergeFault::NumDocs => MergeFault::TooManyDocuments,
    }
}

// Returns why segments aren't merged, where the stored documents of the one at a place can't be read.
fn read_fault(place: usize, fault: ReadFault) -> MergeFault
    ensures { result ≡ read_fault place fault }
{
    match fault {
        ReadFault::OutOfMemory => MergeFault::Merge(Fault::OutOfMemory),
        fault => MergeFault::Read(place, fault),
    }
}

// Opens the stored documents of each segment. Returns `None` if a segment has none.
fn open_stores<'a, F: ReadAt + Drop>(
    alloc: Global,
    segments: &'a [OpenedSegment<F>],
) -> Result<Option<Vec<StoreSource<'a, BlockFile<F>>>>, MergeFault>
    ensures opened { AllByRecursion (KnowsStore F.bytes) segments.now → IfOk result (λ found. AreOpenStores (map (stored_view F.bytes) segments.now) (option_map (λ v. map (opened_store (file_bytes F.bytes)) v.items) found)) }
    ensures fits { IfOk result (λ found. IfSome found (λ v. AllByRecursion FitsFlags (map (opened_store (file_bytes F.bytes)) v.items))) }
    ensures readable { AllByRecursion (KnowsStore F.bytes) segments.now → IfOk result (λ found. IfSome found (λ v. AllByRecursion (IsReadable (file_bytes F.bytes) (is_sound_file F.bytes)) v.items)) }
    ensures fault { AllByRecursion (KnowsStore F.bytes) segments.now → IfErr result (IsOpenStoresFault (map (stored_view F.bytes) segments.now)) }
{
    let mut sources = Vec::new(alloc);
    for place in 0..segments.len() {
        let source = match open_store(alloc, &segments[place]) {
            Ok(Some(source)) => source,
            Ok(None) => return Ok(None),
            Err(fault) => return Err(store_fault(place, fault)),
        };
        sources.push(source)?;
    }
    Ok(Some(sources))
}

// Opens the stored documents of a segment, if it has some. There must be one for each flag.
fn open_store<'a, F: ReadAt + Drop>(
    alloc: Global,
    segment: &'a OpenedSegment<F>,
) -> Result<Option<StoreSource<'a, BlockFile<F>>>, StoreFileFault>
    ensures ok { KnowsStore F.bytes segment.now → IfOk result (λ found. store_in (stored_view F.bytes segment.now) ≡ option_map (λ s. Ok (opened_store (file_bytes F.bytes) s)) found) }
    ensures fits { IfOk result (λ found. IfSome found (λ s. FitsFlags (opened_store (file_bytes F.bytes) s))) }
    ensures readable { KnowsStore F.bytes segment.now → IfOk result (λ found. IfSome found (IsReadable (file_bytes F.bytes) (is_sound_file F.bytes))) }
    ensures damaged { KnowsStore F.bytes segment.now → (damage : StoreDamage) → IsErrOf result (StoreFileFault.Damaged damage) → store_in (stored_view F.bytes segment.now) ≡ Some (Err damage) }
    ensures memory { KnowsStore F.bytes segment.now → (fault : ReadFault) → IsErrOf result (StoreFileFault.Read fault) → fault ≡ ReadFault.OutOfMemory }
{
    let Some(file) = &segment.store else {
        return Ok(None);
    };
    let store = match StoreFile::open(alloc, file) {
        Ok(store) => store,
        Err(fault) => return Err(fault),
    };
    if store.num_docs() != segment.alive.num_docs() {
        return Err(StoreFileFault::Damaged(StoreDamage::Index));
    }
    Ok(Some(StoreSource {
        store,
        alive: &segment.alive,
    }))
}

// Returns the fault of the stored documents of the segment at a place.
fn store_fault(place: usize, fault: StoreFileFault) -> MergeFault
    ensures { result ≡ store_fault place fault }
{
    match fault {
        StoreFileFault::Damaged(damage) => MergeFault::Store(place, damage),
        StoreFileFault::Read(fault) => read_fault(place, fault),
    }
}

// Returns a segment with stored documents.
pub(crate) fn with_store<W: Write + Drop>(
    segment: NewSegment<W>,
    store: Option<CountingWriter<W>>,
) -> NewSegment<W>
    ensures contents { new_contents result ≡ record (new_contents segment) { store = new_file_if store } }
    ensures written { IsWritten segment → IfSome store IsCounted → IsWritten result }
{
    let NewSegment {
        num_docs,
        terms,
        postings,
        positions,
        fieldnorms,
        counts,
        store: _,
    } = segment;
    NewSegment {
        num_docs,
        terms,
        postings,
        positions,
        fieldnorms,
        counts,
        store,
    }
}
