//! Writes the living documents of stores as one store.
ghost use Rattle.std.specs.Prelude.{◌≡◌, ◌+◌, IfErr, IfOk, IsErrAnd, IsErrOf, [], List, OnOk, false, map};
ghost use Rattle.std.specs.List.{AllByRecursion, AllZip};
ghost use Rattle.ii_io.specs.declared.faults.Fault.TheVariants as faults;
ghost use Rattle.ii_io.specs.CountingWriter.{CountingWriterState, Grows};
ghost use Rattle.ii_doc_store.specs.StoreReader.{HoldsDocuments};
ghost use Rattle.ii_doc_store.specs.StoreWriter.{HasStored};
ghost use Rattle.ii_doc_store_merger.specs.StoreSources.{FitsFlags, IsInputFault, IsMergedStore, IsReadable, IsStoreDamage, IsStoreMergeFault, OrWriterFailed, SegmentDocuments, SourceHolds, StoresAll, StoresMore, WroteMergedStore, documents_of_segments, memory_store, opened_store};

use crate::faults::StoreMergeFault;
use crate::source::store_source;
use crate::store_source::StoreSource;
use bytes::Bytes;
use ii_doc_store::StoreWriter;
use ii_file_slice::FileHandle;
use ii_io::CountingWriter;
use std::alloc::Global;
use std::io::Write;

/// Returns a store of the living documents of several stores, one store after the other. Each store must have as
/// many documents as flags. Reads each block with living documents once.
///
/// # Errors
///
/// * `Damaged` with the place of the first store with a damaged block that has living documents, and the first
///   such block of it.
/// * `DocumentLen` with the place of a store that has a document of more than `MAX_DOCUMENT_LEN` bytes.
/// * `NumDocs` if more than `MAX_DOCS` documents are alive.
/// * `Output(OutOfMemory)` or `Read` with `OutOfMemory` if an allocation fails, `Output(Limit(Offset))` if the file would
///   have 2^64 bytes or more.
pub fn merge_stores(
    alloc: Global,
    sources: &[StoreSource<'_, Bytes>],
) -> Result<Vec<u8>, StoreMergeFault>
    requires fits { AllByRecursion FitsFlags (map memory_store sources.now) }
    ensures merged { IfOk result (λ file. IsMergedStore (map memory_store sources.now) file.items) }
    ensures holds { (ds : List SegmentDocuments) → AllZip SourceHolds (map memory_store sources.now) ds → IfOk result (λ file. HoldsDocuments file.items (documents_of_segments ds)) }

    // Which errors it returns, and when.
    ensures fault { IfErr result (IsStoreMergeFault (map memory_store sources.now)) }
    ensures undamaged { (ds : List SegmentDocuments) → AllZip SourceHolds (map memory_store sources.now) ds → IfErr result (λ e. ¬ IsStoreDamage e) }
{
    let writer = CountingWriter::wrap(Vec::new(alloc));
    let (writer, merged) = merge_stores_to(alloc, sources, writer);
    match merged {
        Ok(()) => Ok(writer.finish()),
        Err(fault) => Err(fault.in_memory()),
    }
}

/// Writes a store of the living documents of several stores, one store after the other, flushes it, and returns the
/// writer. Each store must have as many documents as flags. Reads each block with living documents once, and keeps in
/// memory this block, and what `StoreWriter` does: one block, and 44 bytes for each written block.
///
/// # Errors
///
/// * `Damaged`, `DocumentLen` and `NumDocs` as `merge_stores` does.
/// * `Read` with the place of a store whose file can't be read, or for which an allocation fails.
/// * `Output(Write)` if the writer fails, `Output(OutOfMemory)` if an allocation fails, `Output(Limit(Offset))` if a
///   count of the writer would exceed `u64::MAX`.
///
/// After an error the output may have been partially appended: the start of a store, or a complete store of the
/// documents before the error. After `Damaged` and `Read` the end of that store is written too, by a call that may fail.
pub fn merge_stores_to<W: Write, H: FileHandle>(
    alloc: Global,
    sources: &[StoreSource<'_, H>],
    writer: CountingWriter<W>,
) -> (CountingWriter<W>, Result<(), StoreMergeFault>)
    requires fits { AllByRecursion FitsFlags (map (opened_store H.bytes) sources.now) }
    ensures merged { AllByRecursion (IsReadable H.bytes H.is_sound) sources.now → OnOk result.1 (WroteMergedStore (map (opened_store H.bytes) sources.now) writer result.0) }

    // What is written, and which calls failed, also after an error.
    ensures grow { Grows writer result.0 }
    ensures by_one { IsErrOf result.1 (StoreMergeFault.Output faults.Write) → result.0.failed_calls ≡ writer.failed_calls + 1 }
    ensures no_other { ¬ IsErrOf result.1 (StoreMergeFault.Output faults.Write) → ¬ IsErrAnd result.1 IsInputFault → result.0.failed_calls ≡ writer.failed_calls }

    // Which errors it returns, and when.
    ensures fault { AllByRecursion (IsReadable H.bytes H.is_sound) sources.now → IfErr result.1 (OrWriterFailed (IsStoreMergeFault (map (opened_store H.bytes) sources.now))) }
    ensures undamaged { AllByRecursion (IsReadable H.bytes H.is_sound) sources.now → (ds : List SegmentDocuments) → AllZip SourceHolds (map (opened_store H.bytes) sources.now) ds → IfErr result.1 (λ e. ¬ IsStoreDamage e) }
{
    let mut store = StoreWriter::new(alloc, writer);
    let stored = store_all(alloc, &mut store, sources);
    let (writer, finished) = store.finish();
    match stored {
        Ok(()) => {}
        Err(fault) => return (writer, Err(fault)),
    }
    match finished {
        Ok(()) => (writer, Ok(())),
        Err(fault) => (writer, Err(StoreMergeFault::Output(fault))),
    }
}

// Stores the living documents of all stores.
fn store_all<W: Write, H: FileHandle>(
    alloc: Global,
    writer: &mut StoreWriter<W>,
    sources: &[StoreSource<'_, H>],
) -> Result<(), StoreMergeFault>
    requires open { writer.old.closed ≡ false }
    requires fits { AllByRecursion FitsFlags (map (opened_store H.bytes) sources.now) }
    ensures stored { AllByRecursion (IsReadable H.bytes H.is_sound) sources.now → OnOk result (StoresAll (map (opened_store H.bytes) sources.now) writer.old writer.new) }
    ensures open { OnOk result (writer.new.closed ≡ false) }
    ensures more { StoresMore writer.old writer.new result }
    ensures fault { AllByRecursion (IsReadable H.bytes H.is_sound) sources.now → (initial : CountingWriterState) → HasStored initial writer.old [] → IfErr result (OrWriterFailed (IsStoreMergeFault (map (opened_store H.bytes) sources.now))) }
{
    for place in 0..sources.len() {
        if let Err(fault) = store_source(alloc, writer, place, &sources[place]) {
            return Err(fault);
        }
    }
    Ok(())
}
