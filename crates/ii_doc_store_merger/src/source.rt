//! Stores the living documents of one store.
ghost use Rattle.std.specs.Prelude.{◌≡◌, ◌<◌, ◌≤◌, IfErr, IfOk, IfSome, IsErrOf, List, ℕ, OnOk, Ok, Err, Some, false, length};
ghost use Rattle.ii_block_file.specs.declared.faults.ReadFault.{ReadFault};
ghost use Rattle.ii_block_file.specs.declared.faults.ReadFault.TheVariants.{OutOfMemory};
ghost use Rattle.ii_io.specs.CountingWriter.{CountingWriterState};
ghost use Rattle.ii_doc_store.specs.declared.faults.StoreDamage.{StoreDamage};
ghost use Rattle.ii_doc_store.specs.declared.faults.StoreFileFault.TheVariants as blocks;
ghost use Rattle.ii_doc_store.specs.StoreReader.{IsBlockOf, document_of, document_of_read, num_docs};
ghost use Rattle.ii_doc_store.specs.StoreWriter.{AddsDocument, HasStored};
ghost use Rattle.ii_doc_store_merger.specs.StoreSources.{FitsFlags, IsDocumentFault, IsReadable, IsSourceFault, OrWriterFailed, StoresLiving, StoresMore, opened_store};

use crate::faults::{StoreMergeFault, block_fault};
use crate::store_source::StoreSource;
use ii_base::DocId;
use ii_doc_store::{
    FileBlock, StoreBlock, StoreFile, StoreFileFault, StoreWriteFault, StoreWriter,
};
use ii_file_slice::FileHandle;
use std::alloc::Global;
use std::io::Write;

// Stores the living documents of a store, in order. `place` is the one of its faults.
pub(crate) fn store_source<W: Write, H: FileHandle>(
    alloc: Global,
    writer: &mut StoreWriter<W>,
    place: usize,
    source: &StoreSource<'_, H>,
) -> Result<(), StoreMergeFault>
    requires open { writer.old.closed ≡ false }
    requires fits { FitsFlags (opened_store H.bytes source.now) }
    ensures stored { IsReadable H.bytes H.is_sound source.now → OnOk result (StoresLiving (opened_store H.bytes source.now) writer.old writer.new) }
    ensures open { OnOk result (writer.new.closed ≡ false) }
    ensures more { StoresMore writer.old writer.new result }
    ensures fault { IsReadable H.bytes H.is_sound source.now → (initial : CountingWriterState) (before : List (List ℕ)) → HasStored initial writer.old before → IfErr result (OrWriterFailed (IsSourceFault (length before) place (opened_store H.bytes source.now))) }
{
    let mut kept = None;
    for doc in 0..source.alive.num_docs() {
        if source.alive.is_alive(doc) {
            let block = match block_with(alloc, &source.store, kept, doc) {
                Ok(block) => block,
                Err(fault) => return Err(block_fault(place, fault)),
            };
            if let Err(fault) = store_from(writer, place, &block.as_block(), doc) {
                return Err(fault);
            }
            kept = Some(block);
        }
    }
    Ok(())
}

// Returns the block of a document: the one that was read last, or it is read.
fn block_with<H: FileHandle>(
    alloc: Global,
    store: &StoreFile<'_, H>,
    kept: Option<FileBlock>,
    doc: DocId,
) -> Result<FileBlock, StoreFileFault>
    requires doc { doc < num_docs store.now.checkpoints }
    ensures value { (bytes : List ℕ) → H.bytes store.now.file ≡ Some bytes → IfSome kept (IsBlockOf bytes store.now.checkpoints) → IfOk result (IsBlockOf bytes store.now.checkpoints) }
    ensures here { IfOk result (λ block. (block.first_doc ≤ doc) × (doc < block.doc_end)) }
    ensures damaged { (bytes : List ℕ) (damage : StoreDamage) → H.bytes store.now.file ≡ Some bytes → IsErrOf result (StoreFileFault.Damaged damage) → document_of bytes store.now.checkpoints doc ≡ Err damage }
    ensures sound { (bytes : List ℕ) (fault : ReadFault) → H.bytes store.now.file ≡ Some bytes → H.is_sound store.now.file → IsErrOf result (StoreFileFault.Read fault) → fault ≡ OutOfMemory }
{
    match kept {
        Some(block) => {
            if block.as_block().contains(doc) {
                return Ok(block);
            }
            store.block(alloc, doc)
        }
        None => store.block(alloc, doc),
    }
}

// Stores a document of a block.
fn store_from<W: Write>(
    writer: &mut StoreWriter<W>,
    place: usize,
    block: &StoreBlock<'_>,
    doc: DocId,
) -> Result<(), StoreMergeFault>
    requires open { writer.old.closed ≡ false }
    requires here { (block.now.first_doc ≤ doc) × (doc < block.now.doc_end) }
    ensures stored { OnOk result ((document : List ℕ) × (document_of_read block.now doc ≡ Ok document) × AddsDocument writer.old writer.new document) }
    ensures open { OnOk result (writer.new.closed ≡ false) }
    ensures more { StoresMore writer.old writer.new result }
    ensures fault { IfErr result (OrWriterFailed (IsDocumentFault writer.old.num_docs place (document_of_read block.now doc))) }
{
    let document = match block.get(doc) {
        Ok(document) => document,
        Err(damage) => return Err(StoreMergeFault::Damaged(place, damage)),
    };
    match writer.store(document) {
        Ok(()) => Ok(()),
        Err(StoreWriteFault::Output(fault)) => Err(StoreMergeFault::Output(fault)),
        Err(StoreWriteFault::DocumentLen) => Err(StoreMergeFault::DocumentLen(place)),
        Err(StoreWriteFault::NumDocs) => Err(StoreMergeFault::NumDocs),
    }
}
