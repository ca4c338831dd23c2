//! A client that stores documents, and gets one back.
ghost use Rattle.std.specs.Prelude.{◌≡◌, ◌<◌, [], ℕ, List, get_or, length, IfErr, IfOk, IsErrOf, OnOk};
ghost use Rattle.ii_io.specs.CountingWriter.{CountingWriterState};
ghost use Rattle.ii_doc_store.specs.StoreReader.{HoldsDocuments};
ghost use Rattle.ii_doc_store.specs.StoreWriter.{HasStored};
ghost use Rattle.ii_doc_store_tests.specs.Client.{bytes_of};

use bytes::Bytes;
use ii_doc_store::{StoreOpenFault, StoreReader, StoreWriteFault, StoreWriter};
use ii_io::CountingWriter;
use std::alloc::Global;
use std::io::Write;
use thiserror::Error;

/// Why a document doesn't come back.
#[derive(Clone, Copy, Debug, PartialEq, Eq, Error)]
pub enum ClientFault {
    /// The documents can't be written.
    #[error("{0}")]
    Write(StoreWriteFault),
    /// A memory allocation failed.
    #[error("out of memory")]
    OutOfMemory,
    /// A part of the store is damaged.
    #[error("damaged")]
    Damaged,
}

/// Documents that are stored in memory and opened again are given back by their numbers: the bytes that were
/// stored, and no part is damaged.
pub fn document_comes_back(
    alloc: Global,
    documents: &[&[u8]],
    doc: u32,
) -> Result<Vec<u8>, ClientFault>
    requires { doc < length documents.now }
    ensures same { IfOk result (λ found. found.items ≡ get_or (bytes_of documents.now) doc []) }
    ensures sound { IsErrOf result ClientFault.Damaged → ⊥ }
{
    let file = match write_documents(alloc, documents) {
        Ok(file) => file,
        Err(fault) => return Err(ClientFault::Write(fault)),
    };
    let Ok(bytes) = Bytes::from_vec(file) else {
        return Err(ClientFault::OutOfMemory);
    };
    document_of(alloc, bytes, doc)
}

/// Returns a store of documents.
pub fn write_documents(alloc: Global, documents: &[&[u8]]) -> Result<Vec<u8>, StoreWriteFault>
    ensures { IfOk result (λ file. HoldsDocuments file.items (bytes_of documents.now)) }
{
    let mut writer = StoreWriter::new(alloc, CountingWriter::wrap(Vec::new(alloc)));
    let stored = store_all(&mut writer, documents);
    let (writer, finished) = writer.finish();
    match stored {
        Ok(()) => {}
        Err(fault) => return Err(fault),
    }
    match finished {
        Ok(()) => Ok(writer.finish()),
        Err(fault) => Err(StoreWriteFault::Output(fault)),
    }
}

// Stores documents, in a store that has none.
fn store_all<W: Write>(
    writer: &mut StoreWriter<W>,
    documents: &[&[u8]],
) -> Result<(), StoreWriteFault>
    ensures { OnOk result ((initial : CountingWriterState) → HasStored initial writer.old [] → HasStored initial writer.new (bytes_of documents.now)) }
{
    for document in documents {
        let stored = writer.store(document);
        if stored.is_err() {
            return stored;
        }
    }
    Ok(())
}

// Returns a document of a store.
fn document_of(alloc: Global, bytes: Bytes, doc: u32) -> Result<Vec<u8>, ClientFault>
    ensures same { (documents : List (List ℕ)) → HoldsDocuments bytes documents → doc < length documents → IfOk result (λ found. found.items ≡ get_or documents doc []) }
    ensures sound { (documents : List (List ℕ)) → HoldsDocuments bytes documents → doc < length documents → IsErrOf result ClientFault.Damaged → ⊥ }
{
    let reader = match StoreReader::open(alloc, bytes) {
        Ok(reader) => reader,
        Err(StoreOpenFault::OutOfMemory) => return Err(ClientFault::OutOfMemory),
        Err(StoreOpenFault::Damaged(_)) => return Err(ClientFault::Damaged),
    };
    if doc >= reader.num_docs() {
        return Err(ClientFault::Damaged);
    }
    match reader.get(doc) {
        Ok(found) => copied(alloc, found),
        Err(_) => Err(ClientFault::Damaged),
    }
}

// Copies a document.
fn copied(alloc: Global, found: &[u8]) -> Result<Vec<u8>, ClientFault>
    ensures same { IfOk result (λ copy. copy.items ≡ found.now) }
    ensures memory { IfErr result (λ fault. fault ≡ ClientFault.OutOfMemory) }
{
    match Vec::from_slice(alloc, found) {
        Ok(copy) => Ok(copy),
        Err(_) => Err(ClientFault::OutOfMemory),
    }
}
