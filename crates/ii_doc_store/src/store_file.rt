//! Opens a store of documents in a file, and gets its blocks by ranges of the file.
ghost use Rattle.std.specs.Prelude.{◌≡◌, ◌<◌, ◌≤◌, ℕ, List, Some, Ok, Err, IfOk, IsErrOf, OnOk, bytes_eq, false, length, true};
ghost use Rattle.sha2.specs.Sha256.{sha256};
ghost use Rattle.ii_block_file.specs.declared.faults.ReadFault.{ReadFault};
ghost use Rattle.ii_block_file.specs.declared.faults.ReadFault.TheVariants.{OutOfMemory};
ghost use Rattle.ii_doc_store.specs.StoreReader.{HoldsBlock, HoldsDocuments, IsBlockOf, are_in_order, bytes_of_block, document_of, index_of, num_docs};

use crate::block::FileBlock;
use crate::checkpoint::{BlockPlace, CHECKPOINT_LEN, Checkpoint, FOOTER_LEN};
use crate::faults::{StoreDamage, StoreFileFault};
use crate::reader::{block_of, blocks_in_footer, is_digest, read_parts};
use ii_base::DocId;
use ii_file_slice::FileHandle;
use std::alloc::Global;
use std::marker::Model;

/// A store of documents in a file, of which one block at a time is read.
#[derive(Drop)]
pub struct StoreFile<'a, H: FileHandle> {
    file: &'a H,
    checkpoints: Vec<Checkpoint>,
}

impl<'a, H: FileHandle> Model for StoreFile<'a, H> {
    ghost use Rattle.ii_doc_store.specs.StoreFile.{IsFileIndex, StoreFileState};

    ghost Value = { StoreFileState H };

    ghost view = { λ s. record { file = s.file.now; checkpoints = s.checkpoints.items } };

    ghost invariant = { λ s. IsFileIndex (H.bytes s.file.now) s.checkpoints.items };
}

impl<'a, H: FileHandle> StoreFile<'a, H> {
    /// Opens a store. Reads the footer and the index alone, and keeps 48 bytes for each block.
    ///
    /// # Errors
    ///
    /// `Damaged(Footer)` or `Damaged(Index)` if that part is damaged; `Read` if it can't be read, or an allocation fails.
    pub fn open(alloc: Global, file: &'a H) -> Result<StoreFile<'a, H>, StoreFileFault>
        ensures file { IfOk result (λ store. store.file ≡ file.now) }
        ensures index { (bytes : List ℕ) → H.bytes file.now ≡ Some bytes → IfOk result (λ store. index_of bytes ≡ Ok store.checkpoints) }
        ensures damaged { (bytes : List ℕ) (damage : StoreDamage) → H.bytes file.now ≡ Some bytes → IsErrOf result (StoreFileFault.Damaged damage) → index_of bytes ≡ Err damage }
        ensures sound { (bytes : List ℕ) (fault : ReadFault) → H.bytes file.now ≡ Some bytes → H.is_sound file.now → IsErrOf result (StoreFileFault.Read fault) → fault ≡ OutOfMemory }
    {
        match read_file_index(alloc, file) {
            Ok(checkpoints) => Ok(StoreFile { file, checkpoints }),
            Err(fault) => Err(fault),
        }
    }

    /// Returns the number of documents.
    pub fn num_docs(&self) -> u32
        ensures value { result ≡ num_docs self.now.checkpoints }
        ensures stored { (bytes : List ℕ) (documents : List (List ℕ)) → H.bytes self.now.file ≡ Some bytes → HoldsDocuments bytes documents → result ≡ length documents }
    {
        match self.checkpoints.last() {
            Some(checkpoint) => checkpoint.doc_end,
            None => 0,
        }
    }

    /// Reads the block of a document, which must be less than `num_docs`, and computes its SHA-256. Its documents are then
    /// read without that.
    ///
    /// # Errors
    ///
    /// `Damaged(Block)` with the number of the block, from 0, if it has another SHA-256 than the index says; `Read` if it
    /// can't be read, or an allocation fails.
    pub fn block(&self, alloc: Global, doc: DocId) -> Result<FileBlock, StoreFileFault>
        requires { doc < num_docs self.now.checkpoints }
        ensures value { (bytes : List ℕ) → H.bytes self.now.file ≡ Some bytes → IfOk result (IsBlockOf bytes self.now.checkpoints) }
        ensures here { IfOk result (λ block. (block.first_doc ≤ doc) × (doc < block.doc_end)) }
        ensures stored { (bytes : List ℕ) (documents : List (List ℕ)) → H.bytes self.now.file ≡ Some bytes → HoldsDocuments bytes documents → IfOk result (HoldsBlock documents) }
        ensures damaged { (bytes : List ℕ) (damage : StoreDamage) → H.bytes self.now.file ≡ Some bytes → IsErrOf result (StoreFileFault.Damaged damage) → document_of bytes self.now.checkpoints doc ≡ Err damage }
        ensures undamaged { (bytes : List ℕ) (documents : List (List ℕ)) (damage : StoreDamage) → H.bytes self.now.file ≡ Some bytes → HoldsDocuments bytes documents → IsErrOf result (StoreFileFault.Damaged damage) → ⊥ }
        ensures sound { (bytes : List ℕ) (fault : ReadFault) → H.bytes self.now.file ≡ Some bytes → H.is_sound self.now.file → IsErrOf result (StoreFileFault.Read fault) → fault ≡ OutOfMemory }
    {
        let place = block_of(self.checkpoints.as_slice(), doc);
        read_file_block(alloc, self.file, &place)
    }
}

// Reads the index of a store, if the footer and the index are valid.
fn read_file_index<H: FileHandle>(
    alloc: Global,
    file: &H,
) -> Result<Vec<Checkpoint>, StoreFileFault>
    ensures ordered { IfOk result (λ checkpoints. (end : ℕ) × (are_in_order 0 0 end checkpoints.items ≡ true)) }
    ensures index { (bytes : List ℕ) → H.bytes file.now ≡ Some bytes → IfOk result (λ checkpoints. index_of bytes ≡ Ok checkpoints.items) }
    ensures damaged { (bytes : List ℕ) (damage : StoreDamage) → H.bytes file.now ≡ Some bytes → IsErrOf result (StoreFileFault.Damaged damage) → index_of bytes ≡ Err damage }
    ensures sound { (bytes : List ℕ) (fault : ReadFault) → H.bytes file.now ≡ Some bytes → H.is_sound file.now → IsErrOf result (StoreFileFault.Read fault) → fault ≡ OutOfMemory }
{
    let len = file.len();
    if len < FOOTER_LEN as u64 {
        return Err(StoreFileFault::Damaged(StoreDamage::Footer));
    }
    let index_end = len - FOOTER_LEN as u64;
    let footer = match file.read_bytes(alloc, index_end, FOOTER_LEN) {
        Ok(footer) => footer,
        Err(fault) => return Err(StoreFileFault::Read(fault)),
    };
    let Some(count) = blocks_in_footer(len, footer.as_slice()) else {
        return Err(StoreFileFault::Damaged(StoreDamage::Footer));
    };
    let index_len = CHECKPOINT_LEN as u64 * count;
    let end = index_end - index_len;
    let index = match file.read_bytes(alloc, end, index_len as usize) {
        Ok(index) => index,
        Err(fault) => return Err(StoreFileFault::Read(fault)),
    };
    match read_parts(
        alloc,
        count as usize,
        end,
        footer.as_slice(),
        index.as_slice(),
    ) {
        Ok(checkpoints) => Ok(checkpoints),
        Err(fault) => Err(fault.in_file()),
    }
}

// Reads a block, if its SHA-256 is the right one.
fn read_file_block<H: FileHandle>(
    alloc: Global,
    file: &H,
    place: &BlockPlace,
) -> Result<FileBlock, StoreFileFault>
    requires range { place.now.start ≤ place.now.end }
    ensures place { IfOk result (λ read. (read.first_doc ≡ place.now.first_doc) × (read.doc_end ≡ place.now.doc_end)) }
    ensures sound { (bytes : List ℕ) → H.bytes file.now ≡ Some bytes → OnOk result (bytes_eq place.now.digest (sha256 (bytes_of_block bytes place.now)) ≡ true) }
    ensures value { (bytes : List ℕ) → H.bytes file.now ≡ Some bytes → IfOk result (λ read. read ≡ record { number = place.now.number; first_doc = place.now.first_doc; doc_end = place.now.doc_end; bytes = bytes_of_block bytes place.now }) }
    ensures damaged { (bytes : List ℕ) (damage : StoreDamage) → H.bytes file.now ≡ Some bytes → IsErrOf result (StoreFileFault.Damaged damage) → (damage ≡ StoreDamage.Block place.now.number) × (bytes_eq place.now.digest (sha256 (bytes_of_block bytes place.now)) ≡ false) }
    ensures memory { (bytes : List ℕ) (fault : ReadFault) → H.bytes file.now ≡ Some bytes → H.is_sound file.now → place.now.end ≤ length bytes → IsErrOf result (StoreFileFault.Read fault) → fault ≡ OutOfMemory }
{
    let bytes = match file.read_bytes(alloc, place.start, (place.end - place.start) as usize) {
        Ok(bytes) => bytes,
        Err(fault) => return Err(StoreFileFault::Read(fault)),
    };
    if !is_digest(&place.digest, bytes.as_slice()) {
        return Err(StoreFileFault::Damaged(StoreDamage::Block(place.number)));
    }
    Ok(FileBlock::with_bytes(place, bytes))
}
