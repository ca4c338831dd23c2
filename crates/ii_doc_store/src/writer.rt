//! Writes a store of documents.
ghost use Rattle.std.specs.Prelude.{◌≡◌, ◌+◌, ◌-◌, ◌^◌, ◌<◌, ◌≤◌, ◌↔◌, ◌⊎◌, [], ◌++◌, List, ℕ, length, false, true, IsTrue, IfErr, IsErrOf, Err, OnOk, OnErr};
ghost use Rattle.ii_io.specs.CountingWriter.{CountingWriterState, Writes, WritesInMemory};
ghost use Rattle.ii_doc_store.specs.StoreFormat.{index_and_footer, footer_bytes, record_bytes};
ghost use Rattle.ii_doc_store.specs.StoreWriter.{AddsDocument, EndsBlock, HasStored, OfLimit, OfOutput, WroteStore, end_bytes, last_index, stored_bytes};

use crate::checkpoint::{CHECKPOINT_LEN, Checkpoint, FOOTER_LEN, push_checkpoint};
use crate::faults::StoreWriteFault;
use crate::{BLOCK_SIZE, FORMAT, MAX_DOCS, MAX_DOCUMENT_LEN};
use ii_io::{CountingWriter, Fault};
use sha2::{Digest, Sha256};
use std::alloc::{AllocError, Global};
use std::io::Write;
use std::marker::Model;

/// Writes a store of documents, block by block. It keeps the documents of the block that isn't full, and 44
/// bytes for each written block.
///
/// The first call that fails closes the writer; later calls return `SerializerClosed`.
#[derive(Drop)]
pub struct StoreWriter<W: Write> {
    blocks: BlockWriter<W>,
    is_closed: bool,
}

impl<W: Write> Model for StoreWriter<W> {
    ghost use Rattle.ii_doc_store.specs.StoreWriter.{StoreWriterState};

    ghost Value = { StoreWriterState };

    ghost view = { λ s. record { writer = s.blocks.writer; base = s.blocks.base; index = s.blocks.index.items; block = s.blocks.block.items; num_docs = s.blocks.num_docs; closed = s.is_closed } };
}

impl<W: Write> StoreWriter<W> {
    /// Creates a writer without documents. The bytes of the store are counted from the current position of
    /// `writer`.
    pub fn new(alloc: Global, writer: CountingWriter<W>) -> StoreWriter<W>
        ensures state { result ≡ record { writer = writer; base = writer.written_bytes; index = []; block = []; num_docs = 0; closed = false } }
        ensures stored { HasStored writer result [] }
    {
        let base = writer.written_bytes();
        StoreWriter {
            blocks: BlockWriter {
                writer,
                base,
                index: Vec::new(alloc),
                block: Vec::new(alloc),
                num_docs: 0,
            },
            is_closed: false,
        }
    }

    /// Returns the number of stored documents.
    pub fn num_docs(&self) -> u32
        ensures value { result ≡ self.now.num_docs }
        ensures stored { (initial : CountingWriterState) (documents : List (List ℕ)) → HasStored initial self.now documents → result ≡ length documents }
    {
        self.blocks.num_docs
    }

    /// Stores a document, which gets the next number. If it fills the block, the block is written.
    ///
    /// # Errors
    ///
    /// * `DocumentLen` if the document has more than `MAX_DOCUMENT_LEN` bytes, and `NumDocs` if there are
    ///   `MAX_DOCS` documents; nothing is then written.
    /// * `Output(OutOfMemory)` if an allocation fails; a prefix of the block may have been written.
    /// * `Output(Write)` if the writer fails; a prefix of the block may have been written.
    /// * `Output(Limit(Offset))` if a count of the writer would exceed `u64::MAX`.
    /// * `Output(SerializerClosed)` after an earlier error; nothing is then written.
    pub fn store(&mut self, document: &[u8]) -> Result<(), StoreWriteFault>
        ensures adds { OnOk result (AddsDocument self.old self.new document.now) }
        ensures written { OfOutput result (WritesInMemory self.old.closed self.old.writer self.new.writer (stored_bytes self.old.block document.now)) }

        ensures document_len { IsErrOf result StoreWriteFault.DocumentLen ↔ (self.old.closed ≡ false) × (2 ^ 31 ≤ length document.now) }
        ensures num_docs { IsErrOf result StoreWriteFault.NumDocs
            ↔ (self.old.closed ≡ false) × (length document.now < 2 ^ 31) × (2 ^ 31 - 1 ≤ self.old.num_docs) }
        ensures limits { OfLimit result (self.new.writer ≡ self.old.writer) }

        ensures open { OnOk result (self.new.closed ≡ false) }
        ensures closed { OnErr result (IsTrue self.new.closed) }
    {
        if self.is_closed {
            return Err(StoreWriteFault::Output(Fault::SerializerClosed));
        }
        let stored = store_document(&mut self.blocks, document);
        self.is_closed = stored.is_err();
        stored
    }

    /// Writes the last block, the index and the footer, flushes, and returns the writer. After success the
    /// store was written, and opens as its documents.
    ///
    /// # Errors
    ///
    /// * `OutOfMemory` if an allocation fails, and `Write` if the writer fails; a prefix of these bytes may
    ///   have been written.
    /// * `Limit(Offset)` if a count of the writer would exceed `u64::MAX`; a prefix of these bytes may have
    ///   been written.
    /// * `SerializerClosed` after an earlier error; nothing is then written.
    pub fn finish(self) -> (CountingWriter<W>, Result<(), Fault>)
        ensures written { WritesInMemory self.closed self.writer result.0 (end_bytes self) result.1 }
        ensures store { (initial : CountingWriterState) (documents : List (List ℕ)) → HasStored initial self documents
            → OnOk result.1 (WroteStore initial result.0 documents) }
    {
        let StoreWriter {
            mut blocks,
            is_closed,
        } = self;
        if is_closed {
            return (blocks.into_writer(), Err(Fault::SerializerClosed));
        }
        let written = end_store(&mut blocks);
        (blocks.into_writer(), written)
    }
}

// A writer without the flag that an earlier call failed.
#[derive(Drop)]
struct BlockWriter<W: Write> {
    writer: CountingWriter<W>,
    base: u64,
    index: Vec<u8>,
    block: Vec<u8>,
    num_docs: u32,
}

impl<W: Write> BlockWriter<W> {
    // Returns the writer.
    fn into_writer(self) -> CountingWriter<W>
        ensures { result ≡ self.writer }
    {
        let BlockWriter {
            writer,
            base: _,
            index: _,
            block: _,
            num_docs: _,
        } = self;
        writer
    }
}

// Stores a document, if it passes no limit.
fn store_document<W: Write>(
    blocks: &mut BlockWriter<W>,
    document: &[u8],
) -> Result<(), StoreWriteFault>
    ensures adds { OnOk result (AddsDocument
        (record { writer = blocks.old.writer; base = blocks.old.base; index = blocks.old.index.items; block = blocks.old.block.items; num_docs = blocks.old.num_docs; closed = false })
        (record { writer = blocks.new.writer; base = blocks.new.base; index = blocks.new.index.items; block = blocks.new.block.items; num_docs = blocks.new.num_docs; closed = false })
        document.now) }
    ensures written { OfOutput result (WritesInMemory false blocks.old.writer blocks.new.writer (stored_bytes blocks.old.block.items document.now)) }
    ensures document_len { IsErrOf result StoreWriteFault.DocumentLen ↔ (2 ^ 31 ≤ length document.now) }
    ensures num_docs { IsErrOf result StoreWriteFault.NumDocs ↔ (length document.now < 2 ^ 31) × (2 ^ 31 - 1 ≤ blocks.old.num_docs) }
    ensures limits { OfLimit result (blocks.new.writer ≡ blocks.old.writer) }
{
    if document.len() > MAX_DOCUMENT_LEN {
        return Err(StoreWriteFault::DocumentLen);
    }
    if blocks.num_docs >= MAX_DOCS {
        return Err(StoreWriteFault::NumDocs);
    }
    match add_document(blocks, document) {
        Ok(()) => Ok(()),
        Err(fault) => Err(StoreWriteFault::Output(fault)),
    }
}

// Adds a document to the block, and writes the block if it is then full.
fn add_document<W: Write>(blocks: &mut BlockWriter<W>, document: &[u8]) -> Result<(), Fault>
    requires len { length document.now < 2 ^ 31 }
    requires few { blocks.old.num_docs < 2 ^ 31 - 1 }
    ensures adds { OnOk result (AddsDocument
        (record { writer = blocks.old.writer; base = blocks.old.base; index = blocks.old.index.items; block = blocks.old.block.items; num_docs = blocks.old.num_docs; closed = false })
        (record { writer = blocks.new.writer; base = blocks.new.base; index = blocks.new.index.items; block = blocks.new.block.items; num_docs = blocks.new.num_docs; closed = false })
        document.now) }
    ensures written { WritesInMemory false blocks.old.writer blocks.new.writer (stored_bytes blocks.old.block.items document.now) result }
{
    push_record(&mut blocks.block, document)?;
    blocks.num_docs += 1;
    if blocks.block.len() < BLOCK_SIZE {
        return Ok(());
    }
    end_block(blocks)
}

// Appends a document to a block: its length (4), its bytes.
#[tactic(auto, unfolding(crate::specs::StoreFormat::record_bytes))]
fn push_record(block: &mut Vec<u8>, document: &[u8]) -> Result<(), AllocError>
    requires { length document.now < 2 ^ 31 }
    ensures { OnOk result (block.new.items ≡ block.old.items ++ record_bytes document.now) }
{
    block.extend_from_slice(&(document.len() as u32).to_le_bytes())?;
    block.extend_from_slice(document)
}

// Writes the block, and adds it to the index.
fn end_block<W: Write>(blocks: &mut BlockWriter<W>) -> Result<(), Fault>
    ensures ends { OnOk result (EndsBlock
        (record { writer = blocks.old.writer; base = blocks.old.base; index = blocks.old.index.items; block = blocks.old.block.items; num_docs = blocks.old.num_docs; closed = false })
        (record { writer = blocks.new.writer; base = blocks.new.base; index = blocks.new.index.items; block = blocks.new.block.items; num_docs = blocks.new.num_docs; closed = false })) }
    ensures written { WritesInMemory false blocks.old.writer blocks.new.writer blocks.old.block.items result }
{
    let written = blocks.writer.write_all(&blocks.block);
    if written.is_err() {
        return written;
    }
    let checkpoint = Checkpoint {
        doc_end: blocks.num_docs,
        byte_end: blocks.writer.written_bytes().saturating_sub(blocks.base),
        digest: Sha256::digest(blocks.block.as_slice()),
    };
    push_checkpoint(&mut blocks.index, &checkpoint)?;
    blocks.block.clear();
    Ok(())
}

// Writes the last block, the index and the footer, and flushes.
fn end_store<W: Write>(blocks: &mut BlockWriter<W>) -> Result<(), Fault>
    ensures { WritesInMemory false blocks.old.writer blocks.new.writer
        (end_bytes (record { writer = blocks.old.writer; base = blocks.old.base; index = blocks.old.index.items; block = blocks.old.block.items; num_docs = blocks.old.num_docs; closed = false })) result }
{
    let ended = end_last_block(blocks);
    if ended.is_err() {
        return ended;
    }
    write_index(&mut blocks.writer, &blocks.index)
}

// Writes the last block, if it has documents, and adds it to the index.
fn end_last_block<W: Write>(blocks: &mut BlockWriter<W>) -> Result<(), Fault>
    ensures index { OnOk result (blocks.new.index.items ≡ last_index (record { writer = blocks.old.writer; base = blocks.old.base; index = blocks.old.index.items; block = blocks.old.block.items; num_docs = blocks.old.num_docs; closed = false }) blocks.old.block.items) }
    ensures written { WritesInMemory false blocks.old.writer blocks.new.writer blocks.old.block.items result }
{
    if blocks.block.as_slice().is_empty() {
        return Ok(());
    }
    end_block(blocks)
}

// Writes the index and the footer, and flushes.
fn write_index<W: Write>(writer: &mut CountingWriter<W>, index: &[u8]) -> Result<(), Fault>
    ensures { Writes writer.old writer.new (index_and_footer index.now) result }
{
    let written = writer.write_all(index);
    if written.is_err() {
        return written;
    }
    write_footer(writer, index)
}

// Writes the footer, and flushes: the number of blocks (8), the SHA-256 of the index (32), the format (8).
fn write_footer<W: Write>(writer: &mut CountingWriter<W>, index: &[u8]) -> Result<(), Fault>
    ensures { Writes writer.old writer.new (footer_bytes index.now) result }
{
    let mut footer = [0; FOOTER_LEN];
    put_footer(&mut footer, index);
    let written = writer.write_all(&footer);
    if written.is_err() {
        return written;
    }
    writer.flush()
}

// Fills the bytes of a footer.
#[tactic(auto, unfolding(crate::specs::StoreFormat::footer_bytes, crate::specs::StoreFormat::format))]
fn put_footer(footer: &mut [u8], index: &[u8])
    requires { length footer.old ≡ 48 }
    ensures { footer.new ≡ footer_bytes index.now }
{
    let num_blocks = index.len() / CHECKPOINT_LEN;
    let (blocks, rest) = footer.split_at_mut(8);
    let (digest, format) = rest.split_at_mut(32);
    blocks.copy_from_slice(&(num_blocks as u64).to_le_bytes());
    digest.copy_from_slice(&Sha256::digest(index));
    format.copy_from_slice(FORMAT);
}
