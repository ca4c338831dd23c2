//! Opens a store of documents, and gets them by their numbers.
ghost use Rattle.std.specs.Prelude.{◌≡◌, ◌+◌, ◌-◌, ◌*◌, ◌<◌, ◌≤◌, ℕ, List, [], length, get_or, drop, nat_le, bytes_eq, true, false, Some, None, Ok, Err, IfErr, IfOk, IsErrOf, OnOk, MatchOption, MatchResult};
ghost use Rattle.std.specs.List.Sorted.{IsNonDecreasingBy};
ghost use Rattle.sha2.specs.Sha256.{sha256};
ghost use Rattle.ii_doc_store.specs.StoreReader.{HoldsBlock, HoldsDocuments, IsBlockOf, after_record, are_in_order, block_with, blocks_in_footer, bytes_of_block, checkpoints_in, document_in, document_of, document_of_block, ends_before_from, has_footer, has_record, index_of, is_footer, is_index, num_blocks_of, num_docs, record_of};

use crate::FORMAT;
use crate::block::StoreBlock;
use crate::checkpoint::{
    BlockPlace, CHECKPOINT_LEN, Checkpoint, FOOTER_LEN, read_checkpoint, read_u32, read_u64,
};
use crate::faults::{StoreDamage, StoreOpenFault};
use bytes::Bytes;
use ii_base::DocId;
use sha2::{Digest, Sha256};
use std::alloc::{AllocError, Global};
use std::marker::Model;

/// A store of documents over the bytes of its file.
#[derive(Drop)]
pub struct StoreReader {
    bytes: Bytes,
    checkpoints: Vec<Checkpoint>,
}

impl Model for StoreReader {
    ghost use Rattle.std.specs.Prelude.{◌≡◌, Ok};
    ghost use Rattle.ii_doc_store.specs.StoreReader.{StoreReaderState, index_of};

    ghost Value = { StoreReaderState };

    ghost view = { λ s. record { bytes = s.bytes; checkpoints = s.checkpoints.items } };

    ghost invariant = { λ s. index_of s.bytes ≡ Ok s.checkpoints.items };
}

impl StoreReader {
    /// Opens a store. Reads the footer and the index alone, and keeps 48 bytes for each block.
    ///
    /// Returns `Damaged(Footer)` or `Damaged(Index)` if that part is damaged, and `OutOfMemory` if an
    /// allocation fails.
    pub fn open(alloc: Global, bytes: Bytes) -> Result<StoreReader, StoreOpenFault>
        ensures bytes { IfOk result (λ reader. reader.bytes ≡ bytes) }
        ensures index { IfOk result (λ reader. index_of bytes ≡ Ok reader.checkpoints) }
        ensures damaged { (damage : StoreDamage) → IsErrOf result (StoreOpenFault.Damaged damage) → index_of bytes ≡ Err damage }
    {
        let checkpoints = read_index(alloc, bytes.as_slice())?;
        Ok(StoreReader { bytes, checkpoints })
    }

    /// Returns the number of documents.
    pub fn num_docs(&self) -> u32
        ensures value { result ≡ num_docs self.now.checkpoints }
        ensures stored { (documents : List (List ℕ)) → HoldsDocuments self.now.bytes documents → result ≡ length documents }
    {
        match self.checkpoints.last() {
            Some(checkpoint) => checkpoint.doc_end,
            None => 0,
        }
    }

    /// Returns the block of a document, which must be less than `num_docs`. Reads this block alone, and computes
    /// its SHA-256. Its documents are then read without that. Never allocates.
    ///
    /// Returns `Block` with the number of the block, from 0, if it has another SHA-256 than the index says.
    pub fn block(&self, doc: DocId) -> Result<StoreBlock<'_>, StoreDamage>
        requires { doc < num_docs self.now.checkpoints }
        ensures value { IfOk result (IsBlockOf self.now.bytes self.now.checkpoints) }
        ensures here { IfOk result (λ block. (block.first_doc ≤ doc) × (doc < block.doc_end)) }
        ensures damaged { IfErr result (λ damage. document_of self.now.bytes self.now.checkpoints doc ≡ Err damage) }
        ensures stored { (documents : List (List ℕ)) → HoldsDocuments self.now.bytes documents
            → MatchResult result (HoldsBlock documents) (λ _. ⊥) }
    {
        let block = block_of(self.checkpoints.as_slice(), doc);
        read_block(self.bytes.as_slice(), &block)
    }

    /// Returns the document with a number, which must be less than `num_docs`: the bytes that were stored.
    /// Reads the block of the document alone, and computes its SHA-256. Never allocates.
    ///
    /// Returns `Block` with the number of the block, from 0, if the block has another SHA-256 than the index
    /// says, or doesn't have the document.
    pub fn get(&self, doc: DocId) -> Result<&[u8], StoreDamage>
        requires { doc < num_docs self.now.checkpoints }
        ensures value { MatchResult result (λ document. document_of self.now.bytes self.now.checkpoints doc ≡ Ok document.now)
            (λ damage. document_of self.now.bytes self.now.checkpoints doc ≡ Err damage) }
        ensures stored { (documents : List (List ℕ)) → HoldsDocuments self.now.bytes documents
            → MatchResult result (λ document. document.now ≡ get_or documents doc []) (λ _. ⊥) }
    {
        match self.block(doc) {
            Ok(block) => block.get(doc),
            Err(damage) => Err(damage),
        }
    }
}

// Reads the index, if the footer and the index are valid.
fn read_index(alloc: Global, bytes: &[u8]) -> Result<Vec<Checkpoint>, StoreOpenFault>
    ensures index { IfOk result (λ checkpoints. index_of bytes.now ≡ Ok checkpoints.items) }
    ensures damaged { (damage : StoreDamage) → IsErrOf result (StoreOpenFault.Damaged damage) → index_of bytes.now ≡ Err damage }
{
    let Some(num_blocks) = read_footer(bytes) else {
        return Err(StoreOpenFault::Damaged(StoreDamage::Footer));
    };
    let index_end = bytes.len() - FOOTER_LEN;
    let end = index_end - CHECKPOINT_LEN * num_blocks;
    let (_, footer) = bytes.split_at(index_end);
    read_parts(
        alloc,
        num_blocks,
        end as u64,
        footer,
        &bytes[end..index_end],
    )
}

// Returns the number of blocks, if there is a footer, and enough bytes for the index.
#[tactic(auto, unfolding(crate::specs::StoreReader::has_footer))]
fn read_footer(bytes: &[u8]) -> Option<usize>
    ensures { MatchOption result (has_footer bytes.now ≡ false) (λ count. (has_footer bytes.now ≡ true) × (count ≡ num_blocks_of bytes.now)
        × (48 + 44 * count ≤ length bytes.now)) }
{
    if bytes.len() < FOOTER_LEN {
        return None;
    }
    let (_, footer) = bytes.split_at(bytes.len() - FOOTER_LEN);
    match blocks_in_footer(bytes.len() as u64, footer) {
        Some(count) => Some(count as usize),
        None => None,
    }
}

// Returns the number of blocks that a footer tells, if the store, which has `len` bytes, has enough for the index.
#[tactic(auto, unfolding(crate::specs::StoreFormat::format))]
pub(crate) fn blocks_in_footer(len: u64, footer: &[u8]) -> Option<u64>
    requires long { 48 ≤ len }
    requires footer { length footer.now ≡ 48 }
    ensures { MatchOption result (is_footer len footer.now ≡ false) (λ count. (is_footer len footer.now ≡ true) × (count ≡ blocks_in_footer footer.now)
        × (48 + 44 * count ≤ len)) }
{
    let (_, format) = footer.split_at(40);
    if format != FORMAT {
        return None;
    }
    let count = read_u64(footer);
    if count > (len - FOOTER_LEN as u64) / CHECKPOINT_LEN as u64 {
        return None;
    }
    Some(count)
}

// Reads the checkpoints of an index, whose SHA-256 must be that of the footer. The blocks end at `end`.
pub(crate) fn read_parts(
    alloc: Global,
    count: usize,
    end: u64,
    footer: &[u8],
    index: &[u8],
) -> Result<Vec<Checkpoint>, StoreOpenFault>
    requires footer { length footer.now ≡ 48 }
    requires index { length index.now ≡ 44 * count }
    ensures checkpoints { IfOk result (λ checkpoints. checkpoints.items ≡ checkpoints_in count index.now) }
    ensures sound { OnOk result (is_index count end footer.now index.now ≡ true) }
    ensures damaged { (damage : StoreDamage) → IsErrOf result (StoreOpenFault.Damaged damage) → (damage ≡ StoreDamage.Index) × (is_index count end footer.now index.now ≡ false) }
{
    if !is_digest(&footer[8..40], index) {
        return Err(StoreOpenFault::Damaged(StoreDamage::Index));
    }
    let checkpoints = read_checkpoints(alloc, count, index)?;
    if !are_ordered(end, checkpoints.as_slice()) {
        return Err(StoreOpenFault::Damaged(StoreDamage::Index));
    }
    Ok(checkpoints)
}

// Returns whether this is the SHA-256 of bytes.
pub(crate) fn is_digest(digest: &[u8], bytes: &[u8]) -> bool
    ensures { result ≡ bytes_eq digest.now (sha256 bytes.now) }
{
    digest == Sha256::digest(bytes).as_slice()
}

// Reads a number of checkpoints.
fn read_checkpoints(
    alloc: Global,
    count: usize,
    index: &[u8],
) -> Result<Vec<Checkpoint>, AllocError>
    requires { length index.now ≡ 44 * count }
    ensures { IfOk result (λ checkpoints. checkpoints.items ≡ checkpoints_in count index.now) }
{
    let mut checkpoints = Vec::new(alloc);
    let mut rest = index;
    for _ in 0..count {
        let (front, after) = rest.split_at(CHECKPOINT_LEN);
        checkpoints.push(read_checkpoint(front))?;
        rest = after;
    }
    Ok(checkpoints)
}

// Returns whether checkpoints don't decrease, and the last one ends at `end`.
fn are_ordered(end: u64, checkpoints: &[Checkpoint]) -> bool
    ensures { result ≡ are_in_order 0 0 end checkpoints.now }
{
    let mut doc = 0;
    let mut byte = 0;
    for checkpoint in checkpoints {
        if checkpoint.doc_end < doc {
            return false;
        }
        if checkpoint.byte_end < byte {
            return false;
        }
        doc = checkpoint.doc_end;
        byte = checkpoint.byte_end;
    }
    byte == end
}

// Returns the block of a document.
pub(crate) fn block_of(checkpoints: &[Checkpoint], doc: DocId) -> BlockPlace
    requires order { IsNonDecreasingBy (λ c. c.doc_end) checkpoints.now }
    requires found { doc < num_docs checkpoints.now }
    ensures { block_with checkpoints.now doc ≡ Some result }
{
    let number = checkpoints.partition_point(
        |checkpoint: &Checkpoint| -> bool
            ensures { result ≡ nat_le checkpoint.now.doc_end doc }
        { checkpoint.doc_end <= doc },
    );
    let checkpoint = checkpoints[number];
    let digest = checkpoint.digest;
    let (first_doc, start) = ends_before(checkpoints, number);
    BlockPlace {
        number: number as u64,
        first_doc,
        doc_end: checkpoint.doc_end,
        start,
        end: checkpoint.byte_end,
        digest,
    }
}

// Returns where the block before a block ends, as a document and a byte.
fn ends_before(checkpoints: &[Checkpoint], number: usize) -> (DocId, u64)
    requires { number ≤ length checkpoints.now }
    ensures { result ≡ ends_before_from 0 0 checkpoints.now number }
{
    if number == 0 {
        return (0, 0);
    }
    let checkpoint = checkpoints[number - 1];
    (checkpoint.doc_end, checkpoint.byte_end)
}

// Reads a block, if its SHA-256 is the right one.
fn read_block<'a>(bytes: &'a [u8], block: &BlockPlace) -> Result<StoreBlock<'a>, StoreDamage>
    requires range { (block.now.start ≤ block.now.end) × (block.now.end ≤ length bytes.now) }
    ensures sound { OnOk result (bytes_eq block.now.digest (sha256 (bytes_of_block bytes.now block.now)) ≡ true) }
    ensures value { IfOk result (λ read. read ≡ record { number = block.now.number; first_doc = block.now.first_doc; doc_end = block.now.doc_end; bytes = bytes_of_block bytes.now block.now }) }
    ensures damaged { IfErr result (λ damage. (damage ≡ StoreDamage.Block block.now.number) × (bytes_eq block.now.digest (sha256 (bytes_of_block bytes.now block.now)) ≡ false)) }
{
    let block_bytes = &bytes[block.start as usize..block.end as usize];
    if !is_digest(&block.digest, block_bytes) {
        return Err(StoreDamage::Block(block.number));
    }
    Ok(StoreBlock::over(block, block_bytes))
}

// Returns document k of a block, if it has one.
pub(crate) fn document_at(block: &[u8], k: u32) -> Option<&[u8]>
    ensures { MatchOption result (document_in k block.now ≡ None) (λ document. document_in k block.now ≡ Some document.now) }
{
    let mut rest = block;
    for _ in 0..k {
        let Some((_, after)) = split_record(rest) else {
            return None;
        };
        rest = after;
    }
    match split_record(rest) {
        Some((document, _)) => Some(document),
        None => None,
    }
}

// Splits the first document off, if it is complete.
#[tactic(auto, unfolding(crate::specs::StoreReader::has_record, crate::specs::StoreReader::record_of, crate::specs::StoreReader::after_record))]
fn split_record(bytes: &[u8]) -> Option<(&[u8], &[u8])>
    ensures { MatchOption result (has_record bytes.now ≡ false) (λ parts. (has_record bytes.now ≡ true) × (parts.0.now ≡ record_of bytes.now) × (parts.1.now ≡ after_record bytes.now)) }
{
    if bytes.len() < 4 {
        return None;
    }
    let (_, rest) = bytes.split_at(4);
    let len = read_u32(bytes) as usize;
    if rest.len() < len {
        return None;
    }
    Some(rest.split_at(len))
}
