//! A block of documents.
ghost use Rattle.std.specs.Prelude.{◌≡◌, ◌<◌, ◌≤◌, ◌&&◌, nat_le, nat_lt, Ok, Err, MatchResult};
ghost use Rattle.ii_doc_store.specs.StoreReader.{document_of_read};

use crate::checkpoint::BlockPlace;
use crate::faults::StoreDamage;
use crate::reader::document_at;
use bytes::Bytes;
use ii_base::DocId;
use std::marker::Model;

/// A block of documents whose SHA-256 is the one of the index, over borrowed bytes.
#[derive(Drop)]
pub struct StoreBlock<'a> {
    number: u64,
    first_doc: DocId,
    doc_end: DocId,
    bytes: &'a [u8],
}

impl<'a> Model for StoreBlock<'a> {
    ghost use Rattle.ii_doc_store.specs.StoreReader.{StoreBlockState};

    ghost Value = { StoreBlockState };

    ghost view = { λ s. record { number = s.number; first_doc = s.first_doc; doc_end = s.doc_end; bytes = s.bytes.now } };
}

impl<'a> StoreBlock<'a> {
    // Creates a block of these bytes.
    pub(crate) fn over(place: &BlockPlace, bytes: &'a [u8]) -> StoreBlock<'a>
        ensures { result ≡ record { number = place.now.number; first_doc = place.now.first_doc; doc_end = place.now.doc_end; bytes = bytes.now } }
    {
        StoreBlock {
            number: place.number,
            first_doc: place.first_doc,
            doc_end: place.doc_end,
            bytes,
        }
    }

    /// Returns whether a document is one of the block.
    pub fn contains(&self, doc: DocId) -> bool
        ensures { result ≡ (nat_le self.now.first_doc doc && nat_lt doc self.now.doc_end) }
    {
        self.first_doc <= doc && doc < self.doc_end
    }

    /// Returns a document of the block. Passes over the documents before it in the block. Never allocates.
    ///
    /// Returns `Block` with the number of the block, from 0, if the block doesn't have the document.
    pub fn get(&self, doc: DocId) -> Result<&'a [u8], StoreDamage>
        requires { (self.now.first_doc ≤ doc) × (doc < self.now.doc_end) }
        ensures { MatchResult result (λ document. document_of_read self.now doc ≡ Ok document.now) (λ damage. document_of_read self.now doc ≡ Err damage) }
    {
        let number = self.number;
        match document_at(self.bytes, doc.saturating_sub(self.first_doc)) {
            Some(document) => Ok(document),
            None => Err(StoreDamage::Block(number)),
        }
    }
}

/// A block of documents whose SHA-256 is the one of the index, with its bytes.
#[derive(Drop)]
pub struct FileBlock {
    number: u64,
    first_doc: DocId,
    doc_end: DocId,
    bytes: Bytes,
}

impl Model for FileBlock {
    ghost use Rattle.ii_doc_store.specs.StoreReader.{StoreBlockState};

    ghost Value = { StoreBlockState };

    ghost view = { λ s. record { number = s.number; first_doc = s.first_doc; doc_end = s.doc_end; bytes = s.bytes } };
}

impl FileBlock {
    // Creates a block of these bytes.
    pub(crate) fn with_bytes(place: &BlockPlace, bytes: Bytes) -> FileBlock
        ensures { result ≡ record { number = place.now.number; first_doc = place.now.first_doc; doc_end = place.now.doc_end; bytes = bytes } }
    {
        FileBlock {
            number: place.number,
            first_doc: place.first_doc,
            doc_end: place.doc_end,
            bytes,
        }
    }

    /// Returns the block over its bytes.
    pub fn as_block(&self) -> StoreBlock<'_>
        ensures { result ≡ self.now }
    {
        StoreBlock {
            number: self.number,
            first_doc: self.first_doc,
            doc_end: self.doc_end,
            bytes: self.bytes.as_slice(),
        }
    }
}
