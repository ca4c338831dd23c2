//! The bytes of the segments of an index.
ghost use Rattle.std.specs.Prelude.{◌≡◌};
ghost use Rattle.ii_store.specs.Index.{view};
ghost use Rattle.ii_segment_store.specs.Contents.{as_index, files_contents};

use ii_alive::AliveBits;
use ii_store::StoredIndex;

/// The files of a segment, and its number of documents.
#[derive(Debug, Drop)]
pub struct SegmentFiles {
    pub num_docs: u32,
    /// The output of `write_index`: terms, postings, positions and field norms.
    pub terms: Vec<u8>,
    pub postings: Vec<u8>,
    pub positions: Vec<u8>,
    pub fieldnorms: Vec<u8>,
    /// The number of tokens of each document in each field, if it was recorded.
    pub counts: Option<Vec<u8>>,
    /// The lines of the documents, in the format of `ii_doc_store`, if they were stored.
    pub store: Option<Vec<u8>>,
}

/// A segment: its files, and which of its documents are alive.
#[derive(Drop)]
pub struct StoredSegment {
    pub files: SegmentFiles,
    pub alive: AliveBits,
}

/// All segments of an index, in the order of their documents, and its schema.
#[derive(Drop)]
pub struct StoredSegments {
    /// The schema, as encoded by the calling program. It isn't read.
    pub schema: Vec<u8>,
    pub segments: Vec<StoredSegment>,
}

impl SegmentFiles {
    /// Returns the segment as an index with this schema, without its counts and stored documents.
    pub fn into_index(self, schema: Vec<u8>) -> StoredIndex
        ensures { view result ≡ as_index schema.items (files_contents self) }
    {
        StoredIndex {
            num_docs: self.num_docs,
            schema,
            terms: self.terms,
            postings: self.postings,
            positions: self.positions,
            fieldnorms: self.fieldnorms,
        }
    }
}
