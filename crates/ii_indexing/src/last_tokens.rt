//! How many tokens the last document has.
ghost use Rattle.std.specs.Prelude.{◌≡◌, ◌<◌, [], List, false, length, min};
ghost use Rattle.ii_definitions.specs.Postings.{doc_count};
ghost use Rattle.ii_definitions.specs.Tokens.{IndexToken, Piece, tokens_after};
ghost use Rattle.ii_indexing.specs.Indexer.{EndsAt, Stores, StoresPieces};
ghost use Rattle.ii_indexing.specs.OpenDocuments.{ReachTo, TellsAll};
ghost use Rattle.ii_base.specs.Schema.{SchemaEntry};
ghost use Rattle.ii_recorder.specs.Recorded.{u32_max};

use crate::indexed_fields::IndexedFields;
use crate::indexer::Indexer;
use crate::open_documents::OpenDocuments;
use ii_base::{DocId, Field};

impl Indexer {
    /// Returns the number of tokens of the last document in a field, at most `u32::MAX`. The last document is
    /// that of the last call, or 0 without calls.
    pub fn last_num_tokens(&self, field: Field) -> u32
        requires running { self.now.failed ≡ false }
        requires field { field < length self.now.schema }
        ensures { (ps : List Piece) → Stores self.now ps → result ≡ min (doc_count self.now.last_doc field (tokens_after [] ps)) u32_max }
    {
        self.fields.num_tokens(self.last_doc, field)
    }
}

impl IndexedFields {
    // Returns the number of tokens of a document in a field, at most `u32::MAX`. No field may have tokens of a
    // later document.
    pub(crate) fn num_tokens(&self, doc: DocId, field: Field) -> u32
        requires known { field < length self.now.indexed.writers }
        requires ends { EndsAt doc self.now }
        ensures { (entries : List SchemaEntry) (ps : List Piece) → StoresPieces entries self.now ps → result ≡ min (doc_count doc field (tokens_after [] ps)) u32_max }
    {
        self.documents.num_tokens(doc, field)
    }
}

impl OpenDocuments {
    // Returns the number of tokens of a document in a field, at most `u32::MAX`. No field may have tokens of a
    // later document.
    pub(crate) fn num_tokens(&self, doc: DocId, field: Field) -> u32
        requires known { field < length self.now.documents }
        requires reach { ReachTo doc self.now }
        ensures { (ps : List Piece) (ts : List IndexToken) → TellsAll ps ts self.now → result ≡ min (doc_count doc field ts) u32_max }
    {
        let last = self.documents[field.field_id() as usize];
        if last.doc == doc { last.norm } else { 0 }
    }
}
