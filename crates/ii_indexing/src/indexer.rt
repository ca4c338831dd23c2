ghost use Rattle.std.specs.Prelude.{◌≡◌, ◌<◌, ◌≤◌, ◌∷◌, ◌++◌, [], ℕ, List, length, true, false, Err, IfErr, IfOk, OnErr, OnOk, Some, ◌^◌};
ghost use Rattle.ii_io.specs.Faults.{OnlyMemory};
ghost use Rattle.ii_base.specs.declared.doc_id.TheConstants.{TERMINATED};
ghost use Rattle.ii_definitions.specs.Fields.{option_of};
ghost use Rattle.ii_definitions.specs.Tokens.{Piece, call_pieces, tokens_after, IndexToken};
ghost use Rattle.ii_indexing.specs.IndexFiles.{CountsIndexFailures, FilesGrow, IsIndexFault, WroteIndex};
ghost use Rattle.ii_definitions.specs.IndexCalls.{Takes, call_of, doc_of, expands_dots_in, field_of, type_of};
ghost use Rattle.ii_indexing.specs.Indexer.{Stores};
ghost use Rattle.ii_indexing.specs.Refusals.{call_fault};
ghost use Rattle.ii_json.specs.LeafVisit.{IsRefusedBy};
ghost use Rattle.ii_io.specs.Composite.{composite};
ghost use Rattle.ii_io.specs.CountingWriter.{Writes};
ghost use Rattle.ii_postings_writer.specs.FieldParts.{AreShortNorms};
ghost use Rattle.ii_postings_writer.specs.ResolvedTerms.{HaveHeldTokens, MayWriteTerms};
ghost use Rattle.ii_definitions.specs.Norms.{HoldNorms};

use crate::index_writers::IndexWriters;
use crate::indexed_fields::{IndexedFields, IndexedTerms};
use bytes::Bytes;
use ii_base::{CountingWriter, DocId, Fault, Field, Schema, TextAnalyzer};
use ii_definitions::IndexCall;
use ii_fieldnorm::FieldNormReaders;
use ii_postings_writer::serialize_postings::serialize_postings;
use ii_recorder::InvertedIndexSerializer;
use std::alloc::Global;
use std::io::Write;
use std::marker::Model;

/// Indexes calls in the order of their documents.
///
/// Its model is what it has stored: the postings of each key, the number of tokens of each field, the
/// state of each field's open document, and the norms of earlier documents.
pub struct Indexer {
    schema: Schema,
    num_docs: DocId,
    pub(crate) last_doc: DocId,
    pub(crate) fields: IndexedFields,
    failed: bool,
    alloc: Global,
}

// Makes each drop a call.
impl Drop for Indexer {
    fn drop(self) {
        let Indexer {
            schema,
            num_docs: _,
            last_doc: _,
            fields: _,
            failed: _,
            alloc: _,
        } = self;
        drop(schema);
    }
}

impl Model for Indexer {
    ghost use Rattle.std.specs.Prelude.{◌≡◌, ◌≤◌, false};
    ghost use Rattle.ii_base.specs.declared.doc_id.TheConstants.{TERMINATED};
    ghost use Rattle.ii_indexing.specs.Indexer.{AreRunning, IndexerState};

    ghost Value = { IndexerState };

    ghost view = { λ i. record {
      schema = i.schema;
      num_docs = i.num_docs;
      last_doc = i.last_doc;
      fields = i.fields;
      failed = i.failed;
    } };

    ghost invariant = { λ i. (i.num_docs ≤ TERMINATED) × (i.failed ≡ false → AreRunning i.schema i.num_docs i.last_doc i.fields) };
}

impl Indexer {
    /// Creates an indexer without calls, for `num_docs` documents and the fields of a schema. Returns
    /// `OutOfMemory` if an allocation fails.
    pub fn new(alloc: Global, schema: Schema, num_docs: DocId) -> Result<Indexer, Fault>
        requires { num_docs ≤ TERMINATED }
        ensures made { IfOk result (λ i. (i.schema ≡ schema) × (i.num_docs ≡ num_docs) × (i.last_doc ≡ 0) × (i.failed ≡ false)) }
        ensures stored { IfOk result (λ i. Stores i []) }
        ensures only { OnlyMemory result }
    {
        let fields = IndexedFields::new(alloc, &schema)?;
        Ok(Indexer {
            schema,
            num_docs,
            last_doc: 0,
            fields,
            failed: false,
            alloc,
        })
    }

    /// Indexes a call. Its document must be less than `num_docs`, and document ids must not decrease.
    /// Its field must be indexed and have values of the call's type.
    ///
    /// # Errors
    ///
    /// Returns the first fault that `call_fault` defines, leaf by leaf for a JSON value, and word by
    /// word for a text:
    ///
    /// - `Limit(Paths)` for the leaf of a new path when `u32::MAX` + 1 paths are known.
    /// - `Limit(Position)` if a word starts or ends above `u32::MAX`.
    /// - `Limit(Tokens)` for more than `u32::MAX` tokens of a document's texts in a field or at a
    ///   path of it, or more than `u64::MAX` tokens of a field.
    /// - `Limit(Position)` at position `u32::MAX`.
    /// - `DecreasingPosition` below the last position of the term in the document.
    /// - `Limit(Count)` for a term frequency above `u32::MAX`.
    /// - `Limit(Position)` if the gap after a text ends above `u32::MAX`.
    /// - `UnsupportedLeaf` for a leaf that can't be indexed.
    ///
    /// Returns `OutOfMemory` if an allocation fails. After a fault, each call returns `IndexerFailed`
    /// and changes nothing.
    pub fn index<A: TextAnalyzer>(&mut self, call: IndexCall, analyzer: &A) -> Result<(), Fault>
        requires order { self.old.failed ≡ false → self.old.last_doc ≤ doc_of call }
        requires below { self.old.failed ≡ false → doc_of call < self.old.num_docs }
        requires takes { self.old.failed ≡ false → Takes self.old.schema (field_of call) (type_of call) }
        ensures stored { OnOk result ((ps : List Piece) → Stores self.old ps → Stores self.new (ps ++ call_pieces (A.words analyzer.now) (call_of self.old.schema call))) }
        ensures rest { OnOk result ((self.new.schema ≡ self.old.schema) × (self.new.num_docs ≡ self.old.num_docs) × (self.new.last_doc ≡ doc_of call) × (self.new.failed ≡ false)) }

        // Errors, and the state after an error.
        ensures refused { self.old.failed ≡ false → (ps : List Piece) → Stores self.old ps
            → IsRefusedBy (call_fault (A.words analyzer.now) (option_of self.old.schema (field_of call)) ps (call_of self.old.schema call)) result }
        ensures fails { OnErr result (self.new.failed ≡ true) }
        ensures failed { self.old.failed ≡ true → (result ≡ Err Fault.IndexerFailed) × (self.new ≡ self.old) }
    {
        if self.failed {
            return Err(Fault::IndexerFailed);
        }
        let expand_dots = expands_dots(&self.schema, call.field());
        self.failed = true;
        let doc = call.doc();
        let alloc = self.alloc;
        self.fields.index_call(alloc, call, expand_dots, analyzer)?;
        self.last_doc = doc;
        self.failed = false;
        Ok(())
    }

    /// Writes the files of the index, the norms first, and returns the writers.
    ///
    /// # Errors
    ///
    /// - `IndexerFailed` after a refused call. Nothing is written then.
    /// - `Write` if a writer fails.
    /// - `Limit(Offset)` if a writer would count more than `u64::MAX` bytes, or the terms of a field
    ///   reach 2^56 bytes in total.
    /// - `Limit(TermBytes)` if the postings or the positions of a term exceed `u32::MAX` bytes.
    /// - `Limit(BlockFrequencySum)` if term frequencies in a block sum up above `u32::MAX`, for a
    ///   term with positions.
    /// - `OutOfMemory` if an allocation fails.
    ///
    /// `TermBytes` and `BlockFrequencySum` are reported for the first term that exceeds either, by
    /// field and then by key. After a fault the output may have been partially appended.
    pub fn finish<W: Write>(self, writers: IndexWriters<W>) -> (IndexWriters<W>, Result<(), Fault>)
        ensures wrote { (ps : List Piece) → Stores self ps → OnOk result.1 (WroteIndex self.schema self.num_docs writers result.0 (tokens_after [] ps)) }
        ensures failures { CountsIndexFailures writers result.0 result.1 }
        ensures grow { FilesGrow writers result.0 }
        ensures fault { self.failed ≡ false → (ps : List Piece) → Stores self ps
            → IfErr result.1 (IsIndexFault self.schema self.num_docs writers (tokens_after [] ps)) }
        ensures failed { self.failed ≡ true → (result.1 ≡ Err Fault.IndexerFailed) × (result.0 ≡ writers) }
    {
        let Indexer {
            schema,
            num_docs,
            last_doc: _,
            fields,
            failed,
            alloc,
        } = self;
        if failed {
            return (writers, Err(Fault::IndexerFailed));
        }
        match fields.finish(alloc, &schema, num_docs) {
            Ok(finished) => finished.write(alloc, num_docs, &schema, writers),
            Err(fault) => (writers, Err(fault)),
        }
    }
}

// Returns whether the dots of keys are expanded in a field of a schema.
fn expands_dots(schema: &Schema, field: Field) -> bool
    requires { field < length schema.now }
    ensures { result ≡ expands_dots_in schema.now field }
{
    schema.get_field_entry(field).expands_dots()
}

/// The indexed content of all calls: the terms, the file of norms, its readers, and a copy of the
/// schema.
pub(crate) struct FinishedFields {
    pub(crate) schema: Schema,
    pub(crate) terms: IndexedTerms,
    pub(crate) norms: Bytes,
    pub(crate) readers: FieldNormReaders,
}

// Makes each drop a call.
impl Drop for FinishedFields {
    fn drop(self) {
        let FinishedFields {
            schema: _,
            terms: _,
            norms: _,
            readers: _,
        } = self;
    }
}

impl FinishedFields {
    // Writes the file of norms, the terms, and the tables of the three files of the terms.
    pub(crate) fn write<W: Write>(
        self,
        alloc: Global,
        num_docs: u32,
        schema: &Schema,
        writers: IndexWriters<W>,
    ) -> (IndexWriters<W>, Result<(), Fault>)
        requires same { self.schema ≡ schema.now }
        requires few { length schema.now < 2 ^ 32 }
        requires writers { length self.terms.writers ≡ length schema.now }
        requires read { composite self.norms ≡ Some self.readers }
        requires short { AreShortNorms self.readers }
        requires terms { MayWriteTerms schema.now self.readers self.terms.paths self.terms.terms }
        ensures holds { (ts : List IndexToken) → HoldNorms schema.now num_docs self.norms ts → HaveHeldTokens schema.now self.terms.paths self.terms.terms self.terms.writers ts
            → OnOk result.1 (WroteIndex schema.now num_docs writers result.0 ts) }

        // The writers: a failed call counts once, and earlier output is kept.
        ensures failures { CountsIndexFailures writers result.0 result.1 }
        ensures grow { FilesGrow writers result.0 }

        // Errors.
        ensures fault { (ts : List IndexToken) → HoldNorms schema.now num_docs self.norms ts → HaveHeldTokens schema.now self.terms.paths self.terms.terms self.terms.writers ts
            → IfErr result.1 (IsIndexFault schema.now num_docs writers ts) }
    {
        let FinishedFields {
            schema: copy,
            terms,
            norms,
            readers,
        } = self;
        let mut writers = writers;
        let written = write_norms(&mut writers.fieldnorms, &norms);
        if written.is_err() {
            drop(copy);
            return (writers, written);
        }
        let (ctx, per_field) = terms.into_parts();
        let IndexWriters {
            terms,
            postings,
            positions,
            fieldnorms,
        } = writers;
        let mut serializer = InvertedIndexSerializer::open(alloc, terms, postings, positions, copy);
        match serialize_postings(alloc, ctx, schema, &per_field, &readers, &mut serializer) {
            Ok(()) => {
                let (terms, postings, positions, written) = serializer.close();
                (
                    IndexWriters::new(terms, postings, positions, fieldnorms),
                    written,
                )
            }
            Err(fault) => {
                let (terms, postings, positions) = serializer.into_writers();
                (
                    IndexWriters::new(terms, postings, positions, fieldnorms),
                    Err(fault),
                )
            }
        }
    }
}

// Writes the bytes and flushes the writer.
fn write_norms<W: Write>(writer: &mut CountingWriter<W>, bytes: &[u8]) -> Result<(), Fault>
    ensures written { Writes writer.old writer.new bytes.now result }
{
    let written = writer.write_all(bytes);
    if written.is_err() {
        return written;
    }
    writer.flush()
}
