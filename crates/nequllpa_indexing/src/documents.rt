//! Documents to be indexed.
ghost use Rattle.std.specs.Prelude.{◌≡◌, ◌⊎◌, [], Err, IfErr, IfOk, IfSome, IsSomeAnd, None, OnErr, OnOk, Some, false, option_map};
ghost use Rattle.ii_io.specs.Faults.{OnlyMemory};
ghost use Rattle.ii_definitions.specs.Fields.{option_of};
ghost use Rattle.ii_definitions.specs.Files.{HoldTokens};
ghost use Rattle.ii_definitions.specs.Norms.{HoldNorms};
ghost use Rattle.ii_definitions.specs.Tokens.{tokens_of};
ghost use Rattle.ii_segments.specs.HoldCounts.{HasManyTokens, HoldCounts};
ghost use Rattle.ii_indexing.specs.Indexer.{Stores};
ghost use Rattle.ii_json.specs.LeafVisit.{IsRefusedBy};
ghost use Rattle.nequllpa_indexing.specs.Counted.{HasCounts, IsSegmentFault};
ghost use Rattle.nequllpa_indexing.specs.FieldTokens.{calls_fault_by, pieces_by, tokens_by};
ghost use Rattle.ii_indexing.specs.IndexFiles.{CountsIndexFailures, FilesGrow, IsIndexFault, WroteIndex};
ghost use Rattle.ii_indexing.specs.Refusals.{calls_fault};
ghost use Rattle.nequllpa_indexing.specs.Documents.{AddsLine, DocumentsState, IsLineFault, WereCalls, no_records};
ghost use Rattle.nequllpa_indexing.specs.StoredLines.{IsLinesFault, StoresLines};

use crate::counting::{finish_stored, index_counted};
use crate::lines::{may_be_stored, no_records, pop_record, push_record};
use crate::long_words::count_long_words;
use ii_base::{Fault, LimitName, Schema, TextAnalyzer};
use ii_counts::CountsWriter;
use ii_docset::{DocId, TERMINATED};
use ii_documents::{FloatNumbers, LineFault, line_calls_by};
use ii_indexing::{IndexCall, IndexWriters, Indexer, write_index};
use ii_schema_text::{Stored, UnknownKeys};
use ii_segment_store::SegmentFiles;
use ii_tokenizers::FieldAnalyzers;
use std::alloc::Global;
use std::io::Write;
use std::marker::Model;

/// Documents to be indexed, as the index calls of their lines, and what is stored of the lines.
///
/// Its model is the schema, the number of documents, the calls, what is stored of a line, the records that are stored
/// if something is, what happens to unknown keys and to floating-point numbers, and how many of the latter were left
/// out.
pub struct Documents {
    schema: Schema,
    num_docs: DocId,
    calls: Vec<IndexCall>,
    stored: Stored,
    lines: Option<Vec<String>>,
    unknown_keys: UnknownKeys,
    floats: FloatNumbers,
    skipped_floats: u64,
}

// Makes each drop a call.
impl Drop for Documents {
    fn drop(self) {
        let Documents {
            schema: _,
            num_docs: _,
            calls: _,
            stored: _,
            lines: _,
            unknown_keys: _,
            floats: _,
            skipped_floats: _,
        } = self;
    }
}

impl Model for Documents {
    ghost use Rattle.std.specs.Prelude.{◌≤◌, map};
    ghost use Rattle.ii_base.specs.declared.doc_id.TheConstants.{TERMINATED};
    ghost use Rattle.ii_definitions.specs.IndexCalls.{MayAllBeIndexed, call_of};
    ghost use Rattle.nequllpa_indexing.specs.Documents.{DocumentsState};
    ghost use Rattle.nequllpa_indexing.specs.StoredLines.{AreLinesOf, lines_view};

    ghost Value = { DocumentsState };

    ghost view = { λ d. record {
      schema = d.schema;
      num_docs = d.num_docs;
      calls = map (call_of d.schema) d.calls.items;
      stored = d.stored;
      lines = lines_view d.lines;
      unknown_keys = d.unknown_keys;
      floats = d.floats;
      skipped_floats = d.skipped_floats;
    } };

    ghost invariant = { λ d. (d.num_docs ≤ TERMINATED) × MayAllBeIndexed d.schema d.num_docs d.calls.items × AreLinesOf d.num_docs (lines_view d.lines) };
}

impl Documents {
    /// Creates an empty list of documents, with the fields of a schema. Nothing is stored, and lines with unknown keys
    /// or floating-point numbers are refused.
    pub fn new(alloc: Global, schema: Schema) -> Documents
        ensures { result ≡ record { schema = schema; num_docs = 0; calls = []; stored = record { is_line = false; fields = [] }; lines = None; unknown_keys = UnknownKeys.Refuse; floats = FloatNumbers.Refuse; skipped_floats = 0 } }
    {
        Documents {
            schema,
            num_docs: 0,
            calls: Vec::new(alloc),
            stored: Stored::new(alloc, false),
            lines: None,
            unknown_keys: UnknownKeys::Refuse,
            floats: FloatNumbers::Refuse,
            skipped_floats: 0,
        }
    }

    /// Creates an empty list of documents, with the fields of a schema. Of each line what `stored` says is stored, and
    /// lines with unknown keys or floating-point numbers are refused.
    pub fn storing(alloc: Global, schema: Schema, stored: Stored) -> Documents
        ensures { result ≡ record { schema = schema; num_docs = 0; calls = []; stored = stored; lines = no_records stored; unknown_keys = UnknownKeys.Refuse; floats = FloatNumbers.Refuse; skipped_floats = 0 } }
    {
        let lines = no_records(alloc, &stored);
        Documents {
            schema,
            num_docs: 0,
            calls: Vec::new(alloc),
            stored,
            lines,
            unknown_keys: UnknownKeys::Refuse,
            floats: FloatNumbers::Refuse,
            skipped_floats: 0,
        }
    }

    /// Returns the same documents. In lines that are added from now on, members whose keys are no names of fields are
    /// refused or ignored.
    pub fn with_unknown_keys(self, unknown_keys: UnknownKeys) -> Documents
        ensures { result ≡ record self { unknown_keys = unknown_keys } }
    {
        let mut documents = self;
        documents.unknown_keys = unknown_keys;
        documents
    }

    /// Returns the same documents. In lines that are added from now on, floating-point numbers in the values of JSON
    /// fields are refused or left out. In a field of another type they are always refused.
    pub fn with_floats(self, floats: FloatNumbers) -> Documents
        ensures { result ≡ record self { floats = floats } }
    {
        let mut documents = self;
        documents.floats = floats;
        documents
    }

    /// Returns the schema.
    pub fn schema(&self) -> &Schema
        ensures { result.now ≡ self.now.schema }
    {
        &self.schema
    }

    /// Returns what happens to members whose keys are no names of fields.
    pub fn unknown_keys(&self) -> UnknownKeys
        ensures { result ≡ self.now.unknown_keys }
    {
        self.unknown_keys
    }

    /// Returns what happens to floating-point numbers in the values of JSON fields.
    pub fn floats(&self) -> FloatNumbers
        ensures { result ≡ self.now.floats }
    {
        self.floats
    }

    /// Returns how many floating-point numbers were left out of the lines, at most 2^64 - 1.
    pub fn skipped_floats(&self) -> u64
        ensures { result ≡ self.now.skipped_floats }
    {
        self.skipped_floats
    }

    /// Returns the number of documents, at most `TERMINATED`. The documents' calls may be indexed in
    /// order.
    pub fn num_docs(&self) -> DocId
        ensures number { result ≡ self.now.num_docs }
        ensures calls { WereCalls self.now.schema self.now.num_docs self.now.calls }
    {
        self.num_docs
    }

    /// Adds the document of a line of JSON (`line_calls_by`), and its record (`record_of`) if something is stored.
    ///
    /// Returns `TooManyDocuments` if there are `TERMINATED` documents; `TooLong` for a line of 2^31 bytes or more, if
    /// complete lines are stored; the fault of the line; `TooLong` for a record of 2^31 bytes or more; or `OutOfMemory`
    /// if an allocation fails. The documents are then unchanged.
    pub fn push_line(&mut self, alloc: Global, line: &str) -> Result<(), LineFault>
        ensures ok { OnOk result (AddsLine self.old self.new line.now) }
        ensures err { OnErr result (self.new ≡ self.old) }
        ensures refused { IfErr result (λ e. IsLineFault e self.old line.now) }
    {
        if self.num_docs >= TERMINATED {
            return Err(LineFault::TooManyDocuments);
        }
        if !may_be_stored(&self.stored, line) {
            return Err(LineFault::TooLong);
        }
        let read = line_calls_by(
            alloc,
            &self.schema,
            self.unknown_keys,
            self.floats,
            self.num_docs,
            line,
        )?;
        let skipped_floats = read.skipped_floats;
        let mut calls = read.calls;
        push_record(alloc, &self.schema, &self.stored, &mut self.lines, line)?;
        if self.calls.append(&mut calls).is_err() {
            pop_record(&mut self.lines);
            return Err(LineFault::OutOfMemory);
        }
        self.num_docs += 1;
        self.skipped_floats = self.skipped_floats.saturating_add(skipped_floats);
        Ok(())
    }

    /// Returns how many words of the documents are too long to be indexed (`count_long_words`).
    /// Returns `OutOfMemory` if allocation fails.
    pub fn num_long_words<F: FieldAnalyzers>(
        &self,
        alloc: Global,
        analyzers: &F,
    ) -> Result<u64, Fault>
        ensures only { OnlyMemory result }
    {
        count_long_words(alloc, analyzers, self.calls.as_slice())
    }

    // Indexes the documents, with the texts of each field split by its analyzer, and counts the tokens of each.
    pub(crate) fn indexed<F: FieldAnalyzers>(
        self,
        alloc: Global,
        analyzers: &F,
    ) -> Result<(Indexer, CountsWriter), Fault>
        ensures stored { IfOk result (λ r. Stores r.0 (pieces_by (F.words analyzers.now) self.calls)) }
        ensures rest { IfOk result (λ r. (r.0.schema ≡ self.schema) × (r.0.num_docs ≡ self.num_docs) × (r.0.failed ≡ false)) }
        ensures counted { IfOk result (λ r. HasCounts self.schema (tokens_by (F.words analyzers.now) self.calls) r.1) }
        ensures refused { IsRefusedBy (calls_fault_by (F.words analyzers.now) (option_of self.schema) [] self.calls) result }
    {
        let Documents {
            schema,
            num_docs,
            calls,
            stored: _,
            lines: _,
            unknown_keys: _,
            floats: _,
            skipped_floats: _,
        } = self;
        index_counted(alloc, schema, num_docs, calls, analyzers)
    }

    /// Writes the files of an index of the documents, with all texts split by `analyzer`, and returns the
    /// writers. If the calls have a fault, the writers are unchanged. See `write_index` for the
    /// faults. Lines aren't written.
    pub fn write<A: TextAnalyzer, W: Write>(
        self,
        alloc: Global,
        analyzer: &A,
        writers: IndexWriters<W>,
    ) -> (IndexWriters<W>, Result<(), Fault>)
        ensures wrote { OnOk result.1 (WroteIndex self.schema self.num_docs writers result.0 (tokens_of (A.words analyzer.now) self.calls)) }
        ensures failures { CountsIndexFailures writers result.0 result.1 }
        ensures grow { FilesGrow writers result.0 }
        ensures refused { IfSome (calls_fault (A.words analyzer.now) (option_of self.schema) [] self.calls)
            (λ fault. ((result.1 ≡ Err fault) ⊎ (result.1 ≡ Err Fault.OutOfMemory)) × (result.0 ≡ writers)) }
        ensures fault { calls_fault (A.words analyzer.now) (option_of self.schema) [] self.calls ≡ None
            → IfErr result.1 (IsIndexFault self.schema self.num_docs writers (tokens_of (A.words analyzer.now) self.calls)) }
    {
        let Documents {
            schema,
            num_docs,
            calls,
            stored: _,
            lines: _,
            unknown_keys: _,
            floats: _,
            skipped_floats: _,
        } = self;
        write_index(alloc, schema, num_docs, calls, analyzer, writers)
    }

    /// Builds the files of a segment of the documents, with the texts of each field split by its analyzer. They
    /// hold exactly the tokens of the documents' calls, their norms, how many tokens each document has in each field,
    /// and what is stored of their lines.
    ///
    /// # Errors
    ///
    /// The first fault of the calls (`Indexer::index`). Otherwise `Limit(Tokens)` if a document has 2^32 - 1
    /// tokens in a field, or more; a limit of the written files (`Indexer::finish`); `Limit(Offset)` if the file of
    /// lines would have 2^64 bytes or more; or `OutOfMemory`.
    pub fn into_segment<F: FieldAnalyzers>(
        self,
        alloc: Global,
        analyzers: &F,
    ) -> Result<SegmentFiles, Fault>
        ensures docs { IfOk result (λ f. f.num_docs ≡ self.num_docs) }
        ensures holds { IfOk result (λ f. HoldTokens (option_of self.schema) f.terms.items f.postings.items f.positions.items (tokens_by (F.words analyzers.now) self.calls)) }
        ensures norms { IfOk result (λ f. HoldNorms self.schema self.num_docs f.fieldnorms.items (tokens_by (F.words analyzers.now) self.calls)) }
        ensures counts { IfOk result (λ f. IsSomeAnd f.counts (λ v. HoldCounts self.schema self.num_docs v.items (tokens_by (F.words analyzers.now) self.calls))) }
        ensures lines { IfOk result (λ f. StoresLines self.lines (option_map (λ v. v.items) f.store)) }

        // Errors.
        ensures refused { IfSome (calls_fault_by (F.words analyzers.now) (option_of self.schema) [] self.calls) (λ fault. (result ≡ Err fault) ⊎ (result ≡ Err Fault.OutOfMemory)) }
        ensures many { calls_fault_by (F.words analyzers.now) (option_of self.schema) [] self.calls ≡ None → HasManyTokens self.schema (tokens_by (F.words analyzers.now) self.calls)
            → (result ≡ Err (Fault.Limit LimitName.Tokens)) ⊎ (result ≡ Err Fault.OutOfMemory) }
        ensures fault { calls_fault_by (F.words analyzers.now) (option_of self.schema) [] self.calls ≡ None
            → IfErr result (λ e. IsSegmentFault self.schema self.num_docs (tokens_by (F.words analyzers.now) self.calls) e ⊎ IsLinesFault self.lines e) }
    {
        let mut documents = self;
        let num_docs = documents.num_docs;
        let lines = documents.lines.take();
        match documents.indexed(alloc, analyzers) {
            Ok(indexed) => finish_stored(alloc, num_docs, indexed.0, indexed.1, lines),
            Err(fault) => Err(fault),
        }
    }
}
