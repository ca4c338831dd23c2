ghost use Rattle.std.specs.Prelude.{◌≡◌, ◌<◌, ◌≤◌, ◌^◌, ◌∷◌, ◌++◌, [], List, ℕ, true, false, length, map, IfOk, OnErr, OnOk, Some, ◌+◌};
ghost use Rattle.ii_io.specs.Composite.{composite};
ghost use Rattle.ii_io.specs.Faults.{OnlyMemory};
ghost use Rattle.ii_base.specs.Schema.{SchemaEntry, keeps_norms};
ghost use Rattle.ii_base.specs.declared.doc_id.TheConstants.{TERMINATED};
ghost use Rattle.ii_definitions.specs.Tokens.{IndexToken, Piece, at_path, text_at, value_at, call_pieces, end_after, kept_words, piece_tokens_from, value_token};
ghost use Rattle.ii_definitions.specs.Fields.{option_of};
ghost use Rattle.ii_base.specs.Paths.{has_zero};
ghost use Rattle.ii_base.specs.Values.{json_key, typed_key};
ghost use Rattle.ii_base.specs.declared.schema.value_type.ValueType.TheVariants.{Json};
ghost use Rattle.ii_json.specs.LeafVisit.{is_number_type, IsRefusedBy};
ghost use Rattle.ii_definitions.specs.IndexCalls.{Takes, call_with, content_of, doc_of, field_of, type_of};
ghost use Rattle.ii_indexing.specs.IndexedTerms.{TakesTexts, TakesValue, StoresTokens, value_fault};
ghost use Rattle.ii_postings_writer.specs.FieldParts.{AreShortNorms};
ghost use Rattle.ii_indexing.specs.Indexer.{EndsAt, StoresAll, StoresPieces, StoresSome};
ghost use Rattle.ii_definitions.specs.Norms.{HoldNorms};
ghost use Rattle.ii_indexing.specs.OpenDocuments.{HaveNormsOf, TellsAll, with_norms};
ghost use Rattle.ii_indexing.specs.OpenPaths.{IsKnownBy, text_prefix};
ghost use Rattle.ii_indexing.specs.Refusals.{piece_fault, content_fault};
ghost use Rattle.ii_postings_writer.specs.IndexingContext.{AllEndBy};
ghost use Rattle.ii_postings_writer.specs.PostingsWriter.{text_fault, writers_of};
ghost use Rattle.ii_json.specs.Paths.{AreDistinct, path_fault, path_id, with_path};

use crate::indexer::FinishedFields;
use crate::json_keys::{held_number, held_text};
use crate::json_utils::index_json_value;
use crate::open_documents::{OpenDocument, OpenDocuments};
use crate::open_paths::OpenPaths;
use ii_base::{DocId, Fault, Field, Schema, TextAnalyzer, TokenStream, ValueType};
use ii_definitions::IndexCall;
use ii_fieldnorm::FieldNormReaders;
use ii_postings_writer::{
    IndexingContext, IndexingPosition, IndexingTerm, PerFieldPostingsWriter, PostingsWriter,
};
use std::alloc::Global;
use std::marker::Model;

/// The terms of all fields of a schema, and the open document of each field.
pub struct IndexedFields {
    terms: IndexedTerms,
    pub(crate) documents: OpenDocuments,
    paths: OpenPaths,
}

// Makes each drop a call.
impl Drop for IndexedFields {
    fn drop(self) {
        let IndexedFields {
            terms: _,
            documents: _,
            paths: _,
        } = self;
    }
}

impl Model for IndexedFields {
    ghost use Rattle.ii_indexing.specs.Indexer.{IndexedFieldsState};

    ghost Value = { IndexedFieldsState };

    ghost view = { λ f. record { indexed = f.terms; opened = f.documents; paths = f.paths } };
}

impl IndexedFields {
    /// Creates a state without terms for the fields of a schema. Returns `OutOfMemory` if an
    /// allocation fails.
    pub fn new(alloc: Global, schema: &Schema) -> Result<IndexedFields, Fault>
        ensures stored { IfOk result (λ f. StoresAll schema.now f []) }
        ensures ends { IfOk result (EndsAt 0) }
        ensures none { IfOk result (λ f. f.indexed.terms ≡ []) }
        ensures fields { IfOk result (λ f. length f.indexed.writers ≡ length schema.now) }
        ensures norms { IfOk result (λ f. with_norms f.opened.norms ≡ map keeps_norms schema.now) }
        ensures few { IfOk result (λ f. length schema.now < 2 ^ 32) }
        ensures only { OnlyMemory result }
    {
        Ok(IndexedFields {
            terms: IndexedTerms::new(alloc, schema)?,
            documents: OpenDocuments::new(alloc, schema)?,
            paths: OpenPaths::new(alloc, schema)?,
        })
    }

    // Returns the terms, and the norms of `num_docs` documents.
    pub(crate) fn finish(
        self,
        alloc: Global,
        schema: &Schema,
        num_docs: DocId,
    ) -> Result<FinishedFields, Fault>
        requires docs { num_docs ≤ TERMINATED }
        requires few { length schema.now < 2 ^ 32 }
        requires documents { length self.opened.documents ≡ length schema.now }
        requires norms { with_norms self.opened.norms ≡ map keeps_norms schema.now }
        requires some { StoresSome schema.now self }

        // The finished fields.
        ensures schema { IfOk result (λ f. f.schema ≡ schema.now) }
        ensures terms { IfOk result (λ f. f.terms ≡ self.indexed) }
        ensures norms { IfOk result (λ f. (ps : List Piece) (ts : List IndexToken) → TellsAll ps ts self.opened → HoldNorms schema.now num_docs f.norms ts) }
        ensures read { IfOk result (λ f. composite f.norms ≡ Some f.readers) }
        ensures short { IfOk result (λ f. AreShortNorms f.readers) }
        ensures many { IfOk result (λ f. HaveNormsOf num_docs f.readers) }

        // Errors.
        ensures only { OnlyMemory result }
    {
        let IndexedFields {
            terms,
            documents,
            paths: _,
        } = self;
        let norms = documents.finish(alloc, num_docs)?;
        let readers = FieldNormReaders::open(alloc, norms.clone()?)?;
        Ok(FinishedFields {
            schema: schema.clone()?,
            terms,
            norms,
            readers,
        })
    }

    // Indexes the remaining words of a stream.
    pub(crate) fn index_words<S: TokenStream>(
        &mut self,
        doc: DocId,
        field: Field,
        tokens: &mut S,
    ) -> Result<(), Fault>
        requires low { doc < TERMINATED }
        requires known { field < length self.old.indexed.writers }
        requires ends { EndsAt doc self.old }
        ensures stored { OnOk result ((entries : List SchemaEntry) (ps : List Piece) → TakesTexts entries self.old.indexed.paths field [] [] → StoresPieces entries self.old ps → StoresPieces entries self.new (ps ++ text_at doc field [] (S.to_come tokens.old) ∷ [])) }

        // Preconditions of the next call.
        ensures ends { OnOk result (EndsAt doc self.new) }
        ensures fields { OnOk result (length self.new.indexed.writers ≡ length self.old.indexed.writers) }
        ensures norms { OnOk result (with_norms self.new.opened.norms ≡ with_norms self.old.opened.norms) }
        ensures same_paths { OnOk result (self.new.indexed.paths ≡ self.old.indexed.paths) }

        // Errors.
        ensures refused { (entries : List SchemaEntry) (ps : List Piece) → TakesTexts entries self.old.indexed.paths field [] [] → StoresPieces entries self.old ps → IsRefusedBy (piece_fault (option_of entries field) ps (text_at doc field [] (S.to_come tokens.old))) result }
    {
        let open = self.documents.open(doc, field)?;
        let mut position = IndexingPosition {
            num_tokens: open.num_tokens,
            end_position: open.end_position,
        };
        self.terms
            .index_text(doc, field, &[], tokens, &mut position)?;
        let document = OpenDocument {
            doc,
            num_tokens: position.num_tokens,
            end_position: position.end_position,
            norm: open
                .norm
                .saturating_add(position.num_tokens - open.num_tokens),
        };
        self.documents.put(field, document);
        Ok(())
    }

    // Indexes the remaining words of a stream, as a text at the path with this id.
    fn index_words_at<S: TokenStream>(
        &mut self,
        doc: DocId,
        field: Field,
        path_id: u32,
        tokens: &mut S,
    ) -> Result<(), Fault>
        requires low { doc < TERMINATED }
        requires known { field < length self.old.indexed.writers }
        requires ends { EndsAt doc self.old }
        ensures stored { OnOk result ((entries : List SchemaEntry) (ps : List Piece) (path : List ℕ) → Takes entries field Json → IsKnownBy self.old.indexed.paths path path_id → StoresPieces entries self.old ps
            → StoresPieces entries self.new (ps ++ text_at doc field (text_prefix path) (S.to_come tokens.old) ∷ [])) }

        // Preconditions of the next call.
        ensures ends { OnOk result (EndsAt doc self.new) }
        ensures fields { OnOk result (length self.new.indexed.writers ≡ length self.old.indexed.writers) }
        ensures norms { OnOk result (with_norms self.new.opened.norms ≡ with_norms self.old.opened.norms) }
        ensures same_paths { OnOk result (self.new.indexed.paths ≡ self.old.indexed.paths) }

        // Errors.
        ensures refused { (entries : List SchemaEntry) (ps : List Piece) (path : List ℕ) → Takes entries field Json → IsKnownBy self.old.indexed.paths path path_id → StoresPieces entries self.old ps
            → IsRefusedBy (piece_fault (option_of entries field) ps (text_at doc field (text_prefix path) (S.to_come tokens.old))) result }
    {
        let held = held_text(path_id);
        let open = self.documents.open(doc, field)?;
        let mut position = self.paths.open(doc, field, path_id);
        let num_tokens = position.num_tokens;
        self.terms
            .index_text(doc, field, &held, tokens, &mut position)?;
        let document = OpenDocument {
            doc,
            num_tokens: open.num_tokens,
            end_position: open.end_position,
            norm: open.norm.saturating_add(position.num_tokens - num_tokens),
        };
        self.documents.put(field, document);
        self.paths.put(field, path_id, position)
    }

    // Indexes the words of a text at a path of a JSON field. The path holds no byte 0.
    pub(crate) fn index_text_at<S: TokenStream>(
        &mut self,
        doc: DocId,
        field: Field,
        path: &str,
        tokens: &mut S,
    ) -> Result<(), Fault>
        requires low { doc < TERMINATED }
        requires known { field < length self.old.indexed.writers }
        requires ends { EndsAt doc self.old }
        requires path { has_zero path.now ≡ false }
        ensures stored { OnOk result ((entries : List SchemaEntry) (ps : List Piece) → Takes entries field Json → StoresAll entries self.old ps
            → StoresAll entries self.new (ps ++ at_path path.now (text_at doc field (text_prefix path.now) (S.to_come tokens.old)) ∷ [])) }

        // Preconditions of the next call.
        ensures ends { OnOk result (EndsAt doc self.new) }
        ensures fields { OnOk result (length self.new.indexed.writers ≡ length self.old.indexed.writers) }
        ensures norms { OnOk result (with_norms self.new.opened.norms ≡ with_norms self.old.opened.norms) }

        // Errors.
        ensures refused { (entries : List SchemaEntry) (ps : List Piece) → Takes entries field Json → StoresAll entries self.old ps
            → IsRefusedBy (piece_fault (option_of entries field) ps (at_path path.now (text_at doc field (text_prefix path.now) (S.to_come tokens.old)))) result }
    {
        let path_id = self.terms.path_id(path)?;
        self.index_words_at(doc, field, path_id, tokens)
    }

    // Indexes a number at a path of a JSON field. The path holds no byte 0.
    pub(crate) fn index_number_at(
        &mut self,
        doc: DocId,
        field: Field,
        path: &str,
        value_type: ValueType,
        number: u64,
    ) -> Result<(), Fault>
        requires low { doc < TERMINATED }
        requires known { field < length self.old.indexed.writers }
        requires ends { EndsAt doc self.old }
        requires path { has_zero path.now ≡ false }
        requires number { is_number_type value_type ≡ true }
        ensures stored { OnOk result ((entries : List SchemaEntry) (ps : List Piece) → Takes entries field Json → StoresAll entries self.old ps
            → StoresAll entries self.new (ps ++ at_path path.now (value_at doc field (json_key path.now (typed_key value_type number))) ∷ [])) }

        // Preconditions of the next call.
        ensures ends { OnOk result (EndsAt doc self.new) }
        ensures fields { OnOk result (length self.new.indexed.writers ≡ length self.old.indexed.writers) }
        ensures norms { OnOk result (with_norms self.new.opened.norms ≡ with_norms self.old.opened.norms) }

        // Errors.
        ensures refused { (entries : List SchemaEntry) (ps : List Piece) → Takes entries field Json → StoresAll entries self.old ps
            → IsRefusedBy (piece_fault (option_of entries field) ps (at_path path.now (value_at doc field (json_key path.now (typed_key value_type number))))) result }
    {
        let path_id = self.terms.path_id(path)?;
        let held = held_number(path_id, value_type, number);
        self.index_value(doc, field, &held)
    }

    // Indexes a value by its key as terms hold it.
    pub(crate) fn index_value(&mut self, doc: DocId, field: Field, held: &[u8]) -> Result<(), Fault>
        requires low { doc < TERMINATED }
        requires known { field < length self.old.indexed.writers }
        requires ends { EndsAt doc self.old }
        ensures stored { OnOk result ((entries : List SchemaEntry) (ps : List Piece) (key : List ℕ) → TakesValue entries self.old.indexed.paths field held.now key → StoresPieces entries self.old ps
            → StoresPieces entries self.new (ps ++ value_at doc field key ∷ [])) }

        // Preconditions of the next call.
        ensures ends { OnOk result (EndsAt doc self.new) }
        ensures fields { OnOk result (length self.new.indexed.writers ≡ length self.old.indexed.writers) }
        ensures norms { OnOk result (with_norms self.new.opened.norms ≡ with_norms self.old.opened.norms) }
        ensures same_paths { OnOk result (self.new.indexed.paths ≡ self.old.indexed.paths) }

        // Errors.
        ensures refused { (entries : List SchemaEntry) (ps : List Piece) (key : List ℕ) → TakesValue entries self.old.indexed.paths field held.now key → StoresPieces entries self.old ps
            → IsRefusedBy (piece_fault (option_of entries field) ps (value_at doc field key)) result }
    {
        let open = self.documents.open(doc, field)?;
        self.terms.index_value(doc, field, held)?;
        let document = OpenDocument {
            doc,
            num_tokens: open.num_tokens,
            end_position: open.end_position,
            norm: open.norm.saturating_add(1),
        };
        self.documents.put(field, document);
        Ok(())
    }

    // Indexes a call to a field. `expand_dots` says whether the dots of keys are expanded.
    pub(crate) fn index_call<A: TextAnalyzer>(
        &mut self,
        alloc: Global,
        call: IndexCall,
        expand_dots: bool,
        analyzer: &A,
    ) -> Result<(), Fault>
        requires low { doc_of call < TERMINATED }
        requires known { field_of call < length self.old.indexed.writers }
        requires ends { EndsAt (doc_of call) self.old }
        ensures stored { OnOk result ((entries : List SchemaEntry) (ps : List Piece) → Takes entries (field_of call) (type_of call) → StoresAll entries self.old ps
            → StoresAll entries self.new (ps ++ call_pieces (A.words analyzer.now) (call_with expand_dots call))) }

        // Preconditions of the next call.
        ensures ends { OnOk result (EndsAt (doc_of call) self.new) }
        ensures fields { OnOk result (length self.new.indexed.writers ≡ length self.old.indexed.writers) }
        ensures norms { OnOk result (with_norms self.new.opened.norms ≡ with_norms self.old.opened.norms) }

        // Errors.
        ensures refused { (entries : List SchemaEntry) (ps : List Piece) → Takes entries (field_of call) (type_of call) → StoresAll entries self.old ps
            → IsRefusedBy (content_fault (A.words analyzer.now) (option_of entries (field_of call)) ps (call_with expand_dots call) (content_of expand_dots call)) result }
    {
        let number = call.number();
        match call {
            IndexCall::Text(doc, field, text) => {
                let mut tokens = analyzer.token_stream(alloc, text.as_str())?;
                self.index_words(doc, field, &mut tokens)
            }
            IndexCall::Tokens(doc, field, tokens) => {
                let mut tokens = tokens;
                self.index_words(doc, field, &mut tokens)
            }
            IndexCall::U64(doc, field, _) => { self.index_value(doc, field, &number.to_be_bytes()) }
            IndexCall::I64(doc, field, _) => { self.index_value(doc, field, &number.to_be_bytes()) }
            IndexCall::Bool(doc, field, _) => {
                self.index_value(doc, field, &number.to_be_bytes())
            }
            IndexCall::Date(doc, field, _) => {
                self.index_value(doc, field, &number.to_be_bytes())
            }
            IndexCall::Bytes(doc, field, bytes) => self.index_value(doc, field, &bytes),
            IndexCall::Ip(doc, field, address) => {
                self.index_value(doc, field, &address.to_be_bytes())
            }
            IndexCall::Json(doc, field, value) => {
                index_json_value(alloc, self, doc, field, &value, expand_dots, analyzer)
            }
        }
    }
}

/// The terms of all fields, the writer of each field, and a term that is reused.
pub(crate) struct IndexedTerms {
    ctx: IndexingContext,
    writers: PerFieldPostingsWriter,
    term: IndexingTerm,
}

// Makes each drop a call.
impl Drop for IndexedTerms {
    fn drop(self) {
        let IndexedTerms {
            ctx: _,
            writers: _,
            term: _,
        } = self;
    }
}

impl Model for IndexedTerms {
    ghost use Rattle.ii_indexing.specs.IndexedTerms.{IndexedTermsState};

    ghost Value = { IndexedTermsState };

    ghost view = { λ t. record { terms = t.ctx.term_index; paths = t.ctx.path_to_unordered_id; writers = t.writers } };
}

impl IndexedTerms {
    // Creates a state without terms.
    pub(crate) fn new(alloc: Global, schema: &Schema) -> Result<IndexedTerms, Fault>
        ensures ok { IfOk result (λ terms. terms ≡ record { terms = []; paths = []; writers = writers_of schema.now }) }
        ensures only { OnlyMemory result }
    {
        let writers = PerFieldPostingsWriter::for_schema(alloc, schema)?;
        let term = match IndexingTerm::with_capacity(alloc, 0) {
            Ok(term) => term,
            Err(fault) => {
                drop(writers);
                return Err(fault);
            }
        };
        Ok(IndexedTerms {
            ctx: IndexingContext::new(alloc),
            writers,
            term,
        })
    }

    // Returns the unordered id of a path. A new path gets one.
    pub(crate) fn path_id(&mut self, path: &str) -> Result<u32, Fault>
        ensures ok { IfOk result (λ id. id ≡ path_id self.old.paths path.now) }
        ensures known { OnOk result (self.new ≡ record self.old { paths = with_path self.old.paths path.now }) }
        ensures distinct { AreDistinct self.new.paths }
        ensures refused { IsRefusedBy (path_fault self.old.paths path.now) result }
    {
        self.ctx
            .path_to_unordered_id
            .get_or_allocate_unordered_id(path)
    }

    // Indexes the words of a text of a field. `held` is the prefix of their keys as terms hold it.
    pub(crate) fn index_text<S: TokenStream>(
        &mut self,
        doc: DocId,
        field: Field,
        held: &[u8],
        token_stream: &mut S,
        position: &mut IndexingPosition,
    ) -> Result<(), Fault>
        requires low { doc < TERMINATED }
        requires known { field < length self.old.writers }
        requires ends { AllEndBy doc self.old.terms }
        ensures stored { OnOk result ((entries : List SchemaEntry) (ts : List IndexToken) → (prefix : List ℕ) → TakesTexts entries self.old.paths field held.now prefix → StoresTokens entries self.old ts
            → StoresTokens entries self.new (ts ++ piece_tokens_from true position.old.end_position (text_at doc field prefix (S.to_come token_stream.old)))) }

        // Preconditions of the next call.
        ensures ends { OnOk result (AllEndBy doc self.new.terms) }
        ensures fields { length self.new.writers ≡ length self.old.writers }
        ensures paths { self.new.paths ≡ self.old.paths }
        ensures num_tokens { OnOk result (position.new.num_tokens ≡ position.old.num_tokens + length (kept_words (S.to_come token_stream.old))) }
        ensures end_position { OnOk result (position.new.end_position ≡ end_after position.old.end_position (S.to_come token_stream.old)) }

        // Errors.
        ensures refused { (entries : List SchemaEntry) (ts : List IndexToken) → (prefix : List ℕ) → TakesTexts entries self.old.paths field held.now prefix → StoresTokens entries self.old ts
            → IsRefusedBy (text_fault (option_of entries field) (text_at doc field prefix (S.to_come token_stream.old)) position.old ts) result }
    {
        self.term.clear_with_field(field);
        self.term.set_bytes(held)?;
        let writer = self.writers.get_for_field_mut(field);
        writer.index_text(doc, token_stream, &mut self.term, &mut self.ctx, position)
    }

    // Indexes a value of a field. `held` is its key as terms hold it.
    pub(crate) fn index_value(&mut self, doc: DocId, field: Field, held: &[u8]) -> Result<(), Fault>
        requires low { doc < TERMINATED }
        requires known { field < length self.old.writers }
        requires ends { AllEndBy doc self.old.terms }
        ensures stored { OnOk result ((entries : List SchemaEntry) (ts : List IndexToken) → (key : List ℕ) → TakesValue entries self.old.paths field held.now key → StoresTokens entries self.old ts
            → StoresTokens entries self.new (ts ++ value_token (value_at doc field key) ∷ [])) }

        // Preconditions of the next call.
        ensures ends { OnOk result (AllEndBy doc self.new.terms) }
        ensures fields { length self.new.writers ≡ length self.old.writers }
        ensures paths { self.new.paths ≡ self.old.paths }

        // Errors.
        ensures refused { (entries : List SchemaEntry) (ts : List IndexToken) → (key : List ℕ) → TakesValue entries self.old.paths field held.now key → StoresTokens entries self.old ts
            → IsRefusedBy (value_fault field ts) result }
    {
        // Shows the proof that the field fits in 32 bits.
        let _field = field.field_id();
        self.term.clear_with_field(field);
        self.term.set_bytes(held)?;
        let writer = self.writers.get_for_field_mut(field);
        writer.subscribe(doc, 0, &self.term, &mut self.ctx)
    }

    // Returns the terms with their paths, and the writers.
    pub(crate) fn into_parts(self) -> (IndexingContext, PerFieldPostingsWriter)
        ensures terms { result.0.term_index ≡ self.terms }
        ensures paths { result.0.path_to_unordered_id ≡ self.paths }
        ensures writers { result.1 ≡ self.writers }
    {
        let IndexedTerms {
            ctx,
            writers,
            term: _,
        } = self;
        (ctx, writers)
    }
}
