//! An open index.
ghost use Rattle.std.specs.Prelude.{◌≡◌, ◌⊎◌, ◌+◌, ◌<◌, ◌≤◌, ◌/◌, ◌↔◌, [], ℕ, IfErr, IfOk, IfSome, IsSome, IsTrue, List, None, Ok, OnOk, Some, length, map};
ghost use Rattle.ii_base.specs.Schema.{SchemaEntry};
ghost use Rattle.ii_definitions.specs.Tokens.{IndexToken};
ghost use Rattle.ii_directory.specs.Directory.{Files, Obeys, is_obeyed};
ghost use Rattle.ii_store.specs.Faults.{IsRefused};
ghost use Rattle.ii_directory.specs.declared.name.Name.TheVariants.{Meta};
ghost use Rattle.ii_index.specs.Deletes.{HaveFieldsBelow, HoldsIndexOfSegment, committed};
ghost use Rattle.ii_index.specs.Faults.{IsAddError, IsCommitError, IsCreateError, IsDirectoryFault, IsDocumentsFault, IsReadError, IsRefusedError};
ghost use Rattle.ii_index.specs.Index.{IsIndexSchema, IsNewSchema, IsOpenFault, IsSchemaFault, flushed_docs, new_schema};
ghost use Rattle.ii_index.specs.Pending.{ArePending};
ghost use Rattle.ii_base.specs.declared.doc_id.TheConstants.{TERMINATED};
ghost use Rattle.ii_index.specs.Ranking.{SearcherHolds};
ghost use Rattle.ii_index.specs.Searching.{OpensIndex};
ghost use Rattle.ii_index.specs.Segments.{HaveLines, HoldsIndexOf, no_documents, segment_of, with_tokens};
ghost use Rattle.ii_io.specs.Faults.{OnlyMemory};
ghost use Rattle.ii_query_parser.specs.QueryTexts.{IsQueryOfTextBy, field_named};
ghost use Rattle.ii_schema_text.specs.SchemaText.{AnswersFromText, tokenized_schema};
ghost use Rattle.ii_segment_store.specs.Contents.{files_contents, index_contents};
ghost use Rattle.ii_store.specs.Collect.{CountsGarbage, HasNoGarbage, KeepsOthers};
ghost use Rattle.ii_store.specs.Index.{Fails};
ghost use Rattle.ii_store.specs.IndexMeta.{MetaState};
ghost use Rattle.ii_store.specs.Segments.{list_in};
ghost use Rattle.ii_tokenizers.specs.Tokenizers.{analyzed_in, prefix_tokenizer};
ghost use Rattle.nequllpa_merging.specs.HeldSegments.{HoldsSegment};
ghost use Rattle.nequllpa_merging.specs.Joins.{IsJoinFault, IsRefusedJoin};

use crate::committing::commit_documents;
use crate::deletes::Delete;
use crate::faults::IndexError;
use crate::flushing::{Flushed, flush_documents};
use crate::index_reader::{IndexReader, Searcher};
use crate::index_writer::IndexWriter;
use crate::locked_folder::WritableDirectory;
use crate::opening::open_searcher;
use crate::segments::{documents_for, segment_of};
use ii_base::{Fault, Field, Schema};
use ii_directory::{Directory, Name};
use ii_query_parser::{Query, QueryParserError, field_named, parse_query_by};
use ii_schema_text::{SchemaFault, TextSchema, new_schema_text, read_text_schema};
use ii_segment_store::{SegmentFiles, collect_garbage, load_latest, replace_index};
use ii_store::StoreFault;
use ii_store::segments::load_meta;
use ii_tokenizers::FieldTokenizers;
use nequllpa_indexing::Documents;
use nequllpa_merging::{JoinFault, merge_last};
use std::alloc::Global;
use std::marker::Model;

// About how many bytes of memory a document takes, and then its segment, for each byte of its text.
const MEMORY_PER_BYTE: usize = 5;

/// An index in a directory: a `Folder`, or a `MemoryDirectory`. It can be written in a `WritableDirectory`: a folder
/// whose lock this program holds (`LockedFolder`), or a `MemoryDirectory`.
///
/// Its model is its directory and its schema.
pub struct Index<D: Directory + Drop> {
    directory: D,
    schema: TextSchema,
}

// Makes each drop a call.
impl<D: Directory + Drop> Drop for Index<D> {
    fn drop(self) {
        let Index {
            directory: _,
            schema: _,
        } = self;
    }
}

impl<D: Directory + Drop> Model for Index<D> {
    ghost use Rattle.ii_index.specs.Index.{IndexState};

    ghost Value = { IndexState D };

    ghost view = { λ i. record { directory = i.directory; schema = i.schema } };
}

impl<D: WritableDirectory + Drop> Index<D> {
    /// Creates an index without documents in a directory that has none. `schema` is a text in TOML with a table
    /// `[[field]]` for each field; fields of texts that name no tokenizer have the tokenizer `default`.
    ///
    /// # Errors
    ///
    /// `IndexAlreadyExists` if the directory has a file `meta`; `Schema` if the text is no schema; `Commit` if the
    /// index can't be written. `Store` if the directory can't be read, and `Documents` if an allocation failed.
    pub fn create(alloc: Global, directory: D, schema: &str) -> Result<Index<D>, IndexError>
        ensures known { D.is_known directory → IfOk result (λ index. D.is_known index.directory) }
        ensures new { D.is_known directory → IfOk result (λ index. D.seen directory Meta ≡ None) }
        ensures schema { IfOk result (λ index. IsNewSchema schema.now index.schema) }
        ensures empty { D.is_known directory → IfOk result (λ index. HoldsIndexOf index.schema.schema (D.seen index.directory) 0 []) }
        ensures fault { D.is_known directory → IfErr result (λ e. IsCreateError e schema.now (D.seen directory)) }
        ensures obeyed { D.is_known directory → is_obeyed IsRefusedError (D.may_refuse directory) result }
        ensures still { D.is_known directory → IfOk result (λ index. D.may_refuse index.directory → D.may_refuse directory) }
    {
        match has_index(alloc, &directory) {
            Ok(false) => create_in(alloc, directory, schema),
            Ok(true) => Err(IndexError::IndexAlreadyExists),
            Err(fault) => Err(IndexError::Store(fault)),
        }
    }

    /// Returns a writer of this index, to which no documents were added.
    ///
    /// `memory_budget` is the number of bytes of memory that documents may take before they are committed: once they
    /// do, `IndexWriter::add_document` writes them as a segment. A document takes about 5 bytes for each byte of its
    /// text. With 0 each document becomes a segment.
    ///
    /// Returns `OutOfMemory` if an allocation fails.
    pub fn writer(self, alloc: Global, memory_budget: usize) -> Result<IndexWriter<D>, Fault>
        ensures ok { IfOk result (λ w. w ≡ record { index = self; flushed = None; documents = no_documents self.schema; num_bytes = 0; max_bytes = memory_budget / 5; deletes = [] }) }
        ensures only { OnlyMemory result }
    {
        let documents = match documents_for(alloc, &self.schema) {
            Ok(documents) => documents,
            Err(fault) => return Err(fault),
        };
        let max_bytes = memory_budget / MEMORY_PER_BYTE;
        Ok(IndexWriter::new(self, documents, max_bytes, Vec::new(alloc)))
    }
}

impl<D: Directory + Drop> Index<D> {
    /// Opens the index of a directory. Its segments aren't read.
    ///
    /// # Errors
    ///
    /// `Store` if the directory has no index, or its `meta` is damaged; `OtherVersion` in `Store` for an index of
    /// version 1 (`upgrade`). `SchemaBytes` or `Schema` if the text in `meta` is no schema.
    pub fn open(alloc: Global, directory: D) -> Result<Index<D>, IndexError>
        ensures same { IfOk result (λ index. index.directory ≡ directory) }
        ensures schema { D.is_known directory → IfOk result (λ index. IsIndexSchema (list_in (D.seen directory Meta)) index.schema) }
        ensures fault { D.is_known directory → IfErr result (IsOpenFault (list_in (D.seen directory Meta))) }
        ensures obeyed { is_obeyed IsRefusedError (D.may_refuse directory) result }
    {
        let list = match load_meta(alloc, &directory) {
            Ok(list) => list,
            Err(fault) => return Err(IndexError::Store(fault)),
        };
        match stored_schema(alloc, list.schema.as_slice()) {
            Ok(schema) => Ok(Index { directory, schema }),
            Err(fault) => Err(fault),
        }
    }

    /// Returns the schema.
    pub fn schema(&self) -> &Schema
        ensures { result.now ≡ self.now.schema.schema }
    {
        self.schema.schema()
    }

    /// Returns the tokenizers of the fields.
    pub fn tokenizers(&self) -> &FieldTokenizers
        ensures { result.now ≡ self.now.schema.tokenizers }
    {
        self.schema.tokenizers()
    }

    /// Returns the directory.
    pub fn directory(&self) -> &D
        ensures { result.now ≡ self.now.directory }
    {
        &self.directory
    }

    /// Returns the directory by value.
    pub fn into_directory(self) -> D
        ensures { result ≡ self.directory }
    {
        let Index {
            directory,
            schema: _,
        } = self;
        directory
    }

    /// Returns the field with a name, if there is one.
    pub fn field_named(&self, name: &str) -> Option<Field>
        ensures named { result ≡ field_named self.now.schema.schema name.now }
        ensures inside { IfSome result (λ field. field < length self.now.schema.schema) }
    {
        field_named(self.schema.schema(), name)
    }

    /// Parses the text of a query over the fields of the index, each with its tokenizer. Words without a field name
    /// are searched in all `default_fields` (`parse_query_by` of `ii_query_parser`).
    pub fn parse_query(
        &self,
        alloc: Global,
        default_fields: &[Field],
        text: &str,
    ) -> Result<Query, QueryParserError>
        ensures { IsQueryOfTextBy (record { texts = record { analyze = analyzed_in self.now.schema.tokenizers; entries = self.now.schema.schema }; prefixes = analyzed_in (map prefix_tokenizer self.now.schema.tokenizers); defaults = default_fields.now }) text.now result }
    {
        let schema = self.schema.schema();
        let tokenizers = self.schema.tokenizers();
        parse_query_by(alloc, schema, default_fields, tokenizers, text)
    }

    /// Loads and opens all segments. If another program replaces the index meanwhile, the new one is loaded.
    ///
    /// # Errors
    ///
    /// `Store` if the index can't be loaded; `Segment` for the first segment whose files can't be opened, with its
    /// first damaged part; `TooManyDocuments`. `Documents` if an allocation failed.
    pub fn reader(&self, alloc: Global) -> Result<IndexReader, IndexError>
        ensures opens { D.is_known self.now.directory → IfOk result (OpensIndex self.now.schema.schema (index_contents (D.seen self.now.directory))) }
        ensures fields { IfOk result (λ r. r.num_fields ≡ length self.now.schema.schema) }
        ensures holds { D.is_known self.now.directory → (n : ℕ) (ts : List IndexToken) → HoldsIndexOf self.now.schema.schema (D.seen self.now.directory) n ts → IfOk result (λ r. SearcherHolds self.now.schema.schema r n ts) }
        ensures fault { D.is_known self.now.directory → IfErr result (λ e. IsReadError e self.now.schema.schema (D.seen self.now.directory)) }
        ensures obeyed { is_obeyed IsRefusedError (D.may_refuse self.now.directory) result }
    {
        match load_searcher(alloc, &self.directory, self.schema.schema()) {
            Ok(searcher) => Ok(IndexReader::new(searcher)),
            Err(fault) => Err(fault),
        }
    }

    // Returns an empty list of documents.
    pub(crate) fn no_documents(&self, alloc: Global) -> Result<Documents, Fault>
        ensures none { IfOk result (λ d. d ≡ no_documents self.now.schema) }
        ensures only { OnlyMemory result }
    {
        documents_for(alloc, &self.schema)
    }

    // Writes documents as a segment.
    pub(crate) fn flush(
        &mut self,
        alloc: Global,
        flushed: Option<Flushed>,
        documents: Documents,
    ) -> Result<Flushed, IndexError>
        requires schema { documents.schema ≡ self.old.schema.schema }
        requires lines { HaveLines documents.num_docs documents.lines }
        requires room { flushed_docs flushed + documents.num_docs ≤ TERMINATED }
        ensures known { D.is_known self.old.directory → OnOk result (D.is_known self.new.directory) }
        ensures obeys { Obeys IsRefusedError (D.may_refuse self.old.directory) (D.may_refuse self.new.directory) result }
        ensures schema { self.new.schema ≡ self.old.schema }
        ensures written { D.is_known self.old.directory → (k : ℕ) (us : List IndexToken) → ArePending self.old.schema (D.seen self.old.directory) flushed documents k us → IfOk result (λ x. ArePending self.old.schema (D.seen self.new.directory) (Some x) (no_documents self.old.schema) k us) }
        ensures many { IfOk result (λ x. x.num_docs ≡ flushed_docs flushed + documents.num_docs) }
        ensures same { D.is_known self.old.directory → (k : ℕ) (us : List IndexToken) → ArePending self.old.schema (D.seen self.old.directory) flushed documents k us → OnOk result (index_contents (D.seen self.new.directory) ≡ index_contents (D.seen self.old.directory)) }
        ensures leaves_same { D.is_known self.old.directory → (k : ℕ) (us : List IndexToken) → ArePending self.old.schema (D.seen self.old.directory) flushed documents k us → (n : ℕ) (ts : List IndexToken) → HoldsIndexOf self.old.schema.schema (D.seen self.old.directory) n ts
            → (files : Files) → D.left_since self.new.directory (D.moment self.old.directory) files → HoldsIndexOf self.old.schema.schema files n ts }
        ensures fault { D.is_known self.old.directory → IfErr result (λ e. IsAddError e self.old.schema flushed documents (D.seen self.old.directory)) }
    {
        write_documents(alloc, &mut self.directory, &self.schema, flushed, documents)
    }

    // Adds segments that were written, and documents as a segment after them, and deletes those that deletes reach.
    pub(crate) fn commit(
        &mut self,
        alloc: Global,
        flushed: Option<Flushed>,
        documents: Documents,
        deletes: &[Delete],
    ) -> Result<(), IndexError>
        requires schema { documents.schema ≡ self.old.schema.schema }
        requires lines { HaveLines documents.num_docs documents.lines }
        requires fields { HaveFieldsBelow (length self.old.schema.schema) deletes.now }
        requires room { flushed_docs flushed + documents.num_docs ≤ TERMINATED }
        ensures known { D.is_known self.old.directory → OnOk result (D.is_known self.new.directory) }
        ensures obeys { D.is_known self.old.directory → Obeys IsRefusedError (D.may_refuse self.old.directory) (D.may_refuse self.new.directory) result }
        ensures schema { self.new.schema ≡ self.old.schema }
        ensures added { D.is_known self.old.directory → deletes.now ≡ [] → (k : ℕ) (us : List IndexToken) → ArePending self.old.schema (D.seen self.old.directory) flushed documents k us → (n : ℕ) (ts : List IndexToken) → HoldsIndexOf self.old.schema.schema (D.seen self.old.directory) n ts
            → OnOk result (HoldsIndexOf self.old.schema.schema (D.seen self.new.directory) (n + k) (with_tokens n ts us)) }
        ensures changed { D.is_known self.old.directory → (k : ℕ) (us : List IndexToken) → ArePending self.old.schema (D.seen self.old.directory) flushed documents k us → (n : ℕ) (ts : List IndexToken) → HoldsIndexOf self.old.schema.schema (D.seen self.old.directory) n ts
            → OnOk result (HoldsIndexOfSegment self.old.schema.schema (D.seen self.new.directory) (committed deletes.now n ts k us)) }
        ensures leaves_one { D.is_known self.old.directory → (k : ℕ) (us : List IndexToken) → ArePending self.old.schema (D.seen self.old.directory) flushed documents k us → (n : ℕ) (ts : List IndexToken) → HoldsIndexOf self.old.schema.schema (D.seen self.old.directory) n ts
            → (files : Files) → D.left_since self.new.directory (D.moment self.old.directory) files → HoldsIndexOf self.old.schema.schema files n ts ⊎ HoldsIndexOfSegment self.old.schema.schema files (committed deletes.now n ts k us) }
        ensures fault { D.is_known self.old.directory → (k : ℕ) (us : List IndexToken) → ArePending self.old.schema (D.seen self.old.directory) flushed documents k us → IfErr result (λ e. IsCommitError e self.old.schema flushed documents deletes.now (D.seen self.old.directory)) }
    {
        commit_documents(
            alloc,
            &mut self.directory,
            &self.schema,
            flushed,
            documents,
            deletes,
        )
    }

    // Removes the files that the index doesn't have any more.
    pub(crate) fn collect_garbage(&mut self, alloc: Global) -> Result<u64, StoreFault>
        ensures known { D.is_known self.old.directory → OnOk result (D.is_known self.new.directory) }
        ensures obeys { Obeys IsRefused (D.may_refuse self.old.directory) (D.may_refuse self.new.directory) result }
        ensures schema { self.new.schema ≡ self.old.schema }
        ensures removed { D.is_known self.old.directory → IfOk result (λ _. (m : MetaState) → list_in (D.seen self.old.directory Meta) ≡ Ok m → HasNoGarbage m (D.seen self.new.directory)) }
        ensures keeps { D.is_known self.old.directory → IfOk result (λ _. (m : MetaState) → list_in (D.seen self.old.directory Meta) ≡ Ok m → KeepsOthers m (D.seen self.old.directory) (D.seen self.new.directory)) }
        ensures count { D.is_known self.old.directory → IfOk result (λ count. (m : MetaState) → list_in (D.seen self.old.directory Meta) ≡ Ok m → CountsGarbage m (D.seen self.old.directory) count) }
        ensures same { D.is_known self.old.directory → OnOk result (index_contents (D.seen self.new.directory) ≡ index_contents (D.seen self.old.directory)) }
        ensures leaves_same { D.is_known self.old.directory → (n : ℕ) (ts : List IndexToken) → HoldsIndexOf self.old.schema.schema (D.seen self.old.directory) n ts → (files : Files) → D.left_since self.new.directory (D.moment self.old.directory) files → HoldsIndexOf self.old.schema.schema files n ts }
        ensures fault { D.is_known self.old.directory → IfErr result (λ e. Fails e (list_in (D.seen self.old.directory Meta))) }
    {
        collect_files(alloc, &mut self.directory)
    }

    // Merges the segments from a place on.
    pub(crate) fn merge_from(&mut self, alloc: Global, first: usize) -> Result<(), JoinFault>
        ensures known { D.is_known self.old.directory → OnOk result (D.is_known self.new.directory) }
        ensures obeys { D.is_known self.old.directory → Obeys IsRefusedJoin (D.may_refuse self.old.directory) (D.may_refuse self.new.directory) result }
        ensures schema { self.new.schema ≡ self.old.schema }
        ensures same { D.is_known self.old.directory → (n : ℕ) (ts : List IndexToken) → HoldsIndexOf self.old.schema.schema (D.seen self.old.directory) n ts → OnOk result (HoldsIndexOf self.old.schema.schema (D.seen self.new.directory) n ts) }
        ensures leaves_same { D.is_known self.old.directory → (n : ℕ) (ts : List IndexToken) → HoldsIndexOf self.old.schema.schema (D.seen self.old.directory) n ts → (files : Files) → D.left_since self.new.directory (D.moment self.old.directory) files → HoldsIndexOf self.old.schema.schema files n ts }
        ensures fault { D.is_known self.old.directory → IfErr result (λ e. IsJoinFault e self.old.schema.schema first (D.seen self.old.directory)) }
    {
        merge_documents(alloc, &mut self.directory, self.schema.schema(), first)
    }
}

// Writes documents as a segment, which the index doesn't have yet.
fn write_documents<D: Directory>(
    alloc: Global,
    directory: &mut D,
    schema: &TextSchema,
    flushed: Option<Flushed>,
    documents: Documents,
) -> Result<Flushed, IndexError>
    requires schema { documents.schema ≡ schema.now.schema }
    requires lines { HaveLines documents.num_docs documents.lines }
    requires room { flushed_docs flushed + documents.num_docs ≤ TERMINATED }
    ensures known { D.is_known directory.old → OnOk result (D.is_known directory.new) }
    ensures obeys { Obeys IsRefusedError (D.may_refuse directory.old) (D.may_refuse directory.new) result }
    ensures written { D.is_known directory.old → (k : ℕ) (us : List IndexToken) → ArePending schema.now (D.seen directory.old) flushed documents k us → IfOk result (λ x. ArePending schema.now (D.seen directory.new) (Some x) (no_documents schema.now) k us) }
    ensures many { IfOk result (λ x. x.num_docs ≡ flushed_docs flushed + documents.num_docs) }
    ensures same { D.is_known directory.old → (k : ℕ) (us : List IndexToken) → ArePending schema.now (D.seen directory.old) flushed documents k us → OnOk result (index_contents (D.seen directory.new) ≡ index_contents (D.seen directory.old)) }
    ensures leaves_same { D.is_known directory.old → (k : ℕ) (us : List IndexToken) → ArePending schema.now (D.seen directory.old) flushed documents k us → (n : ℕ) (ts : List IndexToken) → HoldsIndexOf schema.now.schema (D.seen directory.old) n ts
        → (files : Files) → D.left_since directory.new (D.moment directory.old) files → HoldsIndexOf schema.now.schema files n ts }
    ensures fault { D.is_known directory.old → IfErr result (λ e. IsAddError e schema.now flushed documents (D.seen directory.old)) }
{
    match flush_documents(alloc, directory, schema, flushed, documents) {
        Ok(flushed) => Ok(flushed),
        Err(fault) => Err(fault),
    }
}

// Removes the files that an index doesn't have any more.
fn collect_files<D: Directory>(alloc: Global, directory: &mut D) -> Result<u64, StoreFault>
    ensures known { D.is_known directory.old → OnOk result (D.is_known directory.new) }
    ensures obeys { Obeys IsRefused (D.may_refuse directory.old) (D.may_refuse directory.new) result }
    ensures removed { D.is_known directory.old → IfOk result (λ _. (m : MetaState) → list_in (D.seen directory.old Meta) ≡ Ok m → HasNoGarbage m (D.seen directory.new)) }
    ensures keeps { D.is_known directory.old → IfOk result (λ _. (m : MetaState) → list_in (D.seen directory.old Meta) ≡ Ok m → KeepsOthers m (D.seen directory.old) (D.seen directory.new)) }
    ensures count { D.is_known directory.old → IfOk result (λ count. (m : MetaState) → list_in (D.seen directory.old Meta) ≡ Ok m → CountsGarbage m (D.seen directory.old) count) }
    ensures same { D.is_known directory.old → OnOk result (index_contents (D.seen directory.new) ≡ index_contents (D.seen directory.old)) }
    ensures leaves_same { D.is_known directory.old → (entries : List SchemaEntry) (n : ℕ) (ts : List IndexToken) → HoldsIndexOf entries (D.seen directory.old) n ts → (files : Files) → D.left_since directory.new (D.moment directory.old) files → HoldsIndexOf entries files n ts }
    ensures fault { D.is_known directory.old → IfErr result (λ e. Fails e (list_in (D.seen directory.old Meta))) }
{
    match collect_garbage(alloc, directory) {
        Ok(count) => Ok(count),
        Err(fault) => Err(fault),
    }
}

// Merges the segments of an index from a place on.
fn merge_documents<D: Directory>(
    alloc: Global,
    directory: &mut D,
    schema: &Schema,
    first: usize,
) -> Result<(), JoinFault>
    ensures known { D.is_known directory.old → OnOk result (D.is_known directory.new) }
    ensures obeys { D.is_known directory.old → Obeys IsRefusedJoin (D.may_refuse directory.old) (D.may_refuse directory.new) result }
    ensures same { D.is_known directory.old → (n : ℕ) (ts : List IndexToken) → HoldsIndexOf schema.now (D.seen directory.old) n ts → OnOk result (HoldsIndexOf schema.now (D.seen directory.new) n ts) }
    ensures leaves_same { D.is_known directory.old → (n : ℕ) (ts : List IndexToken) → HoldsIndexOf schema.now (D.seen directory.old) n ts → (files : Files) → D.left_since directory.new (D.moment directory.old) files → HoldsIndexOf schema.now files n ts }
    ensures fault { D.is_known directory.old → IfErr result (λ e. IsJoinFault e schema.now first (D.seen directory.old)) }
{
    match merge_last(alloc, directory, schema, first) {
        Ok(()) => Ok(()),
        Err(fault) => Err(fault),
    }
}

// Returns whether a directory has a `meta`.
fn has_index<D: Directory>(alloc: Global, directory: &D) -> Result<bool, StoreFault>
    ensures has { D.is_known directory.now → IfOk result (λ has. IsTrue has ↔ IsSome (D.seen directory.now Meta)) }
    ensures fault { IfErr result IsDirectoryFault }
    ensures obeyed { is_obeyed IsRefused (D.may_refuse directory.now) result }
{
    match directory.read(alloc, Name::Meta) {
        Ok(Some(_)) => Ok(true),
        Ok(None) => Ok(false),
        Err(fault) => Err(StoreFault::Directory(fault)),
    }
}

// Writes an index without documents.
fn create_in<D: Directory + Drop>(
    alloc: Global,
    directory: D,
    schema: &str,
) -> Result<Index<D>, IndexError>
    ensures known { D.is_known directory → IfOk result (λ index. D.is_known index.directory) }
    ensures schema { IfOk result (λ index. IsNewSchema schema.now index.schema) }
    ensures empty { D.is_known directory → IfOk result (λ index. HoldsIndexOf index.schema.schema (D.seen index.directory) 0 []) }
    ensures fault { D.is_known directory → IfErr result (λ e. IsCreateError e schema.now (D.seen directory)) }
    ensures obeyed { D.is_known directory → is_obeyed IsRefusedError (D.may_refuse directory) result }
    ensures still { D.is_known directory → IfOk result (λ index. D.may_refuse index.directory → D.may_refuse directory) }
{
    let (text, schema) = match new_schema(alloc, schema) {
        Ok(both) => both,
        Err(fault) => return Err(IndexError::Schema(fault)),
    };
    let segment = match empty_segment(alloc, &schema) {
        Ok(segment) => segment,
        Err(fault) => return Err(IndexError::Documents(fault)),
    };
    let mut directory = directory;
    match replace_index(alloc, &mut directory, text, &segment) {
        Ok(()) => Ok(Index { directory, schema }),
        Err(fault) => Err(IndexError::Commit(fault)),
    }
}

// Returns the bytes of the schema of a new index, and the schema that they describe.
fn new_schema(alloc: Global, text: &str) -> Result<(Vec<u8>, TextSchema), SchemaFault>
    ensures { AnswersFromText (λ r. record { text = r.0.items; schema = r.1 }) result (new_schema text.now) }
{
    let text = new_schema_text(alloc, text)?;
    let schema = read_text_schema(alloc, text.as_str())?;
    Ok((text.into_bytes(), schema))
}

// Reads the schema of an index.
fn stored_schema(alloc: Global, bytes: &[u8]) -> Result<TextSchema, IndexError>
    ensures schema { IfOk result (λ s. tokenized_schema bytes.now ≡ Ok s) }
    ensures fault { IfErr result (IsSchemaFault bytes.now) }
    ensures memory { is_obeyed IsRefusedError ⊥ result }
{
    let Ok(text) = std::str::from_utf8(bytes) else {
        return Err(IndexError::SchemaBytes);
    };
    match read_text_schema(alloc, text) {
        Ok(schema) => Ok(schema),
        Err(fault) => Err(IndexError::Schema(fault)),
    }
}

// Returns the files of a segment without documents.
fn empty_segment(alloc: Global, schema: &TextSchema) -> Result<SegmentFiles, Fault>
    ensures holds { IfOk result (λ f. HoldsSegment schema.now.schema (files_contents f) (segment_of (analyzed_in schema.now.tokenizers) (no_documents schema.now))) }
    ensures fault { IfErr result (λ e. (e ≡ Fault.OutOfMemory) ⊎ IsDocumentsFault (analyzed_in schema.now.tokenizers) (no_documents schema.now) e) }
{
    let documents = match documents_for(alloc, schema) {
        Ok(documents) => documents,
        Err(fault) => return Err(fault),
    };
    segment_of(alloc, documents, schema.tokenizers())
}

// Loads all segments of a directory, and opens them.
fn load_searcher<D: Directory>(
    alloc: Global,
    directory: &D,
    schema: &Schema,
) -> Result<Searcher, IndexError>
    ensures opens { D.is_known directory.now → IfOk result (OpensIndex schema.now (index_contents (D.seen directory.now))) }
    ensures fields { IfOk result (λ s. s.num_fields ≡ length schema.now) }
    ensures holds { D.is_known directory.now → (n : ℕ) (ts : List IndexToken) → HoldsIndexOf schema.now (D.seen directory.now) n ts → IfOk result (λ s. SearcherHolds schema.now s n ts) }
    ensures fault { D.is_known directory.now → IfErr result (λ e. IsReadError e schema.now (D.seen directory.now)) }
    ensures obeyed { is_obeyed IsRefusedError (D.may_refuse directory.now) result }
{
    let stored = match load_latest(alloc, directory) {
        Ok(stored) => stored,
        Err(fault) => return Err(IndexError::Store(fault)),
    };
    match open_searcher(alloc, schema, stored.segments) {
        Ok(searcher) => Ok(searcher),
        Err(fault) => Err(fault),
    }
}
