//! Changes an index.
ghost use Rattle.std.specs.Prelude.{◌≡◌, ◌⊎◌, ◌+◌, ◌<◌, ◌≤◌, ℕ, [], IfErr, IfOk, List, None, Ok, OnErr, OnOk, length};
ghost use Rattle.ii_definitions.specs.Tokens.{IndexToken};
ghost use Rattle.ii_directory.specs.Directory.{Files, Obeys};
ghost use Rattle.ii_directory.specs.declared.name.Name.TheVariants.{Meta};
ghost use Rattle.ii_index.specs.Deletes.{HoldsIndexOfSegment, committed};
ghost use Rattle.ii_index.specs.Faults.{IsCollectError, IsCommitError, IsDocumentError, IsMergeError, IsRefusedError};
ghost use Rattle.ii_index.specs.Index.{HasNothing, IsPendingAs, IsUnchangedAfter, KeepsBudget, flushed_docs, num_pending, with_delete};
ghost use Rattle.ii_index.specs.Pending.{AddsPending, HasPending};
ghost use Rattle.nequllpa_indexing.specs.Documents.{WereCalls};
ghost use Rattle.ii_index.specs.Segments.{HoldsIndexOf, no_documents, with_tokens};
ghost use Rattle.ii_io.specs.Faults.{OnlyMemory};
ghost use Rattle.ii_segment_store.specs.Contents.{index_contents};
ghost use Rattle.ii_store.specs.Collect.{CountsGarbage, HasNoGarbage, KeepsOthers};
ghost use Rattle.ii_store.specs.IndexMeta.{MetaState};
ghost use Rattle.ii_store.specs.Segments.{list_in};

use crate::deletes::Delete;
use crate::faults::IndexError;
use crate::flushing::Flushed;
use crate::index::Index;
use ii_base::{Fault, Term};
use ii_directory::Directory;
use ii_docset::{DocId, TERMINATED};
use ii_documents::LineFault;
use nequllpa_indexing::Documents;
use std::alloc::Global;
use std::marker::Model;
use std::mem::replace;

/// Adds documents to an index, and deletes documents of it. The index has them once they are committed.
///
/// Documents are in memory, and are written to the directory as a segment when they take the memory that they may.
/// Deletes are in memory until they are committed.
///
/// Its model is the index, and the documents that were added, and the deletes, that weren't committed.
pub struct IndexWriter<D: Directory + Drop> {
    index: Index<D>,
    flushed: Option<Flushed>,
    documents: Documents,
    num_bytes: usize,
    max_bytes: usize,
    deletes: Vec<Delete>,
}

// Makes each drop a call.
impl<D: Directory + Drop> Drop for IndexWriter<D> {
    fn drop(self) {
        let IndexWriter {
            index: _,
            flushed: _,
            documents: _,
            num_bytes: _,
            max_bytes: _,
            deletes: _,
        } = self;
    }
}

impl<D: Directory + Drop> Model for IndexWriter<D> {
    ghost use Rattle.std.specs.Prelude.{◌≡◌, ◌+◌, ◌≤◌, length};
    ghost use Rattle.ii_base.specs.declared.doc_id.TheConstants.{TERMINATED};
    ghost use Rattle.ii_index.specs.Deletes.{HaveFieldsBelow};
    ghost use Rattle.ii_index.specs.Index.{AreReadBy, IndexWriterState, flushed_docs};
    ghost use Rattle.ii_index.specs.Segments.{HaveLines};

    ghost Value = { IndexWriterState D };

    ghost view = { λ w. record { index = w.index; flushed = w.flushed; documents = w.documents; num_bytes = w.num_bytes; max_bytes = w.max_bytes; deletes = w.deletes.items } };

    ghost invariant = { λ w. AreReadBy w.index.schema w.documents × HaveLines w.documents.num_docs w.documents.lines × HaveFieldsBelow (length w.index.schema.schema) w.deletes.items × (flushed_docs w.flushed + w.documents.num_docs ≤ TERMINATED) };
}

impl<D: Directory + Drop> IndexWriter<D> {
    // Returns a writer of an index, with no documents and no deletes.
    pub(crate) fn new(
        index: Index<D>,
        documents: Documents,
        max_bytes: usize,
        deletes: Vec<Delete>,
    ) -> IndexWriter<D>
        requires documents { documents ≡ no_documents index.schema }
        requires deletes { deletes.items ≡ [] }
        ensures { result ≡ record { index = index; flushed = None; documents = documents; num_bytes = 0; max_bytes = max_bytes; deletes = [] } }
    {
        IndexWriter {
            index,
            flushed: None,
            documents,
            num_bytes: 0,
            max_bytes,
            deletes,
        }
    }

    /// Returns the index. It has the documents that were committed.
    pub fn index(&self) -> &Index<D>
        ensures { result.now ≡ self.now.index }
    {
        &self.index
    }

    /// Returns the index without the documents and deletes that weren't committed.
    pub fn into_index(self) -> Index<D>
        ensures { result ≡ self.index }
    {
        let IndexWriter {
            index,
            flushed: _,
            documents: _,
            num_bytes: _,
            max_bytes: _,
            deletes: _,
        } = self;
        index
    }

    // Returns how many documents weren't committed.
    fn num_pending(&self) -> DocId
        ensures number { result ≡ num_pending self.now }
        ensures within { result ≤ TERMINATED }
        ensures calls { WereCalls self.now.documents.schema self.now.documents.num_docs self.now.documents.calls }
    {
        num_flushed(&self.flushed) + self.documents.num_docs()
    }

    /// Adds a document, which is a JSON object whose keys are names of fields, as `TantivyDocument::parse_json` reads
    /// it. A search finds it once it is committed.
    ///
    /// If the documents in memory then take the memory that they may (`Index::writer`), they are written to the
    /// directory as a segment. The index doesn't have it before `commit`, wherever this is stopped.
    ///
    /// # Errors
    ///
    /// `Document` with why the text is no document (`line_calls` of `ii_documents`); `TooManyDocuments` in it if
    /// 2^31 - 1 documents are pending; `TooLong` for 2^31 bytes or more, of the text if complete lines are stored, else
    /// of what is stored of it; `OutOfMemory`. The writer is then unchanged.
    ///
    /// If documents are to be written, also `Documents` with why they can't be indexed (`Documents::into_segment`), or
    /// if an allocation failed, and `Commit` with why the segment can't be written (`PendingSegments::begin` and
    /// `add`). The writer is then unchanged, or no documents and no deletes are pending, as after `rollback`.
    pub fn add_document(&mut self, alloc: Global, document: &str) -> Result<(), IndexError>
        ensures known { D.is_known self.old.index.directory → OnOk result (D.is_known self.new.index.directory) }
        ensures obeys { Obeys IsRefusedError (D.may_refuse self.old.index.directory) (D.may_refuse self.new.index.directory) result }
        ensures schema { self.new.index.schema ≡ self.old.index.schema }
        ensures added { D.is_known self.old.index.directory → OnOk result (AddsPending (D.seen self.old.index.directory) (D.seen self.new.index.directory) self.old self.new document.now) }
        ensures budget { OnOk result (KeepsBudget (length document.now) self.old self.new) }
        ensures deletes { OnOk result (self.new.deletes ≡ self.old.deletes) }
        ensures same { D.is_known self.old.index.directory → (k : ℕ) (us : List IndexToken) → HasPending (D.seen self.old.index.directory) self.old k us → OnOk result (index_contents (D.seen self.new.index.directory) ≡ index_contents (D.seen self.old.index.directory)) }
        ensures leaves_same { D.is_known self.old.index.directory → (k : ℕ) (us : List IndexToken) → HasPending (D.seen self.old.index.directory) self.old k us → (n : ℕ) (ts : List IndexToken) → HoldsIndexOf self.old.index.schema.schema (D.seen self.old.index.directory) n ts
            → (files : Files) → D.left_since self.new.index.directory (D.moment self.old.index.directory) files → HoldsIndexOf self.old.index.schema.schema files n ts }
        // Errors.
        ensures err { OnErr result ((self.new ≡ self.old) ⊎ HasNothing self.new) }
        ensures unchanged { D.is_known self.old.index.directory → IfErr result (λ e. IsUnchangedAfter e self.old self.new) }
        ensures fault { D.is_known self.old.index.directory → IfErr result (λ e. IsDocumentError e self.old document.now (D.seen self.old.index.directory)) }
    {
        if self.num_pending() >= TERMINATED {
            return Err(IndexError::Document(LineFault::TooManyDocuments));
        }
        let num_bytes = self.num_bytes.saturating_add(document.len());
        if num_bytes >= self.max_bytes {
            return self.add_last(alloc, document);
        }
        match self.documents.push_line(alloc, document) {
            Ok(()) => {
                self.num_bytes = num_bytes;
                Ok(())
            }
            Err(fault) => Err(IndexError::Document(fault)),
        }
    }

    // Adds a document, and then writes all documents in memory as a segment.
    fn add_last(&mut self, alloc: Global, document: &str) -> Result<(), IndexError>
        requires room { num_pending self.old < TERMINATED }
        requires calls { WereCalls self.old.documents.schema self.old.documents.num_docs self.old.documents.calls }
        ensures known { D.is_known self.old.index.directory → OnOk result (D.is_known self.new.index.directory) }
        ensures obeys { Obeys IsRefusedError (D.may_refuse self.old.index.directory) (D.may_refuse self.new.index.directory) result }
        ensures schema { self.new.index.schema ≡ self.old.index.schema }
        ensures added { D.is_known self.old.index.directory → OnOk result (AddsPending (D.seen self.old.index.directory) (D.seen self.new.index.directory) self.old self.new document.now) }
        ensures budget { OnOk result (KeepsBudget (length document.now) self.old self.new) }
        ensures deletes { OnOk result (self.new.deletes ≡ self.old.deletes) }
        ensures same { D.is_known self.old.index.directory → (k : ℕ) (us : List IndexToken) → HasPending (D.seen self.old.index.directory) self.old k us → OnOk result (index_contents (D.seen self.new.index.directory) ≡ index_contents (D.seen self.old.index.directory)) }
        ensures leaves_same { D.is_known self.old.index.directory → (k : ℕ) (us : List IndexToken) → HasPending (D.seen self.old.index.directory) self.old k us → (n : ℕ) (ts : List IndexToken) → HoldsIndexOf self.old.index.schema.schema (D.seen self.old.index.directory) n ts
            → (files : Files) → D.left_since self.new.index.directory (D.moment self.old.index.directory) files → HoldsIndexOf self.old.index.schema.schema files n ts }
        // Errors.
        ensures err { OnErr result ((self.new ≡ self.old) ⊎ HasNothing self.new) }
        ensures unchanged { D.is_known self.old.index.directory → IfErr result (λ e. IsUnchangedAfter e self.old self.new) }
        ensures fault { D.is_known self.old.index.directory → IfErr result (λ e. IsDocumentError e self.old document.now (D.seen self.old.index.directory)) }
    {
        let fresh = match self.index.no_documents(alloc) {
            Ok(fresh) => fresh,
            Err(fault) => return Err(IndexError::Documents(fault)),
        };
        match self.documents.push_line(alloc, document) {
            Ok(()) => {}
            Err(fault) => return Err(IndexError::Document(fault)),
        }
        let documents = replace(&mut self.documents, fresh);
        let flushed = self.flushed.take();
        self.num_bytes = 0;
        match self.index.flush(alloc, flushed, documents) {
            Ok(flushed) => {
                self.flushed = Some(flushed);
                Ok(())
            }
            Err(fault) => {
                self.deletes = Vec::new(alloc);
                Err(fault)
            }
        }
    }

    /// Deletes the documents that have a term, of all that were added before this call, at the next commit. The
    /// term's field must be one of the schema. Documents that are added later are kept.
    ///
    /// Returns `OutOfMemory` if an allocation fails. The writer is then unchanged.
    pub fn delete_term(&mut self, term: Term) -> Result<(), Fault>
        requires { term.field < length self.old.index.schema.schema }
        ensures ok { OnOk result (self.new ≡ with_delete term self.old) }
        ensures err { OnErr result (self.new ≡ self.old) }
        ensures only { OnlyMemory result }
    {
        let num_pending = self.num_pending();
        self.deletes.push(Delete::new(term, num_pending))?;
        Ok(())
    }

    /// Adds the documents that are pending to the index, and deletes those that were to be deleted: of the committed
    /// documents and of the pending ones. Documents that are left keep their order, and are numbered anew from 0. The
    /// documents in memory become a segment, unless there are none.
    ///
    /// Wherever this is stopped, the directory holds the old index or the new one. After an error open the directory
    /// again. The documents and deletes are then still pending, or none are.
    ///
    /// # Errors
    ///
    /// `Documents` with why the documents can't be indexed (`Documents::into_segment`), or if an allocation failed.
    /// `Commit` with why the index can't be changed (`PendingSegments::begin`, `add`, `delete`, `commit`). If documents
    /// are to be deleted also those of `Index::reader`; `Segment` for the first segment whose list of a term is damaged;
    /// and `NoCounts`.
    pub fn commit(&mut self, alloc: Global) -> Result<(), IndexError>
        ensures known { D.is_known self.old.index.directory → OnOk result (D.is_known self.new.index.directory) }
        ensures obeys { D.is_known self.old.index.directory → Obeys IsRefusedError (D.may_refuse self.old.index.directory) (D.may_refuse self.new.index.directory) result }
        ensures schema { self.new.index.schema ≡ self.old.index.schema }
        ensures none { OnOk result (HasNothing self.new) }
        ensures err { OnErr result (IsPendingAs self.old self.new ⊎ HasNothing self.new) }
        ensures added { D.is_known self.old.index.directory → self.old.deletes ≡ [] → (k : ℕ) (us : List IndexToken) → HasPending (D.seen self.old.index.directory) self.old k us → (n : ℕ) (ts : List IndexToken) → HoldsIndexOf self.old.index.schema.schema (D.seen self.old.index.directory) n ts
            → OnOk result (HoldsIndexOf self.old.index.schema.schema (D.seen self.new.index.directory) (n + k) (with_tokens n ts us)) }
        ensures changed { D.is_known self.old.index.directory → (k : ℕ) (us : List IndexToken) → HasPending (D.seen self.old.index.directory) self.old k us → (n : ℕ) (ts : List IndexToken) → HoldsIndexOf self.old.index.schema.schema (D.seen self.old.index.directory) n ts
            → OnOk result (HoldsIndexOfSegment self.old.index.schema.schema (D.seen self.new.index.directory) (committed self.old.deletes n ts k us)) }
        ensures leaves_one { D.is_known self.old.index.directory → (k : ℕ) (us : List IndexToken) → HasPending (D.seen self.old.index.directory) self.old k us → (n : ℕ) (ts : List IndexToken) → HoldsIndexOf self.old.index.schema.schema (D.seen self.old.index.directory) n ts
            → (files : Files) → D.left_since self.new.index.directory (D.moment self.old.index.directory) files → HoldsIndexOf self.old.index.schema.schema files n ts ⊎ HoldsIndexOfSegment self.old.index.schema.schema files (committed self.old.deletes n ts k us) }
        ensures fault { D.is_known self.old.index.directory → (k : ℕ) (us : List IndexToken) → HasPending (D.seen self.old.index.directory) self.old k us → IfErr result (λ e. IsCommitError e self.old.index.schema self.old.flushed self.old.documents self.old.deletes (D.seen self.old.index.directory)) }
    {
        let fresh = match self.index.no_documents(alloc) {
            Ok(fresh) => fresh,
            Err(fault) => return Err(IndexError::Documents(fault)),
        };
        let documents = replace(&mut self.documents, fresh);
        let flushed = self.flushed.take();
        let deletes = replace(&mut self.deletes, Vec::new(alloc));
        self.num_bytes = 0;
        self.index
            .commit(alloc, flushed, documents, deletes.as_slice())
    }

    /// Drops the documents and deletes that weren't committed. The files of segments that were written remain until
    /// `garbage_collect_files`. Returns `OutOfMemory` if an allocation fails; all are then still pending.
    pub fn rollback(&mut self, alloc: Global) -> Result<(), Fault>
        ensures none { OnOk result (HasNothing self.new) }
        ensures same { self.new.index ≡ self.old.index }
        ensures err { OnErr result (IsPendingAs self.old self.new) }
        ensures only { OnlyMemory result }
    {
        match self.index.no_documents(alloc) {
            Ok(documents) => {
                self.flushed = None;
                self.documents = documents;
                self.num_bytes = 0;
                self.deletes = Vec::new(alloc);
                Ok(())
            }
            Err(fault) => Err(fault),
        }
    }

    /// Merges the segments from a place on into one. No document that was committed changes, wherever this is
    /// stopped. Documents and deletes that weren't committed are still pending.
    ///
    /// # Errors
    ///
    /// `Uncommitted` if segments were written since the last commit; nothing is changed then. `Merge` with those of
    /// `merge_last` of `nequllpa_merging`: open the directory again.
    pub fn merge(&mut self, alloc: Global, first: usize) -> Result<(), IndexError>
        ensures known { D.is_known self.old.index.directory → OnOk result (D.is_known self.new.index.directory) }
        ensures obeys { D.is_known self.old.index.directory → Obeys IsRefusedError (D.may_refuse self.old.index.directory) (D.may_refuse self.new.index.directory) result }
        ensures schema { self.new.index.schema ≡ self.old.index.schema }
        ensures pending { IsPendingAs self.old self.new }
        ensures same { D.is_known self.old.index.directory → (n : ℕ) (ts : List IndexToken) → HoldsIndexOf self.old.index.schema.schema (D.seen self.old.index.directory) n ts → OnOk result (HoldsIndexOf self.old.index.schema.schema (D.seen self.new.index.directory) n ts) }
        ensures leaves_same { D.is_known self.old.index.directory → (n : ℕ) (ts : List IndexToken) → HoldsIndexOf self.old.index.schema.schema (D.seen self.old.index.directory) n ts → (files : Files) → D.left_since self.new.index.directory (D.moment self.old.index.directory) files → HoldsIndexOf self.old.index.schema.schema files n ts }
        ensures fault { D.is_known self.old.index.directory → IfErr result (λ e. IsMergeError e self.old.flushed self.old.index.schema.schema first (D.seen self.old.index.directory)) }
    {
        if self.flushed.is_some() {
            return Err(IndexError::Uncommitted);
        }
        match self.index.merge_from(alloc, first) {
            Ok(()) => Ok(()),
            Err(fault) => Err(IndexError::Merge(fault)),
        }
    }

    /// Removes the files that the index doesn't have any more, as commits, merges and stops leave them: those of
    /// segments that aren't listed, and `meta.new`. Returns how many there were. What the index holds doesn't change,
    /// wherever this is stopped. Documents and deletes that weren't committed are still pending.
    ///
    /// # Errors
    ///
    /// `Uncommitted` if segments were written since the last commit; nothing is removed then. `Store` with why the list
    /// of the index can't be read (`Index::open`), and then nothing is removed, or why the directory refuses a call:
    /// open the directory again.
    pub fn garbage_collect_files(&mut self, alloc: Global) -> Result<u64, IndexError>
        ensures known { D.is_known self.old.index.directory → OnOk result (D.is_known self.new.index.directory) }
        ensures obeys { Obeys IsRefusedError (D.may_refuse self.old.index.directory) (D.may_refuse self.new.index.directory) result }
        ensures schema { self.new.index.schema ≡ self.old.index.schema }
        ensures pending { IsPendingAs self.old self.new }
        ensures removed { D.is_known self.old.index.directory → IfOk result (λ _. (m : MetaState) → list_in (D.seen self.old.index.directory Meta) ≡ Ok m → HasNoGarbage m (D.seen self.new.index.directory)) }
        ensures keeps { D.is_known self.old.index.directory → IfOk result (λ _. (m : MetaState) → list_in (D.seen self.old.index.directory Meta) ≡ Ok m → KeepsOthers m (D.seen self.old.index.directory) (D.seen self.new.index.directory)) }
        ensures count { D.is_known self.old.index.directory → IfOk result (λ count. (m : MetaState) → list_in (D.seen self.old.index.directory Meta) ≡ Ok m → CountsGarbage m (D.seen self.old.index.directory) count) }
        ensures same { D.is_known self.old.index.directory → OnOk result (index_contents (D.seen self.new.index.directory) ≡ index_contents (D.seen self.old.index.directory)) }
        ensures leaves_same { D.is_known self.old.index.directory → (n : ℕ) (ts : List IndexToken) → HoldsIndexOf self.old.index.schema.schema (D.seen self.old.index.directory) n ts → (files : Files) → D.left_since self.new.index.directory (D.moment self.old.index.directory) files → HoldsIndexOf self.old.index.schema.schema files n ts }
        ensures fault { D.is_known self.old.index.directory → IfErr result (λ e. IsCollectError e self.old.flushed (D.seen self.old.index.directory)) }
    {
        if self.flushed.is_some() {
            return Err(IndexError::Uncommitted);
        }
        match self.index.collect_garbage(alloc) {
            Ok(count) => Ok(count),
            Err(fault) => Err(IndexError::Store(fault)),
        }
    }
}

// Returns how many documents have segments that were written.
fn num_flushed(flushed: &Option<Flushed>) -> DocId
    ensures { result ≡ flushed_docs flushed.now }
{
    match flushed {
        Some(flushed) => flushed.num_docs(),
        None => 0,
    }
}
