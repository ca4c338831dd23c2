//! Commits documents and deletes.
ghost use Rattle.std.specs.Prelude.{◌≡◌, ◌⊎◌, ◌+◌, ◌≤◌, ◌++◌, ℕ, [], IfErr, IfOk, List, Ok, OnOk, length, map};
ghost use Rattle.ii_base.specs.declared.doc_id.TheConstants.{TERMINATED};
ghost use Rattle.ii_definitions.specs.Tokens.{IndexToken};
ghost use Rattle.ii_directory.specs.Directory.{Files, Obeys};
ghost use Rattle.ii_index.specs.Deletes.{HaveFieldsBelow, HoldsIndexOfSegment, committed};
ghost use Rattle.ii_index.specs.Faults.{IsAddError, IsChangeError, IsCommitError, IsListError, IsRefusedError};
ghost use Rattle.ii_index.specs.Index.{flushed_docs};
ghost use Rattle.ii_index.specs.Pending.{ArePending};
ghost use Rattle.ii_index.specs.Segments.{HaveLines, HoldsIndexOf, with_tokens};
ghost use Rattle.ii_segment_store.specs.Changes.{index_without};
ghost use Rattle.ii_segment_store.specs.Commits.{LeavesOneIndex};
ghost use Rattle.ii_segment_store.specs.Contents.{index_contents, list_contents};
ghost use Rattle.ii_segment_store.specs.Pending.{FollowsFlags};

use crate::deletes::Delete;
use crate::deleting::{docs_to_delete, pending_docs_to_delete};
use crate::faults::IndexError;
use crate::flushing::{Flushed, flush_last};
use ii_base::Fault;
use ii_directory::Directory;
use ii_docset::DocId;
use ii_schema_text::TextSchema;
use ii_segment_store::{PendingSegments, load_latest};
use nequllpa_indexing::Documents;
use std::alloc::Global;

// Adds segments that were written, and documents as a segment after them, unless there are none, to an index of this
// schema, and deletes those that deletes reach.
pub(crate) fn commit_documents<D: Directory>(
    alloc: Global,
    directory: &mut D,
    schema: &TextSchema,
    flushed: Option<Flushed>,
    documents: Documents,
    deletes: &[Delete],
) -> Result<(), IndexError>
    requires schema { documents.schema ≡ schema.now.schema }
    requires lines { HaveLines documents.num_docs documents.lines }
    requires fields { HaveFieldsBelow (length schema.now.schema) deletes.now }
    requires room { flushed_docs flushed + documents.num_docs ≤ TERMINATED }
    ensures known { D.is_known directory.old → OnOk result (D.is_known directory.new) }
    ensures obeys { D.is_known directory.old → Obeys IsRefusedError (D.may_refuse directory.old) (D.may_refuse directory.new) result }
    ensures added { D.is_known directory.old → deletes.now ≡ [] → (k : ℕ) (us : List IndexToken) → ArePending schema.now (D.seen directory.old) flushed documents k us → (n : ℕ) (ts : List IndexToken) → HoldsIndexOf schema.now.schema (D.seen directory.old) n ts
        → OnOk result (HoldsIndexOf schema.now.schema (D.seen directory.new) (n + k) (with_tokens n ts us)) }
    ensures changed { D.is_known directory.old → (k : ℕ) (us : List IndexToken) → ArePending schema.now (D.seen directory.old) flushed documents k us → (n : ℕ) (ts : List IndexToken) → HoldsIndexOf schema.now.schema (D.seen directory.old) n ts
        → OnOk result (HoldsIndexOfSegment schema.now.schema (D.seen directory.new) (committed deletes.now n ts k us)) }
    ensures leaves_one { D.is_known directory.old → (k : ℕ) (us : List IndexToken) → ArePending schema.now (D.seen directory.old) flushed documents k us → (n : ℕ) (ts : List IndexToken) → HoldsIndexOf schema.now.schema (D.seen directory.old) n ts → (files : Files) → D.left_since directory.new (D.moment directory.old) files
        → HoldsIndexOf schema.now.schema files n ts ⊎ HoldsIndexOfSegment schema.now.schema files (committed deletes.now n ts k us) }
    ensures fault { D.is_known directory.old → (k : ℕ) (us : List IndexToken) → ArePending schema.now (D.seen directory.old) flushed documents k us → IfErr result (λ e. IsCommitError e schema.now flushed documents deletes.now (D.seen directory.old)) }
{
    if deletes.is_empty() {
        return add_documents(alloc, directory, schema, flushed, documents);
    }
    delete_and_add(alloc, directory, schema, flushed, documents, deletes)
}

// Adds segments that were written, and documents as a segment after them, unless there are none, to an index of this
// schema.
fn add_documents<D: Directory>(
    alloc: Global,
    directory: &mut D,
    schema: &TextSchema,
    flushed: Option<Flushed>,
    documents: Documents,
) -> Result<(), IndexError>
    requires schema { documents.schema ≡ schema.now.schema }
    requires lines { HaveLines documents.num_docs documents.lines }
    requires room { flushed_docs flushed + documents.num_docs ≤ TERMINATED }
    ensures known { D.is_known directory.old → OnOk result (D.is_known directory.new) }
    ensures obeys { D.is_known directory.old → Obeys IsRefusedError (D.may_refuse directory.old) (D.may_refuse directory.new) result }
    ensures added { D.is_known directory.old → (k : ℕ) (us : List IndexToken) → ArePending schema.now (D.seen directory.old) flushed documents k us → (n : ℕ) (ts : List IndexToken) → HoldsIndexOf schema.now.schema (D.seen directory.old) n ts
        → OnOk result (HoldsIndexOf schema.now.schema (D.seen directory.new) (n + k) (with_tokens n ts us)) }
    ensures leaves_one { D.is_known directory.old → (k : ℕ) (us : List IndexToken) → ArePending schema.now (D.seen directory.old) flushed documents k us → (n : ℕ) (ts : List IndexToken) → HoldsIndexOf schema.now.schema (D.seen directory.old) n ts → (files : Files) → D.left_since directory.new (D.moment directory.old) files
        → HoldsIndexOf schema.now.schema files n ts ⊎ HoldsIndexOf schema.now.schema files (n + k) (with_tokens n ts us) }
    ensures fault { D.is_known directory.old → IfErr result (λ e. IsAddError e schema.now flushed documents (D.seen directory.old)) }
{
    if flushed.is_none() {
        if documents.num_docs() == 0 {
            return Ok(());
        }
    }
    let flushed = match flush_last(alloc, directory, schema, flushed, documents) {
        Ok(flushed) => flushed,
        Err(fault) => return Err(fault),
    };
    match flushed.into_list().commit(alloc, directory) {
        Ok(()) => Ok(()),
        Err(fault) => Err(IndexError::Commit(fault)),
    }
}

// Deletes documents of an index, and adds segments that were written and documents as a segment after them, but for
// those that are deleted.
fn delete_and_add<D: Directory>(
    alloc: Global,
    directory: &mut D,
    schema: &TextSchema,
    flushed: Option<Flushed>,
    documents: Documents,
    deletes: &[Delete],
) -> Result<(), IndexError>
    requires schema { documents.schema ≡ schema.now.schema }
    requires lines { HaveLines documents.num_docs documents.lines }
    requires fields { HaveFieldsBelow (length schema.now.schema) deletes.now }
    requires room { flushed_docs flushed + documents.num_docs ≤ TERMINATED }
    ensures known { D.is_known directory.old → OnOk result (D.is_known directory.new) }
    ensures obeys { D.is_known directory.old → Obeys IsRefusedError (D.may_refuse directory.old) (D.may_refuse directory.new) result }
    ensures changed { D.is_known directory.old → (k : ℕ) (us : List IndexToken) → ArePending schema.now (D.seen directory.old) flushed documents k us → (n : ℕ) (ts : List IndexToken) → HoldsIndexOf schema.now.schema (D.seen directory.old) n ts
        → OnOk result (HoldsIndexOfSegment schema.now.schema (D.seen directory.new) (committed deletes.now n ts k us)) }
    ensures leaves_one { D.is_known directory.old → (k : ℕ) (us : List IndexToken) → ArePending schema.now (D.seen directory.old) flushed documents k us → (n : ℕ) (ts : List IndexToken) → HoldsIndexOf schema.now.schema (D.seen directory.old) n ts → (files : Files) → D.left_since directory.new (D.moment directory.old) files
        → HoldsIndexOf schema.now.schema files n ts ⊎ HoldsIndexOfSegment schema.now.schema files (committed deletes.now n ts k us) }
    ensures fault { D.is_known directory.old → (k : ℕ) (us : List IndexToken) → ArePending schema.now (D.seen directory.old) flushed documents k us → IfErr result (λ e. IsChangeError e schema.now flushed documents deletes.now (D.seen directory.old)) }
{
    let stored = match load_latest(alloc, directory) {
        Ok(stored) => stored,
        Err(fault) => return Err(IndexError::Store(fault)),
    };
    let deleted = match docs_to_delete(alloc, schema.schema(), stored.segments, deletes) {
        Ok(deleted) => deleted,
        Err(fault) => return Err(fault),
    };
    let flushed = match flush_last(alloc, directory, schema, flushed, documents) {
        Ok(flushed) => flushed,
        Err(fault) => return Err(fault),
    };
    let segments = match flushed.load(alloc, directory) {
        Ok(segments) => segments,
        Err(fault) => return Err(IndexError::Store(fault)),
    };
    let pending = match pending_docs_to_delete(alloc, schema.schema(), segments, deletes) {
        Ok(pending) => pending,
        Err(fault) => return Err(IndexError::Documents(fault)),
    };
    commit_list(alloc, directory, flushed.into_list(), deleted, pending)
}

// Deletes documents of the segments of a list, of the first ones and then of others, and puts it in the place of the
// current one.
fn commit_list<D: Directory>(
    alloc: Global,
    directory: &mut D,
    list: PendingSegments,
    deleted: Vec<Vec<DocId>>,
    pending: Vec<Vec<DocId>>,
) -> Result<(), IndexError>
    ensures known { D.is_known directory.old → OnOk result (D.is_known directory.new) }
    ensures obeys { D.is_known directory.old → Obeys IsRefusedError (D.may_refuse directory.old) (D.may_refuse directory.new) result }
    ensures changed { D.is_known directory.old → OnOk result (index_contents (D.seen directory.new) ≡ index_without (map (λ v. v.items) deleted.items ++ map (λ v. v.items) pending.items) (list_contents list (D.seen directory.old))) }
    ensures leaves_one { D.is_known directory.old → FollowsFlags list (D.seen directory.old) → LeavesOneIndex D.moment D.left_since D.seen directory.old directory.new (index_without (map (λ v. v.items) deleted.items ++ map (λ v. v.items) pending.items) (list_contents list (D.seen directory.old))) }
    ensures fault { D.is_known directory.old → IfErr result (λ e. IsListError e (map (λ v. v.items) deleted.items ++ map (λ v. v.items) pending.items) list (D.seen directory.old)) }
{
    let mut deleted = deleted;
    let mut pending = pending;
    match deleted.append(&mut pending) {
        Ok(()) => {}
        Err(refused) => return Err(IndexError::Documents(Fault::from(refused))),
    }
    let list = match list.delete(alloc, directory, deleted.as_slice()) {
        Ok(list) => list,
        Err(fault) => return Err(IndexError::Commit(fault)),
    };
    match list.commit(alloc, directory) {
        Ok(()) => Ok(()),
        Err(fault) => Err(IndexError::Commit(fault)),
    }
}
