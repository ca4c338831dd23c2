//! Writes documents as segments that an index doesn't have before they are committed.
ghost use Rattle.std.specs.Prelude.{◌≡◌, ◌+◌, ◌≤◌, ◌∷◌, ◌++◌, ℕ, [], IfErr, IfOk, List, None, OnOk, drop, map};
ghost use Rattle.ii_base.specs.Schema.{SchemaEntry};
ghost use Rattle.ii_base.specs.declared.doc_id.TheConstants.{TERMINATED};
ghost use Rattle.ii_definitions.specs.Tokens.{IndexToken};
ghost use Rattle.ii_directory.specs.Directory.{Obeys, is_obeyed};
ghost use Rattle.ii_directory.specs.declared.name.Name.TheVariants.{Meta};
ghost use Rattle.ii_index.specs.Faults.{IsAddError, IsRefusedError};
ghost use Rattle.ii_index.specs.Index.{flushed_docs};
ghost use Rattle.ii_index.specs.Pending.{ArePending, AreWritten, HoldsFlushed, HoldsFlushedIf, IsFirstList, IsNextList, IsWrittenSegment};
ghost use Rattle.ii_index.specs.Segments.{HaveLines};
ghost use Rattle.ii_segment_store.specs.Commits.{IsRefusedCommit, LeavesOneIndex};
ghost use Rattle.ii_segment_store.specs.Contents.{all_contents, files_contents, index_contents, segment_contents};
ghost use Rattle.ii_segment_store.specs.Pending.{IsBeginFault, IsPendingFault, with_next};
ghost use Rattle.ii_segments.specs.Segments.{Segment};
ghost use Rattle.ii_store.specs.Faults.{IsRefused};
ghost use Rattle.ii_store.specs.Index.{AnswersFromFiles};
ghost use Rattle.ii_store.specs.Segments.{list_in};

use crate::faults::IndexError;
use crate::segments::segment_of;
use ii_base::DocId;
use ii_directory::Directory;
use ii_schema_text::TextSchema;
use ii_segment_store::{CommitFault, PendingSegments, SegmentFiles, StoredSegment, load_last};
use ii_store::StoreFault;
use nequllpa_indexing::Documents;
use std::alloc::Global;
use std::marker::Model;

// Segments that were written, which an index doesn't have yet: they come after those of the index in its next list.
pub(crate) struct Flushed {
    list: PendingSegments,
    first: usize,
    num_docs: DocId,
}

// Makes each drop a call.
impl Drop for Flushed {
    fn drop(self) {
        let Flushed {
            list: _,
            first: _,
            num_docs: _,
        } = self;
    }
}

impl Model for Flushed {
    ghost use Rattle.ii_index.specs.Index.{FlushedState};

    ghost Value = { FlushedState };

    ghost view = { λ f. record { list = f.list; first = f.first; num_docs = f.num_docs } };
}

impl Flushed {
    // Begins without segments, after those of an index.
    fn begin<D: Directory>(alloc: Global, directory: &D) -> Result<Flushed, CommitFault>
        ensures none { D.is_known directory.now → (entries : List SchemaEntry) → IfOk result (λ x. HoldsFlushed entries (D.seen directory.now) x []) }
        ensures list { D.is_known directory.now → IfOk result (λ x. IsFirstList None (D.seen directory.now) x.list) }
        ensures empty { IfOk result (λ x. x.num_docs ≡ 0) }
        ensures fault { D.is_known directory.now → IfErr result (λ e. IsBeginFault e (list_in (D.seen directory.now Meta))) }
        ensures obeyed { is_obeyed IsRefusedCommit (D.may_refuse directory.now) result }
    {
        match PendingSegments::begin(alloc, directory) {
            Ok(list) => {
                let first = list.list().segments.as_slice().len();
                Ok(Flushed {
                    list,
                    first,
                    num_docs: 0,
                })
            }
            Err(fault) => Err(fault),
        }
    }

    // Returns the number of documents of the segments.
    pub(crate) fn num_docs(&self) -> DocId
        ensures { result ≡ self.now.num_docs }
    {
        self.num_docs
    }

    // Writes one more segment.
    fn add<D: Directory>(
        self,
        alloc: Global,
        directory: &mut D,
        segment: &SegmentFiles,
    ) -> Result<Flushed, CommitFault>
        requires room { self.num_docs + segment.now.num_docs ≤ TERMINATED }
        ensures known { D.is_known directory.old → OnOk result (D.is_known directory.new) }
        ensures obeys { Obeys IsRefusedCommit (D.may_refuse directory.old) (D.may_refuse directory.new) result }
        ensures holds { D.is_known directory.old → (entries : List SchemaEntry) (ss : List Segment) (s : Segment) → HoldsFlushed entries (D.seen directory.old) self ss → IsWrittenSegment entries (files_contents segment.now) s
            → IfOk result (λ x. HoldsFlushed entries (D.seen directory.new) x (ss ++ s ∷ [])) }
        ensures list { IfOk result (λ x. x.list ≡ with_next self.list (files_contents segment.now)) }
        ensures many { IfOk result (λ x. x.num_docs ≡ self.num_docs + segment.now.num_docs) }
        ensures same { D.is_known directory.old → (entries : List SchemaEntry) (ss : List Segment) → HoldsFlushed entries (D.seen directory.old) self ss → OnOk result (index_contents (D.seen directory.new) ≡ index_contents (D.seen directory.old)) }
        ensures leaves_same { D.is_known directory.old → (entries : List SchemaEntry) (ss : List Segment) → HoldsFlushed entries (D.seen directory.old) self ss → LeavesOneIndex D.moment D.left_since D.seen directory.old directory.new (index_contents (D.seen directory.old)) }
        ensures fault { IfErr result (λ e. IsPendingFault e (with_next self.list (files_contents segment.now))) }
    {
        let Flushed {
            list,
            first,
            num_docs,
        } = self;
        match list.add(alloc, directory, segment) {
            Ok(list) => Ok(Flushed {
                list,
                first,
                num_docs: num_docs + segment.num_docs,
            }),
            Err(fault) => Err(fault),
        }
    }

    // Loads the segments.
    pub(crate) fn load<D: Directory>(
        &self,
        alloc: Global,
        directory: &D,
    ) -> Result<Vec<StoredSegment>, StoreFault>
        ensures answers { D.is_known directory.now → AnswersFromFiles (λ v. map segment_contents v.items) result (all_contents (drop self.now.first self.now.list.segments) (D.seen directory.now)) }
        ensures obeyed { is_obeyed IsRefused (D.may_refuse directory.now) result }
    {
        match load_last(alloc, directory, self.list.list(), self.first) {
            Ok(segments) => Ok(segments),
            Err(fault) => Err(fault),
        }
    }

    // Returns the next list of the index.
    pub(crate) fn into_list(self) -> PendingSegments
        ensures { result ≡ self.list }
    {
        let Flushed {
            list,
            first: _,
            num_docs: _,
        } = self;
        list
    }
}

// Returns the segments that were written, or begins without.
fn begun<D: Directory>(
    alloc: Global,
    directory: &D,
    flushed: Option<Flushed>,
) -> Result<Flushed, CommitFault>
    ensures holds { D.is_known directory.now → (entries : List SchemaEntry) (ss : List Segment) → HoldsFlushedIf entries (D.seen directory.now) flushed ss → IfOk result (λ x. HoldsFlushed entries (D.seen directory.now) x ss) }
    ensures list { D.is_known directory.now → IfOk result (λ x. IsFirstList flushed (D.seen directory.now) x.list) }
    ensures many { IfOk result (λ x. x.num_docs ≡ flushed_docs flushed) }
    ensures fault { D.is_known directory.now → IfErr result (λ e. (flushed ≡ None) × IsBeginFault e (list_in (D.seen directory.now Meta))) }
    ensures obeyed { is_obeyed IsRefusedCommit (D.may_refuse directory.now) result }
{
    match flushed {
        Some(flushed) => Ok(flushed),
        None => Flushed::begin(alloc, directory),
    }
}

// Writes documents as a segment.
pub(crate) fn flush_documents<D: Directory>(
    alloc: Global,
    directory: &mut D,
    schema: &TextSchema,
    flushed: Option<Flushed>,
    documents: Documents,
) -> Result<Flushed, IndexError>
    requires schema { documents.schema ≡ schema.now.schema }
    requires lines { HaveLines documents.num_docs documents.lines }
    requires room { flushed_docs flushed + documents.num_docs ≤ TERMINATED }
    ensures known { D.is_known directory.old → OnOk result (D.is_known directory.new) }
    ensures obeys { Obeys IsRefusedError (D.may_refuse directory.old) (D.may_refuse directory.new) result }
    ensures written { D.is_known directory.old → (k : ℕ) (us : List IndexToken) → ArePending schema.now (D.seen directory.old) flushed documents k us → IfOk result (λ x. AreWritten schema.now.schema (D.seen directory.new) x k us) }
    ensures list { D.is_known directory.old → IfOk result (λ x. IsNextList schema.now flushed documents (D.seen directory.old) x.list) }
    ensures many { IfOk result (λ x. x.num_docs ≡ flushed_docs flushed + documents.num_docs) }
    ensures same { D.is_known directory.old → (k : ℕ) (us : List IndexToken) → ArePending schema.now (D.seen directory.old) flushed documents k us → OnOk result (index_contents (D.seen directory.new) ≡ index_contents (D.seen directory.old)) }
    ensures leaves_same { D.is_known directory.old → (k : ℕ) (us : List IndexToken) → ArePending schema.now (D.seen directory.old) flushed documents k us → LeavesOneIndex D.moment D.left_since D.seen directory.old directory.new (index_contents (D.seen directory.old)) }
    ensures fault { D.is_known directory.old → IfErr result (λ e. IsAddError e schema.now flushed documents (D.seen directory.old)) }
{
    let segment = match segment_of(alloc, documents, schema.tokenizers()) {
        Ok(segment) => segment,
        Err(fault) => return Err(IndexError::Documents(fault)),
    };
    let flushed = match begun(alloc, directory, flushed) {
        Ok(flushed) => flushed,
        Err(fault) => return Err(IndexError::Commit(fault)),
    };
    match flushed.add(alloc, directory, &segment) {
        Ok(flushed) => Ok(flushed),
        Err(fault) => Err(IndexError::Commit(fault)),
    }
}

// Writes documents as a segment, unless there are none.
pub(crate) fn flush_last<D: Directory>(
    alloc: Global,
    directory: &mut D,
    schema: &TextSchema,
    flushed: Option<Flushed>,
    documents: Documents,
) -> Result<Flushed, IndexError>
    requires schema { documents.schema ≡ schema.now.schema }
    requires lines { HaveLines documents.num_docs documents.lines }
    requires room { flushed_docs flushed + documents.num_docs ≤ TERMINATED }
    ensures known { D.is_known directory.old → OnOk result (D.is_known directory.new) }
    ensures obeys { Obeys IsRefusedError (D.may_refuse directory.old) (D.may_refuse directory.new) result }
    ensures written { D.is_known directory.old → (k : ℕ) (us : List IndexToken) → ArePending schema.now (D.seen directory.old) flushed documents k us → IfOk result (λ x. AreWritten schema.now.schema (D.seen directory.new) x k us) }
    ensures list { D.is_known directory.old → IfOk result (λ x. IsNextList schema.now flushed documents (D.seen directory.old) x.list) }
    ensures many { IfOk result (λ x. x.num_docs ≡ flushed_docs flushed + documents.num_docs) }
    ensures same { D.is_known directory.old → (k : ℕ) (us : List IndexToken) → ArePending schema.now (D.seen directory.old) flushed documents k us → OnOk result (index_contents (D.seen directory.new) ≡ index_contents (D.seen directory.old)) }
    ensures leaves_same { D.is_known directory.old → (k : ℕ) (us : List IndexToken) → ArePending schema.now (D.seen directory.old) flushed documents k us → LeavesOneIndex D.moment D.left_since D.seen directory.old directory.new (index_contents (D.seen directory.old)) }
    ensures fault { D.is_known directory.old → IfErr result (λ e. IsAddError e schema.now flushed documents (D.seen directory.old)) }
{
    if documents.num_docs() > 0 {
        return flush_documents(alloc, directory, schema, flushed, documents);
    }
    match begun(alloc, directory, flushed) {
        Ok(flushed) => Ok(flushed),
        Err(fault) => Err(IndexError::Commit(fault)),
    }
}
