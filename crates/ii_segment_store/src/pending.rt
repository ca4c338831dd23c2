//! Segments that are written one by one, and added to an index all at once.
ghost use Rattle.std.specs.Prelude.{◌≡◌, ◌+◌, ◌≤◌, ◌^◌, IfErr, IfOk, Ok, OnOk, map};
ghost use Rattle.ii_directory.specs.declared.name.Name.TheVariants.{Meta};
ghost use Rattle.ii_directory.specs.Directory.{Obeys, is_obeyed};
ghost use Rattle.ii_store.specs.IndexMeta.{IsValidMeta, MetaState, meta_view, segment_view};
ghost use Rattle.ii_store.specs.Segments.{KeepsOtherFiles, list_in};
ghost use Rattle.ii_segment_store.specs.Changes.{IsFlaggedList, index_without};
ghost use Rattle.ii_segment_store.specs.Commits.{HasSegment, HaveIdsBelow, IsRefusedCommit, KeepsButSegment, LeavesOneIndex, emptied};
ghost use Rattle.ii_segment_store.specs.Contents.{files_contents, index_contents, list_contents, with_segment};
ghost use Rattle.ii_segment_store.specs.NewSegments.{IsWritten, new_contents};
ghost use Rattle.ii_segment_store.specs.Pending.{FollowsFlags, IsBeginFault, IsFlaggingFault, IsPending, IsPendingFault, begun, with_listed, with_next};

use crate::block_tables::segment_tables;
use crate::committing::{listed_segment, write_segment};
use crate::deleting::{first_uncounted, write_deletes};
use crate::faults::CommitFault;
use crate::new_segment::{NewSegment, finish_segment};
use crate::replacing::empty_list;
use crate::stored_segments::SegmentFiles;
use ii_base::DocId;
use ii_store::commit_check::is_valid;
use ii_store::segments::{load_meta, replace_list};
use ii_store::{Directory, IndexMeta, SegmentMeta};
use std::alloc::Global;
use std::marker::Model;

/// The next list of the segments of a directory's index. Its new segments are in the directory, but the directory's
/// index doesn't have them before `commit`.
///
/// Its model is the list. Use it with one directory, and change the directory by it alone until `commit`. If it is
/// dropped, the files of its segments remain until `collect`.
#[derive(Drop)]
pub struct PendingSegments {
    list: IndexMeta,
}

impl Model for PendingSegments {
    ghost use Rattle.ii_store.specs.IndexMeta.{MetaState, meta_view};

    ghost Value = { MetaState };

    ghost view = { λ s. meta_view s.list };
}

impl PendingSegments {
    /// Begins with the segments of an index of version 2 or 3: those that are added come after them.
    ///
    /// # Errors
    ///
    /// The errors of `load_meta`, `OtherVersion` for an index of version 1 (see `upgrade`); `TooMany` if the index
    /// is of the last generation.
    pub fn begin<D: Directory>(alloc: Global, directory: &D) -> Result<PendingSegments, CommitFault>
        ensures list { D.is_known directory.now → IfOk result (λ p. (m : MetaState) × (list_in (D.seen directory.now Meta) ≡ Ok m) × (p ≡ begun m)) }
        ensures pending { D.is_known directory.now → IfOk result (λ p. IsPending p (D.seen directory.now)) }
        ensures holds { D.is_known directory.now → IfOk result (λ p. list_contents p (D.seen directory.now) ≡ index_contents (D.seen directory.now)) }
        ensures follows { D.is_known directory.now → IfOk result (λ p. FollowsFlags p (D.seen directory.now)) }
        ensures fault { D.is_known directory.now → IfErr result (λ e. IsBeginFault e (list_in (D.seen directory.now Meta))) }
        ensures obeyed { is_obeyed IsRefusedCommit (D.may_refuse directory.now) result }
    {
        match load_meta(alloc, directory) {
            Ok(list) => PendingSegments::of_list(list),
            Err(fault) => Err(CommitFault::Store(fault)),
        }
    }

    /// Begins with a schema and no segments. The new index replaces that of the directory, if there is one: of
    /// any version, also a damaged one.
    ///
    /// # Errors
    ///
    /// `TooMany` if the directory's list is of the last generation.
    pub fn begin_new<D: Directory>(
        alloc: Global,
        directory: &D,
        schema: Vec<u8>,
    ) -> Result<PendingSegments, CommitFault>
        ensures list { D.is_known directory.now → IfOk result (λ p. p ≡ begun (emptied schema.items (list_in (D.seen directory.now Meta)))) }
        ensures pending { D.is_known directory.now → IfOk result (λ p. IsPending p (D.seen directory.now)) }
        ensures fault { D.is_known directory.now → IfErr result (λ e. IsBeginFault e (Ok (emptied schema.items (list_in (D.seen directory.now Meta))))) }
        ensures obeyed { is_obeyed IsRefusedCommit (D.may_refuse directory.now) result }
    {
        match empty_list(alloc, directory, schema) {
            Ok(list) => PendingSegments::of_list(list),
            Err(fault) => Err(CommitFault::from(fault)),
        }
    }

    // Returns a list of the next generation.
    pub(crate) fn of_list(list: IndexMeta) -> Result<PendingSegments, CommitFault>
        ensures list { IfOk result (λ p. p ≡ begun (meta_view list)) }
        ensures fault { IfErr result (λ e. (e ≡ CommitFault.TooMany) × (2 ^ 64 ≤ list.generation + 1)) }
    {
        let mut list = list;
        if list.generation == u64::MAX {
            return Err(CommitFault::TooMany);
        }
        list.generation += 1;
        Ok(PendingSegments { list })
    }

    /// Returns the list.
    pub fn list(&self) -> &IndexMeta
        ensures { meta_view result.now ≡ self.now }
    {
        &self.list
    }

    /// Writes the files of a segment under an id that no segment had. The directory holds the same index, wherever
    /// this is stopped.
    ///
    /// After an error the segments that were added before are dropped as well.
    ///
    /// # Errors
    ///
    /// `TooMany` if the index would have too many documents or segments: nothing is written then.
    pub fn add<D: Directory>(
        self,
        alloc: Global,
        directory: &mut D,
        segment: &SegmentFiles,
    ) -> Result<PendingSegments, CommitFault>
        ensures known { D.is_known directory.old → OnOk result (D.is_known directory.new) }
        ensures obeys { Obeys IsRefusedCommit (D.may_refuse directory.old) (D.may_refuse directory.new) result }
        ensures list { IfOk result (λ p. p ≡ with_next self (files_contents segment.now)) }
        ensures valid { IfOk result (λ p. IsValidMeta p) }
        ensures holds { D.is_known directory.old → HaveIdsBelow self.next_segment_id self.segments → IfOk result (λ p. list_contents p (D.seen directory.new) ≡ with_segment (files_contents segment.now) (list_contents self (D.seen directory.old))) }
        ensures written { D.is_known directory.old → OnOk result (HasSegment self.next_segment_id (files_contents segment.now) (D.seen directory.new)) }
        // what stays
        ensures pending { D.is_known directory.old → IsPending self (D.seen directory.old) → IfOk result (λ p. IsPending p (D.seen directory.new)) }
        ensures follows { D.is_known directory.old → FollowsFlags self (D.seen directory.old) → IfOk result (λ p. FollowsFlags p (D.seen directory.new)) }
        ensures same { D.is_known directory.old → IsPending self (D.seen directory.old) → OnOk result (index_contents (D.seen directory.new) ≡ index_contents (D.seen directory.old)) }
        ensures keeps { D.is_known directory.old → OnOk result (KeepsButSegment self.next_segment_id (D.seen directory.old) (D.seen directory.new)) }
        ensures leaves_same { D.is_known directory.old → IsPending self (D.seen directory.old) → LeavesOneIndex D.moment D.left_since D.seen directory.old directory.new (index_contents (D.seen directory.old)) }
        ensures fault { IfErr result (λ e. IsPendingFault e (with_next self (files_contents segment.now))) }
    {
        let id = self.list.next_segment_id;
        let tables = segment_tables(alloc, segment)?;
        let listed = listed_segment(alloc, id, segment, tables.as_slice())?;
        let list = match with_listed(self.list, listed) {
            Ok(list) => list,
            Err(fault) => return Err(fault),
        };
        match write_segment(directory, id, segment, tables.as_slice()) {
            Ok(()) => Ok(PendingSegments { list }),
            Err(fault) => Err(CommitFault::from(fault)),
        }
    }

    /// The same for a segment whose files have no names yet. Each file is read once it has its name, to list its checksums.
    ///
    /// # Errors
    ///
    /// `TooMany` as `add` returns it, but the files have their names then.
    pub fn add_new<D: Directory>(
        self,
        alloc: Global,
        directory: &mut D,
        segment: NewSegment<D::NewFile>,
    ) -> Result<PendingSegments, CommitFault>
        requires written { D.is_known directory.old → IsWritten segment }
        ensures known { D.is_known directory.old → OnOk result (D.is_known directory.new) }
        ensures obeys { D.is_known directory.old → Obeys IsRefusedCommit (D.may_refuse directory.old) (D.may_refuse directory.new) result }
        ensures list { D.is_known directory.old → IfOk result (λ p. p ≡ with_next self (new_contents segment)) }
        ensures holds { D.is_known directory.old → HaveIdsBelow self.next_segment_id self.segments → IfOk result (λ p. list_contents p (D.seen directory.new) ≡ with_segment (new_contents segment) (list_contents self (D.seen directory.old))) }
        ensures same { D.is_known directory.old → IsPending self (D.seen directory.old) → OnOk result (index_contents (D.seen directory.new) ≡ index_contents (D.seen directory.old)) }
        ensures leaves_same { D.is_known directory.old → IsPending self (D.seen directory.old) → LeavesOneIndex D.moment D.left_since D.seen directory.old directory.new (index_contents (D.seen directory.old)) }
        ensures fault { D.is_known directory.old → IfErr result (λ e. IsPendingFault e (with_next self (new_contents segment))) }
    {
        let listed = match finish_segment(alloc, directory, self.list.next_segment_id, segment) {
            Ok(listed) => listed,
            Err(fault) => return Err(CommitFault::from(fault)),
        };
        match with_listed(self.list, listed) {
            Ok(list) => Ok(PendingSegments { list }),
            Err(fault) => Err(fault),
        }
    }

    /// Deletes documents of the segments of the list. `deleted` has for each segment, in order, the numbers of its
    /// documents that are deleted; a number that isn't one of its documents is ignored, and a deleted document stays
    /// deleted. The new flags are written to files that no list of segments had. The directory holds the same index,
    /// wherever this is stopped.
    ///
    /// After an error the segments that were added before are dropped as well.
    ///
    /// # Errors
    ///
    /// `NoCounts` for the first segment without counts whose documents would be deleted. The fault of the flags of a
    /// segment whose documents are deleted. `TooMany` if flags can have no later generation.
    pub fn delete<D: Directory>(
        self,
        alloc: Global,
        directory: &mut D,
        deleted: &[Vec<DocId>],
    ) -> Result<PendingSegments, CommitFault>
        ensures known { D.is_known directory.old → OnOk result (D.is_known directory.new) }
        ensures obeys { Obeys IsRefusedCommit (D.may_refuse directory.old) (D.may_refuse directory.new) result }
        ensures holds { D.is_known directory.old → IfOk result (λ p. list_contents p (D.seen directory.new) ≡ index_without (map (λ v. v.items) deleted.now) (list_contents self (D.seen directory.old))) }
        ensures flagged { D.is_known directory.old → IfOk result (λ p. IsFlaggedList (map (λ v. v.items) deleted.now) self p (D.seen directory.old)) }
        // what stays
        ensures same { D.is_known directory.old → FollowsFlags self (D.seen directory.old) → OnOk result (index_contents (D.seen directory.new) ≡ index_contents (D.seen directory.old)) }
        ensures leaves_same { D.is_known directory.old → FollowsFlags self (D.seen directory.old) → LeavesOneIndex D.moment D.left_since D.seen directory.old directory.new (index_contents (D.seen directory.old)) }
        ensures fault { D.is_known directory.old → IfErr result (λ e. IsFlaggingFault e (map (λ v. v.items) deleted.now) self (D.seen directory.old)) }
    {
        let list = self.list;
        if let Some(id) = first_uncounted(deleted, list.segments.as_slice()) {
            return Err(CommitFault::NoCounts(id));
        }
        match write_deletes(alloc, directory, list, deleted) {
            Ok(list) => Ok(PendingSegments { list }),
            Err(fault) => Err(fault),
        }
    }

    /// Atomically replaces `meta`: the directory's index has all segments of the list then, and no others.
    ///
    /// After a stop or an error the directory holds the old index or the new one. After an error, open the
    /// directory again. No files of segments are read or written; those that the list doesn't have remain until
    /// `collect`.
    ///
    /// # Errors
    ///
    /// `TooMany` if no `meta` can hold the list: its schema has 2^32 bytes or more. Nothing is written then.
    pub fn commit<D: Directory>(self, alloc: Global, directory: &mut D) -> Result<(), CommitFault>
        ensures known { D.is_known directory.old → OnOk result (D.is_known directory.new) }
        ensures obeys { D.is_known directory.old → Obeys IsRefusedCommit (D.may_refuse directory.old) (D.may_refuse directory.new) result }
        ensures listed { D.is_known directory.old → OnOk result (list_in (D.seen directory.new Meta) ≡ Ok self) }
        ensures committed { D.is_known directory.old → OnOk result (index_contents (D.seen directory.new) ≡ list_contents self (D.seen directory.old)) }
        ensures keeps { D.is_known directory.old → OnOk result (KeepsOtherFiles (D.seen directory.old) (D.seen directory.new)) }
        ensures leaves_one { D.is_known directory.old → LeavesOneIndex D.moment D.left_since D.seen directory.old directory.new (list_contents self (D.seen directory.old)) }
        ensures fault { IfErr result (λ e. IsPendingFault e self) }
    {
        let list = self.list;
        if !is_valid(&list) {
            return Err(CommitFault::TooMany);
        }
        match replace_list(alloc, directory, &list) {
            Ok(()) => Ok(()),
            Err(fault) => Err(CommitFault::from(fault)),
        }
    }
}

// Returns a list with one segment more, or `TooMany` if no `meta` can hold it.
fn with_listed(list: IndexMeta, listed: SegmentMeta) -> Result<IndexMeta, CommitFault>
    ensures next { IfOk result (λ m. meta_view m ≡ with_listed (meta_view list) (segment_view listed)) }
    ensures valid { IfOk result (λ m. IsValidMeta (meta_view m)) }
    ensures fault { IfErr result (λ e. IsPendingFault e (with_listed (meta_view list) (segment_view listed))) }
    ensures memory { is_obeyed IsRefusedCommit ⊥ result }
{
    let mut next = list;
    if next.next_segment_id == u64::MAX {
        return Err(CommitFault::TooMany);
    }
    next.segments.push(listed)?;
    next.next_segment_id += 1;
    if !is_valid(&next) {
        return Err(CommitFault::TooMany);
    }
    Ok(next)
}
