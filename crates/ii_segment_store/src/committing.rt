//! Adds a segment to an index, so that a stop leaves the old index or the new one.
ghost use Rattle.std.specs.Prelude.{◌≡◌, ◌++◌, IfErr, IfOk, Ok, OnOk};
ghost use Rattle.std.specs.Option.{option_map};
ghost use Rattle.ii_directory.specs.declared.name.Name.TheVariants.{Meta, Segment};
ghost use Rattle.ii_directory.specs.Directory.{Elapses, Elsewhere, IsRefusal, Obeys};
ghost use Rattle.ii_store.specs.Index.{index_of, view};
ghost use Rattle.ii_store.specs.IndexMeta.{IsValidMeta, meta_view, segment_view};
ghost use Rattle.ii_store.specs.Segments.{list_in};
ghost use Rattle.ii_segment_store.specs.Commits.{HasFileIf, HasList, HasSegment, HaveIdsBelow, HoldsOldOr, IsCommitFault, IsFresh, IsRefusedCommit, KeepsButSegment, LeavesOneIndex, listed_if, listed_segment, next_list};
ghost use Rattle.ii_segment_store.specs.BlockTables.{segment_tables};
ghost use Rattle.ii_segment_store.specs.Contents.{index_contents, list_contents, files_contents, with_segment};
ghost use Rattle.ii_segment_store.specs.NewSegments.{IsWritten, new_contents};

use crate::faults::CommitFault;
use crate::new_segment::NewSegment;
use crate::pending::PendingSegments;
use crate::stored_segments::SegmentFiles;
use ii_store::segments::load_meta;
use ii_store::{
    Directory, DirectoryFault, FileMeta, IndexFault, IndexMeta, Name, SegmentComponent, SegmentId,
    SegmentMeta, StoreFault, StoredIndex, load,
};
use std::alloc::{AllocError, Global};

/// Adds a segment after those of an index of version 2 or 3: writes its files under an id that no segment had, and
/// atomically replaces `meta`.
///
/// After a stop or an error the directory holds the old index or the one with the new segment. After an error,
/// open the directory again. The files of other segments aren't read.
///
/// # Errors
///
/// The errors of `load_meta`, `OtherVersion` for an index of version 1 (see `upgrade`); `TooMany` if the index
/// would have too many documents or segments. Nothing is written then.
pub fn append_segment<D: Directory>(
    alloc: Global,
    directory: &mut D,
    segment: &SegmentFiles,
) -> Result<(), CommitFault>
    ensures known { D.is_known directory.old → OnOk result (D.is_known directory.new) }
    ensures obeys { D.is_known directory.old → Obeys IsRefusedCommit (D.may_refuse directory.old) (D.may_refuse directory.new) result }
    ensures appended { D.is_known directory.old → OnOk result (index_contents (D.seen directory.new) ≡ with_segment (files_contents segment.now) (index_contents (D.seen directory.old))) }
    ensures leaves_one { D.is_known directory.old → LeavesOneIndex D.moment D.left_since D.seen directory.old directory.new (with_segment (files_contents segment.now) (index_contents (D.seen directory.old))) }
    ensures fault { D.is_known directory.old → IfErr result (λ e. IsCommitFault e (list_in (D.seen directory.old Meta)) (files_contents segment.now)) }
{
    let list = match load_meta(alloc, directory) {
        Ok(list) => list,
        Err(fault) => return Err(CommitFault::Store(fault)),
    };
    commit_segment(alloc, directory, list, segment)
}

/// Makes an index of version 1 one of version 3 with one segment of the same bytes. Returns whether the index
/// was of version 1; a later one is left as it is. The files of version 1 remain until `remove_slots`.
///
/// What the index holds doesn't change, wherever this is stopped.
///
/// # Errors
///
/// `NoIndex` and `DamagedMeta` as `load_meta` returns them; the errors of `load` for an index of version 1;
/// `TooMany` if it has 2^31 documents or more, or a schema of 2^32 bytes or more.
pub fn upgrade<D: Directory>(alloc: Global, directory: &mut D) -> Result<bool, CommitFault>
    ensures known { D.is_known directory.old → OnOk result (D.is_known directory.new) }
    ensures obeys { D.is_known directory.old → Obeys IsRefusedCommit (D.may_refuse directory.old) (D.may_refuse directory.new) result }
    ensures same { D.is_known directory.old → OnOk result (index_contents (D.seen directory.new) ≡ index_contents (D.seen directory.old)) }
    ensures listed { D.is_known directory.old → OnOk result (HasList (D.seen directory.new)) }
    ensures leaves_same { D.is_known directory.old → LeavesOneIndex D.moment D.left_since D.seen directory.old directory.new (index_contents (D.seen directory.old)) }
{
    match load_meta(alloc, directory) {
        Ok(_) => return Ok(false),
        Err(StoreFault::Index(IndexFault::OtherVersion(_))) => {}
        Err(fault) => return Err(CommitFault::Store(fault)),
    }
    let index = match load(alloc, directory) {
        Ok(index) => index,
        Err(fault) => return Err(CommitFault::Store(fault)),
    };
    match upgrade_from(alloc, directory, index) {
        Ok(()) => Ok(true),
        Err(fault) => Err(fault),
    }
}

// Puts a list of one segment in the place of the current index of version 1.
fn upgrade_from<D: Directory>(
    alloc: Global,
    directory: &mut D,
    index: StoredIndex,
) -> Result<(), CommitFault>
    requires { D.is_known directory.old → index_of (D.seen directory.old) ≡ Ok (view index) }
    ensures known { D.is_known directory.old → OnOk result (D.is_known directory.new) }
    ensures obeys { D.is_known directory.old → Obeys IsRefusedCommit (D.may_refuse directory.old) (D.may_refuse directory.new) result }
    ensures same { D.is_known directory.old → OnOk result (index_contents (D.seen directory.new) ≡ index_contents (D.seen directory.old)) }
    ensures listed { D.is_known directory.old → OnOk result (HasList (D.seen directory.new)) }
    ensures time { D.is_known directory.old → Elapses (D.moment directory.old) (D.moment directory.new) (D.left_since directory.old) (D.left_since directory.new) (HoldsOldOr (index_contents (D.seen directory.old)) (D.seen directory.old)) }
{
    let StoredIndex {
        num_docs,
        schema,
        terms,
        postings,
        positions,
        fieldnorms,
    } = index;
    let list = IndexMeta {
        generation: 0,
        next_segment_id: 0,
        schema,
        segments: Vec::new(alloc),
    };
    let segment = SegmentFiles {
        num_docs,
        terms,
        postings,
        positions,
        fieldnorms,
        counts: None,
        store: None,
    };
    let committed = commit_segment(alloc, directory, list, &segment);
    drop(segment);
    committed
}

// Writes a segment, and puts the list with it at its end in the place of the current one.
pub(crate) fn commit_segment<D: Directory>(
    alloc: Global,
    directory: &mut D,
    list: IndexMeta,
    segment: &SegmentFiles,
) -> Result<(), CommitFault>
    ensures known { D.is_known directory.old → OnOk result (D.is_known directory.new) }
    ensures obeys { D.is_known directory.old → Obeys IsRefusedCommit (D.may_refuse directory.old) (D.may_refuse directory.new) result }
    ensures committed { D.is_known directory.old → HaveIdsBelow list.next_segment_id (meta_view list).segments → OnOk result (index_contents (D.seen directory.new) ≡ with_segment (files_contents segment.now) (list_contents (meta_view list) (D.seen directory.old))) }
    ensures listed { D.is_known directory.old → OnOk result (list_in (D.seen directory.new Meta) ≡ Ok (next_list (meta_view list) (files_contents segment.now))) }
    ensures time { D.is_known directory.old → IsFresh list.next_segment_id (D.seen directory.old) → HaveIdsBelow list.next_segment_id (meta_view list).segments → Elapses (D.moment directory.old) (D.moment directory.new) (D.left_since directory.old) (D.left_since directory.new) (HoldsOldOr (with_segment (files_contents segment.now) (list_contents (meta_view list) (D.seen directory.old))) (D.seen directory.old)) }
    ensures fault { IfErr result (λ e. IsCommitFault e (Ok (meta_view list)) (files_contents segment.now)) }
{
    let pending = match PendingSegments::of_list(list) {
        Ok(pending) => pending,
        Err(fault) => return Err(fault),
    };
    match pending.add(alloc, directory, segment) {
        Ok(pending) => pending.commit(alloc, directory),
        Err(fault) => Err(fault),
    }
}

// The same for a segment whose files have no names yet.
pub(crate) fn commit_new<D: Directory>(
    alloc: Global,
    directory: &mut D,
    list: IndexMeta,
    segment: NewSegment<D::NewFile>,
) -> Result<(), CommitFault>
    requires written { D.is_known directory.old → IsWritten segment }
    ensures known { D.is_known directory.old → OnOk result (D.is_known directory.new) }
    ensures obeys { D.is_known directory.old → Obeys IsRefusedCommit (D.may_refuse directory.old) (D.may_refuse directory.new) result }
    ensures committed { D.is_known directory.old → HaveIdsBelow list.next_segment_id (meta_view list).segments → OnOk result (index_contents (D.seen directory.new) ≡ with_segment (new_contents segment) (list_contents (meta_view list) (D.seen directory.old))) }
    ensures time { D.is_known directory.old → IsFresh list.next_segment_id (D.seen directory.old) → HaveIdsBelow list.next_segment_id (meta_view list).segments → Elapses (D.moment directory.old) (D.moment directory.new) (D.left_since directory.old) (D.left_since directory.new) (HoldsOldOr (with_segment (new_contents segment) (list_contents (meta_view list) (D.seen directory.old))) (D.seen directory.old)) }
    ensures fault { D.is_known directory.old → IfErr result (λ e. IsCommitFault e (Ok (meta_view list)) (new_contents segment)) }
{
    let pending = match PendingSegments::of_list(list) {
        Ok(pending) => pending,
        Err(fault) => return Err(fault),
    };
    match pending.add_new(alloc, directory, segment) {
        Ok(pending) => pending.commit(alloc, directory),
        Err(fault) => Err(fault),
    }
}

// Returns a segment with the tables of its files, as `meta` lists it.
pub(crate) fn listed_segment(
    alloc: Global,
    id: SegmentId,
    segment: &SegmentFiles,
    tables: &[u8],
) -> Result<SegmentMeta, AllocError>
    requires { tables.now ≡ segment_tables (files_contents segment.now) }
    ensures { IfOk result (λ s. segment_view s ≡ listed_segment id (files_contents segment.now)) }
{
    let mut files = Vec::new(alloc);
    files.push(FileMeta::new(SegmentComponent::Terms, segment.terms.as_slice()))?;
    files.push(FileMeta::new(SegmentComponent::Postings, segment.postings.as_slice()))?;
    files.push(FileMeta::new(SegmentComponent::Positions, segment.positions.as_slice()))?;
    files.push(FileMeta::new(SegmentComponent::FieldNorms, segment.fieldnorms.as_slice()))?;
    push_if_some(&mut files, SegmentComponent::Counts, &segment.counts)?;
    push_if_some(&mut files, SegmentComponent::Store, &segment.store)?;
    files.push(FileMeta::new(SegmentComponent::BlockTables, tables))?;
    Ok(SegmentMeta {
        id,
        num_docs: segment.num_docs,
        num_living: segment.num_docs,
        files,
    })
}

// Adds a file that a segment may not have.
fn push_if_some(
    files: &mut Vec<FileMeta>,
    component: SegmentComponent,
    bytes: &Option<Vec<u8>>,
) -> Result<(), AllocError>
    ensures { OnOk result (files.new.items ≡ files.old.items ++ listed_if component (option_map (λ v. v.items) bytes.now)) }
{
    match bytes {
        Some(bytes) => Ok(files.push(FileMeta::new(component, bytes.as_slice()))?),
        None => Ok(()),
    }
}

// Writes the files of a segment, and the tables of these.
pub(crate) fn write_segment<D: Directory>(
    directory: &mut D,
    id: SegmentId,
    segment: &SegmentFiles,
    tables: &[u8],
) -> Result<(), DirectoryFault>
    requires { tables.now ≡ segment_tables (files_contents segment.now) }
    ensures known { D.is_known directory.old → OnOk result (D.is_known directory.new) }
    ensures obeys { Obeys IsRefusal (D.may_refuse directory.old) (D.may_refuse directory.new) result }
    ensures there { D.is_known directory.old → OnOk result (HasSegment id (files_contents segment.now) (D.seen directory.new)) }
    ensures keeps { D.is_known directory.old → OnOk result (KeepsButSegment id (D.seen directory.old) (D.seen directory.new)) }
    ensures time { D.is_known directory.old → Elapses (D.moment directory.old) (D.moment directory.new) (D.left_since directory.old) (D.left_since directory.new) (KeepsButSegment id (D.seen directory.old)) }
{
    directory.write(
        Name::Segment(id, SegmentComponent::Terms),
        segment.terms.as_slice(),
    )?;
    directory.write(
        Name::Segment(id, SegmentComponent::Postings),
        segment.postings.as_slice(),
    )?;
    directory.write(
        Name::Segment(id, SegmentComponent::Positions),
        segment.positions.as_slice(),
    )?;
    directory.write(
        Name::Segment(id, SegmentComponent::FieldNorms),
        segment.fieldnorms.as_slice(),
    )?;
    write_if_some(directory, id, SegmentComponent::Counts, &segment.counts)?;
    write_if_some(directory, id, SegmentComponent::Store, &segment.store)?;
    directory.write(Name::Segment(id, SegmentComponent::BlockTables), tables)
}

// Writes a file that a segment may not have.
fn write_if_some<D: Directory>(
    directory: &mut D,
    id: SegmentId,
    component: SegmentComponent,
    bytes: &Option<Vec<u8>>,
) -> Result<(), DirectoryFault>
    ensures known { D.is_known directory.old → OnOk result (D.is_known directory.new) }
    ensures obeys { Obeys IsRefusal (D.may_refuse directory.old) (D.may_refuse directory.new) result }
    ensures there { D.is_known directory.old → OnOk result (HasFileIf id component (option_map (λ v. v.items) bytes.now) (D.seen directory.new)) }
    ensures keeps { D.is_known directory.old → OnOk result (Elsewhere (Segment id component) (D.seen directory.old) (D.seen directory.new)) }
    ensures time { D.is_known directory.old → Elapses (D.moment directory.old) (D.moment directory.new) (D.left_since directory.old) (D.left_since directory.new) (Elsewhere (Segment id component) (D.seen directory.old)) }
{
    match bytes {
        Some(bytes) => directory.write(Name::Segment(id, component), bytes.as_slice()),
        None => Ok(()),
    }
}
