// An index of segments in a directory: segments are added, documents deleted, and stops lose neither.
ghost use Rattle.std.specs.Prelude.{◌≡◌, ◌⊎◌, ℕ, List, Ok, IfOk, IsErrOf, IsTrue, OnOk, map, replicate, true};
ghost use Rattle.std.specs.List.{AllByRecursion};
ghost use Rattle.std.specs.Option.{option_map};
ghost use Rattle.ii_directory.specs.Directory.{Files};
ghost use Rattle.ii_directory.specs.declared.name.Name.TheVariants.{Meta};
ghost use Rattle.ii_store.specs.IndexMeta.{meta_view};
ghost use Rattle.ii_store.specs.Segments.{index_with, list_in, segments_of};
ghost use Rattle.ii_segment_store.specs.Changes.{changed_index};
ghost use Rattle.ii_segment_store.specs.Commits.{index_of_segment};
ghost use Rattle.ii_segment_store.specs.Contents.{contents_view, files_contents, index_contents, with_segment};
ghost use Rattle.ii_segment_store.specs.NewSegments.{new_contents};
ghost use Rattle.ii_segment_store.specs.Sources.{HasKnownStore, source_contents};
ghost use Rattle.ii_segments.specs.Segments.{Segment, index_tokens, num_docs_of};
ghost use Rattle.nequllpa_merging.specs.HeldSegments.{HoldSegments, HoldsSegment};
ghost use Rattle.nequllpa_merging.specs.Joins.{HoldsIndex};

use ii_base::{DocId, Part, Schema};
use ii_segment_store::{
    CommitFault, NewSegment, PendingSegments, SegmentFiles, SegmentSource, StoredSegments,
    append_segment, commit_changes, load_segments, replace_index, upgrade,
};
use ii_store::collect::collect;
use ii_store::commit_check::may_commit;
use ii_store::segments::commit;
use ii_store::{Directory, DirectoryFault, IndexMeta, StoreFault};
use nequllpa_merging::{JoinFault, MergeFault, merge_last, merge_segments};
use std::alloc::Global;

/// What is loaded is what the index of the directory holds.
pub fn what_the_index_holds_is_loaded<D: Directory>(
    alloc: Global,
    directory: &D,
) -> Result<StoredSegments, StoreFault>
    requires { D.is_known directory.now }
    ensures { IfOk result (λ loaded. index_contents (D.seen directory.now) ≡ Ok (contents_view loaded)) }
{
    load_segments(alloc, directory)
}

/// After a segment was added, the index holds what it held, and this segment at its end. Wherever adding it is
/// stopped, it holds this, or what it held.
pub fn segments_are_added_at_once<D: Directory>(
    alloc: Global,
    directory: &mut D,
    segment: &SegmentFiles,
) -> Result<(), CommitFault>
    requires { D.is_known directory.old }
    ensures added { OnOk result (index_contents (D.seen directory.new) ≡ with_segment (files_contents segment.now) (index_contents (D.seen directory.old))) }
    ensures stopped { (files : Files) → D.left_since directory.new (D.moment directory.old) files
        → (index_contents files ≡ index_contents (D.seen directory.old)) ⊎ (index_contents files ≡ with_segment (files_contents segment.now) (index_contents (D.seen directory.old))) }
{
    append_segment(alloc, directory, segment)
}

/// Two segments are added at once, after those that the index has. Wherever this is stopped, the index holds what it
/// held, or both segments at its end.
pub fn two_segments_are_added_at_once<D: Directory>(
    alloc: Global,
    directory: &mut D,
    first: &SegmentFiles,
    second: &SegmentFiles,
) -> Result<(), CommitFault>
    requires { D.is_known directory.old }
    ensures added { OnOk result (index_contents (D.seen directory.new) ≡ with_segment (files_contents second.now) (with_segment (files_contents first.now) (index_contents (D.seen directory.old)))) }
    ensures stopped { (files : Files) → D.left_since directory.new (D.moment directory.old) files
        → (index_contents files ≡ index_contents (D.seen directory.old)) ⊎ (index_contents files ≡ with_segment (files_contents second.now) (with_segment (files_contents first.now) (index_contents (D.seen directory.old)))) }
{
    let pending = match PendingSegments::begin(alloc, directory) {
        Ok(pending) => pending,
        Err(fault) => return Err(fault),
    };
    let pending = match pending.add(alloc, directory, first) {
        Ok(pending) => pending,
        Err(fault) => return Err(fault),
    };
    let pending = match pending.add(alloc, directory, second) {
        Ok(pending) => pending,
        Err(fault) => return Err(fault),
    };
    pending.commit(alloc, directory)
}

/// After an index was replaced, the directory's index has exactly the given schema and segment. Wherever replacing
/// it is stopped, it is this one, or the one that the directory had.
pub fn indexes_are_replaced_at_once<D: Directory>(
    alloc: Global,
    directory: &mut D,
    schema: Vec<u8>,
    segment: &SegmentFiles,
) -> Result<(), CommitFault>
    requires { D.is_known directory.old }
    ensures replaced { OnOk result (index_contents (D.seen directory.new) ≡ Ok (index_of_segment schema.items (files_contents segment.now))) }
    ensures stopped { (files : Files) → D.left_since directory.new (D.moment directory.old) files
        → (index_contents files ≡ index_contents (D.seen directory.old)) ⊎ (index_contents files ≡ Ok (index_of_segment schema.items (files_contents segment.now))) }
{
    replace_index(alloc, directory, schema, segment)
}

/// Documents are deleted, and a segment is added, all at once, wherever this is stopped.
pub fn changes_are_made_at_once<D: Directory>(
    alloc: Global,
    directory: &mut D,
    deleted: &[Vec<DocId>],
    added: Option<&SegmentFiles>,
) -> Result<(), CommitFault>
    requires { D.is_known directory.old }
    ensures changed { OnOk result (index_contents (D.seen directory.new) ≡ changed_index (map (λ v. v.items) deleted.now) (option_map (λ f. files_contents f.now) added.entry) (index_contents (D.seen directory.old))) }
    ensures stopped { (files : Files) → D.left_since directory.new (D.moment directory.old) files
        → (index_contents files ≡ index_contents (D.seen directory.old)) ⊎ (index_contents files ≡ changed_index (map (λ v. v.items) deleted.now) (option_map (λ f. files_contents f.now) added.entry) (index_contents (D.seen directory.old))) }
{
    commit_changes(alloc, directory, deleted, added)
}

/// A merge of the last segments keeps all documents of an index, with their tokens, under their numbers, wherever it is
/// stopped.
#[tactic(auto, using(crate::proofs::SegmentLaws::same_documents, crate::proofs::SegmentLaws::same_if_done))]
pub fn merges_keep_the_documents<D: Directory>(
    alloc: Global,
    directory: &mut D,
    schema: &Schema,
    first: usize,
) -> Result<(), JoinFault>
    requires { D.is_known directory.old }
    ensures merged { (ss : List Segment) → HoldsIndex schema.now (D.seen directory.old) ss
        → OnOk result ((ts : List Segment) × HoldsIndex schema.now (D.seen directory.new) ts × (index_tokens ts ≡ index_tokens ss) × (num_docs_of ts ≡ num_docs_of ss)) }
    ensures stopped { (ss : List Segment) → HoldsIndex schema.now (D.seen directory.old) ss → (files : Files) → D.left_since directory.new (D.moment directory.old) files
        → (ts : List Segment) × HoldsIndex schema.now files ts × (index_tokens ts ≡ index_tokens ss) × (num_docs_of ts ≡ num_docs_of ss) }
{
    merge_last(alloc, directory, schema, first)
}

/// Segments that hold their tokens become the files of one, of as many documents as are alive in them, none of which is
/// deleted, with the tokens of their index. No part of them is called damaged.
pub fn segments_become_one<D: Directory>(
    alloc: Global,
    directory: &D,
    schema: &Schema,
    segments: Vec<SegmentSource<D::File>>,
) -> Result<NewSegment<D::NewFile>, JoinFault>
    requires known { D.is_known directory.now }
    requires readable { AllByRecursion (HasKnownStore D.File.bytes) segments.items }
    ensures holds { (ss : List Segment) → HoldSegments schema.now (map (source_contents D.File.bytes) segments.items) ss
        → IfOk result (λ s. HoldsSegment schema.now (new_contents s) (record { alive = replicate (num_docs_of ss) true; tokens = index_tokens ss })) }
    ensures undamaged { (ss : List Segment) (place : ℕ) (part : Part) → HoldSegments schema.now (map (source_contents D.File.bytes) segments.items) ss → IsErrOf result (JoinFault.Merge (MergeFault.Segment place part)) → ⊥ }
{
    merge_segments(alloc, directory, schema, segments)
}

/// An index of version 1 becomes one of version 3 that holds the same, wherever this is stopped.
pub fn upgrading_keeps_the_index<D: Directory>(
    alloc: Global,
    directory: &mut D,
) -> Result<bool, CommitFault>
    requires { D.is_known directory.old }
    ensures keeps { OnOk result (index_contents (D.seen directory.new) ≡ index_contents (D.seen directory.old)) }
    ensures stopped { (files : Files) → D.left_since directory.new (D.moment directory.old) files → index_contents files ≡ index_contents (D.seen directory.old) }
{
    upgrade(alloc, directory)
}

/// Removing the files that no list of segments names keeps the index, wherever it is stopped.
pub fn collecting_keeps_the_segments<D: Directory>(
    alloc: Global,
    directory: &mut D,
) -> Result<u64, StoreFault>
    requires { D.is_known directory.old }
    ensures keeps { OnOk result (segments_of (D.seen directory.new) ≡ segments_of (D.seen directory.old)) }
    ensures stopped { (files : Files) → D.left_since directory.new (D.moment directory.old) files → segments_of files ≡ segments_of (D.seen directory.old) }
{
    collect(alloc, directory)
}

/// A list of segments replaces another one if it follows it and its files are there. Wherever this is stopped,
/// the directory has the old list or the new one, with its files.
pub fn lists_are_replaced_at_once<D: Directory>(
    alloc: Global,
    directory: &mut D,
    list: &IndexMeta,
) -> Result<bool, DirectoryFault>
    requires { D.is_known directory.old }
    ensures replaced { IfOk result (λ done. IsTrue done → list_in (D.seen directory.new Meta) ≡ Ok (meta_view list.now)) }
    ensures stopped { (files : Files) → D.left_since directory.new (D.moment directory.old) files
        → (segments_of files ≡ segments_of (D.seen directory.old)) ⊎ (segments_of files ≡ index_with (meta_view list.now) (D.seen directory.old)) }
{
    if !may_commit(alloc, directory, list)? {
        return Ok(false);
    }
    commit(alloc, directory, list)?;
    Ok(true)
}
