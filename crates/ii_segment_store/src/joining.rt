//! Puts a segment in the place of the last ones of an index, so that a stop leaves the old index or the new one.
ghost use Rattle.std.specs.Prelude.{◌≡◌, IfErr, IfOk, OnOk, drop, map};
ghost use Rattle.std.specs.List.{AllByRecursion};
ghost use Rattle.ii_directory.specs.Directory.{Obeys, is_obeyed};
ghost use Rattle.ii_store.specs.Faults.{IsRefused};
ghost use Rattle.ii_store.specs.Index.{AnswersFromFiles};
ghost use Rattle.ii_store.specs.IndexMeta.{meta_view, segment_view};
ghost use Rattle.ii_segment_store.specs.Commits.{IsCommitFault, IsRefusedCommit, LeavesOneIndex};
ghost use Rattle.ii_segment_store.specs.Contents.{all_contents, index_contents, segment_contents, with_segment};
ghost use Rattle.ii_segment_store.specs.Joins.{first_contents, first_list, first_listed};
ghost use Rattle.ii_segment_store.specs.NewSegments.{IsWritten, new_contents};
ghost use Rattle.ii_segment_store.specs.Sources.{HasKnownStore, source_contents};

use crate::committing::commit_new;
use crate::faults::CommitFault;
use crate::loading::load_each;
use crate::new_segment::NewSegment;
use crate::segment_source::{SegmentSource, open_sources};
use crate::stored_segments::StoredSegment;
use ii_store::segments::load_meta;
use ii_store::{Directory, IndexMeta, SegmentMeta, StoreFault};
use std::alloc::Global;

/// Loads the segments of a list from a place on: exactly the bytes of each, and which of its documents are alive.
/// The files of those before aren't read.
///
/// Returns the first fault of a file or of flags, as `load_segments` does.
pub fn load_last<D: Directory>(
    alloc: Global,
    directory: &D,
    list: &IndexMeta,
    first: usize,
) -> Result<Vec<StoredSegment>, StoreFault>
    ensures answers { D.is_known directory.now → AnswersFromFiles (λ v. map segment_contents v.items) result (all_contents (drop first (meta_view list.now).segments) (D.seen directory.now)) }
    ensures obeyed { is_obeyed IsRefused (D.may_refuse directory.now) result }
{
    load_each(alloc, directory, last_segments(list, first))
}

/// Loads the segments of a list from a place on as `load_last` does, but leaves their stored documents, which are most of
/// them, in their files and opens these. Reads each of them once, to compare its length and its digest (`open_listed`).
///
/// Returns the first fault of a file or of flags, as `load_last` does.
pub fn open_last<D: Directory>(
    alloc: Global,
    directory: &D,
    list: &IndexMeta,
    first: usize,
) -> Result<Vec<SegmentSource<D::File>>, StoreFault>
    ensures answers { D.is_known directory.now → AnswersFromFiles (λ v. map (source_contents D.File.bytes) v.items) result (all_contents (drop first (meta_view list.now).segments) (D.seen directory.now)) }
    ensures known { D.is_known directory.now → IfOk result (λ v. AllByRecursion (HasKnownStore D.File.bytes) v.items) }
    ensures obeyed { D.is_known directory.now → is_obeyed IsRefused (D.may_refuse directory.now) result }
{
    open_sources(alloc, directory, last_segments(list, first))
}

// Returns the segments of a list from a place on, and none if there are no more.
fn last_segments(list: &IndexMeta, first: usize) -> &[SegmentMeta]
    ensures { map segment_view result.now ≡ drop first (meta_view list.now).segments }
{
    match list.segments.as_slice().get(first..) {
        Some(last) => last,
        None => &[],
    }
}

/// Puts a segment in the place of those of an index of version 2 or 3 from a place on: gives its files names of an id
/// that no segment had, and atomically replaces `meta`.
///
/// After a stop or an error the directory holds the old index or the one with the new segment. After an error,
/// open the directory again. The files of other segments aren't read; those of the segments that were replaced
/// remain until `collect`.
///
/// # Errors
///
/// The errors of `load_meta`, `OtherVersion` for an index of version 1 (see `upgrade`); `TooMany` if no `meta` can
/// hold the new index.
pub fn replace_last<D: Directory>(
    alloc: Global,
    directory: &mut D,
    first: usize,
    segment: NewSegment<D::NewFile>,
) -> Result<(), CommitFault>
    requires written { D.is_known directory.old → IsWritten segment }
    ensures known { D.is_known directory.old → OnOk result (D.is_known directory.new) }
    ensures obeys { D.is_known directory.old → Obeys IsRefusedCommit (D.may_refuse directory.old) (D.may_refuse directory.new) result }
    ensures replaced { D.is_known directory.old → OnOk result (index_contents (D.seen directory.new) ≡ with_segment (new_contents segment) (first_contents first (D.seen directory.old))) }
    ensures leaves_one { D.is_known directory.old → LeavesOneIndex D.moment D.left_since D.seen directory.old directory.new (with_segment (new_contents segment) (first_contents first (D.seen directory.old))) }
    ensures fault { D.is_known directory.old → IfErr result (λ e. IsCommitFault e (first_list first (D.seen directory.old)) (new_contents segment)) }
{
    let list = match load_meta(alloc, directory) {
        Ok(list) => list,
        Err(fault) => return Err(CommitFault::Store(fault)),
    };
    let list = first_listed(list, first);
    commit_new(alloc, directory, list, segment)
}

// Returns a list with its first segments alone.
fn first_listed(list: IndexMeta, first: usize) -> IndexMeta
    ensures { meta_view result ≡ first_listed first (meta_view list) }
{
    let mut list = list;
    list.segments.truncate(first);
    list
}
