//! Replaces an index by one of one segment, so that a stop leaves the old index or the new one.
ghost use Rattle.std.specs.Prelude.{◌≡◌, IfErr, IfOk, Ok, OnOk};
ghost use Rattle.ii_directory.specs.declared.name.Name.TheVariants.{Meta};
ghost use Rattle.ii_directory.specs.Directory.{IsRefusal, Obeys, is_obeyed};
ghost use Rattle.ii_store.specs.IndexMeta.{meta_view};
ghost use Rattle.ii_store.specs.Segments.{list_in};
ghost use Rattle.ii_segment_store.specs.Commits.{IsCommitFault, IsRefusedCommit, LeavesOneIndex, emptied, index_of_segment};
ghost use Rattle.ii_segment_store.specs.Contents.{files_contents, index_contents};

use crate::committing::commit_segment;
use crate::faults::CommitFault;
use crate::stored_segments::SegmentFiles;
use ii_store::segments::load_meta;
use ii_store::{Directory, DirectoryFault, IndexMeta, StoreFault};
use std::alloc::Global;

/// Makes the index of a directory one of version 3 with this schema and this segment alone. It replaces the index
/// that the directory had, if it had one: of any version, also a damaged one.
///
/// The files of the segment are written under an id that no segment of the old list had, and then `meta` is
/// atomically replaced. After a stop or an error the directory holds the old index or the new one. After an
/// error, open the directory again. The files of the old index remain until `collect` and `remove_slots`.
///
/// # Errors
///
/// `TooMany` if no `meta` can hold the new index: the segment has 2^31 documents or more, the schema 2^32 bytes or
/// more, or there are no more ids or generations after those of the old list. Nothing is written then.
pub fn replace_index<D: Directory>(
    alloc: Global,
    directory: &mut D,
    schema: Vec<u8>,
    segment: &SegmentFiles,
) -> Result<(), CommitFault>
    ensures known { D.is_known directory.old → OnOk result (D.is_known directory.new) }
    ensures obeys { D.is_known directory.old → Obeys IsRefusedCommit (D.may_refuse directory.old) (D.may_refuse directory.new) result }
    ensures replaced { D.is_known directory.old → OnOk result (index_contents (D.seen directory.new) ≡ Ok (index_of_segment schema.items (files_contents segment.now))) }
    ensures leaves_one { D.is_known directory.old → LeavesOneIndex D.moment D.left_since D.seen directory.old directory.new (Ok (index_of_segment schema.items (files_contents segment.now))) }
    ensures fault { D.is_known directory.old → IfErr result (λ e. IsCommitFault e (Ok (emptied schema.items (list_in (D.seen directory.old Meta)))) (files_contents segment.now)) }
{
    match empty_list(alloc, directory, schema) {
        Ok(list) => commit_segment(alloc, directory, list, segment),
        Err(fault) => Err(CommitFault::from(fault)),
    }
}

// Returns a list without segments. Its numbers continue those of the directory's list, if there is one.
pub(crate) fn empty_list<D: Directory>(
    alloc: Global,
    directory: &D,
    schema: Vec<u8>,
) -> Result<IndexMeta, DirectoryFault>
    ensures list { D.is_known directory.now → IfOk result (λ list. meta_view list ≡ emptied schema.items (list_in (D.seen directory.now Meta))) }
    ensures obeyed { is_obeyed IsRefusal (D.may_refuse directory.now) result }
{
    match load_meta(alloc, directory) {
        Ok(list) => Ok(IndexMeta {
            generation: list.generation,
            next_segment_id: list.next_segment_id,
            schema,
            segments: Vec::new(alloc),
        }),
        Err(StoreFault::Index(_)) => Ok(IndexMeta {
            generation: 0,
            next_segment_id: 0,
            schema,
            segments: Vec::new(alloc),
        }),
        Err(StoreFault::Directory(fault)) => Err(fault),
    }
}
