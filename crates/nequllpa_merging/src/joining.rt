//! Merges the last segments of an index in a folder.
ghost use Rattle.std.specs.Prelude.{IfErr, List, OnOk};
ghost use Rattle.ii_directory.specs.Directory.{Files, Obeys};
ghost use Rattle.ii_segments.specs.Segments.{Segment};
ghost use Rattle.nequllpa_merging.specs.Joins.{HoldsIndex, HoldsSameIndex, IsJoinFault, IsJoined, IsRefusedJoin};

use crate::faults::JoinFault;
use crate::merging::merge_segments;
use ii_base::Schema;
use ii_segment_store::{open_last, replace_last};
use ii_segments::merge_keeps;
use ii_store::Directory;
use ii_store::segments::load_meta;
use std::alloc::Global;

/// Merges the segments of an index of version 2 or 3 from a place on, and puts the merged one in their place. The
/// schema must be that of the index. The segments before aren't read.
///
/// After a stop or an error the directory holds an index of the same documents, with the same tokens under the
/// same numbers. After an error, open the directory again. The files of the segments that were merged remain until
/// `collect`.
///
/// # Errors
///
/// * `Store` if the list of segments, or one of the last segments, can't be loaded.
/// * `Merge` if these can't be merged, and `Write` if the directory refuses a file of them (`merge_segments`).
/// * `Commit` if the merged one can't be put in their place (`replace_last`).
pub fn merge_last<D: Directory>(
    alloc: Global,
    directory: &mut D,
    schema: &Schema,
    first: usize,
) -> Result<(), JoinFault>
    ensures known { D.is_known directory.old → OnOk result (D.is_known directory.new) }
    ensures obeys { D.is_known directory.old → Obeys IsRefusedJoin (D.may_refuse directory.old) (D.may_refuse directory.new) result }
    ensures joined { D.is_known directory.old → OnOk result (IsJoined schema.now first (D.seen directory.old) (D.seen directory.new)) }
    ensures fault { D.is_known directory.old → IfErr result (λ e. IsJoinFault e schema.now first (D.seen directory.old)) }

    // No document changes, wherever it is stopped.
    ensures same { D.is_known directory.old → (ss : List Segment) → HoldsIndex schema.now (D.seen directory.old) ss → OnOk result (HoldsSameIndex schema.now (D.seen directory.new) ss) }
    ensures leaves_same { D.is_known directory.old → (ss : List Segment) → HoldsIndex schema.now (D.seen directory.old) ss → (files : Files) → D.left_since directory.new (D.moment directory.old) files → HoldsSameIndex schema.now files ss }
{
    merge_keeps();
    let list = match load_meta(alloc, directory) {
        Ok(list) => list,
        Err(fault) => return Err(JoinFault::Store(fault)),
    };
    let last = match open_last(alloc, directory, &list, first) {
        Ok(last) => last,
        Err(fault) => return Err(JoinFault::Store(fault)),
    };
    let segment = match merge_segments(alloc, directory, schema, last) {
        Ok(segment) => segment,
        Err(fault) => return Err(fault),
    };
    match replace_last(alloc, directory, first, segment) {
        Ok(()) => Ok(()),
        Err(fault) => Err(JoinFault::Commit(fault)),
    }
}
