//! Removes the files that no list of segments has any more.
ghost use Rattle.std.specs.Prelude.{◌≡◌, IfErr, IfOk, Ok, OnOk, map, if◌then◌else◌};
ghost use Rattle.std.specs.List.{count_by, flat_map, list_any};
ghost use Rattle.ii_directory.specs.declared.name.Name.TheVariants.{Meta};
ghost use Rattle.ii_store.specs.Collect.{CountsGarbage, HasNoGarbage, IsCollected, IsRemoved, KeepsOthers, is_file, is_garbage};
ghost use Rattle.ii_store.specs.declared.index_meta.FileMeta.{FileMeta};
ghost use Rattle.ii_directory.specs.Directory.{Elapses, IsRefusal, Obeys};
ghost use Rattle.ii_store.specs.Faults.{IsRefused};
ghost use Rattle.ii_store.specs.Index.{Fails};
ghost use Rattle.ii_store.specs.IndexMeta.{MetaState, meta_view, segment_view};
ghost use Rattle.ii_directory.specs.Names.{same_component};
ghost use Rattle.ii_store.specs.Segments.{LeavesSameList, files_of_segment, list_in, segments_of};

use crate::faults::StoreFault;
use crate::index_meta::{FileMeta, IndexMeta, SegmentMeta};
use crate::segments::load_meta;
use ii_directory::{Directory, DirectoryFault, Name, SegmentComponent, SegmentId};
use std::alloc::Global;

/// Removes the files that no list of segments has any more: `meta.new`, and each file of a segment that the
/// current list doesn't have, as a stop, a commit or a merge left it. Returns how many there were.
///
/// Files with other names than those of segments stay. A stop at any point leaves the current index as it
/// is. Returns the errors of `load_meta`, and then removes nothing.
pub fn collect<D: Directory>(alloc: Global, directory: &mut D) -> Result<u64, StoreFault>
    ensures known { D.is_known directory.old → OnOk result (D.is_known directory.new) }
    ensures obeys { Obeys IsRefused (D.may_refuse directory.old) (D.may_refuse directory.new) result }
    ensures removed { D.is_known directory.old → IfOk result (λ _. (m : MetaState) → list_in (D.seen directory.old Meta) ≡ Ok m → HasNoGarbage m (D.seen directory.new)) }
    ensures keeps { D.is_known directory.old → IfOk result (λ _. (m : MetaState) → list_in (D.seen directory.old Meta) ≡ Ok m → KeepsOthers m (D.seen directory.old) (D.seen directory.new)) }
    ensures same { D.is_known directory.old → OnOk result (segments_of (D.seen directory.new) ≡ segments_of (D.seen directory.old)) }
    ensures count { D.is_known directory.old → IfOk result (λ count. (m : MetaState) → list_in (D.seen directory.old Meta) ≡ Ok m → CountsGarbage m (D.seen directory.old) count) }
    ensures fault { D.is_known directory.old → IfErr result (λ e. Fails e (list_in (D.seen directory.old Meta))) }
    ensures leaves_same { D.is_known directory.old → LeavesSameList D.moment D.left_since D.seen directory.old directory.new }
    ensures leaves_others { D.is_known directory.old → (m : MetaState) → list_in (D.seen directory.old Meta) ≡ Ok m → Elapses (D.moment directory.old) (D.moment directory.new) (D.left_since directory.old) (D.left_since directory.new) (KeepsOthers m (D.seen directory.old)) }
{
    let meta = load_meta(alloc, directory)?;
    let names = directory.list(alloc)?;
    let removed = remove_garbage(directory, &meta, names.as_slice())?;
    Ok(removed)
}

// Removes the garbage among these names, and counts it.
fn remove_garbage<D: Directory>(
    directory: &mut D,
    meta: &IndexMeta,
    names: &[Name],
) -> Result<u64, DirectoryFault>
    ensures known { D.is_known directory.old → OnOk result (D.is_known directory.new) }
    ensures obeys { Obeys IsRefusal (D.may_refuse directory.old) (D.may_refuse directory.new) result }
    ensures collected { D.is_known directory.old → OnOk result (IsCollected (meta_view meta.now) names.now (D.seen directory.old) (D.seen directory.new)) }
    ensures count { IfOk result (λ count. count ≡ count_by (is_garbage (meta_view meta.now)) names.now) }
    ensures time { D.is_known directory.old → Elapses (D.moment directory.old) (D.moment directory.new) (D.left_since directory.old) (D.left_since directory.new) (KeepsOthers (meta_view meta.now) (D.seen directory.old)) }
{
    let mut removed: u64 = 0;
    for name in names {
        let count = remove_unlisted(directory, meta, *name)?;
        removed += count;
    }
    Ok(removed)
}

// Removes a file if it is garbage, and returns how many files that is.
fn remove_unlisted<D: Directory>(
    directory: &mut D,
    meta: &IndexMeta,
    name: Name,
) -> Result<u64, DirectoryFault>
    ensures known { D.is_known directory.old → OnOk result (D.is_known directory.new) }
    ensures obeys { Obeys IsRefusal (D.may_refuse directory.old) (D.may_refuse directory.new) result }
    ensures removed { D.is_known directory.old → OnOk result (IsRemoved (meta_view meta.now) name (D.seen directory.old) (D.seen directory.new)) }
    ensures count { IfOk result (λ count. count ≡ (if is_garbage (meta_view meta.now) name then 1 else 0)) }
    ensures time { D.is_known directory.old → Elapses (D.moment directory.old) (D.moment directory.new) (D.left_since directory.old) (D.left_since directory.new) (KeepsOthers (meta_view meta.now) (D.seen directory.old)) }
{
    if !is_unlisted(meta, name) {
        return Ok(0);
    }
    directory.remove(name)?;
    Ok(1)
}

// Returns whether a name is of the next `meta`, or of a file that the list doesn't have.
fn is_unlisted(meta: &IndexMeta, name: Name) -> bool
    ensures { result ≡ is_garbage (meta_view meta.now) name }
{
    match name {
        Name::Meta => false,
        Name::NewMeta => true,
        Name::File(_, _) => false,
        Name::Segment(id, component) => !has_file(meta.segments.as_slice(), id, component),
    }
}

// Returns whether one of the segments has a file.
fn has_file(segments: &[SegmentMeta], id: SegmentId, component: SegmentComponent) -> bool
    ensures { result ≡ list_any (is_file id component) (flat_map files_of_segment (map segment_view segments.now)) }
{
    for segment in segments {
        if segment_has(segment, id, component) {
            return true;
        }
    }
    false
}

// Returns whether a segment has a file.
fn segment_has(segment: &SegmentMeta, id: SegmentId, component: SegmentComponent) -> bool
    ensures { result ≡ list_any (is_file id component) (files_of_segment (segment_view segment.now)) }
{
    (segment.id == id) & lists(segment.files.as_slice(), component)
}

// Returns whether one of the files is of a component.
fn lists(files: &[FileMeta], component: SegmentComponent) -> bool
    ensures { result ≡ list_any (λ (f : FileMeta). same_component f.component component) files.now }
{
    for file in files {
        if file.component.is_same(component) {
            return true;
        }
    }
    false
}
