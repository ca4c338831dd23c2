//! Whether a list of segments may be committed.
ghost use Rattle.std.specs.Prelude.{false, ◌≡◌, ◌+◌, [], ◌∷◌, IfOk, IsTrue, map};
ghost use Rattle.std.specs.List.{AllByRecursion, flat_map};
ghost use Rattle.ii_store.specs.declared.index_meta.FileMeta.{FileMeta};
ghost use Rattle.ii_directory.specs.declared.name.Name.TheVariants.{Meta};
ghost use Rattle.ii_directory.specs.Directory.{IsRefusal, is_obeyed};
ghost use Rattle.ii_store.specs.Faults.{IsRefused};
ghost use Rattle.ii_store.specs.IndexMeta.{FileFits, IsValidMeta, SegmentFits, meta_view, segment_view};
ghost use Rattle.ii_store.specs.Segments.{AreThere, MayCommit, Reports, files_of_segment, generation_in, list_in};

use crate::faults::StoreFault;
use crate::index_meta::{FileMeta, IndexMeta, SegmentMeta};
use crate::index_meta_reader::is_consistent_list;
use crate::segments::{load_meta, load_segment_file};
use ii_directory::{Directory, DirectoryFault, Generation, SegmentId};
use std::alloc::Global;

/// Returns whether a `meta` file can hold a list of segments: `decode` gives the conditions; and it has fewer
/// than 2^16 segments, and a schema of fewer than 2^32 bytes.
pub fn is_valid(meta: &IndexMeta) -> bool
    ensures valid { IsTrue result → IsValidMeta (meta_view meta.now) }
    ensures otherwise { result ≡ false → IsValidMeta (meta_view meta.now) → ⊥ }
{
    let _generation = meta.generation;
    let _next = meta.next_segment_id;
    if meta.schema.len() > u32::MAX as usize {
        return false;
    }
    if meta.segments.len() > u16::MAX as usize {
        return false;
    }
    if !segments_fit(meta.segments.as_slice()) {
        return false;
    }
    is_consistent_list(meta)
}

// Returns whether each segment has few files.
fn segments_fit(segments: &[SegmentMeta]) -> bool
    ensures fits { IsTrue result → AllByRecursion SegmentFits (map segment_view segments.now) }
    ensures otherwise { result ≡ false → AllByRecursion SegmentFits (map segment_view segments.now) → ⊥ }
{
    for segment in segments {
        if !segment_fits(segment) {
            return false;
        }
    }
    true
}

// Returns whether a segment has few files.
fn segment_fits(segment: &SegmentMeta) -> bool
    ensures fits { IsTrue result → SegmentFits (segment_view segment.now) }
    ensures otherwise { result ≡ false → SegmentFits (segment_view segment.now) → ⊥ }
{
    let _id = segment.id;
    let _num_docs = segment.num_docs;
    let _num_living = segment.num_living;
    if segment.files.len() > u16::MAX as usize {
        return false;
    }
    files_fit(segment.files.as_slice());
    true
}

// The numbers of files have their widths.
fn files_fit(files: &[FileMeta])
    ensures { AllByRecursion FileFits files.now }
{
    for file in files {
        file_fits(file);
    }
}

// The numbers of a file have their widths.
fn file_fits(file: &FileMeta)
    ensures { FileFits file.now }
{
    let _generation = file.component.generation();
    let _len = file.len;
    let _digest = file.digest.to_bytes();
}

/// Returns whether `commit` may be called with a list: it is valid, its generation is one higher than that
/// of the current list, and each file that it has is there, as the list says. It reads these files.
pub fn may_commit<D: Directory>(
    alloc: Global,
    directory: &D,
    new: &IndexMeta,
) -> Result<bool, DirectoryFault>
    ensures valid { IfOk result (λ may. IsTrue may → IsValidMeta (meta_view new.now)) }
    ensures follows { D.is_known directory.now → IfOk result (λ may. IsTrue may → new.now.generation ≡ generation_in (list_in (D.seen directory.now Meta)) + 1) }
    ensures there { D.is_known directory.now → IfOk result (λ may. IsTrue may → AreThere (meta_view new.now) (D.seen directory.now)) }
    ensures otherwise { D.is_known directory.now → IfOk result (λ may. may ≡ false → MayCommit (meta_view new.now) (D.seen directory.now) → ⊥) }
    ensures obeyed { is_obeyed IsRefusal (D.may_refuse directory.now) result }
{
    if !is_valid(new) {
        return Ok(false);
    }
    let generation = current_generation(alloc, directory)?;
    if new.generation.checked_sub(1) != Some(generation) {
        return Ok(false);
    }
    let fault = match look_at(alloc, directory, new.segments.as_slice()) {
        Ok(()) => return Ok(true),
        Err(fault) => fault,
    };
    match fault {
        StoreFault::Index(_) => Ok(false),
        StoreFault::Directory(fault) => Err(fault),
    }
}

// Returns the generation of the list in a directory, and 0 if there is none.
fn current_generation<D: Directory>(
    alloc: Global,
    directory: &D,
) -> Result<Generation, DirectoryFault>
    ensures generation { D.is_known directory.now → IfOk result (λ generation. generation ≡ generation_in (list_in (D.seen directory.now Meta))) }
    ensures obeyed { is_obeyed IsRefusal (D.may_refuse directory.now) result }
{
    match load_meta(alloc, directory) {
        Ok(meta) => Ok(meta.generation),
        Err(StoreFault::Index(_)) => Ok(0),
        Err(StoreFault::Directory(fault)) => Err(fault),
    }
}

// Reads each file of segments, and returns the first fault.
fn look_at<D: Directory>(
    alloc: Global,
    directory: &D,
    segments: &[SegmentMeta],
) -> Result<(), StoreFault>
    ensures reports { D.is_known directory.now → Reports result (flat_map files_of_segment (map segment_view segments.now)) (D.seen directory.now) }
    ensures obeyed { is_obeyed IsRefused (D.may_refuse directory.now) result }
{
    for segment in segments {
        look_at_files(alloc, directory, segment.id, segment.files.as_slice())?;
    }
    Ok(())
}

// Reads each file of a segment, and returns the first fault.
fn look_at_files<D: Directory>(
    alloc: Global,
    directory: &D,
    id: SegmentId,
    files: &[FileMeta],
) -> Result<(), StoreFault>
    ensures reports { D.is_known directory.now → Reports result (map (λ (f : FileMeta). record { id = id; file = f }) files.now) (D.seen directory.now) }
    ensures obeyed { is_obeyed IsRefused (D.may_refuse directory.now) result }
{
    for file in files {
        look_at_file(alloc, directory, id, file)?;
    }
    Ok(())
}

// Reads a file, and returns its fault.
fn look_at_file<D: Directory>(
    alloc: Global,
    directory: &D,
    id: SegmentId,
    file: &FileMeta,
) -> Result<(), StoreFault>
    ensures reports { D.is_known directory.now → Reports result (record { id = id; file = file.now } ∷ []) (D.seen directory.now) }
    ensures obeyed { is_obeyed IsRefused (D.may_refuse directory.now) result }
{
    let _bytes = load_segment_file(alloc, directory, id, file)?;
    Ok(())
}
