//! Segments whose stored documents stay in their file, to be merged.
ghost use Rattle.std.specs.Prelude.{◌≡◌, IfOk, IfSome, map};
ghost use Rattle.std.specs.List.{AllByRecursion};
ghost use Rattle.std.specs.Option.{option_map};
ghost use Rattle.ii_directory.specs.declared.name.SegmentComponent.TheVariants.{Store};
ghost use Rattle.ii_directory.specs.Directory.{is_obeyed};
ghost use Rattle.ii_store.specs.Faults.{IsRefused};
ghost use Rattle.ii_store.specs.Index.{AnswersFromFiles};
ghost use Rattle.ii_store.specs.IndexMeta.{segment_view};
ghost use Rattle.ii_block_file.specs.ListedFile.{HasKnownBytes, bytes_or_none};
ghost use Rattle.ii_segment_store.specs.Contents.{all_contents, optional_bytes, segment_in};
ghost use Rattle.ii_segment_store.specs.Sources.{HasKnownStore, source_contents};

use crate::loading::{file_of, load_files, load_flags};
use crate::stored_segments::SegmentFiles;
use ii_alive::AliveBits;
use ii_block_file::{BlockFile, open_listed};
use ii_directory::ReadAt;
use ii_store::{Directory, SegmentComponent, SegmentMeta, StoreFault};
use std::alloc::Global;

/// A segment to be merged. Its stored documents, which are most of a segment, stay in their file and are read by ranges.
#[derive(Drop)]
pub struct SegmentSource<F: ReadAt + Drop> {
    /// The other files. Their `store` is `None`.
    pub files: SegmentFiles,
    /// The file of stored documents, if they were stored.
    pub store: Option<BlockFile<F>>,
    pub alive: AliveBits,
}

// Opens segments one by one.
pub(crate) fn open_sources<D: Directory>(
    alloc: Global,
    directory: &D,
    listed: &[SegmentMeta],
) -> Result<Vec<SegmentSource<D::File>>, StoreFault>
    ensures answers { D.is_known directory.now → AnswersFromFiles (λ v. map (source_contents D.File.bytes) v.items) result (all_contents (map segment_view listed.now) (D.seen directory.now)) }
    ensures known { D.is_known directory.now → IfOk result (λ v. AllByRecursion (HasKnownStore D.File.bytes) v.items) }
    ensures obeyed { D.is_known directory.now → is_obeyed IsRefused (D.may_refuse directory.now) result }
{
    let mut sources = Vec::new(alloc);
    for segment in listed {
        let source = open_source(alloc, directory, segment)?;
        sources.push(source)?;
    }
    Ok(sources)
}

// Loads the files and flags of a segment, and opens the file of its stored documents.
#[tactic(auto, unfolding(crate::specs::Contents::segment_in))]
fn open_source<D: Directory>(
    alloc: Global,
    directory: &D,
    segment: &SegmentMeta,
) -> Result<SegmentSource<D::File>, StoreFault>
    ensures answers { D.is_known directory.now → AnswersFromFiles (source_contents D.File.bytes) result (segment_in (segment_view segment.now) (D.seen directory.now)) }
    ensures known { D.is_known directory.now → IfOk result (HasKnownStore D.File.bytes) }
    ensures obeyed { D.is_known directory.now → is_obeyed IsRefused (D.may_refuse directory.now) result }
{
    let files = load_files(alloc, directory, segment)?;
    let store = open_store(alloc, directory, segment)?;
    let alive = load_flags(alloc, directory, segment)?;
    Ok(SegmentSource {
        files,
        store,
        alive,
    })
}

// Opens the file of stored documents of a segment, if it lists one.
#[tactic(auto, unfolding(crate::specs::Contents::bytes_if_listed))]
fn open_store<D: Directory>(
    alloc: Global,
    directory: &D,
    segment: &SegmentMeta,
) -> Result<Option<BlockFile<D::File>>, StoreFault>
    ensures answers { D.is_known directory.now → AnswersFromFiles (option_map (λ b. bytes_or_none (D.File.bytes b.source))) result (optional_bytes (segment_view segment.now) Store (D.seen directory.now)) }
    ensures known { D.is_known directory.now → IfOk result (λ store. IfSome store (HasKnownBytes D.File.bytes)) }
    ensures obeyed { D.is_known directory.now → is_obeyed IsRefused (D.may_refuse directory.now) result }
{
    let Some(file) = file_of(segment.files.as_slice(), SegmentComponent::Store) else {
        return Ok(None);
    };
    match open_listed(alloc, directory, segment.id, &file) {
        Ok(store) => Ok(Some(store)),
        Err(fault) => Err(fault),
    }
}
