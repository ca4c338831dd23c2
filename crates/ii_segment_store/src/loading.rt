//! Loads all segments of an index.
ghost use Rattle.std.specs.Prelude.{◌≡◌, IfErr, IfOk, Some, map, replicate, true};
ghost use Rattle.std.specs.Option.{option_map};
ghost use Rattle.ii_directory.specs.Directory.{is_obeyed};
ghost use Rattle.ii_store.specs.Faults.{IsRefused, of_directory};
ghost use Rattle.ii_directory.specs.declared.faults.DirectoryFault.TheVariants.{OutOfMemory};
ghost use Rattle.ii_store.specs.Index.{AnswersFromFiles, view};
ghost use Rattle.ii_store.specs.IndexMeta.{segment_view, meta_view};
ghost use Rattle.ii_segment_store.specs.Contents.{alive_file, all_contents, bytes_if_listed, component_bytes, contents_view, contents_with, file_of, files_contents, fitting_flags, flags_in, flags_with, index_contents, list_contents, loaded_in, one_segment, optional_bytes, segment_contents, segment_in};
ghost use Rattle.ii_segment_store.specs.WantedFiles.{wanted_at, wanted_contents};
ghost use Rattle.ii_alive.specs.AliveBytes.{alive_of};

use crate::faults::{flags_fault, memory_fault};
use crate::stored_segments::{SegmentFiles, StoredSegment, StoredSegments};
use crate::wanted_files::WantedFiles;
use ii_alive::AliveBits;
use ii_store::index_meta_reader::decode;
use ii_store::meta::{VERSION, version_of};
use ii_store::segments::load_segment_file;
use ii_store::{
    Directory, FileMeta, IndexFault, IndexMeta, Name, SegmentComponent, SegmentMeta, StoreFault,
    StoredIndex, load,
};
use std::alloc::Global;

/// How often an index is read again while its list changes.
pub const MOST_RETRIES: u32 = 10;

/// Loads the index of a directory, of any version: its schema, exactly the bytes of each segment, and which
/// of its documents are alive. An index of version 1 is one segment.
///
/// Returns `NoIndex` if there is no `meta`, and `OtherVersion` or `DamagedMeta` if it isn't a valid one.
/// Otherwise returns the first fault of a file, segment by segment: missing, wrong length or wrong checksum;
/// or `DeletedDocuments` if the flags aren't those of a segment's documents, or not as many are alive as `meta`
/// says.
pub fn load_segments<D: Directory>(
    alloc: Global,
    directory: &D,
) -> Result<StoredSegments, StoreFault>
    ensures answers { D.is_known directory.now → AnswersFromFiles contents_view result (index_contents (D.seen directory.now)) }
    ensures obeyed { is_obeyed IsRefused (D.may_refuse directory.now) result }
{
    load_segments_with(alloc, directory, WantedFiles::All)
}

/// Loads the wanted files of the index of a directory as `load_segments` does: as if its segments listed no others.
/// A file that isn't wanted isn't read, so it changes nothing if it is missing or damaged.
#[tactic(auto, unfolding(crate::specs::WantedFiles::wanted_contents, crate::specs::WantedFiles::wanted_in))]
pub fn load_segments_with<D: Directory>(
    alloc: Global,
    directory: &D,
    wanted: WantedFiles,
) -> Result<StoredSegments, StoreFault>
    ensures answers { D.is_known directory.now → AnswersFromFiles contents_view result (wanted_contents wanted (D.seen directory.now)) }
    ensures obeyed { is_obeyed IsRefused (D.may_refuse directory.now) result }
{
    let Some(meta) = directory.read(alloc, Name::Meta)? else {
        return Err(StoreFault::Index(IndexFault::NoIndex));
    };
    load_by(alloc, directory, meta.as_slice(), wanted)
}

/// Loads the index of a directory as `load_segments` does. If another program replaces the index meanwhile, so
/// that files of the old one are missing or changed, the new one is loaded; so often at most 10 times.
pub fn load_latest<D: Directory>(alloc: Global, directory: &D) -> Result<StoredSegments, StoreFault>
    ensures answers { D.is_known directory.now → AnswersFromFiles contents_view result (index_contents (D.seen directory.now)) }
    ensures obeyed { is_obeyed IsRefused (D.may_refuse directory.now) result }
{
    load_latest_with(alloc, directory, WantedFiles::All)
}

/// Loads the wanted files of the index of a directory as `load_segments_with` does, and the new index as `load_latest`
/// does.
pub fn load_latest_with<D: Directory>(
    alloc: Global,
    directory: &D,
    wanted: WantedFiles,
) -> Result<StoredSegments, StoreFault>
    ensures answers { D.is_known directory.now → AnswersFromFiles contents_view result (wanted_contents wanted (D.seen directory.now)) }
    ensures obeyed { is_obeyed IsRefused (D.may_refuse directory.now) result }
{
    for _ in 0..MOST_RETRIES {
        let before = directory.read(alloc, Name::Meta)?;
        let fault = match load_segments_with(alloc, directory, wanted) {
            Ok(segments) => return Ok(segments),
            Err(fault) => fault,
        };
        let after = directory.read(alloc, Name::Meta)?;
        if before == after {
            return Err(fault);
        }
    }
    load_segments_with(alloc, directory, wanted)
}

// Loads the wanted files of the index that a `meta` file describes.
#[tactic(auto, unfolding(crate::specs::WantedFiles::wanted_at))]
fn load_by<D: Directory>(
    alloc: Global,
    directory: &D,
    meta: &[u8],
    wanted: WantedFiles,
) -> Result<StoredSegments, StoreFault>
    ensures answers { D.is_known directory.now → AnswersFromFiles contents_view result (wanted_at wanted meta.now (D.seen directory.now)) }
    ensures obeyed { is_obeyed IsRefused (D.may_refuse directory.now) result }
{
    let version = version_of(meta)?;
    if version == VERSION {
        let index = load(alloc, directory)?;
        return Ok(one_segment(alloc, index)?);
    }
    let list = decode(alloc, meta)?;
    let list = wanted.in_list(list);
    load_list(alloc, directory, list)
}

// Returns an index of version 1 as one segment.
fn one_segment(alloc: Global, index: StoredIndex) -> Result<StoredSegments, StoreFault>
    ensures one { IfOk result (λ s. contents_view s ≡ one_segment (view index)) }
    ensures only { IfErr result (λ e. e ≡ of_directory OutOfMemory) }
{
    let StoredIndex {
        num_docs,
        schema,
        terms,
        postings,
        positions,
        fieldnorms,
    } = index;
    let alive = all_alive(alloc, num_docs)?;
    let files = SegmentFiles {
        num_docs,
        terms,
        postings,
        positions,
        fieldnorms,
        counts: None,
        store: None,
    };
    let mut segments = Vec::new(alloc);
    segments.push(StoredSegment { files, alive })?;
    Ok(StoredSegments { schema, segments })
}

// Loads the segments of a list.
#[tactic(auto, unfolding(crate::specs::Contents::list_contents))]
fn load_list<D: Directory>(
    alloc: Global,
    directory: &D,
    list: IndexMeta,
) -> Result<StoredSegments, StoreFault>
    ensures answers { D.is_known directory.now → AnswersFromFiles contents_view result (list_contents (meta_view list) (D.seen directory.now)) }
    ensures obeyed { is_obeyed IsRefused (D.may_refuse directory.now) result }
{
    match load_each(alloc, directory, list.segments.as_slice()) {
        Ok(segments) => Ok(StoredSegments {
            schema: list.schema,
            segments,
        }),
        Err(fault) => Err(fault),
    }
}

// Loads segments one by one.
pub(crate) fn load_each<D: Directory>(
    alloc: Global,
    directory: &D,
    listed: &[SegmentMeta],
) -> Result<Vec<StoredSegment>, StoreFault>
    ensures answers { D.is_known directory.now → AnswersFromFiles (λ v. map segment_contents v.items) result (all_contents (map segment_view listed.now) (D.seen directory.now)) }
    ensures obeyed { is_obeyed IsRefused (D.may_refuse directory.now) result }
{
    let mut segments = Vec::new(alloc);
    for segment in listed {
        let loaded = load_segment(alloc, directory, segment)?;
        segments.push(loaded)?;
    }
    Ok(segments)
}

// Loads the files and flags of a segment.
#[tactic(auto, unfolding(crate::specs::Contents::segment_in))]
fn load_segment<D: Directory>(
    alloc: Global,
    directory: &D,
    segment: &SegmentMeta,
) -> Result<StoredSegment, StoreFault>
    ensures answers { D.is_known directory.now → AnswersFromFiles segment_contents result (segment_in (segment_view segment.now) (D.seen directory.now)) }
    ensures obeyed { is_obeyed IsRefused (D.may_refuse directory.now) result }
{
    let mut files = load_files(alloc, directory, segment)?;
    let store = load_if_listed(alloc, directory, segment, SegmentComponent::Store)?;
    let alive = load_flags(alloc, directory, segment)?;
    files.store = store;
    Ok(StoredSegment { files, alive })
}

// Loads the files of a segment but that of its stored documents and that of its flags.
#[tactic(auto, unfolding(crate::specs::Contents::loaded_in))]
pub(crate) fn load_files<D: Directory>(
    alloc: Global,
    directory: &D,
    segment: &SegmentMeta,
) -> Result<SegmentFiles, StoreFault>
    ensures answers { D.is_known directory.now → AnswersFromFiles files_contents result (loaded_in (segment_view segment.now) (D.seen directory.now)) }
    ensures obeyed { is_obeyed IsRefused (D.may_refuse directory.now) result }
{
    let terms = load_file(alloc, directory, segment, SegmentComponent::Terms)?;
    let postings = load_file(alloc, directory, segment, SegmentComponent::Postings)?;
    let positions = load_file(alloc, directory, segment, SegmentComponent::Positions)?;
    let fieldnorms = load_file(alloc, directory, segment, SegmentComponent::FieldNorms)?;
    let counts = load_if_listed(alloc, directory, segment, SegmentComponent::Counts)?;
    Ok(SegmentFiles {
        num_docs: segment.num_docs,
        terms,
        postings,
        positions,
        fieldnorms,
        counts,
        store: None,
    })
}

// Loads the file of a component of a segment, if it lists one.
#[tactic(auto, unfolding(crate::specs::Contents::bytes_if_listed))]
fn load_if_listed<D: Directory>(
    alloc: Global,
    directory: &D,
    segment: &SegmentMeta,
    component: SegmentComponent,
) -> Result<Option<Vec<u8>>, StoreFault>
    ensures answers { D.is_known directory.now → AnswersFromFiles (option_map (λ v. v.items)) result (optional_bytes (segment_view segment.now) component (D.seen directory.now)) }
    ensures obeyed { is_obeyed IsRefused (D.may_refuse directory.now) result }
{
    let Some(file) = file_of(segment.files.as_slice(), component) else {
        return Ok(None);
    };
    match load_segment_file(alloc, directory, segment.id, &file) {
        Ok(bytes) => Ok(Some(bytes)),
        Err(fault) => Err(fault),
    }
}

/// Loads the flags of a segment's documents, which are all alive if it lists no file of flags.
///
/// Returns the fault of the file: missing, wrong length or wrong checksum; or `DeletedDocuments` if the flags aren't
/// those of the segment's documents, or not as many are alive as `meta` says.
#[tactic(auto, unfolding(crate::specs::Contents::flags_with))]
pub fn load_flags<D: Directory>(
    alloc: Global,
    directory: &D,
    segment: &SegmentMeta,
) -> Result<AliveBits, StoreFault>
    ensures answers { D.is_known directory.now → AnswersFromFiles (λ alive. alive) result (flags_in (segment_view segment.now) (D.seen directory.now)) }
    ensures obeyed { is_obeyed IsRefused (D.may_refuse directory.now) result }
{
    let Some(file) = alive_file(segment.files.as_slice()) else {
        let alive = all_alive(alloc, segment.num_docs)?;
        return fitting_flags(segment, alive);
    };
    let bytes = load_segment_file(alloc, directory, segment.id, &file)?;
    open_flags(alloc, segment, bytes.as_slice())
}

// Opens the flags of a segment's documents.
fn open_flags(alloc: Global, segment: &SegmentMeta, bytes: &[u8]) -> Result<AliveBits, StoreFault>
    ensures answers { AnswersFromFiles (λ alive. alive) result (fitting_flags (segment_view segment.now) (alive_of segment.now.num_docs bytes.now)) }
    ensures memory { is_obeyed IsRefused ⊥ result }
{
    match AliveBits::open(alloc, segment.num_docs, bytes) {
        Ok(alive) => fitting_flags(segment, alive),
        Err(fault) => Err(flags_fault(segment.id, fault)),
    }
}

// Returns the flags if they have as many living documents as the segment.
fn fitting_flags(segment: &SegmentMeta, alive: AliveBits) -> Result<AliveBits, StoreFault>
    ensures answers { AnswersFromFiles (λ alive. alive) result (fitting_flags (segment_view segment.now) (Some alive)) }
    ensures memory { is_obeyed IsRefused ⊥ result }
{
    if alive.num_living() != segment.num_living {
        return Err(StoreFault::Index(IndexFault::DeletedDocuments(segment.id)));
    }
    Ok(alive)
}

// Returns flags of documents that are all alive.
pub(crate) fn all_alive(alloc: Global, num_docs: u32) -> Result<AliveBits, StoreFault>
    ensures all { IfOk result (λ alive. alive ≡ replicate num_docs true) }
    ensures only { IfErr result (λ e. e ≡ of_directory OutOfMemory) }
{
    match AliveBits::full(alloc, num_docs) {
        Ok(alive) => Ok(alive),
        Err(fault) => Err(StoreFault::Directory(memory_fault(fault))),
    }
}

// Loads the file of a component of a segment.
#[tactic(auto, unfolding(crate::specs::Contents::bytes_of_component))]
fn load_file<D: Directory>(
    alloc: Global,
    directory: &D,
    segment: &SegmentMeta,
    component: SegmentComponent,
) -> Result<Vec<u8>, StoreFault>
    ensures answers { D.is_known directory.now → AnswersFromFiles (λ v. v.items) result (component_bytes (segment_view segment.now) component (D.seen directory.now)) }
    ensures obeyed { is_obeyed IsRefused (D.may_refuse directory.now) result }
{
    let id = segment.id;
    let Some(file) = file_of(segment.files.as_slice(), component) else {
        return Err(StoreFault::Index(IndexFault::MissingFile(id, component)));
    };
    load_segment_file(alloc, directory, id, &file)
}

/// Returns the file of a component, if a segment lists one.
pub fn file_of(files: &[FileMeta], component: SegmentComponent) -> Option<FileMeta>
    ensures { result ≡ file_of component files.now }
{
    for file in files {
        if file.component.is_same(component) {
            return Some(*file);
        }
    }
    None
}

/// Returns the file of flags, if a segment lists one, of whatever generation.
pub fn alive_file(files: &[FileMeta]) -> Option<FileMeta>
    ensures { result ≡ alive_file files.now }
{
    for file in files {
        if file.component.number() == 5 {
            return Some(*file);
        }
    }
    None
}
