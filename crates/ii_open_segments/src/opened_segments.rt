//! Opens the files of all segments of an index, of which ranges are read.
ghost use Rattle.std.specs.Prelude.{◌≡◌, List, Ok, map, replicate, true, ℕ};
ghost use Rattle.std.specs.Option.{option_map};
ghost use Rattle.ii_directory.specs.Directory.{Files, is_obeyed};
ghost use Rattle.ii_store.specs.Faults.{IsRefused};
ghost use Rattle.ii_store.specs.Index.{AnswersFromFiles};
ghost use Rattle.ii_store.specs.IndexMeta.{meta_view, segment_view};
ghost use Rattle.ii_segment_store.specs.Commits.{HasSegment, listed_segment};
ghost use Rattle.ii_segment_store.specs.Contents.{SegmentContents, all_of};
ghost use Rattle.ii_open_segments.specs.OpenSegments.{opened_at, opened_contents, opened_list, opened_of, opened_segment};

use crate::opening::open_one;
use ii_alive::AliveBits;
use ii_block_file::BlockFile;
use ii_directory::ReadAt;
use ii_segment_store::loading::{MOST_RETRIES, load_flags};
use ii_store::index_meta_reader::decode;
use ii_store::meta::{VERSION, version_of};
use ii_store::{Directory, IndexFault, IndexMeta, Name, SegmentComponent, SegmentMeta, StoreFault};
use std::alloc::Global;
use std::marker::Model;

/// A segment whose files are open, to read ranges of them. A segment of an earlier program has no tables of blocks, so
/// none of its files is open: load it then (`load_segments`).
#[derive(Drop)]
pub struct OpenSegment<F: ReadAt + Drop> {
    num_docs: u32,
    terms: Option<BlockFile<F>>,
    postings: Option<BlockFile<F>>,
    positions: Option<BlockFile<F>>,
    fieldnorms: Option<BlockFile<F>>,
    alive: AliveBits,
}

impl<F: ReadAt + Drop> Model for OpenSegment<F> {
    ghost use Rattle.std.specs.Option.{option_map};
    ghost use Rattle.ii_open_segments.specs.OpenSegments.{OpenSegmentState};

    ghost Value = { OpenSegmentState };

    ghost view = { λ s. record {
      num_docs = s.num_docs;
      terms = option_map (λ b. record { bytes = F.bytes b.source; table = b.table }) s.terms;
      postings = option_map (λ b. record { bytes = F.bytes b.source; table = b.table }) s.postings;
      positions = option_map (λ b. record { bytes = F.bytes b.source; table = b.table }) s.positions;
      fieldnorms = option_map (λ b. record { bytes = F.bytes b.source; table = b.table }) s.fieldnorms;
      alive = s.alive;
    } };
}

impl<F: ReadAt + Drop> OpenSegment<F> {
    /// Returns the number of documents, deleted ones included.
    pub fn num_docs(&self) -> u32
        ensures { result ≡ self.now.num_docs }
    {
        self.num_docs
    }

    /// Returns the file of terms, if it is open.
    pub fn terms(&self) -> Option<&BlockFile<F>>
        ensures { option_map (λ b. record { bytes = F.bytes b.now.source; table = b.now.table }) result ≡ self.now.terms }
    {
        self.terms.as_ref()
    }

    /// Returns the file of postings, if it is open.
    pub fn postings(&self) -> Option<&BlockFile<F>>
        ensures { option_map (λ b. record { bytes = F.bytes b.now.source; table = b.now.table }) result ≡ self.now.postings }
    {
        self.postings.as_ref()
    }

    /// Returns the file of positions, if it is open.
    pub fn positions(&self) -> Option<&BlockFile<F>>
        ensures { option_map (λ b. record { bytes = F.bytes b.now.source; table = b.now.table }) result ≡ self.now.positions }
    {
        self.positions.as_ref()
    }

    /// Returns the file of field norms, if it is open.
    pub fn fieldnorms(&self) -> Option<&BlockFile<F>>
        ensures { option_map (λ b. record { bytes = F.bytes b.now.source; table = b.now.table }) result ≡ self.now.fieldnorms }
    {
        self.fieldnorms.as_ref()
    }

    /// Returns which documents are alive.
    pub fn alive(&self) -> &AliveBits
        ensures { result.now ≡ self.now.alive }
    {
        &self.alive
    }

    /// Closes the files, and returns which documents are alive.
    pub fn into_alive(self) -> AliveBits
        ensures { result ≡ self.alive }
    {
        let OpenSegment {
            num_docs: _,
            terms: _,
            postings: _,
            positions: _,
            fieldnorms: _,
            alive,
        } = self;
        alive
    }
}

/// The open segments of an index, in the order of their documents, and its schema.
#[derive(Drop)]
pub struct OpenSegments<F: ReadAt + Drop> {
    /// The schema, as encoded by the calling program. It isn't read.
    pub schema: Vec<u8>,
    pub segments: Vec<OpenSegment<F>>,
}

/// Opens the files of terms, postings, positions and norms of each segment of an index, to read ranges of them (`open_file`),
/// and loads which documents are alive. Returns `None` for an index of version 1, which has no list of segments: load it
/// then (`load_segments`).
///
/// # Errors
///
/// `NoIndex` if there is no `meta`, and `OtherVersion` or `DamagedMeta` if it isn't a valid one. Otherwise the first
/// fault, segment by segment: that of `open_file`, then that of the flags (`load_flags`).
#[tactic(auto, unfolding(crate::specs::OpenSegments::opened_contents, crate::specs::OpenSegments::opened_in))]
pub fn open_segments<D: Directory>(
    alloc: Global,
    directory: &D,
) -> Result<Option<OpenSegments<D::File>>, StoreFault>
    ensures answers { D.is_known directory.now → AnswersFromFiles (option_map (λ o. record { schema = o.schema.items; segments = o.segments.items })) result (opened_contents (D.seen directory.now)) }
    ensures obeyed { is_obeyed IsRefused (D.may_refuse directory.now) result }
{
    let Some(meta) = directory.read(alloc, Name::Meta)? else {
        return Err(StoreFault::Index(IndexFault::NoIndex));
    };
    open_by(alloc, directory, meta.as_slice())
}

/// Opens the segments of an index as `open_segments` does. If another program replaces the index meanwhile, so that files
/// of the old one are missing or changed, the new one is opened; so often at most 10 times.
pub fn open_latest<D: Directory>(
    alloc: Global,
    directory: &D,
) -> Result<Option<OpenSegments<D::File>>, StoreFault>
    ensures answers { D.is_known directory.now → AnswersFromFiles (option_map (λ o. record { schema = o.schema.items; segments = o.segments.items })) result (opened_contents (D.seen directory.now)) }
    ensures obeyed { is_obeyed IsRefused (D.may_refuse directory.now) result }
{
    for _ in 0..MOST_RETRIES {
        let before = directory.read(alloc, Name::Meta)?;
        let fault = match open_segments(alloc, directory) {
            Ok(segments) => return Ok(segments),
            Err(fault) => fault,
        };
        let after = directory.read(alloc, Name::Meta)?;
        if before == after {
            return Err(fault);
        }
    }
    open_segments(alloc, directory)
}

// Opens the segments of the index that a `meta` file describes.
#[tactic(auto, unfolding(crate::specs::OpenSegments::opened_at))]
fn open_by<D: Directory>(
    alloc: Global,
    directory: &D,
    meta: &[u8],
) -> Result<Option<OpenSegments<D::File>>, StoreFault>
    ensures answers { D.is_known directory.now → AnswersFromFiles (option_map (λ o. record { schema = o.schema.items; segments = o.segments.items })) result (opened_at meta.now (D.seen directory.now)) }
    ensures obeyed { is_obeyed IsRefused (D.may_refuse directory.now) result }
{
    let version = version_of(meta)?;
    if version == VERSION {
        return Ok(None);
    }
    let list = decode(alloc, meta)?;
    open_list(alloc, directory, list)
}

// Opens the segments of a list.
#[tactic(auto, unfolding(crate::specs::OpenSegments::opened_list))]
fn open_list<D: Directory>(
    alloc: Global,
    directory: &D,
    list: IndexMeta,
) -> Result<Option<OpenSegments<D::File>>, StoreFault>
    ensures answers { D.is_known directory.now → AnswersFromFiles (option_map (λ o. record { schema = o.schema.items; segments = o.segments.items })) result (opened_list (meta_view list) (D.seen directory.now)) }
    ensures obeyed { is_obeyed IsRefused (D.may_refuse directory.now) result }
{
    match open_each(alloc, directory, list.segments.as_slice()) {
        Ok(segments) => Ok(Some(OpenSegments {
            schema: list.schema,
            segments,
        })),
        Err(fault) => Err(fault),
    }
}

// Opens segments one by one.
fn open_each<D: Directory>(
    alloc: Global,
    directory: &D,
    listed: &[SegmentMeta],
) -> Result<Vec<OpenSegment<D::File>>, StoreFault>
    ensures answers { D.is_known directory.now → AnswersFromFiles (λ v. v.items) result (all_of opened_segment (map segment_view listed.now) (D.seen directory.now)) }
    ensures obeyed { is_obeyed IsRefused (D.may_refuse directory.now) result }
{
    let mut segments = Vec::new(alloc);
    for segment in listed {
        let opened = open_segment(alloc, directory, segment)?;
        segments.push(opened)?;
    }
    Ok(segments)
}

// Opens the files of a segment.
#[tactic(auto, unfolding(crate::specs::OpenSegments::opened_segment))]
fn open_segment<D: Directory>(
    alloc: Global,
    directory: &D,
    segment: &SegmentMeta,
) -> Result<OpenSegment<D::File>, StoreFault>
    ensures answers { D.is_known directory.now → AnswersFromFiles (λ s. s) result (opened_segment (segment_view segment.now) (D.seen directory.now)) }
    ensures obeyed { is_obeyed IsRefused (D.may_refuse directory.now) result }
{
    let tables = directory.read(
        alloc,
        Name::Segment(segment.id, SegmentComponent::BlockTables),
    )?;
    let component = SegmentComponent::Terms;
    let terms = open_one(alloc, directory, segment, component, &tables)?;
    let component = SegmentComponent::Postings;
    let postings = open_one(alloc, directory, segment, component, &tables)?;
    let component = SegmentComponent::Positions;
    let positions = open_one(alloc, directory, segment, component, &tables)?;
    let component = SegmentComponent::FieldNorms;
    let fieldnorms = open_one(alloc, directory, segment, component, &tables)?;
    let alive = load_flags(alloc, directory, segment)?;
    Ok(OpenSegment {
        num_docs: segment.num_docs,
        terms,
        postings,
        positions,
        fieldnorms,
        alive,
    })
}

/// Law: a segment that is there as it was written, and all of whose documents are alive, opens with the bytes of its files
/// and their tables.
#[tactic(auto, using(crate::proofs::OpenSegmentLaws::segment_opens))]
pub fn written_segments_open()
    ensures { (id : ℕ) (s : SegmentContents) (files : Files) → HasSegment id s files → s.alive ≡ replicate s.num_docs true → opened_segment (listed_segment id s) files ≡ Ok (opened_of s) }
{}
