//! Opens files of segments, of which ranges are read.
ghost use Rattle.std.specs.Prelude.{◌≡◌, ◌<◌, ◌≤◌, ◌^◌, List, MatchOption, Ok, Some, length, ℕ};
ghost use Rattle.std.specs.Option.{option_map};
ghost use Rattle.ii_directory.specs.declared.name.Name.TheVariants.{Segment};
ghost use Rattle.ii_directory.specs.declared.name.SegmentComponent.{SegmentComponent};
ghost use Rattle.ii_directory.specs.declared.name.SegmentComponent.TheVariants.{BlockTables};
ghost use Rattle.ii_directory.specs.Directory.{Files, found_bytes, is_obeyed};
ghost use Rattle.ii_store.specs.Faults.{IsRefused};
ghost use Rattle.ii_store.specs.Index.{AnswersFromFiles};
ghost use Rattle.ii_store.specs.IndexMeta.{segment_view};
ghost use Rattle.ii_open_segments.specs.OpenFiles.{OpenFileState, component_contents, has_table, len_before, listed_table, open_in, open_listed, open_with, table_end, table_in, table_len, table_start};
ghost use Rattle.ii_segment_store.specs.Contents.{SegmentContents, file_of};
ghost use Rattle.ii_segment_store.specs.Commits.{HasSegment, listed_segment};
ghost use Rattle.ii_block_file.specs.BlockTable.{block_table_of};

use ii_block_file::{BlockFile, BlockTable};
use ii_segment_store::loading::file_of;
use ii_store::file_digest::BLOCK_LEN;
use ii_store::{
    Directory, FileMeta, IndexFault, Name, SegmentComponent, SegmentId, SegmentMeta, StoreFault,
};
use std::alloc::Global;

/// Opens a file of a segment, of which ranges are read. The file isn't read: the digest that the segment's list has of it
/// is compared with its table, which is in the segment's file of tables, and each block with its checksum in the table
/// when it is read.
///
/// Returns `None` if the segment lists no file of tables, or its list has another digest of the file than that of blocks of
/// `BLOCK_LEN` bytes, as those of earlier programs, or the component has no table (`Alive` and `BlockTables`): load the
/// file then.
///
/// # Errors
///
/// `MissingFile` if the segment lists no file of the component, or if there is no such file. The fault of the file of
/// tables: missing, `WrongFileLength` if it ends before the table, `WrongFileChecksum` if the table has another digest than
/// the list has of the file.
#[tactic(auto, unfolding(crate::specs::OpenFiles::open_found))]
pub fn open_file<D: Directory>(
    alloc: Global,
    directory: &D,
    segment: &SegmentMeta,
    component: SegmentComponent,
) -> Result<Option<BlockFile<D::File>>, StoreFault>
    ensures answers { D.is_known directory.now → AnswersFromFiles (option_map (λ b. record { bytes = D.File.bytes b.source; table = b.table })) result (open_in (segment_view segment.now) component (D.seen directory.now)) }
    ensures obeyed { is_obeyed IsRefused (D.may_refuse directory.now) result }
{
    let tables = directory.read(
        alloc,
        Name::Segment(segment.id, SegmentComponent::BlockTables),
    )?;
    open_one(alloc, directory, segment, component, &tables)
}

// Opens a file of a segment, given the bytes of the segment's file of tables, if there is one.
#[tactic(auto, unfolding(crate::specs::OpenFiles::open_found))]
pub(crate) fn open_one<D: Directory>(
    alloc: Global,
    directory: &D,
    segment: &SegmentMeta,
    component: SegmentComponent,
    tables: &Option<Vec<u8>>,
) -> Result<Option<BlockFile<D::File>>, StoreFault>
    ensures answers { D.is_known directory.now → found_bytes tables.now ≡ D.seen directory.now (Segment segment.now.id BlockTables) → AnswersFromFiles (option_map (λ b. record { bytes = D.File.bytes b.source; table = b.table })) result (open_in (segment_view segment.now) component (D.seen directory.now)) }
    ensures obeyed { is_obeyed IsRefused (D.may_refuse directory.now) result }
{
    let Some(file) = file_of(segment.files.as_slice(), component) else {
        return Err(StoreFault::Index(IndexFault::MissingFile(segment.id, component)));
    };
    open_listed(alloc, directory, segment, &file, tables)
}

// Opens a listed file, if the segment has a table of it.
#[tactic(auto, unfolding(crate::specs::OpenFiles::open_listed))]
fn open_listed<D: Directory>(
    alloc: Global,
    directory: &D,
    segment: &SegmentMeta,
    file: &FileMeta,
    tables: &Option<Vec<u8>>,
) -> Result<Option<BlockFile<D::File>>, StoreFault>
    ensures answers { D.is_known directory.now → found_bytes tables.now ≡ D.seen directory.now (Segment segment.now.id BlockTables) → AnswersFromFiles (option_map (λ b. record { bytes = D.File.bytes b.source; table = b.table })) result (open_listed (segment_view segment.now) file.now (file_of BlockTables segment.now.files.items) (D.seen directory.now)) }
    ensures obeyed { is_obeyed IsRefused (D.may_refuse directory.now) result }
{
    let Some(_) = file_of(segment.files.as_slice(), SegmentComponent::BlockTables) else {
        return Ok(None);
    };
    if !has_table(file) {
        return Ok(None);
    }
    let table = load_table(alloc, segment, file, tables)?;
    open_with(alloc, directory, segment.id, file.component, table)
}

// Opens a file with its table.
#[tactic(auto, unfolding(crate::specs::OpenFiles::open_with))]
fn open_with<D: Directory>(
    alloc: Global,
    directory: &D,
    id: SegmentId,
    component: SegmentComponent,
    table: BlockTable,
) -> Result<Option<BlockFile<D::File>>, StoreFault>
    ensures answers { D.is_known directory.now → AnswersFromFiles (option_map (λ b. record { bytes = D.File.bytes b.source; table = b.table })) result (open_with id component table (D.seen directory.now (Segment id component))) }
    ensures obeyed { is_obeyed IsRefused (D.may_refuse directory.now) result }
{
    let Some(source) = directory.open(alloc, Name::Segment(id, component))? else {
        return Err(StoreFault::Index(IndexFault::MissingFile(id, component)));
    };
    Ok(Some(BlockFile::new(source, table)))
}

// Takes the table of a listed file out of the segment's file of tables.
#[tactic(auto, unfolding(crate::specs::OpenFiles::listed_table))]
fn load_table(
    alloc: Global,
    segment: &SegmentMeta,
    file: &FileMeta,
    tables: &Option<Vec<u8>>,
) -> Result<BlockTable, StoreFault>
    ensures answers { AnswersFromFiles (λ t. t) result (listed_table (segment_view segment.now) file.now (found_bytes tables.now)) }
    ensures memory { is_obeyed IsRefused ⊥ result }
{
    let id = segment.id;
    let component = SegmentComponent::BlockTables;
    let Some(bytes) = tables else {
        return Err(StoreFault::Index(IndexFault::MissingFile(id, component)));
    };
    let Some(table) = table_in(segment.files.as_slice(), file, bytes.as_slice()) else {
        return Err(StoreFault::Index(IndexFault::WrongFileLength(id, component)));
    };
    match BlockTable::open(file.len, &file.digest, Vec::from_slice(alloc, table)?) {
        Some(table) => Ok(table),
        None => Err(StoreFault::Index(IndexFault::WrongFileChecksum(id, component))),
    }
}

// Returns the table of a listed file in a file of tables, or `None` if this is too short.
fn table_in<'a>(files: &[FileMeta], file: &FileMeta, tables: &'a [u8]) -> Option<&'a [u8]>
    ensures { MatchOption result (length tables.now < table_end file.now files.now) (λ table. (table.now ≡ table_in file.now files.now tables.now) × (table_end file.now files.now ≤ length tables.now)) }
{
    let Some(start) = table_start(files, file.component, tables.len()) else {
        return None;
    };
    let len = table_len(file);
    if len > (tables.len() - start) as u64 {
        return None;
    }
    Some(&tables[start..start + len as usize])
}

// Returns where the table of a component begins in the file of tables, or `None` if that is after its end.
fn table_start(files: &[FileMeta], component: SegmentComponent, end: usize) -> Option<usize>
    requires { end < 2 ^ 63 }
    ensures { MatchOption result (end < table_start component files.now) (λ start. (start ≡ table_start component files.now) × (start ≤ end)) }
{
    let mut start: u64 = 0;
    for file in files {
        start += len_before(component, file);
        if start > end as u64 {
            return None;
        }
    }
    Some(start as usize)
}

// Returns the length of the table of a listed file, if its component comes before another.
fn len_before(component: SegmentComponent, file: &FileMeta) -> u64
    ensures len { result ≡ len_before component file.now }
    ensures bound { result < 2 ^ 56 }
{
    if file.component.number() < component.number() {
        return table_len(file);
    }
    0
}

// Returns the length of the table of a listed file, in bytes.
#[tactic(auto, using(ii_block_file::proofs::TableLaws::blocks_divide))]
fn table_len(file: &FileMeta) -> u64
    ensures len { result ≡ table_len file.now }
    ensures bound { result < 2 ^ 56 }
{
    if !has_table(file) {
        return 0;
    }
    8 * file.len.div_ceil(BLOCK_LEN as u64)
}

// Returns whether the file of tables has the table of a listed file.
fn has_table(file: &FileMeta) -> bool
    ensures { result ≡ has_table file.now }
{
    file.component.number() != 5 && file.component.number() != 7 && file.digest.kind() == 2
}

/// Law: a file of a segment that is there as it was written opens with its bytes and their table. So ranges of it are read
/// exactly, and only an allocation can fail.
pub fn written_files_open()
    ensures { (id : ℕ) (s : SegmentContents) (files : Files) → HasSegment id s files → (component : SegmentComponent) (bytes : List ℕ) → component_contents s component ≡ Some bytes → open_in (listed_segment id s) component files ≡ Ok (Some (record { bytes = Some bytes; table = block_table_of bytes })) }
{}
