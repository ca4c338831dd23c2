//! Segments whose files are written piece by piece, and get their names once they are complete.
ghost use Rattle.std.specs.Prelude.{◌≡◌, ◌∷◌, ◌++◌, [], IfOk, IfSome, List, OnOk, Some, length, ℕ};
ghost use Rattle.ii_block_file.specs.BlockTable.{block_table_of};
ghost use Rattle.ii_directory.specs.declared.name.Name.TheVariants.{Segment};
ghost use Rattle.ii_directory.specs.declared.name.SegmentComponent.TheVariants.{BlockTables};
ghost use Rattle.ii_directory.specs.Directory.{Elapses, Elsewhere, IsRefusal, Obeys, is_obeyed};
ghost use Rattle.ii_store.specs.IndexMeta.{file_meta, segment_view};
ghost use Rattle.ii_segment_store.specs.BlockTables.{file_table, table_if};
ghost use Rattle.ii_segment_store.specs.Commits.{HasFileIf, HasSegment, KeepsButSegment, listed_if, listed_segment};
ghost use Rattle.ii_segment_store.specs.NewSegments.{AreCounted, HasLists, IsCounted, IsWritten, listed_lists, new_contents, new_file, new_file_if};

use ii_base::{CountingWriter, DocId};
use ii_block_file::{BlockTable, ReadFault};
use ii_store::{
    Directory, DirectoryFault, FileMeta, Name, SegmentComponent, SegmentId, SegmentMeta,
};
use std::alloc::Global;
use std::io::{ErrorKind, Write};

/// The files of a segment that were written and have no names yet, and its number of documents. All of these are alive.
#[derive(Drop)]
pub struct NewSegment<W: Write> {
    pub num_docs: DocId,
    /// Terms, postings, positions and field norms, as `write_index` writes them.
    pub terms: CountingWriter<W>,
    pub postings: CountingWriter<W>,
    pub positions: CountingWriter<W>,
    pub fieldnorms: CountingWriter<W>,
    /// The number of tokens of each document in each field, if it was recorded.
    pub counts: Option<CountingWriter<W>>,
    /// The stored documents, in the format of `ii_doc_store`, if they were stored.
    pub store: Option<CountingWriter<W>>,
}

// What `meta` says of files, and their tables, one after the other.
#[derive(Drop)]
struct ListedFiles {
    files: Vec<FileMeta>,
    tables: Vec<u8>,
}

// Gives the files of a segment their names, and writes the tables of these. Returns the segment as `meta` lists it.
pub(crate) fn finish_segment<D: Directory>(
    alloc: Global,
    directory: &mut D,
    id: SegmentId,
    segment: NewSegment<D::NewFile>,
) -> Result<SegmentMeta, DirectoryFault>
    requires written { D.is_known directory.old → IsWritten segment }
    ensures known { D.is_known directory.old → OnOk result (D.is_known directory.new) }
    ensures obeys { D.is_known directory.old → Obeys IsRefusal (D.may_refuse directory.old) (D.may_refuse directory.new) result }
    ensures listed { D.is_known directory.old → IfOk result (λ s. segment_view s ≡ listed_segment id (new_contents segment)) }
    ensures there { D.is_known directory.old → OnOk result (HasSegment id (new_contents segment) (D.seen directory.new)) }
    ensures keeps { D.is_known directory.old → OnOk result (KeepsButSegment id (D.seen directory.old) (D.seen directory.new)) }
    ensures time { D.is_known directory.old → Elapses (D.moment directory.old) (D.moment directory.new) (D.left_since directory.old) (D.left_since directory.new) (KeepsButSegment id (D.seen directory.old)) }
{
    let NewSegment {
        num_docs,
        terms,
        postings,
        positions,
        fieldnorms,
        counts,
        store,
    } = segment;
    let mut listed = finish_lists(alloc, directory, id, terms, postings, positions, fieldnorms)?;
    finish_if_some(
        alloc,
        directory,
        id,
        SegmentComponent::Counts,
        counts,
        &mut listed,
    )?;
    finish_if_some(
        alloc,
        directory,
        id,
        SegmentComponent::Store,
        store,
        &mut listed,
    )?;
    let files = write_tables(directory, id, listed)?;
    Ok(SegmentMeta {
        id,
        num_docs,
        num_living: num_docs,
        files,
    })
}

// Gives the files that each segment has their names, and lists them.
fn finish_lists<D: Directory>(
    alloc: Global,
    directory: &mut D,
    id: SegmentId,
    terms: CountingWriter<D::NewFile>,
    postings: CountingWriter<D::NewFile>,
    positions: CountingWriter<D::NewFile>,
    fieldnorms: CountingWriter<D::NewFile>,
) -> Result<ListedFiles, DirectoryFault>
    ensures known { D.is_known directory.old → OnOk result (D.is_known directory.new) }
    ensures obeys { D.is_known directory.old → AreCounted terms postings positions fieldnorms → Obeys IsRefusal (D.may_refuse directory.old) (D.may_refuse directory.new) result }
    ensures there { D.is_known directory.old → AreCounted terms postings positions fieldnorms → OnOk result (HasLists id (new_file terms) (new_file postings) (new_file positions) (new_file fieldnorms) (D.seen directory.new)) }
    ensures files { D.is_known directory.old → AreCounted terms postings positions fieldnorms → IfOk result (λ listed. listed.files.items ≡ listed_lists (new_file terms) (new_file postings) (new_file positions) (new_file fieldnorms)) }
    ensures tables { D.is_known directory.old → AreCounted terms postings positions fieldnorms → IfOk result (λ listed. listed.tables.items ≡ file_table (new_file terms) ++ file_table (new_file postings) ++ file_table (new_file positions) ++ file_table (new_file fieldnorms)) }
    ensures keeps { D.is_known directory.old → OnOk result (KeepsButSegment id (D.seen directory.old) (D.seen directory.new)) }
    ensures time { D.is_known directory.old → Elapses (D.moment directory.old) (D.moment directory.new) (D.left_since directory.old) (D.left_since directory.new) (KeepsButSegment id (D.seen directory.old)) }
{
    let mut listed = ListedFiles {
        files: Vec::new(alloc),
        tables: Vec::new(alloc),
    };
    let component = SegmentComponent::Terms;
    finish_file(alloc, directory, id, component, terms, &mut listed)?;
    let component = SegmentComponent::Postings;
    finish_file(alloc, directory, id, component, postings, &mut listed)?;
    let component = SegmentComponent::Positions;
    finish_file(alloc, directory, id, component, positions, &mut listed)?;
    let component = SegmentComponent::FieldNorms;
    finish_file(alloc, directory, id, component, fieldnorms, &mut listed)?;
    Ok(listed)
}

// Gives a file that a segment may not have its name.
fn finish_if_some<D: Directory>(
    alloc: Global,
    directory: &mut D,
    id: SegmentId,
    component: SegmentComponent,
    file: Option<CountingWriter<D::NewFile>>,
    listed: &mut ListedFiles,
) -> Result<(), DirectoryFault>
    ensures known { D.is_known directory.old → OnOk result (D.is_known directory.new) }
    ensures obeys { D.is_known directory.old → IfSome file IsCounted → Obeys IsRefusal (D.may_refuse directory.old) (D.may_refuse directory.new) result }
    ensures there { D.is_known directory.old → IfSome file IsCounted → OnOk result (HasFileIf id component (new_file_if file) (D.seen directory.new)) }
    ensures files { D.is_known directory.old → IfSome file IsCounted → OnOk result (listed.new.files.items ≡ listed.old.files.items ++ listed_if component (new_file_if file)) }
    ensures tables { D.is_known directory.old → IfSome file IsCounted → OnOk result (listed.new.tables.items ≡ listed.old.tables.items ++ table_if (new_file_if file)) }
    ensures keeps { D.is_known directory.old → OnOk result (Elsewhere (Segment id component) (D.seen directory.old) (D.seen directory.new)) }
    ensures time { D.is_known directory.old → Elapses (D.moment directory.old) (D.moment directory.new) (D.left_since directory.old) (D.left_since directory.new) (Elsewhere (Segment id component) (D.seen directory.old)) }
{
    match file {
        Some(file) => finish_file(alloc, directory, id, component, file, listed),
        None => Ok(()),
    }
}

// Gives a file of a segment its name, and reads it to add its table and what `meta` says of it.
fn finish_file<D: Directory>(
    alloc: Global,
    directory: &mut D,
    id: SegmentId,
    component: SegmentComponent,
    file: CountingWriter<D::NewFile>,
    listed: &mut ListedFiles,
) -> Result<(), DirectoryFault>
    ensures known { D.is_known directory.old → OnOk result (D.is_known directory.new) }
    ensures obeys { D.is_known directory.old → IsCounted file → Obeys IsRefusal (D.may_refuse directory.old) (D.may_refuse directory.new) result }
    ensures there { D.is_known directory.old → IsCounted file → OnOk result (D.seen directory.new (Segment id component) ≡ Some (new_file file)) }
    ensures files { D.is_known directory.old → IsCounted file → OnOk result (listed.new.files.items ≡ listed.old.files.items ++ file_meta component (new_file file) ∷ []) }
    ensures tables { D.is_known directory.old → IsCounted file → OnOk result (listed.new.tables.items ≡ listed.old.tables.items ++ file_table (new_file file)) }
    ensures keeps { D.is_known directory.old → OnOk result (Elsewhere (Segment id component) (D.seen directory.old) (D.seen directory.new)) }
    ensures time { D.is_known directory.old → Elapses (D.moment directory.old) (D.moment directory.new) (D.left_since directory.old) (D.left_since directory.new) (Elsewhere (Segment id component) (D.seen directory.old)) }
{
    let name = Name::Segment(id, component);
    let len = file.written_bytes();
    directory.finish(name, file.finish())?;
    let table = read_table(alloc, directory, name, len)?;
    listed.files.push(table.file_meta(component))?;
    listed.tables.extend_from_slice(table.as_bytes())?;
    Ok(())
}

// Returns the table of a file of this length.
fn read_table<D: Directory>(
    alloc: Global,
    directory: &D,
    name: Name,
    len: u64,
) -> Result<BlockTable, DirectoryFault>
    ensures table { D.is_known directory.now → (bytes : List ℕ) → D.seen directory.now name ≡ Some bytes → len ≡ length bytes → IfOk result (λ t. t ≡ block_table_of bytes) }
    ensures obeyed { D.is_known directory.now → (bytes : List ℕ) → D.seen directory.now name ≡ Some bytes → len ≡ length bytes → is_obeyed IsRefusal (D.may_refuse directory.now) result }
{
    let Some(file) = directory.open(alloc, name)? else {
        return Err(DirectoryFault::Refused(ErrorKind::NotFound));
    };
    match BlockTable::read(alloc, &file, len) {
        Ok(table) => Ok(table),
        Err(ReadFault::Refused(kind)) => Err(DirectoryFault::Refused(kind)),
        Err(_) => Err(DirectoryFault::OutOfMemory),
    }
}

// Writes the tables of the files of a segment. Returns these files, with the one of the tables, as `meta` lists them.
fn write_tables<D: Directory>(
    directory: &mut D,
    id: SegmentId,
    listed: ListedFiles,
) -> Result<Vec<FileMeta>, DirectoryFault>
    ensures known { D.is_known directory.old → OnOk result (D.is_known directory.new) }
    ensures obeys { Obeys IsRefusal (D.may_refuse directory.old) (D.may_refuse directory.new) result }
    ensures files { IfOk result (λ files. files.items ≡ listed.files.items ++ file_meta BlockTables listed.tables.items ∷ []) }
    ensures there { D.is_known directory.old → OnOk result (D.seen directory.new (Segment id BlockTables) ≡ Some listed.tables.items) }
    ensures keeps { D.is_known directory.old → OnOk result (Elsewhere (Segment id BlockTables) (D.seen directory.old) (D.seen directory.new)) }
    ensures time { D.is_known directory.old → Elapses (D.moment directory.old) (D.moment directory.new) (D.left_since directory.old) (D.left_since directory.new) (Elsewhere (Segment id BlockTables) (D.seen directory.old)) }
{
    let ListedFiles { files, tables } = listed;
    let mut files = files;
    let name = Name::Segment(id, SegmentComponent::BlockTables);
    files.push(FileMeta::new(SegmentComponent::BlockTables, tables.as_slice()))?;
    directory.write(name, tables.as_slice())?;
    Ok(files)
}
