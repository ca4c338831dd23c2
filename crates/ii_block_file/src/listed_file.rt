//! Opens files of segments, of which ranges are read.
ghost use Rattle.std.specs.Prelude.{◌≡◌, IfOk, List, Some, ℕ};
ghost use Rattle.std.specs.declared.io.ErrorKind.TheVariants.{UnexpectedEof};
ghost use Rattle.ii_directory.specs.declared.name.Name.TheVariants.{Segment};
ghost use Rattle.ii_directory.specs.Directory.{is_obeyed};
ghost use Rattle.ii_directory.specs.declared.faults.DirectoryFault.TheVariants.{OutOfMemory};
ghost use Rattle.ii_store.specs.Faults.{IsRefused, of_directory, of_index};
ghost use Rattle.ii_store.specs.FileDigest.{digest_kind};
ghost use Rattle.ii_store.specs.Index.{AnswersFromFiles};
ghost use Rattle.ii_store.specs.Segments.{listed_bytes};
ghost use Rattle.ii_block_file.specs.declared.faults.ReadFault.TheVariants as faults;
ghost use Rattle.ii_block_file.specs.ListedFile.{HasKnownBytes, bytes_or_none, table_of_listed};

use crate::block_file::BlockFile;
use crate::block_table::{BlockTable, is_digest_of};
use crate::faults::ReadFault;
use ii_directory::{Directory, DirectoryFault, Name, ReadAt, SegmentComponent, SegmentId};
use ii_store::segments::load_segment_file;
use ii_store::{FileDigest, FileMeta, IndexFault, StoreFault};
use std::alloc::Global;
use std::io::ErrorKind;

/// Opens a file of a segment, as `meta` lists it, to read ranges of it. Reads the file once, in order, to compare its
/// length and its digest with those in `meta`, and holds no more than 256 KiB of it in memory, besides the table of its
/// blocks. A file whose digest isn't of blocks of `BLOCK_LEN` bytes, as those of earlier programs, is loaded to compare
/// it.
///
/// # Errors
///
/// `MissingFile` if there is no such file, else `WrongFileLength` or `WrongFileChecksum` if it isn't the one that `meta`
/// describes, as `load_segment_file` does. `Directory` if the directory refuses a call, or an allocation fails.
#[tactic(auto, unfolding(ii_store::specs::Segments::listed_bytes))]
pub fn open_listed<D: Directory>(
    alloc: Global,
    directory: &D,
    id: SegmentId,
    file: &FileMeta,
) -> Result<BlockFile<D::File>, StoreFault>
    ensures answers { D.is_known directory.now → AnswersFromFiles (λ b. bytes_or_none (D.File.bytes b.source)) result (listed_bytes (record { id = id; file = file.now }) (D.seen directory.now (Segment id file.now.component))) }
    ensures known { D.is_known directory.now → IfOk result (HasKnownBytes D.File.bytes) }
    ensures obeyed { D.is_known directory.now → is_obeyed IsRefused (D.may_refuse directory.now) result }
{
    let Some(source) = directory.open(alloc, Name::Segment(id, file.component))? else {
        return Err(StoreFault::Index(IndexFault::MissingFile(id, file.component)));
    };
    let table = table_of_listed(alloc, directory, id, file, &source)?;
    Ok(BlockFile::new(source, table))
}

// Returns the table of a listed file that was opened.
fn table_of_listed<D: Directory>(
    alloc: Global,
    directory: &D,
    id: SegmentId,
    file: &FileMeta,
    source: &D::File,
) -> Result<BlockTable, StoreFault>
    ensures answers { D.is_known directory.now → (bytes : List ℕ) → D.seen directory.now (Segment id file.now.component) ≡ Some bytes → D.File.bytes source.now ≡ Some bytes → AnswersFromFiles (λ t. t) result (table_of_listed (record { id = id; file = file.now }) (Some bytes)) }
    ensures obeyed { (bytes : List ℕ) → D.File.bytes source.now ≡ Some bytes → is_obeyed IsRefused (D.may_refuse directory.now) result }
{
    match file.digest {
        FileDigest::Blocks(_) => read_table(alloc, id, file, source),
        FileDigest::Sha256(_) | FileDigest::LongBlocks(_) => load_table(alloc, directory, id, file),
    }
}

// Loads a listed file, whatever its digest, and returns its table.
fn load_table<D: Directory>(
    alloc: Global,
    directory: &D,
    id: SegmentId,
    file: &FileMeta,
) -> Result<BlockTable, StoreFault>
    ensures answers { D.is_known directory.now → AnswersFromFiles (λ t. t) result (table_of_listed (record { id = id; file = file.now }) (D.seen directory.now (Segment id file.now.component))) }
    ensures obeyed { is_obeyed IsRefused (D.may_refuse directory.now) result }
{
    let bytes = load_segment_file(alloc, directory, id, file)?;
    Ok(BlockTable::of(alloc, bytes.as_slice())?)
}

// Reads a listed file that has a digest of its blocks, and returns its table.
#[tactic(auto, unfolding(ii_store::specs::Segments::listed_bytes))]
fn read_table<R: ReadAt>(
    alloc: Global,
    id: SegmentId,
    file: &FileMeta,
    source: &R,
) -> Result<BlockTable, StoreFault>
    requires kind { digest_kind file.now.digest ≡ 2 }
    ensures answers { (bytes : List ℕ) → R.bytes source.now ≡ Some bytes → AnswersFromFiles (λ t. t) result (table_of_listed (record { id = id; file = file.now }) (Some bytes)) }
    ensures obeyed { (bytes : List ℕ) → R.bytes source.now ≡ Some bytes → is_obeyed IsRefused ⊥ result }
{
    let mut byte = [0u8; 1];
    if source.read_exact_at(&mut byte, file.len).is_ok() {
        return Err(StoreFault::Index(IndexFault::WrongFileLength(id, file.component)));
    }
    let table = match BlockTable::read(alloc, source, file.len) {
        Ok(table) => table,
        Err(fault) => return Err(table_fault(id, file.component, fault)),
    };
    if !is_digest_of(&file.digest, table.as_bytes()) {
        return Err(StoreFault::Index(IndexFault::WrongFileChecksum(id, file.component)));
    }
    Ok(table)
}

// Returns why the table of a file can't be read. Whatever isn't refused is an allocation that failed.
fn table_fault(id: SegmentId, component: SegmentComponent, fault: ReadFault) -> StoreFault
    ensures short { fault ≡ faults.Refused UnexpectedEof → result ≡ of_index (IndexFault.WrongFileLength id component) }
    ensures memory { fault ≡ faults.OutOfMemory → result ≡ of_directory OutOfMemory }
{
    match fault {
        ReadFault::Refused(ErrorKind::UnexpectedEof) => {
            StoreFault::Index(IndexFault::WrongFileLength(id, component))
        }
        ReadFault::Refused(kind) => StoreFault::Directory(DirectoryFault::Refused(kind)),
        _ => StoreFault::Directory(DirectoryFault::OutOfMemory),
    }
}
