//! Files that are read by ranges.
ghost use Rattle.std.specs.Prelude.{◌≡◌, ◌≤◌, ◌+◌, Err, IfErr, IfOk, IsErrOf, List, Ok, drop, length, take, ℕ};
ghost use Rattle.ii_directory.specs.declared.name.Name.TheVariants.{Segment};
ghost use Rattle.ii_store.specs.Faults.{of_index};
ghost use Rattle.ii_store.specs.Segments.{listed_bytes};
ghost use Rattle.ii_block_file.specs.declared.faults.ReadFault.TheVariants as faults;

use bytes::Bytes;
use ii_block_file::{BlockFile, BlockTable, MemoryFile, ReadFault, open_listed};
use ii_directory::{Directory, SegmentId};
use ii_store::{FileDigest, FileMeta, IndexFault, StoreFault};
use std::alloc::Global;

/// A range of a file that is as it was written is read exactly, and only an allocation can fail.
#[tactic(auto, using(ii_block_file::proofs::TableLaws::own_table))]
pub fn ranges_are_read(
    alloc: Global,
    file: &[u8],
    from: u64,
    len: usize,
) -> Result<Bytes, ReadFault>
    requires { from + len ≤ length file.now }
    ensures range { IfOk result (λ bytes. bytes ≡ take len (drop from file.now)) }
    ensures only { IfErr result (λ e. e ≡ faults.OutOfMemory) }
{
    let digest = FileDigest::new(file);
    let written = BlockTable::of(alloc, file)?;
    let bytes = Vec::from_slice(alloc, written.as_bytes())?;
    match BlockTable::open(file.len() as u64, &digest, bytes) {
        Some(table) => {
            let source = MemoryFile::new(Bytes::copy_from_slice(alloc, file)?);
            BlockFile::new(source, table).read(alloc, from, len)
        }
        None => Err(ReadFault::Range),
    }
}

/// A range of a file that is the one that a list of segments describes is read as of the file in memory, and only an
/// allocation can fail. Otherwise the fault of the file is the one that loading it has.
pub fn listed_files_open_as_they_load<D: Directory>(
    alloc: Global,
    directory: &D,
    id: SegmentId,
    file: &FileMeta,
    from: u64,
    len: usize,
) -> Result<Result<Bytes, ReadFault>, StoreFault>
    requires { D.is_known directory.now }
    ensures range { (bytes : List ℕ) → listed_bytes (record { id = id; file = file.now }) (D.seen directory.now (Segment id file.now.component)) ≡ Ok bytes → IfOk result (λ read. IfOk read (λ range. range ≡ take len (drop from bytes))) }
    ensures only { (bytes : List ℕ) → listed_bytes (record { id = id; file = file.now }) (D.seen directory.now (Segment id file.now.component)) ≡ Ok bytes → from + len ≤ length bytes → IfOk result (λ read. IfErr read (λ e. e ≡ faults.OutOfMemory)) }
    ensures refused { (fault : IndexFault) → IsErrOf result (of_index fault) → listed_bytes (record { id = id; file = file.now }) (D.seen directory.now (Segment id file.now.component)) ≡ Err fault }
{
    let opened = open_listed(alloc, directory, id, file)?;
    Ok(opened.read(alloc, from, len))
}
