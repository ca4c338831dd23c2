//! Files of a merged segment, which are written before they have names.
ghost use Rattle.std.specs.Prelude.{◌≡◌, IfOk, IfSome};
ghost use Rattle.std.specs.Option.{option_map};
ghost use Rattle.ii_io.specs.Faults.{memory_fault};
ghost use Rattle.ii_directory.specs.Directory.{IsRefusal, is_obeyed};
ghost use Rattle.ii_indexing.specs.RamFiles.{empty_file, empty_files};
ghost use Rattle.ii_segment_store.specs.NewSegments.{IsCounted, new_file, new_file_if};
ghost use Rattle.nequllpa_merging.specs.Faults.{IsRefusedFiles, OfFault};

use crate::faults::FilesFault;
use ii_base::{CountingWriter, Fault};
use ii_merger::IndexWriters;
use ii_store::{Directory, DirectoryFault};
use std::alloc::Global;
use std::io::Write;

// Creates an empty file.
pub(crate) fn new_writer<D: Directory>(
    alloc: Global,
    directory: &D,
) -> Result<CountingWriter<D::NewFile>, DirectoryFault>
    ensures empty { D.is_known directory.now → IfOk result (λ w. w ≡ empty_file) }
    ensures obeyed { is_obeyed IsRefusal (D.may_refuse directory.now) result }
{
    Ok(CountingWriter::wrap(directory.create(alloc)?))
}

// Creates the empty files of an index.
pub(crate) fn index_writers<D: Directory>(
    alloc: Global,
    directory: &D,
) -> Result<IndexWriters<D::NewFile>, DirectoryFault>
    ensures empty { D.is_known directory.now → IfOk result (λ w. w ≡ empty_files) }
    ensures obeyed { is_obeyed IsRefusal (D.may_refuse directory.now) result }
{
    let terms = new_writer(alloc, directory)?;
    let postings = new_writer(alloc, directory)?;
    let positions = new_writer(alloc, directory)?;
    let fieldnorms = new_writer(alloc, directory)?;
    Ok(IndexWriters {
        terms,
        postings,
        positions,
        fieldnorms,
    })
}

// Returns why the files of an index weren't merged.
pub(crate) fn files_fault<D: Directory>(
    directory: &D,
    files: IndexWriters<D::NewFile>,
    fault: Fault,
) -> FilesFault
    ensures fault { OfFault (λ e. e ≡ memory_fault fault) result }
    ensures obeyed { IsRefusedFiles result → D.may_refuse directory.now }
{
    match fault {
        Fault::Write => FilesFault::Directory(directory.write_fault(&failed_file(files))),
        fault => FilesFault::Fault(fault.in_memory()),
    }
}

// Returns the first file that a call failed to write, or the last one.
fn failed_file<W: Write + Drop>(files: IndexWriters<W>) -> W {
    let IndexWriters {
        terms,
        postings,
        positions,
        fieldnorms,
    } = files;
    if terms.failed_calls() > 0 {
        return terms.finish();
    }
    if postings.failed_calls() > 0 {
        return postings.finish();
    }
    if positions.failed_calls() > 0 {
        return positions.finish();
    }
    fieldnorms.finish()
}

// Writes a file that there may be.
pub(crate) fn write_if_some<D: Directory>(
    alloc: Global,
    directory: &D,
    bytes: Option<Vec<u8>>,
) -> Result<Option<CountingWriter<D::NewFile>>, DirectoryFault>
    ensures written { D.is_known directory.now → IfOk result (λ file. IfSome file IsCounted) }
    ensures bytes { D.is_known directory.now → IfOk result (λ file. new_file_if file ≡ option_map (λ v. v.items) bytes) }
    ensures obeyed { is_obeyed IsRefusal (D.may_refuse directory.now) result }
{
    let Some(bytes) = bytes else {
        return Ok(None);
    };
    match write_file(alloc, directory, bytes.as_slice()) {
        Ok(file) => Ok(Some(file)),
        Err(fault) => Err(fault),
    }
}

// Writes a file.
fn write_file<D: Directory>(
    alloc: Global,
    directory: &D,
    bytes: &[u8],
) -> Result<CountingWriter<D::NewFile>, DirectoryFault>
    ensures written { D.is_known directory.now → IfOk result IsCounted }
    ensures bytes { D.is_known directory.now → IfOk result (λ file. new_file file ≡ bytes.now) }
    ensures obeyed { is_obeyed IsRefusal (D.may_refuse directory.now) result }
{
    let mut file = new_writer(alloc, directory)?;
    if file.write_all(bytes).is_err() {
        return Err(directory.write_fault(&file.finish()));
    }
    Ok(file)
}
