//! Commits a list of segments so that a stop leaves either the old list or the new one, and reads it back.
ghost use Rattle.std.specs.Prelude.{◌≡◌, ◌+◌, IfOk, IsTrue, Ok, OnOk, Some};
ghost use Rattle.ii_directory.specs.declared.name.Name.TheVariants.{Meta, Segment};
ghost use Rattle.ii_directory.specs.Directory.{Elapses, IsRefusal, Obeys, is_obeyed};
ghost use Rattle.ii_store.specs.Faults.{IsRefused};
ghost use Rattle.ii_store.specs.Index.{AnswersFromFiles};
ghost use Rattle.ii_store.specs.IndexMeta.{IsValidMeta, meta_view};
ghost use Rattle.ii_store.specs.Segments.{AreThere, KeepsOtherFiles, IsLonger, LeavesOneList, ListedFile, MayBeReplaced, generation_in, index_with, list_in, listed_bytes, segments_of};

use crate::faults::{IndexFault, StoreFault};
use crate::index_meta::{FileMeta, IndexMeta, encode};
use crate::index_meta_reader::decode;
use ii_directory::{Directory, DirectoryFault, Name, ReadAt, SegmentId};
use std::alloc::Global;

/// Puts a new list of segments in the place of the old one: writes it as `meta.new`, and atomically renames
/// that to `meta`. The files that only the old list has remain until `collect`.
///
/// Each file that the new list has must be there, as the list says, and its generation must be one higher
/// than that of the old list, or 1 if there is none. After a stop or an error the directory holds either the
/// old list or the new one, with its files. After an error, open the directory again.
pub fn commit<D: Directory>(
    alloc: Global,
    directory: &mut D,
    new: &IndexMeta,
) -> Result<(), DirectoryFault>
    requires valid { IsValidMeta (meta_view new.now) }
    requires follows { D.is_known directory.old → new.now.generation ≡ generation_in (list_in (D.seen directory.old Meta)) + 1 }
    requires there { D.is_known directory.old → AreThere (meta_view new.now) (D.seen directory.old) }
    ensures known { D.is_known directory.old → OnOk result (D.is_known directory.new) }
    ensures obeys { D.is_known directory.old → Obeys IsRefusal (D.may_refuse directory.old) (D.may_refuse directory.new) result }
    ensures committed { D.is_known directory.old → OnOk result (list_in (D.seen directory.new Meta) ≡ Ok (meta_view new.now)) }
    ensures index { D.is_known directory.old → OnOk result (segments_of (D.seen directory.new) ≡ index_with (meta_view new.now) (D.seen directory.old)) }
    ensures keeps { D.is_known directory.old → OnOk result (KeepsOtherFiles (D.seen directory.old) (D.seen directory.new)) }
    ensures leaves_one { D.is_known directory.old → LeavesOneList D.moment D.left_since D.seen directory.old directory.new (meta_view new.now) }
{
    replace_list(alloc, directory, new)
}

/// Atomically replaces `meta` by that of a list of segments: writes it as `meta.new`, and renames that.
///
/// After a stop or an error the directory holds the old `meta` or the new one. All other files except
/// `meta.new` are unchanged. Whether the files of the list are there isn't tested (see `commit`).
pub fn replace_list<D: Directory>(
    alloc: Global,
    directory: &mut D,
    new: &IndexMeta,
) -> Result<(), DirectoryFault>
    requires valid { IsValidMeta (meta_view new.now) }
    ensures known { D.is_known directory.old → OnOk result (D.is_known directory.new) }
    ensures obeys { D.is_known directory.old → Obeys IsRefusal (D.may_refuse directory.old) (D.may_refuse directory.new) result }
    ensures listed { D.is_known directory.old → OnOk result (list_in (D.seen directory.new Meta) ≡ Ok (meta_view new.now)) }
    ensures keeps { D.is_known directory.old → OnOk result (KeepsOtherFiles (D.seen directory.old) (D.seen directory.new)) }
    ensures time { D.is_known directory.old → Elapses (D.moment directory.old) (D.moment directory.new) (D.left_since directory.old) (D.left_since directory.new) (MayBeReplaced (meta_view new.now) (D.seen directory.old)) }
{
    let meta = encode(alloc, new)?;
    directory.write(Name::NewMeta, meta.as_slice())?;
    directory.rename(Name::NewMeta, Name::Meta)
}

/// Loads the list of segments of a directory.
///
/// Returns `NoIndex` if there is no `meta`, and the errors of `decode` if it isn't a valid list. The files
/// that it lists aren't read.
#[tactic(auto, unfolding(crate::specs::Segments::list_in))]
pub fn load_meta<D: Directory>(alloc: Global, directory: &D) -> Result<IndexMeta, StoreFault>
    ensures answers { D.is_known directory.now → AnswersFromFiles meta_view result (list_in (D.seen directory.now Meta)) }
    ensures obeyed { is_obeyed IsRefused (D.may_refuse directory.now) result }
{
    let Some(meta) = directory.read(alloc, Name::Meta)? else {
        return Err(StoreFault::Index(IndexFault::NoIndex));
    };
    decode(alloc, meta.as_slice())
}

/// Loads a file of a segment, as `meta` lists it.
///
/// Returns `MissingFile` if there is no such file, else `WrongFileLength` or `WrongFileChecksum` if it isn't
/// the one that `meta` describes. A longer file isn't read.
#[tactic(auto, unfolding(crate::specs::Segments::listed_bytes))]
pub fn load_segment_file<D: Directory>(
    alloc: Global,
    directory: &D,
    id: SegmentId,
    file: &FileMeta,
) -> Result<Vec<u8>, StoreFault>
    ensures answers { D.is_known directory.now → AnswersFromFiles (λ v. v.items) result (listed_bytes (record { id = id; file = file.now }) (D.seen directory.now (Segment id file.now.component))) }
    ensures obeyed { is_obeyed IsRefused (D.may_refuse directory.now) result }
{
    let name = Name::Segment(id, file.component);
    if is_longer(alloc, directory, name, file.len)? {
        return Err(StoreFault::Index(IndexFault::WrongFileLength(id, file.component)));
    }
    let Some(bytes) = directory.read(alloc, name)? else {
        return Err(StoreFault::Index(IndexFault::MissingFile(id, file.component)));
    };
    if bytes.len() as u64 != file.len {
        return Err(StoreFault::Index(IndexFault::WrongFileLength(id, file.component)));
    }
    if !file.digest.is_of(bytes.as_slice()) {
        return Err(StoreFault::Index(IndexFault::WrongFileChecksum(id, file.component)));
    }
    Ok(bytes)
}

// Returns whether a file has a byte after the first `len`, which may be known though none of these was read.
fn is_longer<D: Directory>(
    alloc: Global,
    directory: &D,
    name: Name,
    len: u64,
) -> Result<bool, DirectoryFault>
    ensures longer { D.is_known directory.now → IfOk result (λ longer. IsTrue longer → IsLonger len (D.seen directory.now name)) }
    ensures obeys { is_obeyed IsRefusal (D.may_refuse directory.now) result }
{
    let Some(file) = directory.open(alloc, name)? else {
        return Ok(false);
    };
    let mut byte = [0u8; 1];
    Ok(file.read_exact_at(&mut byte, len).is_ok())
}
