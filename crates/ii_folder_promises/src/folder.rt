// An index in a directory: what is saved is loaded.
ghost use Rattle.std.specs.Prelude.{◌≡◌, ◌++◌, ◌⊎◌, Ok, IfErr, IfOk, None, OnOk, Some};
ghost use Rattle.ii_directory.specs.declared.faults.DirectoryFault.TheVariants.{OutOfMemory};
ghost use Rattle.ii_directory.specs.declared.name.Kind.{Kind};
ghost use Rattle.ii_directory.specs.declared.name.Name.TheVariants.{File, Meta, NewMeta};
ghost use Rattle.ii_directory.specs.Directory.{Files};
ghost use Rattle.ii_directory.specs.FileSystem.{LeavesOnly};
ghost use Rattle.ii_directory.specs.Names.{other_slot};
ghost use Rattle.ii_store.specs.Faults.{of_directory};
ghost use Rattle.ii_store.specs.Index.{index_of, used_slot, view};
ghost use Rattle.ii_store.specs.SalvagedIndex.{salvaged_view, sound_index};

use ii_directory::{FileSystem, FlushedDirectory, Name};
use ii_store::salvaged_index::salvage_of_sound;
use ii_store::save::{remove_unused, save};
use ii_store::{Directory, DirectoryFault, SalvagedIndex, StoreFault, StoredIndex, load, salvage};
use std::alloc::Global;
use std::io::Write;

/// What is saved is loaded, whatever the directory had before.
pub fn what_is_saved_is_loaded<D: Directory>(
    alloc: Global,
    directory: &mut D,
    index: &StoredIndex,
) -> Result<StoredIndex, StoreFault>
    requires { D.is_known directory.old }
    ensures { IfOk result (λ loaded. view loaded ≡ view index.now) }
{
    save(alloc, directory, index)?;
    load(alloc, directory)
}

/// What is saved in a directory that refuses no call is loaded, unless memory is lacking.
pub fn what_is_obeyed_is_saved_and_loaded<D: Directory>(
    alloc: Global,
    directory: &mut D,
    index: &StoredIndex,
) -> Result<StoredIndex, StoreFault>
    requires known { D.is_known directory.old }
    requires obeys { D.may_refuse directory.old → ⊥ }
    ensures loaded { IfOk result (λ loaded. view loaded ≡ view index.now) }
    ensures only { IfErr result (λ e. e ≡ of_directory OutOfMemory) }
{
    save(alloc, directory, index)?;
    load(alloc, directory)
}

/// Wherever a save is stopped, the directory has the index that it had, or the new one.
pub fn stopped_saves_leave_one_index<D: Directory>(
    alloc: Global,
    directory: &mut D,
    index: &StoredIndex,
) -> Result<(), DirectoryFault>
    requires { D.is_known directory.old }
    ensures { (files : Files) → D.left_since directory.new (D.moment directory.old) files
        → (index_of files ≡ index_of (D.seen directory.old)) ⊎ (index_of files ≡ Ok (view index.now)) }
{
    save(alloc, directory, index)
}

/// Once a save has returned, the index isn't lost: whatever a stop leaves then holds it, over any file system of
/// which a stop may lose what isn't flushed.
#[tactic(auto, using(crate::proofs::FolderLaws::kept_after))]
pub fn saved_indexes_are_not_lost<S: FileSystem>(
    alloc: Global,
    directory: &mut FlushedDirectory<S>,
    index: &StoredIndex,
) -> Result<(), DirectoryFault>
    requires known { S.is_known directory.old.files }
    requires flushed { LeavesOnly (S.seen directory.old.files) (S.left_since directory.old.files (S.moment directory.old.files)) }
    ensures { OnOk result ((files : Files) → S.left_since directory.new.files (S.moment directory.new.files) files → index_of files ≡ Ok (view index.now)) }
{
    save(alloc, directory, index)
}

/// Of an index that was just saved all files are salvaged, without a fault.
pub fn saved_indexes_are_salvaged<D: Directory>(
    alloc: Global,
    directory: &mut D,
    index: &StoredIndex,
) -> Result<SalvagedIndex, StoreFault>
    requires { D.is_known directory.old }
    ensures { IfOk result (λ salvaged. salvaged_view salvaged ≡ sound_index (view index.now)) }
{
    salvage_of_sound();
    save(alloc, directory, index)?;
    salvage(alloc, directory)
}

/// Removing unused files leaves none, and keeps the index, wherever it is stopped.
pub fn removing_keeps_the_index<D: Directory>(
    alloc: Global,
    directory: &mut D,
) -> Result<(), DirectoryFault>
    requires { D.is_known directory.old }
    ensures files { OnOk result ((kind : Kind) → D.seen directory.new (File (other_slot (used_slot (D.seen directory.old Meta))) kind) ≡ None) }
    ensures new_meta { OnOk result (D.seen directory.new NewMeta ≡ None) }
    ensures keeps { OnOk result (index_of (D.seen directory.new) ≡ index_of (D.seen directory.old)) }
    ensures stopped { (files : Files) → D.left_since directory.new (D.moment directory.old) files
        → index_of files ≡ index_of (D.seen directory.old) }
{
    remove_unused(alloc, directory)
}

/// A file that is written in two pieces has both of them once it is finished, and a stop leaves all other files as they
/// were. Only a directory that may refuse calls refuses one.
pub fn pieces_become_a_file<D: Directory>(
    alloc: Global,
    directory: &mut D,
    name: Name,
    first: &[u8],
    second: &[u8],
) -> Result<(), DirectoryFault>
    requires { D.is_known directory.old }
    ensures whole { OnOk result (D.seen directory.new name ≡ Some (first.now ++ second.now)) }
    ensures stopped { (files : Files) → D.left_since directory.new (D.moment directory.old) files → (other : Name) → (other ≡ name → ⊥) → files other ≡ D.seen directory.old other }
    ensures obeys { (D.may_refuse directory.old → ⊥) → IfErr result (λ e. e ≡ OutOfMemory) }
{
    let mut file = directory.create(alloc)?;
    if file.write_all(first).is_err() || file.write_all(second).is_err() {
        return Err(directory.write_fault(&file));
    }
    directory.finish(name, file)
}
