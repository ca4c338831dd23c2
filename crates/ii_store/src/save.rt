//! Saves an index so that a stop leaves either the old index or the new one.
ghost use Rattle.std.specs.Prelude.{◌≡◌, ◌<◌, ◌^◌, IfOk, None, OnOk, ℕ};
ghost use Rattle.ii_directory.specs.declared.name.Kind.{Kind};
ghost use Rattle.ii_directory.specs.declared.name.Name.{Name};
ghost use Rattle.ii_directory.specs.declared.name.Name.TheVariants.{File, Meta};
ghost use Rattle.ii_directory.specs.Directory.{Elapses, IsOther, IsRefusal, Obeys, is_obeyed};
ghost use Rattle.ii_store.specs.Index.{index_of, used_slot, view};
ghost use Rattle.ii_directory.specs.Names.{other_slot};
ghost use Rattle.ii_store.specs.Save.{HasNoUnused, HoldsFiles, HoldsIndex, IsOutside, KeepsUsed, LeavesOne, LeavesSame};

use crate::meta::{meta_of, slot_named};
use crate::stored_index::StoredIndex;
use ii_directory::{Directory, DirectoryFault, Kind, Name, Slot};
use std::alloc::Global;

/// Saves an index: writes its files next to those of the old index, then atomically replaces `meta`. The
/// old files remain until `remove_unused`.
///
/// After a stop or an error the directory holds either the old index or the new one. After an error, open
/// the directory again.
pub fn save<D: Directory>(
    alloc: Global,
    directory: &mut D,
    index: &StoredIndex,
) -> Result<(), DirectoryFault>
    ensures known { D.is_known directory.old → OnOk result (D.is_known directory.new) }
    ensures obeys { D.is_known directory.old → Obeys IsRefusal (D.may_refuse directory.old) (D.may_refuse directory.new) result }
    ensures saved { D.is_known directory.old → OnOk result (HoldsIndex (view index.now) (D.seen directory.new)) }
    ensures leaves_one { D.is_known directory.old → LeavesOne D.moment D.left_since D.seen directory.old directory.new (view index.now) }
{
    let slot = slot_in_use(alloc, directory)?.other();
    let meta = meta_of(alloc, slot, index)?;
    write_files(directory, slot, index)?;
    directory.write(Name::NewMeta, meta.as_slice())?;
    directory.rename(Name::NewMeta, Name::Meta)
}

// Returns the slot in use, even if its files are damaged.
fn slot_in_use<D: Directory>(alloc: Global, directory: &D) -> Result<Slot, DirectoryFault>
    ensures used { D.is_known directory.now → IfOk result (λ slot. slot ≡ used_slot (D.seen directory.now Meta)) }
    ensures obeyed { is_obeyed IsRefusal (D.may_refuse directory.now) result }
{
    match directory.read(alloc, Name::Meta)? {
        Some(meta) => Ok(slot_named(meta.as_slice())),
        None => Ok(Slot::Second),
    }
}

// Writes the files of an index to a slot.
fn write_files<D: Directory>(
    directory: &mut D,
    slot: Slot,
    index: &StoredIndex,
) -> Result<(), DirectoryFault>
    ensures known { D.is_known directory.old → OnOk result (D.is_known directory.new) }
    ensures obeys { Obeys IsRefusal (D.may_refuse directory.old) (D.may_refuse directory.new) result }
    ensures written { D.is_known directory.old → OnOk result (HoldsFiles slot (view index.now) (D.seen directory.new)) }
    ensures outside { D.is_known directory.old → OnOk result (IsOutside slot (D.seen directory.old) (D.seen directory.new)) }
    ensures time { D.is_known directory.old → Elapses (D.moment directory.old) (D.moment directory.new) (D.left_since directory.old) (D.left_since directory.new) (IsOutside slot (D.seen directory.old)) }
{
    for number in 0..Kind::COUNT {
        let kind = Kind::at(number);
        directory.write(Name::File(slot, kind), index.bytes_of(kind))?;
    }
    Ok(())
}

/// Removes the files of the slot that `meta` doesn't name, and `meta.new`, which a save or a stop left.
///
/// A stop at any point leaves the current index as it is.
pub fn remove_unused<D: Directory>(alloc: Global, directory: &mut D) -> Result<(), DirectoryFault>
    ensures known { D.is_known directory.old → OnOk result (D.is_known directory.new) }
    ensures obeys { Obeys IsRefusal (D.may_refuse directory.old) (D.may_refuse directory.new) result }
    ensures removed { D.is_known directory.old → OnOk result (HasNoUnused (used_slot (D.seen directory.old Meta)) (D.seen directory.new)) }
    ensures keeps { D.is_known directory.old → OnOk result (KeepsUsed (used_slot (D.seen directory.old Meta)) (D.seen directory.old) (D.seen directory.new)) }
    ensures same { D.is_known directory.old → OnOk result (index_of (D.seen directory.new) ≡ index_of (D.seen directory.old)) }
    ensures leaves_same { D.is_known directory.old → LeavesSame D.moment D.left_since D.seen directory.old directory.new }
{
    let unused = slot_in_use(alloc, directory)?.other();
    remove_files(directory, unused)?;
    directory.remove(Name::NewMeta)
}

// Removes the files of a slot.
fn remove_files<D: Directory>(directory: &mut D, slot: Slot) -> Result<(), DirectoryFault>
    ensures known { D.is_known directory.old → OnOk result (D.is_known directory.new) }
    ensures obeys { Obeys IsRefusal (D.may_refuse directory.old) (D.may_refuse directory.new) result }
    ensures removed { D.is_known directory.old → OnOk result ((kind : Kind) → D.seen directory.new (File slot kind) ≡ None) }
    ensures keeps { D.is_known directory.old → OnOk result ((name : Name) → ((kind : Kind) → IsOther (File slot kind) name) → D.seen directory.new name ≡ D.seen directory.old name) }
    ensures outside { D.is_known directory.old → OnOk result (IsOutside slot (D.seen directory.old) (D.seen directory.new)) }
    ensures time { D.is_known directory.old → Elapses (D.moment directory.old) (D.moment directory.new) (D.left_since directory.old) (D.left_since directory.new) (IsOutside slot (D.seen directory.old)) }
{
    for number in 0..Kind::COUNT {
        directory.remove(Name::File(slot, Kind::at(number)))?;
    }
    Ok(())
}
