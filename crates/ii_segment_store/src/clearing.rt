//! Removes the files of version 1 once an index is a list of segments, and those that an index doesn't have any more.
ghost use Rattle.std.specs.Prelude.{◌≡◌, IfErr, IfOk, Ok, OnOk};
ghost use Rattle.ii_directory.specs.declared.name.Name.TheVariants.{Meta};
ghost use Rattle.ii_directory.specs.declared.name.Slot.TheVariants.{First, Second};
ghost use Rattle.ii_directory.specs.Directory.{Elapses, IsRefusal, Obeys};
ghost use Rattle.ii_store.specs.Faults.{IsRefused};
ghost use Rattle.ii_store.specs.Collect.{CountsGarbage, HasNoGarbage, KeepsOthers};
ghost use Rattle.ii_store.specs.Index.{Fails};
ghost use Rattle.ii_store.specs.IndexMeta.{MetaState};
ghost use Rattle.ii_store.specs.Segments.{list_in};
ghost use Rattle.ii_segment_store.specs.Commits.{HasNoLists, HasNoSlot, KeepsButSlot, KeepsButSlots, LeavesOneIndex};
ghost use Rattle.ii_segment_store.specs.Contents.{index_contents};

use ii_store::collect::collect;
use ii_store::segments::load_meta;
use ii_store::{Directory, DirectoryFault, Kind, Name, Slot, StoreFault};
use std::alloc::Global;

/// Removes the files of both slots, which a list of segments doesn't have. What the index holds doesn't
/// change, wherever this is stopped. Returns the errors of `load_meta`, and then removes nothing.
pub fn remove_slots<D: Directory>(alloc: Global, directory: &mut D) -> Result<(), StoreFault>
    ensures known { D.is_known directory.old → OnOk result (D.is_known directory.new) }
    ensures obeys { Obeys IsRefused (D.may_refuse directory.old) (D.may_refuse directory.new) result }
    ensures first { D.is_known directory.old → OnOk result (HasNoSlot First (D.seen directory.new)) }
    ensures second { D.is_known directory.old → OnOk result (HasNoSlot Second (D.seen directory.new)) }
    ensures keeps { D.is_known directory.old → OnOk result (KeepsButSlots (D.seen directory.old) (D.seen directory.new)) }
    ensures same { D.is_known directory.old → OnOk result (index_contents (D.seen directory.new) ≡ index_contents (D.seen directory.old)) }
    ensures leaves_same { D.is_known directory.old → LeavesOneIndex D.moment D.left_since D.seen directory.old directory.new (index_contents (D.seen directory.old)) }
    ensures fault { D.is_known directory.old → IfErr result (λ e. Fails e (list_in (D.seen directory.old Meta))) }
{
    let list = match load_meta(alloc, directory) {
        Ok(list) => list,
        Err(fault) => return Err(fault),
    };
    drop(list);
    match remove_both(directory) {
        Ok(()) => Ok(()),
        Err(fault) => Err(StoreFault::Directory(fault)),
    }
}

/// Removes the files that no list of segments has any more (`collect` of `ii_store`), and returns how many there were.
/// What the index holds doesn't change, wherever this is stopped. Returns the errors of `load_meta`, and then removes
/// nothing.
pub fn collect_garbage<D: Directory>(alloc: Global, directory: &mut D) -> Result<u64, StoreFault>
    ensures known { D.is_known directory.old → OnOk result (D.is_known directory.new) }
    ensures obeys { Obeys IsRefused (D.may_refuse directory.old) (D.may_refuse directory.new) result }
    ensures removed { D.is_known directory.old → IfOk result (λ _. (m : MetaState) → list_in (D.seen directory.old Meta) ≡ Ok m → HasNoGarbage m (D.seen directory.new)) }
    ensures keeps { D.is_known directory.old → IfOk result (λ _. (m : MetaState) → list_in (D.seen directory.old Meta) ≡ Ok m → KeepsOthers m (D.seen directory.old) (D.seen directory.new)) }
    ensures count { D.is_known directory.old → IfOk result (λ count. (m : MetaState) → list_in (D.seen directory.old Meta) ≡ Ok m → CountsGarbage m (D.seen directory.old) count) }
    ensures same { D.is_known directory.old → OnOk result (index_contents (D.seen directory.new) ≡ index_contents (D.seen directory.old)) }
    ensures leaves_same { D.is_known directory.old → LeavesOneIndex D.moment D.left_since D.seen directory.old directory.new (index_contents (D.seen directory.old)) }
    ensures fault { D.is_known directory.old → IfErr result (λ e. Fails e (list_in (D.seen directory.old Meta))) }
{
    let list = match load_meta(alloc, directory) {
        Ok(list) => list,
        Err(fault) => return Err(fault),
    };
    drop(list);
    match collect(alloc, directory) {
        Ok(count) => Ok(count),
        Err(fault) => Err(fault),
    }
}

// Removes the files of both slots.
fn remove_both<D: Directory>(directory: &mut D) -> Result<(), DirectoryFault>
    ensures known { D.is_known directory.old → OnOk result (D.is_known directory.new) }
    ensures obeys { Obeys IsRefusal (D.may_refuse directory.old) (D.may_refuse directory.new) result }
    ensures first { D.is_known directory.old → OnOk result (HasNoSlot First (D.seen directory.new)) }
    ensures second { D.is_known directory.old → OnOk result (HasNoSlot Second (D.seen directory.new)) }
    ensures keeps { D.is_known directory.old → OnOk result (KeepsButSlots (D.seen directory.old) (D.seen directory.new)) }
    ensures time { D.is_known directory.old → Elapses (D.moment directory.old) (D.moment directory.new) (D.left_since directory.old) (D.left_since directory.new) (KeepsButSlots (D.seen directory.old)) }
{
    remove_slot(directory, Slot::First)?;
    remove_slot(directory, Slot::Second)
}

// Removes the files of a slot.
fn remove_slot<D: Directory>(directory: &mut D, slot: Slot) -> Result<(), DirectoryFault>
    ensures known { D.is_known directory.old → OnOk result (D.is_known directory.new) }
    ensures obeys { Obeys IsRefusal (D.may_refuse directory.old) (D.may_refuse directory.new) result }
    ensures gone { D.is_known directory.old → OnOk result (HasNoSlot slot (D.seen directory.new)) }
    ensures keeps { D.is_known directory.old → OnOk result (KeepsButSlot slot (D.seen directory.old) (D.seen directory.new)) }
    ensures time { D.is_known directory.old → Elapses (D.moment directory.old) (D.moment directory.new) (D.left_since directory.old) (D.left_since directory.new) (KeepsButSlot slot (D.seen directory.old)) }
{
    remove_lists(directory, slot)?;
    directory.remove(Name::File(slot, Kind::Schema))
}

// Removes the files of a slot, except the schema.
fn remove_lists<D: Directory>(directory: &mut D, slot: Slot) -> Result<(), DirectoryFault>
    ensures known { D.is_known directory.old → OnOk result (D.is_known directory.new) }
    ensures obeys { Obeys IsRefusal (D.may_refuse directory.old) (D.may_refuse directory.new) result }
    ensures gone { D.is_known directory.old → OnOk result (HasNoLists slot (D.seen directory.new)) }
    ensures keeps { D.is_known directory.old → OnOk result (KeepsButSlot slot (D.seen directory.old) (D.seen directory.new)) }
    ensures time { D.is_known directory.old → Elapses (D.moment directory.old) (D.moment directory.new) (D.left_since directory.old) (D.left_since directory.new) (KeepsButSlot slot (D.seen directory.old)) }
{
    directory.remove(Name::File(slot, Kind::Terms))?;
    directory.remove(Name::File(slot, Kind::Postings))?;
    directory.remove(Name::File(slot, Kind::Positions))?;
    directory.remove(Name::File(slot, Kind::FieldNorms))
}
