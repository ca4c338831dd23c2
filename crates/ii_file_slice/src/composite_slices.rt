//! The bodies of a composite file that is read by ranges.
ghost use Rattle.std.specs.Prelude.{◌≡◌, ◌==◌, ◌⊎◌, IfErr, IfOk, IfSome, IsErrOf, IsSome, List, None, Some, ℕ};
ghost use Rattle.std.specs.List.{find};
ghost use Rattle.std.specs.Option.{option_map};
ghost use Rattle.ii_io.specs.Composite.{Body, body_of, composite, table_of, valid_places};
ghost use Rattle.ii_io.specs.declared.composite_file.place.Place.{Place};
ghost use Rattle.ii_io.specs.declared.faults.Fault.TheVariants as faults;
ghost use Rattle.ii_io.specs.declared.faults.Part.{Part};
ghost use Rattle.ii_io.specs.declared.faults.Part.TheVariants.{Composite};
ghost use Rattle.ii_io.specs.Faults.{OnlyMemory};
ghost use Rattle.ii_file_slice.specs.Faults.{OnlyMemoryOrTable};
ghost use Rattle.ii_file_slice.specs.FileSlice.{slice_if};
ghost use Rattle.ii_file_slice.specs.declared.faults.FileFault.TheVariants.{Index};

use crate::block_cache::BlockCache;
use crate::faults::FileFault;
use crate::file_handle::FileHandle;
use crate::file_slice::FileSlice;
use ii_io::composite_file::place::Place;
use ii_io::{BinarySerializable, Fault, Field, Part};
use std::alloc::Global;
use std::collections::BTreeSet;
use std::marker::Model;

// The size of the number of places, and of a place.
const COUNT_SIZE: u64 = 4;

const PLACE_SIZE: u64 = 20;

/// A composite file that is read by ranges. Of the file, only the table at its end is read.
#[derive(Drop)]
pub struct CompositeSlices<'a, H: FileHandle> {
    file: &'a H,
    places: Vec<Place>,
}

impl<'a, H: FileHandle> Model for CompositeSlices<'a, H> {
    ghost use Rattle.ii_file_slice.specs.CompositeSlices.{AreItsPlaces, CompositeSlicesState};

    ghost Value = { CompositeSlicesState H };

    ghost view = { λ s. record { file = s.file.now; places = s.places.items } };

    ghost invariant = { λ s. AreItsPlaces (H.bytes s.file.now) s.places.items };
}

impl<'a, H: FileHandle> CompositeSlices<'a, H> {
    /// Opens a composite file: reads its last 4 bytes, the number of bodies, and then the table of their places.
    ///
    /// # Errors
    ///
    /// `Damaged(Composite)` if the table doesn't fit, a place is out of range, or a field has two places; `Read` if a
    /// range of the file can't be read; `OutOfMemory`.
    pub fn open(alloc: Global, file: &'a H) -> Result<CompositeSlices<'a, H>, FileFault>
        ensures file { IfOk result (λ slices. slices.file ≡ file.now) }
        ensures opened { (bytes : List ℕ) → H.bytes file.now ≡ Some bytes → IfOk result (λ _. IsSome (composite bytes)) }
        ensures damaged { (bytes : List ℕ) → H.bytes file.now ≡ Some bytes → IsErrOf result (Index (faults.Damaged Composite)) → composite bytes ≡ None }
        ensures part { IfErr result (λ e. (part : Part) → e ≡ Index (faults.Damaged part) → part ≡ Composite) }
        ensures sound { (bytes : List ℕ) → H.bytes file.now ≡ Some bytes → H.is_sound file.now → OnlyMemoryOrTable result }
    {
        match read_table(alloc, file) {
            Ok(places) => Ok(CompositeSlices { file, places }),
            Err(fault) => Err(fault),
        }
    }

    /// Returns the body of a field as a range of the file, if the file has one. Reads nothing.
    pub fn open_read(&self, field: Field) -> Option<FileSlice<'a, H>>
        ensures file { IfSome result (λ slice. slice.file.now ≡ self.now.file) }
        ensures body { (bytes : List ℕ) (bodies : List Body) → H.bytes self.now.file ≡ Some bytes → composite bytes ≡ Some bodies → option_map (λ slice. slice_if slice.start slice.len (Some bytes)) result ≡ option_map Some (body_of field bodies) }
    {
        let file = self.file;
        let Some(place) = place_of_field(&self.places, field) else {
            return None;
        };
        let len = place.end.saturating_sub(place.start);
        Some(FileSlice::new(file, place.start, len))
    }
}

// Returns the first place of a field.
fn place_of_field(places: &[Place], field: Field) -> Option<Place>
    ensures { result ≡ find (λ (p : Place). p.field == field) places.now }
{
    for place in places {
        if place.field == field {
            return Some(*place);
        }
    }
    None
}

// Reads the places from the table at the end of a file, and a block of the file that has all of it once.
fn read_table<H: FileHandle>(alloc: Global, file: &H) -> Result<Vec<Place>, FileFault>
    ensures read { (bytes : List ℕ) → H.bytes file.now ≡ Some bytes → IfOk result (λ places. table_of bytes ≡ Some places.items) }
    ensures damaged { (bytes : List ℕ) → H.bytes file.now ≡ Some bytes → IsErrOf result (Index (faults.Damaged Composite)) → table_of bytes ≡ None }
    ensures part { IfErr result (λ e. (part : Part) → e ≡ Index (faults.Damaged part) → part ≡ Composite) }
    ensures sound { (bytes : List ℕ) → H.bytes file.now ≡ Some bytes → H.is_sound file.now → OnlyMemoryOrTable result }
{
    match last_block(alloc, file) {
        Ok(mut block) => read_table_by(alloc, &mut block),
        Err(fault) => Err(FileFault::Index(fault)),
    }
}

// Returns a cache of one block of a file.
fn last_block<H: FileHandle>(alloc: Global, file: &H) -> Result<BlockCache<'_, H>, Fault>
    ensures same { IfOk result (λ cache. cache ≡ file.now) }
    ensures only { OnlyMemory result }
{
    Ok(BlockCache::new(alloc, file, 0, 1)?)
}

// Reads the places from the table at the end of a file by a cache.
fn read_table_by<H: FileHandle>(
    alloc: Global,
    file: &mut BlockCache<'_, H>,
) -> Result<Vec<Place>, FileFault>
    ensures read { (bytes : List ℕ) → H.bytes file.old ≡ Some bytes → IfOk result (λ places. table_of bytes ≡ Some places.items) }
    ensures damaged { (bytes : List ℕ) → H.bytes file.old ≡ Some bytes → IsErrOf result (Index (faults.Damaged Composite)) → table_of bytes ≡ None }
    ensures part { IfErr result (λ e. (part : Part) → e ≡ Index (faults.Damaged part) → part ≡ Composite) }
    ensures sound { (bytes : List ℕ) → H.bytes file.old ≡ Some bytes → H.is_sound file.old → OnlyMemoryOrTable result }
{
    let len = file.len();
    let footer_start = len.saturating_sub(COUNT_SIZE);
    let footer = match file.read_bytes(alloc, footer_start, (len - footer_start) as usize) {
        Ok(footer) => footer,
        Err(fault) => return Err(FileFault::from(fault)),
    };
    let mut rest = footer.as_slice();
    let Some(count) = u32::deserialize(&mut rest) else {
        return Err(FileFault::Index(Fault::Damaged(Part::Composite)));
    };
    let size = PLACE_SIZE * u64::from(count) + COUNT_SIZE;
    if len < size {
        return Err(FileFault::Index(Fault::Damaged(Part::Composite)));
    }
    let table = match file.read_bytes(alloc, len - size, size as usize) {
        Ok(table) => table,
        Err(fault) => return Err(FileFault::from(fault)),
    };
    match read_places(alloc, len - size, count, table.as_slice()) {
        Ok(places) => Ok(places),
        Err(fault) => Err(FileFault::Index(fault)),
    }
}

// Reads `count` places from the start of a table: all within the bodies, and of distinct fields.
fn read_places(alloc: Global, size: u64, count: u32, table: &[u8]) -> Result<Vec<Place>, Fault>
    ensures read { IfOk result (λ places. valid_places size count table.now ≡ Some places.items) }
    ensures damaged { IsErrOf result (faults.Damaged Composite) → valid_places size count table.now ≡ None }
    ensures only { IfErr result (λ e. (e ≡ faults.OutOfMemory) ⊎ (e ≡ faults.Damaged Composite)) }
{
    let mut places = Vec::new(alloc);
    let mut fields = BTreeSet::new(alloc);
    let mut rest = table;
    for _i in 0..count {
        let Some(place) = Place::deserialize(&mut rest) else {
            return Err(Fault::Damaged(Part::Composite));
        };
        if !place.lies_within(size) {
            return Err(Fault::Damaged(Part::Composite));
        }
        if !fields.insert(place.field.field_id())? {
            return Err(Fault::Damaged(Part::Composite));
        }
        places.push(place)?;
    }
    Ok(places)
}
