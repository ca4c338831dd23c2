ghost use Rattle.std.specs.Prelude.{◌≡◌, ◌==◌, ◌⊎◌, ◌∷◌, [], length, drop, Some, None, IfOk, IfErr, IsErrOf, MatchResult};
ghost use Rattle.std.specs.Option.{option_map};
ghost use Rattle.std.specs.List.{find};
ghost use Rattle.ii_io.specs.declared.composite_file.place.Place.{Place};
ghost use Rattle.ii_io.specs.Composite.{composite, body_of, table_of, HasTable, valid_places};
ghost use Rattle.ii_io.specs.Faults.{OnlyMemory};

use super::place::Place;
use crate::faults::{Fault, Part};
use crate::field::Field;
use crate::serialize::BinarySerializable;
use bytes::Bytes;
use std::alloc::Global;
use std::collections::BTreeSet;
use std::marker::Model;

/// A file with one body for each of several fields. Its model is the list of bodies, in the order written.
///
/// The bodies stay in the buffer that the file was opened from, and are shared with their readers.
pub struct CompositeFile {
    bytes: Bytes,
    places: Vec<Place>,
}

// Makes each drop a call.
impl Drop for CompositeFile {
    fn drop(self) {
        let CompositeFile {
            bytes: _,
            places: _,
        } = self;
    }
}

impl Model for CompositeFile {
    ghost use Rattle.std.specs.Prelude.{List, map, length, IsTrue};
    ghost use Rattle.std.specs.List.{list_all};
    ghost use Rattle.ii_io.specs.Composite.{Body, body_at, lies_within};

    ghost Value = { List Body };

    ghost view = { λ file. map (body_at file.bytes) file.places.items };

    ghost invariant = { λ file. IsTrue (list_all (lies_within (length file.bytes)) file.places.items) };
}

impl CompositeFile {
    /// Opens a file: the bodies, then a `Place` for each, then their number in 4 bytes. It copies no body.
    /// Memory is allocated for the table alone, once its size is known to fit.
    ///
    /// Returns `Damaged(Composite)` if the table doesn't fit, a place is out of range, or a field has two
    /// places.
    pub fn open(alloc: Global, bytes: Bytes) -> Result<CompositeFile, Fault>
        ensures opened { IfOk result (λ file. composite bytes ≡ Some file) }
        ensures damaged { IsErrOf result (Fault.Damaged Part.Composite) → composite bytes ≡ None }
        ensures memory { IsErrOf result Fault.OutOfMemory → HasTable bytes }
        ensures only { IfErr result (λ e. (e ≡ Fault.OutOfMemory) ⊎ (e ≡ Fault.Damaged Part.Composite)) }
    {
        let places = read_table(alloc, bytes.as_slice())?;
        Ok(CompositeFile { bytes, places })
    }

    /// Returns the length of a field's body in bytes, if the file has one.
    pub fn body_len(&self, field: Field) -> Option<usize>
        ensures { result ≡ option_map length (body_of field self.now) }
    {
        let Some(place) = place_of_field(&self.places, field) else {
            return None;
        };
        Some((place.end - place.start) as usize)
    }

    /// Returns the body of a field, if the file has one, as a part of the buffer, without a copy. Returns
    /// `OutOfMemory` only if the buffer can't be shared once more.
    pub fn open_read(&self, field: Field) -> Result<Option<Bytes>, Fault>
        ensures body { IfOk result (λ body. body ≡ body_of field self.now) }
        ensures only { OnlyMemory result }
    {
        let Some(place) = place_of_field(&self.places, field) else {
            return Ok(None);
        };
        let body = self.bytes.slice(place.start as usize..place.end as usize)?;
        Ok(Some(body))
    }

    /// Clones the file over the same buffer. Returns `OutOfMemory` if the buffer can't be shared once more,
    /// or the table can't be allocated.
    pub fn clone(&self) -> Result<CompositeFile, Fault>
        ensures same { IfOk result (λ copy. copy ≡ self.now) }
        ensures only { OnlyMemory result }
    {
        let bytes = self.bytes.clone()?;
        let places = self.places.clone()?;
        Ok(CompositeFile { bytes, places })
    }
}

// Returns the first place of a field.
fn place_of_field(places: &[Place], field: Field) -> Option<Place>
    ensures { result ≡ find (λ (p : Place). p.field == field) places.now }
{
    for place in places {
        if place.field == field {
            return Some(*place);
        }
    }
    None
}

// Reads the places from the table at the end of a file.
fn read_table(alloc: Global, bytes: &[u8]) -> Result<Vec<Place>, Fault>
    ensures read { IfOk result (λ places. table_of bytes.now ≡ Some places.items) }
    ensures damaged { IsErrOf result (Fault.Damaged Part.Composite) → table_of bytes.now ≡ None }
    ensures memory { IsErrOf result Fault.OutOfMemory → HasTable bytes.now }
    ensures only { IfErr result (λ e. (e ≡ Fault.OutOfMemory) ⊎ (e ≡ Fault.Damaged Part.Composite)) }
{
    let mut footer = &bytes[bytes.len().saturating_sub(4)..];
    let Some(count) = u32::deserialize(&mut footer) else {
        return Err(Fault::Damaged(Part::Composite));
    };
    let table_size = 20 * u64::from(count) + 4;
    if (bytes.len() as u64) < table_size {
        return Err(Fault::Damaged(Part::Composite));
    }
    let size = bytes.len() - table_size as usize;
    read_places(alloc, size as u64, count, &bytes[size..])
}

// Reads `count` places from the start of a table: all within the bodies, and of distinct fields.
fn read_places(alloc: Global, size: u64, count: u32, table: &[u8]) -> Result<Vec<Place>, Fault>
    ensures read { IfOk result (λ places. valid_places size count table.now ≡ Some places.items) }
    ensures damaged { IsErrOf result (Fault.Damaged Part.Composite) → valid_places size count table.now ≡ None }
    ensures only { IfErr result (λ e. (e ≡ Fault.OutOfMemory) ⊎ (e ≡ Fault.Damaged Part.Composite)) }
{
    let mut places = Vec::new(alloc);
    let mut fields = BTreeSet::new(alloc);
    let mut rest = table;
    for _i in 0..count {
        let Some(place) = Place::deserialize(&mut rest) else {
            return Err(Fault::Damaged(Part::Composite));
        };
        if !place.lies_within(size) {
            return Err(Fault::Damaged(Part::Composite));
        }
        if !fields.insert(place.field.field_id())? {
            return Err(Fault::Damaged(Part::Composite));
        }
        places.push(place)?;
    }
    Ok(places)
}
