//! A file of an index, whatever it holds: the bodies of its fields and their places.
ghost use Rattle.std.specs.Prelude.{◌≡◌, ◌-◌, ◌==◌, IfOk, List, Some, drop, is_some, length};
ghost use Rattle.std.specs.List.{find};
ghost use Rattle.ii_io.specs.declared.composite_file.place.Place.{Place};
ghost use Rattle.ii_io.specs.Composite.{composite, places_at, table_of};
ghost use Rattle.ii_io.specs.Faults.{OnlyMemory};
ghost use Rattle.ii_damage.specs.Bodies.{body_in};
ghost use Rattle.ii_damage.specs.Damages.{all_bytes, bytes_of_field};

use crate::damage::ByteRange;
use bytes::Bytes;
use ii_io::composite_file::place::Place;
use ii_io::{BinarySerializable, CompositeFile, Fault, Field};
use std::alloc::Global;
use std::marker::Model;

/// A file of an index, and the bodies of its fields if its table is valid. Its model is the bytes.
pub struct FieldBodies {
    bytes: Bytes,
    bodies: Option<CompositeFile>,
}

// Makes each drop a call.
impl Drop for FieldBodies {
    fn drop(self) {
        let FieldBodies {
            bytes: _,
            bodies: _,
        } = self;
    }
}

impl Model for FieldBodies {
    ghost use Rattle.std.specs.Prelude.{◌≡◌, ℕ, List};
    ghost use Rattle.ii_io.specs.Composite.{composite};

    ghost Value = { List ℕ };

    ghost view = { λ f. f.bytes };

    ghost invariant = { λ f. f.bodies ≡ composite f.bytes };
}

impl FieldBodies {
    /// Opens any bytes. Fails only with `OutOfMemory`.
    pub fn open(alloc: Global, bytes: Vec<u8>) -> Result<FieldBodies, Fault>
        ensures bytes { IfOk result (λ f. f ≡ bytes.items) }
        ensures only { OnlyMemory result }
    {
        let bytes = Bytes::from_vec(bytes)?;
        let shared = bytes.clone()?;
        match CompositeFile::open(alloc, shared) {
            Ok(bodies) => Ok(FieldBodies {
                bytes,
                bodies: Some(bodies),
            }),
            Err(fault) => {
                if fault.is_memory() {
                    return Err(fault);
                }
                Ok(FieldBodies {
                    bytes,
                    bodies: None,
                })
            }
        }
    }

    /// Returns whether the table is valid.
    pub fn has_valid_table(&self) -> bool
        ensures { result ≡ is_some (table_of self.now) }
    {
        self.bodies.is_some()
    }

    /// Returns the body of a field, or `None` if the file doesn't have it or its table is damaged. Fails only
    /// with `OutOfMemory`.
    pub fn body(&self, field: Field) -> Result<Option<Bytes>, Fault>
        ensures body { IfOk result (λ body. body ≡ body_in field (composite self.now)) }
        ensures only { OnlyMemory result }
    {
        match &self.bodies {
            Some(bodies) => bodies.open_read(field),
            None => Ok(None),
        }
    }

    /// Returns all bytes of the file.
    pub fn all(&self) -> ByteRange
        ensures { result ≡ all_bytes self.now }
    {
        ByteRange {
            start: 0,
            end: self.bytes.len() as u64,
        }
    }

    /// Returns the range of a field's body, or the complete file if there is no such body.
    pub fn place(&self, field: Field) -> ByteRange
        ensures { result ≡ bytes_of_field field self.now }
    {
        if !self.has_valid_table() {
            return self.all();
        }
        match place_of(self.bytes.as_slice(), field) {
            Some(place) => ByteRange {
                start: place.start,
                end: place.end,
            },
            None => self.all(),
        }
    }
}

// Returns the place of a field in the table at the end of a file, if that is valid.
#[tactic(auto, using(crate::proofs::TableLemmas::no_table, crate::proofs::TableLemmas::table_short, crate::proofs::TableLemmas::table_places))]
fn place_of(file: &[u8], field: Field) -> Option<Place>
    ensures { (places : List Place) → table_of file.now ≡ Some places → result ≡ find (λ (p : Place). p.field == field) places }
{
    let mut footer = footer_of(file);
    let Some(count) = u32::deserialize(&mut footer) else {
        return None;
    };
    let table_size = 20 * u64::from(count) + 4;
    if (file.len() as u64) < table_size {
        return None;
    }
    let (_, table) = file.split_at(file.len() - table_size as usize);
    place_in(table, count, field)
}

// Returns the last four bytes of a file, or all if it is shorter.
fn footer_of(file: &[u8]) -> &[u8]
    ensures { result.now ≡ drop (length file.now - 4) file.now }
{
    let (_, footer) = file.split_at(file.len().saturating_sub(4));
    footer
}

// Returns the first place of a field among the first `count` of a table.
#[tactic(auto, using(crate::proofs::TableLemmas::seeking_first, crate::proofs::TableLemmas::seeking_short, crate::proofs::TableLemmas::seeking_here, crate::proofs::TableLemmas::seeking_on, crate::proofs::TableLemmas::seeking_ended))]
fn place_in(table: &[u8], count: u32, field: Field) -> Option<Place>
    ensures { (places : List Place) → places_at count table.now ≡ Some places → result ≡ find (λ (p : Place). p.field == field) places }
{
    let mut rest = table;
    for _i in 0..count {
        let Some(place) = Place::deserialize(&mut rest) else {
            return None;
        };
        if place.field == field {
            return Some(place);
        }
    }
    None
}
