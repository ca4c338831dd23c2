ghost use Rattle.std.specs.Prelude.{◌≡◌, length};
ghost use Rattle.ii_io.specs.Numbers.{le_bytes};
ghost use Rattle.ii_io.specs.Composite.{place_bytes, lies_within};

use crate::counting_writer::CountingWriter;
use crate::faults::Fault;
use crate::field::Field;
use crate::serialize::{BinarySerializable, FixedSize};
use byteorder::{ByteOrder, LittleEndian};
use std::io::Write;

/// The range of a field's body, from `start` inclusive to `end` exclusive, counted from the first body.
/// Encoded in 20 bytes, little-endian: field (4), start (8), end (8).
#[derive(Clone, Copy, Debug, PartialEq, Eq)]
pub struct Place {
    pub field: Field,
    pub start: u64,
    pub end: u64,
}

impl Place {
    /// Returns whether the range is valid and ends within `size` bytes.
    pub fn lies_within(&self, size: u64) -> bool
        ensures { result ≡ lies_within size self.now }
    {
        self.start <= self.end && self.end <= size
    }
}

impl BinarySerializable for Place {
    ghost use Rattle.std.specs.Prelude.{◌<◌, ◌^◌};
    ghost use Rattle.ii_io.specs.Composite.{place_bytes, place_at};
    ghost use Rattle.ii_io.specs.CompositeLemmas.{reads_place_back};

    ghost bytes_of = { λ p. place_bytes p };

    ghost value_at = { λ bytes. place_at bytes };

    ghost in_range = { λ p. (p.field < 256 ^ 4) × (p.start < 256 ^ 8) × (p.end < 256 ^ 8) };

    ghost reads_back = { λ p rest fits _. reads_place_back p rest fits.0 fits.1 fits.2 };

    fn serialize<W: Write>(&self, writer: &mut CountingWriter<W>) -> Result<(), Fault> {
        let mut bytes = [0; 20];
        put_place(&mut bytes, self.field.field_id(), self.start, self.end);
        writer.write_all(&bytes)
    }

    #[tactic(auto, unfolding(crate::specs::Composite::place_at))]
    fn deserialize(reader: &mut &[u8]) -> Option<Place> {
        let mut rest = *reader;
        let Some(field) = u32::deserialize(&mut rest) else {
            return None;
        };
        let Some(start) = u64::deserialize(&mut rest) else {
            return None;
        };
        let Some(end) = u64::deserialize(&mut rest) else {
            return None;
        };
        *reader = rest;
        Some(Place {
            field: Field::from_field_id(field),
            start,
            end,
        })
    }
}

impl FixedSize for Place {
    ghost use Rattle.ii_io.specs.CompositeLemmas.{length_place_bytes};

    const SIZE_IN_BYTES: usize = 20;

    ghost SIZE_IN_BYTES = { 20 };

    ghost has_size = { length_place_bytes };
}

// Encodes a place into a buffer of 20 bytes.
#[tactic(auto, unfolding(crate::specs::Composite::place_bytes))]
fn put_place(buf: &mut [u8], field: u32, start: u64, end: u64)
    requires { length buf.old ≡ 20 }
    ensures { buf.new ≡ place_bytes (record { field = field; start = start; end = end }) }
{
    let (field_bytes, rest) = buf.split_at_mut(4);
    let (start_bytes, end_bytes) = rest.split_at_mut(8);
    put_u32(field_bytes, field);
    put_u64(start_bytes, start);
    put_u64(end_bytes, end);
}

// Encodes a number into a buffer of its size.
fn put_u32(buf: &mut [u8], n: u32)
    requires { length buf.old ≡ 4 }
    ensures { buf.new ≡ le_bytes 4 n }
{
    LittleEndian::write_u32(buf, n);
}

fn put_u64(buf: &mut [u8], n: u64)
    requires { length buf.old ≡ 8 }
    ensures { buf.new ≡ le_bytes 8 n }
{
    LittleEndian::write_u64(buf, n);
}

/// The start of a field's body, counted from the first body.
#[derive(Clone, Copy, Debug, PartialEq, Eq)]
pub struct BodyStart {
    pub field: Field,
    pub start: u64,
}
