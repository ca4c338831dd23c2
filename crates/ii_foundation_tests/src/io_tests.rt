ghost use Rattle.std.specs.Prelude.{◌≡◌, ◌<◌, [], length, OnOk};

use bytes::Bytes;
use ii_io::composite_file::place::Place;
use ii_io::composite_file::reads_composites_back;
use ii_io::counting_writer::CountingWriter;
use ii_io::failing_reader::FailingReader;
use ii_io::serialize::reads_numbers_back;
use ii_io::vint::VInt;
use ii_io::{
    BinarySerializable, CompositeFile, CompositeWrite, FailingWriter, Fault, Field, FixedSize,
    HasLen, Part, vint,
};
use std::alloc::Global;
use std::io::{self, Cursor, Read, Write};

// One byte, then a composite file with one body for field 7.
static WRITTEN: [u8; 27] = [
    9, 5, 6, 7, 0, 0, 0, 0, 0, 0, 0, 0, 0, 0, 0, 2, 0, 0, 0, 0, 0, 0, 0, 1, 0, 0, 0,
];

// Starts a body.
fn begin_body<W: Write>(composite: &mut CompositeWrite<W>) -> Result<(), Fault>
    requires { composite.old.starts ≡ [] }
    ensures { OnOk result (0 < length composite.new.starts) }
{
    composite
        .for_field(Field::from_field_id(7))?
        .write_all(&[5])
}

// Writes one body in two writes.
fn write_twice<W: Write>(composite: &mut CompositeWrite<W>) -> Result<(), Fault>
    requires { composite.old.starts ≡ [] }
{
    begin_body(composite)?;
    composite.writer().write_all(&[6])
}

// Returns whether the complete file is written when this call fails, and the result of writing it.
fn composite_over(alloc: Global, failing_call: u64) -> (bool, Result<(), Fault>) {
    let mut writer = CountingWriter::wrap(FailingWriter::new(alloc, failing_call));
    let before = writer.write_all(&[9]);
    let mut composite = CompositeWrite::wrap(alloc, writer);
    let written = write_twice(&mut composite);
    let (writer, closed) = composite.close();
    let is_written = writer.finish().bytes() == WRITTEN.as_slice();
    (is_written, before.and(written).and(closed))
}

static NO_BODIES: [u8; 4] = [0; 4];

// Returns the same for a file without bodies, where no call fails.
fn no_bodies(alloc: Global) -> (bool, Result<(), Fault>) {
    let none = CompositeWrite::wrap(alloc, CountingWriter::wrap(Vec::new(alloc)));
    let (writer, closed) = none.close();
    let is_written = writer.finish().as_slice() == NO_BODIES.as_slice();
    (is_written, closed)
}

#[test]
fn composites_are_written(rt: HostRuntime) {
    // Three writes before the table, two for the table (a place, the number of places), and a flush.
    for k in 0..8 {
        let want = match k {
            0 | 7 => (true, Ok(())),
            6 => (true, Err(Fault::Write)),
            _ => (false, Err(Fault::Write)),
        };
        assert!(rt; composite_over(rt.alloc(), k) == want, "call {k}");
    }
    assert!(rt; no_bodies(rt.alloc()) == (true, Ok(())));
    reads_composites_back();
}

// What to write: the five values; two numbers and a place; or this many empty bodies.
// Each body's field is its number, except that the last body has the field given.
#[derive(Clone, Copy)]
enum What {
    Values,
    Numbers(Place),
    Bodies(u32, u32),
}

fn write_numbers<W: Write>(writer: &mut CountingWriter<W>, place: &Place) -> Result<(), Fault> {
    0x0403_0201_u32.serialize(writer)?;
    0x0F0E_0D0C_0B0A_0908_u64.serialize(writer)?;
    place.serialize(writer)
}

fn write_places<W: Write>(
    writer: &mut CountingWriter<W>,
    count: u32,
    last: u32,
) -> Result<(), Fault> {
    for i in 0..count {
        let place = Place {
            field: Field::from_field_id(if i < count - 1 { i } else { last }),
            start: 0,
            end: 0,
        };
        place.serialize(writer)?;
    }
    count.serialize(writer)
}

fn write_values<W: Write>(writer: &mut CountingWriter<W>) -> Result<(), Fault> {
    for number in NUMBERS {
        VInt(number).serialize(writer)?;
    }
    Ok(())
}

// Returns the bytes written, the number of bytes reported, and the result of writing.
fn written(alloc: Global, what: What) -> (Vec<u8>, u64, Result<(), Fault>) {
    let mut writer = CountingWriter::wrap(Vec::new(alloc));
    let answer = match what {
        What::Values => write_values(&mut writer),
        What::Numbers(place) => write_numbers(&mut writer, &place),
        What::Bodies(count, last) => write_places(&mut writer, count, last),
    };
    let told = writer.written_bytes();
    (writer.finish(), told, answer)
}

// Lists the lengths and bytes of the bodies of three fields.
fn bodies_of(alloc: Global, bytes: Bytes, fields: [u32; 3]) -> Result<String, Fault> {
    let file = CompositeFile::open(alloc, bytes)?;
    let mut told = String::new(alloc);
    for field in fields {
        let field = Field::from_field_id(field);
        let Some(body) = file.open_read(field)? else {
            write!(told, "none; ")?;
            continue;
        };
        write!(told, "{:?} {:?}; ", file.body_len(field), body.as_slice())?;
    }
    Ok(told)
}

// Lists the same for a file of 1000 empty bodies, of which the last has this field.
fn many_bodies(alloc: Global, last: u32, fields: [u32; 3]) -> Result<String, Fault> {
    let (bytes, _, answer) = written(alloc, What::Bodies(1000, last));
    answer?;
    bodies_of(alloc, Bytes::from_vec(bytes)?, fields)
}

// Bodies of fields 7 and 1.
static TWO_BODIES: [u8; 47] = [
    5, 6, 8, 7, 0, 0, 0, 0, 0, 0, 0, 0, 0, 0, 0, 2, 0, 0, 0, 0, 0, 0, 0, 1, 0, 0, 0, 2, 0, 0, 0, 0,
    0, 0, 0, 3, 0, 0, 0, 0, 0, 0, 0, 2, 0, 0, 0,
];

// Returns whether the listing of bodies is `want`.
fn is_told(told: Result<String, Fault>, want: &str) -> Result<bool, Fault> {
    Ok(told?.as_str() == want)
}

#[test]
fn composites_are_read(rt: HostRuntime) {
    let alloc = rt.alloc();
    let two = bodies_of(alloc, Bytes::from_static(&TWO_BODIES), [7, 1, 0]);
    let none = bodies_of(alloc, Bytes::from_static(&NO_BODIES), [0, 1, 2]);
    let many = many_bodies(alloc, 4_000_000_000, [998, 999, 4_000_000_000]);
    let found = [
        is_told(two, "Some(2) [5, 6]; Some(1) [8]; none; "),
        is_told(none, "none; none; none; "),
        is_told(many, "Some(0) []; none; Some(0) []; "),
    ];
    assert!(rt; found == [Ok(true); 3]);
}

static DAMAGED: [&'static [u8]; 9] = [
    &[],
    &[0; 3],
    // no table
    &[1, 0, 0, 0],
    // 20 times this count wraps to 4 in 32 bits
    &[0, 0, 0, 0, 0, 0, 0, 0, 0xCD, 0xCC, 0xCC, 0x0C],
    // a body that ends before its start
    &[
        5, 6, 0, 0, 0, 0, 2, 0, 0, 0, 0, 0, 0, 0, 1, 0, 0, 0, 0, 0, 0, 0, 1, 0, 0, 0,
    ],
    // a body that ends after all bodies
    &[
        5, 6, 0, 0, 0, 0, 0, 0, 0, 0, 0, 0, 0, 0, 3, 0, 0, 0, 0, 0, 0, 0, 1, 0, 0, 0,
    ],
    // the largest numbers
    &[
        5, 6, 0, 0, 0, 0, 255, 255, 255, 255, 255, 255, 255, 255, 255, 255, 255, 255, 255, 255,
        255, 255, 1, 0, 0, 0,
    ],
    // one byte short
    &[
        0, 0, 0, 0, 0, 0, 0, 0, 0, 0, 0, 0, 0, 0, 0, 0, 0, 0, 0, 1, 0, 0, 0,
    ],
    // a field that occurs twice
    &[
        7, 0, 0, 0, 0, 0, 0, 0, 0, 0, 0, 0, 0, 0, 0, 0, 0, 0, 0, 0, 7, 0, 0, 0, 0, 0, 0, 0, 0, 0,
        0, 0, 0, 0, 0, 0, 0, 0, 0, 0, 2, 0, 0, 0,
    ],
];

#[test]
fn damaged_composites_are_refused(rt: HostRuntime) {
    let damaged = Err(Fault::Damaged(Part::Composite));
    for k in 0..9 {
        let told = bodies_of(rt.alloc(), Bytes::from_static(DAMAGED[k]), [0; 3]);
        assert!(rt; is_told(told, "") == damaged, "row {k}");
    }
    assert!(rt; is_told(many_bodies(rt.alloc(), 17, [17; 3]), "") == damaged);
}

// Reads two numbers and a place from the front of `bytes`, then one more number.
fn read_numbers(bytes: &[u8]) -> (Option<u32>, Option<u64>, Option<Place>, Option<u32>) {
    let mut rest = bytes;
    let small = u32::deserialize(&mut rest);
    let great = u64::deserialize(&mut rest);
    let place = Place::deserialize(&mut rest);
    (small, great, place, u32::deserialize(&mut rest))
}

fn len_of<T: HasLen>(value: &T) -> (usize, bool) {
    (value.len(), value.is_empty())
}

static ONE_TWO: [u8; 2] = [1, 2];

#[test]
fn numbers_are_written_and_read(rt: HostRuntime) {
    let place = Place {
        field: Field::from_field_id(3),
        start: 1,
        end: 2,
    };
    let sizes = [u32::SIZE_IN_BYTES, u64::SIZE_IN_BYTES, Place::SIZE_IN_BYTES];
    let within = [place.lies_within(2), place.lies_within(1)];
    let len = len_of(&Bytes::from_static(&ONE_TWO));
    assert!(rt; (place.field.field_id(), within, len) == (3, [true, false], (2, false)));
    let (bytes, told, answer) = written(rt.alloc(), What::Numbers(place));
    let found = read_numbers(bytes.as_slice());
    let (small, great) = (0x0403_0201, 0x0F0E_0D0C_0B0A_0908);
    let want = (Some(small), Some(great), Some(place), None);
    assert!(rt; (sizes, told, answer, found) == ([4, 8, 20], 32, Ok(()), want));
    reads_numbers_back();
}

// Reads two bytes at a time. Returns the error of each of three calls, and the buffer after the first and
// the last call.
fn call_reader<R: Read>(reader: &mut R) -> ([Option<io::ErrorKind>; 3], [[u8; 2]; 2]) {
    let mut buf = [0; 2];
    let mut failed = [None; 3];
    let mut before = buf;
    for k in 0..3 {
        if let Err(fault) = reader.read(&mut buf) {
            failed[k] = Some(fault.kind());
        }
        if k == 0 {
            before = buf;
        }
    }
    (failed, [before, buf])
}

// Writes, flushes and writes again. Returns the three results, the bytes reported, the number of failed
// calls, and the number of bytes in the writer.
fn call_writer(alloc: Global, failing_call: u64) -> ([Result<(), Fault>; 3], u64, u64, usize) {
    let mut writer = CountingWriter::wrap(FailingWriter::new(alloc, failing_call));
    let answers = [
        writer.write_all(&[1]),
        writer.flush(),
        writer.write_all(&[2]),
    ];
    let (written, failed) = (writer.written_bytes(), writer.failed_calls());
    (answers, written, failed, writer.finish().bytes().len())
}

static READ: [u8; 3] = [1, 2, 3];

#[test]
fn interrupted_calls_are_not_tried_again(rt: HostRuntime) {
    let (fine, fault) = (Ok(()), Err(Fault::Write));
    assert!(rt; call_writer(rt.alloc(), 1) == ([fault, fine, fine], 1, 1, 1));
    assert!(rt; call_writer(rt.alloc(), 2) == ([fine, fault, fine], 2, 1, 2));
    let answers = call_reader(&mut FailingReader::new(&READ, 2));
    let interrupted = Some(io::ErrorKind::Interrupted);
    assert!(rt; answers == ([None, interrupted, None], [[1, 2], [3, 2]]));
}

#[test]
fn a_write_that_takes_nothing_fails(rt: HostRuntime) {
    // the second call takes nothing
    let mut writer = CountingWriter::wrap(Cursor::new([0u8; 1]));
    let answers = [writer.write_all(&ONE_TWO), writer.write_all(&[3])];
    let told = (writer.written_bytes(), writer.failed_calls());
    let bytes = writer.finish().into_inner();
    assert!(rt; (answers, told, bytes) == ([Err(Fault::Write); 2], (1, 2), [1]));
}

static NUMBERS: [u64; 5] = [0, 127, 128, 324_234_234, u64::MAX];

static SPELLED: [u8; 19] = [
    0x80, 0xFF, 0x00, 0x81, 0x7A, 0x57, 0x4D, 0x1A, 0x81, 0x7F, 0x7F, 0x7F, 0x7F, 0x7F, 0x7F, 0x7F,
    0x7F, 0x7F, 0x81,
];

// Reads six values from the front of `bytes`. Returns them and how many bytes remain.
fn read_values(bytes: &[u8]) -> ([Option<VInt>; 6], usize) {
    let mut rest = bytes;
    let mut values = [None; 6];
    for i in 0..6 {
        values[i] = VInt::deserialize(&mut rest);
    }
    (values, rest.len())
}

static PAST: [u8; 11] = [0, 0, 0, 0, 0, 0, 0, 0, 0, 0, 0x80];

static GREAT: [u8; 10] = [0x7F, 0x7F, 0x7F, 0x7F, 0x7F, 0x7F, 0x7F, 0x7F, 0x7F, 0x82];

static ZERO_GROUPS: [u8; 10] = [0, 0, 0, 0, 0, 0, 0, 0, 0, 0x80];

#[test]
fn numbers_of_64_bits_are_values(rt: HostRuntime) {
    let (bytes, _, answer) = written(rt.alloc(), What::Values);
    let found = read_values(bytes.as_slice());
    let is_spelled = bytes.as_slice() == SPELLED.as_slice();
    let mut want = [None; 6];
    for i in 0..5 {
        want[i] = Some(VInt(NUMBERS[i]));
    }
    assert!(rt; (is_spelled, answer, found) == (true, Ok(()), (want, 0)));
    let (zero, _) = read_values(&ZERO_GROUPS);
    let (great, _) = read_values(&GREAT);
    assert!(rt; (zero[0], great[0]) == (Some(VInt(0)), None));
    assert!(rt; read_values(&PAST) == ([None; 6], 11));
}

static GREATEST_WRITTEN: [u8; 12] = [
    0x7F, 0x7F, 0x7F, 0x7F, 0x7F, 0x7F, 0x7F, 0x7F, 0x7F, 0x81, 0xFF, 0xFF,
];

static SMALL_NUMBERS: [u32; 4] = [0, 1, 324_234_234, u32::MAX];

static SMALL_SPELLED: [u8; 12] = [
    0x80, 0x81, 0x7A, 0x57, 0x4D, 0x1A, 0x81, 0x7F, 0x7F, 0x7F, 0x7F, 0x8F,
];

// Returns whether 32-bit vints are appended with the expected bytes.
fn adds_vints(alloc: Global) -> Result<bool, Fault> {
    let mut bytes = Vec::new(alloc);
    for number in SMALL_NUMBERS {
        vint::write_u32_vint(number, &mut bytes)?;
    }
    Ok(bytes.as_slice() == SMALL_SPELLED.as_slice())
}

#[test]
fn vints_are_written_and_read(rt: HostRuntime) {
    let mut bytes = [0xFFu8; 12];
    let end = vint::write_u64(5, &mut bytes, 1);
    let five = (end, bytes[0], bytes[1]);
    let end = vint::write_u64(u64::MAX, &mut bytes, 0);
    assert!(rt; (five, end, bytes) == ((2, 0xFF, 0x85), 10, GREATEST_WRITTEN));
    let read = [vint::read_u64(&bytes), vint::read_u64(&PAST)];
    assert!(rt; read == [Some((u64::MAX, 10)), None]);
    assert!(rt; adds_vints(rt.alloc()) == Ok(true));
}

// Reads a 32-bit number from the front of `bytes`. Returns it and how many bytes remain.
fn first_u32(bytes: &[u8]) -> Option<(u32, usize)> {
    let Some(_) = vint::read_u32(bytes) else {
        return None;
    };
    let mut rest = bytes;
    let number = vint::read_u32_vint(&mut rest);
    Some((number, rest.len()))
}

static FIRST: [(&'static [u8], Option<(u32, usize)>); 5] = [
    (&[0x80], Some((0, 0))),
    (
        &[0x7A, 0x57, 0x4D, 0x1A, 0x81, 0x82],
        Some((324_234_234, 1)),
    ),
    (&[0x7F, 0x7F, 0x7F, 0x7F, 0x8F], Some((u32::MAX, 0))),
    // a zero of two groups
    (&[0x00, 0x80, 0x80, 0x80], Some((0, 2))),
    // no end
    (&[0x00], None),
];

#[test]
fn vints_of_32_bits_are_taken_off(rt: HostRuntime) {
    for k in 0..5 {
        let (bytes, want) = FIRST[k];
        assert!(rt; first_u32(bytes) == want, "row {k}");
    }
}
