use bytes::Bytes;
use ii_io::{CountingWriter, FailingWriter, Fault, LayoutFault, Part};
use ii_layout::written::reads_positions_back;
use ii_layout::{PositionReader, PositionSerializer, PositionWriter};
use std::alloc::{AllocError, Global};
use std::test::Fail;

// Concatenates parts, each repeated `times` times.
fn repeated(alloc: Global, parts: &[(&[u8], u32)]) -> Result<Vec<u8>, AllocError> {
    let mut bytes = Vec::new(alloc);
    for (part, times) in parts {
        for _ in 0..*times {
            bytes.extend_from_slice(part)?;
        }
    }
    Ok(bytes)
}

// 120 documents with the deltas 1, 2, 3, 2: three widths, three blocks of repeated bytes, and vints. 128
// documents with the positions 0, 1, 2: three widths, and a part repeated 16 times. A term without deltas.
static TERMS: [(&[u8], u32); 6] = [
    (&[0x83, 2, 2, 2], 1),
    (&[0xB9], 96),
    (&[0x81, 0x82, 0x83, 0x82], 24),
    (&[0x83, 1, 1, 1], 1),
    (&[0xB6, 0x6D, 0xDB], 16),
    (&[0x80], 1),
];

static FOUR: [u32; 4] = [1, 2, 3, 2];

// Writes these terms, then a delta of a term that stays open. Returns the bytes written before and after the
// end of the first term, and after the end of the second.
fn write_terms(serializer: &mut PositionSerializer<Vec<u8>>) -> Result<[u64; 3], Fault> {
    for _ in 0..120 {
        serializer.write_positions_delta(&FOUR)?;
    }
    let before = serializer.written_bytes();
    serializer.close_term()?;
    let first = serializer.written_bytes();
    for _ in 0..128 {
        serializer.write_positions_delta(&[0])?;
        serializer.write_positions_delta(&[1, 1])?;
    }
    serializer.close_term()?;
    let second = serializer.written_bytes();
    serializer.close_term()?;
    serializer.write_positions_delta(&[7])?;
    Ok([before, first, second])
}

// Returns the bytes written for them and the numbers of bytes reported.
fn written_terms(alloc: Global) -> Result<(Vec<u8>, [u64; 3]), Fault> {
    let output = CountingWriter::wrap(Vec::new(alloc));
    let mut serializer = PositionSerializer::new(alloc, output);
    let told = write_terms(&mut serializer);
    let (output, closed) = serializer.close();
    closed?;
    Ok((output.finish(), told?))
}

#[test]
fn deltas_are_written(rt: HostRuntime) -> Result<(), Fail> {
    let terms = repeated(rt.alloc(), &TERMS)?;
    let (bytes, told) = written_terms(rt.alloc())?;
    assert!(rt; told == [0, 196, 248]);
    assert!(rt; bytes.as_slice() == terms.as_slice());
    reads_positions_back();
    Ok(())
}

// Reads deltas if they exist; otherwise leaves `output` unchanged.
fn read_if_there(reader: &mut PositionReader, offset: u64, output: &mut [u32]) -> bool {
    if u128::from(offset) + output.len() as u128 > reader.len() {
        return false;
    }
    reader.read(offset, output);
    true
}

// Returns whether these deltas, at most four, are read from an offset.
fn are_read(reader: &mut PositionReader, offset: u64, wanted: &[u32]) -> bool {
    let mut output = [0; 4];
    let part = &mut output[..wanted.len().min(4)];
    read_if_there(reader, offset, part) && *part == *wanted
}

// Four deltas from an offset that is 2 modulo 4.
static LATER: [u32; 4] = [3, 2, 1, 2];

// Writes the first term alone.
fn write_first_term(alloc: Global, output: &mut CountingWriter<Vec<u8>>) -> Result<(), Fault> {
    let mut positions = PositionWriter::new(alloc);
    for _ in 0..120 {
        positions.write_positions_delta(&FOUR)?;
    }
    positions.close_term(output)
}

// Returns whether a copy of a reader reads from 382, the number of deltas of a new reader over the same
// bytes, and whether that one reads from 126.
fn reads_of_copy(reader: &PositionReader) -> Result<(bool, u128, bool), Fault> {
    let mut copy = reader.clone()?;
    let is_read = are_read(&mut copy, 382, &LATER);
    let mut anew = copy.anew();
    Ok((is_read, anew.len(), are_read(&mut anew, 126, &LATER)))
}

#[test]
fn deltas_are_read(rt: HostRuntime) -> Result<(), Fail> {
    let mut output = CountingWriter::wrap(Vec::new(rt.alloc()));
    write_first_term(rt.alloc(), &mut output)?;
    let Ok(mut reader) = PositionReader::open(Bytes::from_vec(output.finish())?) else {
        panic!(rt; "refused");
    };
    // deltas past the end, and none at the end
    let reads = [
        are_read(&mut reader, 470, &LATER),
        are_read(&mut reader, 3, &[2, 1, 2]),
        are_read(&mut reader, 477, &LATER),
        are_read(&mut reader, 480, &[]),
    ];
    assert!(rt; (reader.len(), reads) == (480, [true, true, false, true]));
    assert!(rt; reads_of_copy(&reader) == Ok((true, 480, true)));
    Ok(())
}

// Returns whether the deltas 0, 1, 1, repeated over three blocks, are all read.
fn reads_thirds(reader: &mut PositionReader) -> bool {
    let mut all = [7; 384];
    if !read_if_there(reader, 0, &mut all) {
        return false;
    }
    let mut same = true;
    for (i, delta) in all.iter().enumerate() {
        same &= *delta == u32::from(i % 3 != 0);
    }
    same
}

#[test]
fn all_deltas_are_read(rt: HostRuntime) -> Result<(), Fail> {
    let bytes = repeated(rt.alloc(), &TERMS[3..5])?;
    let Ok(mut reader) = PositionReader::open(Bytes::from_vec(bytes)?) else {
        panic!(rt; "refused");
    };
    assert!(rt; (reader.len(), reads_thirds(&mut reader)) == (384, true));
    Ok(())
}

// Writes deltas, closes the term twice and writes again. Returns the results and the bytes reported.
fn call_four(serializer: &mut PositionSerializer<FailingWriter>) -> ([Result<(), Fault>; 4], u64) {
    let deltas = serializer.write_positions_delta(&FOUR);
    let end = serializer.close_term();
    let again = serializer.close_term();
    let more = serializer.write_positions_delta(&FOUR);
    ([deltas, end, again, more], serializer.written_bytes())
}

#[test]
fn a_refused_writer_is_closed(rt: HostRuntime) {
    let output = CountingWriter::wrap(FailingWriter::new(rt.alloc(), 1));
    let mut serializer = PositionSerializer::new(rt.alloc(), output);
    let told = call_four(&mut serializer);
    let (output, answer) = serializer.close();
    let closed = Err(Fault::SerializerClosed);
    assert!(rt; told == ([Ok(()), Err(Fault::Write), closed, closed], 0));
    assert!(rt; (answer, output.failed_calls()) == (closed, 1));
}

// Writes a block of ones and two more deltas.
fn write_some(serializer: &mut PositionSerializer<FailingWriter>) -> Result<(), Fault> {
    serializer.write_positions_delta(&[1; 128])?;
    serializer.write_positions_delta(&[2, 3])?;
    serializer.close_term()
}

// Returns the results of writing and closing when a call fails. The last value is the number of bytes
// written, if they are a prefix of the complete output.
fn told_of_failing(
    alloc: Global,
    failing_call: u64,
) -> (Result<(), Fault>, Result<(), Fault>, Option<usize>) {
    let output = CountingWriter::wrap(FailingWriter::new(alloc, failing_call));
    let mut serializer = PositionSerializer::new(alloc, output);
    let answer = write_some(&mut serializer);
    let (output, closed) = serializer.close();
    let writer = output.finish();
    let mut right = [0xFF; 20];
    right[..2].copy_from_slice(&[0x81, 1]);
    right[18..].copy_from_slice(&[0x82, 0x83]);
    if !right.starts_with(writer.bytes()) {
        return (answer, closed, None);
    }
    (answer, closed, Some(writer.bytes().len()))
}

#[test]
fn a_failing_writer_is_told(rt: HostRuntime) {
    let failed = Err(Fault::Write);
    let closed = Err(Fault::SerializerClosed);
    // the fifth call is the flush
    let rows = [
        (Ok(()), Ok(()), Some(20)),
        (failed, closed, Some(0)),
        (failed, closed, Some(1)),
        (failed, closed, Some(2)),
        (failed, closed, Some(18)),
        (Ok(()), failed, Some(20)),
        (Ok(()), Ok(()), Some(20)),
    ];
    for (k, want) in rows.into_iter().enumerate() {
        assert!(rt; told_of_failing(rt.alloc(), k as u64) == want, "call {k}");
    }
}

// Returns whether opening fails with corrupt positions.
fn is_damaged(alloc: Global, data: &[u8]) -> Result<bool, AllocError> {
    let opened = PositionReader::open(Bytes::copy_from_slice(alloc, data)?);
    Ok(matches!(opened, Err(LayoutFault::Damaged(Part::Positions))))
}

// Bytes, and whether they are corrupt.
static DAMAGED: [(&[u8], bool); 8] = [
    (&[], true),
    (&[0x80], false),
    // 128 vints, and one without an end
    (&[0x80; 129], true),
    (&[0x80; 128], false),
    (&[0x80, 0], true),
    // more blocks than widths, up to the largest number
    (&[0x82, 0], true),
    (
        &[
            0x7F, 0x7F, 0x7F, 0x7F, 0x7F, 0x7F, 0x7F, 0x7F, 0x7F, 0x81, 0,
        ],
        true,
    ),
    // a block of width 0 has no bytes
    (&[0x82, 0, 0], false),
];

// The width of a block, the number of bytes with the head, and whether they are corrupt: a width above 32,
// and a block that is cut.
static BLOCKS: [(u8, usize, bool); 5] = [
    (33, 530, true),
    (32, 514, false),
    (32, 513, true),
    (1, 18, false),
    (1, 17, true),
];

#[test]
fn damage_is_told(rt: HostRuntime) -> Result<(), Fail> {
    for (i, (data, want)) in DAMAGED.iter().enumerate() {
        assert!(rt; is_damaged(rt.alloc(), data)? == *want, "row {i}");
    }
    let mut block = [0; 530];
    block[0] = 0x81;
    for (width, len, want) in BLOCKS {
        block[1] = width;
        let block = &block[..len.min(530)];
        assert!(rt; is_damaged(rt.alloc(), block)? == want, "{len} bytes");
    }
    Ok(())
}
