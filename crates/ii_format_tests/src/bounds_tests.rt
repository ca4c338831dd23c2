ghost use Rattle.std.specs.Prelude.{◌≡◌, ◌<◌, ◌≤◌, ℕ, [], OnOk};
ghost use Rattle.std.specs.List.{range_with_len};
ghost use Rattle.ii_layout.specs.Bounds.{Covers};

use bytes::Bytes;
use ii_base::{CountingWriter, Fault, IndexRecordOption};
use ii_fieldnorm::FieldNormReader;
use ii_layout::PostingsSerializer;
use std::alloc::Global;
use std::test::Fail;

// Appends the documents below `count`; each count is `step` above the previous one.
fn add_below(
    serializer: &mut PostingsSerializer,
    count: u32,
    first: u32,
    step: u32,
) -> Result<(), Fault>
    requires few { count ≤ 300 }
    requires small { (0 < first) × (first ≤ 300) × (step ≤ 1) }
    requires new { serializer.old.docs ≡ [] }
    requires covered { (doc : ℕ) → doc < count → Covers serializer.old.norms doc }
    ensures { OnOk result (serializer.new.docs ≡ range_with_len 0 count) }
{
    for doc in 0..count {
        serializer.write_doc(doc, first + step * doc)?;
    }
    Ok(())
}

// Writes all documents of the norms, at most 300; each count is `step` above the previous one. The first
// count is from 1 to 300.
fn write_term(
    alloc: Global,
    mode: IndexRecordOption,
    norms: FieldNormReader,
    (first, step): (u32, u32),
    output: &mut CountingWriter<Vec<u8>>,
) -> Result<(), Fault> {
    let count = norms.num_docs().min(300);
    let mut serializer = PostingsSerializer::new(alloc, mode, Some(norms));
    if first == 0 || first > 300 || step > 1 {
        return Ok(());
    }
    add_below(&mut serializer, count, first, step)?;
    serializer.close_term(count, output)
}

// Returns what is written for them.
fn written(
    alloc: Global,
    mode: IndexRecordOption,
    norms: FieldNormReader,
    counts: (u32, u32),
) -> Result<Vec<u8>, Fault> {
    let mut output = CountingWriter::wrap(Vec::new(alloc));
    write_term(alloc, mode, norms, counts, &mut output)?;
    Ok(output.finish())
}

// A mode, a number of tokens with a count, how the block starts, and its length.
static BLOCKS: [(IndexRecordOption, (u32, u32), &[u8], usize); 5] = [
    (
        IndexRecordOption::WithFreqs,
        (20, 3),
        &[0x88, 0x7F, 0, 0, 0, 0x40, 2, 0x14, 3, 0xAA],
        41,
    ),
    (
        IndexRecordOption::WithFreqs,
        (300, 300),
        &[0x88, 0x7F, 0, 0, 0, 0x40, 9, 0x48, 0xFF],
        153,
    ),
    (
        IndexRecordOption::WithFreqs,
        (0, 254),
        &[0x88, 0x7F, 0, 0, 0, 0x40, 8, 0, 0xFE, 0xFD],
        137,
    ),
    // after a sum of counts, and not without counts
    (
        IndexRecordOption::WithFreqsAndPositions,
        (20, 3),
        &[0x8C, 0x7F, 0, 0, 0, 0x40, 2, 0x80, 1, 0, 0, 0x14, 3, 0xAA],
        45,
    ),
    (
        IndexRecordOption::Basic,
        (20, 3),
        &[0x85, 0x7F, 0, 0, 0, 0x40],
        6,
    ),
];

#[test]
fn bounds_of_a_block_are_written(rt: HostRuntime) -> Result<(), Fail> {
    for (mode, (fieldnorm, count), begin, len) in &BLOCKS {
        let norms = FieldNormReader::constant(128, *fieldnorm);
        let bytes = written(rt.alloc(), *mode, norms, (*count, 0))?;
        assert!(rt;
            bytes.starts_with(begin) && bytes.len() == *len,
            "{len} bytes"
        );
    }
    Ok(())
}

// Returns norms of 259 documents: the id falls by one from each pair to the next; the last three have 0.
fn falling_norms(alloc: Global) -> Result<FieldNormReader, Fault> {
    let mut ids = Vec::new(alloc);
    for doc in 0..256u32 {
        ids.push((200 - doc / 2) as u8)?;
    }
    ids.extend_from_slice(&[0, 0, 0])?;
    FieldNormReader::open(Bytes::from_vec(ids)?)
}

static BOUNDS: [u8; 17] = [
    0x90, 0x7F, 0, 0, 0, 0x40, 7, 137, 128, 0xFF, 0, 0, 0, 0x40, 8, 73, 0xFF,
];

#[test]
fn bounds_are_those_of_each_block(rt: HostRuntime) -> Result<(), Fail> {
    // the counts 1, 2, 3 and so on
    let norms = falling_norms(rt.alloc())?;
    let bytes = written(rt.alloc(), IndexRecordOption::WithFreqs, norms, (1, 1))?;
    assert!(rt; bytes.starts_with(&BOUNDS));
    Ok(())
}
