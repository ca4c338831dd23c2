ghost use Rattle.std.specs.Prelude.{◌≡◌, ◌<◌, ◌≤◌, ℕ, [], IsTrue, None, OnOk};
ghost use Rattle.ii_layout.specs.Bounds.{Covers};
ghost use Rattle.ii_base.specs.Options.{has_freq};
ghost use Rattle.std.specs.List.{range_with_len};

use ii_base::{CountingWriter, DocId, Fault, IndexRecordOption, LimitName, TERMINATED};
use ii_fieldnorm::FieldNormReader;
use ii_io::FailingWriter;
use ii_layout::skip::{
    BlockInfo, decode_bitwidth, decode_block_wand_max_tf, encode_bitwidth, encode_block_wand_max_tf,
};
use ii_layout::written::{reads_documents_back, reads_postings_back, reads_uncounted_back};
use ii_layout::{
    PostingsSerializer, SkipPlaces, SkipReader, SkipSerializer, split_into_skips_and_postings,
};
use std::alloc::Global;
use std::io::Write;
use std::test::Fail;

// Appends the documents below `count`, each with the same count.
fn add_below(serializer: &mut PostingsSerializer, count: u32, term_freq: u32) -> Result<(), Fault>
    requires few { count ≤ 256 }
    requires some { 0 < term_freq }
    requires new { serializer.old.docs ≡ [] }
    requires plain { serializer.old.norms ≡ None }
    ensures docs { OnOk result (serializer.new.docs ≡ range_with_len 0 count) }
    ensures plain { OnOk result (serializer.new.norms ≡ None) }
{
    for doc in 0..count {
        serializer.write_doc(doc, term_freq)?;
    }
    Ok(())
}

// Writes the documents below `count`, each with count 3.
fn write_below<W: Write>(
    alloc: Global,
    mode: IndexRecordOption,
    count: u32,
    output: &mut CountingWriter<W>,
) -> Result<(), Fault>
    requires { count ≤ 256 }
{
    let mut serializer = PostingsSerializer::new(alloc, mode, None);
    add_below(&mut serializer, count, 3)?;
    serializer.close_term(count, output)
}

// Returns what is written for 128 documents with count 3.
fn block(alloc: Global, mode: IndexRecordOption) -> Result<Vec<u8>, Fault> {
    let mut output = CountingWriter::wrap(Vec::new(alloc));
    write_below(alloc, mode, 128, &mut output)?;
    Ok(output.finish())
}

static COUNTS_BEGIN: [u8; 9] = [0x88, 0x7F, 0, 0, 0, 0x40, 2, 0, 0];

// How blocks of each mode start, and their lengths.
static BLOCKS: [(IndexRecordOption, &[u8], usize); 3] = [
    (IndexRecordOption::Basic, &[0x85, 0x7F, 0, 0, 0, 0x40], 6),
    (
        IndexRecordOption::WithFreqs,
        &[0x88, 0x7F, 0, 0, 0, 0x40, 2, 0, 0, 0xAA],
        41,
    ),
    (
        IndexRecordOption::WithFreqsAndPositions,
        &[0x8C, 0x7F, 0, 0, 0, 0x40, 2, 0x80, 1, 0, 0, 0, 0, 0xAA],
        45,
    ),
];

#[test]
fn blocks_are_written(rt: HostRuntime) -> Result<(), Fail> {
    for (mode, begin, len) in &BLOCKS {
        let bytes = block(rt.alloc(), *mode)?;
        assert!(rt;
            bytes.starts_with(begin) && bytes.len() == *len,
            "{len} bytes"
        );
    }
    reads_documents_back();
    reads_postings_back();
    reads_uncounted_back();
    Ok(())
}

// Returns the result of writing 130 documents when a call fails, and the number of bytes written, if they are
// a prefix of `right`.
fn told_of_failing(
    alloc: Global,
    mode: IndexRecordOption,
    failing_call: u64,
    right: &[u8],
) -> (Result<(), Fault>, Option<usize>) {
    let mut output = CountingWriter::wrap(FailingWriter::new(alloc, failing_call));
    let answer = write_below(alloc, mode, 130, &mut output);
    let writer = output.finish();
    if !right.starts_with(writer.bytes()) {
        return (answer, None);
    }
    (answer, Some(writer.bytes().len()))
}

#[test]
fn a_failing_writer_is_told(rt: HostRuntime) {
    let mut counted = [0xAA; 45];
    counted[..9].copy_from_slice(&COUNTS_BEGIN);
    counted[41..].copy_from_slice(&[0x81, 0x81, 0x83, 0x83]);
    let rows: [(IndexRecordOption, &[u8], &[usize]); 2] = [
        (
            IndexRecordOption::Basic,
            &[0x85, 0x7F, 0, 0, 0, 0x40, 0x81, 0x81],
            &[8, 0, 1, 6, 8, 8],
        ),
        (
            IndexRecordOption::WithFreqs,
            &counted,
            &[45, 0, 1, 9, 41, 43, 45, 45],
        ),
    ];
    for (mode, right, lens) in rows {
        for (k, len) in lens.iter().enumerate() {
            let answer = if *len < right.len() {
                Err(Fault::Write)
            } else {
                Ok(())
            };
            let told = told_of_failing(rt.alloc(), mode, k as u64, right);
            assert!(rt; told == (answer, Some(*len)), "call {k}");
        }
    }
}

// Writes documents 0, 2 and 10 as a term, with the counts `first`, 2 and 3.
fn write_three<W: Write>(
    serializer: &mut PostingsSerializer,
    first: u32,
    output: &mut CountingWriter<W>,
) -> Result<(), Fault>
    requires new { serializer.old.docs ≡ [] }
    requires counted { IsTrue (has_freq serializer.old.skip_info) → 0 < first }
    requires covered { (doc : ℕ) → Covers serializer.old.norms doc }
    ensures docs { serializer.new.docs ≡ [] }
    ensures norms { serializer.new.norms ≡ serializer.old.norms }
{
    serializer.write_doc(0, first)?;
    serializer.write_doc(2, 2)?;
    serializer.write_doc(10, 3)?;
    serializer.close_term(3, output)
}

// Discards a document of an open term. Then writes a term without counts, one without documents and one with
// counts.
fn write_terms(
    serializer: &mut PostingsSerializer,
    output: &mut CountingWriter<Vec<u8>>,
) -> Result<(), Fault>
    requires new { serializer.old.docs ≡ [] }
    requires covered { (doc : ℕ) → Covers serializer.old.norms doc }
{
    serializer.write_doc(7, 1)?;
    serializer.new_term(3, false);
    write_three(serializer, 0, output)?;
    serializer.close_term(0, output)?;
    serializer.new_term(3, true);
    write_three(serializer, 1, output)
}

static TERMS: [u8; 9] = [0x80, 0x82, 0x88, 0x80, 0x82, 0x88, 0x81, 0x82, 0x83];

#[test]
fn terms_are_written_one_after_the_other(rt: HostRuntime) -> Result<(), Fail> {
    let norms = Some(FieldNormReader::constant(11, 10));
    let mut serializer = PostingsSerializer::new(rt.alloc(), IndexRecordOption::WithFreqs, norms);
    let mut output = CountingWriter::wrap(Vec::new(rt.alloc()));
    write_terms(&mut serializer, &mut output)?;
    assert!(rt; output.finish().as_slice() == TERMS.as_slice());
    Ok(())
}

// Returns the results for the document whose count makes the block's sum too large, and for the next one.
fn answers_to_sum(alloc: Global) -> Result<[Result<(), Fault>; 2], Fault> {
    let mode = IndexRecordOption::WithFreqsAndPositions;
    let mut serializer = PostingsSerializer::new(alloc, mode, None);
    add_below(&mut serializer, 127, 33_554_432)?;
    let sum = serializer.write_doc(127, 33_554_432);
    let Err(_) = sum else {
        return Ok([sum, sum]);
    };
    Ok([sum, serializer.write_doc(128, 1)])
}

// Returns the result of writing 128 documents with the same count.
fn answer_to_block(alloc: Global, mode: IndexRecordOption, term_freq: u32) -> Result<(), Fault>
    requires { 0 < term_freq }
{
    let mut serializer = PostingsSerializer::new(alloc, mode, None);
    add_below(&mut serializer, 128, term_freq)
}

#[test]
fn a_sum_of_counts_above_32_bits_is_refused(rt: HostRuntime) -> Result<(), Fail> {
    let limit = Err(Fault::Limit(LimitName::BlockFrequencySum));
    assert!(rt; answers_to_sum(rt.alloc())? == [limit, Err(Fault::SerializerClosed)]);
    // a sum below the limit, and a field without positions
    let mode = IndexRecordOption::WithFreqsAndPositions;
    let other = [
        answer_to_block(rt.alloc(), mode, 33_554_431),
        answer_to_block(rt.alloc(), IndexRecordOption::WithFreqs, 33_554_432),
    ];
    assert!(rt; other == [Ok(()); 2]);
    Ok(())
}

// Returns the results of writing a document, of closing its term while the writer fails, and of five more
// calls.
fn refusals(
    alloc: Global,
    output: &mut CountingWriter<FailingWriter>,
) -> ([Result<(), Fault>; 2], [Result<(), Fault>; 5]) {
    let mut serializer = PostingsSerializer::new(alloc, IndexRecordOption::Basic, None);
    serializer.new_term(1, false);
    let written = serializer.write_doc(1, 1);
    let Ok(_) = written else {
        return ([written; 2], [written; 5]);
    };
    let ended = serializer.close_term(1, output);
    let Err(_) = ended else {
        return ([written, ended], [ended; 5]);
    };
    let end = serializer.close_term(1, output);
    let first = serializer.write_doc(0, 1);
    let second = serializer.write_doc(0, 1);
    serializer.new_term(1, false);
    let third = serializer.write_doc(1, 1);
    let other = serializer.close_term(7, output);
    ([written, ended], [end, first, second, third, other])
}

#[test]
fn a_refused_serializer_is_closed(rt: HostRuntime) {
    let mut output = CountingWriter::wrap(FailingWriter::new(rt.alloc(), 1));
    let (answers, later) = refusals(rt.alloc(), &mut output);
    assert!(rt; answers == [Ok(()), Err(Fault::Write)]);
    // each further call may be made, and fails
    assert!(rt; later == [Err(Fault::SerializerClosed); 5]);
    assert!(rt; output.failed_calls() == 1);
}

// Writes an entry with a width of counts and a bound.
fn write_entry(
    skip: &mut SkipSerializer,
    last: (DocId, u8),
    tf_num_bits: u8,
    bound: (u8, u32),
) -> Result<(), Fault>
    requires { last.1 < 32 }
{
    skip.write_doc(last.0, last.1)?;
    skip.write_term_freq(tf_num_bits)?;
    skip.write_blockwand_max(bound.0, bound.1)
}

static TWO_ENTRIES: [u8; 10] = [1, 0, 0, 0, 0x42, 5, 0, 0, 0, 0x45];

static BOUNDED_ENTRIES: [u8; 16] = [1, 0, 0, 0, 0x42, 3, 0x0D, 3, 5, 0, 0, 0, 0x45, 2, 8, 2];

static TOTAL: [u8; 6] = [0x80, 1, 0, 0, 1, 255];

// Returns whether two entries have the expected bytes, how many bytes remain after `clear`, and whether
// entries with counts and bounds, and a sum with a bound, have theirs.
fn written_entries(skip: &mut SkipSerializer) -> Result<(bool, usize, [bool; 2]), Fault> {
    skip.write_doc(1, 2)?;
    skip.write_doc(5, 5)?;
    let two = skip.data() == TWO_ENTRIES.as_slice();
    skip.clear();
    let left = skip.data().len();
    write_entry(skip, (1, 2), 3, (13, 3))?;
    write_entry(skip, (5, 5), 2, (8, 2))?;
    let bounded = skip.data() == BOUNDED_ENTRIES.as_slice();
    skip.clear();
    skip.write_total_term_freq(384)?;
    skip.write_blockwand_max(1, 256)?;
    let total = skip.data() == TOTAL.as_slice();
    Ok((two, left, [bounded, total]))
}

#[test]
fn skip_entries_are_written(rt: HostRuntime) -> Result<(), Fail> {
    let mut skip = SkipSerializer::new(rt.alloc());
    let told = written_entries(&mut skip)?;
    assert!(rt; told == (true, 0, [true, true]));
    Ok(())
}

#[test]
fn widths_and_bounds_have_bytes(rt: HostRuntime) {
    let widths = [
        encode_bitwidth(5, false),
        encode_bitwidth(2, true),
        encode_bitwidth(2, false),
    ];
    assert!(rt; widths == [5, 0x42, 2]);
    assert!(rt; [decode_bitwidth(0x45), decode_bitwidth(0x9F)] == [(5, true), (31, false)]);
    let counts = [decode_block_wand_max_tf(254), decode_block_wand_max_tf(255)];
    assert!(rt; (encode_block_wand_max_tf(254), counts) == (254, [254, u32::MAX]));
    for count in [255, 256, 1_000_000, u32::MAX] {
        assert!(rt; encode_block_wand_max_tf(count) == 255);
    }
    for width in 0..32u8 {
        let codes = [encode_bitwidth(width, false), encode_bitwidth(width, true)];
        let read = [decode_bitwidth(codes[0]), decode_bitwidth(codes[1])];
        assert!(rt; read == [(width, false), (width, true)]);
    }
}

// Returns the last document of a block and of the previous one, and the block's byte offset.
fn place_of(skip: &SkipReader) -> (DocId, DocId, usize) {
    let (last, before) = (skip.last_doc_in_block(), skip.last_doc_in_previous_block());
    (last, before, skip.byte_offset())
}

// Reads two blocks, then four times the state after them, the last after a reset to no blocks.
fn read_entries() -> ([(DocId, DocId, usize); 4], [BlockInfo; 4]) {
    let mut skip = SkipReader::new(&TWO_ENTRIES, 259, IndexRecordOption::Basic);
    let first = place_of(&skip);
    skip.advance(&TWO_ENTRIES);
    let second = place_of(&skip);
    skip.advance(&TWO_ENTRIES);
    let (third, rest) = (place_of(&skip), skip.block_info());
    skip.advance(&TWO_ENTRIES);
    let (fourth, end) = (place_of(&skip), skip.block_info());
    skip.advance(&TWO_ENTRIES);
    let after = skip.block_info();
    skip.reset(&[], 7);
    (
        [first, second, third, fourth],
        [rest, end, after, skip.block_info()],
    )
}

// Reads the entry of the only block of 128 documents. Returns its last document, and the state after it.
fn read_last_entry() -> (DocId, BlockInfo) {
    let mut skip = SkipReader::new(&TWO_ENTRIES[..5], 128, IndexRecordOption::Basic);
    let last = skip.last_doc_in_block();
    skip.advance(&TWO_ENTRIES[..5]);
    (last, skip.block_info())
}

// Reads two blocks with counts, then three times the state after them.
fn read_counted() -> ([(DocId, DocId, usize); 3], [BlockInfo; 3]) {
    let mut skip = SkipReader::new(&BOUNDED_ENTRIES, 259, IndexRecordOption::WithFreqs);
    let first = place_of(&skip);
    skip.advance(&BOUNDED_ENTRIES);
    let second = place_of(&skip);
    skip.advance(&BOUNDED_ENTRIES);
    let (third, rest) = (place_of(&skip), skip.block_info());
    skip.advance(&BOUNDED_ENTRIES);
    let end = skip.block_info();
    skip.advance(&BOUNDED_ENTRIES);
    ([first, second, third], [rest, end, skip.block_info()])
}

#[test]
fn skip_entries_are_read(rt: HostRuntime) {
    let ([first, second, third, fourth], infos) = read_entries();
    let behind = (third.0, third.2, fourth.2);
    assert!(rt; [first, second] == [(1, 0, 0), (5, 1, 32)]);
    assert!(rt; behind == (TERMINATED, 112, usize::MAX));
    let ends = [
        BlockInfo::VInt { num_docs: 3 },
        BlockInfo::default(),
        BlockInfo::VInt { num_docs: 0 },
        BlockInfo::VInt { num_docs: 7 },
    ];
    assert!(rt; infos == ends);
    assert!(rt; read_last_entry() == (1, BlockInfo::VInt { num_docs: 0 }));
}

#[test]
fn entries_with_counts_are_read(rt: HostRuntime) {
    let ([first, second, third], infos) = read_counted();
    let places = [first.0, second.0];
    assert!(rt; (places, [first.2, second.2, third.2]) == ([1, 5], [0, 80, 192]));
    let ends = [
        BlockInfo::VInt { num_docs: 3 },
        BlockInfo::VInt { num_docs: 0 },
        BlockInfo::VInt { num_docs: 0 },
    ];
    assert!(rt; infos == ends);
}

static LONG_LIST: [u8; 14] = [0x8C, 0x7F, 0, 0, 0, 0x40, 2, 0x80, 1, 0, 0, 0, 0, 0xAA];

static WIDE_COUNTS: [u8; 9] = [0x88, 0x7F, 0, 0, 0, 0x40, 0x21, 0, 0];

static FEW_ENTRIES: [u8; 9] = [0x88, 0x7F, 0, 0, 0, 0x40, 0, 0, 0];

static CUT_LIST: [u8; 5] = [0x85, 0x7F, 0, 0, 0];

#[test]
fn a_skip_list_is_split(rt: HostRuntime) {
    let option = IndexRecordOption::WithFreqsAndPositions;
    let places = Some(SkipPlaces {
        skip_info: option,
        entries: 1,
        body: 13,
    });
    assert!(rt; split_into_skips_and_postings(128, &LONG_LIST, option) == places);
    // a width of counts above 32, missing entries, and a size beyond the bytes
    let wide = split_into_skips_and_postings(128, &WIDE_COUNTS, IndexRecordOption::WithFreqs);
    let few = split_into_skips_and_postings(128, &FEW_ENTRIES, option);
    let cut = split_into_skips_and_postings(128, &CUT_LIST, IndexRecordOption::Basic);
    assert!(rt; [wide, few, cut] == [None, None, None]);
}
