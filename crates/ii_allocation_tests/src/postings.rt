ghost use Rattle.std.specs.Prelude.{◌≤◌, length};

use ii_base::{CountingWriter, Fault, IndexRecordOption, Part};
use ii_io::vint;
use ii_layout::{BlockInfo, PostingsSerializer, SkipReader};
use std::alloc::Global;

const COUNT: u32 = 300;

const TERM_FREQ: u32 = 3;

// Two full blocks with an entry of 12 bytes each.
const SKIP_LIST_SIZE: usize = 24;

/// Writes the postings of the first 300 even documents, with count 3, for a field with positions. Then walks
/// their skip list.
pub fn read_back(alloc: Global) -> Result<String, Fault> {
    let bytes = written(alloc, COUNT)?;
    let Some((_, start)) = vint::read_u64(&bytes) else {
        return Err(Fault::Damaged(Part::Skip));
    };
    let skip = &bytes[start..];
    if skip.len() < SKIP_LIST_SIZE {
        return Err(Fault::Damaged(Part::Skip));
    }
    walked(alloc, skip)
}

// Lists the three blocks of the skip list.
fn walked(alloc: Global, skip: &[u8]) -> Result<String, Fault>
    requires { 24 ≤ length skip.now }
{
    let mut text = String::new(alloc);
    let mut reader = SkipReader::new(skip, COUNT, IndexRecordOption::WithFreqsAndPositions);
    push_block(&mut text, &reader)?;
    reader.advance(skip);
    push_block(&mut text, &reader)?;
    reader.advance(skip);
    push_block(&mut text, &reader)?;
    Ok(text)
}

// Appends a block of the skip list.
fn push_block(text: &mut String, reader: &SkipReader) -> Result<(), Fault> {
    let place = reader.byte_offset();
    match reader.block_info() {
        BlockInfo::BitPacked {
            doc_num_bits,
            tf_num_bits,
            tf_sum,
            ..
        } => {
            let last = reader.last_doc_in_block();
            write!(
                text,
                " up to {last} of widths {doc_num_bits} and {tf_num_bits}"
            )?;
            write!(text, " with counts {tf_sum} at {place}")?;
        }
        BlockInfo::VInt { num_docs } => write!(text, " {num_docs} more at {place}")?,
    }
    Ok(())
}

// Returns what is written for this many even documents with their counts.
fn written(alloc: Global, count: u32) -> Result<Vec<u8>, Fault>
    requires { count ≤ 1000 }
{
    let mut serializer = PostingsSerializer::new(
        alloc,
        IndexRecordOption::WithFreqsAndPositions,
        None,
    );
    serializer.new_term(count, true);
    for i in 0..count {
        serializer.write_doc(2 * i, TERM_FREQ)?;
    }
    let mut output = CountingWriter::wrap(Vec::new(alloc));
    serializer.close_term(count, &mut output)?;
    Ok(output.finish())
}
