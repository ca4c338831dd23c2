use crate::index::{opened, word};
use crate::walked::three;
use ii_base::{Fault, Field, IndexRecordOption, Term};
use ii_docset::{DocSet, TERMINATED};
use ii_reader::InvertedIndexReader;
use ii_termstore::TermInfo;
use std::alloc::Global;

const FULL: IndexRecordOption = IndexRecordOption::WithFreqsAndPositions;

/// Resets cursors to another list. After an allocation failure they must be empty.
pub fn read_back(alloc: Global) -> Result<String, Fault> {
    let index = opened(alloc)?;
    let term = word(alloc, "be")?;
    let reader = index.reader(Field::from_field_id(0));
    let Some(info) = reader.get_term_info(&term) else {
        return Ok(String::from_str(alloc, " not there")?);
    };
    let documents = of_documents(reader, &info)?;
    let blocks = of_blocks(reader, &term, &info)?;
    match (documents, blocks) {
        (Some(documents), Some(blocks)) => {
            Ok(format!(in alloc; " documents {documents} blocks {blocks}")?)
        }
        _ => Ok(String::from_str(alloc, " some left")?),
    }
}

// Returns the number of documents of a cursor, or `None` if it isn't empty after a failure.
fn of_documents(reader: &InvertedIndexReader, info: &TermInfo) -> Result<Option<u32>, Fault> {
    let mut cursor = three()?;
    let step = reader.reset_postings_from_terminfo(info, FULL, &mut cursor);
    if step.is_err() && (cursor.doc() != TERMINATED || cursor.doc_freq() != 0) {
        return Ok(None);
    }
    step?;
    Ok(Some(cursor.doc_freq()))
}

// Returns the same for a block cursor.
fn of_blocks(
    reader: &InvertedIndexReader,
    term: &Term,
    info: &TermInfo,
) -> Result<Option<u32>, Fault> {
    let Some(mut cursor) = reader.read_block_postings(term, FULL)? else {
        return Ok(None);
    };
    let step = reader.reset_block_postings_from_terminfo(info, &mut cursor);
    if step.is_err() && cursor.doc_freq() != 0 {
        return Ok(None);
    }
    step?;
    Ok(Some(cursor.doc_freq()))
}
