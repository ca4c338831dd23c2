//! The tables of the files of a segment, by which ranges of these are checked.
ghost use Rattle.std.specs.Prelude.{◌≡◌, ◌++◌, IfOk, OnOk};
ghost use Rattle.std.specs.Option.{option_map};
ghost use Rattle.ii_segment_store.specs.BlockTables.{file_table, segment_tables, table_if};
ghost use Rattle.ii_segment_store.specs.Contents.{files_contents};

use crate::stored_segments::SegmentFiles;
use ii_block_file::BlockTable;
use std::alloc::{AllocError, Global};

// Returns the tables of the files of a segment, in the order in which `meta` lists these.
#[tactic(auto, unfolding(crate::specs::BlockTables::segment_tables))]
pub(crate) fn segment_tables(alloc: Global, segment: &SegmentFiles) -> Result<Vec<u8>, AllocError>
    ensures { IfOk result (λ v. v.items ≡ segment_tables (files_contents segment.now)) }
{
    let mut tables = Vec::new(alloc);
    push_table(alloc, &mut tables, segment.terms.as_slice())?;
    push_table(alloc, &mut tables, segment.postings.as_slice())?;
    push_table(alloc, &mut tables, segment.positions.as_slice())?;
    push_table(alloc, &mut tables, segment.fieldnorms.as_slice())?;
    push_table_if_some(alloc, &mut tables, &segment.counts)?;
    push_table_if_some(alloc, &mut tables, &segment.store)?;
    Ok(tables)
}

// Appends the table of a file that a segment may not have.
fn push_table_if_some(
    alloc: Global,
    tables: &mut Vec<u8>,
    bytes: &Option<Vec<u8>>,
) -> Result<(), AllocError>
    ensures { OnOk result (tables.new.items ≡ tables.old.items ++ table_if (option_map (λ v. v.items) bytes.now)) }
{
    match bytes {
        Some(bytes) => push_table(alloc, tables, bytes.as_slice()),
        None => Ok(()),
    }
}

// Appends the table of a file.
fn push_table(alloc: Global, tables: &mut Vec<u8>, bytes: &[u8]) -> Result<(), AllocError>
    ensures { OnOk result (tables.new.items ≡ tables.old.items ++ file_table bytes.now) }
{
    let table = BlockTable::of(alloc, bytes)?;
    tables.extend_from_slice(table.as_bytes())
}
