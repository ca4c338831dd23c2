// A cursor over the blocks of a term: its contents, and how often it decodes.
ghost use Rattle.std.specs.Prelude.{◌≡◌, ◌+◌, ◌*◌, ◌/◌, ◌<◌, ◌≤◌, [], ℕ, drop, length, min, slice_index, take, Ok, Err, None, IfOk, IfErr, OnOk, OnErr};
ghost use Rattle.ii_io.specs.Parts.{part_of};
ghost use Rattle.ii_layout.specs.TermList.{docs_and_freqs};
ghost use Rattle.ii_promises.specs.DecodedBlocks.{DecodesNewBlock, HasDecodedOnce};

use bytes::Bytes;
use ii_ram::{BlockSegmentPostings, DocId, IndexRecordOption, LayoutFault};

/// Any bytes open as the documents and term frequencies that the layout relation gives. If it gives
/// none, the first corrupt part is returned. To validate the list, each block of it is decoded at most
/// once. After that, one block of documents is decoded if there is one, at most one of term frequencies,
/// and one skip entry is read if there is one.
pub fn any_bytes_open_as_their_documents(
    doc_freq: u32,
    bytes: Bytes,
    recorded: IndexRecordOption,
    requested: IndexRecordOption,
) -> Result<BlockSegmentPostings, LayoutFault>
    ensures list { IfOk result (λ cursor. docs_and_freqs recorded requested doc_freq bytes ≡ Ok (cursor.docs, cursor.freqs)) }
    ensures fault { IfErr result (λ fault. docs_and_freqs recorded requested doc_freq bytes ≡ Err (part_of fault)) }
    ensures many { IfOk result (λ cursor. length cursor.docs ≡ doc_freq) }
    ensures first { IfOk result (λ cursor. cursor.block ≡ 0) }
    ensures docs { IfOk result (λ cursor. cursor.doc_decodes ≤ 1) }
    ensures entries { IfOk result (λ cursor. cursor.entries_read ≤ 1) }
    ensures validation { IfOk result (λ cursor. (cursor.checked.docs ≤ (doc_freq + 127) / 128) × (cursor.checked.freqs ≤ (doc_freq + 127) / 128)) }
{
    BlockSegmentPostings::open(doc_freq, bytes, recorded, requested)
}

/// No block of documents or of term frequencies has been decoded twice: each is listed once, and there are
/// as many as were counted. All are at most the current one.
pub fn no_block_is_decoded_twice(cursor: &BlockSegmentPostings) -> &[DocId]
    ensures docs { HasDecodedOnce cursor.now.block cursor.now.doc_blocks }
    ensures counts { HasDecodedOnce cursor.now.block cursor.now.freq_blocks }
    ensures all_docs { length cursor.now.doc_blocks ≡ cursor.now.doc_decodes }
    ensures all_counts { length cursor.now.freq_blocks ≡ cursor.now.freq_decodes }
{
    cursor.docs()
}

/// Block b holds at most 128 documents, from index 128 * b on. Documents and term frequencies have
/// been decoded at most once for each block up to the current one. Skip entries have been read at
/// most once for each full block of these.
pub fn decodes_are_few(cursor: &BlockSegmentPostings) -> &[DocId]
    ensures block { result.now ≡ take 128 (drop (128 * cursor.now.block) cursor.now.docs) }
    ensures docs { cursor.now.doc_decodes ≤ cursor.now.block + 1 }
    ensures counts { cursor.now.freq_decodes ≤ cursor.now.block + 1 }
    ensures entries { cursor.now.entries_read ≤ cursor.now.block + 1 }
    ensures full { cursor.now.entries_read ≤ length cursor.now.docs / 128 }
{
    cursor.docs()
}

/// `advance` moves to the next block, or stays at the empty block after the last one. It decodes at
/// most one block of documents and one of term frequencies.
pub fn advance_decodes_one_block(cursor: &mut BlockSegmentPostings)
    ensures block { cursor.new.block ≡ min (cursor.old.block + 1) (length cursor.old.docs / 128 + 1) }
    ensures list { (cursor.new.docs ≡ cursor.old.docs) × (cursor.new.freqs ≡ cursor.old.freqs) }
    ensures docs { cursor.new.doc_decodes ≤ cursor.old.doc_decodes + 1 }
    ensures counts { cursor.new.freq_decodes ≤ cursor.old.freq_decodes + 1 }
    ensures blocks { DecodesNewBlock cursor.old.block cursor.new.block cursor.old.doc_blocks cursor.new.doc_blocks × DecodesNewBlock cursor.old.block cursor.new.block cursor.old.freq_blocks cursor.new.freq_blocks }
    // Totals at the new block.
    ensures all_docs { cursor.new.doc_decodes ≤ cursor.new.block + 1 }
    ensures all_counts { cursor.new.freq_decodes ≤ cursor.new.block + 1 }
    ensures all_entries { cursor.new.entries_read ≤ min (cursor.new.block + 1) (length cursor.new.docs / 128) }
{
    cursor.advance()
}

/// `seek` moves to the first block that doesn't end below the target, or to the last block. It
/// decodes at most one block of documents and one of term frequencies, and none if it stays.
pub fn seek_decodes_one_block(cursor: &mut BlockSegmentPostings, target: DocId) -> usize
    requires { target ≤ 2147483647 }
    ensures forward { cursor.old.block ≤ cursor.new.block }
    ensures before { (n : ℕ) → 128 * cursor.old.block ≤ n → n < 128 * cursor.new.block + result → slice_index cursor.old.docs n < target }
    ensures after { (n : ℕ) → 128 * cursor.new.block + result ≤ n → n < length cursor.old.docs → target ≤ slice_index cursor.old.docs n }
    ensures list { (cursor.new.docs ≡ cursor.old.docs) × (cursor.new.freqs ≡ cursor.old.freqs) }

    // What it decodes.
    ensures docs { cursor.new.doc_decodes ≤ cursor.old.doc_decodes + 1 }
    ensures counts { cursor.new.freq_decodes ≤ cursor.old.freq_decodes + 1 }
    ensures blocks { DecodesNewBlock cursor.old.block cursor.new.block cursor.old.doc_blocks cursor.new.doc_blocks × DecodesNewBlock cursor.old.block cursor.new.block cursor.old.freq_blocks cursor.new.freq_blocks }
    ensures stays { cursor.new.block ≡ cursor.old.block → (cursor.new.doc_decodes ≤ cursor.old.doc_decodes) × (cursor.new.freq_decodes ≤ cursor.old.freq_decodes) }
    // Totals at the new block.
    ensures all_docs { cursor.new.doc_decodes ≤ cursor.new.block + 1 }
    ensures all_counts { cursor.new.freq_decodes ≤ cursor.new.block + 1 }
    ensures all_entries { cursor.new.entries_read ≤ min (cursor.new.block + 1) (length cursor.new.docs / 128) }
{
    cursor.seek(target)
}

/// `reset` opens other bytes as `open` does. If they are corrupt, the cursor has no documents, keeps
/// its options, and can be reset again.
pub fn reset_opens_anew(
    cursor: &mut BlockSegmentPostings,
    doc_freq: u32,
    bytes: Bytes,
) -> Result<(), LayoutFault>
    ensures list { OnOk result (docs_and_freqs cursor.old.recorded cursor.old.requested doc_freq bytes ≡ Ok (cursor.new.docs, cursor.new.freqs)) }
    ensures fault { IfErr result (λ fault. docs_and_freqs cursor.old.recorded cursor.old.requested doc_freq bytes ≡ Err (part_of fault)) }
    ensures emptied { OnErr result ((cursor.new.docs ≡ []) × (cursor.new.freqs ≡ None)) }
    ensures options { (cursor.new.recorded ≡ cursor.old.recorded) × (cursor.new.requested ≡ cursor.old.requested) }
    ensures first { cursor.new.block ≡ 0 }
    ensures docs { cursor.new.doc_decodes ≤ 1 }
    ensures entries { cursor.new.entries_read ≤ 1 }
{
    cursor.reset(doc_freq, bytes)
}
