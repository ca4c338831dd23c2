// A cursor over a term: its answers, and how often it decodes.
ghost use Rattle.std.specs.Prelude.{◌≡◌, ◌+◌, ◌*◌, ◌/◌, ◌^◌, ◌<◌, ◌≤◌, ◌++◌, ◌∷◌, ◌↔◌, ◌⊎◌, [], drop, length, map, min, not, take, Ok, Err, IfOk, IfErr, IfSome, IsOk, IsTrue, OnOk, OnErr, if◌then◌else◌};
ghost use Rattle.std.specs.List.{All, sum};
ghost use Rattle.ii_io.specs.Faults.{OnlyMemory};
ghost use Rattle.ii_io.specs.Parts.{part_of};
ghost use Rattle.ii_base.specs.Entries.{Entry, docs_of};
ghost use Rattle.ii_docset.specs.Calls.{IsLawful, answers_in, answers_to, counts_asked, num_asked, rest_after};
ghost use Rattle.ii_docset.specs.Cursor.{IsCurrent, IsDangerAnswer, IsTarget, doc_at, from_doc, positions_at, term_freq_at};
ghost use Rattle.ii_layout.specs.PositionReader.{deltas_of};
ghost use Rattle.ii_layout.specs.TermList.{term_list};
ghost use Rattle.ii_check.specs.CheckedPostings.{is_read};
ghost use Rattle.ii_reader.specs.LoadedPostings.{num_positions};
ghost use Rattle.ii_promises.specs.DecodedBlocks.{DecodesNoneTwice, DecodesNewBlock, HasDecodedOnce};

use bytes::Bytes;
use ii_ram::{
    COLLECT_BLOCK_BUFFER_LEN, CursorCall, DocId, DocSet, Fault, IndexRecordOption, LayoutFault,
    Lent, LoadedPostings, Postings, SeekDangerResult, SeekOnce, SegmentPostings, Walk, walk,
};
use std::alloc::Global;

/// Any bytes open as the list that the layout relation gives. If it gives none, the first corrupt part
/// is returned. All documents remain. To validate documents and term frequencies, each block of them is
/// decoded at most once; a list of one block is decoded once for this and for reading. To validate positions,
/// each full block of them is decoded at most once, and one block each of documents and of term frequencies;
/// if the sum of all deltas exceeds 32 bits, all blocks again. After that, at most one block each of documents,
/// term frequencies and positions is decoded, and at most one skip entry read.
pub fn any_bytes_open_as_their_list(
    doc_freq: u32,
    postings: Bytes,
    positions: Option<Bytes>,
    recorded: IndexRecordOption,
    requested: IndexRecordOption,
) -> Result<SegmentPostings, LayoutFault>
    ensures list { IfOk result (λ cursor. term_list recorded requested doc_freq postings positions ≡ Ok cursor.rest) }
    ensures fault { IfErr result (λ fault. term_list recorded requested doc_freq postings positions ≡ Err (part_of fault)) }
    ensures many { IfOk result (λ cursor. length cursor.rest ≡ doc_freq) }
    ensures at_front { IfOk result (λ cursor. (cursor.doc_freq ≡ doc_freq) × (cursor.block ≡ 0)) }
    ensures decodes { IfOk result (λ cursor. (cursor.doc_decodes ≤ 1) × (cursor.freq_decodes ≤ 1) × (cursor.position_decodes ≤ 1)) }
    ensures entries { IfOk result (λ cursor. cursor.entries_read ≤ 1) }
    // What is decoded to validate it.
    ensures validation { IfOk result (λ cursor. (cursor.checked.docs ≤ (doc_freq + 127) / 128) × (cursor.checked.freqs ≤ (doc_freq + 127) / 128)) }
    ensures short { doc_freq < 128 → IfOk result (λ cursor. (cursor.checked.docs ≡ 0) × (cursor.checked.freqs ≡ 0)) }
    ensures position_lists { IfOk result (λ cursor. (cursor.positions_checked.docs ≤ doc_freq / 128 + 2) × (cursor.positions_checked.freqs ≤ doc_freq / 128 + 2)) }
    ensures position_blocks { IfOk result (λ cursor. IfSome positions (λ bytes. cursor.positions_checked.positions ≤ 2 * (length (deltas_of bytes) / 128) + 2)) }
    ensures small_sum { IfOk result (λ cursor. IfSome positions (λ bytes. sum (deltas_of bytes) < 2 ^ 32
        → (cursor.positions_checked.docs ≤ 1) × (cursor.positions_checked.freqs ≤ 1) × (cursor.positions_checked.positions ≤ length (deltas_of bytes) / 128))) }
{
    SegmentPostings::open(doc_freq, postings, positions, recorded, requested)
}

/// Bytes that are known to give a list open as that list, and never fail. All documents remain.
/// Opening decodes at most one block each of documents, term frequencies and positions, and no block to
/// validate them.
pub fn known_lists_are_never_refused(
    doc_freq: u32,
    postings: Bytes,
    positions: Option<Bytes>,
    recorded: IndexRecordOption,
    requested: IndexRecordOption,
) -> SegmentPostings
    requires { IsOk (term_list recorded requested doc_freq postings positions) }
    ensures list { term_list recorded requested doc_freq postings positions ≡ Ok result.rest }
    ensures many { length result.rest ≡ doc_freq }
    ensures decodes { (result.doc_decodes ≤ 1) × (result.freq_decodes ≤ 1) × (result.position_decodes ≤ 1) }
    ensures no_validation { (result.checked.docs ≡ 0) × (result.checked.freqs ≡ 0) × (result.positions_checked.docs ≡ 0) × (result.positions_checked.freqs ≡ 0) × (result.positions_checked.positions ≡ 0) }
{
    SegmentPostings::open_known(doc_freq, postings, positions, recorded, requested)
}

/// `reset` opens other bytes as `open` does. If they are corrupt, the cursor has no documents, and can be
/// reset again.
pub fn reset_opens_anew(
    cursor: &mut SegmentPostings,
    doc_freq: u32,
    postings: Bytes,
    positions: Option<Bytes>,
    recorded: IndexRecordOption,
    requested: IndexRecordOption,
) -> Result<(), LayoutFault>
    ensures list { OnOk result (term_list recorded requested doc_freq postings positions ≡ Ok cursor.new.rest) }
    ensures fault { IfErr result (λ fault. term_list recorded requested doc_freq postings positions ≡ Err (part_of fault)) }
    ensures emptied { OnErr result (cursor.new.rest ≡ []) }
    ensures first { cursor.new.block ≡ 0 }
    ensures decodes { (cursor.new.doc_decodes ≤ 1) × (cursor.new.freq_decodes ≤ 1) × (cursor.new.position_decodes ≤ 1) }
    ensures entries { cursor.new.entries_read ≤ 1 }
    ensures validation { (cursor.new.checked.docs ≤ (doc_freq + 127) / 128) × (cursor.new.checked.freqs ≤ (doc_freq + 127) / 128) }
    ensures position_lists { (cursor.new.positions_checked.docs ≤ doc_freq / 128 + 2) × (cursor.new.positions_checked.freqs ≤ doc_freq / 128 + 2) }
    ensures position_blocks { IfSome positions (λ bytes. cursor.new.positions_checked.positions ≤ 2 * (length (deltas_of bytes) / 128) + 2) }
{
    cursor.reset(doc_freq, postings, positions, recorded, requested)
}

/// Documents and term frequencies have been decoded at most once for each block up to the current
/// one. Skip entries have been read at most once for each full block of these.
pub fn decodes_are_few(cursor: &SegmentPostings) -> DocId
    ensures docs { cursor.now.doc_decodes ≤ cursor.now.block + 1 }
    ensures counts { cursor.now.freq_decodes ≤ cursor.now.block + 1 }
    ensures entries { cursor.now.entries_read ≤ cursor.now.block + 1 }
    ensures full { cursor.now.entries_read ≤ cursor.now.doc_freq / 128 }
    ensures block { cursor.now.block ≤ cursor.now.doc_freq / 128 + 1 }
    ensures doc { result ≡ doc_at cursor.now.rest }
{
    cursor.doc()
}

/// No block of documents or of term frequencies has been decoded twice: each is listed once, and there are
/// as many as were counted. All are at most the current one.
pub fn no_block_is_decoded_twice(cursor: &SegmentPostings) -> DocId
    ensures docs { HasDecodedOnce cursor.now.block cursor.now.doc_blocks }
    ensures counts { HasDecodedOnce cursor.now.block cursor.now.freq_blocks }
    ensures all_docs { length cursor.now.doc_blocks ≡ cursor.now.doc_decodes }
    ensures all_counts { length cursor.now.freq_blocks ≡ cursor.now.freq_decodes }
    ensures doc { result ≡ doc_at cursor.now.rest }
{
    cursor.doc()
}

/// A cursor that was just opened has decoded the first block of its documents, and that of its term
/// frequencies if they are read, and no others.
pub fn opening_decodes_the_first_block(
    doc_freq: u32,
    postings: Bytes,
    positions: Option<Bytes>,
    recorded: IndexRecordOption,
    requested: IndexRecordOption,
) -> Result<SegmentPostings, LayoutFault>
    ensures none { doc_freq ≡ 0 → IfOk result (λ cursor. (cursor.doc_blocks ≡ []) × (cursor.freq_blocks ≡ [])) }
    ensures docs { 0 < doc_freq → IfOk result (λ cursor. cursor.doc_blocks ≡ 0 ∷ []) }
    ensures counts { 0 < doc_freq → IfOk result (λ cursor. cursor.freq_blocks ≡ (if is_read cursor.freq_reading then 0 ∷ [] else [])) }
{
    SegmentPostings::open(doc_freq, postings, positions, recorded, requested)
}

/// `advance` passes one document and at most one block. It decodes at most one block of documents and
/// one of term frequencies: the new one, if the cursor moved to it. It decodes no positions.
pub fn advance_decodes_one_block(cursor: &mut SegmentPostings) -> DocId
    ensures doc { result ≡ doc_at cursor.new.rest }
    ensures rest { cursor.new.rest ≡ drop 1 cursor.old.rest }
    ensures block { cursor.new.block ≤ cursor.old.block + 1 }

    // What it decodes.
    ensures docs { cursor.new.doc_decodes ≤ cursor.old.doc_decodes + 1 }
    ensures counts { cursor.new.freq_decodes ≤ cursor.old.freq_decodes + 1 }
    ensures blocks { DecodesNewBlock cursor.old.block cursor.new.block cursor.old.doc_blocks cursor.new.doc_blocks × DecodesNewBlock cursor.old.block cursor.new.block cursor.old.freq_blocks cursor.new.freq_blocks }
    ensures positions { cursor.new.position_decodes ≡ cursor.old.position_decodes }
    ensures validation { (cursor.new.checked ≡ cursor.old.checked) × (cursor.new.positions_checked ≡ cursor.old.positions_checked) }
    // Totals at the new block.
    ensures all_docs { cursor.new.doc_decodes ≤ cursor.new.block + 1 }
    ensures all_counts { cursor.new.freq_decodes ≤ cursor.new.block + 1 }
    ensures all_entries { cursor.new.entries_read ≤ min (cursor.new.block + 1) (cursor.new.doc_freq / 128) }
{
    cursor.advance()
}

/// `seek` passes the documents below the target. However many blocks it passes, it decodes at most one
/// block of documents and one of term frequencies: the new one, if the cursor moved to it. It decodes no
/// positions.
pub fn seek_decodes_one_block(cursor: &mut SegmentPostings, target: DocId) -> DocId
    requires { IsTarget target cursor.old.rest }
    ensures doc { result ≡ doc_at cursor.new.rest }
    ensures rest { cursor.new.rest ≡ from_doc target cursor.old.rest }

    // What it decodes.
    ensures docs { cursor.new.doc_decodes ≤ cursor.old.doc_decodes + 1 }
    ensures counts { cursor.new.freq_decodes ≤ cursor.old.freq_decodes + 1 }
    ensures blocks { DecodesNewBlock cursor.old.block cursor.new.block cursor.old.doc_blocks cursor.new.doc_blocks × DecodesNewBlock cursor.old.block cursor.new.block cursor.old.freq_blocks cursor.new.freq_blocks }
    ensures positions { cursor.new.position_decodes ≡ cursor.old.position_decodes }
    ensures validation { (cursor.new.checked ≡ cursor.old.checked) × (cursor.new.positions_checked ≡ cursor.old.positions_checked) }
    // Totals at the new block.
    ensures all_docs { cursor.new.doc_decodes ≤ cursor.new.block + 1 }
    ensures all_counts { cursor.new.freq_decodes ≤ cursor.new.block + 1 }
    ensures all_entries { cursor.new.entries_read ≤ min (cursor.new.block + 1) (cursor.new.doc_freq / 128) }
{
    cursor.seek(target)
}

/// Reading the positions of a document with term frequency m decodes at most m / 128 + 2 blocks of
/// positions, and no others. If an allocation fails, the output and the list are unchanged.
pub fn positions_decode_few_blocks(
    cursor: &mut SegmentPostings,
    offset: u32,
    output: &mut Vec<u32>,
) -> Result<(), Fault>
    requires current { doc_at cursor.old.rest < 2147483647 }
    requires fits { All (λ p. p + offset < 2 ^ 32) (positions_at cursor.old.rest) }
    ensures told { OnOk result (output.new.items ≡ output.old.items ++ map (λ p. p + offset) (positions_at cursor.old.rest)) }
    ensures refused { OnErr result ((output.new.items ≡ output.old.items) × (result ≡ Err Fault.OutOfMemory)) }
    ensures stays { cursor.new.rest ≡ cursor.old.rest }
    ensures positions { cursor.new.position_decodes ≤ cursor.old.position_decodes + term_freq_at (not (is_read cursor.old.freq_reading)) cursor.old.rest / 128 + 2 }
    ensures others { (cursor.new.doc_decodes ≡ cursor.old.doc_decodes) × (cursor.new.freq_decodes ≡ cursor.old.freq_decodes) × (cursor.new.entries_read ≡ cursor.old.entries_read) }
{
    cursor.append_positions_with_offset(offset, output)
}

/// The same bound holds if the positions replace the output.
pub fn positions_alone_decode_few_blocks(
    cursor: &mut SegmentPostings,
    output: &mut Vec<u32>,
) -> Result<(), Fault>
    requires { doc_at cursor.old.rest < 2147483647 }
    ensures told { OnOk result (output.new.items ≡ positions_at cursor.old.rest) }
    ensures refused { OnErr result ((output.new.items ≡ []) × (result ≡ Err Fault.OutOfMemory)) }
    ensures stays { cursor.new.rest ≡ cursor.old.rest }
    ensures positions { cursor.new.position_decodes ≤ cursor.old.position_decodes + term_freq_at (not (is_read cursor.old.freq_reading)) cursor.old.rest / 128 + 2 }
{
    cursor.positions(output)
}

/// The same bound holds if they replace the output with an offset.
pub fn positions_with_offset_decode_few_blocks(
    cursor: &mut SegmentPostings,
    offset: u32,
    output: &mut Vec<u32>,
) -> Result<(), Fault>
    requires current { doc_at cursor.old.rest < 2147483647 }
    requires fits { All (λ p. p + offset < 2 ^ 32) (positions_at cursor.old.rest) }
    ensures told { OnOk result (output.new.items ≡ map (λ p. p + offset) (positions_at cursor.old.rest)) }
    ensures refused { OnErr result ((output.new.items ≡ []) × (result ≡ Err Fault.OutOfMemory)) }
    ensures stays { cursor.new.rest ≡ cursor.old.rest }
    ensures positions { cursor.new.position_decodes ≤ cursor.old.position_decodes + term_freq_at (not (is_read cursor.old.freq_reading)) cursor.old.rest / 128 + 2 }
{
    cursor.positions_with_offset(offset, output)
}

/// Asking for one document decodes no positions. It decodes only blocks after the old one, up to the new
/// one, and none of them twice.
pub fn asking_for_a_document_decodes_no_positions(
    cursor: &mut SegmentPostings,
    target: DocId,
) -> SeekDangerResult
    requires { target ≤ 2147483647 }
    ensures answer { IsDangerAnswer result target cursor.new.rest }
    ensures each_docs { DecodesNoneTwice cursor.old.block cursor.new.block cursor.old.doc_blocks cursor.new.doc_blocks }
    ensures each_counts { DecodesNoneTwice cursor.old.block cursor.new.block cursor.old.freq_blocks cursor.new.freq_blocks }
    ensures docs { cursor.new.doc_decodes + cursor.old.block ≤ cursor.old.doc_decodes + cursor.new.block }
    ensures counts { cursor.new.freq_decodes + cursor.old.block ≤ cursor.old.freq_decodes + cursor.new.block }
    ensures positions { cursor.new.position_decodes ≡ cursor.old.position_decodes }
{
    cursor.seek_danger(target)
}

/// Reading the next 64 documents decodes no positions, only blocks after the old one, up to the new one,
/// and none of them twice.
pub fn filling_decodes_no_positions(
    cursor: &mut SegmentPostings,
    buffer: &mut [DocId; COLLECT_BLOCK_BUFFER_LEN],
) -> usize
    ensures many { result ≡ min 64 (length cursor.old.rest) }
    ensures rest { cursor.new.rest ≡ drop 64 cursor.old.rest }
    ensures each_docs { DecodesNoneTwice cursor.old.block cursor.new.block cursor.old.doc_blocks cursor.new.doc_blocks }
    ensures each_counts { DecodesNoneTwice cursor.old.block cursor.new.block cursor.old.freq_blocks cursor.new.freq_blocks }
    ensures docs { cursor.new.doc_decodes + cursor.old.block ≤ cursor.old.doc_decodes + cursor.new.block }
    ensures counts { cursor.new.freq_decodes + cursor.old.block ≤ cursor.old.freq_decodes + cursor.new.block }
    ensures positions { cursor.new.position_decodes ≡ cursor.old.position_decodes }
{
    cursor.fill_buffer(buffer)
}

/// Counting the remaining documents decodes no positions, only blocks after the old one, up to the new
/// one, and none of them twice.
pub fn counting_decodes_no_positions(cursor: &mut SegmentPostings) -> u32
    ensures many { result ≡ length cursor.old.rest }
    ensures each_docs { DecodesNoneTwice cursor.old.block cursor.new.block cursor.old.doc_blocks cursor.new.doc_blocks }
    ensures each_counts { DecodesNoneTwice cursor.old.block cursor.new.block cursor.old.freq_blocks cursor.new.freq_blocks }
    ensures docs { cursor.new.doc_decodes + cursor.old.block ≤ cursor.old.doc_decodes + cursor.new.block }
    ensures counts { cursor.new.freq_decodes + cursor.old.block ≤ cursor.old.freq_decodes + cursor.new.block }
    ensures positions { cursor.new.position_decodes ≡ cursor.old.position_decodes }
{
    cursor.count_including_deleted()
}

/// The hint of a cursor is the number of its term's documents.
pub fn cursors_hint_at_their_documents(cursor: &SegmentPostings) -> (u32, u64)
    ensures hint { result.0 ≡ cursor.now.doc_freq }
    ensures cost { result.1 ≡ cursor.now.doc_freq }
{
    (cursor.size_hint(), cursor.cost())
}

/// The hint of a cursor in memory is the number of its documents.
pub fn loaded_cursors_hint_at_their_documents(cursor: &LoadedPostings) -> (u32, u64)
    ensures hint { result.0 ≡ cursor.now.num_docs }
    ensures cost { result.1 ≡ cursor.now.num_docs }
{
    (cursor.size_hint(), cursor.cost())
}

/// A borrowed cursor has the same hint.
pub fn lent_cursors_hint_alike(cursor: &mut SegmentPostings) -> (u32, u64)
    ensures hint { result.0 ≡ cursor.old.doc_freq }
    ensures cost { result.1 ≡ cursor.old.doc_freq }
{
    let lent = Lent { inner: cursor };
    (lent.size_hint(), lent.cost())
}

/// `seek` through a borrowed cursor decodes documents and term frequencies at most once for each
/// block that the cursor passes, and no positions.
pub fn lent_cursors_seek_as_lazily(cursor: &mut SegmentPostings, target: DocId) -> DocId
    requires { IsTarget target cursor.old.rest }
    ensures doc { result ≡ doc_at cursor.new.rest }
    ensures rest { cursor.new.rest ≡ from_doc target cursor.old.rest }
    ensures docs { cursor.new.doc_decodes + cursor.old.block ≤ cursor.old.doc_decodes + cursor.new.block }
    ensures counts { cursor.new.freq_decodes + cursor.old.block ≤ cursor.old.freq_decodes + cursor.new.block }
    ensures positions { cursor.new.position_decodes ≡ cursor.old.position_decodes }
{
    let mut lent = Lent { inner: cursor };
    lent.seek(target)
}

/// `seek_once` through a borrowed cursor decodes at most one block of documents and one of term
/// frequencies, however many blocks it passes: the new one, if the cursor moved to it.
pub fn lent_cursors_seek_once(cursor: &mut SegmentPostings, target: DocId) -> DocId
    requires { IsTarget target cursor.old.rest }
    ensures doc { result ≡ doc_at cursor.new.rest }
    ensures rest { cursor.new.rest ≡ from_doc target cursor.old.rest }
    ensures blocks { DecodesNewBlock cursor.old.block cursor.new.block cursor.old.doc_blocks cursor.new.doc_blocks × DecodesNewBlock cursor.old.block cursor.new.block cursor.old.freq_blocks cursor.new.freq_blocks }
    ensures docs { cursor.new.doc_decodes ≤ cursor.old.doc_decodes + 1 }
    ensures counts { cursor.new.freq_decodes ≤ cursor.old.freq_decodes + 1 }
    ensures positions { cursor.new.position_decodes ≡ cursor.old.position_decodes }
{
    let mut lent = Lent { inner: cursor };
    lent.seek_once(target)
}

/// The same holds for `seek_once` through a box.
pub fn boxed_cursors_seek_once(cursor: &mut Box<SegmentPostings>, target: DocId) -> DocId
    requires { IsTarget target cursor.old.value.rest }
    ensures doc { result ≡ doc_at cursor.new.value.rest }
    ensures rest { cursor.new.value.rest ≡ from_doc target cursor.old.value.rest }
    ensures blocks { DecodesNewBlock cursor.old.value.block cursor.new.value.block cursor.old.value.doc_blocks cursor.new.value.doc_blocks × DecodesNewBlock cursor.old.value.block cursor.new.value.block cursor.old.value.freq_blocks cursor.new.value.freq_blocks }
    ensures docs { cursor.new.value.doc_decodes ≤ cursor.old.value.doc_decodes + 1 }
    ensures counts { cursor.new.value.freq_decodes ≤ cursor.old.value.freq_decodes + 1 }
    ensures positions { cursor.new.value.position_decodes ≡ cursor.old.value.position_decodes }
{
    cursor.seek_once(target)
}

/// A boxed cursor has the same hint.
pub fn boxed_cursors_hint_alike(cursor: &Box<SegmentPostings>) -> (u32, u64)
    ensures hint { result.0 ≡ cursor.now.value.doc_freq }
    ensures cost { result.1 ≡ cursor.now.value.doc_freq }
{
    (cursor.size_hint(), cursor.cost())
}

/// A box of any cursor has the same hint.
pub fn cursors_of_any_kind_hint_alike(alloc: Global, cursor: SegmentPostings) -> Result<u32, Fault>
    ensures hint { IfOk result (λ n. n ≡ cursor.doc_freq) }
    ensures only { OnlyMemory result }
{
    let any: Box<dyn Postings> = Box::new(alloc, cursor)?;
    Ok(any.size_hint())
}

/// A lawful run of calls gets the answers that the list gives. The cursor only moves forward. It
/// decodes only blocks of documents and term frequencies after the old one, up to the new one, and none of
/// them twice. The calls for
/// positions together decode at most two blocks of positions for each such call, and one for each 128
/// of the total term frequency of their documents. Other calls decode no positions.
pub fn calls_are_answered_as_over_the_list(
    alloc: Global,
    cursor: &mut SegmentPostings,
    calls: &[CursorCall],
) -> Walk
    requires { IsLawful calls.now (not (is_read cursor.old.freq_reading)) cursor.old.rest }
    ensures answers { IsTrue result.complete → answers_in result ≡ answers_to calls.now (not (is_read cursor.old.freq_reading)) cursor.old.rest }
    ensures beginning { answers_in result ≡ take (length (answers_in result)) (answers_to calls.now (not (is_read cursor.old.freq_reading)) cursor.old.rest) }
    ensures complete { IsTrue result.complete ↔ (length (answers_in result) ≡ length calls.now) }
    ensures rest { IsTrue result.complete → cursor.new.rest ≡ rest_after calls.now cursor.old.rest }

    // Where the cursor goes, and what it decodes.
    ensures forward { cursor.old.block ≤ cursor.new.block }
    ensures each_docs { DecodesNoneTwice cursor.old.block cursor.new.block cursor.old.doc_blocks cursor.new.doc_blocks }
    ensures each_counts { DecodesNoneTwice cursor.old.block cursor.new.block cursor.old.freq_blocks cursor.new.freq_blocks }
    ensures docs { cursor.new.doc_decodes + cursor.old.block ≤ cursor.old.doc_decodes + cursor.new.block }
    ensures counts { cursor.new.freq_decodes + cursor.old.block ≤ cursor.old.freq_decodes + cursor.new.block }
    ensures positions { cursor.new.position_decodes ≤ cursor.old.position_decodes + counts_asked calls.now (not (is_read cursor.old.freq_reading)) cursor.old.rest / 128 + 2 * num_asked calls.now }
{
    walk(alloc, cursor, calls)
}

/// A document has at most as many positions as its term frequency.
pub fn positions_are_few<P: Postings>(cursor: &P) -> u32
    requires { IsCurrent (P.rest cursor.now) }
    ensures { length (positions_at (P.rest cursor.now)) ≤ result }
{
    cursor.term_freq()
}

/// As many positions of the current document as fit are copied, from the first on. What follows them is
/// unchanged, and the cursor doesn't move.
pub fn first_positions_are_copied<P: Postings>(cursor: &mut P, output: &mut [u32]) -> usize
    requires { IsCurrent (P.rest cursor.old) }
    ensures count { result ≡ min (length output.old) (length (positions_at (P.rest cursor.old))) }
    ensures copied { output.new ≡ take (length output.old) (positions_at (P.rest cursor.old)) ++ drop (length (positions_at (P.rest cursor.old))) output.old }
    ensures stays { P.rest cursor.new ≡ P.rest cursor.old }
{
    cursor.read_positions(0, 0, output)
}

/// A clone is the same cursor. Only an allocation can fail.
pub fn clones_are_the_same(cursor: &SegmentPostings) -> Result<SegmentPostings, Fault>
    ensures same { IfOk result (λ copy. (copy.rest ≡ cursor.now.rest) × (copy.doc_decodes ≡ cursor.now.doc_decodes)) }
    ensures blocks { IfOk result (λ copy. (copy.doc_blocks ≡ cursor.now.doc_blocks) × (copy.freq_blocks ≡ cursor.now.freq_blocks)) }
    ensures only { IfErr result (λ fault. fault ≡ Fault.OutOfMemory) }
{
    cursor.clone()
}

/// What remains of a cursor is loaded: each document with its positions, whose number is its term
/// frequency. The cursor is then at its end. Without memory, or with 2^32 positions and more, nothing is loaded.
pub fn what_remains_is_loaded(
    alloc: Global,
    cursor: &mut SegmentPostings,
) -> Result<LoadedPostings, Fault>
    ensures docs { IfOk result (λ loaded. docs_of loaded.rest ≡ docs_of cursor.old.rest) }
    ensures counts { IfOk result (λ loaded. map (λ (e : Entry). e.term_freq) loaded.rest ≡ map (λ (e : Entry). length e.positions) cursor.old.rest) }
    ensures positions { IfOk result (λ loaded. map (λ (e : Entry). e.positions) loaded.rest ≡ map (λ (e : Entry). e.positions) cursor.old.rest) }
    ensures ends { OnOk result (cursor.new.rest ≡ []) }
    ensures fault { IfErr result (λ fault. (fault ≡ Fault.OutOfMemory) ⊎ (2 ^ 32 ≤ num_positions cursor.old.rest)) }
{
    LoadedPostings::load(alloc, cursor)
}
