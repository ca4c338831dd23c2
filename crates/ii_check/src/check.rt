ghost use Rattle.std.specs.Prelude.{◌≡◌, ◌+◌, ◌*◌, ◌/◌, ◌%◌, ◌^◌, ◌&&◌, ◌||◌, ◌==◌, ◌<◌, ◌≤◌, ℕ, true, drop, length, slice_index, nat_le, nat_lt, is_some, IsTrue, IfOk, IfErr, IfSome, OnOk, Err};
ghost use Rattle.std.specs.List.{sum};
ghost use Rattle.std.specs.Option.{option_map};
ghost use Rattle.ii_io.specs.Parts.{part_of};
ghost use Rattle.ii_io.specs.Vints.{u32s_at};
ghost use Rattle.ii_base.specs.Options.{has_freq};
ghost use Rattle.ii_base.specs.declared.doc_id.TheConstants.{TERMINATED};
ghost use Rattle.ii_base.specs.Entries.{ascend_from};
ghost use Rattle.ii_codes.specs.BlockDecoder.{decodes_of};
ghost use Rattle.ii_codes.specs.Blocks.{least_first, sorted_block_at};
ghost use Rattle.ii_codes.specs.SortedVints.{sorted_vints_at};
ghost use Rattle.ii_layout.specs.Documents.{documents_at};
ghost use Rattle.ii_layout.specs.Frequencies.{bounds_counts, freqs_at, has_sum};
ghost use Rattle.ii_layout.specs.Postings.{postings};
ghost use Rattle.ii_layout.specs.SkipList.{entry_size};
ghost use Rattle.ii_check.specs.Check.{HoldsRow, after_rest, block_fits, block_freqs_in, fits_by, skip_list_of};
ghost use Rattle.ii_check.specs.CheckedPostings.{IsChecked, LoadsBlock, given};
ghost use Rattle.ii_check.specs.CheckedBlocks.{blocks_checked, freqs_checked, num_blocks};
ghost use Rattle.ii_check.specs.FreqReading.{reading_by};

use super::checked_blocks::CheckedBlocks;
use super::freq_reading_option::FreqReadingOption;
use super::load::NO_FREQ;
use super::validation::Validation;
use ii_base::{DocId, IndexRecordOption, LayoutFault, Part, TERMINATED};
use ii_codes::{BlockDecoder, COMPRESSION_BLOCK_SIZE, compressed_block_size, last_of_sorted_block};
use ii_io::GhostCounter;
use ii_layout::{
    BlockInfo, SkipPlaces, SkipReader, bytes_from, split_into_skips_and_postings, sum_of,
};

/// Validates the postings of a term. Returns where they lie in its bytes and whether its term frequencies are
/// read, or the first corrupt part. All documents are validated before any frequencies. Those of a short list
/// are then left in the decoders.
pub(crate) fn check_postings(
    doc_freq: u32,
    bytes: &[u8],
    record_option: IndexRecordOption,
    requested_option: IndexRecordOption,
    doc_decoder: &mut BlockDecoder,
    freq_decoder: &mut BlockDecoder,
    checked: &mut CheckedBlocks,
) -> Result<(SkipPlaces, FreqReadingOption), LayoutFault>
    ensures ok { IfOk result (λ found. IsChecked record_option requested_option doc_freq bytes.now found.0.skip_info found.0.entries found.0.body found.1) }
    ensures short { doc_freq < 128 → IfOk result (λ found. LoadsBlock (given record_option requested_option doc_freq bytes.now) 0 doc_decoder.old doc_decoder.new freq_decoder.old freq_decoder.new) }
    ensures err { IfErr result (λ fault. postings record_option requested_option doc_freq bytes.now ≡ Err (part_of fault)) }

    // Each block was decoded at most once, and counted.
    ensures doc_decodes { OnOk result (doc_decoder.new.decodes ≤ doc_decoder.old.decodes + num_blocks doc_freq) }
    ensures freq_decodes { OnOk result (freq_decoder.new.decodes ≤ freq_decoder.old.decodes + num_blocks doc_freq) }
    ensures docs_checked { OnOk result (checked.new.docs.value ≡ checked.old.docs.value + blocks_checked Validation.Complete doc_freq) }
    ensures freqs_checked { IfOk result (λ found. checked.new.freqs.value ≡ checked.old.freqs.value + freqs_checked Validation.Complete found.1 doc_freq) }
{
    let Some(places) = split_into_skips_and_postings(doc_freq, bytes, record_option) else {
        return Err(LayoutFault::Damaged(Part::Skip));
    };
    let skip_data = bytes_from(bytes, places.entries);
    let body = bytes_from(bytes, places.body);
    let Some(after) = after_documents(
        doc_decoder,
        doc_freq,
        places.skip_info,
        skip_data,
        body,
        &mut checked.docs,
    ) else {
        return Err(LayoutFault::Damaged(Part::Documents));
    };
    let reading = freq_reading_option(places.skip_info, requested_option, doc_freq, after);
    if !reading.is_read() {
        return Ok((places, reading));
    }
    if !has_freqs(
        freq_decoder,
        doc_freq,
        places.skip_info,
        skip_data,
        body,
        after,
        &mut checked.freqs,
    ) {
        return Err(LayoutFault::Damaged(Part::Frequencies));
    }
    Ok((places, reading))
}

/// Returns the bytes after the documents of a term, or `None` if the documents are corrupt. Each block must
/// be at its place and end with its entry's last document. All documents must ascend strictly below
/// `TERMINATED`. The last ones are then left in the decoder.
fn after_documents<'a>(
    decoder: &mut BlockDecoder,
    doc_freq: u32,
    skip_info: IndexRecordOption,
    skip_data: &[u8],
    body: &'a [u8],
    checked: &mut GhostCounter,
) -> Option<&'a [u8]>
    requires { entry_size skip_info * (doc_freq / 128) ≤ length skip_data.now }
    ensures after { option_map (λ rest. rest.now) result
        ≡ option_map (λ found. found.1) (documents_at (skip_list_of skip_info (doc_freq / 128) skip_data.now body.now) (doc_freq % 128)) }
    ensures short { doc_freq < 128 → IfSome result (λ rest. HoldsRow (sorted_vints_at 0 doc_freq body.now) TERMINATED decoder.old decoder.new) }
    ensures decodes { IfSome result (λ rest. decoder.new.decodes ≤ decoder.old.decodes + num_blocks doc_freq) }
    ensures checked { IfSome result (λ rest. checked.new.value ≡ checked.old.value + blocks_checked Validation.Complete doc_freq) }
{
    let mut skip = SkipReader::new(skip_data, doc_freq, skip_info);
    let mut least = 0;
    for _block in 0..doc_freq / COMPRESSION_BLOCK_SIZE as u32 {
        if !is_block(decoder, &skip, least, bytes_from(body, skip.byte_offset())) {
            return None;
        }
        least = skip.last_doc_in_block() + 1;
        skip.advance(skip_data);
        *checked = checked.next();
    }
    let bytes = bytes_from(body, skip.byte_offset());
    let Some(used) = end_of_rest(
        decoder,
        skip.last_doc_in_previous_block(),
        doc_freq % COMPRESSION_BLOCK_SIZE as u32,
        least,
        bytes,
    ) else {
        return None;
    };
    count_last(doc_freq, checked);
    Some(bytes_from(bytes, used))
}

// Counts the block after the full ones, if there are both: a list of one block is decoded once in all.
fn count_last(doc_freq: u32, checked: &mut GhostCounter)
    ensures { checked.new.value + doc_freq / 128 ≡ checked.old.value + blocks_checked Validation.Complete doc_freq }
{
    if doc_freq < COMPRESSION_BLOCK_SIZE as u32 {
        return;
    }
    if doc_freq % COMPRESSION_BLOCK_SIZE as u32 == 0 {
        return;
    }
    *checked = checked.next();
}

// Returns whether bytes begin with the skip reader's full block: one that ends with its entry's last document
// and ascends from `least` on. Strict deltas ascend, so the last document of such a block suffices.
fn is_block(decoder: &mut BlockDecoder, skip: &SkipReader, least: DocId, bytes: &[u8]) -> bool
    ensures decodes { decoder.new.decodes ≤ decoder.old.decodes + 1 }
    ensures fits { result
        ≡ block_fits skip.now.block_info skip.now.last_doc_in_previous_block skip.now.last_doc_in_block least bytes.now }
{
    let BlockInfo::BitPacked {
        doc_num_bits,
        strict_delta_encoded,
        ..
    } = skip.block_info()
    else {
        return false;
    };
    let before = skip.last_doc_in_previous_block();
    let last_doc = skip.last_doc_in_block();
    if strict_delta_encoded {
        if comes_after(least, before) {
            return is_strict_block(bytes, before, doc_num_bits, last_doc);
        }
    }
    let Ok(_) = decoder.try_uncompress_block_sorted(
        bytes,
        before,
        doc_num_bits,
        strict_delta_encoded,
    ) else {
        return false;
    };
    if decoder.output(COMPRESSION_BLOCK_SIZE - 1) != last_doc {
        return false;
    }
    ascend(decoder.output_array(), least)
}

// Returns whether each block of strict deltas after `before` begins at `least` or above.
fn comes_after(least: DocId, before: DocId) -> bool
    ensures { result ≡ nat_le least (least_first true before) }
{
    if before == 0 {
        return least == 0;
    }
    u64::from(least) <= u64::from(before) + 1
}

// Returns whether bytes begin with a block of strict deltas after `before` that ends with `last_doc`, below
// `TERMINATED`.
fn is_strict_block(bytes: &[u8], before: DocId, width: u8, last_doc: DocId) -> bool
    ensures { (least : ℕ) → least ≤ least_first true before
        → result ≡ fits_by (λ docs. slice_index docs 127 == last_doc && ascend_from least docs) (sorted_block_at true before width bytes.now) }
{
    let Some(last) = last_of_sorted_block(bytes, before, width, true) else {
        return false;
    };
    if last != last_doc {
        return false;
    }
    last < TERMINATED
}

// Returns how many bytes the last documents take, which must ascend from `least` on, or `None` if there are
// none. The decoder then holds them.
fn end_of_rest(
    decoder: &mut BlockDecoder,
    before: DocId,
    num_docs: u32,
    least: DocId,
    bytes: &[u8],
) -> Option<usize>
    requires { num_docs < 128 }
    ensures after { option_map (λ used. drop used bytes.now) result ≡ after_rest before num_docs least bytes.now }
    ensures holds { IfSome result (λ used. HoldsRow (sorted_vints_at before num_docs bytes.now) TERMINATED decoder.old decoder.new) }
    ensures decodes { IfSome result (λ used. decoder.new.decodes ≡ decoder.old.decodes + decodes_of num_docs) }
{
    let Ok(used) = decoder.try_uncompress_vint_sorted(bytes, before, num_docs as usize, TERMINATED)
    else {
        return None;
    };
    if ascend(decoder.output_array(), least) {
        Some(used)
    } else {
        None
    }
}

// Returns whether the documents ascend strictly, from `least` on and below `TERMINATED`.
fn ascend(docs: &[DocId], least: DocId) -> bool
    ensures { result ≡ ascend_from least docs.now }
{
    let mut next = least;
    let mut so_far = true;
    // The loop never exits early, so that several documents are compared at once.
    for doc in docs {
        so_far = so_far & (*doc >= next) & (*doc < TERMINATED);
        next = doc.wrapping_add(1);
    }
    so_far
}

// Returns what is done with the term frequencies of a term. It has some if its entries hold them or, in a
// short list, if bytes follow the documents.
pub(crate) fn freq_reading_option(
    skip_info: IndexRecordOption,
    requested_option: IndexRecordOption,
    doc_freq: u32,
    after: &[u8],
) -> FreqReadingOption
    ensures { result ≡ reading_by (has_freq skip_info) (has_freq requested_option)
        (has_freq skip_info && (nat_lt 0 (doc_freq / 128) || nat_lt 0 (length after.now))) }
{
    if !skip_info.has_freq() {
        return FreqReadingOption::NoFreq;
    }
    if !requested_option.has_freq() {
        return FreqReadingOption::SkipFreq;
    }
    if doc_freq / COMPRESSION_BLOCK_SIZE as u32 > 0 || !after.is_empty() {
        FreqReadingOption::ReadFreq
    } else {
        FreqReadingOption::NoFreq
    }
}

// Returns whether the term frequencies of a term are valid: those of each full block after its documents,
// with the sum and the bound in its entry, and the others after the last documents. The last ones are then
// left in the decoder.
fn has_freqs(
    decoder: &mut BlockDecoder,
    doc_freq: u32,
    skip_info: IndexRecordOption,
    skip_data: &[u8],
    body: &[u8],
    after: &[u8],
    checked: &mut GhostCounter,
) -> bool
    requires { entry_size skip_info * (doc_freq / 128) ≤ length skip_data.now }
    ensures has { result
        ≡ is_some (freqs_at (skip_list_of skip_info (doc_freq / 128) skip_data.now body.now) (doc_freq % 128) after.now) }
    ensures short { doc_freq < 128 → IsTrue result → HoldsRow (u32s_at doc_freq after.now) 1 decoder.old decoder.new }
    ensures decodes { IsTrue result → decoder.new.decodes ≤ decoder.old.decodes + num_blocks doc_freq }
    ensures checked { IsTrue result → checked.new.value ≡ checked.old.value + blocks_checked Validation.Complete doc_freq }
{
    let mut skip = SkipReader::new(skip_data, doc_freq, skip_info);
    for _block in 0..doc_freq / COMPRESSION_BLOCK_SIZE as u32 {
        let bytes = bytes_from(body, skip.byte_offset());
        if !are_block_freqs(decoder, skip_info, skip.block_info(), bytes) {
            return false;
        }
        skip.advance(skip_data);
        *checked = checked.next();
    }
    count_last(doc_freq, checked);
    are_rest_freqs(decoder, doc_freq % COMPRESSION_BLOCK_SIZE as u32, after)
}

// Returns whether the term frequencies of a full block follow its documents at the front of the bytes, with
// the sum and the bound of `block_info`.
fn are_block_freqs(
    decoder: &mut BlockDecoder,
    skip_info: IndexRecordOption,
    block_info: BlockInfo,
    bytes: &[u8],
) -> bool
    ensures decodes { decoder.new.decodes ≤ decoder.old.decodes + 1 }
    ensures has { result ≡ is_some (block_freqs_in skip_info block_info bytes.now) }
{
    let BlockInfo::BitPacked {
        doc_num_bits,
        strict_delta_encoded,
        tf_num_bits,
        tf_sum,
        block_wand_term_freq,
        ..
    } = block_info
    else {
        return false;
    };
    let bytes = bytes_from(bytes, compressed_block_size(doc_num_bits));
    let Ok(_) = decoder.try_uncompress_block_unsorted(bytes, tf_num_bits, strict_delta_encoded)
    else {
        return false;
    };
    let freqs = decoder.output_array();
    if !has_sum(skip_info, tf_sum, freqs) {
        return false;
    }
    are_bounded(block_wand_term_freq, freqs)
}

// Returns whether term frequencies have the sum `tf_sum`, if entries hold sums.
fn has_sum(skip_info: IndexRecordOption, tf_sum: u32, freqs: &[u32]) -> bool
    requires { length freqs.now ≤ 128 }
    ensures { result ≡ has_sum skip_info tf_sum freqs.now }
{
    match skip_info {
        IndexRecordOption::Basic => true,
        IndexRecordOption::WithFreqs => true,
        IndexRecordOption::WithFreqsAndPositions => sum_of(freqs) == u64::from(tf_sum),
    }
}

// Returns whether no term frequency exceeds a bound; 0 means no bound.
fn are_bounded(bound: u32, freqs: &[u32]) -> bool
    ensures { result ≡ bounds_counts bound freqs.now }
{
    if bound == 0 {
        return true;
    }
    for freq in freqs {
        if *freq > bound {
            return false;
        }
    }
    true
}

// Returns whether bytes begin with `num_docs` term frequencies. The decoder then holds them.
fn are_rest_freqs(decoder: &mut BlockDecoder, num_docs: u32, bytes: &[u8]) -> bool
    requires { num_docs < 128 }
    ensures has { result ≡ is_some (u32s_at num_docs bytes.now) }
    ensures holds { IsTrue result → HoldsRow (u32s_at num_docs bytes.now) 1 decoder.old decoder.new }
    ensures decodes { IsTrue result → decoder.new.decodes ≡ decoder.old.decodes + decodes_of num_docs }
{
    let Ok(_) = decoder.try_uncompress_vint_unsorted(bytes, num_docs as usize, NO_FREQ) else {
        return false;
    };
    true
}
