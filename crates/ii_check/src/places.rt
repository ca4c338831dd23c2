ghost use Rattle.std.specs.Prelude.{◌≡◌, ◌+◌, ◌/◌, ◌<◌, ◌≤◌, Err, IfErr, IfOk, IsOk, IsSome, OnOk};
ghost use Rattle.ii_io.specs.Parts.{part_of};
ghost use Rattle.ii_layout.specs.Postings.{postings};
ghost use Rattle.ii_layout.specs.SkipList.{IsSplit, skip_info_of, skip_list};
ghost use Rattle.ii_check.specs.CheckedBlocks.{blocks_checked, blocks_found, freqs_checked};
ghost use Rattle.ii_check.specs.CheckedPostings.{IsChecked, LoadsBlock, given};

use super::check::{check_postings, freq_reading_option};
use super::checked_blocks::CheckedBlocks;
use super::freq_reading_option::FreqReadingOption;
use super::validation::Validation;
use ii_base::{IndexRecordOption, LayoutFault};
use ii_codes::{BlockDecoder, COMPRESSION_BLOCK_SIZE};
use ii_io::vint;
use ii_layout::SkipPlaces;

/// Returns where the postings of a term lie in its bytes and whether its term frequencies are read, or the
/// first corrupt part. Validates the complete list, or only reads the length of its skip list if validation is
/// skipped. A short list is always read to its end, and is then left in the decoders.
pub(crate) fn find_postings(
    doc_freq: u32,
    bytes: &[u8],
    record_option: IndexRecordOption,
    requested_option: IndexRecordOption,
    validation: Validation,
    doc_decoder: &mut BlockDecoder,
    freq_decoder: &mut BlockDecoder,
    checked: &mut CheckedBlocks,
) -> Result<(SkipPlaces, FreqReadingOption), LayoutFault>
    requires known { validation ≡ Validation.Skipped → IsOk (postings record_option requested_option doc_freq bytes.now) }
    ensures ok { IfOk result (λ found. IsChecked record_option requested_option doc_freq bytes.now found.0.skip_info found.0.entries found.0.body found.1) }
    ensures short { doc_freq < 128 → IfOk result (λ found. LoadsBlock (given record_option requested_option doc_freq bytes.now) 0 doc_decoder.old doc_decoder.new freq_decoder.old freq_decoder.new) }
    ensures err { IfErr result (λ fault. postings record_option requested_option doc_freq bytes.now ≡ Err (part_of fault)) }

    // Each block was decoded at most once, and counted.
    ensures doc_decodes { OnOk result (doc_decoder.new.decodes ≤ doc_decoder.old.decodes + blocks_found validation doc_freq) }
    ensures freq_decodes { OnOk result (freq_decoder.new.decodes ≤ freq_decoder.old.decodes + blocks_found validation doc_freq) }
    ensures docs_checked { OnOk result (checked.new.docs.value ≡ checked.old.docs.value + blocks_checked validation doc_freq) }
    ensures freqs_checked { IfOk result (λ found. checked.new.freqs.value ≡ checked.old.freqs.value + freqs_checked validation found.1 doc_freq) }
{
    match validation {
        Validation::Complete => check_postings(
            doc_freq,
            bytes,
            record_option,
            requested_option,
            doc_decoder,
            freq_decoder,
            checked,
        ),
        Validation::Skipped => known_postings(
            doc_freq,
            bytes,
            record_option,
            requested_option,
            doc_decoder,
            freq_decoder,
            checked,
        ),
    }
}

// Does the same for postings that bytes are known to begin with.
fn known_postings(
    doc_freq: u32,
    bytes: &[u8],
    record_option: IndexRecordOption,
    requested_option: IndexRecordOption,
    doc_decoder: &mut BlockDecoder,
    freq_decoder: &mut BlockDecoder,
    checked: &mut CheckedBlocks,
) -> Result<(SkipPlaces, FreqReadingOption), LayoutFault>
    requires known { IsOk (postings record_option requested_option doc_freq bytes.now) }
    ensures ok { IfOk result (λ found. IsChecked record_option requested_option doc_freq bytes.now found.0.skip_info found.0.entries found.0.body found.1) }
    ensures short { doc_freq < 128 → IfOk result (λ found. LoadsBlock (given record_option requested_option doc_freq bytes.now) 0 doc_decoder.old doc_decoder.new freq_decoder.old freq_decoder.new) }
    ensures err { IfErr result (λ fault. postings record_option requested_option doc_freq bytes.now ≡ Err (part_of fault)) }

    // Only a list of one block was decoded, and nothing counted.
    ensures doc_decodes { OnOk result (doc_decoder.new.decodes ≤ doc_decoder.old.decodes + blocks_found Validation.Skipped doc_freq) }
    ensures freq_decodes { OnOk result (freq_decoder.new.decodes ≤ freq_decoder.old.decodes + blocks_found Validation.Skipped doc_freq) }
    ensures docs_checked { OnOk result (checked.new.docs.value ≡ checked.old.docs.value) }
    ensures freqs_checked { OnOk result (checked.new.freqs.value ≡ checked.old.freqs.value) }
{
    if doc_freq >= COMPRESSION_BLOCK_SIZE as u32 {
        return Ok(known_places(doc_freq, bytes, record_option, requested_option));
    }
    match check_postings(
        doc_freq,
        bytes,
        record_option,
        requested_option,
        doc_decoder,
        freq_decoder,
        checked,
    ) {
        Ok(found) => Ok(found),
        Err(fault) => Err(fault),
    }
}

// Does the same for the postings of 128 documents or more that bytes are known to begin with.
fn known_places(
    doc_freq: u32,
    bytes: &[u8],
    record_option: IndexRecordOption,
    requested_option: IndexRecordOption,
) -> (SkipPlaces, FreqReadingOption)
    requires long { 128 ≤ doc_freq }
    requires known { IsOk (postings record_option requested_option doc_freq bytes.now) }
    ensures { IsChecked record_option requested_option doc_freq bytes.now result.0.skip_info result.0.entries result.0.body result.1 }
{
    let places = skip_places(doc_freq, bytes, record_option);
    let reading = freq_reading_option(places.skip_info, requested_option, doc_freq, &[]);
    (places, reading)
}

// Returns the places of the skip list of a term in 128 documents or more, which is known to exist.
fn skip_places(doc_freq: u32, bytes: &[u8], record_option: IndexRecordOption) -> SkipPlaces
    requires long { 128 ≤ doc_freq }
    requires there { IsSome (skip_list record_option (doc_freq / 128) bytes.now) }
    ensures { IsSplit record_option (doc_freq / 128) bytes.now result.skip_info result.entries result.body }
{
    let Some((len, entries)) = vint::read_u64(bytes) else {
        unreachable!()
    };
    let blocks = doc_freq / COMPRESSION_BLOCK_SIZE as u32;
    let skip_info = skip_info_of(record_option, blocks, len);
    SkipPlaces {
        skip_info,
        entries,
        body: entries + len as usize,
    }
}

// Returns the option that gives the shape of the entries: `Basic` if `len` bytes are too few for term
// frequencies.
fn skip_info_of(record_option: IndexRecordOption, blocks: u32, len: u64) -> IndexRecordOption
    ensures { result ≡ skip_info_of record_option blocks len }
{
    if len < 8 * u64::from(blocks) {
        IndexRecordOption::Basic
    } else {
        record_option
    }
}
