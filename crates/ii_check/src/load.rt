ghost use Rattle.std.specs.Prelude.{◌≡◌, ◌≤◌, ◌||◌, drop, nat_lt, Some, IsSome};
ghost use Rattle.std.specs.Option.{option_map};
ghost use Rattle.ii_base.specs.declared.doc_id.TheConstants.{TERMINATED};
ghost use Rattle.ii_check.specs.Check.{HoldsRow, docs_in, excludes_in, freqs_in, num_vints};
ghost use Rattle.ii_check.specs.CheckedPostings.{excludes};

use ii_base::{DocId, TERMINATED};
use ii_codes::{BlockDecoder, VIntDecoder};
use ii_layout::{BlockInfo, SkipReader};

/// The padding in a decoder: after the term frequencies of a block, or where they aren't read.
pub const NO_FREQ: u32 = 1;

/// Decodes the documents of a block after the document `before`, and returns how many bytes they take.
/// `TERMINATED` follows them in the decoder.
pub(crate) fn decode_docs(
    decoder: &mut BlockDecoder,
    block_info: BlockInfo,
    before: DocId,
    bytes: &[u8],
) -> usize
    requires few { num_vints block_info ≤ 128 }
    requires valid { IsSome (docs_in block_info before bytes.now) }
    ensures holds { HoldsRow (docs_in block_info before bytes.now) TERMINATED decoder.old decoder.new }
    ensures after { option_map (λ found. found.1) (docs_in block_info before bytes.now)
        ≡ Some (drop result bytes.now) }
{
    match block_info {
        BlockInfo::BitPacked {
            doc_num_bits,
            strict_delta_encoded,
            ..
        } => decoder.uncompress_block_sorted(bytes, before, doc_num_bits, strict_delta_encoded),
        BlockInfo::VInt { num_docs } => {
            decoder.uncompress_vint_sorted(bytes, before, num_docs as usize, TERMINATED)
        }
    }
}

/// Decodes the term frequencies of a block from the bytes after its documents. 1 follows them in the decoder.
pub(crate) fn decode_freqs(decoder: &mut BlockDecoder, block_info: BlockInfo, bytes: &[u8])
    requires few { num_vints block_info ≤ 128 }
    requires valid { IsSome (freqs_in block_info bytes.now) }
    ensures { HoldsRow (freqs_in block_info bytes.now) 1 decoder.old decoder.new }
{
    match block_info {
        BlockInfo::BitPacked {
            strict_delta_encoded,
            tf_num_bits,
            ..
        } => {
            decoder.uncompress_block_unsorted(bytes, tf_num_bits, strict_delta_encoded);
        }
        BlockInfo::VInt { num_docs } => {
            decoder.uncompress_vint_unsorted(bytes, num_docs as usize, NO_FREQ);
        }
    }
}

/// Returns whether the skip reader's block ends below `target`, or its bound says that each of its term
/// frequencies is below `least`.
pub(crate) fn is_passed(skip: &SkipReader, target: DocId, least: u32) -> bool
    ensures { result ≡ (nat_lt skip.now.last_doc_in_block target || excludes_in least skip.now.block_info) }
{
    if skip.last_doc_in_block() < target {
        return true;
    }
    match skip.block_info() {
        BlockInfo::BitPacked {
            block_wand_term_freq,
            ..
        } => excludes(block_wand_term_freq, least),
        BlockInfo::VInt { .. } => false,
    }
}

// Returns whether a bound is below a term frequency; 0 means no bound.
fn excludes(bound: u32, least: u32) -> bool
    ensures { result ≡ excludes least bound }
{
    if bound == 0 {
        return false;
    }
    bound < least
}
