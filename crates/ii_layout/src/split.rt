ghost use Rattle.std.specs.Prelude.{◌≡◌, ◌+◌, ◌*◌, ◌/◌, ◌<◌, ◌≤◌, length, drop, nat_lt, nat_le, MatchOption, None};
ghost use Rattle.std.specs.List.{list_all};
ghost use Rattle.ii_layout.specs.SkipReader.{tf_num_bits_of};
ghost use Rattle.ii_layout.specs.SkipList.{SkipEntry, IsSplit, entries_at, entry_size, skip_info_of, skip_list};

use super::skip::{BlockInfo, entry_size, read_entry_at};
use ii_base::IndexRecordOption;
use ii_codes::COMPRESSION_BLOCK_SIZE;
use ii_io::{GhostCounter, vint};

/// The greatest bit width of term frequencies.
const MAX_TF_NUM_BITS: u8 = 32;

/// The place where a term's skip entries begin in its bytes, the option that gives their shape, and the place
/// where the blocks begin.
#[derive(Clone, Copy, Debug, PartialEq, Eq)]
pub struct SkipPlaces {
    pub skip_info: IndexRecordOption,
    pub entries: usize,
    pub body: usize,
}

/// Finds the skip list of a term in `doc_freq` documents. Never allocates.
///
/// The list starts with its number of bytes, a vint of up to 10 bytes. If this is less than 8 bytes per full
/// block, the term has no term frequencies. A term of fewer than 128 documents has no skip list.
///
/// Returns `None` if:
/// * the number is missing, exceeds the remaining bytes, or is too small for the entries of the full blocks;
/// * the width of an entry's term frequencies is above 32.
pub fn split_into_skips_and_postings(
    doc_freq: u32,
    postings: &[u8],
    record_option: IndexRecordOption,
) -> Option<SkipPlaces>
    ensures { MatchOption result (skip_list record_option (doc_freq / 128) postings.now ≡ None)
        (λ p. IsSplit record_option (doc_freq / 128) postings.now p.skip_info p.entries p.body) }
{
    let blocks = doc_freq / COMPRESSION_BLOCK_SIZE as u32;
    if blocks == 0 {
        return Some(SkipPlaces {
            skip_info: record_option,
            entries: 0,
            body: 0,
        });
    }
    let Some((len, entries)) = vint::read_u64(postings) else {
        return None;
    };
    if len > (postings.len() - entries) as u64 {
        return None;
    }
    let skip_info = skip_info_of(record_option, blocks, len);
    if len < entry_size(skip_info) as u64 * u64::from(blocks) {
        return None;
    }
    if !counts_are_narrow(&postings[entries..], skip_info, blocks) {
        return None;
    }
    Some(SkipPlaces {
        skip_info,
        entries,
        body: entries + len as usize,
    })
}

// Returns the option that gives the shape of the entries: `Basic` if `len` bytes are too few for term
// frequencies.
fn skip_info_of(record_option: IndexRecordOption, blocks: u32, len: u64) -> IndexRecordOption
    ensures { result ≡ skip_info_of record_option blocks len }
{
    if len < 8 * u64::from(blocks) {
        IndexRecordOption::Basic
    } else {
        record_option
    }
}

// Returns whether the term frequencies of each block have a width of at most 32.
fn counts_are_narrow(skip_data: &[u8], skip_info: IndexRecordOption, blocks: u32) -> bool
    requires { entry_size skip_info * blocks ≤ length skip_data.now }
    ensures { result ≡ list_all (λ (e : SkipEntry). nat_le e.tf_num_bits 32) (entries_at skip_info blocks skip_data.now) }
{
    let mut entries_read = GhostCounter::new();
    for i in 0..blocks {
        let (_, info) = read_entry_at(skip_data, skip_info, i, &mut entries_read);
        if tf_num_bits(info) > MAX_TF_NUM_BITS {
            return false;
        }
    }
    true
}

// Returns the width of a block's term frequencies, or 0 if it has none.
fn tf_num_bits(info: BlockInfo) -> u8
    ensures { result ≡ tf_num_bits_of info }
{
    match info {
        BlockInfo::BitPacked { tf_num_bits, .. } => tf_num_bits,
        BlockInfo::VInt { .. } => 0,
    }
}

/// Returns the bytes from `place` on, or none if `place` is after the end.
pub fn bytes_from(bytes: &[u8], place: usize) -> &[u8]
    ensures { result.now ≡ drop place bytes.now }
{
    if place < bytes.len() {
        &bytes[place..]
    } else {
        &[]
    }
}
