ghost use Rattle.std.specs.Prelude.{◌≡◌, ℕ, ◌+◌, ◌-◌, ◌*◌, ◌<◌, ◌≤◌, true, length, Some, slice_get, IfSome, IfNone, IfOk, IsOk, IsOkAnd, Ok, Err, MatchOption};
ghost use Rattle.std.specs.List.{slice_range};
ghost use Rattle.std.specs.Option.{option_map};
ghost use Rattle.ii_termstore.specs.TermStore.{term_store};
ghost use Rattle.ii_termdict.specs.Dictionary.{end_size, end_of, start_of, key_of, ends_rise, keys_ascend, key_parts, is_below, store_after, opened_entries, AreOpened, info_under, entry_keys, entry_infos, dictionary};

use ii_io::{BinarySerializable, FixedSize, Part};
use ii_termstore::{TermInfo, TermInfoStoreView};
use std::cmp::Ordering;

// The number of bytes of the end of a key, a 64-bit number.
const END_SIZE: u64 = u64::SIZE_IN_BYTES as u64;

/// The parts of a dictionary's bytes: the number of terms, the bytes from the ends of the keys on, and the
/// bytes from the keys on.
#[derive(Clone, Copy)]
pub(crate) struct KeyParts<'a> {
    pub num_terms: u64,
    pub ends: &'a [u8],
    pub body: &'a [u8],
}

// Splits bytes into the parts, or returns `None` if they don't hold them.
#[tactic(auto, unfolding(crate::specs::Dictionary::key_parts))]
fn parts_of(bytes: &[u8]) -> Option<KeyParts<'_>>
    ensures value { option_map (λ p. (p.num_terms, p.ends.now, p.body.now)) result ≡ key_parts bytes.now }
    ensures there { IfSome result (λ p. end_size * p.num_terms ≤ length p.ends.now) }
{
    let mut rest = bytes;
    let Some(num_terms) = u64::deserialize(&mut rest) else {
        return None;
    };
    if num_terms > count_bytes(rest) / END_SIZE {
        return None;
    }
    Some(KeyParts {
        num_terms,
        ends: rest,
        body: &rest[(END_SIZE * num_terms) as usize..],
    })
}

// Returns the number of bytes.
fn count_bytes(bytes: &[u8]) -> u64
    ensures { result ≡ length bytes.now }
{
    bytes.len() as u64
}

// Reads where key `i` ends.
#[tactic(auto, unfolding(crate::specs::Dictionary::end_of))]
fn read_end(ends: &[u8], i: u64) -> u64
    requires { end_size * i ≤ length ends.now }
    ensures { result ≡ end_of ends.now i }
{
    let mut rest = &ends[(END_SIZE * i) as usize..];
    match u64::deserialize(&mut rest) {
        Some(end) => end,
        None => 0,
    }
}

// Reads where key `i` begins.
fn read_start(ends: &[u8], i: u64) -> u64
    requires { end_size * i ≤ length ends.now }
    ensures { result ≡ start_of ends.now i }
{
    if i == 0 { 0 } else { read_end(ends, i - 1) }
}

// Returns whether no end is less than the previous one, and the last one lies within the body.
fn do_ends_rise(n: u64, ends: &[u8], body: &[u8]) -> bool
    requires { end_size * n ≤ length ends.now }
    ensures { result ≡ ends_rise n ends.now body.now }
{
    for i in 0..n {
        if read_start(ends, i) > read_end(ends, i) {
            return false;
        }
    }
    read_start(ends, n) <= body.len() as u64
}

// Returns key `i`.
pub(crate) fn read_key<'a>(n: u64, ends: &[u8], body: &'a [u8], i: u64) -> &'a [u8]
    requires there { end_size * n ≤ length ends.now }
    requires rise { ends_rise n ends.now body.now ≡ true }
    requires within { i < n }
    ensures { result.now ≡ key_of ends.now body.now i }
{
    piece(
        body,
        read_start(ends, i) as usize,
        read_end(ends, i) as usize,
    )
}

// Returns the bytes from `start` to before `end`.
fn piece(body: &[u8], start: usize, end: usize) -> &[u8]
    requires forward { start ≤ end }
    requires within { end ≤ length body.now }
    ensures { result.now ≡ slice_range body.now start end }
{
    &body[start..end]
}

/// Returns whether a key is less than another by its bytes.
pub(crate) fn is_key_below(key: &[u8], other: &[u8]) -> bool
    ensures { result ≡ is_below key.now other.now }
{
    key.cmp(other) == Ordering::Less
}

// Returns whether each key is less than the next.
fn do_keys_ascend(n: u64, ends: &[u8], body: &[u8]) -> bool
    requires there { end_size * n ≤ length ends.now }
    requires rise { ends_rise n ends.now body.now ≡ true }
    ensures { result ≡ keys_ascend n ends.now body.now }
{
    for i in 0..n.saturating_sub(1) {
        if !is_key_below(read_key(n, ends, body, i), read_key(n, ends, body, i + 1)) {
            return false;
        }
    }
    true
}

// Returns the store after the keys.
fn store_of<'a>(n: u64, ends: &[u8], body: &'a [u8]) -> &'a [u8]
    requires there { end_size * n ≤ length ends.now }
    requires rise { ends_rise n ends.now body.now ≡ true }
    ensures { result.now ≡ store_after n ends.now body.now }
{
    &body[read_start(ends, n) as usize..]
}

/// Returns the first corrupt part, if bytes hold no dictionary. Reads ends and keys twice, and the store as
/// `TermInfoStoreView::open` does. Never allocates.
pub(crate) fn first_damaged_part(bytes: &[u8]) -> Option<Part>
    ensures { MatchOption result (IsOk (dictionary bytes.now)) (λ part. dictionary bytes.now ≡ Err part) }
{
    let Some(parts) = parts_of(bytes) else {
        return Some(Part::Dictionary);
    };
    if !do_ends_rise(parts.num_terms, parts.ends, parts.body) {
        return Some(Part::Dictionary);
    }
    if !do_keys_ascend(parts.num_terms, parts.ends, parts.body) {
        return Some(Part::Dictionary);
    }
    let store = store_of(parts.num_terms, parts.ends, parts.body);
    let Some(infos) = TermInfoStoreView::open(store) else {
        return Some(Part::TermStore);
    };
    if infos.num_terms() != parts.num_terms {
        return Some(Part::Dictionary);
    }
    None
}

// Opens the store after the keys of a dictionary.
fn view_of<'a>(parts: &KeyParts<'a>) -> TermInfoStoreView<'a>
    requires { AreOpened parts.now.num_terms parts.now.ends.now parts.now.body.now }
    ensures value { term_store (store_after parts.now.num_terms parts.now.ends.now parts.now.body.now) ≡ Some result }
    ensures count { length result ≡ parts.now.num_terms }
{
    TermInfoStoreView::over(store_of(parts.num_terms, parts.ends, parts.body))
}

/// Returns the parts of a dictionary.
pub(crate) fn opened(bytes: &[u8]) -> KeyParts<'_>
    requires { IsOk (dictionary bytes.now) }
    ensures valid { AreOpened result.num_terms result.ends.now result.body.now }
    ensures entries { dictionary bytes.now ≡ Ok (opened_entries result.num_terms result.ends.now result.body.now) }
{
    match parts_of(bytes) {
        Some(parts) => parts,
        None => unreachable!(),
    }
}

// Searches for the ordinal of a key by binary search.
fn find(n: u64, ends: &[u8], body: &[u8], key: &[u8]) -> Option<u64>
    requires { AreOpened n ends.now body.now }
    ensures within { IfSome result (λ ord. ord < n) }
    ensures found { IfSome result (λ ord. key_of ends.now body.now ord ≡ key.now) }
    ensures none { IfNone result ((i : ℕ) → i < n → key_of ends.now body.now i ≡ key.now → ⊥) }
{
    let mut low = 0u64;
    let mut high = n;
    while low < high {
        let middle = low + (high - low) / 2;
        match key.cmp(read_key(n, ends, body, middle)) {
            Ordering::Less => high = middle,
            Ordering::Equal => return Some(middle),
            Ordering::Greater => low = middle + 1,
        }
    }
    None
}

/// Returns the term info of a key of a dictionary.
pub(crate) fn get(bytes: &[u8], key: &[u8]) -> Option<TermInfo>
    requires { IsOk (dictionary bytes.now) }
    ensures { IfOk (dictionary bytes.now) (λ entries. result ≡ info_under key.now entries) }
{
    let parts = opened(bytes);
    match find(parts.num_terms, parts.ends, parts.body, key) {
        Some(ord) => Some(view_of(&parts).get(ord)),
        None => None,
    }
}

/// Returns the number of terms of a dictionary.
pub(crate) fn count_terms(bytes: &[u8]) -> u64
    requires { IsOk (dictionary bytes.now) }
    ensures { IfOk (dictionary bytes.now) (λ entries. result ≡ length entries) }
{
    opened(bytes).num_terms
}

/// Returns the key at an ordinal of a dictionary.
pub(crate) fn key_at(bytes: &[u8], ord: u64) -> &[u8]
    requires { IsOkAnd (dictionary bytes.now) (λ entries. ord < length entries) }
    ensures { IfOk (dictionary bytes.now) (λ entries. slice_get (entry_keys entries) ord ≡ Some result.now) }
{
    let parts = opened(bytes);
    read_key(parts.num_terms, parts.ends, parts.body, ord)
}

/// Returns the term info at an ordinal of a dictionary.
pub(crate) fn value_at(bytes: &[u8], ord: u64) -> TermInfo
    requires { IsOkAnd (dictionary bytes.now) (λ entries. ord < length entries) }
    ensures { IfOk (dictionary bytes.now) (λ entries. slice_get (entry_infos entries) ord ≡ Some result) }
{
    let parts = opened(bytes);
    view_of(&parts).get(ord)
}
