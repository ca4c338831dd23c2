//! A dictionary that is read by ranges.
ghost use Rattle.std.specs.Prelude.{◌≡◌, ◌+◌, ◌*◌, ◌<◌, ◌≤◌, ◌^◌, ⊤, IfOk, IfSome, IsOk, Some, length, slice_get};
ghost use Rattle.std.specs.Ordering.{nat_cmp};
ghost use Rattle.std.specs.Cmp.Lexicographic.{slice_cmp};
ghost use Rattle.ii_termstore.specs.TermStore.{term_store};
ghost use Rattle.ii_termdict.specs.Dictionary.{dictionary, end_of, info_under, key_of, start_of, store_after};
ghost use Rattle.ii_termdict_slice.specs.Reading.{Reads};
ghost use Rattle.ii_termdict_slice.specs.Slices.{HasParts, IsOrdinalOf, ends_in, from_keys};

use crate::reading::{read_bytes, read_u64};
use crate::search_hint::{SearchHint, SearchSteps};
use crate::store_slice::read_term_info;
use bytes::Bytes;
use ii_file_slice::{BlockCache, FileFault, FileHandle};
use ii_io::{Fault, FixedSize, Part};
use ii_termdict::{TermInfo, TermOrdinal};
use std::alloc::Global;
use std::cmp::Ordering;
use std::marker::Model;

// The number of bytes of a number of terms, and of the end of a key.
const END_SIZE: u64 = u64::SIZE_IN_BYTES as u64;

/// A dictionary that is read by ranges of its file. A lookup reads only the keys that a search compares, their ends, and what
/// describes the term that it finds; blocks that were read are kept. The rest isn't validated.
///
/// Its model is that of the file.
#[derive(Drop)]
pub struct TermDictionarySlice<'a, H: FileHandle> {
    file: BlockCache<'a, H>,
    num_terms: u64,
}

impl<'a, H: FileHandle> Model for TermDictionarySlice<'a, H> {
    ghost use Rattle.std.specs.Prelude.{◌+◌, ◌*◌, ◌<◌, ◌^◌};
    ghost use Rattle.ii_termdict_slice.specs.Slices.{CountsTerms};

    ghost Value = { H };

    ghost view = { λ s. s.file };

    ghost invariant = { λ s. CountsTerms (H.bytes s.file) s.num_terms × (8 + 8 * s.num_terms < 2 ^ 64) };
}

impl<'a, H: FileHandle> TermDictionarySlice<'a, H> {
    /// Opens a dictionary, whose bytes are those of the file. Reads the number of its terms.
    ///
    /// # Errors
    ///
    /// `Damaged(Dictionary)` if the file has no room for the number of terms, or for their ends; `Read` if a range of the
    /// file can't be read; `OutOfMemory`.
    pub fn open(
        alloc: Global,
        file: BlockCache<'a, H>,
    ) -> Result<TermDictionarySlice<'a, H>, FileFault>
        ensures file { IfOk result (λ terms. terms ≡ file.entry) }
        ensures reads { Reads (H.bytes file.entry) (H.is_sound file.entry) (λ bs. IsOk (dictionary bs)) (λ bs terms. ⊤) result }
    {
        let mut file = file;
        let len = file.len();
        if len < END_SIZE {
            return Err(FileFault::Index(Fault::Damaged(Part::Dictionary)));
        }
        let num_terms = match read_u64(alloc, &mut file, 0) {
            Ok(num_terms) => num_terms,
            Err(fault) => return Err(fault),
        };
        if num_terms > (len - END_SIZE) / END_SIZE {
            return Err(FileFault::Index(Fault::Damaged(Part::Dictionary)));
        }
        Ok(TermDictionarySlice { file, num_terms })
    }

    /// Returns the term info of a key.
    ///
    /// Wherever the file holds a dictionary, this is what `TermDictionary::get` returns. If it doesn't, the call is safe, and
    /// returns some term info, `None`, or an error.
    ///
    /// # Errors
    ///
    /// `Damaged(Dictionary)` or `Damaged(TermStore)` if what is read can't be of a dictionary; `Read` if a range of the file
    /// can't be read; `OutOfMemory`.
    pub fn get(&mut self, alloc: Global, key: &[u8]) -> Result<Option<TermInfo>, FileFault>
        ensures file { self.new ≡ self.old }
        ensures reads { Reads (H.bytes self.old) (H.is_sound self.old) (λ bs. IsOk (dictionary bs)) (λ bs found. IfOk (dictionary bs) (λ entries. found ≡ info_under key.now entries)) result }
    {
        self.get_near(alloc, key, &mut SearchHint::none())
    }

    /// Returns what `get` does. The search begins where `hint` says that another dictionary has the key, and leaves there
    /// where this one has it, or would have it: in dictionaries with about the same keys it reads only a few blocks.
    ///
    /// # Errors
    ///
    /// Those of `get`.
    pub fn get_near(
        &mut self,
        alloc: Global,
        key: &[u8],
        hint: &mut SearchHint,
    ) -> Result<Option<TermInfo>, FileFault>
        ensures file { self.new ≡ self.old }
        ensures reads { Reads (H.bytes self.old) (H.is_sound self.old) (λ bs. IsOk (dictionary bs)) (λ bs found. IfOk (dictionary bs) (λ entries. found ≡ info_under key.now entries)) result }
    {
        let found = match find(alloc, &mut self.file, self.num_terms, key, hint) {
            Ok(found) => found,
            Err(fault) => return Err(fault),
        };
        let ord = match found {
            Some(ord) => ord,
            None => return Ok(None),
        };
        let info = match read_info(alloc, &mut self.file, self.num_terms, ord) {
            Ok(info) => info,
            Err(fault) => return Err(fault),
        };
        Ok(Some(info))
    }
}

// Reads where key `i` ends.
fn read_end<H: FileHandle>(
    alloc: Global,
    file: &mut BlockCache<'_, H>,
    i: u64,
) -> Result<u64, FileFault>
    requires { 16 + 8 * i < 2 ^ 64 }
    ensures file { file.new ≡ file.old }
    ensures reads { Reads (H.bytes file.old) (H.is_sound file.old) (λ bs. 16 + 8 * i ≤ length bs) (λ bs end. end ≡ end_of (ends_in bs) i) result }
{
    read_u64(alloc, file, END_SIZE + END_SIZE * i)
}

// Reads where key `i` begins.
fn read_start<H: FileHandle>(
    alloc: Global,
    file: &mut BlockCache<'_, H>,
    i: u64,
) -> Result<u64, FileFault>
    requires { 8 + 8 * i < 2 ^ 64 }
    ensures file { file.new ≡ file.old }
    ensures reads { Reads (H.bytes file.old) (H.is_sound file.old) (λ bs. 8 + 8 * i ≤ length bs) (λ bs start. start ≡ start_of (ends_in bs) i) result }
{
    if i == 0 {
        return Ok(0);
    }
    read_end(alloc, file, i - 1)
}

// Reads key `i` of `num_terms`.
fn read_key<H: FileHandle>(
    alloc: Global,
    file: &mut BlockCache<'_, H>,
    num_terms: u64,
    i: u64,
) -> Result<Bytes, FileFault>
    requires room { 8 + 8 * num_terms < 2 ^ 64 }
    requires within { i < num_terms }
    ensures file { file.new ≡ file.old }
    ensures reads { Reads (H.bytes file.old) (H.is_sound file.old) (HasParts num_terms) (λ bs key. key ≡ key_of (ends_in bs) (from_keys num_terms bs) i) result }
{
    let start = match read_start(alloc, file, i) {
        Ok(start) => start,
        Err(fault) => return Err(fault),
    };
    let end = match read_end(alloc, file, i) {
        Ok(end) => end,
        Err(fault) => return Err(fault),
    };
    let keys = END_SIZE + END_SIZE * num_terms;
    let room = file.len().saturating_sub(keys);
    if start > end {
        return Err(FileFault::Index(Fault::Damaged(Part::Dictionary)));
    }
    if end > room {
        return Err(FileFault::Index(Fault::Damaged(Part::Dictionary)));
    }
    read_bytes(alloc, file, keys + start, (end - start) as usize)
}

// Compares a key with key `i` of `num_terms`, by their bytes.
fn compare_key<H: FileHandle>(
    alloc: Global,
    file: &mut BlockCache<'_, H>,
    num_terms: u64,
    i: u64,
    key: &[u8],
) -> Result<Ordering, FileFault>
    requires room { 8 + 8 * num_terms < 2 ^ 64 }
    requires within { i < num_terms }
    ensures file { file.new ≡ file.old }
    ensures reads { Reads (H.bytes file.old) (H.is_sound file.old) (HasParts num_terms) (λ bs order. order ≡ slice_cmp nat_cmp key.now (key_of (ends_in bs) (from_keys num_terms bs) i)) result }
{
    match read_key(alloc, file, num_terms, i) {
        Ok(other) => Ok(key.cmp(other.as_slice())),
        Err(fault) => Err(fault),
    }
}

// Searches for the ordinal of a key, from where a hint says, and leaves there where it is or would be.
fn find<H: FileHandle>(
    alloc: Global,
    file: &mut BlockCache<'_, H>,
    num_terms: u64,
    key: &[u8],
    hint: &mut SearchHint,
) -> Result<Option<u64>, FileFault>
    requires { 8 + 8 * num_terms < 2 ^ 64 }
    ensures file { file.new ≡ file.old }
    ensures within { IfOk result (λ found. IfSome found (λ ord. ord < num_terms)) }
    ensures reads { Reads (H.bytes file.old) (H.is_sound file.old) (HasParts num_terms) (IsOrdinalOf num_terms key.now) result }
{
    let mut steps = hint.steps(num_terms);
    let mut low = 0u64;
    let mut high = num_terms;
    while low < high {
        let ord = steps.next(low, high);
        let order = match compare_key(alloc, file, num_terms, ord, key) {
            Ok(order) => order,
            Err(fault) => return Err(fault),
        };
        match order {
            Ordering::Less => high = ord,
            Ordering::Equal => {
                *hint = SearchHint::at(ord, num_terms);
                return Ok(Some(ord));
            }
            Ordering::Greater => low = ord + 1,
        }
    }
    *hint = SearchHint::at(low, num_terms);
    Ok(None)
}

// Reads the term info at an ordinal.
fn read_info<H: FileHandle>(
    alloc: Global,
    file: &mut BlockCache<'_, H>,
    num_terms: u64,
    ord: TermOrdinal,
) -> Result<TermInfo, FileFault>
    requires room { 8 + 8 * num_terms < 2 ^ 64 }
    requires within { ord < num_terms }
    ensures file { file.new ≡ file.old }
    ensures reads { Reads (H.bytes file.old) (H.is_sound file.old) (HasParts num_terms) (λ bs info. IfSome (term_store (store_after num_terms (ends_in bs) (from_keys num_terms bs))) (λ infos. slice_get infos ord ≡ Some info)) result }
{
    let end = match read_start(alloc, file, num_terms) {
        Ok(end) => end,
        Err(fault) => return Err(fault),
    };
    let keys = END_SIZE + END_SIZE * num_terms;
    let room = file.len().saturating_sub(keys);
    if end > room {
        return Err(FileFault::Index(Fault::Damaged(Part::Dictionary)));
    }
    read_term_info(alloc, file, keys + end, num_terms, ord)
}
