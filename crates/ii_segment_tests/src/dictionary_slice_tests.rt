// Bodies of composite files, and dictionaries, that are read by ranges.
use crate::index_files::{Files, block_file, body, changed, push_text, schema, written};
use bytes::Bytes;
use ii_file_slice::{BlockCache, CompositeSlices, FileFault, FileHandle};
use ii_ram::{Fault, Field, Part};
use ii_termdict::{TermDictionary, TermInfo};
use ii_termdict_slice::{SearchHint, TermDictionarySlice};
use nequllpa_indexing::Documents;
use std::alloc::Global;
use std::test::Fail;

// The bodies `abc` of field 0, none of field 5 and `de` of field 2, with their places, and how many these are.
static COMPOSITE: [u8; 69] = [
    b'a', b'b', b'c', b'd', b'e', //
    0, 0, 0, 0, 0, 0, 0, 0, 0, 0, 0, 0, 3, 0, 0, 0, 0, 0, 0, 0, //
    5, 0, 0, 0, 3, 0, 0, 0, 0, 0, 0, 0, 3, 0, 0, 0, 0, 0, 0, 0, //
    2, 0, 0, 0, 3, 0, 0, 0, 0, 0, 0, 0, 5, 0, 0, 0, 0, 0, 0, 0, //
    3, 0, 0, 0,
];

// Returns where the body of a field begins, and its bytes.
fn body_of<H: FileHandle>(
    alloc: Global,
    slices: &CompositeSlices<'_, H>,
    field: u32,
) -> Result<Option<(u64, Bytes)>, Fail> {
    let Some(slice) = slices.open_read(Field::from_field_id(field)) else {
        return Ok(None);
    };
    let len = slice.len() as usize;
    Ok(Some((slice.start(), slice.read_bytes(alloc, 0, len)?)))
}

// Returns whether the bodies of a file are those of `COMPOSITE`.
fn has_bodies<H: FileHandle>(alloc: Global, file: &H) -> Result<bool, Fail> {
    let slices = CompositeSlices::open(alloc, file)?;
    for (field, start, expected) in [(0, 0u64, &b"abc"[..]), (2, 3, &b"de"[..]), (5, 3, &b""[..])] {
        let Some((found_start, found)) = body_of(alloc, &slices, field)? else {
            return Ok(false);
        };
        if found_start != start || found.as_slice() != expected {
            return Ok(false);
        }
    }
    let other = body_of(alloc, &slices, 1)?;
    Ok(other.is_none())
}

#[test]
fn bodies_are_ranges(rt: HostRuntime) -> Result<(), Fail> {
    let file = Bytes::from_static(&COMPOSITE);
    assert!(rt; has_bodies(rt.alloc(), &file)?);
    assert!(rt; has_bodies(rt.alloc(), &block_file(rt.alloc(), &file)?)?);
    Ok(())
}

const NO_TABLE: Option<FileFault> = Some(FileFault::Index(Fault::Damaged(Part::Composite)));

// Returns why a file doesn't open.
fn composite_fault(alloc: Global, file: &Bytes) -> Option<FileFault> {
    CompositeSlices::open(alloc, file).err()
}

#[test]
fn damaged_tables_are_refused(rt: HostRuntime) -> Result<(), Fail> {
    let file = Bytes::from_static(&COMPOSITE);
    assert_eq!(rt; composite_fault(rt.alloc(), &Bytes::new()), NO_TABLE);
    // a count, an end and a start that are too large, but not the first byte of a body
    for (place, fault) in [(65, NO_TABLE), (57, NO_TABLE), (29, NO_TABLE), (0, None)] {
        let file = changed(rt.alloc(), &file, place)?;
        assert_eq!(rt; composite_fault(rt.alloc(), &file), fault, "byte {place}");
    }
    // field 5 becomes field 0, which has a place
    let mut twice = Vec::from_slice(rt.alloc(), file.as_slice())?;
    if twice.len() > 25 {
        twice[25] = 0;
    }
    let twice = Bytes::from_vec(twice)?;
    assert_eq!(rt; composite_fault(rt.alloc(), &twice), NO_TABLE);
    for len in 0..COMPOSITE.len() {
        let cut = file.slice(0..len.min(file.len()))?;
        let is_read = composite_fault(rt.alloc(), &cut)
            != Some(FileFault::Index(Fault::OutOfMemory));
        assert!(rt; is_read, "{len} bytes");
    }
    Ok(())
}

// The number of keys.
const NUM_KEYS: u32 = 1_500;

// Writes an index whose document n has the keys `k` with n and `k` with n / 2.
fn files_of_keys(alloc: Global) -> Result<Files, Fault> {
    let mut documents = Documents::new(alloc, schema(alloc)?);
    for doc in 0..NUM_KEYS {
        let half = doc / 2;
        let text = format!(in alloc; "k{doc} k{half}")?;
        push_text(alloc, &mut documents, text.as_str())?;
    }
    written(alloc, documents)
}

// Returns how many documents have the key of a number: itself, and the two whose half it is.
fn doc_freq_of(number: u32) -> u32 {
    match number {
        // document 0 is its own half
        0 => 2,
        1..750 => 3,
        _ => 1,
    }
}

// Opens a dictionary by ranges, with a cache of so many blocks.
fn dictionary_slice<H: FileHandle>(
    alloc: Global,
    file: &H,
    start: u64,
    num_blocks: usize,
) -> Result<TermDictionarySlice<'_, H>, Fail> {
    let cache = BlockCache::new(alloc, file, start, num_blocks)?;
    Ok(TermDictionarySlice::open(alloc, cache)?)
}

// Returns the first number whose key isn't found as in the dictionary, or after whose key another one is found. Each key is
// also searched from where the last one was, and the one after it from there.
fn first_wrong_key<H: FileHandle>(
    alloc: Global,
    terms: &TermDictionary,
    slice: &mut TermDictionarySlice<'_, H>,
) -> Result<Option<u32>, Fail> {
    let mut hint = SearchHint::none();
    for number in 0..NUM_KEYS {
        let key = format!(in alloc; "k{number}")?;
        if slice.get_near(alloc, key.as_bytes(), &mut hint)? != terms.get(key.as_bytes()) {
            return Ok(Some(number));
        }
        let Some(info) = slice.get(alloc, key.as_bytes())? else {
            return Ok(Some(number));
        };
        if info.doc_freq != doc_freq_of(number) || terms.get(key.as_bytes()) != Some(info) {
            return Ok(Some(number));
        }
        let next = format!(in alloc; "k{number}!")?;
        if slice.get(alloc, next.as_bytes())?.is_some() {
            return Ok(Some(number));
        }
        if slice.get_near(alloc, next.as_bytes(), &mut hint)?.is_some() {
            return Ok(Some(number));
        }
    }
    Ok(None)
}

// Keys before, between and after those of the dictionary.
static OTHER_KEYS: [&[u8]; 9] = [
    b"",
    b"\0",
    b"j",
    b"k",
    b"k00",
    b"k1500",
    b"k999\0",
    b"k:",
    b"\xFF\xFF",
];

// Returns the first other key that is found.
fn first_found<H: FileHandle>(
    alloc: Global,
    slice: &mut TermDictionarySlice<'_, H>,
) -> Result<Option<usize>, Fail> {
    for place in 0..OTHER_KEYS.len() {
        if slice.get(alloc, OTHER_KEYS[place])?.is_some() {
            return Ok(Some(place));
        }
    }
    Ok(None)
}

// Returns the first wrong key, and the first other key that is found, of the dictionary of a file of terms.
fn wrong_keys<H: FileHandle>(
    alloc: Global,
    file: &H,
    num_blocks: usize,
) -> Result<(Option<u32>, Option<usize>), Fail> {
    let slices = CompositeSlices::open(alloc, file)?;
    let dictionary = slices.open_read(body()).ok_or("no dictionary")?;
    let bytes = dictionary.read_bytes(alloc, 0, dictionary.len() as usize)?;
    let terms = TermDictionary::open(bytes)?;
    if terms.num_terms() != NUM_KEYS as usize {
        return Err("another number of keys".into());
    }
    let mut slice = dictionary_slice(alloc, &dictionary, dictionary.start(), num_blocks)?;
    let wrong = first_wrong_key(alloc, &terms, &mut slice)?;
    Ok((wrong, first_found(alloc, &mut slice)?))
}

#[test]
fn keys_are_looked_up_by_ranges(rt: HostRuntime) -> Result<(), Fail> {
    let Files { terms: file, .. } = files_of_keys(rt.alloc())?;
    for num_blocks in [1usize, 4] {
        let wrong = wrong_keys(rt.alloc(), &file, num_blocks)?;
        assert_eq!(rt; wrong, (None, None), "{num_blocks} blocks");
    }
    let blocks = block_file(rt.alloc(), &file)?;
    let wrong = wrong_keys(rt.alloc(), &blocks, 4)?;
    assert_eq!(rt; wrong, (None, None));
    Ok(())
}

// Returns the bytes of the dictionary.
fn dictionary_of_keys(alloc: Global) -> Result<Bytes, Fail> {
    let Files { terms: file, .. } = files_of_keys(alloc)?;
    let slices = CompositeSlices::open(alloc, &file)?;
    match body_of(alloc, &slices, 0)? {
        Some((_, bytes)) => Ok(bytes),
        None => Err("no dictionary".into()),
    }
}

// What damaged bytes gave of some keys.
#[derive(Clone, Copy, Debug, PartialEq, Eq)]
struct Outcomes {
    wrong: u32,
    refused: u32,
}

// Returns the key of each 50th number: whether it is refused, or isn't found as in the dictionary.
fn outcomes_of(alloc: Global, terms: &TermDictionary, bytes: &Bytes) -> Result<Outcomes, Fail> {
    let mut outcomes = Outcomes {
        wrong: 0,
        refused: 0,
    };
    let cache = BlockCache::new(alloc, bytes, 0, 4)?;
    let Ok(mut slice) = TermDictionarySlice::open(alloc, cache) else {
        outcomes.refused = NUM_KEYS / 50;
        return Ok(outcomes);
    };
    for step in 0..NUM_KEYS / 50 {
        let number = step * 50;
        let key = format!(in alloc; "k{number}")?;
        match slice.get(alloc, key.as_bytes()) {
            Ok(None) => {}
            Ok(found) => {
                if found != terms.get(key.as_bytes()) {
                    outcomes.wrong = outcomes.wrong.saturating_add(1);
                }
            }
            Err(_) => outcomes.refused = outcomes.refused.saturating_add(1),
        }
    }
    Ok(outcomes)
}

#[test]
fn a_cut_dictionary_gives_nothing_else(rt: HostRuntime) -> Result<(), Fail> {
    let bytes = dictionary_of_keys(rt.alloc())?;
    let terms = TermDictionary::open(bytes.clone()?)?;
    let whole = outcomes_of(rt.alloc(), &terms, &bytes)?;
    assert_eq!(rt;
        whole,
        Outcomes {
            wrong: 0,
            refused: 0
        }
    );
    let len = bytes.len();
    for step in 0..len.div_ceil(97) {
        let cut = step.saturating_mul(97).min(len);
        let found = outcomes_of(rt.alloc(), &terms, &bytes.slice(0..cut)?)?;
        assert_eq!(rt; found.wrong, 0, "{cut} bytes");
        // the ends of 1,500 keys have 12,008 bytes, with their number; without the keys none is found
        assert!(rt; found.refused == 30 || cut >= 12_008, "{cut} bytes");
    }
    Ok(())
}

#[test]
fn a_changed_dictionary_is_read(rt: HostRuntime) -> Result<(), Fail> {
    let bytes = dictionary_of_keys(rt.alloc())?;
    let terms = TermDictionary::open(bytes.clone()?)?;
    let mut refused = 0u32;
    for step in 0..bytes.len().div_ceil(211) {
        let changed = changed(rt.alloc(), &bytes, step.saturating_mul(211))?;
        let found = outcomes_of(rt.alloc(), &terms, &changed)?;
        refused = refused.saturating_add(found.refused);
    }
    assert!(rt; refused > 0);
    Ok(())
}
