use crate::dictionary_tests::dictionary;
use bytes::Bytes;
use ii_io::Fault;
use ii_termdict::{ComingTerms, TermDictionary, TermInfo, TermMerger};
use std::alloc::Global;
use std::test::Fail;

// A dictionary without keys.
static NONE: [u8; 24] = [0; 24];

// Returns the number of documents of each info, 0 for none.
fn counts_of(infos: &Vec<Option<TermInfo>>) -> [u32; 3] {
    let mut counts = [0; 3];
    for (place, count) in counts.iter_mut().enumerate() {
        if let Some(Some(info)) = infos.as_slice().get(place) {
            *count = info.doc_freq;
        }
    }
    counts
}

// Merges these dictionaries. Returns the first key's length, its numbers of documents, and whether a key is
// left.
fn merged(
    alloc: Global,
    dictionaries: [&TermDictionary; 3],
) -> Result<Option<(usize, [u32; 3], bool)>, Fault> {
    let mut coming = Vec::new(alloc);
    for dictionary in dictionaries {
        coming.push(ComingTerms::new(dictionary))?;
    }
    let mut terms = TermMerger::new(coming);
    let Some(key) = terms.least_key() else {
        return Ok(None);
    };
    let mut infos = Vec::new(alloc);
    terms.take(key, &mut infos)?;
    Ok(Some((key.len(), counts_of(&infos), terms.least_key().is_some())))
}

#[test]
fn terms_are_merged(rt: HostRuntime) -> Result<(), Fail> {
    let one = dictionary(rt.alloc())?;
    let none = TermDictionary::open(Bytes::from_static(&NONE))?;
    assert!(rt; merged(rt.alloc(), [&one, &none, &one])? == Some((1, [3, 0, 3], false)));
    assert!(rt; merged(rt.alloc(), [&none, &none, &none])? == None);
    Ok(())
}
