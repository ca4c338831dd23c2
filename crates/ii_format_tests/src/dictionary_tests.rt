ghost use Rattle.std.specs.Prelude.{◌≡◌, [], false, length};
ghost use Rattle.ii_termstore.specs.TermInfos.{term_info_from};

use bytes::Bytes;
use ii_io::{CountingWriter, FailingWriter, Fault, Part};
use ii_termdict::written::reads_dictionary_back;
use ii_termdict::{TermDictionary, TermDictionaryBuilder, TermDictionaryWriter, TermInfo};
use std::alloc::Global;
use std::test::Fail;

// One key, `a`, in 3 documents with 3 bytes of postings. It is a function so that no proof unfolds it.
fn one() -> [u8; 73] {
    [
        1, 0, 0, 0, 0, 0, 0, 0, 1, 0, 0, 0, 0, 0, 0, 0, 0x61, 0x27, 0, 0, 0, 0, 0, 0, 0, 1, 0, 0,
        0, 0, 0, 0, 0, 0, 0, 0, 0, 0, 0, 0, 0, 3, 0, 0, 0, 0, 0, 0, 0, 0, 0, 0, 0, 3, 0, 0, 0, 0,
        0, 0, 0, 0, 0, 0, 0, 0, 0, 0, 0, 0, 2, 0, 3,
    ]
}

// Returns that dictionary with one byte replaced.
fn changed(place: usize, byte: u8) -> [u8; 73] {
    let mut bytes = one();
    if place < bytes.len() {
        bytes[place] = byte;
    }
    bytes
}

// Returns zeros with other bytes at some places.
fn zeros_but(places: &[(usize, u8)]) -> [u8; 42] {
    let mut bytes = [0u8; 42];
    for (place, byte) in places {
        if *place < bytes.len() {
            bytes[*place] = *byte;
        }
    }
    bytes
}

// Returns the term info of the key.
fn info() -> TermInfo
    ensures { result ≡ term_info_from 3 0 3 0 0 }
{
    TermInfo {
        doc_freq: 3,
        postings_range: 0..3,
        positions_range: 0..0,
    }
}

// Inserts the key.
fn insert_one(builder: &mut TermDictionaryBuilder<FailingWriter>) -> Result<(), Fault>
    requires fresh { (builder.old.keys ≡ []) × (builder.old.infos ≡ []) }
    ensures whole { builder.new.closed ≡ false → length builder.new.keys ≡ length builder.new.infos }
{
    builder.insert_key(b"a")?;
    builder.insert_value(&info())
}

// Returns the number of bytes written when a call fails, if they are a prefix of that dictionary, and the
// result.
fn ending(alloc: Global, failing_call: u64) -> (Option<usize>, Result<(), Fault>) {
    let writer = CountingWriter::wrap(FailingWriter::new(alloc, failing_call));
    let mut builder = TermDictionaryBuilder::create(alloc, writer);
    let term = insert_one(&mut builder);
    let (writer, finished) = builder.finish();
    let (writer, answer) = (writer.finish(), term.and(finished));
    if one().starts_with(writer.bytes()) {
        return (Some(writer.bytes().len()), answer);
    }
    (None, answer)
}

#[test]
fn writes_one_key(rt: HostRuntime) {
    assert!(rt; ending(rt.alloc(), 0) == (Some(73), Ok(())));
    let mut failed = 0;
    for k in 1..20 {
        let (written, answer) = ending(rt.alloc(), k);
        let want = if written == Some(73) {
            Ok(())
        } else {
            failed = k;
            Err(Fault::Write)
        };
        assert!(rt; (written.is_some(), answer) == (true, want), "call {k}");
    }
    assert!(rt; 0 < failed && failed < 19);
}

static NOTHING: [u8; 24] = [0; 24];

#[test]
fn writes_no_keys(rt: HostRuntime) {
    let writer = CountingWriter::wrap(Vec::new(rt.alloc()));
    let builder = TermDictionaryBuilder::create(rt.alloc(), writer);
    let (writer, finished) = builder.finish();
    let is_written = writer.finish().as_slice() == NOTHING.as_slice();
    assert!(rt; (is_written, finished) == (true, Ok(())));
}

// Returns whether ordinal 0 gives the key and ordinal 1 gives none, in a buffer and as borrowed bytes.
fn has_one_place(terms: &TermDictionary, key: &mut Vec<u8>) -> Result<[bool; 5], Fault> {
    let first = terms.ord_to_term(0, key)?;
    let is_a = key.as_slice() == A.as_slice();
    let second = terms.ord_to_term(1, key)?;
    let is_only = terms.num_terms() == 1 && terms.key(0) == A.as_slice();
    Ok([first, is_a, !second, key.is_empty(), is_only])
}

static A: [u8; 1] = *b"a";

// Opens the dictionary of that key.
pub(crate) fn dictionary(alloc: Global) -> Result<TermDictionary, Fault> {
    TermDictionary::open(Bytes::copy_from_slice(alloc, &one())?)
}

// If a stream has a first term, returns whether two further steps succeed, whether the key is then still `a`,
// and the term info.
fn streamed(terms: &TermDictionary) -> Option<([bool; 2], bool, TermInfo)> {
    let mut stream = terms.stream();
    if !stream.advance() {
        return None;
    }
    let goes_on = [stream.advance(), stream.next().is_some()];
    let is_a = stream.key() == A.as_slice();
    Some((goes_on, is_a, stream.value()))
}

#[test]
fn looks_keys_up(rt: HostRuntime) -> Result<(), Fail> {
    let terms = dictionary(rt.alloc())?;
    let places = has_one_place(&terms, &mut Vec::new(rt.alloc()));
    assert!(rt; places == Ok([true; 5]));
    let infos = [terms.get(b"b"), terms.get(&[]), terms.get(&A)];
    assert!(rt; infos == [None, None, Some(info())]);
    assert!(rt; streamed(&terms) == Some(([false; 2], true, info())));
    assert!(rt; TermDictionary::empty().num_terms() == 0);
    reads_dictionary_back();
    Ok(())
}

// Returns the first `n` bytes.
fn front(bytes: &[u8], n: usize) -> &[u8] {
    if n <= bytes.len() { &bytes[..n] } else { bytes }
}

// Returns the result of opening some bytes.
fn opened(alloc: Global, bytes: &[u8]) -> Result<usize, Fault> {
    let terms = TermDictionary::open(Bytes::copy_from_slice(alloc, bytes)?)?;
    Ok(terms.num_terms())
}

#[test]
fn refuses_damaged_dictionaries(rt: HostRuntime) {
    let (keys, store) = (
        Err(Fault::Damaged(Part::Dictionary)),
        Err(Fault::Damaged(Part::TermStore)),
    );
    // the key twice, and the key once over a store of no terms
    let twice = zeros_but(&[(0, 2), (8, 1), (16, 2), (24, 0x61), (25, 0x61)]);
    let without_terms = zeros_but(&[(0, 1), (8, 1), (16, 0x61)]);
    for (bytes, want) in [
        (front(&NOTHING, 7), keys),
        (front(&NOTHING, 23), store),
        (front(&one(), 71), store),
        (front(&twice, 42), keys),
        (front(&without_terms, 33), keys),
        (front(&NOTHING, 24), Ok(0)),
        (front(&one(), 72), Ok(1)),
    ] {
        assert!(rt; opened(rt.alloc(), bytes) == want);
    }
}

#[test]
fn refuses_corrupt_numbers(rt: HostRuntime) {
    let (keys, store) = (
        Err(Fault::Damaged(Part::Dictionary)),
        Err(Fault::Damaged(Part::TermStore)),
    );
    for (place, byte, want) in [
        (70, 57, store),
        (69, 33, store),
        (7, 0x20, keys),
        (7, 0xFF, keys),
        (15, 0xFF, keys),
        (24, 0xFF, store),
        (32, 0xFF, store),
        (70, 56, Ok(1)),
        (40, 0x20, Ok(1)),
    ] {
        let answer = opened(rt.alloc(), &changed(place, byte));
        assert!(rt; answer == want, "byte {place}");
    }
}

// Finishes a dictionary with one key. If that fails, finishes it again and inserts a key and a value.
fn call_on(alloc: Global, failing_call: u64) -> Result<[Result<(), Fault>; 4], Fault> {
    let mut terms = TermDictionaryWriter::new(alloc);
    let info = TermInfo::default();
    terms.insert_key(b"a")?;
    terms.insert_value(&info)?;
    let mut writer = CountingWriter::wrap(FailingWriter::new(alloc, failing_call));
    let finished = terms.finish(&mut writer);
    if finished.is_ok() {
        return Ok([finished, Ok(()), Ok(()), Ok(())]);
    }
    let again = terms.finish(&mut writer);
    let key = terms.insert_key(b"a");
    let value = terms.insert_value(&info);
    Ok([finished, again, key, value])
}

#[test]
fn each_call_can_be_made_after_a_refusal(rt: HostRuntime) -> Result<(), Fail> {
    let closed = Err(Fault::SerializerClosed);
    let refused = [Err(Fault::Write), closed, closed, closed];
    for (call, want) in [(0, [Ok(()); 4]), (1, refused), (4, refused)] {
        assert!(rt; call_on(rt.alloc(), call)? == want, "call {call}");
    }
    Ok(())
}
