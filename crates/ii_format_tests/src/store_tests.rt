ghost use Rattle.std.specs.Prelude.{◌<◌, ◌+◌, ◌*◌};
ghost use Rattle.ii_termstore.specs.TermInfos.{HasLengths};

use bytes::Bytes;
use ii_io::{BinarySerializable, CountingWriter, FailingWriter, Fault};
use ii_termstore::written::reads_store_back;
use ii_termstore::{TermInfo, TermInfoBlockMeta, TermInfoStore};
use joined_terms::JoinedTerms;
use std::alloc::Global;
use std::test::Fail;

mod joined_terms;

// Returns term `i` of a thousand.
fn term(i: u32) -> TermInfo
    requires { i < 1000 }
    ensures { HasLengths result }
{
    let start = 13 * i as usize + (i * i) as usize;
    let end = start + 14 + 2 * i as usize;
    TermInfo {
        doc_freq: i,
        postings_range: start..end,
        positions_range: 3 * start..3 * end,
    }
}

// Returns the bytes that a store writes.
fn bytes_of(alloc: Global, store: &mut JoinedTerms) -> Result<Vec<u8>, Fault> {
    let mut writer = CountingWriter::wrap(Vec::new(alloc));
    store.serialize(&mut writer)?;
    Ok(writer.finish())
}

// Returns the bytes of a store of those terms, 256 to a block. It is also written before its last term.
fn thousand_terms(alloc: Global) -> Result<Vec<u8>, Fault> {
    let mut store = JoinedTerms::new(alloc);
    for i in 0..1000u32 {
        if i == 999 {
            bytes_of(alloc, &mut store)?;
        }
        store.write(i, 14 + 2 * i, 3 * (14 + 2 * i))?;
    }
    bytes_of(alloc, &mut store)
}

// Reads the two numbers at the front of a store.
fn head(bytes: &[u8]) -> [Option<u64>; 2] {
    let mut rest = bytes;
    [u64::deserialize(&mut rest), u64::deserialize(&mut rest)]
}

// Returns term `i` of a store, if it exists.
fn info_at(infos: &TermInfoStore, i: u64) -> Option<TermInfo> {
    if i < infos.num_terms() as u64 {
        Some(infos.get(i))
    } else {
        None
    }
}

#[test]
fn stores_a_thousand_terms(rt: HostRuntime) -> Result<(), Fail> {
    let bytes = thousand_terms(rt.alloc())?;
    assert!(rt; head(bytes.as_slice()) == [Some(39 * 4), Some(1000)]);
    let infos = TermInfoStore::open(Bytes::from_vec(bytes)?)?.clone()?;
    for i in 0..1000u32 {
        assert!(rt; info_at(&infos, u64::from(i)) == Some(term(i)), "term {i}");
    }
    let far = TermInfo {
        doc_freq: 256,
        postings_range: 68864..69390,
        positions_range: 206592..208170,
    };
    assert!(rt; (info_at(&infos, 256), info_at(&infos, 1000)) == (Some(far), None));
    reads_store_back();
    Ok(())
}

// Returns the meta of some terms.
fn meta() -> TermInfoBlockMeta
    ensures { HasLengths result.ref_term_info }
{
    TermInfoBlockMeta {
        offset: 2009,
        ref_term_info: TermInfo {
            doc_freq: 512,
            postings_range: 51..57,
            positions_range: 110..134,
        },
        doc_freq_nbits: 10,
        postings_offset_nbits: 5,
        positions_offset_nbits: 8,
    }
}

// Returns the number of bytes of a meta, the meta read from them, and how many bytes remain.
fn read_meta(alloc: Global) -> Result<(usize, Option<TermInfoBlockMeta>, usize), Fault> {
    let mut writer = CountingWriter::wrap(Vec::new(alloc));
    meta().serialize(&mut writer)?;
    let bytes = writer.finish();
    let mut rest = bytes.as_slice();
    let meta = TermInfoBlockMeta::deserialize(&mut rest);
    Ok((bytes.len(), meta, rest.len()))
}

#[test]
fn metas_are_read_back(rt: HostRuntime) -> Result<(), Fail> {
    assert!(rt; read_meta(rt.alloc())? == (39, Some(meta()), 0));
    assert!(rt; TermInfoBlockMeta::default().ref_term_info == TermInfo::default());
    Ok(())
}

// Builds a writer with this many terms.
fn many(alloc: Global, terms: u32) -> Result<JoinedTerms, Fault> {
    let mut store = JoinedTerms::new(alloc);
    for i in 0..terms {
        store.write(i, 2, 6)?;
    }
    Ok(store)
}

// Serializes a store of 300 terms twice and writes two terms, while a call of the writer fails. Returns the
// results and the number of bytes written, or `usize::MAX` if they aren't a prefix of the complete store.
fn told_at(alloc: Global, k: u64, whole: &[u8]) -> Result<([Result<(), Fault>; 4], usize), Fault> {
    let mut store = many(alloc, 300)?;
    let mut writer = CountingWriter::wrap(FailingWriter::new(alloc, k));
    let answers = [
        store.serialize(&mut writer),
        store.serialize(&mut writer),
        store.write(1, 1, 1),
        store.write(1, 1, 1),
    ];
    let written = writer.finish();
    if !whole.starts_with(written.bytes()) {
        return Ok((answers, usize::MAX));
    }
    Ok((answers, written.bytes().len()))
}

#[test]
fn stores_end_at_the_call_that_fails(rt: HostRuntime) -> Result<(), Fail> {
    let whole = bytes_of(rt.alloc(), &mut many(rt.alloc(), 300)?)?;
    let closed = Err(Fault::SerializerClosed);
    let refused = [Err(Fault::Write), closed, closed, closed];
    let mut failed = 0;
    for k in 1..20 {
        let (answers, written) = told_at(rt.alloc(), k, whole.as_slice())?;
        if answers[0].is_ok() {
            break;
        }
        failed = k;
        let is_short = written < whole.len();
        assert!(rt; (answers, is_short) == (refused, true), "call {k}");
    }
    assert!(rt; 0 < failed && failed < 19);
    Ok(())
}

// Returns the result of serializing a value when a call fails, and the number of bytes written.
fn ending<T: BinarySerializable>(alloc: Global, k: u64, value: &T) -> (Result<(), Fault>, usize)
    requires { T.can_serialize value.now }
{
    let mut writer = CountingWriter::wrap(FailingWriter::new(alloc, k));
    let answer = value.serialize(&mut writer);
    (answer, writer.finish().bytes().len())
}

#[test]
fn terms_and_metas_end_at_the_call_that_fails(rt: HostRuntime) {
    for (k, answer, lens) in [(1, Err(Fault::Write), (0, 0)), (2, Ok(()), (28, 39))] {
        let term = ending(rt.alloc(), k, &term(3));
        let meta = ending(rt.alloc(), k, &TermInfoBlockMeta::default());
        assert!(rt;
            (term, meta) == ((answer, lens.0), (answer, lens.1)),
            "call {k}"
        );
    }
}
