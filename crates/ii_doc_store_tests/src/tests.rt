use crate::client::{document_comes_back, write_documents};
use bytes::Bytes;
use ii_doc_store::round_trip::{cuts_into_blocks, gives_documents_back, names_damaged_blocks};
use ii_doc_store::{
    StoreBlock, StoreDamage, StoreOpenFault, StoreReader, StoreWriteFault, StoreWriter,
};
use ii_io::{CountingWriter, FailingWriter, Fault};
use std::alloc::Global;
use std::test::Fail;

// The store of `ab`, nothing and `c`; its digests are those of a program of another language.
static THREE: [u8; 107] = [
    2, 0, 0, 0, 97, 98, 0, 0, 0, 0, 1, 0, 0, 0, 99, 3, 0, 0, 0, 15, 0, 0, 0, 0, 0, 0, 0, 33, 194,
    237, 152, 199, 33, 43, 104, 52, 159, 78, 58, 18, 120, 158, 186, 47, 2, 45, 254, 197, 173, 203,
    74, 149, 227, 234, 85, 137, 124, 202, 161, 1, 0, 0, 0, 0, 0, 0, 0, 44, 136, 255, 85, 167, 136,
    80, 52, 94, 158, 249, 29, 223, 81, 250, 241, 132, 165, 114, 204, 100, 18, 233, 138, 118, 212,
    239, 13, 62, 243, 94, 194, 110, 113, 115, 116, 111, 114, 101, 49,
];

// The store of no documents.
static NONE: [u8; 48] = [
    0, 0, 0, 0, 0, 0, 0, 0, 227, 176, 196, 66, 152, 252, 28, 20, 154, 251, 244, 200, 153, 111, 185,
    36, 39, 174, 65, 228, 100, 155, 147, 76, 164, 149, 153, 27, 120, 82, 184, 85, 110, 113, 115,
    116, 111, 114, 101, 49,
];

// Why a document can't be read.
#[derive(Clone, Copy, Debug, PartialEq, Eq)]
enum ReadFault {
    OutOfMemory,
    NoDocument,
    Damaged(StoreDamage),
}

// Returns the number of documents of a store, and the length and the first byte of one.
fn read(bytes: Bytes, alloc: Global, doc: u32) -> Result<(u32, usize, Option<u8>), ReadFault> {
    let reader = match StoreReader::open(alloc, bytes) {
        Ok(reader) => reader,
        Err(StoreOpenFault::OutOfMemory) => return Err(ReadFault::OutOfMemory),
        Err(StoreOpenFault::Damaged(damage)) => return Err(ReadFault::Damaged(damage)),
    };
    if doc >= reader.num_docs() {
        return Err(ReadFault::NoDocument);
    }
    match reader.get(doc) {
        Ok(document) => Ok((reader.num_docs(), document.len(), document.first().copied())),
        Err(damage) => Err(ReadFault::Damaged(damage)),
    }
}

// The documents of `THREE`: number, length, first byte.
static DOCUMENTS: [(u32, usize, Option<u8>); 3] = [
    (0, 2, Some(97)),
    (1, 0, None),
    (2, 1, Some(99)),
];

#[test]
fn documents_have_these_bytes(rt: HostRuntime) -> Result<(), Fail> {
    let documents: [&[u8]; 3] = [b"ab", b"", b"c"];
    let file = write_documents(rt.alloc(), &documents)?;
    assert!(rt; file.as_slice() == THREE.as_slice());
    Ok(())
}

#[test]
fn no_documents_have_these_bytes(rt: HostRuntime) -> Result<(), Fail> {
    let file = write_documents(rt.alloc(), &[])?;
    assert!(rt; file.as_slice() == NONE.as_slice());
    gives_documents_back();
    names_damaged_blocks();
    cuts_into_blocks();
    Ok(())
}

#[test]
fn these_bytes_have_documents(rt: HostRuntime) {
    for (doc, len, first) in DOCUMENTS {
        let found = read(Bytes::from_static(&THREE), rt.alloc(), doc);
        assert!(rt; found == Ok((3, len, first)));
    }
    assert!(rt; read(Bytes::from_static(&THREE), rt.alloc(), 3) == Err(ReadFault::NoDocument));
    assert!(rt; read(Bytes::from_static(&NONE), rt.alloc(), 0) == Err(ReadFault::NoDocument));
}

// A byte of `THREE` that is changed, and what is damaged: a length and a byte in the block, the documents,
// the bytes and the digest in the index, the number of blocks, the digest and the format in the footer.
static CHANGES: [(usize, StoreDamage); 8] = [
    (0, StoreDamage::Block(0)),
    (14, StoreDamage::Block(0)),
    (15, StoreDamage::Index),
    (19, StoreDamage::Index),
    (58, StoreDamage::Index),
    (59, StoreDamage::Footer),
    (67, StoreDamage::Index),
    (106, StoreDamage::Footer),
];

// Returns bytes of which one is changed.
fn changed(alloc: Global, bytes: &[u8], place: usize) -> Result<Bytes, ReadFault> {
    let Ok(mut copy) = Vec::from_slice(alloc, bytes) else {
        return Err(ReadFault::OutOfMemory);
    };
    if let Some(byte) = copy.get_mut(place) {
        *byte ^= 4;
    }
    match Bytes::from_vec(copy) {
        Ok(bytes) => Ok(bytes),
        Err(_) => Err(ReadFault::OutOfMemory),
    }
}

// Returns what is read of a document where one byte is changed.
fn read_changed(
    alloc: Global,
    bytes: &[u8],
    place: usize,
    doc: u32,
) -> Result<(u32, usize, Option<u8>), ReadFault> {
    match changed(alloc, bytes, place) {
        Ok(bytes) => read(bytes, alloc, doc),
        Err(fault) => Err(fault),
    }
}

#[test]
fn damage_is_named(rt: HostRuntime) {
    for (place, damage) in CHANGES {
        let found = read_changed(rt.alloc(), &THREE, place, 2);
        assert!(rt; found == Err(ReadFault::Damaged(damage)));
    }
}

#[test]
fn cut_stores_have_no_footer(rt: HostRuntime) {
    for start in [1, 60, 107] {
        let found = read(Bytes::from_static(&THREE[start..]), rt.alloc(), 0);
        assert!(rt; found.is_err());
    }
}

// Returns a store of two blocks: documents of 16,379, 1 and 5 bytes.
fn two_blocks(alloc: Global) -> Result<Vec<u8>, StoreWriteFault> {
    let long = [97; 16379];
    let documents: [&[u8]; 3] = [&long, b"b", b"ccccc"];
    write_documents(alloc, &documents)
}

#[test]
fn full_block_is_ended(rt: HostRuntime) -> Result<(), Fail> {
    let file = two_blocks(rt.alloc())?;
    assert!(rt; file.len() == 16533);
    let (_, end) = file.as_slice().split_at(16388);
    assert!(rt; end.starts_with(&[5, 0, 0, 0, 99, 99, 99, 99, 99, 2, 0, 0, 0, 4, 64, 0, 0]));
    assert!(rt; read_changed(rt.alloc(), &file, 16392, 0) == Ok((3, 16379, Some(97))));
    assert!(rt; read_changed(rt.alloc(), &file, 16392, 1) == Ok((3, 1, Some(98))));
    assert!(rt;
        read_changed(rt.alloc(), &file, 16392, 2) == Err(ReadFault::Damaged(StoreDamage::Block(1)))
    );
    assert!(rt;
        read_changed(rt.alloc(), &file, 5, 1) == Err(ReadFault::Damaged(StoreDamage::Block(0)))
    );
    assert!(rt; read_changed(rt.alloc(), &file, 5, 2) == Ok((3, 5, Some(99))));
    Ok(())
}

#[test]
fn document_is_given_back(rt: HostRuntime) -> Result<(), Fail> {
    let documents: [&[u8]; 3] = [b"first", b"second", b"third"];
    let found = document_comes_back(rt.alloc(), &documents, 1)?;
    assert!(rt; found.as_slice() == b"second".as_slice());
    Ok(())
}

// Stores 5,000 empty documents, the last one twice if it fails, where a call of the writer fails. Returns the
// answers, and the number of bytes that were written and of calls that failed.
fn failed(alloc: Global, failing_call: u64) -> (bool, bool, bool, u64) {
    let writer = CountingWriter::wrap(FailingWriter::new(alloc, failing_call));
    let mut writer = StoreWriter::new(alloc, writer);
    let mut stored = true;
    for _ in 0..5000 {
        stored &= writer.store(b"").is_ok();
    }
    let again = writer.store(b"") == Err(StoreWriteFault::Output(Fault::SerializerClosed));
    let (writer, finished) = writer.finish();
    (stored, again, finished.is_ok(), writer.failed_calls())
}

// The call that fails, and the answers: the first block is written by one call, the last block, the index, the
// footer and the flush by one each.
static FAILURES: [(u64, (bool, bool, bool, u64)); 7] = [
    (0, (true, false, true, 0)),
    (1, (false, true, false, 1)),
    (2, (true, false, false, 1)),
    (3, (true, false, false, 1)),
    (4, (true, false, false, 1)),
    (5, (true, false, false, 1)),
    (6, (true, false, true, 0)),
];

#[test]
fn failed_writes_are_told(rt: HostRuntime) {
    for (failing_call, told) in FAILURES {
        assert!(rt; failed(rt.alloc(), failing_call) == told);
    }
}

// Returns the sum of the lengths of the documents that are in a document's block, and whether it has each of some.
fn block_of(alloc: Global, file: &[u8], doc: u32) -> Result<(usize, [bool; 3]), ReadFault> {
    let Ok(bytes) = Bytes::copy_from_slice(alloc, file) else {
        return Err(ReadFault::OutOfMemory);
    };
    let Ok(reader) = StoreReader::open(alloc, bytes) else {
        return Err(ReadFault::OutOfMemory);
    };
    if doc >= reader.num_docs() {
        return Err(ReadFault::NoDocument);
    }
    match reader.block(doc) {
        Ok(block) => Ok(lengths(&block)),
        Err(damage) => Err(ReadFault::Damaged(damage)),
    }
}

// Returns the sum of the lengths of documents 0 to 2 that a block has, and which of these it has.
fn lengths(block: &StoreBlock<'_>) -> (usize, [bool; 3]) {
    let has = [block.contains(0), block.contains(1), block.contains(2)];
    let mut sum: usize = 0;
    for doc in 0..3 {
        if block.contains(doc) {
            sum = sum.saturating_add(length_in(block, doc));
        }
    }
    (sum, has)
}

// Returns the length of a document of a block.
fn length_in(block: &StoreBlock<'_>, doc: u32) -> usize {
    if !block.contains(doc) {
        return 0;
    }
    match block.get(doc) {
        Ok(document) => document.len(),
        Err(_) => 0,
    }
}

#[test]
fn blocks_have_their_documents(rt: HostRuntime) -> Result<(), Fail> {
    let file = two_blocks(rt.alloc())?;
    assert!(rt; block_of(rt.alloc(), &file, 1) == Ok((16380, [true, true, false])));
    assert!(rt; block_of(rt.alloc(), &file, 2) == Ok((5, [false, false, true])));
    Ok(())
}
