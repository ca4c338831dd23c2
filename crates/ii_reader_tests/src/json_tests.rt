use bytes::Bytes;
use ii_base::{Fault, IndexRecordOption, Part, ValueType};
use ii_reader::{InvertedIndexFieldSpace, InvertedIndexReader};
use ii_termdict::TermDictionary;
use std::alloc::Global;
use std::test::Fail;

// A store of one term in 3 documents with 3 bytes of postings, and what follows it.
static STORE: [u8; 56] = [
    39, 0, 0, 0, 0, 0, 0, 0, 1, 0, 0, 0, 0, 0, 0, 0, 0, 0, 0, 0, 0, 0, 0, 0, 3, 0, 0, 0, 0, 0, 0,
    0, 0, 0, 0, 0, 3, 0, 0, 0, 0, 0, 0, 0, 0, 0, 0, 0, 0, 0, 0, 0, 0, 2, 0, 3,
];

// Three tokens, and three documents.
static POSTINGS: [u8; 11] = [3, 0, 0, 0, 0, 0, 0, 0, 0x80, 0x81, 0x81];

// Opens a dictionary of one term: the number of keys, the key with its length, and the store.
fn terms_of(alloc: Global, key: &[u8]) -> Result<TermDictionary, Fault> {
    let mut bytes = Vec::from_slice(alloc, &1u64.to_le_bytes())?;
    bytes.extend_from_slice(&(key.len() as u64).to_le_bytes())?;
    bytes.extend_from_slice(key)?;
    bytes.extend_from_slice(&STORE)?;
    Ok(TermDictionary::open(Bytes::from_vec(bytes)?)?)
}

// Returns the paths and types of a reader with one term.
fn fields_of(alloc: Global, key: &[u8]) -> Result<Vec<InvertedIndexFieldSpace>, Fault> {
    let terms = terms_of(alloc, key)?;
    let postings = Bytes::from_static(&POSTINGS);
    InvertedIndexReader::new(
        terms,
        postings,
        Bytes::new(),
        IndexRecordOption::Basic,
    )?.list_encoded_json_fields(alloc)
}

// Returns whether this is the only path, with a number of one term with 3 bytes of postings.
fn is_only_number(fields: &[InvertedIndexFieldSpace], path: &[u8]) -> bool {
    if fields.len() != 1 {
        return false;
    }
    let field = &fields[0];
    if field.field_name.as_slice() != path || field.field_type != ValueType::I64 {
        return false;
    }
    (field.postings_size, field.positions_size, field.num_terms) == (3, 0, 1)
}

// Returns whether a key has this path and a number.
fn has_number(alloc: Global, key: &[u8], path: &[u8]) -> Result<bool, Fault> {
    let fields = fields_of(alloc, key)?;
    Ok(is_only_number(fields.as_slice(), path))
}

#[test]
fn paths_and_types_are_told(rt: HostRuntime) -> Result<(), Fail> {
    let rows: [(&[u8], &[u8]); 3] = [
        (b"n\0i\x80\0\0\0\0\0\0\x05", b"n"),
        (b"a\x01b\0i", b"a\x01b"),
        (b"\0i\0", b""),
    ];
    for (key, path) in rows {
        assert!(rt; has_number(rt.alloc(), key, path)?);
    }
    let reader = InvertedIndexReader::empty(IndexRecordOption::Basic);
    assert!(rt; reader.list_encoded_json_fields(rt.alloc())?.is_empty());
    Ok(())
}

#[test]
fn keys_without_a_type_are_damaged(rt: HostRuntime) {
    let keys: [&[u8]; 3] = [b"a", b"a\0", b"a\0z"];
    for key in keys {
        let fault = fields_of(rt.alloc(), key).err();
        assert!(rt; fault == Some(Fault::Damaged(Part::JsonKey)));
    }
}
