// Tables of calls: the postings found, the files written, and the errors.
ghost use Rattle.std.specs.Prelude.{◌≡◌, length};

use crate::memory_index::{
    Call, Key, Kind, Leaf, Said, calls_of, files_of, files_of_calls, indexed, tokens_at, told,
};
use ii_base::{Fault, Field, LeafKind, LimitName, ValueType};
use ii_docset::DocId;
use ii_indexing::{IndexCall, IndexWriters};
use ii_reader::{InvertedIndexFieldSpace, OpenIndex};
use std::alloc::Global;
use std::test::Fail;

// An object of numbers. A key is repeated, and one has byte 0.
const NUMBERS: Call = (
    0,
    0,
    Said::Object(&[
        ("a", Leaf::Under("b", 1)),
        ("a", Leaf::Number(2)),
        ("c\0", Leaf::Number(3)),
    ]),
);

// Fields, number of documents, calls, keys, and the postings found.
static FOUND: [(&[Kind], DocId, &[Call], &[Key], &str); 13] = [
    // no calls
    (
        &[Kind::Text(false)],
        0,
        &[],
        &[(0, b"a")],
        "; 0 tokens of 0 terms",
    ),
    // positions are counted per field
    (
        &[Kind::Text(true), Kind::Text(false)],
        1,
        &[
            (0, 0, Said::Text("a")),
            (0, 1, Said::Text("b")),
            (0, 0, Said::Text("a")),
        ],
        &[(0, b"a"), (1, b"b"), (1, b"a")],
        "0:2:0,2, ; 0:1:0, ; ; 2 tokens of 1 terms",
    ),
    // positions restart in each document
    (
        &[Kind::Text(false)],
        2,
        &[
            (0, 0, Said::Tokens(&[(5, 1, 1)])),
            (1, 0, Said::Tokens(&[(0, 1, 1)])),
        ],
        &[(0, b"a")],
        "0:1:5, 1:1:0, ; 2 tokens of 1 terms",
    ),
    // positions that aren't recorded may decrease
    (
        &[Kind::Counted],
        1,
        &[(0, 0, Said::Tokens(&[(5, 1, 1), (4, 1, 1)]))],
        &[(0, b"a")],
        "0:2: ; 2 tokens of 1 terms",
    ),
    // positions may be equal
    (
        &[Kind::Text(false)],
        1,
        &[(0, 0, Said::Tokens(&[(5, 1, 1), (5, 1, 1)]))],
        &[(0, b"a")],
        "0:2:5,5, ; 2 tokens of 1 terms",
    ),
    // long tokens are skipped wherever they occur
    (
        &[Kind::Text(false)],
        1,
        &[(0, 0, Said::Tokens(&[(usize::MAX, 1, 65531)]))],
        &[],
        "0 tokens of 0 terms",
    ),
    // values of each type; the date is 1990-01-01T00:00:00Z
    (
        &[
            Kind::U64,
            Kind::I64,
            Kind::Bool,
            Kind::Ip,
            Kind::Bytes,
            Kind::Date,
        ],
        1,
        &[
            (0, 0, Said::U64(5)),
            (0, 1, Said::I64(-5)),
            (0, 2, Said::Bool(true)),
            (0, 3, Said::Ip(1)),
            (0, 4, Said::Bytes(b"abc")),
            (0, 5, Said::Date(631152000000000000)),
        ],
        &[
            (0, &[0, 0, 0, 0, 0, 0, 0, 5]),
            (0, &[0, 0, 0, 0, 0, 0, 0, 6]),
            (1, &[0x7F, 0xFF, 0xFF, 0xFF, 0xFF, 0xFF, 0xFF, 0xFB]),
            (2, &[0, 0, 0, 0, 0, 0, 0, 1]),
            (3, &[0, 0, 0, 0, 0, 0, 0, 0, 0, 0, 0, 0, 0, 0, 0, 1]),
            (4, b"abc"),
            (5, &[0x88, 0xC2, 0x4D, 0x66, 0x67, 0x47, 0, 0]),
        ],
        "0:1: ; ; 0:1: ; 0:1: ; 0:1: ; 0:1: ; 0:1: ; 1 tokens of 1 terms",
    ),
    // JSON fields count positions per path
    (
        &[Kind::Json(false), Kind::Json(false)],
        1,
        &[
            (0, 0, Said::Object(&[("a", Leaf::Text("x"))])),
            (0, 1, Said::Object(&[("a", Leaf::Text("x"))])),
            (0, 0, Said::Object(&[("a", Leaf::Text("x"))])),
        ],
        &[(0, b"a\0sx"), (1, b"a\0sx")],
        "0:2:0,2, ; 0:1:0, ; 2 tokens of 1 terms",
    ),
    // a date, an earlier one, a large number, and a number under a key with byte 0
    (
        &[Kind::Json(false)],
        1,
        &[(
            0,
            0,
            Said::Object(&[
                ("d", Leaf::Date(-1)),
                ("d", Leaf::Date(-1500000000)),
                ("u", Leaf::Number(9223372036854775808)),
                ("c\0", Leaf::Number(3)),
            ]),
        )],
        &[
            (0, &[0x64, 0, 0x64, 0x80, 0, 0, 0, 0, 0, 0, 0]),
            (
                0,
                &[0x64, 0, 0x64, 0x7F, 0xFF, 0xFF, 0xFF, 0xC4, 0x65, 0x36, 0],
            ),
            (0, &[0x75, 0, 0x75, 0x80, 0, 0, 0, 0, 0, 0, 0]),
        ],
        "0:1: ; 0:1: ; 0:1: ; 3 tokens of 3 terms",
    ),
    // dots are expanded if the field says so
    (
        &[Kind::Json(false)],
        1,
        &[(0, 0, Said::Object(&[("k8s.node", Leaf::Text("x"))]))],
        &[(0, b"k8s.node\0sx"), (0, b"k8s\x01node\0sx")],
        "0:1:0, ; ; 1 tokens of 1 terms",
    ),
    (
        &[Kind::Json(true)],
        1,
        &[(0, 0, Said::Object(&[("k8s.node", Leaf::Text("x"))]))],
        &[(0, b"k8s.node\0sx"), (0, b"k8s\x01node\0sx")],
        "; 0:1:0, ; 1 tokens of 1 terms",
    ),
    // texts of an array have one path, with a gap between them
    (
        &[Kind::Json(false)],
        1,
        &[(
            0,
            0,
            Said::Object(&[(
                "bands",
                Leaf::Each("band_name", &["Elliot Smith", "The Who"]),
            )]),
        )],
        &[
            (0, b"bands\x01band_name\0sElliot"),
            (0, b"bands\x01band_name\0sSmith"),
            (0, b"bands\x01band_name\0sThe"),
            (0, b"bands\x01band_name\0sWho"),
        ],
        "0:1:0, ; 0:1:1, ; 0:1:3, ; 0:1:4, ; 4 tokens of 4 terms",
    ),
    // a number at a path, one below it, and one under a key with byte 0
    (
        &[Kind::Json(false)],
        1,
        &[NUMBERS],
        &[
            (0, &[0x61, 0, 0x69, 0x80, 0, 0, 0, 0, 0, 0, 2]),
            (0, &[0x61, 1, 0x62, 0, 0x69, 0x80, 0, 0, 0, 0, 0, 0, 1]),
        ],
        "0:1: ; 0:1: ; 2 tokens of 2 terms",
    ),
];

// Returns the postings of keys in the index of some calls.
fn told_of(
    alloc: Global,
    kinds: &[Kind],
    num_docs: DocId,
    table: &[Call],
    keys: &[Key],
) -> Result<String, Fault> {
    let calls = calls_of(alloc, table)?;
    let (num_fields, index) = indexed(alloc, kinds, num_docs, calls)?;
    let told = told(alloc, num_fields, &index, keys);
    drop(index);
    told
}

#[test]
fn calls_are_found(rt: HostRuntime) -> Result<(), Fail> {
    for row in &FOUND {
        let (kinds, num_docs, table, keys, wanted) = *row;
        let told = told_of(rt.alloc(), kinds, num_docs, table, keys)?;
        assert_eq!(rt; told.as_str(), wanted);
    }
    Ok(())
}

// Returns whether a path of the numbers has one term of one byte of postings and of positions.
fn is_path(space: &InvertedIndexFieldSpace, path: &[u8]) -> bool {
    space.field_name.as_slice() == path
        && space.field_type == ValueType::I64
        && space.postings_size == 1
        && space.positions_size == 1
        && space.num_terms == 1
}

// Returns whether these are the paths of the numbers.
fn are_paths(spaces: &[InvertedIndexFieldSpace]) -> bool {
    spaces.len() == 2 && is_path(&spaces[0], b"a") && is_path(&spaces[1], b"a\x01b")
}

// Returns the same for the first field of an index.
fn has_paths(alloc: Global, num_fields: usize, index: &OpenIndex) -> Result<bool, Fault>
    requires { num_fields ≡ length index.now.readers }
{
    if num_fields == 0 {
        return Ok(false);
    }
    let reader = index.reader(Field::from_field_id(0));
    Ok(are_paths(reader.list_encoded_json_fields(alloc)?.as_slice()))
}

// Returns the same for the index of the numbers.
fn numbers_have_paths(alloc: Global) -> Result<bool, Fault> {
    let calls = calls_of(alloc, &[NUMBERS])?;
    let (num_fields, index) = indexed(alloc, &[Kind::Json(false)], 1, calls)?;
    let have = has_paths(alloc, num_fields, &index);
    drop(index);
    have
}

#[test]
fn paths_are_listed(rt: HostRuntime) -> Result<(), Fail> {
    assert!(rt; numbers_have_paths(rt.alloc())?);
    Ok(())
}

const NONE: &[u8] = &[0, 0, 0, 0];

// One token, and document 0.
const FIVE: &[u8] = &[1, 0, 0, 0, 0, 0, 0, 0, 0x80];

// A field, number of documents, calls, and the length and prefix of each file: terms, postings, positions,
// norms. A list without positions is one byte.
static FILES: [(&[Kind], DocId, &[Call], &[(usize, &[u8])]); 3] = [
    (
        &[Kind::Text(false)],
        0,
        &[],
        &[(4, NONE), (4, NONE), (4, NONE), (4, NONE)],
    ),
    (
        &[Kind::U64],
        1,
        &[(0, 0, Said::U64(5))],
        &[(104, &[]), (33, FIVE), (24, &[]), (4, NONE)],
    ),
    (
        &[Kind::Json(false)],
        1,
        &[(0, 0, Said::Object(&[("n", Leaf::Number(5))]))],
        &[(107, &[]), (33, FIVE), (25, &[0x80]), (4, NONE)],
    ),
];

// Returns whether bytes have this length and prefix.
fn is_as(bytes: &[u8], wanted: (usize, &'static [u8])) -> bool {
    let (len, start) = wanted;
    bytes.len() == len && bytes.starts_with(start)
}

// Returns whether this holds for each file.
fn are_as(files: IndexWriters<Vec<u8>>, wanted: &[(usize, &'static [u8])]) -> bool {
    let [of_terms, of_postings, of_positions, of_norms] = wanted else {
        drop(files);
        return false;
    };
    let IndexWriters {
        terms,
        postings,
        positions,
        fieldnorms,
    } = files;
    let mut all = is_as(terms.finish().as_slice(), *of_terms);
    all &= is_as(postings.finish().as_slice(), *of_postings);
    all &= is_as(positions.finish().as_slice(), *of_positions);
    all &= is_as(fieldnorms.finish().as_slice(), *of_norms);
    all
}

#[test]
fn files_have_their_bytes(rt: HostRuntime) -> Result<(), Fail> {
    for row in &FILES {
        let (kinds, num_docs, table, wanted) = *row;
        let (files, answer) = files_of(rt.alloc(), kinds, num_docs, table)?;
        assert!(rt;
            (answer, are_as(files, wanted)) == (Ok(()), true),
            "of {num_docs} documents"
        );
    }
    Ok(())
}

// Builds the calls of a word at positions 1, 3, 6 and 8 of each of 120 documents.
fn often(alloc: Global) -> Result<Vec<IndexCall>, Fault> {
    let places = [(1, 1, 1), (3, 1, 1), (6, 1, 1), (8, 1, 1)];
    let mut calls = Vec::new(alloc);
    for doc in 0..120 {
        let tokens = tokens_at(alloc, &places)?;
        calls.push(IndexCall::Tokens(doc, Field::from_field_id(0), tokens))?;
    }
    Ok(calls)
}

// Returns whether a file of positions has three blocks of two bits, 96 deltas, and its table.
fn has_deltas(bytes: &[u8]) -> bool {
    if bytes.len() != 196 + 24 {
        return false;
    }
    let mut all = bytes.starts_with(&[0x83, 2, 2, 2]);
    for byte in &bytes[4..100] {
        all &= *byte == 0xB9;
    }
    for deltas in bytes[100..196].chunks(4) {
        all &= deltas == [0x81, 0x82, 0x83, 0x82].as_slice();
    }
    all
}

// Returns whether the index of these calls has such a file.
fn often_has_deltas(alloc: Global) -> Result<bool, Fault> {
    let calls = often(alloc)?;
    let (files, answer) = files_of_calls(alloc, &[Kind::Text(false)], 120, calls)?;
    let IndexWriters {
        terms,
        postings,
        positions,
        fieldnorms,
    } = files;
    drop(terms);
    drop(postings);
    drop(fieldnorms);
    let have = has_deltas(positions.finish().as_slice());
    answer?;
    Ok(have)
}

#[test]
fn deltas_are_packed(rt: HostRuntime) -> Result<(), Fail> {
    assert!(rt; often_has_deltas(rt.alloc())?);
    Ok(())
}

// A field, calls of two documents, and the result.
static ENDS: [(&[Kind], &[Call], Result<(), Fault>); 6] = [
    // a float that is reached, and one under a key with byte 0
    (
        &[Kind::Json(false)],
        &[(
            0,
            0,
            Said::Object(&[
                ("a", Leaf::Number(1)),
                ("b", Leaf::Float(4607182418800017408)),
            ]),
        )],
        Err(Fault::UnsupportedLeaf(LeafKind::Float)),
    ),
    (
        &[Kind::Json(false)],
        &[(
            0,
            0,
            Said::Object(&[
                ("a", Leaf::Number(1)),
                ("b\0", Leaf::Float(4607182418800017408)),
            ]),
        )],
        Ok(()),
    ),
    // values of many levels
    (&[Kind::Json(false)], &[(0, 0, Said::Arrays(128))], Ok(())),
    (
        &[Kind::Json(false)],
        &[(0, 0, Said::Arrays(100_000))],
        Ok(()),
    ),
    // a token of length 0 at the last position, after a text
    (
        &[Kind::Text(true)],
        &[
            (0, 0, Said::Text("a b")),
            (1, 0, Said::Tokens(&[(4294967295, 0, 1)])),
        ],
        Err(Fault::Limit(LimitName::Position)),
    ),
    // a decreasing position
    (
        &[Kind::Text(true)],
        &[(0, 0, Said::Tokens(&[(5, 1, 1), (4, 1, 1)]))],
        Err(Fault::DecreasingPosition),
    ),
];

// Returns whether nothing was written.
fn are_untouched(files: IndexWriters<Vec<u8>>) -> bool {
    let mut all = files.terms.written_bytes() == 0;
    all &= files.postings.written_bytes() == 0;
    all &= files.positions.written_bytes() == 0;
    all &= files.fieldnorms.written_bytes() == 0;
    drop(files);
    all
}

#[test]
fn refused_calls_write_nothing(rt: HostRuntime) -> Result<(), Fail> {
    for row in &ENDS {
        let (kinds, table, wanted) = *row;
        let (files, answer) = files_of(rt.alloc(), kinds, 2, table)?;
        assert!(rt; (answer, are_untouched(files)) == (wanted, wanted.is_err()));
    }
    Ok(())
}
