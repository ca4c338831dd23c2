ghost use Rattle.std.specs.Prelude.{◌≡◌, length};

use crate::calls::{Call, Kind, Leaf, Said, indexed};
use crate::index::push_postings;
use ii_base::{Fault, Field, IndexRecordOption, Term};
use ii_docset::DocId;
use ii_reader::OpenIndex;
use std::alloc::Global;

const BASIC: IndexRecordOption = IndexRecordOption::Basic;

const FREQS: IndexRecordOption = IndexRecordOption::WithFreqs;

const FULL: IndexRecordOption = IndexRecordOption::WithFreqsAndPositions;

/// An index, and the field and key of each lookup in it.
pub struct Row {
    kinds: &'static [Kind],
    num_docs: DocId,
    calls: &'static [Call],
    keys: &'static [(u32, &'static [u8])],
}

/// Several texts of one field and document. Positions continue after a gap of 1.
pub static GAPS: Row = Row {
    kinds: &[Kind::Text(FULL)],
    num_docs: 3,
    calls: &[
        (0, 0, Said::Text("a b")),
        (0, 0, Said::Text("a")),
        (1, 0, Said::Text("b")),
        (1, 0, Said::Tokens(&[1, 4])),
        (1, 0, Said::Text("a b")),
        (2, 0, Said::Text("c c c c c c c c c c")),
        (2, 0, Said::Text("c c")),
    ],
    keys: &[(0, b"a"), (0, b"b"), (0, b"c")],
};

/// The same texts in a field of each option.
pub static OPTIONS: Row = Row {
    kinds: &[Kind::Text(BASIC), Kind::Text(FREQS), Kind::Text(FULL)],
    num_docs: 3,
    calls: &[
        (0, 0, Said::Text("a b a")),
        (0, 0, Said::Text("a")),
        (0, 1, Said::Text("a b a")),
        (0, 1, Said::Text("a")),
        (0, 2, Said::Text("a b a")),
        (0, 2, Said::Text("a")),
        (2, 0, Said::Text("b")),
        (2, 1, Said::Text("b")),
        (2, 2, Said::Text("b")),
    ],
    keys: &[
        (0, b"a"),
        (1, b"a"),
        (2, b"a"),
        (0, b"b"),
        (1, b"b"),
        (2, b"b"),
    ],
};

/// A value of each other type.
pub static VALUES: Row = Row {
    kinds: &[
        Kind::U64,
        Kind::I64,
        Kind::Bool,
        Kind::Ip,
        Kind::Bytes,
        Kind::Date,
    ],
    num_docs: 2,
    calls: &[
        (0, 0, Said::U64(5)),
        (0, 1, Said::I64(-5)),
        (0, 2, Said::Bool(true)),
        (0, 3, Said::Ip(1)),
        (0, 4, Said::Bytes(b"abc")),
        (0, 5, Said::Date(631152000000000000)),
        (1, 4, Said::Bytes(b"a value of more than sixteen bytes")),
    ],
    keys: &[
        (0, &[0, 0, 0, 0, 0, 0, 0, 5]),
        (1, &[0x7F, 0xFF, 0xFF, 0xFF, 0xFF, 0xFF, 0xFF, 0xFB]),
        (2, &[0, 0, 0, 0, 0, 0, 0, 1]),
        (3, &[0, 0, 0, 0, 0, 0, 0, 0, 0, 0, 0, 0, 0, 0, 0, 1]),
        (4, b"abc"),
        (4, b"a value of more than sixteen bytes"),
        (5, &[0x88, 0xC2, 0x4D, 0x66, 0x67, 0x47, 0, 0]),
    ],
};

// Nested objects, an array, a key with a dot, and numbers and dates, at several paths.
static PATHS: Row = Row {
    kinds: &[Kind::Json],
    num_docs: 2,
    calls: &[
        (
            0,
            0,
            Said::Object(&[
                ("a", Leaf::Text("x y")),
                ("a", Leaf::Under("b", 1)),
                ("bands", Leaf::Each("name", &["Elliot Smith", "The Who"])),
                ("d", Leaf::Date(-1500000000)),
                ("k8s.node", Leaf::Text("x")),
                ("u", Leaf::Number(9223372036854775808)),
            ]),
        ),
        (1, 0, Said::Object(&[("a", Leaf::Text("x"))])),
    ],
    keys: &[
        (0, b"a\0sx"),
        (0, &[0x61, 1, 0x62, 0, 0x69, 0x80, 0, 0, 0, 0, 0, 0, 1]),
        (
            0,
            &[0x64, 0, 0x64, 0x7F, 0xFF, 0xFF, 0xFF, 0xC4, 0x65, 0x36, 0],
        ),
        (0, b"k8s\x01node\0sx"),
        (0, &[0x75, 0, 0x75, 0x80, 0, 0, 0, 0, 0, 0, 0]),
        (0, b"b\0sx"),
    ],
};

/// Indexes the calls of a row, opens the index, and looks up each key.
pub fn read_back(alloc: Global, row: &Row) -> Result<String, Fault> {
    let (num_fields, index) = indexed(alloc, row.kinds, row.num_docs, row.calls)?;
    let mut text = String::new(alloc);
    push_keys(alloc, &mut text, num_fields, &index, row.keys)?;
    Ok(text)
}

/// Does the same for the row of JSON values. Then looks up a word at a path, and lists the paths with their
/// numbers of terms.
pub fn read_back_paths(alloc: Global) -> Result<String, Fault> {
    let (num_fields, index) = indexed(alloc, PATHS.kinds, PATHS.num_docs, PATHS.calls)?;
    let mut text = String::new(alloc);
    push_keys(alloc, &mut text, num_fields, &index, PATHS.keys)?;
    push_paths(alloc, &mut text, num_fields, &index)?;
    Ok(text)
}

// Appends the postings of each key.
fn push_keys(
    alloc: Global,
    text: &mut String,
    num_fields: usize,
    index: &OpenIndex,
    keys: &[(u32, &'static [u8])],
) -> Result<(), Fault>
    requires { num_fields ≡ length index.now.readers }
{
    for (id, bytes) in keys {
        let field = Field::from_field_id(*id);
        if (*id as usize) < num_fields {
            let term = Term::from_field_bytes(alloc, field, bytes);
            push_postings(alloc, text, index.reader(field), term)?;
        }
    }
    Ok(())
}

// Appends the postings of a word at a path of the first field, and the paths of this field.
fn push_paths(
    alloc: Global,
    text: &mut String,
    num_fields: usize,
    index: &OpenIndex,
) -> Result<(), Fault>
    requires { num_fields ≡ length index.now.readers }
{
    if num_fields == 0 {
        return Ok(());
    }
    let values = index.reader(Field::from_field_id(0));
    push_postings(alloc, text, values, word_at_path(alloc))?;
    for space in values.list_encoded_json_fields(alloc)?.as_slice() {
        let (len, number) = (space.field_name.len(), space.num_terms);
        write!(text, " {number} at a path of {len}")?;
    }
    Ok(())
}

// Builds the term of a word in the array.
fn word_at_path(alloc: Global) -> Result<Term, Fault> {
    let mut term = Term::from_field_json_path(alloc, Field::from_field_id(0), "bands.name", true)?;
    term.append_type_and_str("Who")?;
    Ok(term)
}
