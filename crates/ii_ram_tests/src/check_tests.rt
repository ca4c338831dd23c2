// Files whose terms are all validated once, and then looked up.
ghost use Rattle.std.specs.Prelude.{◌≡◌, length, IfOk};

use crate::memory_index::{Call, Key, Kind, Said, files_of, schema_of, told};
use bytes::Bytes;
use ii_base::{Fault, Field, Part, Schema};
use ii_indexing::IndexWriters;
use ii_reader::{DamagedTerm, OpenIndex, open_index_with_norms};
use std::alloc::Global;
use std::test::Fail;

static FIELDS: [Kind; 2] = [Kind::Text(true), Kind::Text(false)];

static TEXTS: [Call; 4] = [
    (0, 0, Said::Text("a b")),
    (1, 0, Said::Text("b")),
    (2, 0, Said::Text("a a")),
    (2, 1, Said::Text("c c d")),
];

// Opens files after a byte of the postings was replaced.
fn opened(
    alloc: Global,
    files: IndexWriters<Vec<u8>>,
    schema: &Schema,
    place: usize,
    byte: u8,
) -> Result<OpenIndex, Fault>
    ensures { IfOk result (λ index. length index.readers ≡ length schema.now) }
{
    let IndexWriters {
        terms,
        postings,
        positions,
        fieldnorms,
    } = files;
    let mut postings = postings.finish();
    if let Some(found) = postings.get_mut(place) {
        *found = byte;
    }
    open_index_with_norms(
        alloc,
        Bytes::from_vec(terms.finish())?,
        Bytes::from_vec(postings)?,
        Bytes::from_vec(positions.finish())?,
        Bytes::from_vec(fieldnorms.finish())?,
        schema,
    )
}

static WORDS: [Key; 4] = [(0, b"a"), (0, b"b"), (0, b"c"), (1, b"c")];

// Returns the result of a check, and the postings if it finds no damage.
fn told_after_check(
    alloc: Global,
    num_fields: usize,
    index: &mut OpenIndex,
) -> Result<(Option<(Field, DamagedTerm)>, String), Fault>
    requires { num_fields ≡ length index.old.readers }
{
    let damage = index.check()?;
    if damage.is_some() {
        return Ok((damage, String::new(alloc)));
    }
    Ok((damage, told(alloc, num_fields, index, &WORDS)?))
}

// Returns the same for the files of the texts with a byte replaced.
fn told_of_files(
    alloc: Global,
    place: usize,
    byte: u8,
) -> Result<(Option<(Field, DamagedTerm)>, String), Fault> {
    let schema = schema_of(alloc, &FIELDS)?;
    let (files, _written) = files_of(alloc, &FIELDS, 3, &TEXTS)?;
    let index = opened(alloc, files, &schema, place, byte);
    let num_fields = schema.num_fields();
    drop(schema);
    let mut index = index?;
    let told = told_after_check(alloc, num_fields, &mut index);
    drop(index);
    told
}

// An offset in the postings, the new byte, and the damage: a field, a term, and a part of its list.
static DAMAGED: [(usize, u8, u32, u64, Part); 2] = [
    // field 1: the count of `d` doesn't end
    (27, 0x01, 1, 1, Part::Frequencies),
    // field 0: the first document of `b` is repeated
    (13, 0x80, 0, 1, Part::Documents),
];

#[test]
fn the_first_damaged_term_is_told(rt: HostRuntime) -> Result<(), Fail> {
    for row in &DAMAGED {
        let (place, byte, field, ord, part) = *row;
        let (damage, _) = told_of_files(rt.alloc(), place, byte)?;
        let wanted = DamagedTerm { ord, part };
        assert!(rt;
            damage == Some((Field::from_field_id(field), wanted)),
            "at {place}"
        );
    }
    Ok(())
}

#[test]
fn checked_indexes_are_looked_up(rt: HostRuntime) -> Result<(), Fail> {
    let (_, told) = told_of_files(rt.alloc(), usize::MAX, 0)?;
    let found = "0:1:0, 2:2:0,1, ; 0:1:1, 1:1:0, ; ; 2:2:0,1, ; 5 tokens of 2 terms";
    assert_eq!(rt; told.as_str(), found);
    Ok(())
}
