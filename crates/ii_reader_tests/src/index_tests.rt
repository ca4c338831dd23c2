ghost use Rattle.std.specs.Prelude.{◌<◌, ◌≡◌, length, IfOk};

use bytes::Bytes;
use ii_base::{Fault, Field, FieldEntry, IndexRecordOption, Part, Schema, Term, ValueType};
use ii_docset::{DocId, DocSet, TERMINATED};
use ii_reader::{
    BlockSegmentPostings, DamagedTerm, InvertedIndexReader, OpenIndex, SegmentPostings, open_index,
    open_index_with_norms,
};
use ii_termdict::{TermDictionary, TermInfo};
use std::alloc::Global;
use std::test::Fail;

const BASIC: IndexRecordOption = IndexRecordOption::Basic;

const FULL: IndexRecordOption = IndexRecordOption::WithFreqsAndPositions;

// The number 5 in document 0: a dictionary with one key of 8 bytes, whose postings are one byte.
static TERMS: [u8; 104] = [
    1, 0, 0, 0, 0, 0, 0, 0, 8, 0, 0, 0, 0, 0, 0, 0, 0, 0, 0, 0, 0, 0, 0, 5, 39, 0, 0, 0, 0, 0, 0,
    0, 1, 0, 0, 0, 0, 0, 0, 0, 0, 0, 0, 0, 0, 0, 0, 0, 1, 0, 0, 0, 0, 0, 0, 0, 0, 0, 0, 0, 1, 0, 0,
    0, 0, 0, 0, 0, 0, 0, 0, 0, 0, 0, 0, 0, 0, 1, 0, 1, 0, 0, 0, 0, 0, 0, 0, 0, 0, 0, 0, 0, 80, 0,
    0, 0, 0, 0, 0, 0, 1, 0, 0, 0,
];

// One token, and document 0.
static POSTINGS: [u8; 33] = [
    1, 0, 0, 0, 0, 0, 0, 0, 0x80, 0, 0, 0, 0, 0, 0, 0, 0, 0, 0, 0, 0, 9, 0, 0, 0, 0, 0, 0, 0, 1, 0,
    0, 0,
];

// An empty body for field 0.
static POSITIONS: [u8; 24] = [
    0, 0, 0, 0, 0, 0, 0, 0, 0, 0, 0, 0, 0, 0, 0, 0, 0, 0, 0, 0, 1, 0, 0, 0,
];

// A file without bodies.
static NONE: [u8; 4] = [0, 0, 0, 0];

// A body of 7 bytes.
static SHORT: [u8; 31] = [
    1, 0, 0, 0, 0, 0, 0, 0, 0, 0, 0, 0, 0, 0, 0, 0, 0, 0, 0, 7, 0, 0, 0, 0, 0, 0, 0, 1, 0, 0, 0,
];

// The files of an index: terms, postings, positions, norms.
type Files = [&'static [u8]; 4];

// Returns the index of the number 5, without norms.
fn five() -> Files {
    [&TERMS, &POSTINGS, &POSITIONS, &NONE]
}

// Builds a schema of one field of numbers.
pub(crate) fn numbers(alloc: Global) -> Result<Schema, Fault>
    ensures { IfOk result (λ schema. 0 < length schema) }
{
    let mut entries = Vec::new(alloc);
    let name = String::from_str(alloc, "number")?;
    entries.push(FieldEntry::value(name, ValueType::U64, false))?;
    Ok(Schema::new(entries))
}

// Opens an index with a schema.
fn opened_by(alloc: Global, files: Files, schema: &Schema) -> Result<OpenIndex, Fault>
    ensures { IfOk result (λ index. length index.readers ≡ length schema.now) }
{
    let [terms, postings, positions, fieldnorms] = files;
    open_index_with_norms(
        alloc,
        Bytes::from_static(terms),
        Bytes::from_static(postings),
        Bytes::from_static(positions),
        Bytes::from_static(fieldnorms),
        schema,
    )
}

// Opens an index with one field of numbers.
fn opened(alloc: Global, files: Files) -> Result<OpenIndex, Fault>
    ensures { IfOk result (λ index. 0 < length index.readers) }
{
    let schema = numbers(alloc)?;
    opened_by(alloc, files, &schema)
}

// Returns the corrupt part of the files.
fn damage_of(alloc: Global, files: Files) -> Option<Part> {
    match opened(alloc, files) {
        Err(Fault::Damaged(part)) => Some(part),
        _ => None,
    }
}

// Returns the file that a letter names: one of the index of the number 5, a body of 7 bytes, or none. A
// capital letter cuts it.
fn named(letter: u8) -> &'static [u8] {
    match letter {
        b't' => &TERMS,
        b'T' => &TERMS[..103],
        b'p' => &POSTINGS,
        b'P' => &POSTINGS[..3],
        b'q' => &POSITIONS,
        b'Q' => &POSITIONS[..20],
        b's' => &SHORT,
        b'N' => &NONE[..3],
        _ => &NONE,
    }
}

// Four files by their letters, and their corrupt part.
struct Row {
    letters: [u8; 4],
    part: Option<Part>,
}

static DAMAGED: [Row; 13] = [
    Row {
        letters: *b"tpqn",
        part: None,
    },
    // cut tables, also that of norms
    Row {
        letters: *b"Tpqn",
        part: Some(Part::Composite),
    },
    Row {
        letters: *b"tPqn",
        part: Some(Part::Composite),
    },
    Row {
        letters: *b"tpQn",
        part: Some(Part::Composite),
    },
    Row {
        letters: *b"tpqN",
        part: Some(Part::Composite),
    },
    Row {
        letters: *b"spqN",
        part: Some(Part::Composite),
    },
    // missing bodies
    Row {
        letters: *b"tnqn",
        part: Some(Part::Composite),
    },
    Row {
        letters: *b"tpnn",
        part: Some(Part::Composite),
    },
    // the dictionary comes before the number of tokens, and a missing body before both
    Row {
        letters: *b"tsqn",
        part: Some(Part::TokenCount),
    },
    Row {
        letters: *b"ssqn",
        part: Some(Part::Dictionary),
    },
    Row {
        letters: *b"ssnn",
        part: Some(Part::Composite),
    },
    // a field missing in the file of terms has no terms
    Row {
        letters: *b"npqn",
        part: None,
    },
    Row {
        letters: *b"nnnn",
        part: None,
    },
];

#[test]
fn damaged_files_are_told(rt: HostRuntime) -> Result<(), Fail> {
    for row in &DAMAGED {
        let [terms, postings, positions, fieldnorms] = row.letters;
        let files = [
            named(terms),
            named(postings),
            named(positions),
            named(fieldnorms),
        ];
        assert!(rt; damage_of(rt.alloc(), files) == row.part);
    }
    Ok(())
}

// Returns the corrupt part of the files of terms, postings and positions, opened without norms, or whether the
// number 5 is in document 0 alone, and has no norms.
fn without_norms(alloc: Global, letters: &[u8; 4]) -> Result<(Option<Part>, bool), Fault> {
    let schema = numbers(alloc)?;
    let [terms, postings, positions, _] = *letters;
    let opened = open_index(
        alloc,
        Bytes::from_static(named(terms)),
        Bytes::from_static(named(postings)),
        Bytes::from_static(named(positions)),
        &schema,
    );
    let index = match opened {
        Ok(index) => index,
        Err(Fault::Damaged(part)) => return Ok((Some(part), false)),
        Err(fault) => return Err(fault),
    };
    let field = Field::from_field_id(0);
    let term = Term::from_field_u64(alloc, field, 5)?;
    let is_found = walked(index.reader(field), &term, BASIC)? == [0, TERMINATED];
    Ok((
        None,
        is_found & index.get_fieldnorms_reader(field)?.is_none(),
    ))
}

#[test]
fn norms_are_not_needed(rt: HostRuntime) -> Result<(), Fail> {
    let rows = [
        // good files beside a good file of norms, and beside a bad one
        (b"tpqn", (None, true)),
        (b"tpqN", (None, true)),
        (b"TpqN", (Some(Part::Composite), false)),
        (b"ssqN", (Some(Part::Dictionary), false)),
        (b"tsqN", (Some(Part::TokenCount), false)),
        (b"nnnN", (None, false)),
    ];
    for (letters, expected) in rows {
        assert!(rt; without_norms(rt.alloc(), letters)? == expected);
    }
    Ok(())
}

#[test]
fn fields_that_the_schema_lacks_are_left(rt: HostRuntime) -> Result<(), Fail> {
    let schema = Schema::new(Vec::new(rt.alloc()));
    let files: Files = [&TERMS, &SHORT, &NONE, &NONE];
    assert!(rt; opened_by(rt.alloc(), files, &schema).is_ok());
    Ok(())
}

// Returns how many norms a field has in a file of norms, if it has any.
fn num_norms(alloc: Global, fieldnorms: &'static [u8], field: u32) -> Result<Option<u32>, Fault> {
    let index = opened(alloc, [&TERMS, &POSTINGS, &POSITIONS, fieldnorms])?;
    match index.get_fieldnorms_reader(Field::from_field_id(field))? {
        Some(norms) => Ok(Some(norms.num_docs())),
        None => Ok(None),
    }
}

#[test]
fn norms_are_opened(rt: HostRuntime) -> Result<(), Fail> {
    let rows: [(&'static [u8], u32, Option<u32>); 3] = [
        (&SHORT, 0, Some(7)),
        (&SHORT, 1, None),
        (&NONE, 0, None),
    ];
    for (fieldnorms, field, norms) in rows {
        assert!(rt; num_norms(rt.alloc(), fieldnorms, field)? == norms);
    }
    Ok(())
}

// Returns the first two documents of a term, `TERMINATED` if it doesn't exist.
fn walked(
    reader: &InvertedIndexReader,
    term: &Term,
    option: IndexRecordOption,
) -> Result<[DocId; 2], Fault> {
    match reader.read_postings(term, option)? {
        Some(mut cursor) => Ok([cursor.doc(), cursor.advance()]),
        None => Ok([TERMINATED; 2]),
    }
}

// Returns the same from a block cursor.
fn first_two(
    reader: &InvertedIndexReader,
    term: &Term,
    option: IndexRecordOption,
) -> Result<[DocId; 2], Fault> {
    match reader.read_block_postings(term, option)? {
        Some(blocks) => Ok([blocks.doc(0), blocks.doc(1)]),
        None => Ok([TERMINATED; 2]),
    }
}

// Returns the number of documents with a number, and the first two from both kinds of cursor.
fn found(
    alloc: Global,
    reader: &InvertedIndexReader,
    number: u64,
    option: IndexRecordOption,
) -> Result<(u32, [[DocId; 2]; 2]), Fault> {
    let term = Term::from_field_u64(alloc, Field::from_field_id(0), number)?;
    let docs = [
        walked(reader, &term, option)?,
        first_two(reader, &term, option)?,
    ];
    Ok((reader.doc_freq(&term), docs))
}

// Returns the same for the index of the number 5.
fn found_by_five(
    alloc: Global,
    number: u64,
    option: IndexRecordOption,
) -> Result<(u32, [[DocId; 2]; 2]), Fault> {
    let index = opened(alloc, five())?;
    found(alloc, index.reader(Field::from_field_id(0)), number, option)
}

#[test]
fn numbers_are_looked_up(rt: HostRuntime) -> Result<(), Fail> {
    for option in [BASIC, IndexRecordOption::WithFreqs, FULL] {
        let five = found_by_five(rt.alloc(), 5, option)?;
        assert!(rt; five == (1, [[0, TERMINATED]; 2]));
        let six = found_by_five(rt.alloc(), 6, option)?;
        assert!(rt; six == (0, [[TERMINATED; 2]; 2]));
    }
    Ok(())
}

// The number of tokens, the number of terms, and the term info of the number 5.
type Kept = (u64, usize, Option<TermInfo>);

fn kept_in(alloc: Global, reader: &InvertedIndexReader) -> Result<Kept, Fault> {
    let term = Term::from_field_u64(alloc, Field::from_field_id(0), 5)?;
    let num_terms = reader.terms().num_terms();
    Ok((
        reader.total_num_tokens(),
        num_terms,
        reader.get_term_info(&term),
    ))
}

// Returns this for the first field of an index.
fn kept(alloc: Global, files: Files) -> Result<Kept, Fault> {
    let index = opened(alloc, files)?;
    kept_in(alloc, index.reader(Field::from_field_id(0)))
}

#[test]
fn terms_are_kept(rt: HostRuntime) -> Result<(), Fail> {
    let info = TermInfo {
        doc_freq: 1,
        postings_range: 0..1,
        positions_range: 0..0,
    };
    assert!(rt; kept(rt.alloc(), five())? == (1, 1, Some(info)));
    let without_terms: [Files; 2] = [[&NONE; 4], [&NONE, &POSTINGS, &POSITIONS, &NONE]];
    for files in without_terms {
        assert!(rt; kept(rt.alloc(), files)? == (0, 0, None));
    }
    Ok(())
}

#[test]
fn readers_of_no_terms_have_nothing(rt: HostRuntime) -> Result<(), Fail> {
    let reader = InvertedIndexReader::empty(FULL);
    assert!(rt; kept_in(rt.alloc(), &reader)? == (0, 0, None));
    let none = found(rt.alloc(), &reader, 5, FULL)?;
    assert!(rt; none == (0, [[TERMINATED; 2]; 2]));
    Ok(())
}

// Checks the index of the number 5 over these postings. Returns the first corrupt term, or the documents read
// after the check.
fn checked(
    alloc: Global,
    postings: &'static [u8],
) -> Result<(Option<(Field, DamagedTerm)>, [DocId; 2]), Fault> {
    let mut index = opened(alloc, [&TERMS, postings, &POSITIONS, &NONE])?;
    let damage = index.check()?;
    if damage.is_some() {
        return Ok((damage, [TERMINATED; 2]));
    }
    let (_, docs) = found(alloc, index.reader(Field::from_field_id(0)), 5, FULL)?;
    Ok((None, docs[0]))
}

// The same file with an unterminated document after the number of tokens.
static DAMAGED_POSTINGS: [u8; 33] = [
    1, 0, 0, 0, 0, 0, 0, 0, 0, 0, 0, 0, 0, 0, 0, 0, 0, 0, 0, 0, 0, 9, 0, 0, 0, 0, 0, 0, 0, 1, 0, 0,
    0,
];

#[test]
fn indexes_are_checked_once(rt: HostRuntime) -> Result<(), Fail> {
    assert!(rt; checked(rt.alloc(), &POSTINGS)? == (None, [0, TERMINATED]));
    let damage = DamagedTerm {
        ord: 0,
        part: Part::Documents,
    };
    let (found, _) = checked(rt.alloc(), &DAMAGED_POSTINGS)?;
    assert!(rt; found == Some((Field::from_field_id(0), damage)));
    Ok(())
}

// Opens a reader over a body of postings, without terms and positions.
fn reader_over(
    body: &'static [u8],
    option: IndexRecordOption,
) -> Result<InvertedIndexReader, Fault> {
    let body = Bytes::from_static(body);
    InvertedIndexReader::new(TermDictionary::empty(), body, Bytes::new(), option)
}

// Returns the info of a term with this postings range; its positions range is invalid.
fn info_at(doc_freq: u32, start: usize, end: usize) -> TermInfo {
    TermInfo {
        doc_freq,
        postings_range: start..end,
        positions_range: 3..1,
    }
}

// Returns the errors of opening a cursor and a block cursor over a term.
fn faults_at(
    reader: &InvertedIndexReader,
    info: &TermInfo,
    option: IndexRecordOption,
) -> [Option<Fault>; 2] {
    [
        reader.read_postings_from_terminfo(info, option).err(),
        reader.read_block_postings_from_terminfo(info, option).err(),
    ]
}

// Returns the same for a term of one document with this postings range.
fn faults_of(
    start: usize,
    end: usize,
    option: IndexRecordOption,
) -> Result<[Option<Fault>; 2], Fault> {
    let reader = reader_over(&POSTINGS[..9], FULL)?;
    Ok(faults_at(&reader, &info_at(1, start, end), option))
}

#[test]
fn ranges_lie_in_their_bodies(rt: HostRuntime) -> Result<(), Fail> {
    let range = Some(Fault::Damaged(Part::Range));
    let documents = Some(Fault::Damaged(Part::Documents));
    let rows = [
        (0, 2, BASIC, [range; 2]),
        (1, 0, BASIC, [range; 2]),
        (0, 2, FULL, [range; 2]),
        (1, 0, FULL, [range; 2]),
        (0, 0, BASIC, [documents; 2]),
        // the positions range is only checked if positions are requested
        (0, 1, BASIC, [None; 2]),
        (0, 1, FULL, [range, None]),
    ];
    for (start, end, option, faults) in rows {
        assert!(rt; faults_of(start, end, option)? == faults, "{start}..{end}");
    }
    Ok(())
}

#[test]
fn short_bodies_have_no_number_of_tokens(rt: HostRuntime) -> Result<(), Fail> {
    let short = reader_over(&SHORT[..7], BASIC).err();
    assert!(rt; short == Some(Fault::Damaged(Part::TokenCount)));
    assert!(rt; reader_over(&SHORT[..8], BASIC)?.total_num_tokens() == 1);
    Ok(())
}

// Six tokens, and the postings of two terms: even documents and odd ones.
static TWO_TERMS: [u8; 14] = [6, 0, 0, 0, 0, 0, 0, 0, 0x80, 0x82, 0x82, 0x81, 0x82, 0x82];

// Resets a cursor to a term. Returns the result and the cursor's first four documents.
fn cursor_reset(
    reader: &InvertedIndexReader,
    info: &TermInfo,
    cursor: &mut SegmentPostings,
) -> (Result<(), Fault>, [DocId; 4]) {
    let answer = reader.reset_postings_from_terminfo(info, BASIC, cursor);
    let docs = [
        cursor.doc(),
        cursor.advance(),
        cursor.advance(),
        cursor.advance(),
    ];
    (answer, docs)
}

// Does the same with a block cursor.
fn blocks_reset(
    reader: &InvertedIndexReader,
    info: &TermInfo,
    blocks: &mut BlockSegmentPostings,
) -> (Result<(), Fault>, [DocId; 4]) {
    let answer = reader.reset_block_postings_from_terminfo(info, blocks);
    let docs = [blocks.doc(0), blocks.doc(1), blocks.doc(2), blocks.doc(3)];
    (answer, docs)
}

// A postings range, the result of a reset to it, and the documents after that.
type Reset = (usize, usize, (Result<(), Fault>, [DocId; 4]));

// Returns whether resets of both kinds of cursor, opened over the even documents, end as expected.
fn are_reset(reader: &InvertedIndexReader, resets: &[Reset]) -> Result<bool, Fault> {
    let even = info_at(3, 0, 3);
    let mut cursor = reader.read_postings_from_terminfo(&even, BASIC)?;
    let mut blocks = reader.read_block_postings_from_terminfo(&even, BASIC)?;
    let mut all = true;
    for (start, end, want) in resets {
        let info = info_at(3, *start, *end);
        all &= cursor_reset(reader, &info, &mut cursor) == *want;
        all &= blocks_reset(reader, &info, &mut blocks) == *want;
    }
    Ok(all)
}

#[test]
fn cursors_are_reset_in_place(rt: HostRuntime) -> Result<(), Fail> {
    let even = (Ok(()), [0, 2, 4, TERMINATED]);
    let odd = (Ok(()), [1, 3, 5, TERMINATED]);
    let range = (Err(Fault::Damaged(Part::Range)), [TERMINATED; 4]);
    let documents = (Err(Fault::Damaged(Part::Documents)), [TERMINATED; 4]);
    let resets = [
        (3, 6, odd),
        (3, 7, range),
        (0, 3, even),
        (0, 0, documents),
        (3, 6, odd),
    ];
    let reader = reader_over(&TWO_TERMS, BASIC)?;
    assert!(rt; are_reset(&reader, &resets)?);
    Ok(())
}
