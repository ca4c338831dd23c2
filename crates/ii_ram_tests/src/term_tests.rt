use ii_base::{DateTime, Fault, Field};
use ii_indexing::{IndexingPosition, IndexingTerm, IndexingTermRef};
use std::alloc::Global;
use std::test::Fail;

// A call of a term.
enum Step {
    Field(u32),
    Text(&'static [u8]),
    More(&'static [u8]),
    Left(usize),
    Number(u64),
    Truth(bool),
    Signed(i64),
    Address(u128),
    Date(i64),
}

// Consecutive steps, with the bytes of the term after each.
static STEPS: [(Step, &[u8]); 12] = [
    (Step::Field(1), b"\0\0\0\x01"),
    (Step::Text(b"test"), b"\0\0\0\x01test"),
    (Step::More(b"ing"), b"\0\0\0\x01testing"),
    // longer than the value
    (Step::Left(9), b"\0\0\0\x01testing"),
    (Step::Left(2), b"\0\0\0\x01te"),
    (Step::Field(258), b"\0\0\x01\x02"),
    (
        Step::Number(983),
        &[0, 0, 1, 2, 0, 0, 0, 0, 0, 0, 0x03, 0xD7],
    ),
    (Step::Truth(true), &[0, 0, 1, 2, 0, 0, 0, 0, 0, 0, 0, 1]),
    (
        Step::Signed(-4),
        &[0, 0, 1, 2, 0x7F, 0xFF, 0xFF, 0xFF, 0xFF, 0xFF, 0xFF, 0xFC],
    ),
    (
        Step::Address(1),
        &[0, 0, 1, 2, 0, 0, 0, 0, 0, 0, 0, 0, 0, 0, 0, 0, 0, 0, 0, 1],
    ),
    (Step::Field(7), b"\0\0\0\x07"),
    (
        Step::Date(5),
        &[0, 0, 0, 7, 0x64, 0x80, 0, 0, 0, 0, 0, 0, 5],
    ),
];

// Appends bytes. Returns whether they are returned.
fn append(term: &mut IndexingTerm, bytes: &[u8]) -> Result<bool, Fault> {
    Ok(term.append_bytes(bytes)? == bytes)
}

// Does a step. Returns whether its answer is right.
fn done(term: &mut IndexingTerm, step: &Step) -> Result<bool, Fault> {
    match step {
        Step::Field(field) => term.clear_with_field(Field::from_field_id(*field)),
        Step::Text(text) => term.set_bytes(text)?,
        Step::More(text) => return append(term, text),
        Step::Left(len) => term.truncate_value_bytes(*len),
        Step::Number(number) => term.set_u64(*number)?,
        Step::Truth(truth) => term.set_bool(*truth)?,
        Step::Signed(number) => term.set_i64(*number)?,
        Step::Address(address) => term.set_ip_addr(*address)?,
        Step::Date(date) => term.append_type_and_fast_value(DateTime(*date))?,
    }
    Ok(true)
}

// Returns whether a term has these bytes, the first four of them the field.
fn has_bytes(term: &IndexingTerm, bytes: &[u8]) -> bool {
    term.serialized_term() == bytes && term.len_bytes() == bytes.len().saturating_sub(4)
}

// Returns how many steps give the expected bytes.
fn right_steps(alloc: Global) -> Result<usize, Fault> {
    let mut term = IndexingTerm::with_capacity(alloc, 8)?;
    let mut right = 0usize;
    for (step, bytes) in &STEPS {
        let is_right = done(&mut term, step)?;
        if is_right && has_bytes(&term, bytes) {
            right = right.saturating_add(1);
        }
    }
    Ok(right)
}

#[test]
fn terms_have_bytes(rt: HostRuntime) -> Result<(), Fail> {
    assert!(rt; right_steps(rt.alloc())? == 12);
    Ok(())
}

// Returns whether a new term is empty, the field it is given, and whether a copy stays the same when the term
// is truncated.
fn copied(alloc: Global) -> Result<(bool, u32, bool), Fault> {
    let mut term = IndexingTerm::with_capacity(alloc, 0)?;
    let is_empty = term.is_empty();
    term.set_field(Field::from_field_id(1));
    term.set_bytes(b"testing")?;
    let copy = term.clone()?;
    term.truncate_value_bytes(2);
    let stays = has_bytes(&copy, b"\0\0\0\x01testing");
    Ok((is_empty, term.field().field_id(), stays))
}

// Field 7 and `test`.
static WRAPPED: [u8; 8] = [0, 0, 0, 7, 0x74, 0x65, 0x73, 0x74];

// Returns the field and the length of a term read from bytes.
fn wrapped() -> (u32, usize) {
    let wrapped = IndexingTermRef::wrap(&WRAPPED);
    (wrapped.field().field_id(), wrapped.serialized_term().len())
}

#[test]
fn terms_are_copied_and_read(rt: HostRuntime) -> Result<(), Fail> {
    let position = IndexingPosition::default();
    let begun = (position.num_tokens, position.end_position);
    let copied = copied(rt.alloc());
    assert!(rt; (copied, wrapped(), begun) == (Ok((true, 1, true)), (7, 8), (0, 0)));
    Ok(())
}
