// Calls that grow a value several times. A call that fails must leave the value as it is.
use ii_base::{DateTime, Fault, Field, Term, ValueType};
use ii_indexing::{IndexingTerm, JsonTermSerializer};
use std::alloc::Global;

// The number of calls for each value, which exceed its capacity several times.
const CALLS: usize = 8;

/// Returns the result of a call, or `SerializerClosed` if the value isn't the expected one after it.
pub fn judged(step: Result<(), Fault>, is_expected: bool) -> Result<(), Fault> {
    if !is_expected {
        return Err(Fault::SerializerClosed);
    }
    step
}

/// Returns how many calls have succeeded after one more.
pub fn calls_after(calls: usize, is_ok: bool) -> usize {
    if is_ok {
        calls.saturating_add(1)
    } else {
        calls
    }
}

// Returns whether bytes are a unit, repeated this many times.
fn are_times(bytes: &[u8], unit: &[u8], times: usize) -> bool {
    let mut rest = bytes;
    for _ in 0..times {
        if !rest.starts_with(unit) || rest.len() < unit.len() {
            return false;
        }
        rest = &rest[unit.len()..];
    }
    rest.is_empty()
}

/// Grows terms, and terms of JSON fields, and returns their lengths. Then changes terms during indexing.
pub fn read_back(alloc: Global) -> Result<String, Fault> {
    let mut text = String::new(alloc);
    for row in &APPENDED {
        write!(text, " {}", grown_term(alloc, row)?)?;
    }
    for row in &SERIALIZED {
        write!(text, " {}", grown_json(alloc, row)?)?;
    }
    for row in &CHANGED {
        write!(text, " {}", changed_term(alloc, row)?)?;
    }
    Ok(text)
}

// What is appended to a term.
enum Append {
    Number(u64),
    Text(&'static str),
}

// A call of a term, and the bytes that it appends.
static APPENDED: [(Append, &[u8]); 2] = [
    (Append::Number(5), &[0x75, 0, 0, 0, 0, 0, 0, 0, 5]),
    (Append::Text("a text"), b"sa text"),
];

// Appends the same value again and again, and returns the length of the term.
fn grown_term(alloc: Global, row: &(Append, &'static [u8])) -> Result<usize, Fault> {
    let (append, unit) = row;
    let mut term = Term::from_field_bytes(alloc, Field::from_field_id(1), b"")?;
    for calls in 0..CALLS {
        let step = match append {
            Append::Number(number) => term.append_type_and_fast_value(*number),
            Append::Text(text) => term.append_type_and_str(text),
        };
        let times = calls_after(calls, step.is_ok());
        judged(step, are_times(term.serialized_value_bytes(), unit, times))?;
    }
    Ok(term.serialized_value_bytes().len())
}

// A call of the serializer of JSON terms.
enum Serialize {
    Path(&'static str),
    Bytes(&'static [u8]),
    Term(&'static str, &'static [u8]),
    Key(&'static str, &'static [u8]),
}

// A call, and the bytes that it appends.
static SERIALIZED: [(Serialize, &[u8]); 4] = [
    (Serialize::Path("a\u{1}b\0"), b"a\x01b0\0"),
    (Serialize::Bytes(b"some bytes"), b"some bytes"),
    (Serialize::Term("a", b"text"), b"a\0stext"),
    (Serialize::Key("a\u{1}b", b"stext"), b"a\x01b\0stext"),
];

// Appends once.
fn append_to(serializer: &mut JsonTermSerializer, call: &Serialize) -> Result<(), Fault> {
    match call {
        Serialize::Path(path) => serializer.append_json_path(path),
        Serialize::Bytes(bytes) => match serializer.append_bytes(bytes) {
            Ok(_) => Ok(()),
            Err(fault) => Err(fault),
        },
        Serialize::Term(path, text) => serializer.append_term(path, ValueType::Str, text),
        Serialize::Key(path, value) => serializer.append_key(path, value),
    }
}

// Appends the same again and again, and returns the number of bytes.
fn grown_json(alloc: Global, row: &(Serialize, &'static [u8])) -> Result<usize, Fault> {
    let (call, unit) = row;
    let mut serializer = JsonTermSerializer::new(alloc);
    for calls in 0..CALLS {
        let step = append_to(&mut serializer, call);
        let times = calls_after(calls, step.is_ok());
        judged(step, are_times(serializer.as_bytes(), unit, times))?;
    }
    Ok(serializer.len())
}

// A call of a term during indexing.
enum Change {
    Number(u64),
    Signed(i64),
    Truth(bool),
    Address(u128),
    Text(&'static [u8]),
    More(&'static [u8]),
    Date(i64),
}

// The bytes of field 258 and the value `ab`.
const BEFORE: &[u8] = b"\0\0\x01\x02ab";

// A call, and the bytes after it.
static CHANGED: [(Change, &[u8]); 7] = [
    (
        Change::Number(983),
        &[0, 0, 1, 2, 0, 0, 0, 0, 0, 0, 0x03, 0xD7],
    ),
    (
        Change::Signed(-4),
        &[0, 0, 1, 2, 0x7F, 0xFF, 0xFF, 0xFF, 0xFF, 0xFF, 0xFF, 0xFC],
    ),
    (Change::Truth(true), &[0, 0, 1, 2, 0, 0, 0, 0, 0, 0, 0, 1]),
    (
        Change::Address(1),
        &[0, 0, 1, 2, 0, 0, 0, 0, 0, 0, 0, 0, 0, 0, 0, 0, 0, 0, 0, 1],
    ),
    (Change::Text(b"a longer text"), b"\0\0\x01\x02a longer text"),
    (Change::More(b" and more"), b"\0\0\x01\x02ab and more"),
    (
        Change::Date(5),
        &[0, 0, 1, 2, 0x61, 0x62, 0x64, 0x80, 0, 0, 0, 0, 0, 0, 5],
    ),
];

// Changes a term once.
fn apply(term: &mut IndexingTerm, call: &Change) -> Result<(), Fault> {
    match call {
        Change::Number(number) => term.set_u64(*number),
        Change::Signed(number) => term.set_i64(*number),
        Change::Truth(truth) => term.set_bool(*truth),
        Change::Address(address) => term.set_ip_addr(*address),
        Change::Text(text) => term.set_bytes(text),
        Change::More(bytes) => match term.append_bytes(bytes) {
            Ok(_) => Ok(()),
            Err(fault) => Err(fault),
        },
        Change::Date(date) => term.append_type_and_fast_value(DateTime(*date)),
    }
}

// Changes a term without spare capacity, and returns the length of its value.
fn changed_term(alloc: Global, row: &(Change, &'static [u8])) -> Result<usize, Fault> {
    let (call, after) = row;
    let mut term = IndexingTerm::with_capacity(alloc, 2)?;
    term.set_field(Field::from_field_id(258));
    term.set_bytes(b"ab")?;
    let step = apply(&mut term, call);
    let want = if step.is_ok() { *after } else { BEFORE };
    judged(step, term.serialized_term() == want)?;
    Ok(term.len_bytes())
}
