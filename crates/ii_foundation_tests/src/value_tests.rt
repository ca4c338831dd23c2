use ii_base::{Fault, Field, Term, ValueType};
use ii_json::{
    JsonTermSerializer, OrderedPathId, PathToUnorderedId,
    convert_to_fast_value_and_append_to_json_term, json_path_sep_to_dot,
};
use std::alloc::Global;
use std::test::Fail;

// Registers paths and appends each with its unordered id.
fn push_ids(
    known: &mut PathToUnorderedId,
    paths: &[&'static str],
    spelled: &mut String,
) -> Result<(), Fault> {
    for path in paths {
        let id = known.get_or_allocate_unordered_id(*path)?;
        write!(spelled, "{path}{id} ")?;
    }
    Ok(())
}

// Appends the ordered ids of the known paths.
fn push_ordered(
    alloc: Global,
    known: &PathToUnorderedId,
    spelled: &mut String,
) -> Result<(), Fault> {
    let ids = known.unordered_id_to_ordered_id(alloc)?;
    for id in ids.as_slice() {
        write!(spelled, "{} ", id.path_id())?;
    }
    Ok(())
}

// Appends the known paths in order.
fn push_paths(alloc: Global, known: &PathToUnorderedId, spelled: &mut String) -> Result<(), Fault> {
    let paths = known.ordered_id_to_path(alloc)?;
    for path in paths.as_slice() {
        write!(spelled, "{path} ")?;
    }
    Ok(())
}

fn spell(alloc: Global, paths: &[&'static str]) -> Result<String, Fault> {
    let mut known = PathToUnorderedId::new(alloc);
    let mut spelled = String::new(alloc);
    push_ids(&mut known, paths, &mut spelled)?;
    push_ordered(alloc, &known, &mut spelled)?;
    push_paths(alloc, &known, &mut spelled)?;
    Ok(spelled)
}

static PATHS: [(&'static [&'static str], &'static str); 3] = [
    (&["b", "a", "b", "c"], "b0 a1 b0 c2 1 0 2 a b c "),
    (
        &["\u{e9}", "ab", "a\u{1}b", "", "a"],
        "\u{e9}0 ab1 a\u{1}b2 3 a4 4 3 2 0 1  a a\u{1}b ab \u{e9} ",
    ),
    (&[], ""),
];

#[test]
fn paths_have_ids(rt: HostRuntime) -> Result<(), Fail> {
    for (paths, want) in PATHS {
        let spelled = spell(rt.alloc(), paths)?;
        assert!(rt; spelled.as_str() == want);
    }
    let three = OrderedPathId::from_ordered_id(3);
    let none = OrderedPathId::default() == OrderedPathId::from(0);
    assert!(rt; (three.path_id(), OrderedPathId::from(4) > three, none) == (3, true, true));
    Ok(())
}

// The number 2 as the value of a term.
static TWO: [u8; 8] = [0x80, 0, 0, 0, 0, 0, 0, 2];

static TERM_OF_TWO: [u8; 11] = [0x61, 0, 0x69, 0x80, 0, 0, 0, 0, 0, 0, 2];

// Builds two terms. Returns whether an appended value is returned as bytes, and whether both terms are right.
// The path of the first has a byte 00; the second is appended in one call.
fn built_terms(alloc: Global) -> Result<[bool; 3], Fault> {
    let mut term = JsonTermSerializer::new(alloc);
    term.append_json_path("gone")?;
    term.clear();
    term.append_json_path("a\0b")?;
    let path_len = term.len();
    term.append_bytes(b"sgreen")?;
    term.truncate(path_len);
    let is_lent = term.append_bytes(b"sred")? == b"sred".as_slice();
    let is_built = term.as_bytes() == b"a0b\x00sred".as_slice();
    term.clear();
    term.append_term("a", ValueType::I64, TWO.as_slice())?;
    Ok([is_lent, is_built, term.as_bytes() == TERM_OF_TWO.as_slice()])
}

#[test]
fn terms_have_paths_and_values(rt: HostRuntime) -> Result<(), Fail> {
    let built = built_terms(rt.alloc())?;
    assert!(rt; built == [true; 3]);
    Ok(())
}

#[test]
fn paths_are_shown_with_dots(rt: HostRuntime) -> Result<(), Fail> {
    let rows = [
        ("", ""),
        ("a", "a"),
        ("a\u{1}b\u{1}", "a.b."),
        ("caf\u{e9}\u{1}\u{65e5}", "caf\u{e9}.\u{65e5}"),
    ];
    for (path, dotted) in rows {
        let mut shown = String::from_str(rt.alloc(), path)?;
        json_path_sep_to_dot(&mut shown)?;
        assert!(rt; shown.as_str() == dotted);
    }
    Ok(())
}

static COLOR: [u8; 6] = *b"color\x00";

// Returns the bytes of a text's value at the path `color`, if it has one.
fn converted(alloc: Global, text: &str) -> Result<Option<Vec<u8>>, Fault> {
    let term = Term::from_field_bytes(alloc, Field::from_field_id(2), &COLOR)?;
    match convert_to_fast_value_and_append_to_json_term(alloc, &term, text)? {
        Some(more) => Ok(Some(Vec::from_slice(alloc, more.serialized_value_bytes())?)),
        None => Ok(None),
    }
}

// Returns whether a text converts to exactly these bytes, or to no value if `want` is `None`.
fn converts_to(alloc: Global, text: &str, want: Option<&'static [u8]>) -> Result<bool, Fault> {
    match converted(alloc, text)? {
        Some(value) => Ok(want == Some(value.as_slice())),
        None => Ok(want.is_none()),
    }
}

static CONVERTED: [(&'static str, Option<&'static [u8]>); 9] = [
    ("-4", Some(b"color\x00i\x7f\xff\xff\xff\xff\xff\xff\xfc")),
    ("+5", Some(b"color\x00i\x80\x00\x00\x00\x00\x00\x00\x05")),
    (
        "18446744073709551615",
        Some(b"color\x00u\xff\xff\xff\xff\xff\xff\xff\xff"),
    ),
    ("true", Some(b"color\x00o\x00\x00\x00\x00\x00\x00\x00\x01")),
    ("1.5", None),
    ("", None),
    ("True", None),
    ("-", None),
    ("18446744073709551616", None),
];

#[test]
fn texts_become_values(rt: HostRuntime) {
    for (text, want) in CONVERTED {
        assert!(rt; converts_to(rt.alloc(), text, want) == Ok(true), "{text}");
    }
}
