use crate::tests::has_bytes;
use ii_base::{
    DateTime, FastValue, Fault, Field, JsonLeaf, JsonPathWriter, JsonValue, Term,
    encode_column_name, split_json_path,
};
use std::alloc::Global;
use std::test::Fail;

// Returns whether a path has these segments.
fn is_split(alloc: Global, path: &str, want: &[&'static str]) -> Result<bool, Fault> {
    let segments = split_json_path(alloc, path)?;
    let mut same = segments.len() == want.len();
    for (segment, wanted) in segments.iter().zip(want.iter()) {
        same &= segment.as_str() == *wanted;
    }
    Ok(same)
}

static SPLIT: [(&'static str, &'static [&'static str]); 9] = [
    ("titi.toto", &["titi", "toto"]),
    ("toto.", &["toto", ""]),
    (".toto", &["", "toto"]),
    (r"k8s\.container\.name", &["k8s.container.name"]),
    (r"toto\\titi", &[r"toto\titi"]),
    (r"toto\titi", &["tototiti"]),
    (r"toto\", &["toto"]),
    ("", &[""]),
    (
        "caf\u{e9}.\\\u{65e5}\u{672c}",
        &["caf\u{e9}", "\u{65e5}\u{672c}"],
    ),
];

#[test]
fn paths_are_split(rt: HostRuntime) {
    for (path, segments) in SPLIT {
        assert!(rt; is_split(rt.alloc(), path, segments) == Ok(true), "{path}");
    }
}

// One call to the path writer.
#[derive(Clone, Copy)]
enum Step {
    Push(&'static str),
    Pop,
    Clear,
    Dots(bool),
    // list the current path
    Tell,
}

static STEPS: [Step; 19] = [
    Step::Tell,
    Step::Push("bands"),
    Step::Push("band.name"),
    Step::Tell,
    Step::Pop,
    Step::Tell,
    Step::Pop,
    Step::Pop,
    Step::Push(""),
    Step::Push("b"),
    Step::Tell,
    Step::Dots(true),
    Step::Push("k8s.node"),
    Step::Tell,
    Step::Clear,
    Step::Push("caf\u{e9}.\u{65e5}."),
    Step::Dots(false),
    Step::Push("x.y"),
    Step::Tell,
];

// Lists the paths at each `Tell` and the final one.
fn written_paths(alloc: Global) -> Result<String, Fault> {
    let mut writer = JsonPathWriter::new(alloc);
    let mut paths = String::new(alloc);
    for step in STEPS {
        match step {
            Step::Push(segment) => writer.push(segment)?,
            Step::Pop => writer.pop(),
            Step::Clear => writer.clear(),
            Step::Dots(expanded) => writer.set_expand_dots(expanded),
            Step::Tell => write!(paths, "{}\n", writer.as_str())?,
        }
    }
    paths.push_str(writer.into_string().as_str())?;
    Ok(paths)
}

static PATHS: &str = concat!(
    "\n",
    "bands\u{1}band.name\n",
    "bands\n",
    "\u{1}b\n",
    "\u{1}b\u{1}k8s\u{1}node\n",
    "caf\u{e9}\u{1}\u{65e5}\u{1}\u{1}x.y\n",
    "caf\u{e9}\u{1}\u{65e5}\u{1}\u{1}x.y",
);

#[test]
fn paths_are_written(rt: HostRuntime) -> Result<(), Fail> {
    let paths = written_paths(rt.alloc())?;
    assert!(rt; paths.as_str() == PATHS);
    let kept = encode_column_name(rt.alloc(), "attr", "a\\.b.c", false)?;
    assert!(rt; kept.as_str() == "attr\u{1}a.b\u{1}c");
    let expanded = encode_column_name(rt.alloc(), "attr", "a\\.b.c", true)?;
    assert!(rt; expanded.as_str() == "attr\u{1}a\u{1}b\u{1}c");
    Ok(())
}

#[test]
fn paths_have_terms(rt: HostRuntime) {
    let (alloc, field) = (rt.alloc(), Field::from_field_id(3));
    let plain = Term::from_field_json_path(alloc, field, "bands.band_name", false);
    let kept = Term::from_field_json_path(alloc, field, r"k8s\.node", false);
    let expanded = Term::from_field_json_path(alloc, field, r"k8s\.node", true);
    let empty = Term::from_field_json_path(alloc, field, "", true);
    let found = [
        has_bytes(plain, b"bands\x01band_name\x00"),
        has_bytes(kept, b"k8s.node\x00"),
        has_bytes(expanded, b"k8s\x01node\x00"),
        has_bytes(empty, b"\x00"),
    ];
    assert!(rt; found == [Ok(true); 4]);
}

// Builds the term of a text at a path.
fn text_at(alloc: Global, text: &str) -> Result<Term, Fault> {
    let mut term = Term::from_field_json_path(alloc, Field::from_field_id(3), "color", false)?;
    term.append_type_and_str(text)?;
    Ok(term)
}

// Builds the term of a value at the same path.
fn value_at<T: FastValue>(alloc: Global, value: T) -> Result<Term, Fault> {
    let mut term = Term::from_field_json_path(alloc, Field::from_field_id(3), "color", false)?;
    term.append_type_and_fast_value(value)?;
    Ok(term)
}

#[test]
fn values_at_paths_have_terms(rt: HostRuntime) {
    let alloc = rt.alloc();
    let found = [
        has_bytes(text_at(alloc, "red"), b"color\x00sred"),
        has_bytes(
            value_at(alloc, 4u64),
            b"color\x00u\x00\x00\x00\x00\x00\x00\x00\x04",
        ),
        has_bytes(
            value_at(alloc, -4i64),
            b"color\x00i\x7f\xff\xff\xff\xff\xff\xff\xfc",
        ),
        has_bytes(
            value_at(alloc, true),
            b"color\x00o\x00\x00\x00\x00\x00\x00\x00\x01",
        ),
        has_bytes(
            value_at(alloc, DateTime(5)),
            b"color\x00d\x80\x00\x00\x00\x00\x00\x00\x05",
        ),
    ];
    assert!(rt; found == [Ok(true); 5]);
}

// Returns the leaf of a value: its type code and number. For a text it is `s` and the length, for an
// unsupported value `!`.
fn leaf_of(value: &JsonValue) -> Option<(u8, u64)> {
    match value.leaf() {
        None => None,
        Some(JsonLeaf::Text(text)) => Some((b's', text.len() as u64)),
        Some(JsonLeaf::Value(value_type, number)) => Some((value_type.to_code(), number)),
        Some(JsonLeaf::Unsupported(_)) => Some((b'!', 0)),
    }
}

static LEAVES: [Option<(u8, u64)>; 10] = [
    Some((b'i', 0x8000_0000_0000_0005)),
    Some((b'u', 0x8000_0000_0000_0000)),
    Some((b'i', 0x7fff_ffff_ffff_fffc)),
    Some((b'o', 1)),
    Some((b'd', 0x8000_0000_0000_0000)),
    Some((b'd', 0x7fff_ffff_c465_3600)),
    None,
    Some((b's', 12)),
    None,
    None,
];

#[test]
fn values_tell_their_leaves(rt: HostRuntime) -> Result<(), Fail> {
    let text = String::from_str(rt.alloc(), "Elliot Smith")?;
    let values = vec![in rt.alloc();
        JsonValue::U64(5),
        JsonValue::U64(9_223_372_036_854_775_808),
        JsonValue::I64(-4),
        JsonValue::Bool(true),
        JsonValue::Date(-1),
        JsonValue::Date(-1_500_000_000),
        JsonValue::Null,
        JsonValue::Str(text),
        JsonValue::Object(Vec::new(rt.alloc())),
        JsonValue::Array(Vec::new(rt.alloc())),
    ]?;
    for (value, want) in values.iter().zip(LEAVES.iter()) {
        assert!(rt; leaf_of(value) == *want);
    }
    Ok(())
}

// Returns whether a value is an unsupported leaf of this kind.
fn is_kind(alloc: Global, value: &JsonValue, want: &str) -> Result<bool, Fault> {
    match value.leaf() {
        Some(JsonLeaf::Unsupported(kind)) => {
            let told = format!(in alloc; "{kind}")?;
            Ok(told.as_str() == want)
        }
        _ => Ok(false),
    }
}

#[test]
fn other_values_tell_their_kinds(rt: HostRuntime) {
    let alloc = rt.alloc();
    let told = [
        is_kind(alloc, &JsonValue::F64Bits(0), "float"),
        is_kind(alloc, &JsonValue::PreTok, "pre-tokenized text"),
        is_kind(alloc, &JsonValue::Bytes, "bytes"),
        is_kind(alloc, &JsonValue::Facet, "facet"),
        is_kind(alloc, &JsonValue::Ip, "IP address"),
    ];
    assert!(rt; told == [Ok(true); 5]);
}
