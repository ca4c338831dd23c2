ghost use Rattle.std.specs.Prelude.{◌≡◌, IfErr};

use ii_base::{Fault, JsonLeaf, JsonPathWriter, JsonValue};
use ii_json::{LeafSink, visit_leaves};
use std::alloc::Global;
use std::test::Fail;

// Collects the paths and values of leaves.
#[derive(Drop)]
struct Gathered {
    text: String,
}

impl LeafSink for Gathered {
    ghost use Rattle.std.specs.Prelude.{⊤, None};

    ghost Given = { Unit {0} };

    ghost Constant = { Unit {0} };

    ghost constant = { λ gathered. tt };

    ghost ready = { λ gathered. ⊤ };

    ghost holds = { λ gathered given leaves. ⊤ };

    ghost fault = { λ constant given leaves leaf. None };

    fn take_leaf(&mut self, path: &str, leaf: JsonLeaf<'_>) -> Result<(), Fault> {
        gather(&mut self.text, path, leaf)
    }
}

// Appends a leaf.
fn gather(text: &mut String, path: &str, leaf: JsonLeaf<'_>) -> Result<(), Fault>
    ensures only { IfErr result (λ e. e ≡ Fault.OutOfMemory) }
{
    let word = match leaf {
        JsonLeaf::Text(word) => word,
        JsonLeaf::Value(value_type, _) => match value_type.to_code() {
            b'i' => "i",
            b'o' => "o",
            _ => "?",
        },
        JsonLeaf::Unsupported(_) => "!",
    };
    text.push_str(path)?;
    text.push('=')?;
    text.push_str(word)?;
    text.push(';')?;
    Ok(())
}

// Lists the leaves of a value; dots in its keys are expanded.
fn leaves_of(alloc: Global, value: &JsonValue) -> Result<String, Fault> {
    let mut writer = JsonPathWriter::new(alloc);
    writer.set_expand_dots(true);
    let mut gathered = Gathered {
        text: String::new(alloc),
    };
    visit_leaves(alloc, value, &mut writer, &mut gathered)?;
    Ok(gathered.text)
}

// Appends a member if its value was built.
fn push(
    alloc: Global,
    members: &mut Vec<(String, JsonValue)>,
    key: &str,
    value: Result<JsonValue, Fault>,
) -> Result<(), Fault> {
    let value = value?;
    members.push((String::from_str(alloc, key)?, value))?;
    Ok(())
}

// Builds an object with one member.
fn object(alloc: Global, key: &str, value: JsonValue) -> Result<JsonValue, Fault> {
    let mut members = Vec::new(alloc);
    push(alloc, &mut members, key, Ok(value))?;
    Ok(JsonValue::Object(members))
}

// Builds an array of two objects.
fn bands(alloc: Global) -> Result<JsonValue, Fault> {
    let mut bands = Vec::new(alloc);
    for name in ["Elliot Smith", "The Who"] {
        let name = JsonValue::Str(String::from_str(alloc, name)?);
        bands.push(object(alloc, "band_name", name)?)?;
    }
    Ok(JsonValue::Array(bands))
}

// Builds an object with these, a repeated key, a key with byte 0, and keys with a dot.
fn all(alloc: Global) -> Result<JsonValue, Fault> {
    let mut members = Vec::new(alloc);
    push(alloc, &mut members, "bands", bands(alloc))?;
    push(
        alloc,
        &mut members,
        "a",
        object(alloc, "b", JsonValue::U64(1)),
    )?;
    push(alloc, &mut members, "a", Ok(JsonValue::U64(2)))?;
    push(alloc, &mut members, "c\0", Ok(JsonValue::F64Bits(3)))?;
    push(alloc, &mut members, "k8s.node", Ok(JsonValue::Null))?;
    push(alloc, &mut members, "k8s.node", Ok(JsonValue::I64(-1)))?;
    Ok(JsonValue::Object(members))
}

// Elements of an array have its path. Values under a key that holds byte 0 are skipped.
static LEAVES: &str = concat!(
    "bands\u{1}band_name=Elliot Smith;",
    "bands\u{1}band_name=The Who;",
    "a\u{1}b=i;",
    "a=i;",
    "k8s\u{1}node=i;",
);

#[test]
fn leaves_have_paths(rt: HostRuntime) -> Result<(), Fail> {
    let leaves = leaves_of(rt.alloc(), &all(rt.alloc())?)?;
    assert!(rt; leaves.as_str() == LEAVES);
    let root = leaves_of(rt.alloc(), &JsonValue::Bool(true))?;
    assert!(rt; root.as_str() == "=o;");
    Ok(())
}
