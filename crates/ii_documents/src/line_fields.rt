//! Chooses members of a line.
ghost use Rattle.std.specs.Prelude.{◌≡◌, ◌++◌, IfOk, List, string_bytes, ℕ};
ghost use Rattle.std.specs.Option.{option_map};
ghost use Rattle.serde_json.specs.Data.{string};
ghost use Rattle.serde_json.specs.View.{view};
ghost use Rattle.serde_json.specs.Written.{compact_text};
ghost use Rattle.ii_io.specs.Faults.{OnlyMemory};
ghost use Rattle.ii_documents.specs.declared.line_fields.NullMembers.TheVariants.{Keep};
ghost use Rattle.ii_documents.specs.LineFields.{AddsMember, IsObjectText, IsValueText, chosen, names_of, unless_null, value_of_line};

use ii_base::Fault;
use serde_json::Value;
use std::alloc::Global;

/// What happens to members that are null.
#[derive(Clone, Copy, Debug, PartialEq, Eq)]
pub(crate) enum NullMembers {
    // They are kept.
    Keep,
    // They are left out.
    LeaveOut,
}

/// Returns the text of a JSON object that has the members of a line with these names, in the order of the names. A
/// name that the line doesn't have is left out; a line that is no JSON object has none. Values are written without
/// spaces. Fails only with `OutOfMemory`.
pub fn fields_of_line(alloc: Global, line: &str, names: &[&str]) -> Result<String, Fault>
    ensures fields { IfOk result (λ text. IsObjectText (chosen Keep (names_of names.now) (value_of_line line.now)) (string_bytes text)) }
    ensures only { OnlyMemory result }
{
    let value = match read_line(alloc, line) {
        Ok(value) => value,
        Err(fault) => return Err(fault),
    };
    let text = object_text(alloc, &value, NullMembers::Keep, names);
    drop(value);
    text
}

/// Returns the value of a line, null if it isn't JSON. Fails only with `OutOfMemory`.
pub fn read_line(alloc: Global, line: &str) -> Result<Value, Fault>
    ensures value { IfOk result (λ value. view value ≡ value_of_line line.now) }
    ensures only { OnlyMemory result }
{
    match Value::from_str(alloc, line) {
        Ok(value) => Ok(value),
        Err(error) => {
            if error.is_memory() {
                return Err(Fault::OutOfMemory);
            }
            Ok(Value::Null)
        }
    }
}

// Returns the text of an object that has the members of a value with these names.
pub(crate) fn object_text(
    alloc: Global,
    value: &Value,
    nulls: NullMembers,
    names: &[&str],
) -> Result<String, Fault>
    ensures fields { IfOk result (λ text. IsObjectText (chosen nulls (names_of names.now) (view value.now)) (string_bytes text)) }
    ensures only { OnlyMemory result }
{
    let mut text = String::new(alloc);
    text.push('{')?;
    let mut has_some = false;
    for name in names {
        let found = unless_null(nulls, value.get(*name));
        has_some = push_member(alloc, &mut text, has_some, *name, found)?;
    }
    text.push('}')?;
    Ok(text)
}

// Returns a value, unless it is null and such members are left out.
fn unless_null<'a>(nulls: NullMembers, value: Option<&'a Value>) -> Option<&'a Value>
    ensures { option_map (λ v. view v.now) result ≡ unless_null nulls (option_map (λ v. view v.now) value.entry) }
{
    match nulls {
        NullMembers::Keep => value,
        NullMembers::LeaveOut => match value {
            Some(Value::Null) | None => None,
            Some(value) => Some(value),
        },
    }
}

// Adds a member with a name, if there is a value. Returns whether the object has a member then.
fn push_member(
    alloc: Global,
    text: &mut String,
    has_some: bool,
    name: &str,
    value: Option<&Value>,
) -> Result<bool, Fault>
    ensures added { IfOk result (λ now. AddsMember has_some name.now (option_map (λ v. view v.now) value.entry) (string_bytes text.old) now (string_bytes text.new)) }
    ensures only { OnlyMemory result }
{
    let Some(value) = value else {
        return Ok(has_some);
    };
    if has_some {
        text.push(',')?;
    }
    let name = quoted(alloc, name)?;
    text.push_str(name.as_str())?;
    text.push(':')?;
    let member = value_text(alloc, value)?;
    text.push_str(member.as_str())?;
    Ok(true)
}

/// Returns the text of a value, without spaces. Fails only with `OutOfMemory`.
pub fn value_text(alloc: Global, value: &Value) -> Result<String, Fault>
    ensures text { IfOk result (λ text. IsValueText (view value.now) (string_bytes text)) }
    ensures only { OnlyMemory result }
{
    match value.to_string(alloc) {
        Ok(text) => Ok(text),
        Err(_) => Err(Fault::OutOfMemory),
    }
}

/// Returns a text as a JSON string. Fails only with `OutOfMemory`.
pub fn quoted(alloc: Global, text: &str) -> Result<String, Fault>
    ensures quoted { IfOk result (λ quoted. string_bytes quoted ≡ compact_text (string text.now)) }
    ensures only { OnlyMemory result }
{
    let mut owned = String::new(alloc);
    owned.push_str(text)?;
    let value = Value::String(owned);
    let string = value.to_string(alloc);
    drop(value);
    match string {
        Ok(string) => Ok(string),
        Err(_) => Err(Fault::OutOfMemory),
    }
}
