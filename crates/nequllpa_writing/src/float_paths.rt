//! Where a line has a number with a fraction.
use ii_term_text::push_path;
use serde_json::Value;
use std::alloc::{AllocError, Global};

/// Returns the path of the first number with a fraction or an exponent in the value of a field of a line, as `terms`
/// prints paths, after the field's name. Returns `None` if the line has none, or if memory is refused while it is read.
pub fn float_path(alloc: Global, line: &str, field: &str) -> Result<Option<String>, AllocError> {
    let Ok(value) = Value::from_str(alloc, line) else {
        return Ok(None);
    };
    let Some(members) = value.as_object() else {
        return Ok(None);
    };
    let Some(value) = members.get(field) else {
        return Ok(None);
    };
    let mut keys = Vec::new(alloc);
    if !find_float(value, &mut keys)? {
        return Ok(None);
    }
    let mut path = String::from_str(alloc, field)?;
    for key in &keys {
        path.push('.')?;
        push_path(&mut path, key)?;
    }
    Ok(Some(path))
}

// Appends the keys that lead to the first number with a fraction in a value. Returns whether there is one; the keys are
// unchanged otherwise.
#[cycle(find_float)]
fn find_float<'v>(value: &'v Value, keys: &mut Vec<&'v str>) -> Result<bool, AllocError> {
    match value {
        Value::Null | Value::Bool(_) | Value::String(_) => Ok(false),
        Value::Number(number) => Ok(number.is_f64()),
        Value::Array(items) => {
            for item in items {
                if find_float(item, keys)? {
                    return Ok(true);
                }
            }
            Ok(false)
        }
        Value::Object(members) => {
            for (key, member) in members.iter() {
                keys.push(key.as_str())?;
                if find_float(member, keys)? {
                    return Ok(true);
                }
                keys.pop();
            }
            Ok(false)
        }
    }
}
