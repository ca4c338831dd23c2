ghost use Rattle.std.specs.Prelude.{◌≡◌, length};
ghost use Rattle.ii_definitions.specs.JsonKeys.{is_key_of_text, is_path_byte, path_in, type_in, type_under};

use ii_base::ValueType;

/// Returns whether a key of a field with values of a type belongs to a text. In a JSON field the key holds
/// the type of its value.
pub fn is_key_of_text(value_type: ValueType, key: &[u8]) -> bool
    ensures { result ≡ is_key_of_text value_type key.now }
{
    type_under(value_type, key).to_code() == ValueType::Str.to_code()
}

// Returns the type of a key's value.
fn type_under(value_type: ValueType, key: &[u8]) -> ValueType
    ensures { result ≡ type_under value_type key.now }
{
    if value_type.to_code() != ValueType::Json.to_code() {
        return value_type;
    }
    match type_in(key) {
        Some(found) => found,
        None => value_type,
    }
}

fn is_path_byte(byte: u8) -> bool
    ensures { result ≡ is_path_byte byte }
{
    byte != 0
}

// Returns the length of the path at the front of a key.
fn path_len(key: &[u8]) -> usize
    ensures { result ≡ length (path_in key.now) }
{
    key.iter().take_while(|b| is_path_byte(**b)).count()
}

// Returns the path at the front of a key.
pub(crate) fn path_in(key: &[u8]) -> &[u8]
    ensures { result.now ≡ path_in key.entry.now }
{
    &key[..path_len(key)]
}

// Returns the type that follows the path in a key.
#[tactic(auto, unfolding(ii_definitions::specs::JsonKeys::type_in))]
pub(crate) fn type_in(key: &[u8]) -> Option<ValueType>
    ensures { result ≡ type_in key.now }
{
    let code = key.get(path_len(key) + 1)?;
    ValueType::from_code(*code)
}
