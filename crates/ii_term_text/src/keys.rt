//! Keys of terms as texts.
ghost use Rattle.std.specs.Prelude.{◌≡◌, ◌++◌, ◌==◌, ℤ, FitsSigned, None, OnOk, Some, MatchOption, decimal, option_map, position, string_bytes};
ghost use Rattle.std.specs.Fmt.{signed_decimal};
ghost use Rattle.std.specs.Int.{w64};
ghost use Rattle.hex.specs.Hex.{encode_lower};
ghost use Rattle.ii_base.specs.Values.{flipped};
ghost use Rattle.ii_base.specs.declared.schema.value_type.ValueType.TheVariants as types;
ghost use Rattle.ii_dates.specs.Dates.{date_text};
ghost use Rattle.ii_term_text.specs.KeyTexts.{boolean_in, boolean_text, bytes_text, text_of_key, number_of_key, parts_of_key, text_of_scalar_key, text_or_bytes, unflipped, utf8_or_bytes};
ghost use Rattle.ii_term_text.specs.PathTexts.{path_text};

use crate::paths::push_path;
use ii_base::ValueType;
use ii_dates::push_date;
use std::alloc::{AllocError, Global};
use std::net::Ipv6Addr;

/// Appends the text of a key of a field with values of this type: a word as it is, a number in decimal, `true`
/// or `false`, a date by RFC 3339 in UTC, bytes in hexadecimal, an IP address; for JSON values the path, the
/// letter of the type and the value, separated by spaces. A key, path or value that isn't one of its type is
/// appended in hexadecimal after `0x`.
pub fn push_key(
    alloc: Global,
    text: &mut String,
    value_type: ValueType,
    key: &[u8],
) -> Result<(), AllocError>
    ensures { OnOk result (string_bytes text.new ≡ string_bytes text.old ++ text_of_key value_type key.now) }
{
    match value_type {
        ValueType::Bytes => push_hex(alloc, text, key),
        ValueType::IpAddr => push_address(alloc, text, key),
        ValueType::Json => push_json_key(alloc, text, key),
        ValueType::Str | ValueType::U64 | ValueType::I64 | ValueType::Bool | ValueType::Date =>
            push_scalar(alloc, text, value_type, key),
    }
}

// Appends a scalar.
fn push_scalar(
    alloc: Global,
    text: &mut String,
    value_type: ValueType,
    key: &[u8],
) -> Result<(), AllocError>
    ensures { OnOk result (string_bytes text.new ≡ string_bytes text.old ++ text_of_scalar_key value_type key.now) }
{
    match value_type {
        ValueType::Str => push_word(alloc, text, key),
        ValueType::U64 => push_unsigned(alloc, text, key),
        ValueType::I64 => push_signed(alloc, text, key),
        ValueType::Date => push_date_of(alloc, text, key),
        ValueType::Bool => push_boolean(alloc, text, key),
        ValueType::Bytes | ValueType::IpAddr | ValueType::Json => push_bytes(alloc, text, key),
    }
}

// Appends a word.
fn push_word(alloc: Global, text: &mut String, key: &[u8]) -> Result<(), AllocError>
    ensures { OnOk result (string_bytes text.new ≡ string_bytes text.old ++ utf8_or_bytes (λ k. k) key.now) }
{
    match std::str::from_utf8(key) {
        Ok(word) => text.push_str(word),
        Err(_) => push_bytes(alloc, text, key),
    }
}

// Appends bytes that aren't a key of the type.
fn push_bytes(alloc: Global, text: &mut String, key: &[u8]) -> Result<(), AllocError>
    ensures { OnOk result (string_bytes text.new ≡ string_bytes text.old ++ bytes_text key.now) }
{
    text.push_str("0x")?;
    push_hex(alloc, text, key)
}

// Appends bytes in hexadecimal.
fn push_hex(alloc: Global, text: &mut String, key: &[u8]) -> Result<(), AllocError>
    ensures { OnOk result (string_bytes text.new ≡ string_bytes text.old ++ encode_lower key.now) }
{
    let digits = hex::encode(alloc, key)?;
    text.push_str(digits.as_str())
}

// Appends an unsigned number.
fn push_unsigned(alloc: Global, text: &mut String, key: &[u8]) -> Result<(), AllocError>
    ensures { OnOk result (string_bytes text.new ≡ string_bytes text.old ++ text_or_bytes key.now (option_map decimal (number_of_key key.now))) }
{
    match number_of_key(key) {
        Some(number) => write!(text, "{number}"),
        None => push_bytes(alloc, text, key),
    }
}

// Appends a signed number.
fn push_signed(alloc: Global, text: &mut String, key: &[u8]) -> Result<(), AllocError>
    ensures { OnOk result (string_bytes text.new ≡ string_bytes text.old ++ text_or_bytes key.now (option_map (λ n. signed_decimal (unflipped n)) (number_of_key key.now))) }
{
    match number_of_key(key) {
        Some(number) => {
            let number = signed(number);
            write!(text, "{number}")
        }
        None => push_bytes(alloc, text, key),
    }
}

// Appends a date.
fn push_date_of(alloc: Global, text: &mut String, key: &[u8]) -> Result<(), AllocError>
    ensures { OnOk result (string_bytes text.new ≡ string_bytes text.old ++ text_or_bytes key.now (option_map (λ n. date_text (unflipped n)) (number_of_key key.now))) }
{
    match number_of_key(key) {
        Some(number) => {
            let nanoseconds = signed(number);
            push_date(text, nanoseconds)
        }
        None => push_bytes(alloc, text, key),
    }
}

// Appends a boolean.
fn push_boolean(alloc: Global, text: &mut String, key: &[u8]) -> Result<(), AllocError>
    ensures { OnOk result (string_bytes text.new ≡ string_bytes text.old ++ text_or_bytes key.now (option_map boolean_text (boolean_in key.now))) }
{
    let Some(number) = number_of_key(key) else {
        return push_bytes(alloc, text, key);
    };
    if number == 0 {
        return text.push_str("false");
    }
    if number == 1 {
        return text.push_str("true");
    }
    push_bytes(alloc, text, key)
}

// The number in 8 bytes, big-endian.
fn number_of_key(key: &[u8]) -> Option<u64>
    ensures { result ≡ number_of_key key.now }
{
    match <[u8; 8]>::try_from(key) {
        Ok(octets) => Some(u64::from_be_bytes(octets)),
        Err(_) => None,
    }
}

// The signed number whose encoding is a number: 2^63 less.
fn signed(number: u64) -> i64
    ensures { (z : ℤ) → FitsSigned w64 z → number ≡ flipped z → result ≡ z }
{
    i64::MIN.wrapping_add_unsigned(number)
}

// Appends an IP address.
fn push_address(alloc: Global, text: &mut String, key: &[u8]) -> Result<(), AllocError>
    ensures { OnOk result (string_bytes text.new ≡ string_bytes text.old ++ text_of_key types.IpAddr key.now) }
{
    let Ok(octets) = <[u8; 16]>::try_from(key) else {
        return push_bytes(alloc, text, key);
    };
    let address = Ipv6Addr::from_octets(octets).to_canonical();
    write!(text, "{address}")
}

// Appends a scalar at a path.
fn push_json_key(alloc: Global, text: &mut String, key: &[u8]) -> Result<(), AllocError>
    ensures { OnOk result (string_bytes text.new ≡ string_bytes text.old ++ text_of_key types.Json key.now) }
{
    let Some((path, value_type, value)) = split_key(key) else {
        return push_bytes(alloc, text, key);
    };
    push_path_bytes(alloc, text, path)?;
    text.push(' ')?;
    text.push(char::from(value_type.to_code()))?;
    text.push(' ')?;
    push_scalar(alloc, text, value_type, value)
}

// The path, the type and the value in a key of a JSON field.
fn split_key(key: &[u8]) -> Option<(&[u8], ValueType, &[u8])>
    ensures { MatchOption result (parts_of_key key.now ≡ None) (λ r. parts_of_key key.now ≡ Some (record { path = r.0.now; value_type = r.1; value = r.2.now })) }
{
    let Some(place) = zero_in(key) else {
        return None;
    };
    let (path, rest) = key.split_at(place);
    if rest.len() < 2 {
        return None;
    }
    let Some(value_type) = ValueType::from_code(rest[1]) else {
        return None;
    };
    let (_, value) = rest.split_at(2);
    Some((path, value_type, value))
}

// Where the first byte 0 is.
fn zero_in(key: &[u8]) -> Option<usize>
    ensures { result ≡ position (λ b. b == 0) key.now }
{
    key.iter().position(|b| *b == 0)
}

/// Appends a path as text (see `push_path`). Bytes that aren't UTF-8 are appended in hexadecimal after `0x`.
pub fn push_path_bytes(alloc: Global, text: &mut String, path: &[u8]) -> Result<(), AllocError>
    ensures { OnOk result (string_bytes text.new ≡ string_bytes text.old ++ utf8_or_bytes path_text path.now) }
{
    match std::str::from_utf8(path) {
        Ok(path) => push_path(text, path),
        Err(_) => push_bytes(alloc, text, path),
    }
}
