//! Terms of texts.
ghost use Rattle.std.specs.Prelude.{◌≡◌, ◌↔◌, IfOk, IsTrue, MatchOption, None, Some};
ghost use Rattle.std.specs.Option.{option_map};
ghost use Rattle.std.specs.Int.{bytes_high_first};
ghost use Rattle.std.specs.Result.{result_ok};
ghost use Rattle.hex.specs.Hex.{decode_of};
ghost use Rattle.hex.specs.declared.error.FromHexError.TheVariants.{OutOfMemory};
ghost use Rattle.ii_io.specs.Faults.{OnlyMemory};
ghost use Rattle.ii_base.specs.Paths.{has_zero};
ghost use Rattle.ii_dates.specs.Dates.{date_in};
ghost use Rattle.ii_json.specs.FastValues.{bool_in, i64_in, u64_in};
ghost use Rattle.ii_term_text.specs.Addresses.{address_in};
ghost use Rattle.ii_term_text.specs.KeyTexts.{AppendsScalar, boolean, date, json_key_in, key_in, scalar_in, signed, term_with, text_parts, unsigned};

use crate::addresses::address_of;
use crate::paths::cut_at_space;
use hex::FromHexError;
use ii_base::{DateTime, Fault, Field, FieldEntry, Term, ValueType};
use ii_dates::{date_of, date_term};
use ii_json::{bool_in, bool_term, i64_in, i64_term, u64_in, u64_term};
use std::alloc::Global;

/// Returns the term of a field that a text spells, as `push_key` writes it or in another spelling that `parse`,
/// `date_of`, `hex::decode` or the address parsers accept. Returns `None` if the text spells none of the field's type. `entry`
/// is that of the field. Returns `OutOfMemory` if allocation fails.
pub fn term_of(
    alloc: Global,
    field: Field,
    entry: &FieldEntry,
    text: &str,
) -> Result<Option<Term>, Fault>
    ensures ok { IfOk result (λ term. term ≡ term_with field (key_in entry.now.value_type entry.now.expands_dots text.now)) }
    ensures only { OnlyMemory result }
{
    match entry.value_type() {
        ValueType::Str => Ok(Some(Term::from_field_text(alloc, field, text)?)),
        ValueType::U64 => u64_term(alloc, field, text),
        ValueType::I64 => i64_term(alloc, field, text),
        ValueType::Date => date_term(alloc, field, text),
        ValueType::Bool => bool_term(alloc, field, text),
        ValueType::Bytes => bytes_term(alloc, field, text),
        ValueType::IpAddr => address_term(alloc, field, text),
        ValueType::Json => json_term(alloc, field, entry.expands_dots(), text),
    }
}

/// Returns the term of the bytes that a text spells in pairs of hexadecimal digits, if it spells any. Returns
/// `OutOfMemory` if allocation fails.
pub fn bytes_term(alloc: Global, field: Field, text: &str) -> Result<Option<Term>, Fault>
    ensures ok { IfOk result (λ term. term ≡ term_with field (result_ok (decode_of text.now))) }
    ensures only { OnlyMemory result }
{
    match hex::decode(alloc, text) {
        Ok(bytes) => Ok(Some(Term::from_field_bytes(alloc, field, bytes.as_slice())?)),
        Err(error) => {
            if is_memory(&error) {
                return Err(Fault::OutOfMemory);
            }
            Ok(None)
        }
    }
}

// Whether an allocation failed.
fn is_memory(error: &FromHexError) -> bool
    ensures { IsTrue result ↔ (error.now ≡ OutOfMemory) }
{
    matches!(error, FromHexError::OutOfMemory)
}

/// Returns the term of the IP address that a text spells, if it spells one: 16 bytes, big-endian; of an IPv4 address
/// its mapped IPv6 address `::ffff:a.b.c.d`. Returns `OutOfMemory` if allocation fails.
pub fn address_term(alloc: Global, field: Field, text: &str) -> Result<Option<Term>, Fault>
    ensures ok { IfOk result (λ term. term ≡ option_map (λ n. record { field = field; value = bytes_high_first 16 n }) (address_in text.now)) }
    ensures only { OnlyMemory result }
{
    match address_of(text) {
        Some(address) => {
            let octets = address.to_be_bytes();
            Ok(Some(Term::from_field_bytes(alloc, field, &octets)?))
        }
        None => Ok(None),
    }
}

// The term of a scalar at a path.
fn json_term(
    alloc: Global,
    field: Field,
    expands_dots: bool,
    text: &str,
) -> Result<Option<Term>, Fault>
    ensures ok { IfOk result (λ term. term ≡ term_with field (json_key_in expands_dots text.now)) }
    ensures only { OnlyMemory result }
{
    let Some((path, letter, value)) = split_text(text) else {
        return Ok(None);
    };
    if has_zero(path) {
        return Ok(None);
    }
    let mut term = Term::from_field_json_path(alloc, field, path, expands_dots)?;
    if append_scalar(&mut term, letter, value)? {
        return Ok(Some(term));
    }
    Ok(None)
}

// The path, the letter and the value in the text of a key of a JSON field.
fn split_text(text: &str) -> Option<(&str, &str, &str)>
    ensures { MatchOption result (text_parts text.now ≡ None) (λ r. text_parts text.now ≡ Some (record { path = r.0.now; letter = r.1.now; value = r.2.now })) }
{
    let Some((path, rest)) = cut_at_space(text) else {
        return None;
    };
    let Some((letter, value)) = rest.split_once(' ') else {
        return None;
    };
    Some((path, letter, value))
}

// Whether a path has byte 0, which no key of JSON values has in its path.
fn has_zero(path: &str) -> bool
    ensures { result ≡ has_zero path.now }
{
    path.as_bytes().contains(&0)
}

// Appends a scalar of the type with this letter to a term, and returns whether the text spells one.
fn append_scalar(term: &mut Term, letter: &str, value: &str) -> Result<bool, Fault>
    ensures ok { IfOk result (λ found. AppendsScalar (scalar_in letter.now value.now) term.old term.new found) }
    ensures only { OnlyMemory result }
{
    if letter == "s" {
        term.append_type_and_str(value)?;
        return Ok(true);
    }
    if letter == "i" {
        return append_signed(term, value);
    }
    if letter == "u" {
        return append_unsigned(term, value);
    }
    if letter == "o" {
        return append_boolean(term, value);
    }
    if letter == "d" {
        return append_date(term, value);
    }
    Ok(false)
}

// Appends a signed number, and returns whether the text spells one.
fn append_signed(term: &mut Term, value: &str) -> Result<bool, Fault>
    ensures ok { IfOk result (λ found. AppendsScalar (option_map signed (i64_in value.now)) term.old term.new found) }
    ensures only { OnlyMemory result }
{
    let Some(number) = i64_in(value) else {
        return Ok(false);
    };
    term.append_type_and_fast_value(number)?;
    Ok(true)
}

// Appends a date, and returns whether the text spells one.
fn append_date(term: &mut Term, value: &str) -> Result<bool, Fault>
    ensures ok { IfOk result (λ found. AppendsScalar (option_map date (date_in value.now)) term.old term.new found) }
    ensures only { OnlyMemory result }
{
    let Some(nanoseconds) = date_of(value) else {
        return Ok(false);
    };
    term.append_type_and_fast_value(DateTime(nanoseconds))?;
    Ok(true)
}

// Appends an unsigned number, and returns whether the text spells one.
fn append_unsigned(term: &mut Term, value: &str) -> Result<bool, Fault>
    ensures ok { IfOk result (λ found. AppendsScalar (option_map unsigned (u64_in value.now)) term.old term.new found) }
    ensures only { OnlyMemory result }
{
    let Some(number) = u64_in(value) else {
        return Ok(false);
    };
    term.append_type_and_fast_value(number)?;
    Ok(true)
}

// Appends a boolean, and returns whether the text spells one.
fn append_boolean(term: &mut Term, value: &str) -> Result<bool, Fault>
    ensures ok { IfOk result (λ found. AppendsScalar (option_map boolean (bool_in value.now)) term.old term.new found) }
    ensures only { OnlyMemory result }
{
    let Some(value) = bool_in(value) else {
        return Ok(false);
    };
    term.append_type_and_fast_value(value)?;
    Ok(true)
}
