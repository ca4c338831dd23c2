//! Where lines are: in a file, at the number of a line, from a byte on.
ghost use Rattle.std.specs.Prelude.{◌≡◌, ◌<◌, ◌^◌, ◌++◌, ◌∷◌, ℕ, List, IfOk, IfSome, IsSomeAnd, OnOk, decimal, string_bytes};
ghost use Rattle.ii_io.specs.Faults.{OnlyMemory};
ghost use Rattle.ii_documents.specs.LinePlaces.{HasLastMember, HasMember, IsPlaceOf, Spells, comma_after, last_member, place_text};

use crate::line_fields::quoted;
use ii_base::Fault;
use std::alloc::{AllocError, Global};

/// The place of a line.
#[derive(Clone, Copy, Debug, PartialEq, Eq)]
pub struct LinePlace<'a> {
    /// The name of the file.
    pub file: &'a str,
    /// The number of the line, from 1.
    pub line: u64,
    /// The byte of the file at which the line begins, from 0.
    pub byte: u64,
}

impl<'a> LinePlace<'a> {
    /// Reads a place, written as `FILE:LINE:BYTE`. Returns `None` if the text is no place. The text of each place is read
    /// as this place.
    pub fn read(text: &'a str) -> Option<LinePlace<'a>>
        ensures back { (file : List ℕ) (line byte : ℕ) → text.now ≡ place_text file line byte → line < 2 ^ 64 → byte < 2 ^ 64 → IsSomeAnd result (λ p. (p.file.now ≡ file) × (p.line ≡ line) × (p.byte ≡ byte)) }
        ensures place { IfSome result (λ p. IsPlaceOf text.now p.file.now p.line p.byte) }
    {
        let Some((before, byte)) = last_number(text) else {
            return None;
        };
        let Some((file, line)) = last_number(before) else {
            return None;
        };
        Some(LinePlace { file, line, byte })
    }

    /// Returns the text `FILE:LINE:BYTE`. Fails only with `OutOfMemory`.
    pub fn to_text(&self, alloc: Global) -> Result<String, Fault>
        ensures text { IfOk result (λ text. string_bytes text ≡ place_text self.now.file.now self.now.line self.now.byte) }
        ensures only { OnlyMemory result }
    {
        Ok(format!(in alloc; "{}:{}:{}", self.file, self.line, self.byte)?)
    }

    /// Returns the object of a line with one more member, the last one: a name, and the text of the place. White space
    /// around the line is left out. A line that doesn't end as an object does is returned as it is. Fails only with
    /// `OutOfMemory`.
    pub fn put_in(&self, alloc: Global, line: &[u8], name: &str) -> Result<Vec<u8>, Fault>
        ensures object { IfOk result (λ object. HasMember name.now (place_text self.now.file.now self.now.line self.now.byte) line.now object.items) }
        ensures only { OnlyMemory result }
    {
        let whole = line.trim_ascii();
        if !whole.ends_with(b"}") {
            return Ok(Vec::from_slice(alloc, line)?);
        }
        let text = self.to_text(alloc)?;
        with_member(alloc, &whole[..whole.len() - 1], name, text.as_str())
    }
}

// Returns the number after the last colon of a text, and what is before that colon.
fn last_number(text: &str) -> Option<(&str, u64)>
    ensures back { (before : List ℕ) (n : ℕ) → text.now ≡ before ++ 58 ∷ decimal n → n < 2 ^ 64 → IsSomeAnd result (λ r. (r.0.now ≡ before) × (r.1 ≡ n)) }
    ensures place { IfSome result (λ r. (digits : List ℕ) × (text.now ≡ r.0.now ++ 58 ∷ digits) × Spells digits r.1) }
{
    match text.rsplit_once(':') {
        Some((before, digits)) => match digits.parse::<u64>() {
            Ok(number) => Some((before, number)),
            Err(_) => None,
        },
        None => None,
    }
}

// Returns the object of members with one member more, the last one: a name and a text.
fn with_member(alloc: Global, members: &[u8], name: &str, text: &str) -> Result<Vec<u8>, Fault>
    ensures object { IfOk result (λ object. HasLastMember name.now text.now members.now object.items) }
    ensures only { OnlyMemory result }
{
    let mut object = Vec::from_slice(alloc, members)?;
    push_comma(&mut object, members.trim_ascii_end())?;
    push_last_member(alloc, &mut object, name, text)?;
    Ok(object)
}

// Adds the comma after members without white space at their end.
fn push_comma(object: &mut Vec<u8>, members: &[u8]) -> Result<(), AllocError>
    ensures { OnOk result (object.new.items ≡ object.old.items ++ comma_after members.now) }
{
    if members.ends_with(b"{") {
        return Ok(());
    }
    Ok(object.push(b',')?)
}

// Adds the last member of an object, and its end.
fn push_last_member(
    alloc: Global,
    object: &mut Vec<u8>,
    name: &str,
    text: &str,
) -> Result<(), Fault>
    ensures added { OnOk result (object.new.items ≡ object.old.items ++ last_member name.now text.now) }
    ensures only { OnlyMemory result }
{
    let name = quoted(alloc, name)?;
    let text = quoted(alloc, text)?;
    object.extend_from_slice(name.as_bytes())?;
    object.push(b':')?;
    object.extend_from_slice(text.as_bytes())?;
    Ok(object.push(b'}')?)
}
