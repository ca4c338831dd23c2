ghost use Rattle.std.specs.Prelude.{◌≡◌, ◌^◌, ◌<◌, ◌≤◌, IfOk, IfSome};
ghost use Rattle.std.specs.Option.{option_map};
ghost use Rattle.iiq.specs.Words.{number_below, bytes_of_word, signed_number, truth_of_word};
ghost use Rattle.iiq.specs.Commands.{option_of_word};

use ii_base::IndexRecordOption;
use std::alloc::{AllocError, Global};

// The sign that `parse` accepts before digits, but a line doesn't.
const PLUS: u8 = b'+';

/// Parses decimal digits as a 64-bit number.
pub fn number(word: &[u8]) -> Option<u64>
    ensures { result ≡ number_below (2 ^ 64) word.now }
{
    if word.is_empty() {
        return None;
    }
    if word[0] == PLUS {
        return None;
    }
    let Ok(text) = std::str::from_utf8(word) else {
        return None;
    };
    text.parse().ok()
}

/// Parses decimal digits as a number below `limit`.
pub fn number_up_to(word: &[u8], limit: u64) -> Option<u32>
    requires { limit ≤ 2 ^ 32 }
    ensures value { result ≡ number_below limit word.now }
    ensures below { IfSome result (λ n. n < limit) }
{
    let Some(value) = number(word) else {
        return None;
    };
    if value < limit {
        Some(value as u32)
    } else {
        None
    }
}

/// Parses decimal digits as a signed 64-bit number, with or without a minus.
pub fn signed_number(word: &[u8]) -> Option<i64>
    ensures { result ≡ signed_number word.now }
{
    if word.is_empty() {
        return None;
    }
    if word[0] == PLUS {
        return None;
    }
    let Ok(text) = std::str::from_utf8(word) else {
        return None;
    };
    text.parse().ok()
}

/// Parses a boolean.
pub fn truth_of(word: &[u8]) -> Option<bool>
    ensures { result ≡ truth_of_word word.now }
{
    if word == b"true".as_slice() {
        Some(true)
    } else if word == b"false".as_slice() {
        Some(false)
    } else {
        None
    }
}

/// Returns the option of a letter.
pub fn option_of(word: &[u8]) -> Option<IndexRecordOption>
    ensures { result ≡ option_of_word word.now }
{
    if word == b"b".as_slice() {
        Some(IndexRecordOption::Basic)
    } else if word == b"f".as_slice() {
        Some(IndexRecordOption::WithFreqs)
    } else if word == b"p".as_slice() {
        Some(IndexRecordOption::WithFreqsAndPositions)
    } else {
        None
    }
}

/// Parses hexadecimal digits as bytes. A dash means no bytes.
pub fn bytes_of(alloc: Global, word: &[u8]) -> Result<Option<Vec<u8>>, AllocError>
    ensures { IfOk result (λ bytes. option_map (λ v. v.items) bytes ≡ bytes_of_word word.now) }
{
    if word == b"-".as_slice() {
        return Ok(Some(Vec::new(alloc)));
    }
    if word.is_empty() {
        return Ok(None);
    }
    match hex::decode(alloc, word) {
        Ok(bytes) => Ok(Some(bytes)),
        Err(hex::FromHexError::OutOfMemory) => Err(AllocError),
        Err(_) => Ok(None),
    }
}
