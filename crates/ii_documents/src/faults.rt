ghost use Rattle.std.specs.Prelude.{◌≡◌, ◌≢◌, Err, List, Result};
ghost use Rattle.serde_json.specs.Errors.{IsMemory};
ghost use Rattle.ii_definitions.specs.Tokens.{Call};
ghost use Rattle.ii_documents.specs.JsonLines.{Refusal, TellsOfLine, not_json, told_of_line, wrong_value};
ghost use Rattle.ii_documents.specs.declared.faults.LineFault.TheVariants as faults;

use hex::FromHexError;
use ii_base::Field;
use serde_json::Error as JsonError;
use std::alloc::{AllocError, AllocFailed};
use std::fmt;
use thiserror::Error;

/// Why a value is invalid for its field.
#[derive(Clone, Copy, Debug, PartialEq, Eq)]
pub enum ValueFault {
    /// It has another type than the field.
    WrongType,
    /// The number is out of the range of the field's type.
    OutOfRange,
    /// The text isn't pairs of hexadecimal digits.
    NotHex,
    /// The text isn't an IP address.
    NotAnAddress,
    /// The text isn't a date by RFC 3339 between 1677-09-21 and 2262-04-11.
    NotADate,
    /// The JSON value contains a floating-point number.
    Float,
}

impl ValueFault {
    // Returns the message of the error.
    fn name(self) -> &'static str {
        match self {
            ValueFault::WrongType => "not of the type of the field",
            ValueFault::OutOfRange => "a number out of range",
            ValueFault::NotHex => "not pairs of hexadecimal digits",
            ValueFault::NotAnAddress => "not an IP address",
            ValueFault::NotADate => "not a date like 1990-01-01T00:00:00Z, between 1677 and 2262",
            ValueFault::Float => "a floating-point number, which is not indexed",
        }
    }
}

impl fmt::Display for ValueFault {
    fn fmt<W: fmt::Write>(&self, f: &mut fmt::Formatter<W>) -> fmt::Result {
        f.write_str(self.name())
    }
}

/// Why a line is not a document.
#[derive(Debug, Drop, Error)]
pub enum LineFault {
    /// An allocation failed.
    #[error("out of memory")]
    OutOfMemory,
    /// There are 2^31 - 1 documents already.
    #[error("too many documents")]
    TooManyDocuments,
    /// The line has 2^31 bytes or more, and lines are stored, or what is stored of it has.
    #[error("too long to be stored: 2^31 bytes or more")]
    TooLong,
    /// The line isn't JSON.
    #[error("not JSON: {0}")]
    NotJson(JsonError),
    /// The JSON value isn't an object.
    #[error("not an object")]
    NotAnObject,
    /// No field has this key as its name.
    #[error("unknown key {0}")]
    UnknownKey(String),
    /// A value is invalid for its field.
    #[error("{1}")]
    WrongValue(Field, ValueFault),
}

impl LineFault {
    // Converts a JSON error: the line isn't JSON, or an allocation failed.
    pub(crate) fn of_json(error: JsonError) -> LineFault
        ensures { (wanted : Result (List Call) Refusal) → (¬ IsMemory error → wanted ≡ Err not_json) → TellsOfLine (told_of_line result) wanted }
    {
        if error.is_memory() {
            return LineFault::OutOfMemory;
        }
        LineFault::NotJson(error)
    }

    // Converts a hexadecimal error: the bytes of the field aren't hexadecimal digits, or an allocation
    // failed.
    pub(crate) fn of_hex(field: Field, error: FromHexError) -> LineFault
        ensures { (wanted : Result Call Refusal) → (error ≢ FromHexError.OutOfMemory → wanted ≡ Err (wrong_value field ValueFault.NotHex)) → TellsOfLine (told_of_line result) wanted }
    {
        match error {
            FromHexError::OutOfMemory => LineFault::OutOfMemory,
            _ => LineFault::WrongValue(field, ValueFault::NotHex),
        }
    }
}

impl From<AllocError> for LineFault {
    ghost from_gives = { λ _ e. e ≡ faults.OutOfMemory };

    fn from(_: AllocError) -> Self {
        LineFault::OutOfMemory
    }
}

impl<T: Drop> From<AllocFailed<T>> for LineFault {
    ghost from_gives = { λ _ e. e ≡ faults.OutOfMemory };

    fn from(_: AllocFailed<T>) -> Self {
        LineFault::OutOfMemory
    }
}
