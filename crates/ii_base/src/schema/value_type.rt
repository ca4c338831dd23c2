ghost use Rattle.std.specs.Prelude.{◌≡◌, ◌≢◌, MatchOption};
ghost use Rattle.ii_base.specs.declared.schema.value_type.ValueType.{ValueType};
ghost use Rattle.ii_base.specs.ValueTypes.{code_of};

/// The type of a value, written in a JSON key as one letter.
#[derive(Clone, Copy, Debug, PartialEq, Eq)]
pub enum ValueType {
    /// Text, `s`.
    Str,
    /// An unsigned number of 64 bits, `u`.
    U64,
    /// A signed number of 64 bits, `i`.
    I64,
    /// A boolean, `o`.
    Bool,
    /// A date in nanoseconds, `d`.
    Date,
    /// Bytes, `b`.
    Bytes,
    /// A JSON value, `j`.
    Json,
    /// An IP address, `p`.
    IpAddr,
}

impl ValueType {
    /// Returns the letter of the type.
    pub fn to_code(self) -> u8
        ensures { result ≡ code_of self }
    {
        match self {
            ValueType::Str => b's',
            ValueType::U64 => b'u',
            ValueType::I64 => b'i',
            ValueType::Bool => b'o',
            ValueType::Date => b'd',
            ValueType::Bytes => b'b',
            ValueType::Json => b'j',
            ValueType::IpAddr => b'p',
        }
    }

    /// Returns the type with this letter, if there is one.
    pub fn from_code(code: u8) -> Option<ValueType>
        ensures { MatchOption result ((t : ValueType) → code_of t ≢ code) (λ t. code_of t ≡ code) }
    {
        match code {
            b's' => Some(ValueType::Str),
            b'u' => Some(ValueType::U64),
            b'i' => Some(ValueType::I64),
            b'o' => Some(ValueType::Bool),
            b'd' => Some(ValueType::Date),
            b'b' => Some(ValueType::Bytes),
            b'j' => Some(ValueType::Json),
            b'p' => Some(ValueType::IpAddr),
            _ => None,
        }
    }
}
