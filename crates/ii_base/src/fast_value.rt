ghost use Rattle.std.specs.Prelude.{◌≡◌};
ghost use Rattle.ii_base.specs.declared.schema.value_type.ValueType.{ValueType};
ghost use Rattle.ii_base.specs.declared.schema.value_type.ValueType.TheVariants as types;
ghost use Rattle.ii_base.specs.Values.{flipped, number_of_bool};

use crate::datetime::DateTime;
use crate::schema::value_type::ValueType;

/// A value that is encoded as a 64-bit number, in an encoding that preserves the order.
pub trait FastValue: Copy {
    ghost use Rattle.std.specs.Prelude.{ℕ};

    ghost number: { Self → ℕ };

    ghost type_of_values: { ValueType };

    /// Returns the number that encodes the value.
    fn to_u64(self) -> u64
        ensures { result ≡ number self };

    /// Returns the type of such values.
    fn to_type() -> ValueType
        ensures { result ≡ type_of_values };
}

/// An unsigned number is its own encoding.
impl FastValue for u64 {
    ghost number = { λ n. n };

    ghost type_of_values = { types.U64 };

    fn to_u64(self) -> u64 {
        self
    }

    fn to_type() -> ValueType {
        ValueType::U64
    }
}

/// A signed number is encoded with its top bit flipped: 2^63 is added.
impl FastValue for i64 {
    ghost number = { flipped };

    ghost type_of_values = { types.I64 };

    fn to_u64(self) -> u64 {
        self.abs_diff(i64::MIN)
    }

    fn to_type() -> ValueType {
        ValueType::I64
    }
}

/// `false` is 0, and `true` is 1.
impl FastValue for bool {
    ghost number = { number_of_bool };

    ghost type_of_values = { types.Bool };

    fn to_u64(self) -> u64 {
        u64::from(self)
    }

    fn to_type() -> ValueType {
        ValueType::Bool
    }
}

/// A date is encoded as its nanoseconds, a signed number.
impl FastValue for DateTime {
    ghost number = { λ date. flipped date.0 };

    ghost type_of_values = { types.Date };

    fn to_u64(self) -> u64 {
        self.0.to_u64()
    }

    fn to_type() -> ValueType {
        ValueType::Date
    }
}
