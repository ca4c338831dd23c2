//! Dates as texts.
ghost use Rattle.std.specs.Prelude.{◌≡◌, ◌++◌, OnOk, string_bytes};
ghost use Rattle.ii_dates.specs.Dates.{date_in, date_text};

use jiff_core::Timestamp;
use jiff_fmt::temporal::{DateTimePrinter, parse_timestamp};
use std::alloc::AllocError;

/// Returns the date that a text spells, in nanoseconds since 1970-01-01T00:00:00Z: a date and a time by RFC 3339
/// with `Z` or an offset, as `1990-01-01T00:00:00Z` or `1990-01-01T01:00:00.25+01:00`. Returns `None` if the text
/// spells no instant, or one before 1677-09-21T00:12:43.145224192Z or after 2262-04-11T23:47:16.854775807Z.
///
/// A second 60 is the second before it. Besides RFC 3339 these spellings are read: a space or `t` for the `T`, `z`
/// for `Z`; a comma before the fraction, of which nine digits count; a date or a time without separators; a time
/// without seconds, or without minutes; an offset without minutes, or with seconds; and the suffixes of RFC 9557,
/// as `[Europe/Berlin]`, which change nothing unless they are marked as critical with a key, which is refused.
pub fn date_of(text: &str) -> Option<i64>
    ensures { result ≡ date_in text.now }
{
    let Ok(timestamp) = parse_timestamp(text.as_bytes()) else {
        return None;
    };
    let nanoseconds = timestamp.nanosecond;
    if nanoseconds < i64::MIN as i128 {
        return None;
    }
    if nanoseconds > i64::MAX as i128 {
        return None;
    }
    Some(nanoseconds as i64)
}

/// Appends the text of a date in UTC by RFC 3339, as `1990-01-01T00:00:00Z`; a fraction of a second ends at its last
/// digit that isn't 0. `nanoseconds` counts from 1970-01-01T00:00:00Z.
pub fn push_date(text: &mut String, nanoseconds: i64) -> Result<(), AllocError>
    ensures { OnOk result (string_bytes text.new ≡ string_bytes text.old ++ date_text nanoseconds) }
{
    let timestamp = Timestamp {
        nanosecond: nanoseconds as i128,
    };
    let date = DateTimePrinter::new().timestamp_text(timestamp);
    text.push_str(date.as_str())
}
