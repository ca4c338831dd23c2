ghost use Rattle.std.specs.Prelude.{◌≡◌};

use std::io::{self, Read};
use std::marker::Model;

/// A reader over memory that fails at call `failing_call`, counted from 1, or never for 0. The error is
/// `Interrupted`, so that a retry shows.
#[derive(Drop)]
pub struct FailingReader<'a> {
    rest: &'a [u8],
    calls: u64,
    failing_call: u64,
}

impl<'a> Model for FailingReader<'a> {
    ghost use Rattle.std.specs.Prelude.{ℕ, List};

    ghost Value = { List ℕ };

    ghost view = { λ r. r.rest.now };
}

impl<'a> FailingReader<'a> {
    /// Creates a reader of these bytes.
    pub fn new(bytes: &'a [u8], failing_call: u64) -> FailingReader<'a>
        ensures { result ≡ bytes.entry.now }
    {
        FailingReader {
            rest: bytes,
            calls: 0,
            failing_call,
        }
    }
}

impl Read for FailingReader<'_> {
    ghost use Rattle.std.specs.Prelude.{Some};

    ghost remaining = { λ r. Some r };

    fn read(&mut self, buf: &mut [u8]) -> io::Result<usize> {
        self.calls = self.calls.saturating_add(1);
        if self.calls == self.failing_call {
            return Err(io::Error::from(io::ErrorKind::Interrupted));
        }
        let count = buf.len().min(self.rest.len());
        let (front, rest) = self.rest.split_at(count);
        buf[..count].copy_from_slice(front);
        self.rest = rest;
        Ok(count)
    }
}
