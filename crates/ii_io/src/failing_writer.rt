ghost use Rattle.std.specs.Prelude.{◌≡◌, ◌+◌, [], length, IfOk};
ghost use Rattle.std.specs.Io.{WritesAtMost};
ghost use Rattle.std.specs.Io.KnownBytes.{Keeps, WriteAppends};
ghost use Rattle.ii_io.specs.WriteCalls.{failed_by_result};

use super::ghost_counter::GhostCounter;
use super::write_calls::WriteCalls;
use std::alloc::Global;
use std::io::{self, Write};
use std::marker::Model;

/// A writer to memory that fails at call `failing_call`, a write or a flush, counted from 1, or never for
/// 0. The error is `Interrupted`, so that a retry shows. A call also fails if an allocation does. Its model
/// is the bytes it holds, and how many calls failed.
#[derive(Drop)]
pub struct FailingWriter {
    bytes: Vec<u8>,
    calls: u64,
    failing_call: u64,
    failures: GhostCounter,
}

impl Model for FailingWriter {
    ghost use Rattle.ii_io.specs.WriteCalls.{FailingWriterState};

    ghost Value = { FailingWriterState };

    ghost view = { λ w. record { bytes = w.bytes.items; failures = w.failures.value } };
}

impl FailingWriter {
    /// Creates an empty writer.
    pub fn new(alloc: Global, failing_call: u64) -> FailingWriter
        ensures { result ≡ record { bytes = []; failures = 0 } }
    {
        FailingWriter {
            bytes: Vec::new(alloc),
            calls: 0,
            failing_call,
            failures: GhostCounter::new(),
        }
    }

    /// Returns the bytes that were written.
    pub fn bytes(&self) -> &[u8]
        ensures { result.now ≡ self.now.bytes }
    {
        self.bytes.as_slice()
    }

    // Counts a call, and returns whether it is number `failing_call`.
    fn is_failing(&mut self) -> bool
        ensures { self.new ≡ self.old }
    {
        self.calls = self.calls.saturating_add(1);
        self.calls == self.failing_call
    }

    // Counts a failed call.
    fn count_failure(&mut self)
        ensures { self.new ≡ record self.old { failures = self.old.failures + 1 } }
    {
        self.failures = self.failures.next();
    }
}

impl Write for FailingWriter {
    ghost use Rattle.std.specs.Prelude.{Some};

    ghost contents = { λ w. Some w.bytes };

    fn write(&mut self, buf: &[u8]) -> io::Result<usize>
        ensures bound { WritesAtMost result buf.now }
        ensures bytes { WriteAppends (Some self.old.bytes) (Some self.new.bytes) result buf.now }
        ensures complete { IfOk result (λ n. n ≡ length buf.now) }
        ensures failures { self.new.failures ≡ self.old.failures + failed_by_result result }
    {
        if self.is_failing() {
            self.count_failure();
            return Err(io::Error::from(io::ErrorKind::Interrupted));
        }
        match self.bytes.extend_from_slice(buf) {
            Ok(()) => Ok(buf.len()),
            Err(refused) => {
                self.count_failure();
                Err(io::Error::from(refused))
            }
        }
    }

    fn flush(&mut self) -> io::Result<()>
        ensures bytes { Keeps (Some self.old.bytes) (Some self.new.bytes) }
        ensures failures { self.new.failures ≡ self.old.failures + failed_by_result result }
    {
        if self.is_failing() {
            self.count_failure();
            return Err(io::Error::from(io::ErrorKind::Interrupted));
        }
        Ok(())
    }
}

impl WriteCalls for FailingWriter {
    ghost use Rattle.std.specs.Prelude.{Some};

    ghost contents = { λ w. Some w.bytes };

    ghost failures = { λ w. Some w.failures };

    fn write_some(&mut self, buf: &[u8]) -> usize {
        match self.write(buf) {
            Ok(count) => count,
            Err(_) => 0,
        }
    }

    fn try_flush(&mut self) -> bool {
        match self.flush() {
            Ok(()) => true,
            Err(_) => false,
        }
    }
}
