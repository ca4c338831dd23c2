ghost use Rattle.std.specs.Prelude.{◌≡◌, ◌-◌, ◌^◌, ◌↔◌, [], length, IsErrOf};
ghost use Rattle.ii_io.specs.CountingWriter.{Writes, IsFull};
ghost use Rattle.ii_io.specs.WriteCalls.{Rises};

use super::faults::{Fault, LimitName};
use super::write_calls::WriteCalls;
use std::marker::Model;

/// Counts the bytes that are written to a writer, and its failed calls.
#[derive(Drop)]
pub struct CountedCalls<C: WriteCalls> {
    underlying: C,
    written_bytes: u64,
    failed_calls: u64,
}

impl<C: WriteCalls> Model for CountedCalls<C> {
    ghost use Rattle.ii_io.specs.WriteCalls.{CountedCallsState};

    ghost Value = { CountedCallsState };

    ghost view = { λ a. record {
      counts = record {
        contents = C.contents a.underlying;
        written_bytes = a.written_bytes;
        failed_calls = a.failed_calls;
      };
      failures = C.failures a.underlying;
    } };
}

impl<C: WriteCalls> CountedCalls<C> {
    /// Wraps a writer, with both counts 0.
    pub fn wrap(underlying: C) -> CountedCalls<C>
        ensures counts { result.counts ≡ record { contents = C.contents underlying; written_bytes = 0; failed_calls = 0 } }
        ensures failures { result.failures ≡ C.failures underlying }
    {
        CountedCalls {
            underlying,
            written_bytes: 0,
            failed_calls: 0,
        }
    }

    /// Returns how many bytes were written through this writer.
    pub fn written_bytes(&self) -> u64
        ensures { result ≡ self.now.counts.written_bytes }
    {
        self.written_bytes
    }

    /// Returns how many calls failed.
    pub fn failed_calls(&self) -> u64
        ensures { result ≡ self.now.counts.failed_calls }
    {
        self.failed_calls
    }

    /// Returns the writer without flushing it.
    pub fn finish(self) -> C
        ensures contents { C.contents result ≡ self.counts.contents }
        ensures failures { C.failures result ≡ self.failures }
    {
        let CountedCalls {
            underlying,
            written_bytes: _,
            failed_calls: _,
        } = self;
        underlying
    }

    /// Writes all of `buf`. If it is known how many calls of the writer failed, these are counted, and no
    /// others.
    ///
    /// # Errors
    ///
    /// `Write` if a call of the writer fails; a prefix of `buf` may have been written. `Limit(Offset)` if
    /// a count would exceed `u64::MAX`; nothing is written.
    pub fn write_all(&mut self, buf: &[u8]) -> Result<(), Fault>
        ensures written { Writes self.old.counts self.new.counts buf.now result }
        ensures limit { IsErrOf result (Fault.Limit LimitName.Offset) ↔ IsFull self.old.counts (length buf.now) }
        ensures full { IsFull self.old.counts (length buf.now) → self.new ≡ self.old }
        ensures failures { Rises self.old.failures self.new.failures (self.new.counts.failed_calls - self.old.counts.failed_calls) }
    {
        if self.failed_calls == u64::MAX || u64::MAX - self.written_bytes < buf.len() as u64 {
            return Err(Fault::Limit(LimitName::Offset));
        }
        let mut done = 0;
        while done < buf.len() {
            let count = self.underlying.write_some(&buf[done..]);
            if count == 0 {
                self.failed_calls += 1;
                return Err(Fault::Write);
            }
            self.written_bytes += count as u64;
            done += count;
        }
        Ok(())
    }

    /// Flushes the writer. Its failed calls are counted as `write_all` counts them.
    ///
    /// # Errors
    ///
    /// `Write` if the call of the writer fails; `Limit(Offset)`, without a flush, if `failed_calls` is
    /// `u64::MAX`.
    pub fn flush(&mut self) -> Result<(), Fault>
        ensures written { Writes self.old.counts self.new.counts [] result }
        ensures limit { IsErrOf result (Fault.Limit LimitName.Offset) ↔ (self.old.counts.failed_calls ≡ 2 ^ 64 - 1) }
        ensures full { self.old.counts.failed_calls ≡ 2 ^ 64 - 1 → self.new ≡ self.old }
        ensures failures { Rises self.old.failures self.new.failures (self.new.counts.failed_calls - self.old.counts.failed_calls) }
    {
        if self.failed_calls == u64::MAX {
            return Err(Fault::Limit(LimitName::Offset));
        }
        if self.underlying.try_flush() {
            return Ok(());
        }
        self.failed_calls += 1;
        Err(Fault::Write)
    }
}
