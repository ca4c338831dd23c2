ghost use Rattle.std.specs.Prelude.{◌≡◌, ◌-◌, ◌^◌, ◌↔◌, [], length, IsErrOf};
ghost use Rattle.ii_io.specs.CountingWriter.{Writes, IsFull};

use super::counted_calls::CountedCalls;
use super::faults::{Fault, LimitName};
use super::write_calls::AnyWriter;
use std::io::Write;
use std::marker::Model;

/// A writer that counts the bytes written through it, and its failed calls.
///
/// A call fails if the underlying writer returns an error, or accepts none of a non-empty buffer.
/// `Interrupted` is an error too, and isn't retried.
#[derive(Drop)]
pub struct CountingWriter<W: Write> {
    calls: CountedCalls<AnyWriter<W>>,
}

impl<W: Write> Model for CountingWriter<W> {
    ghost use Rattle.ii_io.specs.CountingWriter.{CountingWriterState};

    ghost Value = { CountingWriterState };

    ghost view = { λ a. a.calls.counts };
}

impl<W: Write> CountingWriter<W> {
    /// Wraps a writer, with both counts 0.
    pub fn wrap(underlying: W) -> CountingWriter<W>
        ensures { result ≡ record { contents = W.contents underlying; written_bytes = 0; failed_calls = 0 } }
    {
        CountingWriter {
            calls: CountedCalls::wrap(AnyWriter { writer: underlying }),
        }
    }

    /// Returns how many bytes were written through this writer.
    pub fn written_bytes(&self) -> u64
        ensures { result ≡ self.now.written_bytes }
    {
        self.calls.written_bytes()
    }

    /// Returns how many calls failed.
    pub fn failed_calls(&self) -> u64
        ensures { result ≡ self.now.failed_calls }
    {
        self.calls.failed_calls()
    }

    /// Returns the underlying writer without flushing it.
    pub fn finish(self) -> W
        ensures { W.contents result ≡ self.contents }
    {
        let CountingWriter { calls } = self;
        let AnyWriter { writer } = calls.finish();
        writer
    }

    /// Writes all of `buf`.
    ///
    /// # Errors
    ///
    /// `Write` if the underlying writer fails; a prefix of `buf` may have been written. `Limit(Offset)` if
    /// a count would exceed `u64::MAX`; nothing is written.
    pub fn write_all(&mut self, buf: &[u8]) -> Result<(), Fault>
        ensures written { Writes self.old self.new buf.now result }
        ensures limit { IsErrOf result (Fault.Limit LimitName.Offset) ↔ IsFull self.old (length buf.now) }
        ensures full { IsFull self.old (length buf.now) → self.new ≡ self.old }
    {
        self.calls.write_all(buf)
    }

    /// Flushes the writer.
    ///
    /// # Errors
    ///
    /// `Write` if the underlying writer fails; `Limit(Offset)`, without a flush, if `failed_calls` is
    /// `u64::MAX`.
    pub fn flush(&mut self) -> Result<(), Fault>
        ensures written { Writes self.old self.new [] result }
        ensures limit { IsErrOf result (Fault.Limit LimitName.Offset) ↔ (self.old.failed_calls ≡ 2 ^ 64 - 1) }
        ensures full { self.old.failed_calls ≡ 2 ^ 64 - 1 → self.new ≡ self.old }
    {
        self.calls.flush()
    }
}
