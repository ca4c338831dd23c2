ghost use Rattle.std.specs.Prelude.{ℕ, ◌<◌, ◌≤◌, List, Option, length, take};
ghost use Rattle.std.specs.Io.KnownBytes.{Appends, Keeps};
ghost use Rattle.ii_io.specs.WriteCalls.{Rises, failed_by_answer, failed_by_count};

use std::io::Write;

/// A writer whose calls either do their work or fail, without a reason.
pub trait WriteCalls {
    // The bytes that the writer holds, where they are known.
    ghost contents: { Self → Option (List ℕ) };

    // How many calls failed, where that is known.
    ghost failures: { Self → Option ℕ };

    /// Writes the first bytes of `buf`, which isn't empty, and returns how many; or 0 if the call failed.
    fn write_some(&mut self, buf: &[u8]) -> usize
        requires some { 0 < length buf.now }
        ensures within { result ≤ length buf.now }
        ensures bytes { Appends (contents self.old) (contents self.new) (take result buf.now) }
        ensures failures { Rises (failures self.old) (failures self.new) (failed_by_count result) };

    /// Flushes, and returns whether the call succeeded.
    fn try_flush(&mut self) -> bool
        ensures bytes { Keeps (contents self.old) (contents self.new) }
        ensures failures { Rises (failures self.old) (failures self.new) (failed_by_answer result) };
}

/// A writer of which it isn't known how many calls failed.
#[derive(Drop)]
pub struct AnyWriter<W: Write> {
    pub writer: W,
}

impl<W: Write> WriteCalls for AnyWriter<W> {
    ghost use Rattle.std.specs.Prelude.{None};

    ghost contents = { λ w. W.contents w.writer };

    ghost failures = { λ _. None };

    fn write_some(&mut self, buf: &[u8]) -> usize {
        match self.writer.write(buf) {
            Ok(n) => n,
            Err(_) => 0,
        }
    }

    fn try_flush(&mut self) -> bool {
        match self.writer.flush() {
            Ok(()) => true,
            Err(_) => false,
        }
    }
}
