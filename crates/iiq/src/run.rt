ghost use Rattle.std.specs.Prelude.{◌≡◌, ◌++◌, false, IfOk, OnOk, IfErr, OnErr, IsErrOf, IfSome, codes};
ghost use Rattle.std.specs.Io.KnownBytes.{Appends, Keeps};
ghost use Rattle.iiq.specs.Output.{PrintsAll, PrintsBeginning, PutsBeginning, has_no_error as has_no_error_in};

use crate::commands::CommandSet;
use crate::parts::Parts;
use crate::replies::reply;
use crate::session::Session;
use std::alloc::Global;
use std::io::{Read, Write};

/// Why a run ended early.
#[derive(Clone, Copy, Debug, PartialEq, Eq)]
pub enum RunFault {
    /// The reader failed.
    Input,
    /// The writer failed.
    Output,
}

/// Replies to each line of the reader, in order, and flushes the writer at the end. Returns whether
/// no line that begins with `error` was written. If an allocation fails for a line, its reply is
/// `error 1`, which is the last. `Input` is returned before anything is written.
pub fn run<R: Read, W: Write>(
    alloc: Global,
    commands: CommandSet,
    reader: &mut R,
    writer: &mut W,
) -> Result<bool, RunFault>
    ensures ok { IfOk result (λ fine. IfSome (R.remaining reader.old)
        (λ input. PrintsAll commands (W.contents writer.old) (W.contents writer.new) input fine)) }
    ensures err { OnErr result (IfSome (R.remaining reader.old)
        (λ input. PrintsBeginning commands (W.contents writer.old) (W.contents writer.new) input)) }
    ensures input { IsErrOf result RunFault.Input → Keeps (W.contents writer.old) (W.contents writer.new) }
{
    let mut text = Vec::new(alloc);
    match read_all(reader, &mut text) {
        Ok(()) => answer_lines(alloc, commands, &text, writer),
        Err(ReadFault::Input) => Err(RunFault::Input),
        Err(ReadFault::Memory) => end_run(writer),
    }
}

// Why a reader wasn't read to its end.
#[derive(Clone, Copy)]
enum ReadFault {
    Input,
    Memory,
}

// Appends all bytes of the reader to the text.
fn read_all<R: Read>(reader: &mut R, text: &mut Vec<u8>) -> Result<(), ReadFault>
    ensures { OnOk result (IfSome (R.remaining reader.old) (λ input. text.new.items ≡ text.old.items ++ input)) }
{
    let mut chunk = [0; 4096];
    for _ in 0..u64::MAX {
        let Ok(count) = reader.read(&mut chunk) else {
            return Err(ReadFault::Input);
        };
        if count == 0 {
            return Ok(());
        }
        if text.extend_from_slice(&chunk[..count]).is_err() {
            return Err(ReadFault::Memory);
        }
    }
    Err(ReadFault::Memory)
}

// Replies to the lines of a text.
fn answer_lines<W: Write>(
    alloc: Global,
    commands: CommandSet,
    text: &[u8],
    writer: &mut W,
) -> Result<bool, RunFault>
    ensures ok { IfOk result (λ fine. PrintsAll commands (W.contents writer.old) (W.contents writer.new) text.now fine) }
    ensures err { OnErr result (PrintsBeginning commands (W.contents writer.old) (W.contents writer.new) text.now) }
    ensures only { IfErr result (λ e. e ≡ RunFault.Output) }
{
    let mut lines = Parts::of(text, b'\n');
    let mut session = Session::new(alloc);
    let mut fine = true;
    while let Some(line) = lines.next() {
        let Ok(answer) = reply(alloc, commands, &mut session, line) else {
            return end_run(writer);
        };
        fine &= has_no_error(answer.as_bytes());
        put(writer, answer.as_bytes())?;
    }
    finish(writer, fine)
}

// Writes the last line of a run after an allocation failure.
fn end_run<W: Write>(writer: &mut W) -> Result<bool, RunFault>
    ensures ok { IfOk result (λ fine. (fine ≡ false) × Appends (W.contents writer.old) (W.contents writer.new) (codes "error 1\n")) }
    ensures err { OnErr result (PutsBeginning (W.contents writer.old) (W.contents writer.new) (codes "error 1\n")) }
    ensures only { IfErr result (λ e. e ≡ RunFault.Output) }
{
    put(writer, b"error 1\n")?;
    finish(writer, false)
}

// Flushes the writer, and returns `fine`.
fn finish<W: Write>(writer: &mut W, fine: bool) -> Result<bool, RunFault>
    ensures same { IfOk result (λ answer. answer ≡ fine) }
    ensures keeps { Keeps (W.contents writer.old) (W.contents writer.new) }
    ensures only { IfErr result (λ e. e ≡ RunFault.Output) }
{
    match writer.flush() {
        Ok(()) => Ok(fine),
        Err(_) => Err(RunFault::Output),
    }
}

// Writes all bytes, or a prefix of them if the writer fails.
fn put<W: Write>(writer: &mut W, bytes: &[u8]) -> Result<(), RunFault>
    ensures ok { OnOk result (Appends (W.contents writer.old) (W.contents writer.new) bytes.now) }
    ensures err { OnErr result (PutsBeginning (W.contents writer.old) (W.contents writer.new) bytes.now) }
    ensures only { IfErr result (λ e. e ≡ RunFault.Output) }
{
    let mut done = 0;
    while done < bytes.len() {
        let Ok(count) = writer.write(&bytes[done..]) else {
            return Err(RunFault::Output);
        };
        if count == 0 {
            return Err(RunFault::Output);
        }
        done += count;
    }
    Ok(())
}

// Returns whether no line of the text begins with `error`.
fn has_no_error(text: &[u8]) -> bool
    ensures { result ≡ has_no_error_in text.now }
{
    let mut lines = Parts::of(text, b'\n');
    while let Some(line) = lines.next() {
        if line.starts_with(b"error") {
            return false;
        }
    }
    true
}
