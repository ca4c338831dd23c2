//! The option `--batch` of `search`: each line of standard input is a query, and is answered by a line of JSON.
use crate::host_lines::HostLines;
use crate::query_texts::{byte_of, reason_of, tell_left_out};
use crate::searching::{Wanted, write_wanted};
use crate::timing::Timing;
use clap::ArgMatches;
use ii_base::Field;
use nequllpa_opening::{AnswerFault, OpenedIndex, quoted};
use nequllpa_writing::{NO, REFUSED, refuse_file};
use std::io::{self, BufRead, BufReader, BufWriter, Write};
use std::process::ExitCode;

// Why a query isn't answered.
#[derive(Drop)]
struct NoAnswer {
    reason: String,
    // the byte of the query that it is about
    byte: Option<usize>,
    status: u8,
}

/// Answers each line of standard input as a query by a line of JSON: an object with `query`, and `docs`, an array with
/// an object for each document, or `count`, or `error`, which may have a `byte` of the query. Each answer is printed
/// before the next line is read. Returns the highest status of an answer, 0 also where no document matches.
pub fn answer_batch(
    rt: &HostRuntime,
    opened: &OpenedIndex,
    given: &ArgMatches<'_>,
    fields: &[Field],
    wanted: &Wanted<'_, '_>,
) -> anyhow::Result<ExitCode> {
    let mut reader = BufReader::new(rt.alloc(), rt.reader())?;
    let mut line = Vec::new(rt.alloc());
    let mut status = 0u8;
    for number in 1..u64::MAX {
        line.clear();
        let len = match reader.read_until(b'\n', &mut line) {
            Ok(len) => len,
            Err(e) => return Ok(ExitCode::from(refuse_file(rt, "-", e.kind())?)),
        };
        if len == 0 {
            break;
        }
        let timing = Timing::begin(rt, given)?;
        let one = answer_line(rt, opened, fields, wanted, without_end(line.as_slice()))?;
        status = status.max(one);
        let what = format!(in rt.alloc(); "query {number}")?;
        timing.tell(rt, what.as_str())?;
    }
    Ok(ExitCode::from(status))
}

// Returns a line without its end.
fn without_end(line: &[u8]) -> &[u8] {
    let line = line.strip_suffix(b"\n").unwrap_or(line);
    line.strip_suffix(b"\r").unwrap_or(line)
}

// Answers a line. Returns the status of the answer.
fn answer_line(
    rt: &HostRuntime,
    opened: &OpenedIndex,
    fields: &[Field],
    wanted: &Wanted<'_, '_>,
    line: &[u8],
) -> anyhow::Result<u8> {
    let Ok(text) = std::str::from_utf8(line) else {
        let none = NoAnswer {
            reason: String::from_str(rt.alloc(), "not UTF-8")?,
            byte: None,
            status: REFUSED,
        };
        return print_error(rt, "null", none);
    };
    let query = quoted(rt.alloc(), text)?;
    match rows_of(rt, opened, fields, wanted, text)? {
        Ok(rows) => print_rows(rt, query.as_str(), wanted, rows),
        Err(none) => print_error(rt, query.as_str(), none),
    }
}

// Returns what is wanted of the documents that match a query, as JSON, with a character at its end.
fn rows_of(
    rt: &HostRuntime,
    opened: &OpenedIndex,
    fields: &[Field],
    wanted: &Wanted<'_, '_>,
    text: &str,
) -> anyhow::Result<Result<Vec<u8>, NoAnswer>> {
    let mut query = match opened.parse_query(rt.alloc(), fields, text) {
        Ok(query) => query,
        Err(error) => {
            return Ok(Err(NoAnswer {
                reason: reason_of(rt.alloc(), opened, text, error)?,
                byte: byte_of(error),
                status: REFUSED,
            }));
        }
    };
    tell_left_out(rt, opened, fields, text)?;
    opened.bound(&mut query);
    let files = HostLines::new(rt);
    let mut rows = Vec::new(rt.alloc());
    match write_wanted(rt.alloc(), &mut rows, opened, &query, wanted, &files) {
        Ok(_) => Ok(Ok(rows)),
        Err(fault) => Ok(Err(NoAnswer {
            reason: format!(in rt.alloc(); "{fault}")?,
            byte: None,
            status: status_of(fault),
        })),
    }
}

// Returns the status of an answer that there isn't.
fn status_of(fault: AnswerFault) -> u8 {
    match fault {
        AnswerFault::Output(_) => REFUSED,
        fault => {
            if fault.is_memory() {
                return REFUSED;
            }
            NO
        }
    }
}

// Prints the answer to a query, given as JSON. Returns its status.
fn print_rows(
    rt: &HostRuntime,
    query: &str,
    wanted: &Wanted<'_, '_>,
    rows: Vec<u8>,
) -> anyhow::Result<u8> {
    let mut rows = rows;
    // the comma or line feed at its end
    rows.pop();
    let mut out = BufWriter::new(rt.alloc(), io::writer(rt))?;
    write!(out, "{{\"query\":{query},{}", before_rows(wanted))?;
    out.write_all(rows.as_slice())?;
    writeln!(out, "{}}}", after_rows(wanted))?;
    out.flush()?;
    Ok(0)
}

// Returns what is printed before the documents of an answer, or their number.
fn before_rows(wanted: &Wanted<'_, '_>) -> &'static str {
    match wanted {
        Wanted::Count(_) => "\"count\":",
        Wanted::Best(_) | Wanted::Found(_) => "\"docs\":[",
    }
}

// Returns what is printed after them.
fn after_rows(wanted: &Wanted<'_, '_>) -> &'static str {
    match wanted {
        Wanted::Count(_) => "",
        Wanted::Best(_) | Wanted::Found(_) => "]",
    }
}

// Prints why a query, given as JSON, isn't answered. Returns the status.
fn print_error(rt: &HostRuntime, query: &str, none: NoAnswer) -> anyhow::Result<u8> {
    let NoAnswer {
        reason,
        byte,
        status,
    } = none;
    let reason = quoted(rt.alloc(), reason.as_str())?;
    let mut out = BufWriter::new(rt.alloc(), io::writer(rt))?;
    write!(out, "{{\"query\":{query},\"error\":{reason}")?;
    if let Some(byte) = byte {
        write!(out, ",\"byte\":{byte}")?;
    }
    writeln!(out, "}}")?;
    out.flush()?;
    Ok(status)
}
