//! The commands other than `index`, `search` and `check`, and what all commands share.
ghost use Rattle.std.specs.Prelude.{◌<◌, IfOk, length};

use clap::ArgMatches;
use ii_base::{Field, Term};
use ii_segment_store::{StoredSegment, StoredSegments, WantedFiles};
use ii_store::{Kind, SegmentComponent};
use nequllpa_inspecting::{
    TermChoice, term_of, write_fields, write_postings, write_stats, write_stats_json, write_terms,
};
use nequllpa_opening::{AnswerFault, OpenedIndex, RowFormat};
use nequllpa_writing::{NO, PROGRAM, REFUSED, loaded_at, refuse, refuse_path};
use std::io::{self, BufWriter, Write};
use std::process::ExitCode;

/// Returns how rows are printed.
pub fn format_given(given: &ArgMatches<'_>) -> RowFormat {
    if given.get_flag("json") {
        return RowFormat::JsonLine;
    }
    RowFormat::Words
}

/// Prints the terms of a field.
pub fn answer_terms(
    rt: &HostRuntime,
    path: &str,
    given: &ArgMatches<'_>,
) -> anyhow::Result<ExitCode> {
    let top = match number_given(rt, given, "top")? {
        Ok(top) => top,
        Err(status) => return Ok(ExitCode::from(status)),
    };
    let choice = TermChoice {
        prefix: given.get_str("prefix").unwrap_or(""),
        top: top.map(|top| top as usize),
        format: format_given(given),
    };
    match opened_at(rt, path, WantedFiles::WithoutCountsAndStore)? {
        Ok(opened) => print_terms(rt, path, &opened, given, choice),
        Err(status) => Ok(ExitCode::from(status)),
    }
}

// Prints the terms of a field of an open index.
fn print_terms(
    rt: &HostRuntime,
    path: &str,
    opened: &OpenedIndex,
    given: &ArgMatches<'_>,
    choice: TermChoice<'_>,
) -> anyhow::Result<ExitCode> {
    let field = match field_given(rt, opened, given)? {
        Ok(field) => field,
        Err(status) => return Ok(ExitCode::from(status)),
    };
    let mut out = BufWriter::new(rt.alloc(), io::writer(rt))?;
    let written = write_terms(rt.alloc(), &mut out, opened, field, choice);
    out.flush()?;
    ended(rt, path, written.map(|()| true))
}

/// Prints the documents of a term.
pub fn answer_postings(
    rt: &HostRuntime,
    path: &str,
    given: &ArgMatches<'_>,
) -> anyhow::Result<ExitCode> {
    match opened_at(rt, path, WantedFiles::WithoutCountsAndStore)? {
        Ok(opened) => print_postings(rt, path, &opened, given),
        Err(status) => Ok(ExitCode::from(status)),
    }
}

// Prints the documents of a term of an open index.
fn print_postings(
    rt: &HostRuntime,
    path: &str,
    opened: &OpenedIndex,
    given: &ArgMatches<'_>,
) -> anyhow::Result<ExitCode> {
    let field = match field_given(rt, opened, given)? {
        Ok(field) => field,
        Err(status) => return Ok(ExitCode::from(status)),
    };
    let Some(text) = given.get_str("TERM") else {
        return Ok(ExitCode::from(REFUSED));
    };
    match term_given(rt, opened, field, text)? {
        Ok(term) => print_list(rt, path, opened, &term, given),
        Err(status) => Ok(ExitCode::from(status)),
    }
}

// Prints the documents of a term.
fn print_list(
    rt: &HostRuntime,
    path: &str,
    opened: &OpenedIndex,
    term: &Term,
    given: &ArgMatches<'_>,
) -> anyhow::Result<ExitCode> {
    let positions = given.get_flag("positions");
    let format = format_given(given);
    let mut out = BufWriter::new(rt.alloc(), io::writer(rt))?;
    let written = write_postings(rt.alloc(), &mut out, opened, term, positions, format);
    out.flush()?;
    ended(rt, path, written)
}

/// Prints the fields.
pub fn answer_fields(
    rt: &HostRuntime,
    path: &str,
    given: &ArgMatches<'_>,
) -> anyhow::Result<ExitCode> {
    match opened_at(rt, path, WantedFiles::WithoutStore)? {
        Ok(opened) => print_fields(rt, path, &opened, format_given(given)),
        Err(status) => Ok(ExitCode::from(status)),
    }
}

// Prints the fields of an open index.
fn print_fields(
    rt: &HostRuntime,
    path: &str,
    opened: &OpenedIndex,
    format: RowFormat,
) -> anyhow::Result<ExitCode> {
    let mut out = BufWriter::new(rt.alloc(), io::writer(rt))?;
    let written = write_fields(rt.alloc(), &mut out, opened, format);
    out.flush()?;
    ended(rt, path, written.map(|()| true))
}

/// Prints the number of documents, the size of each file, and the space that the lists take.
pub fn answer_stats(
    rt: &HostRuntime,
    path: &str,
    given: &ArgMatches<'_>,
) -> anyhow::Result<ExitCode> {
    let stored = match loaded_at(rt, path, WantedFiles::All)? {
        Ok(stored) => stored,
        Err(status) => return Ok(ExitCode::from(status)),
    };
    let total = Total::of(&stored);
    if format_given(given).is_json() {
        return match opened_of(rt, path, stored)? {
            Ok(opened) => print_stats_json(rt, path, &opened, &total),
            Err(status) => Ok(ExitCode::from(status)),
        };
    }
    print_files(rt, &total)?;
    match opened_of(rt, path, stored)? {
        Ok(opened) => print_stats(rt, path, &opened),
        Err(status) => Ok(ExitCode::from(status)),
    }
}

// Prints the space that the lists of an open index take.
fn print_stats(rt: &HostRuntime, path: &str, opened: &OpenedIndex) -> anyhow::Result<ExitCode> {
    let mut out = BufWriter::new(rt.alloc(), io::writer(rt))?;
    let written = write_stats(rt.alloc(), &mut out, opened);
    out.flush()?;
    ended(rt, path, written.map(|()| true))
}

// Prints all of this as one JSON object, once it is known.
fn print_stats_json(
    rt: &HostRuntime,
    path: &str,
    opened: &OpenedIndex,
    total: &Total,
) -> anyhow::Result<ExitCode> {
    let mut fields = Vec::new(rt.alloc());
    if let Err(fault) = write_stats_json(rt.alloc(), &mut fields, opened) {
        drop(fields);
        return Ok(ExitCode::from(status_of(rt, path, fault)?));
    }
    let mut out = BufWriter::new(rt.alloc(), io::writer(rt))?;
    total.write_json(&mut out)?;
    write!(out, ",\"fields\":")?;
    out.write_all(fields.as_slice())?;
    writeln!(out, "}}")?;
    out.flush()?;
    Ok(ExitCode::SUCCESS)
}

// Prints the number of documents and of segments, and how many bytes their files have of each kind.
fn print_files(rt: &HostRuntime, total: &Total) -> anyhow::Result<()> {
    println!(rt; "{:>12} documents", total.living)?;
    println!(rt; "{:>12} segments", total.segments)?;
    println!(rt; "{:>12} bytes of {}", total.schema, Kind::Schema)?;
    println!(rt; "{:>12} bytes of {}", total.terms, Kind::Terms)?;
    println!(rt; "{:>12} bytes of {}", total.postings, Kind::Postings)?;
    println!(rt; "{:>12} bytes of {}", total.positions, Kind::Positions)?;
    println!(rt; "{:>12} bytes of {}", total.fieldnorms, Kind::FieldNorms)?;
    if total.counts > 0 {
        println!(rt;
            "{:>12} bytes of {}",
            total.counts,
            SegmentComponent::Counts
        )?;
    }
    if total.store > 0 {
        println!(rt; "{:>12} bytes of {}", total.store, SegmentComponent::Store)?;
    }
    let deleted = total.deleted();
    if deleted > 0 {
        println!(rt; "{deleted:>12} deleted documents that still take room")?;
    }
    Ok(())
}

// The documents of segments, and the bytes of their files.
#[derive(Clone, Copy, Default)]
struct Total {
    segments: u64,
    schema: u64,
    // deleted ones included
    documents: u64,
    living: u64,
    terms: u64,
    postings: u64,
    positions: u64,
    fieldnorms: u64,
    counts: u64,
    store: u64,
}

impl Total {
    // Returns that of an index.
    fn of(index: &StoredSegments) -> Total {
        let mut total = Total {
            segments: index.segments.len() as u64,
            schema: index.schema.len() as u64,
            ..Total::default()
        };
        for segment in &index.segments {
            total.add(segment);
        }
        total
    }

    // Returns how many documents are deleted.
    fn deleted(&self) -> u64 {
        self.documents.saturating_sub(self.living)
    }

    // Writes it as the start of a JSON object.
    fn write_json<W: Write>(&self, out: &mut W) -> io::Result<()> {
        write!(
            out,
            "{{\"documents\":{},\"segments\":{},\"deleted_documents\":{},\"bytes\":{{\"schema\":{},\"terms\":{},\"postings\":{},\"positions\":{}",
            self.living,
            self.segments,
            self.deleted(),
            self.schema,
            self.terms,
            self.postings,
            self.positions
        )?;
        write!(
            out,
            ",\"field_norms\":{},\"counts\":{},\"stored_documents\":{}}}",
            self.fieldnorms, self.counts, self.store
        )
    }

    // Adds a segment.
    fn add(&mut self, stored: &StoredSegment) {
        let living = u64::from(stored.alive.num_living());
        self.living = self.living.saturating_add(living);
        let segment = &stored.files;
        if let Some(counts) = &segment.counts {
            self.counts = self.counts.saturating_add(counts.len() as u64);
        }
        if let Some(store) = &segment.store {
            self.store = self.store.saturating_add(store.len() as u64);
        }
        self.documents = self.documents.saturating_add(u64::from(segment.num_docs));
        self.terms = self.terms.saturating_add(segment.terms.len() as u64);
        self.postings = self.postings.saturating_add(segment.postings.len() as u64);
        self.positions = self
            .positions
            .saturating_add(segment.positions.len() as u64);
        self.fieldnorms = self
            .fieldnorms
            .saturating_add(segment.fieldnorms.len() as u64);
    }
}

// Opens an index from its bytes, or returns the status if they are none.
fn opened_of(
    rt: &HostRuntime,
    path: &str,
    stored: StoredSegments,
) -> anyhow::Result<Result<OpenedIndex, u8>> {
    match OpenedIndex::open(rt.alloc(), stored) {
        Ok(opened) => Ok(Ok(opened)),
        Err(fault) => {
            if fault.is_memory() {
                return Ok(Err(refuse_path(rt, path, fault)?));
            }
            println!(rt; "{path}: {fault}")?;
            eprintln!(rt; "{PROGRAM}: the command check prints what is damaged")?;
            Ok(Err(NO))
        }
    }
}

/// Opens the index of a folder with its wanted files, or returns the status if there is none.
pub fn opened_at(
    rt: &HostRuntime,
    path: &str,
    wanted: WantedFiles,
) -> anyhow::Result<Result<OpenedIndex, u8>> {
    match loaded_at(rt, path, wanted)? {
        Ok(stored) => opened_of(rt, path, stored),
        Err(status) => Ok(Err(status)),
    }
}

/// Returns the field given on the command line.
pub fn field_given(
    rt: &HostRuntime,
    opened: &OpenedIndex,
    given: &ArgMatches<'_>,
) -> anyhow::Result<Result<Field, u8>>
    ensures { IfOk result (λ field. IfOk field (λ f. f < length opened.now.schema)) }
{
    match given.get_str("FIELD") {
        Some(name) => field_named(rt, opened, name),
        None => Ok(Err(REFUSED)),
    }
}

/// Returns the field with a name, or the status if there is none.
pub fn field_named(
    rt: &HostRuntime,
    opened: &OpenedIndex,
    name: &str,
) -> anyhow::Result<Result<Field, u8>>
    ensures { IfOk result (λ field. IfOk field (λ f. f < length opened.now.schema)) }
{
    match opened.field_named(name) {
        Some(field) => Ok(Ok(field)),
        None => {
            eprintln!(rt; "{PROGRAM}: no field {name}; the command fields lists them")?;
            Ok(Err(REFUSED))
        }
    }
}

/// Returns the term of a field for a text.
pub fn term_given(
    rt: &HostRuntime,
    opened: &OpenedIndex,
    field: Field,
    text: &str,
) -> anyhow::Result<Result<Term, u8>>
    requires { field < length opened.now.schema }
{
    let entry = opened.entry(field);
    match term_of(rt.alloc(), field, entry, text) {
        Ok(Some(term)) => Ok(Ok(term)),
        Ok(None) => {
            let name = entry.name();
            eprintln!(rt;
                "{PROGRAM}: {text} is no term of {name}; the command terms prints the terms"
            )?;
            Ok(Err(REFUSED))
        }
        Err(fault) => Ok(Err(refuse(rt, fault)?)),
    }
}

/// Returns the number given for an option, if there is one, or the status if it is no number.
pub fn number_given(
    rt: &HostRuntime,
    given: &ArgMatches<'_>,
    option: &str,
) -> anyhow::Result<Result<Option<u32>, u8>> {
    let Some(text) = given.get_str(option) else {
        return Ok(Ok(None));
    };
    match text.parse::<u32>() {
        Ok(number) => Ok(Ok(Some(number))),
        Err(_) => {
            eprintln!(rt;
                "{PROGRAM}: --{option} {text}: expected a whole number from 0 to {}",
                u32::MAX
            )?;
            Ok(Err(REFUSED))
        }
    }
}

/// Returns the status for an answer: "yes", "no", or a fault, which it prints.
pub fn ended(
    rt: &HostRuntime,
    path: &str,
    answer: Result<bool, AnswerFault>,
) -> anyhow::Result<ExitCode> {
    match answer {
        Ok(true) => Ok(ExitCode::SUCCESS),
        Ok(false) => Ok(ExitCode::from(NO)),
        Err(fault) => Ok(ExitCode::from(status_of(rt, path, fault)?)),
    }
}

/// Prints why there is no answer, and returns the status.
pub fn status_of(rt: &HostRuntime, path: &str, fault: AnswerFault) -> anyhow::Result<u8> {
    match fault {
        AnswerFault::Output(kind) => refuse(rt, AnswerFault::Output(kind)),
        fault => {
            if fault.is_memory() {
                return refuse_path(rt, path, fault);
            }
            println!(rt; "{path}: {fault}")?;
            Ok(NO)
        }
    }
}
