//! The command `index`.
ghost use Rattle.std.specs.Prelude.{◌≡◌, []};
ghost use Rattle.ii_documents.specs.declared.floats.FloatNumbers.TheVariants as floats;
ghost use Rattle.nequllpa_indexing.specs.Documents.{no_records};

use crate::float_paths::float_path;
use crate::left_out::LeftOut;
use crate::memory::{Budget, budget_given};
use crate::messages::{NO, PROGRAM, REFUSED, refuse, refuse_file, refuse_path};
use crate::new_segments::{Former, NewSegments};
use crate::orphans::refuse_orphan;
use crate::places::located_by;
use crate::schemas::text_schema_of;
use clap::ArgMatches;
use ii_base::{Field, Term, ValueType};
use ii_documents::{FloatNumbers, LineFault, LinePlace, ValueFault};
use ii_schema_text::{SchemaFault, TextSchema, field_name_at, new_schema_text, read_text_schema};
use ii_store::FolderLock;
use ii_tokenizers::FieldTokenizers;
use nequllpa_indexing::{Documents, InputFault, KeyedLines, LineRefusal, MAX_TOKEN_LEN, add_line};
use serde_json::Error as JsonError;
use std::alloc::Global;
use std::fs;
use std::io::{BufRead, BufReader, Input};
use std::mem::replace;
use std::process::ExitCode;
use std::time::Instant;

/// The number of input bytes between two lines of progress. Of an index with fewer bytes no progress is printed.
pub const STEP: u64 = 16 << 20;

// The file name for standard input.
const STANDARD_INPUT: &str = "-";

// The limit of the parser for nested arrays and objects in a line.
const MOST_NESTING: u32 = 127;

// The bytes that an editor may write at the start of a UTF-8 file.
const BYTE_ORDER_MARK: &[u8] = &[0xef, 0xbb, 0xbf];

/// The state while input is read.
#[derive(Drop)]
pub struct Intake<'a> {
    segments: NewSegments<'a>,
    // how many bytes the lines of a segment may have
    most_bytes: u64,
    // the documents of lines that are in no segment yet, and the bytes of these lines
    documents: Documents,
    unwritten: u64,
    tokenizers: FieldTokenizers,
    long_words: u64,
    // how many numbers with a fraction the segments have left out
    skipped_floats: u64,
    // the lines, if their documents replace others
    keyed: Option<KeyedLines>,
    // the field in which documents get the places of their lines
    located: Option<&'a str>,
    skips_bad: bool,
    // whether neither progress nor counts are printed
    is_quiet: bool,
    bad_lines: u64,
    bytes: u64,
    reported: u64,
    begun: Instant,
}

/// Indexes JSON lines and saves the index.
pub fn answer_index(
    rt: &HostRuntime,
    path: &str,
    given: &ArgMatches<'_>,
) -> anyhow::Result<ExitCode> {
    let Some(schema_path) = given.get_str("schema") else {
        return Ok(ExitCode::from(REFUSED));
    };
    let text = match fs::read(rt, schema_path) {
        Ok(text) => text,
        Err(e) => return Ok(ExitCode::from(refuse_file(rt, schema_path, e.kind())?)),
    };
    let text = match new_text_of(rt, schema_path, text.as_slice())? {
        Ok(text) => text,
        Err(status) => return Ok(ExitCode::from(status)),
    };
    let schema = match schema_of(rt, schema_path, text.as_str())? {
        Ok(schema) => schema,
        Err(status) => return Ok(ExitCode::from(status)),
    };
    let budget = match budget_given(rt, given)? {
        Ok(budget) => budget,
        Err(status) => return Ok(ExitCode::from(status)),
    };
    let target = match target_of(rt, path, given.get_flag("force"))? {
        Ok(target) => target,
        Err(status) => return Ok(ExitCode::from(status)),
    };
    let segments = NewSegments::new(target, Former::Replaced, text.into_bytes());
    let mut intake = match begun(rt, given, segments, schema, budget, None)? {
        Ok(intake) => intake,
        Err(status) => return Ok(ExitCode::from(status)),
    };
    if let Err(status) = take_inputs(rt, given, &mut intake)? {
        intake.discard(rt);
        return Ok(ExitCode::from(status));
    }
    match intake.finish(rt)? {
        Ok(taken) => {
            tell_indexed(rt, given.get_flag("json"), taken)?;
            Ok(ExitCode::SUCCESS)
        }
        Err(status) => Ok(ExitCode::from(status)),
    }
}

/// Returns an empty list of documents, and the tokenizers of their fields. What is stored of them, and whether their
/// unknown keys are ignored, is as the schema's text says.
pub fn documents_for(alloc: Global, schema: TextSchema) -> (Documents, FieldTokenizers)
    ensures documents { result.0 ≡ record { schema = schema.schema; num_docs = 0; calls = []; stored = schema.stored; lines = no_records schema.stored; unknown_keys = schema.unknown_keys; floats = floats.Refuse; skipped_floats = 0 } }
    ensures tokenizers { result.1 ≡ schema.tokenizers }
{
    let unknown = schema.unknown_keys();
    let (schema, tokenizers, stored) = schema.into_parts();
    let documents = Documents::storing(alloc, schema, stored);
    (documents.with_unknown_keys(unknown), tokenizers)
}

/// The folder in which an index is saved, with its lock if it exists.
#[derive(Drop)]
pub struct Target<'a> {
    path: &'a str,
    replaces_orphans: bool,
    lock: Option<FolderLock>,
}

/// Locks the folder, if it exists, before any input is read. Returns the status if it can't be used.
pub fn target_of<'a>(
    rt: &HostRuntime,
    path: &'a str,
    replaces_orphans: bool,
) -> anyhow::Result<Result<Target<'a>, u8>> {
    let mut target = Target {
        path,
        replaces_orphans,
        lock: None,
    };
    match fs::exists(rt, path) {
        Ok(true) => match target.lock(rt)? {
            Ok(()) => Ok(Ok(target)),
            Err(status) => Ok(Err(status)),
        },
        Ok(false) => Ok(Ok(target)),
        Err(e) => Ok(Err(refuse_path(rt, path, e.kind())?)),
    }
}

impl<'a> Target<'a> {
    /// Returns the path of the folder.
    pub fn path(&self) -> &'a str {
        self.path
    }

    /// Takes the lock of the folder, unless it is held already. Returns the status if another program holds
    /// it, or if files would be lost.
    pub fn lock(&mut self, rt: &HostRuntime) -> anyhow::Result<Result<(), u8>> {
        if self.lock.is_some() {
            return Ok(Ok(()));
        }
        let path = self.path;
        let lock = match FolderLock::try_lock(rt, path) {
            Ok(Some(lock)) => lock,
            Ok(None) => {
                eprintln!(rt; "{PROGRAM}: another program writes to {path}")?;
                return Ok(Err(REFUSED));
            }
            Err(fault) => return Ok(Err(refuse_path(rt, path, fault)?)),
        };
        if !self.replaces_orphans {
            if let Err(status) = refuse_orphan(rt, path)? {
                return Ok(Err(status));
            }
        }
        self.lock = Some(lock);
        Ok(Ok(()))
    }
}

/// Prints how much memory indexing takes, unless that is unwanted, and returns the initial state: lines are added to
/// segments, or kept if their documents replace those with the same key in a field.
pub fn begun<'a>(
    rt: &HostRuntime,
    given: &'a ArgMatches<'_>,
    segments: NewSegments<'a>,
    schema: TextSchema,
    budget: Budget,
    keyed: Option<KeyedLines>,
) -> anyhow::Result<Result<Intake<'a>, u8>> {
    let located = match located_by(rt, given, &schema)? {
        Ok(located) => located,
        Err(status) => return Ok(Err(status)),
    };
    let begun = Instant::now(rt)?;
    let is_quiet = given.get_flag("quiet");
    if !is_quiet {
        tell_memory(rt, budget, keyed.is_some())?;
    }
    let (documents, tokenizers) = documents_for(rt.alloc(), schema);
    let documents = documents.with_floats(floats_given(given));
    Ok(Ok(Intake {
        segments,
        most_bytes: budget.bytes_of_lines(),
        documents,
        unwritten: 0,
        tokenizers,
        long_words: 0,
        skipped_floats: 0,
        keyed,
        located,
        skips_bad: given.get_flag("skip-bad"),
        is_quiet,
        bad_lines: 0,
        bytes: 0,
        reported: 0,
        begun,
    }))
}

// Returns what happens to numbers with a fraction.
fn floats_given(given: &ArgMatches<'_>) -> FloatNumbers {
    if given.get_flag("skip-floats") {
        return FloatNumbers::Skip;
    }
    FloatNumbers::Refuse
}

// Prints how much memory lines take.
fn tell_memory(rt: &HostRuntime, budget: Budget, keeps_lines: bool) -> anyhow::Result<()> {
    if keeps_lines {
        eprintln!(rt;
            "{PROGRAM}: all lines are kept in memory, since their documents replace others"
        )?;
        return Ok(());
    }
    eprintln!(rt;
        "{PROGRAM}: lines that take about {} MB of memory become a segment; --memory sets that",
        budget.megabytes()
    )?;
    Ok(())
}

// Returns the text of the schema of the new index.
fn new_text_of(rt: &HostRuntime, path: &str, text: &[u8]) -> anyhow::Result<Result<String, u8>> {
    let Ok(text) = std::str::from_utf8(text) else {
        return Ok(Err(refuse_path(rt, path, "not UTF-8")?));
    };
    match new_schema_text(rt.alloc(), text) {
        Ok(text) => Ok(Ok(text)),
        Err(fault) => Ok(Err(refuse_path(rt, path, fault)?)),
    }
}

// Reads the schema from a text.
fn schema_of(rt: &HostRuntime, path: &str, text: &str) -> anyhow::Result<Result<TextSchema, u8>> {
    match read_text_schema(rt.alloc(), text) {
        Ok(schema) => Ok(Ok(schema)),
        Err(fault) => Ok(Err(refuse_schema(rt, path, text, fault)?)),
    }
}

// Prints why a text is no schema, with the name of the wrong field if it has one.
fn refuse_schema(
    rt: &HostRuntime,
    path: &str,
    text: &str,
    fault: SchemaFault,
) -> anyhow::Result<u8> {
    let number = match &fault {
        SchemaFault::UnknownFieldKey(number, _) => *number,
        SchemaFault::WrongKey(number, _) => *number,
        SchemaFault::UnknownFieldTokenizer(number, _) => *number,
        _ => return refuse_path(rt, path, fault),
    };
    match field_name_at(rt.alloc(), text, number)? {
        Some(name) => {
            eprintln!(rt; "{PROGRAM}: {path}: {fault} (the field {name})")?;
            Ok(REFUSED)
        }
        None => refuse_path(rt, path, fault),
    }
}

/// Reads the lines of all inputs.
pub fn take_inputs(
    rt: &HostRuntime,
    given: &ArgMatches<'_>,
    intake: &mut Intake<'_>,
) -> anyhow::Result<Result<(), u8>> {
    let Some(files) = given.get_strs("FILE") else {
        return take_standard_input(rt, intake);
    };
    for file in files {
        if let Err(status) = take_file(rt, file, intake)? {
            return Ok(Err(status));
        }
    }
    Ok(Ok(()))
}

// Reads the lines of a file, or of standard input for `-`.
fn take_file(
    rt: &HostRuntime,
    file: &str,
    intake: &mut Intake<'_>,
) -> anyhow::Result<Result<(), u8>> {
    if file == STANDARD_INPUT {
        return take_standard_input(rt, intake);
    }
    let opened = match fs::open(rt, file) {
        Ok(opened) => opened,
        Err(e) => return Ok(Err(refuse_file(rt, file, e.kind())?)),
    };
    let mut reader = BufReader::new(rt.alloc(), opened)?;
    take_lines(rt, file, &mut reader, intake)
}

fn take_standard_input(
    rt: &HostRuntime,
    intake: &mut Intake<'_>,
) -> anyhow::Result<Result<(), u8>> {
    let mut reader = BufReader::new(rt.alloc(), rt.reader())?;
    take_lines(rt, STANDARD_INPUT, &mut reader, intake)
}

// Reads the lines of an input.
fn take_lines<R: BufRead>(
    rt: &HostRuntime,
    name: &str,
    reader: &mut R,
    intake: &mut Intake<'_>,
) -> anyhow::Result<Result<(), u8>> {
    let mut line = Vec::new(rt.alloc());
    let mut byte = 0u64;
    for number in 1..u64::MAX {
        line.clear();
        let len = match reader.read_until(b'\n', &mut line) {
            Ok(len) => len,
            Err(e) => return Ok(Err(refuse_file(rt, name, e.kind())?)),
        };
        if len == 0 {
            return Ok(Ok(()));
        }
        let place = LinePlace {
            file: name,
            line: number,
            byte,
        };
        if let Err(status) = intake.take_line(rt, place, line.as_slice())? {
            return Ok(Err(status));
        }
        byte = byte.saturating_add(len as u64);
    }
    Ok(Ok(()))
}

/// Documents that replace those with the same keys.
#[derive(Drop)]
pub struct Kept<'a> {
    /// No segments yet; the folder is locked for them.
    pub segments: NewSegments<'a>,
    pub documents: Documents,
    pub tokenizers: FieldTokenizers,
    pub bad_lines: u64,
    pub keys: Vec<Term>,
}

/// What was taken of the input.
#[derive(Clone, Copy)]
pub struct Taken {
    /// The number of documents.
    pub num_docs: u64,
    /// How many lines, and numbers with a fraction, were left out.
    pub left_out: LeftOut,
}

impl<'a> Intake<'a> {
    /// Adds all documents to the index, at once. Prints why that fails, and returns the status then.
    pub fn finish(self, rt: &HostRuntime) -> anyhow::Result<Result<Taken, u8>> {
        let mut intake = self;
        if !intake.segments.is_left_out(&intake.documents) {
            if let Err(status) = intake.write_segment(rt)? {
                intake.discard(rt);
                return Ok(Err(status));
            }
        }
        tell_long_words(rt, intake.is_quiet, intake.long_words)?;
        match intake.segments.commit(rt)? {
            Ok(()) => Ok(Ok(Taken {
                num_docs: intake.segments.num_docs(),
                left_out: LeftOut::new(intake.bad_lines, &intake.documents, intake.skipped_floats),
            })),
            Err(status) => Ok(Err(status)),
        }
    }

    /// Removes what was written of the input.
    pub fn discard(self, rt: &HostRuntime) {
        self.segments.discard(rt);
    }

    // Writes the documents of the lines since the last segment as the next one, and begins with none.
    fn write_segment(&mut self, rt: &HostRuntime) -> anyhow::Result<Result<(), u8>> {
        match self.documents.num_long_words(rt.alloc(), &self.tokenizers) {
            Ok(count) => self.long_words = self.long_words.saturating_add(count),
            Err(fault) => return Ok(Err(refuse(rt, fault)?)),
        }
        let schema = match text_schema_of(rt.alloc(), self.segments.schema()) {
            Ok(schema) => schema,
            Err(fault) => return Ok(Err(refuse(rt, fault)?)),
        };
        if !self.is_quiet && self.unwritten >= STEP {
            eprintln!(rt;
                "{PROGRAM}: writing a segment of {} documents",
                self.documents.num_docs()
            )?;
        }
        let (none, _) = documents_for(rt.alloc(), schema);
        let none = none.with_floats(self.documents.floats());
        let documents = replace(&mut self.documents, none);
        let skipped_floats = documents.skipped_floats();
        self.skipped_floats = self.skipped_floats.saturating_add(skipped_floats);
        self.unwritten = 0;
        self.segments.add(rt, documents, &self.tokenizers)
    }

    // Returns whether a line of this many bytes belongs to the next segment.
    fn is_full(&self, len: u64) -> bool {
        if self.documents.num_docs() == 0 {
            return false;
        }
        self.unwritten.saturating_add(len) > self.most_bytes
    }

    /// Returns the documents of lines that were kept, since they replace others. Of lines with the same key the last
    /// one counts.
    pub fn into_kept(self, alloc: Global) -> Result<Kept<'a>, InputFault> {
        let Intake {
            segments,
            most_bytes: _,
            documents,
            unwritten: _,
            tokenizers,
            long_words: _,
            skipped_floats: _,
            keyed,
            located: _,
            skips_bad: _,
            is_quiet: _,
            bad_lines,
            bytes: _,
            reported: _,
            begun: _,
        } = self;
        let mut documents = documents;
        let keys = match keyed {
            Some(keyed) => match keyed.add_to(alloc, &mut documents) {
                Ok(keys) => keys,
                Err(fault) => return Err(InputFault::Line(fault)),
            },
            None => Vec::new(alloc),
        };
        Ok(Kept {
            segments,
            documents,
            tokenizers,
            bad_lines,
            keys,
        })
    }

    /// Returns whether neither progress nor counts are printed.
    pub fn is_quiet(&self) -> bool {
        self.is_quiet
    }

    // Adds the document of a line, with the line's place if that is wanted, or keeps the line.
    fn put_line(
        &mut self,
        alloc: Global,
        place: LinePlace<'_>,
        line: &[u8],
    ) -> Result<(), LineRefusal> {
        let Some(field) = self.located else {
            return self.put_document(alloc, line);
        };
        match place.put_in(alloc, line, field) {
            Ok(object) => self.put_document(alloc, object.as_slice()),
            Err(_) => Err(LineRefusal::Input(InputFault::Line(LineFault::OutOfMemory))),
        }
    }

    // Adds the document of a line, or keeps the line.
    fn put_document(&mut self, alloc: Global, line: &[u8]) -> Result<(), LineRefusal> {
        if let Some(keyed) = &mut self.keyed {
            return keyed.take(alloc, &self.documents, &self.tokenizers, line);
        }
        match add_line(alloc, &mut self.documents, line) {
            Ok(_) => Ok(()),
            Err(fault) => Err(LineRefusal::Input(fault)),
        }
    }

    // Adds a line.
    fn take_line(
        &mut self,
        rt: &HostRuntime,
        place: LinePlace<'_>,
        line: &[u8],
    ) -> anyhow::Result<Result<(), u8>> {
        self.bytes = self.bytes.saturating_add(line.len() as u64);
        if self.bytes.saturating_sub(self.reported) >= STEP {
            self.reported = self.bytes;
            if !self.is_quiet {
                self.report(rt)?;
            }
        }
        let len = line.len() as u64;
        if self.is_full(len) {
            if let Err(status) = self.write_segment(rt)? {
                return Ok(Err(status));
            }
        }
        self.unwritten = self.unwritten.saturating_add(len);
        match self.put_line(rt.alloc(), place, line) {
            Ok(()) => Ok(Ok(())),
            Err(fault) => {
                if fault.is_memory() {
                    return Ok(Err(refuse_path(rt, place.file, fault)?));
                }
                self.refuse_line(rt, place.file, place.line, line, &fault)
            }
        }
    }

    // Prints why a line is no document, and continues if bad lines are skipped.
    fn refuse_line(
        &mut self,
        rt: &HostRuntime,
        name: &str,
        number: u64,
        line: &[u8],
        fault: &LineRefusal,
    ) -> anyhow::Result<Result<(), u8>> {
        match fault {
            LineRefusal::Input(InputFault::Line(LineFault::NotJson(error))) => {
                tell_not_json(rt, name, number, line, error)?
            }
            LineRefusal::Input(InputFault::Line(LineFault::WrongValue(field, reason))) => {
                self.tell_value(rt, name, number, line, *field, *reason)?
            }
            _ => eprintln!(rt; "{name}:{number}: {fault}")?,
        }
        self.bad_lines = self.bad_lines.saturating_add(1);
        if self.skips_bad {
            return Ok(Ok(()));
        }
        eprintln!(rt; "{PROGRAM}: nothing is indexed; --skip-bad leaves bad lines out")?;
        Ok(Err(NO))
    }

    // Prints that a value doesn't fit its field, and for a number the expected range.
    fn tell_value(
        &self,
        rt: &HostRuntime,
        name: &str,
        number: u64,
        line: &[u8],
        field: Field,
        reason: ValueFault,
    ) -> anyhow::Result<()> {
        let schema = self.documents.schema();
        if field.field_id() as usize >= schema.num_fields() {
            eprintln!(rt; "{name}:{number}: {reason}")?;
            return Ok(());
        }
        let entry = schema.get_field_entry(field);
        let field = entry.name();
        if reason == ValueFault::Float {
            return tell_float(rt, name, number, line, field);
        }
        if reason != ValueFault::OutOfRange {
            eprintln!(rt; "{name}:{number}: {field}: {reason}")?;
            return Ok(());
        }
        if entry.value_type() == ValueType::I64 {
            eprintln!(rt;
                "{name}:{number}: {field}: {reason}: expected a whole number from {} to {}; -0, a fraction or an exponent is none",
                i64::MIN,
                i64::MAX
            )?;
            return Ok(());
        }
        eprintln!(rt;
            "{name}:{number}: {field}: {reason}: expected a whole number from 0 to {}; a fraction or an exponent is none",
            u64::MAX
        )?;
        Ok(())
    }

    // Prints the progress.
    fn report(&self, rt: &HostRuntime) -> anyhow::Result<()> {
        let millis = self.begun.elapsed(rt)?.as_millis().max(1);
        let kept = match &self.keyed {
            Some(keyed) => keyed.len() as u64,
            None => 0,
        };
        let read = u64::from(self.documents.num_docs()).saturating_add(kept);
        let num_docs = self.segments.num_docs().saturating_add(read);
        let rate = self.bytes as u128 / millis;
        eprintln!(rt;
            "{PROGRAM}: {num_docs} documents, {} MB, {}.{} MB/s",
            self.bytes / 1_000_000,
            rate / 1000,
            rate % 1000 / 100
        )?;
        Ok(())
    }
}

// Prints that a value of a field of JSON values has a number with a fraction, and its path.
fn tell_float(
    rt: &HostRuntime,
    name: &str,
    number: u64,
    line: &[u8],
    field: &str,
) -> anyhow::Result<()> {
    let path = match std::str::from_utf8(line) {
        Ok(line) => float_path(rt.alloc(), line, field)?,
        Err(_) => None,
    };
    let reason = ValueFault::Float;
    match path {
        Some(path) => eprintln!(rt; "{name}:{number}: {path}: {reason}")?,
        None => eprintln!(rt; "{name}:{number}: {field}: {reason}")?,
    }
    eprintln!(rt; "{PROGRAM}: --skip-floats leaves such numbers out")?;
    Ok(())
}

// Prints why a line can't be read as JSON, and where.
fn tell_not_json(
    rt: &HostRuntime,
    name: &str,
    number: u64,
    line: &[u8],
    error: &JsonError,
) -> anyhow::Result<()> {
    if line.starts_with(BYTE_ORDER_MARK) {
        eprintln!(rt;
            "{name}:{number}: not JSON: the line begins with a byte order mark; save the file without one"
        )?;
    } else if nesting(line) > MOST_NESTING {
        eprintln!(rt;
            "{name}:{number}: not read: arrays and objects are nested more than {MOST_NESTING} levels deep"
        )?;
    } else {
        eprintln!(rt; "{name}:{number}: not JSON, at byte {}", error.column())?;
    }
    Ok(())
}

// Returns how deep arrays and objects are nested in a line. Brackets in strings don't count.
fn nesting(line: &[u8]) -> u32 {
    let mut depth = 0u32;
    let mut most = 0u32;
    let mut in_text = false;
    let mut is_escaped = false;
    for byte in line {
        if in_text {
            in_text = is_escaped || *byte != b'"';
            is_escaped = *byte == b'\\' && !is_escaped;
            continue;
        }
        match *byte {
            b'"' => in_text = true,
            b'[' | b'{' => {
                depth = depth.saturating_add(1);
                most = most.max(depth);
            }
            b']' | b'}' => depth = depth.saturating_sub(1),
            _ => {}
        }
    }
    most
}

/// Prints how many words are too long to be indexed, if there are any, unless that is unwanted.
pub fn tell_long_words(rt: &HostRuntime, is_quiet: bool, count: u64) -> anyhow::Result<()> {
    if count > 0 && !is_quiet {
        eprintln!(rt;
            "{PROGRAM}: {count} words of more than {MAX_TOKEN_LEN} bytes are not indexed"
        )?;
    }
    Ok(())
}

// Prints how many documents were indexed and how many lines and numbers were left out.
fn tell_indexed(rt: &HostRuntime, is_json: bool, taken: Taken) -> anyhow::Result<()> {
    let Taken { num_docs, left_out } = taken;
    if is_json {
        let left_out = left_out.json(rt.alloc())?;
        println!(rt; "{{\"indexed\":{num_docs},{left_out}}}")?;
    } else {
        let left_out = left_out.words(rt.alloc())?;
        println!(rt; "{num_docs} documents indexed{left_out}")?;
    }
    Ok(())
}
