//! The command `add`, but for what replaces documents of an index.
use crate::indexing::{Intake, Kept, begun, take_inputs, target_of, tell_long_words};
use crate::left_out::LeftOut;
use crate::memory::{Budget, budget_given};
use crate::merging::settle;
use crate::messages::{PROGRAM, REFUSED, refuse, refuse_path, tell_no_index};
use crate::new_segments::{Former, NewSegments};
use crate::schemas::text_schema_of;
use clap::ArgMatches;
use ii_base::{Schema, Term, ValueType};
use ii_query_parser::field_named;
use ii_schema_text::TextSchema;
use ii_segment_store::{SegmentFiles, load_latest};
use ii_store::segments::load_meta;
use ii_store::{Folder, IndexFault, StoreFault};
use nequllpa_indexing::KeyedLines;
use std::process::ExitCode;

/// What became of the lines that `add` has read.
#[derive(Drop)]
pub enum Added<'a> {
    /// The command has ended, with this status.
    Ended(ExitCode),
    /// Their documents replace those with the same keys, and aren't in the index yet.
    Replaces(Replacement<'a>),
}

/// Documents that replace those with the same keys in an index.
#[derive(Drop)]
pub struct Replacement<'a> {
    /// Holds the lock of the folder.
    pub segments: NewSegments<'a>,
    /// The documents.
    pub segment: SegmentFiles,
    /// Their keys.
    pub keys: Vec<Term>,
    /// How many lines, and numbers with a fraction, were left out.
    pub left_out: LeftOut,
    /// How much memory merging may take afterwards, if segments are merged.
    pub merges: Option<Budget>,
}

/// Reads JSON lines, and adds them to an index as new segments, unless their documents replace others.
pub fn add_given<'a>(
    rt: &HostRuntime,
    path: &'a str,
    given: &'a ArgMatches<'_>,
) -> anyhow::Result<Added<'a>> {
    let target = match target_of(rt, path, false)? {
        Ok(target) => target,
        Err(status) => return Ok(Added::Ended(ExitCode::from(status))),
    };
    let budget = match budget_given(rt, given)? {
        Ok(budget) => budget,
        Err(status) => return Ok(Added::Ended(ExitCode::from(status))),
    };
    let (bytes, schema) = match current_schema(rt, path)? {
        Ok(read) => read,
        Err(status) => return Ok(Added::Ended(ExitCode::from(status))),
    };
    let keyed = match keyed_by(rt, given, schema.schema())? {
        Ok(keyed) => keyed,
        Err(status) => return Ok(Added::Ended(ExitCode::from(status))),
    };
    let replaces = keyed.is_some();
    let segments = NewSegments::new(target, Former::Kept, bytes);
    let mut intake = match begun(rt, given, segments, schema, budget, keyed)? {
        Ok(intake) => intake,
        Err(status) => return Ok(Added::Ended(ExitCode::from(status))),
    };
    if let Err(status) = take_inputs(rt, given, &mut intake)? {
        intake.discard(rt);
        return Ok(Added::Ended(ExitCode::from(status)));
    }
    let merges = if given.get_flag("no-merge") {
        None
    } else {
        Some(budget)
    };
    if replaces {
        return built_replacement(rt, intake, merges);
    }
    let status = add_segments(rt, path, intake, merges, given.get_flag("json"))?;
    Ok(Added::Ended(status))
}

// Returns what keeps lines whose documents replace others, if the option is given. Returns the status if documents
// have no keys in its field.
fn keyed_by(
    rt: &HostRuntime,
    given: &ArgMatches<'_>,
    schema: &Schema,
) -> anyhow::Result<Result<Option<KeyedLines>, u8>> {
    let Some(name) = given.get_str("replace-by") else {
        return Ok(Ok(None));
    };
    let Some(field) = field_named(schema, name) else {
        eprintln!(rt; "{PROGRAM}: no field {name}; the command fields lists them")?;
        return Ok(Err(REFUSED));
    };
    let entry = schema.get_field_entry(field);
    if !entry.is_indexed() || entry.value_type() == ValueType::Json {
        eprintln!(rt;
            "{PROGRAM}: {name} has no keys: a field of keys is indexed, and has no JSON values"
        )?;
        return Ok(Err(REFUSED));
    }
    Ok(Ok(Some(KeyedLines::new(rt.alloc(), field))))
}

// Reads the schema of an index, and its bytes, or returns the status if there is none.
fn current_schema(
    rt: &HostRuntime,
    path: &str,
) -> anyhow::Result<Result<(Vec<u8>, TextSchema), u8>> {
    let bytes = match schema_bytes(rt, path) {
        Ok(bytes) => bytes,
        Err(StoreFault::Index(fault)) => return Ok(Err(tell_no_index(rt, path, fault)?)),
        Err(StoreFault::Directory(fault)) => return Ok(Err(refuse_path(rt, path, fault)?)),
    };
    match text_schema_of(rt.alloc(), bytes.as_slice()) {
        Ok(schema) => Ok(Ok((bytes, schema))),
        Err(fault) => Ok(Err(refuse_path(rt, path, fault)?)),
    }
}

// Returns the bytes of the schema of an index of any version.
fn schema_bytes(rt: &HostRuntime, path: &str) -> Result<Vec<u8>, StoreFault> {
    let folder = Folder::new(rt, path);
    match load_meta(rt.alloc(), &folder) {
        Ok(list) => Ok(list.schema),
        Err(StoreFault::Index(IndexFault::OtherVersion(_))) => {
            match load_latest(rt.alloc(), &folder) {
                Ok(index) => Ok(index.schema),
                Err(fault) => Err(fault),
            }
        }
        Err(fault) => Err(fault),
    }
}

// Adds the documents that were read, and then merges segments if that is wanted.
fn add_segments(
    rt: &HostRuntime,
    path: &str,
    intake: Intake<'_>,
    merges: Option<Budget>,
    is_json: bool,
) -> anyhow::Result<ExitCode> {
    let taken = match intake.finish(rt)? {
        Ok(taken) => taken,
        Err(status) => return Ok(ExitCode::from(status)),
    };
    tell_added(rt, is_json, taken.num_docs, None, taken.left_out)?;
    if let Some(budget) = merges {
        settle(rt, path, budget)?;
    }
    Ok(ExitCode::SUCCESS)
}

// Builds the segment of the documents that replace others.
fn built_replacement<'a>(
    rt: &HostRuntime,
    intake: Intake<'a>,
    merges: Option<Budget>,
) -> anyhow::Result<Added<'a>> {
    let is_quiet = intake.is_quiet();
    let Kept {
        segments,
        documents,
        tokenizers,
        bad_lines,
        keys,
    } = match intake.into_kept(rt.alloc()) {
        Ok(kept) => kept,
        Err(fault) => return Ok(Added::Ended(ExitCode::from(refuse(rt, fault)?))),
    };
    match documents.num_long_words(rt.alloc(), &tokenizers) {
        Ok(count) => tell_long_words(rt, is_quiet, count)?,
        Err(fault) => return Ok(Added::Ended(ExitCode::from(refuse(rt, fault)?))),
    }
    let left_out = LeftOut::new(bad_lines, &documents, 0);
    match documents.into_segment(rt.alloc(), &tokenizers) {
        Ok(segment) => Ok(Added::Replaces(Replacement {
            segments,
            segment,
            keys,
            left_out,
            merges,
        })),
        Err(fault) => Ok(Added::Ended(ExitCode::from(refuse(rt, fault)?))),
    }
}

/// Prints how many documents were added, how many they replaced, if they replace some, and how many lines and numbers
/// were left out.
pub fn tell_added(
    rt: &HostRuntime,
    is_json: bool,
    num_docs: u64,
    replaced: Option<u64>,
    left_out: LeftOut,
) -> anyhow::Result<()> {
    if is_json {
        return tell_added_json(rt, num_docs, replaced, left_out);
    }
    let also = match replaced {
        Some(count) => format!(in rt.alloc(); ", {count} replaced")?,
        None => String::new(rt.alloc()),
    };
    let left_out = left_out.words(rt.alloc())?;
    println!(rt; "{num_docs} documents added{also}{left_out}")?;
    Ok(())
}

// Prints the same as a JSON object.
fn tell_added_json(
    rt: &HostRuntime,
    num_docs: u64,
    replaced: Option<u64>,
    left_out: LeftOut,
) -> anyhow::Result<()> {
    let left_out = left_out.json(rt.alloc())?;
    match replaced {
        Some(count) => println!(rt; "{{\"added\":{num_docs},\"replaced\":{count},{left_out}}}")?,
        None => println!(rt; "{{\"added\":{num_docs},{left_out}}}")?,
    }
    Ok(())
}
