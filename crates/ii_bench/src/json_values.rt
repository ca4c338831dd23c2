ghost use Rattle.std.specs.Prelude.{◌≡◌, ◌<◌, length, IfOk};
ghost use Rattle.ii_base.specs.declared.schema.value_type.ValueType.TheVariants.{Json};
ghost use Rattle.ii_definitions.specs.IndexCalls.{Takes};

use crate::indexes::written;
use crate::table::{ROUNDS, print_row};
use anyhow::Result;
use ii_base::{AsciiTokenizer, Field, FieldEntry, IndexRecordOption, JsonValue, Schema};
use ii_indexing::{IndexCall, Indexer};
use ii_io::Fault;
use std::alloc::Global;
use std::fs;
use std::time::{Duration, Instant};

/// The number of values, each in its own document.
const DOCS: u32 = 10_000;

/// The first key of each path; with byte 01 and a second key a path has 40 bytes.
const OUTER: &str = "properties_of_a_page";

const TITLE: &str = "title_as_it_appears";

const AUTHOR: &str = "author_of_the_pages";

const VISITS: &str = "visits_in_one_month";

const CHANGE: &str = "change_of_its_place";

const PUBLIC: &str = "is_public_or_hidden";

/// Measures building and indexing values of five leaves and writing the index, and the peak memory that this
/// adds.
pub fn measure(rt: &HostRuntime) -> Result<()> {
    let before = peak_memory(rt)?;
    let mut least = Duration::MAX;
    let mut file_bytes = 0;
    for _ in 0..ROUNDS {
        let start = Instant::now(rt)?;
        let files = written(rt.alloc(), indexed(rt.alloc())?)?;
        least = least.min(start.elapsed(rt)?);
        file_bytes = files.len();
    }
    let memory = peak_memory(rt)?.saturating_sub(before) / u64::from(DOCS);
    let row = "indexing and writing JSON: a value of five leaves";
    print_row(rt, [row, "", ""], least, u64::from(DOCS), file_bytes)?;
    Ok(println!(rt; "| memory for it at most: a value | {memory} bytes | |")?)
}

// Returns the peak memory of the program in bytes, or 0 if the system doesn't report it.
fn peak_memory(rt: &HostRuntime) -> Result<u64> {
    let status = fs::read_to_string(rt, "/proc/self/status")?;
    for line in status.as_str().lines() {
        if let Some(size) = line.strip_prefix("VmHWM:") {
            let kilobytes = size.trim_end_matches("kB").trim().parse::<u64>()?;
            return Ok(kilobytes.saturating_mul(1024));
        }
    }
    Ok(0)
}

fn schema(alloc: Global) -> Result<Schema, Fault>
    ensures takes { IfOk result (λ schema. Takes schema 0 Json) }
    ensures some { IfOk result (λ schema. 0 < length schema) }
{
    let mut entries = Vec::new(alloc);
    let name = String::from_str(alloc, "json")?;
    let option = IndexRecordOption::WithFreqsAndPositions;
    entries.push(FieldEntry::json(name, option, false))?;
    Ok(Schema::new(entries))
}

fn indexed(alloc: Global) -> Result<Indexer> {
    let mut indexer = Indexer::new(alloc, schema(alloc)?, DOCS)?;
    for doc in 0..DOCS {
        let value = value(alloc, doc)?;
        indexer.index(
            IndexCall::Json(doc, Field::from_field_id(0), value),
            &AsciiTokenizer,
        )?;
    }
    Ok(indexer)
}

// Builds a value of five leaves: two texts of two words, and three numbers.
fn value(alloc: Global, doc: u32) -> Result<JsonValue> {
    let number = u64::from(doc);
    let (title, author) = (number % 5_000, number % 300);
    let mut leaves = Vec::new(alloc);
    push(alloc, &mut leaves, TITLE, text(alloc, title))?;
    push(alloc, &mut leaves, AUTHOR, text(alloc, author))?;
    push(
        alloc,
        &mut leaves,
        VISITS,
        Ok(JsonValue::U64(number % 1_000)),
    )?;
    push(alloc, &mut leaves, CHANGE, Ok(JsonValue::I64(-7)))?;
    push(
        alloc,
        &mut leaves,
        PUBLIC,
        Ok(JsonValue::Bool(doc % 2 == 0)),
    )?;
    let mut members = Vec::new(alloc);
    push(alloc, &mut members, OUTER, Ok(JsonValue::Object(leaves)))?;
    Ok(JsonValue::Object(members))
}

fn text(alloc: Global, number: u64) -> Result<JsonValue, Fault> {
    Ok(JsonValue::Str(format!(in alloc; "w{number} v{}", number / 2)?))
}

// Appends a member if its value was built.
fn push(
    alloc: Global,
    members: &mut Vec<(String, JsonValue)>,
    key: &str,
    value: Result<JsonValue, Fault>,
) -> Result<(), Fault> {
    let value = value?;
    Ok(members.push((String::from_str(alloc, key)?, value))?)
}
