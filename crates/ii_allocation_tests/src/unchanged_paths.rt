// Calls that grow paths and norms. A call that fails must leave the value as it is.
ghost use Rattle.std.specs.Prelude.{◌<◌, ◌^◌, length};
ghost use Rattle.ii_fieldnorm.specs.Buffers.{norm_bodies};

use crate::schema::two_fields;
use crate::unchanged::{calls_after, judged};
use ii_base::{CountingWriter, Fault, Field, JsonPathWriter};
use ii_fieldnorm::{FieldNormsSerializer, FieldNormsWriter};
use ii_indexing::{PathToUnorderedId, json_path_sep_to_dot};
use std::alloc::Global;

/// Grows a path and the set of all paths, and replaces the separators of a path. Returns the number of segments
/// and of paths, and the path.
pub fn read_back(alloc: Global) -> Result<String, Fault> {
    let (segments, paths) = (pushed(alloc)?, allocated(alloc)?);
    let path = dotted(alloc)?;
    Ok(format!(in alloc; " {segments} segments {paths} paths {}", path.as_str())?)
}

// Five segments `a.b` whose dots are expanded, and the length of each number of them.
const SEGMENTS: &str = "a\u{1}b\u{1}a\u{1}b\u{1}a\u{1}b\u{1}a\u{1}b\u{1}a\u{1}b";

const LENGTHS: [usize; 6] = [0, 3, 7, 11, 15, 19];

// Returns whether a path has this many segments.
fn has_segments(writer: &JsonPathWriter, segments: usize) -> bool {
    let path = writer.as_str();
    SEGMENTS.starts_with(path) && LENGTHS.get(segments) == Some(&path.len())
}

// Appends the same segment again and again, and returns their number. Then removes them.
fn pushed(alloc: Global) -> Result<usize, Fault> {
    let mut writer = JsonPathWriter::new(alloc);
    writer.set_expand_dots(true);
    for calls in 0..5 {
        let step = writer.push("a.b");
        let segments = calls_after(calls, step.is_ok());
        let is_there = has_segments(&writer, segments);
        let is_ok = step.is_ok();
        let are_popped = is_ok || are_popped(&mut writer, segments);
        judged(step, is_there && are_popped)?;
    }
    judged(Ok(()), are_popped(&mut writer, 5))?;
    Ok(5)
}

// Removes this many segments. Returns whether one is missing after each call.
fn are_popped(writer: &mut JsonPathWriter, segments: usize) -> bool {
    let mut left = segments;
    let mut all = true;
    for _ in 0..segments {
        writer.pop();
        left = left.saturating_sub(1);
        all &= has_segments(writer, left);
    }
    all
}

// Distinct paths; the set of all grows several times.
static NAMES: [&str; 20] = [
    "a", "b", "c", "d", "e", "f", "g", "h", "i", "j", "k", "l", "m", "n", "o", "p", "q", "r", "s",
    "t",
];

// Returns whether these are the known paths, in this order: the first names.
fn are_known(ids: &PathToUnorderedId, known: usize) -> bool {
    let mut all = true;
    let mut id = 0u32;
    for name in &NAMES {
        let want = if (id as usize) < known { *name } else { "" };
        all &= ids.path(id) == want;
        id = id.saturating_add(1);
    }
    all
}

// Gives each name an id, and returns the number of names.
fn allocated(alloc: Global) -> Result<usize, Fault> {
    let mut ids = PathToUnorderedId::new(alloc);
    let mut known = 0usize;
    for name in &NAMES {
        let (step, is_id) = match ids.get_or_allocate_unordered_id(name) {
            Ok(id) => (Ok(()), id as usize == known),
            Err(fault) => (Err(fault), true),
        };
        known = calls_after(known, step.is_ok());
        judged(step, is_id && are_known(&ids, known))?;
    }
    Ok(known)
}

// Replaces the separators of a path.
fn dotted(alloc: Global) -> Result<String, Fault> {
    let mut path = String::from_str(alloc, "a\u{1}b.c\u{1}d")?;
    let step = json_path_sep_to_dot(&mut path);
    let want = if step.is_ok() {
        "a.b.c.d"
    } else {
        "a\u{1}b.c\u{1}d"
    };
    judged(step, path.as_str() == want)?;
    Ok(path)
}

/// Records two norms and writes them. If a call fails, the norms before it are written.
pub fn read_back_norms(alloc: Global) -> Result<String, Fault> {
    let field = Field::from_field_id(0);
    let mut norms = FieldNormsWriter::for_schema(alloc, &two_fields(alloc)?)?;
    if let Err(fault) = norms.record(0, field, 13) {
        judged(Err(fault), are_written(alloc, &norms, &[])?)?;
        return Err(fault);
    }
    if let Err(fault) = norms.record(9, field, 21) {
        judged(Err(fault), are_written(alloc, &norms, &[13])?)?;
        return Err(fault);
    }
    let ids = [13, 0, 0, 0, 0, 0, 0, 0, 0, 21];
    judged(Ok(()), are_written(alloc, &norms, &ids)?)?;
    Ok(format!(in alloc; " {} ids", ids.len())?)
}

// The size of the table after one body.
const TABLE_SIZE: usize = 24;

// Returns whether the file of the norms has one body, of these bytes.
fn are_written(alloc: Global, norms: &FieldNormsWriter, ids: &[u8]) -> Result<bool, Fault>
    requires { length (norm_bodies norms.now) < 2 ^ 31 }
{
    let writer = CountingWriter::wrap(Vec::new(alloc));
    let (writer, written) = norms.serialize(FieldNormsSerializer::from_write(alloc, writer));
    written?;
    let bytes = writer.finish();
    Ok(bytes.starts_with(ids) && bytes.len() == ids.len().saturating_add(TABLE_SIZE))
}
