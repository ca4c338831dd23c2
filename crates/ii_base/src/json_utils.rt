ghost use Rattle.std.specs.Prelude.{◌≡◌, ◌∷◌, ◌++◌, map, string_bytes, IfOk, OnOk};
ghost use Rattle.ii_io.specs.Faults.{OnlyMemory};
ghost use Rattle.ii_base.specs.Paths.{joined_segments, segment_bytes, segments_of};

use crate::json_path_writer::JsonPathWriter;
use ii_io::Fault;
use std::alloc::Global;
use std::mem;

/// Splits the text of a path into segments, at dots. A backslash escapes the next character; at the end of
/// the text it is ignored. Returns `OutOfMemory` if allocation fails.
pub fn split_json_path(alloc: Global, path: &str) -> Result<Vec<String>, Fault>
    ensures ok { IfOk result (λ segments. map string_bytes segments.items ≡ segments_of path.now) }
    ensures only { OnlyMemory result }
{
    let mut segments = Vec::new(alloc);
    let mut segment = String::new(alloc);
    let mut chars = path.chars();
    while let Some(c) = chars.next() {
        if c == '.' {
            segments.push(mem::replace(&mut segment, String::new(alloc)))?;
            continue;
        }
        if c != '\\' {
            segment.push(c)?;
            continue;
        }
        let Some(kept) = chars.next() else {
            break;
        };
        segment.push(kept)?;
    }
    segments.push(segment)?;
    Ok(segments)
}

// Appends the segments in the text of a path.
pub(crate) fn push_path(alloc: Global, writer: &mut JsonPathWriter, path: &str) -> Result<(), Fault>
    ensures ok { OnOk result (writer.new ≡ record writer.old { segments = writer.old.segments ++ map (segment_bytes writer.old.expand_dots) (segments_of path.now) }) }
    ensures only { OnlyMemory result }
{
    let segments = split_json_path(alloc, path)?;
    for segment in &segments {
        writer.push(segment.as_str())?;
    }
    Ok(())
}

/// Returns the column name of a path in a JSON field: the field's name and the segments, separated by byte
/// 1. If `expand_dots`, each dot in a segment becomes byte 1. Returns `OutOfMemory` if allocation fails.
pub fn encode_column_name(
    alloc: Global,
    field_name: &str,
    json_path: &str,
    expand_dots: bool,
) -> Result<String, Fault>
    ensures ok { IfOk result (λ name. string_bytes name ≡ joined_segments (field_name.now ∷ map (segment_bytes expand_dots) (segments_of json_path.now))) }
    ensures only { OnlyMemory result }
{
    let mut writer = JsonPathWriter::new(alloc);
    writer.push(field_name)?;
    writer.set_expand_dots(expand_dots);
    push_path(alloc, &mut writer, json_path)?;
    Ok(writer.into_string())
}
