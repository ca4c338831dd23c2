ghost use Rattle.std.specs.Prelude.{◌≡◌, ◌∷◌, ◌++◌, ◌-◌, [], false, length, take, string_bytes, string_len, OnErr, OnOk};
ghost use Rattle.ii_io.specs.Faults.{OnlyMemory};
ghost use Rattle.ii_base.specs.Paths.{behind_separator, joined_segments, segment_bytes};

use ii_io::Fault;
use std::alloc::Global;
use std::marker::Model;

/// Writes a path into a JSON value: its segments, separated by byte 1.
#[derive(Drop)]
pub struct JsonPathWriter {
    path: String,
    starts: Vec<usize>,
    expand_dots: bool,
}

impl Model for JsonPathWriter {
    ghost use Rattle.std.specs.Prelude.{string_bytes};
    ghost use Rattle.ii_base.specs.Paths.{PathState, IsPathOf, cut_at};

    ghost Value = { PathState };

    ghost view = { λ w. record { segments = cut_at (string_bytes w.path) w.starts.items; expand_dots = w.expand_dots } };

    ghost invariant = { λ w. IsPathOf (cut_at (string_bytes w.path) w.starts.items) (string_bytes w.path) w.starts.items };
}

impl JsonPathWriter {
    /// Creates the empty path. Dots aren't expanded.
    pub fn new(alloc: Global) -> JsonPathWriter
        ensures { result ≡ record { segments = []; expand_dots = false } }
    {
        JsonPathWriter {
            path: String::new(alloc),
            starts: Vec::new(alloc),
            expand_dots: false,
        }
    }

    /// Sets whether each dot in a segment pushed from now on becomes byte 1.
    pub fn set_expand_dots(&mut self, expand_dots: bool)
        ensures { self.new ≡ record self.old { expand_dots = expand_dots } }
    {
        self.expand_dots = expand_dots;
    }

    /// Appends a segment; each dot in it becomes byte 1 if dots are expanded. Returns `OutOfMemory`, and
    /// leaves the path as it is, if allocation fails.
    pub fn push(&mut self, segment: &str) -> Result<(), Fault>
        ensures ok { OnOk result (self.new ≡ record self.old { segments = self.old.segments ++ segment_bytes self.old.expand_dots segment.now ∷ [] }) }
        ensures err { OnErr result (self.new ≡ self.old) }
        ensures only { OnlyMemory result }
    {
        let len = self.path.len();
        let is_first = self.starts.is_empty();
        self.starts.push(len + usize::from(!is_first))?;
        if let Err(refused) = append(&mut self.path, is_first, self.expand_dots, segment) {
            self.path.truncate(len);
            self.starts.pop();
            return Err(refused);
        }
        Ok(())
    }

    /// Removes the last segment, if there is one.
    pub fn pop(&mut self)
        ensures { self.new ≡ record self.old { segments = take (length self.old.segments - 1) self.old.segments } }
    {
        if let Some(start) = self.starts.pop() {
            self.path.truncate(start.saturating_sub(1));
        }
    }

    /// Removes all segments.
    pub fn clear(&mut self)
        ensures { self.new ≡ record self.old { segments = [] } }
    {
        self.path.clear();
        self.starts.clear();
    }

    /// Returns the path.
    pub fn as_str(&self) -> &str
        ensures { result.now ≡ joined_segments self.now.segments }
    {
        self.path.as_str()
    }

    /// Returns the path by value, without an allocation.
    pub fn into_string(self) -> String
        ensures { string_bytes result ≡ joined_segments self.segments }
    {
        self.path
    }
}

// Appends a segment, after byte 1 unless it is the first. An error leaves the old bytes as a prefix.
fn append(path: &mut String, is_first: bool, expand_dots: bool, segment: &str) -> Result<(), Fault>
    ensures ok { OnOk result (string_bytes path.new ≡ string_bytes path.old ++ behind_separator is_first (segment_bytes expand_dots segment.now)) }
    ensures err { OnErr result (take (string_len path.old) (string_bytes path.new) ≡ string_bytes path.old) }
    ensures only { OnlyMemory result }
{
    if is_first {
        return append_segment(path, expand_dots, segment);
    }
    path.push('\u{1}')?;
    append_segment(path, expand_dots, segment)
}

// Appends the encoded bytes of a segment. An error leaves the old bytes as a prefix.
fn append_segment(path: &mut String, expand_dots: bool, segment: &str) -> Result<(), Fault>
    ensures ok { OnOk result (string_bytes path.new ≡ string_bytes path.old ++ segment_bytes expand_dots segment.now) }
    ensures err { OnErr result (take (string_len path.old) (string_bytes path.new) ≡ string_bytes path.old) }
    ensures only { OnlyMemory result }
{
    if !expand_dots {
        path.push_str(segment)?;
        return Ok(());
    }
    for c in segment.chars() {
        if c == '.' {
            path.push('\u{1}')?;
            continue;
        }
        path.push(c)?;
    }
    Ok(())
}
