ghost use Rattle.std.specs.Prelude.{◌≡◌, ◌+◌, ◌++◌, [], ◌∷◌, is_some, reverse, true, false, IfSome, IsNone, OnErr, OnOk};
ghost use Rattle.ii_io.specs.Faults.{OnlyMemory};
ghost use Rattle.ii_base.specs.Json.{json_of};
ghost use Rattle.ii_base.specs.Paths.{PathState, has_zero, joined_segments};
ghost use Rattle.ii_json.specs.Branches.{branch_leaves, branch_nodes, key_bytes, key_has_zero, nodes, part_leaves, path_at, path_outside};
ghost use Rattle.ii_json.specs.LeafVisit.{is_no_branch, leaves_at};

use crate::leaf_sink::push_key;
use ii_base::{Fault, JsonPathWriter, JsonValue};

// The parts of an array or object that are to be visited.
#[derive(Clone, Copy)]
pub(crate) enum Branch<'a> {
    // The elements of an array.
    Items(&'a [JsonValue]),
    // The members of an object.
    Members(&'a [(String, JsonValue)]),
}

// An element of an array, or a member of an object with its key.
#[derive(Clone, Copy)]
pub(crate) struct Part<'a> {
    pub key: Option<&'a str>,
    pub value: &'a JsonValue,
}

// A branch that is continued when the visit of one of its parts ends, and whether the path has a segment
// for that part.
#[derive(Clone, Copy)]
pub(crate) struct OuterBranch<'a> {
    pub branch: Branch<'a>,
    pub has_key: bool,
}

impl<'a> Branch<'a> {
    // Returns all parts of an array or object, or `None` for another value.
    pub fn of(value: &'a JsonValue) -> Option<Branch<'a>>
        ensures leaves { IfSome result (λ b. (at : PathState) → branch_leaves at b ≡ leaves_at at value.now) }
        ensures nodes { IfSome result (λ b. 2 + branch_nodes b ≡ nodes (json_of value.now)) }
        ensures none { IsNone result → is_no_branch (json_of value.now) ≡ true }
    {
        match value {
            JsonValue::Array(items) => Some(Branch::Items(items.as_slice())),
            JsonValue::Object(members) => Some(Branch::Members(members.as_slice())),
            _ => None,
        }
    }

    // Returns the first part and those after it, if there is one.
    pub fn split_first(self) -> Option<(Part<'a>, Branch<'a>)>
        ensures leaves { IfSome result (λ p. (at : PathState) → branch_leaves at self.entry ≡ part_leaves at p.0 ++ branch_leaves at p.1) }
        ensures nodes { IfSome result (λ p. branch_nodes self.entry ≡ nodes (json_of p.0.value.now) + branch_nodes p.1) }
        ensures none { IsNone result → (at : PathState) → branch_leaves at self.entry ≡ [] }
    {
        match self {
            Branch::Items(items) => {
                let (value, rest) = items.split_first()?;
                Some((Part { key: None, value }, Branch::Items(rest)))
            }
            Branch::Members(members) => {
                let (member, rest) = members.split_first()?;
                let part = Part {
                    key: Some(member.0.as_str()),
                    value: &member.1,
                };
                Some((part, Branch::Members(rest)))
            }
        }
    }
}

impl<'a> Part<'a> {
    // Returns whether its key holds byte 0.
    pub fn has_zero(self) -> bool
        ensures { result ≡ key_has_zero (key_bytes self.entry) }
    {
        match self.key {
            Some(key) => key.as_bytes().contains(&0),
            None => false,
        }
    }
}

// Opens a branch that is continued after one of its parts, and appends the key of the part to the path.
pub(crate) fn open_branch<'a>(
    outer: &mut Vec<OuterBranch<'a>>,
    branch: Branch<'a>,
    part: Part<'a>,
    writer: &mut JsonPathWriter,
) -> Result<(), Fault>
    requires path { has_zero (joined_segments writer.old.segments) ≡ false }
    requires key { key_has_zero (key_bytes part) ≡ false }
    ensures outer { OnOk result (outer.new.items ≡ outer.old.items ++ record { branch = branch.entry; has_key = is_some (key_bytes part.entry) } ∷ []) }
    ensures path { OnOk result (has_zero (joined_segments writer.new.segments) ≡ false) }
    ensures ok { OnOk result (writer.new ≡ path_at writer.old (key_bytes part.entry)) }
    ensures err { OnErr result ((outer.new.items ≡ outer.old.items) × (writer.new ≡ writer.old)) }
    ensures only { OnlyMemory result }
{
    let Some(key) = part.key else {
        outer.push(OuterBranch {
            branch,
            has_key: false,
        })?;
        return Ok(());
    };
    push_key(writer, key)?;
    if let Err(refused) = outer.push(OuterBranch {
        branch,
        has_key: true,
    }) {
        writer.pop();
        return Err(refused.into());
    }
    Ok(())
}

// Removes the segments of the parts in which the visit ended from the path.
pub(crate) fn leave_all(outer: Vec<OuterBranch<'_>>, writer: &mut JsonPathWriter)
    ensures { writer.new ≡ path_outside writer.old (reverse outer.entry.items) }
{
    let mut outer = outer;
    while let Some(open) = outer.pop() {
        if open.has_key {
            writer.pop();
        }
    }
}
