ghost use Rattle.std.specs.Prelude.{◌≡◌, ◌++◌, ◌∷◌, [], List, ℕ, reverse, true, false, Option, OnErr, OnOk};
ghost use Rattle.ii_io.specs.Faults.{OnlyMemory};
ghost use Rattle.ii_io.specs.declared.faults.Fault.{Fault};
ghost use Rattle.ii_base.specs.Json.{json_of, Leaf, leaf_of};
ghost use Rattle.ii_base.specs.Paths.{has_zero, joined_segments, segment_bytes};
ghost use Rattle.ii_json.specs.Branches.{branch_leaves, key_bytes, key_has_zero, part_leaves, path_outside};
ghost use Rattle.ii_json.specs.LeafVisit.{IsRefusedBy, is_no_branch, may_be_leaf, leaves_at, leaves_fault};

use crate::branch::{Branch, OuterBranch, Part, leave_all, open_branch};
use ii_base::{Fault, JsonLeaf, JsonPathWriter, JsonValue};
use std::alloc::Global;

/// Receives the leaves of a JSON value, one after the other.
pub trait LeafSink {
    // The other values that its clauses mention.
    ghost Given: { Type 0 };

    // The part of its state that doesn't change.
    ghost Constant: { Type 0 };

    ghost constant: { Self → Constant };

    // The state in which it can take a leaf.
    ghost ready: { Self → Type 0 };

    // What it holds after it took these leaves.
    ghost holds: { Self → Given → List (List ℕ × Leaf) → Type 0 };

    // The fault, other than `OutOfMemory`, for a leaf after these.
    ghost fault: { Constant → Given → List (List ℕ × Leaf) → List ℕ × Leaf → Option Fault };

    /// Takes a leaf at a path, whose segments are separated by byte 1 and which holds no byte 0. A value
    /// must be a 64-bit number.
    ///
    /// Returns the fault of the sink for this leaf, if there is one, or `OutOfMemory`.
    fn take_leaf(&mut self, path: &str, leaf: JsonLeaf<'_>) -> Result<(), Fault>
        requires path { has_zero path.now ≡ false }
        requires value { may_be_leaf (leaf_of leaf) ≡ true }
        requires ready { ready self.old }
        ensures refused { (given : Given) (before : List (List ℕ × Leaf)) → holds self.old given before → IsRefusedBy (fault (constant self.old) given before (path.now, leaf_of leaf.entry)) result }
        ensures ready { OnOk result (ready self.new) }
        ensures constant { OnOk result (constant self.new ≡ constant self.old) }
        ensures ok { OnOk result ((given : Given) (before : List (List ℕ × Leaf)) → holds self.old given before → holds self.new given (before ++ (path.now, leaf_of leaf.entry) ∷ [])) };
}

/// Passes the leaves of a JSON value of any depth to a sink in order, each with its path below the path of
/// `writer`, which must not hold byte 0. Skips members whose key holds byte 0. The writer ends as it was,
/// even after an error.
///
/// Returns the first fault of the sink for a leaf, or `OutOfMemory`. It allocates a list of the arrays and
/// objects that it is in, so the stack doesn't depend on the depth.
pub fn visit_leaves<S: LeafSink>(
    alloc: Global,
    value: &JsonValue,
    writer: &mut JsonPathWriter,
    sink: &mut S,
) -> Result<(), Fault>
    requires path { has_zero (joined_segments writer.old.segments) ≡ false }
    requires ready { S.ready sink.old }
    ensures leaves { OnOk result ((given : S.Given) (before : List (List ℕ × Leaf)) → S.holds sink.old given before → S.holds sink.new given (before ++ leaves_at writer.old value.now)) }
    ensures refused { (given : S.Given) (before : List (List ℕ × Leaf)) → S.holds sink.old given before → IsRefusedBy (leaves_fault (S.fault (S.constant sink.old) given) before (leaves_at writer.old value.now)) result }
    ensures ready { OnOk result (S.ready sink.new) }
    ensures constant { OnOk result (S.constant sink.new ≡ S.constant sink.old) }
    ensures writer { writer.new ≡ writer.old }
{
    let Some(branch) = Branch::of(value) else {
        return visit_leaf(value, writer, sink);
    };
    let mut outer = Vec::new(alloc);
    let visited = visit_branch(branch, &mut outer, writer, sink);
    leave_all(outer, writer);
    visited
}

// Visits the leaves of a branch. After an error, `outer` has the branches in which it ended.
fn visit_branch<'a, S: LeafSink>(
    branch: Branch<'a>,
    outer: &mut Vec<OuterBranch<'a>>,
    writer: &mut JsonPathWriter,
    sink: &mut S,
) -> Result<(), Fault>
    requires none_open { outer.old.items ≡ [] }
    requires path { has_zero (joined_segments writer.old.segments) ≡ false }
    requires ready { S.ready sink.old }
    ensures leaves { OnOk result ((given : S.Given) (before : List (List ℕ × Leaf)) → S.holds sink.old given before → S.holds sink.new given (before ++ branch_leaves writer.old branch.entry)) }
    ensures refused { (given : S.Given) (before : List (List ℕ × Leaf)) → S.holds sink.old given before → IsRefusedBy (leaves_fault (S.fault (S.constant sink.old) given) before (branch_leaves writer.old branch.entry)) result }
    ensures ready { OnOk result (S.ready sink.new) }
    ensures constant { OnOk result (S.constant sink.new ≡ S.constant sink.old) }
    ensures writer { path_outside writer.new (reverse outer.new.items) ≡ writer.old }
{
    let mut current = branch;
    loop {
        let Some((part, rest)) = current.split_first() else {
            let Some(open) = outer.pop() else {
                return Ok(());
            };
            if open.has_key {
                writer.pop();
            }
            current = open.branch;
            continue;
        };
        current = rest;
        if part.has_zero() {
            continue;
        }
        let Some(inner) = Branch::of(part.value) else {
            visit_part(part, writer, sink)?;
            continue;
        };
        open_branch(outer, rest, part, writer)?;
        current = inner;
    }
}

// Passes a part that is a leaf to the sink.
fn visit_part<S: LeafSink>(
    part: Part<'_>,
    writer: &mut JsonPathWriter,
    sink: &mut S,
) -> Result<(), Fault>
    requires leaf { is_no_branch (json_of part.value.now) ≡ true }
    requires key { key_has_zero (key_bytes part) ≡ false }
    requires path { has_zero (joined_segments writer.old.segments) ≡ false }
    requires ready { S.ready sink.old }
    ensures leaves { OnOk result ((given : S.Given) (before : List (List ℕ × Leaf)) → S.holds sink.old given before → S.holds sink.new given (before ++ part_leaves writer.old part.entry)) }
    ensures refused { (given : S.Given) (before : List (List ℕ × Leaf)) → S.holds sink.old given before → IsRefusedBy (leaves_fault (S.fault (S.constant sink.old) given) before (part_leaves writer.old part.entry)) result }
    ensures ready { OnOk result (S.ready sink.new) }
    ensures constant { OnOk result (S.constant sink.new ≡ S.constant sink.old) }
    ensures writer { writer.new ≡ writer.old }
{
    let Some(key) = part.key else {
        return visit_leaf(part.value, writer, sink);
    };
    push_key(writer, key)?;
    let visited = visit_leaf(part.value, writer, sink);
    writer.pop();
    visited
}

// Appends a key without byte 0 to a path without byte 0.
#[tactic(auto, using(crate::proofs::CleanPaths::clean_key))]
pub(crate) fn push_key(writer: &mut JsonPathWriter, key: &str) -> Result<(), Fault>
    requires path { has_zero (joined_segments writer.old.segments) ≡ false }
    requires key { has_zero key.now ≡ false }
    ensures path { OnOk result (has_zero (joined_segments writer.new.segments) ≡ false) }
    ensures ok { OnOk result (writer.new ≡ record writer.old { segments = writer.old.segments ++ segment_bytes writer.old.expand_dots key.now ∷ [] }) }
    ensures err { OnErr result (writer.new ≡ writer.old) }
    ensures only { OnlyMemory result }
{
    writer.push(key)
}

// Passes a value that is a leaf to the sink.
fn visit_leaf<S: LeafSink>(
    value: &JsonValue,
    writer: &JsonPathWriter,
    sink: &mut S,
) -> Result<(), Fault>
    requires leaf { is_no_branch (json_of value.now) ≡ true }
    requires path { has_zero (joined_segments writer.now.segments) ≡ false }
    requires ready { S.ready sink.old }
    ensures leaves { OnOk result ((given : S.Given) (before : List (List ℕ × Leaf)) → S.holds sink.old given before → S.holds sink.new given (before ++ leaves_at writer.now value.now)) }
    ensures refused { (given : S.Given) (before : List (List ℕ × Leaf)) → S.holds sink.old given before → IsRefusedBy (leaves_fault (S.fault (S.constant sink.old) given) before (leaves_at writer.now value.now)) result }
    ensures ready { OnOk result (S.ready sink.new) }
    ensures constant { OnOk result (S.constant sink.new ≡ S.constant sink.old) }
{
    let Some(leaf) = value.leaf() else {
        return Ok(());
    };
    sink.take_leaf(writer.as_str(), leaf)
}
