ghost use Rattle.std.specs.Prelude.{◌≡◌, ◌<◌, ◌+◌, ◌*◌, ◌++◌, ◌∷◌, [], sum, length, ◌≤◌, map, None, IfSome};
ghost use Rattle.std.specs.Vec.{vec_len, vec_capacity};
ghost use Rattle.ii_base.specs.JsonWeight.{HasRoom, children_weight, held_weights, member_weights, weight};
ghost use Rattle.ii_base.specs.Values.{whole_seconds};

use crate::datetime::DateTime;
use crate::fast_value::FastValue;
use crate::schema::value_type::ValueType;
use ii_io::LeafKind;
use std::mem;

/// A JSON value, or another value that a document may hold within JSON.
pub enum JsonValue {
    /// No value.
    Null,
    /// A text.
    Str(String),
    /// An unsigned number.
    U64(u64),
    /// A signed number.
    I64(i64),
    /// A boolean.
    Bool(bool),
    /// A date, in nanoseconds since 1970-01-01 UTC.
    Date(i64),
    /// The bits of an `f64`.
    F64Bits(u64),
    /// A pre-tokenized text.
    PreTok,
    /// Bytes.
    Bytes,
    /// A facet.
    Facet,
    /// An IP address.
    Ip,
    /// Values in order.
    Array(Vec<JsonValue>),
    /// Keys with their values, in order. A key may occur more than once.
    Object(Vec<(String, JsonValue)>),
}

/// What the index takes from a leaf of a JSON value.
#[derive(Drop)]
pub enum JsonLeaf<'a> {
    /// A text to tokenize.
    Text(&'a str),
    /// A value of this type, with the number that encodes it.
    Value(ValueType, u64),
    /// A value that the index doesn't support.
    Unsupported(LeafKind),
}

impl JsonValue {
    ghost use Rattle.std.specs.Prelude.{option_map};
    ghost use Rattle.ii_base.specs.Json.{json_of, leaf_at, leaf_of};

    /// Returns the leaf, or `None` for null, an array or an object. An unsigned number that fits `i64`
    /// becomes a signed one. A date is truncated to whole seconds, toward zero.
    pub fn leaf(&self) -> Option<JsonLeaf<'_>>
        ensures { option_map leaf_of result ≡ leaf_at (json_of self.now) }
    {
        match self {
            JsonValue::Null | JsonValue::Array(_) | JsonValue::Object(_) => None,
            JsonValue::Str(text) => Some(JsonLeaf::Text(text.as_str())),
            JsonValue::U64(number) => Some(JsonLeaf::of_u64(*number)),
            JsonValue::I64(number) => Some(JsonLeaf::of_value(*number)),
            JsonValue::Bool(truth) => Some(JsonLeaf::of_value(*truth)),
            JsonValue::Date(nanoseconds) => Some(JsonLeaf::of_value(DateTime(in_seconds(
                *nanoseconds,
            )))),
            JsonValue::F64Bits(_) => Some(JsonLeaf::Unsupported(LeafKind::Float)),
            JsonValue::PreTok => Some(JsonLeaf::Unsupported(LeafKind::PreTok)),
            JsonValue::Bytes => Some(JsonLeaf::Unsupported(LeafKind::Bytes)),
            JsonValue::Facet => Some(JsonLeaf::Unsupported(LeafKind::Facet)),
            JsonValue::Ip => Some(JsonLeaf::Unsupported(LeafKind::Ip)),
        }
    }
}

// A loop that takes no memory, so that a deep value takes no more of the stack than a flat one.
impl Drop for JsonValue {
    fn drop(self) {
        let mut rest = self.reduced();
        while let Some(value) = rest {
            rest = value.reduced();
        }
    }
}

impl JsonValue {
    // Lets go of a part, and returns the rest, which weighs less. A last child that has only leaves is let
    // go. Any other last child and its parent change places: the parent becomes the child's first child,
    // and gets the child's last child in exchange.
    fn reduced(self) -> Option<JsonValue>
        ensures { IfSome result (λ rest. weight rest < weight self) }
    {
        let (parent, child) = self.opened()?;
        let Some(parent) = parent.if_not_empty() else {
            return Some(child);
        };
        match child.opened() {
            None => Some(parent.closed()),
            Some((branch, grandchild)) => {
                Some(branch.closed_below(parent.closed_with(grandchild)))
            }
        }
    }

    // Takes out the last child that isn't a leaf, and lets go of those after it. A value without such a
    // child is let go.
    fn opened(self) -> Option<(OpenBranch, JsonValue)>
        ensures taken { IfSome result (λ r. 1 + children_weight (held_weights r.0 ++ weight r.1 ∷ []) ≤ weight self) }
        ensures room { IfSome result (λ r. HasRoom r.0) }
        ensures positive { 0 < weight self }
    {
        match self {
            JsonValue::Null
            | JsonValue::Str(_)
            | JsonValue::U64(_)
            | JsonValue::I64(_)
            | JsonValue::Bool(_)
            | JsonValue::Date(_)
            | JsonValue::F64Bits(_)
            | JsonValue::PreTok
            | JsonValue::Bytes
            | JsonValue::Facet
            | JsonValue::Ip => None,
            JsonValue::Array(mut items) => {
                let Some(child) = last_branch(&mut items) else {
                    items.destroy_empty();
                    return None;
                };
                Some((OpenBranch::Array(items), child))
            }
            JsonValue::Object(mut members) => {
                let Some((key, child)) = last_branch_member(&mut members) else {
                    members.destroy_empty();
                    return None;
                };
                Some((OpenBranch::Object(members, key), child))
            }
        }
    }

    // Returns an array or an object. A leaf is let go.
    fn branch(self) -> Option<JsonValue>
        ensures { IfSome result (λ branch. branch ≡ self) }
    {
        match self {
            JsonValue::Null
            | JsonValue::Str(_)
            | JsonValue::U64(_)
            | JsonValue::I64(_)
            | JsonValue::Bool(_)
            | JsonValue::Date(_)
            | JsonValue::F64Bits(_)
            | JsonValue::PreTok
            | JsonValue::Bytes
            | JsonValue::Facet
            | JsonValue::Ip => None,
            JsonValue::Array(items) => Some(JsonValue::Array(items)),
            JsonValue::Object(members) => Some(JsonValue::Object(members)),
        }
    }
}

// Takes out the last element that isn't a leaf, and lets go of those after it.
fn last_branch(items: &mut Vec<JsonValue>) -> Option<JsonValue>
    ensures taken { IfSome result (λ child. children_weight (map weight items.new.items ++ weight child ∷ []) ≤ children_weight (map weight items.old.items)) }
    ensures room { IfSome result (λ _. vec_len items.new < vec_capacity items.new) }
    ensures none { result ≡ None → vec_len items.new ≡ 0 }
{
    while let Some(child) = items.pop() {
        if let Some(branch) = child.branch() {
            return Some(branch);
        }
    }
    None
}

// Takes out the last member that isn't a leaf, and lets go of those after it.
fn last_branch_member(members: &mut Vec<(String, JsonValue)>) -> Option<(String, JsonValue)>
    ensures taken { IfSome result (λ member. children_weight (member_weights members.new.items ++ weight member.1 ∷ []) ≤ children_weight (member_weights members.old.items)) }
    ensures room { IfSome result (λ _. vec_len members.new < vec_capacity members.new) }
    ensures none { result ≡ None → vec_len members.new ≡ 0 }
{
    while let Some((key, child)) = members.pop() {
        if let Some(branch) = child.branch() {
            return Some((key, branch));
        }
    }
    None
}

// An array or an object without the child that was its last, with room for one child.
enum OpenBranch {
    // The other elements.
    Array(Vec<JsonValue>),
    // The other members, and the key of the one that was the last.
    Object(Vec<(String, JsonValue)>, String),
}

impl OpenBranch {
    // Returns the branch if it has other children. Otherwise it is let go.
    fn if_not_empty(self) -> Option<OpenBranch>
        ensures same { IfSome result (λ branch. branch ≡ self) }
        ensures not_empty { IfSome result (λ branch. 0 < length (held_weights branch)) }
    {
        match self {
            OpenBranch::Array(items) => {
                if items.is_empty() {
                    items.destroy_empty();
                    return None;
                }
                Some(OpenBranch::Array(items))
            }
            OpenBranch::Object(members, key) => {
                if members.is_empty() {
                    members.destroy_empty();
                    return None;
                }
                Some(OpenBranch::Object(members, key))
            }
        }
    }

    // Closes the branch over its other children.
    fn closed(self) -> JsonValue
        ensures { weight result ≡ 1 + children_weight (held_weights self) }
    {
        match self {
            OpenBranch::Array(items) => JsonValue::Array(items),
            OpenBranch::Object(members, _) => JsonValue::Object(members),
        }
    }

    // Closes the branch with a last child.
    fn closed_with(self, child: JsonValue) -> JsonValue
        requires { HasRoom self }
        ensures { weight result ≡ 1 + children_weight (held_weights self ++ weight child ∷ []) }
    {
        match self {
            OpenBranch::Array(mut items) => {
                items.push_reserved(child);
                JsonValue::Array(items)
            }
            OpenBranch::Object(mut members, key) => {
                members.push_reserved((key, child));
                JsonValue::Object(members)
            }
        }
    }

    // Closes the branch with its former parent as the first child, and its first child as the last.
    fn closed_below(self, parent: JsonValue) -> JsonValue
        requires { HasRoom self }
        ensures { weight result ≡ 1 + weight parent + 2 * sum (held_weights self) }
    {
        let mut last = parent;
        match self {
            OpenBranch::Array(mut items) => {
                if let Some(first) = items.first_mut() {
                    mem::swap(first, &mut last);
                }
                items.push_reserved(last);
                JsonValue::Array(items)
            }
            OpenBranch::Object(mut members, key) => {
                if let Some(first) = members.first_mut() {
                    mem::swap(&mut first.1, &mut last);
                }
                members.push_reserved((key, last));
                JsonValue::Object(members)
            }
        }
    }
}

impl<'a> JsonLeaf<'a> {
    ghost use Rattle.ii_base.specs.Json.{leaf_of, value_leaf as the_value_leaf, u64_leaf};

    // Returns the leaf of a value.
    fn of_value<T: FastValue>(val: T) -> JsonLeaf<'a>
        ensures { leaf_of result ≡ the_value_leaf T.type_of_values (T.number val) }
    {
        JsonLeaf::Value(T::to_type(), val.to_u64())
    }

    // Returns the leaf of an unsigned number.
    fn of_u64(number: u64) -> JsonLeaf<'a>
        ensures { leaf_of result ≡ u64_leaf number }
    {
        if number < 1 << 63 {
            return JsonLeaf::of_value(number as i64);
        }
        JsonLeaf::of_value(number)
    }
}

// Truncates nanoseconds to whole seconds, toward zero.
fn in_seconds(nanoseconds: i64) -> i64
    ensures { result ≡ whole_seconds nanoseconds }
{
    nanoseconds - nanoseconds % 1_000_000_000
}
