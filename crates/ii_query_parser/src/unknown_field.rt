ghost use Rattle.std.specs.Prelude.{◌≡◌, Some, map};
ghost use Rattle.std.specs.Option.{option_copied};
ghost use Rattle.ii_query_grammar.specs.Trees.{ast_of, asts_from, literal_of};
ghost use Rattle.ii_query_parser.specs.QueryTexts.{field_named, names_field, unknown_among, unknown_in, unknown_name};

use crate::literal::{cut_at_dot, field_named, has_json};
use ii_base::Schema;
use ii_query_grammar::{UserInputAst, UserInputLiteral};

/// Returns the first name in a tree that `FieldDoesNotExist` is about: it names no field of the schema, and
/// no JSON field with a path after a dot.
#[cycle(unknown_field_name)]
pub fn unknown_field_name<'a>(schema: &Schema, ast: &'a UserInputAst) -> Option<&'a str>
    ensures { option_copied result ≡ unknown_in schema.now (ast_of ast.now) }
{
    match ast {
        UserInputAst::All => None,
        UserInputAst::Leaf(literal) => unknown_name(schema, literal),
        UserInputAst::Range(range) => unless_named(schema, range.field_name.as_str()),
        UserInputAst::Set(set) => unless_named(schema, set.field_name.as_str()),
        UserInputAst::And(parts) => unknown_among(schema, parts),
        UserInputAst::Or(parts) => unknown_among(schema, parts),
        UserInputAst::AndNot(first, other) => match unknown_field_name(schema, first) {
            Some(name) => Some(name),
            None => unknown_field_name(schema, other),
        },
    }
}

// The first such name in parts.
#[cycle(unknown_field_name)]
fn unknown_among<'a>(schema: &Schema, parts: &'a Vec<UserInputAst>) -> Option<&'a str>
    ensures { option_copied result ≡ unknown_among schema.now (asts_from (map ast_of parts.now.items)) }
{
    for part in parts {
        if let Some(name) = unknown_field_name(schema, part) {
            return Some(name);
        }
    }
    None
}

// The name of a word or a phrase, if it has one and this is such a name.
fn unknown_name<'a>(schema: &Schema, literal: &'a UserInputLiteral) -> Option<&'a str>
    ensures { option_copied result ≡ unknown_name schema.now (literal_of literal.now).field_name }
{
    match &literal.field_name {
        None => None,
        Some(name) => unless_named(schema, name.as_str()),
    }
}

// A name, unless it is that of a field, or of one of JSON values and a path after a dot.
fn unless_named<'a>(schema: &Schema, name: &'a str) -> Option<&'a str>
    ensures { option_copied result ≡ unknown_name schema.now (Some name.now) }
{
    if names_field(schema, name) {
        return None;
    }
    Some(name)
}

/// Returns whether a name is that of a field, or of one of JSON values and a path after a dot.
pub(crate) fn names_field(schema: &Schema, name: &str) -> bool
    ensures { result ≡ names_field schema.now name.now (field_named schema.now name.now) }
{
    if field_named(schema, name).is_some() {
        return true;
    }
    let Some((name, _path)) = cut_at_dot(name) else {
        return false;
    };
    match field_named(schema, name) {
        Some(field) => has_json(schema, field),
        None => false,
    }
}
