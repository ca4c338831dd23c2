ghost use Rattle.std.specs.Prelude.{◌≡◌, ◌∷◌, ℕ, IfOk, List, Option, map, string_bytes};
ghost use Rattle.std.specs.Option.{option_copied, option_map};
ghost use Rattle.ii_query_grammar.specs.Lexemes.{bound_seen, literal_seen, range_seen, set_seen, token_seen, unescaped};
ghost use Rattle.ii_query_grammar.specs.Parsed.{GoesOn, GroupState, IsReadAs, IsSetTree, OnlyMemoryRefuses, empty, group_of, parsed, put, read_closing, read_end, read_one, read_opening, read_sign, stack_of, whole_of};
ghost use Rattle.ii_query_grammar.specs.Trees.{ast_of, bound_of, in_set, leaf, ranged};

use crate::escapes::unescape;
use crate::group::Group;
use crate::lexeme::{BoundView, Lexeme, LiteralView, RangeView, SetView, Token};
use crate::lexer::Lexer;
use crate::parse_error::{Expected, ParseError};
use crate::sets::values_of;
use crate::user_input_ast::{
    UserInputAst, UserInputBound, UserInputLiteral, UserInputRange, UserInputSet,
};
use std::alloc::Global;

/// The maximum number of open parentheses. Nothing else bounds a query: a chain or a row of any number of
/// words is one list. So the depth of a tree, and of each recursion over it, depends on the parentheses
/// alone.
pub const MAX_NESTING: usize = 128;

// The message of `Expected::LessNesting` mentions this number.
const _: () = prove!(MAX_NESTING == 128);

/// Parses a query:
///
/// - A word is a run of characters without spaces, double quotes, parentheses and colons. A phrase is a text
///   between double quotes; a `~` and the digits of its slop may follow, a number up to 4294967295, or a `*`, which makes
///   its last word a prefix. A prefix is a word and a `*` after it. Either `*` is before a space, a closing parenthesis or
///   the end. A field name, also a word, and a colon may come before each of them.
/// - A range is a field name, a colon, a `[` or `{`, a bound, the word `TO`, a bound, and a `]` or `}`, with any
///   spaces within the brackets. `[` and `]` say that the bound belongs to the range, `{` and `}` that it doesn't. A
///   bound is a word, which `]` and `}` end too, a text in quotes, or `*` for none. `name:>a`, `name:>=a`, `name:<a`
///   and `name:<=a`, with a word or a text in quotes, are ranges with one bound, and `name:*` is one with none.
/// - A set is a field name, a colon, the word `IN`, a `[`, values and a `]`, with any spaces after `IN` and within the
///   brackets. A value is a word, which `]` and `}` end too, or a text in quotes. There are at most `MAX_SET_VALUES`
///   of them, or none.
/// - A part is a word, a phrase, a prefix, a range, a set, a query in parentheses, or `*`, before a space, a closing
///   parenthesis or the end. At most `MAX_NESTING` parentheses may be open.
/// - `a AND b` matches what both match, and `a AND -b` what the first matches and the other doesn't.
/// - `a OR b` and `a b` match what at least one of the two matches; AND binds tighter.
/// - `-b` next to other parts excludes `b` from all that they match. At least one part must not be excluded.
/// - `NOT b` is `-b`; to search for the words `AND`, `OR` and `NOT`, write them in quotes.
/// - In a word or a phrase, a backslash makes a space, `"`, `(`, `)`, `:`, `*`, `?`, `~`, `^`, `[`, `]`, `{`,
///   `}`, `-`, `+`, `/`, `<` or `>` after it literal, and is left out. Other backslashes belong to the text.
/// - Any other `*`, any other `[` or `{` in a word, and a `?`, `~` or `^` there, any other `<` or `>` at its start, a `/`
///   there, and a `+` at the start of a part are `Unsupported`.
///
/// # Errors
///
/// `Syntax` with what the grammar expects, or `Unsupported`, at the first wrong byte; `OutOfMemory`.
pub fn parse(alloc: Global, text: &str) -> Result<UserInputAst, ParseError>
    ensures { IsReadAs result (parsed MAX_NESTING text.now) }
{
    let mut lexer = Lexer::new(text);
    let mut opened = Vec::new(alloc);
    let mut group = Group::new(alloc);
    while let Some(token) = lexer.next() {
        group = match read_one(alloc, &mut opened, group, token) {
            Ok(group) => group,
            Err(error) => return Err(error),
        };
    }
    read_end(alloc, &opened, group, text.len())
}

// Reads one more lexeme into the current group and the open ones.
fn read_one(
    alloc: Global,
    opened: &mut Vec<Group>,
    group: Group,
    token: Token<'_>,
) -> Result<Group, ParseError>
    ensures { GoesOn result (stack_of opened.new.items) (λ others. read_one MAX_NESTING others (stack_of opened.old.items) (group_of group) token.entry.at (token_seen token.entry).lexeme) }
{
    let at = token.at;
    match token.lexeme {
        Lexeme::All => group.put(alloc, UserInputAst::All),
        Lexeme::Literal(literal) => put_leaf(alloc, group, literal),
        Lexeme::Range(range) => put_range(alloc, group, range),
        Lexeme::Set(set) => put_set(alloc, group, set),
        Lexeme::Opening => open(alloc, opened, group, at),
        Lexeme::Closing => close(alloc, opened, group, at),
        Lexeme::Minus => after_sign(group.put_minus(alloc), at),
        Lexeme::And => after_sign(Ok(group.put_and()), at),
        Lexeme::Or => after_sign(group.put_or(alloc), at),
        Lexeme::Broken(error) => Err(error),
    }
}

// Adds a word or a phrase to a group. Fails only with `OutOfMemory`.
fn put_leaf(alloc: Global, group: Group, literal: LiteralView<'_>) -> Result<Group, ParseError>
    ensures put { IfOk result (λ g. group_of g ≡ put (group_of group) (leaf (literal_seen literal.entry))) }
    ensures only { OnlyMemoryRefuses result }
{
    let ast = leaf(alloc, literal)?;
    group.put(alloc, ast)
}

// Adds a range to a group. Fails only with `OutOfMemory`.
fn put_range(alloc: Global, group: Group, range: RangeView<'_>) -> Result<Group, ParseError>
    ensures put { IfOk result (λ g. group_of g ≡ put (group_of group) (ranged (range_seen range.entry))) }
    ensures only { OnlyMemoryRefuses result }
{
    let ast = ranged(alloc, range)?;
    group.put(alloc, ast)
}

// Adds a set to a group, or returns the error of its text.
fn put_set(alloc: Global, group: Group, set: SetView<'_>) -> Result<Group, ParseError>
    ensures { (opened : List GroupState) (at : ℕ) → GoesOn result opened (λ others. read_one MAX_NESTING others opened (group_of group) at (set_seen set.entry)) }
{
    match set_tree(alloc, set) {
        Ok(ast) => group.put(alloc, ast),
        Err(error) => Err(error),
    }
}

// Opens a group within the current one, if one more may be open.
fn open(
    alloc: Global,
    opened: &mut Vec<Group>,
    group: Group,
    at: usize,
) -> Result<Group, ParseError>
    ensures { GoesOn result (stack_of opened.new.items) (λ others. read_opening MAX_NESTING others (stack_of opened.old.items) (group_of group) at) }
{
    if opened.len() >= MAX_NESTING {
        return Err(ParseError::Syntax(Expected::LessNesting, at));
    }
    opened.push(group)?;
    Ok(Group::new(alloc))
}

// Closes a group, and returns the group around it.
fn close(
    alloc: Global,
    opened: &mut Vec<Group>,
    group: Group,
    at: usize,
) -> Result<Group, ParseError>
    ensures { GoesOn result (stack_of opened.new.items) (λ others. read_closing others (stack_of opened.old.items) at (whole_of (group_of group))) }
{
    let ast = match group.whole(alloc, at) {
        Ok(ast) => ast,
        Err(error) => return Err(error),
    };
    match opened.pop() {
        Some(outer) => outer.put(alloc, ast),
        None => Err(ParseError::Syntax(Expected::End, at)),
    }
}

// Returns a group after a sign, if the sign is allowed here.
fn after_sign(group: Result<Option<Group>, ParseError>, at: usize) -> Result<Group, ParseError>
    ensures { (opened : List GroupState) (after : Option GroupState) → IfOk group (λ g. option_map group_of g ≡ after) → OnlyMemoryRefuses group
        → GoesOn result opened (λ others. read_sign others opened at after) }
{
    match group {
        Ok(Some(group)) => Ok(group),
        Ok(None) => Err(ParseError::Syntax(Expected::Operand, at)),
        Err(error) => Err(error),
    }
}

// Returns a word or a phrase as a tree. Fails only with `OutOfMemory`.
fn leaf(alloc: Global, literal: LiteralView<'_>) -> Result<UserInputAst, ParseError>
    ensures ok { IfOk result (λ ast. ast_of ast ≡ leaf (literal_seen literal.entry)) }
    ensures only { OnlyMemoryRefuses result }
{
    let field_name = name_of(alloc, literal.field_name)?;
    let phrase = unescape(alloc, literal.phrase)?;
    Ok(UserInputAst::Leaf(UserInputLiteral {
        field_name,
        phrase,
        delimiter: literal.delimiter,
    }))
}

// Returns a range as a tree. Fails only with `OutOfMemory`.
fn ranged(alloc: Global, range: RangeView<'_>) -> Result<UserInputAst, ParseError>
    ensures ok { IfOk result (λ ast. ast_of ast ≡ ranged (range_seen range.entry)) }
    ensures only { OnlyMemoryRefuses result }
{
    let field_name = unescape(alloc, range.field_name)?;
    let lower = bound_of(alloc, range.lower)?;
    let upper = bound_of(alloc, range.upper)?;
    Ok(UserInputAst::Range(UserInputRange {
        field_name,
        lower,
        upper,
    }))
}

// Returns a set as a tree, or the error of its text.
fn set_tree(alloc: Global, set: SetView<'_>) -> Result<UserInputAst, ParseError>
    ensures { IsSetTree (set_seen set.entry) result }
{
    let field_name = unescape(alloc, set.field_name)?;
    match values_of(alloc, set.size, set.text) {
        Ok(values) => Ok(set_with(field_name, values)),
        Err(error) => Err(error),
    }
}

fn set_with(field_name: String, values: Vec<String>) -> UserInputAst
    ensures { ast_of result ≡ in_set (record { field_name = string_bytes field_name; values = map (λ value. string_bytes value) values.items }) }
{
    UserInputAst::Set(UserInputSet { field_name, values })
}

// Copies a bound. Fails only with `OutOfMemory`.
fn bound_of(alloc: Global, bound: BoundView<'_>) -> Result<UserInputBound, ParseError>
    ensures ok { IfOk result (λ copy. bound_of copy ≡ bound_seen bound.entry) }
    ensures only { OnlyMemoryRefuses result }
{
    match bound {
        BoundView::Unbounded => Ok(UserInputBound::Unbounded),
        BoundView::Inclusive(text) => Ok(UserInputBound::Inclusive(unescape(alloc, text)?)),
        BoundView::Exclusive(text) => Ok(UserInputBound::Exclusive(unescape(alloc, text)?)),
    }
}

// Copies the name of a field, if there is one. Fails only with `OutOfMemory`.
fn name_of(alloc: Global, name: Option<&str>) -> Result<Option<String>, ParseError>
    ensures ok { IfOk result (λ found. option_map (λ text. string_bytes text) found ≡ option_map unescaped (option_copied name.entry)) }
    ensures only { OnlyMemoryRefuses result }
{
    match name {
        Some(text) => Ok(Some(unescape(alloc, text)?)),
        None => Ok(None),
    }
}

// Returns the tree at the end of a text of `size` bytes. No group may be open.
fn read_end(
    alloc: Global,
    opened: &Vec<Group>,
    group: Group,
    size: usize,
) -> Result<UserInputAst, ParseError>
    ensures { IsReadAs result (read_end size (stack_of opened.now.items) (whole_of (group_of group))) }
{
    let ast = match group.whole(alloc, size) {
        Ok(ast) => ast,
        Err(error) => return Err(error),
    };
    if opened.as_slice().is_empty() {
        return Ok(ast);
    }
    Err(ParseError::Syntax(Expected::Closing, size))
}
