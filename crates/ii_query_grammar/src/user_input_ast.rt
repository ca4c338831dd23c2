ghost use Rattle.std.specs.Prelude.{◌≡◌, ◌++◌, [], IfOk, OnOk, false, map, string_bytes, true};
ghost use Rattle.ii_query_grammar.specs.Spelling.{literal_text, lower_text, part_text, parts_text, phrase_text, quoted, range_text, set_text, spelled, upper_text, values_text};
ghost use Rattle.ii_query_grammar.specs.Trees.{ast_of, asts_from, bound_of, literal_of, range_of, set_of};

use crate::cut::Stop;
use crate::escapes::push_escaped;
use std::alloc::{AllocError, Global};

/// The delimiters of a word, a phrase or a prefix.
#[derive(Clone, Copy, Debug, PartialEq, Eq)]
pub enum Delimiter {
    /// Double quotes.
    DoubleQuotes,
    /// Double quotes with a `~` and this slop after them.
    Slop(u32),
    /// Double quotes with a `*` after them: the last word of the text is a prefix.
    Prefix,
    /// A `*` after it: the text is a prefix of the words to search for.
    Star,
    /// None.
    None,
}

/// A word, a phrase or a prefix to search for.
#[derive(Drop)]
pub struct UserInputLiteral {
    /// The name of the field, written before a colon; `None` for the default fields.
    pub field_name: Option<String>,
    /// The word, the text between quotes, or the prefix, without escapes.
    pub phrase: String,
    /// Whether it is in quotes, which may have a slop or a `*` after them, or a prefix.
    pub delimiter: Delimiter,
}

/// A bound of a range.
#[derive(Drop)]
pub enum UserInputBound {
    /// None.
    Unbounded,
    /// A text, without escapes, that belongs to the range.
    Inclusive(String),
    /// A text, without escapes, that does not belong to the range.
    Exclusive(String),
}

/// A range of the values of a field.
#[derive(Drop)]
pub struct UserInputRange {
    /// The name of the field, written before a colon.
    pub field_name: String,
    /// The least value.
    pub lower: UserInputBound,
    /// The greatest value.
    pub upper: UserInputBound,
}

/// A set of values of a field.
#[derive(Drop)]
pub struct UserInputSet {
    /// The name of the field, written before a colon.
    pub field_name: String,
    /// The values, without escapes.
    pub values: Vec<String>,
}

/// The syntax tree of a query.
#[derive(Drop)]
pub enum UserInputAst {
    /// Matches all documents.
    All,
    /// A word, a phrase or a prefix.
    Leaf(UserInputLiteral),
    /// A range of values.
    Range(UserInputRange),
    /// A set of values, of which a document needs one.
    Set(UserInputSet),
    /// Matches the documents that all parts match.
    And(Vec<UserInputAst>),
    /// Matches the documents that at least one part matches.
    Or(Vec<UserInputAst>),
    /// Matches the documents that the first part matches and the other doesn't.
    AndNot(Box<UserInputAst>, Box<UserInputAst>),
}

impl UserInputLiteral {
    // Appends its text.
    fn spell_into(&self, text: &mut String) -> Result<(), AllocError>
        ensures { OnOk result (string_bytes text.new ≡ string_bytes text.old ++ literal_text (literal_of self.now)) }
    {
        if let Some(name) = &self.field_name {
            push_escaped(Stop::WordEscape, true, name.as_str(), text)?;
            text.push_str(":")?;
            return self.spell_phrase(text);
        }
        self.spell_phrase(text)
    }

    // Appends its phrase, in quotes if it has these, and its slop or star if it has one.
    fn spell_phrase(&self, text: &mut String) -> Result<(), AllocError>
        ensures { OnOk result (string_bytes text.new ≡ string_bytes text.old ++ phrase_text (literal_of self.now)) }
    {
        let phrase = self.phrase.as_str();
        match self.delimiter {
            Delimiter::None => push_escaped(Stop::WordEscape, true, phrase, text),
            Delimiter::Star => {
                push_escaped(Stop::WordEscape, true, phrase, text)?;
                text.push_str("*")
            }
            Delimiter::DoubleQuotes => spell_quoted(phrase, text),
            Delimiter::Slop(slop) => {
                spell_quoted(phrase, text)?;
                write!(text, "~{slop}")
            }
            Delimiter::Prefix => {
                spell_quoted(phrase, text)?;
                text.push_str("*")
            }
        }
    }
}

// Appends a text in quotes.
fn spell_quoted(phrase: &str, text: &mut String) -> Result<(), AllocError>
    ensures { OnOk result (string_bytes text.new ≡ string_bytes text.old ++ quoted phrase.now) }
{
    text.push_str("\"")?;
    push_escaped(Stop::PhraseEscape, false, phrase, text)?;
    text.push_str("\"")
}

impl UserInputBound {
    // Appends its text as a lower bound, after its bracket.
    fn spell_lower(&self, text: &mut String) -> Result<(), AllocError>
        ensures { OnOk result (string_bytes text.new ≡ string_bytes text.old ++ lower_text (bound_of self.now)) }
    {
        match self {
            UserInputBound::Unbounded => text.push_str("[*"),
            UserInputBound::Inclusive(bound) => {
                text.push_str("[")?;
                spell_quoted(bound.as_str(), text)
            }
            UserInputBound::Exclusive(bound) => {
                text.push_str("{")?;
                spell_quoted(bound.as_str(), text)
            }
        }
    }

    // Appends its text as an upper bound, before its bracket.
    fn spell_upper(&self, text: &mut String) -> Result<(), AllocError>
        ensures { OnOk result (string_bytes text.new ≡ string_bytes text.old ++ upper_text (bound_of self.now)) }
    {
        match self {
            UserInputBound::Unbounded => text.push_str("*]"),
            UserInputBound::Inclusive(bound) => {
                spell_quoted(bound.as_str(), text)?;
                text.push_str("]")
            }
            UserInputBound::Exclusive(bound) => {
                spell_quoted(bound.as_str(), text)?;
                text.push_str("}")
            }
        }
    }
}

impl UserInputRange {
    // Appends its text.
    fn spell_into(&self, text: &mut String) -> Result<(), AllocError>
        ensures { OnOk result (string_bytes text.new ≡ string_bytes text.old ++ range_text (range_of self.now)) }
    {
        push_escaped(Stop::WordEscape, true, self.field_name.as_str(), text)?;
        text.push_str(":")?;
        self.lower.spell_lower(text)?;
        text.push_str(" TO ")?;
        self.upper.spell_upper(text)
    }
}

impl UserInputSet {
    // Appends its text.
    fn spell_into(&self, text: &mut String) -> Result<(), AllocError>
        ensures { OnOk result (string_bytes text.new ≡ string_bytes text.old ++ set_text (set_of self.now)) }
    {
        push_escaped(Stop::WordEscape, true, self.field_name.as_str(), text)?;
        text.push_str(":IN [")?;
        spell_values(&self.values, text)
    }
}

// Appends the values of a set and its end.
fn spell_values(values: &Vec<String>, text: &mut String) -> Result<(), AllocError>
    ensures { OnOk result (string_bytes text.new ≡ string_bytes text.old ++ values_text [] (map (λ value. string_bytes value) values.now.items)) }
{
    let mut before = "";
    for value in values {
        text.push_str(before)?;
        spell_quoted(value.as_str(), text)?;
        before = " ";
    }
    text.push_str("]")
}

impl UserInputAst {
    /// Returns the tree as text, with the bounds of ranges and the values of sets in quotes, and with parentheses
    /// around each part that is not `*`, a word, a phrase, a range or a set.
    pub fn spell(&self, alloc: Global) -> Result<String, AllocError>
        ensures { IfOk result (λ text. string_bytes text ≡ spelled (ast_of self.now)) }
    {
        let mut text = String::new(alloc);
        self.spell_into(&mut text)?;
        Ok(text)
    }

    // Appends its text.
    #[cycle(spell)]
    fn spell_into(&self, text: &mut String) -> Result<(), AllocError>
        ensures { OnOk result (string_bytes text.new ≡ string_bytes text.old ++ spelled (ast_of self.now)) }
    {
        match self {
            UserInputAst::All => text.push_str("*"),
            UserInputAst::Leaf(literal) => literal.spell_into(text),
            UserInputAst::Range(range) => range.spell_into(text),
            UserInputAst::Set(set) => set.spell_into(text),
            UserInputAst::And(parts) => spell_parts(parts, " AND ", text),
            UserInputAst::Or(parts) => spell_parts(parts, " OR ", text),
            UserInputAst::AndNot(first, other) => {
                first.spell_part(text)?;
                text.push_str(" AND -")?;
                other.spell_part(text)
            }
        }
    }

    // Appends its text as that of a part.
    #[cycle(spell)]
    fn spell_part(&self, text: &mut String) -> Result<(), AllocError>
        ensures { OnOk result (string_bytes text.new ≡ string_bytes text.old ++ part_text (ast_of self.now)) }
    {
        match self {
            UserInputAst::All => text.push_str("*"),
            UserInputAst::Leaf(literal) => literal.spell_into(text),
            UserInputAst::Range(range) => range.spell_into(text),
            UserInputAst::Set(set) => set.spell_into(text),
            UserInputAst::And(_) | UserInputAst::Or(_) | UserInputAst::AndNot(..) => {
                text.push_str("(")?;
                self.spell_into(text)?;
                text.push_str(")")
            }
        }
    }
}

// Appends the texts of parts, with a separator between them.
#[cycle(spell)]
fn spell_parts(
    parts: &Vec<UserInputAst>,
    between: &str,
    text: &mut String,
) -> Result<(), AllocError>
    ensures { OnOk result (string_bytes text.new ≡ string_bytes text.old ++ parts_text [] between.now (asts_from (map ast_of parts.now.items))) }
{
    let mut before = "";
    for part in parts {
        text.push_str(before)?;
        part.spell_part(text)?;
        before = between;
    }
    Ok(())
}
