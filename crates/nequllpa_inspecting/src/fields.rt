//! Writes the fields of an index, in lines of words or of JSON.
ghost use Rattle.std.specs.Prelude.{◌<◌, length};

use crate::merged_terms::{MergedTerm, MergedTerms};
use ii_base::{Fault, Field, FieldEntry, IndexRecordOption, Part, ValueType};
use ii_schema_text::type_name;
use ii_term_text::push_path_bytes;
use ii_tokenizers::FieldAnalyzers;
use nequllpa_opening::{AnswerFault, OpenedIndex, RowFormat, write_quoted, write_separator};
use std::alloc::Global;
use std::io::Write;

/// Writes a line for each field: its number, name and type, what it records, its tokenizer if it has texts, its stop
/// words, as an array of JSON strings, if it has some, and its numbers of terms and tokens. Below a JSON field it
/// writes a line for each path and type. A JSON line is an object with `number`, `field`, `type` and `indexed`, for an
/// indexed field `record`, `fieldnorms`, `expand_dots`, `tokenizer` if it has texts, and `stop_words` if it has some,
/// and with `terms` and `tokens`; that of a path one with `field`, `path`, `type`, `terms`, and `bytes`, an object
/// with `postings` and `positions`.
pub fn write_fields<W: Write>(
    alloc: Global,
    out: &mut W,
    opened: &OpenedIndex,
    format: RowFormat,
) -> Result<(), AnswerFault> {
    for id in 0..opened.schema().num_fields() {
        let field = Field::from_field_id(id as u32);
        write_field(alloc, out, opened, field, format)?;
        if opened.entry(field).value_type() == ValueType::Json {
            write_paths(alloc, out, opened, field, format)?;
        }
    }
    Ok(())
}

// Writes a field.
fn write_field<W: Write>(
    alloc: Global,
    out: &mut W,
    opened: &OpenedIndex,
    field: Field,
    format: RowFormat,
) -> Result<(), AnswerFault>
    requires { field < length opened.now.schema }
{
    if format.is_json() {
        return write_field_json(alloc, out, opened, field, format);
    }
    let entry = opened.entry(field);
    write!(
        out,
        "{} {} {}",
        field.field_id(),
        entry.name(),
        type_name(entry.value_type())
    )?;
    write_settings(out, entry)?;
    if let Some(name) = tokenizer_name(opened, field) {
        write!(out, " tokenizer {name}")?;
    }
    write_stop_words(alloc, out, opened, field, " stop_words ")?;
    writeln!(
        out,
        ": {} terms, {} tokens",
        num_terms(alloc, opened, field)?,
        num_tokens(alloc, opened, field)?
    )?;
    Ok(())
}

// Writes a field.
fn write_field_json<W: Write>(
    alloc: Global,
    out: &mut W,
    opened: &OpenedIndex,
    field: Field,
    format: RowFormat,
) -> Result<(), AnswerFault>
    requires { field < length opened.now.schema }
{
    let terms = num_terms(alloc, opened, field)?;
    let tokens = num_tokens(alloc, opened, field)?;
    let entry = opened.entry(field);
    write!(out, "{{\"number\":{},\"field\":", field.field_id())?;
    write_quoted(alloc, out, entry.name())?;
    write!(out, ",\"type\":\"{}\"", type_name(entry.value_type()))?;
    write_settings_json(out, entry)?;
    if let Some(name) = tokenizer_name(opened, field) {
        write!(out, ",\"tokenizer\":\"{name}\"")?;
    }
    write_stop_words(alloc, out, opened, field, ",\"stop_words\":")?;
    write!(
        out,
        ",\"terms\":{terms},\"tokens\":{tokens}}}{}",
        format.end()
    )?;
    Ok(())
}

// Returns the number of terms of a field.
fn num_terms(alloc: Global, opened: &OpenedIndex, field: Field) -> Result<u64, AnswerFault> {
    let mut terms = MergedTerms::new(alloc, opened.segments(), field)?;
    for number in 0..terms.most() {
        let Some(_) = terms.next()? else {
            return Ok(number);
        };
    }
    Ok(terms.most())
}

// Returns the number of tokens that the living documents have in a field.
fn num_tokens(alloc: Global, opened: &OpenedIndex, field: Field) -> Result<u64, Fault> {
    let mut tokens = 0u64;
    for segment in opened.segments() {
        if (field.field_id() as usize) < segment.schema().num_fields() {
            tokens = tokens.saturating_add(segment.num_tokens(alloc, field)?);
        }
    }
    Ok(tokens)
}

// Writes what a field records.
fn write_settings<W: Write>(out: &mut W, entry: &FieldEntry) -> Result<(), AnswerFault> {
    if !entry.is_indexed() {
        write!(out, " not indexed")?;
        return Ok(());
    }
    let option = option_name(entry.index_record_option());
    let norms = if entry.has_fieldnorms() {
        " fieldnorms"
    } else {
        ""
    };
    let dots = if entry.expands_dots() {
        " expand_dots"
    } else {
        ""
    };
    write!(out, " {option}{norms}{dots}")?;
    Ok(())
}

// Writes what a field records.
fn write_settings_json<W: Write>(out: &mut W, entry: &FieldEntry) -> Result<(), AnswerFault> {
    if !entry.is_indexed() {
        write!(out, ",\"indexed\":false")?;
        return Ok(());
    }
    write!(
        out,
        ",\"indexed\":true,\"record\":\"{}\",\"fieldnorms\":{},\"expand_dots\":{}",
        option_name(entry.index_record_option()),
        entry.has_fieldnorms(),
        entry.expands_dots()
    )?;
    Ok(())
}

// Returns how the texts of an indexed field are cut into words, if it has texts.
fn tokenizer_name(opened: &OpenedIndex, field: Field) -> Option<&'static str>
    requires { field < length opened.now.schema }
{
    let entry = opened.entry(field);
    if !entry.is_indexed() {
        return None;
    }
    match entry.value_type() {
        ValueType::Str | ValueType::Json => {
            Some(opened.tokenizers().analyzer(field).analyzer.name())
        },
        _ => None,
    }
}

// Writes the stop words of a field as an array, with a text before it, if it has some.
fn write_stop_words<W: Write>(
    alloc: Global,
    out: &mut W,
    opened: &OpenedIndex,
    field: Field,
    before: &str,
) -> Result<(), AnswerFault>
    requires { field < length opened.now.schema }
{
    let stop_words = &opened.tokenizers().analyzer(field).stop_words;
    if stop_words.len() == 0 {
        return Ok(());
    }
    write!(out, "{before}[")?;
    for place in 0..stop_words.len() {
        if let Some(word) = stop_words.get(place) {
            write_separator(out, place)?;
            write_quoted(alloc, out, word)?;
        }
    }
    write!(out, "]")?;
    Ok(())
}

// Returns the name of an option in the text of a schema.
fn option_name(option: IndexRecordOption) -> &'static str {
    match option {
        IndexRecordOption::Basic => "basic",
        IndexRecordOption::WithFreqs => "freq",
        IndexRecordOption::WithFreqsAndPositions => "position",
    }
}

// A path of a JSON field with a type of its values, and what its terms take.
#[derive(Clone, Copy)]
struct Space<'a> {
    path: &'a [u8],
    value_type: ValueType,
    terms: u64,
    postings: u64,
    positions: u64,
}

// Writes a line for each path and type of a JSON field.
fn write_paths<W: Write>(
    alloc: Global,
    out: &mut W,
    opened: &OpenedIndex,
    field: Field,
    format: RowFormat,
) -> Result<(), AnswerFault>
    requires { field < length opened.now.schema }
{
    let name = opened.entry(field).name();
    let mut terms = MergedTerms::new(alloc, opened.segments(), field)?;
    let mut space: Option<Space<'_>> = None;
    for _ in 0..terms.most() {
        let Some(term) = terms.next()? else {
            return write_space(alloc, out, format, name, space);
        };
        let Some(one) = space_of(&term) else {
            return Err(AnswerFault::Index(Fault::Damaged(Part::JsonKey)));
        };
        space = match space {
            Some(so_far) if so_far.is_same(&one) => Some(so_far.with(&one)),
            _ => {
                write_space(alloc, out, format, name, space)?;
                Some(one)
            }
        };
    }
    write_space(alloc, out, format, name, space)
}

// Returns the path and type of a term, with its size.
fn space_of<'a>(term: &MergedTerm<'a>) -> Option<Space<'a>> {
    let len = term.key.iter().position(|byte| *byte == 0)?;
    let (path, rest) = term.key.split_at(len);
    let value_type = ValueType::from_code(*rest.get(1)?)?;
    Some(Space {
        path,
        value_type,
        terms: 1,
        postings: term.postings,
        positions: term.positions,
    })
}

impl<'a> Space<'a> {
    // Returns whether another one has the same path and type.
    fn is_same(&self, other: &Space<'_>) -> bool {
        self.path == other.path && self.value_type == other.value_type
    }

    // Returns both together.
    fn with(&self, other: &Space<'_>) -> Space<'a> {
        Space {
            path: self.path,
            value_type: self.value_type,
            terms: self.terms.saturating_add(other.terms),
            postings: self.postings.saturating_add(other.postings),
            positions: self.positions.saturating_add(other.positions),
        }
    }
}

// Writes a line for a path and type of a field, if there is one.
fn write_space<W: Write>(
    alloc: Global,
    out: &mut W,
    format: RowFormat,
    field: &str,
    space: Option<Space<'_>>,
) -> Result<(), AnswerFault> {
    let Some(space) = space else {
        return Ok(());
    };
    let mut text = String::new(alloc);
    push_path_bytes(alloc, &mut text, space.path)?;
    if format.is_json() {
        return write_space_json(alloc, out, format, field, text.as_str(), &space);
    }
    writeln!(
        out,
        "  {text} {}: {} terms, {} bytes of postings, {} bytes of positions",
        type_name(space.value_type),
        space.terms,
        space.postings,
        space.positions
    )?;
    Ok(())
}

// Writes a path of a field, given as text, with a type of its values.
fn write_space_json<W: Write>(
    alloc: Global,
    out: &mut W,
    format: RowFormat,
    field: &str,
    path: &str,
    space: &Space<'_>,
) -> Result<(), AnswerFault> {
    write!(out, "{{\"field\":")?;
    write_quoted(alloc, out, field)?;
    write!(out, ",\"path\":")?;
    write_quoted(alloc, out, path)?;
    write!(
        out,
        ",\"type\":\"{}\",\"terms\":{},\"bytes\":{{\"postings\":{},\"positions\":{}}}}}{}",
        type_name(space.value_type),
        space.terms,
        space.postings,
        space.positions,
        format.end()
    )?;
    Ok(())
}
