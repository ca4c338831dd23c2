//! Messages about a query text: why it is refused, and which fields a phrase is not searched in.
use ii_base::{Fault, Field, TextAnalyzer, TokenStream};
use ii_query_parser::{QueryParserError, UserInputAst, parse, unknown_field_name};
use ii_tokenizers::{FieldAnalyzers, FieldTokenizer};
use nequllpa_opening::OpenedIndex;
use nequllpa_writing::{PROGRAM, refuse_path};
use std::alloc::{AllocError, Global};

/// Prints why a text is no query, with the name of the field concerned. Returns the status.
pub(crate) fn refuse_query(
    rt: &HostRuntime,
    opened: &OpenedIndex,
    text: &str,
    error: QueryParserError,
) -> anyhow::Result<u8> {
    let reason = reason_of(rt.alloc(), opened, text, error)?;
    refuse_path(rt, text, reason)
}

/// Returns why a text is no query, with the name of the field concerned.
pub(crate) fn reason_of(
    alloc: Global,
    opened: &OpenedIndex,
    text: &str,
    error: QueryParserError,
) -> Result<String, AllocError> {
    if error == QueryParserError::FieldDoesNotExist {
        return reason_of_name(alloc, opened, text, error);
    }
    let schema = opened.schema();
    match error.field() {
        Some(field) if (field.field_id() as usize) < schema.num_fields() => {
            let name = schema.get_field_entry(field).name();
            format!(in alloc; "field {name}: {error}")
        }
        _ => format!(in alloc; "{error}"),
    }
}

// Does the same for a text with an unknown field name.
fn reason_of_name(
    alloc: Global,
    opened: &OpenedIndex,
    text: &str,
    error: QueryParserError,
) -> Result<String, AllocError> {
    let Ok(ast) = parse(alloc, text) else {
        return format!(in alloc; "{error}");
    };
    let reason = match unknown_field_name(opened.schema(), &ast) {
        Some(name) => format!(in alloc;
            "no field {name}; the command fields lists them. In quotes, or after a backslash, a colon is a character"
        ),
        None => format!(in alloc; "{error}"),
    };
    drop(ast);
    reason
}

/// Returns the byte of a query that an error is about, if it is about one.
pub(crate) fn byte_of(error: QueryParserError) -> Option<usize> {
    match error {
        QueryParserError::SyntaxError(_, byte) | QueryParserError::Unsupported(_, byte) => {
            Some(byte)
        }
        _ => None,
    }
}

/// Prints which default fields keep no positions, if the text has a phrase that is searched only in the
/// others.
pub(crate) fn tell_left_out(
    rt: &HostRuntime,
    opened: &OpenedIndex,
    fields: &[Field],
    text: &str,
) -> anyhow::Result<()> {
    let Ok(ast) = parse(rt.alloc(), text) else {
        return Ok(());
    };
    let told = tell_fields(rt, opened, fields, &ast);
    drop(ast);
    told
}

// Prints which of these fields keep no positions, and have a phrase in a tree.
fn tell_fields(
    rt: &HostRuntime,
    opened: &OpenedIndex,
    fields: &[Field],
    ast: &UserInputAst,
) -> anyhow::Result<()> {
    let schema = opened.schema();
    for field in fields {
        if (field.field_id() as usize) >= schema.num_fields() {
            continue;
        }
        let entry = schema.get_field_entry(*field);
        if entry.index_record_option().has_positions() {
            continue;
        }
        let tokenizer = opened.tokenizers().analyzer(*field);
        if has_default_phrase(rt.alloc(), tokenizer, ast).unwrap_or(false) {
            let name = entry.name();
            eprintln!(rt;
                "{PROGRAM}: the field {name} keeps no positions, so the phrase is not looked up in it; a word such as don't is a phrase of two"
            )?;
        }
    }
    Ok(())
}

// Whether a tree has a text of several words without a field name.
#[cycle(has_default_phrase)]
fn has_default_phrase(
    alloc: Global,
    tokenizer: &FieldTokenizer,
    ast: &UserInputAst,
) -> Result<bool, Fault> {
    match ast {
        UserInputAst::Leaf(literal) => {
            if literal.field_name.is_some() {
                return Ok(false);
            }
            has_words(alloc, tokenizer, literal.phrase.as_str())
        }
        UserInputAst::All | UserInputAst::Range(_) | UserInputAst::Set(_) => Ok(false),
        UserInputAst::And(parts) => have_default_phrase(alloc, tokenizer, parts),
        UserInputAst::Or(parts) => have_default_phrase(alloc, tokenizer, parts),
        UserInputAst::AndNot(first, other) => {
            if has_default_phrase(alloc, tokenizer, first)? {
                return Ok(true);
            }
            has_default_phrase(alloc, tokenizer, other)
        }
    }
}

#[cycle(has_default_phrase)]
fn have_default_phrase(
    alloc: Global,
    tokenizer: &FieldTokenizer,
    parts: &Vec<UserInputAst>,
) -> Result<bool, Fault> {
    for part in parts {
        if has_default_phrase(alloc, tokenizer, part)? {
            return Ok(true);
        }
    }
    Ok(false)
}

// Whether a text has several words.
fn has_words(alloc: Global, tokenizer: &FieldTokenizer, text: &str) -> Result<bool, Fault> {
    let mut stream = tokenizer.token_stream(alloc, text)?;
    if !stream.advance() {
        return Ok(false);
    }
    Ok(stream.advance())
}
