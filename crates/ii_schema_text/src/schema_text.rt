ghost use Rattle.std.specs.Prelude.{◌≡◌, Bool, codes, List, option_map, string_bytes};
ghost use Rattle.toml.specs.Data.{get_member, Members};
ghost use Rattle.toml.specs.View.{items_view, table_view, view};
ghost use Rattle.ii_base.specs.Schema.{SchemaEntry};
ghost use Rattle.ii_tokenizers.specs.declared.analyzer.Analyzer.{Analyzer};
ghost use Rattle.ii_schema_text.specs.SchemaText.{AnswersFromText, TextSchemaState, fields_from, fields_in, line_unless, new_schema_text, stores_source_in, table_schema, text_schema, text_table, tokenized_schema, without_fields};

use crate::faults::SchemaFault;
use crate::keys::KnownKeys;
use crate::text_schema::{ReadFields, TextSchema};
use crate::tokenizers::{check_unicode, default_of};
use crate::unknown_keys::{UnknownKeys, unknown_keys_of};
use ii_base::Schema;
use ii_tokenizers::Analyzer;
use std::alloc::Global;
use toml::{Table, Value};

/// Reads a schema, its tokenizers, what is stored, and what happens to unknown keys, from TOML: a table `[[field]]` for each field, in order, with these keys:
/// - `name`: a text that isn't empty and differs from the names before it,
/// - `type`: `text`, `u64`, `i64`, `bool`, `bytes`, `ip_addr`, `date` or `json`,
/// - `indexed`: whether it is indexed; the default is `true`,
/// - `record`, for an indexed text or JSON field: what is kept of a term: `basic`, `freq` or `position`,
///   the default,
/// - `fieldnorms`, for an indexed field that isn't JSON: whether field norms are kept; the default is
///   `true` for texts, else `false`,
/// - `expand_dots`, for an indexed JSON field: whether dots in keys are expanded; the default is `false`,
/// - `tokenizer`, for an indexed text or JSON field: `default`, `raw`, `whitespace`, `ascii` or `en` (`Analyzer`),
/// - `stop_words`, for a field with the tokenizer `en`: a list of words that are left out (`StopWordFilter`),
/// - `stored`: whether its member of each document is stored; the default is `false`.
///
/// Before the tables, `tokenizer` names the tokenizer of fields that name none, `ascii` if it is missing;
/// `unicode` names the version of Unicode that the words of an index follow; `store_source` says whether the
/// complete lines of documents are stored, and nothing else then, `false` if it is missing; `unknown` says whether a document with a key that is no field's
/// name is refused (`refuse`, also if it is missing), or read without its member (`ignore`).
///
/// # Errors
///
/// The first fault: `NotToml`; `UnknownKey` for the first key, in byte order, that isn't one of the text;
/// `WrongTokenizer` or `UnknownTokenizer`; `WrongStoreSource`; `WrongUnknown`; `NoFields`; then for each field
/// `UnknownFieldKey`, or `WrongKey` for the first invalid key in the order of `FieldKey`, or `UnknownFieldTokenizer`,
/// which comes before `WrongKey` for `stop_words`;
/// `TooManyFields`;
/// `WrongUnicode`, or `OtherUnicode` for another version than this program's if a tokenizer depends on it.
/// `OutOfMemory` if allocation fails.
#[tactic(auto, unfolding(crate::specs::SchemaText::tokenized_schema))]
pub fn read_text_schema(alloc: Global, text: &str) -> Result<TextSchema, SchemaFault>
    ensures { AnswersFromText (λ (s : TextSchemaState). s) result (tokenized_schema text.now) }
{
    let table = table_of(alloc, text)?;
    schema_of(alloc, &table)
}

/// Reads a schema from TOML, as `read_text_schema`, without its tokenizers.
#[tactic(auto, unfolding(crate::specs::SchemaText::text_schema))]
pub fn read_schema(alloc: Global, text: &str) -> Result<Schema, SchemaFault>
    ensures { AnswersFromText (λ (s : List SchemaEntry). s) result (text_schema text.now) }
{
    let schema = read_text_schema(alloc, text)?;
    Ok(schema.into_parts().0)
}

/// Returns the text of the schema of a new index: the given text, after lines that name the tokenizer `default` and
/// this program's version of Unicode, each unless the text has its key.
///
/// # Errors
///
/// `NotToml` if the text isn't TOML; `OutOfMemory`.
#[tactic(auto, unfolding(crate::specs::SchemaText::new_schema_text))]
pub fn new_schema_text(alloc: Global, text: &str) -> Result<String, SchemaFault>
    ensures { AnswersFromText (λ s. string_bytes s) result (new_schema_text text.now) }
{
    let table = table_of(alloc, text)?;
    let mut lines = String::new(alloc);
    lines.push_str(line_unless(member(&table, "tokenizer"), "tokenizer = \"default\"\n"))?;
    lines.push_str(line_unless(member(&table, "unicode"), "unicode = \"18.0.0\"\n"))?;
    lines.push_str(text)?;
    Ok(lines)
}

// Returns a line, unless a key is there.
fn line_unless(value: Option<&Value>, line: &'static str) -> &'static str
    ensures { result.now ≡ line_unless (option_map (λ v. view v.now) value.entry) line.now }
{
    match value {
        Some(_) => "",
        None => line,
    }
}

/// Returns the name of a field, counted from 0, if its table exists and the name is a text. It is meant for
/// messages about an invalid schema.
///
/// # Errors
///
/// `NotToml` if the text isn't TOML; `OutOfMemory`.
pub fn field_name_at(
    alloc: Global,
    text: &str,
    number: usize,
) -> Result<Option<String>, SchemaFault> {
    let table = table_of(alloc, text)?;
    match name_at(&table, number) {
        Some(name) => Ok(Some(String::from_str(alloc, name)?)),
        None => Ok(None),
    }
}

// Returns the name in the table of a field.
fn name_at(table: &Table, number: usize) -> Option<&str> {
    match fields_of(table)?.get(number)?.get("name") {
        Some(name) => name.as_str(),
        None => None,
    }
}

// Reads the table of a text.
fn table_of(alloc: Global, text: &str) -> Result<Table, SchemaFault>
    ensures { AnswersFromText (λ t. table_view t) result (text_table text.now) }
{
    match toml::table_from_str(alloc, text) {
        Ok(table) => Ok(table),
        Err(error) => Err(SchemaFault::of_toml(error)),
    }
}

// Reads the schema from the complete table.
#[tactic(auto, unfolding(crate::specs::SchemaText::table_schema))]
fn schema_of(alloc: Global, table: &Table) -> Result<TextSchema, SchemaFault>
    ensures { AnswersFromText (λ (s : TextSchemaState). s) result (table_schema (table_view table.now)) }
{
    if let Some(key) = KnownKeys::OfText.unknown(table) {
        let key = String::from_str(alloc, key)?;
        return Err(SchemaFault::UnknownKey(key));
    }
    let default = default_of(alloc, member(table, "tokenizer"))?;
    let stores_source = stores_source_of(member(table, "store_source"))?;
    let unknown_keys = unknown_keys_of(member(table, "unknown"))?;
    let Some(fields) = fields_of(table) else {
        return Err(SchemaFault::NoFields);
    };
    let read = fields_from(alloc, default, stores_source, unknown_keys, fields)?;
    let schema = read.into_schema()?;
    check_unicode(
        alloc,
        schema.tokenizers().as_slice(),
        member(table, "unicode"),
    )?;
    Ok(schema)
}

// Returns whether complete lines are stored, given the value of the key of the text.
fn stores_source_of(value: Option<&Value>) -> Result<bool, SchemaFault>
    ensures { AnswersFromText (λ (stores : Bool). stores) result (stores_source_in (option_map (λ v. view v.now) value.entry)) }
{
    let Some(value) = value else {
        return Ok(false);
    };
    match value.as_bool() {
        Some(stores_source) => Ok(stores_source),
        None => Err(SchemaFault::WrongStoreSource),
    }
}

// Returns the value of a key.
fn member<'t>(table: &'t Table, key: &str) -> Option<&'t Value>
    ensures { option_map (λ v. view v.now) result ≡ get_member key.now (table_view table.now) }
{
    table.get(key)
}

// Returns the tables of the fields.
fn fields_of(table: &Table) -> Option<&Vec<Value>>
    ensures { option_map (λ fields. items_view fields.now.items) result ≡ fields_in (get_member (codes "field") (table_view table.now)) }
{
    match member(table, "field") {
        Some(value) => value.as_array(),
        None => None,
    }
}

// Reads the fields from their tables.
fn fields_from(
    alloc: Global,
    default: Analyzer,
    stores_source: bool,
    unknown_keys: UnknownKeys,
    fields: &Vec<Value>,
) -> Result<ReadFields, SchemaFault>
    ensures { AnswersFromText (λ (s : TextSchemaState). s) result (fields_from default (without_fields stores_source unknown_keys) (items_view fields.now.items)) }
{
    let mut read = ReadFields::new(alloc, stores_source, unknown_keys);
    for field in fields {
        read.read(alloc, default, field)?;
    }
    Ok(read)
}
