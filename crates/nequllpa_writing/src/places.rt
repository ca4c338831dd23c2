//! Says in a document where its line is.
ghost use Rattle.std.specs.Prelude.{◌<◌, length};

use crate::messages::{PROGRAM, REFUSED};
use clap::ArgMatches;
use ii_base::{Field, ValueType};
use ii_query_parser::field_named;
use ii_schema_text::TextSchema;

// Returns the name of the field in which documents get the places of their lines, if the option is given. Returns the
// status if the schema stores no texts of that field alone.
pub(crate) fn located_by<'g>(
    rt: &HostRuntime,
    given: &'g ArgMatches<'_>,
    schema: &TextSchema,
) -> anyhow::Result<Result<Option<&'g str>, u8>> {
    let Some(name) = given.get_str("locate") else {
        return Ok(Ok(None));
    };
    let Some(field) = field_named(schema.schema(), name) else {
        eprintln!(rt;
            "{PROGRAM}: no field {name}; --locate needs a text field of the schema with stored = true"
        )?;
        return Ok(Err(REFUSED));
    };
    if !takes_places(schema, field) {
        eprintln!(rt;
            "{PROGRAM}: --locate: {name} has to be a text field with stored = true, and store_source not true"
        )?;
        return Ok(Err(REFUSED));
    }
    Ok(Ok(Some(name)))
}

// Returns whether a field of a schema has texts that are stored, and complete lines aren't.
fn takes_places(schema: &TextSchema, field: Field) -> bool
    requires { field < length schema.now.schema }
{
    let entry = schema.schema().get_field_entry(field);
    entry.value_type() == ValueType::Str
        && schema.stored().has_member(field)
        && !schema.stored().is_line()
}
