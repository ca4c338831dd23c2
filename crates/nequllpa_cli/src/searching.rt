//! The command `search`.
use crate::batch::answer_batch;
use crate::commands::{ended, field_named, format_given, number_given, opened_at};
use crate::getting::NOT_STORED;
use crate::host_lines::HostLines;
use crate::query_opening::{OpenedQuery, opened_for_query};
use crate::query_texts::{refuse_query, tell_left_out};
use crate::snippet_style::style_given;
use crate::timing::Timing;
use clap::ArgMatches;
use ii_base::{Field, ValueType};
use ii_query_parser::Query;
use ii_segment_store::WantedFiles;
use nequllpa_opening::{
    AnswerFault, IdSource, OpenedIndex, RowFormat, are_stored, id_source, stores_ids,
};
use nequllpa_searching::{
    BestListing, CountFormat, Listing, MarkStyle, SourceLines, StoredPart, write_best, write_count,
    write_listing,
};
use nequllpa_warming::EnableScoring;
use nequllpa_writing::{PROGRAM, REFUSED, refuse};
use std::alloc::Global;
use std::io::{self, BufWriter, Write};
use std::process::ExitCode;

/// What is printed of the documents that match a query.
#[derive(Clone, Copy)]
pub enum Wanted<'a, 'n> {
    /// Their number.
    Count(CountFormat),
    /// The best ones.
    Best(BestListing<'a, 'n>),
    /// The first ones.
    Found(Listing<'a, 'n>),
}

/// Prints the documents that match a query.
pub fn answer_search(
    rt: &HostRuntime,
    path: &str,
    given: &ArgMatches<'_>,
) -> anyhow::Result<ExitCode> {
    let limit = match number_given(rt, given, "limit")? {
        Ok(limit) => limit.unwrap_or(u32::MAX),
        Err(status) => return Ok(ExitCode::from(status)),
    };
    if given.get_flag("batch") == given.get_str("QUERY").is_some() {
        let status = refuse(rt, "search needs a query, or --batch")?;
        return Ok(ExitCode::from(status));
    }
    if given.get_flag("explain") && given.get_str("top").is_none() {
        let status = refuse(rt, "--explain stands only with --top")?;
        return Ok(ExitCode::from(status));
    }
    let timing = Timing::begin(rt, given)?;
    if let Some(text) = given.get_str("QUERY") {
        if prints_numbers(given) {
            match opened_for_query(rt, path, given, text, scoring_given(given))? {
                Some(Ok(found)) => {
                    timing.tell(rt, "opening")?;
                    return search_parts(rt, path, &found, given, limit);
                }
                Some(Err(status)) => return Ok(ExitCode::from(status)),
                None => (),
            }
        }
    }
    match opened_for(rt, path, given)? {
        Ok(opened) => {
            timing.tell(rt, "opening")?;
            search(rt, path, &opened, given, limit)
        }
        Err(status) => Ok(ExitCode::from(status)),
    }
}

// Returns whether only the numbers of documents are printed, with their scores or without, or how many they are. Then a
// search reads no more of the files than the documents of its terms, and the norms of their fields.
fn prints_numbers(given: &ArgMatches<'_>) -> bool {
    let with_more = given.get_flag("ids")
        || given.get_flag("positions")
        || given.get_flag("explain");
    !with_more && option_of_line(given).is_none()
}

// Returns whether a search ranks.
fn scoring_given(given: &ArgMatches<'_>) -> EnableScoring {
    if given.get_str("top").is_some() {
        return EnableScoring::Enabled;
    }
    EnableScoring::Disabled
}

// Opens an index with the files that a search reads. That ids are stored is known when the index is open: then it is
// opened again, with the stored documents.
fn opened_for(
    rt: &HostRuntime,
    path: &str,
    given: &ArgMatches<'_>,
) -> anyhow::Result<Result<OpenedIndex, u8>> {
    let opened = match opened_at(rt, path, wanted_by(given))? {
        Ok(opened) => opened,
        Err(status) => return Ok(Err(status)),
    };
    if !given.get_flag("ids") || !stores_ids(&opened) {
        return Ok(Ok(opened));
    }
    drop(opened);
    opened_at(rt, path, WantedFiles::All)
}

// Returns the files that a search reads: the stored documents if it prints of them, the counts if it ranks.
fn wanted_by(given: &ArgMatches<'_>) -> WantedFiles {
    if option_of_line(given).is_some() {
        return WantedFiles::All;
    }
    if given.get_str("top").is_some() {
        return WantedFiles::WithoutStore;
    }
    WantedFiles::WithoutCountsAndStore
}

// Returns the option by which a stored line is printed, if one is given.
fn option_of_line(given: &ArgMatches<'_>) -> Option<&'static str> {
    if given.get_flag("source") {
        return Some("source");
    }
    if given.get_str("fields").is_some() {
        return Some("fields");
    }
    if given.get_flag("snippet") {
        return Some("snippet");
    }
    if given.get_str("locate").is_some() {
        return Some("locate");
    }
    None
}

// Prints the matching documents of an open index, at most `limit`.
fn search(
    rt: &HostRuntime,
    path: &str,
    opened: &OpenedIndex,
    given: &ArgMatches<'_>,
    limit: u32,
) -> anyhow::Result<ExitCode> {
    let fields = match default_fields(rt, opened, given)? {
        Ok(fields) => fields,
        Err(status) => return Ok(ExitCode::from(status)),
    };
    match given.get_str("QUERY") {
        Some(text) => search_one(rt, path, opened, given, limit, &fields, text),
        None => search_each(rt, opened, given, limit, &fields),
    }
}

// Prints the matching documents of a query.
fn search_one(
    rt: &HostRuntime,
    path: &str,
    opened: &OpenedIndex,
    given: &ArgMatches<'_>,
    limit: u32,
    fields: &[Field],
    text: &str,
) -> anyhow::Result<ExitCode> {
    let timing = Timing::begin(rt, given)?;
    let query = match query_of(rt, opened, fields, text)? {
        Ok(query) => query,
        Err(status) => return Ok(ExitCode::from(status)),
    };
    print_query(rt, path, opened, given, limit, &query, &timing)
}

// Prints the matching documents of a query of which the parts of the index that it reads are open.
fn search_parts(
    rt: &HostRuntime,
    path: &str,
    found: &OpenedQuery,
    given: &ArgMatches<'_>,
    limit: u32,
) -> anyhow::Result<ExitCode> {
    let timing = Timing::begin(rt, given)?;
    print_query(rt, path, &found.opened, given, limit, &found.query, &timing)
}

// Prints what is wanted of the matching documents, and how long that took.
fn print_query(
    rt: &HostRuntime,
    path: &str,
    opened: &OpenedIndex,
    given: &ArgMatches<'_>,
    limit: u32,
    query: &Query,
    timing: &Timing,
) -> anyhow::Result<ExitCode> {
    let names = match names_given(rt, opened, given)? {
        Ok(names) => names,
        Err(status) => return Ok(ExitCode::from(status)),
    };
    let status = match wanted_given(rt, opened, given, limit, &names) {
        Ok(Ok(wanted)) => print_wanted(rt, path, opened, query, &wanted)?,
        Ok(Err(status)) => return Ok(ExitCode::from(status)),
        Err(error) => return Err(error),
    };
    timing.tell(rt, "search")?;
    Ok(status)
}

// Answers each query of standard input.
fn search_each(
    rt: &HostRuntime,
    opened: &OpenedIndex,
    given: &ArgMatches<'_>,
    limit: u32,
    fields: &[Field],
) -> anyhow::Result<ExitCode> {
    let names = match names_given(rt, opened, given)? {
        Ok(names) => names,
        Err(status) => return Ok(ExitCode::from(status)),
    };
    match wanted_given(rt, opened, given, limit, &names) {
        Ok(Ok(wanted)) => answer_batch(rt, opened, given, fields, &wanted),
        Ok(Err(status)) => Ok(ExitCode::from(status)),
        Err(error) => Err(error),
    }
}

// Returns the fields of stored lines that are printed, or the status if options don't go together.
fn names_given<'a>(
    rt: &HostRuntime,
    opened: &OpenedIndex,
    given: &'a ArgMatches<'_>,
) -> anyhow::Result<Result<Vec<&'a str>, u8>> {
    if given.get_str("top").is_some() && has_other_choice(given) {
        let status = refuse(rt, "--top stands without --limit, --count and --positions")?;
        return Ok(Err(status));
    }
    line_given(rt, opened, given)
}

// Returns what is printed of matching documents, at most `limit`, given the fields of stored lines that are printed.
fn wanted_given<'a, 'n>(
    rt: &HostRuntime,
    opened: &OpenedIndex,
    given: &'a ArgMatches<'_>,
    limit: u32,
    names: &'a [&'n str],
) -> anyhow::Result<Result<Wanted<'a, 'n>, u8>> {
    let stored = match part_given(rt, given, names)? {
        Ok(stored) => stored,
        Err(status) => return Ok(Err(status)),
    };
    if given.get_flag("count") {
        return Ok(Ok(Wanted::Count(count_format(given))));
    }
    let ids = match ids_given(rt, opened, given)? {
        Ok(ids) => ids,
        Err(status) => return Ok(Err(status)),
    };
    let format = format_of_found(given);
    match number_given(rt, given, "top")? {
        Ok(Some(limit)) => Ok(Ok(Wanted::Best(BestListing {
            limit,
            format,
            with_explanations: given.get_flag("explain"),
            ids,
            stored,
        }))),
        Ok(None) => Ok(Ok(Wanted::Found(Listing {
            limit,
            format,
            with_positions: given.get_flag("positions"),
            ids,
            stored,
        }))),
        Err(status) => Ok(Err(status)),
    }
}

// Returns how a document is printed.
fn format_of_found(given: &ArgMatches<'_>) -> RowFormat {
    if given.get_flag("batch") {
        return RowFormat::JsonItem;
    }
    format_given(given)
}

// Returns how the number of documents is printed: in a batch as a value of JSON.
fn count_format(given: &ArgMatches<'_>) -> CountFormat {
    if given.get_flag("json") && !given.get_flag("batch") {
        return CountFormat::Json;
    }
    CountFormat::Number
}

// Returns whether an option is given that --top doesn't go with.
fn has_other_choice(given: &ArgMatches<'_>) -> bool {
    given.get_str("limit").is_some() || given.get_flag("count") || given.get_flag("positions")
}

// Returns the fields of stored lines that are printed. Returns the status if stored lines are printed of an index that
// has none, or with an option that this doesn't go with.
fn line_given<'a>(
    rt: &HostRuntime,
    opened: &OpenedIndex,
    given: &'a ArgMatches<'_>,
) -> anyhow::Result<Result<Vec<&'a str>, u8>> {
    let Some(option) = option_of_line(given) else {
        return Ok(Ok(Vec::new(rt.alloc())));
    };
    if given.get_flag("count") || given.get_flag("positions") || given.get_flag("ids") {
        eprintln!(rt; "{PROGRAM}: --{option} stands without --count, --positions and --ids")?;
        return Ok(Err(REFUSED));
    }
    if given.get_flag("snippet") && option != "snippet" {
        eprintln!(rt; "{PROGRAM}: --{option} stands without --snippet")?;
        return Ok(Err(REFUSED));
    }
    if given.get_flag("source") && given.get_str("fields").is_some() {
        return Ok(Err(refuse(rt, "--source stands without --fields")?));
    }
    if let Some(field) = given.get_str("locate") {
        return place_given(rt, opened, given, field);
    }
    let Some(text) = given.get_str("fields") else {
        if !given.get_flag("snippet") {
            return stored_names(rt, opened, Vec::new(rt.alloc()));
        }
        return match stored_names(rt, opened, fields_given(rt, given)?)? {
            Ok(_) => Ok(Ok(Vec::new(rt.alloc()))),
            Err(status) => Ok(Err(status)),
        };
    };
    match names_in(rt, opened, text)? {
        Ok(names) => stored_names(rt, opened, names),
        Err(status) => Ok(Err(status)),
    }
}

// Returns no names of fields, or the status if documents have no places in a field, or if their places are printed with
// an option that this doesn't go with.
fn place_given<'a>(
    rt: &HostRuntime,
    opened: &OpenedIndex,
    given: &ArgMatches<'_>,
    name: &'a str,
) -> anyhow::Result<Result<Vec<&'a str>, u8>> {
    if given.get_flag("source") || given.get_str("fields").is_some() {
        return Ok(Err(refuse(rt, "--locate stands without --source and --fields")?));
    }
    if let Err(status) = field_named(rt, opened, name)? {
        return Ok(Err(status));
    }
    let mut names = Vec::new(rt.alloc());
    names.push(name)?;
    match stored_names(rt, opened, names)? {
        Ok(_) => Ok(Ok(Vec::new(rt.alloc()))),
        Err(status) => Ok(Err(status)),
    }
}

// Returns the fields that are given for words without a field name.
fn fields_given<'a>(rt: &HostRuntime, given: &'a ArgMatches<'_>) -> anyhow::Result<Vec<&'a str>> {
    let mut names = Vec::new(rt.alloc());
    if let Some(given) = given.get_strs("field") {
        for name in given {
            names.push(*name)?;
        }
    }
    Ok(names)
}

// Returns names, or the status if nothing of an index's documents is stored, or if one of the names is that of a field
// that isn't stored.
fn stored_names<'a>(
    rt: &HostRuntime,
    opened: &OpenedIndex,
    names: Vec<&'a str>,
) -> anyhow::Result<Result<Vec<&'a str>, u8>> {
    if !are_stored(opened) {
        return Ok(Err(refuse(rt, NOT_STORED)?));
    }
    for name in &names {
        if let Some(field) = opened.field_named(*name) {
            if !opened.stored().has_field(field) {
                eprintln!(rt;
                    "{PROGRAM}: the field {name} is not stored; the schema needs stored = true for it, or store_source = true"
                )?;
                return Ok(Err(REFUSED));
            }
        }
    }
    Ok(Ok(names))
}

// Returns the names of fields that a text has between commas, each once, or the status if one is no field's.
fn names_in<'a>(
    rt: &HostRuntime,
    opened: &OpenedIndex,
    text: &'a str,
) -> anyhow::Result<Result<Vec<&'a str>, u8>> {
    let mut names = Vec::new(rt.alloc());
    for name in text.split(',') {
        if let Err(status) = field_named(rt, opened, name)? {
            return Ok(Err(status));
        }
        if !is_one_of(name, &names) {
            names.push(name)?;
        }
    }
    Ok(Ok(names))
}

// Returns whether a name is one of some names.
fn is_one_of(name: &str, names: &[&str]) -> bool {
    for other in names {
        if *other == name {
            return true;
        }
    }
    false
}

// Returns what is printed of stored lines, or the status if --color has no value that it may have.
fn part_given<'a, 'n>(
    rt: &HostRuntime,
    given: &'a ArgMatches<'_>,
    names: &'a [&'n str],
) -> anyhow::Result<Result<StoredPart<'a, 'n>, u8>> {
    if given.get_flag("snippet") {
        return match style_given(rt, given) {
            Some(style) => Ok(Ok(snippet_part(given, style))),
            None => Ok(Err(refuse(rt, "--color is always, never or auto")?)),
        };
    }
    if let Some(field) = given.get_str("locate") {
        return Ok(Ok(StoredPart::Place(field)));
    }
    if given.get_flag("source") {
        return Ok(Ok(StoredPart::Line));
    }
    if names.is_empty() {
        return Ok(Ok(StoredPart::Nothing));
    }
    Ok(Ok(StoredPart::Fields(names)))
}

// Returns snippets as what is printed: of stored lines, or of lines that are read again.
fn snippet_part<'a, 'n>(given: &'a ArgMatches<'_>, style: MarkStyle) -> StoredPart<'a, 'n> {
    match given.get_str("locate") {
        Some(field) => StoredPart::PlacedSnippet(field, style),
        None => StoredPart::Snippet(style),
    }
}

// Prints what is wanted of the matching documents.
fn print_wanted(
    rt: &HostRuntime,
    path: &str,
    opened: &OpenedIndex,
    query: &Query,
    wanted: &Wanted<'_, '_>,
) -> anyhow::Result<ExitCode> {
    let files = HostLines::new(rt);
    let mut out = BufWriter::new(rt.alloc(), io::writer(rt))?;
    let written = write_wanted(rt.alloc(), &mut out, opened, query, wanted, &files);
    out.flush()?;
    ended(rt, path, written)
}

/// Writes what is wanted of the matching documents. Returns whether any matches.
pub fn write_wanted<W: Write, L: SourceLines>(
    alloc: Global,
    out: &mut W,
    opened: &OpenedIndex,
    query: &Query,
    wanted: &Wanted<'_, '_>,
    files: &L,
) -> Result<bool, AnswerFault> {
    match wanted {
        Wanted::Count(format) => write_count(alloc, out, opened, query, *format),
        Wanted::Best(how) => write_best(alloc, out, opened, query, how, files),
        Wanted::Found(how) => write_listing(alloc, out, opened, query, how, files),
    }
}

// Returns where the ids are read that are printed instead of document numbers, if requested, or the status if the index
// has none.
fn ids_given(
    rt: &HostRuntime,
    opened: &OpenedIndex,
    given: &ArgMatches<'_>,
) -> anyhow::Result<Result<Option<IdSource>, u8>> {
    if !given.get_flag("ids") {
        return Ok(Ok(None));
    }
    match id_source(opened) {
        Ok(Ok(source)) => Ok(Ok(Some(source))),
        Ok(Err(reason)) => Ok(Err(refuse(rt, reason)?)),
        Err(fault) => Ok(Err(refuse(rt, fault)?)),
    }
}

// Returns the query of a text, or the status if it is none.
fn query_of(
    rt: &HostRuntime,
    opened: &OpenedIndex,
    fields: &[Field],
    text: &str,
) -> anyhow::Result<Result<Query, u8>> {
    match opened.parse_query(rt.alloc(), fields, text) {
        Ok(mut query) => {
            tell_left_out(rt, opened, fields, text)?;
            opened.bound(&mut query);
            Ok(Ok(query))
        }
        Err(error) => Ok(Err(refuse_query(rt, opened, text, error)?)),
    }
}

/// Returns the fields for words without a field name: those given, or all indexed text fields.
pub(crate) fn default_fields(
    rt: &HostRuntime,
    opened: &OpenedIndex,
    given: &ArgMatches<'_>,
) -> anyhow::Result<Result<Vec<Field>, u8>> {
    let mut fields = Vec::new(rt.alloc());
    let Some(names) = given.get_strs("field") else {
        for (field, entry) in opened.schema().fields() {
            if entry.is_indexed() && entry.value_type() == ValueType::Str {
                fields.push(field)?;
            }
        }
        return Ok(Ok(fields));
    };
    for name in names {
        match field_named(rt, opened, name)? {
            Ok(field) => fields.push(field)?,
            Err(status) => return Ok(Err(status)),
        }
    }
    Ok(Ok(fields))
}
