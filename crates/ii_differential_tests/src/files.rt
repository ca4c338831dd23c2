ghost use Rattle.std.specs.Prelude.{◌≡◌, length, IfOk};

use crate::compare::{DifferenceCounts, MODES, goes_over, names, option_of, shared};
use ii_base::{
    CompositeFile, Fault, Field, FieldEntry, IndexRecordOption, Part, Schema, ValueType,
};
use ii_fieldnorm::FieldNormReader;
use ii_reader::{InvertedIndexFieldSpace, InvertedIndexReader, OpenIndex, open_index_with_norms};
use ii_slow_reader::{
    Body, Damage, Entry, FieldFiles, Files, Info, Mode, Space, body_of, bytes_in, read_composite,
    read_dictionary, read_index, read_spaces, read_store, read_term,
};
use ii_termdict::TermDictionary;
use ii_termstore::{TermInfo, TermInfoStore};
use std::alloc::Global;

/// Returns whether both readers find the same bodies in a composite file, or report the same corrupt part.
pub fn same_composite(alloc: Global, bytes: &[u8]) -> Result<bool, Fault> {
    let bodies = read_composite(alloc, bytes)?;
    match (CompositeFile::open(alloc, shared(alloc, bytes)?), bodies) {
        (Ok(file), Some(bodies)) => same_bodies(&file, bytes, bodies.as_slice()),
        (Err(fault), None) => Ok(names(fault, Damage::Composite)),
        _ => Ok(false),
    }
}

// Returns whether a file has these bodies, and no others among the fields 0 to 8.
fn same_bodies(file: &CompositeFile, bytes: &[u8], bodies: &[Body]) -> Result<bool, Fault> {
    let mut same = true;
    for body in bodies {
        same &= same_body(file, bytes, bodies, body.field)?;
    }
    for field in 0..9 {
        same &= same_body(file, bytes, bodies, field)?;
    }
    Ok(same)
}

fn same_body(
    file: &CompositeFile,
    bytes: &[u8],
    bodies: &[Body],
    field: u64,
) -> Result<bool, Fault> {
    let id = u32::try_from(field).unwrap_or(u32::MAX);
    let found = file.open_read(Field::from_field_id(id))?;
    match (found, body_of(bodies, field)) {
        (Some(found), Some(body)) => {
            Ok(bytes_in(bytes, body.start, body.end) == Some(found.as_slice()))
        }
        (None, None) => Ok(true),
        _ => Ok(false),
    }
}

/// Returns whether both readers find the same terms in a store.
pub fn same_store(alloc: Global, bytes: &[u8]) -> Result<bool, Fault> {
    let infos = read_store(alloc, bytes)?;
    match (TermInfoStore::open(shared(alloc, bytes)?), infos) {
        (Ok(store), Some(infos)) => Ok(has_infos(&store, infos.as_slice())),
        (Err(fault), None) => Ok(names(fault, Damage::TermStore)),
        _ => Ok(false),
    }
}

fn has_infos(store: &TermInfoStore, infos: &[Info]) -> bool {
    if store.num_terms() != infos.len() {
        return false;
    }
    let mut same = true;
    for (ord, info) in infos.iter().enumerate() {
        same &= is_info(&store.get(ord as u64), *info);
    }
    same
}

// Returns whether a term info has these values.
fn is_info(found: &TermInfo, info: Info) -> bool {
    u64::from(found.doc_freq) == info.docs
        && found.postings_range.start as u64 == info.postings_start
        && found.postings_range.end as u64 == info.postings_end
        && found.positions_range.start as u64 == info.positions_start
        && found.positions_range.end as u64 == info.positions_end
}

/// Returns whether both readers find the same keys and terms in a dictionary.
pub fn same_dictionary(alloc: Global, bytes: &[u8]) -> Result<bool, Fault> {
    match (
        TermDictionary::open(shared(alloc, bytes)?),
        read_dictionary(alloc, bytes)?,
    ) {
        (Ok(terms), Ok(entries)) => Ok(has_entries(&terms, entries.as_slice())),
        (Err(fault), Err(damage)) => Ok(names(fault, damage)),
        _ => Ok(false),
    }
}

fn has_entries(terms: &TermDictionary, entries: &[Entry<'_>]) -> bool {
    if terms.num_terms() != entries.len() {
        return false;
    }
    let mut stream = terms.stream();
    let mut same = true;
    for entry in entries {
        same &= match stream.next() {
            Some((key, info)) => key == entry.key && is_info(&info, entry.info),
            None => false,
        };
        same &= match terms.get(entry.key) {
            Some(info) => is_info(&info, entry.info),
            None => false,
        };
    }
    same
}

/// Opens an index of one field with each option and counts the results. The field has JSON values, or texts
/// and norms.
pub fn judge_index(
    alloc: Global,
    files: Files<'_>,
    value_type: ValueType,
    counts: &mut DifferenceCounts,
) -> Result<(), Fault> {
    for recorded in MODES {
        counts.add(same_index(alloc, files, value_type, recorded)?);
    }
    Ok(())
}

// Builds a schema of one JSON field, or of one text field with norms.
fn one_field(
    alloc: Global,
    value_type: ValueType,
    option: IndexRecordOption,
) -> Result<Schema, Fault>
    ensures { IfOk result (λ schema. length schema ≡ 1) }
{
    let mut entries = Vec::new(alloc);
    let name = String::from_str(alloc, "field")?;
    let entry = match value_type {
        ValueType::Json => FieldEntry::json(name, option, false),
        _ => FieldEntry::text(name, option, true),
    };
    entries.push(entry)?;
    Ok(Schema::new(entries))
}

// Returns whether both readers find the same terms, lists and norms in an index.
fn same_index(
    alloc: Global,
    files: Files<'_>,
    value_type: ValueType,
    recorded: Mode,
) -> Result<bool, Fault> {
    let schema = one_field(alloc, value_type, option_of(recorded))?;
    let opened = open_index_with_norms(
        alloc,
        shared(alloc, files.terms)?,
        shared(alloc, files.postings)?,
        shared(alloc, files.positions)?,
        shared(alloc, files.norms)?,
        &schema,
    );
    match (opened, read_index(alloc, files, 0)?) {
        (Ok(index), Ok(field)) => same_field(alloc, &index, &field, value_type, recorded),
        (Err(fault), Err(damage)) => Ok(names(fault, damage)),
        _ => Ok(false),
    }
}

// Returns whether the first field of an index has these contents.
fn same_field(
    alloc: Global,
    index: &OpenIndex,
    field: &FieldFiles<'_>,
    value_type: ValueType,
    recorded: Mode,
) -> Result<bool, Fault>
    requires { length index.now.readers ≡ 1 }
{
    let first = Field::from_field_id(0);
    let reader = index.reader(first);
    let mut same = reader.total_num_tokens() == field.tokens
        && has_entries(reader.terms(), field.entries.as_slice());
    for entry in field.entries.as_slice() {
        for requested in MODES {
            same &= same_term(alloc, reader, field, entry, recorded, requested)?;
        }
    }
    if value_type == ValueType::Json {
        same &= same_spaces(alloc, reader, field.entries.as_slice())?;
    }
    same &= match index.get_fieldnorms_reader(first)? {
        Some(norms) => has_norms(&norms, field.norms),
        None => field.norms.is_none(),
    };
    Ok(same)
}

// Returns whether both readers list the same paths of a JSON field, or report a corrupt key.
fn same_spaces(
    alloc: Global,
    reader: &InvertedIndexReader,
    entries: &[Entry<'_>],
) -> Result<bool, Fault> {
    match (
        reader.list_encoded_json_fields(alloc),
        read_spaces(alloc, entries)?,
    ) {
        (Ok(found), Some(spaces)) => Ok(are_spaces(found.as_slice(), spaces.as_slice())),
        (Err(fault), None) => Ok(fault == Fault::Damaged(Part::JsonKey)),
        _ => Ok(false),
    }
}

fn are_spaces(found: &[InvertedIndexFieldSpace], spaces: &[Space<'_>]) -> bool {
    let mut same = found.len() == spaces.len();
    for (listed, space) in found.iter().zip(spaces.iter()) {
        same &= listed.field_name.as_slice() == space.path
            && listed.field_type.to_code() == space.letter
            && listed.num_terms == space.terms
            && listed.postings_size == u128::from(space.postings)
            && listed.positions_size == u128::from(space.positions);
    }
    same
}

// Returns whether both readers find the same list of a term, or report the same corrupt part.
fn same_term(
    alloc: Global,
    reader: &InvertedIndexReader,
    field: &FieldFiles<'_>,
    entry: &Entry<'_>,
    recorded: Mode,
    requested: Mode,
) -> Result<bool, Fault> {
    let Some(info) = reader.terms().get(entry.key) else {
        return Ok(false);
    };
    let list = read_term(alloc, field, entry.info, recorded, requested)?;
    match (
        reader.read_postings_from_terminfo(&info, option_of(requested)),
        list,
    ) {
        (Ok(mut cursor), Ok(list)) => goes_over(alloc, &mut cursor, &list),
        (Err(fault), Err(damage)) => Ok(names(fault, damage)),
        _ => Ok(false),
    }
}

// Returns whether norms have these ids.
fn has_norms(norms: &FieldNormReader, ids: Option<&[u8]>) -> bool {
    let Some(ids) = ids else {
        return false;
    };
    let mut same = u64::from(norms.num_docs()) == ids.len() as u64;
    for doc in 0..norms.num_docs() {
        same &= match ids.get(doc as usize) {
            Some(id) => *id == norms.fieldnorm_id(doc),
            None => false,
        };
    }
    same
}
