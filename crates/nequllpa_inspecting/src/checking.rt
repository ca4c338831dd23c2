//! Checks all files of an index and writes the damages found.
ghost use Rattle.std.specs.Prelude.{◌≡◌, ℕ, IfOk, List, length, map};
ghost use Rattle.ii_base.specs.Words.{Word};
ghost use Rattle.ii_definitions.specs.Fields.{option_of};
ghost use Rattle.ii_definitions.specs.Files.{HoldTokens};
ghost use Rattle.ii_definitions.specs.IndexCalls.{MayAllBeIndexed, call_of};
ghost use Rattle.ii_definitions.specs.Norms.{HoldNorms};
ghost use Rattle.ii_definitions.specs.Tokens.{tokens_of};
ghost use Rattle.ii_definitions.specs.declared.index_call.IndexCall.{IndexCall};
ghost use Rattle.ii_damage.specs.Damages.{damages_of, index_files};
ghost use Rattle.ii_damage.specs.Totals.{HasTotals, opened_readers};
ghost use Rattle.ii_io.specs.Faults.{OnlyMemory};
ghost use Rattle.ii_store.specs.Index.{view};

use crate::damage_row::DamageRow;
use bytes::Bytes;
use ii_base::{Fault, Field, FieldEntry, Part, Schema};
use ii_counts::CountReaders;
use ii_damage::{FoundDamage, Totals, find_damages};
use ii_store::StoredIndex;
use ii_term_text::push_key;
use nequllpa_opening::{AnswerFault, RowFormat};
use std::alloc::Global;
use std::io::Write;

/// How much of an index was walked, and the number of damages.
#[derive(Clone, Copy, Debug, PartialEq, Eq)]
pub struct Checked {
    pub terms: u64,
    pub postings: u64,
    pub positions: u64,
    pub damages: u64,
}

/// How the damages of files are written.
#[derive(Clone, Copy, Debug)]
pub struct DamageRows {
    /// The id of the segment that has the files, in an index of version 2 or 3.
    pub segment: Option<u64>,
    /// How each is written.
    pub format: RowFormat,
}

/// Finds the damages of an index over a schema (`find_damages`) and writes a line for each: the segment, file, field
/// and term, what is wrong, and the bytes of the file. A JSON line is that of a `DamageRow`. An index that was written
/// from index calls has none.
pub fn check<W: Write>(
    alloc: Global,
    out: &mut W,
    rows: DamageRows,
    schema: &Schema,
    stored: StoredIndex,
) -> Result<Checked, AnswerFault>
    ensures damages { IfOk result (λ checked. checked.damages ≡ length (damages_of schema.now (index_files (view stored)))) }
    ensures totals { IfOk result (λ checked. HasTotals (opened_readers schema.now (index_files (view stored))) (record { terms = checked.terms; postings = checked.postings; positions = checked.positions })) }
    ensures written { (words : List ℕ → List Word) (calls : List IndexCall) → MayAllBeIndexed schema.now stored.num_docs calls
        → HoldTokens (option_of schema.now) stored.terms.items stored.postings.items stored.positions.items (tokens_of words (map (call_of schema.now) calls))
        → HoldNorms schema.now stored.num_docs stored.fieldnorms.items (tokens_of words (map (call_of schema.now) calls)) → IfOk result (λ checked. checked.damages ≡ 0) }
{
    let mut totals = Totals::nothing();
    let found = find_damages(alloc, schema, stored, &mut totals)?;
    let damages = found.len() as u64;
    let written = write_damages(alloc, out, rows, schema, &found);
    drop(found);
    written?;
    let Totals {
        terms,
        postings,
        positions,
    } = totals;
    Ok(Checked {
        terms,
        postings,
        positions,
        damages,
    })
}

/// Returns why bytes aren't a file of the counts of `num_docs` documents in each field of a schema, if they aren't.
/// Fails only with `OutOfMemory`.
pub fn counts_damage(
    alloc: Global,
    schema: &Schema,
    num_docs: u32,
    bytes: Vec<u8>,
) -> Result<Option<Fault>, Fault>
    ensures only { OnlyMemory result }
{
    let counts = match CountReaders::open(alloc, Bytes::from_vec(bytes)?) {
        Ok(counts) => counts,
        Err(Fault::Damaged(part)) => return Ok(Some(Fault::Damaged(part))),
        Err(fault) => return Err(fault),
    };
    for (field, _entry) in schema.fields() {
        match counts.get_field(field, num_docs) {
            Ok(Some(_)) => {}
            Ok(None) => return Ok(Some(Fault::Damaged(Part::TokenCount))),
            Err(Fault::Damaged(part)) => return Ok(Some(Fault::Damaged(part))),
            Err(fault) => return Err(fault),
        }
    }
    Ok(None)
}

// Writes a line for each damage.
fn write_damages<W: Write>(
    alloc: Global,
    out: &mut W,
    rows: DamageRows,
    schema: &Schema,
    found: &Vec<FoundDamage>,
) -> Result<(), AnswerFault> {
    for damage in found {
        if rows.format.is_json() {
            write_damage_json(alloc, out, rows, schema, damage)?;
        } else {
            write_damage(alloc, out, rows, schema, damage)?;
        }
    }
    Ok(())
}

// Writes a damage as a line of words.
fn write_damage<W: Write>(
    alloc: Global,
    out: &mut W,
    rows: DamageRows,
    schema: &Schema,
    damage: &FoundDamage,
) -> Result<(), AnswerFault> {
    if let Some(id) = rows.segment {
        write!(out, "segment {id}: ")?;
    }
    write_place(alloc, out, schema, damage)?;
    let bytes = damage.bytes();
    writeln!(
        out,
        ": {}, bytes {}..{}",
        damage.damage(),
        bytes.start,
        bytes.end
    )?;
    Ok(())
}

// Writes a damage as a JSON object.
fn write_damage_json<W: Write>(
    alloc: Global,
    out: &mut W,
    rows: DamageRows,
    schema: &Schema,
    damage: &FoundDamage,
) -> Result<(), AnswerFault> {
    let what = format!(in alloc; "{}", damage.damage())?;
    let kind = format!(in alloc; "{}", damage.kind())?;
    let file = Some(kind.as_str());
    let entry = match damage.field() {
        Some(field) => entry_of(schema, field),
        None => None,
    };
    let field = entry.map(|entry| entry.name());
    let owned = term_of_damage(alloc, entry, damage)?;
    let term = owned.as_ref().map(|text| text.as_str());
    let bytes = damage.bytes();
    let bytes = Some((bytes.start, bytes.end));
    let row = DamageRow {
        damage: what.as_str(),
        segment: rows.segment,
        file,
        field,
        term,
        bytes,
        document: None,
    };
    row.write(alloc, out, rows.format)
}

// Returns the text of the key that a damage belongs to, if there is one.
fn term_of_damage(
    alloc: Global,
    entry: Option<&FieldEntry>,
    damage: &FoundDamage,
) -> Result<Option<String>, AnswerFault> {
    let (Some(entry), Some(key)) = (entry, damage.key()) else {
        return Ok(None);
    };
    let mut text = String::new(alloc);
    push_key(alloc, &mut text, entry.value_type(), key)?;
    Ok(Some(text))
}

// Writes the file, field and term of a damage.
fn write_place<W: Write>(
    alloc: Global,
    out: &mut W,
    schema: &Schema,
    damage: &FoundDamage,
) -> Result<(), AnswerFault> {
    write!(out, "the file of {}", damage.kind())?;
    let Some(field) = damage.field() else {
        return Ok(());
    };
    let Some(entry) = entry_of(schema, field) else {
        return Ok(());
    };
    write!(out, ", field {}", entry.name())?;
    match damage.key() {
        Some(key) => write_key(alloc, out, entry, key),
        None => Ok(()),
    }
}

// Returns the entry of a field, if the schema has it.
fn entry_of(schema: &Schema, field: Field) -> Option<&FieldEntry> {
    if (field.field_id() as usize) < schema.num_fields() {
        return Some(schema.get_field_entry(field));
    }
    None
}

// Writes the text of a key.
fn write_key<W: Write>(
    alloc: Global,
    out: &mut W,
    entry: &FieldEntry,
    key: &[u8],
) -> Result<(), AnswerFault> {
    let mut text = String::new(alloc);
    push_key(alloc, &mut text, entry.value_type(), key)?;
    write!(out, ", term {text}")?;
    Ok(())
}
