//! Reports how many bytes the parts of an index take.
ghost use Rattle.std.specs.Prelude.{◌<◌};

use crate::merged_terms::MergedTerms;
use ii_base::Field;
use ii_schema_text::type_name;
use nequllpa_opening::{AnswerFault, OpenedIndex, write_quoted, write_separator};
use std::alloc::Global;
use std::io::Write;

// The number of size classes of lists, one for each power of two.
const SIZES: usize = 32;

/// The space that the lists of a field take.
#[derive(Clone, Copy)]
struct Taken {
    terms: u64,
    keys: u64,
    postings: u64,
    positions: u64,
    documents: u64,
    lists: [u64; SIZES],
}

/// Writes for each field the bytes of its keys, postings and positions, the bits of postings per document,
/// and how many terms there are of each size class. What a term takes is the sum over the segments.
pub fn write_stats<W: Write>(
    alloc: Global,
    out: &mut W,
    opened: &OpenedIndex,
) -> Result<(), AnswerFault> {
    for id in 0..opened.schema().num_fields() {
        let field = Field::from_field_id(id as u32);
        let taken = taken_by(alloc, opened, field)?;
        let entry = opened.entry(field);
        writeln!(out)?;
        writeln!(
            out,
            "field {}, {}",
            entry.name(),
            type_name(entry.value_type())
        )?;
        write_taken(out, &taken)?;
    }
    Ok(())
}

/// Writes the same as a JSON array. It has an object for each field: `field`, `type` and `terms`; `bytes`, an object with
/// `keys`, `postings` and `positions`; `documents_in_all_lists`; `bits_of_postings_for_each`, if there is a document;
/// and `lists`, an array that has an object for each size class with lists: `lists`, how many lists there are of
/// `documents` documents and more.
pub fn write_stats_json<W: Write>(
    alloc: Global,
    out: &mut W,
    opened: &OpenedIndex,
) -> Result<(), AnswerFault> {
    write!(out, "[")?;
    for id in 0..opened.schema().num_fields() {
        write_separator(out, id)?;
        let field = Field::from_field_id(id as u32);
        let taken = taken_by(alloc, opened, field)?;
        let entry = opened.entry(field);
        write!(out, "{{\"field\":")?;
        write_quoted(alloc, out, entry.name())?;
        write!(out, ",\"type\":\"{}\"", type_name(entry.value_type()))?;
        write_taken_json(out, &taken)?;
        write!(out, "}}")?;
    }
    write!(out, "]")?;
    Ok(())
}

// Returns the space that the lists of a field take.
fn taken_by(alloc: Global, opened: &OpenedIndex, field: Field) -> Result<Taken, AnswerFault> {
    let mut terms = MergedTerms::new(alloc, opened.segments(), field)?;
    let mut taken = Taken {
        terms: 0,
        keys: 0,
        postings: 0,
        positions: 0,
        documents: 0,
        lists: [0; SIZES],
    };
    for _ in 0..terms.most() {
        let Some(term) = terms.next()? else {
            return Ok(taken);
        };
        taken.terms = taken.terms.saturating_add(1);
        taken.keys = taken.keys.saturating_add(term.key.len() as u64);
        taken.postings = taken.postings.saturating_add(term.postings);
        taken.positions = taken.positions.saturating_add(term.positions);
        taken.documents = taken.documents.saturating_add(term.doc_freq);
        if let Some(count) = taken.lists.get_mut(size_of_list(term.doc_freq)) {
            *count = (*count).saturating_add(1);
        }
    }
    Ok(taken)
}

// Returns the size class of a list: the logarithm of its length.
fn size_of_list(doc_freq: u64) -> usize {
    match doc_freq.checked_ilog2() {
        Some(size) => size as usize,
        None => 0,
    }
}

// Writes the space that the lists of a field take.
fn write_taken<W: Write>(out: &mut W, taken: &Taken) -> Result<(), AnswerFault> {
    writeln!(out, "{:>12} terms", taken.terms)?;
    writeln!(out, "{:>12} bytes of keys", taken.keys)?;
    writeln!(out, "{:>12} bytes of postings", taken.postings)?;
    writeln!(out, "{:>12} bytes of positions", taken.positions)?;
    writeln!(out, "{:>12} documents in all lists", taken.documents)?;
    if taken.documents > 0 {
        let bits = per_posting(taken.postings, taken.documents);
        writeln!(
            out,
            "{:>9}.{:02} bits of postings for each",
            bits / 100,
            bits % 100
        )?;
    }
    write_sizes(out, &taken.lists)
}

// Writes the space that the lists of a field take as members of a JSON object.
fn write_taken_json<W: Write>(out: &mut W, taken: &Taken) -> Result<(), AnswerFault> {
    write!(
        out,
        ",\"terms\":{},\"bytes\":{{\"keys\":{},\"postings\":{},\"positions\":{}}},\"documents_in_all_lists\":{}",
        taken.terms, taken.keys, taken.postings, taken.positions, taken.documents
    )?;
    if taken.documents > 0 {
        let bits = per_posting(taken.postings, taken.documents);
        write!(
            out,
            ",\"bits_of_postings_for_each\":{}.{:02}",
            bits / 100,
            bits % 100
        )?;
    }
    write!(out, ",\"lists\":[")?;
    write_sizes_json(out, &taken.lists)?;
    write!(out, "]")?;
    Ok(())
}

// Writes how many lists there are of each size class as JSON objects.
fn write_sizes_json<W: Write>(out: &mut W, lists: &[u64; SIZES]) -> Result<(), AnswerFault> {
    let mut written = 0usize;
    for (size, count) in lists.iter().enumerate() {
        if *count == 0 {
            continue;
        }
        write_separator(out, written)?;
        written = 1;
        let first = 1u64 << size;
        write!(out, "{{\"documents\":{first},\"lists\":{}}}", *count)?;
    }
    Ok(())
}

// Returns the bits per document, times 100.
fn per_posting(bytes: u64, documents: u64) -> u128
    requires { 0 < documents }
{
    bytes as u128 * 800 / documents as u128
}

// Writes how many lists there are of each size class, with a bar for the number.
fn write_sizes<W: Write>(out: &mut W, lists: &[u64; SIZES]) -> Result<(), AnswerFault> {
    let most = most_of(lists);
    for (size, count) in lists.iter().enumerate() {
        if *count == 0 {
            continue;
        }
        let first = 1u64 << size;
        write!(out, "{:>12} lists of {} documents and more ", *count, first)?;
        write_bar(out, *count, most)?;
    }
    Ok(())
}

// Returns the largest number, at least 1.
fn most_of(lists: &[u64; SIZES]) -> u64 {
    let mut most = 1;
    for count in lists {
        if *count > most {
            most = *count;
        }
    }
    most
}

// Writes a bar of at most 40 marks.
fn write_bar<W: Write>(out: &mut W, count: u64, most: u64) -> Result<(), AnswerFault> {
    if most == 0 {
        return Ok(());
    }
    let marks = count as u128 * 40 / most as u128;
    for _ in 0..marks {
        write!(out, "#")?;
    }
    writeln!(out)?;
    Ok(())
}
