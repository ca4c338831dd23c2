//! Reads the values of the field `id`, in the terms of an index or in its stored documents.
ghost use Rattle.std.specs.Prelude.{◌≡◌, ◌⊎◌, ◌<◌, ◌&&◌, IfErr, IfOk, Ok, length, nat_lt};
ghost use Rattle.ii_segments.specs.Segments.{is_living};
ghost use Rattle.std.specs.Option.{option_map};
ghost use Rattle.ii_io.specs.Composite.{body_of};
ghost use Rattle.ii_io.specs.declared.faults.Part.{Part};
ghost use Rattle.ii_fieldnorm.specs.Readers.{id_of_doc, norms_of_ids};
ghost use Rattle.nequllpa_opening.specs.Ids.{first_above_one as the_first_above_one, first_of_several as the_first_of_several, id_field_of};

use crate::documents::StoredDocs;
use crate::faults::AnswerFault;
use crate::opened::{Opened, is_living};
use crate::opened_index::{Bases, OpenedIndex};
use ii_alive::AliveBits;
use ii_base::{Fault, Field, IndexRecordOption, ValueType};
use ii_docset::{DocId, DocSet, TERMINATED};
use ii_documents::{read_line, value_text};
use ii_fieldnorm::FieldNormReader;
use ii_reader::InvertedIndexReader;
use ii_term_text::push_key;
use ii_termdict::TermInfo;
use serde_json::Value;
use std::alloc::Global;
use thiserror::Error;

// The field whose values are ids.
const ID_FIELD: &str = "id";

/// Why documents can't be printed by the values of the field `id`.
#[derive(Clone, Copy, Debug, PartialEq, Eq, Error)]
pub enum NoIds {
    /// The schema has no indexed field `id`.
    #[error("--ids: the schema has no indexed field id")]
    NoField,
    /// The field is a JSON field.
    #[error("--ids: the field id has JSON values, and a document may have several terms")]
    JsonValues,
    /// The field is a text field without norms, which would count the words.
    #[error("--ids: the field id has texts without fieldnorms, so their number of words is not known")]
    NoNorms,
    /// A document has a text of several words, none of which is the id.
    #[error("--ids: document {0} has an id of several words, which are indexed one by one; index ids as u64 or as one word")]
    SeveralWords(DocId),
}

/// Returns the field `id`, or why documents can't be printed by its values. An index stores the words of a
/// text and not the text, so each document may have at most one word.
///
/// # Errors
///
/// `Damaged` if the field's norms don't open; `OutOfMemory`.
pub fn id_field(opened: &Opened) -> Result<Result<Field, NoIds>, Fault>
    ensures found { IfOk result (λ found. found ≡ id_field_of opened.now.schema opened.now.alive opened.now.index.fieldnorms) }
    ensures inside { IfOk result (λ found. IfOk found (λ field. field < length opened.now.schema)) }
    ensures only { IfErr result (λ fault. (fault ≡ Fault.OutOfMemory) ⊎ (fault ≡ Fault.Damaged Part.FieldNorms)) }
{
    let Some(field) = opened.field_named(ID_FIELD) else {
        return Ok(Err(NoIds::NoField));
    };
    let entry = opened.entry(field);
    if !entry.is_indexed() {
        return Ok(Err(NoIds::NoField));
    }
    match entry.value_type() {
        ValueType::Json => Ok(Err(NoIds::JsonValues)),
        ValueType::Str => match first_of_several(opened, field)? {
            Ok(None) => Ok(Ok(field)),
            Ok(Some(doc)) => Ok(Err(NoIds::SeveralWords(doc))),
            Err(reason) => Ok(Err(reason)),
        },
        _ => Ok(Ok(field)),
    }
}

/// Does the same for an index of several segments. `SeveralWords` has the number of the document in the index.
pub fn id_field_of_all(opened: &OpenedIndex) -> Result<Result<Field, NoIds>, Fault>
    ensures { IfOk result (λ found. IfOk found (λ field. field < length opened.now.schema)) }
{
    let Some(field) = opened.field_named(ID_FIELD) else {
        return Ok(Err(NoIds::NoField));
    };
    let mut bases = Bases::new();
    for segment in opened.segments() {
        let base = bases.pass(segment);
        match id_field(segment)? {
            Ok(_) => {}
            Err(NoIds::SeveralWords(doc)) => {
                let number = segment.number_of(doc).unwrap_or(doc);
                let doc = base.saturating_add(u64::from(number));
                let doc = u32::try_from(doc).unwrap_or(u32::MAX);
                return Ok(Err(NoIds::SeveralWords(doc)));
            }
            Err(reason) => return Ok(Err(reason)),
        }
    }
    Ok(Ok(field))
}

/// Where the values of the field `id` are read.
#[derive(Clone, Copy, Debug, PartialEq, Eq)]
pub enum IdSource {
    /// In the terms of this field.
    Terms(Field),
    /// In the stored documents.
    Stored,
}

/// Returns whether the schema says of the field `id` that it is stored.
pub fn stores_ids(opened: &OpenedIndex) -> bool {
    match opened.field_named(ID_FIELD) {
        Some(field) => opened.stored().has_member(field),
        None => false,
    }
}

/// Returns where the values of the field `id` are read: in the stored documents if the schema says that it is stored,
/// else in the terms of the field (`id_field_of_all`), or why they can't be read there.
pub fn id_source(opened: &OpenedIndex) -> Result<Result<IdSource, NoIds>, Fault> {
    if stores_ids(opened) {
        return Ok(Ok(IdSource::Stored));
    }
    match id_field_of_all(opened)? {
        Ok(field) => Ok(Ok(IdSource::Terms(field))),
        Err(reason) => Ok(Err(reason)),
    }
}

// Returns the first living document with several words in a text field.
fn first_of_several(opened: &Opened, field: Field) -> Result<Result<Option<DocId>, NoIds>, Fault>
    ensures found { IfOk result (λ found. found ≡ the_first_of_several opened.now.alive (option_map norms_of_ids (body_of field opened.now.index.fieldnorms))) }
    ensures only { IfErr result (λ fault. (fault ≡ Fault.OutOfMemory) ⊎ (fault ≡ Fault.Damaged Part.FieldNorms)) }
{
    match opened.index().get_fieldnorms_reader(field)? {
        Some(norms) => {
            let first = first_above_one(&norms, opened.alive());
            drop(norms);
            Ok(Ok(first))
        }
        None => Ok(Err(NoIds::NoNorms)),
    }
}

// Returns the first living document whose norm is above that of one token.
fn first_above_one(norms: &FieldNormReader, alive: &AliveBits) -> Option<DocId>
    ensures { result ≡ the_first_above_one norms.now alive.now }
{
    for doc in 0..norms.num_docs() {
        if is_long(norms, alive, doc) {
            return Some(doc);
        }
    }
    None
}

// Returns whether a document is alive and has a norm above that of one token.
fn is_long(norms: &FieldNormReader, alive: &AliveBits, doc: DocId) -> bool
    requires { doc < norms.now.num_docs }
    ensures { result ≡ (is_living alive.now doc && nat_lt 1 (id_of_doc norms.now doc)) }
{
    if !is_living(alive, doc) {
        return false;
    }
    norms.fieldnorm_id(doc) > 1
}

/// The ids of some documents.
#[derive(Drop)]
pub struct Ids {
    // the id of each document, or an empty text
    texts: Vec<String>,
}

impl Ids {
    /// Returns empty ids.
    pub fn none(alloc: Global) -> Ids {
        Ids {
            texts: Vec::new(alloc),
        }
    }

    /// Returns the id of the document at an index, if it has one.
    pub fn at(&self, place: usize) -> Option<&str> {
        match self.texts.get(place) {
            Some(text) => {
                if text.is_empty() {
                    return None;
                }
                Some(text.as_str())
            }
            None => None,
        }
    }
}

/// Returns the ids of ascending documents of the segment at a place. From stored documents: for each the value of the
/// member `id`, a text as it is, another value as JSON. From terms: for each the first of its terms in the field, in the
/// order of the keys; terms are opened until each document has its id.
pub fn ids_of(
    alloc: Global,
    placed: (usize, &Opened),
    source: IdSource,
    docs: &[DocId],
) -> Result<Ids, AnswerFault> {
    let (place, segment) = placed;
    match source {
        IdSource::Stored => stored_ids(alloc, StoredDocs::new(segment.store(), place), docs),
        IdSource::Terms(field) => {
            if field.field_id() as usize >= segment.schema().num_fields() {
                return Ok(Ids::none(alloc));
            }
            ids_of_terms(alloc, segment, field, docs)
        }
    }
}

// Returns the ids that stored documents have.
fn stored_ids(alloc: Global, stored: StoredDocs<'_>, docs: &[DocId]) -> Result<Ids, AnswerFault> {
    let mut stored = stored;
    let mut ids = Ids::none(alloc);
    for doc in docs {
        let document = stored.get(*doc)?;
        ids.texts.push(stored_id(alloc, document)?)?;
    }
    drop(stored);
    Ok(ids)
}

// Returns the id of a stored document, an empty text if it has none.
fn stored_id(alloc: Global, document: &[u8]) -> Result<String, Fault> {
    let object = read_line(alloc, std::str::from_utf8(document).unwrap_or(""))?;
    let id = match object.get(ID_FIELD) {
        Some(value) => text_of(alloc, value),
        None => Ok(String::new(alloc)),
    };
    drop(object);
    id
}

// Returns the text of a value: of a text itself, of null an empty one, of another value its JSON.
fn text_of(alloc: Global, value: &Value) -> Result<String, Fault> {
    if value.is_null() {
        return Ok(String::new(alloc));
    }
    if let Some(text) = value.as_str() {
        return Ok(String::from_str(alloc, text)?);
    }
    value_text(alloc, value)
}

// Returns the ids of ascending documents from the terms of a field.
fn ids_of_terms(
    alloc: Global,
    opened: &Opened,
    field: Field,
    docs: &[DocId],
) -> Result<Ids, AnswerFault>
    requires { field < length opened.now.schema }
{
    let mut ids = Ids::none(alloc);
    for _ in docs {
        ids.texts.push(String::new(alloc))?;
    }
    fill_ids(alloc, opened, field, docs, &mut ids)?;
    Ok(ids)
}

// Sets the ids of the documents from the terms of a field.
fn fill_ids(
    alloc: Global,
    opened: &Opened,
    field: Field,
    docs: &[DocId],
    ids: &mut Ids,
) -> Result<(), AnswerFault>
    requires { field < length opened.now.schema }
{
    let value_type = opened.entry(field).value_type();
    let reader = opened.reader(field);
    let mut terms = reader.terms().stream();
    let mut text = String::new(alloc);
    let mut missing = docs.len();
    for _ in 0..reader.terms().num_terms() {
        if missing == 0 {
            return Ok(());
        }
        let Some((key, info)) = terms.next() else {
            return Ok(());
        };
        text.clear();
        push_key(alloc, &mut text, value_type, key)?;
        missing = missing.saturating_sub(put_term(reader, &info, docs, text.as_str(), ids)?);
    }
    Ok(())
}

// Sets a term as id of the documents that have it. Returns how many had no id before.
fn put_term(
    reader: &InvertedIndexReader,
    info: &TermInfo,
    docs: &[DocId],
    text: &str,
    ids: &mut Ids,
) -> Result<usize, Fault> {
    let mut cursor = reader.read_postings_from_terminfo(info, IndexRecordOption::Basic)?;
    let put = ids.put(&mut cursor, docs, text);
    drop(cursor);
    put
}

impl Ids {
    // Sets a text as id of the documents that a cursor has and that have no id yet. Returns their number.
    fn put<C: DocSet>(
        &mut self,
        cursor: &mut C,
        docs: &[DocId],
        text: &str,
    ) -> Result<usize, Fault> {
        let mut count = 0usize;
        for (doc, id) in docs.iter().zip(self.texts.iter_mut()) {
            if cursor.doc() >= TERMINATED {
                return Ok(count);
            }
            if *doc < cursor.doc() {
                continue;
            }
            go_to(cursor, *doc);
            if cursor.doc() == *doc && id.is_empty() {
                id.push_str(text)?;
                count = count.saturating_add(1);
            }
        }
        Ok(count)
    }
}

// Seeks the first document that is not below `doc`.
fn go_to<C: DocSet>(cursor: &mut C, doc: DocId) {
    if doc < TERMINATED {
        cursor.seek_danger(doc);
    }
}
