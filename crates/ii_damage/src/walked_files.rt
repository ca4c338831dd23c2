//! Opens the files of an index field by field, whatever they hold.
ghost use Rattle.std.specs.Prelude.{◌≡◌, IfOk};
ghost use Rattle.ii_io.specs.Faults.{OnlyMemory};
ghost use Rattle.ii_store.specs.Index.{view};
ghost use Rattle.ii_damage.specs.Damages.{field_reader, file_bytes, index_files, field_places, reader_in};
ghost use Rattle.ii_damage.specs.Opened.{Opens};

use crate::damage::FieldPlaces;
use crate::field_bodies::FieldBodies;
use bytes::Bytes;
use ii_base::{DocId, Fault, Field, IndexRecordOption, Part};
use ii_reader::InvertedIndexReader;
use ii_store::{Kind, StoredIndex};
use ii_termdict::TermDictionary;
use std::alloc::Global;
use std::marker::Model;

// The size of a field's number of tokens, which precedes all lists, in bytes.
const TOKEN_COUNT_SIZE: u64 = 8;

/// The files of an index, as they are.
pub struct WalkedFiles {
    num_docs: DocId,
    terms: FieldBodies,
    postings: FieldBodies,
    positions: FieldBodies,
    fieldnorms: FieldBodies,
}

// Makes each drop a call.
impl Drop for WalkedFiles {
    fn drop(self) {
        let WalkedFiles {
            num_docs: _,
            terms: _,
            postings: _,
            positions: _,
            fieldnorms: _,
        } = self;
    }
}

impl Model for WalkedFiles {
    ghost use Rattle.ii_damage.specs.Damages.{IndexFiles};

    ghost Value = { IndexFiles };

    ghost view = { λ f. record {
      num_docs = f.num_docs;
      terms = f.terms;
      postings = f.postings;
      positions = f.positions;
      fieldnorms = f.fieldnorms;
    } };
}

/// The result of opening the bodies of a field.
#[derive(Drop)]
pub enum OpenedField {
    /// The reader of the field.
    Reader(InvertedIndexReader),
    /// The damaged file and its first damaged part.
    Damaged(Kind, Part),
}

impl WalkedFiles {
    /// Opens the files of an index. Fails only with `OutOfMemory`.
    pub fn open(alloc: Global, stored: StoredIndex) -> Result<WalkedFiles, Fault>
        ensures files { IfOk result (λ files. files ≡ index_files (view stored)) }
        ensures only { OnlyMemory result }
    {
        let StoredIndex {
            num_docs,
            schema: _,
            terms,
            postings,
            positions,
            fieldnorms,
        } = stored;
        Ok(WalkedFiles {
            num_docs,
            terms: FieldBodies::open(alloc, terms)?,
            postings: FieldBodies::open(alloc, postings)?,
            positions: FieldBodies::open(alloc, positions)?,
            fieldnorms: FieldBodies::open(alloc, fieldnorms)?,
        })
    }

    /// Returns the number of documents.
    pub fn num_docs(&self) -> DocId
        ensures { result ≡ self.now.num_docs }
    {
        self.num_docs
    }

    /// Returns the file of a kind. For the schema, which has no bodies, it returns the file of terms.
    pub fn file(&self, kind: Kind) -> &FieldBodies
        ensures { result.now ≡ file_bytes self.now kind }
    {
        match kind {
            Kind::Schema | Kind::Terms => &self.terms,
            Kind::Postings => &self.postings,
            Kind::Positions => &self.positions,
            Kind::FieldNorms => &self.fieldnorms,
        }
    }

    /// Returns where the terms, lists and positions of a field are.
    pub fn places(&self, field: Field) -> FieldPlaces
        ensures { result ≡ field_places self.now field }
    {
        let postings = self.postings.place(field);
        FieldPlaces {
            field,
            terms: self.terms.place(field),
            lists: postings.start.saturating_add(TOKEN_COUNT_SIZE),
            positions: self.positions.place(field).start,
        }
    }

    /// Opens a field: returns its reader, or the damaged file and its first damaged part. Fails only with
    /// `OutOfMemory`.
    pub fn open_field(&self, field: Field, option: IndexRecordOption) -> Result<OpenedField, Fault>
        ensures opened { IfOk result (Opens (field_reader self.now field option)) }
        ensures only { OnlyMemory result }
    {
        let Some(terms) = self.terms.body(field)? else {
            return Ok(OpenedField::Reader(InvertedIndexReader::empty(option)));
        };
        let Some(postings) = self.postings.body(field)? else {
            return Ok(OpenedField::Damaged(Kind::Postings, Part::Composite));
        };
        let Some(positions) = self.positions.body(field)? else {
            return Ok(OpenedField::Damaged(Kind::Positions, Part::Composite));
        };
        Ok(open_bodies(terms, postings, positions, option))
    }
}

// Opens the three bodies of a field: returns the reader, or the damaged file and its first damaged part.
fn open_bodies(
    terms: Bytes,
    postings: Bytes,
    positions: Bytes,
    option: IndexRecordOption,
) -> OpenedField
    ensures { Opens (reader_in option (Some terms) (Some postings) (Some positions)) result }
{
    let terms = match TermDictionary::open(terms) {
        Ok(terms) => terms,
        Err(Fault::Damaged(part)) => return OpenedField::Damaged(Kind::Terms, part),
        Err(_) => return OpenedField::Damaged(Kind::Terms, Part::Dictionary),
    };
    match InvertedIndexReader::new(terms, postings, positions, option) {
        Ok(reader) => OpenedField::Reader(reader),
        Err(_) => OpenedField::Damaged(Kind::Postings, Part::TokenCount),
    }
}
