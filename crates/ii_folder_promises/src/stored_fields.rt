// Fields that are stored with their documents.
ghost use Rattle.std.specs.Prelude.{◌≡◌, ◌∷◌, ◌++◌, ℕ, [], List, Some, IfOk, IsErrOf, codes, false, map, true};
ghost use Rattle.std.specs.Option.{option_map};
ghost use Rattle.ii_base.specs.Schema.{SchemaEntry};
ghost use Rattle.ii_documents.specs.Records.{IsRecordBy, IsRecordOf};
ghost use Rattle.ii_schema_text.specs.Stored.{is_any, stored_names};
ghost use Rattle.ii_segment_store.specs.Contents.{SegmentContents, segment_contents};
ghost use Rattle.nequllpa_indexing.specs.StoredLines.{StoresLines};
ghost use Rattle.serde_json.specs.Data.{member, no_members, number, object, string, unsigned};
ghost use Rattle.serde_json.specs.Read.{read};
ghost use Rattle.serde_json.specs.Written.{compact_text};

use crate::stored_lines::{StoredLineFault, line_of, store_of};
use bytes::Bytes;
use ii_base::{Fault, Schema};
use ii_documents::LineFault;
use ii_schema_text::Stored;
use ii_segment_store::{
    CommitFault, SegmentFiles, StoredSegment, StoredSegments, append_segment, load_segments,
};
use ii_store::{Directory, StoreFault};
use ii_tokenizers::FieldAnalyzers;
use nequllpa_indexing::Documents;
use std::alloc::Global;

/// Why the stored fields of a document aren't given back.
#[derive(Debug, Drop)]
pub enum StoredFieldsFault {
    /// The line is no document, or its stored fields are too long.
    Line(LineFault),
    /// The segment can't be built.
    Segment(Fault),
    /// The segment can't be added.
    Commit(CommitFault),
    /// The index can't be loaded.
    Store(StoreFault),
    /// The document can't be read.
    Document(StoredLineFault),
}

/// A line is added to an index in a directory, whose schema stores some fields, and the index is loaded: its last
/// segment gives back the text of an object of exactly the line's members of these fields, without those that are null,
/// in the order of the schema. It isn't missing.
pub fn stored_fields_come_back<D: Directory, F: FieldAnalyzers>(
    alloc: Global,
    directory: &mut D,
    schema: Schema,
    stored: Stored,
    line: &str,
    analyzers: &F,
) -> Result<Vec<u8>, StoredFieldsFault>
    requires known { D.is_known directory.old }
    requires members { stored.is_line ≡ false }
    requires some { is_any stored ≡ true }
    ensures fields { IfOk result (λ found. IsRecordBy false (stored_names stored.fields schema) line.now found.items) }
    ensures there { IsErrOf result (StoredFieldsFault.Document StoredLineFault.Missing) → ⊥ }
{
    let segment = match segment_with(alloc, schema, stored, line, analyzers) {
        Ok(segment) => segment,
        Err(fault) => return Err(fault),
    };
    match append_segment(alloc, directory, &segment) {
        Ok(()) => {}
        Err(fault) => return Err(StoredFieldsFault::Commit(fault)),
    }
    let loaded = match load_segments(alloc, directory) {
        Ok(loaded) => loaded,
        Err(fault) => return Err(StoredFieldsFault::Store(fault)),
    };
    let Some(store) = last_store(loaded) else {
        return Err(StoredFieldsFault::Document(StoredLineFault::Missing));
    };
    let Ok(bytes) = Bytes::from_vec(store) else {
        return Err(StoredFieldsFault::Document(StoredLineFault::OutOfMemory));
    };
    match line_of(alloc, bytes, 0) {
        Ok(found) => Ok(found),
        Err(fault) => Err(StoredFieldsFault::Document(fault)),
    }
}

/// Of a line with a title, a body and a year, where the body isn't stored, `{"title":TITLE,"year":YEAR}` is given back,
/// without spaces.
pub fn the_stored_title_and_year_come_back<D: Directory, F: FieldAnalyzers>(
    alloc: Global,
    directory: &mut D,
    schema: Schema,
    stored: Stored,
    line: &str,
    analyzers: &F,
) -> Result<Vec<u8>, StoredFieldsFault>
    requires known { D.is_known directory.old }
    requires names { map (λ (e : SchemaEntry). e.name) schema ≡ codes "title" ∷ codes "body" ∷ codes "year" ∷ [] }
    requires stored { stored ≡ record { is_line = false; fields = true ∷ false ∷ true ∷ [] } }
    ensures { (title body : List ℕ) (year : ℕ) → read line.now ≡ Some (object (member (codes "body") (string body) (member (codes "title") (string title) (member (codes "year") (number (unsigned year)) no_members))))
        → IfOk result (λ found. found.items ≡ compact_text (object (member (codes "title") (string title) (member (codes "year") (number (unsigned year)) no_members)))) }
{
    stored_fields_come_back(alloc, directory, schema, stored, line, analyzers)
}

// Builds a segment of a line.
fn segment_with<F: FieldAnalyzers>(
    alloc: Global,
    schema: Schema,
    stored: Stored,
    line: &str,
    analyzers: &F,
) -> Result<SegmentFiles, StoredFieldsFault>
    requires some { is_any stored ≡ true }
    ensures stored { IfOk result (λ f. (r : List ℕ) × IsRecordOf stored schema line.now r × StoresLines (Some (r ∷ [])) (option_map (λ v. v.items) f.store)) }
    ensures unread { (fault : StoredLineFault) → IsErrOf result (StoredFieldsFault.Document fault) → ⊥ }
{
    let mut documents = Documents::storing(alloc, schema, stored);
    match documents.push_line(alloc, line) {
        Ok(()) => {}
        Err(fault) => return Err(StoredFieldsFault::Line(fault)),
    }
    match documents.into_segment(alloc, analyzers) {
        Ok(segment) => Ok(segment),
        Err(fault) => Err(StoredFieldsFault::Segment(fault)),
    }
}

// Returns the file of stored documents of the last segment.
fn last_store(loaded: StoredSegments) -> Option<Vec<u8>>
    ensures { (cs : List SegmentContents) (c : SegmentContents) → map segment_contents loaded.segments.items ≡ cs ++ c ∷ [] → option_map (λ v. v.items) result ≡ c.store }
{
    let StoredSegments {
        schema: _,
        segments,
    } = loaded;
    let mut segments = segments;
    match segments.pop() {
        Some(segment) => {
            let StoredSegment { files, alive: _ } = segment;
            store_of(files)
        }
        None => None,
    }
}
