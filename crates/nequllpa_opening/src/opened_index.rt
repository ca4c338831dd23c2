//! An open index of several segments.
ghost use Rattle.std.specs.Prelude.{◌≡◌, ◌<◌, ◌≤◌, ℕ, [], IfErr, IfOk, IfSome, IsOkAnd, List, None, Ok, Some, length, map};
ghost use Rattle.std.specs.Option.{option_map};
ghost use Rattle.ii_io.specs.Composite.{composite};
ghost use Rattle.std.specs.List.{AllByRecursion, AllZip};
ghost use Rattle.ii_base.specs.Schema.{SchemaEntry};
ghost use Rattle.ii_definitions.specs.Tokens.{IndexToken};
ghost use Rattle.ii_query_parser.specs.Queries.{has_fields, keeps_positions, matches};
ghost use Rattle.ii_query_parser.specs.QueryTexts.{IsQueryOfTextBy, field_named};
ghost use Rattle.ii_schema_text.specs.SchemaText.{text_schema, tokenized_schema};
ghost use Rattle.ii_tokenizers.specs.Tokenizers.{analyzed_in, prefix_tokenizer};
ghost use Rattle.nequllpa_opening.specs.OpenedSegments.{OpensAs};
ghost use Rattle.nequllpa_opening.specs.Stored.{IsTextSchemaRefusal};

use crate::faults::OpenFault;
use crate::opened::{Opened, text_schema_of};
use ii_base::{DocId, Field, FieldEntry, Schema};
use ii_query_parser::{Query, QueryParserError, field_named, parse_query_by};
use ii_reader::InvertedIndexReader;
use ii_schema_text::Stored;
use ii_segment_store::{SegmentFiles, StoredSegment, StoredSegments};
use ii_store::StoredIndex;
use ii_tokenizers::FieldTokenizers;
use std::alloc::Global;

/// An open index: its schema, the tokenizers of its fields, what is stored of its documents, and its open segments in
/// the order of their documents.
pub struct OpenedIndex {
    schema: Schema,
    tokenizers: FieldTokenizers,
    stored: Stored,
    segments: Vec<Opened>,
}

// Makes each drop a call.
impl Drop for OpenedIndex {
    fn drop(self) {
        let OpenedIndex {
            schema: _,
            tokenizers: _,
            stored: _,
            segments: _,
        } = self;
    }
}

impl OpenedIndex {
    /// Opens each segment of an index, with the schema of the index. Its readers are those over its files, and
    /// hold the tokens that these hold. Returns the errors of `Opened::open`, of the first segment that doesn't
    /// open.
    #[tactic(auto, using(ii_schema_text::proofs::SchemaLaws::schema_alone))]
    pub fn open(alloc: Global, segments: StoredSegments) -> Result<OpenedIndex, OpenFault>
        ensures schema { IfOk result (λ o. text_schema segments.schema.items ≡ Ok o.schema) }
        ensures tokenizers { IfOk result (λ o. IsOkAnd (tokenized_schema segments.schema.items) (λ s. (s.schema ≡ o.schema) × (s.tokenizers ≡ o.tokenizers) × (s.stored ≡ o.stored))) }
        ensures segments { IfOk result (λ o. AllZip (OpensAs segments.schema.items) segments.segments.items o.segments.items) }
    {
        let StoredSegments { schema, segments } = segments;
        let opened = opened_each(alloc, schema.as_slice(), segments);
        let segments = match opened {
            Ok(segments) => segments,
            Err(fault) => return Err(fault),
        };
        match text_schema_of(alloc, schema.as_slice()) {
            Ok(schema) => {
                let (schema, tokenizers, stored) = schema.into_parts();
                Ok(OpenedIndex {
                    schema,
                    tokenizers,
                    stored,
                    segments,
                })
            }
            Err(fault) => Err(fault),
        }
    }

    /// Reads the schema of an index, given as bytes, and opens no segment. Returns `SchemaBytes` if the bytes aren't UTF-8,
    /// and `Schema` if the text is no schema.
    #[tactic(auto, using(ii_schema_text::proofs::SchemaLaws::schema_alone))]
    pub fn of_schema(alloc: Global, schema: &[u8]) -> Result<OpenedIndex, OpenFault>
        ensures schema { IfOk result (λ o. text_schema schema.now ≡ Ok o.schema) }
        ensures tokenizers { IfOk result (λ o. IsOkAnd (tokenized_schema schema.now) (λ s. (s.schema ≡ o.schema) × (s.tokenizers ≡ o.tokenizers) × (s.stored ≡ o.stored))) }
        ensures none { IfOk result (λ o. o.segments.items ≡ []) }
        ensures refused { IfErr result (IsTextSchemaRefusal schema.now) }
    {
        match text_schema_of(alloc, schema) {
            Ok(schema) => {
                let (schema, tokenizers, stored) = schema.into_parts();
                Ok(OpenedIndex {
                    schema,
                    tokenizers,
                    stored,
                    segments: Vec::new(alloc),
                })
            }
            Err(fault) => Err(fault),
        }
    }

    /// Puts open segments in the place of those that the index has.
    pub fn with_segments(self, segments: Vec<Opened>) -> OpenedIndex
        ensures same { (result.schema ≡ self.schema) × (result.tokenizers ≡ self.tokenizers) × (result.stored ≡ self.stored) }
        ensures segments { result.segments.items ≡ segments.items }
    {
        let OpenedIndex {
            schema,
            tokenizers,
            stored,
            segments: _,
        } = self;
        OpenedIndex {
            schema,
            tokenizers,
            stored,
            segments,
        }
    }

    /// Returns the schema.
    pub fn schema(&self) -> &Schema
        ensures { result.now ≡ self.now.schema }
    {
        &self.schema
    }

    /// Returns the tokenizers of the fields.
    pub fn tokenizers(&self) -> &FieldTokenizers
        ensures { result.now ≡ self.now.tokenizers }
    {
        &self.tokenizers
    }

    /// Returns what is stored of documents.
    pub fn stored(&self) -> &Stored
        ensures { result.now ≡ self.now.stored }
    {
        &self.stored
    }

    /// Parses the text of a query over the fields of the index, each with its tokenizer (`parse_query_by` of
    /// `ii_query_parser`).
    pub fn parse_query(
        &self,
        alloc: Global,
        default_fields: &[Field],
        text: &str,
    ) -> Result<Query, QueryParserError>
        ensures { IsQueryOfTextBy (record { texts = record { analyze = analyzed_in self.now.tokenizers; entries = self.now.schema }; prefixes = analyzed_in (map prefix_tokenizer self.now.tokenizers); defaults = default_fields.now }) text.now result }
    {
        parse_query_by(alloc, &self.schema, default_fields, &self.tokenizers, text)
    }

    /// Bounds what a query says of all documents by those of the largest segment (`Query::bound`), so that a search
    /// passes no more. In each segment the query matches what it did.
    #[tactic(auto, using(crate::proofs::OpenLemmas::bounded_in_each))]
    pub fn bound(&self, query: &mut Query)
        ensures same { AllByRecursion (λ s. (ts : List IndexToken) (doc : ℕ) → doc < length s.alive → matches query.new ts doc ≡ matches query.old ts doc) self.now.segments.items }
        ensures fields { (n : ℕ) → has_fields n query.new ≡ has_fields n query.old }
        ensures positions { (entries : List SchemaEntry) → keeps_positions entries query.new ≡ keeps_positions entries query.old }
    {
        query.bound(most_docs(&self.segments));
    }

    /// Returns the segments, in the order of their documents.
    pub fn segments(&self) -> &[Opened]
        ensures { result.now ≡ self.now.segments.items }
    {
        self.segments.as_slice()
    }

    /// Returns the entry of a field.
    pub fn entry(&self, field: Field) -> &FieldEntry
        requires { field < length self.now.schema }
    {
        self.schema.get_field_entry(field)
    }

    /// Returns the field with a name, if there is one.
    pub fn field_named(&self, name: &str) -> Option<Field>
        ensures named { result ≡ field_named self.now.schema name.now }
        ensures inside { IfSome result (λ field. field < length self.now.schema) }
    {
        field_named(&self.schema, name)
    }
}

// Returns how many documents the largest segment has, living and dead; 0 if there is no segment.
fn most_docs(segments: &Vec<Opened>) -> DocId
    ensures { AllByRecursion (λ s. length s.alive ≤ result) segments.now.items }
{
    let mut most = 0;
    for segment in segments {
        most = most.max(segment.alive().num_docs());
    }
    most
}

// Opens segments with a schema, given as bytes.
#[tactic(auto, using(crate::proofs::OpenLemmas::making_begins, crate::proofs::OpenLemmas::making_ends))]
fn opened_each(
    alloc: Global,
    schema: &[u8],
    segments: Vec<StoredSegment>,
) -> Result<Vec<Opened>, OpenFault>
    ensures { IfOk result (λ opened. AllZip (OpensAs schema.now) segments.items opened.items) }
{
    let mut opened = Vec::new(alloc);
    for segment in segments {
        let index = match opened_segment(alloc, schema, segment) {
            Ok(index) => index,
            Err(fault) => return Err(fault),
        };
        opened.push(index)?;
    }
    Ok(opened)
}

// Opens a segment with a schema, given as bytes.
fn opened_segment(alloc: Global, schema: &[u8], segment: StoredSegment) -> Result<Opened, OpenFault>
    ensures { IfOk result (OpensAs schema.now segment) }
{
    let schema = Vec::from_slice(alloc, schema)?;
    let StoredSegment { files, alive } = segment;
    let SegmentFiles {
        num_docs,
        terms,
        postings,
        positions,
        fieldnorms,
        counts,
        store,
    } = files;
    let index = StoredIndex {
        num_docs,
        schema,
        terms,
        postings,
        positions,
        fieldnorms,
    };
    let opened = match Opened::open(alloc, index, alive) {
        Ok(opened) => opened,
        Err(fault) => return Err(fault),
    };
    let opened = match with_counts(alloc, opened, counts) {
        Ok(opened) => opened,
        Err(fault) => return Err(fault),
    };
    match store {
        Some(bytes) => opened.with_store(alloc, bytes),
        None => Ok(opened),
    }
}

// Adds a file of counts to an open segment that has none, if there is one.
fn with_counts(alloc: Global, opened: Opened, counts: Option<Vec<u8>>) -> Result<Opened, OpenFault>
    requires none { opened.counts ≡ None }
    ensures counts { IfOk result (λ o. option_map Some o.counts ≡ option_map (λ v. composite v.items) counts) }
    ensures same { IfOk result (λ o. (o.schema ≡ opened.schema) × (o.index ≡ opened.index) × (o.num_docs ≡ opened.num_docs) × (o.alive ≡ opened.alive) × (o.store ≡ opened.store)) }
{
    let Some(bytes) = counts else {
        return Ok(opened);
    };
    match opened.with_counts(alloc, bytes) {
        Ok(opened) => Ok(opened),
        Err(fault) => Err(OpenFault::Files(fault)),
    }
}

/// Returns the reader of a field of a segment, if the segment has the field.
pub fn reader_of(segment: &Opened, field: Field) -> Option<&InvertedIndexReader> {
    if field.field_id() as usize >= segment.schema().num_fields() {
        return None;
    }
    Some(segment.reader(field))
}

/// The number of the first living document of each segment, segment after segment.
#[derive(Clone, Copy)]
pub struct Bases {
    next: u64,
}

impl Bases {
    /// Begins with the first segment.
    pub fn new() -> Bases {
        Bases { next: 0 }
    }

    /// Returns the number of the first living document of the next segment, and passes the segment.
    pub fn pass(&mut self, segment: &Opened) -> u64 {
        let base = self.next;
        self.next = base.saturating_add(u64::from(segment.num_living()));
        base
    }
}
