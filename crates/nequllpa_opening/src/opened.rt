//! An open index.
ghost use Rattle.std.specs.Prelude.{◌≡◌, ◌<◌, ◌⊎◌, ℕ, IfErr, IfOk, IfSome, IsSomeAnd, List, None, Ok, Some, if◌then◌else◌, length, slice_get};
ghost use Rattle.std.specs.Option.{option_map};
ghost use Rattle.ii_alive.specs.Alive.{num_living, rank};
ghost use Rattle.ii_io.specs.Composite.{composite};
ghost use Rattle.ii_segments.specs.Segments.{is_living};
ghost use Rattle.ii_doc_store.specs.StoreReader.{index_of};
ghost use Rattle.ii_base.specs.Schema.{SchemaEntry};
ghost use Rattle.ii_definitions.specs.Fields.{option_of};
ghost use Rattle.ii_definitions.specs.Files.{HoldTokens};
ghost use Rattle.ii_definitions.specs.Norms.{HoldNorms};
ghost use Rattle.ii_definitions.specs.Tokens.{IndexToken};
ghost use Rattle.ii_reader.specs.InvertedIndexReader.{IsRefusal};
ghost use Rattle.ii_reader.specs.OpenIndex.{IndexHolds, index_of_files};
ghost use Rattle.ii_schema_text.specs.SchemaText.{TextSchemaState, text_schema, tokenized_schema};
ghost use Rattle.ii_query_parser.specs.QueryTexts.{field_named};
ghost use Rattle.ii_store.specs.Index.{view};
ghost use Rattle.nequllpa_opening.specs.LivingTokens.{counted_tokens, has_deletes, living_tokens};
ghost use Rattle.nequllpa_opening.specs.Stored.{HoldsTokens, IsOpenRefusal, IsSchemaRefusal, IsTextSchemaRefusal, readers_of};

use crate::faults::OpenFault;
use bytes::Bytes;
use ii_alive::AliveBits;
use ii_base::{DocId, Fault, Field, FieldEntry, Part, Schema};
use ii_counts::CountReaders;
use ii_counts_merger::{CountsSource, count_tokens};
use ii_doc_store::{StoreOpenFault, StoreReader};
use ii_query_parser::field_named;
use ii_reader::{InvertedIndexReader, OpenIndex, open_index_with_norms};
use ii_schema_text::{TextSchema, read_schema, read_text_schema};
use ii_store::StoredIndex;
use std::alloc::Global;

/// An open index: its schema, a reader for each field, which of its documents are alive, how many tokens each
/// document has, if that was recorded, and its stored documents, if it has some.
pub struct Opened {
    schema: Schema,
    index: OpenIndex,
    num_docs: u32,
    alive: AliveBits,
    counts: Option<CountReaders>,
    store: Option<StoreReader>,
    ghost many: { length index.readers ≡ length schema },
}

// Makes each drop a call.
impl Drop for Opened {
    fn drop(self) {
        let Opened {
            schema: _,
            index: _,
            num_docs: _,
            alive: _,
            counts: _,
            store: _,
        } = self;
    }
}

impl Opened {
    /// Opens an index from its bytes, with the schema that they contain, and with these flags of its documents. If
    /// the bytes hold tokens of the schema's fields, the readers hold the same tokens.
    ///
    /// # Errors
    ///
    /// `SchemaBytes` if the schema isn't UTF-8, `Schema` if it is no schema. Otherwise `Files`, with
    /// `Damaged` for the first corrupt part or with `OutOfMemory`.
    pub fn open(alloc: Global, stored: StoredIndex, alive: AliveBits) -> Result<Opened, OpenFault>
        ensures alive { IfOk result (λ o. o.alive ≡ alive) }
        ensures none { IfOk result (λ o. o.counts ≡ None) }
        ensures unstored { IfOk result (λ o. o.store ≡ None) }
        ensures docs { IfOk result (λ o. o.num_docs ≡ stored.num_docs) }
        ensures schema { IfOk result (λ o. text_schema stored.schema.items ≡ Ok o.schema) }
        ensures readers { IfOk result (λ o. readers_of (view stored) o.schema ≡ Ok o.index) }
        ensures refused { IfErr result (IsOpenRefusal (view stored)) }
        ensures holds { (entries : List SchemaEntry) (ts : List IndexToken) → text_schema stored.schema.items ≡ Ok entries → HoldsTokens entries (view stored) ts
            → IfOk result (λ o. (o.schema ≡ entries) × IndexHolds entries stored.num_docs o.index ts) }
    {
        let StoredIndex {
            num_docs,
            schema,
            terms,
            postings,
            positions,
            fieldnorms,
        } = stored;
        let schema = match schema_of(alloc, schema.as_slice()) {
            Ok(schema) => schema,
            Err(fault) => return Err(fault),
        };
        let files = Files {
            terms,
            postings,
            positions,
            fieldnorms,
        };
        match files.open(alloc, &schema) {
            Ok(index) => Ok(Opened {
                schema,
                index,
                num_docs,
                alive,
                counts: None,
                store: None,
            }),
            Err(fault) => {
                drop(schema);
                Err(OpenFault::Files(fault))
            }
        }
    }

    /// Makes an open index of its parts, without counts and stored documents. There must be a reader for each field of the
    /// schema.
    pub fn of_parts(schema: Schema, index: OpenIndex, num_docs: u32, alive: AliveBits) -> Opened
        requires { length index.readers ≡ length schema }
        ensures parts { (result.schema ≡ schema) × (result.index ≡ index) × (result.num_docs ≡ num_docs) × (result.alive ≡ alive) }
        ensures none { (result.counts ≡ None) × (result.store ≡ None) }
    {
        Opened {
            schema,
            index,
            num_docs,
            alive,
            counts: None,
            store: None,
        }
    }

    /// Adds a file of counts. Returns `Damaged(Composite)` if its table is corrupt.
    pub fn with_counts(self, alloc: Global, bytes: Vec<u8>) -> Result<Opened, Fault>
        ensures counts { IfOk result (λ o. option_map Some o.counts ≡ Some (composite bytes.items)) }
        ensures same { IfOk result (λ o. (o.schema ≡ self.schema) × (o.index ≡ self.index) × (o.num_docs ≡ self.num_docs) × (o.alive ≡ self.alive)) }
        ensures store { IfOk result (λ o. o.store ≡ self.store) }
    {
        let counts = CountReaders::open(alloc, Bytes::from_vec(bytes)?)?;
        let Opened {
            schema,
            index,
            num_docs,
            alive,
            counts: _,
            store,
        } = self;
        Ok(Opened {
            schema,
            index,
            num_docs,
            alive,
            counts: Some(counts),
            store,
        })
    }

    /// Adds a file of stored documents. Returns `Documents` if its footer or its index is damaged.
    pub fn with_store(self, alloc: Global, bytes: Vec<u8>) -> Result<Opened, OpenFault>
        ensures store { IfOk result (λ o. IsSomeAnd o.store (λ r. (r.bytes ≡ bytes.items) × (index_of bytes.items ≡ Ok r.checkpoints))) }
        ensures same { IfOk result (λ o. (o.schema ≡ self.schema) × (o.index ≡ self.index) × (o.num_docs ≡ self.num_docs) × (o.alive ≡ self.alive) × (o.counts ≡ self.counts)) }
    {
        let store = match StoreReader::open(alloc, Bytes::from_vec(bytes)?) {
            Ok(store) => store,
            Err(fault) => return Err(documents_fault(fault)),
        };
        let Opened {
            schema,
            index,
            num_docs,
            alive,
            counts,
            store: _,
        } = self;
        Ok(Opened {
            schema,
            index,
            num_docs,
            alive,
            counts,
            store: Some(store),
        })
    }

    /// Returns the stored documents, living and dead, if there are some.
    pub fn store(&self) -> Option<&StoreReader>
        ensures { option_map (λ r. r.now) result ≡ self.now.store }
    {
        match &self.store {
            Some(store) => Some(store),
            None => None,
        }
    }

    /// Returns which documents are alive.
    pub fn alive(&self) -> &AliveBits
        ensures { result.now ≡ self.now.alive }
    {
        &self.alive
    }

    /// Returns how many documents are alive.
    pub fn num_living(&self) -> u32
        ensures { result ≡ num_living self.now.alive }
    {
        self.alive.num_living()
    }

    /// Returns whether a document was deleted.
    pub fn has_deletes(&self) -> bool
        ensures { result ≡ has_deletes self.now.alive }
    {
        self.alive.num_living() < self.alive.num_docs()
    }

    /// Returns how many documents before a document are alive, or `None` if it isn't alive itself.
    pub fn number_of(&self, doc: DocId) -> Option<u32>
        ensures { result ≡ (if is_living self.now.alive doc then Some (rank self.now.alive doc) else None) }
    {
        if is_living(&self.alive, doc) {
            return Some(self.alive.rank(doc));
        }
        None
    }

    /// Returns the number of tokens that the living documents have in a field. Once a document was deleted, only the
    /// file of counts tells it.
    ///
    /// # Errors
    ///
    /// `Damaged(TokenCount)` if a document was deleted, and there is no file of counts, or it doesn't have a count for
    /// each document in the field; `OutOfMemory` if an allocation fails.
    pub fn num_tokens(&self, alloc: Global, field: Field) -> Result<u64, Fault>
        requires { field < length self.now.schema }
        ensures ok { IfOk result (λ n. living_tokens field self.now.index self.now.counts self.now.alive ≡ Some n) }
        ensures err { IfErr result (λ e. (e ≡ Fault.OutOfMemory) ⊎ ((e ≡ Fault.Damaged Part.TokenCount) × (living_tokens field self.now.index self.now.counts self.now.alive ≡ None))) }
    {
        if !self.has_deletes() {
            return Ok(self.reader(field).total_num_tokens());
        }
        self.counted_tokens(alloc, field)
    }

    // Returns the number of tokens that the living documents have in a field, by the file of counts.
    fn counted_tokens(&self, alloc: Global, field: Field) -> Result<u64, Fault>
        ensures ok { IfOk result (λ n. counted_tokens field self.now.counts self.now.alive ≡ Some n) }
        ensures err { IfErr result (λ e. (e ≡ Fault.OutOfMemory) ⊎ ((e ≡ Fault.Damaged Part.TokenCount) × (counted_tokens field self.now.counts self.now.alive ≡ None))) }
    {
        let Some(counts) = &self.counts else {
            return Err(Fault::Damaged(Part::TokenCount));
        };
        let alive = &self.alive;
        count_tokens(alloc, field, CountsSource { counts, alive })
    }

    /// Returns the number of documents, deleted ones included.
    pub fn num_docs(&self) -> u32
        ensures { result ≡ self.now.num_docs }
    {
        self.num_docs
    }

    /// Returns the schema.
    pub fn schema(&self) -> &Schema
        ensures { result.now ≡ self.now.schema }
    {
        &self.schema
    }

    /// Returns the readers.
    pub fn index(&self) -> &OpenIndex
        ensures same { result.now ≡ self.now.index }
        ensures many { length result.now.readers ≡ length self.now.schema }
    {
        &self.index
    }

    /// Returns the entry of a field.
    pub fn entry(&self, field: Field) -> &FieldEntry
        requires { field < length self.now.schema }
        ensures { slice_get self.now.schema field ≡ Some result.now }
    {
        self.schema.get_field_entry(field)
    }

    /// Returns the reader of a field.
    pub fn reader(&self, field: Field) -> &InvertedIndexReader
        requires { field < length self.now.schema }
        ensures { slice_get self.now.index.readers field ≡ Some result.now }
    {
        self.index.reader(field)
    }

    /// Returns the field with a name, if there is one.
    pub fn field_named(&self, name: &str) -> Option<Field>
        ensures named { result ≡ field_named self.now.schema name.now }
        ensures inside { IfSome result (λ field. field < length self.now.schema) }
    {
        field_named(&self.schema, name)
    }
}

// Returns why stored documents don't open.
fn documents_fault(fault: StoreOpenFault) -> OpenFault {
    match fault {
        StoreOpenFault::Damaged(damage) => OpenFault::Documents(damage),
        StoreOpenFault::OutOfMemory => OpenFault::Files(Fault::OutOfMemory),
    }
}

/// Returns whether a document is alive; one that the flags don't cover isn't.
pub fn is_living(alive: &AliveBits, doc: DocId) -> bool
    ensures { result ≡ is_living alive.now doc }
{
    if doc >= alive.num_docs() {
        return false;
    }
    alive.is_alive(doc)
}

/// Reads the schema of an index. Returns `SchemaBytes` if the bytes aren't UTF-8, and `Schema` if the text is
/// no schema.
pub fn schema_of(alloc: Global, bytes: &[u8]) -> Result<Schema, OpenFault>
    ensures says { IfOk result (λ schema. text_schema bytes.now ≡ Ok schema) }
    ensures taken { (entries : List SchemaEntry) → text_schema bytes.now ≡ Ok entries → IfOk result (λ schema. schema ≡ entries) }
    ensures refused { IfErr result (IsSchemaRefusal bytes.now) }
{
    let Ok(text) = std::str::from_utf8(bytes) else {
        return Err(OpenFault::SchemaBytes);
    };
    match read_schema(alloc, text) {
        Ok(schema) => Ok(schema),
        Err(fault) => Err(OpenFault::Schema(fault)),
    }
}

/// Reads the schema of an index, with the tokenizers of its fields. Returns `SchemaBytes` if the bytes aren't
/// UTF-8, and `Schema` if the text is no schema.
pub fn text_schema_of(alloc: Global, bytes: &[u8]) -> Result<TextSchema, OpenFault>
    ensures says { IfOk result (λ schema. tokenized_schema bytes.now ≡ Ok schema) }
    ensures taken { (s : TextSchemaState) → tokenized_schema bytes.now ≡ Ok s → IfOk result (λ schema. schema ≡ s) }
    ensures refused { IfErr result (IsTextSchemaRefusal bytes.now) }
{
    let Ok(text) = std::str::from_utf8(bytes) else {
        return Err(OpenFault::SchemaBytes);
    };
    match read_text_schema(alloc, text) {
        Ok(schema) => Ok(schema),
        Err(error) => Err(OpenFault::Schema(error)),
    }
}

// The files of an index.
struct Files {
    terms: Vec<u8>,
    postings: Vec<u8>,
    positions: Vec<u8>,
    fieldnorms: Vec<u8>,
}

// Makes each drop a call.
impl Drop for Files {
    fn drop(self) {
        let Files {
            terms: _,
            postings: _,
            positions: _,
            fieldnorms: _,
        } = self;
    }
}

impl Files {
    fn open(self, alloc: Global, schema: &Schema) -> Result<OpenIndex, Fault>
        ensures many { IfOk result (λ index. length index.readers ≡ length schema.now) }
        ensures ok { IfOk result (λ index. index_of_files self.terms.items self.postings.items self.positions.items self.fieldnorms.items schema.now ≡ Ok index) }
        ensures err { IfErr result (IsRefusal (index_of_files self.terms.items self.postings.items self.positions.items self.fieldnorms.items schema.now)) }
        ensures holds { (n : ℕ) (ts : List IndexToken) → HoldTokens (option_of schema.now) self.terms.items self.postings.items self.positions.items ts → HoldNorms schema.now n self.fieldnorms.items ts
            → IfOk result (λ index. IndexHolds schema.now n index ts) }
    {
        let Files {
            terms,
            postings,
            positions,
            fieldnorms,
        } = self;
        let terms = Bytes::from_vec(terms)?;
        let postings = Bytes::from_vec(postings)?;
        let positions = Bytes::from_vec(positions)?;
        let fieldnorms = Bytes::from_vec(fieldnorms)?;
        open_index_with_norms(alloc, terms, postings, positions, fieldnorms, schema)
    }
}
