ghost use Rattle.std.specs.Prelude.{◌≡◌, ◌++◌, ◌<◌, ◌≤◌, [], List, length, map, codes, decimal, string_bytes, IfOk, IfSome, IsErr, is_none, true};
ghost use Rattle.ii_io.specs.Faults.{OnlyMemory, number_of};
ghost use Rattle.ii_base.specs.declared.doc_id.TheConstants.{TERMINATED};
ghost use Rattle.ii_definitions.specs.Tokens.{IndexToken};
ghost use Rattle.ii_definitions.specs.IndexCalls.{MayAllBeIndexed, call_of};
ghost use Rattle.ii_query_parser.specs.Queries.{has_fields, keeps_positions};
ghost use Rattle.iiq.specs.Known.{FindsBelow, FindsDocs, GivesIndex, IsCall, IsOpen, IsQuery, IsSession, Keeps, Knows};
ghost use Rattle.iiq.specs.Output.{key_text, look_up_text, term_text};
ghost use Rattle.iiq.specs.Session.{Session as SessionState, gathering, opened, Indexes, fields, num_docs_of};

use crate::commands::Query;
use crate::output::{push_found, push_list};
use ii_base::{
    AsciiTokenizer, Fault, Field, FieldEntry, IndexRecordOption, Schema, Term, ValueType,
};
use ii_docset::DocId;
use ii_indexing::IndexCall;
use ii_ram::{QueryParserError, index_in_ram, parse_query, search};
use ii_reader::OpenIndex;
use std::alloc::{AllocError, Global};
use std::mem;

/// The state that a run keeps from line to line: index calls with their number of documents, and from
/// the first lookup on their index, or its fault.
#[derive(Drop)]
pub struct Session {
    pub calls: Vec<IndexCall>,
    pub num_docs: DocId,
    pub index: Option<Result<OpenIndex, Fault>>,
}

impl Session {
    /// Creates a session without calls.
    pub fn new(alloc: Global) -> Session
        ensures { Knows result (gathering []) }
    {
        Session {
            calls: Vec::new(alloc),
            num_docs: 0,
            index: None,
        }
    }

    /// Keeps a call, and returns whether it did. A call isn't kept after an index was requested, or
    /// if its document is below the last one.
    pub fn keep(&mut self, call: IndexCall) -> Result<bool, AllocError>
        requires session { IsSession self.old }
        requires call { IsCall call }
        ensures { (s : SessionState) → Knows self.old s → IfOk result (λ kept. Keeps s (call_of fields call) self.new kept) }
    {
        if self.index.is_some() {
            return Ok(false);
        }
        let num_docs = call.doc() + 1;
        if num_docs < self.num_docs {
            return Ok(false);
        }
        self.calls.push(call)?;
        self.num_docs = num_docs;
        Ok(true)
    }

    /// Looks up a term: returns its list, as far as it is requested and recorded, or `none` if it
    /// didn't occur. If indexing failed, returns `error` and the fault's number.
    pub fn look_up(&mut self, alloc: Global, query: &Query) -> Result<String, AllocError>
        requires session { IsSession self.old }
        requires field { IfSome query.now.term (λ t. t.field < length fields) }
        ensures { (s : SessionState) → Knows self.old s → (t : SessionState) × Indexes s t × Knows self.new t
            × IfOk result (λ text. string_bytes text ≡ look_up_text t query.now.requested query.now.term) }
    {
        self.open(alloc);
        match &self.index {
            None => Ok(String::new(alloc)),
            Some(Ok(index)) => query_text(alloc, index, query),
            Some(Err(fault)) => error_text(alloc, *fault),
        }
    }

    /// Searches: returns the documents that match a query, or `none`. If indexing failed, returns
    /// `error` and the fault's number.
    pub fn search(&mut self, alloc: Global, query: ii_ram::Query) -> Result<String, AllocError>
        requires session { IsSession self.old }
        requires fields { has_fields (length fields) query ≡ true }
        requires positions { keeps_positions fields query ≡ true }
        ensures { (s : SessionState) → Knows self.old s → (t : SessionState) × Indexes s t × Knows self.new t
            × IfOk result (λ text. FindsDocs t query (string_bytes text)) }
    {
        self.open(alloc);
        let num_docs = self.num_docs;
        match &self.index {
            None => Ok(String::new(alloc)),
            Some(Ok(index)) => found_text(alloc, index, query, num_docs),
            Some(Err(refusal)) => error_text(alloc, *refusal),
        }
    }

    // Indexes the calls, unless that was done.
    fn open(&mut self, alloc: Global)
        requires { IsSession self.old }
        ensures { (s : SessionState) → Knows self.old s → (t : SessionState) × Indexes s t × Knows self.new t }
    {
        if self.index.is_some() {
            return;
        }
        let calls = mem::replace(&mut self.calls, Vec::new(alloc));
        self.index = Some(index_of(alloc, calls, self.num_docs));
    }
}

// Indexes calls in memory.
fn index_of(alloc: Global, calls: Vec<IndexCall>, num_docs: DocId) -> Result<OpenIndex, Fault>
    requires docs { num_docs ≤ TERMINATED }
    requires many { num_docs ≡ num_docs_of (map (call_of fields) calls.items) }
    requires calls { MayAllBeIndexed fields num_docs calls.items }
    ensures { GivesIndex (map (call_of fields) calls.items) result }
{
    let schema = schema(alloc)?;
    index_in_ram(alloc, schema, num_docs, calls, &AsciiTokenizer)
}

// Creates the schema: texts with positions, numbers, and JSON values whose texts have positions.
fn schema(alloc: Global) -> Result<Schema, Fault>
    ensures ok { IfOk result (λ schema. schema ≡ fields) }
    ensures only { OnlyMemory result }
{
    let mut entries = Vec::new(alloc);
    let name = String::from_str(alloc, "text")?;
    let option = IndexRecordOption::WithFreqsAndPositions;
    entries.push(FieldEntry::text(name, option, false))?;
    let name = String::from_str(alloc, "num")?;
    entries.push(FieldEntry::value(name, ValueType::U64, false))?;
    let name = String::from_str(alloc, "leaf")?;
    entries.push(FieldEntry::json(name, option, false))?;
    Ok(Schema::new(entries))
}

// Returns what a lookup finds in an index, or `none` if it has no term.
fn query_text(alloc: Global, index: &OpenIndex, query: &Query) -> Result<String, AllocError>
    requires many { length index.now.readers ≡ length fields }
    requires field { IfSome query.now.term (λ t. t.field < length fields) }
    ensures { (ts : List IndexToken) → IsOpen index.now ts
        → IfOk result (λ text. string_bytes text ≡ term_text query.now.requested query.now.term ts) }
{
    match &query.term {
        None => String::from_str(alloc, "none"),
        Some(term) => list_text(alloc, index, term, query.requested),
    }
}

// Returns the list of a term in an index, or `none`.
fn list_text(
    alloc: Global,
    index: &OpenIndex,
    term: &Term,
    requested: IndexRecordOption,
) -> Result<String, AllocError>
    requires many { length index.now.readers ≡ length fields }
    requires field { term.now.field < length fields }
    ensures { (ts : List IndexToken) → IsOpen index.now ts
        → IfOk result (λ text. string_bytes text ≡ key_text requested term.now.field term.now.value ts) }
{
    let reader = index.reader(term.field());
    match reader.read_postings(term, requested) {
        Ok(None) => String::from_str(alloc, "none"),
        Ok(Some(mut cursor)) => {
            let mut text = String::new(alloc);
            let option = reader.record_option().downgrade(requested);
            push_list(alloc, &mut text, &mut cursor, option)?;
            Ok(text)
        }
        Err(_) => Err(AllocError),
    }
}

// Returns the documents of an index that match a query and are below a number, or `none`. It passes no documents
// that aren't below the number.
fn found_text(
    alloc: Global,
    index: &OpenIndex,
    query: ii_ram::Query,
    num_docs: DocId,
) -> Result<String, AllocError>
    requires many { length index.now.readers ≡ length fields }
    requires fields { has_fields (length fields) query ≡ true }
    requires positions { keeps_positions fields query ≡ true }
    ensures { (ts : List IndexToken) → IsOpen index.now ts → num_docs ≤ TERMINATED
        → IfOk result (λ text. FindsBelow num_docs ts query (string_bytes text)) }
{
    let mut query = query;
    query.bound(num_docs);
    found_below(alloc, index, query, num_docs)
}

// Returns the documents of an index that match a query and are below a number, or `none`.
fn found_below(
    alloc: Global,
    index: &OpenIndex,
    query: ii_ram::Query,
    num_docs: DocId,
) -> Result<String, AllocError>
    requires many { length index.now.readers ≡ length fields }
    requires fields { has_fields (length fields) query ≡ true }
    requires positions { keeps_positions fields query ≡ true }
    ensures { (ts : List IndexToken) → IsOpen index.now ts → num_docs ≤ TERMINATED
        → IfOk result (λ text. FindsBelow num_docs ts query (string_bytes text)) }
{
    let all = ii_ram::Query::All(num_docs);
    let Ok(bounded) = ii_ram::Query::and(alloc, query, all) else {
        return Err(AllocError);
    };
    match search(alloc, index, &bounded) {
        Ok(mut cursor) => {
            let mut text = String::new(alloc);
            push_found(&mut text, &mut cursor)?;
            Ok(text)
        }
        Err(_) => Err(AllocError),
    }
}

/// Parses a text as a query, if it is one.
pub fn query_of_text(alloc: Global, text: &str) -> Result<Option<ii_ram::Query>, AllocError>
    ensures { IfOk result (IsQuery text.now) }
{
    let Ok(schema) = schema(alloc) else {
        return Err(AllocError);
    };
    let defaults = [Field::from_field_id(0)];
    match parse_query(alloc, &schema, &defaults, &AsciiTokenizer, text) {
        Ok(query) => Ok(Some(query)),
        Err(error) => no_query(error),
    }
}

// Returns no query, or an error if an allocation failed.
fn no_query(error: QueryParserError) -> Result<Option<ii_ram::Query>, AllocError>
    ensures none { IfOk result (λ query. is_none query ≡ true) }
    ensures ok { (fault : Fault) → error ≡ QueryParserError.Fault fault → IsErr result }
{
    match error {
        QueryParserError::Fault(_) => Err(AllocError),
        _ => Ok(None),
    }
}

// Returns `error` and the number of a fault.
fn error_text(alloc: Global, fault: Fault) -> Result<String, AllocError>
    ensures { IfOk result (λ text. string_bytes text ≡ codes "error " ++ decimal (number_of fault)) }
{
    let mut text = String::new(alloc);
    write!(text, "error {}", fault.number())?;
    Ok(text)
}
