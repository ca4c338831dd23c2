//! Builds the index of lines.
ghost use Rattle.std.specs.Prelude.{◌≡◌, ◌⊎◌, [], Err, IfErr, IfOk, IfSome, List, None, Some, false};
ghost use Rattle.std.specs.Str.{IsUtf8};
ghost use Rattle.ii_definitions.specs.Fields.{option_of};
ghost use Rattle.ii_definitions.specs.Files.{HoldTokens};
ghost use Rattle.ii_definitions.specs.Norms.{HoldNorms};
ghost use Rattle.ii_definitions.specs.Tokens.{Piece, tokens_after};
ghost use Rattle.ii_indexing.specs.RamFiles.{IsRamFault};
ghost use Rattle.ii_indexing.specs.Indexer.{Stores};
ghost use Rattle.nequllpa_indexing.specs.Documents.{WereCalls};
ghost use Rattle.nequllpa_indexing.specs.FieldTokens.{calls_fault_by, tokens_by};
ghost use Rattle.nequllpa_indexing.specs.Inputs.{AddsInput};

use crate::documents::Documents;
use crate::faults::InputFault;
use ii_base::Fault;
use ii_indexing::{IndexWriters, Indexer};
use ii_store::StoredIndex;
use ii_tokenizers::FieldAnalyzers;
use std::alloc::Global;

/// Adds the document of a line, given as bytes with or without the line end. Returns whether there
/// was a document: a line of only white space has none.
///
/// Returns `NotUtf8` if the bytes aren't UTF-8, else the fault of the line (`Documents::push_line`).
/// The documents are then unchanged.
pub fn add_line(alloc: Global, documents: &mut Documents, line: &[u8]) -> Result<bool, InputFault>
    ensures added { IsUtf8 line.now → AddsInput documents.old documents.new line.now result }
    ensures kept { ¬ IsUtf8 line.now → (result ≡ Err InputFault.NotUtf8) × (documents.new ≡ documents.old) }
{
    let Ok(text) = std::str::from_utf8(line) else {
        return Err(InputFault::NotUtf8);
    };
    let text = text.trim_ascii();
    if text.is_empty() {
        return Ok(false);
    }
    match documents.push_line(alloc, text) {
        Ok(()) => Ok(true),
        Err(fault) => Err(InputFault::Line(fault)),
    }
}

/// Builds the index of documents, with the texts of each field split by its analyzer, and with the text of a
/// schema. Its files hold exactly the tokens of the documents' calls, and their norms.
///
/// Returns the first fault of the calls, a limit of the written files (`write_index`), or
/// `OutOfMemory`.
pub fn store<F: FieldAnalyzers>(
    alloc: Global,
    documents: Documents,
    analyzers: &F,
    schema: Vec<u8>,
) -> Result<StoredIndex, Fault>
    ensures says { IfOk result (λ s. (s.num_docs ≡ documents.num_docs) × (s.schema.items ≡ schema.items)) }
    ensures holds { IfOk result (λ s. HoldTokens (option_of documents.schema) s.terms.items s.postings.items s.positions.items (tokens_by (F.words analyzers.now) documents.calls)) }
    ensures norms { IfOk result (λ s. HoldNorms documents.schema documents.num_docs s.fieldnorms.items (tokens_by (F.words analyzers.now) documents.calls)) }
    ensures calls { IfOk result (λ s. WereCalls documents.schema documents.num_docs documents.calls) }
    ensures refused { IfSome (calls_fault_by (F.words analyzers.now) (option_of documents.schema) [] documents.calls) (λ fault. (result ≡ Err fault) ⊎ (result ≡ Err Fault.OutOfMemory)) }
    ensures fault { calls_fault_by (F.words analyzers.now) (option_of documents.schema) [] documents.calls ≡ None
        → IfErr result (λ e. (e ≡ Fault.OutOfMemory) ⊎ IsRamFault documents.schema documents.num_docs (tokens_by (F.words analyzers.now) documents.calls) e) }
{
    let num_docs = documents.num_docs();
    match documents.indexed(alloc, analyzers) {
        Ok(indexed) => written(alloc, num_docs, schema, indexed.0),
        Err(fault) => Err(fault),
    }
}

// Writes the files of an index to memory.
fn written(
    alloc: Global,
    num_docs: u32,
    schema: Vec<u8>,
    indexer: Indexer,
) -> Result<StoredIndex, Fault>
    requires running { indexer.failed ≡ false }
    requires docs { indexer.num_docs ≡ num_docs }
    ensures says { IfOk result (λ s. (s.num_docs ≡ num_docs) × (s.schema.items ≡ schema.items)) }
    ensures holds { (ps : List Piece) → Stores indexer ps → IfOk result (λ s. HoldTokens (option_of indexer.schema) s.terms.items s.postings.items s.positions.items (tokens_after [] ps)) }
    ensures norms { (ps : List Piece) → Stores indexer ps → IfOk result (λ s. HoldNorms indexer.schema num_docs s.fieldnorms.items (tokens_after [] ps)) }
    ensures fault { (ps : List Piece) → Stores indexer ps → IfErr result (λ e. (e ≡ Fault.OutOfMemory) ⊎ IsRamFault indexer.schema num_docs (tokens_after [] ps) e) }
{
    let (files, written) = indexer.finish(IndexWriters::in_memory(alloc));
    match written {
        Ok(()) => Ok(stored(num_docs, schema, files)),
        Err(fault) => Err(fault.in_memory()),
    }
}

// Creates an index of these files.
fn stored(num_docs: u32, schema: Vec<u8>, files: IndexWriters<Vec<u8>>) -> StoredIndex
    ensures docs { result.num_docs ≡ num_docs }
    ensures schema { result.schema.items ≡ schema.items }
    ensures terms { Some result.terms.items ≡ files.terms.contents }
    ensures postings { Some result.postings.items ≡ files.postings.contents }
    ensures positions { Some result.positions.items ≡ files.positions.contents }
    ensures fieldnorms { Some result.fieldnorms.items ≡ files.fieldnorms.contents }
{
    let IndexWriters {
        terms,
        postings,
        positions,
        fieldnorms,
    } = files;
    StoredIndex {
        num_docs,
        schema,
        terms: terms.finish(),
        postings: postings.finish(),
        positions: positions.finish(),
        fieldnorms: fieldnorms.finish(),
    }
}
