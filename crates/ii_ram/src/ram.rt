//! An index in memory: indexes calls, and returns readers of the fields.
ghost use Rattle.std.specs.Prelude.{◌≡◌, ◌≤◌, ◌⊎◌, [], ℕ, List, length, map, None, Err, IfErr, IfOk, IfSome, OnOk, Some};
ghost use Rattle.std.specs.List.{All};
ghost use Rattle.ii_base.specs.declared.doc_id.TheConstants.{TERMINATED};
ghost use Rattle.ii_definitions.specs.Fields.{option_of};
ghost use Rattle.ii_definitions.specs.Files.{HoldTokens};
ghost use Rattle.ii_definitions.specs.Norms.{HoldNorms};
ghost use Rattle.ii_definitions.specs.Tokens.{IndexToken, tokens_of};
ghost use Rattle.ii_definitions.specs.IndexCalls.{MayAllBeIndexed, call_of};
ghost use Rattle.ii_indexing.specs.Refusals.{calls_fault};
ghost use Rattle.ii_indexing.specs.RamFiles.{IsRamFault};
ghost use Rattle.ii_reader.specs.InvertedIndexReader.{AllOpen, IsTrusted};
ghost use Rattle.ii_reader.specs.OpenIndex.{GivesReaders, IndexHolds, NormsHold, index_of_files, trusted_index};
ghost use Rattle.ii_ram.specs.OpenedFiles.{OpensFiles};
ghost use Rattle.ii_ram.specs.TrueBounds.{IndexHasTrueBounds};

use bytes::Bytes;
use ii_base::{Fault, Schema, TextAnalyzer};
use ii_docset::DocId;
use ii_indexing::{IndexCall, IndexWriters, write_index};
use ii_reader::{OpenIndex, open_index_with_norms};
use std::alloc::Global;

/// Indexes calls in memory, and opens the index. The readers hold exactly the tokens of the calls.
/// The norms give each document's number of tokens in each field that keeps norms, and the bounds of full blocks
/// are true by them.
///
/// Document ids must not decrease, and must be less than `num_docs`, which is at most `TERMINATED`.
/// Each call's field must be indexed and have values of the call's type. The index is trusted, as it
/// was just written: lookups open posting lists without validation.
///
/// Returns the first fault of the calls (`Indexer::index`), a limit of the written files
/// (`Indexer::finish`), or `OutOfMemory`. Never returns `Write`: a failed write to memory is an
/// allocation failure.
pub fn index_in_ram<A: TextAnalyzer>(
    alloc: Global,
    schema: Schema,
    num_docs: DocId,
    calls: Vec<IndexCall>,
    analyzer: &A,
) -> Result<OpenIndex, Fault>
    requires docs { num_docs ≤ TERMINATED }
    requires calls { MayAllBeIndexed schema num_docs calls.items }
    ensures holds { IfOk result (λ index. IndexHolds schema num_docs index (tokens_of (A.words analyzer.now) (map (call_of schema) calls.items))) }
    ensures many { IfOk result (λ index. length index.readers ≡ length schema) }
    ensures trusted { IfOk result (λ index. All IsTrusted index.readers) }
    ensures bounds { IfOk result IndexHasTrueBounds }
    ensures refused { IfSome (calls_fault (A.words analyzer.now) (option_of schema) [] (map (call_of schema) calls.items)) (λ fault. (result ≡ Err fault) ⊎ (result ≡ Err Fault.OutOfMemory)) }
    ensures fault { calls_fault (A.words analyzer.now) (option_of schema) [] (map (call_of schema) calls.items) ≡ None
        → IfErr result (λ e. (e ≡ Fault.OutOfMemory) ⊎ IsRamFault schema num_docs (tokens_of (A.words analyzer.now) (map (call_of schema) calls.items)) e) }
{
    let copy = schema.clone()?;
    let files = IndexWriters::in_memory(alloc);
    let (files, written) = write_index(alloc, schema, num_docs, calls, analyzer, files);
    match written {
        Ok(()) => match open_in_ram(alloc, files, &copy) {
            Ok(index) => Ok(trusted(index)),
            Err(fault) => Err(fault),
        },
        Err(fault) => Err(fault.in_memory()),
    }
}

// Marks an index as trusted, each of whose terms opens.
fn trusted(index: OpenIndex) -> OpenIndex
    requires { All AllOpen index.readers }
    ensures { result ≡ trusted_index index }
{
    let mut index = index;
    index.trust();
    index
}

/// Opens an index whose files were written to memory, over the fields of a schema, with their norms. Lists are
/// validated when they are opened.
///
/// Returns `Damaged` with the first corrupt part as `open_index_with_norms` does, never for files that hold
/// tokens and norms, and `OutOfMemory` if an allocation fails.
pub fn open_in_ram(
    alloc: Global,
    files: IndexWriters<Vec<u8>>,
    schema: &Schema,
) -> Result<OpenIndex, Fault>
    ensures opened { (terms : List ℕ) (postings : List ℕ) (positions : List ℕ) (fieldnorms : List ℕ)
        → files.terms.contents ≡ Some terms → files.postings.contents ≡ Some postings → files.positions.contents ≡ Some positions → files.fieldnorms.contents ≡ Some fieldnorms
        → OpensFiles (index_of_files terms postings positions fieldnorms schema.now) result }
    ensures holds { (terms : List ℕ) (postings : List ℕ) (positions : List ℕ) (fieldnorms : List ℕ) (num_docs : ℕ) (tokens : List IndexToken)
        → files.terms.contents ≡ Some terms → files.postings.contents ≡ Some postings → files.positions.contents ≡ Some positions → files.fieldnorms.contents ≡ Some fieldnorms
        → HoldTokens (option_of schema.now) terms postings positions tokens → HoldNorms schema.now num_docs fieldnorms tokens
        → GivesReaders schema.now tokens result × IfOk result (λ index. NormsHold schema.now num_docs index.fieldnorms tokens) }
    ensures many { IfOk result (λ index. length index.readers ≡ length schema.now) }
{
    let IndexWriters {
        terms,
        postings,
        positions,
        fieldnorms,
    } = files;
    open_index_with_norms(
        alloc,
        Bytes::from_vec(terms.finish())?,
        Bytes::from_vec(postings.finish())?,
        Bytes::from_vec(positions.finish())?,
        Bytes::from_vec(fieldnorms.finish())?,
        schema,
    )
}
